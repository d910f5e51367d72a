// The bytes of the input: within the limits of a module, or all of them.
ghost use Rattle.std.specs.Prelude.{◌≡◌, ◌+◌, ◌<◌, ◌≤◌, length, vec_len, true, false, IfOk, IfSome, OnOk, IsErrOf};
ghost use Rattle.std.specs.Io.KnownBytes.{Consumes, IsAtEnd};
ghost use Rattle.program_runs.specs.Input.{ReadsMore, IsInputOf, IsUnread};

use std::alloc::{AllocError, Global};
use term_core::Source;

/// Once more bytes than this came, nothing more is read. No module is longer.
pub const INPUT_LIMIT: usize = 1_048_576;

/// The most bytes that one read takes.
pub const PIECE_LIMIT: usize = 65_536;

/// The most reads.
pub const READ_LIMIT: usize = 2_097_152;

/// Why an input was not read.
#[derive(Clone, Copy, Debug, PartialEq, Eq)]
pub enum InputFault {
    /// A read failed.
    ReadFailed,
    /// There was no memory.
    Memory,
}

impl From<AllocError> for InputFault {
    ghost use Rattle.program_runs.specs.declared.input.InputFault.TheVariants.{Memory};

    ghost from_gives = { λ _ fault. fault ≡ Memory };

    fn from(_error: AllocError) -> InputFault {
        InputFault::Memory
    }
}

/// Reads to the end of the source, but no further once more than `INPUT_LIMIT` bytes came. It makes at
/// most `READ_LIMIT` reads of at most `PIECE_LIMIT` bytes, so that it ends on each source.
///
/// # Errors
///
/// `ReadFailed` where a read failed, `Memory` where a growth was refused.
pub fn read_input<R: Source>(alloc: Global, source: &mut R) -> Result<Vec<u8>, InputFault>
    requires { R.has_failed source.old ≡ false }
    // All that the source had, or where that is more than a module may have, a beginning that is too.
    ensures input { IfOk result (λ read. IfSome (R.remaining source.old) (λ all. IsInputOf 1048576 all read.items)) }
    // And nothing after it, however long the source is.
    ensures consumed { IfOk result (λ read. Consumes (R.remaining source.old) (R.remaining source.new) read.items) }
    ensures bound { IfOk result (λ read. vec_len read ≤ 1114112) }
    ensures sound { OnOk result (R.has_failed source.new ≡ false) }
    ensures read_failed { IsErrOf result InputFault.ReadFailed → R.has_failed source.new ≡ true }
    ensures memory { IsErrOf result InputFault.Memory → R.has_failed source.new ≡ false }
{
    let mut buffer = zeros(alloc, PIECE_LIMIT)?;
    read_through(alloc, source, &mut buffer)
}

// Reads through a buffer to the end of the source, or until more than `INPUT_LIMIT` bytes came.
fn read_through<R: Source>(
    alloc: Global,
    source: &mut R,
    buffer: &mut [u8],
) -> Result<Vec<u8>, InputFault>
    requires sound { R.has_failed source.old ≡ false }
    requires room { length buffer.old ≡ 65536 }
    ensures bytes { IfOk result (λ read. Consumes (R.remaining source.old) (R.remaining source.new) read.items) }
    ensures end { IfOk result (λ read. length read.items ≤ 1048576 → IsAtEnd (R.remaining source.new)) }
    ensures bound { IfOk result (λ read. vec_len read ≤ 1114112) }
    ensures sound { OnOk result (R.has_failed source.new ≡ false) }
    ensures read_failed { IsErrOf result InputFault.ReadFailed → R.has_failed source.new ≡ true }
    ensures memory { IsErrOf result InputFault.Memory → R.has_failed source.new ≡ false }
{
    let mut bytes = Vec::new(alloc);
    for _turn in 0..READ_LIMIT {
        let count = read_piece(source, buffer, &mut bytes)?;
        if count == 0 || bytes.len() > INPUT_LIMIT {
            return Ok(bytes);
        }
    }
    Err(InputFault::ReadFailed)
}

/// Reads to the end of the source, however many bytes it has. It makes at most `READ_LIMIT` reads of at most
/// `PIECE_LIMIT` bytes, so that it ends on each source.
///
/// # Errors
///
/// `ReadFailed` where a read failed, or the reads are used up; `Memory` where a growth was refused.
pub fn read_whole<R: Source>(alloc: Global, source: &mut R) -> Result<Vec<u8>, InputFault>
    requires { R.has_failed source.old ≡ false }
    ensures input { IfOk result (λ read. IfSome (R.remaining source.old) (λ all. read.items ≡ all)) }
    ensures end { OnOk result (IsAtEnd (R.remaining source.new)) }
    ensures sound { OnOk result (R.has_failed source.new ≡ false) }
    // The reads are used up only where the source had at least as many bytes.
    ensures read_failed { IsErrOf result InputFault.ReadFailed → IsUnread (R.remaining source.old) (R.has_failed source.new) }
    ensures memory { IsErrOf result InputFault.Memory → R.has_failed source.new ≡ false }
{
    let mut buffer = zeros(alloc, PIECE_LIMIT)?;
    read_to_end(alloc, source, &mut buffer)
}

// Reads through a buffer to the end of the source.
fn read_to_end<R: Source>(
    alloc: Global,
    source: &mut R,
    buffer: &mut [u8],
) -> Result<Vec<u8>, InputFault>
    requires sound { R.has_failed source.old ≡ false }
    requires room { length buffer.old ≡ 65536 }
    ensures bytes { IfOk result (λ read. Consumes (R.remaining source.old) (R.remaining source.new) read.items) }
    ensures end { OnOk result (IsAtEnd (R.remaining source.new)) }
    ensures sound { OnOk result (R.has_failed source.new ≡ false) }
    ensures read_failed { IsErrOf result InputFault.ReadFailed → IsUnread (R.remaining source.old) (R.has_failed source.new) }
    ensures memory { IsErrOf result InputFault.Memory → R.has_failed source.new ≡ false }
{
    let mut bytes = Vec::new(alloc);
    for _turn in 0..READ_LIMIT {
        let count = read_piece(source, buffer, &mut bytes)?;
        if count == 0 {
            return Ok(bytes);
        }
    }
    Err(InputFault::ReadFailed)
}

// This many zeros.
fn zeros(alloc: Global, count: usize) -> Result<Vec<u8>, AllocError>
    ensures { IfOk result (λ made. vec_len made ≡ count) }
{
    vec![in alloc; 0; count]
}

// Puts what one read gives after the bytes, and says how many there were: none only at the end.
fn read_piece<R: Source>(
    source: &mut R,
    buffer: &mut [u8],
    bytes: &mut Vec<u8>,
) -> Result<usize, InputFault>
    requires sound { R.has_failed source.old ≡ false }
    requires room { 0 < length buffer.old }
    ensures bytes { IfOk result (ReadsMore (R.remaining source.old) (R.remaining source.new) bytes.old.items bytes.new.items) }
    ensures bound { IfOk result (λ count. count ≤ length buffer.old) }
    ensures count { IfOk result (λ count. vec_len bytes.new ≡ vec_len bytes.old + count) }
    ensures sound { OnOk result (R.has_failed source.new ≡ false) }
    ensures read_failed { IsErrOf result InputFault.ReadFailed → R.has_failed source.new ≡ true }
    ensures memory { IsErrOf result InputFault.Memory → R.has_failed source.new ≡ false }
{
    let Ok(count) = source.read(buffer) else {
        return Err(InputFault::ReadFailed);
    };
    let (piece, _) = buffer.split_at(count);
    bytes.extend_from_slice(piece)?;
    Ok(count)
}
