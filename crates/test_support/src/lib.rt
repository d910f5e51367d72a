// What tests are made of: streams in memory that behave as badly as streams may, texts of many equal parts, and what
// a call is as text. No crate of the program lists this one.
#![tactic(auto)]

ghost use Rattle.std.specs.Prelude.{◌≡◌, ◌↔◌, [], ◌+◌, ◌++◌, ◌==◌, ◌&&◌, ◌||◌, not, min, IfOk, IsOk, IsOkAnd, OnErr, OnOk, Some, None, false, true, is_err, is_ok, length, string_bytes, EachIndex, slice_index};
ghost use Rattle.std.specs.List.{repeat};
ghost use Rattle.std.specs.Io.{ReadsAtMost, WritesAtMost};
ghost use Rattle.std.specs.Io.KnownBytes.{Keeps, ReadConsumes, WriteAppends};
ghost use Rattle.term_core.specs.Stream.{took_nothing};

use std::alloc::{AllocError, Global};
use std::io::ErrorKind;
use std::test::Fail;
use std::{io, str};
use term_core::{Output, Sink, Source, Terms, WriteFault, write_all, write_term};

// What was found, and what was expected.
fn difference(got: &[u8], wanted: &[u8]) -> Fail {
    match (str::from_utf8(got), str::from_utf8(wanted)) {
        (Ok(got), Ok(wanted)) => Fail::new(format_args!("got {got}, wanted {wanted}")),
        _ => Fail::new(format_args!("got {got:?}, wanted {wanted:?}")),
    }
}

/// Checks that a text is the one that is expected.
///
/// # Errors
///
/// A failure that has both texts, where they differ.
pub fn same(got: &[u8], wanted: &[u8]) -> Result<(), Fail>
    ensures same { IsOk result ↔ got.now ≡ wanted.now }
{
    if got == wanted {
        Ok(())
    } else {
        Err(difference(got, wanted))
    }
}

/// Checks that a condition holds.
///
/// # Errors
///
/// A failure that has the text `what`, where it does not hold.
pub fn holds(is_so: bool, what: &str) -> Result<(), Fail>
    ensures holds { is_ok result ≡ is_so }
{
    if is_so {
        Ok(())
    } else {
        Err(Fail::new(format_args!("{what}")))
    }
}

/// A text with equal parts on both sides of its middle: `front`, `count` times `opening`, `middle`, and as many
/// times `closing`; or `AllocError` if there is no memory for it.
pub fn nested(
    alloc: Global,
    front: &str,
    opening: &str,
    count: usize,
    middle: &str,
    closing: &str,
) -> Result<String, AllocError>
    ensures bytes { IfOk result (λ text. string_bytes text ≡ front.now ++ repeat count opening.now ++ middle.now ++ repeat count closing.now) }
{
    let mut text = String::from_str(alloc, front)?;
    text.push_str(opening.repeat(alloc, count)?.as_str())?;
    text.push_str(middle)?;
    text.push_str(closing.repeat(alloc, count)?.as_str())?;
    Ok(text)
}

/// Writes a name and arguments, a space before each of these. The first write that fails ends it, with its fault.
pub fn write_named(
    name: &str,
    arguments: &Terms,
    sink: &mut Output<Vec<u8>>,
) -> Result<(), WriteFault>
    requires { sink.old.has_failed ≡ false }
    ensures { OnOk result (sink.new.has_failed ≡ false) }
{
    write_all(sink, name.as_bytes())?;
    for argument in arguments.as_slice() {
        write_all(sink, b" ")?;
        write_term(argument, sink)?;
    }
    Ok(())
}

/// A source over bytes in memory, which reports them. It hands out at most `piece` bytes a read, and
/// fails at each read once `reads` reads were made.
#[derive(Drop)]
pub struct MemorySource<'a> {
    pub rest: &'a [u8],
    pub piece: usize,
    pub reads: u64,
    pub has_failed: bool,
}

impl<'a> MemorySource<'a> {
    /// A source that hands out as many bytes as the buffer takes, and never fails.
    pub fn new(bytes: &'a [u8]) -> MemorySource<'a>
        ensures bytes { result.rest.now ≡ bytes.now }
        ensures sound { result.has_failed ≡ false }
    {
        MemorySource::in_pieces(bytes, usize::MAX, u64::MAX)
    }

    /// A source that hands out at most `piece` bytes a read, and fails once `reads` reads were made.
    pub fn in_pieces(bytes: &'a [u8], piece: usize, reads: u64) -> MemorySource<'a>
        ensures bytes { result.rest.now ≡ bytes.now }
        ensures piece { result.piece ≡ piece }
        ensures reads { result.reads ≡ reads }
        ensures sound { result.has_failed ≡ false }
    {
        MemorySource {
            rest: bytes,
            piece,
            reads,
            has_failed: false,
        }
    }
}

impl Source for MemorySource<'_> {
    ghost remaining = { λ s. Some s.rest.now };

    ghost has_failed = { λ s. s.has_failed };

    fn read(&mut self, buffer: &mut [u8]) -> io::Result<usize>
        ensures bound { ReadsAtMost result buffer.new }
        ensures bytes { ReadConsumes (Some self.old.rest.now) (Some self.new.rest.now) result buffer.new }
        ensures failed { self.new.has_failed ≡ (self.old.has_failed || is_err result) }
        // An error comes where no read is left, or where no byte may be given of some, and only there.
        ensures error { is_err result ≡ (self.old.reads == 0 || (self.old.piece == 0 && not (length buffer.old == 0))) }
        ensures count { IfOk result (λ count. count ≡ min (min self.old.piece (length buffer.old)) (length self.old.rest.now)) }
        ensures reads { OnOk result (self.new.reads + 1 ≡ self.old.reads) }
        ensures reads_kept { OnErr result (self.new.reads ≡ self.old.reads) }
        ensures piece { self.new.piece ≡ self.old.piece }
    {
        if self.reads == 0 || (self.piece == 0 && !buffer.is_empty()) {
            self.has_failed = true;
            return Err(io::Error::from(ErrorKind::Other));
        }
        self.reads -= 1;
        let count = self.piece.min(buffer.len()).min(self.rest.len());
        let (front, rest) = self.rest.split_at(count);
        buffer[..count].copy_from_slice(front);
        self.rest = rest;
        Ok(count)
    }

    fn failed(&self) -> bool {
        self.has_failed
    }
}

/// A source that never ends: each read fills the buffer with one byte.
#[derive(Drop)]
pub struct EndlessSource {
    pub byte: u8,
}

impl Source for EndlessSource {
    ghost has_failed = { λ _. false };

    fn read(&mut self, buffer: &mut [u8]) -> io::Result<usize>
        ensures full { IsOkAnd result (λ count. count ≡ length buffer.new) }
        ensures bytes_read { EachIndex buffer.new (λ k. slice_index buffer.new k ≡ self.old.byte) }
        ensures byte { self.new.byte ≡ self.old.byte }
        ensures bound { ReadsAtMost result buffer.new }
        ensures bytes { ReadConsumes None None result buffer.new }
        ensures failed { false ≡ is_err result }
    {
        buffer.fill(self.byte);
        Ok(buffer.len())
    }

    fn failed(&self) -> bool {
        false
    }
}

/// A sink in memory, which reports its bytes. It takes at most `piece` bytes a write, and fails once it
/// has no room for a byte more. A flush of it fails once `flushes` flushes were made. Its memory is
/// taken when it is made, and writes take none.
#[derive(Drop)]
pub struct MemorySink {
    pub bytes: Vec<u8>,
    pub piece: usize,
    pub room: usize,
    pub flushes: u64,
    pub has_failed: bool,
    pub is_flushed: bool,
}

impl MemorySink {
    /// A sink with room for this many bytes, or `AllocError` if there is no memory for it.
    pub fn with_room(alloc: Global, room: usize) -> Result<MemorySink, AllocError>
        ensures empty { IfOk result (λ sink. sink.bytes.items ≡ []) }
        ensures room { IfOk result (λ sink. sink.room ≡ room) }
        ensures sound { IfOk result (λ sink. sink.has_failed ≡ false) }
    {
        MemorySink::in_pieces(alloc, room, usize::MAX)
    }

    /// A sink with room for this many bytes, which fails at each flush once `flushes` flushes were made,
    /// or `AllocError` if there is no memory for it.
    pub fn with_flushes(alloc: Global, room: usize, flushes: u64) -> Result<MemorySink, AllocError>
        ensures empty { IfOk result (λ sink. sink.bytes.items ≡ []) }
        ensures room { IfOk result (λ sink. sink.room ≡ room) }
        ensures flushes { IfOk result (λ sink. sink.flushes ≡ flushes) }
        ensures sound { IfOk result (λ sink. sink.has_failed ≡ false) }
    {
        let mut sink = MemorySink::with_room(alloc, room)?;
        sink.flushes = flushes;
        Ok(sink)
    }

    /// A sink with room for this many bytes, which takes at most `piece` of them a write, or
    /// `AllocError` if there is no memory for it.
    pub fn in_pieces(alloc: Global, room: usize, piece: usize) -> Result<MemorySink, AllocError>
        ensures empty { IfOk result (λ sink. sink.bytes.items ≡ []) }
        ensures room { IfOk result (λ sink. sink.room ≡ room) }
        ensures piece { IfOk result (λ sink. sink.piece ≡ piece) }
        ensures sound { IfOk result (λ sink. sink.has_failed ≡ false) }
    {
        Ok(MemorySink {
            bytes: Vec::with_capacity(alloc, room)?,
            piece,
            room,
            flushes: u64::MAX,
            has_failed: false,
            is_flushed: false,
        })
    }
}

impl Sink for MemorySink {
    ghost contents = { λ s. Some s.bytes.items };

    ghost has_failed = { λ s. s.has_failed };

    ghost is_flushed = { λ s. s.is_flushed };

    fn write(&mut self, bytes: &[u8]) -> io::Result<usize>
        ensures bound { WritesAtMost result bytes.now }
        ensures bytes { WriteAppends (Some self.old.bytes.items) (Some self.new.bytes.items) result bytes.now }
        ensures failed { self.new.has_failed ≡ (self.old.has_failed || took_nothing result bytes.now) }
        ensures flushed { self.new.is_flushed ≡ false }
        ensures count { IfOk result (λ count. count ≡ min (min self.old.piece (length bytes.now)) self.old.room) }
        ensures room { IfOk result (λ count. self.new.room + count ≡ self.old.room) }
        ensures room_kept { OnErr result (self.new.room ≡ self.old.room) }
        ensures piece { self.new.piece ≡ self.old.piece }
        ensures flushes { self.new.flushes ≡ self.old.flushes }
    {
        self.is_flushed = false;
        let count = self.piece.min(bytes.len()).min(self.room);
        if count == 0 && !bytes.is_empty() {
            self.has_failed = true;
            return Ok(0);
        }
        let (front, _) = bytes.split_at(count);
        if let Err(error) = self.bytes.extend_from_slice(front) {
            self.has_failed = true;
            return Err(io::Error::from(error));
        }
        self.room -= count;
        Ok(count)
    }

    fn flush(&mut self) -> io::Result<()>
        ensures bytes { Keeps (Some self.old.bytes.items) (Some self.new.bytes.items) }
        ensures failed { self.new.has_failed ≡ (self.old.has_failed || is_err result) }
        ensures flushed { self.new.is_flushed ≡ is_ok result }
        // An error comes where no flush is left, and only there.
        ensures error { is_err result ≡ (self.old.flushes == 0) }
        ensures flushes { OnOk result (self.new.flushes + 1 ≡ self.old.flushes) }
        ensures flushes_kept { OnErr result (self.new.flushes ≡ self.old.flushes) }
        ensures room { self.new.room ≡ self.old.room }
        ensures piece { self.new.piece ≡ self.old.piece }
    {
        self.is_flushed = self.flushes > 0;
        if self.flushes == 0 {
            self.has_failed = true;
            return Err(io::Error::from(ErrorKind::Other));
        }
        self.flushes -= 1;
        Ok(())
    }

    fn failed(&self) -> bool {
        self.has_failed
    }
}
