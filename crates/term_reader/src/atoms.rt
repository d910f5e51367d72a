// The bytes of atoms, as they are printed between single quotes.
ghost use Rattle.std.specs.Prelude.{◌≡◌, ◌≢◌, ℕ, [], ◌∷◌, IfOk, MatchOption, IsTrue, ◌↔◌};
ghost use Rattle.term_core.specs.TermText.{printed_byte};
ghost use Rattle.term_reader.specs.inside.Bytes.{HasLetter, NoByte, ReadsByte, ReadsQuoted};

use std::alloc::{AllocError, Global};

/// What follows an opening quote.
#[derive(Drop)]
pub(crate) enum Quoted<'a> {
    /// The bytes of an atom and its closing quote, and after it these bytes.
    Read(Vec<u8>, &'a [u8]),
    /// No atom.
    Bad,
}

/// Reads the bytes of an atom, and its closing quote.
pub(crate) fn read_quoted<'a>(alloc: Global, text: &'a [u8]) -> Result<Quoted<'a>, AllocError>
    ensures { IfOk result (λ quoted. ReadsQuoted text.now quoted) }
{
    let mut bytes = Vec::new(alloc);
    let mut rest = text;
    'bytes: while let Some((mark, behind)) = rest.split_first() {
        if *mark == b'\'' {
            return Ok(Quoted::Read(bytes, behind));
        }
        let Some((byte, next)) = read_byte(*mark, behind) else {
            return Ok(Quoted::Bad);
        };
        bytes.push(byte)?;
        rest = next;
    }
    Ok(Quoted::Bad)
}

// Reads a byte of an atom as it is printed, starting with this byte.
fn read_byte(first: u8, behind: &[u8]) -> Option<(u8, &[u8])>
    requires { first ≢ 39 }
    ensures { MatchOption result (NoByte (first ∷ behind.now)) (λ found. ReadsByte (first ∷ behind.now) found.0 found.1.now) }
{
    if first == b'\\' {
        return read_escape(behind);
    }
    if first < 32 || first == 127 {
        return None;
    }
    Some((first, behind))
}

// Reads what follows a backslash.
fn read_escape(text: &[u8]) -> Option<(u8, &[u8])>
    ensures { MatchOption result (NoByte (92 ∷ text.now)) (λ found. ReadsByte (92 ∷ text.now) found.0 found.1.now) }
{
    let (letter, behind) = text.split_first()?;
    if *letter == b'0' {
        return read_octal(behind);
    }
    Some((byte_of_letter(*letter)?, behind))
}

// The byte that is printed as a backslash and this letter, if there is one.
fn byte_of_letter(letter: u8) -> Option<u8>
    ensures { MatchOption result ((byte : ℕ) → printed_byte byte ≡ 92 ∷ letter ∷ [] → ⊥) (λ byte. printed_byte byte ≡ 92 ∷ letter ∷ []) }
{
    match letter {
        b'\'' | b'\\' => Some(letter),
        b'b' => Some(8),
        b't' => Some(9),
        b'n' => Some(10),
        b'v' => Some(11),
        b'f' => Some(12),
        b'r' => Some(13),
        b'e' => Some(27),
        b'd' => Some(127),
        _ => None,
    }
}

// Reads the last two of three octal digits, the first of which is 0.
fn read_octal(text: &[u8]) -> Option<(u8, &[u8])>
    ensures { MatchOption result (NoByte (92 ∷ 48 ∷ text.now)) (λ found. ReadsByte (92 ∷ 48 ∷ text.now) found.0 found.1.now) }
{
    let (eights, behind) = text.split_first()?;
    let (ones, behind) = behind.split_first()?;
    Some((byte_of_octal(*eights, *ones)?, behind))
}

// The byte that is printed in octal with these last two digits, if there is one.
fn byte_of_octal(eights: u8, ones: u8) -> Option<u8>
    ensures { MatchOption result
        ((byte : ℕ) → printed_byte byte ≡ 92 ∷ 48 ∷ eights ∷ ones ∷ [] → ⊥)
        (λ byte. printed_byte byte ≡ 92 ∷ 48 ∷ eights ∷ ones ∷ []) }
{
    if !(b'0'..=b'3').contains(&eights) || !(b'0'..=b'7').contains(&ones) {
        return None;
    }
    let byte = (eights - b'0') * 8 + (ones - b'0');
    if has_letter(byte) { None } else { Some(byte) }
}

// Whether a byte below 32 is printed by a letter.
fn has_letter(byte: u8) -> bool
    ensures { IsTrue result ↔ HasLetter byte }
{
    matches!(byte, 8..=13 | 27)
}
