// The leaves of terms: integers, pids, references and atoms.
ghost use Rattle.std.specs.Prelude.{◌≡◌, ◌≢◌, ◌∷◌, IfOk, position, slice_index};
ghost use Rattle.term_reader.specs.Lawful.{marks};
ghost use Rattle.term_reader.specs.inside.Leaves.{ReadsLeaf, ReadsWord, behind_word, word_of};

use crate::atoms::{Quoted, read_quoted};
use crate::bytes::behind_mark;
use crate::numbers::{read_integer, read_numbers};
use std::alloc::{AllocError, Global};
use std::str;
use term_core::{Pid, RefId, Term};

/// What a text begins with.
#[derive(Drop)]
pub(crate) enum Leaf<'a> {
    /// The text of a leaf, and after it these bytes.
    Read(Term, &'a [u8]),
    /// The text of none.
    Bad,
}

/// Reads the leaf at the beginning of a text.
pub(crate) fn read_leaf<'a>(alloc: Global, text: &'a [u8]) -> Result<Leaf<'a>, AllocError>
    ensures { IfOk result (λ leaf. ReadsLeaf text.now leaf) }
{
    match text.split_first() {
        Some((b'\'', inside)) => read_atom(alloc, inside),
        _ => read_bare(alloc, text),
    }
}

// Reads the rest of an atom after its opening quote.
fn read_atom<'a>(alloc: Global, inside: &'a [u8]) -> Result<Leaf<'a>, AllocError>
    ensures { IfOk result (λ leaf. ReadsLeaf (39 ∷ inside.now) leaf) }
{
    match read_quoted(alloc, inside)? {
        Quoted::Read(bytes, behind) => match str::from_utf8(bytes.as_slice()) {
            Ok(text) => Ok(Leaf::Read(Term::atom(alloc, text)?, behind)),
            Err(_no_text) => Ok(Leaf::Bad),
        },
        Quoted::Bad => Ok(Leaf::Bad),
    }
}

// Reads an integer, a pid or a reference, which ends before the next mark or at the end.
fn read_bare<'a>(alloc: Global, text: &'a [u8]) -> Result<Leaf<'a>, AllocError>
    requires { slice_index text.now 0 ≢ 39 }
    ensures { IfOk result (λ leaf. ReadsLeaf text.now leaf) }
{
    let (word, behind) = split_word(text);
    match read_word(alloc, word)? {
        Some(term) => Ok(Leaf::Read(term, behind)),
        None => Ok(Leaf::Bad),
    }
}

// Whether the byte is one that can follow a term.
fn is_mark(byte: u8) -> bool
    ensures { result ≡ marks byte }
{
    matches!(byte, b',' | b']' | b'|' | b'}')
}

// The place of the first mark.
fn place_of_mark(text: &[u8]) -> Option<usize>
    ensures { result ≡ position marks text.now }
{
    text.iter().position(|byte| is_mark(*byte))
}

// Splits before the first mark.
fn split_word(text: &[u8]) -> (&[u8], &[u8])
    ensures front { result.0.now ≡ word_of text.now }
    ensures rest { result.1.now ≡ behind_word text.now }
{
    text.split_at(place_of_mark(text).unwrap_or(text.len()))
}

// The integer, pid or reference with this text, or `None` where none of them has it.
fn read_word(alloc: Global, word: &[u8]) -> Result<Option<Term>, AllocError>
    ensures { IfOk result (λ found. ReadsWord word.now found) }
{
    match word.split_first() {
        Some((b'P', numbers)) => read_pid(alloc, numbers),
        Some((b'#', pid)) => read_reference(alloc, pid),
        _ => Ok(read_integer(word).map(Term::Int)),
    }
}

// The pid with these numbers, each after a dot.
fn read_pid(alloc: Global, numbers: &[u8]) -> Result<Option<Term>, AllocError>
    ensures { IfOk result (λ found. ReadsWord (80 ∷ numbers.now) found) }
{
    let Some(numbers) = read_numbers(alloc, numbers)? else {
        return Ok(None);
    };
    Ok(Some(Term::Pid(Pid::new(alloc, numbers)?)))
}

// The reference of this pid and this number.
fn read_reference(alloc: Global, text: &[u8]) -> Result<Option<Term>, AllocError>
    ensures { IfOk result (λ found. ReadsWord (35 ∷ text.now) found) }
{
    let Some(numbers) = behind_mark(text, b'P') else {
        return Ok(None);
    };
    let Some(mut numbers) = read_numbers(alloc, numbers)? else {
        return Ok(None);
    };
    let Some(number) = numbers.pop() else {
        return Ok(None);
    };
    let pid = Pid::new(alloc, numbers)?;
    Ok(Some(Term::Ref(RefId::new(alloc, pid, number)?)))
}
