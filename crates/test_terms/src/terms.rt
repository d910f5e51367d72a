// Terms as they are printed and copied.
use crate::term_words::Word::{Int, List, Name, Onto, Pid, Ref, Tuple};
use crate::term_words::{Word, term, terms};
use std::alloc::{AllocError, Global};
use std::test::Fail;
use term_core::{Term, write_term};
use term_reader::read_term;
use test_support::{MemorySink, holds, same};

// How many bytes a sink takes at a time.
const PIECES: [usize; 3] = [1, 3, 1000];

// Checks that the term is printed so, so many bytes at a time.
fn prints_in_pieces(alloc: Global, term: &Term, text: &[u8], piece: usize) -> Result<(), Fail> {
    let mut sink = MemorySink::in_pieces(alloc, 1000, piece)?;
    write_term(term, &mut sink)?;
    same(sink.bytes.as_slice(), text)
}

// Checks that the term is printed so, in one write or in many.
pub(crate) fn prints(alloc: Global, term: &Term, text: &[u8]) -> Result<(), Fail> {
    for piece in PIECES {
        prints_in_pieces(alloc, term, text, piece)?;
    }
    Ok(())
}

// Terms, and how they are printed.
const PRINTED: [(&[Word], &[u8]); 22] = [
    (&[Int(0)], b"0"),
    (&[Int(i64::MAX)], b"9223372036854775807"),
    (&[Int(i64::MIN)], b"-9223372036854775808"),
    (&[List(0)], b"[]"),
    (&[Pid(&[])], b"P"),
    (&[Pid(&[2, 1])], b"P.2.1"),
    (&[Ref(&[], 2)], b"#P.2"),
    (&[Ref(&[10, 3], u64::MAX)], b"#P.10.3.18446744073709551615"),
    // atoms, with what is escaped
    (&[Name("")], b"''"),
    (&[Name("named_table")], b"'named_table'"),
    (&[Name("it's")], b"'it\\'s'"),
    (&[Name("a\\b")], b"'a\\\\b'"),
    (&[Name("\x08\t\n\x0b\x0c\r")], b"'\\b\\t\\n\\v\\f\\r'"),
    (&[Name("\x1b\x7f")], b"'\\e\\d'"),
    (
        &[Name("\x00\x01\x07\x0e\x1a\x1c\x1f")],
        b"'\\000\\001\\007\\016\\032\\034\\037'",
    ),
    (&[Name(" \"$A")], b"' \"$A'"),
    // tuples and lists
    (&[Tuple(0)], b"{}"),
    (&[Name("a"), Int(1), Tuple(2), List(1)], b"[{'a',1}]"),
    (
        &[Name("a"), Name("b"), Name("t"), Onto(2)],
        b"['a','b'|'t']",
    ),
    (
        &[
            List(0),
            Name("a"),
            Name("b"),
            Name("t"),
            Onto(2),
            Tuple(1),
            Int(-1),
            Tuple(3),
        ],
        b"{[],{['a','b'|'t']},-1}",
    ),
    (&[Int(1), Tuple(0), Onto(1)], b"[1|{}]"),
    // one of each kind
    (
        &[
            Int(-1),
            Name("b"),
            Ref(&[3], 7),
            Pid(&[2, 1]),
            Tuple(0),
            List(0),
            Name("a"),
            Int(1),
            Tuple(2),
            List(0),
            Name("t"),
            Onto(2),
            Tuple(7),
        ],
        b"{-1,'b',#P.3.7,P.2.1,{},[],[{'a',1},[]|'t']}",
    ),
];

pub(crate) fn printed() -> &'static [(&'static [Word], &'static [u8])] {
    &PRINTED
}

#[test]
fn prints_terms(rt: HostRuntime) -> Result<(), Fail> {
    for (words, text) in printed() {
        let made = term(rt.alloc(), words)?;
        prints(rt.alloc(), &made, text)?;
    }
    Ok(())
}

// Whether the copy of an atom, a pid or a reference is the same.
fn copies_its_name(alloc: Global, term: &Term) -> Result<bool, AllocError> {
    match term {
        Term::Atom(name) => Ok(name.copy()? == *name),
        Term::Pid(process) => Ok(process.copy()? == *process),
        Term::Ref(reference) => Ok(reference.copy()? == *reference),
        _ => Ok(true),
    }
}

// Whether a copy is the same, and that of its name.
fn is_copied(alloc: Global, made: &Term, copied: &Term) -> Result<bool, AllocError> {
    let is_same_name = copies_its_name(alloc, made)?;
    Ok(is_same_name && *copied == *made)
}

// A copy of the term that these words make.
fn copy_of(alloc: Global, words: &[Word]) -> Result<Option<Term>, AllocError> {
    let made = term(alloc, words)?;
    let copied = made.copy()?;
    let is_same = is_copied(alloc, &made, &copied)?;
    Ok(if is_same { Some(copied) } else { None })
}

// Checks that the copy of the term that these words make is the same, and is printed so.
fn copies(alloc: Global, words: &[Word], text: &[u8]) -> Result<(), Fail> {
    match copy_of(alloc, words)? {
        Some(copied) => prints(alloc, &copied, text),
        None => holds(false, "a copy is the same"),
    }
}

// Checks that a copy of all the terms that these words make is the same.
fn copies_parts(alloc: Global, words: &[Word]) -> Result<(), Fail> {
    let parts = terms(alloc, words)?;
    holds(parts.copy(alloc)? == parts, "a copy of terms is the same")
}

#[test]
fn copies_terms(rt: HostRuntime) -> Result<(), Fail> {
    for (words, text) in printed() {
        copies(rt.alloc(), words, text)?;
        copies_parts(rt.alloc(), words)?;
    }
    Ok(())
}

const WHOLE: &[u8] = b"[{'a',1}|#P.7]";

// Checks that a sink with so much room, which takes so many bytes at a time, gets so many, and fails.
fn breaks_off(
    alloc: Global,
    term: &Term,
    room: usize,
    piece: usize,
    count: usize,
) -> Result<(), Fail> {
    let mut sink = MemorySink::in_pieces(alloc, room, piece)?;
    let has_failed = write_term(term, &mut sink).is_err() && sink.has_failed;
    let is_front = sink.bytes.len() == count && WHOLE.starts_with(&sink.bytes);
    holds(
        has_failed && is_front,
        "a sink without room breaks a term off",
    )
}

#[test]
fn breaks_off_where_the_sink_fails(rt: HostRuntime) -> Result<(), Fail> {
    let term = read_term(rt.alloc(), WHOLE)?;
    for room in 0..WHOLE.len() {
        breaks_off(rt.alloc(), &term, room, 1000, room)?;
    }
    breaks_off(rt.alloc(), &term, 100, 0, 0)
}
