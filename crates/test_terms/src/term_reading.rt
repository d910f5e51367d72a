// Terms as they are read from their texts, and the places of what is no term.
use crate::term_words::{Word, term};
use crate::terms::{printed, prints};
use crate::tuple_parts::place_and_text;
use std::alloc::Global;
use std::str;
use std::test::Fail;
use term_core::write_term;
use term_reader::{TermFault, read_term};
use test_support::{MemorySink, holds, nested, same};

// Checks that the text is read to the term that these words make.
fn reads(alloc: Global, words: &[Word], text: &[u8]) -> Result<(), Fail> {
    let read = read_term(alloc, text)?;
    holds(read == term(alloc, words)?, "a text says a term")?;
    prints(alloc, &read, text)
}

#[test]
fn reads_terms(rt: HostRuntime) -> Result<(), Fail> {
    for (words, text) in printed() {
        reads(rt.alloc(), words, text)?;
    }
    Ok(())
}

// The place of the first mark, number, pid, reference or atom that cannot be there, and a text of no term: without a
// term, and then with integers, with pids and references, with atoms, and with tuples and lists.
const REFUSED: &str = "\
1 ``
1 ` `
1 `x`
1 `1 `
1 ` 1`
2 `1,`
2 `1]`
3 `[]x`
1 `01`
1 `-0`
1 `+1`
1 `-`
1 `1.5`
1 `9223372036854775808`
1 `-9223372036854775809`
4 `{1,9223372036854775808}`
1 `P.`
1 `P.01`
1 `P.18446744073709551616`
1 `p`
1 `#P`
1 `#`
1 `#1`
4 `[P,#P]`
1 `'`
1 `'a`
4 `'a'b'`
1 `'\\`
1 `'\\q'`
1 `'\\012'`
1 `'\\040'`
1 `'\\00'`
1 `'\x7f'`
4 `[1,'\\x']`
2 `{`
2 `{,`
3 `{1`
4 `{1,}`
3 `{1]`
3 `{1|2}`
3 `[1}`
2 `[,`
4 `[1,]`
4 `[1|]`
4 `[1|[]]`
4 `[1|[2]]`
5 `[1|2,3]`
5 `[1|2`
";

// Checks that a text is no term from this place on.
fn refuses(alloc: Global, text: &[u8], at: usize) -> Result<(), Fail> {
    let fault = read_term(alloc, text).err();
    let is_there = fault == Some(TermFault::BadTerm(at));
    holds(is_there, str::from_utf8(text).unwrap_or("bytes"))
}

#[test]
fn names_the_first_fault(rt: HostRuntime) -> Result<(), Fail> {
    for row in REFUSED.lines() {
        let (at, text) = place_and_text(row).ok_or("a row has two parts")?;
        refuses(rt.alloc(), text.as_bytes(), at)?;
    }
    refuses(rt.alloc(), b"'\n'", 1)?;
    refuses(rt.alloc(), b"'\xff'", 1)
}

// Checks that the text is read, and the term that is read has it.
fn reads_back(alloc: Global, text: &[u8]) -> Result<(), Fail> {
    let read = read_term(alloc, text)?;
    let mut sink = MemorySink::with_room(alloc, text.len())?;
    write_term(&read, &mut sink)?;
    same(sink.bytes.as_slice(), text)
}

#[test]
fn reads_long_lists(rt: HostRuntime) -> Result<(), Fail> {
    let text = nested(rt.alloc(), "[", "7,", 999_999, "7]", "")?;
    reads_back(rt.alloc(), text.as_bytes())
}

#[test]
fn reads_long_tuples(rt: HostRuntime) -> Result<(), Fail> {
    let text = nested(rt.alloc(), "{", "P.1,", 99_999, "'a'}", "")?;
    reads_back(rt.alloc(), text.as_bytes())
}

#[test]
fn reads_deep_terms(rt: HostRuntime) -> Result<(), Fail> {
    let lists = nested(rt.alloc(), "", "[", 10_000, "1", "]")?;
    reads_back(rt.alloc(), lists.as_bytes())?;
    let tuples = nested(rt.alloc(), "", "{", 10_000, "[]", "}")?;
    reads_back(rt.alloc(), tuples.as_bytes())
}

// Checks that a text is too deep from this place on.
fn is_too_deep(alloc: Global, text: &str, at: usize) -> Result<(), Fail> {
    let fault = read_term(alloc, text.as_bytes()).err();
    holds(fault == Some(TermFault::TooDeep(at)), "a text is too deep")
}

#[test]
fn refuses_what_is_too_deep(rt: HostRuntime) -> Result<(), Fail> {
    let lists = nested(rt.alloc(), "", "[", 10_001, "1", "]")?;
    is_too_deep(rt.alloc(), lists.as_str(), 10_001)?;
    let unclosed = nested(rt.alloc(), "{1,", "{", 1_000_000, "", "")?;
    is_too_deep(rt.alloc(), unclosed.as_str(), 10_003)
}

// Checks that a fault is written so.
fn writes_fault(alloc: Global, fault: TermFault, want: &str) -> Result<(), Fail> {
    let text = format!(in alloc; "{fault}")?;
    same(text.as_bytes(), want.as_bytes())
}

#[test]
fn writes_faults(rt: HostRuntime) -> Result<(), Fail> {
    writes_fault(rt.alloc(), TermFault::BadTerm(2), "1 BadTerm at 2")?;
    writes_fault(rt.alloc(), TermFault::TooDeep(10_001), "2 TooDeep at 10001")?;
    writes_fault(rt.alloc(), TermFault::Memory, "3 Memory")
}
