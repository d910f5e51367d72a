// Brackets and braces: what is open, and what each mark does to it.
ghost use Rattle.std.specs.Prelude.{◌≡◌, ◌≢◌, ◌≤◌, ◌+◌, ◌-◌, ◌∷◌, length, map, slice_index};
ghost use Rattle.term_core.specs.Term.{meaning_of};
ghost use Rattle.term_reader.specs.inside.Marks.{Begins, Continues, Follows, GoesIn, InList, InTail, InTuple, open_in, opened_in};

use crate::bytes::behind_mark;
use crate::fault::TermFault;
use crate::leaves::{Leaf, read_leaf};
use std::alloc::Global;
use term_core::{Term, Terms, list_onto};

/// So many brackets and braces may be open at once.
const MOST_OPEN: usize = 10_000;

/// What is open, with the terms that were read in it.
#[derive(Drop)]
pub(crate) enum Open {
    /// A tuple with its parts.
    Tuple(Terms),
    /// A list with its heads.
    List(Vec<Term>),
    /// A list after its bar: the heads but the last, and the last.
    Tail(Vec<Term>, Term),
}

/// Where reading is: what is open, the last of it at the end, and the bytes that are left.
#[derive(Drop)]
pub(crate) enum State<'a> {
    /// A term is expected.
    Wanted(Vec<Open>, &'a [u8]),
    /// A term was read.
    Found(Vec<Open>, Term, &'a [u8]),
}

/// The place of the first byte of the rest, counted from 1.
pub(crate) fn place_of(text: &[u8], rest: &[u8]) -> usize
    requires { length rest.now ≤ length text.now }
    ensures { result ≡ length text.now - length rest.now + 1 }
{
    text.len() - rest.len() + 1
}

/// Reads the beginning of a term: an opening mark, an empty tuple, nil, or a whole leaf.
pub(crate) fn begin<'a>(
    alloc: Global,
    text: &[u8],
    outer: Vec<Open>,
    rest: &'a [u8],
) -> Result<State<'a>, TermFault>
    requires { length rest.now ≤ length text.now }
    ensures { Follows (Begins (opened_in outer.items)) rest.now text.now result }
{
    match rest.split_first() {
        Some((b'{', behind)) => begin_tuple(alloc, text, outer, behind),
        Some((b'[', behind)) => begin_list(alloc, text, outer, behind),
        _ => begin_leaf(alloc, text, outer, rest),
    }
}

// Reads on after an opening brace.
fn begin_tuple<'a>(
    alloc: Global,
    text: &[u8],
    outer: Vec<Open>,
    behind: &'a [u8],
) -> Result<State<'a>, TermFault>
    requires { length behind.now + 1 ≤ length text.now }
    ensures { Follows (Begins (opened_in outer.items)) (123 ∷ behind.now) text.now result }
{
    let parts = Terms::new(alloc);
    match behind_mark(behind, b'}') {
        Some(rest) => Ok(State::Found(outer, Term::tuple(alloc, parts)?, rest)),
        None => go_in(text, outer, Open::Tuple(parts), behind),
    }
}

// Reads on after an opening bracket.
fn begin_list<'a>(
    alloc: Global,
    text: &[u8],
    outer: Vec<Open>,
    behind: &'a [u8],
) -> Result<State<'a>, TermFault>
    requires { length behind.now + 1 ≤ length text.now }
    ensures { Follows (Begins (opened_in outer.items)) (91 ∷ behind.now) text.now result }
{
    match behind_mark(behind, b']') {
        Some(rest) => Ok(State::Found(outer, Term::Nil, rest)),
        None => go_in(text, outer, Open::List(Vec::new(alloc)), behind),
    }
}

// Goes into what a mark opens, unless too much is open.
fn go_in<'a>(
    text: &[u8],
    outer: Vec<Open>,
    next: Open,
    behind: &'a [u8],
) -> Result<State<'a>, TermFault>
    requires { length behind.now + 1 ≤ length text.now }
    ensures { GoesIn (opened_in outer.items) (open_in next) behind.now text.now result }
{
    let mut outer = outer;
    if outer.len() >= MOST_OPEN {
        return Err(TermFault::TooDeep(text.len() - behind.len()));
    }
    outer.push(next)?;
    Ok(State::Wanted(outer, behind))
}

// Reads a leaf.
fn begin_leaf<'a>(
    alloc: Global,
    text: &[u8],
    outer: Vec<Open>,
    rest: &'a [u8],
) -> Result<State<'a>, TermFault>
    requires in_text { length rest.now ≤ length text.now }
    requires no_tuple { slice_index rest.now 0 ≢ 123 }
    requires no_list { slice_index rest.now 0 ≢ 91 }
    ensures { Follows (Begins (opened_in outer.items)) rest.now text.now result }
{
    match read_leaf(alloc, rest)? {
        Leaf::Read(term, behind) => Ok(State::Found(outer, term, behind)),
        Leaf::Bad => Err(TermFault::BadTerm(place_of(text, rest))),
    }
}

/// Reads on after a term that is part of what was opened last.
pub(crate) fn go_on<'a>(
    alloc: Global,
    text: &[u8],
    outer: Vec<Open>,
    last: Open,
    term: Term,
    rest: &'a [u8],
) -> Result<State<'a>, TermFault>
    requires { length rest.now ≤ length text.now }
    ensures { Follows (Continues (open_in last ∷ opened_in outer.items) (meaning_of term)) rest.now text.now result }
{
    let Some((mark, behind)) = rest.split_first() else {
        return Err(TermFault::BadTerm(place_of(text, rest)));
    };
    match last {
        Open::Tuple(parts) => go_on_in_tuple(alloc, text, outer, parts, term, *mark, behind),
        Open::List(heads) => go_on_in_list(alloc, text, outer, heads, term, *mark, behind),
        Open::Tail(heads, head) => go_on_in_tail(
            alloc, text, outer, heads, head, term, *mark, behind,
        ),
    }
}

// Reads the mark after a part of a tuple.
fn go_on_in_tuple<'a>(
    alloc: Global,
    text: &[u8],
    outer: Vec<Open>,
    parts: Terms,
    part: Term,
    mark: u8,
    behind: &'a [u8],
) -> Result<State<'a>, TermFault>
    requires { length behind.now + 1 ≤ length text.now }
    ensures { Follows (Continues (InTuple parts ∷ opened_in outer.items) (meaning_of part)) (mark ∷ behind.now) text.now result }
{
    let mut outer = outer;
    let mut parts = parts;
    if mark == b',' {
        parts.push(part)?;
        outer.push(Open::Tuple(parts))?;
        return Ok(State::Wanted(outer, behind));
    }
    if mark != b'}' {
        return Err(TermFault::BadTerm(text.len() - behind.len()));
    }
    parts.push(part)?;
    Ok(State::Found(outer, Term::tuple(alloc, parts)?, behind))
}

// Reads the mark after a head of a list.
fn go_on_in_list<'a>(
    alloc: Global,
    text: &[u8],
    outer: Vec<Open>,
    heads: Vec<Term>,
    head: Term,
    mark: u8,
    behind: &'a [u8],
) -> Result<State<'a>, TermFault>
    requires { length behind.now + 1 ≤ length text.now }
    ensures { Follows (Continues (InList (map meaning_of heads.items) ∷ opened_in outer.items) (meaning_of head)) (mark ∷ behind.now) text.now result }
{
    let mut outer = outer;
    let mut heads = heads;
    if mark == b',' {
        heads.push(head)?;
        outer.push(Open::List(heads))?;
        return Ok(State::Wanted(outer, behind));
    }
    if mark == b'|' {
        return go_on_behind_bar(text, outer, heads, head, behind);
    }
    if mark != b']' {
        return Err(TermFault::BadTerm(text.len() - behind.len()));
    }
    let end = Term::cell(alloc, head, Term::Nil)?;
    Ok(State::Found(outer, list_onto(alloc, heads, end)?, behind))
}

// Reads on after the bar of a list, where no list may follow.
fn go_on_behind_bar<'a>(
    text: &[u8],
    outer: Vec<Open>,
    heads: Vec<Term>,
    head: Term,
    behind: &'a [u8],
) -> Result<State<'a>, TermFault>
    requires { length behind.now + 1 ≤ length text.now }
    ensures { Follows (Continues (InList (map meaning_of heads.items) ∷ opened_in outer.items) (meaning_of head)) (124 ∷ behind.now) text.now result }
{
    let mut outer = outer;
    if let Some(_list) = behind_mark(behind, b'[') {
        return Err(TermFault::BadTerm(place_of(text, behind)));
    }
    outer.push(Open::Tail(heads, head))?;
    Ok(State::Wanted(outer, behind))
}

// Reads the bracket after the last tail of a list.
fn go_on_in_tail<'a>(
    alloc: Global,
    text: &[u8],
    outer: Vec<Open>,
    heads: Vec<Term>,
    head: Term,
    tail: Term,
    mark: u8,
    behind: &'a [u8],
) -> Result<State<'a>, TermFault>
    requires { length behind.now + 1 ≤ length text.now }
    ensures { Follows (Continues (InTail (map meaning_of heads.items) (meaning_of head) ∷ opened_in outer.items) (meaning_of tail)) (mark ∷ behind.now) text.now result }
{
    if mark != b']' {
        return Err(TermFault::BadTerm(text.len() - behind.len()));
    }
    let end = Term::cell(alloc, head, tail)?;
    Ok(State::Found(outer, list_onto(alloc, heads, end)?, behind))
}
