// What copies share, and the sizes that cells and tuples know.
use crate::terms::prints;
use crate::tuple_parts::parts_of;
use std::alloc::{AllocError, Global};
use std::sync::Arc;
use std::test::Fail;
use term_core::{Pair, Term, Terms, list_onto};
use term_reader::{TermFault, read_term};
use test_support::holds;

// Checks that the term is printed so, and drops it.
fn prints_at_last(alloc: Global, term: Term, text: &[u8]) -> Result<(), Fail> {
    prints(alloc, &term, text)
}

// A list of this head and a copy of this tail.
fn before(alloc: Global, head: i64, tail: &Term) -> Result<Term, AllocError> {
    Term::cell(alloc, Term::Int(head), tail.copy()?)
}

// Lists of 1 and of 2 with one tail, which is dropped.
fn two_lists(alloc: Global) -> Result<(Term, Term), TermFault> {
    let tail = read_term(alloc, b"[7,7]")?;
    let one = before(alloc, 1, &tail)?;
    let two = before(alloc, 2, &tail)?;
    Ok((one, two))
}

#[test]
fn a_tail_outlives_the_list_before_it(rt: HostRuntime) -> Result<(), Fail> {
    let (one, two) = two_lists(rt.alloc())?;
    prints_at_last(rt.alloc(), one, b"[1,7,7]")?;
    prints_at_last(rt.alloc(), two, b"[2,7,7]")
}

// A cell of two copies.
fn twice(alloc: Global, term: &Term) -> Result<Term, AllocError> {
    let head = term.copy()?;
    Term::cell(alloc, head, term.copy()?)
}

// A cell of two copies of a tuple, which is dropped.
fn cell_of_tuples(alloc: Global) -> Result<Term, TermFault> {
    let tuple = read_term(alloc, b"{1,[]}")?;
    Ok(twice(alloc, &tuple)?)
}

#[test]
fn a_tuple_outlives_its_copy(rt: HostRuntime) -> Result<(), Fail> {
    let list = cell_of_tuples(rt.alloc())?;
    let copied = list.copy()?;
    prints_at_last(rt.alloc(), copied, b"[{1,[]}|{1,[]}]")?;
    prints_at_last(rt.alloc(), list, b"[{1,[]}|{1,[]}]")
}

// A list of copies of these terms, the last in the place of its end.
fn list_over(alloc: Global, terms: &Terms) -> Result<Term, AllocError> {
    let mut heads = terms.copy(alloc)?.into_vec();
    let end = heads.pop().unwrap_or(Term::Nil);
    list_onto(alloc, heads, end)
}

// Whether this is a tuple that nothing else holds.
fn is_held_alone(term: Term) -> bool {
    match term {
        Term::Tuple(shared) => Arc::into_inner(shared).is_some(),
        _ => false,
    }
}

// The heads of a list, and what is in the place of its end, are held by the test alone once the list is dropped.
#[test]
fn a_dropped_list_drops_its_heads(rt: HostRuntime) -> Result<(), Fail> {
    let held = parts_of(rt.alloc(), "{{1},{2},{3}}")?;
    drop(list_over(rt.alloc(), &held)?);
    for term in held.into_vec() {
        holds(is_held_alone(term), "a head is held by the test alone")?;
    }
    Ok(())
}

// How many nodes terms have together, and a tuple of them.
const SIZES: &str = "\
0 {}
2 {1,[]}
3 {{1,[]}}
5 {1,[],{1,[]}}
8 {[{1,[],{1,[]}}|9]}
13 {[[7,7],{},7,7]}
6 {[7],[7]}
7 {{[7],[7]}}
";

// The terms, put together one by one.
fn pushed(alloc: Global, terms: Terms) -> Result<Terms, AllocError> {
    let mut made = Terms::new(alloc);
    for term in terms.into_vec() {
        made.push(term)?;
    }
    Ok(made)
}

// Checks that terms have so many nodes, put together at once and one by one.
fn have_size(alloc: Global, terms: Terms, nodes: u64) -> Result<(), Fail> {
    let made = Terms::from_vec(terms.into_vec());
    let is_known = made.nodes() == nodes;
    let is_known_of_each = pushed(alloc, made)?.nodes() == nodes;
    holds(is_known && is_known_of_each, "terms know their size")
}

#[test]
fn terms_know_their_sizes(rt: HostRuntime) -> Result<(), Fail> {
    for row in SIZES.lines() {
        let (nodes, text) = row.split_once(' ').ok_or("a row has two parts")?;
        have_size(rt.alloc(), parts_of(rt.alloc(), text)?, nodes.parse()?)?;
    }
    Ok(())
}

// Checks that 1 and then nil are taken out from the end.
fn are_taken_out(items: &mut Vec<Term>) -> Result<(), Fail> {
    holds(items.pop() == Some(Term::Nil), "nil is the last")?;
    holds(items.pop() == Some(Term::Int(1)), "1 is before it")
}

#[test]
fn parts_are_read_and_taken_out(rt: HostRuntime) -> Result<(), Fail> {
    let made = parts_of(rt.alloc(), "{1,[]}")?;
    holds(made.len() == 2, "there are two parts")?;
    let is_one = made.as_slice().first() == Some(&Term::Int(1));
    holds(is_one, "1 is the first")?;
    let mut items = made.into_vec();
    are_taken_out(&mut items)?;
    holds(Terms::from_vec(items).len() == 0, "no part is left")
}

#[test]
fn a_cell_has_a_head_and_a_tail(rt: HostRuntime) {
    let pair = Pair::new(Term::Int(3), Term::Nil);
    assert!(rt; *pair.head() == Term::Int(3));
    assert!(rt; *pair.tail() == Term::Nil);
    let (head, tail) = pair.into_parts();
    assert!(rt; head == Term::Int(3));
    assert!(rt; tail == Term::Nil);
}
