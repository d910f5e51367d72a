// Long lists and deep terms: made, read, copied, compared, hashed, printed and dropped.
use crate::term_order::differ;
use std::alloc::{AllocError, Global};
use std::test::Fail;
use term_core::{Term, Terms, list_onto, write_term};
use test_support::{MemorySink, holds};

const MILLION: u64 = 1_000_000;

const DEPTH: u64 = 10_000;

/// `[7, 7, .. | end]`, with a million sevens.
fn sevens(alloc: Global, end: Term) -> Result<Term, AllocError> {
    let mut list = end;
    for _ in 0..MILLION {
        list = Term::cell(alloc, Term::Int(7), list)?;
    }
    Ok(list)
}

/// `[..[[core]]..]`, with so many brackets.
fn in_lists(alloc: Global, depth: u64, core: Term) -> Result<Term, AllocError> {
    let mut term = core;
    for _ in 0..depth {
        term = Term::cell(alloc, term, Term::Nil)?;
    }
    Ok(term)
}

/// `{..{{core}}..}`, with so many braces.
fn in_tuples(alloc: Global, depth: u64, core: Term) -> Result<Term, AllocError> {
    let mut term = core;
    for _ in 0..depth {
        let mut parts = Terms::new(alloc);
        parts.push(term)?;
        term = Term::tuple(alloc, parts)?;
    }
    Ok(term)
}

/// `[{..[{core}]..}]`, with half as many brackets as levels, and as many braces.
fn in_both(alloc: Global, core: Term) -> Result<Term, AllocError> {
    let mut term = core;
    for _ in 0..DEPTH / 2 {
        let tuple = in_tuples(alloc, 1, term)?;
        term = in_lists(alloc, 1, tuple)?;
    }
    Ok(term)
}

// Checks that so many bytes are printed.
fn prints(alloc: Global, term: &Term, bytes: usize) -> Result<(), Fail> {
    let mut sink = MemorySink::with_room(alloc, bytes)?;
    write_term(term, &mut sink)?;
    holds(sink.bytes.len() == bytes, "so many bytes are printed")
}

// A copy, which is the same.
fn copy_of(term: &Term) -> Result<Term, Fail> {
    let copied = term.copy()?;
    holds(copied == *term, "a copy is the same")?;
    Ok(copied)
}

// Checks that the term has this size, a copy is the same, and so many bytes are printed.
fn walks(alloc: Global, term: &Term, nodes: u64, bytes: usize) -> Result<(), Fail> {
    holds(term.nodes() == nodes, "a term has so many nodes")?;
    let copied = copy_of(term)?;
    prints(alloc, &copied, bytes)
}

#[test]
fn walks_long_lists(rt: HostRuntime) -> Result<(), Fail> {
    let list = sevens(rt.alloc(), Term::Nil)?;
    walks(rt.alloc(), &list, 2_000_001, 2_000_001)
}

#[test]
fn walks_deep_terms(rt: HostRuntime) -> Result<(), Fail> {
    let term = in_both(rt.alloc(), Term::Int(1))?;
    walks(rt.alloc(), &term, 15_001, 20_001)
}

// How many cells the list has before it ends, or more than a million.
fn cells(list: &Term) -> u64 {
    let mut rest = list;
    let mut count = 0u64;
    for _ in 0..MILLION + 1 {
        if let Some(pair) = rest.as_cell() {
            rest = pair.tail();
            count = count.saturating_add(1);
        }
    }
    count
}

/// So many sevens.
fn heads(alloc: Global) -> Result<Vec<Term>, AllocError> {
    let mut heads = Vec::new(alloc);
    for _ in 0..MILLION {
        heads.push(Term::Int(7))?;
    }
    Ok(heads)
}

#[test]
fn a_million_heads_make_a_list(rt: HostRuntime) -> Result<(), Fail> {
    let list = list_onto(rt.alloc(), heads(rt.alloc())?, Term::Nil)?;
    holds(cells(&list) == MILLION, "a list has a million cells")?;
    holds(list == sevens(rt.alloc(), Term::Nil)?, "all are sevens")
}

// A thousand copies, which are dropped.
fn copies(alloc: Global, term: &Term) -> Result<(), AllocError> {
    let mut copies = Vec::new(alloc);
    for _ in 0..1_000 {
        copies.push(term.copy()?)?;
    }
    Ok(())
}

/// A million cells copied a thousand times do not fit in memory, and a test has no time for them.
#[test]
fn copies_share_a_long_list(rt: HostRuntime) -> Result<(), Fail> {
    let list = sevens(rt.alloc(), Term::Nil)?;
    let kept = list.copy()?;
    copies(rt.alloc(), &list)?;
    drop(list);
    walks(rt.alloc(), &kept, 2_000_001, 2_000_001)
}

#[test]
fn a_long_list_is_compared_by_a_loop(rt: HostRuntime) -> Result<(), Fail> {
    let lesser = sevens(rt.alloc(), Term::Int(1))?;
    let greater = sevens(rt.alloc(), Term::Int(2))?;
    assert!(rt; differ(&lesser, &greater));
    Ok(())
}

#[test]
fn lists_nested_10000_deep_are_compared(rt: HostRuntime) -> Result<(), Fail> {
    let lesser = in_lists(rt.alloc(), DEPTH, Term::Int(1))?;
    let greater = in_lists(rt.alloc(), DEPTH, Term::Int(2))?;
    assert!(rt; differ(&lesser, &greater));
    Ok(())
}

#[test]
fn tuples_nested_10000_deep_are_compared(rt: HostRuntime) -> Result<(), Fail> {
    let lesser = in_tuples(rt.alloc(), DEPTH, Term::Int(1))?;
    let greater = in_tuples(rt.alloc(), DEPTH, Term::Int(2))?;
    assert!(rt; differ(&lesser, &greater));
    Ok(())
}
