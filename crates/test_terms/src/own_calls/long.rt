// Lists of 300,000 items.
use super::answers::own;
use core_pure_calls::{Dictionary, Outcome, answer};
use core_tree::PureCall;
use std::alloc::{AllocError, Global};
use std::test::Fail;
use term_core::{Term, Terms, list_onto};

const COUNT: i64 = 300_000;

// The integers from 1 on, as a list.
fn numbers(alloc: Global) -> Result<Term, AllocError> {
    let mut items = Vec::new(alloc);
    for number in 1..COUNT + 1 {
        items.push(Term::Int(number))?;
    }
    list_onto(alloc, items, Term::Nil)
}

// The value of a call, or nil where it raises.
fn value(alloc: Global, call: PureCall, arguments: Terms) -> Result<Term, AllocError> {
    match answer(alloc, &own(alloc)?, &mut Dictionary::new(), call, arguments)? {
        Outcome::Value(term) => Ok(term),
        Outcome::Raised(_, _) => Ok(Term::Nil),
    }
}

fn of_one(alloc: Global, call: PureCall, a: Term) -> Result<Term, AllocError> {
    let mut arguments = Terms::new(alloc);
    arguments.push(a)?;
    value(alloc, call, arguments)
}

fn of_two(alloc: Global, call: PureCall, a: Term, b: Term) -> Result<Term, AllocError> {
    let mut arguments = Terms::new(alloc);
    arguments.push(a)?;
    arguments.push(b)?;
    value(alloc, call, arguments)
}

#[test]
fn long_lists_are_appended(rt: HostRuntime) -> Result<(), Fail> {
    let second = numbers(rt.alloc())?;
    let twice = of_two(rt.alloc(), PureCall::Append, numbers(rt.alloc())?, second)?;
    let length = of_one(rt.alloc(), PureCall::Length, twice)?;
    assert!(rt; length == Term::Int(2 * COUNT));
    Ok(())
}

#[test]
fn long_lists_are_reversed(rt: HostRuntime) -> Result<(), Fail> {
    let reversed = of_one(rt.alloc(), PureCall::Reverse, numbers(rt.alloc())?)?;
    let head = of_one(rt.alloc(), PureCall::Head, reversed)?;
    assert!(rt; head == Term::Int(COUNT));
    Ok(())
}

#[test]
fn long_tuples_are_lists_and_back(rt: HostRuntime) -> Result<(), Fail> {
    let tuple = of_one(rt.alloc(), PureCall::ListToTuple, numbers(rt.alloc())?)?;
    let copied = tuple.copy()?;
    let last = of_two(rt.alloc(), PureCall::Element, Term::Int(COUNT), copied)?;
    assert!(rt; last == Term::Int(COUNT));
    let list = of_one(rt.alloc(), PureCall::TupleToList, tuple)?;
    assert!(rt; list == numbers(rt.alloc())?);
    Ok(())
}

#[test]
fn long_lists_are_searched(rt: HostRuntime) -> Result<(), Fail> {
    let list = numbers(rt.alloc())?;
    let found = of_two(rt.alloc(), PureCall::Member, Term::Int(COUNT), list)?;
    assert!(rt; found.is_the_atom("true"));
    Ok(())
}

#[test]
fn long_lists_lose_an_item(rt: HostRuntime) -> Result<(), Fail> {
    let last = Term::cell(rt.alloc(), Term::Int(COUNT), Term::Nil)?;
    let rest = of_two(rt.alloc(), PureCall::Without, numbers(rt.alloc())?, last)?;
    let length = of_one(rt.alloc(), PureCall::Length, rest)?;
    assert!(rt; length == Term::Int(COUNT - 1));
    Ok(())
}
