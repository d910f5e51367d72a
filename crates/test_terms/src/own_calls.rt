// What the calls answer, row by row, from the rules of the language.
mod answers;
mod dictionary;
mod long;
mod rows;

use answers::{answers, call_of};
use core_pure_calls::Dictionary;
use core_tree::{PURE_CALLS, PureCall};
use rows::{COMPARISONS, EACH, KINDS, LISTS, NUMBERS, RAISING, TUPLES};
use std::alloc::Global;
use std::test::Fail;
use test_support::holds;

// Checks each row by a process with an empty dictionary.
fn check(alloc: Global, rows: &str) -> Result<(), Fail> {
    for row in rows.lines() {
        answers(alloc, &mut Dictionary::new(), row)?;
    }
    Ok(())
}

// Checks that a row is there, and is one of this call.
fn is_of(call: PureCall, row: Option<&str>) -> Result<(), Fail> {
    let row = row.ok_or("each call has a row")?;
    let (found, _) = call_of(row).ok_or("a row has a call")?;
    holds(found == call, row)
}

// Checks that there is one row for each call, in the order of `PURE_CALLS`.
fn are_of_all_calls(rows: &str) -> Result<(), Fail> {
    let mut rest = rows.lines();
    for call in &PURE_CALLS {
        is_of(*call, rest.next())?;
    }
    holds(rest.next().is_none(), "no row is of no call")
}

#[test]
fn each_call_answers(rt: HostRuntime) -> Result<(), Fail> {
    are_of_all_calls(EACH)?;
    check(rt.alloc(), EACH)
}

#[test]
fn numbers_end_at_64_bits(rt: HostRuntime) -> Result<(), Fail> {
    check(rt.alloc(), NUMBERS)
}

#[test]
fn terms_compare_and_booleans_join(rt: HostRuntime) -> Result<(), Fail> {
    check(rt.alloc(), COMPARISONS)?;
    check(rt.alloc(), KINDS)
}

#[test]
fn tuples_and_lists_are_taken_apart(rt: HostRuntime) -> Result<(), Fail> {
    check(rt.alloc(), TUPLES)?;
    check(rt.alloc(), LISTS)
}

#[test]
fn exceptions_are_raised(rt: HostRuntime) -> Result<(), Fail> {
    check(rt.alloc(), RAISING)
}
