// Lists (Erlang reference manual, modules erlang and lists). They may have any length: each is walked by a
// loop over its tails.
ghost use Rattle.std.specs.Prelude.{◌≡◌, ◌^◌, ◌-◌, min, IfOk, map, length};
ghost use Rattle.term_core.specs.Term.{meaning_of};
ghost use Rattle.core_pure_calls.specs.Outcomes.{integer_or_refusal, outcome_of, truth_or_refusal};
ghost use Rattle.core_pure_calls.specs.Lists.{appended, head_of, heads_of, is_proper, length_of, membership, one_equals, reversed, subtracted, tail_of, tuple_of_list, without_each, without_first};
ghost use Rattle.core_pure_calls.specs.inside.Walks.{first_equal};

use crate::arithmetic::count;
use crate::compare::are_equal;
use crate::outcome::{Outcome, Refusal, refuse};
use std::alloc::{AllocError, Global};
use term_core::{Term, Terms, list_onto};

// Whether the last tail of a list is nil.
fn is_proper(list: &Term) -> bool
    ensures { result ≡ is_proper (meaning_of list.now) }
{
    let mut rest = list;
    while let Some(pair) = rest.as_cell() {
        rest = pair.tail();
    }
    matches!(rest, Term::Nil)
}

// The number of the cells of a list, or `u64::MAX` where there are more.
fn cells(list: &Term) -> u64
    ensures { result ≡ min (length (heads_of (meaning_of list.now))) (2 ^ 64 - 1) }
{
    let mut cells: u64 = 0;
    let mut rest = list;
    while let Some(pair) = rest.as_cell() {
        cells = cells.saturating_add(1);
        rest = pair.tail();
    }
    cells
}

// Copies of the heads of a list's cells.
fn heads(alloc: Global, list: &Term) -> Result<Vec<Term>, AllocError>
    ensures { IfOk result (λ copied. map meaning_of copied.items ≡ heads_of (meaning_of list.now)) }
{
    let mut copied = Vec::new(alloc);
    let mut rest = list;
    while let Some(pair) = rest.as_cell() {
        copied.push(pair.head().copy()?)?;
        rest = pair.tail();
    }
    Ok(copied)
}

// Whether one of the heads of a list's cells is equal to a term.
fn one_equals(wanted: &Term, list: &Term) -> bool
    ensures { result ≡ one_equals (meaning_of wanted.now) (heads_of (meaning_of list.now)) }
{
    let mut rest = list;
    while let Some(pair) = rest.as_cell() {
        if are_equal(pair.head(), wanted) {
            return true;
        }
        rest = pair.tail();
    }
    false
}

/// `hd` of a term.
pub(crate) fn head_of(term: &Term) -> Result<Outcome, AllocError>
    ensures { IfOk result (λ outcome. outcome_of outcome ≡ head_of (meaning_of term.now)) }
{
    match term.as_cell() {
        Some(pair) => Ok(Outcome::Value(pair.head().copy()?)),
        None => Ok(refuse(Refusal::BadArgument)),
    }
}

/// `tl` of a term.
pub(crate) fn tail_of(term: &Term) -> Result<Outcome, AllocError>
    ensures { IfOk result (λ outcome. outcome_of outcome ≡ tail_of (meaning_of term.now)) }
{
    match term.as_cell() {
        Some(pair) => Ok(Outcome::Value(pair.tail().copy()?)),
        None => Ok(refuse(Refusal::BadArgument)),
    }
}

/// `length` of a term.
pub(crate) fn length_of(list: &Term) -> Result<i64, Refusal>
    ensures { integer_or_refusal result ≡ length_of (meaning_of list.now) }
{
    if is_proper(list) {
        count(cells(list))
    } else {
        Err(Refusal::BadArgument)
    }
}

/// `++` of two terms.
pub(crate) fn appended(alloc: Global, list: &Term, behind: &Term) -> Result<Outcome, AllocError>
    ensures { IfOk result (λ outcome. outcome_of outcome ≡ appended (meaning_of list.now) (meaning_of behind.now)) }
{
    if !is_proper(list) {
        return Ok(refuse(Refusal::BadArgument));
    }
    let items = heads(alloc, list)?;
    Ok(Outcome::Value(list_onto(alloc, items, behind.copy()?)?))
}

// The place of the first item that is equal to a term, from 0.
fn first_equal(items: &[Term], wanted: &Term) -> Option<usize>
    ensures { result ≡ first_equal (meaning_of wanted.now) (map meaning_of items.now) }
{
    for (i, item) in items.iter().enumerate() {
        if are_equal(item, wanted) {
            return Some(i);
        }
    }
    None
}

// Takes out the first item that is equal to a term, if there is one.
fn remove_first(items: &mut Vec<Term>, taken: &Term)
    ensures { map meaning_of items.new.items ≡ without_first (meaning_of taken.now) (map meaning_of items.old.items) }
{
    if let Some(place) = first_equal(items.as_slice(), taken) {
        drop(items.remove(place));
    }
}

// Takes out the first item that is equal, for each head of a list's cells in order.
fn remove_each(items: &mut Vec<Term>, taken: &Term)
    ensures { map meaning_of items.new.items ≡ without_each (heads_of (meaning_of taken.now)) (map meaning_of items.old.items) }
{
    let mut rest = taken;
    while let Some(pair) = rest.as_cell() {
        remove_first(items, pair.head());
        rest = pair.tail();
    }
}

/// `--` of two terms.
pub(crate) fn subtracted(alloc: Global, list: &Term, taken: &Term) -> Result<Outcome, AllocError>
    ensures { IfOk result (λ outcome. outcome_of outcome ≡ subtracted (meaning_of list.now) (meaning_of taken.now)) }
{
    if !(is_proper(list) && is_proper(taken)) {
        return Ok(refuse(Refusal::BadArgument));
    }
    let mut items = heads(alloc, list)?;
    remove_each(&mut items, taken);
    Ok(Outcome::Value(list_onto(alloc, items, Term::Nil)?))
}

/// `list_to_tuple` of a term.
pub(crate) fn tuple_of_list(alloc: Global, list: &Term) -> Result<Outcome, AllocError>
    ensures { IfOk result (λ outcome. outcome_of outcome ≡ tuple_of_list (meaning_of list.now)) }
{
    if !is_proper(list) {
        return Ok(refuse(Refusal::BadArgument));
    }
    let items = heads(alloc, list)?;
    Ok(Outcome::Value(Term::tuple(alloc, Terms::from_vec(items))?))
}

/// `reverse` of a term.
#[tactic(auto, using(crate::proofs::ListSteps::map_reverse))]
pub(crate) fn reversed(alloc: Global, list: &Term) -> Result<Outcome, AllocError>
    ensures { IfOk result (λ outcome. outcome_of outcome ≡ reversed (meaning_of list.now)) }
{
    if !is_proper(list) {
        if cells(list) < 2 {
            return Ok(refuse(Refusal::FunctionClause));
        }
        return Ok(refuse(Refusal::BadArgument));
    }
    let mut items = heads(alloc, list)?;
    items.reverse();
    Ok(Outcome::Value(list_onto(alloc, items, Term::Nil)?))
}

/// `member` of a term and a list.
pub(crate) fn membership(wanted: &Term, list: &Term) -> Result<bool, Refusal>
    ensures { truth_or_refusal result ≡ membership (meaning_of wanted.now) (meaning_of list.now) }
{
    if one_equals(wanted, list) {
        Ok(true)
    } else if is_proper(list) {
        Ok(false)
    } else {
        Err(Refusal::BadArgument)
    }
}
