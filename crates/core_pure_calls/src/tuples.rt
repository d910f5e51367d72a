// Tuples (Erlang reference manual, module erlang, `element/2` and its neighbours).
ghost use Rattle.std.specs.Prelude.{◌≡◌, ◌<◌, IfOk, length, map, slice_set, vec_len};
ghost use Rattle.term_core.specs.Meaning.{Tuple, meanings_of};
ghost use Rattle.term_core.specs.Term.{meaning_of};
ghost use Rattle.core_pure_calls.specs.Outcomes.{integer_or_refusal, outcome_of};
ghost use Rattle.core_pure_calls.specs.Answers.{integer_in};
ghost use Rattle.core_pure_calls.specs.Tuples.{before_place, element, list_of_tuple, size_of_tuple, with_element};

use crate::arithmetic::{count, integer};
use crate::outcome::{Outcome, Refusal, refuse};
use std::alloc::{AllocError, Global};
use std::mem;
use term_core::{Term, Terms, list_onto};

// How many parts come before the one at this place of a tuple, if it has so many.
fn before_place(index: &Term, size: usize) -> Option<usize>
    ensures { result ≡ before_place (integer_in (meaning_of index.now)) size }
{
    let place = integer(index)?;
    if place < 1 {
        return None;
    }
    let before = place as u64 - 1;
    if before < size as u64 {
        Some(before as usize)
    } else {
        None
    }
}

/// Copies of terms, in order.
pub(crate) fn copies(alloc: Global, terms: &[Term]) -> Result<Vec<Term>, AllocError>
    ensures { IfOk result (λ copied. map meaning_of copied.items ≡ map meaning_of terms.now) }
{
    let mut copied = Vec::with_capacity(alloc, terms.len())?;
    for term in terms {
        copied.push(term.copy()?)?;
    }
    Ok(copied)
}

/// `element` of a place and a tuple.
pub(crate) fn element(index: &Term, term: &Term) -> Result<Outcome, AllocError>
    ensures { IfOk result (λ outcome. outcome_of outcome ≡ element (meaning_of index.now) (meaning_of term.now)) }
{
    let Some(parts) = term.as_tuple() else {
        return Ok(refuse(Refusal::BadArgument));
    };
    let parts = parts.as_slice();
    match before_place(index, parts.len()) {
        Some(before) => Ok(Outcome::Value(parts[before].copy()?)),
        None => Ok(refuse(Refusal::BadArgument)),
    }
}

// Puts a term into the place of another.
fn replace(terms: &mut Vec<Term>, place: usize, term: Term)
    requires { place < vec_len terms.old }
    ensures { terms.new.items ≡ slice_set terms.old.items place term }
{
    drop(mem::replace(&mut terms[place], term));
}

// The tuple of these parts with another term in one place.
#[tactic(auto, using(crate::proofs::ListSteps::map_replaced))]
fn tuple_with(alloc: Global, parts: &[Term], place: usize, value: &Term) -> Result<Term, AllocError>
    requires { place < length parts.now }
    ensures { IfOk result (λ term. meaning_of term ≡ Tuple (meanings_of (slice_set (map meaning_of parts.now) place (meaning_of value.now)))) }
{
    let mut replaced = copies(alloc, parts)?;
    replace(&mut replaced, place, value.copy()?);
    Term::tuple(alloc, Terms::from_vec(replaced))
}

/// `setelement` of a place, a tuple and a value.
pub(crate) fn with_element(
    alloc: Global,
    index: &Term,
    term: &Term,
    value: &Term,
) -> Result<Outcome, AllocError>
    ensures { IfOk result (λ outcome. outcome_of outcome ≡ with_element (meaning_of index.now) (meaning_of term.now) (meaning_of value.now)) }
{
    let Some(parts) = term.as_tuple() else {
        return Ok(refuse(Refusal::BadArgument));
    };
    let parts = parts.as_slice();
    match before_place(index, parts.len()) {
        Some(place) => Ok(Outcome::Value(tuple_with(alloc, parts, place, value)?)),
        None => Ok(refuse(Refusal::BadArgument)),
    }
}

/// `tuple_size` of a term.
pub(crate) fn size_of_tuple(term: &Term) -> Result<i64, Refusal>
    ensures { integer_or_refusal result ≡ size_of_tuple (meaning_of term.now) }
{
    match term.as_tuple() {
        Some(parts) => count(parts.len() as u64),
        None => Err(Refusal::BadArgument),
    }
}

/// `tuple_to_list` of a term.
pub(crate) fn list_of_tuple(alloc: Global, term: &Term) -> Result<Outcome, AllocError>
    ensures { IfOk result (λ outcome. outcome_of outcome ≡ list_of_tuple (meaning_of term.now)) }
{
    let Some(parts) = term.as_tuple() else {
        return Ok(refuse(Refusal::BadArgument));
    };
    let items = copies(alloc, parts.as_slice())?;
    Ok(Outcome::Value(list_onto(alloc, items, Term::Nil)?))
}
