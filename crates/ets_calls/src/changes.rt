// What `update_element/3` puts in (ets manual).
ghost use Rattle.std.specs.Prelude.{◌≡◌, ◌∷◌, [], IfOk, option_map};
ghost use Rattle.ets_calls.specs.Arguments.{changes_in};
ghost use Rattle.ets_store.specs.Parts.{part_in};
ghost use Rattle.term_core.specs.Term.{meaning_of};
ghost use Rattle.world_model.specs.Calls.{change_of, change_of_parts, changes_of};
ghost use Rattle.world_model.specs.Terms.{each_in};

use crate::argument::position_of;
use std::alloc::{AllocError, Global};
use term_core::{Term, Terms};

// The position and the value that a tuple of these parts is.
fn change_of_parts(parts: &Terms) -> Result<Option<(usize, Term)>, AllocError>
    ensures { IfOk result (λ change. option_map part_in change ≡ change_of_parts parts.now) }
{
    match parts.as_slice() {
        [Term::Int(position), value] => Ok(Some((position_of(*position), value.copy()?))),
        _ => Ok(None),
    }
}

// The position and the value that a term is: a pair with a position first.
fn change_of(term: &Term) -> Result<Option<(usize, Term)>, AllocError>
    ensures { IfOk result (λ change. option_map part_in change ≡ change_of (meaning_of term.now)) }
{
    match term {
        Term::Tuple(parts) => change_of_parts(parts),
        _ => Ok(None),
    }
}

// Those of a proper list, if each item is such a pair.
fn changes_in_list(alloc: Global, list: &Term) -> Result<Option<Vec<(usize, Term)>>, AllocError>
    ensures { IfOk result (λ changes. changes_in changes ≡ each_in change_of (meaning_of list.now)) }
{
    let mut changes = Vec::new(alloc);
    let mut rest = list;
    while let Some(pair) = rest.as_cell() {
        let Some(change) = change_of(pair.head())? else {
            return Ok(None);
        };
        changes.push(change)?;
        rest = pair.tail();
    }
    match rest {
        Term::Nil => Ok(Some(changes)),
        _ => Ok(None),
    }
}

// One change, if there is one.
fn one(
    alloc: Global,
    change: Option<(usize, Term)>,
) -> Result<Option<Vec<(usize, Term)>>, AllocError>
    ensures { IfOk result (λ changes. changes_in changes ≡ option_map (λ c. part_in c ∷ []) change) }
{
    let Some(change) = change else {
        return Ok(None);
    };
    let mut changes = Vec::with_capacity(alloc, 1)?;
    changes.push(change)?;
    Ok(Some(changes))
}

/// Where an object is to change, and what is to be there: one pair with a position first, or a proper list of such
/// pairs, or `AllocError` if there is no memory for the list, or where the copies of a value can no longer be counted
/// (ets manual, `update_element/3`).
pub fn changes_of(alloc: Global, term: &Term) -> Result<Option<Vec<(usize, Term)>>, AllocError>
    ensures { IfOk result (λ changes. changes_in changes ≡ changes_of (meaning_of term.now)) }
{
    match term {
        Term::Tuple(parts) => one(alloc, change_of_parts(parts)?),
        _ => changes_in_list(alloc, term),
    }
}
