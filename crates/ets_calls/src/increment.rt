// What `update_counter/3` and `update_counter/4` add (ets manual).
ghost use Rattle.std.specs.Prelude.{◌≡◌, IfOk, map, option_map};
ghost use Rattle.ets_calls.specs.Arguments.{addition_in, increment_in};
ghost use Rattle.term_core.specs.Term.{meaning_of};
ghost use Rattle.world_model.specs.Calls.{addition_of, addition_of_parts, increment_of, one_addition, several_additions};
ghost use Rattle.world_model.specs.Terms.{each_in};

use crate::argument::position_of;
use std::alloc::{AllocError, Global};
use term_core::{Term, Terms};

/// One addition.
#[derive(Clone, Copy, Debug, PartialEq, Eq)]
pub struct Addition {
    /// The position of the element; 0 means a position below 1.
    pub position: usize,
    /// What is added.
    pub amount: i64,
    /// If the sum has a limit, that and what takes the place of a sum past it.
    pub limit: Option<(i64, i64)>,
}

/// What is added.
#[derive(Drop)]
pub enum Increment {
    /// An integer, to the element after the key.
    AfterKey(i64),
    /// One addition.
    AtPlace(Addition),
    /// Several, one after the other.
    InTurn(Vec<Addition>),
    /// None of these.
    NotGiven,
}

// The addition that a tuple of these parts is.
fn addition_of_parts(parts: &Terms) -> Option<Addition>
    ensures { option_map addition_in result ≡ addition_of_parts parts.now }
{
    match parts.as_slice() {
        [Term::Int(position), Term::Int(amount)] => Some(Addition {
            position: position_of(*position),
            amount: *amount,
            limit: None,
        }),
        [
            Term::Int(position),
            Term::Int(amount),
            Term::Int(limit),
            Term::Int(value),
        ] => {
            Some(Addition {
                position: position_of(*position),
                amount: *amount,
                limit: Some((*limit, *value)),
            })
        }
        _ => None,
    }
}

// The addition that a term is, if it is one.
fn addition_of(term: &Term) -> Option<Addition>
    ensures { option_map addition_in result ≡ addition_of (meaning_of term.now) }
{
    match term {
        Term::Tuple(parts) => addition_of_parts(parts),
        _ => None,
    }
}

// The additions of a proper list, if each item is one.
fn additions_in_list(alloc: Global, list: &Term) -> Result<Option<Vec<Addition>>, AllocError>
    ensures { IfOk result (λ additions. option_map (λ xs. map addition_in xs.items) additions ≡ each_in addition_of (meaning_of list.now)) }
{
    let mut additions = Vec::new(alloc);
    let mut rest = list;
    while let Some(pair) = rest.as_cell() {
        let Some(addition) = addition_of(pair.head()) else {
            return Ok(None);
        };
        additions.push(addition)?;
        rest = pair.tail();
    }
    match rest {
        Term::Nil => Ok(Some(additions)),
        _ => Ok(None),
    }
}

// What a tuple of these parts adds.
fn of_parts(parts: &Terms) -> Increment
    ensures { increment_in result ≡ one_addition (addition_of_parts parts.now) }
{
    match addition_of_parts(parts) {
        Some(addition) => Increment::AtPlace(addition),
        None => Increment::NotGiven,
    }
}

// What a list adds, if it is one.
fn of_list(alloc: Global, list: &Term) -> Result<Increment, AllocError>
    ensures { IfOk result (λ increment. increment_in increment ≡ several_additions (each_in addition_of (meaning_of list.now))) }
{
    match additions_in_list(alloc, list)? {
        Some(additions) => Ok(Increment::InTurn(additions)),
        None => Ok(Increment::NotGiven),
    }
}

impl Increment {
    /// What a term adds: an integer, a tuple of two or four integers, or a proper list of such tuples, or `AllocError`
    /// if there is no memory for the list (ets manual, `update_counter/3`).
    pub fn of(alloc: Global, term: &Term) -> Result<Increment, AllocError>
        ensures { IfOk result (λ increment. increment_in increment ≡ increment_of (meaning_of term.now)) }
    {
        match term {
            Term::Int(number) => Ok(Increment::AfterKey(*number)),
            Term::Tuple(parts) => Ok(of_parts(parts)),
            _ => of_list(alloc, term),
        }
    }
}
