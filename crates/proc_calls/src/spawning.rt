// Where a new process begins, and what its spawn adds (the Erlang manual, module `erlang`, `spawn/3`).
ghost use Rattle.std.specs.Prelude.{◌≡◌, IfOk, option_map};
ghost use Rattle.proc_calls.specs.Arguments.{origin_in};
ghost use Rattle.term_core.specs.Term.{meaning_of};
ghost use Rattle.world_model.specs.Calls.{origin_of};
ghost use Rattle.world_model.specs.Terms.{atom_in, items_in};

use crate::argument::name_in;
use std::alloc::{AllocError, Global};
use term_core::{Atom, Term, Terms};

/// What a spawn adds.
#[derive(Clone, Copy, Debug, PartialEq, Eq)]
pub enum SpawnWay {
    /// `spawn/3`: nothing.
    Alone,
    /// `spawn_link/3`: a link between the two.
    Linked,
    /// `spawn_monitor/3`: a watch by the caller.
    Watched,
}

/// Where a process that is spawned begins.
#[derive(Drop)]
pub struct Origin {
    /// The module of the function.
    pub module_name: Atom,
    /// The function.
    pub function_name: Atom,
    /// What the function is given.
    pub arguments: Terms,
}

// The items of a proper list.
fn items_of(alloc: Global, list: &Term) -> Result<Option<Terms>, AllocError>
    ensures { IfOk result (λ items. items ≡ items_in (meaning_of list.now)) }
{
    let mut items = Terms::new(alloc);
    let mut rest = list;
    while let Some(pair) = rest.as_cell() {
        items.push(pair.head().copy()?)?;
        rest = pair.tail();
    }
    match rest {
        Term::Nil => Ok(Some(items)),
        _ => Ok(None),
    }
}

impl Origin {
    /// Where the arguments of a spawn say that the new process begins, if the first two are atoms and the third is a
    /// proper list, or `AllocError` if there is no memory for the list, or where the copies of its items or of the
    /// names can no longer be counted (erlang manual, `spawn/3`).
    pub fn of(
        alloc: Global,
        module_name: &Term,
        function_name: &Term,
        arguments: &Term,
    ) -> Result<Option<Origin>, AllocError>
        ensures { IfOk result (λ origin. option_map origin_in origin ≡ origin_of (atom_in (meaning_of module_name.now)) (atom_in (meaning_of function_name.now)) (items_in (meaning_of arguments.now))) }
    {
        let Some(module_name) = name_in(module_name)? else {
            return Ok(None);
        };
        let Some(function_name) = name_in(function_name)? else {
            return Ok(None);
        };
        let Some(arguments) = items_of(alloc, arguments)? else {
            return Ok(None);
        };
        Ok(Some(Origin {
            module_name,
            function_name,
            arguments,
        }))
    }
}
