// What the arguments of the calls of tables are (ets manual). An argument that is not of its kind is none.
ghost use Rattle.std.specs.Prelude.{◌≡◌, IfOk};
ghost use Rattle.ets_calls.specs.Arguments.{argument_in};
ghost use Rattle.term_core.specs.Term.{meaning_of};
ghost use Rattle.world_model.specs.Calls.{argument_of};
ghost use Rattle.world_model.specs.Terms.{atom_in, process_in, position_of, positive_in};

use std::alloc::AllocError;
use term_core::{Atom, Pid, RefId, Term};

/// By what a call names its table.
#[derive(Drop)]
pub enum TableArgument {
    /// A name.
    ByName(Atom),
    /// The reference of its creation.
    ByReference(RefId),
    /// What is neither.
    ByNothing,
}

impl TableArgument {
    /// By what a term names a table, or `AllocError` where its copies can no longer be counted (ets manual,
    /// "Table Names"): an atom is a name.
    pub fn of(term: &Term) -> Result<TableArgument, AllocError>
        ensures { IfOk result (λ argument. argument_in argument ≡ argument_of (meaning_of term.now)) }
    {
        match term {
            Term::Atom(name) => Ok(TableArgument::ByName(name.copy()?)),
            Term::Ref(reference) => Ok(TableArgument::ByReference(reference.copy()?)),
            _ => Ok(TableArgument::ByNothing),
        }
    }
}

/// The name that a term is, if it is an atom, or `AllocError` where its copies can no longer be counted.
pub(crate) fn name_in(term: &Term) -> Result<Option<Atom>, AllocError>
    ensures { IfOk result (λ name. name ≡ atom_in (meaning_of term.now)) }
{
    match term {
        Term::Atom(name) => Ok(Some(name.copy()?)),
        _ => Ok(None),
    }
}

/// The process that a term is, if it is one, or `AllocError` where its copies can no longer be counted.
pub(crate) fn process_in(term: &Term) -> Result<Option<Pid>, AllocError>
    ensures { IfOk result (λ process. process ≡ process_in (meaning_of term.now)) }
{
    match term {
        Term::Pid(pid) => Ok(Some(pid.copy()?)),
        _ => Ok(None),
    }
}

/// A position; 0 means what is below 1. It takes no memory.
pub(crate) fn position_of(number: i64) -> usize
    ensures { result ≡ position_of number }
{
    if number < 0 {
        return 0;
    }
    number as usize
}

/// The position that a term is, if it is an integer from 1 on. It takes no memory.
pub fn positive_in(term: &Term) -> Option<usize>
    ensures { result ≡ positive_in (meaning_of term.now) }
{
    let Term::Int(number) = term else {
        return None;
    };
    let position = position_of(*number);
    if position == 0 {
        return None;
    }
    Some(position)
}
