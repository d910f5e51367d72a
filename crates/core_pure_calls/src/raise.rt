// Calls that raise (Erlang reference manual, module erlang, `error/1`, `error/2`, `exit/1`, `throw/1`).
ghost use Rattle.std.specs.Prelude.{◌≡◌, IfOk};
ghost use Rattle.term_core.specs.Term.{meaning_of};
ghost use Rattle.core_pure_calls.specs.Outcomes.{outcome_of};
ghost use Rattle.core_pure_calls.specs.Raising.{error_with, exit_with, throw_of, undefined};

use crate::outcome::{Class, Outcome, Refusal, refuse};
use std::alloc::AllocError;
use term_core::Term;

/// An error with this reason.
pub(crate) fn error_with(reason: &Term) -> Result<Outcome, AllocError>
    ensures { IfOk result (λ outcome. outcome_of outcome ≡ error_with (meaning_of reason.now)) }
{
    Ok(Outcome::Raised(Class::Error, reason.copy()?))
}

/// An exit with this reason.
pub(crate) fn exit_with(reason: &Term) -> Result<Outcome, AllocError>
    ensures { IfOk result (λ outcome. outcome_of outcome ≡ exit_with (meaning_of reason.now)) }
{
    Ok(Outcome::Raised(Class::Exit, reason.copy()?))
}

/// A term that is thrown.
pub(crate) fn throw_of(term: &Term) -> Result<Outcome, AllocError>
    ensures { IfOk result (λ outcome. outcome_of outcome ≡ throw_of (meaning_of term.now)) }
{
    Ok(Outcome::Raised(Class::Throw, term.copy()?))
}

/// The error of a call of no function.
pub(crate) fn undefined() -> Outcome
    ensures { outcome_of result ≡ undefined }
{
    refuse(Refusal::Undefined)
}
