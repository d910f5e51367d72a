// What calls result in.
ghost use Rattle.std.specs.Prelude.{◌≡◌};
ghost use Rattle.term_core.specs.Term.{meaning_of};
ghost use Rattle.world_model.specs.Terms.{ok, truth};

use term_core::{Pid, Term, Word};
use world_model::rule::Rule;

/// Why a call is refused.
#[derive(Drop)]
pub enum Refusal {
    /// The error `badarg` of a call of processes (erlang manual, each under the name of its call).
    BadArgument,
    /// The error `noproc` of `link/1` (erlang manual, `link/1`).
    NoProcess,
    /// The error `badarg` of a call of tables: the one rule that fails, and the owner of the table then, except where
    /// the table, the name or the options are at fault (the Erlang manual, module `ets`).
    ByRule(Rule, Option<Pid>),
}

/// What a call results in.
#[derive(Drop)]
pub enum Reply {
    /// It is served with this answer.
    Served(Term),
    /// It is refused.
    Refused(Refusal),
    /// It ends its caller with this reason (erlang manual, `exit/2`).
    Ends(Term),
}

/// The atom of a truth value. It takes no memory.
pub fn truth(is_so: bool) -> Term
    ensures { meaning_of result ≡ truth is_so }
{
    if is_so {
        Term::word(Word::True)
    } else {
        Term::word(Word::False)
    }
}

/// The answer of a call that does something, `true`. It takes no memory.
pub fn done() -> Term
    ensures { meaning_of result ≡ ok }
{
    Term::word(Word::True)
}
