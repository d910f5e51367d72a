// Which explorations, tickets and pieces are one.
ghost use Rattle.std.specs.Prelude.{◌≡◌, true, false};
ghost use Rattle.core_tree.specs.Sameness.{bare_module};
ghost use Rattle.world_identities.specs.Identities.{flags_in};
ghost use Rattle.search_jobs.specs.Explorations.{exploration_in};
ghost use Rattle.search_pool.specs.Calls.{IsFor};
ghost use Rattle.search_pool.specs.Explorations.{AreOne};

use core_tree::Module;
use search_jobs::{Exploration, Job, JobName, Piece, Ticket};
use term_core::Step;
use term_core::order::steps::compare_schedules;
use world_identities::Flags;

// Whether two modules are the same except for the places of their parts.
fn are_alike(a: &Module, b: &Module) -> bool
    ensures yes { result ≡ true → bare_module a.now ≡ bare_module b.now }
    ensures no { result ≡ false → bare_module a.now ≡ bare_module b.now → ⊥ }
{
    *a == *b
}

// Whether the same counts as an error.
fn same_flags(a: Flags, b: Flags) -> bool
    ensures yes { result ≡ true → flags_in a ≡ flags_in b }
    ensures no { result ≡ false → flags_in a ≡ flags_in b → ⊥ }
{
    a.allow_deadlock == b.allow_deadlock
        && a.strict_access == b.strict_access
        && a.idle_servers == b.idle_servers
}

// Whether two explorations are one. Modules are compared by value.
fn are_one(a: &Exploration<'_>, b: &Exploration<'_>) -> bool
    ensures yes { result ≡ true → AreOne (exploration_in a.now) (exploration_in b.now) }
    ensures no { result ≡ false → AreOne (exploration_in a.now) (exploration_in b.now) → ⊥ }
{
    a.depth == b.depth && same_flags(a.flags, b.flags) && are_alike(a.program, b.program)
}

// Whether two lists of steps are one.
fn same_steps(a: &[Step], b: &[Step]) -> bool
    ensures yes { result ≡ true → a.now ≡ b.now }
    ensures no { result ≡ false → a.now ≡ b.now → ⊥ }
{
    compare_schedules(a, b).is_eq()
}

// Whether two jobs are called the same.
fn same_name(name: &JobName, other: &JobName) -> bool
    ensures yes { result ≡ true → name.now ≡ other.now }
    ensures no { result ≡ false → name.now ≡ other.now → ⊥ }
{
    same_steps(name.prefix.as_slice(), other.prefix.as_slice())
        && same_steps(name.slept.as_slice(), other.slept.as_slice())
}

/// Whether two tickets are one: a number, and the name of a job.
pub(crate) fn is_ticket(ticket: &Ticket, other: &Ticket) -> bool
    ensures yes { result ≡ true → ticket.now ≡ other.now }
    ensures no { result ≡ false → ticket.now ≡ other.now → ⊥ }
{
    ticket.number == other.number && same_name(&ticket.name, &other.name)
}

/// Whether a piece is of a ticket's job and of an exploration.
pub(crate) fn is_for(piece: &Piece<'_>, ticket: &Ticket, exploration: &Exploration<'_>) -> bool
    ensures yes { result ≡ true → IsFor (exploration_in exploration.now) ticket.now piece.now }
    ensures no { result ≡ false → IsFor (exploration_in exploration.now) ticket.now piece.now → ⊥ }
{
    is_ticket(piece.ticket(), ticket) && are_one(&piece.exploration(), exploration)
}

/// Whether a job is the one that a pool of an exploration began with, by its name there.
pub(crate) fn is_start(job: &Job<'_>, exploration: &Exploration<'_>, start: &JobName) -> bool
    ensures yes { result ≡ true → AreOne (exploration_in exploration.now) job.now.exploration × (start.now ≡ job.now.name) }
    ensures no { result ≡ false → AreOne (exploration_in exploration.now) job.now.exploration × (start.now ≡ job.now.name) → ⊥ }
{
    same_name(start, job.name()) && are_one(exploration, &job.exploration())
}
