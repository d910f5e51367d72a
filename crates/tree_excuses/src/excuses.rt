// Which errors are excused, and so taken as normal.
ghost use Rattle.std.specs.Prelude.{◌≡◌, length, map};
ghost use Rattle.std.specs.List.{list_any};
ghost use Rattle.world_identities.specs.Identities.{flags_in, identity_in};
ghost use Rattle.term_core.specs.Term.{meaning_of};
ghost use Rattle.tree_excuses.specs.Excuses.{are_any, counts, excuses_in, is_excused, no_excuses, those_that};
ghost use Rattle.tree_excuses.specs.Patterns.{matches};

use crate::patterns::matches;
use crate::standing::Standing;
use std::alloc::Global;
use term_core::Term;
use tree_findings::FindingList;
use world_identities::{Flags, Identity, has_first};

/// Which errors are excused. An error that is excused is taken as normal: it is listed, and does not count.
pub struct Excuses {
    /// Whether a deadlock in which the first process does not wait is excused.
    pub main_deadlock: bool,
    /// Patterns of the reasons with which a process may end: in each of these terms the atom `'_'` stands for any term.
    pub normal: Vec<Term>,
}

// Dropped by a call, so that no crate above proves again how.
impl Drop for Excuses {
    fn drop(self) {
        let Excuses {
            main_deadlock: _,
            normal: _,
        } = self;
    }
}

// Whether one of these patterns matches a reason.
fn one_matches(normal: &[Term], reason: &Term) -> bool
    ensures { result ≡ list_any (λ it. matches it (meaning_of reason.now)) (map meaning_of normal.now) }
{
    for pattern in normal {
        if matches(pattern, reason) {
            return true;
        }
    }
    false
}

impl Excuses {
    /// Nothing is excused. It takes no memory.
    pub fn none(alloc: Global) -> Excuses
        ensures { excuses_in result ≡ no_excuses }
    {
        Excuses {
            main_deadlock: false,
            normal: Vec::new(alloc),
        }
    }

    /// Whether anything may be excused. It takes no memory.
    pub fn are_any(&self) -> bool
        ensures { result ≡ are_any (excuses_in self.now) }
    {
        self.main_deadlock || !self.normal.is_empty()
    }

    /// Whether what a schedule shows is excused: an end with a reason that one of the patterns matches and, where only
    /// deadlocks of the first process count, one in which it does not wait. A process that makes too many applications
    /// without a request, a call that is refused, and what is unread never are. It takes no memory.
    pub fn excuses(&self, identity: &Identity) -> bool
        ensures { result ≡ is_excused (excuses_in self.now) (identity_in identity.now) }
    {
        match identity {
            Identity::End { pid: _, reason } => one_matches(self.normal.as_slice(), reason),
            Identity::Deadlock(pids) => self.main_deadlock && !has_first(pids.as_slice()),
            Identity::Runaway(_) => false,
            Identity::Refusal { .. } => false,
            Identity::Unread(_) => false,
        }
    }

    /// Whether it counts as an error: it is one under the flags, and is not excused. It takes no memory.
    pub fn counts(&self, flags: Flags, identity: &Identity) -> bool
        ensures { result ≡ counts (flags_in flags) (excuses_in self.now) (identity_in identity.now) }
    {
        identity.is_error(flags) && !self.excuses(identity)
    }

    /// How many of the errors that were found have this standing. It takes no memory.
    pub fn count(&self, standing: Standing, errors: &FindingList) -> usize
        ensures { result ≡ length (those_that (excuses_in self.now) standing errors.now) }
    {
        let mut count = 0;
        for finding in errors.as_slice() {
            if standing.is_of(self, &finding.identity) {
                count += 1;
            }
        }
        count
    }
}
