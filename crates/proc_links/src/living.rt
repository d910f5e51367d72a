// The processes that the end of a process informs, of those given with whether they live.
ghost use Rattle.std.specs.Prelude.{◌≡◌, ℕ, List, Bool, IfOk, option_copied};
ghost use Rattle.std.specs.BTreeSet.{contains};
ghost use Rattle.std.specs.List.{filter};
ghost use Rattle.term_core.specs.Order.{order_of_lists};
ghost use Rattle.proc_groups.specs.Groups.{members_of};

use std::alloc::{AllocError, Global};
use std::collections::BTreeSet;
use term_core::{Pid, RefId};

/// Which processes live.
pub trait Living {
    ghost lives: { Self → List ℕ → Bool };

    /// Whether a process lives. It takes no memory.
    fn lives(&self, pid: &Pid) -> bool
        ensures { result ≡ lives self.now pid.now };
}

/// Those in the set live.
impl Living for BTreeSet<Pid> {
    ghost lives = { contains order_of_lists };

    fn lives(&self, pid: &Pid) -> bool {
        self.contains(pid)
    }
}

/// Those of some processes that live, in their order.
pub(crate) fn living_pids<L: Living>(
    alloc: Global,
    pids: Option<&BTreeSet<Pid>>,
    living: &L,
) -> Result<Vec<Pid>, AllocError>
    ensures { IfOk result (λ told. told.items ≡ filter (L.lives living.now) (members_of (option_copied pids.entry))) }
{
    let mut told = Vec::new(alloc);
    let Some(pids) = pids else {
        return Ok(told);
    };
    for pid in pids.iter() {
        if living.lives(pid) {
            told.push(pid.copy()?)?;
        }
    }
    Ok(told)
}

/// The references whose makers live, in their order.
pub(crate) fn living_references<L: Living>(
    alloc: Global,
    references: Option<&BTreeSet<RefId>>,
    living: &L,
) -> Result<Vec<RefId>, AllocError>
    ensures { IfOk result (λ told. told.items ≡ filter (λ id. L.lives living.now id.0) (members_of (option_copied references.entry))) }
{
    let mut told = Vec::new(alloc);
    let Some(references) = references else {
        return Ok(told);
    };
    for reference in references.iter() {
        if living.lives(reference.pid()) {
            told.push(reference.copy()?)?;
        }
    }
    Ok(told)
}
