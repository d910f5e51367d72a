// Sets of processes, which copies share until one of them is changed.
ghost use Rattle.std.specs.Prelude.{◌≡◌, true, false, IfOk, OnOk, OnErr, if◌then◌else◌};
ghost use Rattle.std.specs.BTreeSet.{contains};
ghost use Rattle.term_core.specs.Order.{order_of_lists};
ghost use Rattle.world_model.specs.Names as names;

use std::alloc::{AllocError, Global};
use std::collections::BTreeSet;
use std::sync::Arc;
use term_core::Pid;

/// A set of processes.
#[derive(Drop)]
pub(crate) struct Pids {
    pids: Arc<BTreeSet<Pid>>,
}

impl Pids {
    ghost use Rattle.proc_machines.specs.Pids.{is_in, HasAt, AreSame, TakesAt};

    /// No processes, or `AllocError` if there is no memory.
    pub(crate) fn new(alloc: Global) -> Result<Pids, AllocError>
        ensures { IfOk result (λ begun. (p : names.Pid) → is_in begun p ≡ false) }
    {
        Ok(Pids {
            pids: Arc::new(alloc, BTreeSet::new(alloc))?,
        })
    }

    /// The same processes, or `AllocError` where the copies can no longer be counted.
    pub(crate) fn copy(&self) -> Result<Pids, AllocError>
        ensures { IfOk result (λ copied. AreSame self.now copied) }
    {
        Ok(Pids {
            pids: Arc::try_clone(&self.pids)?,
        })
    }

    /// Whether a process is among them. It takes no memory.
    pub(crate) fn has(&self, pid: &Pid) -> bool
        ensures { result ≡ is_in self.now pid.now }
    {
        self.pids.contains(pid)
    }

    /// All of them. It takes no memory.
    pub(crate) fn all(&self) -> &BTreeSet<Pid>
        ensures { (p : names.Pid) → contains order_of_lists result.now p ≡ is_in self.now p }
    {
        &self.pids
    }

    /// Puts a process among them. `AllocError` if there is no memory, and then nothing is changed.
    pub(crate) fn put(&mut self, pid: &Pid) -> Result<(), AllocError>
        ensures ok { OnOk result (HasAt pid.now true self.old self.new) }
        ensures err { OnErr result (AreSame self.old self.new) }
    {
        let pid = pid.copy()?;
        let pids = Arc::make_mut(&mut self.pids)?;
        pids.insert(pid)?;
        Ok(())
    }

    /// Takes a process from them. `AllocError` if there is no memory for what is shared with a copy, and then
    /// nothing is changed.
    pub(crate) fn take(&mut self, pid: &Pid) -> Result<(), AllocError>
        ensures ok { OnOk result (HasAt pid.now false self.old self.new) }
        ensures err { OnErr result (AreSame self.old self.new) }
    {
        let pids = Arc::make_mut(&mut self.pids)?;
        pids.remove(pid);
        Ok(())
    }

    /// Has one process among them if others have it, and else not. `AllocError` if there is no memory.
    pub(crate) fn take_from(&mut self, pid: &Pid, other: &Pids) -> Result<(), AllocError>
        ensures { OnOk result (TakesAt pid.now other.now self.old self.new) }
    {
        if other.has(pid) {
            self.put(pid)?;
            return Ok(());
        }
        self.take(pid)?;
        Ok(())
    }
}
