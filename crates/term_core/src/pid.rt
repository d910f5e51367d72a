// Names of processes and references.
ghost use Rattle.std.specs.Prelude.{◌≡◌, IfOk};

use std::alloc::{AllocError, Global};
use std::marker::Model;
use std::sync::Arc;

/// A process. Contracts see it as the list of its numbers: none for the first process, and the pid
/// of what request k of process p creates is the pid of p with k at its end. Copies share the numbers.
pub struct Pid {
    pub(crate) numbers: Arc<Vec<u64>>,
}

// Dropped by a call, so that no crate above proves again how.
impl Drop for Pid {
    fn drop(self) {
        let Pid { numbers: _ } = self;
    }
}

impl Model for Pid {
    ghost use Rattle.std.specs.Prelude.{ℕ, List};

    ghost Value = { List ℕ };

    ghost view = { λ p. p.numbers.value.items };
}

impl Pid {
    /// The pid of these numbers, which are taken over, or `AllocError` where there is no memory for it,
    /// and then they are dropped.
    pub fn new(alloc: Global, numbers: Vec<u64>) -> Result<Pid, AllocError>
        ensures { IfOk result (λ pid. pid ≡ numbers.items) }
    {
        Ok(Pid {
            numbers: Arc::new(alloc, numbers)?,
        })
    }

    /// The numbers.
    pub fn numbers(&self) -> &[u64]
        ensures { result.now ≡ self.now }
    {
        self.numbers.as_slice()
    }
}

/// What a reference is made of.
#[derive(Drop)]
pub(crate) struct Creation {
    pub(crate) pid: Pid,
    pub(crate) number: u64,
}

/// The reference that a numbered request of a process creates. Contracts see it as the pair of the
/// process and the number. Copies share both.
pub struct RefId {
    pub(crate) creation: Arc<Creation>,
}

// Dropped by a call, so that no crate above proves again how.
impl Drop for RefId {
    fn drop(self) {
        let RefId { creation: _ } = self;
    }
}

impl Model for RefId {
    ghost use Rattle.std.specs.Prelude.{ℕ, List};

    ghost Value = { List ℕ × ℕ };

    ghost view = { λ r. (r.creation.value.pid, r.creation.value.number) };
}

impl RefId {
    /// The reference that request `number` of the process `pid` creates, or `AllocError` where there is no
    /// memory for it, and then the pid is dropped.
    pub fn new(alloc: Global, pid: Pid, number: u64) -> Result<RefId, AllocError>
        ensures { IfOk result (λ reference. reference ≡ (pid, number)) }
    {
        Ok(RefId {
            creation: Arc::new(alloc, Creation { pid, number })?,
        })
    }

    /// The process that creates it.
    pub fn pid(&self) -> &Pid
        ensures { result.now ≡ self.now.0 }
    {
        &self.creation.pid
    }

    /// The number of the request that creates it.
    pub fn number(&self) -> u64
        ensures { result ≡ self.now.1 }
    {
        self.creation.number
    }
}
