// The receive of a process, as mailboxes are searched by it.
use core_eval::Machine;
use proc_signals::Selector;
use std::alloc::{AllocError, Global};
use term_core::Term;

/// A process at its request, which takes the messages that the clauses of its receive select (Core Erlang 1.0.3,
/// "Receive"). Where its request is no receive it takes none.
#[derive(Drop)]
pub struct Receiver<'a, 'm> {
    pub(crate) machine: &'a Machine<'m>,
}

impl<'a, 'm> Selector for Receiver<'a, 'm> {
    ghost use Rattle.proc_machines.specs.Receivers.{taken_by};

    ghost takes = { taken_by };

    fn selects(&self, alloc: Global, message: &Term) -> Result<bool, AllocError> {
        self.machine.selects(alloc, message)
    }
}
