// Messages that come in, and signals that are put and fetched (Erlang reference manual, "Processes": "Sending Signals").
ghost use Rattle.std.specs.Prelude.{◌≡◌, ◌∷◌, [], IfOk, OnOk, IsSome, None, option_map};
ghost use Rattle.proc_signals.specs.Signal.{signal_of};
ghost use Rattle.term_core.specs.Term.{meaning_of};
ghost use Rattle.world_model.specs.Changes.{SignalDelivered, MessageAdded, SignalPut};
ghost use Rattle.world_model.specs.Signals.{first_of, waiting_in};
ghost use Rattle.world_records.specs.Records.{AreAlike, Follows, OfWorld};

use crate::records::Records;
use proc_signals::Signal;
use std::alloc::{AllocError, Global};
use term_core::{Pid, Term};

impl<'m> Records<'m> {
    /// A signal is put for a process, whether or not that lives. `AllocError` if there is no memory.
    pub(crate) fn put_anyway(
        &mut self,
        alloc: Global,
        from: &Pid,
        to: &Pid,
        signal: Signal,
    ) -> Result<(), AllocError>
        ensures { OnOk result (Follows (λ v. SignalPut from.now to.now (signal_of signal) ∷ []) self.old self.new) }
    {
        self.channels.send(alloc, from, to, signal)?;
        Ok(())
    }

    /// A message comes into a mailbox. `AllocError` if there is no memory.
    pub(crate) fn mail(&mut self, alloc: Global, pid: &Pid, message: Term) -> Result<(), AllocError>
        ensures { OnOk result (Follows (λ v. MessageAdded pid.now (meaning_of message) ∷ []) self.old self.new) }
    {
        self.mailboxes.put(alloc, pid, message)?;
        Ok(())
    }

    /// The oldest signal from one process to another leaves its channel, if one waits there. `AllocError` if there is
    /// no memory.
    pub fn fetch(&mut self, from: &Pid, to: &Pid) -> Result<Option<Signal>, AllocError>
        ensures fetched { IfOk result (λ fetched. OfWorld self.old (λ m v. option_map signal_of fetched ≡ first_of (waiting_in v from.now to.now))) }
        ensures ok { IfOk result (λ fetched. IsSome fetched → Follows (λ v. SignalDelivered from.now to.now ∷ []) self.old self.new) }
        ensures none { IfOk result (λ fetched. fetched ≡ None → AreAlike self.old self.new) }
    {
        let fetched = self.channels.take_front(from, to)?;
        Ok(fetched)
    }
}
