// Changes of processes, of what they send, and of what they are to each other, each applied by itself.
ghost use Rattle.std.specs.Prelude.{◌≡◌, ◌∷◌, [], OnOk};
ghost use Rattle.proc_links.specs.Process.{are_trapped};
ghost use Rattle.world_model.specs.Changes.{TrapSet};
ghost use Rattle.world_records.specs.Records.{Follows};
ghost use Rattle.world_records.specs.declared.change.Change.TheVariants.{ProcessStarted, ProcessEnded, MessageAdded, MessageTaken, SignalPut, WatchCleared, GuardSet, GuardCleared, GuardUnwatched, NameRegistered, NameUnregistered, NameCleared};
ghost use Rattle.world_records.specs.inside.Applied.{Applies};

use crate::records::Records;
use proc_links::{Exits, Guard};
use proc_signals::Signal;
use std::alloc::{AllocError, Global};
use term_core::{Atom, Pid, RefId, Term, Terms};

impl<'m> Records<'m> {
    /// A process begins, with copies of the arguments.
    pub(crate) fn begin_copy(
        &mut self,
        alloc: Global,
        child: &Pid,
        module_name: &Atom,
        function_name: &Atom,
        arguments: &Terms,
    ) -> Result<(), AllocError>
        ensures { OnOk result (Applies (ProcessStarted child.now module_name.now function_name.now arguments.now) self.old self.new) }
    {
        let arguments = arguments.copy(alloc)?;
        self.begin(alloc, child, module_name, function_name, arguments)?;
        Ok(())
    }

    /// A process ends, whatever the reason, and no longer lives.
    pub(crate) fn die(&mut self, alloc: Global, pid: &Pid, _reason: &Term) -> Result<(), AllocError>
        ensures { OnOk result (Applies (ProcessEnded pid.now _reason.now) self.old self.new) }
    {
        self.processes.kill(alloc, pid)?;
        Ok(())
    }

    /// Exit signals are messages to a process from now on, or end it.
    pub(crate) fn set_trap(&mut self, pid: &Pid, exits: Exits) -> Result<(), AllocError>
        ensures { OnOk result (Follows (λ v. TrapSet pid.now (are_trapped exits) ∷ []) self.old self.new) }
    {
        self.processes.set_trap(pid, exits)?;
        Ok(())
    }

    /// A copy of a message comes into a mailbox.
    pub(crate) fn mail_copy(
        &mut self,
        alloc: Global,
        pid: &Pid,
        message: &Term,
    ) -> Result<(), AllocError>
        ensures { OnOk result (Applies (MessageAdded pid.now message.now) self.old self.new) }
    {
        let message = message.copy()?;
        self.mail(alloc, pid, message)?;
        Ok(())
    }

    /// A message leaves a mailbox, where it first occurs.
    pub(crate) fn take_out(
        &mut self,
        alloc: Global,
        pid: &Pid,
        message: &Term,
    ) -> Result<(), AllocError>
        ensures { OnOk result (Applies (MessageTaken pid.now message.now) self.old self.new) }
    {
        self.mailboxes.remove(alloc, pid, message)?;
        Ok(())
    }

    /// A copy of a signal is put.
    pub(crate) fn put_copy(
        &mut self,
        alloc: Global,
        from: &Pid,
        to: &Pid,
        signal: &Signal,
    ) -> Result<(), AllocError>
        ensures { OnOk result (Applies (SignalPut from.now to.now signal.now) self.old self.new) }
    {
        let signal = signal.copy()?;
        self.put_anyway(alloc, from, to, signal)?;
        Ok(())
    }

    /// A reference no longer watches a process.
    pub(crate) fn unwatch(&mut self, id: &RefId, target: &Pid) -> Result<(), AllocError>
        ensures { OnOk result (Applies (WatchCleared id.now target.now) self.old self.new) }
    {
        self.watchers.unwatch(id, target)?;
        Ok(())
    }

    /// A reference has a copy of this guard.
    pub(crate) fn guard(&mut self, id: &RefId, guard: &Guard) -> Result<(), AllocError>
        ensures { OnOk result (Applies (GuardSet id.now guard.now) self.old self.new) }
    {
        self.guards.set(id, guard.copy()?)?;
        Ok(())
    }

    /// A reference has no guard.
    pub(crate) fn unguard(&mut self, id: &RefId) -> Result<(), AllocError>
        ensures { OnOk result (Applies (GuardCleared id.now) self.old self.new) }
    {
        self.guards.clear(id)?;
        Ok(())
    }

    /// The watch of a reference ends, and with it an alias that was made so.
    pub(crate) fn end_watched(&mut self, id: &RefId) -> Result<(), AllocError>
        ensures { OnOk result (Applies (GuardUnwatched id.now) self.old self.new) }
    {
        self.guards.unwatch(id)?;
        Ok(())
    }

    /// A process gets a name.
    pub(crate) fn give_name(&mut self, name: &Atom, pid: &Pid) -> Result<(), AllocError>
        ensures { OnOk result (Applies (NameRegistered name.now pid.now) self.old self.new) }
    {
        self.names.put(name, pid)?;
        Ok(())
    }

    /// A name is taken from the process that has it.
    pub(crate) fn take_name(&mut self, name: &Atom, pid: &Pid) -> Result<(), AllocError>
        ensures { OnOk result (Applies (NameUnregistered name.now pid.now) self.old self.new) }
    {
        self.names.take(name, pid)?;
        Ok(())
    }

    /// A process has no name.
    pub(crate) fn bare(&mut self, pid: &Pid) -> Result<(), AllocError>
        ensures { OnOk result (Applies (NameCleared pid.now) self.old self.new) }
    {
        self.names.bare(pid)?;
        Ok(())
    }
}
