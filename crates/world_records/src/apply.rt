// Changes as values, applied to the records.
ghost use Rattle.std.specs.Prelude.{◌≡◌, ◌∷◌, [], OnOk};
ghost use Rattle.world_model.specs.Changes.{after};
ghost use Rattle.world_records.specs.Changes.{CanApply, changes_in};
ghost use Rattle.world_records.specs.Records.{Agrees, OfWorld};
ghost use Rattle.world_records.specs.declared.change.Change.TheVariants.{OfTables};
ghost use Rattle.world_records.specs.inside.Applied.{Applies};

use crate::change::Change;
use crate::records::Records;
use ets_rules::TableChange;
use std::alloc::{AllocError, Global};

impl<'m> Records<'m> {
    // The tables change.
    fn change_tables(&mut self, alloc: Global, change: &TableChange) -> Result<(), AllocError>
        ensures { OnOk result (Applies (OfTables change.now) self.old self.new) }
    {
        self.tables.change(alloc, change)?;
        Ok(())
    }

    /// Does what a change says, of cells that allow it. `AllocError` if there is no memory, and then the records may be
    /// changed in part.
    pub fn apply(&mut self, alloc: Global, change: &Change) -> Result<(), AllocError>
        ensures { OnOk result (OfWorld self.old (λ m v. CanApply v (changes_in change.now) → Agrees m self.new (after (changes_in change.now) v))) }
    {
        match change {
            Change::ProcessStarted {
                child,
                module_name,
                function_name,
                arguments,
            } => self.begin_copy(alloc, child, module_name, function_name, arguments),
            Change::ProcessEnded(pid, reason) => self.die(alloc, pid, reason),
            Change::TrapSet(pid, exits) => self.set_trap(pid, *exits),
            Change::MessageAdded(pid, message) => self.mail_copy(alloc, pid, message),
            Change::MessageTaken(pid, message) => self.take_out(alloc, pid, message),
            Change::SignalPut(from, to, signal) => self.put_copy(alloc, from, to, signal),
            Change::LinkAdded(pid, other) => self.pair(alloc, pid, other),
            Change::LinkRemoved(pid, other) => self.unpair(pid, other),
            Change::WatchSet(id, target) => self.watch(alloc, id, target),
            Change::WatchCleared(id, target) => self.unwatch(id, target),
            Change::GuardSet(id, guard) => self.guard(id, guard),
            Change::GuardCleared(id) => self.unguard(id),
            Change::GuardUnwatched(id) => self.end_watched(id),
            Change::NameRegistered(name, pid) => self.give_name(name, pid),
            Change::NameUnregistered(name, pid) => self.take_name(name, pid),
            Change::NameCleared(pid) => self.bare(pid),
            Change::OfTables(change) => self.change_tables(alloc, change),
            Change::CellTouched(_) => Ok(()),
        }
    }
}
