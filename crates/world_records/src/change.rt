// What an event changes in the records of a world, as values (Erlang reference manual, "Processes").
use crate::cell::Cell;
use ets_rules::TableChange;
use proc_links::{Exits, Guard};
use proc_signals::Signal;
use term_core::{Atom, Pid, RefId, Term, Terms};

/// A change of the records, except that a process takes a turn and that a signal leaves its channel.
#[derive(Drop)]
pub enum Change {
    /// A process begins in a function of a module with these arguments, and lives.
    ProcessStarted {
        /// The process.
        child: Pid,
        /// The module of the function.
        module_name: Atom,
        /// The function.
        function_name: Atom,
        /// What the function is given.
        arguments: Terms,
    },
    /// A process ends with this reason, and no longer lives.
    ProcessEnded(Pid, Term),
    /// Exit signals are messages to a process from now on, or end it.
    TrapSet(Pid, Exits),
    /// A message comes into a mailbox.
    MessageAdded(Pid, Term),
    /// A message leaves a mailbox, where it first occurs.
    MessageTaken(Pid, Term),
    /// The first process puts a signal for the second.
    SignalPut(Pid, Pid, Signal),
    /// Two processes are linked.
    LinkAdded(Pid, Pid),
    /// Two processes are no longer linked.
    LinkRemoved(Pid, Pid),
    /// A reference watches a process.
    WatchSet(RefId, Pid),
    /// A reference no longer watches a process.
    WatchCleared(RefId, Pid),
    /// A reference has a guard, as an alias or a timer begins.
    GuardSet(RefId, Guard),
    /// A reference has no guard.
    GuardCleared(RefId),
    /// The watch of a reference ends, and with it an alias that was made so.
    GuardUnwatched(RefId),
    /// A process gets a name.
    NameRegistered(Atom, Pid),
    /// A name is taken from the process that has it.
    NameUnregistered(Atom, Pid),
    /// A process has no name.
    NameCleared(Pid),
    /// The tables change, with their rows, names and owners.
    OfTables(TableChange),
    /// A cell counts as written, and holds what it did.
    CellTouched(Cell),
}
