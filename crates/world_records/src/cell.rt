// The cells of the explored world: what a step may read or write (Erlang reference manual, "Processes"; ets manual).

use term_core::{Atom, Pid, RefId, Term};

/// What of a process a cell holds.
#[derive(Clone, Copy)]
pub enum ProcessPart {
    /// Its course: its answers, and its end.
    Machine,
    /// Whether it lives.
    Alive,
    /// Whether it traps exits (erlang manual, `process_flag/2`).
    Trap,
    /// What was taken from its mailbox.
    Taken,
    /// What came into its mailbox.
    Mailed,
    /// The processes that it is linked to.
    Links,
    /// The processes that watch it.
    Watchers,
    /// Which name it has.
    NameOf,
    /// Its tables.
    Owned,
}

/// What of the channel from one process to another a cell holds.
#[derive(Clone, Copy)]
pub enum ChannelPart {
    /// How far it is delivered.
    Front,
    /// What was put.
    Tail,
}

/// What of a name a cell holds.
#[derive(Clone, Copy)]
pub enum NamePart {
    /// Which process holds it.
    Holder,
    /// Which table it means.
    TableName,
}

/// What of a reference a cell holds.
#[derive(Clone, Copy)]
pub enum ReferencePart {
    /// The process that it watches.
    Watch,
    /// What lets messages in that are sent to it.
    Guard,
    /// The table of its creation, without its rows.
    Table,
}

/// A cell of the explored world.
#[derive(Drop)]
pub enum Cell {
    /// Of a process.
    OfProcess(ProcessPart, Pid),
    /// Of the channel from the first process to the second.
    OfChannel(ChannelPart, Pid, Pid),
    /// Of a name.
    OfName(NamePart, Atom),
    /// Of a reference.
    OfReference(ReferencePart, RefId),
    /// The objects under a key of the table of this reference.
    Row(RefId, Term),
    /// All rows of the table of this reference.
    Rows(RefId),
    /// Who holds any name.
    Holders,
}
