// What a call or a signal has to know of a process.

/// Whether a process lives (Erlang reference manual, "Processes").
#[derive(Clone, Copy, Debug, PartialEq, Eq)]
pub enum Life {
    /// It was spawned and has not ended.
    Lives,
    /// It ended, or never was.
    Gone,
}

/// What exit signals are to a process (the Erlang manual, `process_flag/2`).
#[derive(Clone, Copy, Debug, PartialEq, Eq)]
pub enum Exits {
    /// They are messages to it.
    Trapped,
    /// They end it, or are ignored.
    Untrapped,
}
