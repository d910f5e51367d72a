// What is asked of a process.

/// What `process_info/2` tells of a process (the Erlang manual, `process_info/2`).
#[derive(Clone, Copy, Debug, PartialEq, Eq)]
pub enum ProcessItem {
    /// The name that it has.
    RegisteredName,
    /// How many messages are in its mailbox.
    QueueLength,
}
