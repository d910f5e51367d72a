// When aliases end.

/// When an alias of a process ends, besides by `unalias/1` (the Erlang manual, `alias/1` and `monitor/3`).
#[derive(Clone, Copy, Debug, PartialEq, Eq, Hash)]
pub enum AliasEnd {
    /// Not at all.
    ByUnalias,
    /// With the watch that has its reference.
    WithWatch,
    /// With the watch that has its reference, and by the first message that comes through it.
    ByReply,
}
