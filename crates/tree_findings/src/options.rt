// What an exploration is asked for.
use tree_schedules::Delivery;
use world_identities::Flags;

/// How an exploration goes through the schedules.
#[derive(Clone, Copy, Debug, PartialEq, Eq)]
pub enum Search {
    /// By the tree of schedules with sleep sets: what one leaves out is shown elsewhere in it.
    ByTree,
    /// By states, level by level: of the schedules of one length that lead to the same state one goes on. Signals are
    /// delivered at any time or at once.
    ByStates(Delivery),
}

/// The bounds of an exploration, how it searches, and what counts as an error in it.
#[derive(Clone, Copy, Debug, PartialEq, Eq)]
pub struct Options {
    /// How many steps a schedule may have, 0 to 400.
    pub depth: u64,
    /// How many nodes of the tree may be visited, or how many states may be found, 1 to 10000000.
    pub nodes: u64,
    /// How many nodes a worker may visit before it hands the rest back, 1 to 10000000.
    pub budget: u64,
    /// How many workers there are, 1 to 16.
    pub workers: u64,
    /// How the schedules are searched.
    pub search: Search,
    /// What counts as an error.
    pub flags: Flags,
}
