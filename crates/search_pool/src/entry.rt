// What happens in a pool.
use tree_findings::Cause;

/// An entry of a pool's list. It names its ticket by the number.
#[derive(Clone, Copy, Debug, PartialEq, Eq)]
pub enum PoolEvent {
    /// A job was handed out under this number.
    Took(u64),
    /// The piece of the ticket of this number was accepted.
    Gave(u64),
}

/// Why a pool hands nothing out any more, and how many entries there were then.
#[derive(Clone, Copy, Debug, PartialEq, Eq)]
pub struct Stop {
    /// The first cause.
    pub cause: Cause,
    /// How many entries there were, that of the piece that passed the limit among them.
    pub place: usize,
}
