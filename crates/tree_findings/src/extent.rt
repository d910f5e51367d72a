// How far the tree of an exploration goes.

/// How many nodes were visited, and how many of them the depth cuts off: no more steps may follow them, and one could.
#[derive(Clone, Copy, Debug, PartialEq, Eq)]
pub struct Extent {
    /// How many nodes were visited.
    pub nodes: u64,
    /// At how many of these the tree is cut: they lie at the depth, and a step is enabled there.
    pub cut: u64,
}
