// What an exploration results in.
ghost use Rattle.std.specs.Prelude.{◌≡◌};
ghost use Rattle.tree_findings.specs.declared.outcome.Cause.TheVariants.{Memory as MemoryCause};

use crate::extent::Extent;
use crate::found::Findings;
use std::alloc::AllocError;

/// Why an exploration stopped before its end.
#[derive(Clone, Copy, Debug, PartialEq, Eq)]
pub enum Cause {
    /// There are more nodes than may be visited, or more states than may be found.
    NodeLimit,
    /// There was no memory.
    Memory,
}

impl From<AllocError> for Cause {
    ghost from_gives = { λ _ cause. cause ≡ MemoryCause };

    fn from(_error: AllocError) -> Cause {
        Cause::Memory
    }
}

/// What an exploration results in.
#[derive(Drop)]
pub enum Outcome {
    /// All nodes were visited: what they show, how many they are, and at how many of them the tree is cut.
    Complete(Findings, Extent),
    /// It stopped for this cause, and what was found by then.
    Incomplete(Cause, Findings),
}
