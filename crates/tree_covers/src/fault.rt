// Why lines are no cover that is accepted, and why a cover was not written.
ghost use Rattle.std.specs.Prelude.{◌≡◌};
ghost use Rattle.tree_covers.specs.declared.fault.CoverFault.TheVariants.{Memory as MemoryFault};
ghost use Rattle.tree_covers.specs.declared.fault.WriteCoverFault.TheVariants as written;

use std::alloc::{AllocError, AllocFailed};
use term_core::WriteFault;
use world_core::WorldFault;

/// Why bytes are not accepted as a cover. Its lines are counted from 1; at one line an error of the node goes before a
/// step that cannot be taken, and that before one that is missing.
#[derive(Clone, Copy, Debug, PartialEq, Eq)]
pub enum CoverFault {
    /// A step that is enabled at the node of this line is neither taken nor asleep, and more steps may follow.
    Missing(usize),
    /// A step of this line is not enabled at its node, occurs twice, or occurs at the depth.
    Strange(usize),
    /// The line of this number is missing: a node has none.
    Short(usize),
    /// This line is left over: all nodes have theirs.
    Long(usize),
    /// The node of this line shows something that counts as an error.
    ErrorFound(usize),
    /// This line is not the text of steps with one blank between them.
    BadLine(usize),
    /// There was no memory.
    Memory,
}

impl From<AllocError> for CoverFault {
    ghost from_gives = { λ _ fault. fault ≡ MemoryFault };

    fn from(_error: AllocError) -> CoverFault {
        CoverFault::Memory
    }
}

impl<T: Drop> From<AllocFailed<T>> for CoverFault {
    ghost from_gives = { λ _ fault. fault ≡ MemoryFault };

    fn from(_error: AllocFailed<T>) -> CoverFault {
        CoverFault::Memory
    }
}

// A walk takes only steps that are enabled, so a world refuses it only for lack of memory.
impl From<WorldFault> for CoverFault {
    ghost from_gives = { λ _ fault. fault ≡ MemoryFault };

    fn from(fault: WorldFault) -> CoverFault {
        match fault {
            WorldFault::NotEnabled | WorldFault::Memory => CoverFault::Memory,
        }
    }
}

/// Why a cover was not written to its end. A beginning of it was.
#[derive(Clone, Copy, Debug, PartialEq, Eq)]
pub enum WriteCoverFault {
    /// There was no memory.
    Memory,
    /// A line could not be written.
    Write,
}

// As for a check.
impl From<WorldFault> for WriteCoverFault {
    ghost from_gives = { λ _ fault. fault ≡ written.Memory };

    fn from(fault: WorldFault) -> WriteCoverFault {
        match fault {
            WorldFault::NotEnabled | WorldFault::Memory => WriteCoverFault::Memory,
        }
    }
}

impl From<WriteFault> for WriteCoverFault {
    ghost from_gives = { λ _ fault. fault ≡ written.Write };

    fn from(_fault: WriteFault) -> WriteCoverFault {
        WriteCoverFault::Write
    }
}
