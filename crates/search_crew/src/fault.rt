// Why a search has no outcome.
ghost use Rattle.std.specs.Prelude.{◌≡◌};
ghost use Rattle.search_crew.specs.declared.fault.SearchFault.TheVariants.{Memory as MemoryFault};

use std::alloc::{AllocError, AllocFailed};

/// Why a search has no outcome.
#[derive(Clone, Copy, Debug, PartialEq, Eq)]
pub enum SearchFault {
    /// There was no memory for the first job, the seats or the room for the workers: no worker was started.
    Memory,
    /// A worker could not be started. Those that were have ended.
    NoThread,
    /// The pool refused a piece, or its end.
    StrangePool,
}

impl From<AllocError> for SearchFault {
    ghost from_gives = { λ _ f. f ≡ MemoryFault };

    fn from(_error: AllocError) -> SearchFault {
        SearchFault::Memory
    }
}

impl<T: Drop> From<AllocFailed<T>> for SearchFault {
    ghost from_gives = { λ _ f. f ≡ MemoryFault };

    fn from(_error: AllocFailed<T>) -> SearchFault {
        SearchFault::Memory
    }
}
