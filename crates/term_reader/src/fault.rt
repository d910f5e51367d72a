// Why a text is the text of no term, or cannot be read as one.
ghost use Rattle.std.specs.Prelude.{◌≡◌};

use std::alloc::{AllocError, AllocFailed};
use thiserror::Error;

/// Why bytes are the text of no term, or cannot be read as one. Places are bytes, counted from 1.
#[derive(Clone, Copy, Debug, PartialEq, Eq, Error)]
pub enum TermFault {
    /// The first byte of the first mark, number, pid, reference or atom that cannot be where it is; one past the last
    /// byte where the text ends too soon.
    #[error("1 BadTerm at {0}")]
    BadTerm(usize),
    /// The first bracket or brace within 10,000 others that are open.
    #[error("2 TooDeep at {0}")]
    TooDeep(usize),
    /// There was no memory.
    #[error("3 Memory")]
    Memory,
}

impl From<AllocError> for TermFault {
    ghost use Rattle.term_reader.specs.declared.fault.TermFault.TheVariants.{Memory};

    ghost from_gives = { λ _ fault. fault ≡ Memory };

    fn from(_error: AllocError) -> TermFault {
        TermFault::Memory
    }
}

impl<T: Drop> From<AllocFailed<T>> for TermFault {
    ghost use Rattle.term_reader.specs.declared.fault.TermFault.TheVariants.{Memory};

    ghost from_gives = { λ _ fault. fault ≡ Memory };

    fn from(_error: AllocFailed<T>) -> TermFault {
        TermFault::Memory
    }
}
