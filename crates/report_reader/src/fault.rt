// Why a text is no report, or cannot be read as one.
ghost use Rattle.std.specs.Prelude.{◌≡◌};

use std::alloc::{AllocError, AllocFailed};
use thiserror::Error;

/// Why bytes are no report, or cannot be read as one. Lines are counted from 1.
#[derive(Clone, Copy, Debug, PartialEq, Eq, Error)]
pub enum ReportFault {
    /// The line at which the text is no report of the depth, the flags and the excuses that were given.
    #[error("1 BadLine at line {0}")]
    BadLine(u64),
    /// The line of a term in which more than 10,000 brackets and braces are open.
    #[error("2 TooDeep at line {0}")]
    TooDeep(u64),
    /// There was no memory.
    #[error("3 Memory")]
    Memory,
    /// The nodes of several reports are 2^64 or more.
    #[error("4 TooManyNodes")]
    TooManyNodes,
}

impl From<AllocError> for ReportFault {
    ghost use Rattle.report_reader.specs.declared.fault.ReportFault.TheVariants.{Memory};

    ghost from_gives = { λ _ fault. fault ≡ Memory };

    fn from(_error: AllocError) -> ReportFault {
        ReportFault::Memory
    }
}

/// Why two outcomes cannot be put together.
#[derive(Clone, Copy, Debug, PartialEq, Eq, Error)]
pub enum MergeFault {
    /// Their nodes, or those at which their trees are cut, are 2^64 or more.
    #[error("1 TooManyNodes")]
    TooManyNodes,
    /// There was no memory.
    #[error("2 Memory")]
    Memory,
}

impl From<AllocError> for MergeFault {
    ghost use Rattle.report_reader.specs.declared.fault.MergeFault.TheVariants.{Memory};

    ghost from_gives = { λ _ fault. fault ≡ Memory };

    fn from(_error: AllocError) -> MergeFault {
        MergeFault::Memory
    }
}

/// Why reading stopped. A place is given by the number of bytes that are left from there on, in a line that is bad.
#[derive(Clone, Copy, Debug, PartialEq, Eq)]
pub(crate) enum Stop {
    /// Nothing that may be there is.
    Bad(usize),
    /// A term is nested too deep.
    Deep(usize),
    /// There was no memory.
    Memory,
}

impl From<AllocError> for Stop {
    ghost use Rattle.report_reader.specs.declared.fault.Stop.TheVariants.{Memory};

    ghost from_gives = { λ _ stop. stop ≡ Memory };

    fn from(_error: AllocError) -> Stop {
        Stop::Memory
    }
}
