// Why a text says nothing that a schedule shows, or cannot be read.
ghost use Rattle.std.specs.Prelude.{◌≡◌};

use std::alloc::{AllocError, AllocFailed};
use thiserror::Error;

/// Why bytes are not the text of what a schedule shows, or cannot be read as one.
#[derive(Clone, Copy, Debug, PartialEq, Eq, Error)]
pub enum IdentityFault {
    /// The text says nothing that a schedule shows.
    #[error("1 BadIdentity")]
    BadIdentity,
    /// More than 10,000 brackets and braces would be open at once in its terms.
    #[error("2 TooDeep")]
    TooDeep,
    /// There was no memory.
    #[error("3 Memory")]
    Memory,
}

impl From<AllocError> for IdentityFault {
    ghost use Rattle.report_identities.specs.declared.fault.IdentityFault.TheVariants.{Memory};

    ghost from_gives = { λ _ fault. fault ≡ Memory };

    fn from(_error: AllocError) -> IdentityFault {
        IdentityFault::Memory
    }
}

impl<T: Drop> From<AllocFailed<T>> for IdentityFault {
    ghost use Rattle.report_identities.specs.declared.fault.IdentityFault.TheVariants.{Memory};

    ghost from_gives = { λ _ fault. fault ≡ Memory };

    fn from(_error: AllocFailed<T>) -> IdentityFault {
        IdentityFault::Memory
    }
}
