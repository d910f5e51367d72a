// Why no token was read.
ghost use Rattle.std.specs.Prelude.{◌≡◌};
ghost use Rattle.core_tokens.specs.declared.lexer.trouble.TokenError.TheVariants.{Memory};
ghost use Rattle.core_tokens.specs.inside.Lexing.{fault_at};

use crate::fault::ReadFault;
use std::alloc::{AllocError, AllocFailed};

/// Why no token was read at a place that the caller knows.
#[derive(Clone, Copy, Debug)]
pub(crate) enum TokenError {
    Memory,
    /// No token begins here, or a quoted one is not closed.
    NoToken,
    /// An integer that is out of range.
    OutOfRange,
}

impl TokenError {
    /// The fault at this place.
    pub(crate) fn at(self, place: usize) -> ReadFault
        ensures { result ≡ fault_at self place }
    {
        match self {
            TokenError::Memory => ReadFault::Memory,
            TokenError::NoToken => ReadFault::BadToken(place),
            TokenError::OutOfRange => ReadFault::BadInteger(place),
        }
    }
}

impl From<AllocError> for TokenError {
    ghost from_gives = { λ _ e. e ≡ Memory };

    fn from(_e: AllocError) -> TokenError {
        TokenError::Memory
    }
}

impl<T: Drop> From<AllocFailed<T>> for TokenError {
    ghost from_gives = { λ _ e. e ≡ Memory };

    fn from(_e: AllocFailed<T>) -> TokenError {
        TokenError::Memory
    }
}
