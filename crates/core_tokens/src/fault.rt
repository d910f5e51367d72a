// What can be wrong with the text of a module.
ghost use Rattle.std.specs.Prelude.{◌≡◌};
ghost use Rattle.core_tokens.specs.declared.fault.ReadFault.TheVariants.{Memory as MemoryFault};

use std::alloc::{AllocError, AllocFailed};
use thiserror::Error;

/// Why a text is no module. Each fault but `Memory` has the place of a byte of the text, counted from
/// 0; the place is the text's length where the text ended too early.
#[derive(Clone, Copy, Debug, PartialEq, Eq, Error)]
pub enum ReadFault {
    /// No token begins here, or a quoted one is not closed.
    #[error("1 BadToken at {0}")]
    BadToken(usize),
    /// The grammar cannot go on with this token.
    #[error("2 Expected at {0}")]
    Expected(usize),
    /// A variable with no binding.
    #[error("3 Unbound at {0}")]
    Unbound(usize),
    /// A variable that is bound twice in one list of variables or patterns.
    #[error("4 DuplicateVariable at {0}")]
    DuplicateVariable(usize),
    /// The name of the second definition of one function.
    #[error("5 DuplicateFunction at {0}")]
    DuplicateFunction(usize),
    /// An exported or applied function name without a definition.
    #[error("6 NoFunction at {0}")]
    NoFunction(usize),
    /// A function as a value.
    #[error("7 HigherOrder at {0}")]
    HigherOrder(usize),
    /// A call that is not served.
    #[error("8 UnsupportedCall at {0}")]
    UnsupportedCall(usize),
    /// A guard that could have an effect.
    #[error("9 EffectInGuard at {0}")]
    EffectInGuard(usize),
    /// The token that opens level 1,001 of construct within construct.
    #[error("10 TooDeep at {0}")]
    TooDeep(usize),
    /// An integer outside 64 bits, or an arity outside 0 to 255.
    #[error("11 BadInteger at {0}")]
    BadInteger(usize),
    /// The first byte that is not UTF-8.
    #[error("12 NotUtf8 at {0}")]
    NotUtf8(usize),
    /// No definition of `'main'/0`; the place is the last `end`.
    #[error("13 NoMain at {0}")]
    NoMain(usize),
    /// A form that is not served.
    #[error("14 UnsupportedForm at {0}")]
    UnsupportedForm(usize),
    /// There was no memory.
    #[error("15 Memory")]
    Memory,
    /// The text is longer than a module may be.
    #[error("16 TooLong at {0}")]
    TooLong(usize),
}

impl From<AllocError> for ReadFault {
    ghost from_gives = { λ _ f. f ≡ MemoryFault };

    fn from(_error: AllocError) -> ReadFault {
        ReadFault::Memory
    }
}

impl<T: Drop> From<AllocFailed<T>> for ReadFault {
    ghost from_gives = { λ _ f. f ≡ MemoryFault };

    fn from(_error: AllocFailed<T>) -> ReadFault {
        ReadFault::Memory
    }
}
