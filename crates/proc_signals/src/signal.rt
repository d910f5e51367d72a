// Signals.
ghost use Rattle.std.specs.Prelude.{◌≡◌, IfOk};
ghost use Rattle.proc_signals.specs.Signal.{signal_of};

use std::alloc::{AllocError, Global};
use std::hash::{Hash, Hasher};
use term_core::{RefId, Term};

/// What one process sends to another (Erlang reference manual, "Processes", "Sending Signals"). Contracts
/// see it as `signal_of` it.
#[derive(Drop)]
pub enum Signal {
    /// A message.
    Message(Term),
    /// An exit signal of `exit/2`, with its reason.
    Exit(Term),
    /// That a linked process ended, with its reason.
    LinkExit(Term),
    /// That a watched process ended: the reference of the watch, and the reason.
    Down(RefId, Term),
    /// A message to a process by a reference, which has to be an alias of it where the message comes.
    Guarded(RefId, Term),
    /// The message of a timer, by the timer's reference.
    Elapsed(RefId, Term),
}

impl PartialEq for Signal {
    ghost use Rattle.std.specs.Cmp.{on_per, partial_equiv_from_equiv};
    ghost use Rattle.std.specs.Ordering.{on};
    ghost use Rattle.proc_signals.specs.Alike.{same_signal};
    ghost use Rattle.proc_signals.specs.inside.Alike.{signals_equal};

    ghost eq = { on signal_of same_signal };

    ghost laws = { on_per signal_of (partial_equiv_from_equiv signals_equal) };

    /// Whether the two say the same. It takes no memory.
    fn eq(&self, other: &Signal) -> bool {
        match (self, other) {
            (Signal::Message(message), Signal::Message(said)) => *message == *said,
            (Signal::Exit(reason), Signal::Exit(given)) => *reason == *given,
            (Signal::LinkExit(reason), Signal::LinkExit(given)) => *reason == *given,
            (Signal::Down(reference, reason), Signal::Down(watch, given)) => {
                *reference == *watch && *reason == *given
            }
            (Signal::Guarded(reference, message), Signal::Guarded(alias, said)) => {
                *reference == *alias && *message == *said
            }
            (Signal::Elapsed(reference, message), Signal::Elapsed(timer, said)) => {
                *reference == *timer && *message == *said
            }
            _ => false,
        }
    }
}

impl Signal {
    /// Feeds a hasher with the signal: the same for signals that are the same. It takes no memory.
    pub(crate) fn feed<H: Hasher>(&self, state: &mut H) {
        match self {
            Signal::Message(message) => {
                state.write_u8(0);
                message.hash(state);
            }
            Signal::Exit(reason) => {
                state.write_u8(1);
                reason.hash(state);
            }
            Signal::LinkExit(reason) => {
                state.write_u8(2);
                reason.hash(state);
            }
            Signal::Down(reference, reason) => {
                state.write_u8(3);
                reference.hash(state);
                reason.hash(state);
            }
            Signal::Guarded(reference, message) => {
                state.write_u8(4);
                reference.hash(state);
                message.hash(state);
            }
            Signal::Elapsed(reference, message) => {
                state.write_u8(5);
                reference.hash(state);
                message.hash(state);
            }
        }
    }

    /// The same signal, or `AllocError` where the copies of its terms can no longer be counted. It takes
    /// no memory.
    pub fn copy(&self) -> Result<Signal, AllocError>
        ensures { IfOk result (λ copied. signal_of copied ≡ signal_of self.now) }
    {
        match self {
            Signal::Message(message) => Ok(Signal::Message(message.copy()?)),
            Signal::Exit(reason) => Ok(Signal::Exit(reason.copy()?)),
            Signal::LinkExit(reason) => Ok(Signal::LinkExit(reason.copy()?)),
            Signal::Down(reference, reason) => {
                Ok(Signal::Down(reference.copy()?, reason.copy()?))
            }
            Signal::Guarded(reference, message) => {
                Ok(Signal::Guarded(reference.copy()?, message.copy()?))
            }
            Signal::Elapsed(reference, message) => {
                Ok(Signal::Elapsed(reference.copy()?, message.copy()?))
            }
        }
    }
}

impl Clone for Signal {
    ghost is_clone = { λ a b. signal_of b ≡ signal_of a };

    /// The same signal, as `copy` gives it.
    fn clone(&self) -> Result<Signal, AllocError> {
        self.copy()
    }
}
