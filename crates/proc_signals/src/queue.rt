// The signals of one channel.
ghost use Rattle.std.specs.Prelude.{◌≡◌, true, [], ◌∷◌, ◌++◌, ◌≢◌, OnOk, OnErr, IsTrue, ◌↔◌};
ghost use Rattle.proc_signals.specs.Signal.{signal_of};

use crate::signal::Signal;
use std::alloc::{AllocError, Global};
use std::collections::VecDeque;
use std::hash::Hasher;
use std::marker::Model;
use std::mem;

/// The signals of a channel that is not empty. Contracts see the oldest and the list of the later ones.
#[derive(Drop)]
pub(crate) struct Queue {
    oldest: Signal,
    later: VecDeque<Signal>,
}

impl Model for Queue {
    ghost use Rattle.std.specs.Prelude.{List, map};
    ghost use Rattle.std.specs.Coded.{coded_list, coded×};
    ghost use Rattle.world_model.specs.Events as events;
    ghost use Rattle.proc_signals.specs.Signal.{signal_of};
    ghost use Rattle.proc_signals.specs.inside.SignalCodes.{coded_signal};

    ghost Value = { events.Signal × List events.Signal };

    ghost coded = { coded× coded_signal (coded_list coded_signal) };

    ghost view = { λ q. (signal_of q.oldest, map signal_of q.later.items) };
}

impl Clone for Queue {
    ghost is_clone = { λ a b. b ≡ a };

    /// The same signals, each a copy, or `AllocError` if there is no memory for them.
    fn clone(&self) -> Result<Queue, AllocError> {
        let mut later = VecDeque::with_capacity(*self.later.allocator(), self.later.len())?;
        for signal in self.later.iter() {
            later.push_back(signal.copy()?)?;
        }
        Ok(Queue {
            oldest: self.oldest.copy()?,
            later,
        })
    }
}

impl Queue {
    /// One signal. It takes no memory.
    pub(crate) fn of(alloc: Global, signal: Signal) -> Queue
        ensures { result ≡ (signal_of signal, []) }
    {
        Queue {
            oldest: signal,
            later: VecDeque::new(alloc),
        }
    }

    /// Whether the two have the same signals, in one order. It takes no memory.
    pub(crate) fn is_same(&self, other: &Queue) -> bool
        ensures { result ≡ true → self.now ≡ other.now }
    {
        if self.oldest != other.oldest {
            return false;
        }
        self.later == other.later
    }

    /// Feeds a hasher with the signals, the oldest first: the same for queues that are the same. It takes no memory.
    pub(crate) fn feed<H: Hasher>(&self, state: &mut H) {
        state.write_usize(self.later.len());
        self.oldest.feed(state);
        for signal in self.later.iter() {
            signal.feed(state);
        }
    }

    /// The oldest signal.
    pub(crate) fn oldest(&self) -> &Signal
        ensures { signal_of result.now ≡ self.now.0 }
    {
        &self.oldest
    }

    /// Whether there is no later one.
    pub(crate) fn is_single(&self) -> bool
        ensures { IsTrue result ↔ (self.now.1 ≡ []) }
    {
        self.later.is_empty()
    }

    /// Puts a signal after the others, or `AllocError` if there is no memory for it; then the signal is dropped.
    pub(crate) fn push(&mut self, signal: Signal) -> Result<(), AllocError>
        ensures ok { OnOk result (self.new ≡ (self.old.0, self.old.1 ++ signal_of signal ∷ [])) }
        ensures err { OnErr result (self.new ≡ self.old) }
    {
        self.later.push_back(signal)?;
        Ok(())
    }

    /// Takes out the oldest signal of several; the next is then the oldest.
    pub(crate) fn take_oldest(&mut self) -> Signal
        requires { self.old.1 ≢ [] }
        ensures taken { signal_of result ≡ self.old.0 }
        ensures rest { self.old.1 ≡ self.new.0 ∷ self.new.1 }
    {
        let next = self.later.pop_front().unwrap();
        mem::replace(&mut self.oldest, next)
    }
}
