// One channel.
ghost use Rattle.std.specs.Prelude.{◌≡◌, true, ◌≢◌, ◌&&◌, [], ◌∷◌, ◌++◌, IfOk, OnOk, OnErr, IsTrue, ◌↔◌};
ghost use Rattle.world_model.specs.Names.{same_pid};
ghost use Rattle.proc_signals.specs.Channels.{order_of_pairs};
ghost use Rattle.proc_signals.specs.Signal.{signal_of};

use crate::queue::Queue;
use crate::signal::Signal;
use std::alloc::{AllocError, Global};
use std::cmp::Ordering;
use std::hash::Hasher;
use std::marker::Model;
use std::sync::Arc;
use term_core::Pid;

/// A channel that is not empty. A copy shares the signals. Contracts see its sender and its receiver, and then its
/// signals.
#[derive(Drop)]
pub(crate) struct Channel {
    from: Pid,
    to: Pid,
    queue: Arc<Queue>,
}

impl Model for Channel {
    ghost use Rattle.std.specs.Prelude.{ℕ, List};
    ghost use Rattle.proc_signals.specs.Channels as seen;
    ghost use Rattle.proc_signals.specs.inside.SignalCodes.{coded_channel};

    ghost Value = { (List ℕ × List ℕ) × seen.Queue };

    ghost coded = { coded_channel };

    ghost view = { λ c. ((c.from, c.to), c.queue.value) };
}

impl Channel {
    /// A channel with one signal, or `AllocError` if there is no memory for it.
    pub(crate) fn of(
        alloc: Global,
        from: &Pid,
        to: &Pid,
        signal: Signal,
    ) -> Result<Channel, AllocError>
        ensures { IfOk result (λ channel. channel ≡ ((from.now, to.now), (signal_of signal, []))) }
    {
        let queue = Arc::new(alloc, Queue::of(alloc, signal))?;
        Ok(Channel {
            from: from.copy()?,
            to: to.copy()?,
            queue,
        })
    }

    /// The same channel, or `AllocError` where its copies can no longer be counted. It takes no memory.
    pub(crate) fn copy(&self) -> Result<Channel, AllocError>
        ensures { IfOk result (λ copied. copied ≡ self.now) }
    {
        Ok(Channel {
            from: self.from.copy()?,
            to: self.to.copy()?,
            queue: Arc::try_clone(&self.queue)?,
        })
    }

    /// Whether the two have one sender, one receiver and the same signals. It takes no memory.
    pub(crate) fn is_same(&self, other: &Channel) -> bool
        ensures { result ≡ true → self.now ≡ other.now }
    {
        if self.from != other.from {
            return false;
        }
        if self.to != other.to {
            return false;
        }
        self.queue.is_same(&other.queue)
    }

    /// Feeds a hasher with the signals alone: the same for signals that are the same. It takes no memory.
    pub(crate) fn feed_signals<H: Hasher>(&self, state: &mut H) {
        self.queue.feed(state);
    }

    /// Its sender.
    pub(crate) fn from(&self) -> &Pid
        ensures { result.now ≡ self.now.0.0 }
    {
        &self.from
    }

    /// Its receiver.
    pub(crate) fn to(&self) -> &Pid
        ensures { result.now ≡ self.now.0.1 }
    {
        &self.to
    }

    /// Whether it is the channel from one process to another.
    pub(crate) fn is_between(&self, from: &Pid, to: &Pid) -> bool
        ensures { result ≡ (same_pid self.now.0.0 from.now && same_pid self.now.0.1 to.now) }
    {
        self.to == *to && self.from == *from
    }

    /// Whether it comes before the channel from one process to another.
    pub(crate) fn is_before(&self, from: &Pid, to: &Pid) -> bool
        ensures { IsTrue result ↔ (order_of_pairs self.now.0 (from.now, to.now) ≡ Ordering.Less) }
    {
        match self.from.cmp(from) {
            Ordering::Less => true,
            Ordering::Equal => self.to.cmp(to).is_lt(),
            Ordering::Greater => false,
        }
    }

    /// The oldest signal.
    pub(crate) fn oldest(&self) -> &Signal
        ensures { signal_of result.now ≡ self.now.1.0 }
    {
        self.queue.oldest()
    }

    /// Whether it has no later one.
    pub(crate) fn is_single(&self) -> bool
        ensures { IsTrue result ↔ (self.now.1.1 ≡ []) }
    {
        self.queue.is_single()
    }

    /// Puts a signal after the others, or `AllocError` if there is no memory for it; then the signal is dropped.
    pub(crate) fn push(&mut self, signal: Signal) -> Result<(), AllocError>
        ensures pair { self.new.0 ≡ self.old.0 }
        ensures ok { OnOk result (self.new.1 ≡ (self.old.1.0, self.old.1.1 ++ signal_of signal ∷ [])) }
        ensures err { OnErr result (self.new.1 ≡ self.old.1) }
    {
        let queue = Arc::make_mut(&mut self.queue)?;
        queue.push(signal)?;
        Ok(())
    }

    /// Takes out the oldest signal of several; the next is then the oldest. `AllocError` if there is no memory
    /// for it.
    pub(crate) fn take_oldest(&mut self) -> Result<Signal, AllocError>
        requires { self.old.1.1 ≢ [] }
        ensures pair { self.new.0 ≡ self.old.0 }
        ensures taken { IfOk result (λ taken. signal_of taken ≡ self.old.1.0) }
        ensures rest { OnOk result (self.old.1.1 ≡ self.new.1.0 ∷ self.new.1.1) }
        ensures err { OnErr result (self.new.1 ≡ self.old.1) }
    {
        let queue = Arc::make_mut(&mut self.queue)?;
        Ok(queue.take_oldest())
    }
}
