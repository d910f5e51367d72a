// The channels between processes.
ghost use Rattle.std.specs.Prelude.{◌≡◌, true, [], ◌∷◌, ◌++◌, drop, IfOk, IsSome, OnOk, OnErr, option_map, None, ◌↔◌, ◌≢◌};
ghost use Rattle.world_model.specs.Cells.{Contents};
ghost use Rattle.world_model.specs.Changes.{changed, SignalPut, SignalDelivered};
ghost use Rattle.world_model.specs.Names.{Pid as PidSeen, IsAmong};
ghost use Rattle.world_model.specs.Signals.{first_of};
ghost use Rattle.proc_signals.specs.Channels.{between, IsChangedBetween, TakesFrom, AreChannels, order_of_pairs};
ghost use Rattle.std.specs.List.Sorted.{IsStrictlySortedBy};
ghost use Rattle.proc_signals.specs.Signal.{signal_of};

use crate::senders::Senders;
use crate::signal::Signal;
use std::alloc::{AllocError, Global};
use std::hash::Hasher;
use std::marker::Model;
use std::sync::Arc;
use term_core::Pid;

/// The signals on their way between any two processes, the oldest first (Erlang reference manual,
/// "Processes", "Delivery of Signals"). Contracts read those of each pair with `between`. Copies share
/// them until one of them is changed; then it clones the pointers to channels, and the one channel.
pub struct Channels {
    senders: Arc<Senders>,
}

// Dropped by a call, so that no crate above proves again how.
impl Drop for Channels {
    fn drop(self) {
        let Channels { senders: _ } = self;
    }
}

impl Model for Channels {
    ghost use Rattle.std.specs.Prelude.{ℕ, List};
    ghost use Rattle.std.specs.Coded.{coded_list};
    ghost use Rattle.proc_signals.specs.Channels as seen;
    ghost use Rattle.proc_signals.specs.inside.SignalCodes.{coded_channel};

    ghost Value = { List ((List ℕ × List ℕ) × seen.Queue) };

    ghost coded = { coded_list coded_channel };

    ghost view = { λ c. c.senders.value };
}

impl Channels {
    /// No signals, or `AllocError` if there is no memory for it.
    pub fn new(alloc: Global) -> Result<Channels, AllocError>
        ensures { IfOk result (λ channels. (s r : PidSeen) → between channels s r ≡ []) }
    {
        Ok(Channels {
            senders: Arc::new(alloc, Senders::new(alloc))?,
        })
    }

    /// Whether the same signals are on their way from one process to another as in other channels. It takes no memory.
    pub fn is_same_between(&self, from: &Pid, to: &Pid, other: &Channels) -> bool
        ensures { result ≡ true → between self.now from.now to.now ≡ between other.now from.now to.now }
    {
        self.senders.is_same_between(from, to, &other.senders)
    }

    /// Feeds a hasher with the signals on their way from one process to another, by which a search finds what may be the
    /// same: it gives the same where these signals are the same. It takes no memory.
    pub fn feed_between<H: Hasher>(&self, from: &Pid, to: &Pid, state: &mut H) {
        self.senders.feed_between(from, to, state);
    }

    /// The same channels, or `AllocError` where their copies can no longer be counted. It takes no memory and
    /// one step.
    pub fn copy(&self) -> Result<Channels, AllocError>
        ensures { IfOk result (λ copied. copied ≡ self.now) }
    {
        Ok(Channels {
            senders: Arc::try_clone(&self.senders)?,
        })
    }

    /// The oldest signal on its way from one process to another, if there is one. It takes no memory.
    pub fn front(&self, from: &Pid, to: &Pid) -> Option<&Signal>
        ensures { option_map (λ signal. signal_of signal.now) result ≡ first_of (between self.now from.now to.now) }
    {
        self.senders.front(from, to)
    }

    /// Puts a signal after those on their way from one process to another: signals between two processes arrive in the
    /// order in which they were sent. `AllocError` if there is no memory for it: then the channels are as they were,
    /// and the signal is dropped.
    #[tactic(auto, using(crate::proofs::Cells::puts_follow))]
    pub fn send(
        &mut self,
        alloc: Global,
        from: &Pid,
        to: &Pid,
        signal: Signal,
    ) -> Result<(), AllocError>
        ensures ok { OnOk result (IsChangedBetween from.now to.now (λ signals. signals ++ signal_of signal ∷ []) self.old self.new) }
        ensures puts { OnOk result ((v : Contents) →
            AreChannels self.old v → AreChannels self.new (changed (SignalPut from.now to.now (signal_of signal)) v)) }
        ensures err { OnErr result (self.new ≡ self.old) }
    {
        let senders = Arc::make_mut(&mut self.senders)?;
        senders.send(alloc, from, to, signal)?;
        Ok(())
    }

    /// Takes out the oldest signal on its way from one process to another, if there is one. `AllocError` if
    /// there is no memory for it, and then the channels are as they were.
    pub fn take_front(&mut self, from: &Pid, to: &Pid) -> Result<Option<Signal>, AllocError>
        ensures taken { IfOk result (λ taken. option_map signal_of taken ≡ first_of (between self.old from.now to.now)) }
        ensures ok { OnOk result (IsChangedBetween from.now to.now (drop 1) self.old self.new) }
        ensures fetches { IfOk result (λ taken. (v : Contents) → IsSome taken →
            AreChannels self.old v → AreChannels self.new (changed (SignalDelivered from.now to.now) v)) }
        ensures none { IfOk result (λ taken. taken ≡ None → self.new ≡ self.old) }
        ensures err { OnErr result (self.new ≡ self.old) }
    {
        if self.senders.front(from, to).is_none() {
            return Ok(None);
        }
        let senders = Arc::make_mut(&mut self.senders)?;
        let taken = senders.take_front(from, to)?;
        Ok(taken)
    }

    /// Takes over the signals on their way from one process to another from other channels, with which it shares them
    /// then; all others stay. Where the other channels have none there, there are none afterwards. `AllocError` if there
    /// is no memory for it, or copies can no longer be counted; then the channels are as they were.
    pub fn take_from(&mut self, from: &Pid, to: &Pid, other: &Channels) -> Result<(), AllocError>
        ensures ok { OnOk result (TakesFrom from.now to.now other.now self.old self.new) }
        ensures err { OnErr result (self.new ≡ self.old) }
    {
        let senders = Arc::make_mut(&mut self.senders)?;
        senders.take_from(from, to, &other.senders)?;
        Ok(())
    }

    /// The pairs of processes whose channel is not empty, each once, in the order of senders and then of
    /// receivers. `AllocError` if there is no memory for them.
    #[tactic(auto, using(crate::proofs::Pairs::listed_have, crate::proofs::Pairs::have_listed))]
    pub fn pairs(&self, alloc: Global) -> Result<Vec<(Pid, Pid)>, AllocError>
        ensures listed { IfOk result (λ pairs. (s r : PidSeen) →
            IsAmong (s, r) pairs.items ↔ (between self.now s r ≢ [])) }
        ensures ordered { IfOk result (λ pairs. IsStrictlySortedBy order_of_pairs pairs.items) }
    {
        let pairs = self.senders.pairs(alloc)?;
        Ok(pairs)
    }
}
