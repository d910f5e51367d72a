// The channels of all senders.
ghost use Rattle.std.specs.Prelude.{◌≡◌, true, ◌≢◌, ◌<◌, ◌≤◌, [], ◌∷◌, ◌++◌, None, drop, length, IfOk, IfSome, OnOk, OnErr, option_map};
ghost use Rattle.std.specs.List.{AllWithin, HoldsAt};
ghost use Rattle.std.specs.List.Sorted.{IsStrictlySortedBy};
ghost use Rattle.std.specs.Map.{keys_of};
ghost use Rattle.world_model.specs.Signals.{first_of};
ghost use Rattle.proc_signals.specs.Channels.{between, signals_in, IsChangedBetween, TakesFrom, order_of_pairs};
ghost use Rattle.proc_signals.specs.Signal.{signal_of};

use crate::channel::Channel;
use crate::signal::Signal;
use std::alloc::{AllocError, Global};
use std::cmp::Ordering;
use std::hash::Hasher;
use std::marker::Model;
use term_core::Pid;

/// How many channels are looked through from the front; where there are more, one is found by binary search.
const FEW: usize = 8;

/// The channels that are not empty, by sender and then by receiver. Contracts see each under its sender and
/// its receiver.
#[derive(Drop)]
pub(crate) struct Senders {
    channels: Vec<Channel>,
}

impl Model for Senders {
    ghost use Rattle.std.specs.Prelude.{ℕ, List};
    ghost use Rattle.std.specs.Coded.{coded_list};
    ghost use Rattle.std.specs.List.Sorted.{IsStrictlySortedBy};
    ghost use Rattle.std.specs.Map.{keys_of};
    ghost use Rattle.proc_signals.specs.Channels as seen;
    ghost use Rattle.proc_signals.specs.inside.SignalCodes.{coded_channel};

    ghost Value = { List ((List ℕ × List ℕ) × seen.Queue) };

    ghost coded = { coded_list coded_channel };

    ghost view = { λ s. s.channels.items };

    ghost invariant = { λ s. IsStrictlySortedBy seen.order_of_pairs (keys_of s.channels.items) };
}

impl Clone for Senders {
    ghost is_clone = { λ a b. b ≡ a };

    /// The same channels, shared, with room for one more, or `AllocError` if there is no memory for it.
    fn clone(&self) -> Result<Senders, AllocError> {
        let mut channels = Vec::with_capacity(*self.channels.allocator(), self.channels.len() + 1)?;
        for channel in self.channels.as_slice() {
            channels.push(channel.copy()?)?;
        }
        Ok(Senders { channels })
    }
}

// Where the channel from one process to another is or is put in: after those that come before it.
fn room_of(channels: &[Channel], from: &Pid, to: &Pid) -> usize
    requires { IsStrictlySortedBy order_of_pairs (keys_of channels.now) }
    ensures within { result ≤ length channels.now }
    ensures before { AllWithin (λ channel. order_of_pairs channel.0 (from.now, to.now) ≡ Ordering.Less) channels.now 0 result }
    ensures behind { result < length channels.now → HoldsAt (λ channel. order_of_pairs channel.0 (from.now, to.now) ≢ Ordering.Less) channels.now result }
{
    channels.partition_point(|channel| channel.is_before(from, to))
}

// Where the channel from one process to another is, if it is not empty, found by binary search.
fn place_by_halves(channels: &[Channel], from: &Pid, to: &Pid) -> Option<usize>
    requires { IsStrictlySortedBy order_of_pairs (keys_of channels.now) }
    ensures within { IfSome result (λ at. at < length channels.now) }
    ensures there { IfSome result (HoldsAt (λ channel. channel.0 ≡ (from.now, to.now)) channels.now) }
    ensures none { result ≡ None → between channels.now from.now to.now ≡ [] }
{
    let at = room_of(channels, from, to);
    if at < channels.len() && channels[at].is_between(from, to) {
        return Some(at);
    }
    None
}

// Where the channel from one process to another is, if it is not empty.
fn place_of(channels: &[Channel], from: &Pid, to: &Pid) -> Option<usize>
    requires { IsStrictlySortedBy order_of_pairs (keys_of channels.now) }
    ensures within { IfSome result (λ at. at < length channels.now) }
    ensures there { IfSome result (HoldsAt (λ channel. channel.0 ≡ (from.now, to.now)) channels.now) }
    ensures none { result ≡ None → between channels.now from.now to.now ≡ [] }
{
    if channels.len() > FEW {
        return place_by_halves(channels, from, to);
    }
    for at in 0..channels.len() {
        if channels[at].is_between(from, to) {
            return Some(at);
        }
    }
    None
}

impl Senders {
    /// No channels. It takes no memory.
    pub(crate) fn new(alloc: Global) -> Senders
        ensures { result ≡ [] }
    {
        Senders {
            channels: Vec::new(alloc),
        }
    }

    // The channel from one process to another, if it is not empty.
    fn channel(&self, from: &Pid, to: &Pid) -> Option<&Channel>
        ensures pair { IfSome result (λ channel. channel.now.0 ≡ (from.now, to.now)) }
        ensures signals { IfSome result (λ channel. signals_in channel.now.1 ≡ between self.now from.now to.now) }
        ensures none { result ≡ None → between self.now from.now to.now ≡ [] }
    {
        let channels = self.channels.as_slice();
        match place_of(channels, from, to) {
            Some(at) => Some(&channels[at]),
            None => None,
        }
    }

    /// Whether the two have the same signals on their way from one process to another. It takes no memory.
    pub(crate) fn is_same_between(&self, from: &Pid, to: &Pid, other: &Senders) -> bool
        ensures { result ≡ true → between self.now from.now to.now ≡ between other.now from.now to.now }
    {
        match (self.channel(from, to), other.channel(from, to)) {
            (Some(left), Some(right)) => left.is_same(right),
            (None, None) => true,
            _ => false,
        }
    }

    /// Feeds a hasher with the signals on their way from one process to another: the same where these are the same. It
    /// takes no memory.
    pub(crate) fn feed_between<H: Hasher>(&self, from: &Pid, to: &Pid, state: &mut H) {
        match self.channel(from, to) {
            Some(channel) => {
                state.write_u8(1);
                channel.feed_signals(state);
            }
            None => state.write_u8(0),
        }
    }

    /// The oldest signal on its way from one process to another.
    pub(crate) fn front(&self, from: &Pid, to: &Pid) -> Option<&Signal>
        ensures { option_map (λ signal. signal_of signal.now) result ≡ first_of (between self.now from.now to.now) }
    {
        let channels = self.channels.as_slice();
        match place_of(channels, from, to) {
            Some(at) => Some(channels[at].oldest()),
            None => None,
        }
    }

    /// Puts a signal after those on their way from one process to another, or `AllocError` if there is no memory for
    /// it.
    pub(crate) fn send(
        &mut self,
        alloc: Global,
        from: &Pid,
        to: &Pid,
        signal: Signal,
    ) -> Result<(), AllocError>
        ensures ok { OnOk result (IsChangedBetween from.now to.now (λ signals. signals ++ signal_of signal ∷ []) self.old self.new) }
        ensures err { OnErr result (self.new ≡ self.old) }
    {
        if let Some(at) = place_of(self.channels.as_slice(), from, to) {
            self.channels[at].push(signal)?;
            return Ok(());
        }
        self.open(alloc, from, to, signal)?;
        Ok(())
    }

    // Begins the channel from one process to another with a signal.
    fn open(
        &mut self,
        alloc: Global,
        from: &Pid,
        to: &Pid,
        signal: Signal,
    ) -> Result<(), AllocError>
        requires { between self.old from.now to.now ≡ [] }
        ensures ok { OnOk result (IsChangedBetween from.now to.now (λ signals. signals ++ signal_of signal ∷ []) self.old self.new) }
        ensures err { OnErr result (self.new ≡ self.old) }
    {
        let channel = Channel::of(alloc, from, to, signal)?;
        let at = room_of(self.channels.as_slice(), from, to);
        self.channels.insert(at, channel)?;
        Ok(())
    }

    /// Takes out the oldest signal on its way from one process to another, if there is one, or `AllocError` if
    /// there is no memory for it.
    pub(crate) fn take_front(&mut self, from: &Pid, to: &Pid) -> Result<Option<Signal>, AllocError>
        ensures taken { IfOk result (λ taken. option_map signal_of taken ≡ first_of (between self.old from.now to.now)) }
        ensures ok { OnOk result (IsChangedBetween from.now to.now (drop 1) self.old self.new) }
        ensures err { OnErr result (self.new ≡ self.old) }
    {
        let Some(at) = place_of(self.channels.as_slice(), from, to) else {
            return Ok(None);
        };
        if self.channels[at].is_single() {
            let signal = self.channels[at].oldest().copy()?;
            drop(self.channels.remove(at));
            return Ok(Some(signal));
        }
        let signal = self.channels[at].take_oldest()?;
        Ok(Some(signal))
    }

    /// Takes over the signals on their way from one process to another from other channels, with which it shares them
    /// then. `AllocError` if there is no memory for it or their copies can no longer be counted.
    pub(crate) fn take_from(
        &mut self,
        from: &Pid,
        to: &Pid,
        other: &Senders,
    ) -> Result<(), AllocError>
        ensures ok { OnOk result (TakesFrom from.now to.now other.now self.old self.new) }
        ensures err { OnErr result (self.new ≡ self.old) }
    {
        match other.channel(from, to) {
            Some(channel) => self.put(from, to, channel.copy()?)?,
            None => self.close(from, to),
        }
        Ok(())
    }

    // Puts the channel from one process to another in place of the one that is there, if there is one.
    fn put(&mut self, from: &Pid, to: &Pid, channel: Channel) -> Result<(), AllocError>
        requires { channel.0 ≡ (from.now, to.now) }
        ensures ok { OnOk result (IsChangedBetween from.now to.now (λ _. signals_in channel.1) self.old self.new) }
        ensures err { OnErr result (self.new ≡ self.old) }
    {
        if let Some(at) = place_of(self.channels.as_slice(), from, to) {
            self.channels[at] = channel;
            return Ok(());
        }
        let at = room_of(self.channels.as_slice(), from, to);
        self.channels.insert(at, channel)?;
        Ok(())
    }

    // Removes the channel from one process to another, if it is not empty.
    fn close(&mut self, from: &Pid, to: &Pid)
        ensures { IsChangedBetween from.now to.now (λ _. []) self.old self.new }
    {
        if let Some(at) = place_of(self.channels.as_slice(), from, to) {
            drop(self.channels.remove(at));
        }
    }

    /// The pairs whose channel is not empty, by sender and then by receiver.
    pub(crate) fn pairs(&self, alloc: Global) -> Result<Vec<(Pid, Pid)>, AllocError>
        ensures listed { IfOk result (λ pairs. pairs.items ≡ keys_of self.now) }
        ensures ordered { OnOk result (IsStrictlySortedBy order_of_pairs (keys_of self.now)) }
    {
        let mut pairs = Vec::new(alloc);
        for channel in self.channels.as_slice() {
            pairs.push((channel.from().copy()?, channel.to().copy()?))?;
        }
        Ok(pairs)
    }
}
