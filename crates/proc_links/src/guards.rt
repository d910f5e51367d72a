// What lets messages in that are sent to references, and the names by which watches were made (the Erlang manual,
// `alias/1`, `monitor/3` and `start_timer/3`).
ghost use Rattle.std.specs.Prelude.{◌≡◌, ℕ, List, IfOk, OnOk, OnErr, Some, None, option_copied, option_map, is_some, true};
ghost use Rattle.std.specs.BTreeMap.{get};
ghost use Rattle.term_core.specs.StepOrder.{order_of_reference_ids};
ghost use Rattle.proc_links.specs.Guards.{same_end};
ghost use Rattle.proc_links.specs.inside.Guarded.{IsGuardSet};
ghost use Rattle.world_model.specs.Cells.{Contents};
ghost use Rattle.world_model.specs.Changes.{changed, GuardSet, GuardCleared, GuardUnwatched};
ghost use Rattle.world_model.specs.Guards.{aliased, is_alias_of, ends_by_reply, timer_in, watch_name};
ghost use Rattle.world_model.specs.Names as names;
ghost use Rattle.world_model.specs.Names.{ref_of};
ghost use Rattle.world_model.specs.Signals.{guarded_fate};
ghost use Rattle.term_core.specs.Term.{meaning_of};

use crate::effect::Effect;
use std::alloc::{AllocError, Global};
use std::collections::BTreeMap;
use std::hash::{Hash, Hasher};
use std::sync::Arc;
use term_core::{Atom, Pid, RefId, Term};
use world_model::alias::AliasEnd;

/// What lets a message in that is sent to a reference, or the name by which its watch was made, or both. Contracts see it
/// as `guard_of` it.
#[derive(Drop)]
pub enum Guard {
    /// An alias of a process, and when it ends.
    Alias(Pid, AliasEnd),
    /// A timer for a process, of so many milliseconds.
    Timer(Pid, i64),
    /// A watch of this name, which lets nothing in.
    NamedWatch(Atom),
    /// A watch of this name with an alias of a process, and when that ends.
    NamedAlias(Atom, Pid, AliasEnd),
}

/// What lets in the messages that are sent to references. Copies share all of it until one of them is changed.
pub struct Guards {
    guards: Arc<BTreeMap<RefId, Guard>>,
}

// Dropped by a call, so that no crate above proves again how.
impl Drop for Guards {
    fn drop(self) {
        let Guards { guards: _ } = self;
    }
}

// Whether two aliases end alike.
fn are_alike(one: AliasEnd, other: AliasEnd) -> bool
    ensures { result ≡ same_end one other }
{
    match (one, other) {
        (AliasEnd::ByUnalias, AliasEnd::ByUnalias) => true,
        (AliasEnd::WithWatch, AliasEnd::WithWatch) => true,
        (AliasEnd::ByReply, AliasEnd::ByReply) => true,
        _ => false,
    }
}

impl PartialEq for Guard {
    ghost use Rattle.std.specs.Cmp.{on_per, partial_equiv_from_equiv};
    ghost use Rattle.std.specs.Ordering.{on};
    ghost use Rattle.proc_links.specs.Guards.{guard_of, same_guard};
    ghost use Rattle.proc_links.specs.inside.Alike.{guards_equal};

    ghost eq = { on guard_of same_guard };

    ghost laws = { on_per guard_of (partial_equiv_from_equiv guards_equal) };

    /// Whether the two are the same. It takes no memory.
    fn eq(&self, other: &Guard) -> bool {
        match (self, other) {
            (Guard::Alias(pid, end), Guard::Alias(owner, how)) => {
                *pid == *owner && are_alike(*end, *how)
            }
            (Guard::Timer(pid, time), Guard::Timer(to, left)) => *pid == *to && *time == *left,
            (Guard::NamedWatch(name), Guard::NamedWatch(other)) => *name == *other,
            (Guard::NamedAlias(name, pid, end), Guard::NamedAlias(other, owner, how)) => {
                *name == *other && *pid == *owner && are_alike(*end, *how)
            }
            _ => false,
        }
    }
}

impl Guard {
    ghost use Rattle.proc_links.specs.Guards.{guard_of};

    // Feeds a hasher with the guard: the same for guards that are the same.
    fn feed<H: Hasher>(&self, state: &mut H) {
        match self {
            Guard::Alias(pid, end) => {
                state.write_u8(0);
                pid.hash(state);
                end.hash(state);
            }
            Guard::Timer(pid, time) => {
                state.write_u8(1);
                pid.hash(state);
                time.hash(state);
            }
            Guard::NamedWatch(name) => {
                state.write_u8(2);
                name.hash(state);
            }
            Guard::NamedAlias(name, pid, end) => {
                state.write_u8(3);
                name.hash(state);
                pid.hash(state);
                end.hash(state);
            }
        }
    }

    /// The same guard, or `AllocError` where the copies of its process or of its name can no longer be counted. It takes no memory.
    pub fn copy(&self) -> Result<Guard, AllocError>
        ensures { IfOk result (λ copied. guard_of copied ≡ guard_of self.now) }
    {
        match self {
            Guard::Alias(pid, end) => Ok(Guard::Alias(pid.copy()?, *end)),
            Guard::Timer(pid, time) => Ok(Guard::Timer(pid.copy()?, *time)),
            Guard::NamedWatch(name) => Ok(Guard::NamedWatch(name.copy()?)),
            Guard::NamedAlias(name, pid, end) => {
                Ok(Guard::NamedAlias(name.copy()?, pid.copy()?, *end))
            }
        }
    }
}

impl Clone for Guard {
    ghost use Rattle.proc_links.specs.Guards.{guard_of};

    ghost is_clone = { λ a b. guard_of b ≡ guard_of a };

    /// The same guard, as `copy` gives it.
    fn clone(&self) -> Result<Guard, AllocError> {
        self.copy()
    }
}

// A reference has this guard.
fn put(
    guards: &mut BTreeMap<RefId, Guard>,
    reference: &RefId,
    guard: Guard,
) -> Result<(), AllocError>
    ensures ok { OnOk result (IsGuardSet reference.now (Some guard) guards.old guards.new) }
    ensures err { OnErr result ((id : List ℕ × ℕ) → get order_of_reference_ids guards.new id ≡ get order_of_reference_ids guards.old id) }
{
    guards.insert(reference.copy()?, guard)?;
    Ok(())
}

// A reference has none.
fn take(guards: &mut BTreeMap<RefId, Guard>, reference: &RefId)
    ensures { IsGuardSet reference.now None guards.old guards.new }
{
    drop(guards.remove(reference));
}

impl Guards {
    ghost use Rattle.proc_links.specs.Effects.{fate_in};
    ghost use Rattle.proc_links.specs.Guards.{AreGuards, IsUnchanged, guard_in, guard_of};

    /// No guards, or `AllocError` if there is no memory.
    pub fn new(alloc: Global) -> Result<Guards, AllocError>
        ensures { IfOk result (λ begun. (ref : names.Ref) → guard_in begun ref ≡ None) }
    {
        Ok(Guards {
            guards: Arc::new(alloc, BTreeMap::new(alloc))?,
        })
    }

    /// The same guards, which share memory with these, or `AllocError` where the copies can no longer be counted.
    pub fn copy(&self) -> Result<Guards, AllocError>
        ensures { IfOk result (λ copied. IsUnchanged self.now copied) }
    {
        Ok(Guards {
            guards: Arc::try_clone(&self.guards)?,
        })
    }

    /// Whether each reference has the same guard: where it is so, these agree with all contents that the others agree
    /// with. It takes no memory.
    pub fn is_same(&self, other: &Guards) -> bool
        ensures same { result ≡ true → IsUnchanged self.now other.now }
        ensures agrees { result ≡ true → (v : Contents) → AreGuards other.now v → AreGuards self.now v }
    {
        *self.guards == *other.guards
    }

    /// Feeds a hasher with each reference and its guard, by which a search finds what may be the same: it gives the same
    /// for guards that are. It takes no memory.
    pub fn feed<H: Hasher>(&self, state: &mut H) {
        for (reference, guard) in self.guards.iter() {
            reference.hash(state);
            guard.feed(state);
        }
    }

    /// What lets messages in that are sent to a reference, or `None`. It takes no memory.
    pub fn guard_of(&self, reference: &RefId) -> Option<&Guard>
        ensures { option_map guard_of (option_copied result) ≡ guard_in self.now (ref_of reference.now) }
    {
        self.guards.get(reference)
    }

    /// A reference has this guard, as an alias or a timer begins. `AllocError` if there is no memory, and then nothing is
    /// changed, and the guard is dropped.
    pub fn set(&mut self, reference: &RefId, guard: Guard) -> Result<(), AllocError>
        ensures ok { OnOk result ((v : Contents) → AreGuards self.old v → AreGuards self.new (changed (GuardSet (ref_of reference.now) (guard_of guard)) v)) }
        ensures err { OnErr result (IsUnchanged self.old self.new) }
    {
        let guards = Arc::make_mut(&mut self.guards)?;
        put(guards, reference, guard)?;
        Ok(())
    }

    /// A reference has no guard: an alias or a timer ends. `AllocError` if there is no memory for what is shared with a
    /// copy, and then nothing is changed.
    pub fn clear(&mut self, reference: &RefId) -> Result<(), AllocError>
        ensures ok { OnOk result ((v : Contents) → AreGuards self.old v → AreGuards self.new (changed (GuardCleared (ref_of reference.now)) v)) }
        ensures err { OnErr result (IsUnchanged self.old self.new) }
    {
        let guards = Arc::make_mut(&mut self.guards)?;
        take(guards, reference);
        Ok(())
    }

    /// The watch of a reference ends, and with it an alias that was made so and the name of the watch. `AllocError` if there
    /// is no memory for what is shared with a copy, and then nothing is changed.
    pub fn unwatch(&mut self, reference: &RefId) -> Result<(), AllocError>
        ensures ok { OnOk result ((v : Contents) → AreGuards self.old v → AreGuards self.new (changed (GuardUnwatched (ref_of reference.now)) v)) }
        ensures err { OnErr result (IsUnchanged self.old self.new) }
    {
        match self.guard_of(reference) {
            Some(Guard::Alias(_, AliasEnd::WithWatch | AliasEnd::ByReply)) => {
                self.clear(reference)?;
                Ok(())
            }
            Some(Guard::NamedWatch(_)) => {
                self.clear(reference)?;
                Ok(())
            }
            Some(Guard::NamedAlias(_, _, AliasEnd::WithWatch | AliasEnd::ByReply)) => {
                self.clear(reference)?;
                Ok(())
            }
            Some(Guard::NamedAlias(_, owner, AliasEnd::ByUnalias)) => {
                let alias = Guard::Alias(owner.copy()?, AliasEnd::ByUnalias);
                self.set(reference, alias)?;
                Ok(())
            }
            _ => Ok(()),
        }
    }

    /// The name by which the watch of a reference was made, if it was made by one. It takes no memory.
    pub fn watch_name(&self, reference: &RefId) -> Option<&Atom>
        ensures { option_copied result ≡ watch_name (guard_in self.now (ref_of reference.now)) }
    {
        match self.guard_of(reference) {
            Some(Guard::NamedWatch(name)) => Some(name),
            Some(Guard::NamedAlias(name, _, _)) => Some(name),
            _ => None,
        }
    }

    /// The process that a reference is an alias of. It takes no memory.
    pub fn alias_of(&self, reference: &RefId) -> Option<&Pid>
        ensures { option_copied result ≡ aliased (guard_in self.now (ref_of reference.now)) }
    {
        match self.guard_of(reference) {
            Some(Guard::Alias(owner, _)) => Some(owner),
            Some(Guard::NamedAlias(_, owner, _)) => Some(owner),
            _ => None,
        }
    }

    /// Whether a reference is an alias of a process. It takes no memory.
    pub fn is_alias_of(&self, reference: &RefId, pid: &Pid) -> bool
        ensures { result ≡ is_alias_of pid.now (guard_in self.now (ref_of reference.now)) }
    {
        match self.guard_of(reference) {
            Some(Guard::Alias(owner, _)) => pid == owner,
            Some(Guard::NamedAlias(_, owner, _)) => pid == owner,
            _ => false,
        }
    }

    /// Whether a reference is an alias of a process that a message through it ends. It takes no memory.
    pub fn ends_by_reply(&self, reference: &RefId, pid: &Pid) -> bool
        ensures { result ≡ ends_by_reply pid.now (guard_in self.now (ref_of reference.now)) }
    {
        match self.guard_of(reference) {
            Some(Guard::Alias(owner, AliasEnd::ByReply)) => pid == owner,
            Some(Guard::NamedAlias(_, owner, AliasEnd::ByReply)) => pid == owner,
            _ => false,
        }
    }

    /// What a message to a process by a reference does: it is put where the reference is an alias of that process, and
    /// else it is dropped. `AllocError` where the copies of the message can no longer be counted.
    pub fn on_message(
        &self,
        reference: &RefId,
        to: &Pid,
        message: &Term,
    ) -> Result<Effect, AllocError>
        ensures { IfOk result (λ effect. fate_in effect ≡ guarded_fate (is_alias_of to.now (guard_in self.now (ref_of reference.now))) (meaning_of message.now)) }
    {
        if self.is_alias_of(reference, to) {
            return Ok(Effect::Put(message.copy()?));
        }
        Ok(Effect::Dropped)
    }

    /// What the message of a timer does: it is put where the timer stands, and else it is dropped. `AllocError` where the
    /// copies of the message can no longer be counted.
    pub fn on_elapsed(&self, reference: &RefId, message: &Term) -> Result<Effect, AllocError>
        ensures { IfOk result (λ effect. fate_in effect ≡ guarded_fate (is_some (timer_in (guard_in self.now (ref_of reference.now)))) (meaning_of message.now)) }
    {
        match self.guard_of(reference) {
            Some(Guard::Timer(_, _)) => Ok(Effect::Put(message.copy()?)),
            _ => Ok(Effect::Dropped),
        }
    }
}
