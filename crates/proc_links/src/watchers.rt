// The watches of processes (the Erlang manual, `monitor/2` and `demonitor/2`).
ghost use Rattle.std.specs.Prelude.{◌≡◌, [], IfOk, OnOk, OnErr, Some, None, is_some, map, option_copied, ℕ, List, true};
ghost use Rattle.std.specs.BTreeMap.{get};
ghost use Rattle.std.specs.List.{filter};
ghost use Rattle.term_core.specs.StepOrder.{order_of_reference_ids};
ghost use Rattle.term_core.specs.Meaning.{Meaning};
ghost use Rattle.term_core.specs.Term.{meaning_of};
ghost use Rattle.world_model.specs.Names as names;
ghost use Rattle.world_model.specs.Cells as cells;
ghost use Rattle.world_model.specs.Cells.{Contents};
ghost use Rattle.world_model.specs.Changes.{after};
ghost use Rattle.world_model.specs.Events as events;
ghost use Rattle.world_model.specs.ProcessLines.{watch_begins, watch_ends};
ghost use Rattle.world_model.specs.Signals.{down_fate, goes_with, watched_as};
ghost use Rattle.proc_groups.specs.Groups.{members_in, members_of};
ghost use Rattle.world_model.specs.Names.{ref_of};

use crate::effect::{Effect, down_message};
use crate::living::{Living, living_references};
use proc_groups::Groups;
use std::alloc::{AllocError, Global};
use std::collections::{BTreeMap, BTreeSet};
use std::hash::{Hash, Hasher};
use std::sync::Arc;
use term_core::{Atom, Pid, RefId, Term};

/// The watches of each process, and the process that each reference watches.
#[derive(Drop)]
struct Watches {
    watchers: Groups<RefId>,
    targets: BTreeMap<RefId, Pid>,
}

/// The watches of processes. Copies share all of it until one of them is changed.
pub struct Watchers {
    watches: Arc<Watches>,
}

// Dropped by a call, so that no crate above proves again how.
impl Drop for Watchers {
    fn drop(self) {
        let Watchers { watches: _ } = self;
    }
}

impl Clone for Watches {
    ghost use Rattle.proc_links.specs.inside.Watched.{AreSame};

    ghost is_clone = { AreSame };

    fn clone(&self) -> Result<Watches, AllocError> {
        Ok(Watches {
            watchers: self.watchers.clone()?,
            targets: self.targets.clone()?,
        })
    }
}

impl Watches {
    ghost use Rattle.proc_links.specs.inside.Watched.{AreSame, IsTargetSet, IsWatchAdded, IsWatchRemoved};

    // Whether each process has the same watches, and each reference watches the same process.
    fn is_same(&self, other: &Watches) -> bool
        ensures { result ≡ true → AreSame self.now other.now }
    {
        if !self.watchers.is_same(&other.watchers) {
            return false;
        }
        self.targets == other.targets
    }

    // Feeds a hasher with each reference and the process that it watches.
    fn feed<H: Hasher>(&self, state: &mut H) {
        self.targets.hash(state);
    }

    // A reference watches a process.
    fn watch(&mut self, alloc: Global, reference: &RefId, target: &Pid) -> Result<(), AllocError>
        ensures watchers { OnOk result (IsWatchAdded reference.now target.now self.old self.new) }
        ensures targets { OnOk result (IsTargetSet reference.now (Some target.now) self.old self.new) }
        ensures err { OnErr result (AreSame self.old self.new) }
    {
        let is_new = self.watchers.add(alloc, target, reference.copy()?)?;
        if let Err(refused) = self.point(reference, target) {
            self.watchers.take_back(target, reference, is_new);
            return Err(refused);
        }
        Ok(())
    }

    // A reference points to a process.
    fn point(&mut self, reference: &RefId, target: &Pid) -> Result<(), AllocError>
        ensures ok { OnOk result (IsTargetSet reference.now (Some target.now) self.old self.new) }
        ensures watchers { (p : names.Pid) → members_in self.new.watchers p ≡ members_in self.old.watchers p }
        ensures err { OnErr result ((id : List ℕ × ℕ) → get order_of_reference_ids self.new.targets id ≡ get order_of_reference_ids self.old.targets id) }
    {
        self.targets.insert(reference.copy()?, target.copy()?)?;
        Ok(())
    }

    // A reference no longer watches a process.
    fn unwatch(&mut self, reference: &RefId, target: &Pid)
        ensures watchers { IsWatchRemoved reference.now target.now self.old self.new }
        ensures targets { IsTargetSet reference.now None self.old self.new }
    {
        self.watchers.remove(target, reference);
        drop(self.targets.remove(reference));
    }
}

impl Watchers {
    ghost use Rattle.proc_links.specs.Effects.{fate_in};
    ghost use Rattle.proc_links.specs.Watchers.{AreWatchers, AreWatchersTold, AreWatches, BeginsWatch, EndsWatch, Demonitors, IsUnchanged, watchers_in, watch_in};

    /// No watches, or `AllocError` if there is no memory.
    pub fn new(alloc: Global) -> Result<Watchers, AllocError>
        ensures watchers { IfOk result (λ begun. (p : names.Pid) → watchers_in begun p ≡ []) }
        ensures watches { IfOk result (λ begun. (ref : names.Ref) → watch_in begun ref ≡ None) }
    {
        let watches = Watches {
            watchers: Groups::new(alloc),
            targets: BTreeMap::new(alloc),
        };
        Ok(Watchers {
            watches: Arc::new(alloc, watches)?,
        })
    }

    /// The same watches, which share memory with these, or `AllocError` where the copies can no longer be
    /// counted.
    pub fn copy(&self) -> Result<Watchers, AllocError>
        ensures { IfOk result (λ copied. IsUnchanged self.now copied) }
    {
        Ok(Watchers {
            watches: Arc::try_clone(&self.watches)?,
        })
    }

    /// Whether each process has the same watches, and each reference watches the same process: where it is so, these
    /// agree with all contents that the others agree with. It takes no memory.
    pub fn is_same(&self, other: &Watchers) -> bool
        ensures same { result ≡ true → IsUnchanged self.now other.now }
        ensures watchers { result ≡ true → (v : Contents) → AreWatchers other.now v → AreWatchers self.now v }
        ensures watches { result ≡ true → (v : Contents) → AreWatches other.now v → AreWatches self.now v }
    {
        self.watches.is_same(&other.watches)
    }

    /// Feeds a hasher with each reference and the process that it watches, by which a search finds what may be the same: it
    /// gives the same for watches that are. It takes no memory.
    pub fn feed<H: Hasher>(&self, state: &mut H) {
        self.watches.feed(state);
    }

    /// The watches of a process, in the order of references; `None` where it has none. It takes no memory.
    pub fn watchers_of(&self, pid: &Pid) -> Option<&BTreeSet<RefId>>
        ensures { map ref_of (members_of (option_copied result)) ≡ watchers_in self.now pid.now }
    {
        self.watches.watchers.of(pid)
    }

    /// The process that a reference watches, or `None`. It takes no memory.
    pub fn watch_of(&self, reference: &RefId) -> Option<&Pid>
        ensures { option_copied result ≡ watch_in self.now (ref_of reference.now) }
    {
        self.watches.targets.get(reference)
    }

    /// A reference watches a process, as `monitor/2` and `spawn_monitor/3` begin it. `AllocError` if there
    /// is no memory, and then nothing is changed.
    pub fn watch(
        &mut self,
        alloc: Global,
        reference: &RefId,
        target: &Pid,
    ) -> Result<(), AllocError>
        ensures ok { OnOk result (BeginsWatch (ref_of reference.now) target.now self.old self.new) }
        ensures watchers { OnOk result ((v : Contents) → AreWatchers self.old v → AreWatchers self.new (after (watch_begins (ref_of reference.now) target.now) v)) }
        ensures watches { OnOk result ((v : Contents) → AreWatches self.old v → AreWatches self.new (after (watch_begins (ref_of reference.now) target.now) v)) }
        ensures err { OnErr result (IsUnchanged self.old self.new) }
    {
        let watches = Arc::make_mut(&mut self.watches)?;
        watches.watch(alloc, reference, target)?;
        Ok(())
    }

    /// A reference no longer watches a process, as when the signal of the watch is delivered, which that process put.
    /// `AllocError` if there is no memory for what is shared with a copy, and then nothing is changed.
    pub fn unwatch(&mut self, reference: &RefId, target: &Pid) -> Result<(), AllocError>
        ensures ok { OnOk result (EndsWatch (ref_of reference.now) target.now self.old self.new) }
        ensures watchers { OnOk result ((v : Contents) (r : names.Pid) (reason : Meaning) → AreWatchers self.old v → AreWatchers self.new (after (goes_with v target.now r (events.Down (ref_of reference.now) reason)) v)) }
        ensures watches { OnOk result ((v : Contents) (r : names.Pid) (reason : Meaning) → AreWatches self.old v → AreWatches self.new (after (goes_with v target.now r (events.Down (ref_of reference.now) reason)) v)) }
        ensures err { OnErr result (IsUnchanged self.old self.new) }
    {
        let watches = Arc::make_mut(&mut self.watches)?;
        watches.unwatch(reference, target);
        Ok(())
    }

    /// `demonitor` of a reference by a process: the watch ends if that process made it, and else nothing is
    /// changed. `AllocError` if there is no memory for what is shared with a copy, and then nothing is
    /// changed.
    pub fn demonitor(&mut self, pid: &Pid, reference: &RefId) -> Result<(), AllocError>
        ensures ok { OnOk result (Demonitors pid.now (ref_of reference.now) (watch_in self.old (ref_of reference.now)) self.old self.new) }
        ensures watchers { OnOk result ((v : Contents) → AreWatchers self.old v → AreWatchers self.new (after (watch_ends pid.now (ref_of reference.now) (watch_in self.old (ref_of reference.now))) v)) }
        ensures watches { OnOk result ((v : Contents) → AreWatches self.old v → AreWatches self.new (after (watch_ends pid.now (ref_of reference.now) (watch_in self.old (ref_of reference.now))) v)) }
        ensures err { OnErr result (IsUnchanged self.old self.new) }
    {
        let Some(target) = self.watch_of(reference) else {
            return Ok(());
        };
        if reference.pid() != pid {
            return Ok(());
        }
        let target = target.copy()?;
        self.unwatch(reference, &target)?;
        Ok(())
    }

    /// What the signal of a watch does, which this process put at its end: it is dropped where the watch is gone, and
    /// else it is a message, with the name by which the watch was made if it was made by one. `AllocError` if there is no
    /// memory for a message.
    pub fn on_down(
        &self,
        alloc: Global,
        reference: &RefId,
        from: &Pid,
        name: Option<&Atom>,
        reason: &Term,
    ) -> Result<Effect, AllocError>
        ensures { IfOk result (λ effect. fate_in effect ≡ down_fate (watch_in self.now (ref_of reference.now)) (ref_of reference.now) (watched_as from.now (option_copied name.entry)) (meaning_of reason.now)) }
    {
        match self.watch_of(reference) {
            Some(_) => {
                let message = down_message(alloc, reference, from, name, reason)?;
                Ok(Effect::Put(message))
            }
            None => Ok(Effect::Dropped),
        }
    }

    /// The processes that the end of a process informs by the signal of a watch: the makers of its watches that live,
    /// in the order of references. `AllocError` if there is no memory for the list.
    pub fn told<L: Living>(
        &self,
        alloc: Global,
        pid: &Pid,
        living: &L,
    ) -> Result<Vec<RefId>, AllocError>
        ensures told { IfOk result (λ told. map ref_of told.items ≡ filter (λ ref. L.lives living.now ref.pid) (watchers_in self.now pid.now)) }
        ensures cells { IfOk result (λ told. AreWatchersTold self.now (L.lives living.now) pid.now (map ref_of told.items)) }
    {
        let told = living_references(alloc, self.watchers_of(pid), living)?;
        Ok(told)
    }
}
