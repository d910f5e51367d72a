// Sets, one for each process.
ghost use Rattle.std.specs.Prelude.{◌≡◌, ℕ, List, [], IfOk, OnOk, OnErr, bytes_eq, option_copied, if◌then◌else◌, true};
ghost use Rattle.std.specs.List.{list_any};
ghost use Rattle.std.specs.BTreeMap.{is_at};
ghost use Rattle.world_model.specs.Changes.{set_in_order, without_first};

use std::alloc::{AllocError, Global};
use std::collections::{BTreeMap, BTreeSet};
use std::hash::{Hash, Hasher};
use term_core::{Pid, RefId};

/// What sets are of: a clone of an item is the same item, and items that compare as equal are the same item.
pub trait Member: Ord + Clone + Drop {
    ghost same: { (a b : Self) → Self.is_clone a b → b ≡ a };

    ghost equal: { (a b : Self) → Self.eq a b ≡ true → a ≡ b };
}

impl Member for Pid {
    ghost use Rattle.std.proofs.lemmas.Slice.Eq.{bytes_eq-Decides};

    ghost same = { λ a b clone. clone };

    ghost equal = { λ a b. (bytes_eq-Decides a b).0 };
}

impl Member for RefId {
    ghost use Rattle.std.specs.Prelude.{refl};
    ghost use Rattle.term_core.proofs.Equality.{reference_ids_same};

    ghost same = { λ a b clone. clone };

    ghost equal = { λ a b. (reference_ids_same a b _ refl).0 };
}

/// A set for each process, which is empty at first and takes no room while it is.
#[derive(Drop)]
pub struct Groups<K: Ord> {
    sets: BTreeMap<Pid, BTreeSet<K>>,
}

impl<K: Member> Clone for Groups<K> {
    ghost use Rattle.proc_groups.specs.Groups.{members_in};

    ghost is_clone = { λ a b. (p : List ℕ) → members_in b p ≡ members_in a p };

    /// The same sets, each a copy, or `AllocError` if there is no memory for them.
    fn clone(&self) -> Result<Groups<K>, AllocError> {
        Ok(Groups {
            sets: self.sets.clone()?,
        })
    }
}

impl<K: Member> Groups<K> {
    ghost use Rattle.proc_groups.specs.Groups.{members_in, members_of, IsAdded};

    /// Sets that are all empty. It takes no memory.
    pub fn new(alloc: Global) -> Groups<K>
        ensures { (p : List ℕ) → members_in result p ≡ [] }
    {
        Groups {
            sets: BTreeMap::new(alloc),
        }
    }

    /// Whether each process has the same items. It takes no memory.
    pub fn is_same(&self, other: &Groups<K>) -> bool
        ensures { result ≡ true → (p : List ℕ) → members_in other.now p ≡ members_in self.now p }
    {
        self.sets == other.sets
    }

    /// The set of a process, or `None` where it is empty. It takes no memory.
    pub fn of(&self, pid: &Pid) -> Option<&BTreeSet<K>>
        ensures { members_of (option_copied result) ≡ members_in self.now pid.now }
    {
        self.sets.get(pid)
    }

    /// Whether an item is in the set of a process. It takes no memory.
    pub fn has(&self, pid: &Pid, item: &K) -> bool
        ensures { result ≡ list_any (is_at (K.cmp item.now)) (members_in self.now pid.now) }
    {
        match self.sets.get(pid) {
            Some(set) => set.contains(item),
            None => false,
        }
    }

    /// Puts an item into the set of a process, and answers whether it is new there. `AllocError` if there is no
    /// memory for it: then nothing is changed, and the item is dropped.
    pub fn add(&mut self, alloc: Global, pid: &Pid, item: K) -> Result<bool, AllocError>
        ensures ok { IfOk result (λ is_new. IsAdded K.cmp pid.now item is_new (members_in self.old) (members_in self.new)) }
        ensures err { OnErr result ((q : List ℕ) → members_in self.new q ≡ members_in self.old q) }
    {
        match self.sets.get_mut(pid) {
            Some(set) => Ok(set.insert(item)?),
            None => {
                self.begin(alloc, pid, item)?;
                Ok(true)
            }
        }
    }

    // Puts a first item into the set of a process.
    fn begin(&mut self, alloc: Global, pid: &Pid, item: K) -> Result<(), AllocError>
        requires { members_in self.old pid.now ≡ [] }
        ensures ok { OnOk result ((q : List ℕ) → members_in self.new q ≡ (if bytes_eq pid.now q then set_in_order K.cmp item (members_in self.old q) else members_in self.old q)) }
        ensures err { OnErr result ((q : List ℕ) → members_in self.new q ≡ members_in self.old q) }
    {
        let mut set = BTreeSet::new(alloc);
        set.insert(item)?;
        self.sets.insert(pid.copy()?, set)?;
        Ok(())
    }

    /// Takes back that an item was added, which was new there or was not: what `add` answered. It takes no
    /// memory.
    pub fn take_back(&mut self, pid: &Pid, item: &K, is_new: bool)
        ensures { (f g : List ℕ → List K) → IsAdded K.cmp pid.now item.now is_new f g → ((q : List ℕ) → members_in self.old q ≡ g q) → (q : List ℕ) → members_in self.new q ≡ f q }
    {
        if is_new {
            self.remove(pid, item);
        }
    }

    /// Takes an item out of the set of a process, if it is there. It takes no memory.
    pub fn remove(&mut self, pid: &Pid, item: &K)
        ensures { (q : List ℕ) → members_in self.new q ≡ (if bytes_eq pid.now q then without_first (is_at (K.cmp item.now)) (members_in self.old q) else members_in self.old q) }
    {
        let Some(set) = self.sets.get_mut(pid) else {
            return;
        };
        set.remove(item);
        if set.is_empty() {
            drop(self.sets.remove(pid));
        }
    }

    /// Takes all items out of the set of a process. It takes no memory.
    pub fn clear(&mut self, pid: &Pid)
        ensures { (q : List ℕ) → members_in self.new q ≡ (if bytes_eq pid.now q then [] else members_in self.old q) }
    {
        let _items = self.sets.remove(pid);
    }
}

impl<K: Member + Hash> Groups<K> {
    /// Feeds a hasher with each process and the items in its set, by which a search finds what may be the same: it gives
    /// the same for sets that are. It takes no memory.
    pub fn feed<H: Hasher>(&self, state: &mut H) {
        self.sets.hash(state);
    }
}
