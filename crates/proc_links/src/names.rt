// The names of processes (Erlang reference manual, "Processes": "Registered Processes").
ghost use Rattle.std.specs.Prelude.{◌≡◌, ◌∷◌, [], IfOk, IsSome, OnOk, OnErr, Some, None, map, option_copied, true};
ghost use Rattle.std.specs.BTreeMap.{get, IsOrdered};
ghost use Rattle.term_core.specs.Order.{order_of_lists};
ghost use Rattle.world_model.specs.Names as names;
ghost use Rattle.std.specs.FinMap.{keys};
ghost use Rattle.world_model.specs.Cells as cells;
ghost use Rattle.world_model.specs.Cells.{Contents};
ghost use Rattle.world_model.specs.Changes.{after, NameCleared, NameSet, HolderSet, HolderCleared};
ghost use Rattle.world_model.specs.Ends.{name_left};
ghost use Rattle.world_model.specs.ProcessLines.{register_refusal, unregister_line};
ghost use Rattle.world_model.specs.Terms.{atom, list_of};
ghost use Rattle.term_core.specs.Term.{meaning_of};

use crate::process::Life;
use std::alloc::{AllocError, Global};
use std::collections::BTreeMap;
use std::hash::{Hash, Hasher};
use std::sync::Arc;
use term_core::{Atom, Pid, Term, list_onto};

/// What a call of names resulted in.
#[derive(Clone, Copy, Debug, PartialEq, Eq)]
pub enum Naming {
    /// It is served.
    Served,
    /// It raises `badarg`, and nothing is changed.
    Refused,
}

/// Which process holds each name, and which name each process has.
#[derive(Drop)]
struct Bearers {
    holders: BTreeMap<Atom, Pid>,
    names: BTreeMap<Pid, Atom>,
}

/// The names of processes: a process has one name at most. Copies share all of it until one of them is
/// changed.
pub struct Names {
    bearers: Arc<Bearers>,
}

// Dropped by a call, so that no crate above proves again how.
impl Drop for Names {
    fn drop(self) {
        let Names { bearers: _ } = self;
    }
}

impl Clone for Bearers {
    ghost use Rattle.proc_links.specs.Bearers.{AreSame};

    ghost is_clone = { AreSame };

    fn clone(&self) -> Result<Bearers, AllocError> {
        Ok(Bearers {
            holders: self.holders.clone()?,
            names: self.names.clone()?,
        })
    }
}

impl Bearers {
    ghost use Rattle.proc_links.specs.Bearers.{AreSame, IsPut, listed, put_at};

    // Whether each name has the same holder, and each process the same name.
    fn is_same(&self, other: &Bearers) -> bool
        ensures { result ≡ true → AreSame self.now other.now }
    {
        if self.holders != other.holders {
            return false;
        }
        self.names == other.names
    }

    // Feeds a hasher with each name and its holder.
    fn feed<H: Hasher>(&self, state: &mut H) {
        self.holders.hash(state);
    }

    // All names that are held, in their order.
    fn all(&self, alloc: Global) -> Result<Vec<Term>, AllocError>
        ensures names { IfOk result (λ names. map meaning_of names.items ≡ map atom (listed self.now)) }
        ensures ordered { OnOk result (IsOrdered order_of_lists self.now.holders) }
    {
        let mut names = Vec::new(alloc);
        for (name, _) in self.holders.iter() {
            names.push(Term::Atom(name.copy()?))?;
        }
        Ok(names)
    }

    // A process holds a name, and has it, whatever either had before.
    fn put(&mut self, name: &Atom, pid: &Pid) -> Result<(), AllocError>
        ensures ok { OnOk result (IsPut name.now pid.now (Some pid.now) (Some name.now) self.old self.new) }
        ensures err { OnErr result (AreSame self.old self.new) }
    {
        let before = self.hold(name, pid)?;
        if let Err(refused) = self.bear(pid, name) {
            self.give_back(name, before);
            return Err(refused);
        }
        Ok(())
    }

    // A process holds a name, which another one may have held before.
    fn hold(&mut self, name: &Atom, pid: &Pid) -> Result<Option<Pid>, AllocError>
        ensures before { IfOk result (λ before. before ≡ get order_of_lists self.old.holders name.now) }
        ensures ok { OnOk result ((m : names.Name) → get order_of_lists self.new.holders m ≡ put_at name.now (Some pid.now) m (get order_of_lists self.old.holders m)) }
        ensures names { (r : names.Pid) → get order_of_lists self.new.names r ≡ get order_of_lists self.old.names r }
        ensures err { OnErr result (AreSame self.old self.new) }
    {
        let before = self.holders.insert(name.copy()?, pid.copy()?)?;
        Ok(before)
    }

    // A name that is held has the holder that it had before, or none.
    fn give_back(&mut self, name: &Atom, before: Option<Pid>)
        requires { IsSome (get order_of_lists self.old.holders name.now) }
        ensures holders { (m : names.Name) → get order_of_lists self.new.holders m ≡ put_at name.now before m (get order_of_lists self.old.holders m) }
        ensures names { (r : names.Pid) → get order_of_lists self.new.names r ≡ get order_of_lists self.old.names r }
    {
        let Some(pid) = before else {
            self.vacate(name);
            return;
        };
        if let Some(holder) = self.holders.get_mut(name) {
            *holder = pid;
        }
    }

    // A process has a name.
    fn bear(&mut self, pid: &Pid, name: &Atom) -> Result<(), AllocError>
        ensures ok { OnOk result ((r : names.Pid) → get order_of_lists self.new.names r ≡ put_at pid.now (Some name.now) r (get order_of_lists self.old.names r)) }
        ensures holders { (m : names.Name) → get order_of_lists self.new.holders m ≡ get order_of_lists self.old.holders m }
        ensures err { OnErr result (AreSame self.old self.new) }
    {
        self.names.insert(pid.copy()?, name.copy()?)?;
        Ok(())
    }

    // Nobody holds a name.
    fn vacate(&mut self, name: &Atom)
        ensures holders { (m : names.Name) → get order_of_lists self.new.holders m ≡ put_at name.now None m (get order_of_lists self.old.holders m) }
        ensures names { (r : names.Pid) → get order_of_lists self.new.names r ≡ get order_of_lists self.old.names r }
    {
        drop(self.holders.remove(name));
    }

    // A process has no name.
    fn bare(&mut self, pid: &Pid)
        ensures names { (r : names.Pid) → get order_of_lists self.new.names r ≡ put_at pid.now None r (get order_of_lists self.old.names r) }
        ensures holders { (m : names.Name) → get order_of_lists self.new.holders m ≡ get order_of_lists self.old.holders m }
    {
        drop(self.names.remove(pid));
    }
}

impl Names {
    ghost use Rattle.proc_links.specs.Process.{is_alive};
    ghost use Rattle.proc_links.specs.Names.{AreHolders, AreListed, AreBorne, IsNamed, IsUnchanged, Registers, Unregisters, Leaves, holder_in, name_in, refusal_of, changes_registered};

    /// No names, or `AllocError` if there is no memory.
    pub fn new(alloc: Global) -> Result<Names, AllocError>
        ensures holders { IfOk result (λ begun. (m : names.Name) → holder_in begun m ≡ None) }
        ensures names { IfOk result (λ begun. (r : names.Pid) → name_in begun r ≡ None) }
    {
        let bearers = Bearers {
            holders: BTreeMap::new(alloc),
            names: BTreeMap::new(alloc),
        };
        Ok(Names {
            bearers: Arc::new(alloc, bearers)?,
        })
    }

    /// The same names, which share memory with these, or `AllocError` where the copies can no longer be
    /// counted.
    pub fn copy(&self) -> Result<Names, AllocError>
        ensures holders { IfOk result (λ copied. (m : names.Name) → holder_in copied m ≡ holder_in self.now m) }
        ensures names { IfOk result (λ copied. (r : names.Pid) → name_in copied r ≡ name_in self.now r) }
    {
        Ok(Names {
            bearers: Arc::try_clone(&self.bearers)?,
        })
    }

    /// Whether each name has the same holder, and each process the same name: where it is so, these agree with all
    /// contents that the others agree with. It takes no memory.
    pub fn is_same(&self, other: &Names) -> bool
        ensures same { result ≡ true → IsUnchanged self.now other.now }
        ensures holders { result ≡ true → (v : Contents) → AreHolders other.now v → AreHolders self.now v }
        ensures listed { result ≡ true → (v : Contents) → AreListed other.now v → AreListed self.now v }
        ensures names { result ≡ true → (v : Contents) → AreBorne other.now v → AreBorne self.now v }
    {
        self.bearers.is_same(&other.bearers)
    }

    /// Feeds a hasher with each name and its holder, by which a search finds what may be the same: it gives the same for
    /// names that are. It takes no memory.
    pub fn feed<H: Hasher>(&self, state: &mut H) {
        self.bearers.feed(state);
    }

    /// `whereis/1`: who holds a name, or `None`. It takes no memory.
    pub fn whereis(&self, name: &Atom) -> Option<&Pid>
        ensures { option_copied result ≡ holder_in self.now name.now }
    {
        self.bearers.holders.get(name)
    }

    /// Which name a process has, or `None`. It takes no memory.
    pub fn name_of(&self, pid: &Pid) -> Option<&Atom>
        ensures { option_copied result ≡ name_in self.now pid.now }
    {
        self.bearers.names.get(pid)
    }

    /// All names that are held, as a list in the order of terms, or `AllocError` if there is no memory for it, or where the
    /// copies of the names can no longer be counted.
    pub fn list(&self, alloc: Global) -> Result<Term, AllocError>
        ensures { IfOk result (λ list. (v : Contents) → AreListed self.now v → meaning_of list ≡ list_of (map atom (keys (v cells.Holders)))) }
    {
        let names = self.bearers.all(alloc)?;
        list_onto(alloc, names, Term::Nil)
    }

    /// Whether `register/2` of a name for a process is served, with whether the process lives. It takes no memory.
    pub fn judge_registration(&self, name: &Atom, pid: &Pid, life: Life) -> Naming
        ensures { refusal_of result ≡ register_refusal name.now (is_alive life) (holder_in self.now name.now) (name_in self.now pid.now) }
    {
        let is_free = self.whereis(name).is_none() && self.name_of(pid).is_none();
        if life == Life::Lives && name.as_str() != "undefined" && is_free {
            Naming::Served
        } else {
            Naming::Refused
        }
    }

    /// `register/2` of a name for a process, with whether the process lives. It is refused where the name is
    /// `undefined` or in use, or the process is gone or has a name. `AllocError` if there is no memory, and then
    /// nothing is changed.
    pub fn register(&mut self, name: &Atom, pid: &Pid, life: Life) -> Result<Naming, AllocError>
        ensures refusal { IfOk result (λ naming. refusal_of naming ≡ register_refusal name.now (is_alive life) (holder_in self.old name.now) (name_in self.old pid.now)) }
        ensures ok { IfOk result (λ naming. Registers naming name.now pid.now self.old self.new) }
        ensures holders { IfOk result (λ naming. (v : Contents) → AreHolders self.old v → AreHolders self.new (after (changes_registered naming name.now pid.now) v)) }
        ensures listed { IfOk result (λ naming. (v : Contents) → AreListed self.old v → AreListed self.new (after (changes_registered naming name.now pid.now) v)) }
        ensures names { IfOk result (λ naming. (v : Contents) → AreBorne self.old v → AreBorne self.new (after (changes_registered naming name.now pid.now) v)) }
        ensures err { OnErr result (IsUnchanged self.old self.new) }
    {
        let naming = self.judge_registration(name, pid, life);
        match naming {
            Naming::Served => self.put(name, pid)?,
            Naming::Refused => {}
        }
        Ok(naming)
    }

    /// A process holds a name, and has it, whatever either had before. `AllocError` if there is no memory, and then
    /// nothing is changed.
    pub fn put(&mut self, name: &Atom, pid: &Pid) -> Result<(), AllocError>
        ensures ok { OnOk result (IsNamed name.now pid.now (Some pid.now) (Some name.now) self.old self.new) }
        ensures holders { OnOk result ((v : Contents) → AreHolders self.old v → AreHolders self.new (after (HolderSet name.now pid.now ∷ NameSet pid.now name.now ∷ []) v)) }
        ensures listed { OnOk result ((v : Contents) → AreListed self.old v → AreListed self.new (after (HolderSet name.now pid.now ∷ NameSet pid.now name.now ∷ []) v)) }
        ensures names { OnOk result ((v : Contents) → AreBorne self.old v → AreBorne self.new (after (HolderSet name.now pid.now ∷ NameSet pid.now name.now ∷ []) v)) }
        ensures err { OnErr result (IsUnchanged self.old self.new) }
    {
        let bearers = Arc::make_mut(&mut self.bearers)?;
        bearers.put(name, pid)?;
        Ok(())
    }

    /// Nobody holds a name, and the process that had it has none. `AllocError` if there is no memory for what is
    /// shared with a copy, and then nothing is changed.
    pub fn take(&mut self, name: &Atom, pid: &Pid) -> Result<(), AllocError>
        ensures ok { OnOk result (IsNamed name.now pid.now None None self.old self.new) }
        ensures holders { OnOk result ((v : Contents) → AreHolders self.old v → AreHolders self.new (after (HolderCleared name.now ∷ NameCleared pid.now ∷ []) v)) }
        ensures listed { OnOk result ((v : Contents) → AreListed self.old v → AreListed self.new (after (HolderCleared name.now ∷ NameCleared pid.now ∷ []) v)) }
        ensures names { OnOk result ((v : Contents) → AreBorne self.old v → AreBorne self.new (after (HolderCleared name.now ∷ NameCleared pid.now ∷ []) v)) }
        ensures err { OnErr result (IsUnchanged self.old self.new) }
    {
        let bearers = Arc::make_mut(&mut self.bearers)?;
        bearers.vacate(name);
        bearers.bare(pid);
        Ok(())
    }

    /// A process loses its name, whichever process holds it. Where it has none, nothing is copied or changed.
    /// `AllocError` if there is no memory for what is shared with a copy, and then nothing is changed.
    pub fn bare(&mut self, pid: &Pid) -> Result<(), AllocError>
        ensures holders { OnOk result ((v : Contents) → AreHolders self.old v → AreHolders self.new (after (NameCleared pid.now ∷ []) v)) }
        ensures listed { OnOk result ((v : Contents) → AreListed self.old v → AreListed self.new (after (NameCleared pid.now ∷ []) v)) }
        ensures names { OnOk result ((v : Contents) → AreBorne self.old v → AreBorne self.new (after (NameCleared pid.now ∷ []) v)) }
        ensures err { OnErr result (IsUnchanged self.old self.new) }
    {
        if self.name_of(pid).is_none() {
            return Ok(());
        }
        let own = Arc::make_mut(&mut self.bearers)?;
        own.bare(pid);
        Ok(())
    }

    /// `unregister/1` of a name, which is refused where it is not in use. `AllocError` if there is no
    /// memory for what is shared with a copy, and then nothing is changed.
    pub fn unregister(&mut self, name: &Atom) -> Result<Naming, AllocError>
        ensures refusal { IfOk result (λ naming. refusal_of naming ≡ (unregister_line name.now (holder_in self.old name.now)).refusal) }
        ensures ok { OnOk result (Unregisters name.now (holder_in self.old name.now) self.old self.new) }
        ensures holders { OnOk result ((v : Contents) → AreHolders self.old v → AreHolders self.new (after (unregister_line name.now (holder_in self.old name.now)).changes v)) }
        ensures listed { OnOk result ((v : Contents) → AreListed self.old v → AreListed self.new (after (unregister_line name.now (holder_in self.old name.now)).changes v)) }
        ensures names { OnOk result ((v : Contents) → AreBorne self.old v → AreBorne self.new (after (unregister_line name.now (holder_in self.old name.now)).changes v)) }
        ensures err { OnErr result (IsUnchanged self.old self.new) }
    {
        let Some(pid) = self.whereis(name) else {
            return Ok(Naming::Refused);
        };
        let pid = pid.copy()?;
        self.take(name, &pid)?;
        Ok(Naming::Served)
    }

    /// What the end of a process leaves of its name: nobody holds it, and the process has none.
    /// `AllocError` if there is no memory for what is shared with a copy, and then nothing is changed.
    pub fn free(&mut self, pid: &Pid) -> Result<(), AllocError>
        ensures ok { OnOk result (Leaves pid.now (name_in self.old pid.now) self.old self.new) }
        ensures holders { OnOk result ((v : Contents) → AreHolders self.old v → AreHolders self.new (after (name_left pid.now (name_in self.old pid.now)) v)) }
        ensures listed { OnOk result ((v : Contents) → AreListed self.old v → AreListed self.new (after (name_left pid.now (name_in self.old pid.now)) v)) }
        ensures names { OnOk result ((v : Contents) → AreBorne self.old v → AreBorne self.new (after (name_left pid.now (name_in self.old pid.now)) v)) }
        ensures err { OnErr result (IsUnchanged self.old self.new) }
    {
        let Some(name) = self.name_of(pid) else {
            return Ok(());
        };
        let name = name.copy()?;
        self.take(&name, pid)?;
        Ok(())
    }
}
