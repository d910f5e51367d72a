// The links of processes (Erlang reference manual, "Processes": "Links").
ghost use Rattle.std.specs.Prelude.{◌≡◌, [], IfOk, OnOk, OnErr, option_copied, true};
ghost use Rattle.std.specs.List.{filter, list_any};
ghost use Rattle.proc_groups.specs.Groups.{members_in, members_of};
ghost use Rattle.world_model.specs.Names as names;
ghost use Rattle.world_model.specs.Names.{same_pid};
ghost use Rattle.world_model.specs.Cells as cells;
ghost use Rattle.world_model.specs.Cells.{Contents};
ghost use Rattle.world_model.specs.Changes.{after};
ghost use Rattle.world_model.specs.Signals.{link_fate, pair_goes};
ghost use Rattle.world_model.specs.ProcessLines.{link_way, link_changes, pair_begins};
ghost use Rattle.world_model.specs.Bonds.{paired, unpaired, paired_by_way};

use crate::effect::{Effect, Sender, as_exit};
use crate::living::{Living, living_pids};
use crate::process::{Exits, Life};
use proc_groups::Groups;
use std::alloc::{AllocError, Global};
use std::collections::BTreeSet;
use std::hash::Hasher;
use std::sync::Arc;
use term_core::{Pid, Term};

/// What `link/1` results in.
#[derive(Clone, Copy, Debug, PartialEq, Eq)]
pub enum Linking {
    /// The two are linked already, or they are one process: nothing is done.
    Stands,
    /// They are linked now.
    Pairs,
    /// They are linked now, and the other one is gone: the caller, which traps exits, is to be informed.
    PairsGone,
    /// The other one is gone, and the call raises `noproc`.
    Fails,
}

/// The processes that each process is linked to. Copies share all of it until one of them is changed.
pub struct Links {
    partners: Arc<Groups<Pid>>,
}

// Dropped by a call, so that no crate above proves again how.
impl Drop for Links {
    fn drop(self) {
        let Links { partners: _ } = self;
    }
}

// Makes each of two processes a partner of the other.
fn join(partners: &mut Groups<Pid>, alloc: Global, pid: &Pid, other: &Pid) -> Result<(), AllocError>
    ensures ok { OnOk result ((r : names.Pid) → members_in partners.new r ≡ paired pid.now other.now r (members_in partners.old r)) }
    ensures err { OnErr result ((r : names.Pid) → members_in partners.new r ≡ members_in partners.old r) }
{
    let partner = pid.copy()?;
    let is_new = partners.add(alloc, pid, other.copy()?)?;
    if let Err(refused) = partners.add(alloc, other, partner) {
        partners.take_back(pid, other, is_new);
        return Err(refused);
    }
    Ok(())
}

impl Links {
    ghost use Rattle.proc_links.specs.Links.{AreLinks, ArePartnersTold, partners_in, way_of};
    ghost use Rattle.proc_links.specs.Effects.{fate_in};
    ghost use Rattle.proc_links.specs.Process.{is_alive, are_trapped};
    ghost use Rattle.term_core.specs.Term.{meaning_of};

    /// No links, or `AllocError` if there is no memory.
    pub fn new(alloc: Global) -> Result<Links, AllocError>
        ensures { IfOk result (λ links. (r : names.Pid) → partners_in links r ≡ []) }
    {
        Ok(Links {
            partners: Arc::new(alloc, Groups::new(alloc))?,
        })
    }

    /// The same links, which share memory with these, or `AllocError` where the copies can no longer be
    /// counted.
    pub fn copy(&self) -> Result<Links, AllocError>
        ensures { IfOk result (λ links. (r : names.Pid) → partners_in links r ≡ partners_in self.now r) }
    {
        Ok(Links {
            partners: Arc::try_clone(&self.partners)?,
        })
    }

    /// Whether each process has the same partners: where it is so, these agree with all contents that the others agree
    /// with. It takes no memory.
    pub fn is_same(&self, other: &Links) -> bool
        ensures same { result ≡ true → (r : names.Pid) → partners_in other.now r ≡ partners_in self.now r }
        ensures agrees { result ≡ true → (v : Contents) → AreLinks other.now v → AreLinks self.now v }
    {
        self.partners.is_same(&other.partners)
    }

    /// Feeds a hasher with each process and its partners, by which a search finds what may be the same: it gives the same
    /// for links that are. It takes no memory.
    pub fn feed<H: Hasher>(&self, state: &mut H) {
        self.partners.feed(state);
    }

    /// The processes that a process is linked to, in the order of pids; `None` where there is none. It takes no memory.
    pub fn partners(&self, pid: &Pid) -> Option<&BTreeSet<Pid>>
        ensures { members_of (option_copied result) ≡ partners_in self.now pid.now }
    {
        self.partners.of(pid)
    }

    /// Whether another process is a partner of this one. It takes no memory.
    pub fn are_linked(&self, pid: &Pid, other: &Pid) -> bool
        ensures { result ≡ list_any (same_pid other.now) (partners_in self.now pid.now) }
    {
        self.partners.has(pid, other)
    }

    /// Links two processes, each to the other, as `spawn_link/3` does and `link/1` where it pairs.
    /// `AllocError` if there is no memory, and then nothing is changed.
    pub fn pair(&mut self, alloc: Global, pid: &Pid, other: &Pid) -> Result<(), AllocError>
        ensures ok { OnOk result ((r : names.Pid) → partners_in self.new r ≡ paired pid.now other.now r (partners_in self.old r)) }
        ensures cells { OnOk result ((v : Contents) → AreLinks self.old v → AreLinks self.new (after (pair_begins pid.now other.now) v)) }
        ensures err { OnErr result ((r : names.Pid) → partners_in self.new r ≡ partners_in self.old r) }
    {
        let partners = Arc::make_mut(&mut self.partners)?;
        join(partners, alloc, pid, other)?;
        Ok(())
    }

    /// Ends the link of two processes, on both sides: `unlink/1`, and what goes with the exit signal of a
    /// link when it is delivered. `AllocError` if there is no memory for what is shared with a copy, and
    /// then nothing is changed.
    pub fn unpair(&mut self, pid: &Pid, other: &Pid) -> Result<(), AllocError>
        ensures ok { OnOk result ((r : names.Pid) → partners_in self.new r ≡ unpaired pid.now other.now r (partners_in self.old r)) }
        ensures cells { OnOk result ((v : Contents) → AreLinks self.old v → AreLinks self.new (after (pair_goes pid.now other.now) v)) }
        ensures err { OnErr result ((r : names.Pid) → partners_in self.new r ≡ partners_in self.old r) }
    {
        if !self.are_linked(pid, other) && !self.are_linked(other, pid) {
            return Ok(());
        }
        let partners = Arc::make_mut(&mut self.partners)?;
        partners.remove(pid, other);
        partners.remove(other, pid);
        Ok(())
    }

    /// What `link/1` of a process to another results in, with whether that lives and with what exit signals are to the
    /// caller. It takes no memory.
    pub fn way(&self, pid: &Pid, other: &Pid, life: Life, exits: Exits) -> Linking
        ensures { way_of result ≡ link_way pid.now other.now (partners_in self.now pid.now) (is_alive life) (are_trapped exits) }
    {
        if pid == other || self.are_linked(pid, other) {
            return Linking::Stands;
        }
        match (life, exits) {
            (Life::Lives, _) => Linking::Pairs,
            (Life::Gone, Exits::Trapped) => Linking::PairsGone,
            (Life::Gone, Exits::Untrapped) => Linking::Fails,
        }
    }

    /// `link/1` of a process to another, with whether that lives and with what exit signals are to the caller.
    /// `AllocError` if there is no memory, and then nothing is changed.
    pub fn link(
        &mut self,
        alloc: Global,
        pid: &Pid,
        other: &Pid,
        life: Life,
        exits: Exits,
    ) -> Result<Linking, AllocError>
        ensures way { IfOk result (λ linking. way_of linking ≡ link_way pid.now other.now (partners_in self.old pid.now) (is_alive life) (are_trapped exits)) }
        ensures ok { IfOk result (λ linking. (r : names.Pid) → partners_in self.new r ≡ paired_by_way (way_of linking) pid.now other.now r (partners_in self.old r)) }
        ensures cells { IfOk result (λ linking. (v : Contents) → AreLinks self.old v → AreLinks self.new (after (link_changes pid.now other.now (way_of linking)) v)) }
        ensures err { OnErr result ((r : names.Pid) → partners_in self.new r ≡ partners_in self.old r) }
    {
        let linking = self.way(pid, other, life, exits);
        match linking {
            Linking::Pairs | Linking::PairsGone => self.pair(alloc, pid, other)?,
            Linking::Stands | Linking::Fails => {}
        }
        Ok(linking)
    }

    /// What the exit signal of a link does at a process: it is dropped where the link is gone, and else it acts like
    /// one of `exit/2`, where `kill` is a reason like any other. `AllocError` if there is no memory for a message.
    pub fn on_link_exit(
        &self,
        alloc: Global,
        from: &Pid,
        to: &Pid,
        reason: &Term,
        exits: Exits,
    ) -> Result<Effect, AllocError>
        ensures { IfOk result (λ effect. fate_in effect ≡ link_fate (list_any (same_pid from.now) (partners_in self.now to.now)) (are_trapped exits) from.now (meaning_of reason.now)) }
    {
        if !self.are_linked(to, from) {
            return Ok(Effect::Dropped);
        }
        let effect = as_exit(alloc, Sender::Another, from, reason, exits)?;
        Ok(effect)
    }

    /// The processes that the end of a process informs by the exit signal of a link: its partners that live, in the
    /// order of pids. `AllocError` if there is no memory for the list.
    pub fn told<L: Living>(
        &self,
        alloc: Global,
        pid: &Pid,
        living: &L,
    ) -> Result<Vec<Pid>, AllocError>
        ensures told { IfOk result (λ told. told.items ≡ filter (L.lives living.now) (partners_in self.now pid.now)) }
        ensures cells { IfOk result (λ told. ArePartnersTold self.now (L.lives living.now) pid.now told.items) }
    {
        let told = living_pids(alloc, self.partners(pid), living)?;
        Ok(told)
    }
}
