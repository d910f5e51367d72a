// The tables of a world (ets manual, "Description" and `new/2`).
ghost use Rattle.std.specs.FinMap.{empty};
ghost use Rattle.std.specs.Prelude.{◌≡◌, ◌∷◌, [], IfOk, IsSome, OnOk, OnErr, Some, None, map, option_copied, option_map};
ghost use Rattle.ets_store.specs.Tables.{settings_in, heir_in};
ghost use Rattle.proc_groups.specs.Groups.{members_of};
ghost use Rattle.world_model.specs.Names.{ref_of};
ghost use Rattle.world_model.specs.Names as names;
ghost use Rattle.world_model.specs.Cells as cells;
ghost use Rattle.world_model.specs.Cells.{Contents};
ghost use Rattle.world_model.specs.Changes.{after, OwnedCleared, TableNameCleared, OwnedAdded, TableRemoved, HeirSet, OwnedRemoved, TableNameSet, OwnerSet, RowsCleared};

use crate::shelves::Shelves;
use ets_store::{Heir, Table};
use std::alloc::{AllocError, Global};
use std::collections::BTreeSet;
use std::hash::{Hash, Hasher};
use std::sync::Arc;
use term_core::{Atom, Pid, RefId};

/// All tables, each under the reference of its creation, the names under which tables are found, and the tables
/// of each process. Copies share all of it until one of them is written: then the shelves are copied, and of
/// the tables only the one that is written.
pub struct Registry {
    pub(crate) shelves: Arc<Shelves>,
}

// Dropped by a call, so that no crate above proves again how.
impl Drop for Registry {
    fn drop(self) {
        let Registry { shelves: _ } = self;
    }
}

impl Registry {
    ghost use Rattle.std.specs.Borrow.{sem};
    ghost use Rattle.ets_tables.specs.Lending.{LendsTable};
    ghost use Rattle.ets_tables.specs.Tables.{AreTables, IsUnchanged, IsTableAdded, held_at, table_at, rows_at, meant_by, owned_by};

    /// No tables, or `AllocError` if there is no memory.
    pub fn new(alloc: Global) -> Result<Registry, AllocError>
        ensures tables { IfOk result (λ begun. (t : names.Ref) → held_at begun t ≡ None) }
        ensures names { IfOk result (λ begun. (name : names.Name) → meant_by begun name ≡ None) }
        ensures owned { IfOk result (λ begun. (p : names.Pid) → owned_by begun p ≡ []) }
    {
        Ok(Registry {
            shelves: Arc::new(alloc, Shelves::new(alloc)?)?,
        })
    }

    /// The same tables, which share memory with these, or `AllocError` where the copies can no longer be
    /// counted.
    pub fn copy(&self) -> Result<Registry, AllocError>
        ensures { IfOk result (λ copied. IsUnchanged self.now copied) }
    {
        Ok(Registry {
            shelves: Arc::try_clone(&self.shelves)?,
        })
    }

    /// The table of a reference, or `None` where it has none. It takes no memory.
    pub fn get(&self, id: &RefId) -> Option<&Table>
        ensures { option_copied result ≡ held_at self.now (ref_of id.now) }
    {
        match self.shelves.tables.get(id) {
            Some(entry) => Some(entry),
            None => None,
        }
    }

    /// The reference of the table that a name means, or `None` where it means none (ets manual, `whereis/1`). It
    /// takes no memory.
    pub fn named(&self, name: &Atom) -> Option<&RefId>
        ensures { option_map ref_of (option_copied result) ≡ meant_by self.now name.now }
    {
        self.shelves.names.get(name)
    }

    /// The references of the tables of a process, in order, or `None` where it has none. It takes no memory.
    pub fn owned(&self, pid: &Pid) -> Option<&BTreeSet<RefId>>
        ensures { map ref_of (members_of (option_copied result)) ≡ owned_by self.now pid.now }
    {
        self.shelves.owned.of(pid)
    }

    /// Gives the table of a reference, if there is one, another heir, or none (ets manual, `setopts/2`).
    /// `AllocError` if there is no memory for what is shared with a copy: then nothing is changed, and the heir is
    /// dropped.
    pub fn inherit(&mut self, id: &RefId, heir: Option<Heir>) -> Result<(), AllocError>
        ensures ok { OnOk result ((v : Contents) → AreTables self.old v → AreTables self.new (after (HeirSet (ref_of id.now) (heir_in heir) ∷ []) v)) }
        ensures err { OnErr result (IsUnchanged self.old self.new) }
    {
        let shelves = Arc::make_mut(&mut self.shelves)?;
        shelves.inherit(id, heir)?;
        Ok(())
    }

    /// Puts a new table, without rows, under its reference, which finds none. `AllocError` if there is no memory: then
    /// nothing is changed, and the table is dropped.
    pub fn put(&mut self, alloc: Global, id: &RefId, table: Table) -> Result<(), AllocError>
        ensures ok { OnOk result (IsTableAdded (ref_of id.now) table self.old self.new) }
        ensures err { OnErr result (IsUnchanged self.old self.new) }
    {
        let shelves = Arc::make_mut(&mut self.shelves)?;
        shelves.put(alloc, id, table)?;
        Ok(())
    }

    /// Makes a process the owner of the table of a reference, if there is one. `AllocError` if there is no memory for
    /// what is shared with a copy: then nothing is changed.
    pub fn hand(&mut self, id: &RefId, owner: &Pid) -> Result<(), AllocError>
        ensures ok { OnOk result ((v : Contents) → AreTables self.old v → AreTables self.new (after (OwnerSet (ref_of id.now) owner.now ∷ []) v)) }
        ensures err { OnErr result (IsUnchanged self.old self.new) }
    {
        let shelves = Arc::make_mut(&mut self.shelves)?;
        shelves.pass(id, owner)?;
        Ok(())
    }

    /// Takes the table of a reference away, if there is one, with its rows. `AllocError` if there is no memory for what
    /// is shared with a copy: then nothing is changed.
    pub fn take(&mut self, id: &RefId) -> Result<(), AllocError>
        ensures ok { OnOk result ((v : Contents) → AreTables self.old v → AreTables self.new (after (TableRemoved (ref_of id.now) ∷ RowsCleared (ref_of id.now) ∷ []) v)) }
        ensures err { OnErr result (IsUnchanged self.old self.new) }
    {
        let shelves = Arc::make_mut(&mut self.shelves)?;
        drop(shelves.take(id));
        Ok(())
    }

    /// A name means the table of a reference. `AllocError` if there is no memory: then nothing is changed.
    pub fn mean(&mut self, name: &Atom, id: &RefId) -> Result<(), AllocError>
        ensures ok { OnOk result ((v : Contents) → AreTables self.old v → AreTables self.new (after (TableNameSet name.now (ref_of id.now) ∷ []) v)) }
        ensures err { OnErr result (IsUnchanged self.old self.new) }
    {
        let shelves = Arc::make_mut(&mut self.shelves)?;
        shelves.mean(name, id)?;
        Ok(())
    }

    /// A name means no table. `AllocError` if there is no memory for what is shared with a copy: then nothing is
    /// changed.
    pub fn free(&mut self, name: &Atom) -> Result<(), AllocError>
        ensures ok { OnOk result ((v : Contents) → AreTables self.old v → AreTables self.new (after (TableNameCleared name.now ∷ []) v)) }
        ensures err { OnErr result (IsUnchanged self.old self.new) }
    {
        let shelves = Arc::make_mut(&mut self.shelves)?;
        shelves.free(name)?;
        Ok(())
    }

    /// A process has the table of a reference. `AllocError` if there is no memory: then nothing is changed.
    pub fn gain(&mut self, alloc: Global, pid: &Pid, id: &RefId) -> Result<(), AllocError>
        ensures ok { OnOk result ((v : Contents) → AreTables self.old v → AreTables self.new (after (OwnedAdded pid.now (ref_of id.now) ∷ []) v)) }
        ensures err { OnErr result (IsUnchanged self.old self.new) }
    {
        let shelves = Arc::make_mut(&mut self.shelves)?;
        shelves.gain(alloc, pid, id)?;
        Ok(())
    }

    /// A process no longer has the table of a reference. `AllocError` if there is no memory for what is shared with a
    /// copy: then nothing is changed.
    pub fn lose(&mut self, pid: &Pid, id: &RefId) -> Result<(), AllocError>
        ensures ok { OnOk result ((v : Contents) → AreTables self.old v → AreTables self.new (after (OwnedRemoved pid.now (ref_of id.now) ∷ []) v)) }
        ensures err { OnErr result (IsUnchanged self.old self.new) }
    {
        let shelves = Arc::make_mut(&mut self.shelves)?;
        shelves.lose(pid, id)?;
        Ok(())
    }

    /// A process has no tables. Where it has none, nothing is copied or changed. `AllocError` if there is no memory for
    /// what is shared with a copy: then nothing is changed.
    pub fn empty(&mut self, pid: &Pid) -> Result<(), AllocError>
        ensures ok { OnOk result ((v : Contents) → AreTables self.old v → AreTables self.new (after (OwnedCleared pid.now ∷ []) v)) }
        ensures err { OnErr result (IsUnchanged self.old self.new) }
    {
        if self.owned(pid).is_none() {
            return Ok(());
        }
        let shelves = Arc::make_mut(&mut self.shelves)?;
        shelves.empty(pid)?;
        Ok(())
    }

    /// The table of a reference, which is there, to be written: what it is left as takes its place then. `AllocError`
    /// if there is no memory for what is shared with a copy: then nothing is changed.
    pub fn table_mut(&mut self, id: &RefId) -> Result<&mut Table, AllocError>
        requires { IsSome (table_at self.old (ref_of id.now)) }
        ensures* writes_back { sem 𝓛 (LendsTable self.entry (ref_of id.now) result) }
        ensures table { IfOk result (λ table. Some (settings_in table.now) ≡ table_at self.old (ref_of id.now)) }
        ensures rows { IfOk result (λ table. table.now.rows.rows ≡ rows_at self.old (ref_of id.now)) }
    {
        let shelves = Arc::make_mut(&mut self.shelves)?;
        shelves.table_mut(id)
    }

    /// Feeds a hasher with the owner and the rows of each table, by which a search finds what may be the same: it gives
    /// the same for registries that are. It takes no memory.
    pub fn feed<H: Hasher>(&self, state: &mut H) {
        for (_, table) in self.shelves.tables.iter() {
            table.owner.hash(state);
            table.rows.feed(state);
        }
    }
}
