// Where the tables are kept: each change of a cell of the explored world is a method here.
ghost use Rattle.std.specs.FinMap.{empty};
ghost use Rattle.std.specs.Prelude.{◌≡◌, [], IfOk, IsSome, OnOk, OnErr, Some, None, option_copied, option_map};
ghost use Rattle.ets_store.specs.Tables.{settings_in, heir_in};
ghost use Rattle.world_model.specs.Names as names;
ghost use Rattle.world_model.specs.Changes.{set_in_order, without_first};
ghost use Rattle.world_model.specs.Names.{same_ref, order_of_refs, ref_of};
ghost use Rattle.world_model.specs.Tables.{owned_by, with_heir};

use crate::entry::{entrust, hand};
use crate::name_map::NameMap;
use ets_store::{Heir, Table};
use proc_groups::Groups;
use std::alloc::{AllocError, Global};
use std::collections::{BTreeMap, BTreeSet};
use std::sync::Arc;
use term_core::{Atom, Pid, RefId};

/// The tables under their references, the references under their names, and the tables of each process. Names and
/// owners are shared until one of them is written, apart from the tables.
#[derive(Drop)]
pub(crate) struct Shelves {
    pub(crate) tables: BTreeMap<RefId, Arc<Table>>,
    pub(crate) names: Arc<NameMap>,
    pub(crate) owned: Arc<Groups<RefId>>,
}

impl Clone for Shelves {
    ghost use Rattle.ets_tables.specs.Shelves.{AreSame};

    ghost is_clone = { AreSame };

    /// The same shelves, which share the tables, the names and the owners with these.
    fn clone(&self) -> Result<Shelves, AllocError> {
        Ok(Shelves {
            tables: self.tables.clone()?,
            names: Arc::try_clone(&self.names)?,
            owned: Arc::try_clone(&self.owned)?,
        })
    }
}

impl Shelves {
    ghost use Rattle.std.specs.Borrow.{sem};
    ghost use Rattle.ets_tables.specs.inside.Lending.{LendsShelved};
    ghost use Rattle.ets_tables.specs.Shelves.{AreSame, IsAltered, IsMeant, IsOwned, table_on, rows_on, held_on, meant_on, owned_on};

    /// Empty shelves.
    pub(crate) fn new(alloc: Global) -> Result<Shelves, AllocError>
        ensures tables { IfOk result (λ begun. (t : names.Ref) → held_on begun t ≡ None) }
        ensures names { IfOk result (λ begun. (name : names.Name) → meant_on begun name ≡ None) }
        ensures owned { IfOk result (λ begun. (p : names.Pid) → owned_on begun p ≡ []) }
    {
        Ok(Shelves {
            tables: BTreeMap::new(alloc),
            names: Arc::new(alloc, NameMap::new(alloc))?,
            owned: Arc::new(alloc, Groups::new(alloc))?,
        })
    }

    /// A table is made.
    pub(crate) fn put(&mut self, alloc: Global, id: &RefId, table: Table) -> Result<(), AllocError>
        ensures ok { OnOk result (IsAltered (ref_of id.now) (λ _. Some (settings_in table)) (λ _. table.rows.rows) self.old self.new) }
        ensures err { OnErr result (AreSame self.old self.new) }
    {
        let entry = Arc::new(alloc, table)?;
        self.tables.insert(id.copy()?, entry)?;
        Ok(())
    }

    /// A table goes, with all its rows. It is answered, if there was one.
    pub(crate) fn take(&mut self, id: &RefId) -> Option<Arc<Table>>
        ensures taken { option_map (λ entry. entry.value) result ≡ held_on self.old (ref_of id.now) }
        ensures left { IsAltered (ref_of id.now) (λ _. None) (λ _. empty) self.old self.new }
    {
        self.tables.remove(id)
    }

    /// A table, if there is one, passes to another owner.
    pub(crate) fn pass(&mut self, id: &RefId, to: &Pid) -> Result<(), AllocError>
        ensures ok { OnOk result (IsAltered (ref_of id.now) (option_map (owned_by to.now)) (λ rows. rows) self.old self.new) }
        ensures err { OnErr result (AreSame self.old self.new) }
    {
        let Some(entry) = self.tables.get_mut(id) else {
            return Ok(());
        };
        hand(entry, to)?;
        Ok(())
    }

    /// A table, if there is one, has another heir.
    pub(crate) fn inherit(&mut self, id: &RefId, heir: Option<Heir>) -> Result<(), AllocError>
        ensures ok { OnOk result (IsAltered (ref_of id.now) (option_map (with_heir (heir_in heir))) (λ rows. rows) self.old self.new) }
        ensures err { OnErr result (AreSame self.old self.new) }
    {
        let Some(entry) = self.tables.get_mut(id) else {
            return Ok(());
        };
        entrust(entry, heir)?;
        Ok(())
    }

    /// A table, to be written.
    pub(crate) fn table_mut(&mut self, id: &RefId) -> Result<&mut Table, AllocError>
        requires { IsSome (table_on self.old (ref_of id.now)) }
        ensures* writes_back { sem 𝓛 (LendsShelved self.entry (ref_of id.now) result) }
        ensures table { IfOk result (λ table. Some (settings_in table.now) ≡ table_on self.old (ref_of id.now)) }
        ensures rows { IfOk result (λ table. table.now.rows.rows ≡ rows_on self.old (ref_of id.now)) }
    {
        match self.tables.get_mut(id) {
            Some(entry) => Arc::make_mut(entry),
            None => Err(AllocError),
        }
    }

    /// A name means a table.
    pub(crate) fn mean(&mut self, name: &Atom, id: &RefId) -> Result<(), AllocError>
        ensures ok { OnOk result (IsMeant name.now (Some (ref_of id.now)) self.old self.new) }
        ensures err { OnErr result (AreSame self.old self.new) }
    {
        let named = Arc::make_mut(&mut self.names)?;
        named.put(name, id)?;
        Ok(())
    }

    /// A name means nothing.
    pub(crate) fn free(&mut self, name: &Atom) -> Result<(), AllocError>
        ensures ok { OnOk result (IsMeant name.now None self.old self.new) }
        ensures err { OnErr result (AreSame self.old self.new) }
    {
        let named = Arc::make_mut(&mut self.names)?;
        named.remove(name);
        Ok(())
    }

    /// A process has a table.
    pub(crate) fn gain(&mut self, alloc: Global, pid: &Pid, id: &RefId) -> Result<(), AllocError>
        ensures ok { OnOk result (IsOwned pid.now (set_in_order order_of_refs (ref_of id.now)) self.old self.new) }
        ensures err { OnErr result (AreSame self.old self.new) }
    {
        let own_id = id.copy()?;
        let groups = Arc::make_mut(&mut self.owned)?;
        groups.add(alloc, pid, own_id)?;
        Ok(())
    }

    /// A process no longer has a table.
    pub(crate) fn lose(&mut self, pid: &Pid, id: &RefId) -> Result<(), AllocError>
        ensures ok { OnOk result (IsOwned pid.now (without_first (same_ref (ref_of id.now))) self.old self.new) }
        ensures err { OnErr result (AreSame self.old self.new) }
    {
        let groups = Arc::make_mut(&mut self.owned)?;
        groups.remove(pid, id);
        Ok(())
    }

    /// A process has no table.
    pub(crate) fn empty(&mut self, pid: &Pid) -> Result<(), AllocError>
        ensures ok { OnOk result (IsOwned pid.now (λ _. []) self.old self.new) }
        ensures err { OnErr result (AreSame self.old self.new) }
    {
        let groups = Arc::make_mut(&mut self.owned)?;
        groups.clear(pid);
        Ok(())
    }
}
