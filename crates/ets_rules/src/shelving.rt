// Single changes of tables, of their names and of who has them (ets manual, `new/2`, `delete/1`, `give_away/3`).
ghost use Rattle.std.specs.Prelude.{◌∷◌, [], OnOk, OnErr, map};
ghost use Rattle.ets_calls.specs.Options.{option_in};
ghost use Rattle.ets_rules.specs.Tables.{AddsTable, Hold, IsUnchanged};
ghost use Rattle.ets_store.specs.Tables.{heir_in};
ghost use Rattle.world_model.specs.Names.{ref_of};
ghost use Rattle.world_model.specs.Cells.{Contents};
ghost use Rattle.world_model.specs.Changes.{after, OwnedCleared, TableNameCleared, OwnedAdded, TableRemoved, HeirSet, OwnedRemoved, TableNameSet, OwnerSet, RowsCleared};
ghost use Rattle.world_model.specs.Tables as settings;

use crate::tables::Tables;
use ets_calls::TableOption;
use ets_calls::settings::table_of;
use ets_store::Heir;
use std::alloc::{AllocError, Global};
use term_core::{Atom, Pid, RefId};

impl Tables {
    /// A table without rows is made for a process, with this name and these options, under a reference that finds
    /// none. `AllocError` if there is no memory for it, and then nothing is changed.
    pub fn put(
        &mut self,
        alloc: Global,
        owner: &Pid,
        id: &RefId,
        name: &Atom,
        options: &[TableOption],
    ) -> Result<(), AllocError>
        ensures ok { OnOk result (AddsTable (ref_of id.now) (settings.table_of owner.now name.now (map option_in options.now)) self.old self.new) }
        ensures err { OnErr result (IsUnchanged self.old self.new) }
    {
        let table = table_of(alloc, owner, name, options)?;
        self.registry.put(alloc, id, table)?;
        Ok(())
    }

    /// A table, if there is one, passes to another owner. `AllocError` if there is no memory for what is shared with a
    /// copy, and then nothing is changed.
    pub fn hand(&mut self, id: &RefId, to: &Pid) -> Result<(), AllocError>
        ensures ok { OnOk result ((v : Contents) → Hold self.old v → Hold self.new (after (OwnerSet (ref_of id.now) to.now ∷ []) v)) }
        ensures err { OnErr result (IsUnchanged self.old self.new) }
    {
        self.registry.hand(id, to)?;
        Ok(())
    }

    /// A table, if there is one, has another heir, or none. `AllocError` if there is no memory for what is shared with
    /// a copy: then nothing is changed, and the heir is dropped.
    pub fn inherit(&mut self, id: &RefId, heir: Option<Heir>) -> Result<(), AllocError>
        ensures ok { OnOk result ((v : Contents) → Hold self.old v → Hold self.new (after (HeirSet (ref_of id.now) (heir_in heir) ∷ []) v)) }
        ensures err { OnErr result (IsUnchanged self.old self.new) }
    {
        self.registry.inherit(id, heir)?;
        Ok(())
    }

    /// A table, if there is one, goes with all its rows. `AllocError` if there is no memory for what is shared with a
    /// copy, and then nothing is changed.
    pub fn take(&mut self, id: &RefId) -> Result<(), AllocError>
        ensures ok { OnOk result ((v : Contents) → Hold self.old v → Hold self.new (after (TableRemoved (ref_of id.now) ∷ RowsCleared (ref_of id.now) ∷ []) v)) }
        ensures err { OnErr result (IsUnchanged self.old self.new) }
    {
        self.registry.take(id)?;
        Ok(())
    }

    /// A name means a table. `AllocError` if there is no memory, and then nothing is changed.
    pub fn mean(&mut self, name: &Atom, id: &RefId) -> Result<(), AllocError>
        ensures ok { OnOk result ((v : Contents) → Hold self.old v → Hold self.new (after (TableNameSet name.now (ref_of id.now) ∷ []) v)) }
        ensures err { OnErr result (IsUnchanged self.old self.new) }
    {
        self.registry.mean(name, id)?;
        Ok(())
    }

    /// A name means no table. `AllocError` if there is no memory for what is shared with a copy, and then nothing is
    /// changed.
    pub fn free(&mut self, name: &Atom) -> Result<(), AllocError>
        ensures ok { OnOk result ((v : Contents) → Hold self.old v → Hold self.new (after (TableNameCleared name.now ∷ []) v)) }
        ensures err { OnErr result (IsUnchanged self.old self.new) }
    {
        self.registry.free(name)?;
        Ok(())
    }

    /// A process has a table. `AllocError` if there is no memory, and then nothing is changed.
    pub fn gain(&mut self, alloc: Global, pid: &Pid, id: &RefId) -> Result<(), AllocError>
        ensures ok { OnOk result ((v : Contents) → Hold self.old v → Hold self.new (after (OwnedAdded pid.now (ref_of id.now) ∷ []) v)) }
        ensures err { OnErr result (IsUnchanged self.old self.new) }
    {
        self.registry.gain(alloc, pid, id)?;
        Ok(())
    }

    /// A process no longer has a table. `AllocError` if there is no memory for what is shared with a copy, and then
    /// nothing is changed.
    pub fn lose(&mut self, pid: &Pid, id: &RefId) -> Result<(), AllocError>
        ensures ok { OnOk result ((v : Contents) → Hold self.old v → Hold self.new (after (OwnedRemoved pid.now (ref_of id.now) ∷ []) v)) }
        ensures err { OnErr result (IsUnchanged self.old self.new) }
    {
        self.registry.lose(pid, id)?;
        Ok(())
    }

    /// A process has no tables. Where it has none, nothing is copied or changed. `AllocError` if there is no memory for
    /// what is shared with a copy, and then nothing is changed.
    pub fn empty(&mut self, pid: &Pid) -> Result<(), AllocError>
        ensures ok { OnOk result ((v : Contents) → Hold self.old v → Hold self.new (after (OwnedCleared pid.now ∷ []) v)) }
        ensures err { OnErr result (IsUnchanged self.old self.new) }
    {
        self.registry.empty(pid)?;
        Ok(())
    }
}
