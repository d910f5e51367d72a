// What a call or an end changes of the tables of a world, as values, and how each is done (ets manual).
ghost use Rattle.std.specs.Prelude.{◌≡◌, IfOk, OnOk};
ghost use Rattle.ets_rules.specs.Changes.{CanApply, changes_of_tables};
ghost use Rattle.ets_rules.specs.Tables.{Hold};
ghost use Rattle.ets_rules.specs.declared.change.RowChange.TheVariants.{Stores};
ghost use Rattle.ets_rules.specs.declared.change.TableChange.TheVariants.{HeirSet, RowWritten};
ghost use Rattle.ets_rules.specs.inside.Applied.{Applies};
ghost use Rattle.ets_store.specs.Tables.{heir_in};
ghost use Rattle.world_model.specs.Cells.{Contents};
ghost use Rattle.world_model.specs.Changes.{after};

use crate::tables::Tables;
use ets_calls::TableOption;
use ets_store::{Heir, Object};
use std::alloc::{AllocError, Global};
use term_core::{Atom, Pid, RefId, Term};
use world_model::table::Kind;

/// What a write does to the objects under one key of a table (ets manual, `insert/2`, `delete_object/2`, `delete/2`).
#[derive(Drop)]
pub enum RowChange {
    /// An object is put in, as tables of this kind do.
    Stores(Kind, Object),
    /// Objects that are the same as this one are taken out.
    Removes(Object),
    /// All objects are taken out.
    Clears,
}

/// A change of the tables of a world, of their names, or of who has them.
#[derive(Drop)]
pub enum TableChange {
    /// The objects under a key of a table change.
    RowWritten(RefId, Term, RowChange),
    /// All rows of a table go.
    RowsCleared(RefId),
    /// A table without rows is made for a process, with this name and these options.
    TableSet(RefId, Pid, Atom, Vec<TableOption>),
    /// A table counts as written, and is what it was.
    TableTouched(RefId),
    /// A table passes to another owner.
    OwnerSet(RefId, Pid),
    /// A table has another heir, or none.
    HeirSet(RefId, Option<Heir>),
    /// A table goes, with all its rows.
    TableRemoved(RefId),
    /// A name means a table.
    NameSet(Atom, RefId),
    /// A name means no table.
    NameCleared(Atom),
    /// A process has a table.
    OwnedAdded(Pid, RefId),
    /// A process no longer has a table.
    OwnedRemoved(Pid, RefId),
    /// A process has no tables.
    OwnedCleared(Pid),
}

// The same heir.
fn copied(heir: &Option<Heir>) -> Result<Option<Heir>, AllocError>
    ensures { IfOk result (λ copied. heir_in copied ≡ heir_in heir.now) }
{
    heir.clone()
}

impl Tables {
    // A copy of an object is put in under a key of a table, which is of this kind.
    fn store_copy(
        &mut self,
        alloc: Global,
        id: &RefId,
        key: &Term,
        _kind: Kind,
        object: &Object,
    ) -> Result<(), AllocError>
        ensures { OnOk result (Applies (RowWritten id.now key.now (Stores _kind object.now)) self.old self.new) }
    {
        let object = object.copy()?;
        self.store(alloc, id, key, object)?;
        Ok(())
    }

    // The objects under a key of a table change.
    fn rewrite(
        &mut self,
        alloc: Global,
        id: &RefId,
        key: &Term,
        change: &RowChange,
    ) -> Result<(), AllocError>
        ensures { OnOk result (Applies (RowWritten id.now key.now change.now) self.old self.new) }
    {
        match change {
            RowChange::Stores(kind, object) => self.store_copy(alloc, id, key, *kind, object),
            RowChange::Removes(object) => self.erase(alloc, id, key, object),
            RowChange::Clears => self.delete_key(id, key),
        }
    }

    // A table has a copy of another heir, or none.
    fn inherit_copy(&mut self, id: &RefId, heir: &Option<Heir>) -> Result<(), AllocError>
        ensures { OnOk result (Applies (HeirSet id.now heir.now) self.old self.new) }
    {
        let heir = copied(heir)?;
        self.inherit(id, heir)?;
        Ok(())
    }

    /// Does what a change says, where rows are of a table that is there, and of its kind, and a table is made where
    /// none is. `AllocError` if there is no memory, and then the tables may be changed in part.
    pub fn change(&mut self, alloc: Global, change: &TableChange) -> Result<(), AllocError>
        ensures { OnOk result ((v : Contents) → Hold self.old v → CanApply v (changes_of_tables change.now) → Hold self.new (after (changes_of_tables change.now) v)) }
    {
        match change {
            TableChange::RowWritten(id, key, change) => self.rewrite(alloc, id, key, change),
            TableChange::RowsCleared(id) => self.wipe(alloc, id),
            TableChange::TableSet(id, owner, name, options) => {
                self.put(alloc, owner, id, name, options.as_slice())
            }
            TableChange::TableTouched(_) => Ok(()),
            TableChange::OwnerSet(id, owner) => self.hand(id, owner),
            TableChange::HeirSet(id, heir) => self.inherit_copy(id, heir),
            TableChange::TableRemoved(id) => self.take(id),
            TableChange::NameSet(name, id) => self.mean(name, id),
            TableChange::NameCleared(name) => self.free(name),
            TableChange::OwnedAdded(pid, id) => self.gain(alloc, pid, id),
            TableChange::OwnedRemoved(pid, id) => self.lose(pid, id),
            TableChange::OwnedCleared(pid) => self.empty(pid),
        }
    }
}
