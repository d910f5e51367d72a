// Single changes of the rows of a table (ets manual, `insert/2`, `delete_object/2`, `delete/2`, `delete_all_objects/1`).
ghost use Rattle.std.specs.Prelude.{◌∷◌, [], OnOk};
ghost use Rattle.ets_rules.specs.Tables.{ChangesRow, Hold};
ghost use Rattle.world_model.specs.Names.{ref_of};
ghost use Rattle.term_core.specs.Term.{meaning_of};
ghost use Rattle.world_model.specs.Cells.{Contents};
ghost use Rattle.world_model.specs.Changes.{after, RowsCleared};
ghost use Rattle.world_model.specs.Rows.{Clears, Removes, Stores};

use crate::tables::Tables;
use ets_store::Object;
use std::alloc::{AllocError, Global};
use term_core::{RefId, Term};

impl Tables {
    /// An object is put in under a key of a table, if there is one, as the kind of the table says. `AllocError` if
    /// there is no memory for it, and then it is dropped.
    pub fn store(
        &mut self,
        alloc: Global,
        id: &RefId,
        key: &Term,
        object: Object,
    ) -> Result<(), AllocError>
        ensures { OnOk result (ChangesRow (ref_of id.now) (meaning_of key.now) (λ table. Stores table.kind object) self.old self.new) }
    {
        if self.registry.get(id).is_none() {
            return Ok(());
        }
        let table = self.registry.table_mut(id)?;
        table.rows.store(alloc, key, object)?;
        Ok(())
    }

    /// All instances of an object are taken out under a key of a table, if there is one. `AllocError` if there is no
    /// memory for the others.
    pub fn erase(
        &mut self,
        alloc: Global,
        id: &RefId,
        key: &Term,
        object: &Object,
    ) -> Result<(), AllocError>
        ensures { OnOk result (ChangesRow (ref_of id.now) (meaning_of key.now) (λ table. Removes object.now) self.old self.new) }
    {
        if self.registry.get(id).is_none() {
            return Ok(());
        }
        let table = self.registry.table_mut(id)?;
        table.rows.erase(alloc, key, object)?;
        Ok(())
    }

    /// All objects are taken out under a key of a table, if there is one. `AllocError` if there is no memory for what
    /// is shared with a copy.
    pub fn delete_key(&mut self, id: &RefId, key: &Term) -> Result<(), AllocError>
        ensures { OnOk result (ChangesRow (ref_of id.now) (meaning_of key.now) (λ table. Clears) self.old self.new) }
    {
        if self.registry.get(id).is_none() {
            return Ok(());
        }
        let table = self.registry.table_mut(id)?;
        table.rows.delete_key(key)?;
        Ok(())
    }

    /// All rows of a table go, if there is one. `AllocError` if there is no memory for what is shared with a copy.
    pub fn wipe(&mut self, alloc: Global, id: &RefId) -> Result<(), AllocError>
        ensures { OnOk result ((v : Contents) → Hold self.old v → Hold self.new (after (RowsCleared (ref_of id.now) ∷ []) v)) }
    {
        if self.registry.get(id).is_none() {
            return Ok(());
        }
        let table = self.registry.table_mut(id)?;
        table.rows.clear(alloc)?;
        Ok(())
    }
}
