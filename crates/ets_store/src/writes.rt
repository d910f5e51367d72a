// What the calls of a table write (ets manual). Each either does its whole work, or answers `AllocError` and
// leaves all rows as they were.
ghost use Rattle.std.specs.FinMap as map;
ghost use Rattle.std.specs.Prelude.{◌≡◌, IfOk, OnOk, OnErr, not};
ghost use Rattle.ets_store.specs.TableRows.{with_rows, with_object, with_objects, without_object, one_has_key, with_new_objects};
ghost use Rattle.term_core.specs.Term.{meaning_of};
ghost use Rattle.world_model.specs.Rows.{rows_rewritten, Stores, Removes, Clears, tuples, under};

use crate::object::Object;
use crate::row_map::RowMap;
use crate::rows::Rows;
use std::alloc::{AllocError, Global};
use std::sync::Arc;
use term_core::Term;

impl Rows {
    /// Puts an object in under its key: in a set or an ordered_set in the place of what was there, in a bag where it is
    /// not there yet, in a duplicate_bag after the others (ets manual, `insert/2`). An object that has no part at the
    /// position of keys is left out. `AllocError` comes where there is no memory for it: then all is as it was, and the
    /// object is dropped.
    pub fn insert(&mut self, alloc: Global, object: Object) -> Result<(), AllocError>
        ensures ok { OnOk result (self.new ≡ with_rows self.old (with_object self.old.kind self.old.position object self.old.rows)) }
        ensures err { OnErr result (self.new ≡ self.old) }
    {
        let Some(key) = object.part(self.position) else {
            return Ok(());
        };
        let key = key.copy()?;
        self.store(alloc, &key, object)
    }

    /// Puts an object in under a key, as the kind of the table says, or `AllocError` if there is no memory for it:
    /// then all is as it was, and the object is dropped.
    pub fn store(&mut self, alloc: Global, key: &Term, object: Object) -> Result<(), AllocError>
        ensures ok { OnOk result (self.new ≡ with_rows self.old (rows_rewritten (meaning_of key.now) (Stores self.old.kind object) self.old.rows)) }
        ensures err { OnErr result (self.new ≡ self.old) }
    {
        let own_key = key.copy()?;
        let kind = self.kind;
        let map = Arc::make_mut(&mut self.map)?;
        map.store(alloc, kind, own_key, object)?;
        Ok(())
    }

    /// Takes all instances of an object under a key out, or `AllocError` if there is no memory for the others:
    /// then all is as it was.
    pub fn erase(&mut self, alloc: Global, key: &Term, object: &Object) -> Result<(), AllocError>
        ensures ok { OnOk result (self.new ≡ with_rows self.old (rows_rewritten (meaning_of key.now) (Removes object.now) self.old.rows)) }
        ensures err { OnErr result (self.new ≡ self.old) }
    {
        let own_key = key.copy()?;
        let map = Arc::make_mut(&mut self.map)?;
        map.erase(alloc, own_key, object)?;
        Ok(())
    }

    /// Takes all objects under a key out (ets manual, `delete/2`), or `AllocError` where other holders share the
    /// rows and there is no memory for a copy: then all is as it was.
    pub fn delete_key(&mut self, key: &Term) -> Result<(), AllocError>
        ensures ok { OnOk result (self.new ≡ with_rows self.old (rows_rewritten (meaning_of key.now) Clears self.old.rows)) }
        ensures err { OnErr result (self.new ≡ self.old) }
    {
        let map = Arc::make_mut(&mut self.map)?;
        map.remove(key);
        Ok(())
    }

    /// Takes all objects out (ets manual, `delete_all_objects/1`), or `AllocError` if there is no memory for the
    /// empty rows: then all is as it was.
    pub fn clear(&mut self, alloc: Global) -> Result<(), AllocError>
        ensures ok { OnOk result (self.new ≡ with_rows self.old map.empty) }
        ensures err { OnErr result (self.new ≡ self.old) }
    {
        self.map = Arc::new(alloc, RowMap::new(alloc))?;
        Ok(())
    }

    /// Takes all objects under a key out, and answers the list of them, the oldest first (ets manual, `take/2`),
    /// or `AllocError` if there is no memory for it: then all is as it was.
    pub fn take(&mut self, alloc: Global, key: &Term) -> Result<Term, AllocError>
        ensures list { IfOk result (λ list. meaning_of list ≡ tuples (under self.old.rows (meaning_of key.now))) }
        ensures ok { OnOk result (self.new ≡ with_rows self.old (rows_rewritten (meaning_of key.now) Clears self.old.rows)) }
        ensures err { OnErr result (self.new ≡ self.old) }
    {
        let list = self.lookup(alloc, key)?;
        self.delete_key(key)?;
        Ok(list)
    }

    /// Takes all instances of an object out (ets manual, `delete_object/2`), or `AllocError` if there is no memory
    /// for what stays under its key: then all is as it was.
    pub fn delete_object(&mut self, alloc: Global, object: &Object) -> Result<(), AllocError>
        ensures ok { OnOk result (self.new ≡ with_rows self.old (without_object self.old.position object.now self.old.rows)) }
        ensures err { OnErr result (self.new ≡ self.old) }
    {
        let Some(key) = object.part(self.position) else {
            return Ok(());
        };
        self.erase(alloc, key, object)
    }
}
