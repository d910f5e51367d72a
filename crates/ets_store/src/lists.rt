// All objects of a table, in the order of their keys (ets manual, `tab2list/1`, `info/2`), and lists of objects
// that are put in (ets manual, `insert/2`, `insert_new/2`).
ghost use Rattle.std.specs.Prelude.{◌≡◌, ◌∷◌, [], ◌-◌, ◌^◌, min, length, IfOk, OnOk, OnErr, not};
ghost use Rattle.ets_store.specs.TableRows.{with_rows, with_objects, one_has_key, with_new_objects};
ghost use Rattle.term_core.specs.Term.{meaning_of};
ghost use Rattle.world_model.specs.Rows.{tuples, all_objects};

use crate::object::Object;
use crate::objects::add_terms;
use crate::row_map::RowMap;
use crate::rows::Rows;
use std::alloc::{AllocError, Global};
use term_core::{Term, list_onto};

impl RowMap {
    // The list of all objects.
    fn all(&self, alloc: Global) -> Result<Term, AllocError>
        ensures { IfOk result (λ list. meaning_of list ≡ tuples (all_objects self.now)) }
    {
        let mut terms = Vec::new(alloc);
        for (_key, objects) in &self.entries {
            add_terms(&mut terms, objects.as_slice())?;
        }
        list_onto(alloc, terms, Term::Nil)
    }

    // How many objects there are, or `u64::MAX` where there are more.
    fn size(&self) -> u64
        ensures { result ≡ min (length (all_objects self.now)) (2 ^ 64 - 1) }
    {
        let mut count: u64 = 0;
        for (_key, objects) in &self.entries {
            count = count.saturating_add(objects.as_slice().len() as u64);
        }
        count
    }
}

impl Rows {
    /// The list of all objects, in the order of their keys, and under one key the oldest first, or `AllocError`
    /// if there is no memory for it (ets manual, `tab2list/1`).
    pub fn to_list(&self, alloc: Global) -> Result<Term, AllocError>
        ensures { IfOk result (λ list. meaning_of list ≡ tuples (all_objects self.now.rows)) }
    {
        self.map.all(alloc)
    }

    /// How many objects there are, or `u64::MAX` where there are more (ets manual, `info/2`, item `size`). It takes
    /// no memory, and as many steps as there are keys.
    pub fn size(&self) -> u64
        ensures { result ≡ min (length (all_objects self.now.rows)) (2 ^ 64 - 1) }
    {
        self.map.size()
    }

    /// Whether one of these objects has a key that is there (ets manual, `insert_new/2`). It takes no memory.
    pub fn has_one(&self, objects: &[Object]) -> bool
        ensures { result ≡ one_has_key self.now.position objects.now self.now.rows }
    {
        for object in objects {
            if self.has_key_of(object) {
                return true;
            }
        }
        false
    }

    // Whether the key that an object has is there.
    fn has_key_of(&self, object: &Object) -> bool
        ensures { result ≡ one_has_key self.now.position (object.now ∷ []) self.now.rows }
    {
        match object.part(self.position) {
            Some(key) => self.has_key(key),
            None => false,
        }
    }

    /// Puts objects in, one after the other, as `insert` does (ets manual, `insert/2`), or `AllocError` if there
    /// is no memory for them: then all is as it was, and none is put in. Several go into a copy of the rows, which
    /// takes their place when all are in.
    pub fn insert_all(&mut self, alloc: Global, objects: &[Object]) -> Result<(), AllocError>
        ensures ok { OnOk result (self.new ≡ with_rows self.old (with_objects self.old.kind self.old.position objects.now self.old.rows)) }
        ensures err { OnErr result (self.new ≡ self.old) }
    {
        if let [object] = objects {
            return self.insert(alloc, object.copy()?);
        }
        let mut written = self.copy()?;
        for object in objects {
            written.insert(alloc, object.copy()?)?;
        }
        *self = written;
        Ok(())
    }

    /// Puts objects in as `insert_all` does, where none of their keys is there before the call, and answers
    /// whether it did (ets manual, `insert_new/2`), or `AllocError` if there is no memory for them: then all is
    /// as it was, and none is put in.
    pub fn insert_new(&mut self, alloc: Global, objects: &[Object]) -> Result<bool, AllocError>
        ensures answer { IfOk result (λ is_new. is_new ≡ not (one_has_key self.old.position objects.now self.old.rows)) }
        ensures ok { OnOk result (self.new ≡ with_rows self.old (with_new_objects self.old.kind self.old.position objects.now self.old.rows)) }
        ensures err { OnErr result (self.new ≡ self.old) }
    {
        if self.has_one(objects) {
            return Ok(false);
        }
        self.insert_all(alloc, objects)?;
        Ok(true)
    }
}
