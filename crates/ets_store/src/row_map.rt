// The objects under each key, in the order of keys.
ghost use Rattle.std.specs.FinMap as map;
ghost use Rattle.std.specs.Prelude.{◌≡◌, IfOk, OnOk, OnErr, IsTrue, option_copied};
ghost use Rattle.term_core.specs.Term.{meaning_of};
ghost use Rattle.world_model.specs.Calls.{has_items};
ghost use Rattle.world_model.specs.Rows.{with_row, rows_rewritten, rewritten, under, tuples, Stores, Removes};

use crate::object::Object;
use crate::objects::Objects;
use std::alloc::{AllocError, Global};
use std::collections::BTreeMap;
use std::marker::Model;
use term_core::Term;
use world_model::table::Kind;

/// The objects under each key that has any. Contracts see them as rows.
#[derive(Drop)]
pub(crate) struct RowMap {
    pub(crate) entries: BTreeMap<Term, Objects>,
}

impl Model for RowMap {
    ghost use Rattle.world_model.specs.Rows.{Rows};
    ghost use Rattle.ets_store.specs.inside.Shown.{coded_rows, rows_of, AreRising, IsTidy};

    ghost Value = { Rows };

    ghost coded = { coded_rows };

    ghost view = { λ m. rows_of m.entries.entries };

    ghost invariant = { λ m. AreRising m.entries.entries × IsTidy (rows_of m.entries.entries) };
}

impl Clone for RowMap {
    ghost is_clone = { λ a b. b ≡ a };

    /// The same rows: a copy of each key and of each object.
    fn clone(&self) -> Result<RowMap, AllocError> {
        Ok(RowMap {
            entries: self.entries.clone()?,
        })
    }
}

impl RowMap {
    /// No rows. It takes no memory.
    pub(crate) fn new(alloc: Global) -> RowMap
        ensures { result ≡ map.empty }
    {
        RowMap {
            entries: BTreeMap::new(alloc),
        }
    }

    /// The objects under a key, if it has any.
    pub(crate) fn get(&self, key: &Term) -> Option<&Objects>
        ensures { option_copied result ≡ map.get self.now (meaning_of key.now) }
    {
        self.entries.get(key)
    }

    /// Takes the objects under a key out.
    pub(crate) fn remove(&mut self, key: &Term)
        ensures { self.new ≡ map.remove self.old (meaning_of key.now) }
    {
        drop(self.entries.remove(key));
    }

    /// Puts objects, at least one, in the place of those under a key, or `AllocError` if there is no memory
    /// for a new key: then all is as it was, and the objects are dropped.
    pub(crate) fn insert(&mut self, key: Term, objects: Objects) -> Result<(), AllocError>
        requires { IsTrue (has_items objects) }
        ensures ok { OnOk result (self.new ≡ map.insert self.old (meaning_of key) objects) }
        ensures err { OnErr result (self.new ≡ self.old) }
    {
        self.entries.insert(key, objects)?;
        Ok(())
    }

    /// Puts objects in the place of those under a key, or `AllocError` if there is no memory for a new key:
    /// then all is as it was, and the objects are dropped.
    pub(crate) fn put(&mut self, key: Term, objects: Objects) -> Result<(), AllocError>
        ensures ok { OnOk result (self.new ≡ with_row (meaning_of key) objects self.old) }
        ensures err { OnErr result (self.new ≡ self.old) }
    {
        if objects.is_empty() {
            self.remove(&key);
        } else {
            self.insert(key, objects)?;
        }
        Ok(())
    }

    /// The list of the objects under a key, or `AllocError` if there is no memory for it.
    pub(crate) fn list(&self, alloc: Global, key: &Term) -> Result<Term, AllocError>
        ensures { IfOk result (λ list. meaning_of list ≡ tuples (under self.now (meaning_of key.now))) }
    {
        match self.get(key) {
            Some(there) => there.list(alloc),
            None => Ok(Term::Nil),
        }
    }

    // The objects under a key once another one is put in.
    fn with(
        &self,
        alloc: Global,
        kind: Kind,
        key: &Term,
        object: Object,
    ) -> Result<Objects, AllocError>
        ensures { IfOk result (λ objects. objects ≡ rewritten (Stores kind object) (under self.now (meaning_of key.now))) }
    {
        match self.get(key) {
            Some(there) => there.with(alloc, kind, object),
            None => Objects::one(alloc, object),
        }
    }

    // The objects under a key once an object is taken out.
    fn without(&self, alloc: Global, key: &Term, object: &Object) -> Result<Objects, AllocError>
        ensures { IfOk result (λ objects. objects ≡ rewritten (Removes object.now) (under self.now (meaning_of key.now))) }
    {
        match self.get(key) {
            Some(there) => there.without(alloc, object),
            None => Ok(Objects::new(alloc)),
        }
    }

    /// Puts an object in under a key, as the kind of the table says, or `AllocError` if there is no memory for
    /// it: then all is as it was, and the object is dropped.
    pub(crate) fn store(
        &mut self,
        alloc: Global,
        kind: Kind,
        key: Term,
        object: Object,
    ) -> Result<(), AllocError>
        ensures ok { OnOk result (self.new ≡ rows_rewritten (meaning_of key) (Stores kind object) self.old) }
        ensures err { OnErr result (self.new ≡ self.old) }
    {
        let objects = self.with(alloc, kind, &key, object)?;
        self.put(key, objects)?;
        Ok(())
    }

    /// Takes all instances of an object under a key out, or `AllocError` if there is no memory for the others:
    /// then all is as it was.
    pub(crate) fn erase(
        &mut self,
        alloc: Global,
        key: Term,
        object: &Object,
    ) -> Result<(), AllocError>
        ensures ok { OnOk result (self.new ≡ rows_rewritten (meaning_of key) (Removes object.now) self.old) }
        ensures err { OnErr result (self.new ≡ self.old) }
    {
        let objects = self.without(alloc, &key, object)?;
        self.put(key, objects)?;
        Ok(())
    }
}
