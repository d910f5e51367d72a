// The rows of a table.
ghost use Rattle.std.specs.FinMap as map;
ghost use Rattle.std.specs.Prelude.{◌≡◌, IfOk, OnOk, OnErr, IsTrue, option_copied};
ghost use Rattle.term_core.specs.Term.{meaning_of};
ghost use Rattle.world_model.specs.Calls.{has_items};
ghost use Rattle.world_model.specs.Rows.{tuples, under};

use crate::object::Object;
use crate::objects::Objects;
use crate::row_map::RowMap;
use std::alloc::{AllocError, Global};
use std::hash::Hasher;
use std::marker::Model;
use std::sync::Arc;
use term_core::Term;
use world_model::table::Kind;

/// The objects of a table under their keys, with the kind of the table and the position of its keys. Copies
/// share all rows until one of them is written.
pub struct Rows {
    pub(crate) kind: Kind,
    pub(crate) position: usize,
    pub(crate) map: Arc<RowMap>,
}

// Dropped by a call, so that no crate above proves again how.
impl Drop for Rows {
    fn drop(self) {
        let Rows {
            kind: _,
            position: _,
            map: _,
        } = self;
    }
}

impl Model for Rows {
    ghost use Rattle.ets_store.specs.TableRows.{TableRows, coded_table_rows};

    ghost Value = { TableRows };

    ghost coded = { coded_table_rows };

    ghost view = { λ r. record { kind = r.kind; position = r.position; rows = r.map.value } };
}

impl Rows {
    /// The rows of a new table, or `AllocError` if there is no memory for it (ets manual, `new/2`).
    pub fn new(alloc: Global, kind: Kind, position: usize) -> Result<Rows, AllocError>
        ensures { IfOk result (λ rows. rows ≡ record { kind = kind; position = position; rows = map.empty }) }
    {
        Ok(Rows {
            kind,
            position,
            map: Arc::new(alloc, RowMap::new(alloc))?,
        })
    }

    /// The same rows, or `AllocError` where their copies can no longer be counted. It is one step, whatever the
    /// number of rows.
    pub fn copy(&self) -> Result<Rows, AllocError>
        ensures { IfOk result (λ copied. copied ≡ self.now) }
    {
        Ok(Rows {
            kind: self.kind,
            position: self.position,
            map: Arc::try_clone(&self.map)?,
        })
    }

    /// The kind of the table.
    pub fn kind(&self) -> Kind
        ensures { result ≡ self.now.kind }
    {
        self.kind
    }

    /// The position of the key in each object, from 1 on.
    pub fn position(&self) -> usize
        ensures { result ≡ self.now.position }
    {
        self.position
    }

    /// The objects under a key, the oldest first: those that `lookup/2` answers. It takes no memory.
    pub fn objects(&self, key: &Term) -> &[Object]
        ensures { result.now ≡ under self.now.rows (meaning_of key.now) }
    {
        match self.map.get(key) {
            Some(objects) => objects.as_slice(),
            None => &[],
        }
    }

    /// Whether there is an object under a key (ets manual, `member/2`). It takes no memory.
    pub fn has_key(&self, key: &Term) -> bool
        ensures { result ≡ has_items (under self.now.rows (meaning_of key.now)) }
    {
        !self.objects(key).is_empty()
    }

    /// The list of the objects under a key, the oldest first, or `AllocError` if there is no memory for it
    /// (ets manual, `lookup/2`).
    pub fn lookup(&self, alloc: Global, key: &Term) -> Result<Term, AllocError>
        ensures { IfOk result (λ list. meaning_of list ≡ tuples (under self.now.rows (meaning_of key.now))) }
    {
        self.map.list(alloc, key)
    }

    /// Feeds a hasher with the objects under each key, by which a search finds what may be the same: it gives the same for
    /// rows that are. It takes no memory.
    pub fn feed<H: Hasher>(&self, state: &mut H) {
        for (_, objects) in self.map.entries.iter() {
            objects.feed(state);
        }
    }
}
