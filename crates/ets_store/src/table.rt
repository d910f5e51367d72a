// Tables: who owns and inherits them, who may use them, and their rows (ets manual, `new/2`).
ghost use Rattle.std.specs.Prelude.{◌≡◌, IfOk};
ghost use Rattle.ets_store.specs.Tables.{settings_in};
ghost use Rattle.term_core.specs.Term.{meaning_of};

use crate::rows::Rows;
use std::alloc::AllocError;
use term_core::{Atom, Pid, Term};
use world_model::table::{Kind, Protection};

/// Who inherits a table when its owner ends, and the data that it is given then (ets manual, `new/2`, option `heir`).
#[derive(Drop)]
pub struct Heir {
    /// The process that inherits.
    pub pid: Pid,
    /// What it is given.
    pub data: Term,
}

impl Clone for Heir {
    ghost use Rattle.ets_store.specs.Tables.{IsSameHeir};

    ghost is_clone = { IsSameHeir };

    /// The same heir and data.
    fn clone(&self) -> Result<Heir, AllocError> {
        Ok(Heir {
            pid: self.pid.copy()?,
            data: self.data.copy()?,
        })
    }
}

/// A table. Its kind and the position of its keys are those of its rows.
pub struct Table {
    /// The name with which it was made.
    pub name: Atom,
    /// Whether it is found by its name.
    pub is_named: bool,
    /// The process that owns it.
    pub owner: Pid,
    /// Who inherits it, if anyone.
    pub heir: Option<Heir>,
    /// Who but the owner may read and write it.
    pub protection: Protection,
    /// Its objects.
    pub rows: Rows,
}

// Dropped by a call, so that no crate above proves again how.
impl Drop for Table {
    fn drop(self) {
        let Table {
            name: _,
            is_named: _,
            owner: _,
            heir: _,
            protection: _,
            rows: _,
        } = self;
    }
}

impl Clone for Table {
    ghost use Rattle.ets_store.specs.Tables.{IsSameTable};

    ghost is_clone = { IsSameTable };

    /// The same table, which shares its rows with this one until one of them is written.
    fn clone(&self) -> Result<Table, AllocError> {
        Ok(Table {
            name: self.name.copy()?,
            is_named: self.is_named,
            owner: self.owner.copy()?,
            heir: self.heir.clone()?,
            protection: self.protection,
            rows: self.rows.copy()?,
        })
    }
}

impl Table {
    /// How many objects it keeps under a key, and how walks go.
    pub fn kind(&self) -> Kind
        ensures { result ≡ (settings_in self.now).kind }
    {
        self.rows.kind()
    }

    /// The position of the key in each object, from 1 on.
    pub fn position(&self) -> usize
        ensures { result ≡ (settings_in self.now).position }
    {
        self.rows.position()
    }
}
