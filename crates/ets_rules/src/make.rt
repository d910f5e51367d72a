// A new table (ets manual, `new/2`).
ghost use Rattle.std.specs.FinMap.{empty};
ghost use Rattle.std.specs.Prelude.{◌≡◌, IfOk, OnOk, OnErr, map};
ghost use Rattle.ets_calls.specs.Options.{option_in};
ghost use Rattle.ets_rules.specs.Tables.{Hold, IsUnchanged};
ghost use Rattle.world_model.specs.Names.{ref_of};
ghost use Rattle.term_core.specs.Term.{meaning_of};
ghost use Rattle.world_model.specs.Cells as cells;
ghost use Rattle.world_model.specs.Cells.{Contents};
ghost use Rattle.world_model.specs.Changes.{after};
ghost use Rattle.world_model.specs.NewTables.{made};
ghost use Rattle.world_model.specs.Tables.{handle_of, table_of};

use crate::creating::create;
use crate::tables::Tables;
use ets_calls::TableOption;
use std::alloc::{AllocError, Global};
use term_core::{Atom, Pid, RefId, Term};

// The same options.
fn copies_of(alloc: Global, options: &[TableOption]) -> Result<Vec<TableOption>, AllocError>
    ensures { IfOk result (λ copies. map option_in copies.items ≡ map option_in options.now) }
{
    let mut copies = Vec::new(alloc);
    for option in options {
        copies.push(option.copy()?)?;
    }
    Ok(copies)
}

impl Tables {
    /// Makes a table for a process, with this name and these options, under the reference of this creation, and
    /// answers what finds it: its name, or else that reference. `AllocError` if there is no memory for it, and then
    /// nothing is changed (ets manual, `new/2`).
    pub fn make(
        &mut self,
        alloc: Global,
        owner: &Pid,
        id: &RefId,
        name: &Atom,
        options: &[TableOption],
    ) -> Result<Term, AllocError>
        ensures answer { IfOk result (λ answer. meaning_of answer ≡ handle_of (ref_of id.now) (table_of owner.now name.now (map option_in options.now))) }
        ensures tables { OnOk result ((v : Contents) → Hold self.old v → v (cells.Rows (ref_of id.now)) ≡ empty → Hold self.new (after (made owner.now (ref_of id.now) name.now (map option_in options.now)) v)) }
        ensures err { OnErr result (IsUnchanged self.old self.new) }
    {
        let options = copies_of(alloc, options)?;
        let created = create(alloc, owner, id, name, options)?;
        let mut changed = self.copy()?;
        changed.take(id)?;
        changed.change_each(alloc, created.changes.as_slice())?;
        *self = changed;
        Ok(created.handle)
    }
}
