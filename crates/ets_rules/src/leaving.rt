// What becomes of a table of a process that ends (ets manual, `new/2`, option `heir`).
ghost use Rattle.std.specs.Prelude.{◌≡◌, ◌∷◌, [], IfOk, None, Some, option_copied, option_map};
ghost use Rattle.ets_rules.specs.Plans.{PassesOn, planned_by};
ghost use Rattle.ets_store.specs.Tables.{heir_in, settings_in};
ghost use Rattle.world_model.specs.Cells.{Contents};
ghost use Rattle.world_model.specs.Ends.{passed, table_passes};
ghost use Rattle.world_model.specs.Names as names;
ghost use Rattle.world_model.specs.Names.{ref_of};

use crate::change::TableChange;
use crate::changes::Changes;
use crate::owning::free_name;
use ets_store::{Heir, Table};
use ets_tables::{Transfer, transfer_message};
use std::alloc::{AllocError, Global};
use term_core::{Pid, RefId};

/// What becomes of a table whose owner ends.
#[derive(Drop)]
pub struct Passed {
    /// The changes, one after the other.
    pub changes: Vec<TableChange>,
    /// The message to its heir, if it goes to one, which the process that ends puts after the changes.
    pub transfer: Option<Transfer>,
}

// A table goes, with all its rows.
fn goes(alloc: Global, id: &RefId, table: &Table) -> Result<Passed, AllocError>
    ensures { IfOk result (λ left. (p : names.Pid) → planned_by p left.changes.items left.transfer ≡ passed p (ref_of id.now) (settings_in table.now) None) }
{
    let mut changes = Changes::new(alloc);
    changes.add(TableChange::TableRemoved(id.copy()?))?;
    free_name(table, &mut changes)?;
    Ok(Passed {
        changes: changes.list,
        transfer: None,
    })
}

// A table passes to its heir, which is informed.
fn passes(
    alloc: Global,
    pid: &Pid,
    id: &RefId,
    table: &Table,
    heir: &Heir,
) -> Result<Passed, AllocError>
    ensures { IfOk result (λ left. planned_by pid.now left.changes.items left.transfer ≡ passed pid.now (ref_of id.now) (settings_in table.now) (heir_in (Some heir.now))) }
{
    let mut changes = Changes::new(alloc);
    changes.add(TableChange::OwnerSet(id.copy()?, heir.pid.copy()?))?;
    changes.add(TableChange::OwnedAdded(heir.pid.copy()?, id.copy()?))?;
    let message = transfer_message(alloc, id, table, pid, &heir.data)?;
    let transfer = Transfer {
        to: heir.pid.copy()?,
        message,
    };
    Ok(Passed {
        changes: changes.list,
        transfer: Some(transfer),
    })
}

// A table goes to its heir, if that lives, or goes.
fn passes_or_goes(
    alloc: Global,
    pid: &Pid,
    id: &RefId,
    table: &Table,
    heir_lives: bool,
) -> Result<Passed, AllocError>
    ensures { IfOk result (λ left. PassesOn heir_lives pid.now (ref_of id.now) (Some (settings_in table.now)) left.changes.items left.transfer) }
{
    let Some(heir) = &table.heir else {
        return goes(alloc, id, table);
    };
    if heir_lives {
        return passes(alloc, pid, id, table, heir);
    }
    goes(alloc, id, table)
}

// A table that is gone stays gone.
fn stays_gone(alloc: Global, id: &RefId) -> Result<Passed, AllocError>
    ensures { IfOk result (λ left. (v : Contents) (p : names.Pid) → planned_by p left.changes.items left.transfer ≡ table_passes v p (ref_of id.now) None) }
{
    let mut changes = Changes::new(alloc);
    changes.add(TableChange::TableRemoved(id.copy()?))?;
    Ok(Passed {
        changes: changes.list,
        transfer: None,
    })
}

/// What becomes of the table of a reference, if there is one, when the process that has it ends: it goes to its heir, if
/// it has one that lives, and is else destroyed with its rows, and its name means nothing then. `AllocError` if there is
/// no memory.
pub fn pass_on(
    alloc: Global,
    pid: &Pid,
    id: &RefId,
    table: Option<&Table>,
    heir_lives: bool,
) -> Result<Passed, AllocError>
    ensures { IfOk result (λ left. PassesOn heir_lives pid.now (ref_of id.now) (option_map settings_in (option_copied table.entry)) left.changes.items left.transfer) }
{
    match table {
        Some(table) => passes_or_goes(alloc, pid, id, table, heir_lives),
        None => stays_gone(alloc, id),
    }
}
