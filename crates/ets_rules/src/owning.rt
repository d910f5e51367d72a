// The changes of the owner, the heir and the name of a table (ets manual, `delete/1`, `give_away/3`, `setopts/2`).
ghost use Rattle.std.specs.Prelude.{◌∷◌, [], OnOk, map, option_map};
ghost use Rattle.ets_answers.specs.At.{found_at};
ghost use Rattle.ets_rules.specs.inside.Planned.{Adds};
ghost use Rattle.ets_store.specs.Tables.{heir_in, settings_in};
ghost use Rattle.world_model.specs.Cells as cells;
ghost use Rattle.world_model.specs.Changes.{CellTouched, HeirSet, OwnedAdded, OwnedRemoved, OwnerSet};
ghost use Rattle.world_model.specs.Ends.{name_freed};
ghost use Rattle.world_model.specs.Names.{ref_of};
ghost use Rattle.world_model.specs.Objects.{given};
ghost use Rattle.world_model.specs.Ownership.{destroyed, heirs_set};

use crate::change::TableChange;
use crate::changes::Changes;
use ets_store::{Heir, Table};
use std::alloc::AllocError;
use term_core::{Pid, RefId};

/// The name by which a table is found means nothing from now on, if there is one.
pub(crate) fn free_name(table: &Table, changes: &mut Changes) -> Result<(), AllocError>
    ensures { OnOk result (Adds (name_freed (settings_in table.now)) changes.old changes.new) }
{
    if table.is_named {
        return changes.add(TableChange::NameCleared(table.name.copy()?));
    }
    Ok(())
}

/// `delete/1`.
pub(crate) fn destroy(id: &RefId, table: &Table, changes: &mut Changes) -> Result<(), AllocError>
    ensures { OnOk result (Adds (destroyed (found_at (ref_of id.now) table.now)) changes.old changes.new) }
{
    changes.add(TableChange::TableRemoved(id.copy()?))?;
    changes.add(TableChange::OwnedRemoved(table.owner.copy()?, id.copy()?))?;
    free_name(table, changes)?;
    Ok(())
}

/// A table passes from a process to another.
pub(crate) fn pass(
    id: &RefId,
    from: &Pid,
    to: &Pid,
    changes: &mut Changes,
) -> Result<(), AllocError>
    ensures { OnOk result (Adds (OwnerSet (ref_of id.now) to.now ∷ OwnedRemoved from.now (ref_of id.now) ∷ OwnedAdded to.now (ref_of id.now) ∷ []) changes.old changes.new) }
{
    changes.add(TableChange::OwnerSet(id.copy()?, to.copy()?))?;
    changes.add(TableChange::OwnedRemoved(from.copy()?, id.copy()?))?;
    changes.add(TableChange::OwnedAdded(to.copy()?, id.copy()?))?;
    Ok(())
}

// A table has another heir, or none.
fn entrust(id: &RefId, heir: &Option<Heir>, changes: &mut Changes) -> Result<(), AllocError>
    ensures { OnOk result (Adds (HeirSet (ref_of id.now) (heir_in heir.now) ∷ []) changes.old changes.new) }
{
    let copied = heir.clone()?;
    changes.add(TableChange::HeirSet(id.copy()?, copied))?;
    Ok(())
}

// A table has each of these heirs, one after the other.
fn entrust_each(id: &RefId, heirs: &[Option<Heir>], changes: &mut Changes) -> Result<(), AllocError>
    ensures { OnOk result (Adds (map (HeirSet (ref_of id.now)) (map heir_in heirs.now)) changes.old changes.new) }
{
    for heir in heirs {
        entrust(id, heir, changes)?;
    }
    Ok(())
}

// A table counts as written.
fn touch(id: &RefId, changes: &mut Changes) -> Result<(), AllocError>
    ensures { OnOk result (Adds (CellTouched (cells.Table (ref_of id.now)) ∷ []) changes.old changes.new) }
{
    changes.add(TableChange::TableTouched(id.copy()?))
}

// `setopts/2` with these heirs: without any the table counts as written.
fn entrust_all(id: &RefId, heirs: &[Option<Heir>], changes: &mut Changes) -> Result<(), AllocError>
    ensures { OnOk result (Adds (heirs_set (ref_of id.now) (map heir_in heirs.now)) changes.old changes.new) }
{
    if heirs.is_empty() {
        return touch(id, changes);
    }
    entrust_each(id, heirs, changes)
}

/// `setopts/2` with options that are known to be such.
pub(crate) fn entrust_given(
    id: &RefId,
    heirs: &Option<Vec<Option<Heir>>>,
    changes: &mut Changes,
) -> Result<(), AllocError>
    ensures { OnOk result (Adds (heirs_set (ref_of id.now) (given (option_map (λ hs. map heir_in hs.items) heirs.now))) changes.old changes.new) }
{
    match heirs {
        Some(heirs) => entrust_all(id, heirs.as_slice(), changes),
        None => entrust_all(id, &[], changes),
    }
}
