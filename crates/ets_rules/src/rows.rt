// The changes of rows of calls of tables (ets manual, each under the name of its call).
ghost use Rattle.std.specs.Prelude.{◌≡◌, ◌∷◌, [], IfOk, OnOk, option_map};
ghost use Rattle.ets_answers.specs.At.{found_at};
ghost use Rattle.ets_calls.specs.Arguments.{changes_in};
ghost use Rattle.ets_rules.specs.Changes.{row_change_in};
ghost use Rattle.ets_rules.specs.inside.Planned.{Adds, AddsRow};
ghost use Rattle.ets_store.specs.Tables.{settings_in};
ghost use Rattle.term_core.specs.Term.{meaning_of};
ghost use Rattle.world_model.specs.Changes.{RowsCleared};
ghost use Rattle.world_model.specs.Names.{ref_of};
ghost use Rattle.world_model.specs.Objects.{alters, given, removed_at, removes, stored_at, stores};
ghost use Rattle.world_model.specs.Rows as rows;
ghost use Rattle.world_model.specs.Rows.{part_at, under, with_parts};

use crate::change::{RowChange, TableChange};
use crate::changes::Changes;
use ets_store::{Object, Table};
use std::alloc::{AllocError, Global};
use term_core::{RefId, Term};

/// What a write does to the objects under a key.
pub(crate) fn write(
    id: &RefId,
    key: &Term,
    change: RowChange,
    changes: &mut Changes,
) -> Result<(), AllocError>
    ensures { OnOk result (AddsRow (ref_of id.now) (meaning_of key.now) (row_change_in change) changes.old changes.new) }
{
    changes.add(TableChange::RowWritten(id.copy()?, key.copy()?, change))
}

// An object is put in under its key, if it has one.
fn store(
    id: &RefId,
    table: &Table,
    object: &Object,
    changes: &mut Changes,
) -> Result<(), AllocError>
    ensures { OnOk result (Adds (stored_at (found_at (ref_of id.now) table.now) object.now (part_at (settings_in table.now).position object.now)) changes.old changes.new) }
{
    match object.part(table.position()) {
        Some(key) => {
            let change = RowChange::Stores(table.kind(), object.copy()?);
            write(id, key, change, changes)
        }
        None => Ok(()),
    }
}

// Objects are put in under their keys, in order.
fn store_each(
    id: &RefId,
    table: &Table,
    objects: &[Object],
    changes: &mut Changes,
) -> Result<(), AllocError>
    ensures { OnOk result (Adds (stores (found_at (ref_of id.now) table.now) objects.now) changes.old changes.new) }
{
    for object in objects {
        store(id, table, object, changes)?;
    }
    Ok(())
}

/// `insert/2` with objects that are known to be such.
pub(crate) fn store_given(
    id: &RefId,
    table: &Table,
    objects: &Option<Vec<Object>>,
    changes: &mut Changes,
) -> Result<(), AllocError>
    ensures { OnOk result (Adds (stores (found_at (ref_of id.now) table.now) (given (option_map (λ os. os.items) objects.now))) changes.old changes.new) }
{
    match objects {
        Some(objects) => store_each(id, table, objects.as_slice(), changes),
        None => Ok(()),
    }
}

// An object is taken out from under its key, if it has one.
fn remove(
    id: &RefId,
    table: &Table,
    object: &Object,
    changes: &mut Changes,
) -> Result<(), AllocError>
    ensures { OnOk result (Adds (removed_at (found_at (ref_of id.now) table.now) object.now (part_at (settings_in table.now).position object.now)) changes.old changes.new) }
{
    match object.part(table.position()) {
        Some(key) => write(id, key, RowChange::Removes(object.copy()?), changes),
        None => Ok(()),
    }
}

/// `delete_object/2` with an object that is known to be one.
pub(crate) fn remove_given(
    id: &RefId,
    table: &Table,
    object: &Option<Object>,
    changes: &mut Changes,
) -> Result<(), AllocError>
    ensures { OnOk result (Adds (removes (found_at (ref_of id.now) table.now) object.now) changes.old changes.new) }
{
    match object {
        Some(object) => remove(id, table, object, changes),
        None => Ok(()),
    }
}

/// `delete_all_objects/1`.
pub(crate) fn wipe(id: &RefId, changes: &mut Changes) -> Result<(), AllocError>
    ensures { OnOk result (Adds (RowsCleared (ref_of id.now) ∷ []) changes.old changes.new) }
{
    changes.add(TableChange::RowsCleared(id.copy()?))
}

/// `update_counter/3` and `update_counter/4`: this object is put in under the key.
pub(crate) fn count(
    id: &RefId,
    table: &Table,
    key: &Term,
    object: &Object,
    changes: &mut Changes,
) -> Result<(), AllocError>
    ensures { OnOk result (AddsRow (ref_of id.now) (meaning_of key.now) (rows.Stores (settings_in table.now).kind object.now) changes.old changes.new) }
{
    let change = RowChange::Stores(table.kind(), object.copy()?);
    write(id, key, change, changes)
}

// An object with the parts that are given.
fn with_given(
    alloc: Global,
    object: &Object,
    parts: &Option<Vec<(usize, Term)>>,
) -> Result<Object, AllocError>
    ensures { IfOk result (λ object_. object_ ≡ with_parts (given (changes_in parts.now)) object.now) }
{
    match parts {
        Some(parts) => object.with_parts(alloc, parts.as_slice()),
        None => object.copy(),
    }
}

/// `update_element/3` with parts that are known to be such: they are put into the object under the key, if there is one.
pub(crate) fn alter(
    alloc: Global,
    id: &RefId,
    table: &Table,
    key: &Term,
    parts: &Option<Vec<(usize, Term)>>,
    changes: &mut Changes,
) -> Result<(), AllocError>
    ensures { OnOk result (Adds (alters (found_at (ref_of id.now) table.now) (meaning_of key.now) (changes_in parts.now) (under table.now.rows.rows (meaning_of key.now))) changes.old changes.new) }
{
    match table.rows.objects(key).first() {
        Some(object) => {
            let change = RowChange::Stores(table.kind(), with_given(alloc, object, parts)?);
            write(id, key, change, changes)
        }
        None => Ok(()),
    }
}
