// Which rows of its table a call reads, and which it writes (ets manual).
ghost use Rattle.std.specs.Prelude.{◌≡◌, ◌∷◌, [], IfOk, map, option_map};
ghost use Rattle.ets_answers.specs.At.{AreWrittenAt, found_at};
ghost use Rattle.ets_answers.specs.Touches.{touch_in};
ghost use Rattle.ets_answers.specs.inside.Held.{held_written, new_written};
ghost use Rattle.ets_calls.specs.Calls.{call_in};
ghost use Rattle.ets_store.specs.Tables.{settings_in};
ghost use Rattle.term_core.specs.Term.{meaning_of};
ghost use Rattle.world_model.specs.Names.{Ref};
ghost use Rattle.world_model.specs.Objects.{given, keys_asked};
ghost use Rattle.world_model.specs.Rows.{parts_at, under};
ghost use Rattle.world_model.specs.RowsLeft.{if_there, key_of_object};
ghost use Rattle.world_model.specs.TableLines.{rows_read};
ghost use Rattle.world_model.specs.RowFootprints.{RowsOfKeys};
ghost use Rattle.world_model.specs.Walks.{read_by_item};

use crate::answers::{one_is_there, parts_at};
use crate::rules::{caller_rule, objects_rule};
use ets_calls::TableCall;
use ets_store::{Object, Table};
use std::alloc::{AllocError, Global};
use term_core::{Pid, Term};
use world_model::table::{Class, Item};

/// Rows as a call touches them.
#[derive(Drop)]
pub enum Touched {
    /// None.
    NoRow,
    /// Those of some keys.
    RowsOfKeys(Vec<Term>),
    /// All of the table.
    EachRow,
}

/// The rows that a call of a process reads at a table that is found, whether it is refused or not, or
/// `AllocError` if there is no memory for their keys. An `insert_new/2` reads the rows of its objects' keys where
/// it is not refused.
pub fn rows_read(
    alloc: Global,
    table: &Table,
    call: &TableCall,
    caller: &Pid,
) -> Result<Touched, AllocError>
    ensures { IfOk result (λ touched. (ref : Ref) → touch_in touched ≡ rows_read caller.now (found_at ref table.now) (call_in call.now)) }
{
    match call {
        TableCall::Lookup(key) => row_of(alloc, key),
        TableCall::Member(key) => row_of(alloc, key),
        TableCall::LookupElement(key, _) => row_of(alloc, key),
        TableCall::First => Ok(Touched::EachRow),
        TableCall::Last => Ok(Touched::EachRow),
        TableCall::Next(_) => Ok(Touched::EachRow),
        TableCall::Prev(_) => Ok(Touched::EachRow),
        TableCall::ToList => Ok(Touched::EachRow),
        TableCall::Insert(_) => Ok(Touched::NoRow),
        TableCall::InsertNew(objects) => rows_asked(alloc, table, objects, caller),
        TableCall::DeleteTable => Ok(Touched::NoRow),
        TableCall::DeleteKey(key) => row_of(alloc, key),
        TableCall::DeleteObject(_) => Ok(Touched::NoRow),
        TableCall::DeleteAll => Ok(Touched::NoRow),
        TableCall::Take(key) => row_of(alloc, key),
        TableCall::UpdateCounter(key, _, _) => row_of(alloc, key),
        TableCall::UpdateElement(key, _) => row_of(alloc, key),
        TableCall::GiveAway(_, _) => Ok(Touched::NoRow),
        TableCall::SetOptions(_) => Ok(Touched::NoRow),
        TableCall::Info(item) => Ok(read_by_item(*item)),
        TableCall::InfoAll => Ok(Touched::EachRow),
    }
}

/// The rows that a call writes where no rule refuses it, or `AllocError` if there is no memory for their keys. An
/// `insert_new/2` writes none where one of its keys is there, an `update_element/3` where its key is missing.
pub fn rows_written(alloc: Global, table: &Table, call: &TableCall) -> Result<Touched, AllocError>
    ensures { IfOk result (λ touched. AreWrittenAt table.now (call_in call.now) (touch_in touched)) }
{
    written_of(alloc, table, call)
}

// The same, by what the table holds.
fn written_of(alloc: Global, table: &Table, call: &TableCall) -> Result<Touched, AllocError>
    ensures { IfOk result (λ touched. touch_in touched ≡ held_written (settings_in table.now) table.now.rows.rows (call_in call.now)) }
{
    match call {
        TableCall::Lookup(_) => Ok(Touched::NoRow),
        TableCall::Member(_) => Ok(Touched::NoRow),
        TableCall::LookupElement(_, _) => Ok(Touched::NoRow),
        TableCall::First => Ok(Touched::NoRow),
        TableCall::Last => Ok(Touched::NoRow),
        TableCall::Next(_) => Ok(Touched::NoRow),
        TableCall::Prev(_) => Ok(Touched::NoRow),
        TableCall::ToList => Ok(Touched::NoRow),
        TableCall::Insert(objects) => rows_of(alloc, table, objects),
        TableCall::InsertNew(objects) => rows_of_new(alloc, table, objects),
        TableCall::DeleteTable => Ok(Touched::EachRow),
        TableCall::DeleteKey(key) => row_of(alloc, key),
        TableCall::DeleteObject(object) => row_of_object(alloc, table, object),
        TableCall::DeleteAll => Ok(Touched::EachRow),
        TableCall::Take(key) => row_of(alloc, key),
        TableCall::UpdateCounter(key, _, _) => row_of(alloc, key),
        TableCall::UpdateElement(key, _) => row_if_there(alloc, table, key),
        TableCall::GiveAway(_, _) => Ok(Touched::NoRow),
        TableCall::SetOptions(_) => Ok(Touched::NoRow),
        TableCall::Info(_) => Ok(Touched::NoRow),
        TableCall::InfoAll => Ok(Touched::NoRow),
    }
}

// The row of a key.
fn row_of(alloc: Global, key: &Term) -> Result<Touched, AllocError>
    ensures { IfOk result (λ touched. touch_in touched ≡ RowsOfKeys (meaning_of key.now ∷ [])) }
{
    let mut keys = Vec::with_capacity(alloc, 1)?;
    keys.push(key.copy()?)?;
    Ok(Touched::RowsOfKeys(keys))
}

// The row of a key, where it is there.
fn row_if_there(alloc: Global, table: &Table, key: &Term) -> Result<Touched, AllocError>
    ensures { IfOk result (λ touched. touch_in touched ≡ if_there (under table.now.rows.rows (meaning_of key.now)) (meaning_of key.now)) }
{
    if table.rows.has_key(key) {
        return row_of(alloc, key);
    }
    Ok(Touched::NoRow)
}

// The keys of the objects that are given.
fn keys_of(
    alloc: Global,
    position: usize,
    objects: &Option<Vec<Object>>,
) -> Result<Vec<Term>, AllocError>
    ensures { IfOk result (λ keys. map meaning_of keys.items ≡ parts_at position (given (option_map (λ os. os.items) objects.now))) }
{
    match objects {
        Some(objects) => parts_at(alloc, position, objects.as_slice()),
        None => Ok(Vec::new(alloc)),
    }
}

// The rows of the objects that are given.
fn rows_of(
    alloc: Global,
    table: &Table,
    objects: &Option<Vec<Object>>,
) -> Result<Touched, AllocError>
    ensures { IfOk result (λ touched. touch_in touched ≡ RowsOfKeys (parts_at (settings_in table.now).position (given (option_map (λ os. os.items) objects.now)))) }
{
    Ok(Touched::RowsOfKeys(keys_of(alloc, table.position(), objects)?))
}

// The rows of the objects that are given, where none of their keys is there.
fn rows_of_new(
    alloc: Global,
    table: &Table,
    objects: &Option<Vec<Object>>,
) -> Result<Touched, AllocError>
    ensures { IfOk result (λ touched. touch_in touched ≡ new_written (settings_in table.now) table.now.rows.rows (given (option_map (λ os. os.items) objects.now))) }
{
    if one_is_there(&table.rows, objects) {
        return Ok(Touched::NoRow);
    }
    rows_of(alloc, table, objects)
}

// The row of the object that is given, if it has a key.
fn row_of_object(
    alloc: Global,
    table: &Table,
    object: &Option<Object>,
) -> Result<Touched, AllocError>
    ensures { IfOk result (λ touched. touch_in touched ≡ RowsOfKeys (key_of_object (settings_in table.now).position object.now)) }
{
    let Some(object) = object else {
        return Ok(Touched::RowsOfKeys(Vec::new(alloc)));
    };
    match object.part(table.position()) {
        Some(key) => row_of(alloc, key),
        None => Ok(Touched::RowsOfKeys(Vec::new(alloc))),
    }
}

// The rows that an `insert_new/2` of a process looks at.
fn rows_asked(
    alloc: Global,
    table: &Table,
    objects: &Option<Vec<Object>>,
    caller: &Pid,
) -> Result<Touched, AllocError>
    ensures { IfOk result (λ touched. (ref : Ref) → touch_in touched ≡ RowsOfKeys (keys_asked caller.now (found_at ref table.now) (option_map (λ os. os.items) objects.now))) }
{
    if caller_rule(Class::Write, table, caller).is_some() {
        return Ok(Touched::RowsOfKeys(Vec::new(alloc)));
    }
    if objects_rule(table.position(), objects).is_some() {
        return Ok(Touched::RowsOfKeys(Vec::new(alloc)));
    }
    rows_of(alloc, table, objects)
}

// The rows that are read for an item: all for the size.
fn read_by_item(item: Option<Item>) -> Touched
    ensures { touch_in result ≡ read_by_item item }
{
    match item {
        Some(Item::Size) => Touched::EachRow,
        _ => Touched::NoRow,
    }
}
