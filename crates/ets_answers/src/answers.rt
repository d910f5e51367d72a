// What a call answers (ets manual), before it writes.
ghost use Rattle.std.specs.Prelude.{◌≡◌, IfOk, map, option_map, option_copied};
ghost use Rattle.ets_calls.specs.Arguments.{increment_in};
ghost use Rattle.ets_calls.specs.Calls.{call_in};
ghost use Rattle.ets_store.specs.TableRows.{one_has_key};
ghost use Rattle.ets_store.specs.Tables.{settings_in};
ghost use Rattle.term_core.specs.Term.{meaning_of};
ghost use Rattle.world_model.specs.Objects.{given, element_answer, value_or_ok};
ghost use Rattle.world_model.specs.Rows.{parts_at, under};
ghost use Rattle.world_model.specs.Signals.{first_of};
ghost use Rattle.world_model.specs.Walks.{key_or_end};
ghost use Rattle.ets_answers.specs.At.{IsAnswerAt};
ghost use Rattle.ets_answers.specs.inside.Held.{IsHeldAnswer, IsHeldSum};

use crate::counted::counted_by;
use crate::items::{item_answer, items_answer, truth};
use crate::rules::is_bag;
use ets_calls::{Increment, TableCall};
use ets_store::{Object, Rows, Table};
use std::alloc::{AllocError, Global};
use term_core::{Term, list_onto};

/// What a call answers where no rule refuses it, or `AllocError` if there is no memory for it, or where the size or the
/// position that `info` reports has more than the 63 bits of an integer. It is what the table says before the call
/// writes.
pub fn answer(alloc: Global, table: &Table, call: &TableCall) -> Result<Term, AllocError>
    ensures { IfOk result (λ answer. IsAnswerAt table.now (call_in call.now) (meaning_of answer)) }
{
    answer_of(alloc, table, call)
}

// The same, by what the table holds.
fn answer_of(alloc: Global, table: &Table, call: &TableCall) -> Result<Term, AllocError>
    ensures { IfOk result (λ answer. IsHeldAnswer table.now (call_in call.now) (meaning_of answer)) }
{
    match call {
        TableCall::Lookup(key) => table.rows.lookup(alloc, key),
        TableCall::Member(key) => Ok(truth(table.rows.has_key(key))),
        TableCall::LookupElement(key, position) => element_answer(alloc, table, key, *position),
        TableCall::First => key_or_end(alloc, table.rows.first()),
        TableCall::Last => key_or_end(alloc, table.rows.last()),
        TableCall::Next(key) => key_or_end(alloc, table.rows.next(key)),
        TableCall::Prev(key) => key_or_end(alloc, table.rows.prev(key)),
        TableCall::ToList => table.rows.to_list(alloc),
        TableCall::Insert(_) => Ok(truth(true)),
        TableCall::InsertNew(objects) => Ok(truth(!one_is_there(&table.rows, objects))),
        TableCall::DeleteTable => Ok(truth(true)),
        TableCall::DeleteKey(_) => Ok(truth(true)),
        TableCall::DeleteObject(_) => Ok(truth(true)),
        TableCall::DeleteAll => Ok(truth(true)),
        TableCall::Take(key) => table.rows.lookup(alloc, key),
        TableCall::UpdateCounter(key, increment, default) => {
            sum_answer(alloc, table, key, increment, default)
        }
        TableCall::UpdateElement(key, _) => Ok(truth(table.rows.has_key(key))),
        TableCall::GiveAway(_, _) => Ok(truth(true)),
        TableCall::SetOptions(_) => Ok(truth(true)),
        TableCall::Info(item) => item_answer(table, alloc, *item),
        TableCall::InfoAll => items_answer(table, alloc),
    }
}

// A key, or the atom that says that no key is left.
fn key_or_end(alloc: Global, key: Option<&Term>) -> Result<Term, AllocError>
    ensures { IfOk result (λ answer. meaning_of answer ≡ key_or_end (option_map meaning_of (option_copied key.entry))) }
{
    match key {
        Some(key) => key.copy(),
        None => Term::atom(alloc, "$end_of_table"),
    }
}

/// The parts that objects have at a position, or `AllocError` if there is no memory for them.
pub(crate) fn parts_at(
    alloc: Global,
    position: usize,
    there: &[Object],
) -> Result<Vec<Term>, AllocError>
    ensures { IfOk result (λ parts. map meaning_of parts.items ≡ parts_at position there.now) }
{
    let mut parts = Vec::new(alloc);
    for object in there {
        if let Some(part) = object.part(position) {
            parts.push(part.copy()?)?;
        }
    }
    Ok(parts)
}

/// The first of several terms, or `'true'`.
pub(crate) fn first_or_ok(terms: Vec<Term>) -> Result<Term, AllocError>
    ensures { IfOk result (λ answer. meaning_of answer ≡ value_or_ok (first_of (map meaning_of terms.items))) }
{
    match terms.as_slice().first() {
        Some(term) => term.copy(),
        None => Ok(truth(true)),
    }
}

// What `lookup_element/3` answers: the element, and in a bag the list of the elements of all objects there.
fn element_answer(
    alloc: Global,
    table: &Table,
    key: &Term,
    position: Option<usize>,
) -> Result<Term, AllocError>
    ensures { IfOk result (λ answer. meaning_of answer ≡ element_answer (settings_in table.now).kind position (under table.now.rows.rows (meaning_of key.now))) }
{
    let Some(position) = position else {
        return Ok(truth(true));
    };
    let parts = parts_at(alloc, position, table.rows.objects(key))?;
    if is_bag(table.kind()) {
        return list_onto(alloc, parts, Term::Nil);
    }
    first_or_ok(parts)
}

// What `update_counter/3` and `update_counter/4` answer where they are not refused: the sum, or the list of sums.
fn sum_answer(
    alloc: Global,
    table: &Table,
    key: &Term,
    increment: &Increment,
    default: &Option<Option<Object>>,
) -> Result<Term, AllocError>
    ensures { IfOk result (λ answer. IsHeldSum table.now (meaning_of key.now) (increment_in increment.now) default.now (meaning_of answer)) }
{
    let counted = counted_by(alloc, table, key, increment, default)?;
    counted.answer.copy()
}

/// Whether one of the objects that are given has a key that is there. It takes no memory.
pub fn one_is_there(rows: &Rows, objects: &Option<Vec<Object>>) -> bool
    ensures { result ≡ one_has_key rows.now.position (given (option_map (λ os. os.items) objects.now)) rows.now.rows }
{
    match objects {
        Some(objects) => rows.has_one(objects.as_slice()),
        None => false,
    }
}
