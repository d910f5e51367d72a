// What a call that no rule refuses answers, changes and sends at the table that it finds (ets manual, each under the name
// of its call).
ghost use Rattle.std.specs.Prelude.{◌≡◌, Some, true, not, IfOk, OnOk, option_map};
ghost use Rattle.ets_answers.specs.At.{found_at};
ghost use Rattle.ets_calls.specs.Arguments.{changes_in, increment_in};
ghost use Rattle.ets_calls.specs.Calls.{call_in};
ghost use Rattle.ets_rules.specs.Plans.{OfServedLine, planned_by};
ghost use Rattle.ets_rules.specs.Tables.{found_of};
ghost use Rattle.ets_rules.specs.inside.Planned.{Adds, HasAnswer, HasChanges, OfLine, StoresNew, reads_no_row};
ghost use Rattle.ets_store.specs.TableRows.{one_has_key};
ghost use Rattle.term_core.specs.Term.{meaning_of};
ghost use Rattle.world_model.specs.Calls as calls;
ghost use Rattle.world_model.specs.Names.{ref_of};
ghost use Rattle.world_model.specs.Objects.{given};
ghost use Rattle.world_model.specs.Ownership.{gives_to};
ghost use Rattle.world_model.specs.Terms.{ok, truth};

use crate::change::{RowChange, TableChange};
use crate::changes::Changes;
use crate::found::FoundTable;
use crate::owning::{destroy, entrust_given, pass};
use crate::rows::{alter, count, remove_given, store_given, wipe, write};
use ets_answers::{answer, counted_by, one_is_there};
use ets_calls::{Increment, TableCall};
use ets_store::{Object, Table};
use ets_tables::{Transfer, transfer_message};
use std::alloc::{AllocError, Global};
use term_core::{Pid, RefId, Term, Word};

/// What a call that is served answers, what it changes, and what it sends to another process, if anything.
#[derive(Drop)]
pub struct Served {
    /// The answer.
    pub answer: Term,
    /// The changes, one after the other.
    pub changes: Vec<TableChange>,
    /// The message to the new owner of a table that is given away, which its owner puts after the changes.
    pub transfer: Option<Transfer>,
}

// `give_away/3` to this process: the table passes, and its new owner is informed.
fn give(
    alloc: Global,
    id: &RefId,
    table: &Table,
    to: &Pid,
    gift: &Term,
) -> Result<Served, AllocError>
    ensures answer { IfOk result (λ served. meaning_of served.answer ≡ ok) }
    ensures changes { IfOk result (λ served. planned_by table.now.owner served.changes.items served.transfer ≡ gives_to (found_at (ref_of id.now) table.now) (Some to.now) (meaning_of gift.now)) }
{
    let mut changes = Changes::new(alloc);
    pass(id, &table.owner, to, &mut changes)?;
    let message = transfer_message(alloc, id, table, &table.owner, gift)?;
    let transfer = Transfer {
        to: to.copy()?,
        message,
    };
    Ok(Served {
        answer: Term::word(Word::True),
        changes: changes.list,
        transfer: Some(transfer),
    })
}

// `give_away/3` with a target that is known to be a process.
fn give_if(
    alloc: Global,
    id: &RefId,
    table: &Table,
    to: &Option<Pid>,
    gift: &Term,
) -> Result<Served, AllocError>
    ensures answer { IfOk result (λ served. meaning_of served.answer ≡ ok) }
    ensures changes { IfOk result (λ served. planned_by table.now.owner served.changes.items served.transfer ≡ gives_to (found_at (ref_of id.now) table.now) to.now (meaning_of gift.now)) }
{
    match to {
        Some(to) => give(alloc, id, table, to, gift),
        None => Ok(Served {
            answer: Term::word(Word::True),
            changes: Vec::new(alloc),
            transfer: None,
        }),
    }
}

// `insert_new/2`: the objects are put in where none of their keys is there, and that is what it answers.
fn insert_new(
    alloc: Global,
    id: &RefId,
    table: &Table,
    objects: &Option<Vec<Object>>,
) -> Result<Served, AllocError>
    ensures answer { IfOk result (λ served. meaning_of served.answer ≡ truth (not (one_has_key table.now.rows.position (given (option_map (λ os. os.items) objects.now)) table.now.rows.rows))) }
    ensures changes { IfOk result (λ served. StoresNew table.now (ref_of id.now) (given (option_map (λ os. os.items) objects.now)) (planned_by table.now.owner served.changes.items served.transfer)) }
{
    let mut changes = Changes::new(alloc);
    if one_is_there(&table.rows, objects) {
        return Ok(Served {
            answer: Term::word(Word::False),
            changes: changes.list,
            transfer: None,
        });
    }
    store_given(id, table, objects, &mut changes)?;
    Ok(Served {
        answer: Term::word(Word::True),
        changes: changes.list,
        transfer: None,
    })
}

// `update_counter/3` and `update_counter/4`: the object with the sums is put in the place of what was there.
fn count_given(
    alloc: Global,
    found: FoundTable<'_>,
    key: &Term,
    increment: &Increment,
    default: &Option<Option<Object>>,
) -> Result<Served, AllocError>
    ensures answer { IfOk result (λ served. HasAnswer found.entry (calls.UpdateCounter (meaning_of key.now) (increment_in increment.now) default.now) (meaning_of served.answer)) }
    ensures changes { IfOk result (λ served. HasChanges found.entry (calls.UpdateCounter (meaning_of key.now) (increment_in increment.now) default.now) served.changes.items served.transfer) }
{
    let counted = counted_by(alloc, found.table, key, increment, default)?;
    let mut changes = Changes::new(alloc);
    count(found.id, found.table, key, &counted.object, &mut changes)?;
    Ok(Served {
        answer: counted.answer.copy()?,
        changes: changes.list,
        transfer: None,
    })
}

// `update_element/3`: the object with the parts is put in the place of the one that was there, and whether one was is what
// it answers.
fn alter_given(
    alloc: Global,
    found: FoundTable<'_>,
    key: &Term,
    parts: &Option<Vec<(usize, Term)>>,
) -> Result<Served, AllocError>
    ensures answer { IfOk result (λ served. HasAnswer found.entry (calls.UpdateElement (meaning_of key.now) (changes_in parts.now)) (meaning_of served.answer)) }
    ensures changes { IfOk result (λ served. HasChanges found.entry (calls.UpdateElement (meaning_of key.now) (changes_in parts.now)) served.changes.items served.transfer) }
{
    let mut changes = Changes::new(alloc);
    alter(alloc, found.id, found.table, key, parts, &mut changes)?;
    let answer = match found.table.rows.has_key(key) {
        true => Word::True,
        false => Word::False,
    };
    Ok(Served {
        answer: Term::word(answer),
        changes: changes.list,
        transfer: None,
    })
}

// What a call changes at the table that it finds, where that follows from its arguments and the settings of the table.
fn change_found(
    found: FoundTable<'_>,
    call: &TableCall,
    changes: &mut Changes,
) -> Result<(), AllocError>
    ensures { OnOk result (OfLine (found_of found.entry) (call_in call.now) (λ l. reads_no_row (call_in call.now) ≡ true → Adds l.changes changes.old changes.new)) }
{
    match call {
        TableCall::Insert(objects) => store_given(found.id, found.table, objects, changes),
        TableCall::DeleteTable => destroy(found.id, found.table, changes),
        TableCall::DeleteKey(key) => write(found.id, key, RowChange::Clears, changes),
        TableCall::DeleteObject(object) => remove_given(found.id, found.table, object, changes),
        TableCall::DeleteAll => wipe(found.id, changes),
        TableCall::Take(key) => write(found.id, key, RowChange::Clears, changes),
        TableCall::SetOptions(heirs) => entrust_given(found.id, heirs, changes),
        _ => Ok(()),
    }
}

// A call whose changes need no row, and that informs nobody.
fn serve_plain(alloc: Global, found: FoundTable<'_>, call: &TableCall) -> Result<Served, AllocError>
    requires { reads_no_row (call_in call.now) ≡ true }
    ensures answer { IfOk result (λ served. OfServedLine found.entry (call_in call.now) (λ l. meaning_of served.answer ≡ l.answer)) }
    ensures changes { IfOk result (λ served. OfServedLine found.entry (call_in call.now) (λ l. planned_by found.entry.table.now.owner served.changes.items served.transfer ≡ l.changes)) }
{
    let answer = answer(alloc, found.table, call)?;
    let mut changes = Changes::new(alloc);
    change_found(found, call, &mut changes)?;
    Ok(Served {
        answer,
        changes: changes.list,
        transfer: None,
    })
}

/// What a call that no rule refuses answers, changes and sends at the table that it finds. `AllocError` if there is no
/// memory. For a call that is refused it promises nothing: judge it first, by `Tables::judge`.
pub fn serve(alloc: Global, found: FoundTable<'_>, call: &TableCall) -> Result<Served, AllocError>
    ensures answer { IfOk result (λ served. OfServedLine found.entry (call_in call.now) (λ l. meaning_of served.answer ≡ l.answer)) }
    ensures changes { IfOk result (λ served. OfServedLine found.entry (call_in call.now) (λ l. planned_by found.entry.table.now.owner served.changes.items served.transfer ≡ l.changes)) }
{
    match call {
        TableCall::InsertNew(objects) => insert_new(alloc, found.id, found.table, objects),
        TableCall::UpdateCounter(key, increment, default) => {
            count_given(alloc, found, key, increment, default)
        }
        TableCall::UpdateElement(key, parts) => alter_given(alloc, found, key, parts),
        TableCall::GiveAway(to, gift) => give_if(alloc, found.id, found.table, to, gift),
        _ => serve_plain(alloc, found, call),
    }
}
