// What a call asks of tables: which call of a table it is, and what each of its arguments is (the Erlang manual,
// module `ets`).
ghost use Rattle.std.specs.Prelude.{IfOk};
ghost use Rattle.ets_calls.specs.Calls.{call_in};
ghost use Rattle.ets_calls.specs.Requests.{IsReadAs};
ghost use Rattle.term_core.specs.Term.{meaning_of};
ghost use Rattle.world_model.specs.Calls as calls;
ghost use Rattle.world_model.specs.Calls.{call_of, call_of_one, call_of_two, call_of_three, call_of_four, argument_of};
ghost use Rattle.world_model.specs.Tables.{options_of};
ghost use Rattle.world_model.specs.Terms.{atom_in};

use crate::argument::{TableArgument, name_in, positive_in, process_in};
use crate::call::TableCall;
use crate::changes::changes_of;
use crate::heirs::heirs_of;
use crate::increment::Increment;
use crate::items::item_of;
use crate::objects::{object_in, objects_of};
use crate::options::{TableOption, options_of};
use core_tree::CallKind;
use std::alloc::{AllocError, Global};
use term_core::{Atom, Term, Terms};

/// What a call asks of tables.
#[derive(Drop)]
pub enum TableRequest {
    /// A call with a table argument.
    OnTable(TableArgument, TableCall),
    /// `new/2`: the name, if it is an atom, and the options, if they are such.
    New(Option<Atom>, Option<Vec<TableOption>>),
    /// It is no call of tables: one of processes, or one with another number of arguments than it has.
    Other,
}

// A call of the table that this argument finds.
fn on_table(table: &Term, call: TableCall) -> Result<TableRequest, AllocError>
    ensures { IfOk result (IsReadAs (calls.OnTable (argument_of (meaning_of table.now)) (call_in call))) }
{
    Ok(TableRequest::OnTable(TableArgument::of(table)?, call))
}

// A call with one argument.
fn of_one(kind: CallKind, table: &Term) -> Result<TableRequest, AllocError>
    ensures { IfOk result (IsReadAs (call_of_one kind (meaning_of table.now))) }
{
    match kind {
        CallKind::First => on_table(table, TableCall::First),
        CallKind::Last => on_table(table, TableCall::Last),
        CallKind::TableToList => on_table(table, TableCall::ToList),
        CallKind::DeleteTable => on_table(table, TableCall::DeleteTable),
        CallKind::DeleteAllObjects => on_table(table, TableCall::DeleteAll),
        CallKind::InfoAll => on_table(table, TableCall::InfoAll),
        _ => Ok(TableRequest::Other),
    }
}

// A new table.
fn new_table(alloc: Global, name: &Term, options: &Term) -> Result<TableRequest, AllocError>
    ensures { IfOk result (IsReadAs (calls.New (atom_in (meaning_of name.now)) (options_of (meaning_of options.now)))) }
{
    Ok(TableRequest::New(name_in(name)?, options_of(alloc, options)?))
}

// A call with two arguments.
fn of_two(
    alloc: Global,
    kind: CallKind,
    table: &Term,
    second: &Term,
) -> Result<TableRequest, AllocError>
    ensures { IfOk result (IsReadAs (call_of_two kind (meaning_of table.now) (meaning_of second.now))) }
{
    match kind {
        CallKind::New => new_table(alloc, table, second),
        CallKind::Lookup => on_table(table, TableCall::Lookup(second.copy()?)),
        CallKind::Member => on_table(table, TableCall::Member(second.copy()?)),
        CallKind::Next => on_table(table, TableCall::Next(second.copy()?)),
        CallKind::Prev => on_table(table, TableCall::Prev(second.copy()?)),
        CallKind::Insert => on_table(table, TableCall::Insert(objects_of(alloc, second)?)),
        CallKind::InsertNew => on_table(table, TableCall::InsertNew(objects_of(alloc, second)?)),
        CallKind::DeleteKey => on_table(table, TableCall::DeleteKey(second.copy()?)),
        CallKind::DeleteObject => on_table(table, TableCall::DeleteObject(object_in(second)?)),
        CallKind::Take => on_table(table, TableCall::Take(second.copy()?)),
        CallKind::SetOptions => on_table(table, TableCall::SetOptions(heirs_of(alloc, second)?)),
        CallKind::Info => on_table(table, TableCall::Info(item_of(second))),
        _ => Ok(TableRequest::Other),
    }
}

// A call with three arguments.
fn of_three(
    alloc: Global,
    kind: CallKind,
    table: &Term,
    second: &Term,
    third: &Term,
) -> Result<TableRequest, AllocError>
    ensures { IfOk result (IsReadAs (call_of_three kind (meaning_of table.now) (meaning_of second.now) (meaning_of third.now))) }
{
    match kind {
        CallKind::LookupElement => on_table(
            table,
            TableCall::LookupElement(second.copy()?, positive_in(third)),
        ),
        CallKind::UpdateCounter => on_table(
            table,
            TableCall::UpdateCounter(second.copy()?, Increment::of(alloc, third)?, None),
        ),
        CallKind::UpdateElement => on_table(
            table,
            TableCall::UpdateElement(second.copy()?, changes_of(alloc, third)?),
        ),
        CallKind::GiveAway => on_table(
            table,
            TableCall::GiveAway(process_in(second)?, third.copy()?),
        ),
        _ => Ok(TableRequest::Other),
    }
}

// A call with four arguments.
fn of_four(
    alloc: Global,
    kind: CallKind,
    table: &Term,
    second: &Term,
    third: &Term,
    fourth: &Term,
) -> Result<TableRequest, AllocError>
    ensures { IfOk result (IsReadAs (call_of_four kind (meaning_of table.now) (meaning_of second.now) (meaning_of third.now) (meaning_of fourth.now))) }
{
    match kind {
        CallKind::UpdateCounterWith => on_table(
            table,
            TableCall::UpdateCounter(
                second.copy()?,
                Increment::of(alloc, third)?,
                Some(object_in(fourth)?),
            ),
        ),
        _ => Ok(TableRequest::Other),
    }
}

impl TableRequest {
    /// What a call with these arguments asks of tables, or `AllocError` if there is no memory for the lists among
    /// them, or where the copies of their parts can no longer be counted (ets manual; each call by its number of
    /// arguments).
    pub fn of(alloc: Global, kind: CallKind, arguments: &Terms) -> Result<TableRequest, AllocError>
        ensures { IfOk result (IsReadAs (call_of kind arguments.now)) }
    {
        match arguments.as_slice() {
            [table] => of_one(kind, table),
            [table, second] => of_two(alloc, kind, table, second),
            [table, second, third] => of_three(alloc, kind, table, second, third),
            [table, second, third, fourth] => of_four(alloc, kind, table, second, third, fourth),
            _ => Ok(TableRequest::Other),
        }
    }
}
