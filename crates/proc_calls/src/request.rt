// What a call asks of processes: which call of processes it is, and what each of its arguments is (the Erlang manual,
// module `erlang`).
ghost use Rattle.std.specs.Prelude.{IfOk};
ghost use Rattle.proc_calls.specs.Arguments.{is_named, is_process, way_in};
ghost use Rattle.proc_calls.specs.Calls.{call_in};
ghost use Rattle.proc_calls.specs.Requests.{IsReadAs};
ghost use Rattle.term_core.specs.Meaning.{Meaning};
ghost use Rattle.term_core.specs.Term.{meaning_of};
ghost use Rattle.world_model.specs.Calls as calls;
ghost use Rattle.world_model.specs.Calls.{call_of, call_of_none, call_of_one, call_of_two, call_of_three, call_of_four, monitor_by, monitor_of, origin_of, time_of, watched_name_of};
ghost use Rattle.world_model.specs.Terms.{atom_in, items_in, process_in};

use crate::argument::{
    Destination, MonitorType, name_in, process_in, process_item_in, reference_in, watched_name_in,
};
use crate::call::ProcessCall;
use crate::guarding::{Naming, alias_in, end_in, time_in};
use crate::options::{Flushing, Trapping};
use crate::spawning::{Origin, SpawnWay};
use core_tree::CallKind;
use std::alloc::{AllocError, Global};
use term_core::{Atom, Pid, Term, Terms};
use world_model::alias::AliasEnd;

/// What a call asks of processes.
#[derive(Drop)]
pub enum ProcessRequest {
    /// A call of processes.
    Asks(ProcessCall),
    /// A call with another number of arguments than it has: no module that is read makes one.
    Misfit,
    /// A call of tables.
    Other,
}

// A call of processes.
fn asks(call: ProcessCall) -> Result<ProcessRequest, AllocError>
    ensures { IfOk result (IsReadAs (call_in call)) }
{
    Ok(ProcessRequest::Asks(call))
}

// A call without arguments.
fn of_none(kind: CallKind) -> Result<ProcessRequest, AllocError>
    ensures { IfOk result (IsReadAs (call_of_none kind)) }
{
    match kind {
        CallKind::MakeRef => asks(ProcessCall::MakeRef),
        CallKind::Registered => asks(ProcessCall::Registered),
        CallKind::Alias => asks(ProcessCall::MakeAlias(Some(AliasEnd::ByUnalias))),
        _ => Ok(ProcessRequest::Misfit),
    }
}

// A call with one argument.
fn of_one(kind: CallKind, first: &Term) -> Result<ProcessRequest, AllocError>
    ensures { IfOk result (IsReadAs (call_of_one kind (meaning_of first.now))) }
{
    match kind {
        CallKind::Link => asks(ProcessCall::Link(process_in(first)?)),
        CallKind::Unlink => asks(ProcessCall::Unlink(process_in(first)?)),
        CallKind::Demonitor => asks(ProcessCall::Demonitor(
            reference_in(first)?,
            Some(Flushing::Keeps),
        )),
        CallKind::Unregister => asks(ProcessCall::Unregister(name_in(first)?)),
        CallKind::Whereis => asks(ProcessCall::WhereIs(name_in(first)?)),
        CallKind::IsProcessAlive => asks(ProcessCall::IsAlive(process_in(first)?)),
        CallKind::AliasWith => asks(ProcessCall::MakeAlias(end_in(first))),
        CallKind::Unalias => asks(ProcessCall::Unalias(reference_in(first)?)),
        CallKind::CancelTimer => asks(ProcessCall::CancelTimer(reference_in(first)?)),
        CallKind::ReadTimer => asks(ProcessCall::ReadTimer(reference_in(first)?)),
        CallKind::First
        | CallKind::Last
        | CallKind::TableToList
        | CallKind::DeleteTable
        | CallKind::DeleteAllObjects
        | CallKind::InfoAll => Ok(ProcessRequest::Other),
        _ => Ok(ProcessRequest::Misfit),
    }
}

// A message.
fn send(to: &Term, message: &Term) -> Result<ProcessRequest, AllocError>
    ensures { IfOk result (IsReadAs (calls.Send (calls.destination_of (meaning_of to.now)) (meaning_of message.now))) }
{
    asks(ProcessCall::Send(Destination::of(to)?, message.copy()?))
}

// A watch of a process, or of the holder of a name.
fn watch(
    kind: MonitorType,
    whom: Option<Pid>,
    name: Option<Atom>,
    alias: Option<Option<AliasEnd>>,
) -> Result<ProcessRequest, AllocError>
    ensures { IfOk result (IsReadAs (monitor_by (is_process kind) whom name alias)) }
{
    match name {
        Some(name) => asks(ProcessCall::MonitorName(kind, name, alias)),
        None => asks(ProcessCall::Monitor(kind, whom, alias)),
    }
}

// A watch.
fn monitor(
    kind: &Term,
    whom: &Term,
    alias: Option<Option<AliasEnd>>,
) -> Result<ProcessRequest, AllocError>
    ensures { IfOk result (IsReadAs (monitor_of (meaning_of kind.now) (meaning_of whom.now) alias)) }
{
    watch(
        MonitorType::of(kind),
        process_in(whom)?,
        watched_name_in(whom)?,
        alias,
    )
}

// A call with two arguments.
fn of_two(kind: CallKind, first: &Term, second: &Term) -> Result<ProcessRequest, AllocError>
    ensures { IfOk result (IsReadAs (call_of_two kind (meaning_of first.now) (meaning_of second.now))) }
{
    match kind {
        CallKind::Bang => send(first, second),
        CallKind::Send => send(first, second),
        CallKind::Exit => asks(ProcessCall::SendExit(process_in(first)?, second.copy()?)),
        CallKind::Monitor => monitor(first, second, Some(None)),
        CallKind::DemonitorWith => asks(ProcessCall::Demonitor(
            reference_in(first)?,
            Flushing::of(second),
        )),
        CallKind::ProcessFlag => asks(ProcessCall::Flag(Trapping::of(first, second))),
        CallKind::Register => asks(ProcessCall::Register(name_in(first)?, process_in(second)?)),
        CallKind::ProcessInfo => asks(ProcessCall::ProcessInfo(
            process_in(first)?,
            process_item_in(second),
        )),
        CallKind::New
        | CallKind::Lookup
        | CallKind::Member
        | CallKind::Next
        | CallKind::Prev
        | CallKind::Insert
        | CallKind::InsertNew
        | CallKind::DeleteKey
        | CallKind::DeleteObject
        | CallKind::Take
        | CallKind::SetOptions
        | CallKind::Info => Ok(ProcessRequest::Other),
        _ => Ok(ProcessRequest::Misfit),
    }
}

// A spawn.
fn spawn(
    alloc: Global,
    way: SpawnWay,
    module_name: &Term,
    function_name: &Term,
    arguments: &Term,
) -> Result<ProcessRequest, AllocError>
    ensures { IfOk result (IsReadAs (calls.Spawn (way_in way) (origin_of (atom_in (meaning_of module_name.now)) (atom_in (meaning_of function_name.now)) (items_in (meaning_of arguments.now))))) }
{
    asks(ProcessCall::Spawn(
        way,
        Origin::of(alloc, module_name, function_name, arguments)?,
    ))
}

// A timer.
fn start_timer(
    naming: Naming,
    time: &Term,
    to: &Term,
    message: &Term,
) -> Result<ProcessRequest, AllocError>
    ensures { IfOk result (IsReadAs (calls.StartTimer (is_named naming) (time_of (meaning_of time.now)) (process_in (meaning_of to.now)) (meaning_of message.now))) }
{
    asks(ProcessCall::StartTimer(naming, time_in(time), process_in(to)?, message.copy()?))
}

// A call with three arguments.
fn of_three(
    alloc: Global,
    kind: CallKind,
    first: &Term,
    second: &Term,
    third: &Term,
) -> Result<ProcessRequest, AllocError>
    ensures { IfOk result (IsReadAs (call_of_three kind (meaning_of first.now) (meaning_of second.now) (meaning_of third.now))) }
{
    match kind {
        CallKind::Spawn => spawn(alloc, SpawnWay::Alone, first, second, third),
        CallKind::SpawnLink => spawn(alloc, SpawnWay::Linked, first, second, third),
        CallKind::SpawnMonitor => spawn(alloc, SpawnWay::Watched, first, second, third),
        CallKind::MonitorWith => monitor(first, second, alias_in(third)),
        CallKind::StartTimer => start_timer(Naming::Named, first, second, third),
        CallKind::SendAfter => start_timer(Naming::Bare, first, second, third),
        CallKind::LookupElement
        | CallKind::UpdateCounter
        | CallKind::UpdateElement
        | CallKind::GiveAway => Ok(ProcessRequest::Other),
        _ => Ok(ProcessRequest::Misfit),
    }
}

// A call with four arguments: none of processes.
fn of_four(kind: CallKind) -> ProcessRequest
    ensures { (a b c d : Meaning) → IsReadAs (call_of_four kind a b c d) result }
{
    match kind {
        CallKind::UpdateCounterWith => ProcessRequest::Other,
        _ => ProcessRequest::Misfit,
    }
}

impl ProcessRequest {
    /// What a call with these arguments asks of processes, or `AllocError` if there is no memory for the list of the
    /// arguments of a spawn, or where the copies of parts of the arguments can no longer be counted (erlang manual;
    /// each call by its number of arguments).
    pub fn of(
        alloc: Global,
        kind: CallKind,
        arguments: &Terms,
    ) -> Result<ProcessRequest, AllocError>
        ensures { IfOk result (IsReadAs (call_of kind arguments.now)) }
    {
        match arguments.as_slice() {
            [] => of_none(kind),
            [first] => of_one(kind, first),
            [first, second] => of_two(kind, first, second),
            [first, second, third] => of_three(alloc, kind, first, second, third),
            [_, _, _, _] => Ok(of_four(kind)),
            _ => Ok(ProcessRequest::Misfit),
        }
    }
}
