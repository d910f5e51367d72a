// What turns and deliveries would do: the deed, the cells that are read, and the changes; and that steps are done so.
ghost use Rattle.std.specs.Prelude.{◌≡◌, false};

use core_reader::{Module, ReadFault, read_module};
use ets_rules::TableChange;
use std::alloc::{AllocError, Global};
use std::test::Fail;
use term_core::{
    Output, Pid, Step, Term, WriteFault, write_all, write_number, write_pid, write_term,
};
use test_support::{holds, same};
use world_plans::{
    Deed, Plan, Planned, Refusal, are_independent, asleep_below, is_enabled, perform, plan_step,
};
use world_records::{Cell, Change, ChannelPart, NamePart, ProcessPart, Records, ReferencePart};

// A line: what the first process begins with, what its turn does, the cells that it reads, and what it changes.
pub(crate) type Line = (&'static str, &'static str, &'static str, &'static str);

const TO_ITSELF: [Line; 7] = [
    (
        "call 'erlang':'!'(call 'erlang':'self'(),'x')",
        "'x'",
        "Machine Alive Trap",
        "MessageAdded",
    ),
    (
        "call 'erlang':'exit'(call 'erlang':'self'(),'kill')",
        "ends 'killed'",
        "Machine Alive Trap Owned Links Watchers NameOf",
        "OwnedCleared NameCleared",
    ),
    (
        "call 'erlang':'exit'(call 'erlang':'self'(),'bye')",
        "ends 'bye'",
        "Machine Alive Trap Owned Links Watchers NameOf",
        "OwnedCleared NameCleared",
    ),
    (
        "call 'erlang':'link'(call 'erlang':'self'())",
        "'true'",
        "Machine Alive Alive Trap Links",
        "CellTouched CellTouched",
    ),
    (
        "call 'erlang':'register'('n',call 'erlang':'self'())",
        "'true'",
        "Machine Alive Alive Holder NameOf",
        "NameRegistered",
    ),
    (
        "call 'erlang':'is_process_alive'(call 'erlang':'self'())",
        "'true'",
        "Machine Alive Alive Front Tail",
        "",
    ),
    (
        "call 'erlang':'process_flag'('trap_exit','true')",
        "'false'",
        "Machine Alive Trap",
        "TrapSet",
    ),
];

const TO_OTHERS: [Line; 7] = [
    (
        "call 'erlang':'spawn'('m','main',[])",
        "P.1",
        "Machine Alive",
        "ProcessStarted",
    ),
    (
        "call 'erlang':'spawn_link'('m','main',[])",
        "P.1",
        "Machine Alive",
        "ProcessStarted LinkAdded",
    ),
    (
        "call 'erlang':'spawn'('m',1,[])",
        "badarg",
        "Machine Alive",
        "",
    ),
    (
        "call 'erlang':'!'('n','x')",
        "badarg",
        "Machine Alive Holder",
        "",
    ),
    (
        "call 'erlang':'unregister'('n')",
        "badarg",
        "Machine Alive Holder",
        "",
    ),
    (
        "call 'erlang':'whereis'('n')",
        "'undefined'",
        "Machine Alive Holder",
        "",
    ),
    ("call 'erlang':'link'('x')", "badarg", "Machine Alive", ""),
];

const TO_TABLES: [Line; 6] = [
    (
        "call 'ets':'new'('t',['named_table'])",
        "'t'",
        "Machine Alive TableName",
        "TableSet OwnedAdded TableNameSet",
    ),
    (
        "call 'ets':'new'('t',['x'])",
        "8",
        "Machine Alive TableName",
        "",
    ),
    ("call 'ets':'new'(1,[])", "7", "Machine Alive", ""),
    (
        "call 'ets':'insert'('t',{1})",
        "2",
        "Machine Alive TableName",
        "",
    ),
    (
        "call 'ets':'info'('t','size')",
        "'undefined'",
        "Machine Alive TableName",
        "",
    ),
    ("call 'ets':'lookup'({},1)", "1", "Machine Alive", ""),
];

const WITHOUT_CALLS: [Line; 4] = [
    (
        "receive <X> when 'true' -> X after 'infinity' -> 'no'",
        "waits",
        "Machine Alive Taken Mailed",
        "",
    ),
    (
        "receive after 0 -> 'ok'",
        "times out",
        "Machine Alive Taken Mailed",
        "",
    ),
    (
        "'ok'",
        "ends 'normal'",
        "Machine Alive Owned Links Watchers NameOf",
        "OwnedCleared NameCleared",
    ),
    (
        "apply 'main'/0()",
        "runs away",
        "Machine Alive Owned Links Watchers NameOf",
        "OwnedCleared NameCleared",
    ),
];

// The module whose first process begins with this.
pub(crate) fn module_of(alloc: Global, call: &str) -> Result<Module, ReadFault> {
    let front = "module 'm' ['main'/0] attributes [] 'main'/0 = fun () -> ";
    let mut text = String::from_str(alloc, front)?;
    text.push_str(call)?;
    text.push_str(" end")?;
    read_module(alloc, text.as_bytes())
}

// What of a process.
fn process_word(part: ProcessPart) -> &'static str {
    match part {
        ProcessPart::Machine => "Machine",
        ProcessPart::Alive => "Alive",
        ProcessPart::Trap => "Trap",
        ProcessPart::Taken => "Taken",
        ProcessPart::Mailed => "Mailed",
        ProcessPart::Links => "Links",
        ProcessPart::Watchers => "Watchers",
        ProcessPart::NameOf => "NameOf",
        ProcessPart::Owned => "Owned",
    }
}

// The word of a cell.
fn cell_word(cell: &Cell) -> &'static str {
    match cell {
        Cell::OfProcess(part, _) => process_word(*part),
        Cell::OfChannel(ChannelPart::Front, _, _) => "Front",
        Cell::OfChannel(ChannelPart::Tail, _, _) => "Tail",
        Cell::OfName(NamePart::Holder, _) => "Holder",
        Cell::OfName(NamePart::TableName, _) => "TableName",
        Cell::OfReference(ReferencePart::Watch, _) => "Watch",
        Cell::OfReference(ReferencePart::Guard, _) => "Guard",
        Cell::OfReference(ReferencePart::Table, _) => "Table",
        Cell::Row(_, _) => "Row",
        Cell::Rows(_) => "Rows",
        Cell::Holders => "Holders",
    }
}

// The word of a change of tables.
fn table_word(change: &TableChange) -> &'static str {
    match change {
        TableChange::RowWritten(_, _, _) => "RowWritten",
        TableChange::RowsCleared(_) => "RowsCleared",
        TableChange::TableSet(_, _, _, _) => "TableSet",
        TableChange::TableTouched(_) => "CellTouched",
        TableChange::OwnerSet(_, _) => "OwnerSet",
        TableChange::HeirSet(_, _) => "HeirSet",
        TableChange::TableRemoved(_) => "TableRemoved",
        TableChange::NameSet(_, _) => "TableNameSet",
        TableChange::NameCleared(_) => "TableNameCleared",
        TableChange::OwnedAdded(_, _) => "OwnedAdded",
        TableChange::OwnedRemoved(_, _) => "OwnedRemoved",
        TableChange::OwnedCleared(_) => "OwnedCleared",
    }
}

// The word of a change.
fn change_word(change: &Change) -> &'static str {
    match change {
        Change::ProcessStarted { .. } => "ProcessStarted",
        Change::ProcessEnded(_, _) => "ProcessEnded",
        Change::TrapSet(_, _) => "TrapSet",
        Change::MessageAdded(_, _) => "MessageAdded",
        Change::MessageTaken(_, _) => "MessageTaken",
        Change::SignalPut(_, _, _) => "SignalPut",
        Change::LinkAdded(_, _) => "LinkAdded",
        Change::LinkRemoved(_, _) => "LinkRemoved",
        Change::WatchSet(_, _) => "WatchSet",
        Change::WatchCleared(_, _) => "WatchCleared",
        Change::GuardSet(_, _) => "GuardSet",
        Change::GuardCleared(_) => "GuardCleared",
        Change::GuardUnwatched(_) => "GuardUnwatched",
        Change::NameRegistered(_, _) => "NameRegistered",
        Change::NameUnregistered(_, _) => "NameUnregistered",
        Change::NameCleared(_) => "NameCleared",
        Change::OfTables(change) => table_word(change),
        Change::CellTouched(_) => "CellTouched",
    }
}

// Puts a word after others.
fn push_word(text: &mut String, word: &str) -> Result<(), AllocError> {
    if !text.is_empty() {
        text.push(' ')?;
    }
    text.push_str(word)
}

// The words of the cells that are read.
pub(crate) fn reads_of(alloc: Global, planned: &Planned) -> Result<String, AllocError> {
    let mut text = String::new(alloc);
    for cell in planned.reads.iter() {
        push_word(&mut text, cell_word(cell))?;
    }
    Ok(text)
}

// The words of the changes.
pub(crate) fn changes_of(alloc: Global, planned: &Planned) -> Result<String, AllocError> {
    let mut text = String::new(alloc);
    for change in planned.changes.iter() {
        push_word(&mut text, change_word(change))?;
    }
    Ok(text)
}

// What is refused, as text.
fn write_refusal(refusal: &Refusal, sink: &mut Output<Vec<u8>>) -> Result<(), WriteFault>
    requires { sink.old.has_failed ≡ false }
{
    match refusal {
        Refusal::BadArgument => write_all(sink, b"badarg"),
        Refusal::NoProcess => write_all(sink, b"noproc"),
        Refusal::ByRule(rule, None) => write_number(u64::from(*rule as u8), sink),
        Refusal::ByRule(rule, Some(owner)) => {
            write_number(u64::from(*rule as u8), sink)?;
            write_all(sink, b" of ")?;
            write_pid(owner, sink)
        }
    }
}

// What an end is, as text.
fn write_end(reason: &Term, sink: &mut Output<Vec<u8>>) -> Result<(), WriteFault>
    requires { sink.old.has_failed ≡ false }
{
    write_all(sink, b"ends ")?;
    write_term(reason, sink)
}

// What a step does, as text.
fn write_deed(deed: &Deed, sink: &mut Output<Vec<u8>>) -> Result<(), WriteFault>
    requires { sink.old.has_failed ≡ false }
{
    match deed {
        Deed::Served {
            kind: _,
            arguments: _,
            answer,
        } => write_term(answer, sink),
        Deed::Refused {
            kind: _,
            arguments: _,
            refusal,
        } => write_refusal(refusal, sink),
        Deed::EndedItself {
            kind: _,
            arguments: _,
            reason,
        } => write_end(reason, sink),
        Deed::Received(message) => write_term(message, sink),
        Deed::TimedOut => write_all(sink, b"times out"),
        Deed::Ended(reason) => write_end(reason, sink),
        Deed::RanAway => write_all(sink, b"runs away"),
        Deed::Delivered(_, _) => write_all(sink, b"is delivered"),
    }
}

// The text of what a step does, and that of nothing.
pub(crate) fn text_of(alloc: Global, deed: &Option<Deed>) -> Result<Vec<u8>, WriteFault> {
    let mut sink = Output::new(Vec::new(alloc));
    match deed {
        Some(deed) => write_deed(deed, &mut sink)?,
        None => write_all(&mut sink, b"waits")?,
    }
    Ok(sink.writer)
}

// Checks that these cells are read and these changes made.
fn is_planned(alloc: Global, planned: &Planned, reads: &str, changes: &str) -> Result<(), Fail> {
    let read = reads_of(alloc, planned)?;
    same(read.as_bytes(), reads.as_bytes())?;
    let changed = changes_of(alloc, planned)?;
    same(changed.as_bytes(), changes.as_bytes())
}

// Checks that a step does what its line says.
pub(crate) fn does(
    alloc: Global,
    records: &Records<'_>,
    step: Step,
    line: &Line,
) -> Result<(), Fail> {
    let (_call, want, reads, changes) = line;
    let Some(plan) = plan_step(records, alloc, step)? else {
        return Err(Fail::new(format_args!("no plan")));
    };
    let text = text_of(alloc, &plan.deed)?;
    same(text.as_slice(), want.as_bytes())?;
    is_planned(alloc, &plan.planned, reads, changes)
}

// The process of this number: the first of 0, and of another the one that the request with this number spawned.
pub(crate) fn pid_of(alloc: Global, number: u64) -> Result<Pid, AllocError> {
    let mut numbers = Vec::new(alloc);
    if number > 0 {
        numbers.push(number)?;
    }
    Pid::new(alloc, numbers)
}

// The turn of the process of this number.
pub(crate) fn turn_of(alloc: Global, number: u64) -> Result<Step, AllocError> {
    Ok(Step::Turn(pid_of(alloc, number)?))
}

// The delivery from the first process to that of this number.
fn delivery_to(alloc: Global, number: u64) -> Result<Step, AllocError> {
    Ok(Step::Deliver(pid_of(alloc, 0)?, pid_of(alloc, number)?))
}

// Checks that each line results in what it says, each as the first turn of a new world.
pub(crate) fn come_to(alloc: Global, lines: &[Line]) -> Result<(), Fail> {
    for line in lines {
        let (call, _want, _reads, _changes) = line;
        let program = module_of(alloc, call)?;
        let records = Records::open(alloc, &program)?;
        does(alloc, &records, turn_of(alloc, 0)?, line)?;
    }
    Ok(())
}

// Plans a step and does it so.
pub(crate) fn go(alloc: Global, records: &mut Records<'_>, step: Step) -> Result<(), Fail> {
    match plan_step(records, alloc, step)? {
        Some(plan) => {
            perform(records, alloc, &plan)?;
            Ok(())
        }
        None => Err(Fail::new(format_args!("no plan"))),
    }
}

#[test]
fn calls_to_itself_are_planned(rt: HostRuntime) -> Result<(), Fail> {
    come_to(rt.alloc(), &TO_ITSELF)
}

#[test]
fn calls_to_others_are_planned(rt: HostRuntime) -> Result<(), Fail> {
    come_to(rt.alloc(), &TO_OTHERS)
}

#[test]
fn calls_of_tables_are_planned(rt: HostRuntime) -> Result<(), Fail> {
    come_to(rt.alloc(), &TO_TABLES)
}

#[test]
fn receives_and_ends_are_planned(rt: HostRuntime) -> Result<(), Fail> {
    come_to(rt.alloc(), &WITHOUT_CALLS)
}

// A first process that spawns another, sends to it, and ends.
const SENDER: &str = "do call 'erlang':'!'(call 'erlang':'spawn'('m','main',[]),'x') 'ok'";

const PUTS: Line = (SENDER, "'x'", "Machine Alive Alive", "SignalPut");

const ARRIVES: Line = (SENDER, "is delivered", "Alive Front", "MessageAdded");

const ENDS: Line = (
    SENDER,
    "ends 'normal'",
    "Machine Alive Owned Links Watchers NameOf",
    "OwnedCleared NameCleared",
);

#[test]
fn steps_are_done_as_planned(rt: HostRuntime) -> Result<(), Fail> {
    let alloc = rt.alloc();
    let program = module_of(alloc, SENDER)?;
    let mut records = Records::open(alloc, &program)?;
    go(alloc, &mut records, turn_of(alloc, 0)?)?;
    does(alloc, &records, turn_of(alloc, 0)?, &PUTS)?;
    go(alloc, &mut records, turn_of(alloc, 0)?)?;
    does(alloc, &records, turn_of(alloc, 0)?, &ENDS)?;
    does(alloc, &records, delivery_to(alloc, 1)?, &ARRIVES)?;
    go(alloc, &mut records, turn_of(alloc, 0)?)?;
    holds(
        plan_step(&records, alloc, turn_of(alloc, 0)?)?.is_none(),
        "a dead process has a plan",
    )?;
    go(alloc, &mut records, delivery_to(alloc, 1)?)?;
    holds(
        !is_enabled(&records, alloc, &delivery_to(alloc, 1)?)?,
        "it is delivered twice",
    )
}

// The plan of a step, if it has one.
fn planned_as(alloc: Global, records: &Records<'_>, step: Step) -> Result<Plan, Fail> {
    match plan_step(records, alloc, step)? {
        Some(plan) => Ok(plan),
        None => Err(Fail::new(format_args!("no plan"))),
    }
}

#[test]
fn turns_of_two_processes_are_independent(rt: HostRuntime) -> Result<(), Fail> {
    let alloc = rt.alloc();
    let program = module_of(alloc, SENDER)?;
    let mut records = Records::open(alloc, &program)?;
    go(alloc, &mut records, turn_of(alloc, 0)?)?;
    let sends = planned_as(alloc, &records, turn_of(alloc, 0)?)?;
    let spawns = planned_as(alloc, &records, turn_of(alloc, 1)?)?;
    let arrives = planned_as(alloc, &records, delivery_to(alloc, 1)?)?;
    holds(are_independent(&sends, &spawns), "they are not independent")?;
    holds(
        !are_independent(&sends, &sends),
        "one is independent of itself",
    )?;
    holds(
        !are_independent(&spawns, &arrives),
        "what is not enabled is independent",
    )?;
    let slept = vec![in alloc;
        turn_of(alloc, 0)?,
        delivery_to(alloc, 1)?,
        turn_of(alloc, 1)?,
    ]?;
    let asleep = asleep_below(&records, alloc, slept.as_slice(), &turn_of(alloc, 0)?)?;
    holds(asleep.len() == 1, "more or fewer stay asleep")
}
