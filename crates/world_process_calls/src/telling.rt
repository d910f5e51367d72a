// What is told of processes (erlang manual, `process_info/2`, `registered/0`).
ghost use Rattle.std.specs.Prelude.{◌≡◌, ◌<◌, ◌^◌, ◌∷◌, [], IfOk, OnOk, Some, codes, if◌then◌else◌, option_copied};
ghost use Rattle.term_core.specs.Term.{meaning_of};
ghost use Rattle.world_model.specs.Calls as calls;
ghost use Rattle.world_model.specs.Cells as cells;
ghost use Rattle.world_model.specs.Names as names;
ghost use Rattle.world_model.specs.ProcessLines.{item_reads, item_told, name_told, undefined};
ghost use Rattle.world_model.specs.Terms.{atom, number, tuple};
ghost use Rattle.world_planned.specs.inside.Planned.{Adds};
ghost use Rattle.world_planned.specs.inside.PlannedCalls.{Plans};
ghost use Rattle.world_records.specs.Records.{OfWorld};

use std::alloc::{AllocError, Global};
use term_core::{Atom, Pid, Term, Terms};
use world_model::process::ProcessItem;
use world_planned::planned::Planned;
use world_planned::readings::{lives, name_of, queue_length};
use world_planned::reply::{Refusal, Reply};
use world_records::{ChannelPart, ProcessPart, Records};

// A count as a term.
fn number(count: usize) -> Term
    requires { count < 2 ^ 63 }
    ensures { meaning_of result ≡ number count }
{
    Term::Int(count as i64)
}

// An item with what it is.
fn pair(alloc: Global, item: &str, value: Term) -> Result<Term, AllocError>
    ensures { IfOk result (λ pair. meaning_of pair ≡ tuple (atom item.now ∷ meaning_of value ∷ [])) }
{
    let mut parts = Terms::new(alloc);
    parts.push(Term::atom(alloc, item)?)?;
    parts.push(value)?;
    Ok(Term::tuple(alloc, parts)?)
}

// What is told of the name of a process.
fn name_told(alloc: Global, name: Option<&Atom>) -> Result<Term, AllocError>
    ensures { IfOk result (λ told. meaning_of told ≡ name_told (option_copied name.entry)) }
{
    match name {
        Some(name) => pair(alloc, "registered_name", Term::Atom(name.copy()?)),
        None => Ok(Term::Nil),
    }
}

// What is told of a process.
fn item_told(
    records: &Records<'_>,
    alloc: Global,
    whom: &Pid,
    item: ProcessItem,
) -> Result<Term, AllocError>
    ensures { IfOk result (λ told. OfWorld records.now (λ m v. meaning_of told ≡ item_told v whom.now item)) }
{
    match item {
        ProcessItem::RegisteredName => name_told(alloc, name_of(records, whom)),
        ProcessItem::QueueLength => {
            let length = number(queue_length(records, whom));
            pair(alloc, "message_queue_len", length)
        }
    }
}

// What is told of a process that may be gone.
fn item_or(
    records: &Records<'_>,
    alloc: Global,
    whom: &Pid,
    item: ProcessItem,
) -> Result<Term, AllocError>
    ensures { IfOk result (λ told. OfWorld records.now (λ m v. meaning_of told ≡ (if v (cells.Alive whom.now) then item_told v whom.now item else undefined))) }
{
    if lives(records, whom) {
        return item_told(records, alloc, whom, item);
    }
    Term::atom(alloc, "undefined")
}

// What an item is told of is read.
fn read_item(whom: &Pid, item: ProcessItem, planned: &mut Planned) -> Result<(), AllocError>
    ensures { OnOk result (Adds (item_reads whom.now item) [] planned.old planned.new) }
{
    match item {
        ProcessItem::RegisteredName => planned.read_process(ProcessPart::NameOf, whom),
        ProcessItem::QueueLength => {
            planned.read_process(ProcessPart::Taken, whom)?;
            planned.read_process(ProcessPart::Mailed, whom)
        }
    }
}

// Whether another process lives is read, and which signals of the caller are on their way to it.
fn read_other(caller: &Pid, whom: &Pid, planned: &mut Planned) -> Result<(), AllocError>
    ensures { OnOk result (Adds (cells.Alive whom.now ∷ cells.Front caller.now whom.now ∷ cells.Tail caller.now whom.now ∷ []) [] planned.old planned.new) }
{
    planned.read_process(ProcessPart::Alive, whom)?;
    planned.read_channel(ChannelPart::Front, caller, whom)?;
    planned.read_channel(ChannelPart::Tail, caller, whom)
}

// `process_info/2` of an item of a process.
fn tell(
    records: &Records<'_>,
    alloc: Global,
    caller: &Pid,
    whom: &Pid,
    item: ProcessItem,
    planned: &mut Planned,
) -> Result<Reply, AllocError>
    ensures { IfOk result (λ reply. Plans caller.now (calls.ProcessInfo (Some whom.now) (Some item)) records.now reply planned.old planned.new) }
{
    if *caller == *whom {
        read_item(caller, item, planned)?;
        let told = item_told(records, alloc, caller, item)?;
        return Ok(Reply::Served(told));
    }
    read_other(caller, whom, planned)?;
    read_item(whom, item, planned)?;
    let told = item_or(records, alloc, whom, item)?;
    Ok(Reply::Served(told))
}

/// `process_info/2`, where no signal of the caller to another process is on its way. `AllocError` if there is no memory.
pub(crate) fn process_info(
    records: &Records<'_>,
    alloc: Global,
    caller: &Pid,
    whom: Option<Pid>,
    item: Option<ProcessItem>,
    planned: &mut Planned,
) -> Result<Reply, AllocError>
    ensures { IfOk result (λ reply. Plans caller.now (calls.ProcessInfo whom item) records.now reply planned.old planned.new) }
{
    match (whom, item) {
        (Some(whom), Some(item)) => tell(records, alloc, caller, &whom, item, planned),
        _ => Ok(Reply::Refused(Refusal::BadArgument)),
    }
}

/// `registered/0`. `AllocError` if there is no memory.
pub(crate) fn registered(
    records: &Records<'_>,
    alloc: Global,
    planned: &mut Planned,
) -> Result<Reply, AllocError>
    ensures { IfOk result (λ reply. (caller : names.Pid) → Plans caller calls.Registered records.now reply planned.old planned.new) }
{
    planned.read_holders()?;
    let names = records.names().list(alloc)?;
    Ok(Reply::Served(names))
}
