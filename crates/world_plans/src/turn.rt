// The turn of a process: what it asks is served (Core Erlang 1.0.3, "Receive"; the Erlang manual, modules `erlang` and
// `ets`).
ghost use Rattle.std.specs.Prelude.{◌≡◌, true, IfOk, OnOk, option_map, slice_get};
ghost use Rattle.core_eval.specs.Requests.{told_by};
ghost use Rattle.proc_mailboxes.specs.Mailboxes.{messages_in};
ghost use Rattle.proc_machines.specs.Processes.{request_with, selects_in};
ghost use Rattle.world_footprints.specs.Deeds.{deed_in};
ghost use Rattle.world_planned.specs.inside.Planned.{Adds};
ghost use Rattle.world_planned.specs.inside.PlannedCalls.{Plans};
ghost use Rattle.world_plans.specs.inside.Called.{deed_of_reply};
ghost use Rattle.world_plans.specs.inside.Turns.{PlansAsked, PlansTurn};
ghost use Rattle.term_core.specs.Term.{meaning_of};
ghost use Rattle.world_model.specs.Calls.{call_of};
ghost use Rattle.world_model.specs.Cells as cells;
ghost use Rattle.world_model.specs.Ends.{reads_of_end};
ghost use Rattle.world_model.specs.Requests as requests;
ghost use Rattle.world_records.specs.Records.{OfWorld, mailboxes_of, processes_of, selected_in};
ghost use Rattle.world_planned.specs.inside.Messages.{PlansPicked};
ghost use Rattle.world_planned.specs.inside.Seen.{left_at_end};

use crate::waiting::must_wait;
use core_eval::Request;
use core_tree::CallKind;
use proc_calls::ProcessRequest;
use std::alloc::{AllocError, Global};
use std::sync::Arc;
use term_core::{Pid, Term, Terms};
use world_footprints::deed::Deed;
use world_planned::ends::leave;
use world_planned::planned::Planned;
use world_planned::reply::{Refusal, Reply};
use world_process_calls::processes::plan_process_call;
use world_records::{Change, ProcessPart, Records};
use world_table_calls::on_tables::plan_table_call;

// A call: what it results in. A call with another number of arguments than it has, which no module that is read makes,
// is refused.
fn serve(
    records: &Records<'_>,
    alloc: Global,
    caller: &Pid,
    kind: CallKind,
    arguments: &Terms,
    planned: &mut Planned,
) -> Result<Reply, AllocError>
    ensures { IfOk result (λ reply. Plans caller.now (call_of kind arguments.now) records.now reply planned.old planned.new) }
{
    match ProcessRequest::of(alloc, kind, arguments)? {
        ProcessRequest::Asks(call) => plan_process_call(records, alloc, caller, call, planned),
        ProcessRequest::Misfit => Ok(Reply::Refused(Refusal::BadArgument)),
        ProcessRequest::Other => plan_table_call(records, alloc, caller, kind, arguments, planned),
    }
}

// What a call with this result did.
fn deed_of(kind: CallKind, arguments: Arc<Terms>, reply: Reply) -> Deed
    ensures { deed_in result ≡ deed_of_reply kind arguments.value reply }
{
    match reply {
        Reply::Served(answer) => Deed::Served {
            kind,
            arguments,
            answer,
        },
        Reply::Refused(refusal) => Deed::Refused {
            kind,
            arguments,
            refusal,
        },
        Reply::Ends(reason) => Deed::EndedItself {
            kind,
            arguments,
            reason,
        },
    }
}

// A turn that calls.
fn call(
    records: &Records<'_>,
    alloc: Global,
    pid: &Pid,
    kind: CallKind,
    arguments: &Arc<Terms>,
    planned: &mut Planned,
) -> Result<Option<Deed>, AllocError>
    ensures { IfOk result (λ deed. PlansTurn pid.now (requests.Calls kind arguments.now.value) records.now deed planned.old planned.new) }
{
    let reply = serve(records, alloc, pid, kind, arguments, planned)?;
    if must_wait(records, pid, kind, arguments) {
        return Ok(None);
    }
    let arguments = Arc::try_clone(arguments)?;
    Ok(Some(deed_of(kind, arguments, reply)))
}

// A copy of the message at a place of a mailbox, if there is one.
fn message_at(records: &Records<'_>, pid: &Pid, place: usize) -> Result<Option<Term>, AllocError>
    ensures { IfOk result (λ message. option_map meaning_of message ≡ slice_get (messages_in (mailboxes_of records.now) pid.now) place) }
{
    let Some(mailbox) = records.mailboxes().of(pid) else {
        return Ok(None);
    };
    match mailbox.get(place) {
        Some(message) => Ok(Some(message.copy()?)),
        None => Ok(None),
    }
}

// A copy of the oldest message that the receive of a process selects, if there is one.
fn selected(records: &Records<'_>, alloc: Global, pid: &Pid) -> Result<Option<Term>, AllocError>
    ensures { IfOk result (λ message. OfWorld records.now (λ m v. v (cells.Alive pid.now) ≡ true → option_map meaning_of message ≡ selected_in records.now v pid.now)) }
{
    let Some(receiver) = records.processes().receiver(pid) else {
        return Ok(None);
    };
    let Some(place) = records.mailboxes().first(alloc, pid, &receiver)? else {
        return Ok(None);
    };
    message_at(records, pid, place)
}

// What is read to take a message, and the message that goes, if one does.
fn pick(pid: &Pid, message: Option<&Term>, planned: &mut Planned) -> Result<(), AllocError>
    ensures { OnOk result (PlansPicked pid.now (option_map (λ message. meaning_of message.now) message.entry) planned.old planned.new) }
{
    planned.read_process(ProcessPart::Taken, pid)?;
    match message {
        Some(message) => planned.change(Change::MessageTaken(pid.copy()?, message.copy()?)),
        None => planned.read_process(ProcessPart::Mailed, pid),
    }
}

// A turn that receives.
fn receive(
    records: &Records<'_>,
    alloc: Global,
    pid: &Pid,
    waits: bool,
    planned: &mut Planned,
) -> Result<Option<Deed>, AllocError>
    ensures { IfOk result (λ deed. PlansTurn pid.now (requests.Receives waits (selects_in (processes_of records.now) pid.now)) records.now deed planned.old planned.new) }
{
    let message = selected(records, alloc, pid)?;
    pick(pid, message.as_ref(), planned)?;
    match message {
        Some(message) => Ok(Some(Deed::Received(message))),
        None if waits => Ok(None),
        None => Ok(Some(Deed::TimedOut)),
    }
}

// The last turn of a process, with what it leaves.
fn end(
    records: &Records<'_>,
    alloc: Global,
    pid: &Pid,
    reason: &Term,
    planned: &mut Planned,
) -> Result<(), AllocError>
    ensures { OnOk result (OfWorld records.now (λ m v. Adds (reads_of_end v pid.now) (left_at_end v pid.now (meaning_of reason.now)) planned.old planned.new)) }
{
    leave(records, alloc, records.links(), pid, reason, planned)
}

// The turn of a process that asks this.
fn plan_request(
    records: &Records<'_>,
    alloc: Global,
    pid: &Pid,
    request: &Request,
    planned: &mut Planned,
) -> Result<Option<Deed>, AllocError>
    ensures { IfOk result (λ deed. PlansTurn pid.now (request_with (selects_in (processes_of records.now) pid.now) (told_by request.now)) records.now deed planned.old planned.new) }
{
    match request {
        Request::Call(kind, arguments) => call(records, alloc, pid, *kind, arguments, planned),
        Request::Receive { waits } => receive(records, alloc, pid, *waits, planned),
        Request::End(reason) => {
            end(records, alloc, pid, reason, planned)?;
            Ok(Some(Deed::Ended(reason.copy()?)))
        }
        Request::Runaway => {
            let reason = Term::atom(alloc, "runaway")?;
            end(records, alloc, pid, &reason, planned)?;
            Ok(Some(Deed::RanAway))
        }
    }
}

/// The turn of a process that lives; none where it must wait. `AllocError` if there is no memory.
pub(crate) fn plan_turn(
    records: &Records<'_>,
    alloc: Global,
    pid: &Pid,
    planned: &mut Planned,
) -> Result<Option<Deed>, AllocError>
    ensures { IfOk result (λ deed. PlansAsked pid.now records.now deed planned.old planned.new) }
{
    let Some(request) = records.processes().request(pid) else {
        return Ok(None);
    };
    plan_request(records, alloc, pid, request, planned)
}
