// Messages and exit signals (erlang manual, `send/2`, `exit/2`).
ghost use Rattle.std.specs.Prelude.{◌≡◌, ◌∷◌, [], IfOk, OnOk, Some, option_map};
ghost use Rattle.proc_calls.specs.Arguments.{destination_in};
ghost use Rattle.proc_signals.specs.Signal.{signal_of};
ghost use Rattle.world_planned.specs.inside.Planned.{Adds};
ghost use Rattle.world_planned.specs.inside.PlannedCalls.{Plans};
ghost use Rattle.term_core.specs.Term.{meaning_of};
ghost use Rattle.world_model.specs.Calls as calls;
ghost use Rattle.world_model.specs.Cells as cells;
ghost use Rattle.world_model.specs.Changes as changes;
ghost use Rattle.world_model.specs.Ends.{reads_of_end};
ghost use Rattle.world_model.specs.Names.{ref_of, same_pid};
ghost use Rattle.world_model.specs.Signals.{put_if};
ghost use Rattle.world_model.specs.Steps.{ends_itself};
ghost use Rattle.world_records.specs.Records.{OfWorld};
ghost use Rattle.world_planned.specs.inside.Messages.{PlansExited, PlansSent};
ghost use Rattle.world_planned.specs.inside.Seen.{left_at_end};

use proc_calls::Destination;
use proc_links::{Effect, Sender, exit_message, on_exit};
use proc_signals::Signal;
use std::alloc::{AllocError, Global};
use term_core::{Atom, Pid, RefId, Term};
use world_planned::ends::leave;
use world_planned::planned::Planned;
use world_planned::readings::{aliased, holder, lives};
use world_planned::reply::{Refusal, Reply, done};
use world_records::{Change, NamePart, ProcessPart, Records, ReferencePart};

// A message to oneself, which comes in at once.
fn mail(caller: &Pid, message: Term, planned: &mut Planned) -> Result<(), AllocError>
    ensures { OnOk result (Adds (cells.Trap caller.now ∷ []) (changes.MessageAdded caller.now (meaning_of message) ∷ []) planned.old planned.new) }
{
    planned.read_process(ProcessPart::Trap, caller)?;
    planned.change(Change::MessageAdded(caller.copy()?, message))
}

// A signal for another process, which is put if that lives.
fn put(
    records: &Records<'_>,
    caller: &Pid,
    to: &Pid,
    signal: Signal,
    planned: &mut Planned,
) -> Result<(), AllocError>
    ensures { OnOk result (OfWorld records.now (λ m v. Adds (cells.Alive to.now ∷ []) (put_if (v (cells.Alive to.now)) caller.now to.now (signal_of signal)) planned.old planned.new)) }
{
    planned.read_process(ProcessPart::Alive, to)?;
    if lives(records, to) {
        planned.change(Change::SignalPut(caller.copy()?, to.copy()?, signal))?;
    }
    Ok(())
}

// Whether two processes are one.
fn are_one(pid: &Pid, other: &Pid) -> bool
    ensures { result ≡ same_pid pid.now other.now }
{
    *pid == *other
}

// A message for a process.
fn send_message(
    records: &Records<'_>,
    caller: &Pid,
    to: &Pid,
    message: Term,
    planned: &mut Planned,
) -> Result<(), AllocError>
    ensures { OnOk result (OfWorld records.now (λ m v. PlansSent v caller.now to.now (meaning_of message) planned.old planned.new)) }
{
    if are_one(caller, to) {
        mail(caller, message, planned)?;
    } else {
        put(records, caller, to, Signal::Message(message), planned)?;
    }
    Ok(())
}

// `send/2` to a process.
fn send_to_process(
    records: &Records<'_>,
    caller: &Pid,
    to: &Pid,
    message: Term,
    planned: &mut Planned,
) -> Result<Reply, AllocError>
    ensures { IfOk result (λ reply. Plans caller.now (calls.Send (calls.ToProcess to.now) (meaning_of message)) records.now reply planned.old planned.new) }
{
    let answer = message.copy()?;
    send_message(records, caller, to, message, planned)?;
    Ok(Reply::Served(answer))
}

// `send/2` to the holder of a name.
fn send_to_name(
    records: &Records<'_>,
    caller: &Pid,
    name: &Atom,
    message: Term,
    planned: &mut Planned,
) -> Result<Reply, AllocError>
    ensures { IfOk result (λ reply. Plans caller.now (calls.Send (calls.ToName name.now) (meaning_of message)) records.now reply planned.old planned.new) }
{
    planned.read_name(NamePart::Holder, name)?;
    let Some(to) = holder(records, name) else {
        return Ok(Reply::Refused(Refusal::BadArgument));
    };
    let answer = message.copy()?;
    send_message(records, caller, to, message, planned)?;
    Ok(Reply::Served(answer))
}

// `send/2` to the holder of a name at the own node, if it has one.
fn send_to_node(
    records: &Records<'_>,
    caller: &Pid,
    name: Atom,
    message: Term,
    planned: &mut Planned,
) -> Result<Reply, AllocError>
    ensures { IfOk result (λ reply. Plans caller.now (calls.Send (calls.ToNode name) (meaning_of message)) records.now reply planned.old planned.new) }
{
    planned.read_name(NamePart::Holder, &name)?;
    let Some(receiver) = holder(records, &name) else {
        return Ok(Reply::Served(message));
    };
    let answer = message.copy()?;
    send_message(records, caller, receiver, message, planned)?;
    Ok(Reply::Served(answer))
}

// `send/2` to the process that a reference is an alias of.
fn send_to_reference(
    records: &Records<'_>,
    caller: &Pid,
    reference: &RefId,
    message: Term,
    planned: &mut Planned,
) -> Result<Reply, AllocError>
    ensures { IfOk result (λ reply. Plans caller.now (calls.Send (calls.ToReference (ref_of reference.now)) (meaning_of message)) records.now reply planned.old planned.new) }
{
    planned.read_reference(ReferencePart::Guard, reference)?;
    let Some(owner) = aliased(records, reference) else {
        return Ok(Reply::Served(message));
    };
    let answer = message.copy()?;
    let guarded = Signal::Guarded(reference.copy()?, message);
    put(records, caller, owner, guarded, planned)?;
    Ok(Reply::Served(answer))
}

/// `!/2` and `send/2`. `AllocError` if there is no memory.
pub(crate) fn send(
    records: &Records<'_>,
    caller: &Pid,
    destination: Destination,
    message: Term,
    planned: &mut Planned,
) -> Result<Reply, AllocError>
    ensures { IfOk result (λ reply. Plans caller.now (calls.Send (destination_in destination) (meaning_of message)) records.now reply planned.old planned.new) }
{
    match destination {
        Destination::ToProcess(to) => send_to_process(records, caller, &to, message, planned),
        Destination::ToName(name) => send_to_name(records, caller, &name, message, planned),
        Destination::ToReference(reference) => {
            send_to_reference(records, caller, &reference, message, planned)
        }
        Destination::ToNode(name) => send_to_node(records, caller, name, message, planned),
        Destination::ToAnotherNode => Ok(Reply::Served(message)),
        Destination::ToNobody => Ok(Reply::Refused(Refusal::BadArgument)),
    }
}

// The reason with which an exit signal ends its sender: one to oneself may.
fn own_end(
    records: &Records<'_>,
    alloc: Global,
    caller: &Pid,
    to: &Pid,
    reason: &Term,
) -> Result<Option<Term>, AllocError>
    ensures { IfOk result (λ end. OfWorld records.now (λ m v. option_map meaning_of end ≡ ends_itself v caller.now (calls.SendExit (Some to.now) (meaning_of reason.now)))) }
{
    if *caller != *to {
        return Ok(None);
    }
    let exits = records.processes().exits(caller);
    match on_exit(alloc, Sender::Itself, caller, reason, exits)? {
        Effect::Ends(reason) => Ok(Some(reason)),
        _ => Ok(None),
    }
}

// An exit signal that does not end its sender.
fn send_signal(
    records: &Records<'_>,
    alloc: Global,
    caller: &Pid,
    to: &Pid,
    reason: Term,
    planned: &mut Planned,
) -> Result<(), AllocError>
    ensures { OnOk result (OfWorld records.now (λ m v. PlansExited v caller.now to.now (meaning_of reason) planned.old planned.new)) }
{
    if are_one(caller, to) {
        let message = exit_message(alloc, caller, &reason)?;
        mail(caller, message, planned)?;
    } else {
        put(records, caller, to, Signal::Exit(reason), planned)?;
    }
    Ok(())
}

// An exit signal that ends its sender with this reason.
fn end_caller(
    records: &Records<'_>,
    alloc: Global,
    caller: &Pid,
    reason: &Term,
    planned: &mut Planned,
) -> Result<(), AllocError>
    ensures { OnOk result (OfWorld records.now (λ m v. Adds (cells.Trap caller.now ∷ reads_of_end v caller.now) (left_at_end v caller.now (meaning_of reason.now)) planned.old planned.new)) }
{
    planned.read_process(ProcessPart::Trap, caller)?;
    leave(records, alloc, records.links(), caller, reason, planned)?;
    Ok(())
}

// `exit/2` of a process.
fn exit_process(
    records: &Records<'_>,
    alloc: Global,
    caller: &Pid,
    to: &Pid,
    reason: Term,
    planned: &mut Planned,
) -> Result<Reply, AllocError>
    ensures { IfOk result (λ reply. Plans caller.now (calls.SendExit (Some to.now) (meaning_of reason)) records.now reply planned.old planned.new) }
{
    if let Some(ending) = own_end(records, alloc, caller, to, &reason)? {
        end_caller(records, alloc, caller, &ending, planned)?;
        return Ok(Reply::Ends(ending));
    }
    send_signal(records, alloc, caller, to, reason, planned)?;
    Ok(Reply::Served(done()))
}

/// `exit/2`. `AllocError` if there is no memory.
pub(crate) fn send_exit(
    records: &Records<'_>,
    alloc: Global,
    caller: &Pid,
    to: Option<Pid>,
    reason: Term,
    planned: &mut Planned,
) -> Result<Reply, AllocError>
    ensures { IfOk result (λ reply. Plans caller.now (calls.SendExit to (meaning_of reason)) records.now reply planned.old planned.new) }
{
    match to {
        Some(to) => exit_process(records, alloc, caller, &to, reason, planned),
        None => Ok(Reply::Refused(Refusal::BadArgument)),
    }
}
