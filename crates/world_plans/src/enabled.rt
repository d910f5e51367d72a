// Which steps are enabled.
ghost use Rattle.std.specs.Prelude.{◌≡◌, true, IfOk, is_some};
ghost use Rattle.proc_machines.specs.Processes.{lives_in};
ghost use Rattle.term_core.specs.declared.step.Step.TheVariants.{Turn, Deliver};
ghost use Rattle.world_model.specs.Asking.{program_of};
ghost use Rattle.world_model.specs.Steps.{next_deed};
ghost use Rattle.world_records.specs.Records.{OfWorld, processes_of, selected_in};

use crate::waiting::must_wait;
use core_eval::Request;
use std::alloc::{AllocError, Global};
use term_core::{Pid, Step};
use world_records::Records;

/// Whether a message is there that the receive of a process selects, where the process lives and waits at one.
/// `AllocError` where the search of a mailbox has no memory.
pub fn has_message(records: &Records<'_>, alloc: Global, pid: &Pid) -> Result<bool, AllocError>
    ensures { IfOk result (λ has. OfWorld records.now (λ m v. lives_in (processes_of records.now) pid.now ≡ true → has ≡ is_some (selected_in records.now v pid.now))) }
{
    let Some(receiver) = records.processes().receiver(pid) else {
        return Ok(false);
    };
    let place = records.mailboxes().first(alloc, pid, &receiver)?;
    Ok(place.is_some())
}

// Whether the turn of a process is enabled.
fn has_turn(records: &Records<'_>, alloc: Global, pid: &Pid) -> Result<bool, AllocError>
    ensures { IfOk result (λ is_so. OfWorld records.now (λ m v. is_so ≡ is_some (next_deed (program_of m) v (Turn pid.now)))) }
{
    let Some(request) = records.processes().request(pid) else {
        return Ok(false);
    };
    match request {
        Request::Call(kind, arguments) => Ok(!must_wait(records, pid, *kind, arguments)),
        Request::Receive { waits } => Ok(!*waits || has_message(records, alloc, pid)?),
        Request::End(_) => Ok(true),
        Request::Runaway => Ok(true),
    }
}

// Whether a delivery is enabled.
fn has_delivery(records: &Records<'_>, from: &Pid, to: &Pid) -> bool
    ensures { OfWorld records.now (λ m v. result ≡ is_some (next_deed (program_of m) v (Deliver from.now to.now))) }
{
    records.processes().lives(to) && records.channels().front(from, to).is_some()
}

/// Whether a step is enabled. `AllocError` where the search of a mailbox has no memory.
pub fn is_enabled(records: &Records<'_>, alloc: Global, step: &Step) -> Result<bool, AllocError>
    ensures { IfOk result (λ is_so. OfWorld records.now (λ m v. is_so ≡ is_some (next_deed (program_of m) v step.now))) }
{
    match step {
        Step::Turn(pid) => has_turn(records, alloc, pid),
        Step::Deliver(from, to) => Ok(has_delivery(records, from, to)),
    }
}
