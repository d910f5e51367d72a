// Calls of processes: what each results in, reads and changes (the Erlang manual, module `erlang`).
ghost use Rattle.std.specs.Prelude.{IfOk};
ghost use Rattle.proc_calls.specs.Calls.{call_in};
ghost use Rattle.world_planned.specs.inside.PlannedCalls.{Plans};

use crate::binding::{demonitor, link, monitor, monitor_name, unlink};
use crate::guarding::{cancel_timer, make_alias, read_timer, start_timer, unalias};
use crate::naming::{is_alive, register, set_flag, unregister, whereis};
use crate::sending::{send, send_exit};
use crate::telling::{process_info, registered};
use proc_calls::ProcessCall;
use std::alloc::{AllocError, Global};
use term_core::Pid;
use world_planned::planned::Planned;
use world_planned::reply::Reply;
use world_planned::spawning::{make_ref, spawn};
use world_records::Records;

/// What a call of processes results in, with what it reads and changes. `AllocError` if there is no memory.
pub fn plan_process_call(
    records: &Records<'_>,
    alloc: Global,
    caller: &Pid,
    call: ProcessCall,
    planned: &mut Planned,
) -> Result<Reply, AllocError>
    ensures { IfOk result (λ reply. Plans caller.now (call_in call) records.now reply planned.old planned.new) }
{
    match call {
        ProcessCall::Spawn(way, origin) => spawn(records, alloc, caller, way, origin, planned),
        ProcessCall::Send(to, message) => send(records, caller, to, message, planned),
        ProcessCall::SendExit(to, reason) => send_exit(records, alloc, caller, to, reason, planned),
        ProcessCall::Link(to) => link(records, alloc, caller, to, planned),
        ProcessCall::Unlink(from) => unlink(caller, from, planned),
        ProcessCall::Monitor(kind, whom, alias) => {
            monitor(records, alloc, caller, kind, whom, alias, planned)
        }
        ProcessCall::MonitorName(kind, name, alias) => {
            monitor_name(records, alloc, caller, kind, name, alias, planned)
        }
        ProcessCall::Demonitor(reference, flushing) => {
            demonitor(records, caller, reference, flushing, planned)
        }
        ProcessCall::Flag(trapping) => set_flag(records, caller, trapping, planned),
        ProcessCall::Register(name, whom) => register(records, name, whom, planned),
        ProcessCall::Unregister(name) => unregister(records, name, planned),
        ProcessCall::WhereIs(name) => whereis(records, alloc, name, planned),
        ProcessCall::Registered => registered(records, alloc, planned),
        ProcessCall::IsAlive(whom) => is_alive(records, caller, whom, planned),
        ProcessCall::ProcessInfo(whom, item) => {
            process_info(records, alloc, caller, whom, item, planned)
        }
        ProcessCall::MakeRef => make_ref(records, alloc, caller, planned),
        ProcessCall::MakeAlias(end) => make_alias(records, alloc, caller, end, planned),
        ProcessCall::Unalias(reference) => unalias(records, caller, reference, planned),
        ProcessCall::StartTimer(naming, time, to, message) => {
            start_timer(records, alloc, caller, naming, time, to, message, planned)
        }
        ProcessCall::CancelTimer(reference) => cancel_timer(records, reference, planned),
        ProcessCall::ReadTimer(reference) => read_timer(records, reference, planned),
    }
}
