// What turns and deliveries of aliases and timers would do.
use crate::plans::{Line, come_to, does, go, module_of, pid_of, turn_of};
use std::alloc::Global;
use std::test::Fail;
use term_core::Step;
use world_records::Records;

const BEGIN: [Line; 6] = [
    (
        "call 'erlang':'alias'()",
        "#P.1",
        "Machine Alive",
        "GuardSet",
    ),
    (
        "call 'erlang':'alias'(['reply'])",
        "#P.1",
        "Machine Alive",
        "GuardSet",
    ),
    (
        "call 'erlang':'monitor'('process',call 'erlang':'self'(),[{'alias','demonitor'}])",
        "#P.1",
        "Machine Alive Alive",
        "WatchSet",
    ),
    (
        "call 'erlang':'monitor'('process',call 'erlang':'self'(),[])",
        "#P.1",
        "Machine Alive Alive",
        "WatchSet",
    ),
    (
        "call 'erlang':'start_timer'(5,call 'erlang':'self'(),'x')",
        "#P.1",
        "Machine Alive Alive",
        "GuardSet SignalPut",
    ),
    (
        "call 'erlang':'send_after'(0,call 'erlang':'self'(),'x')",
        "#P.1",
        "Machine Alive Alive",
        "GuardSet SignalPut",
    ),
];

const REFUSED: [Line; 8] = [
    (
        "call 'erlang':'alias'(['x'])",
        "badarg",
        "Machine Alive",
        "",
    ),
    (
        "call 'erlang':'monitor'('process',call 'erlang':'self'(),[{'tag','x'}])",
        "badarg",
        "Machine Alive Alive",
        "",
    ),
    (
        "call 'erlang':'monitor'('port',call 'erlang':'self'(),[{'alias','demonitor'}])",
        "badarg",
        "Machine Alive Alive",
        "",
    ),
    (
        "call 'erlang':'unalias'('x')",
        "badarg",
        "Machine Alive",
        "",
    ),
    (
        "call 'erlang':'start_timer'(-1,call 'erlang':'self'(),'x')",
        "badarg",
        "Machine Alive Alive",
        "",
    ),
    (
        "call 'erlang':'send_after'(1,'n','x')",
        "badarg",
        "Machine Alive",
        "",
    ),
    (
        "call 'erlang':'cancel_timer'('x')",
        "badarg",
        "Machine Alive",
        "",
    ),
    (
        "call 'erlang':'read_timer'('x')",
        "badarg",
        "Machine Alive",
        "",
    ),
];

const THEN: [Line; 11] = [
    (
        "call 'erlang':'monitor'('process',call 'erlang':'spawn'('m','f',[]),[{'alias','demonitor'}])",
        "#P.2",
        "Machine Alive Alive",
        "WatchSet GuardSet",
    ),
    (
        "call 'erlang':'!'(call 'erlang':'alias'(),'x')",
        "'x'",
        "Machine Alive Guard Alive",
        "SignalPut",
    ),
    (
        "call 'erlang':'!'(call 'erlang':'alias'(['reply']),'x')",
        "'x'",
        "Machine Alive Guard Alive",
        "SignalPut",
    ),
    (
        "call 'erlang':'!'(call 'erlang':'monitor'('process',call 'erlang':'self'(),[{'alias','reply_demonitor'}]),'x')",
        "'x'",
        "Machine Alive Guard",
        "",
    ),
    (
        "call 'erlang':'send'(call 'erlang':'make_ref'(),'x')",
        "'x'",
        "Machine Alive Guard",
        "",
    ),
    (
        "call 'erlang':'unalias'(call 'erlang':'alias'())",
        "'true'",
        "Machine Alive Guard",
        "GuardCleared",
    ),
    (
        "call 'erlang':'unalias'(call 'erlang':'make_ref'())",
        "'false'",
        "Machine Alive Guard",
        "",
    ),
    (
        "call 'erlang':'demonitor'(call 'erlang':'monitor'('process',call 'erlang':'self'(),[{'alias','demonitor'}]))",
        "'true'",
        "Machine Alive Watch Alive",
        "WatchCleared GuardUnwatched",
    ),
    (
        "call 'erlang':'cancel_timer'(call 'erlang':'start_timer'(5,call 'erlang':'self'(),'x'))",
        "5",
        "Machine Alive Guard Alive",
        "GuardCleared",
    ),
    (
        "call 'erlang':'read_timer'(call 'erlang':'send_after'(7,call 'erlang':'self'(),'x'))",
        "7",
        "Machine Alive Guard Alive",
        "",
    ),
    (
        "call 'erlang':'read_timer'(call 'erlang':'alias'())",
        "'false'",
        "Machine Alive Guard",
        "",
    ),
];

// Checks that each line results in what it says, each as the second turn of a new world.
pub(crate) fn come_then(alloc: Global, lines: &[Line]) -> Result<(), Fail> {
    for line in lines {
        let (call, _want, _reads, _changes) = line;
        let program = module_of(alloc, call)?;
        let mut records = Records::open(alloc, &program)?;
        go(alloc, &mut records, turn_of(alloc, 0)?)?;
        does(alloc, &records, turn_of(alloc, 0)?, line)?;
    }
    Ok(())
}

#[test]
fn aliases_and_timers_begin(rt: HostRuntime) -> Result<(), Fail> {
    come_to(rt.alloc(), &BEGIN)
}

#[test]
fn other_arguments_are_refused(rt: HostRuntime) -> Result<(), Fail> {
    come_to(rt.alloc(), &REFUSED)
}

#[test]
fn aliases_and_timers_are_used(rt: HostRuntime) -> Result<(), Fail> {
    come_then(rt.alloc(), &THEN)
}

// Checks what becomes of a signal for the first process, from itself or from its first timer, after so many turns.
pub(crate) fn comes(alloc: Global, turns: u64, sender: u64, line: &Line) -> Result<(), Fail> {
    let (call, _want, _reads, _changes) = line;
    let program = module_of(alloc, call)?;
    let mut records = Records::open(alloc, &program)?;
    for _ in 0..turns {
        go(alloc, &mut records, turn_of(alloc, 0)?)?;
    }
    let step = Step::Deliver(pid_of(alloc, sender)?, pid_of(alloc, 0)?);
    does(alloc, &records, step, line)
}

#[test]
fn timer_sends_for_itself(rt: HostRuntime) -> Result<(), Fail> {
    let elapses = (
        "call 'erlang':'start_timer'(5,call 'erlang':'self'(),'x')",
        "is delivered",
        "Alive Front Guard",
        "GuardCleared MessageAdded",
    );
    comes(rt.alloc(), 1, 1, &elapses)
}

#[test]
fn aliases_of_the_sender_let_its_messages_in(rt: HostRuntime) -> Result<(), Fail> {
    let alloc = rt.alloc();
    let stays = (
        "call 'erlang':'!'(call 'erlang':'alias'(),'x')",
        "is delivered",
        "Alive Front Guard",
        "MessageAdded",
    );
    comes(alloc, 2, 0, &stays)?;
    let ends = (
        "call 'erlang':'!'(call 'erlang':'alias'(['reply']),'x')",
        "is delivered",
        "Alive Front Guard Watch",
        "GuardCleared MessageAdded",
    );
    comes(alloc, 2, 0, &ends)
}
