// Who lives in a world: after spawns, ends and exit signals.
use crate::plans::pid_of;
use core_reader::read_module;
use std::alloc::{AllocError, Global};
use std::test::Fail;
use term_core::read_schedule;
use test_support::same;
use world_core::World;

// The first process spawns P.1, which waits, P.2, which ends, and P.3, which traps exits and then waits. It sends P.1 an
// exit signal and P.3 two, the second with the reason 'kill', and ends.
const MODULE: &str =
    "module 'm' ['main'/0,'w'/0,'e'/0,'t'/0] attributes [] 'main'/0 = fun () -> let <W> = call 'erlang':'spawn'('m','w',[]) in do call 'erlang':'spawn'('m','e',[]) let <T> = call 'erlang':'spawn'('m','t',[]) in do call 'erlang':'exit'(W,'bye') do call 'erlang':'exit'(T,'bye') do call 'erlang':'exit'(T,'kill') 'ok' 'w'/0 = fun () -> receive <X> when 'true' -> X after 'infinity' -> 'x' 'e'/0 = fun () -> 'ok' 't'/0 = fun () -> do call 'erlang':'process_flag'('trap_exit','true') receive <X> when 'true' -> X after 'infinity' -> 'x' end";

// Steps, one after the other, and who lives after each. A process lives once it is spawned. One that was sent an exit
// signal lives until that arrives, and one that traps exits goes on, unless it is killed. P.3 lives longer than the process
// that spawned it.
const LIVES: [(&str, &str); 13] = [
    ("", "0"),
    ("P", "0 1"),
    ("P", "0 1 2"),
    ("P", "0 1 2 3"),
    ("P.2", "0 1 3"),
    ("P.3", "0 1 3"),
    ("P", "0 1 3"),
    ("P>P.1", "0 3"),
    ("P", "0 3"),
    ("P>P.3", "0 3"),
    ("P", "0 3"),
    ("P", "3"),
    ("P>P.3", ""),
];

// The numbers below 5 of the processes that live, where 0 is the first.
fn living(alloc: Global, world: &World<'_>) -> Result<String, AllocError> {
    let mut text = String::new(alloc);
    for number in 0..5 {
        if world.alive(&pid_of(alloc, number)?) {
            push_number(alloc, &mut text, number)?;
        }
    }
    Ok(text)
}

// A number, a space before it unless it is the first.
fn push_number(alloc: Global, text: &mut String, number: u64) -> Result<(), AllocError> {
    if !text.is_empty() {
        text.push(' ')?;
    }
    text.push_str(format!(in alloc; "{number}")?.as_str())
}

#[test]
fn processes_live_from_spawn_to_end(rt: HostRuntime) -> Result<(), Fail> {
    let alloc = rt.alloc();
    let program = read_module(alloc, MODULE.as_bytes())?;
    let mut world = World::open(alloc, &program)?;
    for (steps, wanted) in LIVES {
        world.advance(alloc, read_schedule(alloc, steps.as_bytes())?.as_slice())?;
        same(living(alloc, &world)?.as_bytes(), wanted.as_bytes())?;
    }
    Ok(())
}
