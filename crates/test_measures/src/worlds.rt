// Worlds with much in them, and their copies.
use core_reader::{Module, ReadFault, read_module};
use std::alloc::{AllocError, Global};
use term_core::{Pid, Step};
use world_core::{World, WorldFault};

const COPIES: u32 = 1_000_000;

// More steps than any of these worlds takes one after another.
const STEPS: u32 = 1_000_000;

/// How much is in a world: its processes, the references that the first one makes, the messages to itself that it has
/// not received, and the objects of its table, which come by five hundreds.
#[derive(Clone, Copy)]
pub(crate) struct Contents {
    processes: u32,
    references: u32,
    messages: u32,
    objects: u32,
}

/// What is in a world of ten processes, where one of four things is as many as `size`.
pub(crate) fn contents_of(name: &str, size: u32) -> Option<Contents> {
    let plain = Contents {
        processes: 10,
        references: 400,
        messages: 1_000,
        objects: 10_000,
    };
    match name {
        "processes" => Some(Contents {
            processes: size,
            ..plain
        }),
        "references" => Some(Contents {
            references: size,
            ..plain
        }),
        "messages" => Some(Contents {
            messages: size,
            ..plain
        }),
        "objects" => Some(Contents {
            objects: size,
            ..plain
        }),
        _ => None,
    }
}

// The module that makes such a world, and then waits for ever.
fn module(alloc: Global, contents: Contents) -> Result<Module, ReadFault> {
    let others = contents.processes.saturating_sub(1);
    let references = contents.references;
    let messages = contents.messages;
    let objects = contents.objects;
    let text = format!(in alloc;
        "module 'm' ['main'/0,'c'/0] attributes [] 'main'/0 = fun () -> do call 'ets':'new'('t',['named_table']) do apply 'begin'/1({others}) do apply 'put'/1({objects}) do apply 'send'/1({messages}) do apply 'make'/1({references}) apply 'c'/0() 'c'/0 = fun () -> receive <'none'> when 'true' -> 'ok' after 'infinity' -> 'ok' 'begin'/1 = fun (N) -> case N of <0> when 'true' -> 'ok' <M> when 'true' -> do call 'erlang':'spawn'('m','c',[]) apply 'begin'/1(call 'erlang':'-'(M,1)) end 'make'/1 = fun (N) -> case N of <0> when 'true' -> 'ok' <M> when 'true' -> do call 'erlang':'make_ref'() apply 'make'/1(call 'erlang':'-'(M,1)) end 'send'/1 = fun (N) -> case N of <0> when 'true' -> 'ok' <M> when 'true' -> do call 'erlang':'!'(call 'erlang':'self'(),M) apply 'send'/1(call 'erlang':'-'(M,1)) end 'put'/1 = fun (N) -> case N of <0> when 'true' -> 'ok' <M> when 'true' -> do call 'ets':'insert'('t',apply 'objects'/3(M,500,[])) apply 'put'/1(call 'erlang':'-'(M,500)) end 'objects'/3 = fun (N,K,Os) -> case K of <0> when 'true' -> Os <L> when 'true' -> apply 'objects'/3(call 'erlang':'-'(N,1),call 'erlang':'-'(L,1),[{{N,'x'}}|Os]) end end"
    )?;
    read_module(alloc, text.as_bytes())
}

// Takes a step again and again, as long as it is enabled; how often it was taken.
fn take_all(alloc: Global, world: &mut World<'_>, step: &Step) -> Result<u32, WorldFault> {
    for taken in 0..STEPS {
        match world.step(alloc, step) {
            Ok(()) => {}
            Err(WorldFault::NotEnabled) => return Ok(taken),
            Err(WorldFault::Memory) => return Err(WorldFault::Memory),
        }
    }
    Ok(STEPS)
}

// The first process.
fn first(alloc: Global) -> Result<Pid, AllocError> {
    Pid::new(alloc, Vec::new(alloc))
}

// The world after all turns of the first process and all deliveries to it, copied a million times; how many steps led
// there.
fn copied(alloc: Global, program: &Module) -> Result<u32, WorldFault> {
    let mut world = World::open(alloc, program)?;
    let turns = take_all(alloc, &mut world, &Step::Turn(first(alloc)?))?;
    let deliveries = take_all(
        alloc,
        &mut world,
        &Step::Deliver(first(alloc)?, first(alloc)?),
    )?;
    for _ in 0..COPIES {
        world = world.copy()?;
    }
    Ok(turns.saturating_add(deliveries))
}

/// Copies a world of these contents a million times, and counts the steps that led there; none where there was no
/// memory.
pub(crate) fn copy_world(alloc: Global, contents: Contents) -> Option<u32> {
    let program = module(alloc, contents).ok()?;
    copied(alloc, &program).ok()
}
