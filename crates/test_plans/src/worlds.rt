// Worlds and their copies: what one of them does is not seen in the other.
use crate::plans::{changes_of, pid_of, reads_of, text_of};
use core_reader::{Module, read_module};
use std::alloc::{AllocError, Global};
use std::test::Fail;
use term_core::{Atom, Output, RefId, Step, Term, WriteFault, read_schedule, write_step};
use test_support::{holds, same};
use world_core::World;
use world_event_text::write_event;
use world_plans::plan_step;
use world_records::Records;

// The first process makes a table, spawns P.2, which is linked to it, watches it, sends it a message, and puts in two
// objects; then it unlinks P.2 and ends. P.2 takes a name and receives the message; then it deletes an object, gives its
// name back, and ends with the message as its reason.
const MODULE: &str =
    "module 'm' ['main'/0,'c'/0] attributes [] 'main'/0 = fun () -> do call 'ets':'new'('t',['named_table','public']) let <C> = call 'erlang':'spawn_link'('m','c',[]) in do call 'erlang':'monitor'('process',C) do call 'erlang':'!'(C,'hi') do call 'ets':'insert'('t',{'a',1}) do call 'ets':'insert'('t',{'b',2}) do call 'erlang':'unlink'(C) 'ok' 'c'/0 = fun () -> do call 'erlang':'register'('n',call 'erlang':'self'()) receive <X> when 'true' -> do call 'ets':'delete'('t','a') do call 'erlang':'unregister'('n') call 'erlang':'exit'(X) after 'infinity' -> 'x' end";

// To the world that is copied: there are the table and one object, the link, the watch, the name, and the message on its
// way.
const BEFORE: &str = "P P P P P P.2";

const HAS_ALL: &str = "linked true, watched true, named true, messages 0, objects 1";

// All of that goes: the message arrives and is received, the object is deleted, the name is free, P.2 is unlinked and
// ends, the watch is told, and the table goes with the first process.
const ONE_WAY: &str = "P>P.2 P.2 P.2 P.2 P P P.2 P.2>P P";

const HAS_A_MESSAGE: &str = "linked false, watched false, named false, messages 1, objects 0";

// The first process goes on to its end, and P.2 receives nothing.
const OTHER_WAY: &str = "P P P";

const HAS_A_NAME: &str = "linked false, watched true, named true, messages 0, objects 0";

// What some of the records contain: of the link, the watch, the name, the mailbox of the first process, and the key 'a'.
fn records_of(alloc: Global, records: &Records<'_>) -> Result<String, AllocError> {
    let first = pid_of(alloc, 0)?;
    let watch = RefId::new(alloc, pid_of(alloc, 0)?, 3)?;
    let table = RefId::new(alloc, pid_of(alloc, 0)?, 1)?;
    let key = Term::Atom(Atom::new(alloc, "a")?);
    let linked = records.links().are_linked(&first, &pid_of(alloc, 2)?);
    let watched = records.watchers().watch_of(&watch).is_some();
    let named = records.names().whereis(&Atom::new(alloc, "n")?).is_some();
    let messages = match records.mailboxes().of(&first) {
        Some(mailbox) => mailbox.len(),
        None => 0,
    };
    let objects = match records.tables().get(&table) {
        Some(table) => table.rows.objects(&key).len(),
        None => 0,
    };
    format!(in alloc;
        "linked {linked}, watched {watched}, named {named}, messages {messages}, objects {objects}"
    )
}

// The line of the event that happened last.
fn event_of(alloc: Global, world: &World<'_>) -> Result<Vec<u8>, WriteFault> {
    let mut sink = Output::new(Vec::new(alloc));
    if let Some(event) = world.last_event() {
        write_event(&mut sink, 1, event)?;
    }
    Ok(sink.writer)
}

// The text of a step.
fn step_of(alloc: Global, step: &Step) -> Result<Vec<u8>, WriteFault> {
    let mut sink = Output::new(Vec::new(alloc));
    write_step(step, &mut sink)?;
    Ok(sink.writer)
}

// A step, what it would do, the cells that it would read, and what it would change.
fn plan_of(alloc: Global, records: &Records<'_>, step: &Step) -> Result<Vec<u8>, Fail> {
    let Some(plan) = plan_step(records, alloc, step.copy()?)? else {
        return Err(Fail::from("an enabled step has no plan"));
    };
    let mut text = step_of(alloc, step)?;
    text.extend_from_slice(text_of(alloc, &plan.deed)?.as_slice())?;
    text.extend_from_slice(reads_of(alloc, &plan.planned)?.as_bytes())?;
    text.extend_from_slice(changes_of(alloc, &plan.planned)?.as_bytes())?;
    Ok(text)
}

// What is seen of a world: its last event, the plans of the steps that are enabled, and its records.
fn seen(alloc: Global, world: &World<'_>) -> Result<Vec<u8>, Fail> {
    let mut text = event_of(alloc, world)?;
    for step in world.enabled(alloc)?.as_slice() {
        text.extend_from_slice(plan_of(alloc, world.records(), step)?.as_slice())?;
    }
    text.extend_from_slice(records_of(alloc, world.records())?.as_bytes())?;
    Ok(text)
}

// A new world after a schedule.
fn world_after<'m>(alloc: Global, program: &'m Module, schedule: &str) -> Result<World<'m>, Fail> {
    let mut world = World::open(alloc, program)?;
    world.advance(alloc, read_schedule(alloc, schedule.as_bytes())?.as_slice())?;
    Ok(world)
}

// Checks at each of these steps that a world which takes it looks like a new one that takes it too, and that the other
// world looks as it did before.
fn goes_alone(
    alloc: Global,
    going: &mut World<'_>,
    staying: &World<'_>,
    schedule: &str,
) -> Result<(), Fail> {
    let program = read_module(alloc, MODULE.as_bytes())?;
    let mut new = world_after(alloc, &program, BEFORE)?;
    let before = seen(alloc, staying)?;
    for step in read_schedule(alloc, schedule.as_bytes())?.as_slice() {
        going.step(alloc, step)?;
        new.step(alloc, step)?;
        same(
            seen(alloc, going)?.as_slice(),
            seen(alloc, &new)?.as_slice(),
        )?;
        same(seen(alloc, staying)?.as_slice(), before.as_slice())?;
    }
    Ok(())
}

// Checks that the records of a world are as they were worked out.
fn has(alloc: Global, world: &World<'_>, wanted: &str) -> Result<(), Fail> {
    same(
        records_of(alloc, world.records())?.as_bytes(),
        wanted.as_bytes(),
    )
}

#[test]
fn a_copy_changes_nothing_of_its_world(rt: HostRuntime) -> Result<(), Fail> {
    let alloc = rt.alloc();
    let program = read_module(alloc, MODULE.as_bytes())?;
    let mut world = world_after(alloc, &program, BEFORE)?;
    let mut copy = world.copy()?;
    goes_alone(alloc, &mut copy, &world, ONE_WAY)?;
    has(alloc, &copy, HAS_A_MESSAGE)?;
    has(alloc, &world, HAS_ALL)?;
    holds(copy.enabled(alloc)?.is_empty(), "nothing is left to do")?;
    goes_alone(alloc, &mut world, &copy, OTHER_WAY)?;
    has(alloc, &world, HAS_A_NAME)
}

#[test]
fn a_world_changes_nothing_of_its_copy(rt: HostRuntime) -> Result<(), Fail> {
    let alloc = rt.alloc();
    let program = read_module(alloc, MODULE.as_bytes())?;
    let mut world = world_after(alloc, &program, BEFORE)?;
    let mut copy = world.copy()?;
    goes_alone(alloc, &mut world, &copy, ONE_WAY)?;
    has(alloc, &world, HAS_A_MESSAGE)?;
    has(alloc, &copy, HAS_ALL)?;
    goes_alone(alloc, &mut copy, &world, OTHER_WAY)?;
    has(alloc, &copy, HAS_A_NAME)
}
