// Worlds that came about by different schedules, and whether their records are the same.
use crate::plans::pid_of;
use core_reader::{Module, read_module};
use proc_machines::Processes;
use std::alloc::{AllocError, Global};
use std::hash::{FoldHasher, Hasher};
use std::test::Fail;
use term_core::{Pid, read_schedule};
use test_support::holds;
use world_core::World;
use world_records::Place;

// The first process makes a table, spawns P.2 and P.3, and waits. Each of these puts in an object under its own key, then
// one under the key of both, and then sends the first process its own name.
const MODULE: &str =
    "module 'm' ['main'/0,'c'/2] attributes [] 'main'/0 = fun () -> let <S> = call 'erlang':'self'() in do call 'ets':'new'('t',['named_table','public','bag']) do call 'erlang':'spawn'('m','c',['x',S]) do call 'erlang':'spawn'('m','c',['y',S]) receive <'z'> when 'true' -> 'ok' after 'infinity' -> 'ok' 'c'/2 = fun (X,S) -> do call 'ets':'insert'('t',{X,1}) do call 'ets':'insert'('t',{'k',X}) do call 'erlang':'!'(S,X) 'ok' end";

// What comes before two schedules, the two, and whether the worlds are the same after them.
const ROWS: [(&str, &str, &str, bool); 6] = [
    // two steps that do not depend on each other
    ("P P P", "P.2 P.3", "P.3 P.2", true),
    ("P P P P.2 P.3 P.2 P.3", "P.2 P.3", "P.3 P.2", true),
    // one step more
    ("P P P", "P.2", "P.2 P.3", false),
    // the objects under one key, in two orders
    ("P P P P.2 P.3", "P.2 P.3", "P.3 P.2", false),
    // a signal that is on its way still
    ("P P P P.2 P.2", "P.2", "P.2 P.2>P", false),
    // the messages in a mailbox, in two orders
    (
        "P P P P.2 P.3 P.2 P.3 P.2 P.3",
        "P.2>P P.3>P",
        "P.3>P P.2>P",
        false,
    ),
];

// A new world after a schedule, and after another one.
fn world_after<'m>(
    alloc: Global,
    program: &'m Module,
    first: &str,
    then: &str,
) -> Result<World<'m>, Fail> {
    let mut world = World::open(alloc, program)?;
    world.advance(alloc, read_schedule(alloc, first.as_bytes())?.as_slice())?;
    world.advance(alloc, read_schedule(alloc, then.as_bytes())?.as_slice())?;
    Ok(world)
}

// The course and the mailbox of each of the three processes, and what all share.
fn places(alloc: Global) -> Result<Vec<Place>, AllocError> {
    let mut places = Vec::new(alloc);
    for number in [0, 2, 3] {
        places.push(Place::Course(pid_of(alloc, number)?))?;
        places.push(Place::Inbox(pid_of(alloc, number)?))?;
    }
    for number in [2, 3] {
        places.push(Place::Channel(pid_of(alloc, number)?, pid_of(alloc, 0)?))?;
    }
    places.push(Place::Links)?;
    places.push(Place::Watches)?;
    places.push(Place::Names)?;
    places.push(Place::Tables)?;
    Ok(places)
}

// Whether two worlds are the same at all places, and found by the same numbers there.
fn are_same(alloc: Global, one: &World<'_>, other: &World<'_>) -> Result<bool, AllocError> {
    for place in places(alloc)?.as_slice() {
        let is_same = one.records().is_same_at(place, other.records());
        if !is_same || one.records().digest_at(place) != other.records().digest_at(place) {
            return Ok(false);
        }
    }
    Ok(true)
}

#[test]
fn worlds_are_compared(rt: HostRuntime) -> Result<(), Fail> {
    let alloc = rt.alloc();
    let program = read_module(alloc, MODULE.as_bytes())?;
    for row in &ROWS {
        let one = world_after(alloc, &program, row.0, row.1)?;
        let other = world_after(alloc, &program, row.0, row.2)?;
        holds(are_same(alloc, &one, &other)? == row.3, row.2)?;
    }
    Ok(())
}

// A number by which the course of one process is found, and whether it lives and traps exits.
fn digest_of(processes: &Processes<'_>, pid: &Pid) -> u64 {
    let mut hasher = FoldHasher::default();
    processes.feed_course(pid, &mut hasher);
    processes.feed_flags(pid, &mut hasher);
    hasher.finish()
}

// Whether one process is the same in both.
fn are_same_at(one: &Processes<'_>, other: &Processes<'_>, pid: &Pid) -> bool {
    one.is_same_course(pid, other)
        && one.is_same_flags(pid, other)
        && digest_of(one, pid) == digest_of(other, pid)
}

#[test]
fn one_process_is_taken_over(rt: HostRuntime) -> Result<(), Fail> {
    let alloc = rt.alloc();
    let program = read_module(alloc, MODULE.as_bytes())?;
    let before = world_after(alloc, &program, "P", "P")?;
    let after = world_after(alloc, &program, "P", "P P")?;
    let (early, late) = (before.records().processes(), after.records().processes());
    let first = pid_of(alloc, 0)?;
    let third = pid_of(alloc, 3)?;
    holds(!early.is_same_course(&first, late), "a turn was taken")?;
    holds(!early.is_same_course(&third, late), "a course began")?;
    holds(!early.is_same_flags(&third, late), "a process was born")?;
    let mut taken = early.copy()?;
    taken.take_course(&third, late)?;
    taken.take_flags(&third, late)?;
    holds(
        are_same_at(&taken, late, &third),
        "what began is taken over",
    )?;
    holds(are_same_at(&taken, early, &first), "the others stay")?;
    taken.take_course(&third, early)?;
    taken.take_flags(&third, early)?;
    holds(
        are_same_at(&taken, early, &third),
        "what never began is taken over",
    )
}
