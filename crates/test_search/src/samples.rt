// Random schedules, and what they show.
use crate::modules::{HEIR, INSERTS, KILL, LINE, LINK, MAKERS, STRANGER, TWO_SENDERS};
use crate::prompt::are_among;
use crate::states::{complete, followed, listed};
use core_reader::{Module, read_module};
use search_samples::{Samples, sample_schedules};
use std::alloc::{AllocError, Global};
use std::test::Fail;
use std::thread::Threads;
use term_core::Step;
use test_support::{holds, same};
use tree_findings::{Finding, FindingList, Findings};
use tree_schedules::Delivery;
use world_core::World;
use world_identities::{Flags, Identity};

// Modules that show something, each with a depth.
const SHOWING: [(&str, u64); 6] = [
    (TWO_SENDERS, 60),
    (KILL, 60),
    (LINK, 60),
    (HEIR, 60),
    (STRANGER, 12),
    (INSERTS, 40),
];

// What so many random schedules show of at most so many steps.
fn sampled(
    alloc: Global,
    program: &Module,
    delivery: Delivery,
    depth: u64,
    runs: u64,
    seed: u64,
) -> Result<Findings, AllocError> {
    let samples = Samples {
        depth,
        runs,
        seed,
        delivery,
        flags: Flags {
            allow_deadlock: false,
            strict_access: false,
            idle_servers: false,
        },
    };
    sample_schedules(alloc, program, &samples)
}

// Whether the schedule beside a finding leads to a world that shows it.
fn replays(alloc: Global, program: &Module, finding: &Finding) -> Result<(), Fail> {
    let mut world = World::open(alloc, program)?;
    for step in finding.schedule.as_slice() {
        world.step(alloc, step)?;
    }
    let shown = world.errors_here(alloc)?;
    let is_shown = shown
        .as_slice()
        .iter()
        .any(|identity| *identity == finding.identity);
    holds(is_shown, "the schedule shows something else")
}

// Whether the schedules beside all findings of a list lead to what they show.
fn all_replay(alloc: Global, program: &Module, list: &FindingList) -> Result<(), Fail> {
    for finding in list.as_slice() {
        replays(alloc, program, finding)?;
    }
    Ok(())
}

#[test]
fn schedules_beside_findings_show_them(rt: HostRuntime) -> Result<(), Fail> {
    for (text, depth) in SHOWING {
        let program = read_module(rt.alloc(), text.as_bytes())?;
        let found = sampled(rt.alloc(), &program, Delivery::AnyTime, depth, 100, 1)?;
        all_replay(rt.alloc(), &program, found.errors())?;
        all_replay(rt.alloc(), &program, found.refusals())?;
    }
    Ok(())
}

// Whether random schedules of a module show nothing else than all schedules do.
fn shows_no_more<T: Threads + Sync>(
    rt: &T,
    alloc: Global,
    program: &Module,
    delivery: Delivery,
    depth: u64,
) -> Result<(), Fail> {
    let found = sampled(alloc, program, delivery, depth, 100, 2)?;
    let (all, _) = complete(followed(rt, alloc, program, delivery, depth)?.outcome)?;
    let are_errors = are_among(found.errors(), all.errors());
    let are_refusals = are_among(found.refusals(), all.refusals());
    holds(are_errors && are_refusals, "they show more than all")
}

#[test]
fn samples_show_no_more_than_all_schedules(rt: HostRuntime) -> Result<(), Fail> {
    for (text, depth) in SHOWING {
        let program = read_module(rt.alloc(), text.as_bytes())?;
        shows_no_more(&rt, rt.alloc(), &program, Delivery::AnyTime, depth)?;
        shows_no_more(&rt, rt.alloc(), &program, Delivery::AtOnce, depth)?;
    }
    Ok(())
}

// Who is killed takes a message before only where the signal is late.
#[test]
fn a_rare_order_is_met(rt: HostRuntime) -> Result<(), Fail> {
    let program = read_module(rt.alloc(), KILL.as_bytes())?;
    let found = sampled(rt.alloc(), &program, Delivery::AnyTime, 60, 1_000, 1)?;
    assert_eq!(rt; found.errors().len(), 2);
    let prompt = sampled(rt.alloc(), &program, Delivery::AtOnce, 60, 1_000, 1)?;
    assert_eq!(rt; prompt.errors().len(), 1);
    Ok(())
}

// What one random schedule of a module shows, as text.
fn listed_of_one(alloc: Global, program: &Module, seed: u64) -> Result<Vec<u8>, Fail> {
    let found = sampled(alloc, program, Delivery::AnyTime, 60, 1, seed)?;
    listed(alloc, 60, found)
}

#[test]
fn a_seed_shows_the_same_each_time(rt: HostRuntime) -> Result<(), Fail> {
    let program = read_module(rt.alloc(), TWO_SENDERS.as_bytes())?;
    for seed in [0, 1, 2, 4_294_967_295] {
        let first = listed_of_one(rt.alloc(), &program, seed)?;
        let again = listed_of_one(rt.alloc(), &program, seed)?;
        same(again.as_slice(), first.as_slice())?;
    }
    Ok(())
}

#[test]
fn seeds_show_different_schedules(rt: HostRuntime) -> Result<(), Fail> {
    let program = read_module(rt.alloc(), TWO_SENDERS.as_bytes())?;
    let first = listed_of_one(rt.alloc(), &program, 0)?;
    let mut others: u32 = 0;
    for seed in 1..20 {
        let other = listed_of_one(rt.alloc(), &program, seed)?;
        if other.as_slice() != first.as_slice() {
            others = others.saturating_add(1);
        }
    }
    assert!(rt; others > 10);
    Ok(())
}

// A process that spawns another one: each ends with a reason of its own, and either may end first.
const PAIR: &str =
    "module 'm' ['main'/0,'c'/0] attributes [] 'main'/0 = fun () -> do call 'erlang':'spawn'('m','c',[]) call 'erlang':'exit'('a') 'c'/0 = fun () -> call 'erlang':'exit'('b') end";

// Whether the end of the first process is shown.
fn is_of_first(list: &FindingList) -> bool {
    list.as_slice()
        .iter()
        .any(|finding| is_end_of_first(&finding.identity))
}

fn is_end_of_first(identity: &Identity) -> bool {
    match identity {
        Identity::End { pid, reason: _ } => pid.numbers().is_empty(),
        _ => false,
    }
}

#[test]
fn steps_are_as_likely_as_others(rt: HostRuntime) -> Result<(), Fail> {
    let program = read_module(rt.alloc(), PAIR.as_bytes())?;
    let mut of_first: u32 = 0;
    for seed in 0..1_000 {
        let found = sampled(rt.alloc(), &program, Delivery::AnyTime, 2, 1, seed)?;
        assert_eq!(rt; found.errors().len(), 1);
        if is_of_first(found.errors()) {
            of_first = of_first.saturating_add(1);
        }
    }
    assert!(rt; of_first > 430);
    assert!(rt; of_first < 570);
    Ok(())
}

// A process that waits for ever.
const WAITS: &str =
    "module 'm' ['main'/0] attributes [] 'main'/0 = fun () -> receive <X> when 'true' -> X after 'infinity' -> 'x' end";

// Whether a list has one finding, with a schedule of this length.
fn has_one_of_length(list: &FindingList, length: u64) -> Result<(), Fail> {
    holds(list.len() == 1, "not one was found")?;
    for finding in list.as_slice() {
        holds(
            finding.schedule.len() as u64 == length,
            "it has another length",
        )?;
    }
    Ok(())
}

#[test]
fn the_beginning_shows_its_deadlock(rt: HostRuntime) -> Result<(), Fail> {
    let program = read_module(rt.alloc(), WAITS.as_bytes())?;
    for depth in [0, 1, 400] {
        let found = sampled(rt.alloc(), &program, Delivery::AnyTime, depth, 1, 1)?;
        has_one_of_length(found.errors(), 0)?;
    }
    Ok(())
}

// How long the whole schedules of `INSERTS` are: four turns of its first process, which waits then, and six of each other.
const INSERTED: u64 = 22;

// A schedule ends where no step may be taken, and what is shown there is found, at the depth too.
#[test]
fn the_end_shows_its_deadlock(rt: HostRuntime) -> Result<(), Fail> {
    let program = read_module(rt.alloc(), INSERTS.as_bytes())?;
    for depth in [INSERTED, INSERTED + 1, 400] {
        let found = sampled(rt.alloc(), &program, Delivery::AtOnce, depth, 1, 3)?;
        has_one_of_length(found.errors(), INSERTED)?;
    }
    let cut_off = sampled(rt.alloc(), &program, Delivery::AtOnce, INSERTED - 1, 100, 3)?;
    assert_eq!(rt; cut_off.errors().len(), 0);
    Ok(())
}

#[test]
fn modules_without_errors_show_none(rt: HostRuntime) -> Result<(), Fail> {
    for text in [LINE, MAKERS] {
        let program = read_module(rt.alloc(), text.as_bytes())?;
        let found = sampled(rt.alloc(), &program, Delivery::AnyTime, 60, 100, 1)?;
        assert_eq!(rt; found.errors().len(), 0);
        assert_eq!(rt; found.refusals().len(), 0);
    }
    Ok(())
}

#[test]
fn no_run_shows_nothing(rt: HostRuntime) -> Result<(), Fail> {
    let program = read_module(rt.alloc(), WAITS.as_bytes())?;
    let found = sampled(rt.alloc(), &program, Delivery::AnyTime, 60, 0, 1)?;
    assert_eq!(rt; found.errors().len(), 0);
    Ok(())
}

// Whether a step may be taken where signals are delivered at once: the first delivery that is enabled, or any turn where
// none is.
fn is_prompt(step: &Step, enabled: &[Step]) -> bool {
    for other in enabled {
        if matches!(other, Step::Deliver(_, _)) {
            return *step == *other;
        }
    }
    true
}

// Whether each step of a schedule may be taken where signals are delivered at once.
fn delivers_at_once(alloc: Global, program: &Module, schedule: &[Step]) -> Result<(), Fail> {
    let mut world = World::open(alloc, program)?;
    for step in schedule {
        let enabled = world.enabled(alloc)?;
        holds(is_prompt(step, enabled.as_slice()), "a signal is late")?;
        world.step(alloc, step)?;
    }
    Ok(())
}

#[test]
fn prompt_samples_deliver_at_once(rt: HostRuntime) -> Result<(), Fail> {
    for (text, depth) in SHOWING {
        let program = read_module(rt.alloc(), text.as_bytes())?;
        let found = sampled(rt.alloc(), &program, Delivery::AtOnce, depth, 100, 4)?;
        for finding in found.errors().as_slice() {
            delivers_at_once(rt.alloc(), &program, finding.schedule.as_slice())?;
        }
    }
    Ok(())
}
