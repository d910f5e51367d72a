// Explorations by states, beside those of the tree.
use crate::budgets::{options, searched, text_of};
use crate::modules::{CROWD, EXPLORED, LINE, MAKERS};
use core_reader::{Module, read_module};
use search_crew::Unwatched;
use search_states::{LevelObserver, Searched, Unobserved, search_states};
use std::alloc::{AllocError, Global};
use std::sync::Wait;
use std::sync::atomic::{AtomicU64, Ordering};
use std::test::Fail;
use std::thread::Threads;
use test_support::same;
use tree_findings::{Cause, Extent, Findings, Options, Outcome, Search};
use tree_schedules::Delivery;

// What is explored by states, with so many of them at most.
fn options_of_states(depth: u64, states: u64) -> Options {
    Options {
        nodes: states,
        search: Search::ByStates(Delivery::AnyTime),
        ..options(depth, 1)
    }
}

/// What a search by states results in that delivers signals so, with a million states at most.
pub(crate) fn followed<T: Threads + Sync>(
    rt: &T,
    alloc: Global,
    program: &Module,
    delivery: Delivery,
    depth: u64,
) -> Result<Searched, AllocError> {
    let options = options_of_states(depth, 1_000_000);
    search_states(rt, alloc, program, &options, delivery, &Unobserved)
}

/// What was found by a search that reached its end, and how far it came.
pub(crate) fn complete(outcome: Outcome) -> Result<(Findings, Extent), Fail> {
    match outcome {
        Outcome::Complete(found, extent) => Ok((found, extent)),
        Outcome::Incomplete(_, found) => {
            drop(found);
            Err(Fail::from("the search was not complete"))
        }
    }
}

/// What a search of a module lists, as text. Each begins with the same line, since each is told as a tree of no node.
pub(crate) fn listed(alloc: Global, depth: u64, found: Findings) -> Result<Vec<u8>, Fail> {
    let none = Extent { nodes: 0, cut: 0 };
    let text = text_of(alloc, depth, &Outcome::Complete(found, none))?;
    Ok(text)
}

// Whether both searches list the same, with the same schedules.
fn both_list_the_same<T: Threads + Wait + Sync>(
    rt: &T,
    alloc: Global,
    text: &str,
    depth: u64,
) -> Result<(), Fail> {
    let program = read_module(alloc, text.as_bytes())?;
    let Ok(tree) = searched(rt, alloc, &program, &options(depth, 64), &Unwatched) else {
        return Err(Fail::from("the search was not begun"));
    };
    let (by_tree, _) = complete(tree)?;
    let (by_states, _) = complete(
        followed(rt, alloc, &program, Delivery::AnyTime, depth)?.outcome,
    )?;
    let by_tree = listed(alloc, depth, by_tree)?;
    let by_states = listed(alloc, depth, by_states)?;
    same(by_states.as_slice(), by_tree.as_slice())
}

#[test]
fn states_show_what_the_tree_shows(rt: HostRuntime) -> Result<(), Fail> {
    for (text, depth) in EXPLORED {
        both_list_the_same(&rt, rt.alloc(), text, depth)?;
    }
    Ok(())
}

/// Depths, how many states the line has then, and at how many of them a step is enabled at the depth.
pub(crate) const STATES: [(u64, u64, u64); 4] = [
    (40, 22, 0),
    (21, 22, 0),
    (17, 18, 1),
    (16, 17, 1),
];

#[test]
fn a_line_has_a_state_for_each_turn(rt: HostRuntime) -> Result<(), Fail> {
    let program = read_module(rt.alloc(), LINE.as_bytes())?;
    for (depth, nodes, cut) in STATES {
        let searched = followed(&rt, rt.alloc(), &program, Delivery::AnyTime, depth)?;
        assert_eq!(rt; searched.whole_to, depth, "{depth}");
        let (_, extent) = complete(searched.outcome)?;
        assert_eq!(rt; extent, Extent { nodes, cut }, "{depth}");
    }
    Ok(())
}

// Two makers of tables: what they do in one order and in the other leads to the same.
#[test]
fn orders_meet_again(rt: HostRuntime) -> Result<(), Fail> {
    let program = read_module(rt.alloc(), MAKERS.as_bytes())?;
    let (_, extent) = complete(followed(&rt, rt.alloc(), &program, Delivery::AnyTime, 5)?.outcome)?;
    assert!(rt; extent.nodes < 20);
    assert_eq!(rt; extent.cut, 0);
    Ok(())
}

// How many states may be found, and of how many steps at most all schedules are followed then.
const LIMITS: [(u64, u64); 4] = [(0, 0), (1, 0), (10, 9), (21, 20)];

// What was found by a search that met its limit.
fn stopped(outcome: Outcome) -> Result<Findings, Fail> {
    match outcome {
        Outcome::Incomplete(Cause::NodeLimit, found) => Ok(found),
        Outcome::Incomplete(Cause::Memory, found) => {
            drop(found);
            Err(Fail::from("there is no memory"))
        }
        Outcome::Complete(found, _) => {
            drop(found);
            Err(Fail::from("the limit was not met"))
        }
    }
}

// Whether a search by states stops at its limit, where all schedules of at most so many steps were followed.
fn stops_at<T: Threads + Sync>(
    rt: &T,
    alloc: Global,
    program: &Module,
    states: u64,
    whole_to: u64,
) -> Result<(), Fail> {
    let options = options_of_states(40, states);
    let searched = search_states(rt, alloc, program, &options, Delivery::AnyTime, &Unobserved)?;
    let told = searched.whole_to;
    let found = stopped(searched.outcome)?;
    if told == whole_to && found.errors().len() == 0 {
        return Ok(());
    }
    Err(Fail::from("it stopped elsewhere"))
}

#[test]
fn a_limit_tells_how_far_all_were_followed(rt: HostRuntime) -> Result<(), Fail> {
    let program = read_module(rt.alloc(), LINE.as_bytes())?;
    for (states, whole_to) in LIMITS {
        stops_at(&rt, rt.alloc(), &program, states, whole_to)?;
    }
    Ok(())
}

#[test]
fn a_limit_of_all_states_is_not_met(rt: HostRuntime) -> Result<(), Fail> {
    let program = read_module(rt.alloc(), LINE.as_bytes())?;
    let searched = search_states(
        &rt,
        rt.alloc(),
        &program,
        &options_of_states(40, 22),
        Delivery::AnyTime,
        &Unobserved,
    )?;
    let (_, extent) = complete(searched.outcome)?;
    assert_eq!(rt; extent, Extent { nodes: 22, cut: 0 });
    Ok(())
}

// What is listed of a module with thousands of states on a level, which so many threads follow, and how far it came.
fn listed_by<T: Threads + Sync>(
    rt: &T,
    alloc: Global,
    program: &Module,
    delivery: Delivery,
    workers: u64,
) -> Result<(Vec<u8>, Extent), Fail> {
    let options = Options {
        workers,
        ..options_of_states(18, 1_000_000)
    };
    let searched = search_states(rt, alloc, program, &options, delivery, &Unobserved)?;
    let (found, extent) = complete(searched.outcome)?;
    Ok((listed(alloc, 18, found)?, extent))
}

// Whether any number of threads lists what one does.
fn threads_change_nothing<T: Threads + Sync>(
    rt: &T,
    alloc: Global,
    delivery: Delivery,
) -> Result<(), Fail> {
    let program = read_module(alloc, CROWD.as_bytes())?;
    let (alone, extent) = listed_by(rt, alloc, &program, delivery, 1)?;
    for workers in [2, 3, 4, 16] {
        let (together, too) = listed_by(rt, alloc, &program, delivery, workers)?;
        same(together.as_slice(), alone.as_slice())?;
        if too != extent {
            return Err(Fail::from("there are other states"));
        }
    }
    Ok(())
}

#[test]
fn threads_change_nothing_of_all_schedules(rt: HostRuntime) -> Result<(), Fail> {
    threads_change_nothing(&rt, rt.alloc(), Delivery::AnyTime)
}

#[test]
fn threads_change_nothing_of_prompt_schedules(rt: HostRuntime) -> Result<(), Fail> {
    threads_change_nothing(&rt, rt.alloc(), Delivery::AtOnce)
}

#[test]
fn large_levels_show_what_the_tree_shows(rt: HostRuntime) -> Result<(), Fail> {
    both_list_the_same(&rt, rt.alloc(), CROWD, 18)
}

// How many levels were told, and how many states.
#[derive(Drop)]
struct Told {
    levels: AtomicU64,
    states: AtomicU64,
}

impl LevelObserver for Told {
    fn level(&self, _steps: u64) {
        self.levels.fetch_add(1, Ordering::SeqCst);
    }

    fn visited(&self) {
        self.states.fetch_add(1, Ordering::SeqCst);
    }
}

#[test]
fn each_level_and_each_state_is_told(rt: HostRuntime) -> Result<(), Fail> {
    let program = read_module(rt.alloc(), LINE.as_bytes())?;
    let told = Told {
        levels: AtomicU64::new(0),
        states: AtomicU64::new(0),
    };
    let options = options_of_states(40, 100);
    let searched = search_states(
        &rt,
        rt.alloc(),
        &program,
        &options,
        Delivery::AnyTime,
        &told,
    )?;
    let (_, extent) = complete(searched.outcome)?;
    assert_eq!(rt; extent.nodes, 22);
    assert_eq!(rt; told.levels.load(Ordering::SeqCst), 22);
    assert_eq!(rt; told.states.load(Ordering::SeqCst), 22);
    Ok(())
}
