// Searches by several workers: they are at work at the same time, and change nothing of the report.
ghost use Rattle.std.specs.Prelude.{◌≡◌, ◌≤◌};

use crate::budgets::{searched, text_of};
use crate::modules::{DEEP, INSERTS, MAKERS, MESSAGES, MIXED, STRANGER};
use core_reader::{Module, read_module};
use search_crew::{Observer, SearchFault, Unwatched};
use std::alloc::Global;
use std::sync::Wait;
use std::sync::atomic::{AtomicU64, Ordering};
use std::test::Fail;
use std::thread;
use std::thread::Threads;
use test_support::{holds, same};
use tree_findings::{Extent, Options, Outcome, Search};
use world_identities::Flags;

/// What is explored by so many workers.
pub(crate) fn options(depth: u64, budget: u64, workers: u64) -> Options
    ensures budget { result.budget ≡ budget }
    ensures workers { result.workers ≡ workers }
{
    Options {
        depth,
        nodes: 1_000_000,
        budget,
        workers,
        search: Search::ByTree,
        flags: Flags {
            allow_deadlock: false,
            strict_access: false,
            idle_servers: false,
        },
    }
}

// At its first node the third job waits, a long time at most, until the piece of the fourth was given back.
#[derive(Drop)]
struct Meeting {
    waited: AtomicU64,
    given: AtomicU64,
    met: AtomicU64,
}

impl Meeting {
    fn new() -> Meeting {
        Meeting {
            waited: AtomicU64::new(0),
            given: AtomicU64::new(0),
            met: AtomicU64::new(0),
        }
    }
}

impl Observer for Meeting {
    fn turn(&self, ticket: u64) {
        if ticket != 3 || self.waited.load(Ordering::SeqCst) == 1 {
            return;
        }
        self.waited.store(1, Ordering::SeqCst);
        for _ in 0..1_000_000 {
            if self.given.load(Ordering::SeqCst) == 1 {
                self.met.store(1, Ordering::SeqCst);
                return;
            }
            thread::yield_now();
        }
    }

    fn level(&self, _steps: u64) {}

    fn given(&self, ticket: u64) {
        if ticket == 4 {
            self.given.store(1, Ordering::SeqCst);
        }
    }
}

// How many meet, of so many workers that visit one node of their first job each.
fn met_by<T: Threads + Wait + Sync>(rt: &T, alloc: Global, workers: u64) -> Result<u64, Fail> {
    let program = read_module(alloc, MAKERS.as_bytes())?;
    let observer = Meeting::new();
    match searched(rt, alloc, &program, &options(5, 1, workers), &observer) {
        Ok(Outcome::Complete(_, Extent { nodes: 10, cut: 0 })) => Ok(
            observer.met.load(Ordering::SeqCst),
        ),
        _ => Err(Fail::from("the search was not complete")),
    }
}

#[test]
fn two_workers_meet(rt: HostRuntime) -> Result<(), Fail> {
    assert_eq!(rt; met_by(&rt, rt.alloc(), 2)?, 1);
    Ok(())
}

#[test]
fn one_worker_meets_nobody(rt: HostRuntime) -> Result<(), Fail> {
    assert_eq!(rt; met_by(&rt, rt.alloc(), 1)?, 0);
    Ok(())
}

// The report by so many workers.
fn reported<T: Threads + Wait + Sync>(
    rt: &T,
    alloc: Global,
    program: &Module,
    depth: u64,
    workers: u64,
) -> Result<Vec<u8>, Fail> {
    let Ok(outcome) = searched(rt, alloc, program, &options(depth, 4, workers), &Unwatched) else {
        return Err(Fail::from("the search has no outcome"));
    };
    let text = text_of(alloc, depth, &outcome)?;
    Ok(text)
}

// Whether the report of a module is the same by 1, 2, 4 and 16 workers.
fn workers_change_nothing_of<T: Threads + Wait + Sync>(
    rt: &T,
    alloc: Global,
    text: &str,
    depth: u64,
) -> Result<(), Fail> {
    let program = read_module(alloc, text.as_bytes())?;
    let one = reported(rt, alloc, &program, depth, 1)?;
    for workers in [2, 4, 16] {
        let many = reported(rt, alloc, &program, depth, workers)?;
        same(many.as_slice(), one.as_slice())?;
    }
    Ok(())
}

// Modules, and how many steps their schedules have.
const EXPLORED: [(&str, u64); 6] = [
    (STRANGER, 5),
    (MAKERS, 5),
    (INSERTS, 11),
    (MESSAGES, 11),
    (MIXED, 14),
    (DEEP, 9),
];

#[test]
fn workers_change_nothing(rt: HostRuntime) -> Result<(), Fail> {
    for (text, depth) in EXPLORED {
        workers_change_nothing_of(&rt, rt.alloc(), text, depth)?;
    }
    Ok(())
}

// Without a worker the first job stays open.
#[test]
fn no_worker_is_no_search(rt: HostRuntime) -> Result<(), Fail> {
    let program = read_module(rt.alloc(), MAKERS.as_bytes())?;
    let outcome = searched(&rt, rt.alloc(), &program, &options(5, 1, 0), &Unwatched);
    holds(
        matches!(outcome, Err(SearchFault::StrangePool)),
        "nobody was there",
    )
}
