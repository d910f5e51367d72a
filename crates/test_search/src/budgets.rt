// The reports of explorations with several budgets.
ghost use Rattle.std.specs.Prelude.{◌≡◌, ◌≤◌};

use crate::modules::{EXPLORED, LINE};
use core_reader::{Module, read_module};
use report_text::{Visited, write_report};
use search_crew::{Job, Observer, SearchFault, Unwatched, search};
use std::alloc::Global;
use std::sync::Wait;
use std::sync::atomic::{AtomicU64, Ordering};
use std::test::Fail;
use std::thread::Threads;
use term_core::{Output, WriteFault};
use test_support::same;
use tree_excuses::Excuses;
use tree_findings::{Extent, Options, Outcome, Search};
use world_identities::Flags;

/// What is explored, with a budget.
pub(crate) fn options(depth: u64, budget: u64) -> Options
    ensures budget { result.budget ≡ budget }
{
    Options {
        depth,
        nodes: 1_000_000,
        budget,
        workers: 1,
        search: Search::ByTree,
        flags: Flags {
            allow_deadlock: false,
            strict_access: false,
            idle_servers: false,
        },
    }
}

/// The text of a report in which nothing is excused.
pub(crate) fn text_of(alloc: Global, depth: u64, outcome: &Outcome) -> Result<Vec<u8>, WriteFault> {
    let mut sink = Output::new(Vec::new(alloc));
    let excuses = Excuses::none(alloc);
    write_report(&mut sink, Visited::Nodes, depth, &excuses, outcome)?;
    Ok(sink.writer)
}

/// What the search of the whole tree results in.
pub(crate) fn searched<T: Threads + Wait + Sync, G: Observer + Sync>(
    rt: &T,
    alloc: Global,
    program: &Module,
    options: &Options,
    observer: &G,
) -> Result<Outcome, SearchFault>
    requires { 1 ≤ options.now.budget }
{
    search(
        rt,
        alloc,
        &Job::root(alloc, program, options),
        options,
        observer,
    )
}

// The report with a budget.
fn reported<T: Threads + Wait + Sync>(
    rt: &T,
    alloc: Global,
    program: &Module,
    depth: u64,
    budget: u64,
) -> Result<Vec<u8>, Fail>
    requires { 1 ≤ budget }
{
    let Ok(outcome) = searched(rt, alloc, program, &options(depth, budget), &Unwatched) else {
        return Err(Fail::from("the search was not begun"));
    };
    let text = text_of(alloc, depth, &outcome)?;
    Ok(text)
}

// Whether the report of a module is the same with budgets of 1, 2 and 64.
fn budgets_change_nothing_of<T: Threads + Wait + Sync>(
    rt: &T,
    alloc: Global,
    text: &str,
    depth: u64,
) -> Result<(), Fail> {
    let program = read_module(alloc, text.as_bytes())?;
    let many = reported(rt, alloc, &program, depth, 64)?;
    let two = reported(rt, alloc, &program, depth, 2)?;
    same(two.as_slice(), many.as_slice())?;
    let one = reported(rt, alloc, &program, depth, 1)?;
    same(one.as_slice(), many.as_slice())
}

#[test]
fn budgets_change_nothing(rt: HostRuntime) -> Result<(), Fail> {
    for (text, depth) in EXPLORED {
        budgets_change_nothing_of(&rt, rt.alloc(), text, depth)?;
    }
    Ok(())
}

// How far a clean exploration went.
fn counted<T: Threads + Wait + Sync>(
    rt: &T,
    alloc: Global,
    program: &Module,
    depth: u64,
    budget: u64,
) -> Result<Extent, Fail>
    requires { 1 ≤ budget }
{
    match searched(rt, alloc, program, &options(depth, budget), &Unwatched) {
        Ok(Outcome::Complete(found, extent)) => {
            if found.errors().len() == 0 && found.refusals().len() == 0 {
                return Ok(extent);
            }
            Err(Fail::from("something was found"))
        }
        _ => Err(Fail::from("the search was not complete")),
    }
}

// Depths, how many nodes the line has then, and at how many of them it is cut.
const NODES: [(u64, u64, u64); 4] = [(40, 22, 0), (21, 22, 0), (17, 18, 1), (16, 17, 1)];

#[test]
fn a_line_has_a_node_for_each_turn(rt: HostRuntime) -> Result<(), Fail> {
    let program = read_module(rt.alloc(), LINE.as_bytes())?;
    for (depth, nodes, cut) in NODES {
        assert_eq!(rt;
            counted(&rt, rt.alloc(), &program, depth, 1)?,
            Extent { nodes, cut },
            "{depth}"
        );
        assert_eq!(rt;
            counted(&rt, rt.alloc(), &program, depth, 64)?,
            Extent { nodes, cut },
            "{depth}"
        );
    }
    Ok(())
}

// How many pieces were given back.
#[derive(Drop)]
struct Pieces {
    given: AtomicU64,
}

impl Observer for Pieces {
    fn turn(&self, _ticket: u64) {}

    fn level(&self, _steps: u64) {}

    fn given(&self, _ticket: u64) {
        self.given.fetch_add(1, Ordering::SeqCst);
    }
}

// In how many pieces one worker visits the nodes of the line.
fn pieces_of<T: Threads + Wait + Sync>(
    rt: &T,
    alloc: Global,
    program: &Module,
    budget: u64,
) -> Result<u64, Fail>
    requires { 1 ≤ budget }
{
    let observer = Pieces {
        given: AtomicU64::new(0),
    };
    match searched(rt, alloc, program, &options(40, budget), &observer) {
        Ok(Outcome::Complete(_, Extent { nodes: 22, cut: 0 })) => Ok(
            observer.given.load(Ordering::SeqCst),
        ),
        _ => Err(Fail::from("the search was not complete")),
    }
}

// The line has 22 nodes: they are visited in pieces of 1, 2, 4, 8 and 7, of 3, 6, 12 and 1, and all in one.
#[test]
fn a_budget_grows_while_nobody_waits(rt: HostRuntime) -> Result<(), Fail> {
    let program = read_module(rt.alloc(), LINE.as_bytes())?;
    assert_eq!(rt; pieces_of(&rt, rt.alloc(), &program, 1)?, 5);
    assert_eq!(rt; pieces_of(&rt, rt.alloc(), &program, 3)?, 4);
    assert_eq!(rt; pieces_of(&rt, rt.alloc(), &program, 22)?, 1);
    assert_eq!(rt; pieces_of(&rt, rt.alloc(), &program, u64::MAX)?, 1);
    Ok(())
}
