// Reports of what searches of states found, byte for byte.
use crate::explained::{NO_TABLE, is_framed, of_no_table};
use core_reader::read_module;
use report_explained::write_explained_report;
use report_text::{Visited, write_report};
use std::alloc::Global;
use std::test::Fail;
use test_support::{MemorySink, same};
use tree_excuses::Excuses;
use tree_findings::{Cause, Extent, Findings, Outcome};
use tree_schedules::Delivery;

const NO_TABLE_REPORTED: &str =
    "depth 9, states 3, complete\nerror 1: P ends {'badarg',[]}\n  P P\nrefusal 1: P request 1 ets:lookup('t','a') -> badarg (2 NoTable)\n  P\nerrors 1, refusals 1\nresult: errors\n";

const NO_TABLE_EXPLAINED: &str =
    "depth 9, states 3, complete, cut 0\nerror 1: P ends {'badarg',[]}\n  P P\n    1 P ets:lookup('t','a') -> badarg (2 NoTable)\n    2 P ends {'badarg',[]}\nrefusal 1: P request 1 ets:lookup('t','a') -> badarg (2 NoTable)\n  P\n    1 P ets:lookup('t','a') -> badarg (2 NoTable)\nerrors 1, refusals 1\nresult: errors, all schedules\n";

// States, with signals delivered at any time, or at once.
fn at_any_time(whole_to: u64) -> Visited {
    Visited::States {
        delivery: Delivery::AnyTime,
        whole_to,
    }
}

fn at_once(whole_to: u64) -> Visited {
    Visited::States {
        delivery: Delivery::AtOnce,
        whole_to,
    }
}

// So many states were visited, and nothing was found.
fn of_states(alloc: Global, nodes: u64, cut: u64) -> Outcome {
    Outcome::Complete(Findings::new(alloc), Extent { nodes, cut })
}

// The search stopped, and nothing was found by then.
fn stopped(alloc: Global, cause: Cause) -> Outcome {
    Outcome::Incomplete(cause, Findings::new(alloc))
}

// Checks that the report is this one, in one write or in many, where nothing is excused.
fn reports(alloc: Global, visited: Visited, outcome: &Outcome, report: &str) -> Result<(), Fail> {
    let none = Excuses::none(alloc);
    for piece in [1, 1000] {
        let mut sink = MemorySink::in_pieces(alloc, 1000, piece)?;
        write_report(&mut sink, visited, 9, &none, outcome)?;
        same(sink.bytes.as_slice(), report.as_bytes())?;
    }
    Ok(())
}

#[test]
fn counts_the_states(rt: HostRuntime) -> Result<(), Fail> {
    let alloc = rt.alloc();
    let states = at_any_time(9);
    let report = "depth 9, states 12, complete\nerrors 0, refusals 0\nresult: clean\n";
    reports(alloc, states, &of_states(alloc, 12, 0), report)?;
    reports(alloc, states, &of_states(alloc, 12, 3), report)?;
    reports(alloc, states, &of_no_table(alloc)?, NO_TABLE_REPORTED)
}

// The same outcomes of the tree are told as they were.
#[test]
fn counts_the_nodes(rt: HostRuntime) -> Result<(), Fail> {
    let alloc = rt.alloc();
    let report = "depth 9, nodes 12, complete\nerrors 0, refusals 0\nresult: clean\n";
    reports(alloc, Visited::Nodes, &of_states(alloc, 12, 3), report)?;
    let limited = stopped(alloc, Cause::NodeLimit);
    let report = "depth 9, incomplete: node limit\nerrors 0, refusals 0\nresult: incomplete\n";
    reports(alloc, Visited::Nodes, &limited, report)
}

#[test]
fn tells_to_which_depth_all_schedules_were_followed(rt: HostRuntime) -> Result<(), Fail> {
    let alloc = rt.alloc();
    let limited = stopped(alloc, Cause::NodeLimit);
    let report =
        "depth 9, incomplete: state limit; all schedules to depth 5\nerrors 0, refusals 0\nresult: incomplete\n";
    reports(alloc, at_any_time(5), &limited, report)?;
    let exhausted = stopped(alloc, Cause::Memory);
    let report =
        "depth 9, incomplete: memory; all schedules to depth 0\nerrors 0, refusals 0\nresult: incomplete\n";
    reports(alloc, at_any_time(0), &exhausted, report)
}

#[test]
fn tells_of_prompt_schedules(rt: HostRuntime) -> Result<(), Fail> {
    let alloc = rt.alloc();
    let whole = of_states(alloc, 12, 3);
    let report = "depth 9, states 12, complete\nerrors 0, refusals 0\nresult: clean\n";
    reports(alloc, at_once(9), &whole, report)?;
    let limited = stopped(alloc, Cause::NodeLimit);
    let report =
        "depth 9, incomplete: state limit; all prompt schedules to depth 5\nerrors 0, refusals 0\nresult: incomplete\n";
    reports(alloc, at_once(5), &limited, report)?;
    let exhausted = stopped(alloc, Cause::Memory);
    let report =
        "depth 9, incomplete: memory; all prompt schedules to depth 0\nerrors 0, refusals 0\nresult: incomplete\n";
    reports(alloc, at_once(0), &exhausted, report)
}

#[test]
fn explained_lines_tell_of_states(rt: HostRuntime) -> Result<(), Fail> {
    let alloc = rt.alloc();
    let states = at_any_time(5);
    let whole = of_states(alloc, 12, 0);
    let first = "depth 9, states 12, complete, cut 0\n";
    is_framed(
        alloc,
        states,
        &whole,
        first,
        "result: clean, all schedules\n",
    )?;
    let cut = of_states(alloc, 12, 3);
    let first = "depth 9, states 12, complete, cut 3\n";
    is_framed(alloc, states, &cut, first, "result: clean to depth 9\n")?;
    let limited = stopped(alloc, Cause::NodeLimit);
    let first = "depth 9, incomplete: state limit; all schedules to depth 5\n";
    is_framed(alloc, states, &limited, first, "result: incomplete\n")?;
    let exhausted = stopped(alloc, Cause::Memory);
    let first = "depth 9, incomplete: memory; all schedules to depth 5\n";
    is_framed(alloc, states, &exhausted, first, "result: incomplete\n")
}

#[test]
fn explained_lines_tell_of_prompt_schedules(rt: HostRuntime) -> Result<(), Fail> {
    let alloc = rt.alloc();
    let whole = of_states(alloc, 12, 0);
    let first = "depth 9, states 12, complete, cut 0\n";
    is_framed(
        alloc,
        at_once(9),
        &whole,
        first,
        "result: clean, all prompt schedules\n",
    )?;
    let failing = of_no_table(alloc)?;
    let first = "depth 9, states 3, complete, cut 0\n";
    is_framed(
        alloc,
        at_once(9),
        &failing,
        first,
        "result: errors, all prompt schedules\n",
    )?;
    let cut = of_states(alloc, 12, 3);
    let first = "depth 9, states 12, complete, cut 3\n";
    is_framed(alloc, at_once(9), &cut, first, "result: clean to depth 9\n")?;
    let limited = stopped(alloc, Cause::NodeLimit);
    let first = "depth 9, incomplete: state limit; all prompt schedules to depth 5\n";
    is_framed(alloc, at_once(5), &limited, first, "result: incomplete\n")
}

#[test]
fn explains_what_states_show(rt: HostRuntime) -> Result<(), Fail> {
    let alloc = rt.alloc();
    let program = read_module(alloc, NO_TABLE.as_bytes())?;
    let states = at_any_time(9);
    let none = Excuses::none(alloc);
    let outcome = of_no_table(alloc)?;
    let mut sink = MemorySink::in_pieces(alloc, 1000, 1)?;
    match write_explained_report(alloc, &program, states, 9, &none, &outcome, &mut sink) {
        Ok(()) => same(sink.bytes.as_slice(), NO_TABLE_EXPLAINED.as_bytes()),
        Err(_) => Err(Fail::from("it is not written to its end")),
    }
}
