// Reports that say which errors count and which are taken as normal, byte for byte.
use crate::explained::{explains, note};
use crate::transcript::pid;
use core_tree::CallKind;
use report_text::{Visited, write_explained_last_line, write_report};
use std::alloc::{AllocError, Global};
use std::sync::Arc;
use std::test::Fail;
use term_core::{Step, Term, Terms};
use test_support::{MemorySink, same};
use tree_excuses::Excuses;
use tree_findings::{Cause, Extent, Findings, Outcome};
use world_identities::Identity;
use world_model::rule::Rule;

// The first process makes a table, makes another process, and reads. Where it finds nothing it ends with `{'boom',1}`, and
// its table goes; else it waits for ever. The other process writes, and waits for ever; where the table is gone it ends.
pub(super) const RACE: &str =
    "module 'm' ['main'/0,'c'/0] attributes [] 'main'/0 = fun () -> do call 'ets':'new'('t',['named_table','public']) do call 'erlang':'spawn'('m','c',[]) case call 'ets':'lookup'('t','a') of <[]> when 'true' -> call 'erlang':'exit'({'boom',1}) <X> when 'true' -> receive <Y> when 'true' -> Y after 'infinity' -> 'x' end 'c'/0 = fun () -> do call 'ets':'insert'('t',{'a',1}) receive <Y> when 'true' -> Y after 'infinity' -> 'x' end";

// The two processes.
const P: &[u64] = &[];

const P_2: &[u64] = &[2];

// The first process ends.
pub(super) const BOOM: &str = "P ends {'boom',1}\n  P P P P\n";

pub(super) const BOOM_STEPS: &str =
    "    1 P ets:new('t',['named_table','public']) -> 't'\n    2 P erlang:spawn('m','c',[]) -> P.2\n    3 P ets:lookup('t','a') -> []\n    4 P ends {'boom',1}\n";

// The other one finds no table.
pub(super) const LATE: &str =
    "P.2 request 1 ets:insert('t',{'a',1}) -> badarg (2 NoTable)\n  P P P P P.2\n";

pub(super) const LATE_STEPS: &str =
    "    1 P ets:new('t',['named_table','public']) -> 't'\n    2 P erlang:spawn('m','c',[]) -> P.2\n    3 P ets:lookup('t','a') -> []\n    4 P ends {'boom',1}\n    5 P.2 ets:insert('t',{'a',1}) -> badarg (2 NoTable)\n";

// And ends so.
pub(super) const GONE: &str = "P.2 ends {'badarg',[]}\n  P P P P P.2 P.2\n";

pub(super) const GONE_STEPS: &str =
    "    1 P ets:new('t',['named_table','public']) -> 't'\n    2 P erlang:spawn('m','c',[]) -> P.2\n    3 P ets:lookup('t','a') -> []\n    4 P ends {'boom',1}\n    5 P.2 ets:insert('t',{'a',1}) -> badarg (2 NoTable)\n    6 P.2 ends {'badarg',[]}\n";

// Both wait.
pub(super) const BOTH: &str = "deadlock of P P.2\n  P P P.2 P\n";

pub(super) const BOTH_STEPS: &str =
    "    1 P ets:new('t',['named_table','public']) -> 't'\n    2 P erlang:spawn('m','c',[]) -> P.2\n    3 P.2 ets:insert('t',{'a',1}) -> 'true'\n    4 P ets:lookup('t','a') -> [{'a',1}]\n    P waits, mailbox []\n    P.2 waits, mailbox []\n";

// The other one waits alone.
pub(super) const ALONE: &str = "deadlock of P.2\n  P P P P.2 P\n";

pub(super) const ALONE_STEPS: &str =
    "    1 P ets:new('t',['named_table','public']) -> 't'\n    2 P erlang:spawn('m','c',[]) -> P.2\n    3 P ets:lookup('t','a') -> []\n    4 P.2 ets:insert('t',{'a',1}) -> 'true'\n    5 P ends {'boom',1}\n    P.2 waits, mailbox []\n";

// The term `{'boom',1}`.
fn boom(alloc: Global) -> Result<Term, AllocError> {
    let parts = vec![in alloc; Term::atom(alloc, "boom")?, Term::Int(1)]?;
    Term::tuple(alloc, Terms::from_vec(parts))
}

// The term `{'badarg',[]}`.
fn bad_argument(alloc: Global) -> Result<Term, AllocError> {
    let parts = vec![in alloc; Term::atom(alloc, "badarg")?, Term::Nil]?;
    Term::tuple(alloc, Terms::from_vec(parts))
}

// The end of a process.
fn end_of(alloc: Global, process: &[u64], reason: Term) -> Result<Identity, AllocError> {
    Ok(Identity::End {
        pid: pid(alloc, process)?,
        reason,
    })
}

// A deadlock of these processes.
fn deadlock_of(alloc: Global, processes: &[&[u64]]) -> Result<Identity, AllocError> {
    let mut pids = Vec::new(alloc);
    for process in processes {
        pids.push(pid(alloc, process)?)?;
    }
    Ok(Identity::Deadlock(pids))
}

// The call of the other process that is refused because the table is missing.
fn late(alloc: Global) -> Result<Identity, AllocError> {
    let parts = vec![in alloc; Term::atom(alloc, "a")?, Term::Int(1)]?;
    let object = Term::tuple(alloc, Terms::from_vec(parts))?;
    let arguments = vec![in alloc; Term::atom(alloc, "t")?, object]?;
    Ok(Identity::Refusal {
        pid: pid(alloc, P_2)?,
        request: 1,
        kind: CallKind::Insert,
        arguments: Arc::new(alloc, Terms::from_vec(arguments))?,
        rule: Rule::NoTable,
        owner: None,
    })
}

// Adds what turns of these processes show.
fn find(
    alloc: Global,
    findings: &mut Findings,
    identity: Identity,
    processes: &[&[u64]],
) -> Result<(), AllocError> {
    let mut steps = Vec::new(alloc);
    for process in processes {
        steps.push(Step::Turn(pid(alloc, process)?))?;
    }
    note(alloc, findings, identity, steps.as_slice())
}

// What is found in the race.
pub(super) fn of_race(alloc: Global) -> Result<Findings, AllocError> {
    let mut found = Findings::new(alloc);
    let ends = end_of(alloc, P, boom(alloc)?)?;
    find(alloc, &mut found, ends, &[P, P, P, P])?;
    let ends = end_of(alloc, P_2, bad_argument(alloc)?)?;
    find(alloc, &mut found, ends, &[P, P, P, P, P_2, P_2])?;
    let waits = deadlock_of(alloc, &[P, P_2])?;
    find(alloc, &mut found, waits, &[P, P, P_2, P])?;
    let waits = deadlock_of(alloc, &[P_2])?;
    find(alloc, &mut found, waits, &[P, P, P, P_2, P])?;
    find(alloc, &mut found, late(alloc)?, &[P, P, P, P, P_2])?;
    Ok(found)
}

// The end of the first process alone.
pub(super) fn of_boom(alloc: Global) -> Result<Findings, AllocError> {
    let mut found = Findings::new(alloc);
    let ends = end_of(alloc, P, boom(alloc)?)?;
    find(alloc, &mut found, ends, &[P, P, P, P])?;
    Ok(found)
}

// All nodes were visited, and the tree is cut nowhere.
fn complete(findings: Findings) -> Outcome {
    Outcome::Complete(findings, Extent { nodes: 12, cut: 0 })
}

// An end with `{'boom',1}` is excused.
pub(super) fn excusing_boom(alloc: Global) -> Result<Excuses, AllocError> {
    Ok(Excuses {
        main_deadlock: false,
        normal: vec![in alloc; boom(alloc)?]?,
    })
}

// So is a deadlock in which the first process does not wait.
pub(super) fn excusing_both(alloc: Global) -> Result<Excuses, AllocError> {
    Ok(Excuses {
        main_deadlock: true,
        normal: vec![in alloc; Term::Nil, boom(alloc)?]?,
    })
}

// These texts, one after another.
pub(super) fn joined(alloc: Global, parts: &[&str]) -> Result<Vec<u8>, AllocError> {
    let mut text = Vec::new(alloc);
    for part in parts {
        text.extend_from_slice(part.as_bytes())?;
    }
    Ok(text)
}

// Checks that the report is written so, in one write or in many.
fn reports(
    alloc: Global,
    excuses: &Excuses,
    outcome: &Outcome,
    parts: &[&str],
) -> Result<(), Fail> {
    let report = joined(alloc, parts)?;
    for piece in [1, 1000] {
        let mut sink = MemorySink::in_pieces(alloc, 1000, piece)?;
        write_report(&mut sink, Visited::Nodes, 9, excuses, outcome)?;
        same(sink.bytes.as_slice(), report.as_slice())?;
    }
    Ok(())
}

#[test]
fn without_excuses_all_errors_count(rt: HostRuntime) -> Result<(), Fail> {
    let alloc = rt.alloc();
    let outcome = complete(of_race(alloc)?);
    reports(
        alloc,
        &Excuses::none(alloc),
        &outcome,
        &[
            "depth 9, nodes 12, complete\n",
            "error 1: ",
            BOOM,
            "error 2: ",
            GONE,
            "error 3: ",
            BOTH,
            "error 4: ",
            ALONE,
            "refusal 1: ",
            LATE,
            "errors 4, refusals 1\nresult: errors\n",
        ],
    )
}

#[test]
fn an_excused_end_is_normal(rt: HostRuntime) -> Result<(), Fail> {
    let alloc = rt.alloc();
    let outcome = complete(of_race(alloc)?);
    reports(
        alloc,
        &excusing_boom(alloc)?,
        &outcome,
        &[
            "depth 9, nodes 12, complete\n",
            "error 1: ",
            GONE,
            "error 2: ",
            BOTH,
            "error 3: ",
            ALONE,
            "refusal 1: ",
            LATE,
            "normal 1: ",
            BOOM,
            "errors 3, refusals 1, taken as normal 1\nresult: errors\n",
        ],
    )
}

#[test]
fn an_excused_deadlock_is_normal(rt: HostRuntime) -> Result<(), Fail> {
    let alloc = rt.alloc();
    let excuses = Excuses {
        main_deadlock: true,
        normal: Vec::new(alloc),
    };
    let outcome = complete(of_race(alloc)?);
    reports(
        alloc,
        &excuses,
        &outcome,
        &[
            "depth 9, nodes 12, complete\n",
            "error 1: ",
            BOOM,
            "error 2: ",
            GONE,
            "error 3: ",
            BOTH,
            "refusal 1: ",
            LATE,
            "normal 1: ",
            ALONE,
            "errors 3, refusals 1, taken as normal 1\nresult: errors\n",
        ],
    )
}

#[test]
fn normal_ones_are_numbered_behind_the_refusals(rt: HostRuntime) -> Result<(), Fail> {
    let alloc = rt.alloc();
    let outcome = complete(of_race(alloc)?);
    reports(
        alloc,
        &excusing_both(alloc)?,
        &outcome,
        &[
            "depth 9, nodes 12, complete\n",
            "error 1: ",
            GONE,
            "error 2: ",
            BOTH,
            "refusal 1: ",
            LATE,
            "normal 1: ",
            BOOM,
            "normal 2: ",
            ALONE,
            "errors 2, refusals 1, taken as normal 2\nresult: errors\n",
        ],
    )
}

#[test]
fn only_normal_ones_are_clean(rt: HostRuntime) -> Result<(), Fail> {
    let alloc = rt.alloc();
    let excuses = excusing_both(alloc)?;
    reports(
        alloc,
        &excuses,
        &complete(of_boom(alloc)?),
        &[
            "depth 9, nodes 12, complete\n",
            "normal 1: ",
            BOOM,
            "errors 0, refusals 0, taken as normal 1\nresult: clean\n",
        ],
    )?;
    reports(
        alloc,
        &excuses,
        &complete(Findings::new(alloc)),
        &[
            "depth 9, nodes 12, complete\n",
            "errors 0, refusals 0, taken as normal 0\nresult: clean\n",
        ],
    )?;
    let limited = Outcome::Incomplete(Cause::NodeLimit, of_boom(alloc)?);
    reports(
        alloc,
        &excuses,
        &limited,
        &[
            "depth 9, incomplete: node limit\n",
            "normal 1: ",
            BOOM,
            "errors 0, refusals 0, taken as normal 1\nresult: incomplete\n",
        ],
    )
}

// Checks that this is the last line of the explained report of the first process's end, with a tree that is cut at so
// many nodes.
fn ends_so(alloc: Global, excuses: &Excuses, cut: u64, line: &str) -> Result<(), Fail> {
    let outcome = Outcome::Complete(of_boom(alloc)?, Extent { nodes: 12, cut });
    let mut sink = MemorySink::in_pieces(alloc, 1000, 1)?;
    write_explained_last_line(&mut sink, Visited::Nodes, 9, excuses, &outcome)?;
    same(sink.bytes.as_slice(), line.as_bytes())
}

#[test]
fn the_result_is_by_what_counts(rt: HostRuntime) -> Result<(), Fail> {
    let alloc = rt.alloc();
    let excuses = excusing_boom(alloc)?;
    ends_so(alloc, &excuses, 0, "result: clean, all schedules\n")?;
    ends_so(alloc, &excuses, 3, "result: clean to depth 9\n")?;
    let none = Excuses::none(alloc);
    ends_so(alloc, &none, 0, "result: errors, all schedules\n")?;
    ends_so(alloc, &none, 3, "result: errors to depth 9\n")
}

// Checks that the explained report of the race is this one.
fn explains_race(alloc: Global, excuses: &Excuses, parts: &[&str]) -> Result<(), Fail> {
    let outcome = complete(of_race(alloc)?);
    let report = joined(alloc, parts)?;
    explains(alloc, RACE, 9, excuses, &outcome, report.as_slice(), 1000)
}

#[test]
fn explains_all_errors_without_excuses(rt: HostRuntime) -> Result<(), Fail> {
    let alloc = rt.alloc();
    explains_race(
        alloc,
        &Excuses::none(alloc),
        &[
            "depth 9, nodes 12, complete, cut 0\n",
            "error 1: ",
            BOOM,
            BOOM_STEPS,
            "error 2: ",
            GONE,
            GONE_STEPS,
            "error 3: ",
            BOTH,
            BOTH_STEPS,
            "error 4: ",
            ALONE,
            ALONE_STEPS,
            "refusal 1: ",
            LATE,
            LATE_STEPS,
            "errors 4, refusals 1\nresult: errors, all schedules\n",
        ],
    )
}

#[test]
fn explains_normal_ones_behind_the_refusals(rt: HostRuntime) -> Result<(), Fail> {
    let alloc = rt.alloc();
    explains_race(
        alloc,
        &excusing_both(alloc)?,
        &[
            "depth 9, nodes 12, complete, cut 0\n",
            "error 1: ",
            GONE,
            GONE_STEPS,
            "error 2: ",
            BOTH,
            BOTH_STEPS,
            "refusal 1: ",
            LATE,
            LATE_STEPS,
            "normal 1: ",
            BOOM,
            BOOM_STEPS,
            "normal 2: ",
            ALONE,
            ALONE_STEPS,
            "errors 2, refusals 1, taken as normal 2\nresult: errors, all schedules\n",
        ],
    )
}
