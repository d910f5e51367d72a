// Reports as terms of Erlang, byte for byte.
use crate::excused::{RACE, excusing_both, joined, of_race};
use crate::explained::{NO_TABLE, WAITS, note, of_no_table, of_waits};
use crate::terms_sample::{ALONE_TOLD, BOOM_TOLD, BOTH_TOLD, GONE_TOLD, LATE_TOLD};
use crate::transcript::pid;
use core_reader::read_module;
use core_tree::CallKind;
use report_explained::ExplainFault;
use report_terms::write_terms_report;
use report_text::Visited;
use std::alloc::{AllocError, Global};
use std::sync::Arc;
use std::test::Fail;
use term_core::{Pid, Term, Terms, read_schedule};
use test_support::{MemorySink, holds, same};
use tree_excuses::Excuses;
use tree_findings::{Cause, Extent, Findings, Outcome};
use tree_schedules::Delivery;
use world_identities::Identity;
use world_model::rule::Rule;

const WAITS_TOLD: &str =
    "{explored,9,any_time,{nodes,6,0}}.\n{error,1,{deadlock,[\"P\",\"P.1\"]},\"P P P P P\"}.\n{event,1,\"P\",{answers,{call,\"erlang\",\"spawn\",[\"'m'\",\"'c'\",\"[]\"]},\"P.1\"}}.\n{event,2,\"P\",{answers,{call,\"erlang\",\"!\",[\"P\",\"'a'\"]},\"'a'\"}}.\n{event,3,\"P\",{answers,{call,\"erlang\",\"!\",[\"P\",\"'z'\"]},\"'z'\"}}.\n{event,4,\"P\",{answers,{call,\"erlang\",\"!\",[\"P\",\"{'b',1}\"]},\"{'b',1}\"}}.\n{event,5,\"P\",{receives,\"'z'\"}}.\n{waits,\"P\",[\"'a'\",\"{'b',1}\"]}.\n{waits,\"P.1\",[]}.\n{counts,1,0,0}.\n{result,errors,all}.\n";

// A process ends, and by its link the other one.
const LINKED: &str =
    "module 'm' ['main'/0,'c'/0] attributes [] 'main'/0 = fun () -> do call 'erlang':'spawn_link'('m','c',[]) receive <X> when 'true' -> X after 'infinity' -> 'x' 'c'/0 = fun () -> call 'erlang':'exit'('x') end";

const LINKED_TOLD: &str =
    "{explored,9,any_time,{nodes,4,1}}.\n{error,1,{ends,\"P\",\"'x'\"},\"P P.1 P.1>P\"}.\n{event,1,\"P\",{answers,{call,\"erlang\",\"spawn_link\",[\"'m'\",\"'c'\",\"[]\"]},\"P.1\"}}.\n{event,2,\"P.1\",{ends,\"'x'\"}}.\n{event,3,\"P.1>P\",{exit,\"'x'\",{ends,\"'x'\"}}}.\n{error,2,{ends,\"P.1\",\"'x'\"},\"P P.1\"}.\n{event,1,\"P\",{answers,{call,\"erlang\",\"spawn_link\",[\"'m'\",\"'c'\",\"[]\"]},\"P.1\"}}.\n{event,2,\"P.1\",{ends,\"'x'\"}}.\n{counts,2,0,0}.\n{result,errors,{depth,9}}.\n";

// A process writes to the private table of another one.
const PRIVATE: &str =
    "module 'm' ['main'/0,'c'/0] attributes [] 'main'/0 = fun () -> do call 'ets':'new'('t',['named_table','private']) call 'erlang':'spawn'('m','c',[]) 'c'/0 = fun () -> call 'ets':'insert'('t',{}) end";

const PRIVATE_TOLD: &str =
    "{explored,9,at_once,{states,5,0}}.\n{refusal,1,{refused,\"P.2\",1,{call,\"ets\",\"insert\",[\"'t'\",\"{}\"]},{rule,4,'PrivateWrite',\"P\"}},\"P P P.2\"}.\n{event,1,\"P\",{answers,{call,\"ets\",\"new\",[\"'t'\",\"['named_table','private']\"]},\"'t'\"}}.\n{event,2,\"P\",{answers,{call,\"erlang\",\"spawn\",[\"'m'\",\"'c'\",\"[]\"]},\"P.2\"}}.\n{event,3,\"P.2\",{refused,{call,\"ets\",\"insert\",[\"'t'\",\"{}\"]},{rule,4,'PrivateWrite',\"P\"}}}.\n{counts,0,1,0}.\n{result,clean,all}.\n";

// A process sends itself an atom with a quotation mark and a backslash, takes it, and waits for another in vain; then it
// ends itself by a signal whose reason is past ASCII.
const MARKS: &str =
    "module 'm' ['main'/0] attributes [] 'main'/0 = fun () -> let <Me> = call 'erlang':'self'() in do call 'erlang':'!'(Me,'a\"b\\\\c') do receive <X> when 'true' -> X after 'infinity' -> 'x' do receive <X> when 'true' -> X after 0 -> 'late' call 'erlang':'exit'(Me,{'é'}) end";

const MARKS_TOLD: &str =
    "{explored,9,at_once,{stopped,memory,4}}.\n{error,1,{ends,\"P\",\"{'é'}\"},\"P P P P\"}.\n{event,1,\"P\",{answers,{call,\"erlang\",\"!\",[\"P\",\"'a\\\"b\\\\\\\\c'\"]},\"'a\\\"b\\\\\\\\c'\"}}.\n{event,2,\"P\",{receives,\"'a\\\"b\\\\\\\\c'\"}}.\n{event,3,\"P\",times_out}.\n{event,4,\"P\",{ends_by,{call,\"erlang\",\"exit\",[\"P\",\"{'é'}\"]},\"{'é'}\"}}.\n{counts,1,0,0}.\n{result,incomplete}.\n";

// A process sends to a name that nobody has, and links itself to one that is gone.
const REFUSED: &str =
    "module 'm' ['main'/0,'c'/0] attributes [] 'main'/0 = fun () -> do catch call 'erlang':'send'('nobody','m') let <C> = call 'erlang':'spawn'('m','c',[]) in do catch call 'erlang':'link'(C) call 'erlang':'exit'('after') 'c'/0 = fun () -> 'x' end";

const REFUSED_TOLD: &str =
    "{explored,9,any_time,{stopped,node_limit}}.\n{error,1,{ends,\"P\",\"'after'\"},\"P P P.2 P P\"}.\n{event,1,\"P\",{refused,{call,\"erlang\",\"send\",[\"'nobody'\",\"'m'\"]},badarg}}.\n{event,2,\"P\",{answers,{call,\"erlang\",\"spawn\",[\"'m'\",\"'c'\",\"[]\"]},\"P.2\"}}.\n{event,3,\"P.2\",{ends,\"'normal'\"}}.\n{event,4,\"P\",{refused,{call,\"erlang\",\"link\",[\"P.2\"]},noproc}}.\n{event,5,\"P\",{ends,\"'after'\"}}.\n{counts,1,0,0}.\n{result,incomplete}.\n";

const RUNS_AWAY: &str =
    "module 'm' ['main'/0] attributes [] 'main'/0 = fun () -> apply 'main'/0() end";

const RUNS_AWAY_TOLD: &str =
    "{explored,9,any_time,{nodes,2,0}}.\n{error,1,{runs_away,\"P\"},\"P\"}.\n{event,1,\"P\",runs_away}.\n{counts,1,0,0}.\n{result,errors,all}.\n";

// The process of a schedule ends with its second turn, and takes no third.
const NOT_ENABLED_TOLD: &str =
    "{explored,9,any_time,{nodes,3,0}}.\n{error,1,{ends,\"P\",\"{'badarg',[]}\"},\"P P P P\"}.\n{event,1,\"P\",{refused,{call,\"ets\",\"lookup\",[\"'t'\",\"'a'\"]},{rule,2,'NoTable',none}}}.\n{event,2,\"P\",{ends,\"{'badarg',[]}\"}}.\n{counts,1,0,0}.\n{result,errors,all}.\n";

const NO_TABLE_TOLD: &str =
    "{explored,9,any_time,{nodes,3,0}}.\n{error,1,{ends,\"P\",\"{'badarg',[]}\"},\"P P\"}.\n{event,1,\"P\",{refused,{call,\"ets\",\"lookup\",[\"'t'\",\"'a'\"]},{rule,2,'NoTable',none}}}.\n{event,2,\"P\",{ends,\"{'badarg',[]}\"}}.\n{refusal,1,{refused,\"P\",1,{call,\"ets\",\"lookup\",[\"'t'\",\"'a'\"]},{rule,2,'NoTable',none}},\"P\"}.\n{event,1,\"P\",{refused,{call,\"ets\",\"lookup\",[\"'t'\",\"'a'\"]},{rule,2,'NoTable',none}}}.\n{counts,1,1,0}.\n{result,errors,all}.\n";

// Modules in which the first process waits alone in the end, with a schedule that leads there, and the lines below it.
const ALONE: [(&str, &str, &str); 5] = [
    (
        "module 'm' ['main'/0] attributes [] 'main'/0 = fun () -> receive <X> when 'true' -> X after 'infinity' -> 'x' end",
        "",
        "{waits,\"P\",[]}.\n",
    ),
    (
        "module 'm' ['main'/0,'c'/1] attributes [] 'main'/0 = fun () -> let <Me> = call 'erlang':'self'() in do call 'erlang':'spawn'('m','c',[Me]) receive <'y'> when 'true' -> 'y' after 'infinity' -> 'x' 'c'/1 = fun (To) -> call 'erlang':'!'(To,'a') end",
        "P P.1 P.1 P.1>P",
        "{event,1,\"P\",{answers,{call,\"erlang\",\"spawn\",[\"'m'\",\"'c'\",\"[P]\"]},\"P.1\"}}.\n{event,2,\"P.1\",{answers,{call,\"erlang\",\"!\",[\"P\",\"'a'\"]},\"'a'\"}}.\n{event,3,\"P.1\",{ends,\"'normal'\"}}.\n{event,4,\"P.1>P\",{brings,\"'a'\"}}.\n{waits,\"P\",[\"'a'\"]}.\n",
    ),
    (
        "module 'm' ['main'/0,'c'/0] attributes [] 'main'/0 = fun () -> do call 'erlang':'spawn_link'('m','c',[]) receive <X> when 'true' -> X after 'infinity' -> 'x' 'c'/0 = fun () -> 'x' end",
        "P P.1 P.1>P",
        "{event,1,\"P\",{answers,{call,\"erlang\",\"spawn_link\",[\"'m'\",\"'c'\",\"[]\"]},\"P.1\"}}.\n{event,2,\"P.1\",{ends,\"'normal'\"}}.\n{event,3,\"P.1>P\",{exit,\"'normal'\",ignored}}.\n{waits,\"P\",[]}.\n",
    ),
    (
        "module 'm' ['main'/0,'c'/0] attributes [] 'main'/0 = fun () -> let <C> = call 'erlang':'spawn_link'('m','c',[]) in do call 'erlang':'unlink'(C) receive <X> when 'true' -> X after 'infinity' -> 'x' 'c'/0 = fun () -> call 'erlang':'exit'('x') end",
        "P P.1 P P.1>P",
        "{event,1,\"P\",{answers,{call,\"erlang\",\"spawn_link\",[\"'m'\",\"'c'\",\"[]\"]},\"P.1\"}}.\n{event,2,\"P.1\",{ends,\"'x'\"}}.\n{event,3,\"P\",{answers,{call,\"erlang\",\"unlink\",[\"P.1\"]},\"'true'\"}}.\n{event,4,\"P.1>P\",{exit,\"'x'\",dropped}}.\n{waits,\"P\",[]}.\n",
    ),
    (
        "module 'm' ['main'/0,'c'/0] attributes [] 'main'/0 = fun () -> do call 'erlang':'spawn_monitor'('m','c',[]) do receive <X> when 'true' -> X after 'infinity' -> 'x' receive <X> when 'true' -> X after 'infinity' -> 'x' 'c'/0 = fun () -> call 'erlang':'exit'('x') end",
        "P P.1 P.1>P P",
        "{event,1,\"P\",{answers,{call,\"erlang\",\"spawn_monitor\",[\"'m'\",\"'c'\",\"[]\"]},\"{P.1,#P.1}\"}}.\n{event,2,\"P.1\",{ends,\"'x'\"}}.\n{event,3,\"P.1>P\",{down,\"#P.1\",{message,\"{'DOWN',#P.1,'process',P.1,'x'}\"}}}.\n{event,4,\"P\",{receives,\"{'DOWN',#P.1,'process',P.1,'x'}\"}}.\n{waits,\"P\",[]}.\n",
    ),
];

// Checks that a report was written so. Where memory ran out it has to be a beginning of it, in a sink that is sound.
pub(super) fn is_told(
    written: Result<(), ExplainFault>,
    sink: &MemorySink,
    report: &[u8],
) -> Result<(), Fail> {
    match written {
        Ok(()) => same(sink.bytes.as_slice(), report),
        Err(ExplainFault::Memory) => {
            let is_beginning = report.starts_with(&sink.bytes);
            holds(is_beginning && !sink.has_failed, "it is no beginning")?;
            Err(Fail::from("there is no memory"))
        }
        Err(ExplainFault::Write) => Err(Fail::from("the sink has failed")),
    }
}

// Checks that the report of an exploration to depth 9 is this one, in one write or in many.
fn tells(
    alloc: Global,
    text: &str,
    visited: Visited,
    excuses: &Excuses,
    outcome: &Outcome,
    report: &[u8],
) -> Result<(), Fail> {
    let program = read_module(alloc, text.as_bytes())?;
    for piece in [1, 1000] {
        let mut sink = MemorySink::in_pieces(alloc, 4000, piece)?;
        let written = write_terms_report(alloc, &program, visited, 9, excuses, outcome, &mut sink);
        is_told(written, &sink, report)?;
    }
    Ok(())
}

// Checks the same of the tree, where nothing is excused.
fn tells_tree(alloc: Global, text: &str, outcome: &Outcome, report: &str) -> Result<(), Fail> {
    let none = Excuses::none(alloc);
    let report = report.as_bytes();
    tells(alloc, text, Visited::Nodes, &none, outcome, report)
}

// Adds what a schedule shows.
fn find(
    alloc: Global,
    findings: &mut Findings,
    identity: Identity,
    schedule: &str,
) -> Result<(), Fail> {
    let steps = read_schedule(alloc, schedule.as_bytes())?;
    note(alloc, findings, identity, steps.as_slice())?;
    Ok(())
}

// The end of a process with an atom as its reason.
fn end_by(alloc: Global, process: &[u64], reason: &str) -> Result<Identity, AllocError> {
    Ok(Identity::End {
        pid: pid(alloc, process)?,
        reason: Term::atom(alloc, reason)?,
    })
}

// The tuple of these terms.
fn tuple(alloc: Global, parts: Vec<Term>) -> Result<Term, AllocError> {
    Term::tuple(alloc, Terms::from_vec(parts))
}

// The outcome of an exploration in which the first process waits alone after this schedule.
fn of_alone(alloc: Global, schedule: &str) -> Result<Outcome, Fail> {
    let mut findings = Findings::new(alloc);
    let processes: Vec<Pid> = vec![in alloc; pid(alloc, &[])?]?;
    let waits = Identity::Deadlock(processes);
    find(alloc, &mut findings, waits, schedule)?;
    Ok(Outcome::Complete(findings, Extent { nodes: 7, cut: 0 }))
}

#[test]
fn tells_a_deadlock_with_mailboxes(rt: HostRuntime) -> Result<(), Fail> {
    let alloc = rt.alloc();
    tells_tree(alloc, WAITS, &of_waits(alloc)?, WAITS_TOLD)
}

#[test]
fn tells_signals_before_a_wait(rt: HostRuntime) -> Result<(), Fail> {
    let alloc = rt.alloc();
    for (text, schedule, lines) in ALONE {
        let parts = [
            "{explored,9,any_time,{nodes,7,0}}.\n{error,1,{deadlock,[\"P\"]},\"",
            schedule,
            "\"}.\n",
            lines,
            "{counts,1,0,0}.\n{result,errors,all}.\n",
        ];
        let report = joined(alloc, &parts)?;
        let outcome = of_alone(alloc, schedule)?;
        let none = Excuses::none(alloc);
        let nodes = Visited::Nodes;
        tells(alloc, text, nodes, &none, &outcome, report.as_slice())?;
    }
    Ok(())
}

#[test]
fn tells_an_end_by_a_link(rt: HostRuntime) -> Result<(), Fail> {
    let alloc = rt.alloc();
    let mut findings = Findings::new(alloc);
    let ends = end_by(alloc, &[1], "x")?;
    find(alloc, &mut findings, ends, "P P.1")?;
    let ends = end_by(alloc, &[], "x")?;
    find(alloc, &mut findings, ends, "P P.1 P.1>P")?;
    let outcome = Outcome::Complete(findings, Extent { nodes: 4, cut: 1 });
    tells_tree(alloc, LINKED, &outcome, LINKED_TOLD)
}

#[test]
fn tells_a_refusal_with_its_owner(rt: HostRuntime) -> Result<(), Fail> {
    let alloc = rt.alloc();
    let object = tuple(alloc, Vec::new(alloc))?;
    let arguments = vec![in alloc; Term::atom(alloc, "t")?, object]?;
    let refused = Identity::Refusal {
        pid: pid(alloc, &[2])?,
        request: 1,
        kind: CallKind::Insert,
        arguments: Arc::new(alloc, Terms::from_vec(arguments))?,
        rule: Rule::PrivateWrite,
        owner: Some(pid(alloc, &[])?),
    };
    let mut findings = Findings::new(alloc);
    find(alloc, &mut findings, refused, "P P P.2")?;
    let outcome = Outcome::Complete(findings, Extent { nodes: 5, cut: 0 });
    let states = Visited::States {
        delivery: Delivery::AtOnce,
        whole_to: 9,
    };
    let none = Excuses::none(alloc);
    let report = PRIVATE_TOLD.as_bytes();
    tells(alloc, PRIVATE, states, &none, &outcome, report)
}

#[test]
fn tells_marks_in_atoms(rt: HostRuntime) -> Result<(), Fail> {
    let alloc = rt.alloc();
    let parts = vec![in alloc; Term::atom(alloc, "é")?]?;
    let ends = Identity::End {
        pid: pid(alloc, &[])?,
        reason: tuple(alloc, parts)?,
    };
    let mut findings = Findings::new(alloc);
    find(alloc, &mut findings, ends, "P P P P")?;
    let outcome = Outcome::Incomplete(Cause::Memory, findings);
    let states = Visited::States {
        delivery: Delivery::AtOnce,
        whole_to: 4,
    };
    let none = Excuses::none(alloc);
    tells(alloc, MARKS, states, &none, &outcome, MARKS_TOLD.as_bytes())
}

#[test]
fn tells_refused_calls_of_processes(rt: HostRuntime) -> Result<(), Fail> {
    let alloc = rt.alloc();
    let mut findings = Findings::new(alloc);
    let ends = end_by(alloc, &[], "after")?;
    find(alloc, &mut findings, ends, "P P P.2 P P")?;
    let outcome = Outcome::Incomplete(Cause::NodeLimit, findings);
    tells_tree(alloc, REFUSED, &outcome, REFUSED_TOLD)
}

#[test]
fn tells_a_process_that_runs_away(rt: HostRuntime) -> Result<(), Fail> {
    let alloc = rt.alloc();
    let mut findings = Findings::new(alloc);
    let runs = Identity::Runaway(pid(alloc, &[])?);
    find(alloc, &mut findings, runs, "P")?;
    let outcome = Outcome::Complete(findings, Extent { nodes: 2, cut: 0 });
    tells_tree(alloc, RUNS_AWAY, &outcome, RUNS_AWAY_TOLD)
}

#[test]
fn tells_errors_and_refusals(rt: HostRuntime) -> Result<(), Fail> {
    let alloc = rt.alloc();
    tells_tree(alloc, NO_TABLE, &of_no_table(alloc)?, NO_TABLE_TOLD)
}

#[test]
fn tells_no_step_that_is_not_enabled(rt: HostRuntime) -> Result<(), Fail> {
    let alloc = rt.alloc();
    let parts = vec![in alloc; Term::atom(alloc, "badarg")?, Term::Nil]?;
    let ends = Identity::End {
        pid: pid(alloc, &[])?,
        reason: tuple(alloc, parts)?,
    };
    let mut findings = Findings::new(alloc);
    find(alloc, &mut findings, ends, "P P P P")?;
    let outcome = Outcome::Complete(findings, Extent { nodes: 3, cut: 0 });
    tells_tree(alloc, NO_TABLE, &outcome, NOT_ENABLED_TOLD)
}

// Checks the whole report of an exploration that found nothing.
fn tells_nothing(
    alloc: Global,
    visited: Visited,
    outcome: &Outcome,
    first: &str,
    last: &str,
) -> Result<(), Fail> {
    let report = joined(alloc, &[first, "{counts,0,0,0}.\n", last])?;
    let none = Excuses::none(alloc);
    tells(alloc, WAITS, visited, &none, outcome, report.as_slice())
}

// So many nodes or states were visited, and nothing was found.
fn complete(alloc: Global, nodes: u64, cut: u64) -> Outcome {
    Outcome::Complete(Findings::new(alloc), Extent { nodes, cut })
}

#[test]
fn tells_how_far_the_tree_was_explored(rt: HostRuntime) -> Result<(), Fail> {
    let alloc = rt.alloc();
    let nodes = Visited::Nodes;
    let first = "{explored,9,any_time,{nodes,12,0}}.\n";
    let last = "{result,clean,all}.\n";
    tells_nothing(alloc, nodes, &complete(alloc, 12, 0), first, last)?;
    let first = "{explored,9,any_time,{nodes,12,3}}.\n";
    let last = "{result,clean,{depth,9}}.\n";
    tells_nothing(alloc, nodes, &complete(alloc, 12, 3), first, last)?;
    let last = "{result,incomplete}.\n";
    let limited = Outcome::Incomplete(Cause::NodeLimit, Findings::new(alloc));
    let first = "{explored,9,any_time,{stopped,node_limit}}.\n";
    tells_nothing(alloc, nodes, &limited, first, last)?;
    let exhausted = Outcome::Incomplete(Cause::Memory, Findings::new(alloc));
    let first = "{explored,9,any_time,{stopped,memory}}.\n";
    tells_nothing(alloc, nodes, &exhausted, first, last)
}

// States, with signals delivered then.
fn states(delivery: Delivery, whole_to: u64) -> Visited {
    Visited::States { delivery, whole_to }
}

#[test]
fn tells_how_far_states_were_searched(rt: HostRuntime) -> Result<(), Fail> {
    let alloc = rt.alloc();
    let any = states(Delivery::AnyTime, 9);
    let most = complete(alloc, u64::MAX, u64::MAX);
    let first = "{explored,9,any_time,{states,18446744073709551615,18446744073709551615}}.\n";
    tells_nothing(alloc, any, &most, first, "{result,clean,{depth,9}}.\n")?;
    let at_once = states(Delivery::AtOnce, 9);
    let first = "{explored,9,at_once,{states,12,0}}.\n";
    let last = "{result,clean,all}.\n";
    tells_nothing(alloc, at_once, &complete(alloc, 12, 0), first, last)?;
    let last = "{result,incomplete}.\n";
    let limited = Outcome::Incomplete(Cause::NodeLimit, Findings::new(alloc));
    let first = "{explored,9,any_time,{stopped,state_limit,5}}.\n";
    let any = states(Delivery::AnyTime, 5);
    tells_nothing(alloc, any, &limited, first, last)?;
    let exhausted = Outcome::Incomplete(Cause::Memory, Findings::new(alloc));
    let first = "{explored,9,at_once,{stopped,memory,0}}.\n";
    let at_once = states(Delivery::AtOnce, 0);
    tells_nothing(alloc, at_once, &exhausted, first, last)
}

#[test]
fn tells_what_is_taken_as_normal(rt: HostRuntime) -> Result<(), Fail> {
    let alloc = rt.alloc();
    let outcome = Outcome::Complete(of_race(alloc)?, Extent { nodes: 12, cut: 0 });
    let parts = [
        "{explored,9,any_time,{nodes,12,0}}.\n{error,1,",
        GONE_TOLD,
        "{error,2,",
        BOTH_TOLD,
        "{refusal,1,",
        LATE_TOLD,
        "{normal,1,",
        BOOM_TOLD,
        "{normal,2,",
        ALONE_TOLD,
        "{counts,2,1,2}.\n{result,errors,all}.\n",
    ];
    let report = joined(alloc, &parts)?;
    let excuses = excusing_both(alloc)?;
    let nodes = Visited::Nodes;
    tells(alloc, RACE, nodes, &excuses, &outcome, report.as_slice())
}

#[test]
fn a_sink_that_fails_got_a_beginning(rt: HostRuntime) -> Result<(), Fail> {
    let alloc = rt.alloc();
    let program = read_module(alloc, WAITS.as_bytes())?;
    let nodes = Visited::Nodes;
    let none = Excuses::none(alloc);
    let outcome = of_waits(alloc)?;
    let report = WAITS_TOLD.as_bytes();
    for room in 0..report.len() {
        let mut sink = MemorySink::with_room(alloc, room)?;
        let written = write_terms_report(alloc, &program, nodes, 9, &none, &outcome, &mut sink);
        assert_eq!(rt; written, Err(ExplainFault::Write), "at {room}");
        assert_eq!(rt; sink.bytes.len(), room);
        assert!(rt; report.starts_with(&sink.bytes), "at {room}");
    }
    Ok(())
}
