// Explained reports, byte for byte: their first and last lines, and whole ones.
use crate::transcript::pid;
use core_reader::read_module;
use core_tree::CallKind;
use report_explained::{ExplainFault, write_explained_report};
use report_text::{Visited, write_explained_first_line, write_explained_last_line};
use std::alloc::{AllocError, Global};
use std::sync::Arc;
use std::test::Fail;
use term_core::{Pid, Step, Term, Terms, read_schedule};
use test_support::{MemorySink, holds, same};
use tree_excuses::Excuses;
use tree_findings::{Cause, Extent, Findings, Outcome};
use world_identities::{Flags, Identity};
use world_model::rule::Rule;

// A process reads a table that does not exist, and ends so.
pub(super) const NO_TABLE: &str =
    "module 'm' ['main'/0] attributes [] 'main'/0 = fun () -> call 'ets':'lookup'('t','a') end";

const NO_TABLE_EXPLAINED: &str =
    "depth 2, nodes 3, complete, cut 0\nerror 1: P ends {'badarg',[]}\n  P P\n    1 P ets:lookup('t','a') -> badarg (2 NoTable)\n    2 P ends {'badarg',[]}\nrefusal 1: P request 1 ets:lookup('t','a') -> badarg (2 NoTable)\n  P\n    1 P ets:lookup('t','a') -> badarg (2 NoTable)\nerrors 1, refusals 1\nresult: errors, all schedules\n";

// A process sends itself three messages, takes the second, and waits for one that never comes; another waits for any.
pub(super) const WAITS: &str =
    "module 'm' ['main'/0,'c'/0] attributes [] 'main'/0 = fun () -> let <Me> = call 'erlang':'self'() in do call 'erlang':'spawn'('m','c',[]) do call 'erlang':'!'(Me,'a') do call 'erlang':'!'(Me,'z') do call 'erlang':'!'(Me,{'b',1}) do receive <'z'> when 'true' -> 'z' after 'infinity' -> 'x' receive <'y'> when 'true' -> 'y' after 'infinity' -> 'x' 'c'/0 = fun () -> receive <X> when 'true' -> X after 'infinity' -> 'x' end";

const WAITS_EXPLAINED: &str =
    "depth 9, nodes 6, complete, cut 0\nerror 1: deadlock of P P.1\n  P P P P P\n    1 P erlang:spawn('m','c',[]) -> P.1\n    2 P erlang:!(P,'a') -> 'a'\n    3 P erlang:!(P,'z') -> 'z'\n    4 P erlang:!(P,{'b',1}) -> {'b',1}\n    5 P receives 'z'\n    P waits, mailbox ['a',{'b',1}]\n    P.1 waits, mailbox []\nerrors 1, refusals 0\nresult: errors, all schedules\n";

// A process gets two messages, takes the second, and waits for one that never comes; the first process has ended.
const LEAVES: &str =
    "module 'm' ['main'/0,'c'/0] attributes [] 'main'/0 = fun () -> let <C> = call 'erlang':'spawn'('m','c',[]) in do call 'erlang':'!'(C,'a') call 'erlang':'!'(C,'z') 'c'/0 = fun () -> do receive <'z'> when 'true' -> 'z' after 'infinity' -> 'x' receive <'y'> when 'true' -> 'y' after 'infinity' -> 'x' end";

const LEAVES_EXPLAINED: &str =
    "depth 9, nodes 8, complete, cut 0\nerror 1: unread messages of P.1\n  P P P P P>P.1 P>P.1 P.1\n    1 P erlang:spawn('m','c',[]) -> P.1\n    2 P erlang:!(P.1,'a') -> 'a'\n    3 P erlang:!(P.1,'z') -> 'z'\n    4 P ends 'normal'\n    5 P>P.1 brings 'a'\n    6 P>P.1 brings 'z'\n    7 P.1 receives 'z'\n    P.1 waits, mailbox ['a']\nerrors 1, refusals 0\nresult: errors, all schedules\n";

// So many turns of the first process.
fn turns(alloc: Global, count: usize) -> Result<Vec<Step>, AllocError> {
    let mut steps = Vec::new(alloc);
    for _ in 0..count {
        steps.push(Step::Turn(pid(alloc, &[])?))?;
    }
    Ok(steps)
}

// Adds what one schedule shows. What is unread is an error too.
pub(super) fn note(
    alloc: Global,
    findings: &mut Findings,
    identity: Identity,
    schedule: &[Step],
) -> Result<(), AllocError> {
    let flags = Flags {
        allow_deadlock: false,
        strict_access: false,
        idle_servers: true,
    };
    let shown = vec![in alloc; identity]?;
    findings.note(alloc, flags, shown.as_slice(), schedule)
}

// The end of the first process with the reason `{'badarg',[]}`.
fn bad_end(alloc: Global) -> Result<Identity, AllocError> {
    let parts = vec![in alloc; Term::atom(alloc, "badarg")?, Term::Nil]?;
    Ok(Identity::End {
        pid: pid(alloc, &[])?,
        reason: Term::tuple(alloc, Terms::from_vec(parts))?,
    })
}

// The call of the first process, its first request, that is refused because the table is missing.
fn no_table(alloc: Global) -> Result<Identity, AllocError> {
    let arguments = vec![in alloc; Term::atom(alloc, "t")?, Term::atom(alloc, "a")?]?;
    Ok(Identity::Refusal {
        pid: pid(alloc, &[])?,
        request: 1,
        kind: CallKind::Lookup,
        arguments: Arc::new(alloc, Terms::from_vec(arguments))?,
        rule: Rule::NoTable,
        owner: None,
    })
}

// What is found in the module that reads a table.
pub(super) fn of_no_table(alloc: Global) -> Result<Outcome, AllocError> {
    let mut findings = Findings::new(alloc);
    let schedule = turns(alloc, 2)?;
    note(alloc, &mut findings, bad_end(alloc)?, schedule.as_slice())?;
    let schedule = turns(alloc, 1)?;
    note(alloc, &mut findings, no_table(alloc)?, schedule.as_slice())?;
    Ok(Outcome::Complete(findings, Extent { nodes: 3, cut: 0 }))
}

// What is found in the module that waits.
pub(super) fn of_waits(alloc: Global) -> Result<Outcome, AllocError> {
    let mut findings = Findings::new(alloc);
    let schedule = turns(alloc, 5)?;
    let processes: Vec<Pid> = vec![in alloc; pid(alloc, &[])?, pid(alloc, &[1])?]?;
    note(
        alloc,
        &mut findings,
        Identity::Deadlock(processes),
        schedule.as_slice(),
    )?;
    Ok(Outcome::Complete(findings, Extent { nodes: 6, cut: 0 }))
}

// What is found in the module in which a message stays.
fn of_leaves(alloc: Global) -> Result<Outcome, Fail> {
    let mut findings = Findings::new(alloc);
    let schedule = read_schedule(alloc, b"P P P P P>P.1 P>P.1 P.1")?;
    let processes: Vec<Pid> = vec![in alloc; pid(alloc, &[1])?]?;
    note(
        alloc,
        &mut findings,
        Identity::Unread(processes),
        schedule.as_slice(),
    )?;
    Ok(Outcome::Complete(findings, Extent { nodes: 8, cut: 0 }))
}

// Checks that the first and the last line are these, where nothing is excused.
pub(super) fn is_framed(
    alloc: Global,
    visited: Visited,
    outcome: &Outcome,
    first: &str,
    last: &str,
) -> Result<(), Fail> {
    let mut sink = MemorySink::in_pieces(alloc, 1000, 1)?;
    write_explained_first_line(&mut sink, visited, 9, outcome)?;
    same(sink.bytes.as_slice(), first.as_bytes())?;
    let mut sink = MemorySink::in_pieces(alloc, 1000, 1)?;
    write_explained_last_line(&mut sink, visited, 9, &Excuses::none(alloc), outcome)?;
    same(sink.bytes.as_slice(), last.as_bytes())
}

#[test]
fn tells_of_which_schedules_the_result_is(rt: HostRuntime) -> Result<(), Fail> {
    let alloc = rt.alloc();
    let whole = Outcome::Complete(Findings::new(alloc), Extent { nodes: 12, cut: 0 });
    let first = "depth 9, nodes 12, complete, cut 0\n";
    is_framed(
        alloc,
        Visited::Nodes,
        &whole,
        first,
        "result: clean, all schedules\n",
    )?;
    let cut = Outcome::Complete(Findings::new(alloc), Extent { nodes: 12, cut: 3 });
    let first = "depth 9, nodes 12, complete, cut 3\n";
    is_framed(
        alloc,
        Visited::Nodes,
        &cut,
        first,
        "result: clean to depth 9\n",
    )?;
    let limited = Outcome::Incomplete(Cause::NodeLimit, Findings::new(alloc));
    let first = "depth 9, incomplete: node limit\n";
    is_framed(
        alloc,
        Visited::Nodes,
        &limited,
        first,
        "result: incomplete\n",
    )?;
    let wanting = Outcome::Incomplete(Cause::Memory, Findings::new(alloc));
    let first = "depth 9, incomplete: memory\n";
    is_framed(
        alloc,
        Visited::Nodes,
        &wanting,
        first,
        "result: incomplete\n",
    )
}

#[test]
fn tells_of_errors_to_the_depth(rt: HostRuntime) -> Result<(), Fail> {
    let alloc = rt.alloc();
    let mut findings = Findings::new(alloc);
    let schedule = turns(alloc, 2)?;
    note(alloc, &mut findings, bad_end(alloc)?, schedule.as_slice())?;
    let cut = Outcome::Complete(findings, Extent { nodes: 3, cut: 1 });
    let first = "depth 9, nodes 3, complete, cut 1\n";
    is_framed(
        alloc,
        Visited::Nodes,
        &cut,
        first,
        "result: errors to depth 9\n",
    )
}

// Checks that the explained report is this one. Where memory ran out it has to be a beginning of it, in a sink that is
// sound.
pub(super) fn explains(
    alloc: Global,
    text: &str,
    depth: u64,
    excuses: &Excuses,
    outcome: &Outcome,
    report: &[u8],
    piece: usize,
) -> Result<(), Fail> {
    let program = read_module(alloc, text.as_bytes())?;
    let mut sink = MemorySink::in_pieces(alloc, 2000, piece)?;
    let nodes = Visited::Nodes;
    match write_explained_report(alloc, &program, nodes, depth, excuses, outcome, &mut sink) {
        Ok(()) => same(sink.bytes.as_slice(), report),
        Err(ExplainFault::Memory) => {
            let is_beginning = report.starts_with(&sink.bytes);
            holds(is_beginning && !sink.has_failed, "it is no beginning")?;
            Err(Fail::from("there is no memory"))
        }
        Err(ExplainFault::Write) => Err(Fail::from("the sink has failed")),
    }
}

#[test]
fn explains_an_error_and_a_refusal(rt: HostRuntime) -> Result<(), Fail> {
    let alloc = rt.alloc();
    let none = Excuses::none(alloc);
    let outcome = of_no_table(alloc)?;
    let report = NO_TABLE_EXPLAINED.as_bytes();
    for piece in [1, 1000] {
        explains(alloc, NO_TABLE, 2, &none, &outcome, report, piece)?;
    }
    Ok(())
}

#[test]
fn explains_a_deadlock(rt: HostRuntime) -> Result<(), Fail> {
    let alloc = rt.alloc();
    let none = Excuses::none(alloc);
    let outcome = of_waits(alloc)?;
    let report = WAITS_EXPLAINED.as_bytes();
    for piece in [1, 1000] {
        explains(alloc, WAITS, 9, &none, &outcome, report, piece)?;
    }
    Ok(())
}

#[test]
fn explains_unread_messages(rt: HostRuntime) -> Result<(), Fail> {
    let alloc = rt.alloc();
    let none = Excuses::none(alloc);
    let outcome = of_leaves(alloc)?;
    let report = LEAVES_EXPLAINED.as_bytes();
    for piece in [1, 1000] {
        explains(alloc, LEAVES, 9, &none, &outcome, report, piece)?;
    }
    Ok(())
}

// The process of a schedule ends with its second turn, and takes no third.
#[test]
fn explains_no_step_that_is_not_enabled(rt: HostRuntime) -> Result<(), Fail> {
    let alloc = rt.alloc();
    let mut findings = Findings::new(alloc);
    let schedule = turns(alloc, 4)?;
    note(alloc, &mut findings, bad_end(alloc)?, schedule.as_slice())?;
    let outcome = Outcome::Incomplete(Cause::NodeLimit, findings);
    let report =
        "depth 5, incomplete: node limit\nerror 1: P ends {'badarg',[]}\n  P P P P\n    1 P ets:lookup('t','a') -> badarg (2 NoTable)\n    2 P ends {'badarg',[]}\nerrors 1, refusals 0\nresult: incomplete\n";
    let none = Excuses::none(alloc);
    explains(alloc, NO_TABLE, 5, &none, &outcome, report.as_bytes(), 1000)
}

#[test]
fn a_sink_that_fails_got_a_beginning(rt: HostRuntime) -> Result<(), Fail> {
    let alloc = rt.alloc();
    let program = read_module(alloc, WAITS.as_bytes())?;
    let nodes = Visited::Nodes;
    let none = Excuses::none(alloc);
    let outcome = of_waits(alloc)?;
    let report = WAITS_EXPLAINED.as_bytes();
    for room in 0..report.len() {
        let mut sink = MemorySink::with_room(alloc, room)?;
        let written = write_explained_report(alloc, &program, nodes, 9, &none, &outcome, &mut sink);
        assert_eq!(rt; written, Err(ExplainFault::Write), "at {room}");
        assert_eq!(rt; sink.bytes.len(), room);
        assert!(rt; report.starts_with(&sink.bytes), "at {room}");
    }
    Ok(())
}
