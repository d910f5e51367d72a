// Reports of random schedules as terms of Erlang, byte for byte.
use crate::excused::{RACE, excusing_boom, joined, of_boom, of_race};
use crate::terms::is_told;
use core_reader::read_module;
use report_explained::ExplainFault;
use report_terms::write_terms_sample;
use report_text::Sampled;
use std::alloc::Global;
use std::test::Fail;
use test_support::MemorySink;
use tree_excuses::Excuses;
use tree_findings::Findings;

// A hundred schedules of at most nine steps.
const HUNDRED: Sampled = Sampled {
    depth: 9,
    runs: 100,
    seed: 7,
};

// What the race shows, from its identity on: the first process ends.
pub(super) const BOOM_TOLD: &str =
    "{ends,\"P\",\"{'boom',1}\"},\"P P P P\"}.\n{event,1,\"P\",{answers,{call,\"ets\",\"new\",[\"'t'\",\"['named_table','public']\"]},\"'t'\"}}.\n{event,2,\"P\",{answers,{call,\"erlang\",\"spawn\",[\"'m'\",\"'c'\",\"[]\"]},\"P.2\"}}.\n{event,3,\"P\",{answers,{call,\"ets\",\"lookup\",[\"'t'\",\"'a'\"]},\"[]\"}}.\n{event,4,\"P\",{ends,\"{'boom',1}\"}}.\n";

// The other one finds no table.
pub(super) const LATE_TOLD: &str =
    "{refused,\"P.2\",1,{call,\"ets\",\"insert\",[\"'t'\",\"{'a',1}\"]},{rule,2,'NoTable',none}},\"P P P P P.2\"}.\n{event,1,\"P\",{answers,{call,\"ets\",\"new\",[\"'t'\",\"['named_table','public']\"]},\"'t'\"}}.\n{event,2,\"P\",{answers,{call,\"erlang\",\"spawn\",[\"'m'\",\"'c'\",\"[]\"]},\"P.2\"}}.\n{event,3,\"P\",{answers,{call,\"ets\",\"lookup\",[\"'t'\",\"'a'\"]},\"[]\"}}.\n{event,4,\"P\",{ends,\"{'boom',1}\"}}.\n{event,5,\"P.2\",{refused,{call,\"ets\",\"insert\",[\"'t'\",\"{'a',1}\"]},{rule,2,'NoTable',none}}}.\n";

// And ends so.
pub(super) const GONE_TOLD: &str =
    "{ends,\"P.2\",\"{'badarg',[]}\"},\"P P P P P.2 P.2\"}.\n{event,1,\"P\",{answers,{call,\"ets\",\"new\",[\"'t'\",\"['named_table','public']\"]},\"'t'\"}}.\n{event,2,\"P\",{answers,{call,\"erlang\",\"spawn\",[\"'m'\",\"'c'\",\"[]\"]},\"P.2\"}}.\n{event,3,\"P\",{answers,{call,\"ets\",\"lookup\",[\"'t'\",\"'a'\"]},\"[]\"}}.\n{event,4,\"P\",{ends,\"{'boom',1}\"}}.\n{event,5,\"P.2\",{refused,{call,\"ets\",\"insert\",[\"'t'\",\"{'a',1}\"]},{rule,2,'NoTable',none}}}.\n{event,6,\"P.2\",{ends,\"{'badarg',[]}\"}}.\n";

// Both wait.
pub(super) const BOTH_TOLD: &str =
    "{deadlock,[\"P\",\"P.2\"]},\"P P P.2 P\"}.\n{event,1,\"P\",{answers,{call,\"ets\",\"new\",[\"'t'\",\"['named_table','public']\"]},\"'t'\"}}.\n{event,2,\"P\",{answers,{call,\"erlang\",\"spawn\",[\"'m'\",\"'c'\",\"[]\"]},\"P.2\"}}.\n{event,3,\"P.2\",{answers,{call,\"ets\",\"insert\",[\"'t'\",\"{'a',1}\"]},\"'true'\"}}.\n{event,4,\"P\",{answers,{call,\"ets\",\"lookup\",[\"'t'\",\"'a'\"]},\"[{'a',1}]\"}}.\n{waits,\"P\",[]}.\n{waits,\"P.2\",[]}.\n";

// The other one waits alone.
pub(super) const ALONE_TOLD: &str =
    "{deadlock,[\"P.2\"]},\"P P P P.2 P\"}.\n{event,1,\"P\",{answers,{call,\"ets\",\"new\",[\"'t'\",\"['named_table','public']\"]},\"'t'\"}}.\n{event,2,\"P\",{answers,{call,\"erlang\",\"spawn\",[\"'m'\",\"'c'\",\"[]\"]},\"P.2\"}}.\n{event,3,\"P\",{answers,{call,\"ets\",\"lookup\",[\"'t'\",\"'a'\"]},\"[]\"}}.\n{event,4,\"P.2\",{answers,{call,\"ets\",\"insert\",[\"'t'\",\"{'a',1}\"]},\"'true'\"}}.\n{event,5,\"P\",{ends,\"{'boom',1}\"}}.\n{waits,\"P.2\",[]}.\n";

// Checks that the report of the race is this one, in one write or in many.
fn tells(
    alloc: Global,
    excuses: &Excuses,
    findings: &Findings,
    parts: &[&str],
) -> Result<(), Fail> {
    let report = joined(alloc, parts)?;
    let program = read_module(alloc, RACE.as_bytes())?;
    for piece in [1, 1000] {
        let mut sink = MemorySink::in_pieces(alloc, 4000, piece)?;
        let written = write_terms_sample(alloc, &program, HUNDRED, excuses, findings, &mut sink);
        is_told(written, &sink, report.as_slice())?;
    }
    Ok(())
}

#[test]
fn tells_errors_and_refusals(rt: HostRuntime) -> Result<(), Fail> {
    let alloc = rt.alloc();
    tells(
        alloc,
        &Excuses::none(alloc),
        &of_race(alloc)?,
        &[
            "{sampled,9,100,7}.\n{error,1,",
            BOOM_TOLD,
            "{error,2,",
            GONE_TOLD,
            "{error,3,",
            BOTH_TOLD,
            "{error,4,",
            ALONE_TOLD,
            "{refusal,1,",
            LATE_TOLD,
            "{counts,4,1,0}.\n{result,errors}.\n",
        ],
    )
}

// What is excused does not count, and where nothing counts it is not said that there is nothing.
#[test]
fn nothing_is_found(rt: HostRuntime) -> Result<(), Fail> {
    let alloc = rt.alloc();
    let none = Excuses::none(alloc);
    let report = "{sampled,9,100,7}.\n{counts,0,0,0}.\n{result,nothing_found}.\n";
    tells(alloc, &none, &Findings::new(alloc), &[report])?;
    tells(
        alloc,
        &excusing_boom(alloc)?,
        &of_boom(alloc)?,
        &[
            "{sampled,9,100,7}.\n{normal,1,",
            BOOM_TOLD,
            "{counts,0,0,1}.\n{result,nothing_found}.\n",
        ],
    )
}

#[test]
fn a_sink_that_fails_got_a_beginning(rt: HostRuntime) -> Result<(), Fail> {
    let alloc = rt.alloc();
    let program = read_module(alloc, RACE.as_bytes())?;
    let none = Excuses::none(alloc);
    let found = of_boom(alloc)?;
    let parts = [
        "{sampled,9,100,7}.\n{error,1,",
        BOOM_TOLD,
        "{counts,1,0,0}.\n{result,errors}.\n",
    ];
    let report = joined(alloc, &parts)?;
    for room in 0..report.len() {
        let mut sink = MemorySink::with_room(alloc, room)?;
        let written = write_terms_sample(alloc, &program, HUNDRED, &none, &found, &mut sink);
        assert_eq!(rt; written, Err(ExplainFault::Write), "at {room}");
        assert_eq!(rt; sink.bytes.len(), room);
        assert!(rt; report.starts_with(&sink.bytes), "at {room}");
    }
    Ok(())
}
