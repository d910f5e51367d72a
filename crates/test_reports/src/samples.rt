// Reports of what random schedules show, byte for byte.
use crate::excused::{
    ALONE, ALONE_STEPS, BOOM, BOOM_STEPS, BOTH, BOTH_STEPS, GONE, GONE_STEPS, LATE, LATE_STEPS,
    RACE, excusing_boom, excusing_both, joined, of_boom, of_race,
};
use core_reader::read_module;
use report_explained::{ExplainFault, write_explained_sample};
use report_text::{Sampled, write_sample, write_sample_first_line, write_sample_last_line};
use std::alloc::Global;
use std::test::Fail;
use term_core::WriteFault;
use test_support::{MemorySink, holds, same};
use tree_excuses::Excuses;
use tree_findings::Findings;

// A hundred schedules of at most nine steps.
const HUNDRED: Sampled = Sampled {
    depth: 9,
    runs: 100,
    seed: 7,
};

// Checks that the report is written so, in one write or in many.
fn reports(
    alloc: Global,
    excuses: &Excuses,
    findings: &Findings,
    parts: &[&str],
) -> Result<(), Fail> {
    let report = joined(alloc, parts)?;
    for piece in [1, 1000] {
        let mut sink = MemorySink::in_pieces(alloc, 1000, piece)?;
        write_sample(&mut sink, HUNDRED, excuses, findings)?;
        same(sink.bytes.as_slice(), report.as_slice())?;
    }
    Ok(())
}

#[test]
fn tells_errors_and_refusals(rt: HostRuntime) -> Result<(), Fail> {
    let alloc = rt.alloc();
    reports(
        alloc,
        &Excuses::none(alloc),
        &of_race(alloc)?,
        &[
            "depth 9, runs 100, seed 7\n",
            "error 1: ",
            BOOM,
            "error 2: ",
            GONE,
            "error 3: ",
            BOTH,
            "error 4: ",
            ALONE,
            "refusal 1: ",
            LATE,
            "errors 4, refusals 1\nresult: errors\n",
        ],
    )
}

#[test]
fn tells_what_is_taken_as_normal(rt: HostRuntime) -> Result<(), Fail> {
    let alloc = rt.alloc();
    reports(
        alloc,
        &excusing_both(alloc)?,
        &of_race(alloc)?,
        &[
            "depth 9, runs 100, seed 7\n",
            "error 1: ",
            GONE,
            "error 2: ",
            BOTH,
            "refusal 1: ",
            LATE,
            "normal 1: ",
            BOOM,
            "normal 2: ",
            ALONE,
            "errors 2, refusals 1, taken as normal 2\nresult: errors\n",
        ],
    )
}

// What is excused does not count, and where nothing counts it is not said that there is nothing.
#[test]
fn nothing_is_found(rt: HostRuntime) -> Result<(), Fail> {
    let alloc = rt.alloc();
    let none = Excuses::none(alloc);
    let nothing = Findings::new(alloc);
    let report = "depth 9, runs 100, seed 7\nerrors 0, refusals 0\nresult: nothing found\n";
    reports(alloc, &none, &nothing, &[report])?;
    let report =
        "depth 9, runs 100, seed 7\nerrors 0, refusals 0, taken as normal 0\nresult: nothing found\n";
    reports(alloc, &excusing_boom(alloc)?, &nothing, &[report])?;
    reports(
        alloc,
        &excusing_boom(alloc)?,
        &of_boom(alloc)?,
        &[
            "depth 9, runs 100, seed 7\n",
            "normal 1: ",
            BOOM,
            "errors 0, refusals 0, taken as normal 1\nresult: nothing found\n",
        ],
    )
}

// Checks that the first line is this one.
fn begins_so(alloc: Global, sampled: Sampled, line: &str) -> Result<(), Fail> {
    let mut sink = MemorySink::in_pieces(alloc, 1000, 1)?;
    write_sample_first_line(&mut sink, sampled)?;
    same(sink.bytes.as_slice(), line.as_bytes())
}

// Checks that this is the last line where the first process ends.
fn ends_so(alloc: Global, excuses: &Excuses, line: &str) -> Result<(), Fail> {
    let mut sink = MemorySink::in_pieces(alloc, 1000, 1)?;
    write_sample_last_line(&mut sink, excuses, &of_boom(alloc)?)?;
    same(sink.bytes.as_slice(), line.as_bytes())
}

#[test]
fn tells_numbers_of_any_size(rt: HostRuntime) -> Result<(), Fail> {
    let alloc = rt.alloc();
    let least = Sampled {
        depth: 0,
        runs: 1,
        seed: 0,
    };
    begins_so(alloc, least, "depth 0, runs 1, seed 0\n")?;
    let most = Sampled {
        depth: 400,
        runs: 1_000_000,
        seed: 4_294_967_295,
    };
    begins_so(alloc, most, "depth 400, runs 1000000, seed 4294967295\n")?;
    let any = Sampled {
        depth: u64::MAX,
        runs: u64::MAX,
        seed: u64::MAX,
    };
    let line = "depth 18446744073709551615, runs 18446744073709551615, seed 18446744073709551615\n";
    begins_so(alloc, any, line)
}

#[test]
fn the_result_is_by_what_counts(rt: HostRuntime) -> Result<(), Fail> {
    let alloc = rt.alloc();
    ends_so(alloc, &Excuses::none(alloc), "result: errors\n")?;
    ends_so(alloc, &excusing_boom(alloc)?, "result: nothing found\n")
}

#[test]
fn a_sink_that_fails_got_a_beginning(rt: HostRuntime) -> Result<(), Fail> {
    let alloc = rt.alloc();
    let none = Excuses::none(alloc);
    let found = of_boom(alloc)?;
    let parts = [
        "depth 9, runs 100, seed 7\n",
        "error 1: ",
        BOOM,
        "errors 1, refusals 0\nresult: errors\n",
    ];
    let report = joined(alloc, &parts)?;
    for room in 0..report.len() {
        let mut sink = MemorySink::with_room(alloc, room)?;
        let written = write_sample(&mut sink, HUNDRED, &none, &found);
        assert_eq!(rt; written, Err(WriteFault), "at {room}");
        assert_eq!(rt; sink.bytes.len(), room);
        assert!(rt; report.starts_with(&sink.bytes), "at {room}");
    }
    Ok(())
}

// Checks that the explained report of the race is this one. Where memory ran out it has to be a beginning of it, in a
// sink that is sound.
fn explains(
    alloc: Global,
    excuses: &Excuses,
    findings: &Findings,
    parts: &[&str],
) -> Result<(), Fail> {
    let report = joined(alloc, parts)?;
    let program = read_module(alloc, RACE.as_bytes())?;
    let mut sink = MemorySink::in_pieces(alloc, 2000, 1000)?;
    match write_explained_sample(alloc, &program, HUNDRED, excuses, findings, &mut sink) {
        Ok(()) => same(sink.bytes.as_slice(), report.as_slice()),
        Err(ExplainFault::Memory) => {
            let is_beginning = report.as_slice().starts_with(&sink.bytes);
            holds(is_beginning && !sink.has_failed, "it is no beginning")?;
            Err(Fail::from("there is no memory"))
        }
        Err(ExplainFault::Write) => Err(Fail::from("the sink has failed")),
    }
}

#[test]
fn explains_ends_and_deadlocks(rt: HostRuntime) -> Result<(), Fail> {
    let alloc = rt.alloc();
    explains(
        alloc,
        &Excuses::none(alloc),
        &of_race(alloc)?,
        &[
            "depth 9, runs 100, seed 7\n",
            "error 1: ",
            BOOM,
            BOOM_STEPS,
            "error 2: ",
            GONE,
            GONE_STEPS,
            "error 3: ",
            BOTH,
            BOTH_STEPS,
            "error 4: ",
            ALONE,
            ALONE_STEPS,
            "refusal 1: ",
            LATE,
            LATE_STEPS,
            "errors 4, refusals 1\nresult: errors\n",
        ],
    )
}

#[test]
fn explains_what_is_taken_as_normal(rt: HostRuntime) -> Result<(), Fail> {
    let alloc = rt.alloc();
    explains(
        alloc,
        &excusing_boom(alloc)?,
        &of_boom(alloc)?,
        &[
            "depth 9, runs 100, seed 7\n",
            "normal 1: ",
            BOOM,
            BOOM_STEPS,
            "errors 0, refusals 0, taken as normal 1\nresult: nothing found\n",
        ],
    )
}

#[test]
fn an_explained_one_got_a_beginning(rt: HostRuntime) -> Result<(), Fail> {
    let alloc = rt.alloc();
    let program = read_module(alloc, RACE.as_bytes())?;
    let none = Excuses::none(alloc);
    let found = of_boom(alloc)?;
    let parts = [
        "depth 9, runs 100, seed 7\n",
        "error 1: ",
        BOOM,
        BOOM_STEPS,
        "errors 1, refusals 0\nresult: errors\n",
    ];
    let report = joined(alloc, &parts)?;
    for room in 0..report.len() {
        let mut sink = MemorySink::with_room(alloc, room)?;
        let written = write_explained_sample(alloc, &program, HUNDRED, &none, &found, &mut sink);
        assert_eq!(rt; written, Err(ExplainFault::Write), "at {room}");
        assert_eq!(rt; sink.bytes.len(), room);
        assert!(rt; report.starts_with(&sink.bytes), "at {room}");
    }
    Ok(())
}
