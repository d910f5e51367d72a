// The status and the line of each refusal, alone and as the whole program reports it.
use core_tokens::ReadFault;
use program_runs::{InputFault, NAME, ReplayFault, RunFault, Verdict, run, status, write_fault};
use search_expansion::Unwatched;
use std::alloc::Global;
use std::sync::Wait;
use std::test::Fail;
use std::thread::Threads;
use term_core::ScheduleFault;
use test_support::{MemorySink, MemorySource, holds, same};

// Refusals with their status and their line.
const REFUSALS: &[(RunFault, u8, &[u8])] = &[
    (
        RunFault::Input(ReadFault::BadToken(7)),
        2,
        b"input: 1 BadToken at 7\n",
    ),
    (
        RunFault::Input(ReadFault::Expected(0)),
        2,
        b"input: 2 Expected at 0\n",
    ),
    (
        RunFault::Input(ReadFault::HigherOrder(57)),
        2,
        b"input: 7 HigherOrder at 57\n",
    ),
    (
        RunFault::Input(ReadFault::NoMain(28)),
        2,
        b"input: 13 NoMain at 28\n",
    ),
    (
        RunFault::Input(ReadFault::TooLong(1_048_576)),
        2,
        b"input: 16 TooLong at 1048576\n",
    ),
    (
        RunFault::Schedule(ScheduleFault::BadStep(2)),
        2,
        b"schedule: 1 BadStep at 2\n",
    ),
    (
        RunFault::Schedule(ScheduleFault::Memory),
        3,
        b"schedule: 2 Memory\n",
    ),
    (
        RunFault::NotEnabled(2),
        2,
        b"replay: 1 NotEnabled at step 2\n",
    ),
    (RunFault::ReplayCutOff, 3, b"replay: 2 Memory\n"),
];

// Checks that a refusal has this line.
fn writes(alloc: Global, fault: &RunFault, line: &[u8]) -> Result<(), Fail> {
    let mut sink = MemorySink::with_room(alloc, 100)?;
    write_fault(&mut sink, fault)?;
    same(sink.bytes.as_slice(), line)
}

// Checks that a refusal has this status and this line.
fn tells(alloc: Global, fault: RunFault, number: u8, line: &[u8]) -> Result<(), Fail> {
    holds(status(&Err(fault)) == number, "a refusal has its status")?;
    writes(alloc, &fault, line)
}

#[test]
fn tells_each_refusal_by_its_status_and_its_line(rt: HostRuntime) -> Result<(), Fail> {
    holds(
        status(&Ok(Verdict::Done)) == 0,
        "what is done has the status 0",
    )?;
    for &(fault, number, line) in REFUSALS {
        tells(rt.alloc(), fault, number, line)?;
    }
    tells(
        rt.alloc(),
        RunFault::from(InputFault::Memory),
        3,
        b"input: 15 Memory\n",
    )?;
    tells(
        rt.alloc(),
        RunFault::from(InputFault::ReadFailed),
        2,
        b"input: read failed\n",
    )?;
    tells(
        rt.alloc(),
        RunFault::from(ReplayFault::Write),
        4,
        b"output failed\n",
    )?;
    Ok(())
}

// A table is made, and an object is written.
const TABLE: &str =
    "module 'm' ['main'/0] attributes [] 'main'/0 = fun () -> do call 'ets':'new'('t',['named_table']) call 'ets':'insert'('t',{'a',1}) end";

const LINES: &str =
    "1 P ets:new('t',['named_table']) -> 't'\n2 P ets:insert('t',{'a',1}) -> 'true'\n3 P ends 'normal'\n";

const FIRST_LINE: &str = "1 P ets:new('t',['named_table']) -> 't'\n";

// What the streams allow: how many reads, how many bytes of output, how many flushes of it.
type Allowed = (u64, usize, u64);

const SOUND: Allowed = (u64::MAX, 1000, u64::MAX);

const NO_READ: Allowed = (0, 1000, u64::MAX);

const NO_FLUSH: Allowed = (u64::MAX, 1000, 0);

// Checks that a run of a module and a schedule has this status and this output, and the line of a refusal, where the
// streams allow so many reads, so many bytes of output, and so many flushes of it.
fn reports<T: Threads + Wait + Sync>(
    rt: &T,
    alloc: Global,
    (module, schedule, (reads, room, flushes)): (&str, &str, Allowed),
    (number, lines, line): (u8, &str, &str),
) -> Result<(), Fail> {
    let mut input = MemorySource::in_pieces(module.as_bytes(), usize::MAX, reads);
    let mut output = MemorySink::with_flushes(alloc, room, flushes)?;
    let mut errors = MemorySink::with_room(alloc, 100)?;
    let status = run(
        rt,
        alloc,
        &[NAME, "replay", schedule],
        &mut input,
        &mut output,
        &mut errors,
        &Unwatched,
    );
    holds(status == number, "the run has another status")?;
    same(output.bytes.as_slice(), lines.as_bytes())?;
    same(errors.bytes.as_slice(), line.as_bytes())
}

const CUT: &str = "module 'm";

#[test]
fn reports_a_run_by_its_status_and_its_line(rt: HostRuntime) -> Result<(), Fail> {
    let alloc = rt.alloc();
    let bad = "input: 1 BadToken at 7\n";
    reports(&rt, alloc, (TABLE, "P P P", SOUND), (0, LINES, ""))?;
    reports(&rt, alloc, (TABLE, "", SOUND), (0, "", ""))?;
    reports(&rt, alloc, (CUT, "P", SOUND), (2, "", bad))?;
    let line = "schedule: 1 BadStep at 0\n";
    reports(&rt, alloc, (TABLE, " P", SOUND), (2, "", line))?;
    let line = "schedule: 1 BadStep at 2\n";
    reports(&rt, alloc, (TABLE, "P ", SOUND), (2, "", line))?;
    let line = "replay: 1 NotEnabled at step 2\n";
    reports(&rt, alloc, (TABLE, "P P.9", SOUND), (2, FIRST_LINE, line))
}

// A read fails; a write fails; only the flush at the end fails, after a whole replay and after one that stopped; and
// nothing is flushed where nothing was written.
#[test]
fn reports_a_run_whose_streams_fail(rt: HostRuntime) -> Result<(), Fail> {
    let alloc = rt.alloc();
    let line = "input: read failed\n";
    reports(&rt, alloc, (TABLE, "P P P", NO_READ), (2, "", line))?;
    let line = "output failed\n";
    let one_line = (u64::MAX, FIRST_LINE.len(), u64::MAX);
    reports(
        &rt,
        alloc,
        (TABLE, "P P P", one_line),
        (4, FIRST_LINE, line),
    )?;
    reports(&rt, alloc, (TABLE, "P P P", NO_FLUSH), (4, LINES, line))?;
    reports(
        &rt,
        alloc,
        (TABLE, "P P.9", NO_FLUSH),
        (4, FIRST_LINE, line),
    )?;
    let line = "input: 1 BadToken at 7\n";
    reports(&rt, alloc, (CUT, "P", NO_FLUSH), (2, "", line))
}
