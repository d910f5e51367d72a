// Lines that are those of jobs, and the fault of each other one.
use crate::levels::{TWO_END, explored, is_read, rows_of};
use core_reader::{Module, read_module};
use search_job_lines::{JobFault, read_job};
use std::alloc::Global;
use std::test::Fail;
use test_support::{holds, nested, same};

// What is between the first two quotation marks of a row, and what follows them.
fn quoted(row: &str) -> Option<(&str, &str)> {
    row.strip_prefix('"')?.split_once('"')
}

// Lines to the depth 3 of two processes that end, each between quotation marks, and the answer to it. In the first ones
// no bar is between two blanks. Then what comes before the first bar is no schedule, and what comes after it is none;
// the fault of the sleeping steps goes before that of a schedule with one step more than the depth. Last, a step is not
// enabled, or one that sleeps is not enabled after the schedule.
const FAULTS: &str = r#"
"" 1 NoBar
"P" 1 NoBar
"P |P" 1 NoBar
"P| P" 1 NoBar
"P |" 1 NoBar
"| P" 1 NoBar
"|" 1 NoBar
"P || P" 1 NoBar
"P  P" 1 NoBar
"x | " 2 BadStep at 0
"P x | " 2 BadStep at 2
"P  | " 2 BadStep at 2
"  | " 2 BadStep at 0
" P | " 2 BadStep at 0
"P. | " 2 BadStep at 0
"P.0 | " 2 BadStep at 0
"P.01 | " 2 BadStep at 0
"P.18446744073709551616 | " 2 BadStep at 0
"P>P> | " 2 BadStep at 0
"P P| | " 2 BadStep at 2
"|P | x" 2 BadStep at 0
"P | x" 3 BadSleeper at 0
"P | P x" 3 BadSleeper at 2
" |  " 3 BadSleeper at 0
"P | P " 3 BadSleeper at 2
" | P | P" 3 BadSleeper at 2
"P P P P | x" 3 BadSleeper at 0
"P P P P | " 4 TooLong
"P.7 P.7 P.7 P.7 | P.7" 4 TooLong
"P.1 | " 5 NotEnabled at step 1
"P>P.1 | " 5 NotEnabled at step 1
"P P P | " 5 NotEnabled at step 3
"P P.1 P.1 | P.7" 5 NotEnabled at step 3
"P.18446744073709551615 | " 5 NotEnabled at step 1
" | P.1" 6 NotAsleep at step 1
"P P.1 | P P.1" 6 NotAsleep at step 2
"P P P.1 | P" 6 NotAsleep at step 1
"P | P P.1 P>P.1" 6 NotAsleep at step 3
"#;

// Checks that a line is refused with this answer.
fn is_refused(alloc: Global, program: &Module, line: &str, wanted: &str) -> Result<(), Fail> {
    let Err(fault) = read_job(alloc, explored(program, 3), line.as_bytes()) else {
        return Err(Fail::new(format_args!("{line} is read")));
    };
    is_told(alloc, fault, wanted)
}

// Checks that a fault has this text.
fn is_told(alloc: Global, fault: JobFault, wanted: &str) -> Result<(), Fail> {
    let text = format!(in alloc; "{fault}")?;
    same(text.as_bytes(), wanted.as_bytes())
}

#[test]
fn other_lines_are_refused(rt: HostRuntime) -> Result<(), Fail> {
    let alloc = rt.alloc();
    let program = read_module(alloc, TWO_END.as_bytes())?;
    for row in rows_of(FAULTS)?.lines() {
        let Some((line, wanted)) = quoted(row) else {
            return Err(Fail::from("a row has a line and its answer"));
        };
        is_refused(alloc, &program, line, wanted.trim_start())?;
    }
    is_refused(alloc, &program, "\n | ", "2 BadStep at 0")?;
    is_refused(alloc, &program, "P P | P\n", "3 BadSleeper at 0")?;
    is_told(alloc, JobFault::Memory, "7 Memory")
}

// Each has a schedule that can be taken and steps that are enabled after it, whether or not the search names them so.
const JOBS: &str = r#"
" | "
" | P"
"P | P P.1"
"P | P.1 P"
"P | P P P"
"P P.1 | "
"P P.1 P | "
"#;

#[test]
fn lines_of_jobs_are_read(rt: HostRuntime) -> Result<(), Fail> {
    let alloc = rt.alloc();
    let program = read_module(alloc, TWO_END.as_bytes())?;
    for row in rows_of(JOBS)?.lines() {
        let Some((line, "")) = quoted(row) else {
            return Err(Fail::from("a row is between quotation marks"));
        };
        is_read(alloc, explored(&program, 3), line.as_bytes())?;
    }
    Ok(())
}

// Checks that a line has this fault.
fn has_fault(alloc: Global, program: &Module, line: &str, wanted: JobFault) -> Result<(), Fail> {
    let fault = read_job(alloc, explored(program, 3), line.as_bytes()).err();
    holds(fault == Some(wanted), "the line has another fault, or none")
}

// Twenty thousand steps and more, before the bar, after it, and without one.
#[test]
fn long_lines_are_read_to_their_end(rt: HostRuntime) -> Result<(), Fail> {
    let alloc = rt.alloc();
    let program = read_module(alloc, TWO_END.as_bytes())?;
    let asleep = nested(alloc, " |", " P", 20_000, "", "")?;
    is_read(alloc, explored(&program, 3), asleep.as_bytes())?;
    let awake = nested(alloc, " |", " P", 20_000, " P.1", "")?;
    has_fault(alloc, &program, awake.as_str(), JobFault::NotAsleep(20_001))?;
    let schedule = nested(alloc, "P", " P", 20_000, " | ", "")?;
    has_fault(alloc, &program, schedule.as_str(), JobFault::TooLong)?;
    let bare = nested(alloc, "P", " P", 20_000, "", "")?;
    has_fault(alloc, &program, bare.as_str(), JobFault::NoBar)
}
