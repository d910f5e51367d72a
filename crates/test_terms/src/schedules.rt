// Texts that are schedules, and the first bad step of those that are not.
use crate::tuple_parts::place_and_text;
use std::alloc::{AllocError, Global};
use std::fmt::Write;
use std::test::Fail;
use term_core::{Pid, ScheduleFault, Step, read_schedule, write_schedule, write_step};
use test_support::{MemorySink, holds, nested, same};

// A word, and the numbers of a pid, each after a blank.
fn describe(text: &mut String, word: &str, pid: &Pid) -> Result<(), AllocError> {
    text.push_str(word)?;
    for number in pid.numbers() {
        write!(text, " {number}")?;
    }
    Ok(())
}

fn describe_delivery(text: &mut String, from: &Pid, to: &Pid) -> Result<(), AllocError> {
    describe(text, "from", from)?;
    describe(text, " to", to)
}

// A step in other words.
fn describe_step(text: &mut String, step: &Step) -> Result<(), AllocError> {
    match step {
        Step::Turn(pid) => describe(text, "turn", pid),
        Step::Deliver(from, to) => describe_delivery(text, from, to),
    }
}

// The steps in other words.
fn described(alloc: Global, steps: &[Step]) -> Result<String, AllocError> {
    let mut text = String::new(alloc);
    for step in steps {
        describe_step(&mut text, step)?;
        text.push(';')?;
    }
    Ok(text)
}

// Texts of schedules, and their steps in other words.
const SCHEDULES: &str = "\
=
P=turn;
P P.1=turn;turn 1;
P.2.1=turn 2 1;
P>P.1 P.1>P=from to 1;from 1 to;
P>P.1=from to 1;
P P.2 P>P.1=turn;turn 2;from to 1;
P.10>P.9.10=from 10 to 9 10;
P.18446744073709551615=turn 18446744073709551615;
";

// The text of a schedule, and its steps in other words.
fn split_row(row: &str) -> Result<(&str, &str), Fail> {
    Ok(row.split_once('=').ok_or("a row has two parts")?)
}

// Checks that the schedule of a row has the steps of the row.
fn reads(alloc: Global, row: &str) -> Result<(), Fail> {
    let (text, wanted) = split_row(row)?;
    let steps = read_schedule(alloc, text.as_bytes())?;
    let words = described(alloc, &steps)?;
    same(words.as_bytes(), wanted.as_bytes())
}

#[test]
fn reads_schedules(rt: HostRuntime) -> Result<(), Fail> {
    for row in SCHEDULES.lines() {
        reads(rt.alloc(), row)?;
    }
    Ok(())
}

// Checks that the schedule is written so, and no byte more.
fn writes(alloc: Global, steps: &[Step], text: &[u8]) -> Result<(), Fail> {
    let mut sink = MemorySink::with_room(alloc, text.len())?;
    write_schedule(steps, &mut sink)?;
    same(sink.bytes.as_slice(), text)
}

#[test]
fn writes_schedules(rt: HostRuntime) -> Result<(), Fail> {
    for row in SCHEDULES.lines() {
        let (text, _) = split_row(row)?;
        let steps = read_schedule(rt.alloc(), text.as_bytes())?;
        writes(rt.alloc(), &steps, text.as_bytes())?;
    }
    Ok(())
}

// Checks that the step is written so.
fn writes_step(alloc: Global, step: &Step, text: &[u8]) -> Result<(), Fail> {
    let mut sink = MemorySink::with_room(alloc, 100)?;
    write_step(step, &mut sink)?;
    same(sink.bytes.as_slice(), text)
}

// Checks that the copy of the step is the same, and is written so.
fn copies(alloc: Global, step: &Step, text: &[u8]) -> Result<(), Fail> {
    let copied = step.copy()?;
    holds(copied == *step, "a copy is the same")?;
    writes_step(alloc, &copied, text)
}

// Schedules of one step, a blank between them.
const STEPS: &str = "P P.2 P>P.1 P.2>P.1";

#[test]
fn copies_and_writes_steps(rt: HostRuntime) -> Result<(), Fail> {
    for text in STEPS.split(' ') {
        let steps = read_schedule(rt.alloc(), text.as_bytes())?;
        let step = steps.first().ok_or("a schedule has a step")?;
        copies(rt.alloc(), step, text.as_bytes())?;
    }
    Ok(())
}

#[test]
fn reads_a_schedule_of_100000_steps(rt: HostRuntime) -> Result<(), Fail> {
    let text = nested(rt.alloc(), "", "P.7 ", 99_999, "P", "")?;
    let steps = read_schedule(rt.alloc(), text.as_bytes())?;
    holds(steps.len() == 100_000, "there are 100000 steps")?;
    writes(rt.alloc(), &steps, text.as_bytes())
}

// The place of the first bad step, and a text of no schedule.
const BAD_STEPS: &str = "\
2 `P  P`
0 `P.0`
0 `P.18446744073709551616`
2 `P `
0 ` P`
0 ` `
6 `P>P.1 x`
2 `P x y`
0 `P.01`
0 `P.`
0 `P.1.`
0 `P.+1`
0 `P>`
0 `>P`
0 `P>P>P`
0 `P\tP`
";

#[test]
fn names_the_first_bad_step(rt: HostRuntime) -> Result<(), Fail> {
    for row in BAD_STEPS.lines() {
        let (at, text) = place_and_text(row).ok_or("a row has two parts")?;
        let fault = read_schedule(rt.alloc(), text.as_bytes()).err();
        holds(fault == Some(ScheduleFault::BadStep(at)), row)?;
    }
    Ok(())
}

// Checks that a fault is written so.
fn writes_fault(alloc: Global, fault: ScheduleFault, want: &str) -> Result<(), Fail> {
    let text = format!(in alloc; "{fault}")?;
    same(text.as_bytes(), want.as_bytes())
}

#[test]
fn writes_faults(rt: HostRuntime) -> Result<(), Fail> {
    writes_fault(rt.alloc(), ScheduleFault::BadStep(2), "1 BadStep at 2")?;
    writes_fault(rt.alloc(), ScheduleFault::Memory, "2 Memory")
}
