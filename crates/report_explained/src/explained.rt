// The explained report: below each finding come the lines of its schedule and, at a deadlock or at unread messages, which
// processes wait.
ghost use Rattle.std.specs.Prelude.{◌≡◌, [], false, OnOk, codes};
ghost use Rattle.term_core.specs.Stream.{Writes};
ghost use Rattle.tree_excuses.specs.Excuses.{excuses_in};
ghost use Rattle.tree_findings.specs.Found.{finding_in};
ghost use Rattle.world_footprints.specs.Deeds.{event_in};
ghost use Rattle.world_event_text.specs.EventText.{text_of_event};
ghost use Rattle.world_core.specs.Seen.{program_in};
ghost use Rattle.world_model.specs.Asking.{program_of};
ghost use Rattle.report_explained.specs.Explained.{ExplanationsAreOfRuns, IsExplained, explained_finding, explained_findings, explained_from, indented, text_of_explained_report_by, text_of_explanation, text_of_steps};
ghost use Rattle.world_replay.specs.Replay.{reached};
ghost use Rattle.report_explained.specs.inside.ExplainedSteps.{ExplainsStep, explained_errors};
ghost use Rattle.report_text.specs.Standing.{word_of};

use crate::explain_fault::ExplainFault;
use crate::waiting::write_waits;
use core_tree::Module;
use report_text::{
    Visited, findings_in, word_of, write_counts, write_explained_first_line,
    write_explained_last_line, write_finding,
};
use std::alloc::Global;
use term_core::{Sink, Step, WriteFault, write_all};
use tree_excuses::{Excuses, Standing};
use tree_findings::{Finding, FindingList, Findings, Outcome};
use world_core::{World, WorldFault};
use world_event_text::write_event;
use world_plans::Event;

/// Below a finding whose schedule runs come the lines of that run and, at a deadlock or at unread messages, which processes
/// wait after it.
pub fn explanations_are_of_runs()
    ensures { ExplanationsAreOfRuns }
{}

/// Writes the explained report of an exploration with schedules of at most so many steps. Its first line says what it
/// went through, and also at how many nodes or states the depth cuts off what could follow. Its last one says which
/// schedules the result is about: all, all that deliver signals at once, or those up to the depth. The errors that
/// count come first, then the refusals, and then the errors that are taken as normal. Below each finding come the lines
/// of its schedule, each after four blanks: they come from a new world of the module, in which the steps are taken one
/// after another, up to one that is not enabled. Below these comes, at a deadlock or at unread messages, a line for each
/// of its processes, with the messages in its mailbox.
///
/// # Errors
///
/// `Memory` where memory ran out, and `Write` where the sink failed: then a beginning of the report was written.
pub fn write_explained_report<W: Sink>(
    alloc: Global,
    program: &Module,
    visited: Visited,
    depth: u64,
    excuses: &Excuses,
    outcome: &Outcome,
    sink: &mut W,
) -> Result<(), ExplainFault>
    requires { W.has_failed sink.old ≡ false }
    ensures { IsExplained (text_of_explained_report_by visited (program_of program.now) depth (excuses_in excuses.now) outcome.now) (W.contents sink.old) (W.contents sink.new) (W.has_failed sink.new) result }
{
    let findings = findings_in(outcome);
    write_explained_first_line(sink, visited, depth, outcome)?;
    write_explained_findings(alloc, program, excuses, findings, sink)?;
    write_counts(sink, excuses, findings)?;
    write_explained_last_line(sink, visited, depth, excuses, outcome)?;
    Ok(())
}

/// Writes the errors that count, then the refusals, and then the errors that are taken as normal, each with what comes
/// below it.
pub(crate) fn write_explained_findings<W: Sink>(
    alloc: Global,
    program: &Module,
    excuses: &Excuses,
    findings: &Findings,
    sink: &mut W,
) -> Result<(), ExplainFault>
    requires { W.has_failed sink.old ≡ false }
    ensures { IsExplained (explained_findings (program_of program.now) (excuses_in excuses.now) findings.now) (W.contents sink.old) (W.contents sink.new) (W.has_failed sink.new) result }
{
    let errors = findings.errors();
    let refusals = findings.refusals();
    write_explained_errors(alloc, program, Standing::Counts, excuses, errors, sink)?;
    write_explained_list(alloc, program, b"refusal", refusals, sink)?;
    write_explained_errors(alloc, program, Standing::Normal, excuses, errors, sink)?;
    Ok(())
}

// Writes all errors with this standing, numbered from 1, each with what comes below it.
fn write_explained_errors<W: Sink>(
    alloc: Global,
    program: &Module,
    standing: Standing,
    excuses: &Excuses,
    errors: &FindingList,
    sink: &mut W,
) -> Result<(), ExplainFault>
    requires { W.has_failed sink.old ≡ false }
    ensures { IsExplained (explained_errors (program_of program.now) (excuses_in excuses.now) standing errors.now) (W.contents sink.old) (W.contents sink.new) (W.has_failed sink.new) result }
{
    let kind = word_of(standing);
    let mut number = 0;
    for finding in errors.as_slice() {
        if standing.is_of(excuses, &finding.identity) {
            number += 1;
            write_explained_finding(alloc, program, kind, number, finding, sink)?;
        }
    }
    Ok(())
}

// Writes all findings of one kind, numbered from 1, each with what comes below it.
fn write_explained_list<W: Sink>(
    alloc: Global,
    program: &Module,
    kind: &[u8],
    findings: &FindingList,
    sink: &mut W,
) -> Result<(), ExplainFault>
    requires { W.has_failed sink.old ≡ false }
    ensures { IsExplained (explained_from (program_of program.now) kind.now 1 findings.now) (W.contents sink.old) (W.contents sink.new) (W.has_failed sink.new) result }
{
    for (place, finding) in findings.as_slice().iter().enumerate() {
        write_explained_finding(alloc, program, kind, place + 1, finding, sink)?;
    }
    Ok(())
}

// Writes one finding of a kind by its number, and what comes below it.
fn write_explained_finding<W: Sink>(
    alloc: Global,
    program: &Module,
    kind: &[u8],
    number: usize,
    finding: &Finding,
    sink: &mut W,
) -> Result<(), ExplainFault>
    requires { W.has_failed sink.old ≡ false }
    ensures { IsExplained (explained_finding (program_of program.now) kind.now number (finding_in finding.now)) (W.contents sink.old) (W.contents sink.new) (W.has_failed sink.new) result }
{
    write_finding(sink, kind, number, finding)?;
    write_explanation(alloc, program, finding, sink)?;
    Ok(())
}

// Writes what comes below a finding: what its schedule did, and which processes wait then.
fn write_explanation<W: Sink>(
    alloc: Global,
    program: &Module,
    finding: &Finding,
    sink: &mut W,
) -> Result<(), ExplainFault>
    requires { W.has_failed sink.old ≡ false }
    ensures { IsExplained (text_of_explanation (program_of program.now) (finding_in finding.now)) (W.contents sink.old) (W.contents sink.new) (W.has_failed sink.new) result }
{
    let Ok(mut world) = World::open(alloc, program) else {
        return Err(ExplainFault::Memory);
    };
    write_steps(alloc, &mut world, finding.schedule.as_slice(), sink)?;
    write_waits(&world, &finding.identity, sink)?;
    Ok(())
}

// Takes the steps of a schedule one after another in a new world, up to one that is not enabled, and writes the line
// of each event.
fn write_steps<W: Sink>(
    alloc: Global,
    world: &mut World<'_>,
    steps: &[Step],
    sink: &mut W,
) -> Result<(), ExplainFault>
    requires sound { W.has_failed sink.old ≡ false }
    requires lives { world.old.spent ≡ false }
    requires begins { world.old.history ≡ [] }
    ensures written { IsExplained (text_of_steps (reached (program_in world.old) steps.now)) (W.contents sink.old) (W.contents sink.new) (W.has_failed sink.new) result }
    ensures history { OnOk result (world.new.history ≡ reached (program_in world.old) steps.now) }
    ensures lives { OnOk result (world.new.spent ≡ false) }
{
    for (index, step) in steps.iter().enumerate() {
        let is_enabled = write_step(alloc, world, index + 1, step, sink)?;
        if !is_enabled {
            return Ok(());
        }
    }
    Ok(())
}

// Takes a step, the one of this number, and writes the line of its event. Answers whether the step is enabled: where it
// is not, nothing is done.
fn write_step<W: Sink>(
    alloc: Global,
    world: &mut World<'_>,
    number: usize,
    step: &Step,
    sink: &mut W,
) -> Result<bool, ExplainFault>
    requires sound { W.has_failed sink.old ≡ false }
    requires lives { world.old.spent ≡ false }
    ensures step { ExplainsStep (program_in world.old) world.old.history number step.now (W.contents sink.old) (W.contents sink.new) (W.has_failed sink.new) world.new.history result }
    ensures lives { OnOk result (world.new.spent ≡ false) }
    ensures program { OnOk result (world.new.program ≡ world.old.program) }
{
    match world.step(alloc, step) {
        Ok(()) => {}
        Err(WorldFault::NotEnabled) => return Ok(false),
        Err(WorldFault::Memory) => return Err(ExplainFault::Memory),
    }
    let Some(event) = world.last_event() else {
        unreachable!()
    };
    write_indented_event(number as u64, event, sink)?;
    Ok(true)
}

// Writes the line of the event of this number after four blanks.
fn write_indented_event<W: Sink>(number: u64, event: &Event, sink: &mut W) -> Result<(), WriteFault>
    requires { W.has_failed sink.old ≡ false }
    ensures { Writes (W.contents sink.old) (W.contents sink.new) (W.has_failed sink.new) result (indented (text_of_event number (event_in event.now))) }
{
    write_all(sink, b"    ")?;
    write_event(sink, number, event)
}
