// The report of an exploration as terms of Erlang: below each finding come its events and, at a deadlock or at unread
// messages, who waits.
ghost use Rattle.std.specs.Prelude.{◌≡◌, false};
ghost use Rattle.tree_excuses.specs.Excuses.{excuses_in};
ghost use Rattle.tree_findings.specs.Found.{finding_in};
ghost use Rattle.world_model.specs.Asking.{program_of};
ghost use Rattle.report_explained.specs.Explained.{IsExplained};
ghost use Rattle.report_terms.specs.TermsReport.{finding_line, lines_below, lines_from, lines_of_finding, lines_of_findings, text_of_terms_report};
ghost use Rattle.report_terms.specs.inside.ToldSteps.{lines_of_errors};

use crate::identities::write_identity;
use crate::lines::{write_counts, write_explored, write_result};
use crate::steps::write_steps;
use crate::strings::write_schedule_string;
use crate::waiting::write_waits;
use core_tree::Module;
use report_explained::ExplainFault;
use report_text::{Visited, findings_in, word_of};
use std::alloc::Global;
use term_core::{Sink, write_all, write_number};
use tree_excuses::{Excuses, Standing};
use tree_findings::{Finding, FindingList, Findings, Outcome};
use world_core::World;

/// Writes what an exploration with schedules of at most so many steps results in, as terms of Erlang: one a line, each
/// ended by `.`, so that `file:consult/1` reads all of it. The first line says how far the exploration came. Then come the
/// errors that count, the refusals, and the errors that are taken as normal, each kind numbered from 1. Below each finding
/// come the events of its schedule, from a new world of the module in which the steps are taken one after another, up to
/// one that is not enabled; and at a deadlock or at unread messages each of its processes, with the messages in its
/// mailbox. The last two lines are the sums and the result. Terms, pids, references, steps and schedules of the explored
/// program are strings that hold their texts.
///
/// # Errors
///
/// `Memory` where memory ran out, and `Write` where the sink failed: then a beginning of the report was written.
pub fn write_terms_report<W: Sink>(
    alloc: Global,
    program: &Module,
    visited: Visited,
    depth: u64,
    excuses: &Excuses,
    outcome: &Outcome,
    sink: &mut W,
) -> Result<(), ExplainFault>
    requires { W.has_failed sink.old ≡ false }
    ensures { IsExplained (text_of_terms_report visited (program_of program.now) depth (excuses_in excuses.now) outcome.now) (W.contents sink.old) (W.contents sink.new) (W.has_failed sink.new) result }
{
    let findings = findings_in(outcome);
    write_explored(visited, depth, outcome, sink)?;
    write_findings(alloc, program, excuses, findings, sink)?;
    write_counts(excuses, findings, sink)?;
    write_result(depth, excuses, outcome, sink)?;
    Ok(())
}

/// Writes the errors that count, then the refusals, and then the errors that are taken as normal, each with what comes
/// below it.
pub(crate) fn write_findings<W: Sink>(
    alloc: Global,
    program: &Module,
    excuses: &Excuses,
    findings: &Findings,
    sink: &mut W,
) -> Result<(), ExplainFault>
    requires { W.has_failed sink.old ≡ false }
    ensures { IsExplained (lines_of_findings (program_of program.now) (excuses_in excuses.now) findings.now) (W.contents sink.old) (W.contents sink.new) (W.has_failed sink.new) result }
{
    let errors = findings.errors();
    let refusals = findings.refusals();
    write_errors(alloc, program, Standing::Counts, excuses, errors, sink)?;
    write_list(alloc, program, b"refusal", refusals, sink)?;
    write_errors(alloc, program, Standing::Normal, excuses, errors, sink)?;
    Ok(())
}

// Writes all errors with this standing, numbered from 1, each with what comes below it.
fn write_errors<W: Sink>(
    alloc: Global,
    program: &Module,
    standing: Standing,
    excuses: &Excuses,
    errors: &FindingList,
    sink: &mut W,
) -> Result<(), ExplainFault>
    requires { W.has_failed sink.old ≡ false }
    ensures { IsExplained (lines_of_errors (program_of program.now) (excuses_in excuses.now) standing errors.now) (W.contents sink.old) (W.contents sink.new) (W.has_failed sink.new) result }
{
    let kind = word_of(standing);
    let mut number = 0;
    for finding in errors.as_slice() {
        if standing.is_of(excuses, &finding.identity) {
            number += 1;
            write_finding(alloc, program, kind, number, finding, sink)?;
        }
    }
    Ok(())
}

// Writes all findings of one kind, numbered from 1, each with what comes below it.
fn write_list<W: Sink>(
    alloc: Global,
    program: &Module,
    kind: &[u8],
    findings: &FindingList,
    sink: &mut W,
) -> Result<(), ExplainFault>
    requires { W.has_failed sink.old ≡ false }
    ensures { IsExplained (lines_from (program_of program.now) kind.now 1 findings.now) (W.contents sink.old) (W.contents sink.new) (W.has_failed sink.new) result }
{
    for (place, finding) in findings.as_slice().iter().enumerate() {
        write_finding(alloc, program, kind, place + 1, finding, sink)?;
    }
    Ok(())
}

// Writes one finding of a kind by its number, and what comes below it.
fn write_finding<W: Sink>(
    alloc: Global,
    program: &Module,
    kind: &[u8],
    number: usize,
    finding: &Finding,
    sink: &mut W,
) -> Result<(), ExplainFault>
    requires { W.has_failed sink.old ≡ false }
    ensures { IsExplained (lines_of_finding (program_of program.now) kind.now number (finding_in finding.now)) (W.contents sink.old) (W.contents sink.new) (W.has_failed sink.new) result }
{
    write_finding_line(alloc, kind, number, finding, sink)?;
    write_below(alloc, program, finding, sink)?;
    Ok(())
}

// Writes the line of one finding of a kind: its number, what is shown, and the schedule.
fn write_finding_line<W: Sink>(
    alloc: Global,
    kind: &[u8],
    number: usize,
    finding: &Finding,
    sink: &mut W,
) -> Result<(), ExplainFault>
    requires { W.has_failed sink.old ≡ false }
    ensures { IsExplained (finding_line kind.now number (finding_in finding.now)) (W.contents sink.old) (W.contents sink.new) (W.has_failed sink.new) result }
{
    let schedule = finding.schedule.as_slice();
    write_all(sink, b"{")?;
    write_all(sink, kind)?;
    write_all(sink, b",")?;
    write_number(number as u64, sink)?;
    write_all(sink, b",")?;
    write_identity(alloc, &finding.identity, sink)?;
    write_all(sink, b",")?;
    write_schedule_string(schedule, sink)?;
    write_all(sink, b"}.\n")?;
    Ok(())
}

// Writes what comes below a finding: what its schedule did, and which processes wait then.
fn write_below<W: Sink>(
    alloc: Global,
    program: &Module,
    finding: &Finding,
    sink: &mut W,
) -> Result<(), ExplainFault>
    requires { W.has_failed sink.old ≡ false }
    ensures { IsExplained (lines_below (program_of program.now) (finding_in finding.now)) (W.contents sink.old) (W.contents sink.new) (W.has_failed sink.new) result }
{
    let Ok(mut world) = World::open(alloc, program) else {
        return Err(ExplainFault::Memory);
    };
    write_steps(alloc, &mut world, finding.schedule.as_slice(), sink)?;
    write_waits(alloc, &world, &finding.identity, sink)?;
    Ok(())
}
