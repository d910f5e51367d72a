// The report: what an exploration results in. No write takes memory.
ghost use Rattle.std.specs.Prelude.{◌≡◌, false, map};
ghost use Rattle.term_core.specs.Stream.{Writes};
ghost use Rattle.tree_excuses.specs.Excuses.{counted, excuses_in, taken, those_that};
ghost use Rattle.tree_findings.specs.Found.{finding_in};
ghost use Rattle.report_text.specs.ReportText.{findings_in, text_of_cause, text_of_nodes, text_of_incomplete, text_of_complete_by, text_of_incomplete_by, text_of_extent_by, first_line_by, text_of_finding, text_of_findings, text_of_all, text_of_counts, text_of_normal, text_of_taken, complete_result, text_of_result, last_line, text_of_report_by};
ghost use Rattle.report_text.specs.Standing.{word_of};

use crate::identity_text::write_identity;
use crate::standing::word_of;
use crate::visited::{Visited, write_incomplete_states, write_states};
use term_core::{Sink, WriteFault, write_all, write_number, write_schedule};
use tree_excuses::{Excuses, Standing};
use tree_findings::{Cause, Finding, FindingList, Findings, Outcome};

/// Writes what an exploration with schedules of at most so many steps results in: how far it came, then each error that
/// counts, each refusal and each error that is taken as normal, a kind after the other and numbered from 1, with a
/// schedule that shows it, how many they are, and the result. The first line says what it went through. `WriteFault`
/// comes only where the sink has failed, and then a beginning of the report was written. It takes no memory.
pub fn write_report<W: Sink>(
    sink: &mut W,
    visited: Visited,
    depth: u64,
    excuses: &Excuses,
    outcome: &Outcome,
) -> Result<(), WriteFault>
    requires { W.has_failed sink.old ≡ false }
    ensures { Writes (W.contents sink.old) (W.contents sink.new) (W.has_failed sink.new) result (text_of_report_by visited depth (excuses_in excuses.now) outcome.now) }
{
    let findings = findings_in(outcome);
    write_first_line(sink, visited, depth, outcome)?;
    write_all_findings(sink, excuses, findings)?;
    write_counts(sink, excuses, findings)?;
    write_last_line(sink, excuses, outcome)
}

/// What was found, by an exploration that reached its end or stopped before it. It takes no memory.
pub fn findings_in(outcome: &Outcome) -> &Findings
    ensures { result.now ≡ findings_in outcome.now }
{
    match outcome {
        Outcome::Complete(findings, _) => findings,
        Outcome::Incomplete(_, findings) => findings,
    }
}

// Writes how many steps a schedule may have, and how far the exploration came.
fn write_first_line<W: Sink>(
    sink: &mut W,
    visited: Visited,
    depth: u64,
    outcome: &Outcome,
) -> Result<(), WriteFault>
    requires { W.has_failed sink.old ≡ false }
    ensures { Writes (W.contents sink.old) (W.contents sink.new) (W.has_failed sink.new) result (first_line_by visited depth outcome.now) }
{
    write_all(sink, b"depth ")?;
    write_number(depth, sink)?;
    write_all(sink, b", ")?;
    write_extent(sink, visited, outcome)?;
    write_all(sink, b"\n")
}

// Writes how far the exploration came.
fn write_extent<W: Sink>(
    sink: &mut W,
    visited: Visited,
    outcome: &Outcome,
) -> Result<(), WriteFault>
    requires { W.has_failed sink.old ≡ false }
    ensures { Writes (W.contents sink.old) (W.contents sink.new) (W.has_failed sink.new) result (text_of_extent_by visited outcome.now) }
{
    match outcome {
        Outcome::Complete(_, extent) => write_complete_by(sink, visited, extent.nodes),
        Outcome::Incomplete(cause, _) => write_incomplete_by(sink, visited, *cause),
    }
}

/// Writes that all were visited, and how many they are.
pub(crate) fn write_complete_by<W: Sink>(
    sink: &mut W,
    visited: Visited,
    number: u64,
) -> Result<(), WriteFault>
    requires { W.has_failed sink.old ≡ false }
    ensures { Writes (W.contents sink.old) (W.contents sink.new) (W.has_failed sink.new) result (text_of_complete_by visited number) }
{
    match visited {
        Visited::Nodes => write_nodes(sink, number),
        Visited::States { .. } => write_states(sink, number),
    }
}

/// Writes that the exploration stopped before its end, and why; of states also, of how many steps at most all schedules
/// that deliver signals so were followed by then.
pub(crate) fn write_incomplete_by<W: Sink>(
    sink: &mut W,
    visited: Visited,
    cause: Cause,
) -> Result<(), WriteFault>
    requires { W.has_failed sink.old ≡ false }
    ensures { Writes (W.contents sink.old) (W.contents sink.new) (W.has_failed sink.new) result (text_of_incomplete_by visited cause) }
{
    match visited {
        Visited::Nodes => write_incomplete(sink, cause),
        Visited::States { delivery, whole_to } => {
            write_incomplete_states(sink, delivery, whole_to, cause)
        }
    }
}

// Writes that all nodes were visited, and how many they are.
fn write_nodes<W: Sink>(sink: &mut W, nodes: u64) -> Result<(), WriteFault>
    requires { W.has_failed sink.old ≡ false }
    ensures { Writes (W.contents sink.old) (W.contents sink.new) (W.has_failed sink.new) result (text_of_nodes nodes) }
{
    write_all(sink, b"nodes ")?;
    write_number(nodes, sink)?;
    write_all(sink, b", complete")
}

// Writes that the exploration stopped before its end, and why.
fn write_incomplete<W: Sink>(sink: &mut W, cause: Cause) -> Result<(), WriteFault>
    requires { W.has_failed sink.old ≡ false }
    ensures { Writes (W.contents sink.old) (W.contents sink.new) (W.has_failed sink.new) result (text_of_incomplete cause) }
{
    write_all(sink, b"incomplete: ")?;
    write_cause(sink, cause)
}

// Writes why an exploration stopped before its end.
fn write_cause<W: Sink>(sink: &mut W, cause: Cause) -> Result<(), WriteFault>
    requires { W.has_failed sink.old ≡ false }
    ensures { Writes (W.contents sink.old) (W.contents sink.new) (W.has_failed sink.new) result (text_of_cause cause) }
{
    match cause {
        Cause::NodeLimit => write_all(sink, b"node limit"),
        Cause::Memory => write_all(sink, b"memory"),
    }
}

/// Writes the errors that count, then the refusals, and then the errors that are taken as normal.
pub(crate) fn write_all_findings<W: Sink>(
    sink: &mut W,
    excuses: &Excuses,
    findings: &Findings,
) -> Result<(), WriteFault>
    requires { W.has_failed sink.old ≡ false }
    ensures { Writes (W.contents sink.old) (W.contents sink.new) (W.has_failed sink.new) result (text_of_all (excuses_in excuses.now) findings.now) }
{
    let errors = findings.errors();
    let refusals = findings.refusals();
    write_errors(sink, Standing::Counts, excuses, errors)?;
    write_findings(sink, b"refusal", refusals)?;
    write_errors(sink, Standing::Normal, excuses, errors)
}

// Writes all errors with this standing, numbered from 1.
fn write_errors<W: Sink>(
    sink: &mut W,
    standing: Standing,
    excuses: &Excuses,
    errors: &FindingList,
) -> Result<(), WriteFault>
    requires { W.has_failed sink.old ≡ false }
    ensures { Writes (W.contents sink.old) (W.contents sink.new) (W.has_failed sink.new) result (text_of_findings (word_of standing) (those_that (excuses_in excuses.now) standing errors.now)) }
{
    let kind = word_of(standing);
    let mut number = 0;
    for finding in errors.as_slice() {
        if standing.is_of(excuses, &finding.identity) {
            number += 1;
            write_finding(sink, kind, number, finding)?;
        }
    }
    Ok(())
}

// Writes all findings of one kind, numbered from 1.
fn write_findings<W: Sink>(
    sink: &mut W,
    kind: &[u8],
    findings: &FindingList,
) -> Result<(), WriteFault>
    requires { W.has_failed sink.old ≡ false }
    ensures { Writes (W.contents sink.old) (W.contents sink.new) (W.has_failed sink.new) result (text_of_findings kind.now findings.now) }
{
    for (place, finding) in findings.as_slice().iter().enumerate() {
        write_finding(sink, kind, place + 1, finding)?;
    }
    Ok(())
}

/// Writes one finding of a kind (`error`, `refusal`, `normal`) by its number, and on a line of its own its schedule
/// after two blanks. `WriteFault` comes only where the sink has failed, and then a beginning of the text was written.
/// It takes no memory.
pub fn write_finding<W: Sink>(
    sink: &mut W,
    kind: &[u8],
    number: usize,
    finding: &Finding,
) -> Result<(), WriteFault>
    requires { W.has_failed sink.old ≡ false }
    ensures { Writes (W.contents sink.old) (W.contents sink.new) (W.has_failed sink.new) result (text_of_finding kind.now number (finding_in finding.now)) }
{
    let schedule = finding.schedule.as_slice();
    write_all(sink, kind)?;
    write_all(sink, b" ")?;
    write_number(number as u64, sink)?;
    write_all(sink, b": ")?;
    write_identity(sink, &finding.identity)?;
    write_all(sink, b"\n  ")?;
    write_schedule(schedule, sink)?;
    write_all(sink, b"\n")
}

/// Writes the line that says how many errors count, how many refusals there are and, where an error may be excused,
/// how many errors are taken as normal. `WriteFault` comes only where the sink has failed, and then a beginning of
/// the line was written. It takes no memory.
pub fn write_counts<W: Sink>(
    sink: &mut W,
    excuses: &Excuses,
    findings: &Findings,
) -> Result<(), WriteFault>
    requires { W.has_failed sink.old ≡ false }
    ensures { Writes (W.contents sink.old) (W.contents sink.new) (W.has_failed sink.new) result (text_of_counts (excuses_in excuses.now) findings.now) }
{
    let errors = findings.errors();
    let counted = excuses.count(Standing::Counts, errors) as u64;
    let refusals = findings.refusals().len() as u64;
    write_all(sink, b"errors ")?;
    write_number(counted, sink)?;
    write_all(sink, b", refusals ")?;
    write_number(refusals, sink)?;
    write_normal(sink, excuses, errors)?;
    write_all(sink, b"\n")
}

// Writes how many errors are taken as normal, where an error may be excused.
fn write_normal<W: Sink>(
    sink: &mut W,
    excuses: &Excuses,
    errors: &FindingList,
) -> Result<(), WriteFault>
    requires { W.has_failed sink.old ≡ false }
    ensures { Writes (W.contents sink.old) (W.contents sink.new) (W.has_failed sink.new) result (text_of_normal (excuses_in excuses.now) errors.now) }
{
    if excuses.are_any() {
        write_taken(sink, excuses, errors)
    } else {
        Ok(())
    }
}

// Writes how many errors are taken as normal.
fn write_taken<W: Sink>(
    sink: &mut W,
    excuses: &Excuses,
    errors: &FindingList,
) -> Result<(), WriteFault>
    requires { W.has_failed sink.old ≡ false }
    ensures { Writes (W.contents sink.old) (W.contents sink.new) (W.has_failed sink.new) result (text_of_taken (taken (excuses_in excuses.now) errors.now)) }
{
    let taken = excuses.count(Standing::Normal, errors) as u64;
    write_all(sink, b", taken as normal ")?;
    write_number(taken, sink)
}

// Writes the line of the result.
fn write_last_line<W: Sink>(
    sink: &mut W,
    excuses: &Excuses,
    outcome: &Outcome,
) -> Result<(), WriteFault>
    requires { W.has_failed sink.old ≡ false }
    ensures { Writes (W.contents sink.old) (W.contents sink.new) (W.has_failed sink.new) result (last_line (excuses_in excuses.now) outcome.now) }
{
    write_all(sink, b"result: ")?;
    write_result(sink, excuses, outcome)?;
    write_all(sink, b"\n")
}

// Writes the result.
fn write_result<W: Sink>(
    sink: &mut W,
    excuses: &Excuses,
    outcome: &Outcome,
) -> Result<(), WriteFault>
    requires { W.has_failed sink.old ≡ false }
    ensures { Writes (W.contents sink.old) (W.contents sink.new) (W.has_failed sink.new) result (text_of_result (excuses_in excuses.now) outcome.now) }
{
    match outcome {
        Outcome::Complete(findings, _) => write_complete_result(sink, excuses, findings.errors()),
        Outcome::Incomplete(_, _) => write_all(sink, b"incomplete"),
    }
}

/// Writes the result where all nodes were visited: `errors` where there are errors that count, else `clean`. `WriteFault`
/// comes only where the sink has failed, and then a beginning of the word was written. It takes no memory.
pub fn write_complete_result<W: Sink>(
    sink: &mut W,
    excuses: &Excuses,
    errors: &FindingList,
) -> Result<(), WriteFault>
    requires { W.has_failed sink.old ≡ false }
    ensures { Writes (W.contents sink.old) (W.contents sink.new) (W.has_failed sink.new) result (complete_result (counted (excuses_in excuses.now) errors.now)) }
{
    if excuses.count(Standing::Counts, errors) == 0 {
        write_all(sink, b"clean")
    } else {
        write_all(sink, b"errors")
    }
}
