// What an exploration prints: its report and, where that is asked for and no error was found, the cover of the tree.
ghost use Rattle.std.specs.Prelude.{◌≡◌, ℕ, List, Option, true, false, OnOk};
ghost use Rattle.tree_excuses.specs.Excuses.{counted, excuses_in};
ghost use Rattle.program_runs.specs.Explored.{complete_verdict, explains, form_found, has_cover, print_found, text_found, verdict_of};
ghost use Rattle.program_runs.specs.Printing.{IsPrinted, Print};
ghost use Rattle.program_runs.specs.inside.Forms.{IsReportWritten};
ghost use Rattle.report_text.specs.ReportText.{text_of_report};
ghost use Rattle.term_core.specs.Stream.{Writes};

use crate::print_fault::PrintFault;
use crate::searching::Explored;
use crate::verdict::Verdict;
use crate::watched::Watched;
use core_tree::Module;
use program_words::Printed;
use report_explained::write_explained_report;
use report_terms::write_terms_report;
use report_text::{Visited, write_report};
use search_crew::Observer;
use std::alloc::Global;
use term_core::{Sink, WriteFault};
use tree_covers::write_cover;
use tree_excuses::{Excuses, Standing};
use tree_findings::{FindingList, Outcome};

// Writes the report: as terms where that is asked for, and else as text.
fn write_form<W: Sink>(
    alloc: Global,
    program: &Module,
    depth: u64,
    excuses: &Excuses,
    printed: Printed,
    found: &Explored,
    sink: &mut W,
) -> Result<(), PrintFault>
    requires { W.has_failed sink.old ≡ false }
    ensures { IsReportWritten (explains printed) (form_found printed program.now depth (excuses_in excuses.now) found.now) (W.contents sink.old) (W.contents sink.new) (W.has_failed sink.new) result }
{
    if printed.terms {
        write_terms_report(
            alloc,
            program,
            found.visited,
            depth,
            excuses,
            &found.outcome,
            sink,
        )?;
        return Ok(());
    }
    write_text(alloc, program, depth, excuses, printed, found, sink)
}

// Writes the report as text, explained where that is asked for.
fn write_text<W: Sink>(
    alloc: Global,
    program: &Module,
    depth: u64,
    excuses: &Excuses,
    printed: Printed,
    found: &Explored,
    sink: &mut W,
) -> Result<(), PrintFault>
    requires { W.has_failed sink.old ≡ false }
    ensures { IsReportWritten printed.explained (text_found printed program.now depth (excuses_in excuses.now) found.now) (W.contents sink.old) (W.contents sink.new) (W.has_failed sink.new) result }
{
    if printed.explained {
        write_explained_report(
            alloc,
            program,
            found.visited,
            depth,
            excuses,
            &found.outcome,
            sink,
        )?;
        return Ok(());
    }
    write_report(sink, found.visited, depth, excuses, &found.outcome)?;
    Ok(())
}

// Writes the report, and the cover after it where it belongs there.
fn print<O: Observer, W: Sink>(
    alloc: Global,
    program: &Module,
    depth: u64,
    excuses: &Excuses,
    printed: Printed,
    found: &Explored,
    observer: &O,
    sink: &mut W,
) -> Result<(), PrintFault>
    requires { W.has_failed sink.old ≡ false }
    ensures { IsPrinted (print_found printed program.now depth (excuses_in excuses.now) found.now) (W.contents sink.old) (W.contents sink.new) (W.has_failed sink.new) result }
{
    write_form(alloc, program, depth, excuses, printed, found, sink)?;
    if !has_cover(printed, verdict_of(excuses, &found.outcome)) {
        return Ok(());
    }
    write_cover(alloc, program, depth, sink, &Watched { observer })?;
    Ok(())
}

// Whether a cover follows the report: where it is asked for, and no node shows an error.
fn has_cover(printed: Printed, verdict: Verdict) -> bool
    ensures { result ≡ has_cover printed verdict }
{
    match verdict {
        Verdict::Clean => printed.cover,
        Verdict::Done | Verdict::Errors | Verdict::Incomplete => false,
    }
}

/// Writes what an exploration prints, and flushes the sink, so that nothing of it is held back.
///
/// # Errors
///
/// `ReportCutOff` and `CoverCutOff` where there was no memory for the whole report or the whole cover, and `Write` where the sink has failed, at a write or at the
/// flush: then a beginning was written.
pub(crate) fn print_and_flush<O: Observer, W: Sink>(
    alloc: Global,
    program: &Module,
    depth: u64,
    excuses: &Excuses,
    printed: Printed,
    found: &Explored,
    observer: &O,
    sink: &mut W,
) -> Result<(), PrintFault>
    requires { W.has_failed sink.old ≡ false }
    ensures written { IsPrinted (print_found printed program.now depth (excuses_in excuses.now) found.now) (W.contents sink.old) (W.contents sink.new) (W.has_failed sink.new) result }
    ensures flushed { W.has_failed sink.new ≡ false → W.is_flushed sink.new ≡ true }
{
    let printing = print(
        alloc, program, depth, excuses, printed, found, observer, sink,
    );
    flush_printed(printing, sink)
}

/// Flushes the sink after a printing that ended so, unless the sink has failed. Where the flush fails, the end is `Write`,
/// else that of the printing.
pub(crate) fn flush_printed<W: Sink>(
    printing: Result<(), PrintFault>,
    sink: &mut W,
) -> Result<(), PrintFault>
    ensures written { (p : Print) (start : Option (List ℕ)) → IsPrinted p start (W.contents sink.old) (W.has_failed sink.old) printing
        → IsPrinted p start (W.contents sink.new) (W.has_failed sink.new) result }
    ensures flushed { W.has_failed sink.new ≡ false → W.is_flushed sink.new ≡ true }
{
    if sink.failed() {
        return printing;
    }
    if sink.flush().is_err() {
        return Err(PrintFault::Write);
    }
    printing
}

/// Writes the report alone, and flushes the sink. `WriteFault` comes only where the sink has failed, at a write or at the
/// flush: then a beginning was written.
pub(crate) fn write_and_flush<W: Sink>(
    sink: &mut W,
    depth: u64,
    excuses: &Excuses,
    outcome: &Outcome,
) -> Result<(), WriteFault>
    requires { W.has_failed sink.old ≡ false }
    ensures written { Writes (W.contents sink.old) (W.contents sink.new) (W.has_failed sink.new) result (text_of_report depth (excuses_in excuses.now) outcome.now) }
    ensures flushed { OnOk result (W.is_flushed sink.new ≡ true) }
{
    write_report(sink, Visited::Nodes, depth, excuses, outcome)?;
    if sink.flush().is_err() {
        return Err(WriteFault);
    }
    Ok(())
}

// Whether a search of all nodes found errors that count.
fn complete_verdict(excuses: &Excuses, errors: &FindingList) -> Verdict
    ensures { result ≡ complete_verdict (counted (excuses_in excuses.now) errors.now) }
{
    if excuses.count(Standing::Counts, errors) == 0 {
        return Verdict::Clean;
    }
    Verdict::Errors
}

/// What a search resulted in.
pub(crate) fn verdict_of(excuses: &Excuses, outcome: &Outcome) -> Verdict
    ensures { result ≡ verdict_of (excuses_in excuses.now) outcome.now }
{
    match outcome {
        Outcome::Complete(findings, _) => complete_verdict(excuses, findings.errors()),
        Outcome::Incomplete(_, _) => Verdict::Incomplete,
    }
}
