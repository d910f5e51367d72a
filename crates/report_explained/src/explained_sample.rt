// The explained report of random schedules: below each finding come the lines of its schedule.
ghost use Rattle.std.specs.Prelude.{◌≡◌, false};
ghost use Rattle.tree_excuses.specs.Excuses.{excuses_in};
ghost use Rattle.world_model.specs.Asking.{program_of};
ghost use Rattle.report_explained.specs.Explained.{IsExplained, text_of_explained_sample};

use crate::explain_fault::ExplainFault;
use crate::explained::write_explained_findings;
use core_tree::Module;
use report_text::{Sampled, write_counts, write_sample_first_line, write_sample_last_line};
use std::alloc::Global;
use term_core::Sink;
use tree_excuses::Excuses;
use tree_findings::Findings;

/// Writes the explained report of random schedules: how they were taken, each finding with what comes below it, as
/// `write_explained_report` does, how many they are, and whether any error counts.
///
/// # Errors
///
/// `Memory` where memory ran out, and `Write` where the sink failed: then a beginning of the report was written.
pub fn write_explained_sample<W: Sink>(
    alloc: Global,
    program: &Module,
    sampled: Sampled,
    excuses: &Excuses,
    findings: &Findings,
    sink: &mut W,
) -> Result<(), ExplainFault>
    requires { W.has_failed sink.old ≡ false }
    ensures { IsExplained (text_of_explained_sample sampled (program_of program.now) (excuses_in excuses.now) findings.now) (W.contents sink.old) (W.contents sink.new) (W.has_failed sink.new) result }
{
    write_sample_first_line(sink, sampled)?;
    write_explained_findings(alloc, program, excuses, findings, sink)?;
    write_counts(sink, excuses, findings)?;
    write_sample_last_line(sink, excuses, findings)?;
    Ok(())
}
