// The report of random schedules as terms of Erlang.
ghost use Rattle.std.specs.Prelude.{◌≡◌, false};
ghost use Rattle.tree_excuses.specs.Excuses.{excuses_in};
ghost use Rattle.world_model.specs.Asking.{program_of};
ghost use Rattle.report_explained.specs.Explained.{IsExplained};
ghost use Rattle.report_terms.specs.TermsReport.{text_of_terms_sample};

use crate::lines::{write_counts, write_sample_result, write_sampled};
use crate::report::write_findings;
use core_tree::Module;
use report_explained::ExplainFault;
use report_text::Sampled;
use std::alloc::Global;
use term_core::Sink;
use tree_excuses::Excuses;
use tree_findings::Findings;

/// Writes what random schedules show, as terms of Erlang: how they were taken, each finding with what comes below it, as
/// `write_terms_report` does, the sums, and whether any error counts.
///
/// # Errors
///
/// `Memory` where memory ran out, and `Write` where the sink failed: then a beginning of the report was written.
pub fn write_terms_sample<W: Sink>(
    alloc: Global,
    program: &Module,
    sampled: Sampled,
    excuses: &Excuses,
    findings: &Findings,
    sink: &mut W,
) -> Result<(), ExplainFault>
    requires { W.has_failed sink.old ≡ false }
    ensures { IsExplained (text_of_terms_sample sampled (program_of program.now) (excuses_in excuses.now) findings.now) (W.contents sink.old) (W.contents sink.new) (W.has_failed sink.new) result }
{
    write_sampled(sampled, sink)?;
    write_findings(alloc, program, excuses, findings, sink)?;
    write_counts(excuses, findings, sink)?;
    write_sample_result(excuses, findings, sink)?;
    Ok(())
}
