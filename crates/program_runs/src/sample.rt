// Random schedules of a module, from the bytes that the program is given to the report that it writes.
ghost use Rattle.program_runs.specs.Ends.{WritesNothing, IsRefusedBefore, IsHandedOn};
ghost use Rattle.std.specs.Prelude.{◌≡◌, ◌==◌, true, false, IfErr, IfOk, IfSome, OnOk, Err};
ghost use Rattle.tree_excuses.specs.Excuses.{excuses_in};
ghost use Rattle.program_runs.specs.Explored.{explains};
ghost use Rattle.program_runs.specs.Input.{IsReadWithin};
ghost use Rattle.program_runs.specs.Printing.{IsPrinted};
ghost use Rattle.program_runs.specs.Sampled.{IsSampleOf, print_of_samples, sample_form_found, sample_text_found, sampled_by, verdict_of_sample};
ghost use Rattle.program_runs.specs.Status.{status_of};
ghost use Rattle.program_runs.specs.inside.Forms.{IsReportWritten};
ghost use Rattle.search_samples.specs.Samples.{AreOfSamples};
ghost use Rattle.world_identities.specs.Identities.{flags_in};
ghost use Rattle.world_model.specs.Asking.{program_of};

use crate::input::read_input;
use crate::print_fault::PrintFault;
use crate::printing::flush_printed;
use crate::verdict::{RunFault, Verdict};
use core_reader::read_module;
use core_tree::Module;
use program_words::Printed;
use report_explained::write_explained_sample;
use report_terms::write_terms_sample;
use report_text::{Sampled, write_sample};
use search_crew::SearchFault;
use search_samples::{Samples, sample_schedules};
use std::alloc::Global;
use term_core::{Sink, Source};
use tree_excuses::{Excuses, Standing};
use tree_findings::Findings;

/// Reads a module from the source, follows as many random schedules of it as are asked for, and writes the report to the
/// sink, which is flushed: each error, and each table call that is refused, that one of them shows on its way, with the
/// least beginning of one that shows it. Where that is asked for, the report is explained: the lines of its schedule come
/// below each; or it is written as Erlang terms, which hold as much. No cover is written, whatever is asked for. Where
/// nothing that counts as an error is found the verdict is `Incomplete`, and never `Clean`, since other schedules may
/// show some. Nothing is written before all schedules were followed. It waits for nobody.
///
/// # Errors
///
/// `Input` where the source gives no module, `ReadFailed` where it cannot be read, `Explore` where there was no memory for
/// the schedules, and then nothing was written. `ReportCutOff` where there was no memory for the whole report, and
/// `Output` where the sink has failed, at a write or at the flush: then a beginning of the report was written.
pub fn run_sample<R: Source, W: Sink>(
    alloc: Global,
    source: &mut R,
    samples: &Samples,
    excuses: &Excuses,
    printed: Printed,
    sink: &mut W,
) -> Result<Verdict, RunFault>
    requires readable { R.has_failed source.old ≡ false }
    requires writable { W.has_failed sink.old ≡ false }

    // Where the source reports its bytes.
    ensures run { IfSome (R.remaining source.old) (λ input.
        IsSampleOf input samples.now (excuses_in excuses.now) printed (W.contents sink.old) (W.contents sink.new) (W.has_failed sink.new) result) }

    // Whether or not it does.
    ensures silent { IsRefusedBefore result → WritesNothing (W.contents sink.old) (W.contents sink.new) (W.has_failed sink.new) }
    ensures read_failed { result ≡ Err RunFault.ReadFailed → R.has_failed source.new ≡ true }
    // The source has not failed else.
    ensures sound { (result ≡ Err RunFault.ReadFailed → ⊥) → R.has_failed source.new ≡ false }
    ensures reads { OnOk result (IsReadWithin (R.remaining source.old) (R.remaining source.new)) }
    ensures output_failed { result ≡ Err RunFault.Output → W.has_failed sink.new ≡ true }
    // Status 4 comes where the sink has failed, and only there.
    ensures failed { W.has_failed sink.new ≡ (status_of result == 4) }
    ensures flushed { IsHandedOn result (W.is_flushed sink.new) }
{
    let text = read_input(alloc, source)?;
    let program = read_module(alloc, &text)?;
    let found = follow(alloc, &program, samples)?;
    print_and_flush(alloc, &program, samples, excuses, printed, &found, sink)?;
    Ok(verdict_of(excuses, &found))
}

// What the schedules show. Only want of memory ends them.
fn follow(alloc: Global, program: &Module, samples: &Samples) -> Result<Findings, SearchFault>
    ensures found { IfOk result (λ found. AreOfSamples (flags_in samples.now.flags) samples.now.delivery (program_of program.now) samples.now.depth samples.now.runs found) }
    ensures memory { IfErr result (λ fault. fault ≡ SearchFault.Memory) }
{
    Ok(sample_schedules(alloc, program, samples)?)
}

// How the report tells the schedules.
fn told(samples: &Samples) -> Sampled
    ensures { result ≡ sampled_by samples.now }
{
    Sampled {
        depth: samples.depth,
        runs: samples.runs,
        seed: samples.seed,
    }
}

// Writes the report: as terms where that is asked for, and else as text.
fn write_form<W: Sink>(
    alloc: Global,
    program: &Module,
    samples: &Samples,
    excuses: &Excuses,
    printed: Printed,
    found: &Findings,
    sink: &mut W,
) -> Result<(), PrintFault>
    requires { W.has_failed sink.old ≡ false }
    ensures { IsReportWritten (explains printed) (sample_form_found printed samples.now program.now (excuses_in excuses.now) found.now) (W.contents sink.old) (W.contents sink.new) (W.has_failed sink.new) result }
{
    if printed.terms {
        write_terms_sample(alloc, program, told(samples), excuses, found, sink)?;
        return Ok(());
    }
    write_text(alloc, program, samples, excuses, printed, found, sink)
}

// Writes the report as text, explained where that is asked for.
fn write_text<W: Sink>(
    alloc: Global,
    program: &Module,
    samples: &Samples,
    excuses: &Excuses,
    printed: Printed,
    found: &Findings,
    sink: &mut W,
) -> Result<(), PrintFault>
    requires { W.has_failed sink.old ≡ false }
    ensures { IsReportWritten printed.explained (sample_text_found printed samples.now program.now (excuses_in excuses.now) found.now) (W.contents sink.old) (W.contents sink.new) (W.has_failed sink.new) result }
{
    let sampled = told(samples);
    if printed.explained {
        write_explained_sample(alloc, program, sampled, excuses, found, sink)?;
        return Ok(());
    }
    write_sample(sink, sampled, excuses, found)?;
    Ok(())
}

// Writes the report, and flushes the sink.
fn print_and_flush<W: Sink>(
    alloc: Global,
    program: &Module,
    samples: &Samples,
    excuses: &Excuses,
    printed: Printed,
    found: &Findings,
    sink: &mut W,
) -> Result<(), PrintFault>
    requires { W.has_failed sink.old ≡ false }
    ensures written { IsPrinted (print_of_samples printed samples.now (program_of program.now) (excuses_in excuses.now) found.now) (W.contents sink.old) (W.contents sink.new) (W.has_failed sink.new) result }
    ensures flushed { W.has_failed sink.new ≡ false → W.is_flushed sink.new ≡ true }
{
    let printing = write_form(alloc, program, samples, excuses, printed, found, sink);
    flush_printed(printing, sink)
}

// Whether the schedules show errors that count.
fn verdict_of(excuses: &Excuses, found: &Findings) -> Verdict
    ensures { result ≡ verdict_of_sample (excuses_in excuses.now) found.now }
{
    if excuses.count(Standing::Counts, found.errors()) == 0 {
        return Verdict::Incomplete;
    }
    Verdict::Errors
}
