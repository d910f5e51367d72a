// The exploration of one job of a module, from the bytes that the program is given to the report that it writes.
ghost use Rattle.program_runs.specs.Ends.{WritesNothing, IsRefusedBefore, IsHandedOn};
ghost use Rattle.std.specs.Prelude.{◌≡◌, ◌==◌, ◌≤◌, true, false, IfSome, OnOk, Err};
ghost use Rattle.tree_excuses.specs.Excuses.{excuses_in};
ghost use Rattle.program_runs.specs.Input.{IsReadWithin};
ghost use Rattle.program_runs.specs.JobRuns.{IsJobRunOf};
ghost use Rattle.program_runs.specs.Status.{status_of};

use crate::input::read_input;
use crate::printing::{verdict_of, write_and_flush};
use crate::verdict::{RunFault, Verdict};
use core_reader::read_module;
use search_crew::{Observer, search};
use search_job_lines::read_job;
use search_jobs::Exploration;
use std::alloc::Global;
use std::sync::Wait;
use std::thread::Threads;
use term_core::{Sink, Source};
use tree_excuses::Excuses;
use tree_findings::Options;

/// Reads a module from the source, visits the nodes of one job of its tree, and writes their report to the sink, which
/// is flushed: what these nodes show and no others, each with the least schedule of them that shows it. The job is that
/// of a line as `run_jobs` writes it: a schedule, a bar between two blanks, and the steps that sleep after it. Whether
/// the search would reach this job does not matter, but each of its steps has to be enabled, and each that sleeps.
///
/// # Errors
///
/// `Input` where the source gives no module, `ReadFailed` where it cannot be read, `Job` where the line is that of no job
/// of the module, `Explore` where the search has no outcome, and then nothing was written; where module and line are both
/// refused it is the module's refusal. `Output` where the sink has failed, at a write or at the flush: then a beginning of
/// the report was written.
pub fn run_job<T: Threads + Wait + Sync, R: Source, O: Observer + Sync, W: Sink>(
    rt: &T,
    alloc: Global,
    source: &mut R,
    options: &Options,
    excuses: &Excuses,
    line: &str,
    observer: &O,
    sink: &mut W,
) -> Result<Verdict, RunFault>
    requires some { 1 ≤ options.now.budget }
    requires readable { R.has_failed source.old ≡ false }
    requires writable { W.has_failed sink.old ≡ false }

    // Where the source reports its bytes.
    ensures run { IfSome (R.remaining source.old) (λ input.
        IsJobRunOf input line.now options.now (excuses_in excuses.now) (W.contents sink.old) (W.contents sink.new) (W.has_failed sink.new) result) }

    // Whether or not it does.
    ensures silent { IsRefusedBefore result → WritesNothing (W.contents sink.old) (W.contents sink.new) (W.has_failed sink.new) }
    ensures read_failed { result ≡ Err RunFault.ReadFailed → R.has_failed source.new ≡ true }
    // The source has not failed else.
    ensures sound { (result ≡ Err RunFault.ReadFailed → ⊥) → R.has_failed source.new ≡ false }
    ensures reads { OnOk result (IsReadWithin (R.remaining source.old) (R.remaining source.new)) }
    ensures output_failed { result ≡ Err RunFault.Output → W.has_failed sink.new ≡ true }
    // Status 4 comes where the sink has failed, and only there.
    ensures failed { W.has_failed sink.new ≡ (status_of result == 4) }
    ensures flushed { IsHandedOn result (W.is_flushed sink.new) }
{
    let text = read_input(alloc, source)?;
    let program = read_module(alloc, &text)?;
    let exploration = Exploration::of(&program, options);
    let job = read_job(alloc, exploration, line.as_bytes())?;
    let outcome = search(rt, alloc, &job, options, observer)?;
    write_and_flush(sink, options.depth, excuses, &outcome)?;
    Ok(verdict_of(excuses, &outcome))
}
