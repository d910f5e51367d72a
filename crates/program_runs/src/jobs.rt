// The jobs of a module, from the bytes that the program is given to the lines that it writes.
ghost use Rattle.program_runs.specs.Ends.{WritesNothing, IsRefusedBefore, IsHandedOn};
ghost use Rattle.std.specs.Prelude.{◌≡◌, ◌==◌, true, false, IfSome, OnOk, Err};
ghost use Rattle.tree_coverage.specs.Jobs.{Job};
ghost use Rattle.search_job_lines.specs.JobText.{text_of_jobs};
ghost use Rattle.program_runs.specs.Input.{IsReadWithin};
ghost use Rattle.program_runs.specs.JobRuns.{IsListingOf};
ghost use Rattle.program_runs.specs.Status.{status_of};
ghost use Rattle.term_core.specs.Stream.{Writes};

use crate::input::read_input;
use crate::verdict::{RunFault, Verdict};
use core_reader::read_module;
use search_job_lines::{jobs_at, write_jobs};
use search_jobs::JobName;
use std::alloc::Global;
use term_core::{Sink, Source, WriteFault};

/// Reads a module from the source, and writes the jobs of the nodes that lie at a depth of its tree to the sink, which
/// is flushed: a line for each, in the order of the search, with its schedule and the steps that sleep there. To
/// explore these, each to one depth, and the tree above them is to explore the tree to that depth. Nothing is written
/// before all jobs are there.
///
/// # Errors
///
/// `Input` where the source gives no module, `ReadFailed` where it cannot be read, `Job` where there was no memory for the
/// jobs, and then nothing was written. `Output` where the sink has failed, at a write or at the flush: then a beginning of
/// the lines was written.
pub fn run_jobs<R: Source, W: Sink>(
    alloc: Global,
    source: &mut R,
    depth: u64,
    sink: &mut W,
) -> Result<Verdict, RunFault>
    requires readable { R.has_failed source.old ≡ false }
    requires writable { W.has_failed sink.old ≡ false }

    // Where the source reports its bytes.
    ensures run { IfSome (R.remaining source.old) (λ input.
        IsListingOf input depth (W.contents sink.old) (W.contents sink.new) (W.has_failed sink.new) result) }

    // Whether or not it does.
    ensures silent { IsRefusedBefore result → WritesNothing (W.contents sink.old) (W.contents sink.new) (W.has_failed sink.new) }
    ensures read_failed { result ≡ Err RunFault.ReadFailed → R.has_failed source.new ≡ true }
    // The source has not failed else.
    ensures sound { (result ≡ Err RunFault.ReadFailed → ⊥) → R.has_failed source.new ≡ false }
    ensures reads { OnOk result (IsReadWithin (R.remaining source.old) (R.remaining source.new)) }
    ensures output_failed { result ≡ Err RunFault.Output → W.has_failed sink.new ≡ true }
    // Status 4 comes where the sink has failed, and only there.
    ensures failed { W.has_failed sink.new ≡ (status_of result == 4) }
    ensures flushed { IsHandedOn result (W.is_flushed sink.new) }
{
    let text = read_input(alloc, source)?;
    let program = read_module(alloc, &text)?;
    let jobs = jobs_at(alloc, &program, depth)?;
    write_lines(sink, jobs.as_slice())?;
    Ok(Verdict::Done)
}

// Writes the lines of jobs, and flushes the sink.
fn write_lines<W: Sink>(sink: &mut W, jobs: &[JobName]) -> Result<(), WriteFault>
    requires { W.has_failed sink.old ≡ false }
    ensures written { Writes (W.contents sink.old) (W.contents sink.new) (W.has_failed sink.new) result (text_of_jobs jobs.now) }
    ensures flushed { OnOk result (W.is_flushed sink.new ≡ true) }
{
    write_jobs(jobs, sink)?;
    if sink.flush().is_err() {
        return Err(WriteFault);
    }
    Ok(())
}
