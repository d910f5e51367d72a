// How the lines of jobs are written.
ghost use Rattle.std.specs.Prelude.{◌≡◌, ◌∷◌, ◌++◌, [], false};
ghost use Rattle.search_job_lines.specs.JobText.{text_of_job, text_of_jobs};
ghost use Rattle.term_core.specs.Stream.{Writes};

use search_jobs::JobName;
use term_core::{Sink, WriteFault, write_all, write_schedule};

// Writes a job, with the end of its line.
fn write_job<W: Sink>(job: &JobName, sink: &mut W) -> Result<(), WriteFault>
    requires { W.has_failed sink.old ≡ false }
    ensures { Writes (W.contents sink.old) (W.contents sink.new) (W.has_failed sink.new) result (text_of_job job.now ++ 10 ∷ []) }
{
    write_schedule(job.prefix.as_slice(), sink)?;
    write_all(sink, b" | ")?;
    write_schedule(job.slept.as_slice(), sink)?;
    write_all(sink, b"\n")
}

/// Writes jobs, each on a line of its own: the text of its schedule, a bar between two blanks, and the text of the steps
/// that sleep. It takes no memory.
///
/// # Errors
///
/// `WriteFault` only where the sink has failed: then a beginning of the lines was written.
pub fn write_jobs<W: Sink>(jobs: &[JobName], sink: &mut W) -> Result<(), WriteFault>
    requires { W.has_failed sink.old ≡ false }
    ensures { Writes (W.contents sink.old) (W.contents sink.new) (W.has_failed sink.new) result (text_of_jobs jobs.now) }
{
    for job in jobs {
        write_job(job, sink)?;
    }
    Ok(())
}
