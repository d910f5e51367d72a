// How the line of a job is read.
ghost use Rattle.std.specs.Prelude.{◌≡◌, ◌++◌, ℕ, List, IfErr, IfOk};
ghost use Rattle.tree_coverage.specs.Jobs.{Job as Name};
ghost use Rattle.search_job_lines.specs.Faults.{IsCutAtBar, IsJobFault};
ghost use Rattle.search_job_lines.specs.JobText.{bar};
ghost use Rattle.search_job_lines.specs.Reading.{IsJobLine};
ghost use Rattle.search_job_lines.specs.inside.Parts.{IsTextFault, IsTextOf};
ghost use Rattle.search_jobs.specs.Explorations.{exploration_in};
ghost use Rattle.term_core.specs.Schedule.{AreLawful};
ghost use Rattle.term_core.specs.Text.{text_of_schedule};
ghost use Rattle.term_core.specs.declared.step.Step.{Step};

use crate::bar::split_at_bar;
use crate::check::check_name;
use crate::fault::JobFault;
use search_jobs::{Exploration, Job, JobName};
use std::alloc::Global;
use term_core::{ScheduleFault, Step, read_schedule};

// The schedule before the first bar of a line.
fn read_prefix(alloc: Global, front: &[u8]) -> Result<Vec<Step>, JobFault>
    ensures read { IfOk result (λ steps. AreLawful steps.items × (front.now ≡ text_of_schedule steps.items)) }
    ensures fault { IfErr result (λ fault. (line behind : List ℕ) → IsCutAtBar line front.now behind → IsTextFault line fault) }
{
    match read_schedule(alloc, front) {
        Ok(steps) => Ok(steps),
        Err(ScheduleFault::BadStep(at)) => Err(JobFault::BadStep(at)),
        Err(ScheduleFault::Memory) => Err(JobFault::Memory),
    }
}

// The steps that sleep, which come after the bar.
fn read_slept(alloc: Global, behind: &[u8]) -> Result<Vec<Step>, JobFault>
    ensures read { IfOk result (λ steps. AreLawful steps.items × (behind.now ≡ text_of_schedule steps.items)) }
    ensures fault { IfErr result (λ fault. (line : List ℕ) (steps : List Step) → AreLawful steps → line ≡ text_of_schedule steps ++ (bar ++ behind.now) → IsTextFault line fault) }
{
    match read_schedule(alloc, behind) {
        Ok(steps) => Ok(steps),
        Err(ScheduleFault::BadStep(at)) => Err(JobFault::BadSleeper(at)),
        Err(ScheduleFault::Memory) => Err(JobFault::Memory),
    }
}

// The name that a line writes.
fn read_name(alloc: Global, line: &[u8]) -> Result<JobName, JobFault>
    ensures read { IfOk result (λ name. IsTextOf line.now name) }
    ensures fault { IfErr result (IsTextFault line.now) }
{
    let Some((front, behind)) = split_at_bar(line) else {
        return Err(JobFault::NoBar);
    };
    let prefix = read_prefix(alloc, front)?;
    let slept = read_slept(alloc, behind)?;
    Ok(JobName { prefix, slept })
}

/// Reads the line of a job, without its end: the text of its schedule, a bar between two blanks, and the text of the
/// steps that sleep. It is a job of the exploration: its schedule can be taken and is not longer than the depth, and
/// each step that sleeps is enabled after it. It has no ticket.
///
/// # Errors
///
/// The first fault in the order of `JobFault`: no bar, a bad step in the schedule or among those that sleep, a schedule
/// that is too long, its first step that is not enabled, the first sleeping step that is not enabled. `Memory` where
/// there was no memory.
pub fn read_job<'m>(
    alloc: Global,
    exploration: Exploration<'m>,
    line: &[u8],
) -> Result<Job<'m>, JobFault>
    ensures exploration { IfOk result (λ job. job.exploration ≡ exploration_in exploration.entry) }
    ensures number { IfOk result (λ job. job.number ≡ 0) }
    // What is read has this line.
    ensures read { IfOk result (λ job. IsJobLine (exploration_in exploration.entry) line.now job.name) }
    // A fault says what is true of the line.
    ensures fault { IfErr result (IsJobFault (exploration_in exploration.entry) line.now) }
    // The line of a job is accepted.
    ensures accepted { (name : Name) → IsJobLine (exploration_in exploration.entry) line.now name → IfErr result (λ fault. fault ≡ JobFault.Memory) }
{
    let name = read_name(alloc, line)?;
    check_name(alloc, exploration, &name)?;
    Ok(Job::of_node(exploration, name))
}
