// The jobs of the nodes at one depth of a tree.
ghost use Rattle.std.specs.Prelude.{◌≡◌, ◌∷◌, ◌++◌, [], IfErr, IfOk, OnOk};
ghost use Rattle.tree_coverage.specs.Jobs.{awake_steps, jobs_along};
ghost use Rattle.tree_levels.specs.Levels.{jobs_at, next_jobs, next_of_all};
ghost use Rattle.world_core.specs.Seen.{program_in};
ghost use Rattle.world_core.specs.declared.fault.WorldFault.TheVariants.{Memory};
ghost use Rattle.world_model.specs.Asking.{program_of};
ghost use Rattle.tree_sleep.specs.Reached.{IsReached};

use crate::fault::JobFault;
use core_tree::Module;
use search_jobs::JobName;
use std::alloc::{AllocError, Global};
use term_core::Step;
use tree_findings::copy_schedule;
use tree_sleep::{awake, sleep_below};
use world_core::{World, WorldFault};

// A schedule with one step more. `AllocError` if there is no memory for it.
fn one_longer(alloc: Global, prefix: &[Step], step: &Step) -> Result<Vec<Step>, AllocError>
    ensures { IfOk result (λ longer. longer.items ≡ prefix.now ++ step.now ∷ []) }
{
    let mut longer = copy_schedule(alloc, prefix)?;
    longer.push(step.copy()?)?;
    Ok(longer)
}

// Adds the jobs of the steps of a line at the node of this world; each step sleeps for those after it. `AllocError` if
// there is no memory for them.
fn push_along(
    alloc: Global,
    world: &World<'_>,
    prefix: &[Step],
    slept: &[Step],
    line: &[Step],
    jobs: &mut Vec<JobName>,
) -> Result<(), AllocError>
    requires { IsReached world.now }
    ensures { OnOk result (jobs.new.items ≡ jobs.old.items ++ jobs_along (program_in world.now) world.now.history prefix.now slept.now line.now) }
{
    let mut sleeping = copy_schedule(alloc, slept)?;
    let mut rest = line;
    while let Some((step, later)) = rest.split_first() {
        let longer = one_longer(alloc, prefix, step)?;
        let asleep = sleep_below(alloc, world, sleeping.as_slice(), step)?;
        jobs.push(JobName {
            prefix: longer,
            slept: asleep,
        })?;
        sleeping.push(step.copy()?)?;
        rest = later;
    }
    Ok(())
}

// Adds the jobs of the steps that are taken at the node of this world. `Memory` where there is no memory.
fn push_below(
    alloc: Global,
    world: &World<'_>,
    prefix: &[Step],
    slept: &[Step],
    jobs: &mut Vec<JobName>,
) -> Result<(), WorldFault>
    requires { IsReached world.now }
    ensures pushed { OnOk result (jobs.new.items ≡ jobs.old.items ++ jobs_along (program_in world.now) world.now.history prefix.now slept.now (awake_steps (program_in world.now) world.now.history slept.now)) }
    ensures memory { IfErr result (λ fault. fault ≡ Memory) }
{
    let enabled = world.enabled(alloc)?;
    let line = awake(alloc, enabled, slept)?;
    push_along(alloc, world, prefix, slept, line.as_slice(), jobs)?;
    Ok(())
}

// Adds the jobs one step deeper than a job: its schedule is taken in a new world. `Memory` where there is no memory.
fn push_next(
    alloc: Global,
    program: &Module,
    job: &JobName,
    jobs: &mut Vec<JobName>,
) -> Result<(), WorldFault>
    ensures pushed { OnOk result (jobs.new.items ≡ jobs.old.items ++ next_jobs (program_of program.now) job.now) }
    ensures memory { IfErr result (λ fault. fault ≡ Memory) }
{
    let mut world = World::open(alloc, program)?;
    match world.advance(alloc, job.prefix.as_slice()) {
        Ok(()) => push_below(
            alloc,
            &world,
            job.prefix.as_slice(),
            job.slept.as_slice(),
            jobs,
        ),
        // No node is below a schedule that does not run.
        Err((_, WorldFault::NotEnabled)) => Ok(()),
        Err((_, WorldFault::Memory)) => Err(WorldFault::Memory),
    }
}

// The jobs one step deeper than these. `Memory` where there is no memory.
fn next_of_all(
    alloc: Global,
    program: &Module,
    jobs: &[JobName],
) -> Result<Vec<JobName>, WorldFault>
    ensures next { IfOk result (λ next. next.items ≡ next_of_all (program_of program.now) jobs.now) }
    ensures memory { IfErr result (λ fault. fault ≡ Memory) }
{
    let mut next = Vec::new(alloc);
    for job in jobs {
        push_next(alloc, program, job, &mut next)?;
    }
    Ok(next)
}

// The jobs at a depth, level by level. `Memory` where there is no memory.
fn level_of(alloc: Global, program: &Module, depth: u64) -> Result<Vec<JobName>, WorldFault>
    ensures jobs { IfOk result (λ jobs. jobs.items ≡ jobs_at (program_of program.now) depth) }
    ensures memory { IfErr result (λ fault. fault ≡ Memory) }
{
    let mut jobs = Vec::new(alloc);
    jobs.push(JobName {
        prefix: Vec::new(alloc),
        slept: Vec::new(alloc),
    })?;
    let mut level = 0;
    'levels: while level < depth {
        if jobs.is_empty() {
            return Ok(jobs);
        }
        jobs = next_of_all(alloc, program, jobs.as_slice())?;
        level += 1;
    }
    Ok(jobs)
}

/// The jobs of the nodes at a depth of the tree of a module, in the order of the search, each with what sleeps there.
/// They are found depth by depth, each job by one new world. A name shares no memory with another except that of its
/// steps' pids.
///
/// # Errors
///
/// `Memory` where there was no memory.
pub fn jobs_at(alloc: Global, program: &Module, depth: u64) -> Result<Vec<JobName>, JobFault>
    ensures jobs { IfOk result (λ jobs. jobs.items ≡ jobs_at (program_of program.now) depth) }
    ensures memory { IfErr result (λ fault. fault ≡ JobFault.Memory) }
{
    let jobs = level_of(alloc, program, depth)?;
    Ok(jobs)
}
