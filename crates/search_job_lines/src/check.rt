// Whether a name is that of a job of an exploration.
ghost use Rattle.std.specs.Prelude.{◌≡◌, MatchOption, IfErr, OnOk};
ghost use Rattle.search_job_lines.specs.Faults.{IsFirstAwake};
ghost use Rattle.search_job_lines.specs.Reading.{AreEnabled};
ghost use Rattle.search_job_lines.specs.inside.Parts.{IsNameFault, IsSleeperFault, IsTakenName};
ghost use Rattle.search_jobs.specs.Explorations.{exploration_in};
ghost use Rattle.world_core.specs.Seen.{program_in};
ghost use Rattle.world_model.specs.Events.{History};
ghost use Rattle.world_model.specs.Requests.{Program};
ghost use Rattle.world_model.specs.Run.{enabled_steps};

use crate::fault::JobFault;
use search_jobs::{Exploration, JobName};
use std::alloc::Global;
use term_core::Step;
use tree_sleep::is_one_of;
use world_core::{World, WorldFault};

// The place of the first of these steps that is not among the enabled ones, counted from 1.
fn first_awake(enabled: &[Step], steps: &[Step]) -> Option<u64>
    ensures { (a : Program) (h : History) → enabled.now ≡ enabled_steps a h → MatchOption result (AreEnabled a h steps.now) (IsFirstAwake a h steps.now) }
{
    let mut rest = steps;
    while let Some((step, later)) = rest.split_first() {
        if !is_one_of(enabled, step) {
            return Some((steps.len() - rest.len()) as u64 + 1);
        }
        rest = later;
    }
    None
}

// Whether the steps that sleep are enabled in the world of their node.
fn check_slept(alloc: Global, world: &World<'_>, slept: &[Step]) -> Result<(), JobFault>
    ensures taken { OnOk result (AreEnabled (program_in world.now) world.now.history slept.now) }
    ensures fault { IfErr result (IsSleeperFault (program_in world.now) world.now.history slept.now) }
{
    let Ok(enabled) = world.enabled(alloc) else {
        return Err(JobFault::Memory);
    };
    match first_awake(enabled.as_slice(), slept) {
        Some(place) => Err(JobFault::NotAsleep(place)),
        None => Ok(()),
    }
}

/// Whether a name is that of a job of the exploration, and each step that sleeps is enabled after its schedule. Its
/// schedule is taken in a new world.
pub(crate) fn check_name(
    alloc: Global,
    exploration: Exploration<'_>,
    name: &JobName,
) -> Result<(), JobFault>
    ensures taken { OnOk result (IsTakenName (exploration_in exploration.entry) name.now) }
    ensures fault { IfErr result (IsNameFault (exploration_in exploration.entry) name.now) }
{
    if name.prefix.len() as u64 > exploration.depth {
        return Err(JobFault::TooLong);
    }
    let Ok(mut world) = World::open(alloc, exploration.program) else {
        return Err(JobFault::Memory);
    };
    match world.advance(alloc, name.prefix.as_slice()) {
        Ok(()) => check_slept(alloc, &world, name.slept.as_slice()),
        Err((place, WorldFault::NotEnabled)) => Err(JobFault::NotEnabled(place)),
        Err((_, WorldFault::Memory)) => Err(JobFault::Memory),
    }
}
