// Which steps sleep, and which are awake.
ghost use Rattle.std.specs.Prelude.{◌≡◌, filter, not, IfOk};
ghost use Rattle.tree_coverage.specs.Covers.{is_one_of};
ghost use Rattle.tree_coverage.specs.Jobs.{asleep_below};
ghost use Rattle.world_core.specs.Seen.{program_in};
ghost use Rattle.tree_sleep.specs.Reached.{IsReached};

use std::alloc::{AllocError, Global};
use term_core::Step;
use world_core::World;
use world_plans::asleep_below;
use world_plans::laws::{footprints_are_of_histories, names_mean_tables};

/// Whether a step is one of these. It takes no memory.
pub fn is_one_of(steps: &[Step], step: &Step) -> bool
    ensures { result ≡ is_one_of steps.now step.now }
{
    for other in steps {
        if *other == *step {
            return true;
        }
    }
    false
}

/// Those of the enabled steps that do not sleep, in their order. `AllocError` if there is no memory for them; then all of
/// them are dropped.
pub fn awake(alloc: Global, enabled: Vec<Step>, slept: &[Step]) -> Result<Vec<Step>, AllocError>
    ensures { IfOk result (λ awake. awake.items ≡ filter (λ s. not (is_one_of slept.now s)) enabled.items) }
{
    let mut awake = Vec::new(alloc);
    for step in enabled {
        if !is_one_of(slept, &step) {
            awake.push(step)?;
        }
    }
    Ok(awake)
}

/// Of the steps that sleep in a world, those that sleep below a step: the ones that are independent of it (the paper on
/// sleep sets). `AllocError` if there is no memory for the cells, for the steps, or for the search of a mailbox.
pub fn sleep_below(
    alloc: Global,
    world: &World<'_>,
    slept: &[Step],
    step: &Step,
) -> Result<Vec<Step>, AllocError>
    requires { IsReached world.now }
    ensures { IfOk result (λ asleep. asleep.items ≡ asleep_below (program_in world.now) world.now.history slept.now step.now) }
{
    footprints_are_of_histories();
    names_mean_tables();
    let asleep = asleep_below(world.records(), alloc, slept, step)?;
    Ok(asleep)
}
