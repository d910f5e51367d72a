// What sleeps at the nodes of a tree that is cut at its depth.
ghost use Rattle.std.specs.Prelude.{◌≡◌, IfOk};
ghost use Rattle.tree_coverage.specs.Jobs.{asleep_below};
ghost use Rattle.tree_covers.specs.Faults.{sleeping};
ghost use Rattle.world_core.specs.Seen.{program_in};
ghost use Rattle.tree_sleep.specs.Reached.{IsReached};

use std::alloc::{AllocError, Global};
use term_core::Step;
use tree_sleep::sleep_below;
use world_core::World;

/// The steps that sleep below a step. Where no step may follow, none has to sleep, and no footprint is computed.
/// `AllocError` as `sleep_below` has it.
pub(crate) fn sleep_within(
    alloc: Global,
    world: &World<'_>,
    slept: &[Step],
    step: &Step,
    left: u64,
) -> Result<Vec<Step>, AllocError>
    requires { IsReached world.now }
    ensures { IfOk result (λ asleep. asleep.items ≡ sleeping left (asleep_below (program_in world.now) world.now.history slept.now step.now)) }
{
    if left == 0 {
        return Ok(Vec::new(alloc));
    }
    sleep_below(alloc, world, slept, step)
}
