// The world of a job's node.
ghost use Rattle.std.specs.Prelude.{◌≡◌, ◌≤◌, IfErr, IfOk, length};
ghost use Rattle.search_jobs.specs.Explorations.{program_in};
ghost use Rattle.search_expansion.specs.inside.Reached.{IsAt};
ghost use Rattle.world_core.specs.declared.fault.WorldFault.TheVariants.{Memory};
ghost use Rattle.world_model.specs.Asking.{program_of};

use core_tree::Module;
use search_jobs::Job;
use std::alloc::Global;
use world_core::{World, WorldFault};

/// The world of a job's node: each step of its schedule is taken, in a new world of a module that asks what the
/// explored one does. `Memory` if there is no memory.
pub(crate) fn world_of<'w>(
    alloc: Global,
    program: &'w Module,
    job: &Job<'_>,
) -> Result<World<'w>, WorldFault>
    requires { program_of program.now ≡ program_in job.now.exploration }
    ensures at { IfOk result (λ world. IsAt (program_in job.now.exploration) job.now.name.prefix world) }
    ensures module { IfOk result (λ world. world.program ≡ program.now) }
    ensures short { IfOk result (λ _. length job.now.name.prefix ≤ job.now.exploration.depth) }
    ensures memory { IfErr result (λ fault. fault ≡ Memory) }
{
    job.names_a_node();
    let mut world = World::open(alloc, program)?;
    let name = job.name();
    match world.advance(alloc, name.prefix.as_slice()) {
        Ok(()) => Ok(world),
        Err((_, WorldFault::Memory)) => Err(WorldFault::Memory),
        Err((_, WorldFault::NotEnabled)) => unreachable!(),
    }
}
