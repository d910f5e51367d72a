// One random schedule, followed to its end.
ghost use Rattle.std.specs.Prelude.{◌≡◌, ◌∷◌, ◌++◌, [], false, Some, IfErr, IfOk, OnOk};
ghost use Rattle.search_samples.specs.inside.Walks.{AddsOne};
ghost use Rattle.tree_findings.specs.Laws.{AddsSchedule};
ghost use Rattle.world_core.specs.Seen.{program_in};
ghost use Rattle.world_core.specs.declared.fault.WorldFault.TheVariants.{Memory};
ghost use Rattle.world_identities.specs.Identities.{flags_in};
ghost use Rattle.world_model.specs.Asking.{program_of};
ghost use Rattle.world_model.specs.Names.{IsAmong};
ghost use Rattle.world_model.specs.Run.{enabled_steps, extended, next_event};
ghost use Rattle.world_model.specs.Shown.{shown};

use crate::drawing::drawn;
use crate::sample::Samples;
use core_tree::Module;
use rand_pcg::Pcg32;
use std::alloc::Global;
use term_core::Step;
use tree_findings::Findings;
use world_core::{World, WorldFault};
use world_identities::Flags;

// Adds what a world shows, to which these steps lead, and gives the steps that are enabled there. `Memory` if there is no
// memory for it.
fn visit(
    alloc: Global,
    flags: Flags,
    world: &World<'_>,
    schedule: &[Step],
    findings: &mut Findings,
) -> Result<Vec<Step>, WorldFault>
    ensures enabled { IfOk result (λ enabled. enabled.items ≡ enabled_steps (program_in world.now) world.now.history) }
    ensures lives { IfOk result (λ _. world.now.spent ≡ false) }
    ensures adds { IfOk result (λ _. AddsSchedule (flags_in flags) schedule.now (shown (program_in world.now) world.now.history) findings.old findings.new) }
    ensures memory { IfErr result (λ fault. fault ≡ Memory) }
{
    let enabled = world.enabled(alloc)?;
    let shown = world.errors_among(alloc, enabled.as_slice())?;
    findings.note(alloc, flags, shown.as_slice(), schedule)?;
    Ok(enabled)
}

// Takes a step that is enabled, and puts it after those that were taken. `Memory` if there is no memory for it.
fn take(
    alloc: Global,
    world: &mut World<'_>,
    step: &Step,
    schedule: &mut Vec<Step>,
) -> Result<(), WorldFault>
    requires { IsAmong step.now (enabled_steps (program_in world.old) world.old.history) }
    ensures event { OnOk result (extended world.old.history (next_event (program_in world.old) world.old.history step.now) ≡ Some world.new.history) }
    ensures program { world.new.program ≡ world.old.program }
    ensures schedule { OnOk result (schedule.new.items ≡ schedule.old.items ++ step.now ∷ []) }
    ensures memory { IfErr result (λ fault. fault ≡ Memory) }
{
    world.step(alloc, step)?;
    schedule.push(step.copy()?)?;
    Ok(())
}

/// Follows one more random schedule, to the depth or until no step may be taken, and adds what it shows on the way, from
/// its beginning to its end. `Memory` if there is no memory for it.
pub(crate) fn follow(
    alloc: Global,
    program: &Module,
    samples: &Samples,
    generator: &mut Pcg32,
    findings: &mut Findings,
) -> Result<(), WorldFault>
    ensures adds { OnOk result (AddsOne (flags_in samples.now.flags) samples.now.delivery (program_of program.now) samples.now.depth findings.old findings.new) }
    ensures memory { IfErr result (λ fault. fault ≡ Memory) }
{
    let mut world = World::open(alloc, program)?;
    let mut schedule = Vec::new(alloc);
    let mut enabled = visit(alloc, samples.flags, &world, &[], findings)?;
    'steps: while (schedule.len() as u64) < samples.depth {
        let Some(step) = drawn(samples.delivery, &world, enabled.as_slice(), generator) else {
            return Ok(());
        };
        take(alloc, &mut world, step, &mut schedule)?;
        enabled = visit(alloc, samples.flags, &world, schedule.as_slice(), findings)?;
    }
    Ok(())
}
