// Random schedules of a module, each followed from its beginning to its end.
ghost use Rattle.std.specs.Prelude.{◌≡◌, IfErr, IfOk};
ghost use Rattle.search_samples.specs.Samples.{AreOfSamples};
ghost use Rattle.world_core.specs.declared.fault.WorldFault.TheVariants.{Memory as MemoryFault};
ghost use Rattle.world_identities.specs.Identities.{flags_in};
ghost use Rattle.world_model.specs.Asking.{program_of};

use crate::following::follow;
use core_tree::Module;
use rand_core::SeedableRng;
use rand_pcg::Pcg32;
use std::alloc::{AllocError, Global};
use tree_findings::Findings;
use tree_schedules::Delivery;
use world_core::WorldFault;
use world_identities::Flags;

/// How random schedules are taken, and what counts as an error in them.
#[derive(Clone, Copy, Debug, PartialEq, Eq)]
pub struct Samples {
    /// How many steps a schedule may have, 0 to 400.
    pub depth: u64,
    /// How many schedules are followed, 1 to 1000000.
    pub runs: u64,
    /// From which number the generator starts, 0 to 4294967295: the same numbers give the same schedules.
    pub seed: u64,
    /// When signals are delivered in them.
    pub delivery: Delivery,
    /// What counts as an error.
    pub flags: Flags,
}

// What so many random schedules show, one after the other. `Memory` if there is no memory for it.
fn shown_by_samples(
    alloc: Global,
    program: &Module,
    samples: &Samples,
) -> Result<Findings, WorldFault>
    ensures found { IfOk result (λ found. AreOfSamples (flags_in samples.now.flags) samples.now.delivery (program_of program.now) samples.now.depth samples.now.runs found) }
    ensures memory { IfErr result (λ fault. fault ≡ MemoryFault) }
{
    let mut generator = Pcg32::seed_from_u64(samples.seed);
    let mut findings = Findings::new(alloc);
    for _run in 0..samples.runs {
        follow(alloc, program, samples, &mut generator, &mut findings)?;
    }
    Ok(findings)
}

/// Follows so many random schedules of a module, each to its depth or until no step may be taken, and gives all errors
/// and refusals that they show on the way, each once, with the least beginning of one of them that shows it. At each place
/// one of the steps that may be taken there comes next, each as likely as the others. They are drawn by the generator
/// PCG XSH RR 64/32 (<https://www.pcg-random.org/>) from its seed.
///
/// # Errors
///
/// `AllocError` if there is no memory for a world, a schedule or what it shows; then what was found is dropped.
pub fn sample_schedules(
    alloc: Global,
    program: &Module,
    samples: &Samples,
) -> Result<Findings, AllocError>
    ensures { IfOk result (λ found. AreOfSamples (flags_in samples.now.flags) samples.now.delivery (program_of program.now) samples.now.depth samples.now.runs found) }
{
    match shown_by_samples(alloc, program, samples) {
        Ok(findings) => Ok(findings),
        Err(WorldFault::Memory) => Err(AllocError),
        Err(WorldFault::NotEnabled) => unreachable!(),
    }
}
