// An identity with a schedule that shows it.
ghost use Rattle.std.specs.Prelude.{◌≡◌, IfOk};
ghost use Rattle.world_identities.specs.Identities.{identity_in};
ghost use Rattle.tree_findings.specs.Found.{finding_in};

use std::alloc::{AllocError, Global};
use term_core::Step;
use world_identities::Identity;

/// What a schedule shows, and the schedule.
#[derive(Drop)]
pub struct Finding {
    /// What is shown.
    pub identity: Identity,
    /// The schedule that shows it.
    pub schedule: Vec<Step>,
}

/// A copy of a schedule, or of other steps, or `AllocError` if there is no memory for it.
pub fn copy_schedule(alloc: Global, schedule: &[Step]) -> Result<Vec<Step>, AllocError>
    ensures { IfOk result (λ copied. copied.items ≡ schedule.now) }
{
    let mut copied = Vec::with_capacity(alloc, schedule.len())?;
    for step in schedule {
        copied.push(step.copy()?)?;
    }
    Ok(copied)
}

impl Finding {
    /// The finding of a copy of an identity and a copy of a schedule, or `AllocError` if there is no memory for
    /// them.
    pub fn of(alloc: Global, identity: &Identity, schedule: &[Step]) -> Result<Finding, AllocError>
        ensures { IfOk result (λ finding. finding_in finding ≡ record { identity = identity_in identity.now; schedule = schedule.now }) }
    {
        Ok(Finding {
            identity: identity.copy(alloc)?,
            schedule: copy_schedule(alloc, schedule)?,
        })
    }

    /// The same finding, or `AllocError` if there is no memory for it.
    pub fn copy(&self, alloc: Global) -> Result<Finding, AllocError>
        ensures { IfOk result (λ copied. finding_in copied ≡ finding_in self.now) }
    {
        Finding::of(alloc, &self.identity, self.schedule.as_slice())
    }
}
