// Schedules that share their beginnings.
ghost use Rattle.std.specs.Prelude.{◌≡◌, ◌∷◌, ◌++◌, [], IfOk, MatchOption};
ghost use Rattle.search_levels.specs.inside.Paths.{latest_first, schedule_in};

use std::alloc::{AllocError, Global};
use std::marker::Model;
use std::sync::Arc;
use term_core::Step;

/// The steps of a schedule, the latest one first. Schedules that begin alike share these steps.
#[derive(Drop)]
#[cycle(path)]
pub(crate) enum Path {
    /// No step.
    Start,
    /// A step, with those before it.
    Then(Arc<Link>),
}

/// A step with those before it. Contracts see the steps of both, the latest one first.
#[cycle(path)]
pub(crate) struct Link {
    step: Step,
    before: Path,
}

impl Model for Link {
    ghost use Rattle.std.specs.Prelude.{◌∷◌, List, length};
    ghost use Rattle.std.specs.Coded.{coded_list};
    ghost use Rattle.term_core.specs.declared.step.Step.{Step as StepOf};
    ghost use Rattle.term_core.specs.contracts.step.Step as steps;

    ghost Value = { List StepOf };

    ghost coded = { coded_list steps.the_row.coded };

    ghost use Rattle.search_levels.specs.inside.Paths.{latest_first};

    ghost view = { λ l. l.step ∷ latest_first l.before };

    ghost size = { length };

    ghost use Rattle.std.proofs.Common.{arith};

    ghost size_decreases = { λ a h. Prim.grind arith };
}

impl Link {
    // The step, and those before it.
    fn into_parts(self) -> (Step, Path)
        ensures { self ≡ result.0 ∷ latest_first result.1 }
    {
        let Link { step, before } = self;
        (step, before)
    }
}

impl Drop for Link {
    // Steps are dropped by a loop, so that there may be any number. It ends at one that other schedules have as well.
    fn drop(self) {
        let Link { step, mut before } = self;
        drop(step);
        loop {
            match before {
                Path::Then(link) => match Arc::into_inner(link) {
                    Some(link) => {
                        let (step, rest) = link.into_parts();
                        drop(step);
                        before = rest;
                    }
                    None => return,
                },
                Path::Start => return,
            }
        }
    }
}

impl Path {
    /// The schedule that goes on from this one by a step, or `AllocError` if there is no memory for it.
    pub(crate) fn with(&self, alloc: Global, step: Step) -> Result<Path, AllocError>
        ensures { IfOk result (λ longer. schedule_in longer ≡ schedule_in self.now ++ step ∷ []) }
    {
        let before = self.copy()?;
        Ok(Path::Then(Arc::new(alloc, Link { step, before })?))
    }

    // The same schedule. It takes no memory and one step, or fails with `AllocError` where the copies can no longer be
    // counted.
    fn copy(&self) -> Result<Path, AllocError>
        ensures { IfOk result (λ copied. latest_first copied ≡ latest_first self.now) }
    {
        match self {
            Path::Start => Ok(Path::Start),
            Path::Then(link) => Ok(Path::Then(Arc::try_clone(link)?)),
        }
    }

    // The latest step, and the schedule before it, if there is one. It takes no memory.
    fn latest(&self) -> Option<(&Step, &Path)>
        ensures { MatchOption result (latest_first self.now ≡ []) (λ parts. latest_first self.now ≡ parts.0.now ∷ latest_first parts.1.now) }
    {
        match self {
            Path::Start => None,
            Path::Then(link) => {
                let link: &Link = link;
                Some((&link.step, &link.before))
            }
        }
    }

    /// The steps of the schedule, the first one first, or `AllocError` if there is no memory for them.
    pub(crate) fn steps(&self, alloc: Global) -> Result<Vec<Step>, AllocError>
        ensures { IfOk result (λ steps. steps.items ≡ schedule_in self.now) }
    {
        let mut steps = Vec::new(alloc);
        let mut left = self;
        while let Some((step, before)) = left.latest() {
            steps.push(step.copy()?)?;
            left = before;
        }
        steps.reverse();
        Ok(steps)
    }
}
