// The steps of plans, and which sleep below one.
ghost use Rattle.std.specs.Prelude.{◌≡◌, ◌∷◌, Some, IfOk};
ghost use Rattle.tree_coverage.specs.Jobs.{asleep_below};
ghost use Rattle.search_agenda.specs.Plans.{ArePlans, IsPlan, steps_in};
ghost use Rattle.world_model.specs.Events.{Event, History};
ghost use Rattle.world_model.specs.Requests.{Program};
ghost use Rattle.world_model.specs.Run.{next_event};

use search_agenda::{Plan, asleep_below};
use std::alloc::{AllocError, Global};
use std::rc::Rc;
use term_core::Step;

/// The steps of plans. `AllocError` if there is no memory for them.
pub(crate) fn steps_of(alloc: Global, plans: &[Rc<Plan>]) -> Result<Vec<Step>, AllocError>
    ensures { IfOk result (λ steps. steps.items ≡ steps_in plans.now) }
{
    let mut steps = Vec::with_capacity(alloc, plans.len())?;
    for plan in plans {
        steps.push(plan.step.copy()?)?;
    }
    Ok(steps)
}

/// The plans of the steps that sleep below a step, where more steps may follow: of those that are independent of it (the
/// paper on sleep sets). At the depth none is asked for. `AllocError` if there is no memory for them.
pub(crate) fn sleep_below(
    alloc: Global,
    slept: &[Rc<Plan>],
    taken: &Plan,
    left: u64,
) -> Result<Vec<Rc<Plan>>, AllocError>
    ensures steps { IfOk result (λ asleep. (a : Program) (h : History) → ArePlans a h slept.now → IsPlan a h taken.now → (left ≡ 0 → ⊥) → steps_in asleep.items ≡ asleep_below a h (steps_in slept.now) taken.now.step) }
    ensures below { IfOk result (λ asleep. (a : Program) (h : History) (e : Event) → ArePlans a h slept.now → IsPlan a h taken.now → next_event a h taken.now.step ≡ Some e → ArePlans a (e ∷ h) asleep.items) }
{
    if left == 0 {
        return Ok(Vec::new(alloc));
    }
    asleep_below(alloc, slept, taken)
}
