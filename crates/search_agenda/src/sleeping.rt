// The plans of steps that sleep.
ghost use Rattle.std.specs.List.{filter};
ghost use Rattle.std.specs.Prelude.{◌≡◌, ◌∷◌, ◌&&◌, not, Some, IfOk, is_some};
ghost use Rattle.tree_coverage.specs.Explored.{same_step};
ghost use Rattle.tree_sleep_sets.specs.Search.{is_among};
ghost use Rattle.search_agenda.specs.Plans.{ArePlans, IsPlan, steps_in};
ghost use Rattle.world_model.specs.Events.{Event, History};
ghost use Rattle.world_model.specs.Independence.{are_independent};
ghost use Rattle.world_model.specs.Requests.{Program};
ghost use Rattle.world_model.specs.Run.{next_event};

use crate::plan::share;
use std::alloc::{AllocError, Global};
use std::rc::Rc;
use term_core::Step;
use world_plans::{Plan, are_independent};

// Whether a step is that of one of these plans.
fn is_asleep(slept: &[Rc<Plan>], step: &Step) -> bool
    ensures { result ≡ is_among same_step (steps_in slept.now) step.now }
{
    for plan in slept {
        if plan.step == *step {
            return true;
        }
    }
    false
}

/// Whether the step of a plan is enabled, and is not that of one of the plans that sleep. It takes no memory.
pub(crate) fn is_awake(plan: &Plan, slept: &[Rc<Plan>]) -> bool
    ensures { result ≡ is_some plan.now.deed && not (is_among same_step (steps_in slept.now) plan.now.step) }
{
    plan.deed.is_some() && !is_asleep(slept, &plan.step)
}

/// Of the steps that sleep, those that stay asleep below a step: those that are independent of it, in their order
/// (Godefroid, "Partial-Order Methods for the Verification of Concurrent Systems", sleep sets). Their plans hold below
/// the step, too. `AllocError` if there is no memory for them.
pub fn asleep_below(
    alloc: Global,
    slept: &[Rc<Plan>],
    taken: &Plan,
) -> Result<Vec<Rc<Plan>>, AllocError>
    ensures steps { IfOk result (λ asleep. (a : Program) (h : History) → ArePlans a h slept.now → IsPlan a h taken.now → steps_in asleep.items ≡ filter (are_independent a h taken.now.step) (steps_in slept.now)) }
    ensures below { IfOk result (λ asleep. (a : Program) (h : History) (e : Event) → ArePlans a h slept.now → IsPlan a h taken.now → next_event a h taken.now.step ≡ Some e → ArePlans a (e ∷ h) asleep.items) }
{
    let mut asleep = Vec::new(alloc);
    for other in slept {
        if are_independent(taken, other) {
            asleep.push(share(other)?)?;
        }
    }
    Ok(asleep)
}
