// What a node takes over from the node above it.
ghost use Rattle.std.specs.Prelude.{◌≡◌, ◌⊎◌, ◌<◌, true, false, get_or, length, None, IfSome};
ghost use Rattle.search_agenda.specs.Plans.{Shared};
ghost use Rattle.search_agenda.specs.inside.Planning.{IsHeldIn, IsMetIn, IsPassed, step_in};
ghost use Rattle.world_footprints.specs.Footprints.{written_in};
ghost use Rattle.world_model.specs.Independence.{some_meet};
ghost use Rattle.world_records.specs.Cells.{cells_in};

use crate::lent::{LentStep, compare};
use std::cmp::Ordering;
use std::rc::Rc;
use world_plans::{Plan, meets};

/// The plans of the node above, in the order of their steps, and the plan of the step between the nodes.
#[derive(Clone, Copy)]
pub(crate) struct Above<'a> {
    pub(crate) plans: &'a [Rc<Plan>],
    pub(crate) taken: &'a Plan,
}

// The place, from this one on, of the first plan whose step does not come before a step, if that is a plan of the
// step; and where to look for the steps after it.
fn place_from(plans: &[Rc<Plan>], from: usize, step: LentStep<'_>) -> (Option<usize>, usize)
    ensures found { IfSome result.0 (λ place. (place < length plans.now) × ((p : Shared) → p ≡ get_or plans.now place p → p.value.step ≡ step_in step.entry)) }
    ensures passed { result.0 ≡ None → IsPassed plans.now result.1 (step_in step.entry) }
{
    let mut place = from;
    while place < plans.len() {
        match compare(&plans[place].step, step) {
            Ordering::Less => place += 1,
            Ordering::Equal => return (Some(place), place + 1),
            Ordering::Greater => return (None, place),
        }
    }
    (None, place)
}

impl<'a> Above<'a> {
    // The plan at a place, where the step between the nodes writes nothing that it reads.
    fn unmet_at(self, place: usize) -> Option<&'a Rc<Plan>>
        requires { place < length self.plans.now }
        ensures held { IfSome result (λ plan. IsHeldIn plan.now self.entry.plans.now) }
        ensures same { IfSome result (λ plan. plan.now ≡ get_or self.entry.plans.now place plan.now) }
        ensures unmet { IfSome result (λ plan. some_meet (written_in self.entry.taken.now) (cells_in plan.now.value.planned.reads.items) ≡ false) }
        ensures met { result ≡ None → (p : Shared) → p ≡ get_or self.entry.plans.now place p → some_meet (written_in self.entry.taken.now) (cells_in p.value.planned.reads.items) ≡ true }
    {
        let plan = &self.plans[place];
        if meets(self.taken, plan) {
            return None;
        }
        Some(plan)
    }

    /// The plan of a step, where one is found from this place on, and the step between the nodes writes nothing that it
    /// reads. Steps come in their order, and the place goes on with them.
    pub(crate) fn kept(self, place: &mut usize, step: LentStep<'_>) -> Option<&'a Rc<Plan>>
        ensures held { IfSome result (λ plan. IsHeldIn plan.now self.entry.plans.now) }
        ensures step { IfSome result (λ plan. plan.now.value.step ≡ step_in step.entry) }
        ensures unmet { IfSome result (λ plan. some_meet (written_in self.entry.taken.now) (cells_in plan.now.value.planned.reads.items) ≡ false) }
        ensures none { result ≡ None → IsPassed self.entry.plans.now place.new (step_in step.entry) ⊎ IsMetIn self.entry (step_in step.entry) }
    {
        let (found, behind) = place_from(self.plans, *place, step);
        *place = behind;
        self.unmet_at(found?)
    }
}
