// Plans that nodes share.
ghost use Rattle.std.specs.Prelude.{◌≡◌, ◌&&◌, true, not, IfOk, IsTrue, is_some};
ghost use Rattle.tree_coverage.specs.Explored.{same_step};
ghost use Rattle.world_footprints.specs.Footprints.{written_in};
ghost use Rattle.world_model.specs.Independence.{some_meet};
ghost use Rattle.world_records.specs.Cells.{cells_in};

use std::alloc::AllocError;
use std::rc::Rc;
use term_core::Step;
use world_plans::{Plan, meets};

/// Whether a plan is of this step, and the step is enabled.
pub(crate) fn is_enabled_at(plan: &Plan, step: &Step) -> bool
    ensures value { result ≡ is_some plan.now.deed && same_step plan.now.step step.now }
    ensures same { IsTrue result → (plan.now.step ≡ step.now) }
    ensures enabled { IsTrue result → (is_some plan.now.deed ≡ true) }
{
    plan.deed.is_some() && plan.step == *step
}

/// Whether a step is enabled and reads nothing that another one writes, so that it is enabled below that one, too. It
/// takes no memory.
pub(crate) fn outlives(plan: &Plan, taken: &Plan) -> bool
    ensures { result ≡ is_some plan.now.deed && not (some_meet (written_in taken.now) (cells_in plan.now.planned.reads.items)) }
{
    plan.deed.is_some() && !meets(taken, plan)
}

/// The same plan, which shares its memory with this one, or `AllocError` where the copies can no longer be counted.
pub fn share(plan: &Rc<Plan>) -> Result<Rc<Plan>, AllocError>
    ensures { IfOk result (λ shared. shared.value ≡ plan.now.value) }
{
    plan.clone()
}
