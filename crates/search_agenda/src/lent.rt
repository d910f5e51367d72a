// Steps as they are looked at.
ghost use Rattle.std.specs.Prelude.{◌≡◌, IfOk};
ghost use Rattle.search_agenda.specs.inside.Planning.{step_in};
ghost use Rattle.term_core.specs.StepOrder.{order_of_steps};
ghost use Rattle.term_core.specs.declared.step.Step.TheVariants.{Deliver, Turn};

use std::alloc::AllocError;
use std::cmp::Ordering;
use term_core::{Pid, Step};

/// A step whose processes are lent.
#[derive(Clone, Copy)]
pub(crate) enum LentStep<'a> {
    /// A turn.
    Turn(&'a Pid),
    /// A delivery from the first process to the second.
    Deliver(&'a Pid, &'a Pid),
}

/// The step itself, or `AllocError` where the copies of its pids can no longer be counted.
pub(crate) fn step_of(lent: LentStep<'_>) -> Result<Step, AllocError>
    ensures { IfOk result (λ step. step ≡ step_in lent.entry) }
{
    match lent {
        LentStep::Turn(pid) => Ok(Step::Turn(pid.copy()?)),
        LentStep::Deliver(from, to) => Ok(Step::Deliver(from.copy()?, to.copy()?)),
    }
}

// How a step compares with a turn.
fn compare_with_turn(step: &Step, pid: &Pid) -> Ordering
    ensures { result ≡ order_of_steps step.now (Turn pid.now) }
{
    match step {
        Step::Turn(other) => other.cmp(pid),
        Step::Deliver(_, _) => Ordering::Greater,
    }
}

// How a step compares with a delivery.
fn compare_with_delivery(step: &Step, from: &Pid, to: &Pid) -> Ordering
    ensures { result ≡ order_of_steps step.now (Deliver from.now to.now) }
{
    match step {
        Step::Turn(_) => Ordering::Less,
        Step::Deliver(other_from, other_to) => {
            other_from.cmp(from).then_with(|| other_to.cmp(to))
        }
    }
}

/// How a step compares with one that is lent. It takes no memory.
pub(crate) fn compare(step: &Step, lent: LentStep<'_>) -> Ordering
    ensures { result ≡ order_of_steps step.now (step_in lent.entry) }
{
    match lent {
        LentStep::Turn(pid) => compare_with_turn(step, pid),
        LentStep::Deliver(from, to) => compare_with_delivery(step, from, to),
    }
}
