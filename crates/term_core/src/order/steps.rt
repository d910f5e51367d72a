// The order of steps and schedules.
ghost use Rattle.std.specs.Prelude.{◌≡◌, ◌↔◌, List, IsTrue, refl};
ghost use Rattle.std.specs.Ordering.{eq_by_cmp, as_partial_cmp};
ghost use Rattle.std.specs.Cmp.{IsTotalOrder, partial_order_from_total, partial_equiv_from_equiv, eq_by_cmp_equiv};
ghost use Rattle.term_core.specs.StepOrder.{order_of_steps, order_of_schedules};
ghost use Rattle.term_core.specs.inside.StepOrderLaws.{steps_total};
ghost use Rattle.term_core.specs.declared.step.Step.{Step};

use crate::step::Step;
use std::cmp::Ordering;

impl PartialEq for Step {
    ghost eq = { eq_by_cmp order_of_steps };

    ghost laws = { partial_equiv_from_equiv (eq_by_cmp_equiv steps_total) };

    /// Whether the two are one step.
    fn eq(&self, other: &Step) -> bool
        ensures value { result ≡ eq_by_cmp order_of_steps self.now other.now }
        ensures same { IsTrue result ↔ (self.now ≡ other.now) }
    {
        self.cmp(other).is_eq()
    }
}

impl Eq for Step {
    ghost laws = { eq_by_cmp_equiv steps_total };
}

impl PartialOrd for Step {
    ghost partial_cmp = { as_partial_cmp order_of_steps };

    ghost laws = { partial_order_from_total steps_total };

    fn partial_cmp(&self, other: &Step) -> Option<Ordering> {
        Some(self.cmp(other))
    }
}

impl Ord for Step {
    ghost cmp = { order_of_steps };

    ghost total = { steps_total };

    ghost matches_partial_cmp = { λ a b. refl };

    ghost matches_eq = { λ a b. refl };

    /// Turns by pid, and then deliveries by their first pid, then by their second. It takes no memory.
    fn cmp(&self, other: &Step) -> Ordering {
        match (self, other) {
            (Step::Turn(p), Step::Turn(q)) => p.cmp(q),
            (Step::Turn(_), Step::Deliver(_, _)) => Ordering::Less,
            (Step::Deliver(_, _), Step::Turn(_)) => Ordering::Greater,
            (Step::Deliver(from, to), Step::Deliver(other_from, other_to)) => {
                from.cmp(other_from).then_with(|| to.cmp(other_to))
            }
        }
    }
}

/// Which of two schedules comes first: the shorter one, and of two of one length the one with the lesser step where
/// they first differ. It takes no memory.
pub fn compare_schedules(a: &[Step], b: &[Step]) -> Ordering
    ensures { result ≡ order_of_schedules a.now b.now }
{
    a.len().cmp(&b.len()).then_with(|| a.cmp(b))
}

/// The order of schedules is total, and it distinguishes any two schedules that are not the same.
pub fn schedules_are_ordered()
    ensures total { IsTotalOrder order_of_schedules }
    ensures same { (a b : List Step) → order_of_schedules a b ≡ Ordering.Equal → a ≡ b }
{}
