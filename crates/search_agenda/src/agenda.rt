// The agenda of a node.
ghost use Rattle.std.specs.List.{filter};
ghost use Rattle.std.specs.Prelude.{◌≡◌, ◌∷◌, [], true, false, not, reverse, None, Some, IfOk, IfSome, is_some, option_map};
ghost use Rattle.core_tree.specs.Syntax.{ModuleTree};
ghost use Rattle.tree_coverage.specs.Explored.{same_step};
ghost use Rattle.tree_sleep_sets.specs.Search.{is_among};
ghost use Rattle.search_agenda.specs.Plans.{AreStanding, IsAgenda, IsAgendaBelow, IsPlan, IsWorld, MeetsEach, steps_in};
ghost use Rattle.search_agenda.specs.inside.Planning.{TakesOverFrom};
ghost use Rattle.world_model.specs.Asking.{program_of};
ghost use Rattle.world_model.specs.Events.{Event, History};
ghost use Rattle.world_model.specs.Requests.{Program};
ghost use Rattle.world_model.specs.Run.{enabled_steps, is_enabled, next_event};
ghost use Rattle.world_model.specs.Signals.{first_of};

use crate::above::Above;
use crate::plan::{is_enabled_at, outlives, share};
use crate::planning::{put_deliveries, put_turns};
use crate::sleeping::is_awake;
use std::alloc::{AllocError, Global};
use std::rc::Rc;
use term_core::Step;
use world_plans::Plan;
use world_records::Records;

/// The plans of the steps that may be taken at a node, in the order of the steps: turns of processes that live, and
/// deliveries of signals to processes that live. What is enabled is among them. Nodes share plans.
pub struct Agenda {
    plans: Vec<Rc<Plan>>,
}

// Dropped by a call, so that no crate above proves again how.
impl Drop for Agenda {
    fn drop(self) {
        let Agenda { plans: _ } = self;
    }
}

// How many plans there is room for at first.
const ROOM: usize = 8;

// The agenda of a node below another one, or of one with nothing above it. `AllocError` if there is no memory for it.
fn agenda_below(
    records: &Records<'_>,
    alloc: Global,
    above: Option<Above<'_>>,
) -> Result<Agenda, AllocError>
    ensures { IfOk result (λ agenda. (m : ModuleTree) (h : History) → IsWorld m h records.now → TakesOverFrom (program_of m) h above.entry → IsAgenda (program_of m) h agenda) }
{
    let mut plans = Vec::with_capacity(alloc, ROOM)?;
    let mut place = 0;
    let living = records.processes().living();
    put_turns(records, alloc, living, above, &mut place, &mut plans)?;
    let pairs = records.channels().pairs(alloc)?;
    put_deliveries(records, alloc, pairs, above, &mut place, &mut plans)?;
    Ok(Agenda { plans })
}

impl Agenda {
    /// The agenda of a node: each step is planned. `AllocError` if there is no memory for it, or for the search of a
    /// mailbox.
    pub fn of(records: &Records<'_>, alloc: Global) -> Result<Agenda, AllocError>
        ensures { IfOk result (λ agenda. (m : ModuleTree) (h : History) → IsWorld m h records.now → IsAgenda (program_of m) h agenda) }
    {
        agenda_below(records, alloc, None)
    }

    /// The agenda of the node that an enabled step leads to, from the records of that node: plans that read nothing
    /// that the step writes are taken over, and the other steps are planned anew. `AllocError` if there is no memory
    /// for it, or for the search of a mailbox.
    pub fn below(
        &self,
        records: &Records<'_>,
        alloc: Global,
        taken: &Plan,
    ) -> Result<Agenda, AllocError>
        ensures { IfOk result (λ agenda. IsAgendaBelow self.now taken.now records.now agenda) }
    {
        let above = Above {
            plans: self.plans.as_slice(),
            taken,
        };
        agenda_below(records, alloc, Some(above))
    }

    /// The first of the steps that are enabled, if there is one. It takes no memory.
    pub fn first_enabled(&self) -> Option<&Step>
        ensures { (a : Program) (h : History) → IsAgenda a h self.now → option_map (λ step. step.now) result ≡ first_of (enabled_steps a h) }
    {
        let plans = self.plans.as_slice();
        for plan in plans {
            if plan.deed.is_some() {
                return Some(&plan.step);
            }
        }
        None
    }

    /// The plans of the steps that are enabled and do not sleep, the last one first. `AllocError` if there is no memory
    /// for them.
    pub fn awake_backwards(
        &self,
        alloc: Global,
        slept: &[Rc<Plan>],
    ) -> Result<Vec<Rc<Plan>>, AllocError>
        ensures { IfOk result (λ line. (a : Program) (h : History) → IsAgenda a h self.now → AreStanding a h (filter (λ s. not (is_among same_step (steps_in slept.now) s)) (enabled_steps a h)) (reverse line.items)) }
    {
        let plans = self.plans.as_slice();
        let mut line = Vec::new(alloc);
        let mut left = plans.len();
        while left > 0 {
            left -= 1;
            let plan = &plans[left];
            if is_awake(plan, slept) {
                line.push(share(plan)?)?;
            }
        }
        Ok(line)
    }

    // The plan of a step, if it is enabled.
    fn enabled_plan(&self, step: &Step) -> Option<&Rc<Plan>>
        ensures plan { IfSome result (λ plan. (a : Program) (h : History) → IsAgenda a h self.now → IsPlan a h plan.now.value) }
        ensures step { IfSome result (λ plan. plan.now.value.step ≡ step.now) }
        ensures enabled { IfSome result (λ plan. is_some plan.now.value.deed ≡ true) }
        ensures none { result ≡ None → (a : Program) (h : History) → IsAgenda a h self.now → is_enabled a h step.now ≡ false }
    {
        let plans = self.plans.as_slice();
        for plan in plans {
            if is_enabled_at(plan, step) {
                return Some(plan);
            }
        }
        None
    }

    /// The plans of these steps, in their order, as far as they are enabled; a step that is not enabled has no plan.
    /// `AllocError` if there is no memory for them.
    pub fn plans_of(&self, alloc: Global, steps: &[Step]) -> Result<Vec<Rc<Plan>>, AllocError>
        ensures { IfOk result (λ plans. (a : Program) (h : History) → IsAgenda a h self.now → AreStanding a h (filter (is_enabled a h) steps.now) plans.items) }
    {
        let mut plans = Vec::with_capacity(alloc, steps.len())?;
        for step in steps {
            if let Some(plan) = self.enabled_plan(step) {
                plans.push(share(plan)?)?;
            }
        }
        Ok(plans)
    }

    /// Whether it is plain without the world below an enabled step that some step is enabled there: one that is enabled
    /// here and reads nothing that the step writes. It takes no memory.
    pub fn lives_below(&self, taken: &Plan) -> bool
        ensures lives { result ≡ true → (a : Program) (h : History) (e : Event) → IsAgenda a h self.now → IsPlan a h taken.now → next_event a h taken.now.step ≡ Some e → enabled_steps a (e ∷ h) ≡ [] → ⊥ }
        ensures met { result ≡ false → MeetsEach taken.now self.now }
    {
        let plans = self.plans.as_slice();
        for other in plans {
            if outlives(other, taken) {
                return true;
            }
        }
        false
    }
}
