// The plans of all steps that may be taken at a node.
ghost use Rattle.std.specs.Prelude.{◌≡◌, ◌∷◌, [], OnOk};
ghost use Rattle.std.specs.List.Sorted.{IsStrictlySortedBy};
ghost use Rattle.term_core.specs.Order.{order_of_lists};
ghost use Rattle.search_agenda.specs.inside.Planning.{PutsPlans, step_in};
ghost use Rattle.world_steps.specs.inside.Enabling.{turns_of, deliveries_of};

use crate::above::Above;
use crate::lent::{LentStep, step_of};
use crate::plan::share;
use std::alloc::{AllocError, Global};
use std::collections::BTreeSet;
use std::rc::Rc;
use term_core::Pid;
use world_plans::{Plan, plan_step};
use world_records::Records;

// Puts the plan of a step after others: the one of the node above, if there is one, where that still holds, and else a
// new one; none where its process does not live. Steps come in their order, and the place goes on with them.
fn put_plan(
    records: &Records<'_>,
    alloc: Global,
    step: LentStep<'_>,
    above: Option<Above<'_>>,
    place: &mut usize,
    plans: &mut Vec<Rc<Plan>>,
) -> Result<(), AllocError>
    ensures { OnOk result (PutsPlans records.now above.entry (step_in step.entry ∷ []) plans.old.items plans.new.items) }
{
    if let Some(above) = above {
        if let Some(plan) = above.kept(place, step) {
            plans.push(share(plan)?)?;
            return Ok(());
        }
    }
    if let Some(plan) = plan_step(records, alloc, step_of(step)?)? {
        plans.push(Rc::new(alloc, plan)?)?;
    }
    Ok(())
}

/// Puts the plans of the turns of processes after others.
pub(crate) fn put_turns(
    records: &Records<'_>,
    alloc: Global,
    pids: &BTreeSet<Pid>,
    above: Option<Above<'_>>,
    place: &mut usize,
    plans: &mut Vec<Rc<Plan>>,
) -> Result<(), AllocError>
    ensures put { OnOk result (PutsPlans records.now above.entry (turns_of pids.now.keys) plans.old.items plans.new.items) }
    ensures in_order { OnOk result (IsStrictlySortedBy order_of_lists pids.now.keys) }
{
    for pid in pids.iter() {
        put_plan(records, alloc, LentStep::Turn(pid), above, place, plans)?;
    }
    Ok(())
}

/// Puts the plans of the deliveries between pairs of processes after others.
pub(crate) fn put_deliveries(
    records: &Records<'_>,
    alloc: Global,
    pairs: Vec<(Pid, Pid)>,
    above: Option<Above<'_>>,
    place: &mut usize,
    plans: &mut Vec<Rc<Plan>>,
) -> Result<(), AllocError>
    ensures { OnOk result (PutsPlans records.now above.entry (deliveries_of pairs.items) plans.old.items plans.new.items) }
{
    for (from, to) in pairs {
        let step = LentStep::Deliver(&from, &to);
        put_plan(records, alloc, step, above, place, plans)?;
    }
    Ok(())
}
