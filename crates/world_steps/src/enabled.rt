// Which steps of a world are enabled.
ghost use Rattle.std.specs.Prelude.{◌≡◌, ◌∷◌, [], IfOk, OnOk};
ghost use Rattle.std.specs.List.Sorted.{IsStrictlySortedBy};
ghost use Rattle.core_tree.specs.Syntax.{ModuleTree};
ghost use Rattle.term_core.specs.Order.{order_of_lists};
ghost use Rattle.world_steps.specs.inside.Enabling.{PutsEnabled, turns_of, deliveries_of};
ghost use Rattle.world_model.specs.Asking.{program_of};
ghost use Rattle.world_model.specs.Events.{History};
ghost use Rattle.world_model.specs.Run.{enabled_steps};
ghost use Rattle.world_model.specs.World.{contents};
ghost use Rattle.world_records.specs.Records.{Agrees};

use std::alloc::{AllocError, Global};
use std::collections::BTreeSet;
use term_core::{Pid, Step};
use world_plans::is_enabled;
use world_records::Records;

// Puts a step after others, if it is enabled.
fn push_if_enabled(
    records: &Records<'_>,
    alloc: Global,
    step: Step,
    steps: &mut Vec<Step>,
) -> Result<(), AllocError>
    ensures { OnOk result (PutsEnabled records.now (step ∷ []) steps.old.items steps.new.items) }
{
    if is_enabled(records, alloc, &step)? {
        steps.push(step)?;
    }
    Ok(())
}

// Puts the turns of processes after other steps, those that are enabled.
fn push_turns(
    records: &Records<'_>,
    alloc: Global,
    pids: &BTreeSet<Pid>,
    steps: &mut Vec<Step>,
) -> Result<(), AllocError>
    ensures put { OnOk result (PutsEnabled records.now (turns_of pids.now.keys) steps.old.items steps.new.items) }
    ensures in_order { OnOk result (IsStrictlySortedBy order_of_lists pids.now.keys) }
{
    for pid in pids.iter() {
        push_if_enabled(records, alloc, Step::Turn(pid.copy()?), steps)?;
    }
    Ok(())
}

// Puts the deliveries between pairs of processes after other steps, those that are enabled.
fn push_deliveries(
    records: &Records<'_>,
    alloc: Global,
    pairs: Vec<(Pid, Pid)>,
    steps: &mut Vec<Step>,
) -> Result<(), AllocError>
    ensures { OnOk result (PutsEnabled records.now (deliveries_of pairs.items) steps.old.items steps.new.items) }
{
    for (from, to) in pairs {
        push_if_enabled(records, alloc, Step::Deliver(from, to), steps)?;
    }
    Ok(())
}

/// The enabled steps of the records of a world, in their order: turns of processes that live and need not wait, and
/// deliveries of signals to processes that live. `AllocError` if there is no memory for them.
pub fn enabled_steps(records: &Records<'_>, alloc: Global) -> Result<Vec<Step>, AllocError>
    ensures { IfOk result (λ steps. (m : ModuleTree) (h : History) → Agrees m records.now (contents h) → steps.items ≡ enabled_steps (program_of m) h) }
{
    let mut steps = Vec::new(alloc);
    let living = records.processes().living();
    push_turns(records, alloc, living, &mut steps)?;
    let pairs = records.channels().pairs(alloc)?;
    push_deliveries(records, alloc, pairs, &mut steps)?;
    Ok(steps)
}
