// The plan of a step.
ghost use Rattle.std.specs.Prelude.{◌≡◌, false, true, IfNone, IfOk, IfSome};
ghost use Rattle.world_planned.specs.Replies.{NamesMeanTables};
ghost use Rattle.world_footprints.specs.Plans.{actor_of};
ghost use Rattle.world_footprints.specs.Footprints.{IsPlan};
ghost use Rattle.world_plans.specs.inside.Turns.{IsPlannedStep};
ghost use Rattle.term_core.specs.declared.step.Step.TheVariants.{Deliver, Turn};
ghost use Rattle.world_model.specs.Asking.{program_of};
ghost use Rattle.world_model.specs.Cells as cells;
ghost use Rattle.world_records.specs.Records.{OfWorld};

use crate::delivery::plan_delivery;
use crate::turn::plan_turn;
use std::alloc::{AllocError, Global};
use term_core::{Pid, Step};
use world_footprints::deed::Deed;
use world_footprints::plan::Plan;
use world_planned::planned::Planned;
use world_planned::readings::lives;
use world_records::{ChannelPart, ProcessPart, Records};

// The turn of a process that lives.
fn add_turn(
    records: &Records<'_>,
    alloc: Global,
    pid: &Pid,
    planned: &mut Planned,
) -> Result<Option<Deed>, AllocError>
    ensures { IfOk result (λ deed. OfWorld records.now (λ m v. NamesMeanTables v → v (cells.Alive pid.now) ≡ true → IsPlannedStep (program_of m) v (Turn pid.now) deed planned.old planned.new)) }
{
    planned.read_process(ProcessPart::Machine, pid)?;
    planned.read_process(ProcessPart::Alive, pid)?;
    plan_turn(records, alloc, pid, planned)
}

// A delivery to a process that lives.
fn add_delivery(
    records: &Records<'_>,
    alloc: Global,
    from: &Pid,
    to: &Pid,
    planned: &mut Planned,
) -> Result<Option<Deed>, AllocError>
    ensures { IfOk result (λ deed. OfWorld records.now (λ m v. v (cells.Alive to.now) ≡ true → IsPlannedStep (program_of m) v (Deliver from.now to.now) deed planned.old planned.new)) }
{
    planned.read_process(ProcessPart::Alive, to)?;
    planned.read_channel(ChannelPart::Front, from, to)?;
    plan_delivery(records, alloc, from, to, planned)
}

// A step of a process that lives.
fn add_step(
    records: &Records<'_>,
    alloc: Global,
    step: &Step,
    planned: &mut Planned,
) -> Result<Option<Deed>, AllocError>
    ensures { IfOk result (λ deed. OfWorld records.now (λ m v. NamesMeanTables v → v (cells.Alive (actor_of step.now)) ≡ true → IsPlannedStep (program_of m) v step.now deed planned.old planned.new)) }
{
    match step {
        Step::Turn(pid) => add_turn(records, alloc, pid, planned),
        Step::Deliver(from, to) => add_delivery(records, alloc, from, to, planned),
    }
}

// Whose turn a step is, or the process that it delivers to.
fn actor_of(step: &Step) -> &Pid
    ensures { result.now ≡ actor_of step.now }
{
    match step {
        Step::Turn(pid) => pid,
        Step::Deliver(_, to) => to,
    }
}

/// The plan of a step: none where the process whose turn it is, or to which it delivers, does not live. `AllocError` if
/// there is no memory for it, or for the search of a mailbox.
pub fn plan_step(
    records: &Records<'_>,
    alloc: Global,
    step: Step,
) -> Result<Option<Plan>, AllocError>
    ensures step { IfOk result (λ planned. IfSome planned (λ plan. plan.step ≡ step)) }
    ensures plan { IfOk result (λ planned. IfSome planned (λ plan. OfWorld records.now (λ m v. NamesMeanTables v → IsPlan (program_of m) v plan))) }
    ensures lives { IfOk result (λ planned. IfSome planned (λ plan. OfWorld records.now (λ m v. v (cells.Alive (actor_of step)) ≡ true))) }
    ensures none { IfOk result (λ planned. IfNone planned (OfWorld records.now (λ m v. v (cells.Alive (actor_of step)) ≡ false))) }
{
    if !lives(records, actor_of(&step)) {
        return Ok(None);
    }
    let mut planned = Planned::new(alloc)?;
    let deed = add_step(records, alloc, &step, &mut planned)?;
    Ok(Some(Plan::new(step, deed, planned)))
}
