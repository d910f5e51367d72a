// Aliases that end by a message that comes through them (Erlang manual, `alias/1`, `monitor/3`).
ghost use Rattle.std.specs.Prelude.{[], OnOk, option_copied};
ghost use Rattle.world_model.specs.Names.{ref_of};
ghost use Rattle.world_model.specs.Signals.{watch_goes};
ghost use Rattle.world_planned.specs.inside.Messages.{PlansEnded, PlansReplied};
ghost use Rattle.world_planned.specs.inside.Planned.{Adds};
ghost use Rattle.world_records.specs.Records.{OfWorld};

use crate::planned::Planned;
use crate::readings::{ends_by_reply, watched};
use std::alloc::AllocError;
use term_core::{Pid, RefId};
use world_records::{Change, Records, ReferencePart};

// A watch goes from the process that it is for.
fn clear_watch(
    reference: &RefId,
    target: Option<&Pid>,
    planned: &mut Planned,
) -> Result<(), AllocError>
    ensures { OnOk result (Adds [] (watch_goes (ref_of reference.now) (option_copied target.entry)) planned.old planned.new) }
{
    match target {
        Some(target) => planned.change(Change::WatchCleared(reference.copy()?, target.copy()?)),
        None => Ok(()),
    }
}

// An alias ends, and the watch of its reference with it.
fn end_alias(
    records: &Records<'_>,
    reference: &RefId,
    planned: &mut Planned,
) -> Result<(), AllocError>
    ensures { OnOk result (OfWorld records.now (λ m v. PlansEnded v (ref_of reference.now) planned.old planned.new)) }
{
    planned.read_reference(ReferencePart::Watch, reference)?;
    planned.change(Change::GuardCleared(reference.copy()?))?;
    clear_watch(reference, watched(records, reference), planned)?;
    Ok(())
}

/// A message comes to a process by a reference: where that is an alias of the process that a reply ends, it ends, and its
/// watch with it. `AllocError` if there is no memory.
pub fn reply(
    records: &Records<'_>,
    pid: &Pid,
    reference: &RefId,
    planned: &mut Planned,
) -> Result<(), AllocError>
    ensures { OnOk result (OfWorld records.now (λ m v. PlansReplied v pid.now (ref_of reference.now) planned.old planned.new)) }
{
    if ends_by_reply(records, reference, pid) {
        end_alias(records, reference, planned)?;
    }
    Ok(())
}
