// The delivery of a signal (Erlang reference manual, "Processes": "Sending Signals", "Receiving Exit Signals").
ghost use Rattle.std.specs.Prelude.{◌≡◌, [], IfOk, OnOk};
ghost use Rattle.std.specs.List.{list_any};
ghost use Rattle.proc_links.specs.Effects.{fate_in};
ghost use Rattle.proc_links.specs.Links.{AreLinks};
ghost use Rattle.proc_signals.specs.Signal.{signal_of};
ghost use Rattle.world_planned.specs.inside.Planned.{Adds};
ghost use Rattle.world_plans.specs.inside.Turns.{PlansDelivery};
ghost use Rattle.world_plans.specs.inside.Delivered.{PlansElapsed, PlansFate, PlansKilled, PlansPassed, PlansSignal, PlansUnlinked, PlansUnwatched, is_of_link};
ghost use Rattle.world_model.specs.Cells as cells;
ghost use Rattle.world_model.specs.Cells.{Contents};
ghost use Rattle.term_core.specs.Term.{meaning_of};
ghost use Rattle.world_model.specs.Changes.{after};
ghost use Rattle.world_model.specs.Names.{same_pid, ref_of};
ghost use Rattle.world_model.specs.Signals.{fate_of, goes_with, pair_goes, reads_of_fate, trap_if};
ghost use Rattle.world_records.specs.Records.{OfWorld};

use proc_links::{Effect, Links, on_signal};
use proc_signals::Signal;
use std::alloc::{AllocError, Global};
use term_core::{Pid, RefId, Term};
use world_footprints::deed::Deed;
use world_planned::ends::leave;
use world_planned::guarding::reply;
use world_planned::planned::Planned;
use world_planned::readings::{front, has_partner};
use world_records::{Change, ChannelPart, ProcessPart, Records, ReferencePart};

// What becomes of a signal.
fn effect_at(
    records: &Records<'_>,
    alloc: Global,
    from: &Pid,
    to: &Pid,
    signal: &Signal,
) -> Result<Effect, AllocError>
    ensures { IfOk result (λ effect. OfWorld records.now (λ m v. fate_in effect ≡ fate_of v from.now to.now (signal_of signal.now))) }
{
    let exits = records.processes().exits(to);
    on_signal(
        alloc,
        signal,
        from,
        to,
        exits,
        records.links(),
        records.watchers(),
        records.guards(),
    )
}

// Whether the receiver of the exit signal of a link traps exits is read where the link is there.
fn read_flag(
    records: &Records<'_>,
    from: &Pid,
    to: &Pid,
    planned: &mut Planned,
) -> Result<(), AllocError>
    ensures { OnOk result (OfWorld records.now (λ m v. Adds (trap_if (list_any (same_pid from.now) (v (cells.Links to.now))) to.now) [] planned.old planned.new)) }
{
    if has_partner(records, to, from) {
        planned.read_process(ProcessPart::Trap, to)?;
    }
    Ok(())
}

// The exit signal of a link: the link is read, and goes.
fn unpair(
    records: &Records<'_>,
    from: &Pid,
    to: &Pid,
    planned: &mut Planned,
) -> Result<(), AllocError>
    ensures { OnOk result (OfWorld records.now (λ m v. PlansUnlinked v from.now to.now planned.old planned.new)) }
{
    planned.read_process(ProcessPart::Links, to)?;
    planned.read_process(ProcessPart::Links, from)?;
    read_flag(records, from, to, planned)?;
    planned.change(Change::LinkRemoved(from.copy()?, to.copy()?))?;
    Ok(())
}

// The signal of a watch: the watch is read with the name by which it was made, and goes, and with it an alias that was
// made so.
fn unwatch(reference: &RefId, from: &Pid, planned: &mut Planned) -> Result<(), AllocError>
    ensures { OnOk result (PlansUnwatched (ref_of reference.now) from.now planned.old planned.new) }
{
    planned.read_reference(ReferencePart::Watch, reference)?;
    planned.read_process(ProcessPart::Watchers, from)?;
    planned.read_reference(ReferencePart::Guard, reference)?;
    planned.change(Change::WatchCleared(reference.copy()?, from.copy()?))?;
    planned.change(Change::GuardUnwatched(reference.copy()?))?;
    Ok(())
}

// A message to a reference: its guard is read, and ends where a reply ends it.
fn pass(
    records: &Records<'_>,
    to: &Pid,
    reference: &RefId,
    planned: &mut Planned,
) -> Result<(), AllocError>
    ensures { OnOk result (OfWorld records.now (λ m v. PlansPassed v to.now (ref_of reference.now) planned.old planned.new)) }
{
    planned.read_reference(ReferencePart::Guard, reference)?;
    reply(records, to, reference, planned)?;
    Ok(())
}

// The message of a timer: the timer is read, and ends.
fn elapse(reference: &RefId, planned: &mut Planned) -> Result<(), AllocError>
    ensures { OnOk result (PlansElapsed (ref_of reference.now) planned.old planned.new) }
{
    planned.read_reference(ReferencePart::Guard, reference)?;
    planned.change(Change::GuardCleared(reference.copy()?))?;
    Ok(())
}

// What a signal is judged by, and what goes with it.
fn go_with(
    records: &Records<'_>,
    from: &Pid,
    to: &Pid,
    signal: &Signal,
    planned: &mut Planned,
) -> Result<(), AllocError>
    ensures { OnOk result (OfWorld records.now (λ m v. Adds (reads_of_fate v from.now to.now (signal_of signal.now)) (goes_with v from.now to.now (signal_of signal.now)) planned.old planned.new)) }
{
    match signal {
        Signal::Message(_) => Ok(()),
        Signal::Exit(_) => planned.read_process(ProcessPart::Trap, to),
        Signal::LinkExit(_) => unpair(records, from, to, planned),
        Signal::Down(reference, _) => unwatch(reference, from, planned),
        Signal::Guarded(reference, _) => pass(records, to, reference, planned),
        Signal::Elapsed(reference, _) => elapse(reference, planned),
    }
}

// Whether a signal is that of a link.
fn is_of_link(signal: &Signal) -> bool
    ensures { result ≡ is_of_link (signal_of signal.now) }
{
    match signal {
        Signal::LinkExit(_) => true,
        _ => false,
    }
}

// The links without that of two processes.
fn unlinked(links: Links, from: &Pid, to: &Pid) -> Result<Links, AllocError>
    ensures { IfOk result (λ unlinked. (v : Contents) → AreLinks links v → AreLinks unlinked (after (pair_goes from.now to.now) v)) }
{
    let mut unlinked = links;
    unlinked.unpair(from, to)?;
    Ok(unlinked)
}

// The links when what goes with a signal is gone.
fn parted(links: &Links, from: &Pid, to: &Pid, signal: &Signal) -> Result<Links, AllocError>
    ensures { IfOk result (λ parted. (v : Contents) → AreLinks links.now v → AreLinks parted (after (goes_with v from.now to.now (signal_of signal.now)) v)) }
{
    let parted = links.copy()?;
    if is_of_link(signal) {
        return unlinked(parted, from, to);
    }
    Ok(parted)
}

// A signal ends its receiver with this reason.
fn kill(
    records: &Records<'_>,
    alloc: Global,
    from: &Pid,
    to: &Pid,
    signal: &Signal,
    reason: &Term,
    planned: &mut Planned,
) -> Result<(), AllocError>
    ensures { OnOk result (PlansKilled from.now to.now (signal_of signal.now) (meaning_of reason.now) records.now planned.old planned.new) }
{
    let links = parted(records.links(), from, to, signal)?;
    planned.change(Change::ProcessEnded(to.copy()?, reason.copy()?))?;
    leave(records, alloc, &links, to, reason, planned)?;
    Ok(())
}

// A signal takes effect.
fn take_effect(
    records: &Records<'_>,
    alloc: Global,
    from: &Pid,
    to: &Pid,
    signal: &Signal,
    effect: &Effect,
    planned: &mut Planned,
) -> Result<(), AllocError>
    ensures { OnOk result (PlansFate from.now to.now (signal_of signal.now) (fate_in effect.now) records.now planned.old planned.new) }
{
    match effect {
        Effect::Put(message) => planned.change(Change::MessageAdded(to.copy()?, message.copy()?)),
        Effect::Ends(reason) => kill(records, alloc, from, to, signal, reason, planned),
        Effect::Ignored | Effect::Dropped => Ok(()),
    }
}

// The delivery of this signal, which is the oldest.
fn deliver_signal(
    records: &Records<'_>,
    alloc: Global,
    from: &Pid,
    to: &Pid,
    signal: &Signal,
    planned: &mut Planned,
) -> Result<Deed, AllocError>
    ensures { IfOk result (λ deed. PlansSignal from.now to.now (signal_of signal.now) records.now deed planned.old planned.new) }
{
    let effect = effect_at(records, alloc, from, to, signal)?;
    go_with(records, from, to, signal, planned)?;
    take_effect(records, alloc, from, to, signal, &effect, planned)?;
    Ok(Deed::Delivered(signal.copy()?, effect))
}

/// The delivery of the oldest signal from one process to another, which lives; none where no signal waits. `AllocError`
/// if there is no memory.
pub(crate) fn plan_delivery(
    records: &Records<'_>,
    alloc: Global,
    from: &Pid,
    to: &Pid,
    planned: &mut Planned,
) -> Result<Option<Deed>, AllocError>
    ensures { IfOk result (λ deed. PlansDelivery from.now to.now records.now deed planned.old planned.new) }
{
    let Some(signal) = front(records, from, to) else {
        planned.read_channel(ChannelPart::Tail, from, to)?;
        return Ok(None);
    };
    let deed = deliver_signal(records, alloc, from, to, signal, planned)?;
    Ok(Some(deed))
}
