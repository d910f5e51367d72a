// Links and watches (erlang manual, `link/1`, `unlink/1`, `monitor/2`, `monitor/3`, `demonitor/2`).
ghost use Rattle.std.specs.Prelude.{◌≡◌, ◌∷◌, ◌++◌, [], Bool, false, true, IfOk, OnOk, Option, Some, None, option_copied, option_map};
ghost use Rattle.proc_calls.specs.Arguments.{flushes, is_process};
ghost use Rattle.world_model.specs.Names.{ref_of, same_pid};
ghost use Rattle.proc_links.specs.Guards.{guard_of};
ghost use Rattle.proc_links.specs.Links.{way_of};
ghost use Rattle.world_planned.specs.inside.Planned.{Adds};
ghost use Rattle.world_planned.specs.inside.NamedWatches.{PlansHolder, PlansKept, PlansNobody};
ghost use Rattle.world_planned.specs.inside.PlannedCalls.{Plans};
ghost use Rattle.term_core.specs.Term.{meaning_of};
ghost use Rattle.world_model.specs.Calls as calls;
ghost use Rattle.world_model.specs.Cells as cells;
ghost use Rattle.world_model.specs.Changes as changes;
ghost use Rattle.world_model.specs.Changes.{is_of_watch};
ghost use Rattle.world_model.specs.Mailboxes.{mailbox_in, selected_of};
ghost use Rattle.world_model.specs.ProcessLines.{alias_begins, alias_beside, demonitor_reads, gone_told, link_changes, link_way, named_guard, noproc, watch_begins, watch_ends};
ghost use Rattle.world_model.specs.declared.alias.AliasEnd.{AliasEnd};
ghost use Rattle.world_records.specs.Records.{OfWorld};
ghost use Rattle.world_records.specs.declared.records.Records as declared;
ghost use Rattle.world_planned.specs.inside.Messages.{PlansFlushed, PlansPicked};

use crate::guarding::set_alias;
use proc_calls::{Flushing, MonitorType};
use proc_links::{Guard, Linking};
use proc_signals::Signal;
use std::alloc::{AllocError, Global};
use term_core::{Atom, Pid, RefId, Term};
use world_model::alias::AliasEnd;
use world_planned::planned::Planned;
use world_planned::readings::{down, exits, holder, life, lives, watched};
use world_planned::reply::{Refusal, Reply, done};
use world_planned::spawning::next_reference;
use world_records::{Change, NamePart, ProcessPart, Records, ReferencePart};

// The reason that is reported for a process that is gone.
fn no_process(alloc: Global) -> Result<Term, AllocError>
    ensures { IfOk result (λ reason. meaning_of reason ≡ noproc) }
{
    let reason = Term::atom(alloc, "noproc")?;
    Ok(reason)
}

// What `link/1` results in.
fn link_way(records: &Records<'_>, caller: &Pid, to: &Pid) -> Linking
    ensures { OfWorld records.now (λ m v. way_of result ≡ link_way caller.now to.now (v (cells.Links caller.now)) (v (cells.Alive to.now)) (v (cells.Trap caller.now))) }
{
    let exits = exits(records, caller);
    records.links().way(caller, to, life(records, to), exits)
}

// A link that is there stays.
fn keep_link(caller: &Pid, to: &Pid, planned: &mut Planned) -> Result<(), AllocError>
    ensures { OnOk result (Adds [] (link_changes caller.now to.now (way_of Linking.Stands)) planned.old planned.new) }
{
    planned.touch_process(ProcessPart::Links, caller)?;
    planned.touch_process(ProcessPart::Links, to)
}

// A link to a process that is gone, which is reported.
fn link_gone(alloc: Global, caller: &Pid, to: &Pid, planned: &mut Planned) -> Result<(), AllocError>
    ensures { OnOk result (Adds [] (link_changes caller.now to.now (way_of Linking.PairsGone)) planned.old planned.new) }
{
    planned.change(Change::LinkAdded(caller.copy()?, to.copy()?))?;
    let exit = Signal::LinkExit(no_process(alloc)?);
    planned.change(Change::SignalPut(to.copy()?, caller.copy()?, exit))
}

// What `link/1` changes.
fn change_links(
    alloc: Global,
    caller: &Pid,
    to: &Pid,
    linking: Linking,
    planned: &mut Planned,
) -> Result<(), AllocError>
    ensures { OnOk result (Adds [] (link_changes caller.now to.now (way_of linking)) planned.old planned.new) }
{
    match linking {
        Linking::Stands => keep_link(caller, to, planned),
        Linking::Pairs => planned.change(Change::LinkAdded(caller.copy()?, to.copy()?)),
        Linking::PairsGone => link_gone(alloc, caller, to, planned),
        Linking::Fails => Ok(()),
    }
}

// What `link/1` reads.
fn read_link(caller: &Pid, to: &Pid, planned: &mut Planned) -> Result<(), AllocError>
    ensures { OnOk result (Adds (cells.Alive to.now ∷ cells.Trap caller.now ∷ cells.Links caller.now ∷ []) [] planned.old planned.new) }
{
    planned.read_process(ProcessPart::Alive, to)?;
    planned.read_process(ProcessPart::Trap, caller)?;
    planned.read_process(ProcessPart::Links, caller)
}

// `link/1` of a process.
fn link_process(
    records: &Records<'_>,
    alloc: Global,
    caller: &Pid,
    to: &Pid,
    planned: &mut Planned,
) -> Result<Reply, AllocError>
    ensures { IfOk result (λ reply. Plans caller.now (calls.Link (Some to.now)) records.now reply planned.old planned.new) }
{
    read_link(caller, to, planned)?;
    let linking = link_way(records, caller, to);
    change_links(alloc, caller, to, linking, planned)?;
    match linking {
        Linking::Fails => Ok(Reply::Refused(Refusal::NoProcess)),
        Linking::Stands | Linking::Pairs | Linking::PairsGone => Ok(Reply::Served(done())),
    }
}

/// `link/1`. `AllocError` if there is no memory.
pub(crate) fn link(
    records: &Records<'_>,
    alloc: Global,
    caller: &Pid,
    to: Option<Pid>,
    planned: &mut Planned,
) -> Result<Reply, AllocError>
    ensures { IfOk result (λ reply. Plans caller.now (calls.Link to) records.now reply planned.old planned.new) }
{
    match to {
        Some(to) => link_process(records, alloc, caller, &to, planned),
        None => Ok(Reply::Refused(Refusal::BadArgument)),
    }
}

// `unlink/1` of a process.
fn unlink_process(caller: &Pid, from: Pid, planned: &mut Planned) -> Result<Reply, AllocError>
    ensures { IfOk result (λ reply. (records : declared.Records) → Plans caller.now (calls.Unlink (Some from)) records reply planned.old planned.new) }
{
    planned.read_process(ProcessPart::Alive, &from)?;
    planned.change(Change::LinkRemoved(caller.copy()?, from))?;
    Ok(Reply::Served(done()))
}

/// `unlink/1`. `AllocError` if there is no memory.
pub(crate) fn unlink(
    caller: &Pid,
    from: Option<Pid>,
    planned: &mut Planned,
) -> Result<Reply, AllocError>
    ensures { IfOk result (λ reply. (records : declared.Records) → Plans caller.now (calls.Unlink from) records reply planned.old planned.new) }
{
    match from {
        Some(from) => unlink_process(caller, from, planned),
        None => Ok(Reply::Refused(Refusal::BadArgument)),
    }
}

// With the watch of another an alias may begin.
fn alias_beside(caller: &Pid, whom: &Pid, alias: Option<AliasEnd>) -> Option<AliasEnd>
    ensures { result ≡ alias_beside (same_pid caller.now whom.now) alias }
{
    if *caller == *whom { None } else { alias }
}

// With a watch an alias may begin.
fn begin_alias(
    caller: &Pid,
    reference: &RefId,
    alias: Option<AliasEnd>,
    planned: &mut Planned,
) -> Result<(), AllocError>
    ensures { OnOk result (Adds [] (alias_begins caller.now (ref_of reference.now) alias) planned.old planned.new) }
{
    match alias {
        Some(end) => set_alias(caller, reference, end, planned),
        None => Ok(()),
    }
}

// A process that is gone is reported at once.
fn tell_gone(
    alloc: Global,
    caller: &Pid,
    whom: &Pid,
    reference: &RefId,
    lives: bool,
    planned: &mut Planned,
) -> Result<(), AllocError>
    ensures { OnOk result (Adds [] (gone_told lives caller.now whom.now (ref_of reference.now)) planned.old planned.new) }
{
    if !lives {
        let down = Signal::Down(reference.copy()?, no_process(alloc)?);
        planned.change(Change::SignalPut(whom.copy()?, caller.copy()?, down))?;
    }
    Ok(())
}

// A watch begins, with an alias where one is asked for.
fn begin_watch(
    caller: &Pid,
    whom: &Pid,
    reference: &RefId,
    alias: Option<AliasEnd>,
    planned: &mut Planned,
) -> Result<(), AllocError>
    ensures { OnOk result (Adds [] (watch_begins (ref_of reference.now) whom.now ++ alias_begins caller.now (ref_of reference.now) alias) planned.old planned.new) }
{
    planned.change(Change::WatchSet(reference.copy()?, whom.copy()?))?;
    begin_alias(caller, reference, alias, planned)?;
    Ok(())
}

// A process is watched.
fn watch(
    records: &Records<'_>,
    alloc: Global,
    caller: &Pid,
    whom: &Pid,
    alias: Option<AliasEnd>,
    planned: &mut Planned,
) -> Result<Reply, AllocError>
    ensures { IfOk result (λ reply. Plans caller.now (calls.Monitor true (Some whom.now) (Some alias)) records.now reply planned.old planned.new) }
{
    planned.read_process(ProcessPart::Alive, whom)?;
    let reference = next_reference(records, alloc, caller)?;
    let lives = lives(records, whom);
    let begun = alias_beside(caller, whom, alias);
    begin_watch(caller, whom, &reference, begun, planned)?;
    tell_gone(alloc, caller, whom, &reference, lives, planned)?;
    Ok(Reply::Served(Term::Ref(reference)))
}

// A process is named in a call that is refused.
fn refuse_watch(caller: &Pid, whom: &Pid, planned: &mut Planned) -> Result<Reply, AllocError>
    ensures kind { IfOk result (λ reply. (records : declared.Records) (alias : Option (Option AliasEnd)) → Plans caller.now (calls.Monitor false (Some whom.now) alias) records reply planned.old planned.new) }
    ensures options { IfOk result (λ reply. (records : declared.Records) → Plans caller.now (calls.Monitor true (Some whom.now) None) records reply planned.old planned.new) }
{
    planned.read_process(ProcessPart::Alive, whom)?;
    Ok(Reply::Refused(Refusal::BadArgument))
}

// `monitor/2` and `monitor/3` of a process.
fn monitor_process(
    records: &Records<'_>,
    alloc: Global,
    caller: &Pid,
    kind: MonitorType,
    whom: &Pid,
    alias: Option<Option<AliasEnd>>,
    planned: &mut Planned,
) -> Result<Reply, AllocError>
    ensures { IfOk result (λ reply. Plans caller.now (calls.Monitor (is_process kind) (Some whom.now) alias) records.now reply planned.old planned.new) }
{
    match (kind, alias) {
        (MonitorType::Process, Some(alias)) => watch(records, alloc, caller, whom, alias, planned),
        (MonitorType::Process, None) => refuse_watch(caller, whom, planned),
        (MonitorType::Another, _) => refuse_watch(caller, whom, planned),
    }
}

/// `monitor/2` and `monitor/3`. `AllocError` if there is no memory.
pub(crate) fn monitor(
    records: &Records<'_>,
    alloc: Global,
    caller: &Pid,
    kind: MonitorType,
    whom: Option<Pid>,
    alias: Option<Option<AliasEnd>>,
    planned: &mut Planned,
) -> Result<Reply, AllocError>
    ensures { IfOk result (λ reply. Plans caller.now (calls.Monitor (is_process kind) whom alias) records.now reply planned.old planned.new) }
{
    match whom {
        Some(whom) => monitor_process(records, alloc, caller, kind, &whom, alias, planned),
        None => Ok(Reply::Refused(Refusal::BadArgument)),
    }
}

// What is kept of a watch by name, with the alias that begins with it.
fn named_guard(caller: &Pid, name: Atom, alias: Option<AliasEnd>) -> Result<Guard, AllocError>
    ensures { IfOk result (λ guard. guard_of guard ≡ named_guard caller.now name alias) }
{
    match alias {
        Some(end) => Ok(Guard::NamedAlias(name, caller.copy()?, end)),
        None => Ok(Guard::NamedWatch(name)),
    }
}

// A watch by name begins.
fn begin_named(
    alloc: Global,
    caller: &Pid,
    whom: &Pid,
    reference: &RefId,
    guard: Guard,
    lives: bool,
    planned: &mut Planned,
) -> Result<(), AllocError>
    ensures { OnOk result (PlansKept caller.now whom.now (ref_of reference.now) (guard_of guard) lives planned.old planned.new) }
{
    let watch = Change::WatchSet(reference.copy()?, whom.copy()?);
    planned.change(watch)?;
    planned.change(Change::GuardSet(reference.copy()?, guard))?;
    tell_gone(alloc, caller, whom, reference, lives, planned)?;
    Ok(())
}

// The holder of a name is watched.
fn watch_holder(
    records: &Records<'_>,
    alloc: Global,
    caller: &Pid,
    name: Atom,
    whom: &Pid,
    alias: Option<AliasEnd>,
    planned: &mut Planned,
) -> Result<RefId, AllocError>
    ensures { IfOk result (λ reference. OfWorld records.now (λ m v. PlansHolder v caller.now name whom.now alias (ref_of reference) planned.old planned.new)) }
{
    planned.read_process(ProcessPart::Alive, whom)?;
    let reference = next_reference(records, alloc, caller)?;
    let lives = lives(records, whom);
    let guard = named_guard(caller, name, alias_beside(caller, whom, alias))?;
    begin_named(alloc, caller, whom, &reference, guard, lives, planned)?;
    Ok(reference)
}

// A name that nobody has is watched: its message comes at once, from the caller.
fn watch_nobody(
    records: &Records<'_>,
    alloc: Global,
    caller: &Pid,
    name: Atom,
    alias: Option<AliasEnd>,
    planned: &mut Planned,
) -> Result<RefId, AllocError>
    ensures { IfOk result (λ reference. OfWorld records.now (λ m v. PlansNobody v caller.now name alias (ref_of reference) planned.old planned.new)) }
{
    let reference = next_reference(records, alloc, caller)?;
    let guard = named_guard(caller, name, alias)?;
    begin_named(alloc, caller, caller, &reference, guard, false, planned)?;
    Ok(reference)
}

// A name is watched.
fn watch_name(
    records: &Records<'_>,
    alloc: Global,
    caller: &Pid,
    name: Atom,
    alias: Option<AliasEnd>,
    planned: &mut Planned,
) -> Result<Reply, AllocError>
    ensures { IfOk result (λ reply. Plans caller.now (calls.MonitorName true name (Some alias)) records.now reply planned.old planned.new) }
{
    planned.read_name(NamePart::Holder, &name)?;
    let Some(whom) = holder(records, &name) else {
        let reference = watch_nobody(records, alloc, caller, name, alias, planned)?;
        return Ok(Reply::Served(Term::Ref(reference)));
    };
    let begun = watch_holder(records, alloc, caller, name, whom, alias, planned)?;
    Ok(Reply::Served(Term::Ref(begun)))
}

/// `monitor/2` and `monitor/3` of a name. `AllocError` if there is no memory.
pub(crate) fn monitor_name(
    records: &Records<'_>,
    alloc: Global,
    caller: &Pid,
    kind: MonitorType,
    name: Atom,
    alias: Option<Option<AliasEnd>>,
    planned: &mut Planned,
) -> Result<Reply, AllocError>
    ensures { IfOk result (λ reply. Plans caller.now (calls.MonitorName (is_process kind) name alias) records.now reply planned.old planned.new) }
{
    match (kind, alias) {
        (MonitorType::Process, Some(alias)) => {
            watch_name(records, alloc, caller, name, alias, planned)
        }
        _ => Ok(Reply::Refused(Refusal::BadArgument)),
    }
}

// What `demonitor/2` reads of a watch.
fn read_watch(
    reference: &RefId,
    target: Option<&Pid>,
    planned: &mut Planned,
) -> Result<(), AllocError>
    ensures { OnOk result (Adds (demonitor_reads (ref_of reference.now) (option_copied target.entry)) [] planned.old planned.new) }
{
    planned.read_reference(ReferencePart::Watch, reference)?;
    if let Some(target) = target {
        planned.read_process(ProcessPart::Alive, target)?;
    }
    Ok(())
}

// A watch of a process ends, if the caller made it.
fn end_watch_of(
    caller: &Pid,
    reference: &RefId,
    target: &Pid,
    planned: &mut Planned,
) -> Result<(), AllocError>
    ensures { OnOk result (Adds [] (watch_ends caller.now (ref_of reference.now) (Some target.now)) planned.old planned.new) }
{
    if *reference.pid() == *caller {
        planned.change(Change::WatchCleared(reference.copy()?, target.copy()?))?;
        return planned.change(Change::GuardUnwatched(reference.copy()?));
    }
    planned.touch_reference(ReferencePart::Watch, reference)?;
    planned.touch_process(ProcessPart::Watchers, target)
}

// A watch ends, if there is one.
fn end_watch(
    caller: &Pid,
    reference: &RefId,
    target: Option<&Pid>,
    planned: &mut Planned,
) -> Result<(), AllocError>
    ensures { OnOk result (Adds [] (watch_ends caller.now (ref_of reference.now) (option_copied target.entry)) planned.old planned.new) }
{
    match target {
        Some(target) => end_watch_of(caller, reference, target, planned),
        None => planned.touch_reference(ReferencePart::Watch, reference),
    }
}

// A message is taken from the mailbox of a process.
fn pick(pid: &Pid, message: &Term, planned: &mut Planned) -> Result<(), AllocError>
    ensures { OnOk result (Adds [] (changes.MessageTaken pid.now (meaning_of message.now) ∷ []) planned.old planned.new) }
{
    planned.change(Change::MessageTaken(pid.copy()?, message.copy()?))
}

// The message of a watch is taken, if it is there.
fn flush(
    records: &Records<'_>,
    caller: &Pid,
    reference: &RefId,
    planned: &mut Planned,
) -> Result<(), AllocError>
    ensures { OnOk result (OfWorld records.now (λ m v. PlansPicked caller.now (selected_of (is_of_watch (ref_of reference.now)) (mailbox_in v caller.now)) planned.old planned.new)) }
{
    planned.read_process(ProcessPart::Taken, caller)?;
    let Some(message) = down(records, caller, reference) else {
        planned.read_process(ProcessPart::Mailed, caller)?;
        return Ok(());
    };
    pick(caller, message, planned)?;
    Ok(())
}

// The message of a watch is taken, or stays.
fn flush_if(
    records: &Records<'_>,
    caller: &Pid,
    reference: &RefId,
    flushing: Flushing,
    planned: &mut Planned,
) -> Result<(), AllocError>
    ensures { OnOk result (OfWorld records.now (λ m v. PlansFlushed (flushes flushing) caller.now (selected_of (is_of_watch (ref_of reference.now)) (mailbox_in v caller.now)) planned.old planned.new)) }
{
    match flushing {
        Flushing::Flushes => flush(records, caller, reference, planned),
        Flushing::Keeps => Ok(()),
    }
}

// A watch of this reference ends, or where the options are no such the call is refused.
fn unwatch(
    records: &Records<'_>,
    caller: &Pid,
    reference: &RefId,
    flushing: Option<Flushing>,
    planned: &mut Planned,
) -> Result<Reply, AllocError>
    ensures { IfOk result (λ reply. Plans caller.now (calls.Demonitor (Some (ref_of reference.now)) (option_map flushes flushing)) records.now reply planned.old planned.new) }
{
    let target = watched(records, reference);
    read_watch(reference, target, planned)?;
    let Some(flushing) = flushing else {
        return Ok(Reply::Refused(Refusal::BadArgument));
    };
    end_watch(caller, reference, target, planned)?;
    flush_if(records, caller, reference, flushing, planned)?;
    Ok(Reply::Served(done()))
}

/// `demonitor/1` and `demonitor/2`. `AllocError` if there is no memory.
pub(crate) fn demonitor(
    records: &Records<'_>,
    caller: &Pid,
    reference: Option<RefId>,
    flushing: Option<Flushing>,
    planned: &mut Planned,
) -> Result<Reply, AllocError>
    ensures { IfOk result (λ reply. Plans caller.now (calls.Demonitor (option_map ref_of reference) (option_map flushes flushing)) records.now reply planned.old planned.new) }
{
    match reference {
        Some(reference) => unwatch(records, caller, &reference, flushing, planned),
        None => Ok(Reply::Refused(Refusal::BadArgument)),
    }
}
