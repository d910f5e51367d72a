// What a world shows: what its last event is, and whether no step is enabled.
ghost use Rattle.std.specs.Prelude.{◌≡◌, ◌+◌, ◌++◌, [], None, IfOk, OnOk, filter, map, option_copied, option_map};
ghost use Rattle.core_tree.specs.Syntax.{ModuleTree};
ghost use Rattle.world_identities.specs.Identities.{identity_in};
ghost use Rattle.proc_links.specs.Effects.{fate_in};
ghost use Rattle.proc_machines.specs.Processes.{turns_in};
ghost use Rattle.std.specs.List.Sorted.{IsStrictlySortedBy};
ghost use Rattle.term_core.specs.Order.{order_of_lists};
ghost use Rattle.term_core.specs.Term.{meaning_of};
ghost use Rattle.term_core.specs.declared.step.Step.TheVariants.{Turn, Deliver};
ghost use Rattle.world_planned.specs.Replies.{refusal_in};
ghost use Rattle.world_footprints.specs.Footprints.{IsPlan};
ghost use Rattle.world_core.specs.Planned.{WillShow};
ghost use Rattle.world_core.specs.inside.Showing.{AreShownBy, has_unread, told_by, last_shown, next_request};
ghost use Rattle.world_model.specs.Asking.{program_of};
ghost use Rattle.world_model.specs.Events.{History};
ghost use Rattle.world_model.specs.Run.{next_event};
ghost use Rattle.world_model.specs.Shown.{deadlock_of, shown_at_rest, shown_by, shown_by_fate, shown_by_refusal, unless_normal, unread_by, unread_of};
ghost use Rattle.world_model.specs.World.{contents};
ghost use Rattle.world_records.specs.Records.{Agrees, processes_of};
ghost use Rattle.world_footprints.specs.Deeds.{deed_in, event_in};

use core_tree::CallKind;
use proc_links::Effect;
use proc_mailboxes::Mailboxes;
use std::alloc::{AllocError, Global};
use std::collections::BTreeSet;
use std::sync::Arc;
use term_core::{Pid, Step, Term, Terms};
use world_identities::{Identity, has_first};
use world_plans::{Deed, Event, Plan, Refusal, copy_owner};
use world_records::Records;

// The end of a process, unless its reason is `normal`.
fn end_of(pid: &Pid, reason: &Term) -> Result<Option<Identity>, AllocError>
    ensures { IfOk result (λ shown. told_by shown ≡ unless_normal pid.now (meaning_of reason.now)) }
{
    if reason.is_the_atom("normal") {
        return Ok(None);
    }
    Ok(Some(Identity::End {
        pid: pid.copy()?,
        reason: reason.copy()?,
    }))
}

// A call that was refused, if it is one of tables, in the request of this number.
fn refused(
    pid: &Pid,
    request: u64,
    kind: CallKind,
    arguments: &Arc<Terms>,
    refusal: &Refusal,
) -> Result<Option<Identity>, AllocError>
    ensures { IfOk result (λ shown. told_by shown ≡ shown_by_refusal pid.now request kind arguments.now.value (refusal_in refusal.now)) }
{
    match refusal {
        Refusal::ByRule(rule, owner) => Ok(Some(Identity::Refusal {
            pid: pid.copy()?,
            request,
            kind,
            arguments: Arc::try_clone(arguments)?,
            rule: *rule,
            owner: copy_owner(owner)?,
        })),
        Refusal::BadArgument | Refusal::NoProcess => Ok(None),
    }
}

// What a turn shows, in the request of this number.
fn by_turn(pid: &Pid, request: u64, deed: &Deed) -> Result<Option<Identity>, AllocError>
    ensures { IfOk result (λ shown. told_by shown ≡ shown_by (Turn pid.now) request (deed_in deed.now)) }
{
    match deed {
        Deed::Refused {
            kind,
            arguments,
            refusal,
        } => Ok(refused(pid, request, *kind, arguments, refusal)?),
        Deed::EndedItself {
            kind: _,
            arguments: _,
            reason,
        } => Ok(end_of(pid, reason)?),
        Deed::Ended(reason) => Ok(end_of(pid, reason)?),
        Deed::RanAway => Ok(Some(Identity::Runaway(pid.copy()?))),
        _ => Ok(None),
    }
}

// What a delivered signal shows by its effect.
fn by_effect(to: &Pid, effect: &Effect) -> Result<Option<Identity>, AllocError>
    ensures { IfOk result (λ shown. told_by shown ≡ shown_by_fate to.now (fate_in effect.now)) }
{
    match effect {
        Effect::Ends(reason) => Ok(end_of(to, reason)?),
        Effect::Ignored | Effect::Dropped | Effect::Put(_) => Ok(None),
    }
}

// What a delivery shows.
fn by_delivery(from: &Pid, to: &Pid, deed: &Deed) -> Result<Option<Identity>, AllocError>
    ensures { IfOk result (λ shown. told_by shown ≡ shown_by (Deliver from.now to.now) 0 (deed_in deed.now)) }
{
    match deed {
        Deed::Delivered(_, effect) => Ok(by_effect(to, effect)?),
        _ => Ok(None),
    }
}

// What the last event shows, if there is one.
fn by_last_event(
    records: &Records<'_>,
    event: Option<&Event>,
) -> Result<Option<Identity>, AllocError>
    ensures { IfOk result (λ shown. told_by shown ≡ last_shown (turns_in (processes_of records.now)) (option_copied event.entry)) }
{
    let Some(event) = event else {
        return Ok(None);
    };
    match &event.step {
        Step::Turn(pid) => Ok(by_turn(pid, records.processes().turns(pid), &event.deed)?),
        Step::Deliver(from, to) => Ok(by_delivery(from, to, &event.deed)?),
    }
}

// The number of the request that the next turn of a process serves.
fn next_request(records: &Records<'_>, pid: &Pid) -> Result<u64, AllocError>
    ensures { IfOk result (λ request. request ≡ turns_in (processes_of records.now) pid.now + 1) }
{
    match records.processes().turns(pid).checked_add(1) {
        Some(request) => Ok(request),
        // No process takes more turns than a number counts.
        None => Err(AllocError),
    }
}

// What a step shows next that does this.
fn by_plan(records: &Records<'_>, step: &Step, deed: &Deed) -> Result<Option<Identity>, AllocError>
    ensures { IfOk result (λ shown. told_by shown ≡ shown_by step.now (next_request (turns_in (processes_of records.now)) step.now) (deed_in deed.now)) }
{
    match step {
        Step::Turn(pid) => Ok(by_turn(pid, next_request(records, pid)?, deed)?),
        Step::Deliver(from, to) => Ok(by_delivery(from, to, deed)?),
    }
}

/// What the event of a planned step will show, before the step is taken, where the records are those that it is planned
/// for: the end of a process with another reason than `normal`, a process that made too many applications without a
/// request, or a refused call of a table, if it is one of these; nothing where the step is not enabled. Of a deadlock
/// after it nothing is said. `AllocError` if there is no memory for it.
pub fn shown_by_plan(
    records: &Records<'_>,
    alloc: Global,
    plan: &Plan,
) -> Result<Vec<Identity>, AllocError>
    ensures shown { IfOk result (λ found. WillShow records.now plan.now (map identity_in found.items)) }
    ensures none { IfOk result (λ found. (m : ModuleTree) (h : History) → IsPlan (program_of m) (contents h) plan.now → next_event (program_of m) h plan.now.step ≡ None → map identity_in found.items ≡ []) }
{
    let mut found = Vec::new(alloc);
    let Some(deed) = &plan.deed else {
        return Ok(found);
    };
    push_if_any(&mut found, by_plan(records, &plan.step, deed)?)?;
    Ok(found)
}

// All processes of a set, in their order.
fn listed(alloc: Global, pids: &BTreeSet<Pid>) -> Result<Vec<Pid>, AllocError>
    ensures listed { IfOk result (λ listed. listed.items ≡ pids.now.keys) }
    ensures in_order { IfOk result (λ _. IsStrictlySortedBy order_of_lists pids.now.keys) }
{
    let mut listed = Vec::new(alloc);
    for pid in pids.iter() {
        listed.push(pid.copy()?)?;
    }
    Ok(listed)
}

// The deadlock of these processes, where there are any.
fn deadlock(pids: Vec<Pid>) -> Option<Identity>
    ensures { told_by result ≡ deadlock_of pids.items }
{
    if pids.is_empty() {
        return None;
    }
    Some(Identity::Deadlock(pids))
}

// Whether a process has messages in its mailbox.
fn has_messages(mailboxes: &Mailboxes, pid: &Pid) -> bool
    ensures { result ≡ has_unread mailboxes.now pid.now }
{
    match mailboxes.of(pid) {
        Some(mailbox) => mailbox.get(0).is_some(),
        None => false,
    }
}

// Those of these processes that have messages in their mailboxes, in their order.
fn with_messages(alloc: Global, mailboxes: &Mailboxes, pids: &[Pid]) -> Result<Vec<Pid>, AllocError>
    ensures { IfOk result (λ unread. unread.items ≡ filter (has_unread mailboxes.now) pids.now) }
{
    let mut unread = Vec::new(alloc);
    for pid in pids {
        if has_messages(mailboxes, pid) {
            unread.push(pid.copy()?)?;
        }
    }
    Ok(unread)
}

// That these processes have messages which they do not take, where there are any.
fn unread_by(pids: Vec<Pid>) -> Option<Identity>
    ensures { told_by result ≡ unread_by pids.items }
{
    if pids.is_empty() {
        return None;
    }
    Some(Identity::Unread(pids))
}

// What processes leave unread where just these live: nothing where the first process is among them.
fn unread(
    alloc: Global,
    mailboxes: &Mailboxes,
    pids: &[Pid],
) -> Result<Option<Identity>, AllocError>
    ensures { IfOk result (λ left. told_by left ≡ unread_of pids.now (filter (has_unread mailboxes.now) pids.now)) }
{
    if has_first(pids) {
        return Ok(None);
    }
    Ok(unread_by(with_messages(alloc, mailboxes, pids)?))
}

// Puts an identity after others, if there is one.
fn push_if_any(shown: &mut Vec<Identity>, identity: Option<Identity>) -> Result<(), AllocError>
    ensures { OnOk result (map identity_in shown.new.items ≡ map identity_in shown.old.items ++ told_by identity) }
{
    if let Some(identity) = identity {
        shown.push(identity)?;
    }
    Ok(())
}

/// What a world with these records, this last event and these enabled steps shows: the end of a process with another
/// reason than `normal`, a process that made too many applications without a request, or a refused call of a table,
/// whichever the last event is; and then, where no step is enabled, the deadlock of those that live, and what they leave
/// unread, where the first process is not among them. `AllocError` if there is no memory for it.
pub(crate) fn shown_by_world(
    records: &Records<'_>,
    alloc: Global,
    event: Option<&Event>,
    enabled: &[Step],
) -> Result<Vec<Identity>, AllocError>
    ensures { IfOk result (λ found. AreShownBy records.now (option_map (λ event. event_in event.now) event.entry) enabled.now (map identity_in found.items)) }
{
    let mut shown = Vec::new(alloc);
    push_if_any(&mut shown, by_last_event(records, event)?)?;
    if !enabled.is_empty() {
        return Ok(shown);
    }
    push_deadlock(records, alloc, &mut shown)?;
    Ok(shown)
}

/// Puts the deadlock of all processes that live after other identities, where any lives, and then what they leave unread,
/// where the first process is not among them: the caller knows of the records that no step is enabled. `AllocError` if
/// there is no memory for it.
pub fn push_deadlock(
    records: &Records<'_>,
    alloc: Global,
    shown: &mut Vec<Identity>,
) -> Result<(), AllocError>
    ensures { OnOk result ((m : ModuleTree) (h : History) → Agrees m records.now (contents h) → map identity_in shown.new.items ≡ map identity_in shown.old.items ++ shown_at_rest [] h) }
{
    let pids = listed(alloc, records.processes().living())?;
    let left = unread(alloc, records.mailboxes(), pids.as_slice())?;
    push_if_any(shown, deadlock(pids))?;
    push_if_any(shown, left)?;
    Ok(())
}
