// Aliases and timers (Erlang manual, `alias/1`, `unalias/1`, `start_timer/3`, `send_after/3`, `cancel_timer/1`,
// `read_timer/1`).
ghost use Rattle.std.specs.Prelude.{◌≡◌, ◌∷◌, [], ℤ, Bool, IfOk, OnOk, None, Some, if◌then◌else◌, option_copied, option_map};
ghost use Rattle.proc_calls.specs.Arguments.{is_named};
ghost use Rattle.proc_links.specs.Guards.{guard_of};
ghost use Rattle.term_core.specs.Meaning.{Meaning};
ghost use Rattle.term_core.specs.Term.{meaning_of};
ghost use Rattle.world_model.specs.Calls as calls;
ghost use Rattle.world_model.specs.Calls.{StartTimer};
ghost use Rattle.world_model.specs.Cells as cells;
ghost use Rattle.world_model.specs.Changes as changes;
ghost use Rattle.world_model.specs.Events as events;
ghost use Rattle.world_model.specs.Guards as guards;
ghost use Rattle.world_model.specs.Guards.{timer_in};
ghost use Rattle.world_model.specs.Names as names;
ghost use Rattle.world_model.specs.Names.{ref_of};
ghost use Rattle.world_model.specs.ProcessLines.{alias_goes, time_left, timer_ends, timer_message, timer_reads, told_left};
ghost use Rattle.world_model.specs.Signals.{put_if};
ghost use Rattle.world_planned.specs.inside.Planned.{Adds};
ghost use Rattle.world_planned.specs.inside.PlannedCalls.{Plans};
ghost use Rattle.world_records.specs.Records.{OfWorld};
ghost use Rattle.world_records.specs.declared.records.Records as declared;

use proc_calls::Naming;
use proc_links::Guard;
use proc_signals::Signal;
use std::alloc::{AllocError, Global};
use term_core::{Atom, Pid, RefId, Term, Terms};
use world_model::alias::AliasEnd;
use world_planned::planned::Planned;
use world_planned::readings::{guard, is_alias, lives, watch_name};
use world_planned::reply::{Refusal, Reply, truth};
use world_planned::spawning::{next_process, next_reference};
use world_records::{Change, ProcessPart, Records, ReferencePart};

/// A reference is an alias of a process. `AllocError` if there is no memory.
pub(crate) fn set_alias(
    caller: &Pid,
    reference: &RefId,
    end: AliasEnd,
    planned: &mut Planned,
) -> Result<(), AllocError>
    ensures { OnOk result (Adds [] (changes.GuardSet (ref_of reference.now) (guards.Alias caller.now end) ∷ []) planned.old planned.new) }
{
    let alias = Guard::Alias(caller.copy()?, end);
    planned.change(Change::GuardSet(reference.copy()?, alias))
}

// An alias that ends so.
fn new_alias(
    records: &Records<'_>,
    alloc: Global,
    caller: &Pid,
    end: AliasEnd,
    planned: &mut Planned,
) -> Result<Reply, AllocError>
    ensures { IfOk result (λ reply. Plans caller.now (calls.MakeAlias (Some end)) records.now reply planned.old planned.new) }
{
    let reference = next_reference(records, alloc, caller)?;
    set_alias(caller, &reference, end, planned)?;
    Ok(Reply::Served(Term::Ref(reference)))
}

/// `alias/0` and `alias/1`. `AllocError` if there is no memory.
pub(crate) fn make_alias(
    records: &Records<'_>,
    alloc: Global,
    caller: &Pid,
    end: Option<AliasEnd>,
    planned: &mut Planned,
) -> Result<Reply, AllocError>
    ensures { IfOk result (λ reply. Plans caller.now (calls.MakeAlias end) records.now reply planned.old planned.new) }
{
    match end {
        Some(end) => new_alias(records, alloc, caller, end, planned),
        None => Ok(Reply::Refused(Refusal::BadArgument)),
    }
}

// An alias ends alone: the name of its watch stays.
fn end_alone(
    reference: &RefId,
    name: Option<&Atom>,
    planned: &mut Planned,
) -> Result<(), AllocError>
    ensures { OnOk result (Adds [] (alias_goes (ref_of reference.now) (option_copied name.entry)) planned.old planned.new) }
{
    match name {
        Some(name) => {
            let watch = Guard::NamedWatch(name.copy()?);
            planned.change(Change::GuardSet(reference.copy()?, watch))
        }
        None => planned.change(Change::GuardCleared(reference.copy()?)),
    }
}

// An alias ends where it stands.
fn end_if(
    stands: bool,
    reference: &RefId,
    name: Option<&Atom>,
    planned: &mut Planned,
) -> Result<(), AllocError>
    ensures { OnOk result (Adds [] (if stands then alias_goes (ref_of reference.now) (option_copied name.entry) else []) planned.old planned.new) }
{
    if stands {
        end_alone(reference, name, planned)?;
    }
    Ok(())
}

// `unalias/1` of a reference.
fn end_alias(
    records: &Records<'_>,
    caller: &Pid,
    reference: &RefId,
    planned: &mut Planned,
) -> Result<Reply, AllocError>
    ensures { IfOk result (λ reply. Plans caller.now (calls.Unalias (Some (ref_of reference.now))) records.now reply planned.old planned.new) }
{
    planned.read_reference(ReferencePart::Guard, reference)?;
    let stands = is_alias(records, reference, caller);
    end_if(stands, reference, watch_name(records, reference), planned)?;
    Ok(Reply::Served(truth(stands)))
}

/// `unalias/1`. `AllocError` if there is no memory.
pub(crate) fn unalias(
    records: &Records<'_>,
    caller: &Pid,
    reference: Option<RefId>,
    planned: &mut Planned,
) -> Result<Reply, AllocError>
    ensures { IfOk result (λ reply. Plans caller.now (calls.Unalias (option_map ref_of reference)) records.now reply planned.old planned.new) }
{
    match reference {
        Some(reference) => end_alias(records, caller, &reference, planned),
        None => Ok(Reply::Refused(Refusal::BadArgument)),
    }
}

// The message of a timer.
fn timer_message(
    alloc: Global,
    naming: Naming,
    reference: &RefId,
    message: Term,
) -> Result<Term, AllocError>
    ensures { IfOk result (λ told. meaning_of told ≡ timer_message (is_named naming) (ref_of reference.now) (meaning_of message)) }
{
    match naming {
        Naming::Named => {
            let mut parts = Terms::new(alloc);
            parts.push(Term::atom(alloc, "timeout")?)?;
            parts.push(Term::Ref(reference.copy()?))?;
            parts.push(message)?;
            Term::tuple(alloc, parts)
        }
        Naming::Bare => Ok(message),
    }
}

// A reference is this timer.
fn set_timer(reference: &RefId, timer: Guard, planned: &mut Planned) -> Result<(), AllocError>
    ensures { OnOk result (Adds [] (changes.GuardSet (ref_of reference.now) (guard_of timer) ∷ []) planned.old planned.new) }
{
    planned.change(Change::GuardSet(reference.copy()?, timer))
}

// The message of a timer is put, if its process lives.
fn put_elapsed(
    sender: &Pid,
    to: &Pid,
    reference: &RefId,
    message: &Term,
    lives: bool,
    planned: &mut Planned,
) -> Result<(), AllocError>
    ensures { OnOk result (Adds [] (put_if lives sender.now to.now (events.Elapsed (ref_of reference.now) (meaning_of message.now))) planned.old planned.new) }
{
    if lives {
        let elapsed = Signal::Elapsed(reference.copy()?, message.copy()?);
        planned.change(Change::SignalPut(sender.copy()?, to.copy()?, elapsed))?;
    }
    Ok(())
}

// A timer for a process, with its message on the way from a sender of its own.
fn begin_timer(
    records: &Records<'_>,
    alloc: Global,
    caller: &Pid,
    naming: Naming,
    timer: Guard,
    to: &Pid,
    message: Term,
    planned: &mut Planned,
) -> Result<Reply, AllocError>
    ensures { IfOk result (λ r. (t : ℤ) → guard_of timer ≡ guards.Timer to.now t → Plans caller.now (StartTimer (is_named naming) (Some t) (Some to.now) (meaning_of message)) records.now r planned.old planned.new) }
{
    planned.read_process(ProcessPart::Alive, to)?;
    let reference = next_reference(records, alloc, caller)?;
    let sender = next_process(records, alloc, caller)?;
    let lives = lives(records, to);
    let told = timer_message(alloc, naming, &reference, message)?;
    set_timer(&reference, timer, planned)?;
    put_elapsed(&sender, to, &reference, &told, lives, planned)?;
    Ok(Reply::Served(Term::Ref(reference)))
}

// A process is named in a call that is refused.
fn refuse_timer(to: &Pid, planned: &mut Planned) -> Result<Reply, AllocError>
    ensures { IfOk result (λ r. (records : declared.Records) (caller : names.Pid) (is_named : Bool) (x : Meaning) → Plans caller (StartTimer is_named None (Some to.now) x) records r planned.old planned.new) }
{
    planned.read_process(ProcessPart::Alive, to)?;
    Ok(Reply::Refused(Refusal::BadArgument))
}

// A timer for a process.
fn start_for(
    records: &Records<'_>,
    alloc: Global,
    caller: &Pid,
    naming: Naming,
    time: Option<i64>,
    to: &Pid,
    message: Term,
    planned: &mut Planned,
) -> Result<Reply, AllocError>
    ensures { IfOk result (λ reply. Plans caller.now (StartTimer (is_named naming) time (Some to.now) (meaning_of message)) records.now reply planned.old planned.new) }
{
    let Some(time) = time else {
        return refuse_timer(to, planned);
    };
    let timer = Guard::Timer(to.copy()?, time);
    begin_timer(records, alloc, caller, naming, timer, to, message, planned)
}

/// `start_timer/3` and `send_after/3`. `AllocError` if there is no memory.
pub(crate) fn start_timer(
    records: &Records<'_>,
    alloc: Global,
    caller: &Pid,
    naming: Naming,
    time: Option<i64>,
    to: Option<Pid>,
    message: Term,
    planned: &mut Planned,
) -> Result<Reply, AllocError>
    ensures { IfOk result (λ reply. Plans caller.now (StartTimer (is_named naming) time to (meaning_of message)) records.now reply planned.old planned.new) }
{
    match to {
        Some(to) => start_for(records, alloc, caller, naming, time, &to, message, planned),
        None => Ok(Reply::Refused(Refusal::BadArgument)),
    }
}

// What a question about a timer reads.
fn read_timer_cells(
    reference: &RefId,
    guard: Option<&Guard>,
    planned: &mut Planned,
) -> Result<(), AllocError>
    ensures { OnOk result (Adds (timer_reads (ref_of reference.now) (timer_in (option_map guard_of (option_copied guard.entry)))) [] planned.old planned.new) }
{
    planned.read_reference(ReferencePart::Guard, reference)?;
    match guard {
        Some(Guard::Timer(to, _)) => planned.read_process(ProcessPart::Alive, to),
        _ => Ok(()),
    }
}

// How long a timer has to run, if it is one and its process lives.
fn time_left(records: &Records<'_>, guard: Option<&Guard>) -> Option<i64>
    ensures { OfWorld records.now (λ m v. result ≡ time_left v (timer_in (option_map guard_of (option_copied guard.entry)))) }
{
    match guard {
        Some(Guard::Timer(to, time)) => {
            if lives(records, to) {
                Some(*time)
            } else {
                None
            }
        }
        _ => None,
    }
}

// How long a timer has to run, as an answer.
fn told_left(left: Option<i64>) -> Term
    ensures { meaning_of result ≡ told_left left }
{
    match left {
        Some(time) => Term::Int(time),
        None => truth(false),
    }
}

// A timer ends, if it is one.
fn end_timer(
    reference: &RefId,
    guard: Option<&Guard>,
    planned: &mut Planned,
) -> Result<(), AllocError>
    ensures { OnOk result (Adds [] (timer_ends (ref_of reference.now) (timer_in (option_map guard_of (option_copied guard.entry)))) planned.old planned.new) }
{
    match guard {
        Some(Guard::Timer(_, _)) => planned.change(Change::GuardCleared(reference.copy()?)),
        _ => Ok(()),
    }
}

// `cancel_timer/1` of a reference.
fn cancel(
    records: &Records<'_>,
    reference: &RefId,
    planned: &mut Planned,
) -> Result<Reply, AllocError>
    ensures { IfOk result (λ reply. (caller : names.Pid) → Plans caller (calls.CancelTimer (Some (ref_of reference.now))) records.now reply planned.old planned.new) }
{
    let guard = guard(records, reference);
    read_timer_cells(reference, guard, planned)?;
    end_timer(reference, guard, planned)?;
    let left = time_left(records, guard);
    Ok(Reply::Served(told_left(left)))
}

/// `cancel_timer/1`. `AllocError` if there is no memory.
pub(crate) fn cancel_timer(
    records: &Records<'_>,
    reference: Option<RefId>,
    planned: &mut Planned,
) -> Result<Reply, AllocError>
    ensures { IfOk result (λ reply. (caller : names.Pid) → Plans caller (calls.CancelTimer (option_map ref_of reference)) records.now reply planned.old planned.new) }
{
    match reference {
        Some(reference) => cancel(records, &reference, planned),
        None => Ok(Reply::Refused(Refusal::BadArgument)),
    }
}

// `read_timer/1` of a reference.
fn ask_timer(
    records: &Records<'_>,
    reference: &RefId,
    planned: &mut Planned,
) -> Result<Reply, AllocError>
    ensures { IfOk result (λ reply. (caller : names.Pid) → Plans caller (calls.ReadTimer (Some (ref_of reference.now))) records.now reply planned.old planned.new) }
{
    let guard = guard(records, reference);
    read_timer_cells(reference, guard, planned)?;
    let left = time_left(records, guard);
    Ok(Reply::Served(told_left(left)))
}

/// `read_timer/1`. `AllocError` if there is no memory.
pub(crate) fn read_timer(
    records: &Records<'_>,
    reference: Option<RefId>,
    planned: &mut Planned,
) -> Result<Reply, AllocError>
    ensures { IfOk result (λ reply. (caller : names.Pid) → Plans caller (calls.ReadTimer (option_map ref_of reference)) records.now reply planned.old planned.new) }
{
    match reference {
        Some(reference) => ask_timer(records, &reference, planned),
        None => Ok(Reply::Refused(Refusal::BadArgument)),
    }
}
