// A step is done as it was planned.
ghost use Rattle.std.specs.Prelude.{◌≡◌, Some, IfOk, OnOk, option_map};
ghost use Rattle.world_footprints.specs.Deeds.{deed_in};
ghost use Rattle.world_footprints.specs.Plans.{IsNewFor, first_changes, first_of_turn, left};
ghost use Rattle.world_planned.specs.Replies.{refusal_in};
ghost use Rattle.world_footprints.specs.Footprints.{IsPlan};
ghost use Rattle.term_core.specs.Term.{meaning_of};
ghost use Rattle.world_model.specs.Asking.{program_of};
ghost use Rattle.world_model.specs.Changes.{after};
ghost use Rattle.world_model.specs.Steps.{next_deed, raised_by};
ghost use Rattle.world_model.specs.Terms.{atom};
ghost use Rattle.world_records.specs.Changes.{CanApply, all_changes_in};
ghost use Rattle.world_records.specs.Records.{Agrees, Follows, OfWorld};

use core_eval::Answer;
use std::alloc::{AllocError, Global};
use term_core::{Pid, Step, Term, Word};
use world_footprints::deed::Deed;
use world_footprints::plan::Plan;
use world_planned::reply::Refusal;
use world_records::{Change, Records};

// The reason of the error that a refused call raises (erlang manual).
fn raised(alloc: Global, refusal: &Refusal) -> Result<Term, AllocError>
    ensures { IfOk result (λ reason. meaning_of reason ≡ atom (raised_by (refusal_in refusal.now))) }
{
    match refusal {
        Refusal::NoProcess => Term::atom(alloc, "noproc"),
        Refusal::BadArgument | Refusal::ByRule(_, _) => Ok(Term::word(Word::BadArgument)),
    }
}

// A turn counts, with what its process is answered, or is its last one.
fn count_turn(
    records: &mut Records<'_>,
    alloc: Global,
    pid: &Pid,
    deed: &Deed,
) -> Result<(), AllocError>
    ensures { OnOk result (Follows (λ v. first_of_turn pid.now (deed_in deed.now)) records.old records.new) }
{
    match deed {
        Deed::Served {
            kind: _,
            arguments: _,
            answer,
        } => records.turn(alloc, pid, Answer::Value(answer.copy()?)),
        Deed::Refused {
            kind: _,
            arguments: _,
            refusal,
        } => {
            let reason = raised(alloc, refusal)?;
            records.turn(alloc, pid, Answer::Raise(reason))
        }
        Deed::Received(message) => records.turn(alloc, pid, Answer::Message(message.copy()?)),
        Deed::TimedOut => records.turn(alloc, pid, Answer::TimedOut),
        Deed::EndedItself {
            kind: _,
            arguments: _,
            reason: _,
        } => records.end_turn(alloc, pid),
        Deed::Ended(_) => records.end_turn(alloc, pid),
        Deed::RanAway => records.end_turn(alloc, pid),
        Deed::Delivered(_, _) => Ok(()),
    }
}

// What comes first: a turn counts, or a signal leaves its channel.
fn begin(
    records: &mut Records<'_>,
    alloc: Global,
    step: &Step,
    deed: &Deed,
) -> Result<(), AllocError>
    ensures { OnOk result (OfWorld records.old (λ m v. next_deed (program_of m) v step.now ≡ Some (deed_in deed.now) → Agrees m records.new (after (first_changes step.now (deed_in deed.now)) v))) }
{
    match step {
        Step::Turn(pid) => count_turn(records, alloc, pid, deed),
        Step::Deliver(from, to) => {
            let _fetched = records.fetch(from, to)?;
            Ok(())
        }
    }
}

// Changes are applied, one after the other.
fn apply_all(records: &mut Records<'_>, alloc: Global, changes: &[Change]) -> Result<(), AllocError>
    ensures { OnOk result (OfWorld records.old (λ m v. CanApply v (all_changes_in changes.now) → Agrees m records.new (after (all_changes_in changes.now) v))) }
{
    for change in changes {
        records.apply(alloc, change)?;
    }
    Ok(())
}

/// Does what is planned of a step; nothing where the step is not enabled. `AllocError` if there is no memory, and then the
/// records may be changed in part.
pub fn perform(records: &mut Records<'_>, alloc: Global, plan: &Plan) -> Result<(), AllocError>
    ensures { OnOk result (OfWorld records.old (λ m v. IsPlan (program_of m) v plan.now → IsNewFor v plan.now.step → Agrees m records.new (left v plan.now.step (option_map deed_in plan.now.deed)))) }
{
    let Some(deed) = &plan.deed else {
        return Ok(());
    };
    begin(records, alloc, &plan.step, deed)?;
    apply_all(records, alloc, plan.planned.changes.as_slice())
}
