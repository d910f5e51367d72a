// When two steps are independent (Godefroid, "Partial-Order Methods for the Verification of Concurrent Systems", sleep
// sets).
ghost use Rattle.std.specs.Prelude.{◌≡◌, ◌&&◌, IfOk, is_some};
ghost use Rattle.std.specs.List.{filter};
ghost use Rattle.world_plans.specs.Independence.{are_independent, asleep_below};
ghost use Rattle.world_planned.specs.Replies.{NamesMeanTables};
ghost use Rattle.world_footprints.specs.Footprints.{IsPlan, footprint_in};
ghost use Rattle.world_model.specs.Asking.{program_of};
ghost use Rattle.world_model.specs.Cells.{Contents};
ghost use Rattle.world_model.specs.Independence.{are_apart};
ghost use Rattle.world_model.specs.Requests.{Program};
ghost use Rattle.world_records.specs.Records.{OfWorld};

use crate::step::plan_step;
use std::alloc::{AllocError, Global};
use term_core::Step;
use world_footprints::comparing::{both_write, meets};
use world_footprints::plan::Plan;
use world_records::Records;

// Whether two steps are enabled where their plans were made.
fn both_enabled(one: &Plan, other: &Plan) -> bool
    ensures { result ≡ (is_some one.now.deed && is_some other.now.deed) }
{
    one.deed.is_some() && other.deed.is_some()
}

// Whether neither of two steps writes a cell that meets one that the other reads or writes.
fn are_apart(one: &Plan, other: &Plan) -> bool
    ensures { result ≡ are_apart (footprint_in one.now) (footprint_in other.now) }
{
    !meets(one, other) && !meets(other, one) && !both_write(one, other)
}

/// Whether two steps are independent where their plans were made: both are enabled, and neither writes a cell that meets
/// one that the other reads or writes. It takes no memory.
pub fn are_independent(one: &Plan, other: &Plan) -> bool
    ensures { (a : Program) (v : Contents) → IsPlan a v one.now → IsPlan a v other.now → result ≡ are_independent a v one.now.step other.now.step }
{
    both_enabled(one, other) && are_apart(one, other)
}

// Whether a step is independent of one that is planned.
fn is_independent_of(
    records: &Records<'_>,
    alloc: Global,
    one: &Plan,
    other: &Step,
) -> Result<bool, AllocError>
    ensures { IfOk result (λ is_so. OfWorld records.now (λ m v. NamesMeanTables v → IsPlan (program_of m) v one.now → is_so ≡ are_independent (program_of m) v one.now.step other.now)) }
{
    match plan_step(records, alloc, other.copy()?)? {
        Some(other) => Ok(are_independent(one, &other)),
        None => Ok(false),
    }
}

// Of these steps, those that are independent of one that is planned, in their order.
fn independent_of(
    records: &Records<'_>,
    alloc: Global,
    slept: &[Step],
    one: &Plan,
) -> Result<Vec<Step>, AllocError>
    ensures { IfOk result (λ asleep. OfWorld records.now (λ m v. NamesMeanTables v → IsPlan (program_of m) v one.now → asleep.items ≡ asleep_below (program_of m) v slept.now one.now.step)) }
{
    let mut asleep = Vec::new(alloc);
    for other in slept {
        if is_independent_of(records, alloc, one, other)? {
            asleep.push(other.copy()?)?;
        }
    }
    Ok(asleep)
}

/// Of the steps that sleep, those that stay asleep below a step: those that are independent of it, in their order. Each
/// step is planned once, and none where nothing sleeps. `AllocError` if there is no memory for the plans, for the steps,
/// or for the search of a mailbox.
pub fn asleep_below(
    records: &Records<'_>,
    alloc: Global,
    slept: &[Step],
    step: &Step,
) -> Result<Vec<Step>, AllocError>
    ensures { IfOk result (λ asleep. OfWorld records.now (λ m v. NamesMeanTables v → asleep.items ≡ asleep_below (program_of m) v slept.now step.now)) }
{
    if slept.is_empty() {
        return Ok(Vec::new(alloc));
    }
    match plan_step(records, alloc, step.copy()?)? {
        Some(one) => independent_of(records, alloc, slept, &one),
        None => Ok(Vec::new(alloc)),
    }
}
