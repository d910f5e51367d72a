// The steps from a state, and what is after them.
ghost use Rattle.std.specs.Prelude.{OnOk};
ghost use Rattle.search_numbers.specs.Knowing.{IsThere, KnowsMore};
ghost use Rattle.search_numbers.specs.Rows.{numbers_in};
ghost use Rattle.search_states.specs.inside.Keeping.{AddsDeadlockIn, AreArrivalsIn, AreRead, CanRead, PutsAlone, PutsArrival};
ghost use Rattle.tree_schedules.specs.declared.delivery.Delivery.TheVariants.{AnyTime, AtOnce};

use search_levels::{Arrival, Rows};
use search_numbers::{Look, Row, Unknown, enabled, first_at_once, goes_on};
use std::alloc::Global;
use tree_schedules::Delivery;
use world_core::push_deadlock;
use world_identities::Identity;

/// Puts the deadlock of a world after what else is shown there, where no step is enabled in it and some process lives, and
/// then what is unread there. `Unknown` where that is not told.
pub(crate) fn add_deadlock<'m, L: Look<'m>>(
    alloc: Global,
    look: &mut L,
    row: &[u32],
    shown: &mut Vec<Identity>,
) -> Result<(), Unknown>
    requires { CanRead (L.seen look.old) (numbers_in row.now) }
    ensures adds { OnOk result (AddsDeadlockIn (L.seen look.new) (numbers_in row.now) shown.old.items shown.new.items) }
    ensures knows { KnowsMore (L.seen look.old) (L.seen look.new) }
{
    if goes_on(alloc, look, row)? {
        return Ok(());
    }
    let records = look.known().records_of(row)?;
    push_deadlock(&records, alloc, shown)?;
    Ok(())
}

// Puts the deadlock of the world after a step after what else is shown there, and then what is unread, where these steps were
// enabled before. Most often one of them still is, which tells that there is none. `Unknown` where that is not told.
fn add_deadlock_after<'m, L: Look<'m>>(
    alloc: Global,
    look: &mut L,
    row: &[u32],
    enabled: &[usize],
    shown: &mut Vec<Identity>,
) -> Result<(), Unknown>
    requires { CanRead (L.seen look.old) (numbers_in row.now) }
    ensures adds { OnOk result (AddsDeadlockIn (L.seen look.new) (numbers_in row.now) shown.old.items shown.new.items) }
    ensures knows { KnowsMore (L.seen look.old) (L.seen look.new) }
{
    if look.known().is_one_enabled(enabled, row) {
        return Ok(());
    }
    add_deadlock(alloc, look, row, shown)
}

// Puts what is after a step that is remembered as one that is enabled in a world, as these are. The row of the world after
// it is made in the place of another one. `Unknown` where that is not told.
fn put_arrival<'m, L: Look<'m>>(
    alloc: Global,
    look: &mut L,
    row: &[u32],
    digest: u64,
    at: usize,
    enabled: &[usize],
    after: &mut Row,
    into: &mut Rows<Arrival>,
) -> Result<(), Unknown>
    requires world { CanRead (L.seen look.old) (numbers_in row.now) }
    requires there { IsThere (L.seen look.old) (numbers_in row.now) at }
    ensures puts { OnOk result (PutsArrival (L.seen look.old) (L.seen look.new) (numbers_in row.now) at into.old into.new) }
    ensures knows { KnowsMore (L.seen look.old) (L.seen look.new) }
{
    let mut to = look.known().take(alloc, row, digest, at, after)?;
    add_deadlock_after(alloc, look, after.numbers(), enabled, &mut to.shown)?;
    into.push(to, after.numbers(), after.digest())?;
    Ok(())
}

// Puts what is after all steps that are enabled in a world, in their order. `Unknown` where that is not told.
fn all_arrivals<'m, L: Look<'m>>(
    alloc: Global,
    look: &mut L,
    row: &[u32],
    digest: u64,
    into: &mut Rows<Arrival>,
) -> Result<(), Unknown>
    requires { CanRead (L.seen look.old) (numbers_in row.now) }
    ensures arrivals { OnOk result (AreArrivalsIn AnyTime (L.seen look.new) (numbers_in row.now) into.new) }
    ensures of_known { OnOk result (AreRead (L.seen look.new) into.new) }
    ensures knows { KnowsMore (L.seen look.old) (L.seen look.new) }
{
    let enabled = enabled(alloc, look, row)?;
    let mut after = Row::new(alloc);
    into.clear();
    for at in enabled.as_slice() {
        put_arrival(
            alloc,
            look,
            row,
            digest,
            *at,
            enabled.as_slice(),
            &mut after,
            into,
        )?;
    }
    Ok(())
}

// Puts what is after a delivery alone. `Unknown` where that is not told.
fn arrival_alone<'m, L: Look<'m>>(
    alloc: Global,
    look: &mut L,
    row: &[u32],
    digest: u64,
    at: usize,
    into: &mut Rows<Arrival>,
) -> Result<(), Unknown>
    requires world { CanRead (L.seen look.old) (numbers_in row.now) }
    requires there { IsThere (L.seen look.old) (numbers_in row.now) at }
    ensures puts { OnOk result (PutsAlone (L.seen look.old) (L.seen look.new) (numbers_in row.now) at into.new) }
    ensures knows { KnowsMore (L.seen look.old) (L.seen look.new) }
{
    into.clear();
    put_arrival(
        alloc,
        look,
        row,
        digest,
        at,
        &[],
        &mut Row::new(alloc),
        into,
    )
}

// Puts what is after the steps that may be taken where signals are delivered at once: after the first enabled delivery alone of
// one that arrives at once, or where there is none after all steps. `Unknown` where that is not told.
fn prompt_arrivals<'m, L: Look<'m>>(
    alloc: Global,
    look: &mut L,
    row: &[u32],
    digest: u64,
    into: &mut Rows<Arrival>,
) -> Result<(), Unknown>
    requires { CanRead (L.seen look.old) (numbers_in row.now) }
    ensures arrivals { OnOk result (AreArrivalsIn AtOnce (L.seen look.new) (numbers_in row.now) into.new) }
    ensures of_known { OnOk result (AreRead (L.seen look.new) into.new) }
    ensures knows { KnowsMore (L.seen look.old) (L.seen look.new) }
{
    match first_at_once(alloc, look, row)? {
        Some(at) => arrival_alone(alloc, look, row, digest, at, into),
        None => all_arrivals(alloc, look, row, digest, into),
    }
}

/// Puts the steps that may be taken in a world where signals are delivered so, in their order, each with what is shown
/// after it and with the world there, in the place of what was there. `Unknown` where that is not told.
pub(crate) fn arrivals_from<'m, L: Look<'m>>(
    alloc: Global,
    look: &mut L,
    delivery: Delivery,
    row: &[u32],
    digest: u64,
    into: &mut Rows<Arrival>,
) -> Result<(), Unknown>
    requires { CanRead (L.seen look.old) (numbers_in row.now) }
    ensures arrivals { OnOk result (AreArrivalsIn delivery (L.seen look.new) (numbers_in row.now) into.new) }
    ensures of_known { OnOk result (AreRead (L.seen look.new) into.new) }
    ensures knows { KnowsMore (L.seen look.old) (L.seen look.new) }
{
    match delivery {
        Delivery::AnyTime => all_arrivals(alloc, look, row, digest, into),
        Delivery::AtOnce => prompt_arrivals(alloc, look, row, digest, into),
    }
}
