// The enabled steps of a world.
ghost use Rattle.std.specs.Prelude.{IfOk};
ghost use Rattle.search_numbers.specs.Knowing.{AreEnabled, AreRight, GoesOn, IsFirstAtOnce, KnowsMore};
ghost use Rattle.search_numbers.specs.Rows.{numbers_in};
ghost use Rattle.search_numbers.specs.Stored.{IsWorldOf};

use crate::look::{Look, Unknown};
use std::alloc::Global;

/// The places of what is remembered of the enabled steps of a world, in the order of steps. `Unknown` where one is not told.
pub fn enabled<'m, L: Look<'m>>(
    alloc: Global,
    look: &mut L,
    row: &[u32],
) -> Result<Vec<usize>, Unknown>
    requires world { IsWorldOf (L.seen look.old).store (numbers_in row.now) }
    requires right { AreRight (L.seen look.old) }
    ensures enabled { IfOk result (λ places. AreEnabled (L.seen look.new) (numbers_in row.now) places.items) }
    ensures knows { KnowsMore (L.seen look.old) (L.seen look.new) }
{
    let asked = look.known().store.asked(alloc, row)?;
    let mut enabled = Vec::with_capacity(alloc, asked.len())?;
    for column in asked.as_slice() {
        let at = look.look_up(alloc, row, *column)?;
        if look.known().is_enabled_at(at) {
            enabled.push(at)?;
        }
    }
    Ok(enabled)
}

/// The place of what is remembered of the first enabled delivery in a world of a signal that arrives at once, if there is one.
/// `Unknown` where that is not told.
pub fn first_at_once<'m, L: Look<'m>>(
    alloc: Global,
    look: &mut L,
    row: &[u32],
) -> Result<Option<usize>, Unknown>
    requires world { IsWorldOf (L.seen look.old).store (numbers_in row.now) }
    requires right { AreRight (L.seen look.old) }
    ensures first { IfOk result (λ place. IsFirstAtOnce (L.seen look.new) (numbers_in row.now) place) }
    ensures knows { KnowsMore (L.seen look.old) (L.seen look.new) }
{
    let asked = look.known().store.asked(alloc, row)?;
    for column in asked.as_slice() {
        if look.known().store.is_at_once(row, *column) {
            let at = look.look_up(alloc, row, *column)?;
            if look.known().is_enabled_at(at) {
                return Ok(Some(at));
            }
        }
    }
    Ok(None)
}

/// Whether a step is enabled in a world. `Unknown` where that is not told.
pub fn goes_on<'m, L: Look<'m>>(alloc: Global, look: &mut L, row: &[u32]) -> Result<bool, Unknown>
    requires world { IsWorldOf (L.seen look.old).store (numbers_in row.now) }
    requires right { AreRight (L.seen look.old) }
    ensures goes_on { IfOk result (λ goes_on. GoesOn (L.seen look.new) (numbers_in row.now) goes_on) }
    ensures knows { KnowsMore (L.seen look.old) (L.seen look.new) }
{
    let asked = look.known().store.asked(alloc, row)?;
    for column in asked.as_slice() {
        let at = look.look_up(alloc, row, *column)?;
        if look.known().is_enabled_at(at) {
            return Ok(true);
        }
    }
    Ok(false)
}
