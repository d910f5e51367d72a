// The level after another one.
ghost use Rattle.std.specs.Prelude.{◌≡◌, ◌≤◌, ◌<◌, [], IfOk, OnOk, length, slice_range};
ghost use Rattle.search_levels.specs.Arrivals.{of_module};
ghost use Rattle.search_levels.specs.Known.{FromNowOn, Grows};
ghost use Rattle.search_levels.specs.inside.Expanding.{Expands, NotesArrivals, NotesLevel};
ghost use Rattle.search_levels.specs.inside.Following.{AreFollowed, AreKnownArrivals, GoesBy, IsReady, TakesRows, place_after, taken_by};
ghost use Rattle.search_levels.specs.inside.Levels.{AreOf};
ghost use Rattle.search_levels.specs.inside.Searching.{GoesOn};
ghost use Rattle.search_levels.specs.inside.Visits.{entry_of};
ghost use Rattle.world_identities.specs.Identities.{flags_in};

use crate::arrival::Arrival;
use crate::expanding::{arrive_at_all, expand};
use crate::following::{Followed, follow_all};
use crate::indexed::Indexed;
use crate::observer::LevelObserver;
use crate::path::Path;
use crate::rows::{Rows, Seen};
use crate::share::{Share, shares};
use crate::worlds::Worlds;
use std::alloc::Global;
use std::thread::Threads;
use tree_findings::{Cause, Findings};
use tree_schedules::Delivery;
use world_identities::Flags;

// Levels of fewer states are not shared out: to start the threads would take longer than they save.
const MANY: usize = 4096;

// Takes the steps from a state: those that were followed, from this place on up to the end, or all, where it was not known
// what follows it. The place after them. `NodeLimit` where a state is new and none may be found any more, `Memory` where there
// is no memory for it.
fn merge_one<W: Worlds>(
    alloc: Global,
    worlds: &mut W,
    flags: Flags,
    delivery: Delivery,
    from: Seen<'_, Path>,
    followed: &Rows<Arrival>,
    at: usize,
    end: Option<usize>,
    arrivals: &mut Rows<Arrival>,
    next: &mut Indexed<Path>,
    left: &mut u64,
    findings: &mut Findings,
) -> Result<usize, Cause>
    requires read { W.is_of worlds.old from.row.now }
    requires ready { IsReady (AreKnownArrivals W.agrees W.is_of W.follows worlds.old delivery) (entry_of from) followed.now at end next.old.rows }
    ensures place { IfOk result (λ now. now ≡ place_after at end) }
    ensures expands { OnOk result (FromNowOn W.follows worlds.new (λ k m. Expands delivery (of_module (W.agrees k) m) (flags_in flags) (entry_of from.entry) next.old.rows next.new.rows findings.old findings.new)) }
    ensures notes { FromNowOn W.follows worlds.new (λ k m. NotesArrivals delivery (of_module (W.agrees k) m) (flags_in flags) (entry_of from.entry) findings.old findings.new) }
    ensures of_known { OnOk result (AreOf (W.is_of worlds.old) next.old.rows → AreOf (W.is_of worlds.new) next.new.rows) }
    ensures rows { OnOk result (TakesRows next.old.rows (taken_by followed.now at end) next.new.rows) }
    ensures grows { Grows W.is_of W.follows worlds.old worlds.new }
    ensures fewer { left.new ≤ left.old }
{
    let Some(end) = end else {
        expand(
            alloc, worlds, flags, delivery, from, arrivals, next, left, findings,
        )?;
        return Ok(at);
    };
    arrive_at_all::<W>(
        alloc, flags, from.of, followed, at, end, next, left, findings,
    )?;
    Ok(end)
}

// Takes the steps from a share of the states of a level that were followed. `NodeLimit` where a state is new and none may
// be found any more, `Memory` where there is no memory for it.
fn merge<W: Worlds, O: LevelObserver>(
    alloc: Global,
    worlds: &mut W,
    flags: Flags,
    delivery: Delivery,
    level: &Indexed<Path>,
    share: Share,
    followed: &Followed,
    next: &mut Indexed<Path>,
    left: &mut u64,
    findings: &mut Findings,
    observer: &O,
) -> Result<(), Cause>
    requires read { AreOf (W.is_of worlds.old) level.now.rows }
    requires forward { share.first ≤ share.last }
    requires within { share.last ≤ length level.now.rows }
    requires followed { AreFollowed (AreKnownArrivals W.agrees W.is_of W.follows worlds.old delivery) [] followed.now.arrivals 0 (slice_range level.now.rows share.first share.last) followed.now.ends.items }
    ensures goes_on { OnOk result (FromNowOn W.follows worlds.new (λ k m. GoesBy delivery (of_module (W.agrees k) m) (flags_in flags) level.now.rows share next.old.rows next.new.rows findings.old findings.new)) }
    ensures notes { FromNowOn W.follows worlds.new (λ k m. NotesLevel delivery (of_module (W.agrees k) m) (flags_in flags) level.now.rows findings.old findings.new) }
    ensures of_known { OnOk result (AreOf (W.is_of worlds.old) next.old.rows → AreOf (W.is_of worlds.new) next.new.rows) }
    ensures grows { Grows W.is_of W.follows worlds.old worlds.new }
    ensures fewer { left.new ≤ left.old }
{
    let mut arrivals = Rows::new(alloc);
    let mut at = 0;
    for place in share.first..share.last {
        observer.visited();
        at = merge_one(
            alloc,
            worlds,
            flags,
            delivery,
            level.rows.at(place),
            &followed.arrivals,
            at,
            followed.ends[place - share.first],
            &mut arrivals,
            next,
            left,
            findings,
        )?;
    }
    Ok(())
}

// The level after another one, of which so many states are followed by each of several threads at once, as far as it is
// known what follows them. `NodeLimit` where more states would be found than may be, `Memory` where there is no memory for it.
fn next_by_shares<W: Worlds + Sync, T: Threads + Sync, O: LevelObserver>(
    rt: &T,
    alloc: Global,
    size: usize,
    worlds: &mut W,
    flags: Flags,
    delivery: Delivery,
    level: &Indexed<Path>,
    left: &mut u64,
    findings: &mut Findings,
    observer: &O,
) -> Result<Indexed<Path>, Cause>
    requires size { 0 < size }
    requires read { AreOf (W.is_of worlds.old) level.now.rows }
    ensures goes_on { IfOk result (λ next. FromNowOn W.follows worlds.new (λ k m. GoesOn delivery (of_module (W.agrees k) m) (flags_in flags) level.now.rows next.rows findings.old findings.new)) }
    ensures notes { FromNowOn W.follows worlds.new (λ k m. NotesLevel delivery (of_module (W.agrees k) m) (flags_in flags) level.now.rows findings.old findings.new) }
    ensures of_known { IfOk result (λ next. AreOf (W.is_of worlds.new) next.rows) }
    ensures grows { Grows W.is_of W.follows worlds.old worlds.new }
    ensures fewer { left.new ≤ left.old }
{
    let shares = shares(alloc, level.rows.len(), size)?;
    let followed = follow_all(rt, alloc, worlds, delivery, level, shares.as_slice())?;
    let mut next = Indexed::new(alloc);
    for i in 0..shares.len() {
        let share = shares[i];
        let Ok(part) = &followed[i] else {
            return Err(Cause::Memory);
        };
        merge(
            alloc, worlds, flags, delivery, level, share, part, &mut next, left, findings, observer,
        )?;
    }
    Ok(next)
}

// The level after another one, whose states are expanded one after the other. `NodeLimit` where more states would be
// found than may be, `Memory` where there is no memory for it.
fn next_in_turn<W: Worlds, O: LevelObserver>(
    alloc: Global,
    worlds: &mut W,
    flags: Flags,
    delivery: Delivery,
    level: &Indexed<Path>,
    left: &mut u64,
    findings: &mut Findings,
    observer: &O,
) -> Result<Indexed<Path>, Cause>
    requires { AreOf (W.is_of worlds.old) level.now.rows }
    ensures goes_on { IfOk result (λ next. FromNowOn W.follows worlds.new (λ k m. GoesOn delivery (of_module (W.agrees k) m) (flags_in flags) level.now.rows next.rows findings.old findings.new)) }
    ensures notes { FromNowOn W.follows worlds.new (λ k m. NotesLevel delivery (of_module (W.agrees k) m) (flags_in flags) level.now.rows findings.old findings.new) }
    ensures of_known { IfOk result (λ next. AreOf (W.is_of worlds.new) next.rows) }
    ensures grows { Grows W.is_of W.follows worlds.old worlds.new }
    ensures fewer { left.new ≤ left.old }
{
    let mut next = Indexed::new(alloc);
    let mut arrivals = Rows::new(alloc);
    for place in 0..level.rows.len() {
        observer.visited();
        expand(
            alloc,
            worlds,
            flags,
            delivery,
            level.rows.at(place),
            &mut arrivals,
            &mut next,
            left,
            findings,
        )?;
    }
    Ok(next)
}

/// The level after another one where signals are delivered so, with what is shown there; so many threads work on it at
/// once where it has many states. `NodeLimit` where more states would be found than may be, `Memory` where there is no
/// memory for it: then what was found shows itself by its schedule all the same.
pub(crate) fn next_level<W: Worlds + Sync, T: Threads + Sync, O: LevelObserver>(
    rt: &T,
    alloc: Global,
    threads: usize,
    worlds: &mut W,
    flags: Flags,
    delivery: Delivery,
    level: &Indexed<Path>,
    left: &mut u64,
    findings: &mut Findings,
    observer: &O,
) -> Result<Indexed<Path>, Cause>
    requires { AreOf (W.is_of worlds.old) level.now.rows }
    ensures goes_on { IfOk result (λ next. FromNowOn W.follows worlds.new (λ k m. GoesOn delivery (of_module (W.agrees k) m) (flags_in flags) level.now.rows next.rows findings.old findings.new)) }
    ensures notes { FromNowOn W.follows worlds.new (λ k m. NotesLevel delivery (of_module (W.agrees k) m) (flags_in flags) level.now.rows findings.old findings.new) }
    ensures of_known { IfOk result (λ next. AreOf (W.is_of worlds.new) next.rows) }
    ensures grows { Grows W.is_of W.follows worlds.old worlds.new }
    ensures fewer { left.new ≤ left.old }
{
    let states = level.rows.len();
    if threads < 2 || states < MANY {
        return next_in_turn(
            alloc, worlds, flags, delivery, level, left, findings, observer,
        );
    }
    let size = states / threads + 1;
    next_by_shares(
        rt, alloc, size, worlds, flags, delivery, level, left, findings, observer,
    )
}
