// What follows a state of a level.
ghost use Rattle.std.specs.Prelude.{◌≡◌, ◌≤◌, OnErr, OnOk, length, map, slice_range};
ghost use Rattle.core_tree.specs.Syntax.{ModuleTree};
ghost use Rattle.search_levels.specs.Arrivals.{of_module};
ghost use Rattle.search_levels.specs.Known.{FromNowOn, Grows};
ghost use Rattle.search_levels.specs.inside.Expanding.{Arrives, Expands, NotesAll, NotesArrival, NotesArrivals};
ghost use Rattle.search_levels.specs.inside.Following.{ArriveSome, KeepsRows, TakesInAll, TakesRow, TakesRows};
ghost use Rattle.search_levels.specs.inside.Levels.{AreOf, TakesIn};
ghost use Rattle.search_levels.specs.inside.Paths.{schedule_in};
ghost use Rattle.search_levels.specs.inside.Visits.{entry_of};
ghost use Rattle.tree_findings.specs.Laws.{AddsSchedule};
ghost use Rattle.world_identities.specs.Identities.{flags_in, identity_in};

use crate::arrival::Arrival;
use crate::indexed::Indexed;
use crate::path::Path;
use crate::rows::{Rows, Seen};
use crate::worlds::Worlds;
use std::alloc::{AllocError, Global};
use tree_findings::{Cause, Findings};
use tree_schedules::Delivery;
use world_identities::{Flags, Identity};

/// Adds what a schedule shows. `AllocError` if there is no memory for it; then the findings stay as they were.
pub(crate) fn note(
    alloc: Global,
    flags: Flags,
    shown: &[Identity],
    path: &Path,
    findings: &mut Findings,
) -> Result<(), AllocError>
    ensures ok { OnOk result (AddsSchedule (flags_in flags) (schedule_in path.now) (map identity_in shown.now) findings.old findings.new) }
    ensures err { OnErr result (findings.new ≡ findings.old) }
{
    if shown.len() == 0 {
        return Ok(());
    }
    let schedule = path.steps(alloc)?;
    findings.note(alloc, flags, shown, schedule.as_slice())?;
    Ok(())
}

// Adds what is shown after a step from a state to which this schedule leads, and puts the state after it into a level,
// where none is there that has its row: that one came first, and so its schedule is less. `NodeLimit` where it is new and
// none may be found any more, `Memory` where there is no memory for it.
fn arrive<W: Worlds>(
    alloc: Global,
    flags: Flags,
    from: &Path,
    to: Seen<'_, Arrival>,
    level: &mut Indexed<Path>,
    left: &mut u64,
    findings: &mut Findings,
) -> Result<(), Cause>
    ensures arrives { OnOk result ((k : W) (m : ModuleTree) → Arrives (of_module (W.agrees k) m) (flags_in flags) (schedule_in from.now) (entry_of to.entry) level.old.rows level.new.rows findings.old findings.new) }
    ensures notes { (k : W) (m : ModuleTree) → NotesArrival (of_module (W.agrees k) m) (flags_in flags) (schedule_in from.now) (entry_of to.entry) findings.old findings.new }
    ensures of_known { OnOk result ((k : W) → TakesIn (W.is_of k) level.old.rows to.entry.row.now level.new.rows) }
    ensures rows { OnOk result (TakesRow level.old.rows to.entry.row.now level.new.rows) }
    ensures fewer { left.new ≤ left.old }
{
    let is_there = level.has(to.row, to.digest);
    if is_there && to.of.shown.is_empty() {
        return Ok(());
    }
    let path = from.with(alloc, to.of.step.copy()?)?;
    note(alloc, flags, to.of.shown.as_slice(), &path, findings)?;
    if is_there {
        return Ok(());
    }
    level.put(path, to.row, to.digest, left)
}

// Takes these steps from a state, from one place on up to another one, one after the other: adds what is shown after them, and puts
// the states after them into a level. `NodeLimit` where one is new and none may be found any more, `Memory` where there
// is no memory for it.
pub(crate) fn arrive_at_all<W: Worlds>(
    alloc: Global,
    flags: Flags,
    from: &Path,
    arrivals: &Rows<Arrival>,
    first: usize,
    last: usize,
    level: &mut Indexed<Path>,
    left: &mut u64,
    findings: &mut Findings,
) -> Result<(), Cause>
    requires forward { first ≤ last }
    requires within { last ≤ length arrivals.now }
    ensures arrive { OnOk result ((k : W) (m : ModuleTree) → ArriveSome (of_module (W.agrees k) m) (flags_in flags) (schedule_in from.now) arrivals.now first last level.old.rows level.new.rows findings.old findings.new) }
    ensures notes { (k : W) (m : ModuleTree) → NotesAll (of_module (W.agrees k) m) (flags_in flags) (schedule_in from.now) (slice_range arrivals.now first last) findings.old findings.new }
    ensures of_known { OnOk result ((k : W) → TakesInAll (W.is_of k) level.old.rows (slice_range arrivals.now first last) level.new.rows) }
    ensures rows { OnOk result (TakesRows level.old.rows (slice_range arrivals.now first last) level.new.rows) }
    ensures fewer { left.new ≤ left.old }
{
    for place in first..last {
        arrive::<W>(
            alloc,
            flags,
            from,
            arrivals.at(place),
            level,
            left,
            findings,
        )?;
    }
    Ok(())
}

/// Adds what is shown after all steps that may be taken from a state, and puts the states after them into a level. The
/// steps are put in the place of other ones. `NodeLimit` where a state is new and none may be found any more, `Memory`
/// where there is no memory for it.
pub(crate) fn expand<W: Worlds>(
    alloc: Global,
    worlds: &mut W,
    flags: Flags,
    delivery: Delivery,
    from: Seen<'_, Path>,
    arrivals: &mut Rows<Arrival>,
    level: &mut Indexed<Path>,
    left: &mut u64,
    findings: &mut Findings,
) -> Result<(), Cause>
    requires { W.is_of worlds.old from.row.now }
    ensures expands { OnOk result (FromNowOn W.follows worlds.new (λ k m. Expands delivery (of_module (W.agrees k) m) (flags_in flags) (entry_of from.entry) level.old.rows level.new.rows findings.old findings.new)) }
    ensures notes { FromNowOn W.follows worlds.new (λ k m. NotesArrivals delivery (of_module (W.agrees k) m) (flags_in flags) (entry_of from.entry) findings.old findings.new) }
    ensures of_known { OnOk result (AreOf (W.is_of worlds.old) level.old.rows → AreOf (W.is_of worlds.new) level.new.rows) }
    ensures rows { OnOk result (KeepsRows level.old.rows level.new.rows) }
    ensures grows { Grows W.is_of W.follows worlds.old worlds.new }
    ensures fewer { left.new ≤ left.old }
{
    worlds.arrivals(alloc, delivery, from.row, from.digest, arrivals)?;
    let last = arrivals.len();
    arrive_at_all::<W>(
        alloc, flags, from.of, arrivals, 0, last, level, left, findings,
    )
}
