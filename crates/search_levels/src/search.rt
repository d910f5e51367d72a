// The levels, one after the other.
ghost use Rattle.std.specs.Prelude.{◌≡◌, ◌≤◌, IfOk, map};
ghost use Rattle.core_tree.specs.Syntax.{ModuleTree};
ghost use Rattle.search_levels.specs.Arrivals.{of_module};
ghost use Rattle.search_levels.specs.Known.{FromNowOn, Grows};
ghost use Rattle.search_levels.specs.Searched.{IsSearchFrom};
ghost use Rattle.search_levels.specs.inside.Levels.{AreOf};
ghost use Rattle.search_levels.specs.inside.Searching.{Begins, ComesTo, TellsOpen};
ghost use Rattle.world_identities.specs.Identities.{flags_in, identity_in};

use crate::advancing::next_level;
use crate::expanding::note;
use crate::indexed::Indexed;
use crate::observer::LevelObserver;
use crate::path::Path;
use crate::worlds::Worlds;
use std::alloc::{AllocError, Global};
use std::thread::Threads;
use tree_findings::{Cause, Extent, Findings, Outcome};
use tree_schedules::Delivery;
use world_identities::{Flags, Identity};

/// What is searched for, in which schedules, and within which limits.
#[derive(Clone, Copy, Debug, PartialEq, Eq)]
pub struct Bounds {
    /// What counts as an error.
    pub flags: Flags,
    /// When signals are delivered in the schedules that are followed.
    pub delivery: Delivery,
    /// How many steps a schedule may have.
    pub depth: u64,
    /// How many states may be found.
    pub states: u64,
    /// How many threads may follow states at once.
    pub threads: usize,
}

/// What a search by states results in.
#[derive(Drop)]
pub struct Searched {
    /// What was found: of all schedules to the depth that deliver signals so, or of some of them where it stopped before
    /// its end.
    pub outcome: Outcome,
    /// All of these schedules of at most so many steps were followed.
    pub whole_to: u64,
}

// The level of the schedule without steps. `NodeLimit` where no state may be found, `Memory` where there is no memory for
// it.
fn first_level<W: Worlds>(
    alloc: Global,
    first: &[u32],
    digest: u64,
    left: &mut u64,
) -> Result<Indexed<Path>, Cause>
    ensures begins { IfOk result (λ level. (k : W) (m : ModuleTree) → Begins (of_module (W.agrees k) m) first.now level.rows) }
    ensures of_known { IfOk result (λ level. (k : W) → W.is_of k first.now → AreOf (W.is_of k) level.rows) }
    ensures fewer { left.new ≤ left.old }
{
    let mut level = Indexed::new(alloc);
    level.put(Path::Start, first, digest, left)?;
    Ok(level)
}

// At how many states of a level a step is enabled. `AllocError` if there is no memory to decide it.
fn count_open<W: Worlds>(
    alloc: Global,
    worlds: &mut W,
    level: &Indexed<Path>,
) -> Result<u64, AllocError>
    requires { AreOf (W.is_of worlds.old) level.now.rows }
    ensures tells { IfOk result (λ count. FromNowOn W.follows worlds.new (λ k m. TellsOpen (of_module (W.agrees k) m) level.now.rows count)) }
    ensures grows { Grows W.is_of W.follows worlds.old worlds.new }
{
    let mut count = 0;
    for place in 0..level.rows.len() {
        if worlds.goes_on(alloc, level.rows.at(place).row)? {
            count += 1;
        }
    }
    Ok(count)
}

// What a search comes to that stopped for this cause, where all schedules of at most so many steps were followed.
fn stopped(cause: Cause, findings: Findings, whole_to: u64) -> Searched
    ensures { result ≡ record { outcome = Outcome.Incomplete cause findings; whole_to = whole_to } }
{
    let outcome = Outcome::Incomplete(cause, findings);
    Searched { outcome, whole_to }
}

// What a search comes to that followed all schedules to the depth, whose last level this is, and which might still find
// so many states.
fn whole<W: Worlds>(
    alloc: Global,
    worlds: &mut W,
    bounds: Bounds,
    level: &Indexed<Path>,
    left: u64,
    findings: Findings,
) -> Searched
    requires fewer { left ≤ bounds.states }
    requires of_known { AreOf (W.is_of worlds.old) level.now.rows }
    ensures comes_to { FromNowOn W.follows worlds.new (λ k m. ComesTo bounds.delivery (of_module (W.agrees k) m) (flags_in bounds.flags) bounds.depth bounds.states level.now.rows findings result) }
    ensures grows { Grows W.is_of W.follows worlds.old worlds.new }
{
    let whole_to = bounds.depth;
    match count_open(alloc, worlds, level) {
        Ok(cut) => {
            let nodes = bounds.states - left;
            let outcome = Outcome::Complete(findings, Extent { nodes, cut });
            Searched { outcome, whole_to }
        }
        Err(_) => stopped(Cause::Memory, findings, whole_to),
    }
}

/// Follows all schedules of at most so many steps that deliver signals as the bounds say, at any time or at once, level
/// by level, from the row of the world before anything happened, with its digest, and what is shown there. The schedules of a level
/// come in their order, so of those that lead to states that are the same the first goes on, which is the least. Where a
/// level has no states no such schedule is as long, and the search ends.
///
/// It is `Complete` where all were followed: then each error and each refusal is found that one of them shows, with the
/// least of those that show it, and `cut` is 0 exactly where none is longer. It is `Incomplete` for
/// `NodeLimit` where there are more states than may be found, and for `Memory` where memory ran out: then each finding is
/// shown by its schedule, which is such a one, and what those of at most `whole_to` steps show is found.
///
/// # Errors
///
/// `AllocError` where there was no memory for what is shown before anything happens.
pub fn search_levels<W: Worlds + Sync, T: Threads + Sync, O: LevelObserver>(
    rt: &T,
    alloc: Global,
    bounds: Bounds,
    worlds: &mut W,
    first: &[u32],
    digest: u64,
    shown: &[Identity],
    observer: &O,
) -> Result<Searched, AllocError>
    requires { W.is_of worlds.old first.now }
    ensures searched { IfOk result (λ searched. FromNowOn W.follows worlds.new (λ k m. IsSearchFrom (W.agrees k) m bounds first.now (map identity_in shown.now) searched)) }
    ensures grows { Grows W.is_of W.follows worlds.old worlds.new }
{
    let mut findings = Findings::new(alloc);
    note(alloc, bounds.flags, shown, &Path::Start, &mut findings)?;
    let mut left = bounds.states;
    let mut level = match first_level::<W>(alloc, first, digest, &mut left) {
        Ok(level) => level,
        Err(cause) => return Ok(stopped(cause, findings, 0)),
    };
    let mut steps = 0;
    while steps < bounds.depth && level.rows.len() != 0 {
        observer.level(steps);
        match next_level(
            rt,
            alloc,
            bounds.threads,
            worlds,
            bounds.flags,
            bounds.delivery,
            &level,
            &mut left,
            &mut findings,
            observer,
        ) {
            Ok(next) => level = next,
            Err(cause) => return Ok(stopped(cause, findings, steps)),
        }
        steps += 1;
    }
    Ok(whole(alloc, worlds, bounds, &level, left, findings))
}
