// What follows states, as far as it is known: nothing is learned, so several threads may list it at once.
ghost use Rattle.std.specs.Prelude.{◌≡◌, ◌<◌, ◌≤◌, [], IfOk, OnOk, length, slice_range, vec_len};
ghost use Rattle.search_levels.specs.inside.Following.{AreFollowed, AreKept, AreShares, AreKnownArrivals, FollowShares, FollowsNext, FollowsShare, IsKept};
ghost use Rattle.search_levels.specs.inside.Levels.{AreOf};
ghost use Rattle.search_levels.specs.inside.Visits.{entry_of};

use crate::arrival::Arrival;
use crate::indexed::Indexed;
use crate::path::Path;
use crate::rows::{Rows, Seen};
use crate::share::Share;
use crate::worlds::Worlds;
use std::alloc::{AllocError, Global};
use std::thread;
use std::thread::Threads;
use tree_schedules::Delivery;

/// What follows some states, one after the other, and for each state where what follows it ends; `None` where it is not
/// known what does. Left out is what shows nothing and leads to a row that is there already.
#[derive(Drop)]
pub(crate) struct Followed {
    pub(crate) arrivals: Rows<Arrival>,
    pub(crate) ends: Vec<Option<usize>>,
}

// Keeps a copy of an arrival, but of one that is left out. `AllocError` if there is no memory for it.
fn keep(alloc: Global, to: Seen<'_, Arrival>, kept: &mut Indexed<Arrival>) -> Result<(), AllocError>
    ensures { OnOk result (IsKept (entry_of to.entry) kept.old.rows kept.new.rows) }
{
    if to.of.shown.is_empty() && kept.has(to.row, to.digest) {
        return Ok(());
    }
    kept.push(to.of.copy(alloc)?, to.row, to.digest)
}

// Keeps copies of the arrivals at a state, but of those that are left out. `AllocError` if there is no memory for them.
fn keep_all(
    alloc: Global,
    arrivals: &Rows<Arrival>,
    kept: &mut Indexed<Arrival>,
) -> Result<(), AllocError>
    ensures { OnOk result (AreKept arrivals.now kept.old.rows kept.new.rows) }
{
    for place in 0..arrivals.len() {
        keep(alloc, arrivals.at(place), kept)?;
    }
    Ok(())
}

// Keeps what follows a state, if that is known, and answers where it ends then. `AllocError` if there is no memory for it.
fn follow_one<W: Worlds>(
    alloc: Global,
    worlds: &W,
    delivery: Delivery,
    from: Seen<'_, Path>,
    arrivals: &mut Rows<Arrival>,
    kept: &mut Indexed<Arrival>,
) -> Result<Option<usize>, AllocError>
    requires { W.is_of worlds.now from.row.now }
    ensures { IfOk result (λ end. FollowsNext (AreKnownArrivals W.agrees W.is_of W.follows worlds.now delivery) (entry_of from.entry) kept.old.rows kept.new.rows end) }
{
    if !worlds.known_arrivals(alloc, delivery, from.row, from.digest, arrivals)? {
        return Ok(None);
    }
    keep_all(alloc, arrivals, kept)?;
    Ok(Some(kept.rows.len()))
}

/// What follows the states of a level from one place up to another one, as far as it is known. `AllocError` if there is
/// no memory for it.
pub(crate) fn follow<W: Worlds>(
    alloc: Global,
    worlds: &W,
    delivery: Delivery,
    level: &Indexed<Path>,
    first: usize,
    last: usize,
) -> Result<Followed, AllocError>
    requires read { AreOf (W.is_of worlds.now) level.now.rows }
    requires within { last ≤ length level.now.rows }
    requires forward { first ≤ last }
    ensures { IfOk result (λ followed. AreFollowed (AreKnownArrivals W.agrees W.is_of W.follows worlds.now delivery) [] followed.arrivals 0 (slice_range level.now.rows first last) followed.ends.items) }
{
    let mut kept = Indexed::new(alloc);
    let mut arrivals = Rows::new(alloc);
    let mut ends = Vec::new(alloc);
    for place in first..last {
        let from = level.rows.at(place);
        ends.push(follow_one(alloc, worlds, delivery, from, &mut arrivals, &mut kept)?)?;
    }
    let Indexed { rows, .. } = kept;
    Ok(Followed {
        arrivals: rows,
        ends,
    })
}

// What follows the states of one share of a level. `AllocError` if there is no memory for it.
fn follow_share<W: Worlds>(
    alloc: Global,
    worlds: &W,
    delivery: Delivery,
    level: &Indexed<Path>,
    shares: &[Share],
    i: usize,
) -> Result<Followed, AllocError>
    requires read { AreOf (W.is_of worlds.now) level.now.rows }
    requires shares { AreShares 0 (length level.now.rows) shares.now }
    requires there { i < length shares.now }
    ensures { FollowsShare (AreKnownArrivals W.agrees W.is_of W.follows worlds.now delivery) level.now.rows shares.now i result }
{
    let share = shares[i];
    follow(alloc, worlds, delivery, level, share.first, share.last)
}

/// What follows the states of a level, share by share, each by a thread of its own. `AllocError` if there is no memory for
/// the list of the results.
pub(crate) fn follow_all<W: Worlds + Sync, T: Threads + Sync>(
    rt: &T,
    alloc: Global,
    worlds: &W,
    delivery: Delivery,
    level: &Indexed<Path>,
    shares: &[Share],
) -> Result<Vec<Result<Followed, AllocError>>, AllocError>
    requires read { AreOf (W.is_of worlds.now) level.now.rows }
    requires shares { AreShares 0 (length level.now.rows) shares.now }
    ensures count { IfOk result (λ followed. vec_len followed ≡ length shares.now) }
    ensures each { IfOk result (λ followed. FollowShares (AreKnownArrivals W.agrees W.is_of W.follows worlds.now delivery) level.now.rows shares.now followed.items) }
{
    thread::map_indices(
        rt,
        alloc,
        shares.len(),
        &|i: usize| -> Result<Followed, AllocError>
            requires read { AreOf (W.is_of worlds.now) level.now.rows }
            requires shares { AreShares 0 (length level.now.rows) shares.now }
            requires there { i < length shares.now }
            ensures { FollowsShare (AreKnownArrivals W.agrees W.is_of W.follows worlds.entry.now delivery) level.entry.now.rows shares.entry.now i result }
        { follow_share(alloc, worlds, delivery, level, shares, i) },
    )
}
