// The search of the schedules of a module by states.
ghost use Rattle.std.specs.Prelude.{◌≡◌, IfOk};
ghost use Rattle.search_levels.specs.Searched.{IsSearched};
ghost use Rattle.world_identities.specs.Identities.{flags_in};
ghost use Rattle.world_model.specs.Asking.{program_of};

use crate::arriving::add_deadlock;
use crate::numbered::Numbered;
use core_tree::Module;
use search_levels::{Bounds, LevelObserver, Searched, search_levels};
use search_numbers::Known;
use std::alloc::{AllocError, Global};
use std::thread::Threads;
use tree_findings::Options;
use tree_schedules::Delivery;

/// Follows all schedules of a module that deliver signals at any time, or all that deliver them at once, level by level
/// over its states, within the depth and the limit of states of the options: the states to which such schedules of so many
/// steps lead are those of one level, and where several lead to states that are the same the least goes on.
/// `search_levels` says what the outcome is. As many threads as the options have workers follow the states of a large level
/// at once, and change nothing of the outcome. The observer is informed of each level and of each state.
///
/// # Errors
///
/// `AllocError` where there was no memory for the first state and what is shown there.
pub fn search_states<T: Threads + Sync, O: LevelObserver>(
    rt: &T,
    alloc: Global,
    program: &Module,
    options: &Options,
    delivery: Delivery,
    observer: &O,
) -> Result<Searched, AllocError>
    ensures { IfOk result (λ searched. IsSearched (flags_in options.now.flags) delivery (program_of program.now) options.now.depth options.now.nodes searched) }
{
    let mut known = Known::open(alloc, program)?;
    let mut shown = Vec::new(alloc);
    add_deadlock(alloc, &mut known, &[], &mut shown)?;
    let bounds = Bounds {
        flags: options.flags,
        delivery,
        depth: options.depth,
        states: options.nodes,
        threads: options.workers as usize,
    };
    let mut worlds = Numbered { known };
    search_levels(
        rt,
        alloc,
        bounds,
        &mut worlds,
        &[],
        0,
        shown.as_slice(),
        observer,
    )
}
