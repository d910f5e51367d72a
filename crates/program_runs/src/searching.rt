// The search of an exploration, by the tree of schedules or by states.
ghost use Rattle.std.specs.Prelude.{◌≡◌, ◌≤◌, IfOk};
ghost use Rattle.program_runs.specs.Explored.{IsExactBy, IsOutcomeBy, IsWholeBy, delivery_by};
ghost use Rattle.search_jobs.specs.Explorations.{explored_by};
ghost use Rattle.tree_findings.specs.declared.options.Search.TheVariants.{ByStates, ByTree};

use crate::watched::Watched;
use core_tree::Module;
use report_text::Visited;
use search_crew::{Job, Observer, SearchFault, search};
use search_states::search_states;
use std::alloc::Global;
use std::sync::Wait;
use std::thread::Threads;
use tree_findings::{Options, Outcome, Search};
use tree_schedules::Delivery;

/// What an exploration resulted in, and what its report tells of the way there.
#[derive(Drop)]
pub(crate) struct Explored {
    pub(crate) outcome: Outcome,
    pub(crate) visited: Visited,
}

// Searches the tree of schedules, by so many threads.
fn search_by_tree<T: Threads + Wait + Sync, O: Observer + Sync>(
    rt: &T,
    alloc: Global,
    program: &Module,
    options: &Options,
    observer: &O,
) -> Result<Explored, SearchFault>
    requires { 1 ≤ options.now.budget }
    ensures outcome { IfOk result (λ found. IsOutcomeBy ByTree (explored_by program.now options.now) options.now.nodes found.visited found.outcome) }
    ensures exact { IfOk result (λ found. IsExactBy (delivery_by ByTree) (explored_by program.now options.now) found.outcome) }
    ensures whole { IfOk result (λ found. IsWholeBy (delivery_by ByTree) (explored_by program.now options.now) found.outcome) }
{
    let whole = Job::root(alloc, program, options);
    let outcome = search(rt, alloc, &whole, options, observer)?;
    Ok(Explored {
        outcome,
        visited: Visited::Nodes,
    })
}

// Follows all schedules by their states, with this delivery of signals.
fn search_by_states<T: Threads + Sync, O: Observer>(
    rt: &T,
    alloc: Global,
    program: &Module,
    options: &Options,
    delivery: Delivery,
    observer: &O,
) -> Result<Explored, SearchFault>
    ensures outcome { IfOk result (λ found. IsOutcomeBy (ByStates delivery) (explored_by program.now options.now) options.now.nodes found.visited found.outcome) }
    ensures exact { IfOk result (λ found. IsExactBy delivery (explored_by program.now options.now) found.outcome) }
    ensures whole { IfOk result (λ found. IsWholeBy delivery (explored_by program.now options.now) found.outcome) }
{
    let searched = search_states(rt, alloc, program, options, delivery, &Watched { observer })?;
    Ok(Explored {
        outcome: searched.outcome,
        visited: Visited::States {
            delivery,
            whole_to: searched.whole_to,
        },
    })
}

/// Searches the schedules of a module as the options ask for it.
///
/// # Errors
///
/// Those of the search of the tree; of a search by states, `Memory` where there was none for the first state.
pub(crate) fn search_schedules<T: Threads + Wait + Sync, O: Observer + Sync>(
    rt: &T,
    alloc: Global,
    program: &Module,
    options: &Options,
    observer: &O,
) -> Result<Explored, SearchFault>
    requires { 1 ≤ options.now.budget }
    ensures outcome { IfOk result (λ found. IsOutcomeBy options.now.search (explored_by program.now options.now) options.now.nodes found.visited found.outcome) }
    ensures exact { IfOk result (λ found. IsExactBy (delivery_by options.now.search) (explored_by program.now options.now) found.outcome) }
    ensures whole { IfOk result (λ found. IsWholeBy (delivery_by options.now.search) (explored_by program.now options.now) found.outcome) }
{
    match options.search {
        Search::ByTree => search_by_tree(rt, alloc, program, options, observer),
        Search::ByStates(delivery) => {
            search_by_states(rt, alloc, program, options, delivery, observer)
        }
    }
}
