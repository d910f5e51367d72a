// A search by several workers.
ghost use Rattle.std.specs.Prelude.{◌≡◌, ◌+◌, ◌<◌, ◌≤◌, IfOk, vec_len, vec_capacity};
ghost use Rattle.std.specs.Thread.{IsSend, IsSync};
ghost use Rattle.tree_coverage.specs.Jobs.{root};
ghost use Rattle.search_crew.specs.Outcomes.{IsExact, IsOutcome, IsOutcomeOf, IsWhole};
ghost use Rattle.search_jobs.specs.Explorations.{program_in};
ghost use Rattle.world_model.specs.Asking.{program_of};

use crate::fault::SearchFault;
use crate::worker::{Back, work};
use core_tree::Module;
use search_expansion::{Job, Observer};
use search_pool::laws::places_do_not_matter;
use search_pool::{Pool, PoolName, PoolState, Seat};
use std::alloc::Global;
use std::marker::Brand;
use std::sync::Wait;
use std::sync::ledger::Blank;
use std::thread;
use std::thread::Threads;
use tree_findings::{Options, Outcome};

// Puts an item after the others, where there is room for it.
fn put<T: Drop>(items: &mut Vec<T>, item: T)
    requires { vec_len items.old < vec_capacity items.old }
    ensures len { vec_len items.new ≡ vec_len items.old + 1 }
    ensures capacity { vec_capacity items.old ≤ vec_capacity items.new }
{
    if items.push(item).is_err() {
        unreachable!();
    }
}

/// How many bytes the stack of a worker has. A quarter of it is enough for each walk through the deepest term that a
/// module may build.
const STACK: usize = 16 * 1024 * 1024;

// Starts a worker at each seat, and joins them all: the seats come back. `Memory` where there was no room for the
// workers, `NoThread` where one could not be started, `StrangePool` where the pool refused a piece.
fn work_together<'m, N: PoolName + Send + Sync, R: Threads + Wait + Sync, O: Observer + Sync>(
    rt: &R,
    alloc: Global,
    pool: &Pool<'m, N>,
    seats: Vec<Seat<N>>,
    program: &Module,
    budget: u64,
    observer: &O,
) -> Result<Vec<Seat<N>>, SearchFault>
    requires some { 1 ≤ budget }
    requires program { program_of program.now ≡ N.program }
{
    let workers = seats.len();
    let mut handles = Vec::with_capacity(alloc, workers)?;
    let mut back = Vec::with_capacity(alloc, workers)?;
    thread::scope(
        thread::scope_env(),
        rt,
        move |scope| -> Result<Vec<Seat<N>>, SearchFault>
            requires shared { IsSend N.row × IsSync N.row × IsSync R.row × IsSync O.row }
            requires budget { 1 ≤ budget }
            requires program { program_of program.now ≡ N.program }
            requires room { (vec_len seats ≤ vec_capacity handles) × (vec_len seats ≤ vec_capacity back) × (vec_len handles ≡ 0) × (vec_len back ≡ 0) }
        {
            let mut fault = Ok(());
            let mut seats = seats;
            while let Some(seat) = seats.pop() {
                let builder = thread::Builder::new().stack_size(STACK);
                match builder.spawn_scoped(
                    scope,
                    move || work(rt, alloc, pool, seat, program, budget, observer),
                ) {
                    Ok(handle) => put(&mut handles, handle),
                    Err(_) => {
                        pool.stop(rt);
                        fault = Err(SearchFault::NoThread);
                        break;
                    }
                }
            }
            while let Some(handle) = handles.pop() {
                let Back { seat, is_strange } = handle.join(rt);
                if is_strange {
                    fault = fault.and(Err(SearchFault::StrangePool));
                }
                put(&mut back, seat);
            }
            fault?;
            Ok(back)
        },
    )
}

// The search at a pool that has a name.
fn searched<N: PoolName + Send + Sync, R: Threads + Wait + Sync, O: Observer + Sync>(
    rt: &R,
    alloc: Global,
    blank: Blank,
    job: &Job<'_>,
    options: &Options,
    observer: &O,
) -> Result<Outcome, SearchFault>
    requires name { blank.name ≡ N.name }
    requires parts { blank.parts ≡ N.parts }
    requires seats { (N.seats ≡ N.parts) × (options.now.workers ≡ N.seats) }
    requires budget { 1 ≤ options.now.budget }
    requires program { program_in job.now.exploration ≡ N.program }
    ensures of_job { IfOk result (λ outcome. IsOutcomeOf job.now.exploration job.now.name options.now.nodes outcome) }
    ensures outcome { job.now.name ≡ root → IfOk result (λ outcome. IsOutcome job.now.exploration options.now.nodes outcome) }
    ensures exact { job.now.name ≡ root → IfOk result (λ outcome. IsExact job.now.exploration outcome) }
    ensures whole { job.now.name ≡ root → IfOk result (λ outcome. IsWhole job.now.exploration outcome) }
{
    places_do_not_matter();
    let program = job.exploration().program;
    let first = job.copy(alloc)?;
    let (state, seats) = PoolState::<'_, N>::open(alloc, blank, first, options)?;
    let pool = Pool::new(state);
    let seats = work_together(rt, alloc, &pool, seats, program, options.budget, observer)?;
    let state = pool.into_state();
    match state.finish(seats, job, options) {
        Ok(outcome) => Ok(outcome),
        Err(_) => Err(SearchFault::StrangePool),
    }
}

/// Visits the nodes of a job of the tree of schedules with sleep sets (Godefroid, "Partial-Order Methods for the
/// Verification of Concurrent Systems"), each once, by so many workers: what they show, how many they are, and at how
/// many of them the tree is cut at its depth. What is explored, to which depth and under which flags, the job says; of
/// the options only the limit of nodes, the budget and the number of workers count. The nodes of the job `root` are
/// those of the whole tree. Each worker is a thread of its own, and has a module of its own, a copy; it takes a job
/// from a pool, expands it while no lock is held, and gives back what it found and the jobs that are left. Of its first
/// job it visits at most as many nodes as the budget says, and of the next ones twice as many from job to job, up to 64
/// times as many, until a worker waits for work: then it begins again. The observer is informed of each node before it
/// is visited, and of each job after its piece was accepted; jobs are numbered from 1.
///
/// It is `Complete` where all nodes of the job were visited, at most as many as the limit allows; where these are the
/// nodes of the whole tree and it is cut at none of them, the outcome is about all schedules, of whatever length. It is
/// `Incomplete` for `NodeLimit` only where there are more nodes, and for `Memory` where memory ran out: then each
/// finding is shown by its schedule. How many workers there are, and how many nodes of a job one visits before it gives
/// the job back, change nothing of a complete search. It returns when all workers have ended.
///
/// # Errors
///
/// `Memory` where memory ran out before a worker was started, `NoThread` where one could not be started, `StrangePool`
/// where the pool refused a piece or its end.
pub fn search<R: Threads + Wait + Sync, O: Observer + Sync>(
    rt: &R,
    alloc: Global,
    job: &Job<'_>,
    options: &Options,
    observer: &O,
) -> Result<Outcome, SearchFault>
    requires some { 1 ≤ options.now.budget }
    ensures of_job { IfOk result (λ outcome. IsOutcomeOf job.now.exploration job.now.name options.now.nodes outcome) }
    ensures outcome { job.now.name ≡ root → IfOk result (λ outcome. IsOutcome job.now.exploration options.now.nodes outcome) }
    ensures exact { job.now.name ≡ root → IfOk result (λ outcome. IsExact job.now.exploration outcome) }
    ensures whole { job.now.name ≡ root → IfOk result (λ outcome. IsWhole job.now.exploration outcome) }
{
    searched::<Brand, R, O>(
        rt,
        alloc,
        Blank::new(options.workers),
        job,
        options,
        observer,
    )
}
