// What one worker does.
ghost use Rattle.std.specs.Prelude.{◌≡◌, ◌≤◌};
ghost use Rattle.search_jobs.specs.Explorations.{program_in};
ghost use Rattle.world_model.specs.Asking.{program_of};

use crate::budget::Budget;
use core_copies::copy_module;
use core_tree::Module;
use search_expansion::{Job, Observer, Ticket, expand};
use search_pool::{GiveFault, Pool, PoolName, Seat, Taken};
use std::alloc::Global;
use std::sync::Wait;

/// What a worker hands back: its seat, and whether the pool refused a piece of it.
#[derive(Drop)]
pub(crate) struct Back<N: PoolName> {
    pub(crate) seat: Seat<N>,
    pub(crate) is_strange: bool,
}

/// How a worker goes on after a job.
#[derive(Clone, Copy)]
enum Progress {
    GoesOn,
    Ends,
    IsStrange,
}

// Expands a job, while no lock is held, and gives its piece back. Where there is no memory for the first, or the pool
// refuses the piece, it stops the pool; a give without memory has stopped it.
fn expand_one<'m, N: PoolName, R: Wait, O: Observer>(
    rt: &R,
    alloc: Global,
    pool: &Pool<'m, N>,
    seat: &mut Seat<N>,
    program: &Module,
    ticket: &Ticket,
    job: Job<'m>,
    budget: u64,
    observer: &O,
) -> Progress
    requires budget { 1 ≤ budget }
    requires numbered { 1 ≤ ticket.now.number }
    requires program { program_of program.now ≡ program_in job.exploration }
{
    let Ok(piece) = expand(alloc, program, job, budget, observer) else {
        pool.stop(rt);
        return Progress::Ends;
    };
    match pool.give(rt, seat, ticket, piece) {
        Ok(_) => {
            observer.given(ticket.number);
            Progress::GoesOn
        }
        Err(GiveFault::Memory) => Progress::Ends,
        Err(GiveFault::StrangeTicket(_) | GiveFault::StrangePiece(_)) => {
            pool.stop(rt);
            Progress::IsStrange
        }
    }
}

// Takes jobs, expands them and gives them back, until no job is left or the pool was stopped. It waits where no job is
// open and one is out. It visits the least number of nodes of a job, and more from job to job while no worker waits, this
// one among them.
fn expand_all<'m, N: PoolName, R: Wait, O: Observer>(
    rt: &R,
    alloc: Global,
    pool: &Pool<'m, N>,
    seat: &mut Seat<N>,
    program: &Module,
    least: u64,
    observer: &O,
) -> Progress
    requires some { 1 ≤ least }
    requires program { program_of program.now ≡ N.program }
{
    let mut budget = Budget::of(least);
    let mut progress = Progress::GoesOn;
    for _ in rt.forever() {
        let Progress::GoesOn = progress else {
            break;
        };
        let Ok(taken) = pool.take(rt, alloc, seat) else {
            pool.stop(rt);
            break;
        };
        let is_idle = matches!(taken, Taken::Idle);
        match taken {
            Taken::Idle => pool.wait(rt),
            Taken::Finished | Taken::Stopped => break,
            Taken::Work(ticket, job) => {
                let nodes = budget.nodes();
                progress = expand_one(
                    rt, alloc, pool, seat, program, &ticket, job, nodes, observer,
                );
            }
        }
        budget = budget.next(is_idle || pool.is_awaited());
    }
    progress
}

/// What a worker does: it copies the module, so that it shares no memory with others while it expands a job, and
/// expands jobs until none is left or the pool was stopped. Where there is no memory for its module, it stops the pool.
pub(crate) fn work<'m, N: PoolName, R: Wait, O: Observer>(
    rt: &R,
    alloc: Global,
    pool: &Pool<'m, N>,
    seat: Seat<N>,
    program: &Module,
    least: u64,
    observer: &O,
) -> Back<N>
    requires some { 1 ≤ least }
    requires program { program_of program.now ≡ N.program }
{
    let mut seat = seat;
    let Ok(own) = copy_module(alloc, program) else {
        pool.stop(rt);
        return Back {
            seat,
            is_strange: false,
        };
    };
    let progress = expand_all(rt, alloc, pool, &mut seat, &own, least, observer);
    Back {
        seat,
        is_strange: matches!(progress, Progress::IsStrange),
    }
}
