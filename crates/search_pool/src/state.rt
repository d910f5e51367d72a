// What lies under the lock of a pool.
ghost use Rattle.std.specs.Prelude.{◌≡◌, ℕ, ◌+◌, ◌≤◌, true, false, [], None, IfOk, IfErr, OnOk, OnErr, length, sum, vec_len};
ghost use Rattle.search_pool.specs.Calls.{Accepts, ComesTo, IsDone, IsIdle, IsOfProgram, IsOwn, RefusesTo, TakesTo, WakesTo, entries_in, opened, stopped_seen};
ghost use Rattle.search_jobs.specs.Explorations.{program_in};
ghost use Rattle.search_pool.specs.Machine.{IsLegal};
ghost use Rattle.search_pool.specs.Seen.{listed};
ghost use Rattle.search_pool.specs.Sums.{AddsUp, SumsUp};

use crate::answer::{GiveFault, StrangePool, Taken, Wake};
use crate::frontier::Frontier;
use crate::seat::{PoolName, Seat};
use search_jobs::{Job, Piece, Ticket};
use std::alloc::{AllocError, Global};
use std::marker::Model;
use std::sync::ledger::{Blank, Book, Share};
use tree_findings::{Options, Outcome};

/// The state of a pool: its frontier, how many seats there are, the book whose total is the length of its list, and the
/// share that is left when each seat has its part. Contracts see its frontier.
pub struct PoolState<'m, N: PoolName> {
    pub(crate) frontier: Frontier<'m>,
    pub(crate) seats: u64,
    pub(crate) book: Book<N>,
    pub(crate) left: Share<N>,
}

// Dropped by a call, so that no crate above proves again how.
impl<N: PoolName> Drop for PoolState<'_, N> {
    fn drop(self) {
        let PoolState {
            frontier: _,
            seats: _,
            book: _,
            left: _,
        } = self;
    }
}

impl<'m, N: PoolName> Model for PoolState<'m, N> {
    ghost use Rattle.std.specs.Prelude.{◌≡◌, length};
    ghost use Rattle.search_pool.specs.Seen.{Seen};
    ghost use Rattle.search_pool.specs.inside.Codes.{coded_seen};
    ghost use Rattle.search_jobs.specs.Explorations.{program_in};

    ghost Value = { Seen };

    ghost coded = { coded_seen };

    ghost view = { λ p. p.frontier };

    ghost invariant = { λ p. (p.book.total ≡ length p.frontier.events) × (p.seats ≡ N.seats) × (program_in p.frontier.exploration ≡ N.program) × (p.left.parts ≡ 0) × (p.left.amount ≡ 0) };
}

// Seats with a part each, and the share that is left. `AllocError` if there is no memory for them.
fn seats_of<N: PoolName>(
    alloc: Global,
    left: Share<N>,
    workers: u64,
) -> Result<(Vec<Seat<N>>, Share<N>), AllocError>
    requires parts { workers ≡ left.parts }
    requires nothing { left.amount ≡ 0 }
    ensures count { IfOk result (λ made. vec_len made.0 ≡ workers) }
    ensures nothing { IfOk result (λ made. sum made.0.items ≡ 0) }
    ensures none_left { IfOk result (λ made. (made.1.parts ≡ 0) × (made.1.amount ≡ 0)) }
{
    let mut left = left;
    let mut seats = Vec::new(alloc);
    for _i in 0..workers {
        let share = left.split_off(1, 0);
        seats.push(Seat { entries: 0, share })?;
    }
    Ok((seats, left))
}

// The share that the seats have together.
fn gathered<N: PoolName>(left: Share<N>, seats: Vec<Seat<N>>) -> Share<N>
    requires parts { left.parts ≡ 0 }
    requires amount { left.amount ≡ 0 }
    ensures parts { result.parts ≡ vec_len seats }
    ensures amount { result.amount ≡ sum seats.items }
{
    let mut all = left;
    let mut seats = seats;
    while let Some(seat) = seats.pop() {
        let Seat { entries: _, share } = seat;
        all.merge(share);
    }
    all
}

impl<'m, N: PoolName> PoolState<'m, N> {
    /// A pool in which this job is open, and one seat for each worker. The job says what is explored; whatever number it has,
    /// it gets that of a ticket when it is handed out. Of the options the number of workers and the limit of nodes count.
    ///
    /// # Errors
    ///
    /// `AllocError` if there is no memory.
    pub fn open(
        alloc: Global,
        blank: Blank,
        job: Job<'m>,
        options: &Options,
    ) -> Result<(PoolState<'m, N>, Vec<Seat<N>>), AllocError>
        requires name { blank.name ≡ N.name }
        requires parts { blank.parts ≡ N.parts }
        requires seats { (N.seats ≡ N.parts) × (options.now.workers ≡ N.seats) }
        requires program { program_in job.exploration ≡ N.program }
        ensures state { IfOk result (λ r. r.0 ≡ opened job.entry.exploration job.entry.name options.now.nodes) }
        ensures seats { IfOk result (λ r. (vec_len r.1 ≡ options.now.workers) × (sum r.1.items ≡ 0)) }
    {
        let (book, whole) = blank.open::<N>();
        let frontier = Frontier::open(alloc, job, options)?;
        let (seats, left) = seats_of(alloc, whole, options.workers)?;
        let state = PoolState {
            frontier,
            seats: options.workers,
            book,
            left,
        };
        Ok((state, seats))
    }

    /// Hands out a job of the program to a seat. A waiting worker has no reason to go on.
    ///
    /// # Errors
    ///
    /// `AllocError` if there is no memory: pool and seat are unchanged.
    pub fn take(&mut self, alloc: Global, seat: &mut Seat<N>) -> Result<Taken<'m>, AllocError>
        ensures taken { IfOk result (λ taken. TakesTo self.old taken self.new) }
        ensures explored { IfOk result (IsOfProgram N.program) }
        ensures entered { IfOk result (λ taken. seat.new ≡ seat.old + entries_in taken) }
        ensures refused { OnErr result ((self.new ≡ self.old) × (seat.new ≡ seat.old)) }
        ensures waits { IsIdle self.old → IsIdle self.new }
    {
        self.book.audit(&mut seat.share);
        let taken = self.frontier.take(alloc)?;
        if let Taken::Work(_, _) = taken {
            let _most = self.frontier.entries();
            self.book.add(&mut seat.share, 1);
            seat.entries += 1;
        }
        Ok(taken)
    }

    /// Takes in the piece of a ticket from a seat, and says which workers that wakes: those that wait, where the pool
    /// was idle and no longer is.
    ///
    /// # Errors
    ///
    /// Those of the pool's frontier; the seat is unchanged.
    pub fn give(
        &mut self,
        seat: &mut Seat<N>,
        ticket: &Ticket,
        piece: Piece<'m>,
    ) -> Result<Wake, GiveFault<'m>>
        ensures given { OnOk result (Accepts self.old ticket.now piece.entry self.new) }
        ensures entered { OnOk result (seat.new ≡ seat.old + 1) }
        ensures refused { IfErr result (λ fault. RefusesTo self.old ticket.now piece.entry fault self.new) }
        ensures same { OnErr result (seat.new ≡ seat.old) }
        ensures woken { IfOk result (λ wake. WakesTo self.old wake self.new) }
    {
        self.book.audit(&mut seat.share);
        let was_idle = self.frontier.is_idle();
        self.frontier.give(ticket, piece)?;
        let _most = self.frontier.entries();
        self.book.add(&mut seat.share, 1);
        seat.entries += 1;
        if was_idle && !self.frontier.is_idle() {
            return Ok(Wake::Everybody);
        }
        Ok(Wake::Nobody)
    }

    /// Stops the pool for lack of memory. The first cause stays. It takes no memory.
    pub fn stop(&mut self)
        ensures { self.new ≡ stopped_seen self.old }
    {
        self.frontier.stop();
    }

    /// What the pool resulted in. Its seats come back to it, one after the other, and have as many entries together as
    /// its list. It takes no memory.
    ///
    /// # Errors
    ///
    /// `StrangePool` where the pool is of another exploration, began with another job or has another limit, a seat is
    /// missing, or a job is open or out and nothing stopped it.
    pub fn finish(
        self,
        seats: Vec<Seat<N>>,
        job: &Job<'_>,
        options: &Options,
    ) -> Result<Outcome, StrangePool>
        requires { N.seats ≡ N.parts }
        ensures counted { OnOk result (length self.entry.events ≡ sum seats.items) }
        ensures outcome { IfOk result (λ outcome. ComesTo self.entry outcome) }
        ensures own { OnOk result (IsOwn self.entry job.now.exploration job.now.name options.now.nodes) }
        ensures strange { OnErr result ((vec_len seats ≡ N.seats) × IsOwn self.entry job.now.exploration job.now.name options.now.nodes × IsDone self.entry → ⊥) }
    {
        if seats.len() as u64 != self.seats {
            return Err(StrangePool);
        }
        let PoolState {
            frontier,
            seats: _,
            mut book,
            left,
        } = self;
        let mut all = gathered(left, seats);
        book.audit(&mut all);
        frontier.outcome(job, options)
    }

    /// Whether a `take` would answer `Idle`. It takes no memory.
    pub fn is_idle(&self) -> bool
        ensures idle { result ≡ true → IsIdle self.now }
        ensures busy { result ≡ false → IsIdle self.now → ⊥ }
    {
        self.frontier.is_idle()
    }

    /// Whenever the lock is free, the list is legal and leads to the state of the pool, and what is done, open and out
    /// adds up to the job that it began with. It changes nothing.
    pub fn adds_up(&self)
        ensures legal { IsLegal self.now.exploration self.now.start self.now.limit (listed self.now.events self.now.stop) self.now.standing }
        ensures nodes { AddsUp self.now.exploration self.now.start self.now.limit self.now.standing }
        ensures sums { SumsUp self.now.exploration self.now.start self.now.standing }
    {
        self.frontier.adds_up();
    }
}
