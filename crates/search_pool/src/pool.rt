// A pool behind a lock.
ghost use Rattle.std.specs.Prelude.{◌≡◌, ◌+◌, IfOk, IfErr, OnOk, OnErr};
ghost use Rattle.search_pool.specs.Calls.{HandsBack, IsOfItsTicket, IsOfProgram, entries_in};

use crate::answer::{GiveFault, Taken, Wake};
use crate::seat::{PoolName, Seat};
use crate::state::PoolState;
use search_jobs::{Piece, Ticket};
use std::alloc::{AllocError, Global};
use std::sync::atomic::{AtomicU64, Ordering};
use std::sync::{Condvar, Mutex, Wait};

/// A pool that threads share, and how many of them wait for work.
#[derive(Drop)]
pub struct Pool<'m, N: PoolName> {
    state: Mutex<PoolState<'m, N>>,
    changed: Condvar,
    waiting: AtomicU64,
}

impl<'m, N: PoolName> Pool<'m, N> {
    /// The state behind a lock.
    pub fn new(state: PoolState<'m, N>) -> Pool<'m, N> {
        Pool {
            state: Mutex::new(state),
            changed: Condvar::new(),
            waiting: AtomicU64::new(0),
        }
    }

    /// Hands out a job of the program to a seat. It wakes nobody: the others wait while no job is open and one is out, and they wait on
    /// where a job that was open goes out.
    ///
    /// # Errors
    ///
    /// `AllocError` if there is no memory: pool and seat are unchanged.
    pub fn take<R: Wait>(
        &self,
        rt: &R,
        alloc: Global,
        seat: &mut Seat<N>,
    ) -> Result<Taken<'m>, AllocError>
        ensures of_ticket { IfOk result IsOfItsTicket }
        ensures explored { IfOk result (IsOfProgram N.program) }
        ensures entered { IfOk result (λ taken. seat.new ≡ seat.old + entries_in taken) }
        ensures refused { OnErr result (seat.new ≡ seat.old) }
    {
        let taken = self.state.lock(rt).take(alloc, seat);
        taken
    }

    /// Takes in the piece of a ticket from a seat, and says which workers that wakes. The others are woken where they
    /// waited for it: jobs came in, or none is out any more, or the pool was stopped, at its limit or for lack of
    /// memory.
    ///
    /// # Errors
    ///
    /// Those of the pool's state: a piece that is refused comes back, and the seat is unchanged.
    pub fn give<R: Wait>(
        &self,
        rt: &R,
        seat: &mut Seat<N>,
        ticket: &Ticket,
        piece: Piece<'m>,
    ) -> Result<Wake, GiveFault<'m>>
        ensures entered { OnOk result (seat.new ≡ seat.old + 1) }
        ensures back { IfErr result (HandsBack piece.entry) }
        ensures refused { OnErr result (seat.new ≡ seat.old) }
    {
        let given = self.state.lock(rt).give(seat, ticket, piece);
        if let Ok(Wake::Everybody) | Err(GiveFault::Memory) = given {
            self.changed.notify_all();
        }
        given
    }

    /// Stops the pool for lack of memory, and wakes all others.
    pub fn stop<R: Wait>(&self, rt: &R) {
        self.state.lock(rt).stop();
        self.changed.notify_all();
    }

    /// Waits while no job is open and one is out.
    pub fn wait<R: Wait>(&self, rt: &R) {
        self.waiting.fetch_add(1, Ordering::SeqCst);
        let state = self
            .changed
            .wait_while(rt, self.state.lock(rt), |state| state.is_idle());
        drop(state);
        self.waiting.fetch_sub(1, Ordering::SeqCst);
    }

    /// Whether somebody waits for work. It takes no lock, and may be otherwise as soon as it is answered.
    pub fn is_awaited(&self) -> bool {
        self.waiting.load(Ordering::SeqCst) > 0
    }

    /// The state, out of its lock.
    pub fn into_state(self) -> PoolState<'m, N> {
        self.state.into_inner()
    }
}
