// What the calls of a pool answer.
use search_jobs::{Job, Piece, Ticket};

/// What a `take` answers.
#[derive(Drop)]
pub enum Taken<'m> {
    /// A job, and the ticket that names it.
    Work(Ticket, Job<'m>),
    /// No job is open, and one is out.
    Idle,
    /// No job is open, and none is out.
    Finished,
    /// The pool was stopped.
    Stopped,
}

/// Which waiting workers a `give` wakes.
#[derive(Clone, Copy, Debug, PartialEq, Eq)]
pub enum Wake {
    /// All of them: a job came in, or none is out any more, or the pool was stopped.
    Everybody,
    /// None of them: they have no reason to go on.
    Nobody,
}

/// Why a `give` is refused.
#[derive(Drop)]
pub enum GiveFault<'m> {
    /// The ticket is not out. The piece comes back.
    StrangeTicket(Piece<'m>),
    /// The piece was made for another ticket or another exploration, and comes back.
    StrangePiece(Piece<'m>),
    /// There was no memory. The pool is stopped, the ticket still out, and the piece dropped.
    Memory,
}

/// A pool is not finished: it is of another exploration, began with another job or has another limit, a seat is
/// missing, or a job is open or out and nothing stopped it.
#[derive(Clone, Copy, Debug, PartialEq, Eq)]
pub struct StrangePool;
