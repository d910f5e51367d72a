// The pool of open jobs: jobs are handed out to seats, their pieces come back, and it says what they result in.
#![tactic(auto)]

pub mod answer;
pub mod entry;
pub mod frontier;
pub mod laws;
mod numbered;
pub mod pool;
mod room;
mod sameness;
pub mod seat;
pub mod state;

pub use answer::{GiveFault, StrangePool, Taken, Wake};
pub use entry::{PoolEvent, Stop};
pub use frontier::Frontier;
pub use pool::Pool;
pub use seat::{PoolName, Seat};
pub use state::PoolState;
