// The tree of schedules with sleep sets: how a job is expanded.
#![tactic(auto)]

pub mod expansion;
mod frame;
mod node;
pub mod observer;
mod sleeping;
mod walk;
mod world;

pub use expansion::expand;
pub use node::stepped;
pub use observer::{Observer, Unwatched};
pub use search_jobs::{Exploration, Job, JobName, Piece, Ticket};
