// The jobs of the tree of schedules: what they are called, and what was done of one.
#![tactic(auto)]

pub mod exploration;
pub mod job;
pub mod names;
pub mod piece;

pub use exploration::Exploration;
pub use job::Job;
pub use names::{JobName, Ticket};
pub use piece::Piece;
