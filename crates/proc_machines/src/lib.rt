// The processes of a world: their machines, which of them live, and which trap exits.
#![tactic(auto)]

mod course;
mod courses;
mod pids;
pub mod processes;
pub mod receiver;

pub use processes::Processes;
pub use receiver::Receiver;
