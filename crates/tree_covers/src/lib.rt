// Covers: the tree of schedules written as lines, one for each node, which shows every reader that no schedule up to a
// number of steps leads to an error. How such lines are checked, and how they are written.
#![tactic(auto)]

pub mod checking;
pub mod fault;
mod frame;
pub mod judging;
pub mod laws;
mod lines;
pub mod mark;
mod node;
pub mod observer;
mod sleeping;
mod walk;
pub mod writing;

pub use checking::check_cover;
pub use fault::{CoverFault, WriteCoverFault};
pub use mark::{MARK, split_at_mark};
pub use observer::{LineObserver, Unobserved};
pub use writing::write_cover;
