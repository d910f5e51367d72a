// Jobs as lines of text: those of one depth of a tree, how they are written, and how one is read.
#![tactic(auto)]

mod bar;
mod check;
pub mod fault;
pub mod laws;
pub mod levels;
pub mod reading;
pub mod writing;

pub use fault::JobFault;
pub use levels::jobs_at;
pub use reading::read_job;
pub use writing::write_jobs;
