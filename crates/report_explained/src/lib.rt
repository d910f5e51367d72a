// The explained report: below each finding stand the lines of its schedule and, at a deadlock or at unread messages, who
// waits.
#![tactic(auto)]

pub mod explain_fault;
pub mod explained;
pub mod explained_sample;
mod waiting;

pub use explain_fault::ExplainFault;
pub use explained::write_explained_report;
pub use explained_sample::write_explained_sample;
