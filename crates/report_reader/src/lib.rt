// Reports of explorations read back from their texts, and put together.
#![tactic(auto)]

mod ends;
pub mod fault;
mod finding_lines;
mod first_line;
mod kinds;
mod lists;
pub mod merging;
mod numbers;
mod pieces;
mod places;
mod reading;
pub mod reports;

pub use fault::{MergeFault, ReportFault};
pub use merging::{merge_outcomes, outcomes_are_put_together};
pub use reports::merge_reports;
