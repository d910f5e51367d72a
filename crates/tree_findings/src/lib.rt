// What an exploration found: each error and each refusal once, with its least schedule.
#![tactic(auto)]

pub mod extent;
pub mod finding;
pub mod found;
pub mod laws;
pub mod list;
pub mod options;
pub mod outcome;

pub use extent::Extent;
pub use finding::{Finding, copy_schedule};
pub use found::Findings;
pub use list::FindingList;
pub use options::{Options, Search};
pub use outcome::{Cause, Outcome};
