// The search: workers take the jobs of an exploration from a pool, expand them, and give them back.
#![tactic(auto)]

mod budget;
pub mod crew;
pub mod fault;
mod worker;

pub use crew::search;
pub use fault::SearchFault;
pub use search_expansion::{Job, Observer, Unwatched};
