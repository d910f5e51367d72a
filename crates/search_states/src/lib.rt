// A search of the schedules of a module by states: what is kept of a world is a row of numbers.
#![tactic(auto)]

mod arriving;
pub(crate) mod numbered;
pub mod search;

pub use search::search_states;
pub use search_levels::{LevelObserver, Searched, Unobserved};
