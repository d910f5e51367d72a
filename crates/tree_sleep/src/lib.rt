// Which steps of a world sleep, and which are awake.
#![tactic(auto)]

pub mod sleeping;

pub use sleeping::{awake, is_one_of, sleep_below};
