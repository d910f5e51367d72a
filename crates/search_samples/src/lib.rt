// Random schedules of a module, and what they show.
#![tactic(auto)]

mod drawing;
mod following;
pub mod laws;
pub mod sample;

pub use sample::{Samples, sample_schedules};
