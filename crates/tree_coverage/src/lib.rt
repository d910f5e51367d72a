// What the tree of schedules covers, over the explored world, as definitions and laws.
#![tactic(auto)]

pub mod covers;
pub mod jobs;
pub mod laws;
