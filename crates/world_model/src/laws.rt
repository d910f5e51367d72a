// The laws of the explored world.
pub mod commuting;
pub mod contents;
pub mod examples;
pub mod headline;
pub mod orders;
pub mod processes;
pub mod runs;
pub mod steps;
pub mod tables;
