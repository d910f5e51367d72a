// Which steps of a world are enabled, by its records.
#![tactic(auto)]

pub mod enabled;

pub use enabled::enabled_steps;
