// What is planned of a step, as a value that grows: the cells that it reads, and what it changes. Here is what calls share:
// what they result in, what an end leaves, and how a process begins.
#![tactic(auto)]

pub mod ends;
pub mod guarding;
pub mod planned;
pub mod readings;
pub mod reply;
pub mod spawning;
pub mod tables;

pub use planned::Planned;
pub use reply::{Refusal, Reply};
