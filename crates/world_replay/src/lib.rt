// The replay of one schedule: it goes step by step through a new world, and writes the line of each event.
#![tactic(auto)]

pub mod replay;
pub mod replay_fault;

pub use replay::replay_and_flush;
pub use replay_fault::ReplayFault;
