// Sets, one for each process: what each process has, in order.
#![tactic(auto)]

pub mod groups;

pub use groups::{Groups, Member};
