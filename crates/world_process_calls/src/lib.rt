// What each call of processes would do: its reply, the cells that it reads, and what it changes.
#![tactic(auto)]

mod binding;
mod guarding;
mod naming;
pub mod processes;
mod sending;
mod telling;

pub use processes::plan_process_call;
