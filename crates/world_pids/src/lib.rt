// Which numbers the pids of a run have. The only code is laws.
#![tactic(auto)]

pub mod laws;
