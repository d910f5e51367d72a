// Which errors are excused, and so taken as normal: ends with reasons that given patterns match, and deadlocks in which
// the first process does not wait.
#![tactic(auto)]

pub mod excuses;
pub mod laws;
mod patterns;
pub mod standing;

pub use excuses::Excuses;
pub use standing::Standing;
