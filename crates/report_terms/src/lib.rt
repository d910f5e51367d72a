// The report of an exploration as terms of Erlang: one a line, as `file:consult/1` reads them.
#![tactic(auto)]

mod calls;
mod events;
mod identities;
pub mod laws;
mod lines;
pub mod report;
pub mod sample;
mod steps;
mod strings;
mod waiting;

pub use report::write_terms_report;
pub use sample::write_terms_sample;
