// From tokens to expressions of Core Erlang 1.0.3: calls, clauses, and all forms that are made of
// expressions.
#![tactic(auto)]

mod calls;
mod clauses;
mod expressions;
mod form_reader;

pub use form_reader::FormReader;
