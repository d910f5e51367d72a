// What reads the tokens of Core Erlang 1.0.3 one at a time: marks, words and names, and above them
// constants, patterns, what an expression begins with, and what it calls.
#![tactic(auto)]

mod beginnings;
mod callees;
mod constants;
mod names;
mod parser;
mod patterns;

pub use callees::{callee_named, operation_named};
pub use core_grammar::Unserved;
pub use names::variable_of;
pub use parser::{Parser, is_foreign};
