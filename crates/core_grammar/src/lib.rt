// The grammar of Core Erlang 1.0.3 over tokens, how tokens are decoded by it from left to right, and the
// laws between the two.
#![tactic(auto)]

pub mod laws;
pub mod subject;
pub mod unserved;

pub use core_tokens::ReadFault;
pub use subject::Subject;
pub use unserved::Unserved;
