// Terms read back from their texts, as transcripts print them.
#![tactic(auto)]

mod atoms;
mod brackets;
mod bytes;
pub mod fault;
mod leaves;
pub mod numbers;
pub mod reader;

pub use fault::TermFault;
pub use numbers::read_number;
pub use reader::{read_term, texts_say_one_term};
