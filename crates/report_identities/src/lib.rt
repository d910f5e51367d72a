// What schedules show, read back from its text, as reports print it.
#![tactic(auto)]

mod arguments;
mod calls;
mod cuts;
pub mod fault;
pub mod laws;
mod pieces;
mod processes;
pub mod reader;
mod reasons;
mod terms;

pub use fault::IdentityFault;
pub use laws::{high_terms_are_large, texts_say_one_identity};
pub use reader::read_identity;
