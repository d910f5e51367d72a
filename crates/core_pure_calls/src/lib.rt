// What the calls give that a process answers by itself: from their arguments to a value or an exception.
#![tactic(auto)]

mod arithmetic;
pub mod calls;
mod compare;
pub mod dictionary;
mod kinds;
pub mod laws;
mod lists;
pub mod outcome;
mod raise;
mod tuples;

pub use calls::answer;
pub use dictionary::Dictionary;
pub use outcome::{Class, Outcome};
