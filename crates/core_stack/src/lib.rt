// The variables of a process, how patterns bind them, and the stack of what is still to do.
#![tactic(auto)]

mod bindings;
mod fitting;
mod frame;
mod layers;
mod matching;
mod sameness;
mod stack;

pub use bindings::Bindings;
pub use fitting::fits;
pub use frame::{Frame, Purpose};
pub use matching::matches_each;
pub use stack::Stack;
