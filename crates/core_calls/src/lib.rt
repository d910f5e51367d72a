// The calls of programs, by name and number of arguments: those of the explored world, and those that a process answers by
// itself.
#![tactic(auto)]

pub mod call;
pub mod pure;
mod signature;

pub use call::{CALLS, CallKind};
pub use pure::{PURE_CALLS, PureCall};
