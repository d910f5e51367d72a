// The machine that runs one process of a module, from one request of the world to the next.
#![tactic(auto)]

mod allowed;
mod build;
mod control;
mod enter;
mod entry;
mod exception;
mod leave;
pub mod machine;
mod pure;
mod receiving;
pub mod request;
mod run;
mod selection;

pub use machine::{Machine, start};
pub use request::{Answer, Request};
