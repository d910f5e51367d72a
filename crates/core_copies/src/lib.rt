// A module with memory of its own: each part is made anew, and nothing is shared with the module that is copied.
#![tactic(auto)]

mod constants;
mod expressions;
mod modules;
mod names;
mod patterns;

pub use modules::copy_module;
