// Whether the names of a module are bound, defined and exported, and its guards without effect (Core Erlang 1.0.3,
// "Lexical scoping" and "Static constraints").
#![tactic(auto)]

pub mod draft;
pub mod functions;
mod scopes;

pub use core_tokens::ReadFault;
pub use core_tree::Module;
pub use draft::{Defined, Draft, Front};
pub use functions::closed_module;
