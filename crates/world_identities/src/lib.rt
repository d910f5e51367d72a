// What a schedule shows, the order of that, and which of it are errors.
#![tactic(auto)]

pub mod flags;
pub mod identity;
pub mod order;

pub use flags::Flags;
pub use identity::{Identity, has_first};
pub use order::number_of_rule;
