// The explored world as definitions, and the laws of these definitions. The only code are the enums that
// definitions and later code share.
#![tactic(auto)]

pub mod alias;
pub mod laws;
pub mod process;
pub mod rule;
pub mod table;
