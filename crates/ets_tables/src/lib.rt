// The tables of a world, the names under which they are found, and who has them.
#![tactic(auto)]

mod entry;
pub mod laws;
mod name_map;
pub mod registry;
mod sameness;
mod shelves;
pub mod transfers;

pub use registry::Registry;
pub use transfers::{Transfer, handle, transfer_message};
