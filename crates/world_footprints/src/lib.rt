// What a step did and what it would do, as values, and whether two such steps meet in a cell.
#![tactic(auto)]

pub mod comparing;
pub mod copying;
pub mod deed;
mod mask;
mod meeting;
pub mod plan;
pub mod view;

pub use comparing::meets;
pub use copying::{copy_deed, copy_owner};
pub use deed::{Deed, Event};
pub use plan::Plan;
