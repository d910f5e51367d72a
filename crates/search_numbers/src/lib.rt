// What is known of the worlds of a search: each part of one is kept once and has a number, a world is a row of such
// numbers, and steps are remembered by the numbers of what they read.
#![tactic(auto)]

pub(crate) mod covering;
pub mod known;
pub mod laws;
pub(crate) mod learning;
pub mod look;
pub(crate) mod parts;
pub(crate) mod places;
pub(crate) mod remembered;
pub mod row;
pub mod steps;
pub mod store;
pub(crate) mod touch;

pub use known::Known;
pub use look::{Lasting, Look, Reader, Unknown};
pub use row::Row;
pub use steps::{enabled, first_at_once, goes_on};
pub use store::Store;
