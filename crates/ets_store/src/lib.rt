// The rows of a table: the objects under each of its keys, as the calls of `ets` put them in, find them
// and take them out.
#![tactic(auto)]

pub mod laws;
pub mod lists;
pub mod object;
pub mod objects;
pub(crate) mod row_map;
pub mod rows;
pub(crate) mod sameness;
pub mod table;
pub mod walks;
pub mod writes;

pub use object::Object;
pub use rows::Rows;
pub use table::{Heir, Table};
