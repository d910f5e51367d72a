// The tables of a world: which call of a table is refused by which rule, what the others answer, change and send, where
// tables go when their owner ends, and how each change is done.
#![tactic(auto)]

pub mod apply;
pub mod change;
mod changes;
pub mod creating;
pub mod ends;
pub mod found;
pub mod judge;
pub mod leaving;
pub mod make;
mod owning;
pub mod rewriting;
mod rows;
pub mod serving;
pub mod shelving;
pub mod tables;

pub use apply::Done;
pub use change::{RowChange, TableChange};
pub use creating::{Created, create};
pub use ets_tables::Transfer;
pub use found::FoundTable;
pub use judge::{judge_found, owner_of_found};
pub use leaving::{Passed, pass_on};
pub use serving::{Served, serve};
pub use tables::Tables;
