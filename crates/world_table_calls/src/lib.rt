// What each call of a table would do: its reply, the cells that it reads, and what it changes.
#![tactic(auto)]

pub mod on_tables;

pub use on_tables::plan_table_call;
