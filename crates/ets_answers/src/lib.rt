// What a call comes to at a table that is found: the rule that refuses its caller or its arguments, its answer, and the
// rows that it reads and writes.
#![tactic(auto)]

pub mod answers;
pub mod counted;
pub mod counters;
pub mod items;
pub mod judging;
pub mod rules;
pub mod touched;

pub use answers::{answer, one_is_there};
pub use counted::{Counted, counted_by};
pub use judging::argument_rule;
pub use rules::{caller_rule, class_of, rule_of_none};
pub use touched::{Touched, rows_read, rows_written};
