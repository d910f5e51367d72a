// The words of the command line: what the program is asked to do.
#![tactic(auto)]

pub mod command_line;
mod excused;
mod help;
pub mod refusals;
pub mod words;

pub use command_line::{BUDGET, NAME};
pub use refusals::{text_of_no_term, text_of_too_deep};
pub use words::{Printed, Words, read_words};
