// Terms of the explored programs, their order and texts, the steps of a schedule, and the streams
// that every layer reads and writes.
#![tactic(auto)]

pub mod atom;
pub mod build;
pub mod copy;
pub mod hash;
pub mod kinds;
pub mod nodes;
pub mod order;
pub mod parts;
pub mod pid;
pub mod schedule;
pub mod step;
pub mod stream;
pub mod term;
pub mod term_text;
pub mod text;
pub mod word;

pub use atom::Atom;
pub use build::list_onto;
pub use order::steps::compare_schedules;
pub use pid::{Pid, RefId};
pub use schedule::{ScheduleFault, read_schedule};
pub use step::Step;
pub use stream::{Input, Output, Sink, Source, WriteFault, write_all};
pub use term::{Pair, Term, Terms};
pub use term_text::write_term;
pub use text::{
    write_atom, write_integer, write_number, write_pid, write_reference, write_schedule, write_step,
};
pub use word::Word;
