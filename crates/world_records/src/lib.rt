// The records of a world: its processes with their mailboxes, channels, links, watches, names and tables as one value,
// and what each change of the explored world does to it.
#![tactic(auto)]

pub mod apply;
mod apply_processes;
mod bonds;
pub mod cell;
pub mod change;
pub mod mail;
pub mod place;
pub mod records;
pub mod turns;

pub use cell::{Cell, ChannelPart, NamePart, ProcessPart, ReferencePart};
pub use change::Change;
pub use place::Place;
pub use records::Records;
