// The mailboxes of all processes: what comes in, and what is found and taken.
#![tactic(auto)]

mod held;
mod mailbox_map;
pub mod mailboxes;
mod same;

pub use mailboxes::Mailboxes;
