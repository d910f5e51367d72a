// What processes send to one another: the signals on their way, and the mailboxes in which messages wait.
#![tactic(auto)]

mod channel;
pub mod channels;
pub mod mailbox;
mod messages;
mod queue;
mod senders;
pub mod signal;

pub use channels::Channels;
pub use mailbox::{Mailbox, Selector};
pub use signal::Signal;
