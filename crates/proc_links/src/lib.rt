// What processes are to each other: links, watches and names, and what becomes of the signals that are
// about them.
#![tactic(auto)]

pub mod effect;
pub mod guards;
pub mod links;
pub mod living;
pub mod names;
pub mod process;
pub mod signal;
pub mod watchers;

pub use effect::{Effect, Sender, down_message, exit_message, on_exit};
pub use guards::{Guard, Guards};
pub use links::{Linking, Links};
pub use living::Living;
pub use names::{Names, Naming};
pub use process::{Exits, Life};
pub use signal::{on_end, on_signal};
pub use watchers::Watchers;
