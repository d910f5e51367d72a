// A search by states, level by level: of the schedules of one length that lead to the same one goes on, the first to come,
// which is the least. Signals are delivered at any time in these schedules, or at once.
#![tactic(auto)]

pub(crate) mod advancing;
pub mod arrival;
pub(crate) mod expanding;
pub(crate) mod following;
pub mod index;
pub(crate) mod indexed;
pub mod observer;
pub(crate) mod path;
pub mod rows;
pub mod search;
pub(crate) mod share;
pub mod span;
pub mod worlds;

pub use arrival::Arrival;
pub use index::{Index, Probe};
pub use observer::{LevelObserver, Unobserved};
pub use rows::{Rows, Seen};
pub use search::{Bounds, Searched, search_levels};
pub use worlds::Worlds;
