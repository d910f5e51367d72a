// What each step of a world would do, how it is done, which steps are enabled, and which are independent.
#![tactic(auto)]

mod delivery;
mod enabled;
mod independence;
pub mod laws;
mod performing;
mod step;
mod turn;
mod waiting;

pub use enabled::is_enabled;
pub use independence::{are_independent, asleep_below};
pub use performing::perform;
pub use step::plan_step;
pub use world_footprints::{Deed, Event, Plan, copy_deed, copy_owner, meets};
pub use world_planned::{Planned, Refusal, Reply};
