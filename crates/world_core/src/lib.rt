// The explored world: what its processes, signals and tables are after a schedule, and what happened under it.
#![tactic(auto)]

mod events;
pub mod fault;
pub mod laws;
pub mod shows;
pub mod world;

pub use fault::WorldFault;
pub use shows::{push_deadlock, shown_by_plan};
pub use world::World;
pub use world_plans::{Deed, Event};
pub use world_steps::enabled_steps;
