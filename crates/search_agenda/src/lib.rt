// The agenda of a node: what each step that may be taken there would do, and how it is taken over below a step.
#![tactic(auto)]

mod above;
pub mod agenda;
pub mod laws;
mod lent;
pub mod plan;
mod planning;
pub mod sleeping;

pub use agenda::Agenda;
pub use plan::share;
pub use sleeping::asleep_below;
pub use world_plans::Plan;
