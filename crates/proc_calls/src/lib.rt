// What a process asks of processes: which call of processes a request is, and what each of its arguments is.
#![tactic(auto)]

pub mod argument;
pub mod call;
pub mod guarding;
pub mod options;
pub mod request;
pub mod spawning;

pub use argument::{Destination, MonitorType, process_item_in};
pub use call::ProcessCall;
pub use guarding::Naming;
pub use options::{Flushing, Trapping};
pub use request::ProcessRequest;
pub use spawning::{Origin, SpawnWay};
