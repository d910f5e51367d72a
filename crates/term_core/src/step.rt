// Steps of a schedule.
use crate::pid::Pid;

/// One step of a schedule: a turn of a process, or the delivery of the front of the channel from the
/// first process to the second.
#[derive(Drop)]
pub enum Step {
    Turn(Pid),
    Deliver(Pid, Pid),
}
