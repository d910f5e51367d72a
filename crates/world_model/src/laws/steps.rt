// The laws of steps and schedules.
ghost use Rattle.world_model.specs.StepLaws.{EnabledAreListed, ListedAreEnabled, AreListedInOrder, IsRunOfSchedule, RunsAreReal};

/// The enabled steps of a history are listed, in their order, each once. Only turns of processes that were begun, and
/// deliveries of channels in which a signal was put, can be enabled.
pub fn enabled_steps_are_listed()
    ensures all { EnabledAreListed }
    ensures only { ListedAreEnabled }
    ensures order { AreListedInOrder }
{}

/// What really happens is the run of its schedule, and the run of a schedule is what really happens.
pub fn histories_are_runs()
    ensures run { IsRunOfSchedule }
    ensures real { RunsAreReal }
{}
