// The laws of all schedules, by when signals are delivered in them.
ghost use Rattle.tree_schedules.specs.Schedules.{AllAreListed, ErrorsAreOfAll, RefusalsAreOfAll, ErrorsAreLeast, RefusalsAreLeast, TreesFindTheSame, PromptErrorsAreErrors};
ghost use Rattle.tree_schedules.specs.Deliveries.{PromptStepsAreLeast};
ghost use Rattle.tree_schedules.specs.PromptExamples.{FirstDeliveryIsTaken, KillIsDelivered, KillMayWait, OtherSignalComesFirst, TimerIsNoHurry, TurnsAreTaken};
ghost use Rattle.tree_schedules.specs.StandIns.{StandInsFindAll};

/// Where signals are delivered at once, what may be taken is the least enabled delivery of a signal that arrives at once, or
/// each enabled step where none is.
pub fn prompt_steps_are_least()
    ensures { PromptStepsAreLeast }
{}

/// The schedules of at most so many steps that run are listed, or those of them that are prompt.
pub fn schedules_are_listed()
    ensures { AllAreListed }
{}

/// What they show is found, each identity once, with the least of all schedules that show it. The tree finds the same as all
/// schedules, and what prompt schedules show is found among it.
pub fn findings_are_of_all()
    ensures errors { ErrorsAreOfAll }
    ensures refusals { RefusalsAreOfAll }
    ensures least_errors { ErrorsAreLeast }
    ensures least_refusals { RefusalsAreLeast }
    ensures trees { TreesFindTheSame }
    ensures prompt { PromptErrorsAreErrors }
{}

/// Schedules that stand for all of them show the same, each with the same schedule.
pub fn stand_ins_find_all()
    ensures { StandInsFindAll }
{}

/// Which steps may be taken while signals are on their way, and the schedules of a small module.
#[tactic(auto, unfolding(world_model::specs::World::contents))]
pub fn prompt_schedules_are_computed()
    ensures first { FirstDeliveryIsTaken }
    ensures turns { TurnsAreTaken }
    ensures timer { TimerIsNoHurry }
    ensures other { OtherSignalComesFirst }
    ensures delivered { KillIsDelivered }
    ensures waits { KillMayWait }
{}
