// The laws of the numbers of pids.
ghost use Rattle.world_pids.specs.NumberExamples.{SecondLives, SecondIsReached, FirstIsTooSmall};
ghost use Rattle.world_pids.specs.Numbers.{LivingAreNumbered, StepsAreNumbered, SchedulesAreNumbered};

/// In every run of a program, a process that lives has numbers from 1 to the number of events. In every run of a module
/// so has each process of a step that is enabled after it, and each process of its schedule.
pub fn pids_have_numbers_of_turns()
    ensures living { LivingAreNumbered }
    ensures enabled { StepsAreNumbered }
    ensures schedules { SchedulesAreNumbered }
{}

/// The child of the second of two turns has the number 2, and lives after them.
#[tactic(auto, unfolding(world_model::specs::World::contents))]
pub fn numbers_are_reached()
    ensures lives { SecondLives }
    ensures fits { SecondIsReached }
    ensures none_smaller { FirstIsTooSmall }
{}
