// The laws of covers.
ghost use Rattle.tree_coverage.specs.CoverExamples.{OwnOrderIsGood, OtherOrderIsGood, SleepingStepIsGood, BothOrdersAreGood, RefusalIsGood, MissingBranchIsRefused, LaterStepIsWanted, WokenStepIsWanted, StepTwiceIsRefused, StrangeStepIsRefused, StepAtTheDepthIsRefused, ShortCoverIsRefused, LongCoverIsRefused, ErrorIsRefused};
ghost use Rattle.tree_coverage.specs.Covers.{CoversShowNoError, OwnCoversAreGood};

/// Where lines are a good cover, no schedule of at most so many steps shows anything that counts as an error, whoever
/// wrote the lines and in whatever order they take their steps. Any test of what schedules show may say what counts.
pub fn covers_show_no_error()
    ensures { CoversShowNoError }
{}

/// Where no schedule of at most so many steps shows anything that counts as an error, the lines that the search writes
/// are a good cover.
pub fn own_covers_are_good()
    ensures { OwnCoversAreGood }
{}

/// Lines in the order of the search and in another one are good covers, also where a step that sleeps is taken, or
/// where a refused call is no error under the flags.
#[tactic(auto, unfolding(world_model::specs::World::contents))]
pub fn covers_are_good()
    ensures own { OwnOrderIsGood }
    ensures other { OtherOrderIsGood }
    ensures sleeping { SleepingStepIsGood }
    ensures dependent { BothOrdersAreGood }
    ensures refusal { RefusalIsGood }
{}

/// Lines are no good cover where a step that is enabled and awake is not taken, a step occurs twice, is not enabled or
/// is taken at the depth, lines are missing or left over, or a node shows an error.
#[tactic(auto, unfolding(world_model::specs::World::contents))]
pub fn covers_are_refused()
    ensures missing { MissingBranchIsRefused }
    ensures later { LaterStepIsWanted }
    ensures woken { WokenStepIsWanted }
    ensures twice { StepTwiceIsRefused }
    ensures strange { StrangeStepIsRefused }
    ensures deep { StepAtTheDepthIsRefused }
    ensures short { ShortCoverIsRefused }
    ensures long { LongCoverIsRefused }
    ensures error { ErrorIsRefused }
{}
