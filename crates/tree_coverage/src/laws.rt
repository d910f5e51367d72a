// The laws of the tree of schedules.
ghost use Rattle.std.specs.Prelude.{ℕ, []};
ghost use Rattle.world_model.specs.Requests.{Program};
ghost use Rattle.tree_sleep_sets.specs.Coverage.{CoversSchedules, CoversSigns};
ghost use Rattle.tree_sleep_sets.specs.Search.{search};
ghost use Rattle.tree_coverage.specs.Explored.{explored, choice, signs};
ghost use Rattle.tree_coverage.specs.FindingExamples.{IdleIsClean, StrangerIsFound, StrangerIsStrange, ReadIsFound, ReadIsStrange, LatePutIsFound, FourStepsAreClean, SleepIsNoDeadlock, TwoWaitHaveOne, TwoWaitHaveTwo, DeadlockIsFound, NoStepIsClean, AllowedIsClean, BothEndsAreFound, SecondIsFound, FiveStepsAreClean, EndlessHasTwo, EndlessIsFound};
ghost use Rattle.tree_coverage.specs.Findings.{FindingsAreSorted, ErrorsAreExact, RefusalsAreExact, ErrorsAreOfNodes, RefusalsAreOfNodes};
ghost use Rattle.tree_coverage.specs.Shown.{NodesShowTheSame, StrangerShows};
ghost use Rattle.tree_coverage.specs.Trees.{NodesRun, NodesAreInOrder, NodesCover, IdleHasOne, IdleHasTwo, TwoTablesHaveTen, StrangerHasTen, PrivateReadHasFive, TwoKeysHaveEight, TwoKeysHaveThirteen, UnlinkedHaveSeventeen, UnlinkedHaveNineteen};

/// The search by sleep sets has a node for each schedule of at most so many steps, up to swaps of
/// independent steps, and its nodes show the identities that these schedules show.
pub fn searches_cover()
    ensures schedules { (a : Program) (n : ℕ) → CoversSchedules (explored a) (search (explored a) (choice a)) n tt [] }
    ensures signs { (a : Program) (n : ℕ) → CoversSigns (explored a) (signs a) (search (explored a) (choice a)) n tt [] }
{}

/// The schedules of the nodes run and have at most so many steps; they are listed in their order, each once; and
/// each schedule of at most so many steps that runs is equivalent to one of them.
pub fn nodes_are_listed()
    ensures runs { NodesRun }
    ensures order { NodesAreInOrder }
    ensures cover { NodesCover }
{}

/// An identity is shown by some schedule of at most so many steps exactly where a schedule of the list shows it.
pub fn nodes_show_what_schedules_show()
    ensures { NodesShowTheSame }
{}

/// The findings are in order, each identity once: an error under the flags, and a refusal, is among them exactly
/// where some schedule of at most so many steps shows it.
pub fn findings_are_exact()
    ensures order { FindingsAreSorted }
    ensures errors { ErrorsAreExact }
    ensures refusals { RefusalsAreExact }
{}

/// Each finding has the schedule of a node that shows it, and of these the least.
pub fn findings_are_of_nodes()
    ensures errors { ErrorsAreOfNodes }
    ensures refusals { RefusalsAreOfNodes }
{}

/// The trees of small modules are as they were worked out by hand: what is independent is taken in one order, what
/// is not in both.
#[tactic(auto, unfolding(world_model::specs::World::contents))]
pub fn trees_have_their_nodes()
    ensures none { IdleHasOne }
    ensures one { IdleHasTwo }
    ensures independent { TwoTablesHaveTen }
    ensures dependent { StrangerHasTen }
    ensures refused { PrivateReadHasFive }
    ensures keys { TwoKeysHaveEight }
    ensures deeper { TwoKeysHaveThirteen }
{}

/// What the signal of a link that is gone does is the same whether exits are trapped or not.
#[tactic(auto, unfolding(world_model::specs::World::contents))]
pub fn dropped_signals_read_no_flag()
    ensures five { UnlinkedHaveSeventeen }
    ensures six { UnlinkedHaveNineteen }
{}

/// A stranger writes a protected table: the tree shows both of its refusals, and its end.
#[tactic(auto, unfolding(world_model::specs::World::contents))]
pub fn trees_show_refusals()
    ensures { StrangerShows }
{}

/// What is found in the trees of small modules is as it was worked out by hand.
#[tactic(auto, unfolding(world_model::specs::World::contents))]
pub fn trees_have_their_findings()
    ensures idle { IdleIsClean }
    ensures stranger { StrangerIsFound }
    ensures strict { StrangerIsStrange }
{}

/// A process reads a table of another, and one writes a table of another too late.
#[tactic(auto, unfolding(world_model::specs::World::contents))]
pub fn trees_find_what_is_refused()
    ensures read { ReadIsFound }
    ensures strict { ReadIsStrange }
    ensures late { LatePutIsFound }
    ensures shorter { FourStepsAreClean }
{}

/// No step is enabled where two processes wait for ever, and that is found unless it is allowed.
#[tactic(auto, unfolding(world_model::specs::World::contents))]
pub fn trees_find_deadlocks()
    ensures none { TwoWaitHaveOne }
    ensures one { TwoWaitHaveTwo }
    ensures waits { DeadlockIsFound }
    ensures begun { NoStepIsClean }
    ensures allowed { AllowedIsClean }
{}

/// Where all that is enabled sleeps, nothing is found.
#[tactic(auto, unfolding(world_model::specs::World::contents))]
pub fn sleep_is_no_deadlock()
    ensures { SleepIsNoDeadlock }
{}

/// A message comes before a timeout, or after it: both ends are found.
#[tactic(auto, unfolding(world_model::specs::World::contents))]
pub fn trees_find_both_ends()
    ensures { BothEndsAreFound }
{}

/// Of two messages that a receive selects the second may come first, where the schedule is long enough.
#[tactic(auto, unfolding(world_model::specs::World::contents))]
pub fn trees_find_the_second()
    ensures found { SecondIsFound }
    ensures shorter { FiveStepsAreClean }
{}

/// A process that makes too many applications in a row is found.
#[tactic(auto, unfolding(world_model::specs::World::contents))]
pub fn trees_find_runaways()
    ensures one { EndlessHasTwo }
    ensures runs { EndlessIsFound }
{}
