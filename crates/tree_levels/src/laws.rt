// The laws of the jobs at one depth of a tree.
ghost use Rattle.tree_levels.specs.LevelExamples.{TwoEndBegin, TwoEndGoOn, TwoEndEnd, TwoEndHaveEnded, TwoEndAbove, TwoEndBelow, TwoEndAreFive, TwoTablesGoOn, TwoTablesAbove, TwoTablesBelow, OneKeyGoesOn, TwoWaitAreFound, TwoWaitAreFoundBelow, ReadIsFound, TwoTablesAreFive, TwoTablesAreCut};
ghost use Rattle.tree_levels.specs.LevelSums.{JobsShowWhatNodesShow, JobsCountTheirNodes, JobsShowInAnyOrder, JobsCountInAnyOrder, FindingsAreAboveAndBelow, CountsAreAboveAndBelow, CutsAreBelow, AllFindingsAreBelow, AllCountsAreBelow};
ghost use Rattle.tree_levels.specs.Levels.{JobsAreNodes, JobsCanBeTaken, NodesAreAboveAndBelow, AllNodesAreBelow};

/// The schedules of the jobs at a depth are those of the nodes at this depth, in the order of the search, of each tree
/// that is as deep.
pub fn jobs_are_nodes()
    ensures { JobsAreNodes }
{}

/// Each job at a depth has a schedule of so many steps that runs, and each step that sleeps after it is enabled there.
pub fn jobs_can_be_taken()
    ensures { JobsCanBeTaken }
{}

/// What the nodes of some jobs show and how many they are, and at how many of them the tree is cut, is the sum over the
/// jobs, in whatever order they come.
pub fn jobs_add_up()
    ensures findings { JobsShowWhatNodesShow }
    ensures counts { JobsCountTheirNodes }
    ensures findings_in_order { JobsShowInAnyOrder }
    ensures counts_in_order { JobsCountInAnyOrder }
{}

/// The nodes of a tree are those of the tree to a depth, and those of the jobs one step deeper. So its findings are
/// those of both, merged, and it has as many nodes as both; it is cut among those of the jobs alone. The one job at no
/// depth has all of them.
pub fn nodes_are_above_and_below()
    ensures nodes { NodesAreAboveAndBelow }
    ensures findings { FindingsAreAboveAndBelow }
    ensures counts { CountsAreAboveAndBelow }
    ensures cuts { CutsAreBelow }
    ensures all { AllNodesAreBelow }
    ensures all_findings { AllFindingsAreBelow }
    ensures all_counts { AllCountsAreBelow }
{}

/// The jobs at a few depths of small modules are as they were worked out by hand, with what sleeps after each; the
/// nodes above them and theirs are all nodes.
#[tactic(auto, unfolding(world_model::specs::World::contents))]
pub fn levels_have_their_jobs()
    ensures begin { TwoEndBegin }
    ensures sleeps { TwoEndGoOn }
    ensures last { TwoEndEnd }
    ensures none { TwoEndHaveEnded }
    ensures above { TwoEndAbove }
    ensures below { TwoEndBelow }
    ensures all { TwoEndAreFive }
{}

/// A node above the jobs may come after some of theirs in the order of the search, and a step that would sleep is awake
/// where one is taken that depends on it.
#[tactic(auto, unfolding(world_model::specs::World::contents))]
pub fn levels_are_in_order()
    ensures jobs { TwoTablesGoOn }
    ensures above { TwoTablesAbove }
    ensures below { TwoTablesBelow }
    ensures wakes { OneKeyGoesOn }
{}

/// What the jobs of small modules show and how many nodes they have is as it was worked out by hand.
#[tactic(auto, unfolding(world_model::specs::World::contents))]
pub fn jobs_show_their_nodes()
    ensures deadlock { TwoWaitAreFound }
    ensures deeper { TwoWaitAreFoundBelow }
    ensures second { ReadIsFound }
    ensures nodes { TwoTablesAreFive }
    ensures cuts { TwoTablesAreCut }
{}
