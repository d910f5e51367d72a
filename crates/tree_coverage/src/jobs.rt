// The laws of jobs.
ghost use Rattle.tree_coverage.specs.JobExamples.{TwoEndHasFive, TwoEndIsCovered, TwoJobsAreLeft, TwoNodesAreVisited, FirstHasTwo, SecondHasOne, DeeperIsVisitedFirst, FirstEndsAtTheDepth, TwoStepsAreCovered};
ghost use Rattle.tree_coverage.specs.Jobs.{RootHasAllNodes, JobsHaveTheirNodes};
ghost use Rattle.tree_coverage.specs.NodeTexts.{NodesHaveTexts};

/// The nodes of the root are all nodes of the tree. Whatever the budget, the nodes of open jobs are those that are
/// visited, and then those of the jobs that are open afterwards.
pub fn jobs_have_their_nodes()
    ensures root { RootHasAllNodes }
    ensures split { JobsHaveTheirNodes }
{}

/// The tree of a small module is split into jobs as it was worked out by hand.
#[tactic(auto, unfolding(world_model::specs::World::contents))]
pub fn jobs_are_split()
    ensures all { TwoEndHasFive }
    ensures cover { TwoEndIsCovered }
    ensures open { TwoJobsAreLeft }
    ensures visited { TwoNodesAreVisited }
    ensures first { FirstHasTwo }
    ensures second { SecondHasOne }
    ensures deeper { DeeperIsVisitedFirst }
    ensures depth { FirstEndsAtTheDepth }
    ensures end { TwoStepsAreCovered }
{}

/// In the tree of a module to a depth below 2^64, the pids of each node have numbers that a text may have: those of its
/// schedule, and those of the steps that are taken there.
pub fn nodes_have_texts()
    ensures { NodesHaveTexts }
{}
