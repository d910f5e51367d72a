// Laws of cuts: a tree that is cut nowhere at its depth says everything about schedules of whatever length.
ghost use Rattle.tree_cuts.specs.CutExamples.{IdleIsCut, IdleIsUncut, TwoWaitAreUncut, TwoEndAreCut, TwoEndAreUncut, TwoTablesAreCut, TwoTablesAreUncut};
ghost use Rattle.tree_cuts.specs.Cuts.{NodesTellCuts, CutsAddUp, CutsAreSome, CutsInAnyOrder, RootHasAllCuts, JobsHaveTheirCuts, CutsAreExact, UncutTreesAreWhole, UncutRootsAreWhole, UncutFindingsAreWhole, UncutErrorsAreExact, UncutRefusalsAreExact, UncutTreesShowNoError};

/// A tree is cut at a node at its depth after which some step is enabled. It is cut nowhere exactly where no schedule
/// that runs has more steps than the tree is deep; and for each node its own history decides.
pub fn cuts_are_exact()
    ensures lengths { CutsAreExact }
    ensures nodes { NodesTellCuts }
{}

/// How often trees are cut adds up: over schedules, in whatever order, and over open jobs, whatever the budget. A tree
/// is cut at no more schedules than it has.
pub fn cuts_add_up()
    ensures schedules { CutsAddUp }
    ensures some { CutsAreSome }
    ensures order { CutsInAnyOrder }
    ensures root { RootHasAllCuts }
    ensures jobs { JobsHaveTheirCuts }
{}

/// A tree that is cut nowhere has the nodes of each deeper one, with the same steps taken there, and its findings.
pub fn uncut_trees_are_whole()
    ensures schedules { UncutTreesAreWhole }
    ensures nodes { UncutRootsAreWhole }
    ensures findings { UncutFindingsAreWhole }
{}

/// Where a tree is cut nowhere, an error under the flags, and a refusal, is among its findings exactly where some
/// schedule shows it, of whatever length. So where it finds no error, no schedule shows one.
pub fn uncut_findings_are_exact()
    ensures errors { UncutErrorsAreExact }
    ensures refusals { UncutRefusalsAreExact }
    ensures none { UncutTreesShowNoError }
{}

/// The trees of small modules are cut where that was worked out by hand: one step short of their end at each node of
/// so many steps, also where the step that is enabled sleeps, and nowhere at the depth at which they end.
#[tactic(auto, unfolding(world_model::specs::World::contents))]
pub fn trees_have_their_cuts()
    ensures begun { IdleIsCut }
    ensures ended { IdleIsUncut }
    ensures waits { TwoWaitAreUncut }
    ensures sleeps { TwoEndAreCut }
    ensures whole { TwoEndAreUncut }
    ensures independent { TwoTablesAreCut }
    ensures deeper { TwoTablesAreUncut }
{}
