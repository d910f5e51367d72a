// What a whole tree covers, at a toy: two players take stones from a bag.
ghost use Rattle.std.specs.Prelude.{◌≡◌, ◌↔◌, ℕ, Bool, true, false, List, [], length};
ghost use Rattle.tree_sleep_sets.specs.Certificate.{Cover, Node, NoMore, Also, leaf, written};
ghost use Rattle.tree_sleep_sets.specs.Coverage.{CoversSchedules, CoversSigns};
ghost use Rattle.tree_sleep_sets.specs.Nodes.{paths};
ghost use Rattle.tree_sleep_sets.specs.Search.{search, is_whole};
ghost use Rattle.tree_sleep_sets.specs.Toy.{stones, players, signs};
ghost use Rattle.tree_sleep_sets.specs.Tree.{IsPath, Includes};
/// The tree of the search has a node for each schedule, up to swaps, and shows what the schedules show.
pub fn searches_cover()
    ensures schedules { (bag n : ℕ) (w : List Bool) → CoversSchedules (stones bag) (search (stones bag) (players bag)) n tt w }
    ensures signs { (bag n : ℕ) (w : List Bool) → CoversSigns (stones bag) (signs bag) (search (stones bag) (players bag)) n tt w }
{}

/// So does each tree that is written down and passes the test.
pub fn tested_trees_cover()
    ensures schedules { (bag n : ℕ) (c : Cover Bool) (w : List Bool) → is_whole (stones bag) (players bag) (written (stones bag)) n c w [] ≡ true → CoversSchedules (stones bag) (written (stones bag)) n c w }
    ensures signs { (bag n : ℕ) (c : Cover Bool) (w : List Bool) → is_whole (stones bag) (players bag) (written (stones bag)) n c w [] ≡ true → CoversSigns (stones bag) (signs bag) (written (stones bag)) n c w }
{}

/// The listed paths are those of the nodes.
pub fn nodes_are_listed()
    ensures listed { (bag n : ℕ) (w p : List Bool) → Includes (paths (stones bag) (search (stones bag) (players bag)) n tt w []) p ↔ IsPath (stones bag) (search (stones bag) (players bag)) n tt w [] p }
    ensures pruned { length (paths (stones 2) (search (stones 2) (players 2)) 2 tt [] []) ≡ 6 }
{}

/// A tree that takes the players in the other order at the root, and leaves out what sleeps, passes the
/// test; one that leaves out a step that does not sleep is refused.
pub fn trees_are_tested()
    ensures passes { is_whole (stones 3) (players 3) (written (stones 3)) 2 (Node (Also false (Node (Also true leaf (Also false leaf NoMore))) (Also true (Node (Also true leaf NoMore)) NoMore))) [] [] ≡ true }
    ensures refused { is_whole (stones 2) (players 2) (written (stones 2)) 2 (Node (Also false (Node (Also true leaf (Also false leaf NoMore))) (Also true (Node NoMore) NoMore))) [] [] ≡ false }
{}
