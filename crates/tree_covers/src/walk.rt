// The walk over the nodes of a tree, each before those below it. The tree is given by the line of each node.
ghost use Rattle.std.specs.Prelude.{◌≡◌, ◌∷◌, ◌++◌, [], IfOk, OnOk, MatchOption, IfSome};
ghost use Rattle.tree_covers.specs.Faults.{places_below};
ghost use Rattle.tree_covers.specs.inside.Frames.{AreEnabled, new_walk, place_of};
ghost use Rattle.world_model.specs.Asking.{program_of};

use crate::frame::{Frame, next_child, push_frame};
use crate::node::Node;
use core_tree::Module;
use std::alloc::Global;
use std::marker::Model;
use term_core::Step;
use world_core::WorldFault;

/// A walk: the root, as long as it was not taken, and the nodes that were taken, with children that were not. There is
/// one world for each of these. Contracts see the nodes that are to come.
#[derive(Drop)]
pub(crate) struct Walk<'m> {
    program: &'m Module,
    root: Option<Node<'m>>,
    frames: Vec<Frame<'m>>,
}

impl<'m> Model for Walk<'m> {
    ghost use Rattle.std.specs.Prelude.{◌++◌};
    ghost use Rattle.tree_covers.specs.inside.Codes.{coded_walk};
    ghost use Rattle.tree_covers.specs.inside.Frames.{IsWalk, WalkSeen, places_of_frames, places_of_root};

    ghost Value = { WalkSeen };

    ghost coded = { coded_walk };

    ghost view = { λ w. record { program = w.program.now; ahead = places_of_frames w.frames.items ++ places_of_root w.root } };

    ghost invariant = { λ w. IsWalk w.program.now w.root w.frames.items };
}

impl<'m> Walk<'m> {
    /// A walk over a tree of so many steps, at its beginning. `Memory` where there is no memory.
    pub(crate) fn new(
        alloc: Global,
        program: &'m Module,
        depth: u64,
    ) -> Result<Walk<'m>, WorldFault>
        ensures { IfOk result (λ walk. walk ≡ new_walk program.now depth) }
    {
        let root = Node::root(alloc, program, depth)?;
        Ok(Walk {
            program,
            root: Some(root),
            frames: Vec::new(alloc),
        })
    }

    /// Takes the next node, if one is to come. `Memory` where there is no memory.
    pub(crate) fn take(&mut self, alloc: Global) -> Result<Option<Node<'m>>, WorldFault>
        ensures next { IfOk result (λ next. MatchOption next (self.old.ahead ≡ []) (λ node. self.old.ahead ≡ place_of node ∷ self.new.ahead)) }
        ensures is_of { IfOk result (λ next. IfSome next (λ node. node.program ≡ self.old.program)) }
        ensures program { self.new.program ≡ self.old.program }
    {
        let Some(frame) = self.frames.pop() else {
            return Ok(self.root.take());
        };
        let node = next_child(alloc, frame, &mut self.frames)?;
        Ok(Some(node))
    }

    /// Goes on below a node that was taken, by its line: the nodes of its steps come next. `Memory` where there is no
    /// memory.
    pub(crate) fn go_below(&mut self, node: Node<'m>, line: Vec<Step>) -> Result<(), WorldFault>
        requires is_of { node.program ≡ self.old.program }
        requires enabled { AreEnabled (program_of node.program) node.history line.items }
        ensures next { OnOk result (self.new.ahead ≡ places_below (program_of node.entry.program) (place_of node.entry) line.items ++ self.old.ahead) }
        ensures program { self.new.program ≡ self.old.program }
    {
        push_frame(node, line, &mut self.frames)
    }
}
