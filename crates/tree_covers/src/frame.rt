// A node that was visited, with children that were not.
ghost use Rattle.std.specs.Prelude.{◌≡◌, ◌∷◌, ◌++◌, reverse, IfOk, OnOk};
ghost use Rattle.core_tree.specs.Syntax.{ModuleTree};
ghost use Rattle.tree_covers.specs.Faults.{places_below};
ghost use Rattle.tree_covers.specs.inside.Frames.{AreEnabled, AreFramesOf, place_of, places_of_frame, places_of_frames};
ghost use Rattle.world_model.specs.Asking.{program_of};

use crate::node::Node;
use crate::sleeping::sleep_within;
use std::alloc::Global;
use std::marker::Model;
use term_core::Step;
use world_core::{World, WorldFault};

/// A node that was visited: its world, the steps that sleep for its next child, the step to that child, the steps to the
/// children after it, the last one first, and how many steps may follow a child.
#[derive(Drop)]
pub(crate) struct Frame<'m> {
    world: World<'m>,
    slept: Vec<Step>,
    next: Step,
    after: Vec<Step>,
    left: u64,
}

impl<'m> Model for Frame<'m> {
    ghost use Rattle.std.specs.Prelude.{◌∷◌, reverse};
    ghost use Rattle.tree_covers.specs.inside.Codes.{coded_frame};
    ghost use Rattle.tree_covers.specs.inside.Frames.{FrameSeen, IsFrame};

    ghost Value = { FrameSeen };

    ghost coded = { coded_frame };

    ghost view = { λ f. record { program = f.world.program; history = f.world.history; slept = f.slept.items; line = f.next ∷ reverse f.after.items; left = f.left } };

    ghost invariant = { λ f. IsFrame f.world (f.next ∷ reverse f.after.items) };
}

/// Puts the frame of a node with this line on the stack, where it has children. `Memory` where there is no memory.
pub(crate) fn push_frame<'m>(
    node: Node<'m>,
    line: Vec<Step>,
    frames: &mut Vec<Frame<'m>>,
) -> Result<(), WorldFault>
    requires { AreEnabled (program_of node.program) node.history line.items }
    ensures places { OnOk result (places_of_frames frames.new.items ≡ places_below (program_of node.entry.program) (place_of node.entry) line.items ++ places_of_frames frames.old.items) }
    ensures are_of { (m : ModuleTree) → node.entry.program ≡ m → AreFramesOf m frames.old.items → AreFramesOf m frames.new.items }
{
    let Node { world, slept, left } = node;
    if left == 0 {
        return Ok(());
    }
    let mut after = line;
    after.reverse();
    let Some(next) = after.pop() else {
        return Ok(());
    };
    frames.push(Frame {
        world,
        slept,
        next,
        after,
        left: left - 1,
    })?;
    Ok(())
}

/// The node of the next child of a frame; the other children go back on the stack. The last child takes the world over.
/// `Memory` where there is no memory.
pub(crate) fn next_child<'m>(
    alloc: Global,
    frame: Frame<'m>,
    frames: &mut Vec<Frame<'m>>,
) -> Result<Node<'m>, WorldFault>
    ensures places { IfOk result (λ node. places_of_frame frame.entry ++ places_of_frames frames.old.items ≡ place_of node ∷ places_of_frames frames.new.items) }
    ensures program { IfOk result (λ node. node.program ≡ frame.entry.program) }
    ensures are_of { (m : ModuleTree) → frame.entry.program ≡ m → AreFramesOf m frames.old.items → AreFramesOf m frames.new.items }
{
    let Frame {
        world,
        slept,
        next,
        after,
        left,
    } = frame;
    let asleep = sleep_within(alloc, &world, slept.as_slice(), &next, left)?;
    let mut after = after;
    let Some(following) = after.pop() else {
        return Node::below(alloc, world, asleep, &next, left);
    };
    let node = Node::below(alloc, world.copy()?, asleep, &next, left)?;
    let mut slept = slept;
    slept.push(next)?;
    frames.push(Frame {
        world,
        slept,
        next: following,
        after,
        left,
    })?;
    Ok(node)
}
