// A node whose line is to come.
ghost use Rattle.std.specs.Prelude.{◌≡◌, false, None, Some, IfOk};
ghost use Rattle.core_tree.specs.Syntax.{ModuleTree};
ghost use Rattle.tree_covers.specs.Faults.{root_place};
ghost use Rattle.tree_covers.specs.inside.Frames.{place_of};
ghost use Rattle.world_core.specs.Seen.{program_in};
ghost use Rattle.world_model.specs.Run.{extended, next_event};
ghost use Rattle.tree_sleep.specs.Reached.{IsReached};

use core_tree::Module;
use std::alloc::Global;
use std::marker::Model;
use term_core::Step;
use world_core::{World, WorldFault};

/// A node: its world, the steps that sleep there, and how many steps may follow.
#[derive(Drop)]
pub(crate) struct Node<'m> {
    pub(crate) world: World<'m>,
    pub(crate) slept: Vec<Step>,
    pub(crate) left: u64,
}

impl<'m> Model for Node<'m> {
    ghost use Rattle.tree_covers.specs.inside.Codes.{coded_node};
    ghost use Rattle.tree_covers.specs.inside.Frames.{NodeSeen};
    ghost use Rattle.tree_sleep.specs.Reached.{IsReached};

    ghost Value = { NodeSeen };

    ghost coded = { coded_node };

    ghost view = { λ n. record { program = n.world.program; history = n.world.history; slept = n.slept.items; left = n.left } };

    ghost invariant = { λ n. IsReached n.world };
}

impl<'m> Node<'m> {
    /// The node of no step. `Memory` where there is no memory.
    pub(crate) fn root(
        alloc: Global,
        program: &'m Module,
        depth: u64,
    ) -> Result<Node<'m>, WorldFault>
        ensures program { IfOk result (λ node. node.program ≡ program.now) }
        ensures place { IfOk result (λ node. place_of node ≡ root_place depth) }
    {
        Ok(Node {
            world: World::open(alloc, program)?,
            slept: Vec::new(alloc),
            left: depth,
        })
    }

    /// The node that an enabled step leads to, from a world that is taken over. `Memory` where there is no memory.
    pub(crate) fn below(
        alloc: Global,
        world: World<'m>,
        slept: Vec<Step>,
        step: &Step,
        left: u64,
    ) -> Result<Node<'m>, WorldFault>
        requires reached { IsReached world }
        requires enabled { next_event (program_in world) world.history step.now ≡ None → ⊥ }
        ensures program { IfOk result (λ node. node.program ≡ world.entry.program) }
        ensures history { IfOk result (λ node. extended world.entry.history (next_event (program_in world.entry) world.entry.history step.now) ≡ Some node.history) }
        ensures slept { IfOk result (λ node. node.slept ≡ slept.items) }
        ensures left { IfOk result (λ node. node.left ≡ left) }
    {
        let mut world = world;
        match world.step(alloc, step) {
            Ok(()) => Ok(Node { world, slept, left }),
            Err(WorldFault::Memory) => Err(WorldFault::Memory),
            Err(WorldFault::NotEnabled) => unreachable!(),
        }
    }
}
