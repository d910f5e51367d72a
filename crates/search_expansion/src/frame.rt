// A node that was visited, with children that were not.
ghost use Rattle.std.specs.Prelude.{◌≡◌, ◌==◌, ◌∷◌, ◌++◌, [], List, true, false, Some, IfOk, OnOk, map, take};
ghost use Rattle.core_tree.specs.Syntax.{ModuleTree};
ghost use Rattle.world_identities.specs.Identities.{identity_in};
ghost use Rattle.tree_coverage.specs.Jobs.{asleep_below};
ghost use Rattle.search_expansion.specs.declared.frame.Frame.{Frame as FrameOf};
ghost use Rattle.search_expansion.specs.inside.Nodes.{AddsDeadlock, IsNode};
ghost use Rattle.search_expansion.specs.inside.Walks.{AreAsleepBelow, AtNextChild, GoesOn, IsFrame, IsNextNode, Opens, Passes, node_seen};
ghost use Rattle.search_agenda.specs.Plans.{ArePlans};
ghost use Rattle.tree_cuts.specs.Cuts.{goes_on};
ghost use Rattle.world_model.specs.Events.{History};
ghost use Rattle.world_model.specs.Shown.{shown_last};

use crate::node::{Node, stepped};
use crate::sleeping::sleep_below;
use search_agenda::{Agenda, Plan};
use std::alloc::{AllocError, Global};
use std::mem::replace;
use std::rc::Rc;
use term_core::Step;
use world_core::{enabled_steps, push_deadlock, shown_by_plan};
use world_identities::Identity;
use world_records::Records;

/// A node that was visited: its records, how many steps lead to it, the plans of the steps that sleep for its next child,
/// that of the step to this child, those of the steps to the children after it, the last one first, how many steps may
/// follow a child, and its agenda.
#[derive(Drop)]
pub(crate) struct Frame<'m> {
    pub(crate) records: Records<'m>,
    pub(crate) taken: usize,
    pub(crate) slept: Vec<Rc<Plan>>,
    pub(crate) next: Rc<Plan>,
    pub(crate) after: Vec<Rc<Plan>>,
    pub(crate) left: u64,
    pub(crate) agenda: Agenda,
}

/// Puts the frame of a node, to which so many steps lead, on the stack, where it has children. `AllocError` if there is
/// no memory for it.
pub(crate) fn open<'m>(
    alloc: Global,
    node: Node<'m>,
    taken: usize,
    frames: &mut Vec<Frame<'m>>,
) -> Result<(), AllocError>
    ensures { OnOk result ((m : ModuleTree) (h : History) → IsNode m h node.entry → Opens m (node_seen m h node.entry) taken frames.old.items frames.new.items) }
{
    let Node {
        records,
        slept,
        left,
        agenda,
    } = node;
    if left == 0 {
        return Ok(());
    }
    let mut after = agenda.awake_backwards(alloc, slept.as_slice())?;
    let Some(next) = after.pop() else {
        return Ok(());
    };
    frames.push(Frame {
        records,
        taken,
        slept,
        next,
        after,
        left: left - 1,
        agenda,
    })?;
    Ok(())
}

/// Goes on to the child after the next one of the last frame of a stack, which is not visited; a frame without others
/// is gone. `AllocError` if there is no memory for it.
pub(crate) fn pass_child(frames: &mut Vec<Frame<'_>>) -> Result<(), AllocError>
    requires { frames.old.items ≡ [] → ⊥ }
    ensures { OnOk result ((below : List FrameOf) (top : FrameOf) → frames.old.items ≡ below ++ top ∷ [] → Passes below top frames.new.items) }
{
    let Some(frame) = frames.last_mut() else {
        unreachable!();
    };
    if frame.has_others() {
        frame.go_on()?;
        return Ok(());
    }
    let Some(frame) = frames.pop() else {
        unreachable!();
    };
    drop(frame);
    Ok(())
}

/// The node of the next child of the last frame of a stack, which goes on to the child after it. The last child takes
/// the records over, and its frame is gone. `AllocError` if there is no memory for it.
pub(crate) fn descend<'m>(
    alloc: Global,
    frames: &mut Vec<Frame<'m>>,
) -> Result<Node<'m>, AllocError>
    requires { frames.old.items ≡ [] → ⊥ }
    ensures passes { IfOk result (λ _. (below : List FrameOf) (top : FrameOf) → frames.old.items ≡ below ++ top ∷ [] → Passes below top frames.new.items) }
    ensures node { IfOk result (λ node. (below : List FrameOf) (top : FrameOf) → frames.old.items ≡ below ++ top ∷ [] → (m : ModuleTree) (h : History) → IsFrame m h top → IsNextNode m h top node) }
{
    let Some(frame) = frames.last_mut() else {
        unreachable!();
    };
    if frame.has_others() {
        let node = frame.fork_node(alloc)?;
        return Ok(node);
    }
    let Some(frame) = frames.pop() else {
        unreachable!();
    };
    let node = frame.into_node(alloc)?;
    Ok(node)
}

impl<'m> Frame<'m> {
    // Whether there are children after the next one.
    fn has_others(&self) -> bool
        ensures some { result ≡ true → self.now.after.items ≡ [] → ⊥ }
        ensures none { result ≡ false → self.now.after.items ≡ [] }
    {
        let others = self.after.len();
        others > 0
    }

    // Goes on to the child after the next one, whose step sleeps from now on.
    fn go_on(&mut self) -> Result<(), AllocError>
        requires { self.old.after.items ≡ [] → ⊥ }
        ensures { OnOk result (GoesOn self.old self.new) }
    {
        let Some(following) = self.after.pop() else {
            unreachable!();
        };
        let taken = replace(&mut self.next, following);
        self.slept.push(taken)?;
        Ok(())
    }

    // The node of the next child, with a copy of the records.
    fn copy_node(&self, alloc: Global) -> Result<Node<'m>, AllocError>
        ensures { IfOk result (λ node. (m : ModuleTree) (h : History) → IsFrame m h self.now → IsNextNode m h self.now node) }
    {
        let asleep = self.asleep(alloc)?;
        let records = self.records.copy()?;
        let node = Node::below(alloc, records, asleep, &self.next, self.left, &self.agenda)?;
        Ok(node)
    }

    // The node of the next child, and the frame goes on to the child after it.
    fn fork_node(&mut self, alloc: Global) -> Result<Node<'m>, AllocError>
        requires { self.old.after.items ≡ [] → ⊥ }
        ensures node { IfOk result (λ node. (m : ModuleTree) (h : History) → IsFrame m h self.old → IsNextNode m h self.old node) }
        ensures others { IfOk result (λ _. GoesOn self.old self.new) }
    {
        let node = self.copy_node(alloc)?;
        self.go_on()?;
        Ok(node)
    }

    // The node of the next child, which is the last one.
    fn into_node(self, alloc: Global) -> Result<Node<'m>, AllocError>
        ensures { IfOk result (λ node. (m : ModuleTree) (h : History) → IsFrame m h self.entry → IsNextNode m h self.entry node) }
    {
        let asleep = self.asleep(alloc)?;
        let Frame {
            records,
            taken: _,
            slept: _,
            next,
            after: _,
            left,
            agenda,
        } = self;
        let node = Node::below(alloc, records, asleep, &next, left, &agenda)?;
        Ok(node)
    }

    /// The plans of the steps that sleep at the next child; at the depth none is asked for. `AllocError` if there is no
    /// memory for them.
    pub(crate) fn asleep(&self, alloc: Global) -> Result<Vec<Rc<Plan>>, AllocError>
        ensures steps { IfOk result (λ asleep. AreAsleepBelow self.now asleep.items) }
        ensures below { IfOk result (λ asleep. AtNextChild self.now (λ a h. ArePlans a h asleep.items)) }
    {
        let slept = self.slept.as_slice();
        let asleep = sleep_below(alloc, slept, &self.next, self.left)?;
        Ok(asleep)
    }

    /// Whether its next child lies at the depth. It takes no memory.
    pub(crate) fn leads_to_a_leaf(&self) -> bool
        ensures { result ≡ (self.now.left == 0) }
    {
        self.left == 0
    }

    /// Makes a path that of the next child: the steps that lead to this node are at its front. `AllocError` if there is
    /// no memory for it.
    pub(crate) fn follow(&self, path: &mut Vec<Step>) -> Result<(), AllocError>
        ensures { OnOk result (path.new.items ≡ take self.now.taken path.old.items ++ self.now.next.value.step ∷ []) }
    {
        path.truncate(self.taken);
        path.push(self.next.step.copy()?)?;
        Ok(())
    }

    /// What the last event of the next child shows, by its plan. `AllocError` if there is no memory for it.
    pub(crate) fn shown_next(&self, alloc: Global) -> Result<Vec<Identity>, AllocError>
        ensures { IfOk result (λ found. AtNextChild self.now (λ a h. map identity_in found.items ≡ shown_last h)) }
    {
        let shown = shown_by_plan(&self.records, alloc, &self.next)?;
        Ok(shown)
    }

    /// Puts the deadlock of the next child after other identities, where no step is enabled there and some process
    /// lives, and then what is unread there, and says whether a step is enabled. No records are made where it is plain
    /// that one is. `AllocError` if there is no memory for it.
    pub(crate) fn add_deadlock(
        &self,
        alloc: Global,
        shown: &mut Vec<Identity>,
    ) -> Result<bool, AllocError>
        ensures adds { OnOk result (AtNextChild self.now (λ a h. AddsDeadlock a h shown.old.items shown.new.items)) }
        ensures lives { IfOk result (λ lives. AtNextChild self.now (λ a h. lives ≡ goes_on a (Some h))) }
    {
        if self.agenda.lives_below(&self.next) {
            return Ok(true);
        }
        let records = stepped(alloc, self.records.copy()?, &self.next)?;
        let enabled = enabled_steps(&records, alloc)?;
        if !enabled.is_empty() {
            return Ok(true);
        }
        push_deadlock(&records, alloc, shown)?;
        Ok(false)
    }
}
