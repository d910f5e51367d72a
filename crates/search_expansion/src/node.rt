// A node that is to be visited.
ghost use Rattle.std.specs.Prelude.{◌≡◌, ◌==◌, ◌&&◌, Some, IfOk, OnOk};
ghost use Rattle.core_tree.specs.Syntax.{ModuleTree};
ghost use Rattle.search_agenda.specs.Plans.{IsAgenda, IsStepped};
ghost use Rattle.search_expansion.specs.inside.Nodes.{AddsDeadlock, IsBelow, IsNode};
ghost use Rattle.tree_cuts.specs.Cuts.{goes_on};
ghost use Rattle.world_model.specs.Asking.{program_of};
ghost use Rattle.world_model.specs.Events.{History};
ghost use Rattle.world_model.specs.Requests.{Program};

use search_agenda::{Agenda, Plan};
use std::alloc::{AllocError, Global};
use std::rc::Rc;
use world_core::push_deadlock;
use world_identities::Identity;
use world_plans::perform;
use world_records::Records;

/// A node: its records, the plans of the steps that sleep there, how many steps may follow, and its agenda.
#[derive(Drop)]
pub(crate) struct Node<'m> {
    pub(crate) records: Records<'m>,
    pub(crate) slept: Vec<Rc<Plan>>,
    pub(crate) left: u64,
    pub(crate) agenda: Agenda,
}

/// The records that the enabled step of a plan leaves, from those that are taken over. `AllocError` if there is no memory
/// for them.
pub fn stepped<'m>(
    alloc: Global,
    records: Records<'m>,
    plan: &Plan,
) -> Result<Records<'m>, AllocError>
    ensures { IfOk result (λ after. IsStepped records.entry plan.now after) }
{
    let mut records = records;
    perform(&mut records, alloc, plan)?;
    Ok(records)
}

/// Whether the tree is cut at a node that has this agenda, and that so many steps may follow: none may, and one is enabled.
/// It takes no memory.
pub(crate) fn is_cut(left: u64, agenda: &Agenda) -> bool
    ensures { (a : Program) (h : History) → IsAgenda a h agenda.now → result ≡ (left == 0 && goes_on a (Some h)) }
{
    left == 0 && agenda.first_enabled().is_some()
}

impl<'m> Node<'m> {
    /// The node that the enabled step of a plan leads to, from records that are taken over, with its agenda.
    /// `AllocError` if there is no memory for it.
    pub(crate) fn below(
        alloc: Global,
        records: Records<'m>,
        slept: Vec<Rc<Plan>>,
        plan: &Plan,
        left: u64,
        agenda: &Agenda,
    ) -> Result<Node<'m>, AllocError>
        ensures node { IfOk result (λ node. IsBelow records.entry agenda.now plan.now slept.items node) }
        ensures slept { IfOk result (λ node. node.slept ≡ slept) }
        ensures left { IfOk result (λ node. node.left ≡ left) }
    {
        let records = stepped(alloc, records, plan)?;
        let agenda = agenda.below(&records, alloc, plan)?;
        Ok(Node {
            records,
            slept,
            left,
            agenda,
        })
    }

    /// Puts the deadlock of the node after other identities, where no step is enabled there and some process lives, and
    /// then what is unread there. `AllocError` if there is no memory for it.
    pub(crate) fn add_deadlock(
        &self,
        alloc: Global,
        shown: &mut Vec<Identity>,
    ) -> Result<(), AllocError>
        ensures { OnOk result ((m : ModuleTree) (h : History) → IsNode m h self.now → AddsDeadlock (program_of m) h shown.old.items shown.new.items) }
    {
        if self.agenda.first_enabled().is_some() {
            return Ok(());
        }
        push_deadlock(&self.records, alloc, shown)?;
        Ok(())
    }
}
