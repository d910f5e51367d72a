// What the arguments of the calls of processes are (the Erlang manual, module `erlang`). An argument that is not of
// its kind is none.
ghost use Rattle.std.specs.Prelude.{◌≡◌, IfOk, Some, codes, map, option_map};
ghost use Rattle.proc_calls.specs.Arguments.{destination_in, is_process};
ghost use Rattle.term_core.specs.Term.{meaning_of};
ghost use Rattle.world_model.specs.Calls.{destination_at, destination_of, destination_of_parts, name_here, process_item_of, watched_name_of};
ghost use Rattle.world_model.specs.Names.{ref_of, own_node};
ghost use Rattle.world_model.specs.Terms.{atom_in, process_in, reference_in, is_atom};

use std::alloc::AllocError;
use term_core::{Atom, Pid, RefId, Term};
use world_model::process::ProcessItem;

/// Who a message is for.
#[derive(Drop)]
pub enum Destination {
    /// A process.
    ToProcess(Pid),
    /// The holder of a name.
    ToName(Atom),
    /// The process that a reference is an alias of.
    ToReference(RefId),
    /// The holder of a name at the own node.
    ToNode(Atom),
    /// The holder of a name at another node.
    ToAnotherNode,
    /// What is none of these.
    ToNobody,
}

/// What `monitor/2` is asked to watch.
#[derive(Clone, Copy, Debug, PartialEq, Eq)]
pub enum MonitorType {
    /// `process`: a process.
    Process,
    /// What is not that atom.
    Another,
}

// Whether a term is the node of the world, which is alone (erlang manual, `node/0`).
fn is_own_node(term: &Term) -> bool
    ensures { result ≡ is_atom own_node (meaning_of term.now) }
{
    term.is_the_atom("nonode@nohost")
}

impl Destination {
    // Who a name at a node is, if both are atoms.
    fn at_node(name: &Term, node: &Term) -> Result<Destination, AllocError>
        ensures { IfOk result (λ destination. destination_in destination ≡ destination_at (atom_in (meaning_of name.now)) (atom_in (meaning_of node.now))) }
    {
        match (name, node) {
            (Term::Atom(name), Term::Atom(_)) => {
                if is_own_node(node) {
                    return Ok(Destination::ToNode(name.copy()?));
                }
                Ok(Destination::ToAnotherNode)
            }
            _ => Ok(Destination::ToNobody),
        }
    }

    // Who the parts of a tuple name.
    #[tactic(auto, using(crate::proofs::Arities::sent_to_two, crate::proofs::Arities::sent_to_others))]
    fn of_parts(parts: &[Term]) -> Result<Destination, AllocError>
        ensures { IfOk result (λ destination. destination_in destination ≡ destination_of_parts (Some (map meaning_of parts.now))) }
    {
        if parts.len() != 2 {
            return Ok(Destination::ToNobody);
        }
        Destination::at_node(&parts[0], &parts[1])
    }

    /// Who a term names as the receiver of a message, or `AllocError` where its copies can no longer be counted (erlang
    /// manual, `send/2`): an atom is a name, a reference an alias, and a pair of atoms a name at a node.
    pub fn of(term: &Term) -> Result<Destination, AllocError>
        ensures { IfOk result (λ destination. destination_in destination ≡ destination_of (meaning_of term.now)) }
    {
        match term {
            Term::Pid(pid) => Ok(Destination::ToProcess(pid.copy()?)),
            Term::Atom(name) => Ok(Destination::ToName(name.copy()?)),
            Term::Ref(reference) => Ok(Destination::ToReference(reference.copy()?)),
            Term::Tuple(parts) => Destination::of_parts(parts.as_slice()),
            _ => Ok(Destination::ToNobody),
        }
    }
}

impl MonitorType {
    /// What a term asks `monitor/2` to watch (erlang manual, `monitor/2`). It takes no memory.
    pub fn of(term: &Term) -> MonitorType
        ensures { is_process result ≡ is_atom (codes "process") (meaning_of term.now) }
    {
        if term.is_the_atom("process") {
            return MonitorType::Process;
        }
        MonitorType::Another
    }
}

/// The name that a term is, if it is an atom, or `AllocError` where its copies can no longer be counted.
pub(crate) fn name_in(term: &Term) -> Result<Option<Atom>, AllocError>
    ensures { IfOk result (λ name. name ≡ atom_in (meaning_of term.now)) }
{
    match term {
        Term::Atom(name) => Ok(Some(name.copy()?)),
        _ => Ok(None),
    }
}

/// The process that a term is, if it is one, or `AllocError` where its copies can no longer be counted.
pub(crate) fn process_in(term: &Term) -> Result<Option<Pid>, AllocError>
    ensures { IfOk result (λ process. process ≡ process_in (meaning_of term.now)) }
{
    match term {
        Term::Pid(pid) => Ok(Some(pid.copy()?)),
        _ => Ok(None),
    }
}

/// The reference that a term is, if it is one, or `AllocError` where its copies can no longer be counted.
pub(crate) fn reference_in(term: &Term) -> Result<Option<RefId>, AllocError>
    ensures { IfOk result (λ reference. option_map ref_of reference ≡ reference_in (meaning_of term.now)) }
{
    match term {
        Term::Ref(reference) => Ok(Some(reference.copy()?)),
        _ => Ok(None),
    }
}

// The name in the parts of a tuple, if these are a name and the own node.
#[tactic(auto, using(crate::proofs::Arities::named_by_two, crate::proofs::Arities::named_by_others))]
fn name_here(parts: &[Term]) -> Result<Option<Atom>, AllocError>
    ensures { IfOk result (λ name. name ≡ name_here (Some (map meaning_of parts.now))) }
{
    if parts.len() != 2 {
        return Ok(None);
    }
    if is_own_node(&parts[1]) {
        return name_in(&parts[0]);
    }
    Ok(None)
}

/// The name of a process that is to be watched, if a term is a name or a pair of a name and the own node, or
/// `AllocError` where its copies can no longer be counted (erlang manual, `monitor/2`).
pub(crate) fn watched_name_in(term: &Term) -> Result<Option<Atom>, AllocError>
    ensures { IfOk result (λ name. name ≡ watched_name_of (meaning_of term.now)) }
{
    match term {
        Term::Atom(_) => name_in(term),
        Term::Tuple(parts) => name_here(parts.as_slice()),
        _ => Ok(None),
    }
}

/// The item of `process_info/2` that a term is, if it is one of those that are told (erlang manual, `process_info/2`). It
/// takes no memory.
pub fn process_item_in(term: &Term) -> Option<ProcessItem>
    ensures { result ≡ process_item_of (meaning_of term.now) }
{
    if term.is_the_atom("registered_name") {
        return Some(ProcessItem::RegisteredName);
    }
    if term.is_the_atom("message_queue_len") {
        return Some(ProcessItem::QueueLength);
    }
    None
}
