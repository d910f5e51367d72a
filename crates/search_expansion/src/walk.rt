// A walk over the nodes of a job, depth first.
ghost use Rattle.std.specs.Prelude.{◌≡◌, ◌==◌, ◌<◌, ◌++◌, [], IfOk, OnOk, length, map};
ghost use Rattle.world_identities.specs.Identities.{flags_in, identity_in};
ghost use Rattle.core_tree.specs.Syntax.{ModuleTree};
ghost use Rattle.tree_findings.specs.Laws.{AddsSchedule};
ghost use Rattle.search_jobs.specs.Explorations.{exploration_in, nodes_of, nodes_of_all, program_in};
ghost use Rattle.search_jobs.specs.Pieces.{AreOf};
ghost use Rattle.search_expansion.specs.inside.Frames.{VisitsNext, nodes_of_frames};
ghost use Rattle.search_expansion.specs.inside.Walks.{BeginsWalk, IsWalk, IsWalkOf, VisitsLast, frames_in};
ghost use Rattle.world_model.specs.Asking.{program_of};

use crate::frame::{Frame, descend, open, pass_child};
use crate::node::{Node, is_cut};
use crate::sleeping::steps_of;
use crate::world::world_of;
use core_tree::Module;
use search_agenda::Agenda;
use search_jobs::{Exploration, Job, JobName};
use std::alloc::{AllocError, Global};
use term_core::Step;
use tree_findings::{Findings, copy_schedule};
use world_core::WorldFault;
use world_identities::{Flags, Identity};

/// A walk over the nodes of a job: the module, the steps that lead to the node that was visited last, and the nodes
/// that were visited, with children that were not, the deepest one last. A node's history is the run of the first steps
/// of the path; no event is kept.
#[derive(Drop)]
pub(crate) struct Walk<'m> {
    pub(crate) program: &'m Module,
    pub(crate) path: Vec<Step>,
    pub(crate) frames: Vec<Frame<'m>>,
}

// Adds what a node shows, to which these steps lead. `AllocError` if there is no memory for it.
fn note(
    alloc: Global,
    flags: Flags,
    shown: &[Identity],
    path: &[Step],
    findings: &mut Findings,
) -> Result<(), AllocError>
    ensures { OnOk result (AddsSchedule (flags_in flags) path.now (map identity_in shown.now) findings.old findings.new) }
{
    if shown.len() == 0 {
        return Ok(());
    }
    findings.note(alloc, flags, shown, path)?;
    Ok(())
}

// Visits the next child of the last frame of a stack, to which so many steps lead: puts its deadlock after what it
// shows, and its frame on the stack, and says whether the tree is cut there. At the depth no agenda is made for it.
// `AllocError` if there is no memory for it.
fn visit_child(
    alloc: Global,
    taken: usize,
    frames: &mut Vec<Frame<'_>>,
    shown: &mut Vec<Identity>,
) -> Result<bool, AllocError>
    requires { frames.old.items ≡ [] → ⊥ }
    ensures { IfOk result (λ is_cut. VisitsLast frames.old.items taken frames.new.items is_cut shown.old.items shown.new.items) }
{
    let Some(frame) = frames.last() else {
        unreachable!();
    };
    if frame.leads_to_a_leaf() {
        let is_cut = frame.add_deadlock(alloc, shown)?;
        pass_child(frames)?;
        return Ok(is_cut);
    }
    let node = descend(alloc, frames)?;
    node.add_deadlock(alloc, shown)?;
    open(alloc, node, taken, frames)?;
    Ok(false)
}

impl<'m> Walk<'m> {
    /// A walk that has visited no node. It takes no memory.
    pub(crate) fn new(alloc: Global, program: &'m Module) -> Walk<'m>
        ensures program { result.program.now ≡ program.now }
    {
        Walk {
            program,
            path: Vec::new(alloc),
            frames: Vec::new(alloc),
        }
    }

    /// Visits the node of a job, and forgets all others; says whether the tree is cut there. `Memory` where there is no
    /// memory.
    pub(crate) fn visit_first(
        &mut self,
        alloc: Global,
        job: &Job<'_>,
        findings: &mut Findings,
    ) -> Result<bool, WorldFault>
        requires { program_of self.old.program.now ≡ program_in job.now.exploration }
        ensures program { self.new.program ≡ self.old.program }
        ensures begins { IfOk result (BeginsWalk job.now.exploration job.now.name findings.old findings.new self.new) }
    {
        let exploration = job.exploration();
        let name = job.name();
        let world = world_of(alloc, self.program, job)?;
        let records = world.records().copy()?;
        let agenda = Agenda::of(&records, alloc)?;
        let slept = agenda.plans_of(alloc, name.slept.as_slice())?;
        let path = copy_schedule(alloc, name.prefix.as_slice())?;
        let shown = world.errors_here(alloc)?;
        note(
            alloc,
            exploration.flags,
            shown.as_slice(),
            path.as_slice(),
            findings,
        )?;
        let left = exploration.depth - path.len() as u64;
        let is_cut = is_cut(left, &agenda);
        let node = Node {
            records,
            slept,
            left,
            agenda,
        };
        let mut frames = Vec::new(alloc);
        open(alloc, node, path.len(), &mut frames)?;
        self.path = path;
        self.frames = frames;
        Ok(is_cut)
    }

    /// Whether all nodes of the job were visited. It takes no memory.
    pub(crate) fn is_over(&self) -> bool
        ensures { result ≡ (length self.now.frames.items == 0) }
    {
        self.frames.is_empty()
    }

    /// Visits the next node: adds what it shows, and says whether the tree is cut there. `AllocError` if there is no memory
    /// for it.
    pub(crate) fn visit_next(
        &mut self,
        alloc: Global,
        flags: Flags,
        findings: &mut Findings,
    ) -> Result<bool, AllocError>
        requires walk { IsWalk self.old }
        requires more { self.old.frames.items ≡ [] → ⊥ }
        ensures program { self.new.program ≡ self.old.program }
        ensures walk { OnOk result (IsWalk self.new) }
        ensures visits { IfOk result (VisitsNext (flags_in flags) (frames_in self.old) findings.old (frames_in self.new) findings.new) }
    {
        let Some(frame) = self.frames.last() else {
            unreachable!();
        };
        let mut shown = frame.shown_next(alloc)?;
        frame.follow(&mut self.path)?;
        let is_cut = visit_child(alloc, self.path.len(), &mut self.frames, &mut shown)?;
        note(
            alloc,
            flags,
            shown.as_slice(),
            self.path.as_slice(),
            findings,
        )?;
        Ok(is_cut)
    }

    // The job of the next node, which is not visited. `AllocError` if there is no memory for it.
    fn leave_next<'e>(
        &mut self,
        alloc: Global,
        exploration: Exploration<'e>,
    ) -> Result<Job<'e>, AllocError>
        requires of { IsWalkOf (exploration_in exploration) self.old }
        requires more { self.old.frames.items ≡ [] → ⊥ }
        ensures of { IfOk result (λ _. IsWalkOf (exploration_in exploration.entry) self.new) }
        ensures exploration { IfOk result (λ job. job.exploration ≡ exploration_in exploration.entry) }
        ensures nodes { IfOk result (λ job. nodes_of_frames (frames_in self.old) ≡ nodes_of (exploration_in exploration.entry) job.name ++ nodes_of_frames (frames_in self.new)) }
        ensures fewer { IfOk result (λ _. length (nodes_of_frames (frames_in self.new)) < length (nodes_of_frames (frames_in self.old))) }
    {
        let Some(frame) = self.frames.last() else {
            unreachable!();
        };
        frame.follow(&mut self.path)?;
        let asleep = frame.asleep(alloc)?;
        let slept = steps_of(alloc, asleep.as_slice())?;
        pass_child(&mut self.frames)?;
        let prefix = copy_schedule(alloc, self.path.as_slice())?;
        Ok(Job::of_node(exploration, JobName { prefix, slept }))
    }

    /// The jobs of the nodes that were not visited, in the order in which the search visits them. `AllocError` if there is
    /// no memory for them.
    pub(crate) fn into_rest<'e>(
        self,
        alloc: Global,
        exploration: Exploration<'e>,
    ) -> Result<Vec<Job<'e>>, AllocError>
        requires { IsWalkOf (exploration_in exploration) self }
        ensures nodes { IfOk result (λ rest. nodes_of_all (exploration_in exploration.entry) rest.items ≡ nodes_of_frames (frames_in self.entry)) }
        ensures are_of { IfOk result (λ rest. AreOf (exploration_in exploration.entry) rest.items) }
    {
        let mut walk = self;
        let mut rest = Vec::new(alloc);
        while !walk.is_over() {
            rest.push(walk.leave_next(alloc, exploration)?)?;
        }
        Ok(rest)
    }
}
