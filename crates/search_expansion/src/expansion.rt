// The expansion of a job.
ghost use Rattle.std.specs.Prelude.{◌≡◌, ◌+◌, ◌<◌, ◌^◌, ◌≤◌, IfOk, IfErr, if◌then◌else◌};
ghost use Rattle.search_jobs.specs.Explorations.{program_in};
ghost use Rattle.search_jobs.specs.Meanings.{AreOfJob};
ghost use Rattle.search_jobs.specs.Pieces.{IsPiece};
ghost use Rattle.world_model.specs.Asking.{program_of};

use crate::observer::Observer;
use crate::walk::Walk;
use core_tree::Module;
use search_jobs::{Exploration, Job, JobName, Piece, Ticket};
use std::alloc::Global;
use tree_findings::{Extent, Findings};
use world_core::WorldFault;

/// What was found, how many nodes were visited and at how many of them the tree is cut, and the jobs of the others.
#[derive(Drop)]
struct Done<'m> {
    findings: Findings,
    extent: Extent,
    rest: Vec<Job<'m>>,
}

// With one more node, at which the tree may be cut.
fn with_node(extent: Extent, is_cut: bool) -> Extent
    requires room { extent.nodes + 1 < 2 ^ 64 }
    requires fewer { extent.cut ≤ extent.nodes }
    ensures { result ≡ record { nodes = extent.nodes + 1; cut = extent.cut + (if is_cut then 1 else 0) } }
{
    let cut = if is_cut { extent.cut + 1 } else { extent.cut };
    Extent {
        nodes: extent.nodes + 1,
        cut,
    }
}

// Visits at most so many nodes of a job, depth first, at least one. `Memory` where there is no memory.
fn expanded<'m, O: Observer>(
    alloc: Global,
    program: &Module,
    job: &Job<'m>,
    budget: u64,
    observer: &O,
) -> Result<Done<'m>, WorldFault>
    requires some { 1 ≤ budget }
    requires program { program_of program.now ≡ program_in job.now.exploration }
    ensures piece { IfOk result (λ done. IsPiece job.now.exploration job.now.name done.findings done.extent done.rest.items) }
    ensures nodes { IfOk result (λ done. (1 ≤ done.extent.nodes) × (done.extent.nodes ≤ budget)) }
{
    let exploration = job.exploration();
    let mut findings = Findings::new(alloc);
    let own = job.own(alloc)?;
    let mut walk = Walk::new(alloc, program);
    observer.turn(job.number());
    let is_cut = walk.visit_first(alloc, &own, &mut findings)?;
    let mut extent = with_node(Extent { nodes: 0, cut: 0 }, is_cut);
    while extent.nodes < budget && !walk.is_over() {
        observer.turn(job.number());
        let is_cut = walk.visit_next(alloc, exploration.flags, &mut findings)?;
        extent = with_node(extent, is_cut);
    }
    let rest = walk.into_rest(alloc, exploration)?;
    Ok(Done {
        findings,
        extent,
        rest,
    })
}

/// Visits at most `budget` nodes of a job, depth first, at least one: the nodes of the job are those, and then those of
/// the jobs that are left. Worlds are made of the module, which asks what the explored one does, and of a copy of the
/// job's name, and are gone at the end: so a worker with a module of its own shares no memory with others meanwhile.
///
/// # Errors
///
/// What the job is called, where there was no memory: the job itself is spent, and what was found below it is dropped.
pub fn expand<'m, O: Observer>(
    alloc: Global,
    program: &Module,
    job: Job<'m>,
    budget: u64,
    observer: &O,
) -> Result<Piece<'m>, JobName>
    requires some { 1 ≤ budget }
    requires program { program_of program.now ≡ program_in job.exploration }
    ensures ticket { IfOk result (λ piece. piece.ticket ≡ record { number = job.entry.number; name = job.entry.name }) }
    ensures exploration { IfOk result (λ piece. piece.exploration ≡ job.entry.exploration) }
    ensures piece { IfOk result (λ piece. IsPiece job.entry.exploration job.entry.name piece.findings piece.extent piece.rest) }
    ensures shown { IfOk result (λ piece. AreOfJob job.entry.exploration job.entry.name piece.findings) }
    ensures nodes { IfOk result (λ piece. (1 ≤ piece.extent.nodes) × (piece.extent.nodes ≤ budget)) }
    ensures refused { IfErr result (λ name. name ≡ job.entry.name) }
{
    let Ok(done) = expanded(alloc, program, &job, budget, observer) else {
        return Err(job.into_name());
    };
    let Done {
        findings,
        extent,
        rest,
    } = done;
    let exploration = job.exploration();
    let ticket = Ticket {
        number: job.number(),
        name: job.into_name(),
    };
    Ok(Piece::of(ticket, exploration, findings, extent, rest))
}
