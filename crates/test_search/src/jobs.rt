// Searches of jobs: each results in what its nodes show, and together with what is above them they result in the whole
// tree.
ghost use Rattle.std.specs.Prelude.{◌≡◌, ◌≤◌};

use crate::budgets::text_of;
use crate::modules::{INSERTS, MAKERS, MIXED, STRANGER, WRITERS};
use crate::workers::options;
use core_reader::read_module;
use search_crew::{Job, Unwatched, search};
use search_expansion::{Piece, expand};
use std::alloc::Global;
use std::sync::Wait;
use std::test::Fail;
use std::thread::Threads;
use test_support::{holds, same};
use tree_findings::{Extent, Findings, Outcome};

// What was found in some nodes, how many they are, and at how many of them the tree is cut.
#[derive(Drop)]
struct Sum {
    findings: Findings,
    extent: Extent,
}

impl Sum {
    fn new(alloc: Global) -> Sum {
        Sum {
            findings: Findings::new(alloc),
            extent: Extent { nodes: 0, cut: 0 },
        }
    }

    // With that of more nodes.
    fn add(&mut self, findings: Findings, extent: Extent) -> Result<(), Fail> {
        self.findings.merge(findings)?;
        self.extent = Extent {
            nodes: self.extent.nodes.saturating_add(extent.nodes),
            cut: self.extent.cut.saturating_add(extent.cut),
        };
        Ok(())
    }

    // The report of all these nodes.
    fn into_report(self, alloc: Global, depth: u64) -> Result<Vec<u8>, Fail> {
        let text = text_of(alloc, depth, &Outcome::Complete(self.findings, self.extent))?;
        Ok(text)
    }
}

// So many nodes of a job are visited, by no pool.
fn visited<'m>(alloc: Global, job: &Job<'m>, budget: u64) -> Result<Piece<'m>, Fail>
    requires { 1 ≤ budget }
{
    let program = job.exploration().program;
    match expand(alloc, program, job.copy(alloc)?, budget, &Unwatched) {
        Ok(piece) => Ok(piece),
        Err(_) => Err(Fail::from("there is no memory")),
    }
}

// The node of each job is visited: the jobs below them.
fn opened<'m>(alloc: Global, jobs: &[Job<'m>], above: &mut Sum) -> Result<Vec<Job<'m>>, Fail> {
    let mut below = Vec::new(alloc);
    for job in jobs {
        let piece = visited(alloc, job, 1)?;
        let extent = piece.extent();
        let (findings, mut rest) = piece.into_parts();
        above.add(findings, extent)?;
        below.append(&mut rest)?;
    }
    Ok(below)
}

// The report of a search of a job by so many workers.
fn reported<T: Threads + Wait + Sync>(
    rt: &T,
    alloc: Global,
    job: &Job<'_>,
    workers: u64,
) -> Result<Vec<u8>, Fail> {
    let Ok(outcome) = search(rt, alloc, job, &options(0, 4, workers), &Unwatched) else {
        return Err(Fail::from("the search has no outcome"));
    };
    let text = text_of(alloc, job.exploration().depth, &outcome)?;
    Ok(text)
}

// Whether the report of a job by 1, 4 and 16 workers is that of its nodes, which are added to the sum.
fn comes_to_its_nodes<T: Threads + Wait + Sync>(
    rt: &T,
    alloc: Global,
    job: &Job<'_>,
    sum: &mut Sum,
) -> Result<(), Fail> {
    let mut own = Sum::new(alloc);
    let piece = visited(alloc, job, u64::MAX)?;
    let extent = piece.extent();
    let (findings, rest) = piece.into_parts();
    holds(rest.is_empty(), "all nodes are visited")?;
    sum.add(findings.copy(alloc)?, extent)?;
    own.add(findings, extent)?;
    let report = own.into_report(alloc, job.exploration().depth)?;
    for workers in [1, 4, 16] {
        let text = reported(rt, alloc, job, workers)?;
        same(text.as_slice(), report.as_slice())?;
    }
    Ok(())
}

// Whether the jobs of all nodes at one depth result in what their nodes show, and with what is above them in the whole;
// how many they are.
fn jobs_are_the_whole<T: Threads + Wait + Sync>(
    rt: &T,
    alloc: Global,
    text: &str,
    depth: u64,
    above: usize,
) -> Result<usize, Fail> {
    let program = read_module(alloc, text.as_bytes())?;
    let root = Job::root(alloc, &program, &options(depth, 4, 1));
    let whole = reported(rt, alloc, &root, 1)?;
    let mut sum = Sum::new(alloc);
    let mut jobs = Vec::new(alloc);
    jobs.push(root)?;
    for _ in 0..above {
        jobs = opened(alloc, jobs.as_slice(), &mut sum)?;
    }
    for job in jobs.as_slice() {
        comes_to_its_nodes(rt, alloc, job, &mut sum)?;
    }
    let all = sum.into_report(alloc, depth)?;
    same(all.as_slice(), whole.as_slice())?;
    Ok(jobs.len())
}

// Modules, how many steps their schedules have, and how many lead to the jobs.
const SPLIT: [(&str, u64, usize); 5] = [
    (STRANGER, 5, 3),
    (MAKERS, 5, 2),
    (WRITERS, 9, 3),
    (INSERTS, 9, 4),
    (MIXED, 12, 4),
];

#[test]
fn jobs_come_to_their_nodes(rt: HostRuntime) -> Result<(), Fail> {
    for (text, depth, above) in SPLIT {
        let jobs = jobs_are_the_whole(&rt, rt.alloc(), text, depth, above)?;
        holds(jobs > 1, "there are several jobs")?;
    }
    Ok(())
}
