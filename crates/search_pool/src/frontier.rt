// The jobs that are open and out, and what is done: a pool without its seats.
ghost use Rattle.std.specs.Prelude.{◌≡◌, ℕ, ◌+◌, ◌^◌, ◌<◌, ◌≤◌, true, false, length, [], None, IfOk, IfErr, OnOk, OnErr};
ghost use Rattle.search_pool.specs.Calls.{Accepts, ComesTo, IsDone, IsIdle, IsOwn, RefusesTo, TakesTo, opened, stop_after, stopped_seen};
ghost use Rattle.search_pool.specs.Machine.{IsLegal};
ghost use Rattle.search_pool.specs.Seen.{listed};
ghost use Rattle.search_pool.specs.Sums.{AddsUp, SumsUp};

use crate::answer::{GiveFault, StrangePool, Taken};
use crate::entry::{PoolEvent, Stop};
use crate::numbered::place_of;
use crate::room::{put, take_in};
use crate::sameness::{is_for, is_start};
use search_jobs::{Exploration, Job, JobName, Piece, Ticket};
use std::alloc::{AllocError, Global};
use std::marker::Model;
use tree_findings::{Cause, Extent, Findings, Options, Outcome};

/// The name of the job that it began with, the jobs that are open and those that are out, what the others show, how
/// many nodes they have and at how many of them the tree is cut, and how it came about. Contracts see it as a state of
/// the machine, which a legal list leads to.
#[derive(Drop)]
pub struct Frontier<'m> {
    exploration: Exploration<'m>,
    start: JobName,
    limit: u64,
    todo: Vec<Job<'m>>,
    out: Vec<Ticket>,
    findings: Findings,
    nodes: u128,
    cut: u128,
    taken: u64,
    events: Vec<PoolEvent>,
    stop: Option<Stop>,
}

impl<'m> Model for Frontier<'m> {
    ghost use Rattle.search_pool.specs.Seen.{Seen, seen_of};
    ghost use Rattle.search_pool.specs.inside.Codes.{coded_seen};
    ghost use Rattle.search_pool.specs.inside.Frontiers.{IsFrontier};
    ghost use Rattle.search_jobs.specs.Explorations.{exploration_in};

    ghost Value = { Seen };

    ghost coded = { coded_seen };

    ghost view = { λ f. seen_of (exploration_in f.exploration) f.start f.limit f.todo.items f.out.items f.findings (record { nodes = f.nodes; cut = f.cut }) f.taken f.events.items f.stop };

    ghost invariant = { λ f. IsFrontier (exploration_in f.exploration) f.start f.limit f.todo.items f.out.items f.findings (record { nodes = f.nodes; cut = f.cut }) f.taken f.events.items f.stop };
}

// The ticket of a job under a number, for the worker that takes it and for the pool. `AllocError` if there is no
// memory for them.
fn tickets_of(alloc: Global, number: u64, job: &Job<'_>) -> Result<(Ticket, Ticket), AllocError>
    ensures first { IfOk result (λ two. two.0 ≡ record { number = number; name = job.now.name }) }
    ensures second { IfOk result (λ two. two.1 ≡ record { number = number; name = job.now.name }) }
{
    let ticket = Ticket {
        number,
        name: job.name().copy(alloc)?,
    };
    let own = ticket.copy(alloc)?;
    Ok((ticket, own))
}

// A count of nodes, or of cuts, among those of all pieces.
fn widened(count: u64) -> u128
    ensures same { result ≡ count }
    ensures small { result < 2 ^ 64 }
{
    u128::from(count)
}

// A count of nodes, or of cuts, that a limit allows.
fn narrowed(count: u128, limit: u64) -> u64
    requires { count ≤ limit }
    ensures { result ≡ count }
{
    count as u64
}

// The stop after a piece: above the limit of nodes there is one.
fn limited(stop: Option<Stop>, limit: u64, nodes: u128, place: usize) -> Option<Stop>
    ensures { result ≡ stop_after limit nodes place stop }
{
    match stop {
        Some(stop) => Some(stop),
        None => {
            if nodes > u128::from(limit) {
                Some(Stop {
                    cause: Cause::NodeLimit,
                    place,
                })
            } else {
                None
            }
        }
    }
}

impl<'m> Frontier<'m> {
    /// This job is open, and nothing was done. Of the options only the limit of nodes counts.
    ///
    /// # Errors
    ///
    /// `AllocError` if there is no memory.
    pub fn open(alloc: Global, job: Job<'m>, options: &Options) -> Result<Frontier<'m>, AllocError>
        ensures { IfOk result (λ frontier. frontier ≡ opened job.entry.exploration job.entry.name options.now.nodes) }
    {
        let exploration = job.exploration();
        let start = job.name().copy(alloc)?;
        let mut todo = Vec::new(alloc);
        todo.push(job)?;
        let out = Vec::new(alloc);
        let findings = Findings::new(alloc);
        let events = Vec::new(alloc);
        Ok(Frontier {
            exploration,
            start,
            limit: options.nodes,
            todo,
            out,
            findings,
            nodes: 0,
            cut: 0,
            taken: 0,
            events,
            stop: None,
        })
    }

    /// Hands out the job on top.
    ///
    /// # Errors
    ///
    /// `AllocError` if there is no memory: the pool is unchanged.
    pub fn take(&mut self, alloc: Global) -> Result<Taken<'m>, AllocError>
        ensures taken { IfOk result (λ taken. TakesTo self.old taken self.new) }
        ensures refused { OnErr result (self.new ≡ self.old) }
    {
        let None = self.stop else {
            return Ok(Taken::Stopped);
        };
        if self.todo.is_empty() {
            if self.out.is_empty() {
                return Ok(Taken::Finished);
            }
            return Ok(Taken::Idle);
        }
        self.out.reserve(1)?;
        self.events.reserve(1)?;
        let number = self.taken + 1;
        let last = self.todo.len() - 1;
        let tickets = tickets_of(alloc, number, &self.todo[last])?;
        let Some(mut job) = self.todo.pop() else {
            unreachable!();
        };
        let (ticket, own) = tickets;
        job.set_number(number);
        put(&mut self.out, own);
        put(&mut self.events, PoolEvent::Took(number));
        self.taken = number;
        Ok(Taken::Work(ticket, job))
    }

    /// Stops for lack of memory. The first cause stays. It takes no memory.
    pub fn stop(&mut self)
        ensures { self.new ≡ stopped_seen self.old }
    {
        match self.stop {
            Some(_) => {}
            None => {
                self.stop = Some(Stop {
                    cause: Cause::Memory,
                    place: self.events.len(),
                });
            }
        }
    }

    /// Takes in the piece of a ticket that is out: its nodes are done, and the jobs that it leaves are open.
    ///
    /// # Errors
    ///
    /// `StrangeTicket` where the ticket is not out, and else `StrangePiece` where the piece was made for another ticket
    /// or another exploration: the pool is unchanged, and the piece comes back. `Memory` if there is no memory: the
    /// pool is stopped, the ticket is still out, nothing else is changed, and the piece is dropped.
    pub fn give(&mut self, ticket: &Ticket, piece: Piece<'m>) -> Result<(), GiveFault<'m>>
        ensures given { OnOk result (Accepts self.old ticket.now piece.entry self.new) }
        ensures refused { IfErr result (λ fault. RefusesTo self.old ticket.now piece.entry fault self.new) }
    {
        let Some(at) = place_of(self.out.as_slice(), ticket) else {
            return Err(GiveFault::StrangeTicket(piece));
        };
        if !is_for(&piece, ticket, &self.exploration) {
            return Err(GiveFault::StrangePiece(piece));
        }
        let extent = piece.extent();
        let visited = widened(extent.nodes);
        let cut = widened(extent.cut);
        let (more, rest) = piece.into_parts();
        let taken_in = take_in(
            &mut self.findings,
            &mut self.todo,
            &mut self.events,
            more,
            rest,
        );
        if taken_in.is_err() {
            self.stop();
            return Err(GiveFault::Memory);
        }
        put(&mut self.events, PoolEvent::Gave(ticket.number));
        self.out.remove(at);
        self.nodes += visited;
        self.cut += cut;
        self.stop = limited(self.stop, self.limit, self.nodes, self.events.len());
        Ok(())
    }

    /// How many entries there are.
    pub fn entries(&self) -> usize
        ensures { result ≡ length self.now.events }
    {
        self.events.len()
    }

    /// What it resulted in, if it began with this job and has this limit of nodes, and is finished or stopped. It takes
    /// no memory.
    ///
    /// # Errors
    ///
    /// `StrangePool` where it does not, or a job is open or out and nothing stopped it.
    pub fn outcome(self, job: &Job<'_>, options: &Options) -> Result<Outcome, StrangePool>
        ensures outcome { IfOk result (λ outcome. ComesTo self.entry outcome) }
        ensures own { OnOk result (IsOwn self.entry job.now.exploration job.now.name options.now.nodes) }
        ensures strange { OnErr result (IsOwn self.entry job.now.exploration job.now.name options.now.nodes × IsDone self.entry → ⊥) }
    {
        if !(self.limit == options.nodes && is_start(job, &self.exploration, &self.start)) {
            return Err(StrangePool);
        }
        if let Some(stop) = self.stop {
            return Ok(Outcome::Incomplete(stop.cause, self.findings));
        }
        if self.todo.is_empty() && self.out.is_empty() {
            let nodes = narrowed(self.nodes, self.limit);
            let cut = narrowed(self.cut, self.limit);
            return Ok(Outcome::Complete(self.findings, Extent { nodes, cut }));
        }
        Err(StrangePool)
    }

    /// Whether a `take` would answer `Idle`. It takes no memory.
    pub fn is_idle(&self) -> bool
        ensures idle { result ≡ true → IsIdle self.now }
        ensures busy { result ≡ false → IsIdle self.now → ⊥ }
    {
        if let Some(_) = self.stop {
            return false;
        }
        self.todo.is_empty() && !self.out.is_empty()
    }

    /// Its list is legal and leads to its state, and what is done, open and out adds up to the job that it began with.
    /// It changes nothing.
    pub fn adds_up(&self)
        ensures legal { IsLegal self.now.exploration self.now.start self.now.limit (listed self.now.events self.now.stop) self.now.standing }
        ensures nodes { AddsUp self.now.exploration self.now.start self.now.limit self.now.standing }
        ensures sums { SumsUp self.now.exploration self.now.start self.now.standing }
    {
        let _taken = self.taken;
    }
}
