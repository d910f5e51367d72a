// What a pool results in that begins with any job, and what it answers to a caller that it should not trust.
ghost use Rattle.std.specs.Prelude.{◌≡◌, ◌≤◌, IfOk};
ghost use Rattle.search_jobs.specs.Explorations.{program_in};
ghost use Rattle.world_model.specs.Asking.{program_of};

use core_reader::{Module, read_module};
use search_expansion::{Job, Piece, Ticket, Unwatched, expand};
use search_pool::{GiveFault, PoolName, PoolState, Seat, StrangePool, Taken, Wake};
use std::alloc::Global;
use std::marker::Brand;
use std::sync::ledger::Blank;
use std::test::Fail;
use tree_findings::{Cause, Options, Outcome, Search};
use world_identities::Flags;

// A process starts another, and each makes a table. To the depth 5 there are ten schedules, by hand: a process takes its
// steps in one order, and the steps of the two are independent of each other.
const TABLES: &str =
    "module 'm' ['main'/0,'c'/0] attributes [] 'main'/0 = fun () -> do call 'erlang':'spawn'('m','c',[]) call 'ets':'new'('a',[]) 'c'/0 = fun () -> call 'ets':'new'('b',[]) end";

// What is explored, by one worker.
fn options(depth: u64) -> Options
    ensures { result.workers ≡ 1 }
{
    Options {
        depth,
        nodes: 1_000_000,
        budget: 1,
        workers: 1,
        search: Search::ByTree,
        flags: Flags {
            allow_deadlock: false,
            strict_access: false,
            idle_servers: false,
        },
    }
}

// One node of a job is visited.
fn expanded<'m>(alloc: Global, program: &Module, job: Job<'m>) -> Result<Piece<'m>, Fail>
    requires { program_of program.now ≡ program_in job.exploration }
{
    match expand(alloc, program, job, 1, &Unwatched) {
        Ok(piece) => Ok(piece),
        Err(_) => Err(Fail::from("there is no memory")),
    }
}

// A pool and its one seat.
struct Bench<'m, N: PoolName> {
    state: PoolState<'m, N>,
    seat: Seat<N>,
}

// Dropped by a call, so that no test proves again how.
impl<N: PoolName> Drop for Bench<'_, N> {
    fn drop(self) {
        let Bench { state: _, seat: _ } = self;
    }
}

impl<'m, N: PoolName> Bench<'m, N> {
    // A new pool that begins with a job, which says all but the limit of nodes and the number of seats.
    fn begin(alloc: Global, blank: Blank, job: Job<'m>) -> Result<Bench<'m, N>, Fail>
        requires name { blank.name ≡ N.name }
        requires parts { blank.parts ≡ N.parts }
        requires seats { (N.seats ≡ N.parts) × (N.seats ≡ 1) }
        requires program { program_in job.exploration ≡ N.program }
    {
        let (state, mut seats) = PoolState::<'m, N>::open(alloc, blank, job, &options(0))?;
        match seats.pop() {
            Some(seat) => Ok(Bench { state, seat }),
            None => Err(Fail::from("there is no seat")),
        }
    }

    // A new pool of the whole tree.
    fn open(
        alloc: Global,
        blank: Blank,
        program: &'m Module,
        depth: u64,
    ) -> Result<Bench<'m, N>, Fail>
        requires name { blank.name ≡ N.name }
        requires parts { blank.parts ≡ N.parts }
        requires seats { (N.seats ≡ N.parts) × (N.seats ≡ 1) }
        requires program { program_of program.now ≡ N.program }
    {
        Bench::<N>::begin(alloc, blank, Job::root(alloc, program, &options(depth)))
    }

    // A job is handed out.
    fn take(&mut self, alloc: Global) -> Result<(Ticket, Job<'m>), Fail>
        ensures { IfOk result (λ taken. program_in taken.1.exploration ≡ N.program) }
    {
        match self.state.take(alloc, &mut self.seat)? {
            Taken::Work(ticket, job) => Ok((ticket, job)),
            _ => Err(Fail::from("no job is handed out")),
        }
    }

    // One node of the next job is visited, and nothing is given back yet.
    fn visit(&mut self, alloc: Global, program: &Module) -> Result<(Ticket, Piece<'m>), Fail>
        requires { program_of program.now ≡ N.program }
    {
        let (ticket, job) = self.take(alloc)?;
        Ok((ticket, expanded(alloc, program, job)?))
    }

    // What is answered to a piece.
    fn give(&mut self, ticket: &Ticket, piece: Piece<'m>) -> Result<Wake, GiveFault<'m>> {
        self.state.give(&mut self.seat, ticket, piece)
    }

    // A piece is accepted: which workers that wakes.
    fn accept(&mut self, ticket: &Ticket, piece: Piece<'m>) -> Result<Wake, Fail> {
        match self.give(ticket, piece) {
            Ok(wake) => Ok(wake),
            Err(_) => Err(Fail::from("a piece is refused")),
        }
    }

    // Whether there is a job; then one node of it is visited, and its piece is accepted.
    fn work(&mut self, alloc: Global, program: &Module) -> Result<bool, Fail>
        requires { program_of program.now ≡ N.program }
    {
        match self.state.take(alloc, &mut self.seat)? {
            Taken::Work(ticket, job) => {
                let piece = expanded(alloc, program, job)?;
                self.accept(&ticket, piece)?;
                Ok(true)
            }
            Taken::Finished => Ok(false),
            _ => Err(Fail::from("the pool is idle or stopped")),
        }
    }

    // The pool works to its end.
    fn work_out(&mut self, alloc: Global, program: &Module) -> Result<(), Fail>
        requires { program_of program.now ≡ N.program }
    {
        for _ in 0..100 {
            if !self.work(alloc, program)? {
                return Ok(());
            }
        }
        Err(Fail::from("the pool has no end"))
    }

    // Whether a take answers that the pool was stopped.
    fn is_stopped(&mut self, alloc: Global) -> Result<bool, Fail> {
        Ok(matches!(self.state.take(alloc, &mut self.seat)?, Taken::Stopped))
    }

    // The pool ends as that of a job.
    fn finish_as(self, alloc: Global, job: &Job<'_>) -> Result<Result<Outcome, StrangePool>, Fail>
        requires { N.seats ≡ N.parts }
    {
        let Bench { state, seat } = self;
        let mut seats = Vec::new(alloc);
        if let Err(_) = seats.push(seat) {
            return Err(Fail::from("there is no memory"));
        }
        Ok(state.finish(seats, job, &options(0)))
    }

    // The pool ends as that of the whole tree to a depth.
    fn finish(
        self,
        alloc: Global,
        program: &Module,
        depth: u64,
    ) -> Result<Result<Outcome, StrangePool>, Fail>
        requires { N.seats ≡ N.parts }
    {
        self.finish_as(alloc, &Job::root(alloc, program, &options(depth)))
    }

    // Whether the pool ended for lack of memory.
    fn is_out_of_memory(self, alloc: Global, program: &Module) -> Result<bool, Fail>
        requires { N.seats ≡ N.parts }
    {
        Ok(matches!(
            self.finish(alloc, program, 5)?,
            Ok(Outcome::Incomplete(Cause::Memory, _))
        ))
    }

    // The pool works to its end: how many nodes it counted.
    fn nodes(self, alloc: Global, program: &Module) -> Result<u64, Fail>
        requires seats { N.seats ≡ N.parts }
        requires program { program_of program.now ≡ N.program }
    {
        let mut bench = self;
        bench.work_out(alloc, program)?;
        match bench.finish(alloc, program, 5)? {
            Ok(Outcome::Complete(_, extent)) => Ok(extent.nodes),
            _ => Err(Fail::from("the pool is not complete")),
        }
    }
}

// Two jobs of the pool of the whole tree that are out at the same time: those of the third ticket and of the fourth.
fn two_jobs<N: PoolName>(
    alloc: Global,
    blank: Blank,
    program: &Module,
) -> Result<(Job<'_>, Job<'_>), Fail>
    requires name { blank.name ≡ N.name }
    requires parts { blank.parts ≡ N.parts }
    requires seats { (N.seats ≡ N.parts) × (N.seats ≡ 1) }
    requires program { program_of program.now ≡ N.program }
{
    let mut bench = Bench::<N>::open(alloc, blank, program, 5)?;
    bench.work(alloc, program)?;
    bench.work(alloc, program)?;
    let (_, third) = bench.take(alloc)?;
    let (_, fourth) = bench.take(alloc)?;
    Ok((third, fourth))
}

// A pool begins with a job, works to its end, and is finished as that of another.
fn ends_as<N: PoolName>(
    alloc: Global,
    blank: Blank,
    job: &Job<'_>,
    other: &Job<'_>,
) -> Result<Result<Outcome, StrangePool>, Fail>
    requires name { blank.name ≡ N.name }
    requires parts { blank.parts ≡ N.parts }
    requires seats { (N.seats ≡ N.parts) × (N.seats ≡ 1) }
    requires program { program_in job.now.exploration ≡ N.program }
{
    let program = job.exploration().program;
    let mut bench = Bench::<N>::begin(alloc, blank, job.copy(alloc)?)?;
    bench.work_out(alloc, program)?;
    bench.finish_as(alloc, other)
}

// How many nodes a pool counted that has ended.
fn nodes_of(ended: Result<Outcome, StrangePool>) -> Result<u64, Fail> {
    match ended {
        Ok(Outcome::Complete(_, extent)) => Ok(extent.nodes),
        _ => Err(Fail::from("the pool is not complete")),
    }
}

// Whether a ticket was strange.
fn is_strange_ticket(answer: Result<Wake, GiveFault<'_>>) -> bool {
    matches!(answer, Err(GiveFault::StrangeTicket(_)))
}

// The piece that comes back since it was strange.
fn strange_piece<'m>(answer: Result<Wake, GiveFault<'m>>) -> Result<Piece<'m>, Fail> {
    match answer {
        Err(GiveFault::StrangePiece(piece)) => Ok(piece),
        _ => Err(Fail::from("a strange piece is accepted")),
    }
}

// The first ticket is given a second time.
fn gives_twice<N: PoolName>(alloc: Global, blank: Blank, program: &Module) -> Result<u64, Fail>
    requires name { blank.name ≡ N.name }
    requires parts { blank.parts ≡ N.parts }
    requires seats { (N.seats ≡ N.parts) × (N.seats ≡ 1) }
    requires program { program_of program.now ≡ N.program }
{
    let mut bench = Bench::<N>::open(alloc, blank, program, 5)?;
    let (ticket, piece) = bench.visit(alloc, program)?;
    bench.accept(&ticket, piece.copy(alloc)?)?;
    if !is_strange_ticket(bench.give(&ticket, piece)) {
        return Err(Fail::from("a ticket is given twice"));
    }
    bench.nodes(alloc, program)
}

// The third ticket is given with the piece of the fourth, while both are out.
fn gives_another<N: PoolName>(alloc: Global, blank: Blank, program: &Module) -> Result<u64, Fail>
    requires name { blank.name ≡ N.name }
    requires parts { blank.parts ≡ N.parts }
    requires seats { (N.seats ≡ N.parts) × (N.seats ≡ 1) }
    requires program { program_of program.now ≡ N.program }
{
    let mut bench = Bench::<N>::open(alloc, blank, program, 5)?;
    bench.work(alloc, program)?;
    bench.work(alloc, program)?;
    let (third, piece) = bench.visit(alloc, program)?;
    let (fourth, other) = bench.visit(alloc, program)?;
    let back = strange_piece(bench.give(&third, other))?;
    bench.accept(&fourth, back)?;
    bench.accept(&third, piece)?;
    bench.nodes(alloc, program)
}

// The first ticket is given with the piece that was made for the first ticket of another exploration.
fn gives_elsewhere<N: PoolName, M: PoolName>(
    alloc: Global,
    blank: Blank,
    other: Blank,
    program: &Module,
) -> Result<u64, Fail>
    requires name { (blank.name ≡ N.name) × (other.name ≡ M.name) }
    requires parts { (blank.parts ≡ N.parts) × (other.parts ≡ M.parts) }
    requires seats { (N.seats ≡ N.parts) × (N.seats ≡ 1) }
    requires other_seats { (M.seats ≡ M.parts) × (M.seats ≡ 1) }
    requires programs { (program_of program.now ≡ N.program) × (program_of program.now ≡ M.program) }
{
    let mut bench = Bench::<N>::open(alloc, blank, program, 5)?;
    let (_, strange) = Bench::<M>::open(alloc, other, program, 4)?.visit(alloc, program)?;
    let (ticket, piece) = bench.visit(alloc, program)?;
    let _back = strange_piece(bench.give(&ticket, strange))?;
    bench.accept(&ticket, piece)?;
    bench.nodes(alloc, program)
}

// The pool is finished as another exploration.
fn finishes_elsewhere<N: PoolName>(
    alloc: Global,
    blank: Blank,
    program: &Module,
) -> Result<bool, Fail>
    requires name { blank.name ≡ N.name }
    requires parts { blank.parts ≡ N.parts }
    requires seats { (N.seats ≡ N.parts) × (N.seats ≡ 1) }
    requires program { program_of program.now ≡ N.program }
{
    let mut bench = Bench::<N>::open(alloc, blank, program, 5)?;
    bench.work_out(alloc, program)?;
    Ok(bench.finish(alloc, program, 4)?.is_err())
}

// The pool is finished while a ticket is out.
fn finishes_early<N: PoolName>(alloc: Global, blank: Blank, program: &Module) -> Result<bool, Fail>
    requires name { blank.name ≡ N.name }
    requires parts { blank.parts ≡ N.parts }
    requires seats { (N.seats ≡ N.parts) × (N.seats ≡ 1) }
    requires program { program_of program.now ≡ N.program }
{
    let mut bench = Bench::<N>::open(alloc, blank, program, 5)?;
    bench.take(alloc)?;
    Ok(bench.finish(alloc, program, 5)?.is_err())
}

// The pool is stopped with two tickets out, and their pieces come in afterwards.
fn stops<N: PoolName>(alloc: Global, blank: Blank, program: &Module) -> Result<bool, Fail>
    requires name { blank.name ≡ N.name }
    requires parts { blank.parts ≡ N.parts }
    requires seats { (N.seats ≡ N.parts) × (N.seats ≡ 1) }
    requires program { program_of program.now ≡ N.program }
{
    let mut bench = Bench::<N>::open(alloc, blank, program, 5)?;
    bench.work(alloc, program)?;
    bench.work(alloc, program)?;
    let (third, piece) = bench.visit(alloc, program)?;
    let (fourth, other) = bench.visit(alloc, program)?;
    bench.state.stop();
    bench.accept(&third, piece)?;
    if !bench.is_stopped(alloc)? {
        return Err(Fail::from("a pool goes on after a stop"));
    }
    bench.accept(&fourth, other)?;
    bench.state.stop();
    bench.is_out_of_memory(alloc, program)
}

// The piece of the first ticket leaves a job to those who wait, and that of the third comes in while another job is open,
// so that nobody waits.
fn wakes<N: PoolName>(alloc: Global, blank: Blank, program: &Module) -> Result<bool, Fail>
    requires name { blank.name ≡ N.name }
    requires parts { blank.parts ≡ N.parts }
    requires seats { (N.seats ≡ N.parts) × (N.seats ≡ 1) }
    requires program { program_of program.now ≡ N.program }
{
    let mut bench = Bench::<N>::open(alloc, blank, program, 5)?;
    let (first, piece) = bench.visit(alloc, program)?;
    let leaves_a_job = bench.accept(&first, piece)?;
    bench.work(alloc, program)?;
    let (third, piece) = bench.visit(alloc, program)?;
    let beside_a_job = bench.accept(&third, piece)?;
    Ok(leaves_a_job == Wake::Everybody && beside_a_job == Wake::Nobody)
}

// The fourth ticket is given as the ninth entry of the list, for which that has to grow. Where there is no memory for
// it the pool is stopped, and the ticket still out: given once more, it is accepted, and the pool ends for lack of
// memory.
fn gives<N: PoolName>(alloc: Global, blank: Blank, program: &Module) -> Result<bool, Fail>
    requires name { blank.name ≡ N.name }
    requires parts { blank.parts ≡ N.parts }
    requires seats { (N.seats ≡ N.parts) × (N.seats ≡ 1) }
    requires program { program_of program.now ≡ N.program }
{
    let mut bench = Bench::<N>::open(alloc, blank, program, 5)?;
    bench.work(alloc, program)?;
    bench.work(alloc, program)?;
    let (third, piece) = bench.visit(alloc, program)?;
    let (fourth, other) = bench.visit(alloc, program)?;
    bench.accept(&third, piece)?;
    let (fifth, last) = bench.visit(alloc, program)?;
    let spare = other.copy(alloc)?;
    if let Err(_) = bench.give(&fourth, other) {
        let is_stopped = bench.is_stopped(alloc)?;
        let is_out = bench.give(&fourth, spare).is_ok();
        bench.accept(&fifth, last)?;
        return Ok(is_stopped && is_out && bench.is_out_of_memory(alloc, program)?);
    }
    bench.accept(&fifth, last)?;
    Ok(bench.nodes(alloc, program)? == 10)
}

// The third ticket's job is that of the first process's second step, the fourth's that of the second process's first one,
// below which the first process sleeps. Six of the ten schedules begin with the steps of the one, two with those of the
// other, by hand. The jobs have the numbers of their tickets, which are other ones in a pool of their own.
#[test]
fn a_pool_begins_with_any_job(rt: HostRuntime) -> Result<(), Fail> {
    let program = read_module(rt.alloc(), TABLES.as_bytes())?;
    let root = Job::root(rt.alloc(), &program, &options(5));
    let (third, fourth) = two_jobs::<Brand>(rt.alloc(), Blank::new(1), &program)?;
    for (job, nodes) in [(&root, 10), (&third, 6), (&fourth, 2)] {
        let ended = ends_as::<Brand>(rt.alloc(), Blank::new(1), job, job)?;
        assert_eq!(rt; nodes_of(ended)?, nodes);
    }
    Ok(())
}

#[test]
fn a_pool_is_finished_as_that_of_its_job(rt: HostRuntime) -> Result<(), Fail> {
    let program = read_module(rt.alloc(), TABLES.as_bytes())?;
    let root = Job::root(rt.alloc(), &program, &options(5));
    let (third, fourth) = two_jobs::<Brand>(rt.alloc(), Blank::new(1), &program)?;
    for (job, other) in [(&third, &fourth), (&third, &root), (&root, &third)] {
        let ended = ends_as::<Brand>(rt.alloc(), Blank::new(1), job, other)?;
        assert!(rt; ended.is_err());
    }
    Ok(())
}

#[test]
fn a_ticket_is_given_once(rt: HostRuntime) -> Result<(), Fail> {
    let program = read_module(rt.alloc(), TABLES.as_bytes())?;
    let nodes = gives_twice::<Brand>(rt.alloc(), Blank::new(1), &program)?;
    assert_eq!(rt; nodes, 10);
    Ok(())
}

#[test]
fn a_piece_is_of_its_ticket(rt: HostRuntime) -> Result<(), Fail> {
    let program = read_module(rt.alloc(), TABLES.as_bytes())?;
    let nodes = gives_another::<Brand>(rt.alloc(), Blank::new(1), &program)?;
    assert_eq!(rt; nodes, 10);
    Ok(())
}

#[test]
fn a_piece_is_of_its_exploration(rt: HostRuntime) -> Result<(), Fail> {
    let program = read_module(rt.alloc(), TABLES.as_bytes())?;
    let nodes = gives_elsewhere::<Brand, Brand>(
        rt.alloc(),
        Blank::new(1),
        Blank::new(1),
        &program,
    )?;
    assert_eq!(rt; nodes, 10);
    Ok(())
}

#[test]
fn a_pool_is_finished_as_itself(rt: HostRuntime) -> Result<(), Fail> {
    let program = read_module(rt.alloc(), TABLES.as_bytes())?;
    assert!(rt; finishes_elsewhere::<Brand>(rt.alloc(), Blank::new(1), &program)?);
    assert!(rt; finishes_early::<Brand>(rt.alloc(), Blank::new(1), &program)?);
    Ok(())
}

#[test]
fn a_stopped_pool_takes_pieces_in(rt: HostRuntime) -> Result<(), Fail> {
    let program = read_module(rt.alloc(), TABLES.as_bytes())?;
    assert!(rt; stops::<Brand>(rt.alloc(), Blank::new(1), &program)?);
    Ok(())
}

#[test]
fn those_who_wait_are_woken(rt: HostRuntime) -> Result<(), Fail> {
    let program = read_module(rt.alloc(), TABLES.as_bytes())?;
    assert!(rt; wakes::<Brand>(rt.alloc(), Blank::new(1), &program)?);
    Ok(())
}

#[test]
fn a_give_without_memory_leaves_its_ticket_out(rt: HostRuntime) -> Result<(), Fail> {
    let program = read_module(rt.alloc(), TABLES.as_bytes())?;
    assert!(rt; gives::<Brand>(rt.alloc(), Blank::new(1), &program)?);
    Ok(())
}
