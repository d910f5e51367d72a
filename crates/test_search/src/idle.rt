// What is left unread where the first process has ended: searches of each kind, by one worker and by two.
ghost use Rattle.std.specs.Prelude.{◌≡◌};

use crate::budgets::searched;
use crate::states::complete;
use core_reader::{Module, read_module};
use report_text::write_identity;
use search_crew::Unwatched;
use search_samples::{Samples, sample_schedules};
use search_states::{Unobserved, search_states};
use std::alloc::Global;
use std::sync::Wait;
use std::test::Fail;
use std::thread::Threads;
use term_core::{Output, WriteFault, read_schedule};
use test_support::same;
use tree_findings::{FindingList, Options, Search};
use tree_schedules::Delivery;
use world_core::World;
use world_identities::{Flags, Identity};

// A module, and the errors that its schedules show: where servers have to be idle, and else.
type Row = (&'static str, &'static str, &'static str);

// Two servers call each other, and each waits for the reply of the other.
const TWO_SERVERS: &str =
    "module 'm' ['main'/0,'s'/0] attributes [] 'main'/0 = fun () -> let <A> = call 'erlang':'spawn'('m','s',[]) in let <B> = call 'erlang':'spawn'('m','s',[]) in do call 'erlang':'!'(A,{'calls',B}) do call 'erlang':'!'(B,{'calls',A}) 'ok' 's'/0 = fun () -> receive <{'calls',Other}> when 'true' -> do call 'erlang':'!'(Other,{'call',call 'erlang':'self'()}) receive <{'reply',R}> when 'true' -> R after 'infinity' -> 'x' after 'infinity' -> 'x' end";

const OF_TWO_SERVERS: Row = (
    TWO_SERVERS,
    "deadlock of P.1 P.2\nunread messages of P.1 P.2\n",
    "deadlock of P.1 P.2\n",
);

// A server waits for messages that do not come.
const OF_AN_IDLE_SERVER: Row = (
    "module 'm' ['main'/0,'s'/0] attributes [] 'main'/0 = fun () -> call 'erlang':'spawn'('m','s',[]) 's'/0 = fun () -> receive <X> when 'true' -> X after 'infinity' -> 'x' end",
    "deadlock of P.1\n",
    "deadlock of P.1\n",
);

// A server never takes the message that it gets.
const OF_ONE_NOT_TAKEN: Row = (
    "module 'm' ['main'/0,'s'/0] attributes [] 'main'/0 = fun () -> let <S> = call 'erlang':'spawn'('m','s',[]) in do call 'erlang':'!'(S,'late') 'ok' 's'/0 = fun () -> receive <'go'> when 'true' -> 'x' after 'infinity' -> 'x' end",
    "deadlock of P.1\nunread messages of P.1\n",
    "deadlock of P.1\n",
);

// The same, where the first process waits too.
const OF_FIRST_WAITS: Row = (
    "module 'm' ['main'/0,'s'/0] attributes [] 'main'/0 = fun () -> let <S> = call 'erlang':'spawn'('m','s',[]) in do call 'erlang':'!'(S,'late') receive <'go'> when 'true' -> 'x' after 'infinity' -> 'x' 's'/0 = fun () -> receive <'go'> when 'true' -> 'x' after 'infinity' -> 'x' end",
    "deadlock of P P.1\n",
    "deadlock of P P.1\n",
);

// Two servers wait, and one of them has a message.
const OF_ONE_OF_TWO: Row = (
    "module 'm' ['main'/0,'s'/0] attributes [] 'main'/0 = fun () -> do call 'erlang':'spawn'('m','s',[]) let <S> = call 'erlang':'spawn'('m','s',[]) in do call 'erlang':'!'(S,'late') 'ok' 's'/0 = fun () -> receive <'go'> when 'true' -> 'x' after 'infinity' -> 'x' end",
    "deadlock of P.1 P.2\nunread messages of P.2\n",
    "deadlock of P.1 P.2\n",
);

// A server takes its message, or it gave up before: the same process waits with an empty mailbox, and with a message.
const OF_ONE_THAT_GIVES_UP: Row = (
    "module 'm' ['main'/0,'s'/0] attributes [] 'main'/0 = fun () -> let <S> = call 'erlang':'spawn'('m','s',[]) in do call 'erlang':'!'(S,'go') 'ok' 's'/0 = fun () -> do receive <'go'> when 'true' -> 'taken' after 5 -> 'late' receive <'stop'> when 'true' -> 'x' after 'infinity' -> 'x' end",
    "deadlock of P.1\nunread messages of P.1\n",
    "deadlock of P.1\n",
);

// All schedules of these modules are shorter.
const DEPTH: u64 = 20;

// What counts as an error.
fn flags(idle_servers: bool) -> Flags {
    Flags {
        allow_deadlock: false,
        strict_access: false,
        idle_servers,
    }
}

// What is explored.
fn options_of(workers: u64, idle_servers: bool) -> Options
    ensures budget { result.budget ≡ 64 }
{
    Options {
        depth: DEPTH,
        nodes: 1_000_000,
        budget: 64,
        workers,
        search: Search::ByTree,
        flags: flags(idle_servers),
    }
}

// The text of what is shown.
fn text_of(alloc: Global, identity: &Identity) -> Result<Vec<u8>, WriteFault> {
    let mut sink = Output::new(Vec::new(alloc));
    write_identity(&mut sink, identity)?;
    Ok(sink.writer)
}

// The texts of what was found, each on a line.
fn told(alloc: Global, found: &FindingList) -> Result<Vec<u8>, Fail> {
    let mut lines = Vec::new(alloc);
    for finding in found.as_slice() {
        let text = text_of(alloc, &finding.identity)?;
        lines.extend_from_slice(text.as_slice())?;
        lines.push(b'\n')?;
    }
    Ok(lines)
}

// The errors that the tree shows.
fn by_tree<T: Threads + Wait + Sync>(
    rt: &T,
    alloc: Global,
    program: &Module,
    workers: u64,
    idle_servers: bool,
) -> Result<Vec<u8>, Fail> {
    let Ok(outcome) = searched(
        rt,
        alloc,
        program,
        &options_of(workers, idle_servers),
        &Unwatched,
    ) else {
        return Err(Fail::from("the search was not begun"));
    };
    let (found, _) = complete(outcome)?;
    told(alloc, found.errors())
}

// The errors that the states show, where servers have to be idle.
fn by_states<T: Threads + Sync>(
    rt: &T,
    alloc: Global,
    program: &Module,
    delivery: Delivery,
    workers: u64,
) -> Result<Vec<u8>, Fail> {
    let options = Options {
        search: Search::ByStates(delivery),
        ..options_of(workers, true)
    };
    let searched = search_states(rt, alloc, program, &options, delivery, &Unobserved)?;
    let (found, _) = complete(searched.outcome)?;
    told(alloc, found.errors())
}

// The errors that random schedules show, where servers have to be idle.
fn by_samples(alloc: Global, program: &Module) -> Result<Vec<u8>, Fail> {
    let samples = Samples {
        depth: DEPTH,
        runs: 200,
        seed: 1,
        delivery: Delivery::AnyTime,
        flags: flags(true),
    };
    let found = sample_schedules(alloc, program, &samples)?;
    told(alloc, found.errors())
}

// Checks that so many workers find what a row says.
fn are_found_by<T: Threads + Wait + Sync>(
    rt: &T,
    alloc: Global,
    row: Row,
    workers: u64,
) -> Result<(), Fail> {
    let (module, idle, plain) = row;
    let program = read_module(alloc, module.as_bytes())?;
    let tree = by_tree(rt, alloc, &program, workers, true)?;
    same(tree.as_slice(), idle.as_bytes())?;
    let tree = by_tree(rt, alloc, &program, workers, false)?;
    same(tree.as_slice(), plain.as_bytes())?;
    let states = by_states(rt, alloc, &program, Delivery::AnyTime, workers)?;
    same(states.as_slice(), idle.as_bytes())?;
    let states = by_states(rt, alloc, &program, Delivery::AtOnce, workers)?;
    same(states.as_slice(), idle.as_bytes())?;
    let samples = by_samples(alloc, &program)?;
    same(samples.as_slice(), idle.as_bytes())
}

// Checks that one worker finds what a row says, and that two do.
fn are_found<T: Threads + Wait + Sync>(rt: &T, alloc: Global, row: Row) -> Result<(), Fail> {
    are_found_by(rt, alloc, row, 1)?;
    are_found_by(rt, alloc, row, 2)
}

#[test]
fn servers_that_call_each_other_have_messages(rt: HostRuntime) -> Result<(), Fail> {
    are_found(&rt, rt.alloc(), OF_TWO_SERVERS)
}

#[test]
fn an_idle_server_has_none(rt: HostRuntime) -> Result<(), Fail> {
    are_found(&rt, rt.alloc(), OF_AN_IDLE_SERVER)
}

#[test]
fn a_message_that_is_not_taken_stays(rt: HostRuntime) -> Result<(), Fail> {
    are_found(&rt, rt.alloc(), OF_ONE_NOT_TAKEN)
}

#[test]
fn where_the_first_process_waits_there_is_the_deadlock_alone(rt: HostRuntime) -> Result<(), Fail> {
    are_found(&rt, rt.alloc(), OF_FIRST_WAITS)
}

#[test]
fn only_those_with_messages_are_told(rt: HostRuntime) -> Result<(), Fail> {
    are_found(&rt, rt.alloc(), OF_ONE_OF_TWO)
}

#[test]
fn one_deadlock_may_be_with_messages_and_without(rt: HostRuntime) -> Result<(), Fail> {
    are_found(&rt, rt.alloc(), OF_ONE_THAT_GIVES_UP)
}

// The texts of what the world after a schedule shows, each on a line.
fn shown_after(alloc: Global, module: &str, schedule: &str) -> Result<Vec<u8>, Fail> {
    let program = read_module(alloc, module.as_bytes())?;
    let steps = read_schedule(alloc, schedule.as_bytes())?;
    let mut world = World::open(alloc, &program)?;
    world.advance(alloc, steps.as_slice())?;
    let mut lines = Vec::new(alloc);
    for identity in world.errors_here(alloc)?.as_slice() {
        let text = text_of(alloc, identity)?;
        lines.extend_from_slice(text.as_slice())?;
        lines.push(b'\n')?;
    }
    Ok(lines)
}

// Schedules of the two servers, and what their last steps show.
const SHOWN: [(&str, &str); 4] = [
    // each has the call of the other, after its own one was taken
    (
        "P P P P P P>P.1 P>P.2 P.1 P.1 P.2 P.2 P.1>P.2 P.2>P.1",
        "deadlock of P.1 P.2\nunread messages of P.1 P.2\n",
    ),
    // a call comes before what makes its receiver call
    (
        "P P P P P P>P.1 P.1 P.1 P.1>P.2 P>P.2 P.2 P.2 P.2>P.1",
        "deadlock of P.1 P.2\nunread messages of P.1 P.2\n",
    ),
    // the last call is not there yet
    ("P P P P P P>P.1 P>P.2 P.1 P.1 P.2 P.2 P.1>P.2", ""),
    // nor has the first process ended
    ("P P P P P>P.1 P.1 P.1 P.1>P.2", ""),
];

#[test]
fn calls_stay_as_they_were_written_down(rt: HostRuntime) -> Result<(), Fail> {
    for (schedule, wanted) in SHOWN {
        let lines = shown_after(rt.alloc(), TWO_SERVERS, schedule)?;
        same(lines.as_slice(), wanted.as_bytes())?;
    }
    Ok(())
}
