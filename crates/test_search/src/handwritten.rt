// Schedules that are written by hand, each with the identity that it shows by the rules of docs/PROCESSES.md and
// docs/TABLES.md: it is replayed, and the explorations of its module to its length, of the tree and by states, find the
// identity.
use crate::budgets::{options, searched};
use crate::states::followed;
use core_reader::{Module, read_module};
use report_text::write_identity;
use search_crew::Unwatched;
use std::alloc::Global;
use std::sync::Wait;
use std::test::Fail;
use std::thread::Threads;
use term_core::{Output, Step, WriteFault, read_schedule};
use test_support::holds;
use tree_findings::{FindingList, Outcome};
use tree_schedules::Delivery;
use world_core::World;
use world_identities::Identity;

// A schedule, and what its last step shows.
type Row = (&'static str, &'static str);

// Two processes send one message each to the first, and the second of them, P.2, ends badly. The first one waits for
// both in turn, but takes the message of P.2 first where that came first, and then waits for another one of it.
const MESSAGES: &str =
    "module 'm' ['main'/0,'c'/2] attributes [] 'main'/0 = fun () -> let <Me> = call 'erlang':'self'() in do call 'erlang':'spawn'('m','c',[Me,'a']) do call 'erlang':'spawn'('m','c',[Me,'b']) receive <'a'> when 'true' -> receive <'b'> when 'true' -> call 'erlang':'exit'('both') after 'infinity' -> 'x' <'b'> when 'true' -> receive <'b'> when 'true' -> 'x' after 'infinity' -> 'x' after 5 -> call 'erlang':'exit'('nobody') 'c'/2 = fun (To,V) -> do call 'erlang':'!'(To,V) case V of <'a'> when 'true' -> 'ok' <W> when 'true' -> call 'erlang':'exit'('sent') end end";

const OF_MESSAGES: [Row; 4] = [
    // nothing came, and the receive times out
    ("P P P P", "P ends 'nobody'"),
    // the message was sent, and does not have to arrive
    ("P P P.2 P.2", "P.2 ends 'sent'"),
    // what is selected is taken, in the order in which it is waited for
    ("P P P.1 P.1>P P P.2 P.2>P P P", "P ends 'both'"),
    // one message was taken, and the other one, which is there, is not selected
    ("P P P.2 P.2>P P P.2 P.1 P.1>P P.1", "deadlock of P"),
];

// P.1 kills the first process, which traps exits after a while; P.2 is linked to it, and ends.
const LINKS: &str =
    "module 'm' ['main'/0,'c'/0,'d'/1] attributes [] 'main'/0 = fun () -> do call 'erlang':'spawn'('m','d',[call 'erlang':'self'()]) do call 'erlang':'spawn_link'('m','c',[]) do call 'erlang':'process_flag'('trap_exit','true') receive <{'EXIT',From,R}> when 'true' -> call 'erlang':'exit'({'seen',R}) after 'infinity' -> 'x' 'c'/0 = fun () -> call 'erlang':'exit'('boom') 'd'/1 = fun (To) -> call 'erlang':'exit'(To,'kill') end";

const OF_LINKS: [Row; 4] = [
    ("P P P.2", "P.2 ends 'boom'"),
    // the signal of the link comes before exits are trapped
    ("P P P.2 P.2>P", "P ends 'boom'"),
    // it comes after that, as a message
    ("P P P.2 P P.2>P P P", "P ends {'seen','boom'}"),
    // a process that is killed has ended with another reason, which its partner gets
    ("P P P.1 P.1>P P>P.2", "P.2 ends 'killed'"),
];

// P.1 times out and ends, unless P.3 stops it before; the first process watches it, and waits to hear that it came too
// late.
const MONITORS: &str =
    "module 'm' ['main'/0,'c'/0,'d'/1] attributes [] 'main'/0 = fun () -> let <C> = call 'erlang':'spawn'('m','c',[]) in do call 'erlang':'monitor'('process',C) do call 'erlang':'spawn'('m','d',[C]) receive <{'DOWN',Ref,T,From,'noproc'}> when 'true' -> call 'erlang':'exit'('late') after 'infinity' -> 'x' 'c'/0 = fun () -> receive <'none'> when 'true' -> 'x' after 9 -> call 'erlang':'exit'('bye') 'd'/1 = fun (To) -> call 'erlang':'exit'(To,'stop') end";

const OF_MONITORS: [Row; 4] = [
    ("P P.1 P.1", "P.1 ends 'bye'"),
    // who traps no exits ends with the reason of the signal
    ("P P P P.3 P.3>P.1", "P.1 ends 'stop'"),
    // of a process that is gone the message is put at once
    ("P P.1 P.1 P P P.1>P P P", "P ends 'late'"),
    // of one that ended later it has its reason, and is not selected; P.3 signals nobody
    ("P P P P.1 P.1 P.1>P P.3 P.3", "deadlock of P"),
];

// Two processes register one name, and wait; the first process sends a message to that name.
const NAMES: &str =
    "module 'm' ['main'/0,'c'/0] attributes [] 'main'/0 = fun () -> do call 'erlang':'spawn'('m','c',[]) do call 'erlang':'spawn'('m','c',[]) do call 'erlang':'!'('n','hi') 'ok' 'c'/0 = fun () -> do call 'erlang':'register'('n',call 'erlang':'self'()) receive <X> when 'true' -> call 'erlang':'exit'({'got',X}) after 'infinity' -> 'x' end";

const OF_NAMES: [Row; 4] = [
    // nobody has the name
    ("P P P P", "P ends {'badarg',[]}"),
    // who has it gets the message
    ("P P P.2 P P>P.2 P.2 P.2", "P.2 ends {'got','hi'}"),
    // the name is in use
    ("P P P.1 P.2 P.2", "P.2 ends {'badarg',[]}"),
    // who has it gets nothing, as the message was sent before
    ("P P P P P.1 P.2 P.2", "deadlock of P.1"),
];

// The first process makes a protected table and gives it to P.2, which writes it; P.3 reads it.
const TABLES: &str =
    "module 'm' ['main'/0,'c'/0,'d'/0] attributes [] 'main'/0 = fun () -> do call 'ets':'new'('t',['named_table']) let <C> = call 'erlang':'spawn'('m','c',[]) in do call 'erlang':'spawn'('m','d',[]) do call 'ets':'give_away'('t',C,'g') 'ok' 'c'/0 = fun () -> do call 'ets':'insert'('t',{'a',1}) 'ok' 'd'/0 = fun () -> do call 'ets':'lookup_element'('t','a',2) 'ok' end";

const OF_TABLES: [Row; 4] = [
    // it is not yet its own
    (
        "P P P.2",
        "P.2 request 1 ets:insert('t',{'a',1}) -> badarg (5 ProtectedWrite, owner P)",
    ),
    // it has got another owner, and no object yet
    (
        "P P P P P.3",
        "P.3 request 1 ets:lookup_element('t','a',2) -> badarg (13 NoKey, owner P.2)",
    ),
    // its owner ended, and there is no heir
    (
        "P P P P P.2 P.2 P.3",
        "P.3 request 1 ets:lookup_element('t','a',2) -> badarg (2 NoTable)",
    ),
    // P.2 ended after it was refused
    (
        "P P P.2 P.2 P P",
        "P request 4 ets:give_away('t',P.2,'g') -> badarg (16 DeadTarget, owner P)",
    ),
];

// Two processes put what they were told into their dictionaries, which begin empty, and send it to the first; that puts what
// comes into its own, and keeps what it put before an error that it caught.
const DICTIONARIES: &str =
    "module 'm' ['main'/0,'c'/2] attributes [] 'main'/0 = fun () -> let <Me> = call 'erlang':'self'() in do catch do call 'erlang':'put'('n',1) call 'erlang':'error'('x') do call 'erlang':'spawn'('m','c',[Me,'a']) do call 'erlang':'spawn'('m','c',[Me,'b']) do receive <X> when 'true' -> call 'erlang':'put'('k',X) after 'infinity' -> 'x' do receive <Y> when 'true' -> call 'erlang':'put'('k',Y) after 'infinity' -> 'x' do call 'erlang':'make_ref'() call 'erlang':'exit'({call 'erlang':'get'('k'),call 'erlang':'get'('n')}) 'c'/2 = fun (To,M) -> let <Old> = call 'erlang':'put'('k',M) in do call 'erlang':'!'(To,M) call 'erlang':'exit'({Old,call 'erlang':'get'('k'),call 'erlang':'get'('n')}) end";

const OF_DICTIONARIES: [Row; 4] = [
    // what came last is kept; until the end the two orders differ in that alone
    ("P P P.1 P.1>P P P.2 P.2>P P P P", "P ends {'b',1}"),
    ("P P P.2 P.2>P P P.1 P.1>P P P P", "P ends {'a',1}"),
    // a process has a dictionary of its own
    ("P P P.1 P.1", "P.1 ends {'undefined','a','undefined'}"),
    ("P P P.2 P.2", "P.2 ends {'undefined','b','undefined'}"),
];

// Whether this is the text of what is shown.
fn is_told(alloc: Global, identity: &Identity, wanted: &str) -> Result<bool, WriteFault> {
    let mut sink = Output::new(Vec::new(alloc));
    write_identity(&mut sink, identity)?;
    Ok(sink.writer.as_slice() == wanted.as_bytes())
}

// Whether the world after a schedule shows this.
fn shows(alloc: Global, program: &Module, steps: &[Step], wanted: &str) -> Result<bool, Fail> {
    let mut world = World::open(alloc, program)?;
    world.advance(alloc, steps)?;
    for identity in world.errors_here(alloc)?.as_slice() {
        if is_told(alloc, identity, wanted)? {
            return Ok(true);
        }
    }
    Ok(false)
}

// Whether this is among what was found.
fn lists(alloc: Global, found: &FindingList, wanted: &str) -> Result<bool, Fail> {
    for finding in found.as_slice() {
        if is_told(alloc, &finding.identity, wanted)? {
            return Ok(true);
        }
    }
    Ok(false)
}

// Whether the exploration to a depth finds this, as an error or as a refusal.
fn finds<T: Threads + Wait + Sync>(
    rt: &T,
    alloc: Global,
    program: &Module,
    depth: u64,
    wanted: &str,
) -> Result<bool, Fail> {
    match searched(rt, alloc, program, &options(depth, 64), &Unwatched) {
        Ok(Outcome::Complete(found, _)) => {
            Ok(lists(alloc, found.errors(), wanted)? || lists(alloc, found.refusals(), wanted)?)
        }
        _ => Err(Fail::from("the search was not complete")),
    }
}

// Whether the exploration by states to a depth finds this, as an error or as a refusal.
fn finds_by_states<T: Threads + Sync>(
    rt: &T,
    alloc: Global,
    program: &Module,
    depth: u64,
    wanted: &str,
) -> Result<bool, Fail> {
    match followed(rt, alloc, program, Delivery::AnyTime, depth)?.outcome {
        Outcome::Complete(found, _) => {
            Ok(lists(alloc, found.errors(), wanted)? || lists(alloc, found.refusals(), wanted)?)
        }
        Outcome::Incomplete(_, found) => {
            drop(found);
            Err(Fail::from("the search was not complete"))
        }
    }
}

// Checks that each schedule shows what stands beside it, and that the explorations to its length find that.
fn are_shown_and_found<T: Threads + Wait + Sync>(
    rt: &T,
    alloc: Global,
    text: &str,
    rows: &[Row],
) -> Result<(), Fail> {
    let program = read_module(alloc, text.as_bytes())?;
    for (schedule, wanted) in rows {
        let steps = read_schedule(alloc, schedule.as_bytes())?;
        holds(shows(alloc, &program, steps.as_slice(), wanted)?, schedule)?;
        holds(
            finds(rt, alloc, &program, steps.len() as u64, wanted)?,
            wanted,
        )?;
        holds(
            finds_by_states(rt, alloc, &program, steps.len() as u64, wanted)?,
            wanted,
        )?;
    }
    Ok(())
}

#[test]
fn messages_are_taken_as_they_were_written_down(rt: HostRuntime) -> Result<(), Fail> {
    are_shown_and_found(&rt, rt.alloc(), MESSAGES, &OF_MESSAGES)
}

#[test]
fn links_end_as_they_were_written_down(rt: HostRuntime) -> Result<(), Fail> {
    are_shown_and_found(&rt, rt.alloc(), LINKS, &OF_LINKS)
}

#[test]
fn watches_tell_as_they_were_written_down(rt: HostRuntime) -> Result<(), Fail> {
    are_shown_and_found(&rt, rt.alloc(), MONITORS, &OF_MONITORS)
}

#[test]
fn names_are_held_as_they_were_written_down(rt: HostRuntime) -> Result<(), Fail> {
    are_shown_and_found(&rt, rt.alloc(), NAMES, &OF_NAMES)
}

#[test]
fn calls_of_tables_are_refused_as_they_were_written_down(rt: HostRuntime) -> Result<(), Fail> {
    are_shown_and_found(&rt, rt.alloc(), TABLES, &OF_TABLES)
}

#[test]
fn dictionaries_are_kept_as_they_were_written_down(rt: HostRuntime) -> Result<(), Fail> {
    are_shown_and_found(&rt, rt.alloc(), DICTIONARIES, &OF_DICTIONARIES)
}
