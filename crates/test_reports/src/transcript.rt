// The lines of events made by hand, byte for byte.
use core_tree::CallKind;
use proc_links::Effect;
use proc_signals::Signal;
use std::alloc::{AllocError, Global};
use std::sync::Arc;
use std::test::Fail;
use term_core::{Pid, RefId, Step, Term, Terms, list_onto};
use test_support::{MemorySink, same};
use world_event_text::write_event;
use world_model::rule::Rule;
use world_plans::{Deed, Event, Refusal};

// How many bytes a sink takes at a time.
const PIECES: [usize; 2] = [1, 1000];

pub(super) fn pid(alloc: Global, numbers: &[u64]) -> Result<Pid, AllocError> {
    Pid::new(alloc, Vec::from_slice(alloc, numbers)?)
}

// Checks that the line of an event is written so, so many bytes at a time.
fn writes(
    alloc: Global,
    number: u64,
    event: &Event,
    line: &[u8],
    piece: usize,
) -> Result<(), Fail> {
    let mut sink = MemorySink::in_pieces(alloc, 1000, piece)?;
    write_event(&mut sink, number, event)?;
    same(sink.bytes.as_slice(), line)
}

// Checks that the line is written so, in one write or in many.
fn prints(
    alloc: Global,
    number: u64,
    process: &[u64],
    deed: Deed,
    line: &[u8],
) -> Result<(), Fail> {
    let event = Event {
        step: Step::Turn(pid(alloc, process)?),
        deed,
    };
    for piece in PIECES {
        writes(alloc, number, &event, line, piece)?;
    }
    Ok(())
}

fn served(
    alloc: Global,
    kind: CallKind,
    arguments: Vec<Term>,
    answer: Term,
) -> Result<Deed, AllocError> {
    Ok(Deed::Served {
        kind,
        arguments: Arc::new(alloc, Terms::from_vec(arguments))?,
        answer,
    })
}

fn list(alloc: Global, item: Term) -> Result<Term, AllocError> {
    list_onto(alloc, vec![in alloc; item]?, Term::Nil)
}

// The object `{'a',1}`.
fn object(alloc: Global) -> Result<Term, AllocError> {
    let parts = vec![in alloc; Term::atom(alloc, "a")?, Term::Int(1)]?;
    Term::tuple(alloc, Terms::from_vec(parts))
}

fn table_and(alloc: Global, argument: Term) -> Result<Vec<Term>, AllocError> {
    Ok(vec![in alloc; Term::atom(alloc, "t")?, argument]?)
}

#[test]
fn prints_a_table_that_is_made(rt: HostRuntime) -> Result<(), Fail> {
    let alloc = rt.alloc();
    let arguments = table_and(alloc, list(alloc, Term::atom(alloc, "named_table")?)?)?;
    let deed = served(alloc, CallKind::New, arguments, Term::atom(alloc, "t")?)?;
    let line = b"3 P.2 ets:new('t',['named_table']) -> 't'\n";
    prints(alloc, 3, &[2], deed, line)
}

#[test]
fn prints_an_object_that_is_put(rt: HostRuntime) -> Result<(), Fail> {
    let alloc = rt.alloc();
    let arguments = table_and(alloc, object(alloc)?)?;
    let deed = served(
        alloc,
        CallKind::Insert,
        arguments,
        Term::atom(alloc, "true")?,
    )?;
    let line = b"3 P.2 ets:insert('t',{'a',1}) -> 'true'\n";
    prints(alloc, 3, &[2], deed, line)
}

#[test]
fn prints_objects_that_are_found(rt: HostRuntime) -> Result<(), Fail> {
    let alloc = rt.alloc();
    let arguments = table_and(alloc, Term::atom(alloc, "a")?)?;
    let deed = served(
        alloc,
        CallKind::Lookup,
        arguments,
        list(alloc, object(alloc)?)?,
    )?;
    let line = b"3 P.2 ets:lookup('t','a') -> [{'a',1}]\n";
    prints(alloc, 3, &[2], deed, line)
}

#[test]
fn prints_a_message_that_is_sent(rt: HostRuntime) -> Result<(), Fail> {
    let alloc = rt.alloc();
    let message = Term::atom(alloc, "b")?;
    let arguments = vec![in alloc; Term::Pid(pid(alloc, &[])?), message.copy()?]?;
    let deed = served(alloc, CallKind::Bang, arguments, message)?;
    let line = b"3 P.2 erlang:!(P,'b') -> 'b'\n";
    prints(alloc, 3, &[2], deed, line)
}

#[test]
fn prints_a_reference_that_is_made(rt: HostRuntime) -> Result<(), Fail> {
    let alloc = rt.alloc();
    let reference = Term::Ref(RefId::new(alloc, pid(alloc, &[])?, 1)?);
    let deed = served(alloc, CallKind::MakeRef, Vec::new(alloc), reference)?;
    let line = b"3 P.2 erlang:make_ref() -> #P.1\n";
    prints(alloc, 3, &[2], deed, line)
}

// Rules with the owner that is reported, and the lines of their refusals.
const REFUSED: [(Rule, Option<&[u64]>, &[u8]); 10] = [
    (
        Rule::BadTable,
        None,
        b"1 P ets:lookup('t','a') -> badarg (1 BadTable)\n",
    ),
    (
        Rule::NoTable,
        None,
        b"1 P ets:lookup('t','a') -> badarg (2 NoTable)\n",
    ),
    (
        Rule::PrivateRead,
        Some(&[]),
        b"1 P ets:lookup('t','a') -> badarg (3 PrivateRead, owner P)\n",
    ),
    (
        Rule::PrivateWrite,
        Some(&[]),
        b"1 P ets:lookup('t','a') -> badarg (4 PrivateWrite, owner P)\n",
    ),
    (
        Rule::ProtectedWrite,
        Some(&[2]),
        b"1 P ets:lookup('t','a') -> badarg (5 ProtectedWrite, owner P.2)\n",
    ),
    (
        Rule::BadName,
        None,
        b"1 P ets:lookup('t','a') -> badarg (7 BadName)\n",
    ),
    (
        Rule::BadOption,
        None,
        b"1 P ets:lookup('t','a') -> badarg (8 BadOption)\n",
    ),
    (
        Rule::NameTaken,
        None,
        b"1 P ets:lookup('t','a') -> badarg (9 NameTaken)\n",
    ),
    (
        Rule::NotObject,
        Some(&[]),
        b"1 P ets:lookup('t','a') -> badarg (10 NotObject, owner P)\n",
    ),
    (
        Rule::ShortObject,
        Some(&[]),
        b"1 P ets:lookup('t','a') -> badarg (11 ShortObject, owner P)\n",
    ),
];

fn refused(alloc: Global, rule: Rule, numbers: Option<&[u64]>) -> Result<Deed, AllocError> {
    let arguments = table_and(alloc, Term::atom(alloc, "a")?)?;
    let owner = match numbers {
        Some(numbers) => Some(pid(alloc, numbers)?),
        None => None,
    };
    Ok(Deed::Refused {
        kind: CallKind::Lookup,
        arguments: Arc::new(alloc, Terms::from_vec(arguments))?,
        refusal: Refusal::ByRule(rule, owner),
    })
}

#[test]
fn prints_refused_calls(rt: HostRuntime) -> Result<(), Fail> {
    for (rule, owner, line) in REFUSED {
        let deed = refused(rt.alloc(), rule, owner)?;
        prints(rt.alloc(), 1, &[], deed, line)?;
    }
    Ok(())
}

#[test]
fn prints_ends_and_waits(rt: HostRuntime) -> Result<(), Fail> {
    let end = Deed::Ended(Term::atom(rt.alloc(), "normal")?);
    prints(rt.alloc(), 4, &[], end, b"4 P ends 'normal'\n")?;
    prints(rt.alloc(), 1, &[], Deed::RanAway, b"1 P runs away\n")?;
    prints(rt.alloc(), 4, &[1], Deed::TimedOut, b"4 P.1 times out\n")
}

// The reference `#P.1`.
fn reference(alloc: Global) -> Result<RefId, AllocError> {
    RefId::new(alloc, pid(alloc, &[])?, 1)
}

// Checks that the line of a delivery from the first process to another is this one.
fn brings(alloc: Global, signal: Signal, effect: Effect, line: &[u8]) -> Result<(), Fail> {
    let event = Event {
        step: Step::Deliver(pid(alloc, &[])?, pid(alloc, &[2])?),
        deed: Deed::Delivered(signal, effect),
    };
    writes(alloc, 5, &event, line, 1000)
}

#[test]
fn prints_signals_that_are_delivered(rt: HostRuntime) -> Result<(), Fail> {
    let alloc = rt.alloc();
    let a = Term::atom(alloc, "a")?;
    let put = Effect::Put(a.copy()?);
    let line = b"5 P>P.2 brings 'a'\n";
    brings(alloc, Signal::Message(a.copy()?), put, line)?;
    let ends = Effect::Ends(Term::atom(alloc, "killed")?);
    let line = b"5 P>P.2 exit 'a' -> ends 'killed'\n";
    brings(alloc, Signal::Exit(a.copy()?), ends, line)?;
    let line = b"5 P>P.2 exit 'a' -> ignored\n";
    brings(alloc, Signal::Exit(a.copy()?), Effect::Ignored, line)?;
    let line = b"5 P>P.2 exit 'a' -> dropped\n";
    brings(alloc, Signal::LinkExit(a.copy()?), Effect::Dropped, line)?;
    let down = Signal::Down(reference(alloc)?, a.copy()?);
    let line = b"5 P>P.2 down #P.1 -> dropped\n";
    brings(alloc, down, Effect::Dropped, line)?;
    let put = Effect::Put(a.copy()?);
    let down = Signal::Down(reference(alloc)?, a);
    brings(alloc, down, put, b"5 P>P.2 down #P.1 -> 'a'\n")
}

#[test]
fn prints_messages_by_aliases_and_timers(rt: HostRuntime) -> Result<(), Fail> {
    let alloc = rt.alloc();
    let a = Term::atom(alloc, "a")?;
    let guarded = Signal::Guarded(reference(alloc)?, a.copy()?);
    let line = b"5 P>P.2 brings 'a' by alias #P.1\n";
    brings(alloc, guarded, Effect::Put(a.copy()?), line)?;
    let guarded = Signal::Guarded(reference(alloc)?, a.copy()?);
    let line = b"5 P>P.2 brings 'a' by alias #P.1 -> dropped\n";
    brings(alloc, guarded, Effect::Dropped, line)?;
    let elapsed = Signal::Elapsed(reference(alloc)?, a.copy()?);
    let line = b"5 P>P.2 brings 'a' by timer #P.1\n";
    brings(alloc, elapsed, Effect::Put(a.copy()?), line)?;
    let elapsed = Signal::Elapsed(reference(alloc)?, a);
    let line = b"5 P>P.2 brings 'a' by timer #P.1 -> dropped\n";
    brings(alloc, elapsed, Effect::Dropped, line)
}
