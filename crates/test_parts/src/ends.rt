// What the end of a process puts: exit signals to its partners, and then the signals of watches to its watchers.
ghost use Rattle.std.specs.Prelude.{◌≡◌, false};

use proc_links::{Links, Watchers, on_end};
use proc_signals::Signal;
use std::alloc::{AllocError, Global};
use std::collections::BTreeSet;
use std::test::Fail;
use term_core::{
    Output, Pid, RefId, Term, WriteFault, write_all, write_pid, write_reference, write_term,
};
use test_support::same;

// The numbers of a process: those of P.2.1 are 2 and 1.
type Numbers = &'static [u64];

// The process that ends.
const ENDING: Numbers = &[5];

// Who is linked to it, as the links were made.
const PARTNERS: [Numbers; 5] = [&[9], &[3], &[2, 1], &[1], &[4]];

// Who watches it, with the number of the watch.
const WATCHES: [(Numbers, u64); 5] = [(&[7], 2), (&[1], 30), (&[3], 1), (&[1], 4), (&[2, 1], 6)];

// Who lives of these: all but P.3 and P.4. It lives itself no longer.
const LIVING: [Numbers; 4] = [&[1], &[7], &[2, 1], &[9]];

// Partners in the order of pids, and then watches in the order of references.
const ALL_TOLD: &str =
    "P.1 exit 'bye', P.2.1 exit 'bye', P.9 exit 'bye', P.1 down #P.1.4 'bye', P.1 down #P.1.30 'bye', P.2.1 down #P.2.1.6 'bye', P.7 down #P.7.2 'bye', ";

// The process of these numbers.
fn pid(alloc: Global, numbers: &[u64]) -> Result<Pid, AllocError> {
    let mut owned = Vec::new(alloc);
    for number in numbers {
        owned.push(*number)?;
    }
    Pid::new(alloc, owned)
}

// The links of the process that ends, and one between two others.
fn links(alloc: Global) -> Result<Links, AllocError> {
    let mut links = Links::new(alloc)?;
    let ending = pid(alloc, ENDING)?;
    for partner in PARTNERS {
        links.pair(alloc, &ending, &pid(alloc, partner)?)?;
    }
    links.pair(alloc, &pid(alloc, &[1])?, &pid(alloc, &[7])?)?;
    Ok(links)
}

// The watches of the process that ends, and one that it made itself.
fn watchers(alloc: Global) -> Result<Watchers, AllocError> {
    let mut watchers = Watchers::new(alloc)?;
    let ending = pid(alloc, ENDING)?;
    for (maker, number) in WATCHES {
        let reference = RefId::new(alloc, pid(alloc, maker)?, number)?;
        watchers.watch(alloc, &reference, &ending)?;
    }
    let own = RefId::new(alloc, ending, 8)?;
    watchers.watch(alloc, &own, &pid(alloc, &[1])?)?;
    Ok(watchers)
}

// The set of these processes.
fn set_of(alloc: Global, all: &[Numbers]) -> Result<BTreeSet<Pid>, AllocError> {
    let mut set = BTreeSet::new(alloc);
    for numbers in all {
        set.insert(pid(alloc, numbers)?)?;
    }
    Ok(set)
}

// What kind of signal it is, and what it carries.
fn write_signal(signal: &Signal, sink: &mut Output<Vec<u8>>) -> Result<(), WriteFault>
    requires { sink.old.has_failed ≡ false }
{
    match signal {
        Signal::LinkExit(reason) => {
            write_all(sink, b" exit ")?;
            write_term(reason, sink)
        }
        Signal::Down(reference, reason) => {
            write_all(sink, b" down ")?;
            write_reference(reference, sink)?;
            write_all(sink, b" ")?;
            write_term(reason, sink)
        }
        Signal::Message(_) | Signal::Exit(_) | Signal::Guarded(_, _) | Signal::Elapsed(_, _) => {
            write_all(sink, b" another")
        }
    }
}

// A signal with the process that it is for, as text.
fn text_of(alloc: Global, to: &Pid, signal: &Signal) -> Result<Vec<u8>, WriteFault> {
    let mut sink = Output::new(Vec::new(alloc));
    write_pid(to, &mut sink)?;
    write_signal(signal, &mut sink)?;
    Ok(sink.writer)
}

// The signals of the end where these processes live, as text.
fn told(alloc: Global, living: &[Numbers]) -> Result<Vec<u8>, Fail> {
    let living = set_of(alloc, living)?;
    let ending = pid(alloc, ENDING)?;
    let reason = Term::atom(alloc, "bye")?;
    let signals = on_end(
        alloc,
        &ending,
        &reason,
        &living,
        &links(alloc)?,
        &watchers(alloc)?,
    )?;
    let mut text = Vec::new(alloc);
    for (to, signal) in &signals {
        text.extend_from_slice(text_of(alloc, to, signal)?.as_slice())?;
        text.extend_from_slice(b", ")?;
    }
    Ok(text)
}

#[test]
fn partners_are_told_and_then_watchers(rt: HostRuntime) -> Result<(), Fail> {
    same(told(rt.alloc(), &LIVING)?.as_slice(), ALL_TOLD.as_bytes())
}

#[test]
fn nothing_is_put_for_those_that_are_gone(rt: HostRuntime) -> Result<(), Fail> {
    same(told(rt.alloc(), &[])?.as_slice(), b"")?;
    same(
        told(rt.alloc(), &[&[3], &[5]])?.as_slice(),
        b"P.3 exit 'bye', P.3 down #P.3.1 'bye', ",
    )
}
