// Parts of a world that came about in different orders, and are the same; and parts that differ in one thing.
use ets_store::{Object, Rows};
use proc_links::{Links, Names, Watchers};
use proc_mailboxes::Mailboxes;
use proc_signals::{Channels, Signal};
use std::alloc::{AllocError, Global};
use std::hash::{FoldHasher, Hasher};
use std::sync::Arc;
use std::test::Fail;
use term_core::{Atom, Pid, RefId, Term, Terms};
use test_support::holds;
use world_model::table::Kind;

const ORDER: &str = "what came about in another order is the same";

const MORE: &str = "what has one thing more is not the same";

const ALIKE: &str = "what is the same is fed alike";

const OTHERWISE: &str = "what has one thing more is fed otherwise";

// The process that request `number` of the first process made.
fn pid(alloc: Global, number: u64) -> Result<Pid, AllocError> {
    let mut numbers = Vec::new(alloc);
    numbers.push(number)?;
    Pid::new(alloc, numbers)
}

// The channels once these messages were sent: of each the sender, the receiver and the message.
fn channels(alloc: Global, sent: &[(u64, u64, i64)]) -> Result<Channels, AllocError> {
    let mut channels = Channels::new(alloc)?;
    for row in sent {
        let message = Signal::Message(Term::Int(row.2));
        channels.send(alloc, &pid(alloc, row.0)?, &pid(alloc, row.1)?, message)?;
    }
    Ok(channels)
}

// The number that a hasher gives of the signals from one of these processes to the other.
fn fed_between(channels: &Channels, from: &Pid, to: &Pid) -> u64 {
    let mut hasher = FoldHasher::default();
    channels.feed_between(from, to, &mut hasher);
    hasher.finish()
}

#[test]
fn channels_of_one_pair_are_compared(rt: HostRuntime) -> Result<(), Fail> {
    let alloc = rt.alloc();
    let one = channels(alloc, &[(1, 2, 7), (1, 2, 8), (3, 2, 9)])?;
    let other = channels(alloc, &[(3, 2, 6), (1, 2, 7), (1, 2, 8)])?;
    let first = pid(alloc, 1)?;
    let second = pid(alloc, 2)?;
    let third = pid(alloc, 3)?;
    holds(one.is_same_between(&first, &second, &other), ORDER)?;
    holds(
        one.is_same_between(&second, &first, &other),
        "where neither has signals, they are the same",
    )?;
    holds(
        !one.is_same_between(&third, &second, &other),
        "another signal is not the same",
    )?;
    let turned = channels(alloc, &[(1, 2, 8), (1, 2, 7)])?;
    holds(
        !one.is_same_between(&first, &second, &turned),
        "signals of one channel are not the same in another order",
    )?;
    let fewer = channels(alloc, &[(1, 2, 7)])?;
    holds(!one.is_same_between(&first, &second, &fewer), MORE)?;
    holds(!fewer.is_same_between(&third, &second, &one), MORE)
}

#[test]
fn channels_of_one_pair_are_fed(rt: HostRuntime) -> Result<(), Fail> {
    let alloc = rt.alloc();
    let from = pid(alloc, 1)?;
    let to = pid(alloc, 2)?;
    let one = channels(alloc, &[(1, 2, 7), (1, 2, 8), (3, 2, 9)])?;
    let other = channels(alloc, &[(3, 2, 6), (1, 2, 7), (1, 2, 8)])?;
    let fewer = channels(alloc, &[(1, 2, 7)])?;
    let none = channels(alloc, &[])?;
    let fed = fed_between(&one, &from, &to);
    holds(fed == fed_between(&other, &from, &to), ALIKE)?;
    holds(fed != fed_between(&fewer, &from, &to), OTHERWISE)?;
    holds(fed != fed_between(&none, &from, &to), OTHERWISE)
}

// The mailboxes once these messages came in: of each the process and the message.
fn mailboxes(alloc: Global, put: &[(u64, i64)]) -> Result<Mailboxes, AllocError> {
    let mut mailboxes = Mailboxes::new(alloc)?;
    for row in put {
        mailboxes.put(alloc, &pid(alloc, row.0)?, Term::Int(row.1))?;
    }
    Ok(mailboxes)
}

// A number by which the messages of one process are found.
fn digest_at(mailboxes: &Mailboxes, pid: &Pid) -> u64 {
    let mut hasher = FoldHasher::default();
    mailboxes.feed_at(pid, &mut hasher);
    hasher.finish()
}

#[test]
fn messages_of_one_process_are_taken_over(rt: HostRuntime) -> Result<(), Fail> {
    let alloc = rt.alloc();
    let first = pid(alloc, 1)?;
    let third = pid(alloc, 3)?;
    let mut one = mailboxes(alloc, &[(1, 7), (2, 9), (3, 5)])?;
    let other = mailboxes(alloc, &[(1, 7), (1, 8), (2, 6)])?;
    holds(!one.is_same_at(&first, &other), MORE)?;
    one.take_from(&first, &other)?;
    one.take_from(&third, &other)?;
    for number in [1, 3] {
        let taken = pid(alloc, number)?;
        holds(
            one.is_same_at(&taken, &other),
            "what was taken over is the same",
        )?;
        holds(
            digest_at(&one, &taken) == digest_at(&other, &taken),
            "what is the same has one number",
        )?;
    }
    let second = pid(alloc, 2)?;
    let kept = mailboxes(alloc, &[(2, 9)])?;
    holds(one.is_same_at(&second, &kept), "the other processes stay")?;
    let turned = mailboxes(alloc, &[(1, 8), (1, 7)])?;
    holds(
        !one.is_same_at(&first, &turned),
        "messages are not the same in another order",
    )
}

// The links of these processes, each with the other.
fn links(alloc: Global, paired: &[(u64, u64)]) -> Result<Links, AllocError> {
    let mut links = Links::new(alloc)?;
    for row in paired {
        links.pair(alloc, &pid(alloc, row.0)?, &pid(alloc, row.1)?)?;
    }
    Ok(links)
}

#[test]
fn links_are_compared(rt: HostRuntime) -> Result<(), Fail> {
    let alloc = rt.alloc();
    let one = links(alloc, &[(1, 2), (1, 3)])?;
    let mut other = links(alloc, &[(3, 1), (4, 5), (2, 1)])?;
    holds(!one.is_same(&other), MORE)?;
    other.unpair(&pid(alloc, 4)?, &pid(alloc, 5)?)?;
    holds(one.is_same(&other), ORDER)
}

// The watches that the first process made by these requests, each with the process that it watches.
fn watchers(alloc: Global, made: &[(u64, u64)]) -> Result<Watchers, AllocError> {
    let mut watchers = Watchers::new(alloc)?;
    for row in made {
        let reference = RefId::new(alloc, Pid::new(alloc, Vec::new(alloc))?, row.0)?;
        watchers.watch(alloc, &reference, &pid(alloc, row.1)?)?;
    }
    Ok(watchers)
}

#[test]
fn watches_are_compared(rt: HostRuntime) -> Result<(), Fail> {
    let alloc = rt.alloc();
    let one = watchers(alloc, &[(5, 1), (6, 1), (7, 2)])?;
    let mut other = watchers(alloc, &[(7, 2), (8, 1), (6, 1), (5, 1)])?;
    holds(!one.is_same(&other), MORE)?;
    let reference = RefId::new(alloc, Pid::new(alloc, Vec::new(alloc))?, 8)?;
    other.unwatch(&reference, &pid(alloc, 1)?)?;
    holds(one.is_same(&other), ORDER)?;
    let elsewhere = watchers(alloc, &[(5, 1), (6, 2), (7, 2)])?;
    holds(
        !one.is_same(&elsewhere),
        "a watch of another process is not the same",
    )
}

// The names that these processes hold.
fn names(alloc: Global, given: &[(&str, u64)]) -> Result<Names, AllocError> {
    let mut names = Names::new(alloc)?;
    for row in given {
        names.put(&Atom::new(alloc, row.0)?, &pid(alloc, row.1)?)?;
    }
    Ok(names)
}

#[test]
fn names_are_compared(rt: HostRuntime) -> Result<(), Fail> {
    let alloc = rt.alloc();
    let one = names(alloc, &[("a", 1), ("b", 2)])?;
    let mut other = names(alloc, &[("c", 3), ("b", 2), ("a", 1)])?;
    holds(!one.is_same(&other), MORE)?;
    other.free(&pid(alloc, 3)?)?;
    holds(one.is_same(&other), ORDER)?;
    let turned = names(alloc, &[("a", 2), ("b", 1)])?;
    holds(
        !one.is_same(&turned),
        "a name of another process is not the same",
    )
}

// The number that a hasher gives of links.
fn fed_links(links: &Links) -> u64 {
    let mut hasher = FoldHasher::default();
    links.feed(&mut hasher);
    hasher.finish()
}

#[test]
fn links_are_fed(rt: HostRuntime) -> Result<(), Fail> {
    let alloc = rt.alloc();
    let fed = fed_links(&links(alloc, &[(1, 2), (1, 3)])?);
    holds(fed == fed_links(&links(alloc, &[(3, 1), (2, 1)])?), ALIKE)?;
    let more = links(alloc, &[(1, 2), (1, 3), (2, 3)])?;
    holds(fed != fed_links(&more), OTHERWISE)
}

// The number that a hasher gives of watches.
fn fed_watchers(watchers: &Watchers) -> u64 {
    let mut hasher = FoldHasher::default();
    watchers.feed(&mut hasher);
    hasher.finish()
}

#[test]
fn watches_are_fed(rt: HostRuntime) -> Result<(), Fail> {
    let alloc = rt.alloc();
    let fed = fed_watchers(&watchers(alloc, &[(5, 1), (6, 2)])?);
    let other = watchers(alloc, &[(6, 2), (5, 1)])?;
    holds(fed == fed_watchers(&other), ALIKE)?;
    let more = watchers(alloc, &[(5, 1), (6, 2), (7, 2)])?;
    holds(fed != fed_watchers(&more), OTHERWISE)
}

// The number that a hasher gives of names.
fn fed_names(names: &Names) -> u64 {
    let mut hasher = FoldHasher::default();
    names.feed(&mut hasher);
    hasher.finish()
}

#[test]
fn names_are_fed(rt: HostRuntime) -> Result<(), Fail> {
    let alloc = rt.alloc();
    let fed = fed_names(&names(alloc, &[("a", 1), ("b", 2)])?);
    let other = names(alloc, &[("b", 2), ("a", 1)])?;
    holds(fed == fed_names(&other), ALIKE)?;
    let more = names(alloc, &[("a", 1), ("b", 2), ("c", 3)])?;
    holds(fed != fed_names(&more), OTHERWISE)
}

// The rows of a table of this kind once these objects were put in: of each the key and the value.
fn rows(alloc: Global, kind: Kind, put: &[(i64, i64)]) -> Result<Rows, AllocError> {
    let mut rows = Rows::new(alloc, kind, 1)?;
    for row in put {
        let mut parts = Terms::new(alloc);
        parts.push(Term::Int(row.0))?;
        parts.push(Term::Int(row.1))?;
        rows.insert(alloc, Object::new(Arc::new(alloc, parts)?))?;
    }
    Ok(rows)
}

#[test]
fn rows_are_compared(rt: HostRuntime) -> Result<(), Fail> {
    let alloc = rt.alloc();
    let one = rows(alloc, Kind::Bag, &[(1, 7), (1, 8), (2, 9)])?;
    let mut other = rows(alloc, Kind::Bag, &[(3, 6), (2, 9), (1, 7), (1, 8)])?;
    holds(!one.is_same(&other), MORE)?;
    other.delete_key(&Term::Int(3))?;
    holds(one.is_same(&other), ORDER)?;
    let turned = rows(alloc, Kind::Bag, &[(1, 8), (1, 7), (2, 9)])?;
    holds(
        !one.is_same(&turned),
        "objects of one key are not the same in another order",
    )?;
    let others = rows(alloc, Kind::DuplicateBag, &[(1, 7), (1, 8), (2, 9)])?;
    holds(
        !one.is_same(&others),
        "rows of another kind are not the same",
    )
}
