// Links, names and watches, and what the signals that are about them do.
use proc_links::{Effect, Exits, Life, Linking, Links, Names, Naming, Sender, Watchers, on_exit};
use std::alloc::{AllocError, Global};
use std::collections::BTreeSet;
use std::test::Fail;
use term_core::{Atom, Pid, RefId, Term};
use test_support::same;

const MANY: u64 = 10000;

fn pid(alloc: Global, number: u64) -> Result<Pid, AllocError> {
    let mut numbers = Vec::new(alloc);
    numbers.push(number)?;
    Pid::new(alloc, numbers)
}

fn reference(alloc: Global, maker: u64, number: u64) -> Result<RefId, AllocError> {
    RefId::new(alloc, pid(alloc, maker)?, number)
}

fn pair_many(alloc: Global, links: &mut Links, hub: &Pid) -> Result<(), AllocError> {
    for number in 1..MANY + 1 {
        links.pair(alloc, &pid(alloc, number)?, hub)?;
    }
    Ok(())
}

fn unpair_many(alloc: Global, links: &mut Links, hub: &Pid) -> Result<(), AllocError> {
    for number in 1..MANY + 1 {
        links.unpair(&pid(alloc, number)?, hub)?;
    }
    Ok(())
}

fn partner_count(links: &Links, pid: &Pid) -> usize {
    match links.partners(pid) {
        Some(partners) => partners.len(),
        None => 0,
    }
}

#[test]
fn copies_of_many_links_go_apart(rt: HostRuntime) -> Result<(), Fail> {
    let hub = pid(rt.alloc(), 0)?;
    let mut links = Links::new(rt.alloc())?;
    pair_many(rt.alloc(), &mut links, &hub)?;
    let copied = links.copy()?;
    unpair_many(rt.alloc(), &mut links, &hub)?;
    assert_eq!(rt; partner_count(&links, &hub), 0);
    assert_eq!(rt; partner_count(&copied, &hub), 10000);
    Ok(())
}

fn linking(
    alloc: Global,
    links: &mut Links,
    life: Life,
    exits: Exits,
) -> Result<Linking, AllocError> {
    links.link(alloc, &pid(alloc, 1)?, &pid(alloc, 2)?, life, exits)
}

fn are_linked(alloc: Global, links: &Links) -> Result<bool, AllocError> {
    let one = pid(alloc, 1)?;
    let two = pid(alloc, 2)?;
    Ok(links.are_linked(&one, &two) && links.are_linked(&two, &one))
}

#[test]
fn gone_processes_are_linked_by_who_traps(rt: HostRuntime) -> Result<(), Fail> {
    let mut links = Links::new(rt.alloc())?;
    let failed = linking(rt.alloc(), &mut links, Life::Gone, Exits::Untrapped)?;
    assert_eq!(rt; failed, Linking::Fails);
    assert!(rt; !are_linked(rt.alloc(), &links)?);
    let gone = linking(rt.alloc(), &mut links, Life::Gone, Exits::Trapped)?;
    assert_eq!(rt; gone, Linking::PairsGone);
    assert!(rt; are_linked(rt.alloc(), &links)?);
    let stands = linking(rt.alloc(), &mut links, Life::Gone, Exits::Untrapped)?;
    assert_eq!(rt; stands, Linking::Stands);
    Ok(())
}

fn told_numbers(alloc: Global, links: &Links, living: &BTreeSet<Pid>) -> Result<u64, AllocError> {
    let told = links.told(alloc, &pid(alloc, 0)?, living)?;
    let mut digits: u64 = 0;
    for pid in &told {
        for number in pid.numbers() {
            digits = digits.saturating_mul(10).saturating_add(*number);
        }
    }
    Ok(digits)
}

fn three_partners(
    alloc: Global,
    links: &mut Links,
    living: &mut BTreeSet<Pid>,
) -> Result<(), AllocError> {
    for number in [3, 1, 2] {
        links.pair(alloc, &pid(alloc, 0)?, &pid(alloc, number)?)?;
    }
    living.insert(pid(alloc, 3)?)?;
    living.insert(pid(alloc, 1)?)?;
    living.insert(pid(alloc, 4)?)?;
    Ok(())
}

#[test]
fn living_partners_are_told_in_order(rt: HostRuntime) -> Result<(), Fail> {
    let mut links = Links::new(rt.alloc())?;
    let mut living = BTreeSet::new(rt.alloc());
    three_partners(rt.alloc(), &mut links, &mut living)?;
    assert_eq!(rt; told_numbers(rt.alloc(), &links, &living)?, 13);
    Ok(())
}

fn registered(
    alloc: Global,
    names: &mut Names,
    name: &str,
    number: u64,
    life: Life,
) -> Result<Naming, AllocError> {
    names.register(&Atom::new(alloc, name)?, &pid(alloc, number)?, life)
}

fn is_held_by(alloc: Global, names: &Names, name: &str, number: u64) -> Result<bool, AllocError> {
    let pid = pid(alloc, number)?;
    match names.whereis(&Atom::new(alloc, name)?) {
        Some(holder) => Ok(holder == &pid && names.name_of(&pid).is_some()),
        None => Ok(false),
    }
}

#[test]
fn names_are_given_once(rt: HostRuntime) -> Result<(), Fail> {
    let mut names = Names::new(rt.alloc())?;
    assert_eq!(rt;
        registered(rt.alloc(), &mut names, "undefined", 1, Life::Lives)?,
        Naming::Refused
    );
    assert_eq!(rt;
        registered(rt.alloc(), &mut names, "a", 1, Life::Gone)?,
        Naming::Refused
    );
    assert_eq!(rt;
        registered(rt.alloc(), &mut names, "a", 1, Life::Lives)?,
        Naming::Served
    );
    assert_eq!(rt;
        registered(rt.alloc(), &mut names, "b", 1, Life::Lives)?,
        Naming::Refused
    );
    assert!(rt; is_held_by(rt.alloc(), &names, "a", 1)?);
    Ok(())
}

#[test]
fn names_are_free_again(rt: HostRuntime) -> Result<(), Fail> {
    let mut names = Names::new(rt.alloc())?;
    registered(rt.alloc(), &mut names, "a", 1, Life::Lives)?;
    let copied = names.copy()?;
    names.free(&pid(rt.alloc(), 1)?)?;
    assert_eq!(rt;
        registered(rt.alloc(), &mut names, "a", 2, Life::Lives)?,
        Naming::Served
    );
    assert_eq!(rt;
        names.unregister(&Atom::new(rt.alloc(), "a")?)?,
        Naming::Served
    );
    assert_eq!(rt;
        names.unregister(&Atom::new(rt.alloc(), "a")?)?,
        Naming::Refused
    );
    assert!(rt; is_held_by(rt.alloc(), &copied, "a", 1)?);
    Ok(())
}

// Whether a list begins with an atom.
fn begins_with(list: &Term, text: &str) -> bool {
    match list.as_cell() {
        Some(pair) => pair.head().is_the_atom(text),
        None => false,
    }
}

#[test]
fn names_are_listed_in_order(rt: HostRuntime) -> Result<(), Fail> {
    let mut names = Names::new(rt.alloc())?;
    registered(rt.alloc(), &mut names, "b", 1, Life::Lives)?;
    registered(rt.alloc(), &mut names, "a", 2, Life::Lives)?;
    assert!(rt; begins_with(&names.list(rt.alloc())?, "a"));
    names.free(&pid(rt.alloc(), 2)?)?;
    assert!(rt; begins_with(&names.list(rt.alloc())?, "b"));
    names.free(&pid(rt.alloc(), 1)?)?;
    assert!(rt; names.list(rt.alloc())?.as_cell().is_none());
    Ok(())
}

fn watch_many(alloc: Global, watchers: &mut Watchers) -> Result<(), AllocError> {
    for number in 1..MANY + 1 {
        watchers.watch(alloc, &reference(alloc, 1, number)?, &pid(alloc, 2)?)?;
    }
    Ok(())
}

fn watch_count(alloc: Global, watchers: &Watchers) -> Result<usize, AllocError> {
    match watchers.watchers_of(&pid(alloc, 2)?) {
        Some(references) => Ok(references.len()),
        None => Ok(0),
    }
}

fn demonitor(
    alloc: Global,
    watchers: &mut Watchers,
    caller: u64,
    number: u64,
) -> Result<bool, AllocError> {
    let watch = reference(alloc, 1, number)?;
    watchers.demonitor(&pid(alloc, caller)?, &watch)?;
    Ok(watchers.watch_of(&watch).is_some())
}

#[test]
fn watches_end_by_their_makers(rt: HostRuntime) -> Result<(), Fail> {
    let mut watchers = Watchers::new(rt.alloc())?;
    watch_many(rt.alloc(), &mut watchers)?;
    let copied = watchers.copy()?;
    assert!(rt; demonitor(rt.alloc(), &mut watchers, 2, 7)?);
    assert!(rt; !demonitor(rt.alloc(), &mut watchers, 1, 7)?);
    assert_eq!(rt; watch_count(rt.alloc(), &watchers)?, 9999);
    assert_eq!(rt; watch_count(rt.alloc(), &copied)?, 10000);
    Ok(())
}

fn is_down(alloc: Global, watchers: &Watchers, number: u64) -> Result<bool, AllocError> {
    let reason = Term::atom(alloc, "bye")?;
    match watchers.on_down(
        alloc,
        &reference(alloc, 1, number)?,
        &pid(alloc, 2)?,
        None,
        &reason,
    )? {
        Effect::Put(message) => Ok(message.as_tuple().is_some()),
        _ => Ok(false),
    }
}

fn watchers_told(
    alloc: Global,
    watchers: &Watchers,
    living: &BTreeSet<Pid>,
) -> Result<usize, AllocError> {
    let told = watchers.told(alloc, &pid(alloc, 2)?, living)?;
    Ok(told.len())
}

#[test]
fn watches_tell_of_an_end(rt: HostRuntime) -> Result<(), Fail> {
    let mut watchers = Watchers::new(rt.alloc())?;
    watch_many(rt.alloc(), &mut watchers)?;
    let mut living = BTreeSet::new(rt.alloc());
    assert_eq!(rt; watchers_told(rt.alloc(), &watchers, &living)?, 0);
    living.insert(pid(rt.alloc(), 1)?)?;
    assert_eq!(rt; watchers_told(rt.alloc(), &watchers, &living)?, 10000);
    watchers.unwatch(&reference(rt.alloc(), 1, 5)?, &pid(rt.alloc(), 2)?)?;
    assert!(rt; !is_down(rt.alloc(), &watchers, 5)?);
    assert!(rt; is_down(rt.alloc(), &watchers, 6)?);
    Ok(())
}

/// What an effect is, and what it carries where that is an atom.
fn shown(effect: &Effect) -> &str {
    match effect {
        Effect::Ends(Term::Atom(reason)) => reason.as_str(),
        Effect::Ends(_) => "end",
        Effect::Ignored => "ignored",
        Effect::Dropped => "dropped",
        Effect::Put(_) => "message",
    }
}

// What an exit signal does.
fn exit(alloc: Global, sender: Sender, reason: &str, exits: Exits) -> Result<Effect, AllocError> {
    let from = pid(alloc, 1)?;
    let reason = Term::atom(alloc, reason)?;
    on_exit(alloc, sender, &from, &reason, exits)
}

// Checks that an exit signal has this effect.
fn exits_as(
    alloc: Global,
    sender: Sender,
    reason: &str,
    exits: Exits,
    want: &str,
) -> Result<(), Fail> {
    let effect = exit(alloc, sender, reason, exits)?;
    same(shown(&effect).as_bytes(), want.as_bytes())
}

const EXITS: [(Sender, &str, Exits, &str); 6] = [
    (Sender::Another, "kill", Exits::Trapped, "killed"),
    (Sender::Another, "normal", Exits::Trapped, "message"),
    (Sender::Another, "normal", Exits::Untrapped, "ignored"),
    (Sender::Itself, "normal", Exits::Untrapped, "normal"),
    (Sender::Another, "bye", Exits::Untrapped, "bye"),
    (Sender::Another, "bye", Exits::Trapped, "message"),
];

#[test]
fn exit_signals_take_effect(rt: HostRuntime) -> Result<(), Fail> {
    for (sender, reason, exits, want) in &EXITS {
        exits_as(rt.alloc(), *sender, reason, *exits, want)?;
    }
    Ok(())
}

// What the exit signal of a link does.
fn link_exit(alloc: Global, links: &Links, reason: &str) -> Result<Effect, AllocError> {
    let from = pid(alloc, 1)?;
    let to = pid(alloc, 2)?;
    let reason = Term::atom(alloc, reason)?;
    links.on_link_exit(alloc, &from, &to, &reason, Exits::Untrapped)
}

// Checks that the exit signal of a link has this effect.
fn link_exits_as(alloc: Global, links: &Links, reason: &str, want: &str) -> Result<(), Fail> {
    let effect = link_exit(alloc, links, reason)?;
    same(shown(&effect).as_bytes(), want.as_bytes())
}

#[test]
fn exit_signals_of_links_need_the_link(rt: HostRuntime) -> Result<(), Fail> {
    let mut links = Links::new(rt.alloc())?;
    link_exits_as(rt.alloc(), &links, "bye", "dropped")?;
    links.pair(rt.alloc(), &pid(rt.alloc(), 1)?, &pid(rt.alloc(), 2)?)?;
    link_exits_as(rt.alloc(), &links, "kill", "kill")?;
    link_exits_as(rt.alloc(), &links, "normal", "ignored")?;
    Ok(())
}
