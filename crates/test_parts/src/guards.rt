// What lets messages in that are sent to references: aliases and timers.
use proc_links::{Effect, Guard, Guards};
use std::alloc::{AllocError, Global};
use std::hash::{FoldHasher, Hasher};
use std::test::Fail;
use term_core::{Atom, Pid, RefId, Term};
use test_support::holds;
use world_model::alias::AliasEnd;

const MANY: u64 = 10000;

fn pid(alloc: Global, number: u64) -> Result<Pid, AllocError> {
    let mut numbers = Vec::new(alloc);
    numbers.push(number)?;
    Pid::new(alloc, numbers)
}

// The reference that the first process made with this number.
fn reference(alloc: Global, number: u64) -> Result<RefId, AllocError> {
    RefId::new(alloc, pid(alloc, 1)?, number)
}

// An alias of the first process, which ends so.
fn alias(alloc: Global, end: AliasEnd) -> Result<Guard, AllocError> {
    Ok(Guard::Alias(pid(alloc, 1)?, end))
}

// Three aliases of the first process with the numbers 1 to 3, one for each way to end, and a timer with the number 4.
fn guards(alloc: Global) -> Result<Guards, AllocError> {
    let mut guards = Guards::new(alloc)?;
    guards.set(&reference(alloc, 1)?, alias(alloc, AliasEnd::ByUnalias)?)?;
    guards.set(&reference(alloc, 2)?, alias(alloc, AliasEnd::WithWatch)?)?;
    guards.set(&reference(alloc, 3)?, alias(alloc, AliasEnd::ByReply)?)?;
    guards.set(&reference(alloc, 4)?, Guard::Timer(pid(alloc, 2)?, 500))?;
    Ok(guards)
}

// Whether a message to a process by the reference of this number is put.
fn lets_in(alloc: Global, guards: &Guards, number: u64, to: u64) -> Result<bool, AllocError> {
    let effect = guards.on_message(&reference(alloc, number)?, &pid(alloc, to)?, &Term::Int(7))?;
    Ok(matches!(effect, Effect::Put(Term::Int(7))))
}

// Whether the message of the timer of this number is put.
fn elapses(alloc: Global, guards: &Guards, number: u64) -> Result<bool, AllocError> {
    let effect = guards.on_elapsed(&reference(alloc, number)?, &Term::Int(7))?;
    Ok(matches!(effect, Effect::Put(Term::Int(7))))
}

#[test]
fn aliases_let_messages_in_for_their_process(rt: HostRuntime) -> Result<(), Fail> {
    let alloc = rt.alloc();
    let guards = guards(alloc)?;
    for number in [1, 2, 3] {
        holds(
            lets_in(alloc, &guards, number, 1)?,
            "an alias lets nothing in",
        )?;
        holds(
            !lets_in(alloc, &guards, number, 2)?,
            "an alias lets a message in for another process",
        )?;
    }
    holds(!lets_in(alloc, &guards, 4, 2)?, "a timer is an alias")?;
    holds(!lets_in(alloc, &guards, 5, 1)?, "nothing is an alias")?;
    holds(elapses(alloc, &guards, 4)?, "a timer does not elapse")?;
    holds(!elapses(alloc, &guards, 1)?, "an alias elapses")
}

#[test]
fn aliases_end_as_they_were_made(rt: HostRuntime) -> Result<(), Fail> {
    let alloc = rt.alloc();
    let mut guards = guards(alloc)?;
    let copied = guards.copy()?;
    for number in [1, 2, 3, 4] {
        guards.unwatch(&reference(alloc, number)?)?;
    }
    holds(lets_in(alloc, &guards, 1, 1)?, "it ends with a watch")?;
    holds(!lets_in(alloc, &guards, 2, 1)?, "it outlives its watch")?;
    holds(!lets_in(alloc, &guards, 3, 1)?, "it outlives its watch")?;
    holds(elapses(alloc, &guards, 4)?, "a timer ends with a watch")?;
    guards.clear(&reference(alloc, 1)?)?;
    guards.clear(&reference(alloc, 4)?)?;
    holds(!lets_in(alloc, &guards, 1, 1)?, "it is cleared and stands")?;
    holds(!elapses(alloc, &guards, 4)?, "it is cleared and stands")?;
    holds(lets_in(alloc, &copied, 2, 1)?, "a copy changes too")
}

#[test]
fn guards_are_looked_up(rt: HostRuntime) -> Result<(), Fail> {
    let alloc = rt.alloc();
    let guards = guards(alloc)?;
    let first = pid(alloc, 1)?;
    let reply = reference(alloc, 3)?;
    let timer = reference(alloc, 4)?;
    holds(
        guards.alias_of(&reply) == Some(&first),
        "an alias is of another process",
    )?;
    holds(guards.alias_of(&timer).is_none(), "a timer is an alias")?;
    holds(guards.is_alias_of(&reply, &first), "it is no alias")?;
    holds(guards.ends_by_reply(&reply, &first), "a reply leaves it")?;
    holds(
        !guards.ends_by_reply(&reference(alloc, 2)?, &first),
        "a reply ends it",
    )?;
    holds(
        matches!(guards.guard_of(&timer), Some(Guard::Timer(_, 500))),
        "a timer has another time",
    )
}

// Many aliases, set from the first to the last or the other way round.
fn many(alloc: Global, is_turned: bool) -> Result<Guards, AllocError> {
    let mut guards = Guards::new(alloc)?;
    for place in 0..MANY {
        let number = if is_turned { MANY - place } else { place + 1 };
        guards.set(&reference(alloc, number)?, alias(alloc, AliasEnd::ByReply)?)?;
    }
    Ok(guards)
}

// The number that a hasher gives of them.
fn fed(guards: &Guards) -> u64 {
    let mut hasher = FoldHasher::default();
    guards.feed(&mut hasher);
    hasher.finish()
}

#[test]
fn guards_are_compared(rt: HostRuntime) -> Result<(), Fail> {
    let alloc = rt.alloc();
    let one = many(alloc, false)?;
    let mut other = many(alloc, true)?;
    holds(one.is_same(&other), "another order is not the same")?;
    holds(fed(&one) == fed(&other), "another order is fed otherwise")?;
    other.set(&reference(alloc, 7)?, alias(alloc, AliasEnd::ByUnalias)?)?;
    holds(!one.is_same(&other), "another end is the same")?;
    holds(fed(&one) != fed(&other), "another end is fed alike")
}

// The watch of a name by the first process, with an alias that ends so.
fn named(alloc: Global, name: &str, end: AliasEnd) -> Result<Guard, AllocError> {
    Ok(Guard::NamedAlias(Atom::new(alloc, name)?, pid(alloc, 1)?, end))
}

// Three watches of the name n with the numbers 1 to 3, each with an alias that ends in its own way, and one with the number
// 4 without one.
fn named_watches(alloc: Global) -> Result<Guards, AllocError> {
    let mut guards = Guards::new(alloc)?;
    guards.set(
        &reference(alloc, 1)?,
        named(alloc, "n", AliasEnd::ByUnalias)?,
    )?;
    guards.set(
        &reference(alloc, 2)?,
        named(alloc, "n", AliasEnd::WithWatch)?,
    )?;
    guards.set(&reference(alloc, 3)?, named(alloc, "n", AliasEnd::ByReply)?)?;
    guards.set(
        &reference(alloc, 4)?,
        Guard::NamedWatch(Atom::new(alloc, "n")?),
    )?;
    Ok(guards)
}

// Whether the watch of this number was made by the name n.
fn is_named(alloc: Global, guards: &Guards, number: u64) -> Result<bool, AllocError> {
    match guards.watch_name(&reference(alloc, number)?) {
        Some(name) => Ok(name.as_str() == "n"),
        None => Ok(false),
    }
}

#[test]
fn watches_by_name_keep_it_until_they_end(rt: HostRuntime) -> Result<(), Fail> {
    let alloc = rt.alloc();
    let mut guards = named_watches(alloc)?;
    for number in [1, 2, 3, 4] {
        holds(is_named(alloc, &guards, number)?, "a watch has no name")?;
        holds(
            lets_in(alloc, &guards, number, 1)? == (number < 4),
            "another alias lets a message in",
        )?;
        guards.unwatch(&reference(alloc, number)?)?;
        holds(
            !is_named(alloc, &guards, number)?,
            "the name outlives its watch",
        )?;
        holds(
            lets_in(alloc, &guards, number, 1)? == (number == 1),
            "another alias outlives its watch",
        )?;
    }
    holds(
        guards.guard_of(&reference(alloc, 4)?).is_none(),
        "something is left of a watch",
    )
}

#[test]
fn names_of_watches_are_compared(rt: HostRuntime) -> Result<(), Fail> {
    let alloc = rt.alloc();
    let one = named_watches(alloc)?;
    let first = pid(alloc, 1)?;
    holds(one.is_same(&named_watches(alloc)?), "the same is another")?;
    holds(
        one.ends_by_reply(&reference(alloc, 3)?, &first),
        "a reply leaves it",
    )?;
    for number in [1, 4] {
        let mut other = named_watches(alloc)?;
        let guard = match number {
            1 => named(alloc, "m", AliasEnd::ByUnalias)?,
            _ => Guard::NamedWatch(Atom::new(alloc, "m")?),
        };
        other.set(&reference(alloc, number)?, guard)?;
        holds(!one.is_same(&other), "another name is the same")?;
        holds(fed(&one) != fed(&other), "another name is fed alike")?;
    }
    Ok(())
}
