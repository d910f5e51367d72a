// Schedules in which signals are delivered at once, beside those in which they take any time.
use crate::modules::{EXPLORED, HEIR, KILL, LINE, LINK, ONESELF, TIMED, TWO_SENDERS};
use crate::states::{STATES, complete, followed, listed};
use core_reader::{Module, read_module};
use std::alloc::Global;
use std::test::Fail;
use std::thread::Threads;
use test_support::same;
use tree_findings::{Extent, FindingList};
use tree_schedules::Delivery;
use world_identities::Identity;

// A module, what it shows where signals are delivered at once, and what it shows where they take any time.
type Row = (&'static str, &'static str, &'static str);

// The message that was sent first is there first, whoever sent it.
const OVERTAKEN: Row = (
    TWO_SENDERS,
    "depth 60, nodes 0, complete\nerror 1: P ends 'first'\n  P P P.2 P.2>P P P\nerrors 1, refusals 0\nresult: errors\n",
    "depth 60, nodes 0, complete\nerror 1: P ends 'first'\n  P P P.2 P.2>P P P\nerror 2: P ends 'second'\n  P P P.2 P.2 P.2>P.1 P.1 P.1 P.1>P P P\nerrors 2, refusals 0\nresult: errors\n",
);

// A message to oneself is there at once in any case, and that of another process where it takes its turn before.
const OWN: Row = (
    ONESELF,
    "depth 60, nodes 0, complete\nerror 1: P ends 'other'\n  P P.1 P.1>P P P P\nerror 2: P ends 'own'\n  P P P P\nerrors 2, refusals 0\nresult: errors\n",
    "depth 60, nodes 0, complete\nerror 1: P ends 'other'\n  P P.1 P.1>P P P P\nerror 2: P ends 'own'\n  P P P P\nerrors 2, refusals 0\nresult: errors\n",
);

// The message of a timer may come before it is cancelled, or not.
const ELAPSED: Row = (
    TIMED,
    "depth 60, nodes 0, complete\nerror 1: P ends 'cancelled'\n  P P P\nerror 2: P ends 'late'\n  P P.1>P P P P\nerrors 2, refusals 0\nresult: errors\n",
    "depth 60, nodes 0, complete\nerror 1: P ends 'cancelled'\n  P P P\nerror 2: P ends 'late'\n  P P.1>P P P P\nerrors 2, refusals 0\nresult: errors\n",
);

// Who is killed takes no message that is sent later.
const KILLED: Row = (
    KILL,
    "depth 60, nodes 0, complete\nerror 1: P.1 ends 'killed'\n  P P P P>P.1\nerrors 1, refusals 0\nresult: errors\n",
    "depth 60, nodes 0, complete\nerror 1: P.1 ends 'killed'\n  P P P P>P.1\nerror 2: P.1 ends 'taken'\n  P P P P P>P.2 P.2 P.2 P.2>P.1 P.1 P.1\nerrors 2, refusals 0\nresult: errors\n",
);

// Who is linked ends with the other, before a third process hears of it.
const LINKED: Row = (
    LINK,
    "depth 60, nodes 0, complete\nerror 1: P ends 'bad'\n  P P P.2 P.2 P.2>P.1 P.1 P.1 P.1>P\nerror 2: P.1 ends 'bad'\n  P P P.2 P.2 P.2>P.1 P.1 P.1\nerrors 2, refusals 0\nresult: errors\n",
    "depth 60, nodes 0, complete\nerror 1: P ends 'bad'\n  P P P.2 P.2 P.2>P.1 P.1 P.1 P.1>P\nerror 2: P ends 'survived'\n  P P P.2 P.2 P.2>P.1 P.1 P.1 P.1>P.2 P.2 P.2 P.2>P P P\nerror 3: P.1 ends 'bad'\n  P P P.2 P.2 P.2>P.1 P.1 P.1\nerrors 3, refusals 0\nresult: errors\n",
);

// An heir has its table before anybody can tell it that the owner has ended.
const INHERITED: Row = (
    HEIR,
    "depth 60, nodes 0, complete\nerrors 0, refusals 0\nresult: clean\n",
    "depth 60, nodes 0, complete\nerror 1: P ends 'no_table'\n  P P P.1 P.2 P.2 P.2>P.1 P.1 P.1 P.1>P.2 P.2 P.2 P.2>P P P P\nerrors 1, refusals 0\nresult: errors\n",
);

// Whether the search of a module that delivers signals so lists this.
fn lists<T: Threads + Sync>(
    rt: &T,
    alloc: Global,
    module: &str,
    delivery: Delivery,
    wanted: &str,
) -> Result<(), Fail> {
    let program = read_module(alloc, module.as_bytes())?;
    let (found, _) = complete(followed(rt, alloc, &program, delivery, 60)?.outcome)?;
    let list = listed(alloc, 60, found)?;
    same(list.as_slice(), wanted.as_bytes())
}

// Whether a module shows what its row says.
fn shows<T: Threads + Sync>(rt: &T, alloc: Global, row: Row) -> Result<(), Fail> {
    let (module, at_once, any_time) = row;
    lists(rt, alloc, module, Delivery::AtOnce, at_once)?;
    lists(rt, alloc, module, Delivery::AnyTime, any_time)
}

#[test]
fn messages_of_two_senders_come_as_they_were_sent(rt: HostRuntime) -> Result<(), Fail> {
    shows(&rt, rt.alloc(), OVERTAKEN)
}

#[test]
fn a_message_to_oneself_is_there_at_once(rt: HostRuntime) -> Result<(), Fail> {
    shows(&rt, rt.alloc(), OWN)
}

#[test]
fn a_timer_comes_at_any_time(rt: HostRuntime) -> Result<(), Fail> {
    shows(&rt, rt.alloc(), ELAPSED)
}

#[test]
fn who_is_killed_takes_no_later_message(rt: HostRuntime) -> Result<(), Fail> {
    shows(&rt, rt.alloc(), KILLED)
}

#[test]
fn who_is_linked_ends_at_once(rt: HostRuntime) -> Result<(), Fail> {
    shows(&rt, rt.alloc(), LINKED)
}

#[test]
fn an_heir_has_its_table_at_once(rt: HostRuntime) -> Result<(), Fail> {
    shows(&rt, rt.alloc(), INHERITED)
}

// Whether an identity is among those of a list.
fn is_among(identity: &Identity, all: &FindingList) -> bool {
    all.as_slice()
        .iter()
        .any(|finding| finding.identity == *identity)
}

/// Whether each identity of the first list is in the second.
pub(crate) fn are_among(some: &FindingList, all: &FindingList) -> bool {
    for finding in some.as_slice() {
        if !is_among(&finding.identity, all) {
            return false;
        }
    }
    true
}

// Whether what prompt schedules of a module show is found among all, within this depth.
fn shows_no_more<T: Threads + Sync>(
    rt: &T,
    alloc: Global,
    program: &Module,
    depth: u64,
) -> Result<(), Fail> {
    let (prompt, _) = complete(followed(rt, alloc, program, Delivery::AtOnce, depth)?.outcome)?;
    let (all, _) = complete(followed(rt, alloc, program, Delivery::AnyTime, depth)?.outcome)?;
    if are_among(prompt.errors(), all.errors()) && are_among(prompt.refusals(), all.refusals()) {
        return Ok(());
    }
    Err(Fail::from("prompt schedules show more than all"))
}

#[test]
fn prompt_schedules_show_no_more_than_all(rt: HostRuntime) -> Result<(), Fail> {
    for (text, depth) in EXPLORED {
        let program = read_module(rt.alloc(), text.as_bytes())?;
        shows_no_more(&rt, rt.alloc(), &program, depth)?;
    }
    Ok(())
}

// The line sends nothing, so that it makes no difference when signals are delivered.
#[test]
fn a_line_has_the_same_states_at_once(rt: HostRuntime) -> Result<(), Fail> {
    let program = read_module(rt.alloc(), LINE.as_bytes())?;
    for (depth, nodes, cut) in STATES {
        let searched = followed(&rt, rt.alloc(), &program, Delivery::AtOnce, depth)?;
        assert_eq!(rt; searched.whole_to, depth, "{depth}");
        let (_, extent) = complete(searched.outcome)?;
        assert_eq!(rt; extent, Extent { nodes, cut }, "{depth}");
    }
    Ok(())
}
