// Covers that the program writes, and that it accepts then.
ghost use Rattle.std.specs.Prelude.{◌≡◌};

use crate::checks::{TWO_END, joined};
use program_runs::{Printed, RunFault, Verdict, run_check, run_explore};
use search_expansion::Unwatched;
use std::str;
use std::test::Fail;
use test_support::{MemorySink, MemorySource, holds, same};
use tree_covers::split_at_mark;
use tree_excuses::Excuses;
use tree_findings::{Options, Search};
use world_identities::Flags;

const WRITTEN: &str = "depth 3, nodes 5, complete
errors 0, refusals 0
result: clean
%%cover
P
P P.1
P.1


";

// A process writes the protected table of another, which is an error.
const STRANGER: &str =
    "module 'm' ['main'/0,'c'/0] attributes [] 'main'/0 = fun () -> do call 'ets':'new'('t',['named_table']) call 'erlang':'spawn'('m','c',[]) 'c'/0 = fun () -> call 'ets':'insert'('t',{'a',1}) end\n";

// Two processes write one table under two keys, and end.
const TWO_KEYS: &str =
    "module 'm' ['main'/0,'c'/0] attributes [] 'main'/0 = fun () -> do call 'ets':'new'('t',['named_table','public']) do call 'erlang':'spawn'('m','c',[]) call 'ets':'insert'('t',{'a',1}) 'c'/0 = fun () -> catch call 'ets':'insert'('t',{'b',1}) end\n";

// The report alone, and with the cover after it.
const PLAIN: Printed = Printed {
    explained: false,
    cover: false,
    terms: false,
};

const COVERED: Printed = Printed {
    explained: false,
    cover: true,
    terms: false,
};

// What is explored by so many workers, with at most so many nodes.
fn options(depth: u64, nodes: u64, workers: u64) -> Options
    ensures { result.budget ≡ 64 }
{
    Options {
        depth,
        nodes,
        budget: 64,
        workers,
        search: Search::ByTree,
        flags: Flags {
            allow_deadlock: false,
            strict_access: false,
            idle_servers: false,
        },
    }
}

#[test]
fn writes_the_cover_of_a_clean_tree(rt: HostRuntime) -> Result<(), Fail> {
    for workers in [1, 2, 16] {
        let mut source = MemorySource::new(TWO_END.as_bytes());
        let mut sink = MemorySink::in_pieces(rt.alloc(), 1000, workers as usize)?;
        let outcome = run_explore(
            &rt,
            rt.alloc(),
            &mut source,
            &options(3, 1000, workers),
            &Excuses::none(rt.alloc()),
            COVERED,
            &Unwatched,
            &mut sink,
        );
        holds(outcome == Ok(Verdict::Clean), "the tree is clean")?;
        same(sink.bytes.as_slice(), WRITTEN.as_bytes())?;
    }
    Ok(())
}

// With errors, or incomplete, the report is alone; so too where no cover is asked for.
#[test]
fn writes_no_other_cover(rt: HostRuntime) -> Result<(), Fail> {
    for (text, nodes, printed, wanted) in [
        (STRANGER, 1000, COVERED, Verdict::Errors),
        (STRANGER, 9, COVERED, Verdict::Incomplete),
        (TWO_END, 1000, PLAIN, Verdict::Clean),
    ] {
        let mut source = MemorySource::new(text.as_bytes());
        let mut sink = MemorySink::with_room(rt.alloc(), 1000)?;
        let outcome = run_explore(
            &rt,
            rt.alloc(),
            &mut source,
            &options(5, nodes, 2),
            &Excuses::none(rt.alloc()),
            printed,
            &Unwatched,
            &mut sink,
        );
        holds(outcome == Ok(wanted), "the verdict is that of the tree")?;
        let is_report = sink.bytes.ends_with(b"result: errors\n")
            || sink.bytes.ends_with(b"result: incomplete\n")
            || sink.bytes.ends_with(b"result: clean\n");
        let is_alone = is_report && !sink.bytes.ends_with(b"\n\n");
        holds(is_alone, "the report is alone")?;
    }
    Ok(())
}

// Within the report, within the cover, and at the flush.
#[test]
fn a_write_that_fails_leaves_what_was_written(rt: HostRuntime) -> Result<(), Fail> {
    for room in 0..WRITTEN.len() + 1 {
        let mut source = MemorySource::new(TWO_END.as_bytes());
        let mut sink = MemorySink::with_room(rt.alloc(), room)?;
        let outcome = run_explore(
            &rt,
            rt.alloc(),
            &mut source,
            &options(3, 1000, 1),
            &Excuses::none(rt.alloc()),
            COVERED,
            &Unwatched,
            &mut sink,
        );
        let wanted = if room < WRITTEN.len() {
            Err(RunFault::Output)
        } else {
            Ok(Verdict::Clean)
        };
        holds(outcome == wanted, "the output fails where it has no room")?;
        same(sink.bytes.as_slice(), &WRITTEN.as_bytes()[..room])?;
    }
    Ok(())
}

// What is written after the report is accepted after the module.
#[test]
fn accepts_what_it_writes(rt: HostRuntime) -> Result<(), Fail> {
    let alloc = rt.alloc();
    for (module, depth) in [(TWO_END, 3), (TWO_KEYS, 4), (TWO_KEYS, 12)] {
        let mut source = MemorySource::new(module.as_bytes());
        let mut sink = MemorySink::with_room(alloc, 10_000)?;
        let outcome = run_explore(
            &rt,
            alloc,
            &mut source,
            &options(depth, 1000, 2),
            &Excuses::none(rt.alloc()),
            COVERED,
            &Unwatched,
            &mut sink,
        );
        holds(outcome == Ok(Verdict::Clean), "the tree is clean")?;
        let (_, part) = split_at_mark(sink.bytes.as_slice());
        let Some(lines) = part else {
            return Err(Fail::from("no cover was written"));
        };
        let Ok(lines) = str::from_utf8(lines) else {
            return Err(Fail::from("the cover is no text"));
        };
        let text = joined(alloc, joined(alloc, module, "%%cover\n")?.as_str(), lines)?;
        let mut source = MemorySource::new(text.as_bytes());
        let mut answer = MemorySink::with_room(alloc, 100)?;
        let flags = options(depth, 1, 1).flags;
        let outcome = run_check(
            alloc,
            &mut source,
            depth,
            flags,
            &Excuses::none(alloc),
            &Unwatched,
            &mut answer,
        );
        holds(outcome == Ok(Verdict::Done), "the cover is good")?;
    }
    Ok(())
}
