// Explained reports, from the bytes of a module to the last line.
ghost use Rattle.std.specs.Prelude.{◌≡◌};

use crate::transcripts::{parts_of_block, parts_of_run};
use program_runs::{Printed, run_explore};
use search_expansion::Unwatched;
use std::alloc::Global;
use std::sync::Wait;
use std::test::Fail;
use std::thread::Threads;
use test_support::{MemorySink, MemorySource, same};
use tree_excuses::Excuses;
use tree_findings::{Options, Search};
use world_identities::Flags;

// Blocks as those of a transcript. After each `$ ` are the depth and how many nodes may be visited, and below that are
// the report and the outcome.
const RUNS: &str = "# A process spawns another, and both end.
module 'm' ['main'/0,'c'/0] attributes [] 'main'/0 = fun () -> call 'erlang':'spawn'('m','c',[]) 'c'/0 = fun () -> 'x' end
$ depth 3, nodes 1000
depth 3, nodes 5, complete, cut 0
errors 0, refusals 0
result: clean, all schedules
Ok(Clean)
$ depth 400, nodes 1000
depth 400, nodes 5, complete, cut 0
errors 0, refusals 0
result: clean, all schedules
Ok(Clean)
$ depth 2, nodes 1000
depth 2, nodes 4, complete, cut 2
errors 0, refusals 0
result: clean to depth 2
Ok(Clean)
$ depth 3, nodes 1
depth 3, incomplete: node limit
errors 0, refusals 0
result: incomplete
Ok(Incomplete)
----
# A process ends badly.
module 'm' ['main'/0] attributes [] 'main'/0 = fun () -> call 'erlang':'exit'('bad') end
$ depth 0, nodes 1000
depth 0, nodes 1, complete, cut 1
errors 0, refusals 0
result: clean to depth 0
Ok(Clean)
$ depth 1, nodes 1000
depth 1, nodes 2, complete, cut 0
error 1: P ends 'bad'
  P
    1 P ends 'bad'
errors 1, refusals 0
result: errors, all schedules
Ok(Errors)
----
# A process waits for a message that does not come, and has two others.
module 'm' ['main'/0] attributes [] 'main'/0 = fun () -> let <S> = call 'erlang':'self'() in do call 'erlang':'!'(S,'a') do call 'erlang':'!'(S,{'b',1}) receive <'c'> when 'true' -> 'ok' after 'infinity' -> 'x' end
$ depth 2, nodes 1000
depth 2, nodes 3, complete, cut 0
error 1: deadlock of P
  P P
    1 P erlang:!(P,'a') -> 'a'
    2 P erlang:!(P,{'b',1}) -> {'b',1}
    P waits, mailbox ['a',{'b',1}]
errors 1, refusals 0
result: errors, all schedules
Ok(Errors)
----
# A process writes the protected table of another.
module 'm' ['main'/0,'c'/0] attributes [] 'main'/0 = fun () -> do call 'ets':'new'('t',['named_table']) call 'erlang':'spawn'('m','c',[]) 'c'/0 = fun () -> call 'ets':'insert'('t',{'a',1}) end
$ depth 5, nodes 1000
depth 5, nodes 10, complete, cut 0
error 1: P.2 ends {'badarg',[]}
  P P P.2 P.2
    1 P ets:new('t',['named_table']) -> 't'
    2 P erlang:spawn('m','c',[]) -> P.2
    3 P.2 ets:insert('t',{'a',1}) -> badarg (5 ProtectedWrite, owner P)
    4 P.2 ends {'badarg',[]}
refusal 1: P.2 request 1 ets:insert('t',{'a',1}) -> badarg (2 NoTable)
  P P P P.2
    1 P ets:new('t',['named_table']) -> 't'
    2 P erlang:spawn('m','c',[]) -> P.2
    3 P ends 'normal'
    4 P.2 ets:insert('t',{'a',1}) -> badarg (2 NoTable)
refusal 2: P.2 request 1 ets:insert('t',{'a',1}) -> badarg (5 ProtectedWrite, owner P)
  P P P.2
    1 P ets:new('t',['named_table']) -> 't'
    2 P erlang:spawn('m','c',[]) -> P.2
    3 P.2 ets:insert('t',{'a',1}) -> badarg (5 ProtectedWrite, owner P)
errors 1, refusals 2
result: errors, all schedules
Ok(Errors)
";

// What is explored by so many workers, with at most so many nodes.
fn options(depth: u64, nodes: u64, workers: u64) -> Options
    ensures { result.budget ≡ 64 }
{
    Options {
        depth,
        nodes,
        budget: 64,
        workers,
        search: Search::ByTree,
        flags: Flags {
            allow_deadlock: false,
            strict_access: false,
            idle_servers: false,
        },
    }
}

// The depth, and how many nodes may be visited.
fn limits_of(words: &str) -> Result<(u64, u64), Fail> {
    let Some(limits) = words.strip_prefix("depth ") else {
        return Err(Fail::from("a run has a depth"));
    };
    let Some((depth, nodes)) = limits.split_once(", nodes ") else {
        return Err(Fail::from("a run has a limit of nodes"));
    };
    match (depth.parse::<u64>(), nodes.parse::<u64>()) {
        (Ok(depth), Ok(nodes)) => Ok((depth, nodes)),
        _ => Err(Fail::from("the limits of a run are numbers")),
    }
}

// The explained report of a module, and the outcome on a line below it.
fn explanation_of<T: Threads + Wait + Sync>(
    rt: &T,
    alloc: Global,
    module: &str,
    options: &Options,
) -> Result<Vec<u8>, Fail>
    requires { options.now.budget ≡ 64 }
{
    let mut source = MemorySource::new(module.as_bytes());
    let mut sink = MemorySink::with_room(alloc, 10_000)?;
    let outcome = run_explore(
        rt,
        alloc,
        &mut source,
        options,
        &Excuses::none(alloc),
        Printed {
            explained: true,
            cover: false,
            terms: false,
        },
        &Unwatched,
        &mut sink,
    );
    let mut report = sink.bytes;
    report.extend_from_slice(format!(in alloc; "{outcome:?}\n")?.as_bytes())?;
    Ok(report)
}

// Checks a run with one worker, and with several.
fn run_holds<T: Threads + Wait + Sync>(
    rt: &T,
    alloc: Global,
    module: &str,
    run: &str,
) -> Result<(), Fail> {
    let (words, wanted) = parts_of_run(run)?;
    let (depth, nodes) = limits_of(words)?;
    for workers in [1, 4, 16] {
        let got = explanation_of(rt, alloc, module, &options(depth, nodes, workers))?;
        same(got.as_slice(), wanted.as_bytes())?;
    }
    Ok(())
}

// Checks the runs of one block.
fn block_holds<T: Threads + Wait + Sync>(rt: &T, alloc: Global, block: &str) -> Result<(), Fail> {
    let (module, runs) = parts_of_block(block)?;
    for run in runs.split("$ ") {
        run_holds(rt, alloc, module, run)?;
    }
    Ok(())
}

#[test]
fn explains_what_it_found(rt: HostRuntime) -> Result<(), Fail> {
    for block in RUNS.split("----\n") {
        block_holds(&rt, rt.alloc(), block)?;
    }
    Ok(())
}
