// Random schedules, from the words to the report and the status. Each module is small enough that all its schedules are
// among a thousand random ones.
use crate::transcripts::{
    beginnings_hold, blocks_hold, first_run, parts_of_block, told, told_by_run,
};
use std::alloc::Global;
use std::sync::Wait;
use std::test::Fail;
use std::thread::Threads;
use test_support::{MemorySink, MemorySource, holds, same};

// Blocks of a transcript, of which other tests have the module and the first run.
const TWO_END_BADLY: &str = "# A process spawns another, and each ends with a reason of its own.
module 'm' ['main'/0,'c'/0] attributes [] 'main'/0 = fun () -> do call 'erlang':'spawn'('m','c',[]) call 'erlang':'exit'({'shutdown',1}) 'c'/0 = fun () -> call 'erlang':'exit'('boom') end

$ sample --depth 3
depth 3, runs 1000, seed 1
error 1: P ends {'shutdown',1}
  P P
error 2: P.1 ends 'boom'
  P P.1
errors 2, refusals 0
result: errors
status 1
$ sample --depth 3 --normal 'boom' --seed 7
depth 3, runs 1000, seed 7
error 1: P ends {'shutdown',1}
  P P
normal 1: P.1 ends 'boom'
  P P.1
errors 1, refusals 0, taken as normal 1
result: errors
status 1
$ sample --normal 'boom' --normal {'_',1} --depth 3
depth 3, runs 1000, seed 1
normal 1: P ends {'shutdown',1}
  P P
normal 2: P.1 ends 'boom'
  P P.1
errors 0, refusals 0, taken as normal 2
result: nothing found
status 3
";

const WAITS: &str = "# A process waits for a message that does not come, and has two others.
module 'm' ['main'/0] attributes [] 'main'/0 = fun () -> let <S> = call 'erlang':'self'() in do call 'erlang':'!'(S,'a') do call 'erlang':'!'(S,{'b',1}) receive <'c'> when 'true' -> 'ok' after 'infinity' -> 'x' end

$ sample --depth 2 --explain --runs 3
depth 2, runs 3, seed 1
error 1: deadlock of P
  P P
    1 P erlang:!(P,'a') -> 'a'
    2 P erlang:!(P,{'b',1}) -> {'b',1}
    P waits, mailbox ['a',{'b',1}]
errors 1, refusals 0
result: errors
status 1
$ sample --depth 2 --allow-deadlock
depth 2, runs 1000, seed 1
errors 0, refusals 0
result: nothing found
status 3
";

const LATE: &str =
    "# A process looks for the message of another one that has ended: it may still be on its way.
module 'm' ['main'/0,'c'/1] attributes [] 'main'/0 = fun () -> let <S> = call 'erlang':'self'() in let <C> = call 'erlang':'spawn'('m','c',[S]) in case call 'erlang':'is_process_alive'(C) of <'false'> when 'true' -> receive <X> when 'true' -> call 'erlang':'exit'('early') after 0 -> call 'erlang':'exit'('late') <'true'> when 'true' -> 'ok' end 'c'/1 = fun (S) -> call 'erlang':'!'(S,'a') end

$ sample --depth 9
depth 9, runs 1000, seed 1
error 1: P ends 'early'
  P P.1 P.1 P P.1>P P P
error 2: P ends 'late'
  P P.1 P.1 P P P
errors 2, refusals 0
result: errors
status 1
$ sample --at-once --depth 9
depth 9, runs 1000, seed 1
error 1: P ends 'early'
  P P.1 P.1>P P.1 P P P
errors 1, refusals 0
result: errors
status 1
";

// A transcript of other runs.
const RUNS: &str = "# A process ends badly.
module 'm' ['main'/0] attributes [] 'main'/0 = fun () -> call 'erlang':'exit'('bad') end

$ sample --depth 1
depth 1, runs 1000, seed 1
error 1: P ends 'bad'
  P
errors 1, refusals 0
result: errors
status 1
$ sample --depth 400 --runs 1 --seed 0
depth 400, runs 1, seed 0
error 1: P ends 'bad'
  P
errors 1, refusals 0
result: errors
status 1
$ sample --depth 0 # no schedule is long enough
depth 0, runs 1000, seed 1
errors 0, refusals 0
result: nothing found
status 3
----
# A process spawns another, and both end.
module 'm' ['main'/0,'c'/0] attributes [] 'main'/0 = fun () -> call 'erlang':'spawn'('m','c',[]) 'c'/0 = fun () -> 'x' end

$ sample --seed 4294967295 --runs 7 --depth 3
depth 3, runs 7, seed 4294967295
errors 0, refusals 0
result: nothing found
status 3
$ sample --depth 2 --explain
depth 2, runs 1000, seed 1
errors 0, refusals 0
result: nothing found
status 3
----
# A server waits for messages that do not come, after the first process has ended.
module 'm' ['main'/0,'c'/0] attributes [] 'main'/0 = fun () -> call 'erlang':'spawn'('m','c',[]) 'c'/0 = fun () -> receive <X> when 'true' -> X after 'infinity' -> 'x' end

$ sample --main-deadlock --explain --depth 5
depth 5, runs 1000, seed 1
normal 1: deadlock of P.1
  P P
    1 P erlang:spawn('m','c',[]) -> P.1
    2 P ends 'normal'
    P.1 waits, mailbox []
errors 0, refusals 0, taken as normal 1
result: nothing found
status 3
$ sample --idle-servers --explain --depth 5
depth 5, runs 1000, seed 1
normal 1: deadlock of P.1
  P P
    1 P erlang:spawn('m','c',[]) -> P.1
    2 P ends 'normal'
    P.1 waits, mailbox []
errors 0, refusals 0, taken as normal 1
result: nothing found
status 3
----
# A server never takes the message that it gets, and waits on after the first process has ended.
module 'm' ['main'/0,'s'/0] attributes [] 'main'/0 = fun () -> let <S> = call 'erlang':'spawn'('m','s',[]) in do call 'erlang':'!'(S,'late') 'ok' 's'/0 = fun () -> receive <'go'> when 'true' -> 'x' after 'infinity' -> 'x' end

$ sample --idle-servers --depth 5
depth 5, runs 1000, seed 1
error 1: unread messages of P.1
  P P P P>P.1
normal 1: deadlock of P.1
  P P P P>P.1
errors 1, refusals 0, taken as normal 1
result: errors
status 1
----
# A process writes the protected table of another.
module 'm' ['main'/0,'c'/0] attributes [] 'main'/0 = fun () -> do call 'ets':'new'('t',['named_table']) call 'erlang':'spawn'('m','c',[]) 'c'/0 = fun () -> call 'ets':'insert'('t',{'a',1}) end

$ sample --depth 5 --explain
depth 5, runs 1000, seed 1
error 1: P.2 ends {'badarg',[]}
  P P P.2 P.2
    1 P ets:new('t',['named_table']) -> 't'
    2 P erlang:spawn('m','c',[]) -> P.2
    3 P.2 ets:insert('t',{'a',1}) -> badarg (5 ProtectedWrite, owner P)
    4 P.2 ends {'badarg',[]}
refusal 1: P.2 request 1 ets:insert('t',{'a',1}) -> badarg (2 NoTable)
  P P P P.2
    1 P ets:new('t',['named_table']) -> 't'
    2 P erlang:spawn('m','c',[]) -> P.2
    3 P ends 'normal'
    4 P.2 ets:insert('t',{'a',1}) -> badarg (2 NoTable)
refusal 2: P.2 request 1 ets:insert('t',{'a',1}) -> badarg (5 ProtectedWrite, owner P)
  P P P.2
    1 P ets:new('t',['named_table']) -> 't'
    2 P erlang:spawn('m','c',[]) -> P.2
    3 P.2 ets:insert('t',{'a',1}) -> badarg (5 ProtectedWrite, owner P)
errors 1, refusals 2
result: errors
status 1
$ sample --depth 5 --strict-access
depth 5, runs 1000, seed 1
error 1: P.2 ends {'badarg',[]}
  P P P.2 P.2
error 2: P.2 request 1 ets:insert('t',{'a',1}) -> badarg (5 ProtectedWrite, owner P)
  P P P.2
refusal 1: P.2 request 1 ets:insert('t',{'a',1}) -> badarg (2 NoTable)
  P P P P.2
refusal 2: P.2 request 1 ets:insert('t',{'a',1}) -> badarg (5 ProtectedWrite, owner P)
  P P P.2
errors 2, refusals 2
result: errors
status 1
----
# A module that does not end.
module
$ sample --depth 9
status 2
input: 2 Expected at 6
----
# A module that does not export main/0.
module 'm' [] attributes [] end
$ sample --depth 9 --explain
status 2
input: 13 NoMain at 28
";

#[test]
fn reports_what_random_schedules_show(rt: HostRuntime) -> Result<(), Fail> {
    blocks_hold(&rt, rt.alloc(), TWO_END_BADLY, "")?;
    blocks_hold(&rt, rt.alloc(), WAITS, "")?;
    blocks_hold(&rt, rt.alloc(), LATE, "")?;
    blocks_hold(&rt, rt.alloc(), RUNS, "")
}

#[test]
fn an_output_that_fails_has_a_beginning_of_the_report(rt: HostRuntime) -> Result<(), Fail> {
    beginnings_hold(&rt, rt.alloc(), WAITS)
}

#[test]
fn a_flush_that_fails_is_told(rt: HostRuntime) -> Result<(), Fail> {
    let (module, words, wanted) = first_run(TWO_END_BADLY)?;
    let Some(report) = wanted.strip_suffix("status 1\n") else {
        return Err(Fail::from("the run shows errors"));
    };
    let mut input = MemorySource::new(module.as_bytes());
    let mut output = MemorySink::with_flushes(rt.alloc(), 10_000, 0)?;
    let got = told_by_run(&rt, rt.alloc(), words, "", &mut input, &mut output)?;
    let wanted = told(rt.alloc(), report.as_bytes(), 4, b"output failed\n")?;
    same(got.as_slice(), wanted.as_slice())
}

// At each of the first reads, and at the one that would find the end.
#[test]
fn a_read_that_fails_writes_nothing(rt: HostRuntime) -> Result<(), Fail> {
    let (module, words, _) = first_run(TWO_END_BADLY)?;
    for reads in [0, 1, 2, module.len() as u64] {
        let mut input = MemorySource::in_pieces(module.as_bytes(), 1, reads);
        let mut output = MemorySink::with_room(rt.alloc(), 1000)?;
        let got = told_by_run(&rt, rt.alloc(), words, "", &mut input, &mut output)?;
        same(got.as_slice(), b"status 2\ninput: read failed\n")?;
    }
    Ok(())
}

// What one schedule with this seed tells.
fn told_with_seed<T: Threads + Wait + Sync>(
    rt: &T,
    alloc: Global,
    seed: u64,
) -> Result<Vec<u8>, Fail> {
    let (module, _) = parts_of_block(LATE)?;
    let seed = format!(in alloc; "{seed}")?;
    let mut input = MemorySource::new(module.as_bytes());
    let mut output = MemorySink::with_room(alloc, 1000)?;
    told_by_run(
        rt,
        alloc,
        "sample --depth 9 --runs 1 --seed",
        seed.as_str(),
        &mut input,
        &mut output,
    )
}

// Of twenty seeds, at least one schedule shows an error, and at least one does not.
#[test]
fn a_seed_gives_one_schedule_and_seeds_give_several(rt: HostRuntime) -> Result<(), Fail> {
    let mut one_shows = false;
    let mut one_does_not = false;
    for seed in 0..20 {
        let first = told_with_seed(&rt, rt.alloc(), seed)?;
        let second = told_with_seed(&rt, rt.alloc(), seed)?;
        same(first.as_slice(), second.as_slice())?;
        if first.ends_with(b"result: errors\nstatus 1\n") {
            one_shows = true;
        } else {
            let is_clean = first.ends_with(b"result: nothing found\nstatus 3\n");
            holds(is_clean, "a schedule shows an error or nothing")?;
            one_does_not = true;
        }
    }
    holds(one_shows && one_does_not, "not all seeds give one schedule")
}
