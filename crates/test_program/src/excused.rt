// Errors that are taken as normal, from the words to the report and the status.
use crate::transcripts::blocks_hold;
use std::test::Fail;

// A transcript of the runs.
const RUNS: &str = "# A process spawns another, and each ends with a reason of its own.
module 'm' ['main'/0,'c'/0] attributes [] 'main'/0 = fun () -> do call 'erlang':'spawn'('m','c',[]) call 'erlang':'exit'({'shutdown',1}) 'c'/0 = fun () -> call 'erlang':'exit'('boom') end

$ explore --depth 3 --normal 'boom' --cover
depth 3, nodes 5, complete
error 1: P ends {'shutdown',1}
  P P
normal 1: P.1 ends 'boom'
  P P.1
errors 1, refusals 0, taken as normal 1
result: errors
status 1
$ explore --normal {'shutdown',1} --cover --depth 3 --normal 'boom'
depth 3, nodes 5, complete
normal 1: P ends {'shutdown',1}
  P P
normal 2: P.1 ends 'boom'
  P P.1
errors 0, refusals 0, taken as normal 2
result: clean
%%cover
P
P P.1
P.1


status 0
$ explore --cover --normal 'boom' --normal {'_',1} --depth 3
depth 3, nodes 5, complete
normal 1: P ends {'shutdown',1}
  P P
normal 2: P.1 ends 'boom'
  P P.1
errors 0, refusals 0, taken as normal 2
result: clean
%%cover
P
P P.1
P.1


status 0
$ explore --depth 3 --cover --normal '_'
depth 3, nodes 5, complete
normal 1: P ends {'shutdown',1}
  P P
normal 2: P.1 ends 'boom'
  P P.1
errors 0, refusals 0, taken as normal 2
result: clean
%%cover
P
P P.1
P.1


status 0
$ explore --depth 3 --cover --normal {'_'} --normal ['_'|'_']
depth 3, nodes 5, complete
error 1: P ends {'shutdown',1}
  P P
error 2: P.1 ends 'boom'
  P P.1
errors 2, refusals 0, taken as normal 0
result: errors
status 1
----
# A server waits for messages that do not come, after the first process has ended.
module 'm' ['main'/0,'c'/0] attributes [] 'main'/0 = fun () -> call 'erlang':'spawn'('m','c',[]) 'c'/0 = fun () -> receive <X> when 'true' -> X after 'infinity' -> 'x' end

$ explore --explain --main-deadlock --depth 5
depth 5, nodes 3, complete, cut 0
normal 1: deadlock of P.1
  P P
    1 P erlang:spawn('m','c',[]) -> P.1
    2 P ends 'normal'
    P.1 waits, mailbox []
errors 0, refusals 0, taken as normal 1
result: clean, all schedules
status 0
$ explore --idle-servers --depth 5 --explain
depth 5, nodes 3, complete, cut 0
normal 1: deadlock of P.1
  P P
    1 P erlang:spawn('m','c',[]) -> P.1
    2 P ends 'normal'
    P.1 waits, mailbox []
errors 0, refusals 0, taken as normal 1
result: clean, all schedules
status 0
----
# The first process waits for a message that does not come.
module 'm' ['main'/0] attributes [] 'main'/0 = fun () -> receive <X> when 'true' -> X after 'infinity' -> 'x' end

$ explore --main-deadlock --depth 5 --explain
depth 5, nodes 1, complete, cut 0
error 1: deadlock of P
\x20\x20
    P waits, mailbox []
errors 1, refusals 0, taken as normal 0
result: errors, all schedules
status 1
$ explore --depth 5 --explain --idle-servers
depth 5, nodes 1, complete, cut 0
error 1: deadlock of P
\x20\x20
    P waits, mailbox []
errors 1, refusals 0, taken as normal 0
result: errors, all schedules
status 1
----
# A server never takes the message that it gets, and waits on after the first process has ended.
module 'm' ['main'/0,'s'/0] attributes [] 'main'/0 = fun () -> let <S> = call 'erlang':'spawn'('m','s',[]) in do call 'erlang':'!'(S,'late') 'ok' 's'/0 = fun () -> receive <'go'> when 'true' -> 'x' after 'infinity' -> 'x' end

$ explore --depth 5 --explain --idle-servers
depth 5, nodes 6, complete, cut 0
error 1: unread messages of P.1
  P P P P>P.1
    1 P erlang:spawn('m','s',[]) -> P.1
    2 P erlang:!(P.1,'late') -> 'late'
    3 P ends 'normal'
    4 P>P.1 brings 'late'
    P.1 waits, mailbox ['late']
normal 1: deadlock of P.1
  P P P P>P.1
    1 P erlang:spawn('m','s',[]) -> P.1
    2 P erlang:!(P.1,'late') -> 'late'
    3 P ends 'normal'
    4 P>P.1 brings 'late'
    P.1 waits, mailbox ['late']
errors 1, refusals 0, taken as normal 1
result: errors, all schedules
status 1
$ explore --states --depth 5 --idle-servers
depth 5, states 6, complete
error 1: unread messages of P.1
  P P P P>P.1
normal 1: deadlock of P.1
  P P P P>P.1
errors 1, refusals 0, taken as normal 1
result: errors
status 1
$ explore --at-once --depth 5 --idle-servers
depth 5, states 5, complete
error 1: unread messages of P.1
  P P P>P.1 P
normal 1: deadlock of P.1
  P P P>P.1 P
errors 1, refusals 0, taken as normal 1
result: errors
status 1
$ explore --depth 5 --main-deadlock # without the other option what is unread is listed nowhere
depth 5, nodes 6, complete
normal 1: deadlock of P.1
  P P P P>P.1
errors 0, refusals 0, taken as normal 1
result: clean
status 0
$ explore --depth 5
depth 5, nodes 6, complete
error 1: deadlock of P.1
  P P P P>P.1
errors 1, refusals 0
result: errors
status 1
----
# A process that applies itself for ever.
module 'm' ['main'/0] attributes [] 'main'/0 = fun () -> apply 'main'/0() end

$ explore --depth 1 --normal 'runaway'
depth 1, nodes 2, complete
error 1: P runs away
  P
errors 1, refusals 0, taken as normal 0
result: errors
status 1
----
# A process writes the protected table of another.
module 'm' ['main'/0,'c'/0] attributes [] 'main'/0 = fun () -> do call 'ets':'new'('t',['named_table']) call 'erlang':'spawn'('m','c',[]) 'c'/0 = fun () -> call 'ets':'insert'('t',{'a',1}) end

$ explore --depth 5 --normal {'badarg',[]}
depth 5, nodes 10, complete
refusal 1: P.2 request 1 ets:insert('t',{'a',1}) -> badarg (2 NoTable)
  P P P P.2
refusal 2: P.2 request 1 ets:insert('t',{'a',1}) -> badarg (5 ProtectedWrite, owner P)
  P P P.2
normal 1: P.2 ends {'badarg',[]}
  P P P.2 P.2
errors 0, refusals 2, taken as normal 1
result: clean
status 0
";

// With one worker, and with several.
#[test]
fn tells_what_is_taken_as_normal(rt: HostRuntime) -> Result<(), Fail> {
    blocks_hold(&rt, rt.alloc(), RUNS, "--workers 1")?;
    blocks_hold(&rt, rt.alloc(), RUNS, "--workers 4")?;
    blocks_hold(&rt, rt.alloc(), RUNS, "--workers 16")
}
