// Reports as Erlang terms, from the words to the report and the status.
use crate::transcripts::{beginnings_hold, blocks_hold};
use std::test::Fail;

// A block of a transcript, of which another test has the first run.
const WAITS: &str = r#"# A process waits for a message that does not come, and has two others.
module 'm' ['main'/0] attributes [] 'main'/0 = fun () -> let <S> = call 'erlang':'self'() in do call 'erlang':'!'(S,'a') do call 'erlang':'!'(S,{'b',1}) receive <'c'> when 'true' -> 'ok' after 'infinity' -> 'x' end

$ explore --depth 2 --format terms
{explored,2,any_time,{nodes,3,0}}.
{error,1,{deadlock,["P"]},"P P"}.
{event,1,"P",{answers,{call,"erlang","!",["P","'a'"]},"'a'"}}.
{event,2,"P",{answers,{call,"erlang","!",["P","{'b',1}"]},"{'b',1}"}}.
{waits,"P",["'a'","{'b',1}"]}.
{counts,1,0,0}.
{result,errors,all}.
status 1
"#;

// A transcript of other runs.
const RUNS: &str = r#"# A process spawns another, and both end.
module 'm' ['main'/0,'c'/0] attributes [] 'main'/0 = fun () -> call 'erlang':'spawn'('m','c',[]) 'c'/0 = fun () -> 'x' end

$ explore --depth 3 --format terms
{explored,3,any_time,{nodes,5,0}}.
{counts,0,0,0}.
{result,clean,all}.
status 0
$ explore --format terms --depth 2
{explored,2,any_time,{nodes,4,2}}.
{counts,0,0,0}.
{result,clean,{depth,2}}.
status 0
$ explore --depth 3 --format terms --nodes 1
{explored,3,any_time,{stopped,node_limit}}.
{counts,0,0,0}.
{result,incomplete}.
status 3
$ sample --depth 2 --format terms
{sampled,2,1000,1}.
{counts,0,0,0}.
{result,nothing_found}.
status 3
----
# A process ends badly.
module 'm' ['main'/0] attributes [] 'main'/0 = fun () -> call 'erlang':'exit'('bad') end

$ explore --depth 1 --format terms
{explored,1,any_time,{nodes,2,0}}.
{error,1,{ends,"P","'bad'"},"P"}.
{event,1,"P",{ends,"'bad'"}}.
{counts,1,0,0}.
{result,errors,all}.
status 1
$ explore --at-once --depth 3 --format terms
{explored,3,at_once,{states,2,0}}.
{error,1,{ends,"P","'bad'"},"P"}.
{event,1,"P",{ends,"'bad'"}}.
{counts,1,0,0}.
{result,errors,all}.
status 1
$ sample --format terms --depth 1
{sampled,1,1000,1}.
{error,1,{ends,"P","'bad'"},"P"}.
{event,1,"P",{ends,"'bad'"}}.
{counts,1,0,0}.
{result,errors}.
status 1
$ sample --depth 0 --format terms --runs 1 --seed 0
{sampled,0,1,0}.
{counts,0,0,0}.
{result,nothing_found}.
status 3
----
# A process spawns another, and each ends with a reason of its own.
module 'm' ['main'/0,'c'/0] attributes [] 'main'/0 = fun () -> do call 'erlang':'spawn'('m','c',[]) call 'erlang':'exit'({'shutdown',1}) 'c'/0 = fun () -> call 'erlang':'exit'('boom') end

$ explore --depth 3 --normal 'boom' --format terms
{explored,3,any_time,{nodes,5,0}}.
{error,1,{ends,"P","{'shutdown',1}"},"P P"}.
{event,1,"P",{answers,{call,"erlang","spawn",["'m'","'c'","[]"]},"P.1"}}.
{event,2,"P",{ends,"{'shutdown',1}"}}.
{normal,1,{ends,"P.1","'boom'"},"P P.1"}.
{event,1,"P",{answers,{call,"erlang","spawn",["'m'","'c'","[]"]},"P.1"}}.
{event,2,"P.1",{ends,"'boom'"}}.
{counts,1,0,1}.
{result,errors,all}.
status 1
$ sample --format terms --normal 'boom' --seed 7 --normal {'_',1} --depth 3
{sampled,3,1000,7}.
{normal,1,{ends,"P","{'shutdown',1}"},"P P"}.
{event,1,"P",{answers,{call,"erlang","spawn",["'m'","'c'","[]"]},"P.1"}}.
{event,2,"P",{ends,"{'shutdown',1}"}}.
{normal,2,{ends,"P.1","'boom'"},"P P.1"}.
{event,1,"P",{answers,{call,"erlang","spawn",["'m'","'c'","[]"]},"P.1"}}.
{event,2,"P.1",{ends,"'boom'"}}.
{counts,0,0,2}.
{result,nothing_found}.
status 3
----
# A server never takes the message that it gets, and waits on after the first process has ended.
module 'm' ['main'/0,'s'/0] attributes [] 'main'/0 = fun () -> let <S> = call 'erlang':'spawn'('m','s',[]) in do call 'erlang':'!'(S,'late') 'ok' 's'/0 = fun () -> receive <'go'> when 'true' -> 'x' after 'infinity' -> 'x' end

$ explore --depth 5 --format terms --idle-servers
{explored,5,any_time,{nodes,6,0}}.
{error,1,{unread,["P.1"]},"P P P P>P.1"}.
{event,1,"P",{answers,{call,"erlang","spawn",["'m'","'s'","[]"]},"P.1"}}.
{event,2,"P",{answers,{call,"erlang","!",["P.1","'late'"]},"'late'"}}.
{event,3,"P",{ends,"'normal'"}}.
{event,4,"P>P.1",{brings,"'late'"}}.
{waits,"P.1",["'late'"]}.
{normal,1,{deadlock,["P.1"]},"P P P P>P.1"}.
{event,1,"P",{answers,{call,"erlang","spawn",["'m'","'s'","[]"]},"P.1"}}.
{event,2,"P",{answers,{call,"erlang","!",["P.1","'late'"]},"'late'"}}.
{event,3,"P",{ends,"'normal'"}}.
{event,4,"P>P.1",{brings,"'late'"}}.
{waits,"P.1",["'late'"]}.
{counts,1,0,1}.
{result,errors,all}.
status 1
$ sample --idle-servers --format terms --depth 5
{sampled,5,1000,1}.
{error,1,{unread,["P.1"]},"P P P P>P.1"}.
{event,1,"P",{answers,{call,"erlang","spawn",["'m'","'s'","[]"]},"P.1"}}.
{event,2,"P",{answers,{call,"erlang","!",["P.1","'late'"]},"'late'"}}.
{event,3,"P",{ends,"'normal'"}}.
{event,4,"P>P.1",{brings,"'late'"}}.
{waits,"P.1",["'late'"]}.
{normal,1,{deadlock,["P.1"]},"P P P P>P.1"}.
{event,1,"P",{answers,{call,"erlang","spawn",["'m'","'s'","[]"]},"P.1"}}.
{event,2,"P",{answers,{call,"erlang","!",["P.1","'late'"]},"'late'"}}.
{event,3,"P",{ends,"'normal'"}}.
{event,4,"P>P.1",{brings,"'late'"}}.
{waits,"P.1",["'late'"]}.
{counts,1,0,1}.
{result,errors}.
status 1
----
# A process writes the protected table of another.
module 'm' ['main'/0,'c'/0] attributes [] 'main'/0 = fun () -> do call 'ets':'new'('t',['named_table']) call 'erlang':'spawn'('m','c',[]) 'c'/0 = fun () -> call 'ets':'insert'('t',{'a',1}) end

$ explore --depth 5 --format terms
{explored,5,any_time,{nodes,10,0}}.
{error,1,{ends,"P.2","{'badarg',[]}"},"P P P.2 P.2"}.
{event,1,"P",{answers,{call,"ets","new",["'t'","['named_table']"]},"'t'"}}.
{event,2,"P",{answers,{call,"erlang","spawn",["'m'","'c'","[]"]},"P.2"}}.
{event,3,"P.2",{refused,{call,"ets","insert",["'t'","{'a',1}"]},{rule,5,'ProtectedWrite',"P"}}}.
{event,4,"P.2",{ends,"{'badarg',[]}"}}.
{refusal,1,{refused,"P.2",1,{call,"ets","insert",["'t'","{'a',1}"]},{rule,2,'NoTable',none}},"P P P P.2"}.
{event,1,"P",{answers,{call,"ets","new",["'t'","['named_table']"]},"'t'"}}.
{event,2,"P",{answers,{call,"erlang","spawn",["'m'","'c'","[]"]},"P.2"}}.
{event,3,"P",{ends,"'normal'"}}.
{event,4,"P.2",{refused,{call,"ets","insert",["'t'","{'a',1}"]},{rule,2,'NoTable',none}}}.
{refusal,2,{refused,"P.2",1,{call,"ets","insert",["'t'","{'a',1}"]},{rule,5,'ProtectedWrite',"P"}},"P P P.2"}.
{event,1,"P",{answers,{call,"ets","new",["'t'","['named_table']"]},"'t'"}}.
{event,2,"P",{answers,{call,"erlang","spawn",["'m'","'c'","[]"]},"P.2"}}.
{event,3,"P.2",{refused,{call,"ets","insert",["'t'","{'a',1}"]},{rule,5,'ProtectedWrite',"P"}}}.
{counts,1,2,0}.
{result,errors,all}.
status 1
"#;

// A transcript of runs with `--format text`: the report is the one that is printed where no format is given.
const TEXTS: &str = "# A process ends badly.
module 'm' ['main'/0] attributes [] 'main'/0 = fun () -> call 'erlang':'exit'('bad') end

$ explore --depth 1 --format text
depth 1, nodes 2, complete
error 1: P ends 'bad'
  P
errors 1, refusals 0
result: errors
status 1
$ sample --depth 1 --format text
depth 1, runs 1000, seed 1
error 1: P ends 'bad'
  P
errors 1, refusals 0
result: errors
status 1
";

// With `--explain` the terms are the same.
#[test]
fn reports_as_terms(rt: HostRuntime) -> Result<(), Fail> {
    blocks_hold(&rt, rt.alloc(), WAITS, "")?;
    blocks_hold(&rt, rt.alloc(), WAITS, "--explain")?;
    blocks_hold(&rt, rt.alloc(), RUNS, "")?;
    blocks_hold(&rt, rt.alloc(), RUNS, "--explain")
}

#[test]
fn reports_as_text_where_that_is_asked_for(rt: HostRuntime) -> Result<(), Fail> {
    blocks_hold(&rt, rt.alloc(), TEXTS, "")
}

#[test]
fn an_output_that_fails_has_a_beginning_of_the_terms(rt: HostRuntime) -> Result<(), Fail> {
    beginnings_hold(&rt, rt.alloc(), WAITS)
}
