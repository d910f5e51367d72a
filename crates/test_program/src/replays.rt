// Whole runs: the bytes of a module and a schedule, and what comes of them byte for byte.
use crate::guard_runs::GUARD_RUNS;
use crate::transcripts::{first_run, parts_of_block, parts_of_run, told};
use program_runs::{RunFault, Verdict, run_replay, status, write_fault};
use std::alloc::{AllocError, Global};
use std::test::Fail;
use test_support::{MemorySink, MemorySource, holds, same};

// A block of a transcript, of which other tests have the first run.
const TABLE: &str = "# A process makes a table, and writes and reads an object of it.
module 'm' ['main'/0] attributes [] 'main'/0 = fun () -> do call 'ets':'new'('t',['named_table']) do call 'ets':'insert'('t',{'a',1}) call 'ets':'lookup'('t','a') end
$ replay P P P P
1 P ets:new('t',['named_table']) -> 't'
2 P ets:insert('t',{'a',1}) -> 'true'
3 P ets:lookup('t','a') -> [{'a',1}]
4 P ends 'normal'
status 0
$ replay
status 0
$ replay P P.9
1 P ets:new('t',['named_table']) -> 't'
status 2
replay: 1 NotEnabled at step 2
$ replay P  P
status 2
schedule: 1 BadStep at 2
";

// A transcript of other runs.
const RUNS: &str = r#"# A process reads a table that does not exist.
module 'm' ['main'/0] attributes [] 'main'/0 = fun () -> call 'ets':'lookup'('t','a') end
$ replay P P
1 P ets:lookup('t','a') -> badarg (2 NoTable)
2 P ends {'badarg',[]}
status 0
----
# Nothing.

$ replay P
status 2
input: 2 Expected at 0
----
# An atom that does not end. Where the schedule is refused as well, the refusal is that of the module.
module 'm
$ replay P
status 2
input: 1 BadToken at 7
$ replay P  P
status 2
input: 1 BadToken at 7
----
# A module that does not end.
module 'm' ['main'/0] attributes [] 'main'/0 = fun () -> 'ok'
$ replay P
status 2
input: 2 Expected at 61
----
# A function as a value.
module 'm' ['main'/0] attributes [] 'main'/0 = fun () -> fun (X) -> X end
$ replay P
status 2
input: 7 HigherOrder at 57
----
# A module that does not export main/0.
module 'm' [] attributes [] end
$ replay P
status 2
input: 13 NoMain at 28
----
# No clause takes the value.
module 'm' ['main'/0] attributes [] 'main'/0 = fun () -> case {1,2} of <{X,Y}> when call 'erlang':'>'(X,Y) -> 'a' end end
$ replay P
1 P ends {{'case_clause',{1,2}},[]}
status 0
----
# What was thrown is raised again, and nothing catches it.
module 'm' ['main'/0] attributes [] 'main'/0 = fun () -> try call 'erlang':'throw'('t') of <X> -> X catch <K,R,S> -> primop 'raise'(S,R) end
$ replay P
1 P ends {{'nocatch','t'},[]}
status 0
----
# What a catch gives for a call that fails.
module 'm' ['main'/0] attributes [] 'main'/0 = fun () -> call 'erlang':'exit'(catch call 'erlang':'hd'([])) end
$ replay P
1 P ends {'EXIT',{'badarg',[]}}
status 0
----
# One value for two variables.
module 'm' ['main'/0] attributes [] 'main'/0 = fun () -> let <X,Y> = 'a' in X end
$ replay P
1 P ends {'value_count',[]}
status 0
----
# The parts of a tuple are evaluated from left to right.
module 'm' ['main'/0] attributes [] 'main'/0 = fun () -> {call 'erlang':'error'('a'),call 'erlang':'error'('b')} end
$ replay P
1 P ends {'a',[]}
status 0
----
# A sum that is too large.
module 'm' ['main'/0] attributes [] 'main'/0 = fun () -> call 'erlang':'+'(9223372036854775807,1) end
$ replay P
1 P ends {'system_limit',[]}
status 0
----
# A function that applies itself for ever.
module 'm' ['main'/0] attributes [] 'main'/0 = fun () -> apply 'main'/0() end
$ replay P
1 P runs away
status 0
----
# The same, where all is caught.
module 'm' ['main'/0] attributes [] 'main'/0 = fun () -> catch try apply 'main'/0() of <X> -> X catch <K,R> -> R end
$ replay P
1 P runs away
status 0
----
# A function that applies itself until its argument is 0: 10,000 applications, which is the limit.
module 'm' ['main'/0] attributes [] 'f'/1 = fun (N) -> case N of <0> when 'true' -> 'ok' <M> when 'true' -> apply 'f'/1(call 'erlang':'-'(M,1)) end 'main'/0 = fun () -> apply 'f'/1(9999) end
$ replay P
1 P ends 'normal'
status 0
----
# One application more.
module 'm' ['main'/0] attributes [] 'f'/1 = fun (N) -> case N of <0> when 'true' -> 'ok' <M> when 'true' -> apply 'f'/1(call 'erlang':'-'(M,1)) end 'main'/0 = fun () -> apply 'f'/1(10000) end
$ replay P
1 P runs away
status 0
----
# A module as a compiler writes it.
module 'm' ['main'/0,'module_info'/0]
    attributes ['file' = [{"m.erl",1}]]
'main'/0 = ( fun () ->
  case ( 3 -| [5] ) of
    <X> when try let <A> = call 'erlang':'hd'(X)
                 in call 'erlang':'=:='(A,1)
             of <V> -> V catch <T,R> -> 'false' -> 'one'
    ( <Y> when 'true' -> 'other' -| ['compiler_generated'] )
  end -| [{'function',{'main',0}}] )
'module_info'/0 = fun () -> call 'erlang':'get_module_info'('m')
end

$ replay P
1 P ends 'normal'
status 0
----
# A text is a list of numbers, and a character is a number.
module 'm' ['main'/0] attributes [] 'main'/0 = fun () -> let <X,Y> = <"a",$b> in call 'ets':'lookup'('t',{Y,X}) end
$ replay P P
1 P ets:lookup('t',{98,[97]}) -> badarg (2 NoTable)
2 P ends {'badarg',[]}
status 0
----
# An expression with annotations has annotations.
module 'm' ['main'/0] attributes [] 'main'/0 = fun () -> ( ( 'ok' -| [] ) -| ['x',1] ) end
$ replay P
1 P ends 'normal'
status 0
----
# A refused call is caught, and a clause takes what it was refused with.
module 'm' ['main'/0] attributes [] 'main'/0 = fun () -> case catch call 'ets':'lookup'('t','a') of <[]> when 'true' -> 'none' <{'EXIT',R}> when 'true' -> call 'ets':'lookup'(R,1) end end
$ replay P P P
1 P ets:lookup('t','a') -> badarg (2 NoTable)
2 P ets:lookup({'badarg',[]},1) -> badarg (1 BadTable)
3 P ends {'badarg',[]}
status 0
----
# A table is given away, and its old owner writes it.
module 'm' ['main'/0,'c'/0] attributes [] 'main'/0 = fun () -> do call 'ets':'new'('t',['named_table']) let <C> = call 'erlang':'spawn'('m','c',[]) in do call 'ets':'give_away'('t',C,'d') call 'ets':'insert'('t',{'a',1}) 'c'/0 = fun () -> receive <X> when 'true' -> X after 'infinity' -> 'x' end
$ replay P P P P P>P.2 P.2
1 P ets:new('t',['named_table']) -> 't'
2 P erlang:spawn('m','c',[]) -> P.2
3 P ets:give_away('t',P.2,'d') -> 'true'
4 P ets:insert('t',{'a',1}) -> badarg (5 ProtectedWrite, owner P.2)
5 P>P.2 brings {'ETS-TRANSFER','t',P,'d'}
6 P.2 receives {'ETS-TRANSFER','t',P,'d'}
status 0
----
# A table passes to its heir, or goes where that ended first.
module 'm' ['main'/0,'c'/0,'d'/0] attributes [] 'main'/0 = fun () -> let <C> = call 'erlang':'spawn'('m','c',[]) in do call 'ets':'new'('t',['named_table',{'heir',C,'d'}]) call 'erlang':'spawn'('m','d',[]) 'c'/0 = fun () -> receive <X> when 'true' -> call 'ets':'insert'('t',{'a',1}) after 0 -> 'gone' 'd'/0 = fun () -> call 'ets':'lookup'('t','a') end
$ replay P P P P P>P.1 P.1 P.1 P.3
1 P erlang:spawn('m','c',[]) -> P.1
2 P ets:new('t',['named_table',{'heir',P.1,'d'}]) -> 't'
3 P erlang:spawn('m','d',[]) -> P.3
4 P ends 'normal'
5 P>P.1 brings {'ETS-TRANSFER','t',P,'d'}
6 P.1 receives {'ETS-TRANSFER','t',P,'d'}
7 P.1 ets:insert('t',{'a',1}) -> 'true'
8 P.3 ets:lookup('t','a') -> [{'a',1}]
status 0
$ replay P P P P.1 P.1 P P.3
1 P erlang:spawn('m','c',[]) -> P.1
2 P ets:new('t',['named_table',{'heir',P.1,'d'}]) -> 't'
3 P erlang:spawn('m','d',[]) -> P.3
4 P.1 times out
5 P.1 ends 'normal'
6 P ends 'normal'
7 P.3 ets:lookup('t','a') -> badarg (2 NoTable)
status 0
----
# A process that traps exits is killed by a signal.
module 'm' ['main'/0,'c'/0] attributes [] 'main'/0 = fun () -> let <C> = call 'erlang':'spawn'('m','c',[]) in call 'erlang':'exit'(C,'kill') 'c'/0 = fun () -> do call 'erlang':'process_flag'('trap_exit','true') receive <X> when 'true' -> X after 'infinity' -> 'x' end
$ replay P P.1 P P>P.1
1 P erlang:spawn('m','c',[]) -> P.1
2 P.1 erlang:process_flag('trap_exit','true') -> 'false'
3 P erlang:exit(P.1,'kill') -> 'true'
4 P>P.1 exit 'kill' -> ends 'killed'
status 0
----
# It gets a message where a linked process kills itself.
module 'm' ['main'/0,'c'/0] attributes [] 'main'/0 = fun () -> do call 'erlang':'process_flag'('trap_exit','true') do call 'erlang':'spawn_link'('m','c',[]) receive <X> when 'true' -> X after 'infinity' -> 'x' 'c'/0 = fun () -> call 'erlang':'exit'('kill') end
$ replay P P P.2 P.2>P P
1 P erlang:process_flag('trap_exit','true') -> 'false'
2 P erlang:spawn_link('m','c',[]) -> P.2
3 P.2 ends 'kill'
4 P.2>P exit 'kill' -> {'EXIT',P.2,'kill'}
5 P receives {'EXIT',P.2,'kill'}
status 0
----
# Each call of processes and of tables, once.
module 'm' ['main'/0,'c'/0] attributes [] 'main'/0 = fun () -> let <A> = call 'erlang':'spawn'('m','c',[]) in let <B> = call 'erlang':'spawn_link'('m','c',[]) in let <M> = call 'erlang':'spawn_monitor'('m','c',[]) in case M of <{C,Q}> when 'true' -> let <R> = call 'erlang':'monitor'('process',A) in let <F> = call 'erlang':'make_ref'() in do call 'erlang':'process_flag'('trap_exit','true') do call 'erlang':'register'('n',A) do call 'erlang':'whereis'('n') do call 'erlang':'!'('n',{'a',1}) do call 'erlang':'send'(A,'b') do call 'erlang':'link'(A) do call 'erlang':'unlink'(A) do call 'erlang':'unregister'('n') do call 'erlang':'demonitor'(R) do call 'erlang':'demonitor'(F,['flush']) do call 'erlang':'is_process_alive'(B) do call 'erlang':'exit'(B,'bad') do call 'erlang':'exit'(C,'kill') do receive <X> when 'true' -> X after 0 -> 'none' do call 'ets':'new'('t',['named_table','public']) do call 'ets':'insert'('t',[{'a',1},{'b',2}]) do call 'ets':'insert_new'('t',{'c',3}) do call 'ets':'lookup'('t','a') do call 'ets':'member'('t','b') do call 'ets':'lookup_element'('t','c',2) do call 'ets':'first'('t') do call 'ets':'last'('t') do call 'ets':'next'('t','a') do call 'ets':'prev'('t','b') do call 'ets':'tab2list'('t') do call 'ets':'update_counter'('t','a',5) do call 'ets':'update_element'('t','a',{2,'z'}) do call 'ets':'take'('t','b') do call 'ets':'delete'('t','a') do call 'ets':'delete_object'('t',{'c',3}) do call 'ets':'delete_all_objects'('t') do call 'ets':'setopts'('t',{'heir',A,'d'}) do call 'ets':'info'('t','heir') do call 'ets':'give_away'('t',A,'g') let <U> = call 'ets':'new'('u',['bag']) in call 'ets':'delete'(U) end 'c'/0 = fun () -> receive <X> when 'true' -> X after 'infinity' -> 'x' end
$ replay P P P P P P P P P P P P P P P P P P P>P.2 P.2>P P>P.3 P.3>P P P P P P P P P P P P P P P P P P P P P P P P P>P.1 P.1 P.1 P
1 P erlang:spawn('m','c',[]) -> P.1
2 P erlang:spawn_link('m','c',[]) -> P.2
3 P erlang:spawn_monitor('m','c',[]) -> {P.3,#P.3}
4 P erlang:monitor('process',P.1) -> #P.4
5 P erlang:make_ref() -> #P.5
6 P erlang:process_flag('trap_exit','true') -> 'false'
7 P erlang:register('n',P.1) -> 'true'
8 P erlang:whereis('n') -> P.1
9 P erlang:!('n',{'a',1}) -> {'a',1}
10 P erlang:send(P.1,'b') -> 'b'
11 P erlang:link(P.1) -> 'true'
12 P erlang:unlink(P.1) -> 'true'
13 P erlang:unregister('n') -> 'true'
14 P erlang:demonitor(#P.4) -> 'true'
15 P erlang:demonitor(#P.5,['flush']) -> 'true'
16 P erlang:is_process_alive(P.2) -> 'true'
17 P erlang:exit(P.2,'bad') -> 'true'
18 P erlang:exit(P.3,'kill') -> 'true'
19 P>P.2 exit 'bad' -> ends 'bad'
20 P.2>P exit 'bad' -> {'EXIT',P.2,'bad'}
21 P>P.3 exit 'kill' -> ends 'killed'
22 P.3>P down #P.3 -> {'DOWN',#P.3,'process',P.3,'killed'}
23 P receives {'EXIT',P.2,'bad'}
24 P ets:new('t',['named_table','public']) -> 't'
25 P ets:insert('t',[{'a',1},{'b',2}]) -> 'true'
26 P ets:insert_new('t',{'c',3}) -> 'true'
27 P ets:lookup('t','a') -> [{'a',1}]
28 P ets:member('t','b') -> 'true'
29 P ets:lookup_element('t','c',2) -> 3
30 P ets:first('t') -> 'a'
31 P ets:last('t') -> 'a'
32 P ets:next('t','a') -> 'b'
33 P ets:prev('t','b') -> 'c'
34 P ets:tab2list('t') -> [{'a',1},{'b',2},{'c',3}]
35 P ets:update_counter('t','a',5) -> 6
36 P ets:update_element('t','a',{2,'z'}) -> 'true'
37 P ets:take('t','b') -> [{'b',2}]
38 P ets:delete('t','a') -> 'true'
39 P ets:delete_object('t',{'c',3}) -> 'true'
40 P ets:delete_all_objects('t') -> 'true'
41 P ets:setopts('t',{'heir',P.1,'d'}) -> 'true'
42 P ets:info('t','heir') -> P.1
43 P ets:give_away('t',P.1,'g') -> 'true'
44 P ets:new('u',['bag']) -> #P.40
45 P ets:delete(#P.40) -> 'true'
46 P>P.1 brings {'a',1}
47 P.1 receives {'a',1}
48 P.1 ends 'normal'
49 P ends 'normal'
status 0
----
# Two processes add several numbers each in one step, of a default of their own where none is there; a limit sets the second.
module 'm' ['main'/0,'c'/0] attributes [] 'main'/0 = fun () -> do call 'ets':'new'('t',['named_table','public']) do call 'erlang':'spawn'('m','c',[]) do call 'ets':'update_counter'('t','k',[{2,1},{3,1,1,0}],{'d',0,0}) call 'ets':'lookup'('t','k') 'c'/0 = fun () -> call 'ets':'update_counter'('t','k',[{2,10},{3,1,1,0}],{'d',100,0}) end
$ replay P P P P.2 P
1 P ets:new('t',['named_table','public']) -> 't'
2 P erlang:spawn('m','c',[]) -> P.2
3 P ets:update_counter('t','k',[{2,1},{3,1,1,0}],{'d',0,0}) -> [1,1]
4 P.2 ets:update_counter('t','k',[{2,10},{3,1,1,0}],{'d',100,0}) -> [11,0]
5 P ets:lookup('t','k') -> [{'k',11,0}]
status 0
$ replay P P P.2 P P
1 P ets:new('t',['named_table','public']) -> 't'
2 P erlang:spawn('m','c',[]) -> P.2
3 P.2 ets:update_counter('t','k',[{2,10},{3,1,1,0}],{'d',100,0}) -> [110,1]
4 P ets:update_counter('t','k',[{2,1},{3,1,1,0}],{'d',0,0}) -> [111,0]
5 P ets:lookup('t','k') -> [{'k',111,0}]
status 0
$ replay P P P P P.2
1 P ets:new('t',['named_table','public']) -> 't'
2 P erlang:spawn('m','c',[]) -> P.2
3 P ets:update_counter('t','k',[{2,1},{3,1,1,0}],{'d',0,0}) -> [1,1]
4 P ets:lookup('t','k') -> [{'k',1,1}]
5 P.2 ets:update_counter('t','k',[{2,10},{3,1,1,0}],{'d',100,0}) -> [11,0]
status 0
$ replay P P P P P P.2
1 P ets:new('t',['named_table','public']) -> 't'
2 P erlang:spawn('m','c',[]) -> P.2
3 P ets:update_counter('t','k',[{2,1},{3,1,1,0}],{'d',0,0}) -> [1,1]
4 P ets:lookup('t','k') -> [{'k',1,1}]
5 P ends 'normal'
6 P.2 ets:update_counter('t','k',[{2,10},{3,1,1,0}],{'d',100,0}) -> badarg (2 NoTable)
status 0
----
# Several elements change in one step, of an object that is there.
module 'm' ['main'/0,'c'/0] attributes [] 'main'/0 = fun () -> do call 'ets':'new'('t',['named_table','public',{'keypos',2}]) do call 'erlang':'spawn'('m','c',[]) do call 'ets':'insert'('t',{1,'k',1}) call 'ets':'lookup'('t','k') 'c'/0 = fun () -> call 'ets':'update_element'('t','k',[{1,'a'},{3,'b'},{1,'c'}]) end
$ replay P P P.2 P P
1 P ets:new('t',['named_table','public',{'keypos',2}]) -> 't'
2 P erlang:spawn('m','c',[]) -> P.2
3 P.2 ets:update_element('t','k',[{1,'a'},{3,'b'},{1,'c'}]) -> 'false'
4 P ets:insert('t',{1,'k',1}) -> 'true'
5 P ets:lookup('t','k') -> [{1,'k',1}]
status 0
$ replay P P P P.2 P
1 P ets:new('t',['named_table','public',{'keypos',2}]) -> 't'
2 P erlang:spawn('m','c',[]) -> P.2
3 P ets:insert('t',{1,'k',1}) -> 'true'
4 P.2 ets:update_element('t','k',[{1,'a'},{3,'b'},{1,'c'}]) -> 'true'
5 P ets:lookup('t','k') -> [{'c','k','b'}]
status 0
$ replay P P P P P.2
1 P ets:new('t',['named_table','public',{'keypos',2}]) -> 't'
2 P erlang:spawn('m','c',[]) -> P.2
3 P ets:insert('t',{1,'k',1}) -> 'true'
4 P ets:lookup('t','k') -> [{1,'k',1}]
5 P.2 ets:update_element('t','k',[{1,'a'},{3,'b'},{1,'c'}]) -> 'true'
status 0
$ replay P P P P P P.2
1 P ets:new('t',['named_table','public',{'keypos',2}]) -> 't'
2 P erlang:spawn('m','c',[]) -> P.2
3 P ets:insert('t',{1,'k',1}) -> 'true'
4 P ets:lookup('t','k') -> [{1,'k',1}]
5 P ends 'normal'
6 P.2 ets:update_element('t','k',[{1,'a'},{3,'b'},{1,'c'}]) -> badarg (2 NoTable)
status 0
----
# All items of a private table, by another process, which gets the table.
module 'm' ['main'/0,'c'/0] attributes [] 'main'/0 = fun () -> do call 'ets':'new'('t',['named_table','private','bag']) let <C> = call 'erlang':'spawn'('m','c',[]) in do call 'ets':'insert'('t',[{1,1},{1,2}]) call 'ets':'give_away'('t',C,'g') 'c'/0 = fun () -> call 'ets':'info'('t') end
$ replay P P P.2 P
1 P ets:new('t',['named_table','private','bag']) -> 't'
2 P erlang:spawn('m','c',[]) -> P.2
3 P.2 ets:info('t') -> [{'owner',P},{'heir','none'},{'name','t'},{'size',0},{'named_table','true'},{'type','bag'},{'keypos',1},{'protection','private'}]
4 P ets:insert('t',[{1,1},{1,2}]) -> 'true'
status 0
$ replay P P P P.2 P
1 P ets:new('t',['named_table','private','bag']) -> 't'
2 P erlang:spawn('m','c',[]) -> P.2
3 P ets:insert('t',[{1,1},{1,2}]) -> 'true'
4 P.2 ets:info('t') -> [{'owner',P},{'heir','none'},{'name','t'},{'size',2},{'named_table','true'},{'type','bag'},{'keypos',1},{'protection','private'}]
5 P ets:give_away('t',P.2,'g') -> 'true'
status 0
$ replay P P P P P.2
1 P ets:new('t',['named_table','private','bag']) -> 't'
2 P erlang:spawn('m','c',[]) -> P.2
3 P ets:insert('t',[{1,1},{1,2}]) -> 'true'
4 P ets:give_away('t',P.2,'g') -> 'true'
5 P.2 ets:info('t') -> [{'owner',P.2},{'heir','none'},{'name','t'},{'size',2},{'named_table','true'},{'type','bag'},{'keypos',1},{'protection','private'}]
status 0
$ replay P P P P P P>P.2 P.2 P.2
1 P ets:new('t',['named_table','private','bag']) -> 't'
2 P erlang:spawn('m','c',[]) -> P.2
3 P ets:insert('t',[{1,1},{1,2}]) -> 'true'
4 P ets:give_away('t',P.2,'g') -> 'true'
5 P ends 'normal'
6 P>P.2 brings {'ETS-TRANSFER','t',P,'g'}
7 P.2 ets:info('t') -> [{'owner',P.2},{'heir','none'},{'name','t'},{'size',2},{'named_table','true'},{'type','bag'},{'keypos',1},{'protection','private'}]
8 P.2 ends 'normal'
status 0
----
# Where one of several additions is refused nothing is added; who may not write puts no default in.
module 'm' ['main'/0,'c'/0] attributes [] 'main'/0 = fun () -> do call 'ets':'new'('t',['named_table']) let <C> = call 'erlang':'spawn'('m','c',[]) in do call 'ets':'insert'('t',{'k',1,'a'}) do catch call 'ets':'update_counter'('t','k',[{2,1},{3,1}]) do call 'ets':'give_away'('t',C,'g') call 'ets':'lookup'('t','k') 'c'/0 = fun () -> do catch call 'ets':'update_counter'('t','l',{2,1},{'d',5}) call 'ets':'update_counter'('t','l',{2,1,0,9},{}) end
$ replay P P P P P.2 P P
1 P ets:new('t',['named_table']) -> 't'
2 P erlang:spawn('m','c',[]) -> P.2
3 P ets:insert('t',{'k',1,'a'}) -> 'true'
4 P ets:update_counter('t','k',[{2,1},{3,1}]) -> badarg (14 NotInteger, owner P)
5 P.2 ets:update_counter('t','l',{2,1},{'d',5}) -> badarg (5 ProtectedWrite, owner P)
6 P ets:give_away('t',P.2,'g') -> 'true'
7 P ets:lookup('t','k') -> [{'k',1,'a'}]
status 0
$ replay P P P.2 P.2 P P P
1 P ets:new('t',['named_table']) -> 't'
2 P erlang:spawn('m','c',[]) -> P.2
3 P.2 ets:update_counter('t','l',{2,1},{'d',5}) -> badarg (5 ProtectedWrite, owner P)
4 P.2 ets:update_counter('t','l',{2,1,0,9},{}) -> badarg (5 ProtectedWrite, owner P)
5 P ets:insert('t',{'k',1,'a'}) -> 'true'
6 P ets:update_counter('t','k',[{2,1},{3,1}]) -> badarg (14 NotInteger, owner P)
7 P ets:give_away('t',P.2,'g') -> 'true'
status 0
$ replay P P P P P P.2 P.2 P
1 P ets:new('t',['named_table']) -> 't'
2 P erlang:spawn('m','c',[]) -> P.2
3 P ets:insert('t',{'k',1,'a'}) -> 'true'
4 P ets:update_counter('t','k',[{2,1},{3,1}]) -> badarg (14 NotInteger, owner P)
5 P ets:give_away('t',P.2,'g') -> 'true'
6 P.2 ets:update_counter('t','l',{2,1},{'d',5}) -> 6
7 P.2 ets:update_counter('t','l',{2,1,0,9},{}) -> 9
8 P ets:lookup('t','k') -> [{'k',1,'a'}]
status 0
$ replay P P P P P P P P.2 P.2 P.2
1 P ets:new('t',['named_table']) -> 't'
2 P erlang:spawn('m','c',[]) -> P.2
3 P ets:insert('t',{'k',1,'a'}) -> 'true'
4 P ets:update_counter('t','k',[{2,1},{3,1}]) -> badarg (14 NotInteger, owner P)
5 P ets:give_away('t',P.2,'g') -> 'true'
6 P ets:lookup('t','k') -> [{'k',1,'a'}]
7 P ends 'normal'
8 P.2 ets:update_counter('t','l',{2,1},{'d',5}) -> 6
9 P.2 ets:update_counter('t','l',{2,1,0,9},{}) -> 9
10 P.2 ends 'normal'
status 0
----
# Each call of the process dictionary, and what they gave.
module 'm' ['main'/0] attributes [] 'main'/0 = fun () -> let <A> = call 'erlang':'put'('b',1) in let <B> = call 'erlang':'put'('a',2) in let <C> = call 'erlang':'put'('b',3) in let <D> = call 'erlang':'get'() in let <E> = call 'erlang':'get'('a') in let <F> = call 'erlang':'get_keys'() in let <G> = call 'erlang':'get_keys'(3) in let <H> = call 'erlang':'erase'('a') in let <I> = call 'erlang':'erase'() in call 'erlang':'exit'({A,B,C,D,E,F,G,H,I,call 'erlang':'get'()}) end
$ replay P
1 P ends {'undefined','undefined',1,[{'a',2},{'b',3}],2,['a','b'],['b'],2,[{'b',3}],[]}
status 0
----
# A dictionary whose list has as many nodes as a term may have.
module 'm' ['main'/0] attributes [] 'f'/1 = fun (N) -> case N of <0> when 'true' -> call 'erlang':'get'() <M> when 'true' -> do call 'erlang':'put'(M,M) apply 'f'/1(call 'erlang':'-'(M,1)) end 'main'/0 = fun () -> apply 'f'/1(2499) end
$ replay P
1 P ends 'normal'
status 0
----
# One more key.
module 'm' ['main'/0] attributes [] 'f'/1 = fun (N) -> case N of <0> when 'true' -> call 'erlang':'get'() <M> when 'true' -> do call 'erlang':'put'(M,M) apply 'f'/1(call 'erlang':'-'(M,1)) end 'main'/0 = fun () -> apply 'f'/1(2500) end
$ replay P
1 P ends {'system_limit',[]}
status 0
"#;

// The line that reports the outcome on standard error, or nothing.
fn line_of(alloc: Global, outcome: &Result<Verdict, RunFault>) -> Result<Vec<u8>, AllocError> {
    let mut sink = MemorySink::with_room(alloc, 100)?;
    if let Err(fault) = outcome {
        let _ = write_fault(&mut sink, fault);
    }
    Ok(sink.bytes)
}

// The schedule of these words.
fn schedule_of(words: &str) -> Result<&str, Fail> {
    let Some(schedule) = words.strip_prefix("replay") else {
        return Err(Fail::from("a run is a replay"));
    };
    Ok(schedule.trim_start())
}

// What a replay tells; so many bytes are read and written at once.
fn told_by_replay(
    alloc: Global,
    module: &str,
    schedule: &str,
    read: usize,
    write: usize,
) -> Result<Vec<u8>, AllocError> {
    let mut source = MemorySource::in_pieces(module.as_bytes(), read, u64::MAX);
    let mut sink = MemorySink::in_pieces(alloc, 10_000, write)?;
    let outcome = run_replay(alloc, &mut source, schedule, &mut sink);
    let line = line_of(alloc, &outcome)?;
    told(
        alloc,
        sink.bytes.as_slice(),
        status(&outcome),
        line.as_slice(),
    )
}

// Checks a run in one read and one write for each, and byte by byte.
fn run_holds(alloc: Global, module: &str, run: &str) -> Result<(), Fail> {
    let (words, wanted) = parts_of_run(run)?;
    let schedule = schedule_of(words)?;
    for (read, write) in [(10_000, 10_000), (1, 10_000), (10_000, 1)] {
        let got = told_by_replay(alloc, module, schedule, read, write)?;
        same(got.as_slice(), wanted.as_bytes())?;
    }
    Ok(())
}

// Checks the runs of one block.
fn block_holds(alloc: Global, block: &str) -> Result<(), Fail> {
    let (module, runs) = parts_of_block(block)?;
    for run in runs.split("$ ") {
        run_holds(alloc, module, run)?;
    }
    Ok(())
}

// Checks the runs of each block of a transcript.
fn blocks_hold(alloc: Global, blocks: &str) -> Result<(), Fail> {
    for block in blocks.split("----\n") {
        block_holds(alloc, block)?;
    }
    Ok(())
}

#[test]
fn answers_byte_for_byte(rt: HostRuntime) -> Result<(), Fail> {
    block_holds(rt.alloc(), TABLE)?;
    blocks_hold(rt.alloc(), RUNS)
}

#[test]
fn answers_to_references_byte_for_byte(rt: HostRuntime) -> Result<(), Fail> {
    blocks_hold(rt.alloc(), GUARD_RUNS)
}

// At each of the first reads, and at the one that would find the end.
#[test]
fn a_read_that_fails_writes_nothing(rt: HostRuntime) -> Result<(), Fail> {
    let alloc = rt.alloc();
    let (module, words, _) = first_run(TABLE)?;
    let schedule = schedule_of(words)?;
    for reads in [0, 1, 2, 3, 4, module.len() as u64] {
        let mut source = MemorySource::in_pieces(module.as_bytes(), 1, reads);
        let mut sink = MemorySink::with_room(alloc, 1000)?;
        let outcome = run_replay(alloc, &mut source, schedule, &mut sink);
        holds(outcome == Err(RunFault::ReadFailed), "a read has failed")?;
        same(sink.bytes.as_slice(), b"")?;
    }
    Ok(())
}

// Within each line, and between any two.
#[test]
fn a_write_that_fails_leaves_what_was_written(rt: HostRuntime) -> Result<(), Fail> {
    let alloc = rt.alloc();
    let (module, words, wanted) = first_run(TABLE)?;
    let schedule = schedule_of(words)?;
    let Some(lines) = wanted.strip_suffix("status 0\n") else {
        return Err(Fail::from("the whole schedule is replayed"));
    };
    let lines = lines.as_bytes();
    for room in 0..lines.len() + 1 {
        let mut source = MemorySource::new(module.as_bytes());
        let mut sink = MemorySink::with_room(alloc, room)?;
        let outcome = run_replay(alloc, &mut source, schedule, &mut sink);
        let wanted = if room < lines.len() {
            Err(RunFault::Output)
        } else {
            Ok(Verdict::Done)
        };
        holds(outcome == wanted, "the output fails where it has no room")?;
        same(sink.bytes.as_slice(), &lines[..room])?;
    }
    Ok(())
}

// Begins 1,000 processes, each of which makes eight references and ends.
const PROCESSES: &str =
    "module 'm' ['main'/0,'c'/1] attributes [] 'begin'/1 = fun (N) -> case N of <0> when 'true' -> 'ok' <M> when 'true' -> do call 'erlang':'spawn'('m','c',[8]) apply 'begin'/1(call 'erlang':'-'(N,1)) end 'c'/1 = fun (N) -> case N of <0> when 'true' -> 'ok' <M> when 'true' -> do call 'erlang':'make_ref'() apply 'c'/1(call 'erlang':'-'(N,1)) end 'main'/0 = fun () -> apply 'begin'/1(1000) end";

// The turns of the first process, and those of each other to its end.
fn all_turns(alloc: Global) -> Result<String, AllocError> {
    let mut turns = String::from_str(alloc, "P ".repeat(alloc, 1_001)?.as_str())?;
    for number in 1..1_001 {
        let turn = format!(in alloc; "P.{number} ")?;
        turns.push_str(turn.repeat(alloc, 9)?.as_str())?;
    }
    let _ = turns.pop();
    Ok(turns)
}

#[test]
fn a_replay_has_1000_processes_and_10001_events(rt: HostRuntime) -> Result<(), Fail> {
    let alloc = rt.alloc();
    let turns = all_turns(alloc)?;
    let mut source = MemorySource::new(PROCESSES.as_bytes());
    let mut sink = MemorySink::with_room(alloc, 1_000_000)?;
    let outcome = run_replay(alloc, &mut source, turns.as_str(), &mut sink);
    holds(
        outcome == Ok(Verdict::Done),
        "the whole schedule is replayed",
    )?;
    let last = b"\n10000 P.1000 erlang:make_ref() -> #P.1000.8\n10001 P.1000 ends 'normal'\n";
    holds(sink.bytes.ends_with(last), "the last lines are written")
}
