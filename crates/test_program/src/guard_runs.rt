// Transcripts of messages that references guard: aliases, timers and watches by name, and what comes too late.

/// Whole runs, as those of the other replays.
pub(crate) const GUARD_RUNS: &str =
    r#"# An answer by an alias that ends with its watch: in time, too late when it comes, and too late when it is sent.
module 'm' ['main'/0,'c'/0] attributes [] 'main'/0 = fun () -> let <C> = call 'erlang':'spawn'('m','c',[]) in let <R> = call 'erlang':'monitor'('process',C,[{'alias','demonitor'}]) in do call 'erlang':'!'(C,R) do call 'erlang':'demonitor'(R) receive <X> when 'true' -> X after 0 -> 'late' 'c'/0 = fun () -> receive <A> when 'true' -> do call 'erlang':'!'(A,'x') call 'erlang':'!'(A,'y') after 'infinity' -> 'x' end
$ replay P P P P>P.1 P.1 P.1 P.1>P P P
1 P erlang:spawn('m','c',[]) -> P.1
2 P erlang:monitor('process',P.1,[{'alias','demonitor'}]) -> #P.2
3 P erlang:!(P.1,#P.2) -> #P.2
4 P>P.1 brings #P.2
5 P.1 receives #P.2
6 P.1 erlang:!(#P.2,'x') -> 'x'
7 P.1>P brings 'x' by alias #P.2
8 P erlang:demonitor(#P.2) -> 'true'
9 P receives 'x'
status 0
$ replay P P P P>P.1 P.1 P.1 P P.1>P P
1 P erlang:spawn('m','c',[]) -> P.1
2 P erlang:monitor('process',P.1,[{'alias','demonitor'}]) -> #P.2
3 P erlang:!(P.1,#P.2) -> #P.2
4 P>P.1 brings #P.2
5 P.1 receives #P.2
6 P.1 erlang:!(#P.2,'x') -> 'x'
7 P erlang:demonitor(#P.2) -> 'true'
8 P.1>P brings 'x' by alias #P.2 -> dropped
9 P times out
status 0
$ replay P P P P>P.1 P.1 P P.1 P
1 P erlang:spawn('m','c',[]) -> P.1
2 P erlang:monitor('process',P.1,[{'alias','demonitor'}]) -> #P.2
3 P erlang:!(P.1,#P.2) -> #P.2
4 P>P.1 brings #P.2
5 P.1 receives #P.2
6 P erlang:demonitor(#P.2) -> 'true'
7 P.1 erlang:!(#P.2,'x') -> 'x'
8 P times out
status 0
$ replay P P P P>P.1 P.1 P P.1 P.1>P
1 P erlang:spawn('m','c',[]) -> P.1
2 P erlang:monitor('process',P.1,[{'alias','demonitor'}]) -> #P.2
3 P erlang:!(P.1,#P.2) -> #P.2
4 P>P.1 brings #P.2
5 P.1 receives #P.2
6 P erlang:demonitor(#P.2) -> 'true'
7 P.1 erlang:!(#P.2,'x') -> 'x'
status 2
replay: 1 NotEnabled at step 8
$ replay P P P P>P.1 P.1 P.1 P.1 P.1>P P P.1>P P
1 P erlang:spawn('m','c',[]) -> P.1
2 P erlang:monitor('process',P.1,[{'alias','demonitor'}]) -> #P.2
3 P erlang:!(P.1,#P.2) -> #P.2
4 P>P.1 brings #P.2
5 P.1 receives #P.2
6 P.1 erlang:!(#P.2,'x') -> 'x'
7 P.1 erlang:!(#P.2,'y') -> 'y'
8 P.1>P brings 'x' by alias #P.2
9 P erlang:demonitor(#P.2) -> 'true'
10 P.1>P brings 'y' by alias #P.2 -> dropped
11 P receives 'x'
status 0
----
# An alias that its watch does not end, but `unalias/1`.
module 'm' ['main'/0,'c'/0] attributes [] 'main'/0 = fun () -> let <C> = call 'erlang':'spawn'('m','c',[]) in let <R> = call 'erlang':'monitor'('process',C,[{'alias','explicit_unalias'}]) in do call 'erlang':'!'(C,R) do call 'erlang':'demonitor'(R) do call 'erlang':'unalias'(R) receive <X> when 'true' -> X after 0 -> 'late' 'c'/0 = fun () -> receive <A> when 'true' -> do call 'erlang':'!'(A,'x') call 'erlang':'!'(A,'y') after 'infinity' -> 'x' end
$ replay P P P P>P.1 P.1 P P.1 P.1>P P P
1 P erlang:spawn('m','c',[]) -> P.1
2 P erlang:monitor('process',P.1,[{'alias','explicit_unalias'}]) -> #P.2
3 P erlang:!(P.1,#P.2) -> #P.2
4 P>P.1 brings #P.2
5 P.1 receives #P.2
6 P erlang:demonitor(#P.2) -> 'true'
7 P.1 erlang:!(#P.2,'x') -> 'x'
8 P.1>P brings 'x' by alias #P.2
9 P erlang:unalias(#P.2) -> 'true'
10 P receives 'x'
status 0
$ replay P P P P>P.1 P.1 P P.1 P P.1>P P
1 P erlang:spawn('m','c',[]) -> P.1
2 P erlang:monitor('process',P.1,[{'alias','explicit_unalias'}]) -> #P.2
3 P erlang:!(P.1,#P.2) -> #P.2
4 P>P.1 brings #P.2
5 P.1 receives #P.2
6 P erlang:demonitor(#P.2) -> 'true'
7 P.1 erlang:!(#P.2,'x') -> 'x'
8 P erlang:unalias(#P.2) -> 'true'
9 P.1>P brings 'x' by alias #P.2 -> dropped
10 P times out
status 0
$ replay P P P P>P.1 P.1 P P P.1 P
1 P erlang:spawn('m','c',[]) -> P.1
2 P erlang:monitor('process',P.1,[{'alias','explicit_unalias'}]) -> #P.2
3 P erlang:!(P.1,#P.2) -> #P.2
4 P>P.1 brings #P.2
5 P.1 receives #P.2
6 P erlang:demonitor(#P.2) -> 'true'
7 P erlang:unalias(#P.2) -> 'true'
8 P.1 erlang:!(#P.2,'x') -> 'x'
9 P times out
status 0
$ replay P P P P>P.1 P.1 P.1 P.1 P.1 P.1>P P.1>P P.1>P P P P
1 P erlang:spawn('m','c',[]) -> P.1
2 P erlang:monitor('process',P.1,[{'alias','explicit_unalias'}]) -> #P.2
3 P erlang:!(P.1,#P.2) -> #P.2
4 P>P.1 brings #P.2
5 P.1 receives #P.2
6 P.1 erlang:!(#P.2,'x') -> 'x'
7 P.1 erlang:!(#P.2,'y') -> 'y'
8 P.1 ends 'normal'
9 P.1>P brings 'x' by alias #P.2
10 P.1>P brings 'y' by alias #P.2
11 P.1>P down #P.2 -> {'DOWN',#P.2,'process',P.1,'normal'}
12 P erlang:demonitor(#P.2) -> 'true'
13 P erlang:unalias(#P.2) -> 'true'
14 P receives 'x'
status 0
$ replay P P P P>P.1 P.1 P.1 P.1 P.1 P P.1>P P.1>P P.1>P P P
1 P erlang:spawn('m','c',[]) -> P.1
2 P erlang:monitor('process',P.1,[{'alias','explicit_unalias'}]) -> #P.2
3 P erlang:!(P.1,#P.2) -> #P.2
4 P>P.1 brings #P.2
5 P.1 receives #P.2
6 P.1 erlang:!(#P.2,'x') -> 'x'
7 P.1 erlang:!(#P.2,'y') -> 'y'
8 P.1 ends 'normal'
9 P erlang:demonitor(#P.2) -> 'true'
10 P.1>P brings 'x' by alias #P.2
11 P.1>P brings 'y' by alias #P.2
12 P.1>P down #P.2 -> dropped
13 P erlang:unalias(#P.2) -> 'true'
14 P receives 'x'
status 0
----
# Of two answers by an alias that one ends the first comes, and the watch tells nothing more.
module 'm' ['main'/0,'c'/0] attributes [] 'main'/0 = fun () -> let <C> = call 'erlang':'spawn'('m','c',[]) in let <R> = call 'erlang':'monitor'('process',C,[{'alias','reply_demonitor'}]) in do call 'erlang':'!'(C,R) receive <X> when 'true' -> X after 'infinity' -> 'x' 'c'/0 = fun () -> receive <A> when 'true' -> do call 'erlang':'!'(A,'x') call 'erlang':'!'(A,'y') after 'infinity' -> 'x' end
$ replay P P P P>P.1 P.1 P.1 P.1 P.1>P P.1>P P.1 P
1 P erlang:spawn('m','c',[]) -> P.1
2 P erlang:monitor('process',P.1,[{'alias','reply_demonitor'}]) -> #P.2
3 P erlang:!(P.1,#P.2) -> #P.2
4 P>P.1 brings #P.2
5 P.1 receives #P.2
6 P.1 erlang:!(#P.2,'x') -> 'x'
7 P.1 erlang:!(#P.2,'y') -> 'y'
8 P.1>P brings 'x' by alias #P.2
9 P.1>P brings 'y' by alias #P.2 -> dropped
10 P.1 ends 'normal'
11 P receives 'x'
status 0
$ replay P P P P>P.1 P.1 P.1 P.1 P.1 P.1>P P.1>P P.1>P P
1 P erlang:spawn('m','c',[]) -> P.1
2 P erlang:monitor('process',P.1,[{'alias','reply_demonitor'}]) -> #P.2
3 P erlang:!(P.1,#P.2) -> #P.2
4 P>P.1 brings #P.2
5 P.1 receives #P.2
6 P.1 erlang:!(#P.2,'x') -> 'x'
7 P.1 erlang:!(#P.2,'y') -> 'y'
8 P.1 ends 'normal'
9 P.1>P brings 'x' by alias #P.2
10 P.1>P brings 'y' by alias #P.2 -> dropped
11 P.1>P down #P.2 -> dropped
12 P receives 'x'
status 0
$ replay P P P P>P.1 P.1 P.1 P.1>P P.1 P.1 P
1 P erlang:spawn('m','c',[]) -> P.1
2 P erlang:monitor('process',P.1,[{'alias','reply_demonitor'}]) -> #P.2
3 P erlang:!(P.1,#P.2) -> #P.2
4 P>P.1 brings #P.2
5 P.1 receives #P.2
6 P.1 erlang:!(#P.2,'x') -> 'x'
7 P.1>P brings 'x' by alias #P.2
8 P.1 erlang:!(#P.2,'y') -> 'y'
9 P.1 ends 'normal'
10 P receives 'x'
status 0
$ replay P P P P>P.1 P.1 P.1 P.1>P P.1 P.1>P
1 P erlang:spawn('m','c',[]) -> P.1
2 P erlang:monitor('process',P.1,[{'alias','reply_demonitor'}]) -> #P.2
3 P erlang:!(P.1,#P.2) -> #P.2
4 P>P.1 brings #P.2
5 P.1 receives #P.2
6 P.1 erlang:!(#P.2,'x') -> 'x'
7 P.1>P brings 'x' by alias #P.2
8 P.1 erlang:!(#P.2,'y') -> 'y'
status 2
replay: 1 NotEnabled at step 9
----
# The message of a watch ends the alias that was made with it.
module 'm' ['main'/0,'c'/0,'d'/1] attributes [] 'main'/0 = fun () -> let <C> = call 'erlang':'spawn'('m','c',[]) in let <R> = call 'erlang':'monitor'('process',C,[{'alias','demonitor'}]) in do call 'erlang':'spawn'('m','d',[R]) receive <X> when 'true' -> X after 'infinity' -> 'x' 'c'/0 = fun () -> 'ok' 'd'/1 = fun (R) -> call 'erlang':'!'(R,'x') end
$ replay P P P P.1 P.3 P.3>P P.1>P P
1 P erlang:spawn('m','c',[]) -> P.1
2 P erlang:monitor('process',P.1,[{'alias','demonitor'}]) -> #P.2
3 P erlang:spawn('m','d',[#P.2]) -> P.3
4 P.1 ends 'normal'
5 P.3 erlang:!(#P.2,'x') -> 'x'
6 P.3>P brings 'x' by alias #P.2
7 P.1>P down #P.2 -> {'DOWN',#P.2,'process',P.1,'normal'}
8 P receives 'x'
status 0
$ replay P P P P.1 P.3 P.1>P P.3>P P
1 P erlang:spawn('m','c',[]) -> P.1
2 P erlang:monitor('process',P.1,[{'alias','demonitor'}]) -> #P.2
3 P erlang:spawn('m','d',[#P.2]) -> P.3
4 P.1 ends 'normal'
5 P.3 erlang:!(#P.2,'x') -> 'x'
6 P.1>P down #P.2 -> {'DOWN',#P.2,'process',P.1,'normal'}
7 P.3>P brings 'x' by alias #P.2 -> dropped
8 P receives {'DOWN',#P.2,'process',P.1,'normal'}
status 0
$ replay P P P P.1 P.1>P P.3 P
1 P erlang:spawn('m','c',[]) -> P.1
2 P erlang:monitor('process',P.1,[{'alias','demonitor'}]) -> #P.2
3 P erlang:spawn('m','d',[#P.2]) -> P.3
4 P.1 ends 'normal'
5 P.1>P down #P.2 -> {'DOWN',#P.2,'process',P.1,'normal'}
6 P.3 erlang:!(#P.2,'x') -> 'x'
7 P receives {'DOWN',#P.2,'process',P.1,'normal'}
status 0
$ replay P P P P.1 P.1>P P.3 P.3>P
1 P erlang:spawn('m','c',[]) -> P.1
2 P erlang:monitor('process',P.1,[{'alias','demonitor'}]) -> #P.2
3 P erlang:spawn('m','d',[#P.2]) -> P.3
4 P.1 ends 'normal'
5 P.1>P down #P.2 -> {'DOWN',#P.2,'process',P.1,'normal'}
6 P.3 erlang:!(#P.2,'x') -> 'x'
status 2
replay: 1 NotEnabled at step 7
----
# Messages by aliases of one's own, one by an alias that a message ends, and none by what is no alias.
module 'm' ['main'/0] attributes [] 'main'/0 = fun () -> let <A> = call 'erlang':'alias'() in let <B> = call 'erlang':'alias'(['reply']) in let <C> = call 'erlang':'make_ref'() in do call 'erlang':'!'(A,'a') do call 'erlang':'!'(B,'b') do call 'erlang':'send'(B,'c') do call 'erlang':'!'(C,'d') do receive <X> when 'true' -> X after 0 -> 'none' do receive <Y> when 'true' -> Y after 0 -> 'none' receive <Z> when 'true' -> Z after 0 -> 'none' end
$ replay P P P P P P P P>P P>P P>P P P P P
1 P erlang:alias() -> #P.1
2 P erlang:alias(['reply']) -> #P.2
3 P erlang:make_ref() -> #P.3
4 P erlang:!(#P.1,'a') -> 'a'
5 P erlang:!(#P.2,'b') -> 'b'
6 P erlang:send(#P.2,'c') -> 'c'
7 P erlang:!(#P.3,'d') -> 'd'
8 P>P brings 'a' by alias #P.1
9 P>P brings 'b' by alias #P.2
10 P>P brings 'c' by alias #P.2 -> dropped
11 P receives 'a'
12 P receives 'b'
13 P times out
14 P ends 'normal'
status 0
$ replay P P P P P>P P P>P P P P P P P
1 P erlang:alias() -> #P.1
2 P erlang:alias(['reply']) -> #P.2
3 P erlang:make_ref() -> #P.3
4 P erlang:!(#P.1,'a') -> 'a'
5 P>P brings 'a' by alias #P.1
6 P erlang:!(#P.2,'b') -> 'b'
7 P>P brings 'b' by alias #P.2
8 P erlang:send(#P.2,'c') -> 'c'
9 P erlang:!(#P.3,'d') -> 'd'
10 P receives 'a'
11 P receives 'b'
12 P times out
13 P ends 'normal'
status 0
$ replay P P P P P P P P>P P P P>P P P>P P
1 P erlang:alias() -> #P.1
2 P erlang:alias(['reply']) -> #P.2
3 P erlang:make_ref() -> #P.3
4 P erlang:!(#P.1,'a') -> 'a'
5 P erlang:!(#P.2,'b') -> 'b'
6 P erlang:send(#P.2,'c') -> 'c'
7 P erlang:!(#P.3,'d') -> 'd'
8 P>P brings 'a' by alias #P.1
9 P receives 'a'
10 P times out
11 P>P brings 'b' by alias #P.2
12 P receives 'b'
13 P>P brings 'c' by alias #P.2 -> dropped
14 P ends 'normal'
status 0
$ replay P P P P P P P P P P P
1 P erlang:alias() -> #P.1
2 P erlang:alias(['reply']) -> #P.2
3 P erlang:make_ref() -> #P.3
4 P erlang:!(#P.1,'a') -> 'a'
5 P erlang:!(#P.2,'b') -> 'b'
6 P erlang:send(#P.2,'c') -> 'c'
7 P erlang:!(#P.3,'d') -> 'd'
8 P times out
9 P times out
10 P times out
11 P ends 'normal'
status 0
----
# An alias of one's own may end before its message comes. `is_process_alive/1` of oneself waits for it.
module 'm' ['main'/0] attributes [] 'main'/0 = fun () -> let <A> = call 'erlang':'alias'() in do call 'erlang':'!'(A,'x') do call 'erlang':'unalias'(A) do call 'erlang':'is_process_alive'(call 'erlang':'self'()) receive <X> when 'true' -> X after 0 -> 'none' end
$ replay P P P P>P P P P
1 P erlang:alias() -> #P.1
2 P erlang:!(#P.1,'x') -> 'x'
3 P erlang:unalias(#P.1) -> 'true'
4 P>P brings 'x' by alias #P.1 -> dropped
5 P erlang:is_process_alive(P) -> 'true'
6 P times out
7 P ends 'normal'
status 0
$ replay P P P>P P P P P
1 P erlang:alias() -> #P.1
2 P erlang:!(#P.1,'x') -> 'x'
3 P>P brings 'x' by alias #P.1
4 P erlang:unalias(#P.1) -> 'true'
5 P erlang:is_process_alive(P) -> 'true'
6 P receives 'x'
7 P ends 'normal'
status 0
$ replay P P P P>P P P P P>P
1 P erlang:alias() -> #P.1
2 P erlang:!(#P.1,'x') -> 'x'
3 P erlang:unalias(#P.1) -> 'true'
4 P>P brings 'x' by alias #P.1 -> dropped
5 P erlang:is_process_alive(P) -> 'true'
6 P times out
7 P ends 'normal'
status 2
replay: 1 NotEnabled at step 8
$ replay P P P P
1 P erlang:alias() -> #P.1
2 P erlang:!(#P.1,'x') -> 'x'
3 P erlang:unalias(#P.1) -> 'true'
status 2
replay: 1 NotEnabled at step 4
----
# With a watch of oneself no alias begins.
module 'm' ['main'/0] attributes [] 'main'/0 = fun () -> let <R> = call 'erlang':'monitor'('process',call 'erlang':'self'(),[{'alias','explicit_unalias'}]) in do call 'erlang':'!'(R,'x') do call 'erlang':'unalias'(R) receive <X> when 'true' -> X after 0 -> 'none' end
$ replay P P P P P
1 P erlang:monitor('process',P,[{'alias','explicit_unalias'}]) -> #P.1
2 P erlang:!(#P.1,'x') -> 'x'
3 P erlang:unalias(#P.1) -> 'false'
4 P times out
5 P ends 'normal'
status 0
----
# A timer that is read and cancelled, and comes at any time.
module 'm' ['main'/0] attributes [] 'main'/0 = fun () -> let <T> = call 'erlang':'start_timer'(5,call 'erlang':'self'(),'x') in let <N> = call 'erlang':'read_timer'(T) in let <M> = call 'erlang':'cancel_timer'(T) in let <X> = receive <X> when 'true' -> X after 0 -> 'none' in call 'erlang':'exit'({N,M,X}) end
$ replay P P P P P
1 P erlang:start_timer(5,P,'x') -> #P.1
2 P erlang:read_timer(#P.1) -> 5
3 P erlang:cancel_timer(#P.1) -> 5
4 P times out
5 P ends {5,5,'none'}
status 0
$ replay P P.1>P P P P P
1 P erlang:start_timer(5,P,'x') -> #P.1
2 P.1>P brings {'timeout',#P.1,'x'} by timer #P.1
3 P erlang:read_timer(#P.1) -> 'false'
4 P erlang:cancel_timer(#P.1) -> 'false'
5 P receives {'timeout',#P.1,'x'}
6 P ends {'false','false',{'timeout',#P.1,'x'}}
status 0
$ replay P P P.1>P P P P
1 P erlang:start_timer(5,P,'x') -> #P.1
2 P erlang:read_timer(#P.1) -> 5
3 P.1>P brings {'timeout',#P.1,'x'} by timer #P.1
4 P erlang:cancel_timer(#P.1) -> 'false'
5 P receives {'timeout',#P.1,'x'}
6 P ends {5,'false',{'timeout',#P.1,'x'}}
status 0
$ replay P P P P.1>P P P
1 P erlang:start_timer(5,P,'x') -> #P.1
2 P erlang:read_timer(#P.1) -> 5
3 P erlang:cancel_timer(#P.1) -> 5
4 P.1>P brings {'timeout',#P.1,'x'} by timer #P.1 -> dropped
5 P times out
6 P ends {5,5,'none'}
status 0
$ replay P P P P P P.1>P
1 P erlang:start_timer(5,P,'x') -> #P.1
2 P erlang:read_timer(#P.1) -> 5
3 P erlang:cancel_timer(#P.1) -> 5
4 P times out
5 P ends {5,5,'none'}
status 2
replay: 1 NotEnabled at step 6
----
# Timers for another process: one is cancelled, one is read, and where that process has ended both are over.
module 'm' ['main'/0,'c'/0] attributes [] 'main'/0 = fun () -> let <C> = call 'erlang':'spawn'('m','c',[]) in let <T> = call 'erlang':'send_after'(7,C,'x') in let <N> = call 'erlang':'cancel_timer'(T) in let <U> = call 'erlang':'send_after'(8,C,'y') in call 'erlang':'exit'({N,call 'erlang':'read_timer'(U)}) 'c'/0 = fun () -> receive <X> when 'true' -> X after 0 -> 'none' end
$ replay P P P P P P
1 P erlang:spawn('m','c',[]) -> P.1
2 P erlang:send_after(7,P.1,'x') -> #P.2
3 P erlang:cancel_timer(#P.2) -> 7
4 P erlang:send_after(8,P.1,'y') -> #P.4
5 P erlang:read_timer(#P.4) -> 8
6 P ends {7,8}
status 0
$ replay P P P.2>P.1 P.1 P P P P
1 P erlang:spawn('m','c',[]) -> P.1
2 P erlang:send_after(7,P.1,'x') -> #P.2
3 P.2>P.1 brings 'x' by timer #P.2
4 P.1 receives 'x'
5 P erlang:cancel_timer(#P.2) -> 'false'
6 P erlang:send_after(8,P.1,'y') -> #P.4
7 P erlang:read_timer(#P.4) -> 8
8 P ends {'false',8}
status 0
$ replay P P P.1 P.1 P P P P
1 P erlang:spawn('m','c',[]) -> P.1
2 P erlang:send_after(7,P.1,'x') -> #P.2
3 P.1 times out
4 P.1 ends 'normal'
5 P erlang:cancel_timer(#P.2) -> 'false'
6 P erlang:send_after(8,P.1,'y') -> #P.4
7 P erlang:read_timer(#P.4) -> 'false'
8 P ends {'false','false'}
status 0
$ replay P P P P P.4>P.1 P.1 P P
1 P erlang:spawn('m','c',[]) -> P.1
2 P erlang:send_after(7,P.1,'x') -> #P.2
3 P erlang:cancel_timer(#P.2) -> 7
4 P erlang:send_after(8,P.1,'y') -> #P.4
5 P.4>P.1 brings 'y' by timer #P.4
6 P.1 receives 'y'
7 P erlang:read_timer(#P.4) -> 'false'
8 P ends {7,'false'}
status 0
$ replay P P P P.2>P.1 P P.4>P.1 P.1
1 P erlang:spawn('m','c',[]) -> P.1
2 P erlang:send_after(7,P.1,'x') -> #P.2
3 P erlang:cancel_timer(#P.2) -> 7
4 P.2>P.1 brings 'x' by timer #P.2 -> dropped
5 P erlang:send_after(8,P.1,'y') -> #P.4
6 P.4>P.1 brings 'y' by timer #P.4
7 P.1 receives 'y'
status 0
$ replay P P P P P P P.4>P.1 P.2>P.1 P.1
1 P erlang:spawn('m','c',[]) -> P.1
2 P erlang:send_after(7,P.1,'x') -> #P.2
3 P erlang:cancel_timer(#P.2) -> 7
4 P erlang:send_after(8,P.1,'y') -> #P.4
5 P erlang:read_timer(#P.4) -> 8
6 P ends {7,8}
7 P.4>P.1 brings 'y' by timer #P.4
8 P.2>P.1 brings 'x' by timer #P.2 -> dropped
9 P.1 receives 'y'
status 0
----
# Two timers and a message come in any order.
module 'm' ['main'/0,'c'/1] attributes [] 'main'/0 = fun () -> do call 'erlang':'send_after'(1,call 'erlang':'self'(),'a') do call 'erlang':'send_after'(2,call 'erlang':'self'(),'b') do call 'erlang':'spawn'('m','c',[call 'erlang':'self'()]) do receive <X> when 'true' -> X after 'infinity' -> 'x' do receive <Y> when 'true' -> Y after 'infinity' -> 'x' receive <Z> when 'true' -> Z after 'infinity' -> 'x' 'c'/1 = fun (P) -> call 'erlang':'!'(P,'c') end
$ replay P P P P.3 P.1>P P.2>P P.3>P P
1 P erlang:send_after(1,P,'a') -> #P.1
2 P erlang:send_after(2,P,'b') -> #P.2
3 P erlang:spawn('m','c',[P]) -> P.3
4 P.3 erlang:!(P,'c') -> 'c'
5 P.1>P brings 'a' by timer #P.1
6 P.2>P brings 'b' by timer #P.2
7 P.3>P brings 'c'
8 P receives 'a'
status 0
$ replay P P P P.3 P.2>P P.3>P P.1>P P P
1 P erlang:send_after(1,P,'a') -> #P.1
2 P erlang:send_after(2,P,'b') -> #P.2
3 P erlang:spawn('m','c',[P]) -> P.3
4 P.3 erlang:!(P,'c') -> 'c'
5 P.2>P brings 'b' by timer #P.2
6 P.3>P brings 'c'
7 P.1>P brings 'a' by timer #P.1
8 P receives 'b'
9 P receives 'c'
status 0
$ replay P P P P.3 P.3>P P.2>P P P.1>P P P
1 P erlang:send_after(1,P,'a') -> #P.1
2 P erlang:send_after(2,P,'b') -> #P.2
3 P erlang:spawn('m','c',[P]) -> P.3
4 P.3 erlang:!(P,'c') -> 'c'
5 P.3>P brings 'c'
6 P.2>P brings 'b' by timer #P.2
7 P receives 'c'
8 P.1>P brings 'a' by timer #P.1
9 P receives 'b'
10 P receives 'a'
status 0
$ replay P P P P.3 P.2>P P.2>P
1 P erlang:send_after(1,P,'a') -> #P.1
2 P erlang:send_after(2,P,'b') -> #P.2
3 P erlang:spawn('m','c',[P]) -> P.3
4 P.3 erlang:!(P,'c') -> 'c'
5 P.2>P brings 'b' by timer #P.2
status 2
replay: 1 NotEnabled at step 6
----
# What is refused of aliases and timers.
module 'm' ['main'/0] attributes [] 'main'/0 = fun () -> do catch call 'erlang':'alias'(['explicit_unalias'|'x']) do catch call 'erlang':'alias'('reply') do catch call 'erlang':'alias'([{'alias','reply'}]) do catch call 'erlang':'unalias'('a') do catch call 'erlang':'monitor'('process',call 'erlang':'self'(),[{'tag','t'}]) do catch call 'erlang':'monitor'('process',call 'erlang':'self'(),[{'alias','reply'}]) do catch call 'erlang':'monitor'('process',call 'erlang':'self'(),'x') do catch call 'erlang':'monitor'('port',call 'erlang':'self'(),[]) do catch call 'erlang':'monitor'('process',2,[]) do catch call 'erlang':'start_timer'(-1,call 'erlang':'self'(),'x') do catch call 'erlang':'start_timer'('a',call 'erlang':'self'(),'x') do catch call 'erlang':'send_after'(1,'n','x') do catch call 'erlang':'send_after'(1,2,'x') do catch call 'erlang':'cancel_timer'('t') do catch call 'erlang':'read_timer'(call 'erlang':'self'()) 'ok' end
$ replay P P P P P P P P P P P P P P P P
1 P erlang:alias(['explicit_unalias'|'x']) -> badarg
2 P erlang:alias('reply') -> badarg
3 P erlang:alias([{'alias','reply'}]) -> badarg
4 P erlang:unalias('a') -> badarg
5 P erlang:monitor('process',P,[{'tag','t'}]) -> badarg
6 P erlang:monitor('process',P,[{'alias','reply'}]) -> badarg
7 P erlang:monitor('process',P,'x') -> badarg
8 P erlang:monitor('port',P,[]) -> badarg
9 P erlang:monitor('process',2,[]) -> badarg
10 P erlang:start_timer(-1,P,'x') -> badarg
11 P erlang:start_timer('a',P,'x') -> badarg
12 P erlang:send_after(1,'n','x') -> badarg
13 P erlang:send_after(1,2,'x') -> badarg
14 P erlang:cancel_timer('t') -> badarg
15 P erlang:read_timer(P) -> badarg
16 P ends 'normal'
status 0
----
# An alias is no timer, a timer no alias, and another reference neither.
module 'm' ['main'/0] attributes [] 'main'/0 = fun () -> let <R> = call 'erlang':'make_ref'() in let <A> = call 'erlang':'alias'(['reply','explicit_unalias']) in let <T> = call 'erlang':'start_timer'(0,call 'erlang':'self'(),'x') in do call 'erlang':'unalias'(R) do call 'erlang':'cancel_timer'(R) do call 'erlang':'read_timer'(A) do call 'erlang':'unalias'(T) do call 'erlang':'!'(T,'y') do call 'erlang':'unalias'(A) call 'erlang':'unalias'(A) end
$ replay P P P P P P P P P P P
1 P erlang:make_ref() -> #P.1
2 P erlang:alias(['reply','explicit_unalias']) -> #P.2
3 P erlang:start_timer(0,P,'x') -> #P.3
4 P erlang:unalias(#P.1) -> 'false'
5 P erlang:cancel_timer(#P.1) -> 'false'
6 P erlang:read_timer(#P.2) -> 'false'
7 P erlang:unalias(#P.3) -> 'false'
8 P erlang:!(#P.3,'y') -> 'y'
9 P erlang:unalias(#P.2) -> 'true'
10 P erlang:unalias(#P.2) -> 'false'
11 P ends 'normal'
status 0
----
# A watch by a name is one of the process that has it then: its message has the name, and comes from the watcher where nobody has it.
module 'm' ['main'/0,'c'/0] attributes [] 'main'/0 = fun () -> let <C> = call 'erlang':'spawn'('m','c',[]) in do call 'erlang':'register'('n',C) let <R> = call 'erlang':'monitor'('process','n') in receive <X> when 'true' -> X after 0 -> 'late' 'c'/0 = fun () -> 'ok' end
$ replay P P P P.1 P.1>P P
1 P erlang:spawn('m','c',[]) -> P.1
2 P erlang:register('n',P.1) -> 'true'
3 P erlang:monitor('process','n') -> #P.3
4 P.1 ends 'normal'
5 P.1>P down #P.3 -> {'DOWN',#P.3,'process',{'n','nonode@nohost'},'normal'}
6 P receives {'DOWN',#P.3,'process',{'n','nonode@nohost'},'normal'}
status 0
$ replay P P P P.1 P P.1>P
1 P erlang:spawn('m','c',[]) -> P.1
2 P erlang:register('n',P.1) -> 'true'
3 P erlang:monitor('process','n') -> #P.3
4 P.1 ends 'normal'
5 P times out
6 P.1>P down #P.3 -> {'DOWN',#P.3,'process',{'n','nonode@nohost'},'normal'}
status 0
$ replay P P P.1 P P>P P
1 P erlang:spawn('m','c',[]) -> P.1
2 P erlang:register('n',P.1) -> 'true'
3 P.1 ends 'normal'
4 P erlang:monitor('process','n') -> #P.3
5 P>P down #P.3 -> {'DOWN',#P.3,'process',{'n','nonode@nohost'},'noproc'}
6 P receives {'DOWN',#P.3,'process',{'n','nonode@nohost'},'noproc'}
status 0
$ replay P P P.1 P P
1 P erlang:spawn('m','c',[]) -> P.1
2 P erlang:register('n',P.1) -> 'true'
3 P.1 ends 'normal'
4 P erlang:monitor('process','n') -> #P.3
5 P times out
status 0
$ replay P P P.1 P P.1>P
1 P erlang:spawn('m','c',[]) -> P.1
2 P erlang:register('n',P.1) -> 'true'
3 P.1 ends 'normal'
4 P erlang:monitor('process','n') -> #P.3
status 2
replay: 1 NotEnabled at step 5
----
# With the message of a name that nobody has an alias ends that was made with the watch.
module 'm' ['main'/0] attributes [] 'main'/0 = fun () -> let <R> = call 'erlang':'monitor'('process','n',[{'alias','demonitor'}]) in do call 'erlang':'!'(R,'x') do call 'erlang':'demonitor'(R) receive <X> when 'true' -> X after 0 -> 'none' end
$ replay P P P>P P>P P P P
1 P erlang:monitor('process','n',[{'alias','demonitor'}]) -> #P.1
2 P erlang:!(#P.1,'x') -> 'x'
3 P>P down #P.1 -> {'DOWN',#P.1,'process',{'n','nonode@nohost'},'noproc'}
4 P>P brings 'x' by alias #P.1 -> dropped
5 P erlang:demonitor(#P.1) -> 'true'
6 P receives {'DOWN',#P.1,'process',{'n','nonode@nohost'},'noproc'}
7 P ends 'normal'
status 0
$ replay P P P P>P P>P P
1 P erlang:monitor('process','n',[{'alias','demonitor'}]) -> #P.1
2 P erlang:!(#P.1,'x') -> 'x'
3 P erlang:demonitor(#P.1) -> 'true'
4 P>P down #P.1 -> dropped
5 P>P brings 'x' by alias #P.1 -> dropped
6 P times out
status 0
$ replay P P>P P P P
1 P erlang:monitor('process','n',[{'alias','demonitor'}]) -> #P.1
2 P>P down #P.1 -> {'DOWN',#P.1,'process',{'n','nonode@nohost'},'noproc'}
3 P erlang:!(#P.1,'x') -> 'x'
4 P erlang:demonitor(#P.1) -> 'true'
5 P receives {'DOWN',#P.1,'process',{'n','nonode@nohost'},'noproc'}
status 0
$ replay P P>P P P>P
1 P erlang:monitor('process','n',[{'alias','demonitor'}]) -> #P.1
2 P>P down #P.1 -> {'DOWN',#P.1,'process',{'n','nonode@nohost'},'noproc'}
3 P erlang:!(#P.1,'x') -> 'x'
status 2
replay: 1 NotEnabled at step 4
----
# A message to a name at a node, and what is told of a process and of names.
module 'm' ['main'/0,'c'/0] attributes [] 'main'/0 = fun () -> let <C> = call 'erlang':'spawn'('m','c',[]) in do call 'erlang':'!'({'n','nonode@nohost'},'x') do call 'erlang':'!'({'n','a@b'},'y') let <A> = call 'erlang':'process_info'(C,'registered_name') in let <B> = call 'erlang':'process_info'(C,'message_queue_len') in call 'erlang':'exit'({A,B,call 'erlang':'registered'()}) 'c'/0 = fun () -> do call 'erlang':'register'('n',call 'erlang':'self'()) receive <X> when 'true' -> X after 'infinity' -> 'x' end
$ replay P P.1 P P P>P.1 P P P P
1 P erlang:spawn('m','c',[]) -> P.1
2 P.1 erlang:register('n',P.1) -> 'true'
3 P erlang:!({'n','nonode@nohost'},'x') -> 'x'
4 P erlang:!({'n','a@b'},'y') -> 'y'
5 P>P.1 brings 'x'
6 P erlang:process_info(P.1,'registered_name') -> {'registered_name','n'}
7 P erlang:process_info(P.1,'message_queue_len') -> {'message_queue_len',1}
8 P erlang:registered() -> ['n']
9 P ends {{'registered_name','n'},{'message_queue_len',1},['n']}
status 0
$ replay P P P P.1 P P P P
1 P erlang:spawn('m','c',[]) -> P.1
2 P erlang:!({'n','nonode@nohost'},'x') -> 'x'
3 P erlang:!({'n','a@b'},'y') -> 'y'
4 P.1 erlang:register('n',P.1) -> 'true'
5 P erlang:process_info(P.1,'registered_name') -> {'registered_name','n'}
6 P erlang:process_info(P.1,'message_queue_len') -> {'message_queue_len',0}
7 P erlang:registered() -> ['n']
8 P ends {{'registered_name','n'},{'message_queue_len',0},['n']}
status 0
$ replay P P.1 P P P>P.1 P.1 P.1 P P P P
1 P erlang:spawn('m','c',[]) -> P.1
2 P.1 erlang:register('n',P.1) -> 'true'
3 P erlang:!({'n','nonode@nohost'},'x') -> 'x'
4 P erlang:!({'n','a@b'},'y') -> 'y'
5 P>P.1 brings 'x'
6 P.1 receives 'x'
7 P.1 ends 'normal'
8 P erlang:process_info(P.1,'registered_name') -> 'undefined'
9 P erlang:process_info(P.1,'message_queue_len') -> 'undefined'
10 P erlang:registered() -> []
11 P ends {'undefined','undefined',[]}
status 0
$ replay P P P P P P P
1 P erlang:spawn('m','c',[]) -> P.1
2 P erlang:!({'n','nonode@nohost'},'x') -> 'x'
3 P erlang:!({'n','a@b'},'y') -> 'y'
4 P erlang:process_info(P.1,'registered_name') -> []
5 P erlang:process_info(P.1,'message_queue_len') -> {'message_queue_len',0}
6 P erlang:registered() -> []
7 P ends {[],{'message_queue_len',0},[]}
status 0
$ replay P P.1 P P P
1 P erlang:spawn('m','c',[]) -> P.1
2 P.1 erlang:register('n',P.1) -> 'true'
3 P erlang:!({'n','nonode@nohost'},'x') -> 'x'
4 P erlang:!({'n','a@b'},'y') -> 'y'
status 2
replay: 1 NotEnabled at step 5
----
# An alias ends before the watch by name with which it was made, and a name before the watch.
module 'm' ['main'/0,'c'/0] attributes [] 'main'/0 = fun () -> let <C> = call 'erlang':'spawn'('m','c',[]) in do call 'erlang':'register'('n',C) let <R> = call 'erlang':'monitor'('process',{'n','nonode@nohost'},[{'alias','explicit_unalias'}]) in do call 'erlang':'unalias'(R) do call 'erlang':'unregister'('n') receive <X> when 'true' -> X after 0 -> 'late' 'c'/0 = fun () -> 'ok' end
$ replay P P P P P P.1 P.1>P P
1 P erlang:spawn('m','c',[]) -> P.1
2 P erlang:register('n',P.1) -> 'true'
3 P erlang:monitor('process',{'n','nonode@nohost'},[{'alias','explicit_unalias'}]) -> #P.3
4 P erlang:unalias(#P.3) -> 'true'
5 P erlang:unregister('n') -> 'true'
6 P.1 ends 'normal'
7 P.1>P down #P.3 -> {'DOWN',#P.3,'process',{'n','nonode@nohost'},'normal'}
8 P receives {'DOWN',#P.3,'process',{'n','nonode@nohost'},'normal'}
status 0
$ replay P P P P P P P.1 P.1>P
1 P erlang:spawn('m','c',[]) -> P.1
2 P erlang:register('n',P.1) -> 'true'
3 P erlang:monitor('process',{'n','nonode@nohost'},[{'alias','explicit_unalias'}]) -> #P.3
4 P erlang:unalias(#P.3) -> 'true'
5 P erlang:unregister('n') -> 'true'
6 P times out
7 P.1 ends 'normal'
8 P.1>P down #P.3 -> {'DOWN',#P.3,'process',{'n','nonode@nohost'},'normal'}
status 0
$ replay P P P P.1 P.1>P P P P
1 P erlang:spawn('m','c',[]) -> P.1
2 P erlang:register('n',P.1) -> 'true'
3 P erlang:monitor('process',{'n','nonode@nohost'},[{'alias','explicit_unalias'}]) -> #P.3
4 P.1 ends 'normal'
5 P.1>P down #P.3 -> {'DOWN',#P.3,'process',{'n','nonode@nohost'},'normal'}
6 P erlang:unalias(#P.3) -> 'true'
7 P erlang:unregister('n') -> badarg
8 P ends {'badarg',[]}
status 0
$ replay P P P P.1 P P.1>P P P
1 P erlang:spawn('m','c',[]) -> P.1
2 P erlang:register('n',P.1) -> 'true'
3 P erlang:monitor('process',{'n','nonode@nohost'},[{'alias','explicit_unalias'}]) -> #P.3
4 P.1 ends 'normal'
5 P erlang:unalias(#P.3) -> 'true'
6 P.1>P down #P.3 -> {'DOWN',#P.3,'process',{'n','nonode@nohost'},'normal'}
7 P erlang:unregister('n') -> badarg
8 P ends {'badarg',[]}
status 0
----
# Of one's own name a watch tells nothing, and no alias begins with it.
module 'm' ['main'/0] attributes [] 'main'/0 = fun () -> do call 'erlang':'register'('n',call 'erlang':'self'()) let <R> = call 'erlang':'monitor'('process','n',[{'alias','explicit_unalias'}]) in do call 'erlang':'!'(R,'x') do call 'erlang':'!'({'n','nonode@nohost'},'y') let <Q> = call 'erlang':'process_info'(call 'erlang':'self'(),'message_queue_len') in let <N> = call 'erlang':'process_info'(call 'erlang':'self'(),'registered_name') in call 'erlang':'monitor'('process',{'n','a@b'}) end
$ replay P P P P P P P P
1 P erlang:register('n',P) -> 'true'
2 P erlang:monitor('process','n',[{'alias','explicit_unalias'}]) -> #P.2
3 P erlang:!(#P.2,'x') -> 'x'
4 P erlang:!({'n','nonode@nohost'},'y') -> 'y'
5 P erlang:process_info(P,'message_queue_len') -> {'message_queue_len',1}
6 P erlang:process_info(P,'registered_name') -> {'registered_name','n'}
7 P erlang:monitor('process',{'n','a@b'}) -> badarg
8 P ends {'badarg',[]}
status 0
$ replay P P P P P
1 P erlang:register('n',P) -> 'true'
2 P erlang:monitor('process','n',[{'alias','explicit_unalias'}]) -> #P.2
3 P erlang:!(#P.2,'x') -> 'x'
4 P erlang:!({'n','nonode@nohost'},'y') -> 'y'
5 P erlang:process_info(P,'message_queue_len') -> {'message_queue_len',1}
status 0
$ replay P P P>P
1 P erlang:register('n',P) -> 'true'
2 P erlang:monitor('process','n',[{'alias','explicit_unalias'}]) -> #P.2
status 2
replay: 1 NotEnabled at step 3
$ replay P P P P>P
1 P erlang:register('n',P) -> 'true'
2 P erlang:monitor('process','n',[{'alias','explicit_unalias'}]) -> #P.2
3 P erlang:!(#P.2,'x') -> 'x'
status 2
replay: 1 NotEnabled at step 4
"#;
