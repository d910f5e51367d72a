// Modules whose schedules are explored.

/// Modules, and how many steps their schedules have.
pub(crate) const EXPLORED: [(&str, u64); 5] = [
    (WRITERS, 9),
    (MAKERS, 5),
    (INSERTS, 12),
    (MESSAGES, 12),
    (MIXED, 16),
];

/// Two processes that write one table of a third, which ends.
pub(crate) const WRITERS: &str =
    "module 'm' ['main'/0,'c'/1] attributes [] 'main'/0 = fun () -> do call 'ets':'new'('t',['named_table','public']) do call 'erlang':'spawn'('m','c',['a']) call 'erlang':'spawn'('m','c',['b']) 'c'/1 = fun (X) -> do call 'ets':'insert'('t',{X,1}) call 'ets':'lookup'('t','a') end";

/// Two processes that make a table each.
pub(crate) const MAKERS: &str =
    "module 'm' ['main'/0,'c'/0] attributes [] 'main'/0 = fun () -> do call 'erlang':'spawn'('m','c',[]) call 'ets':'new'('a',[]) 'c'/0 = fun () -> call 'ets':'new'('b',[]) end";

/// A process that writes into a table of another, which may have ended.
pub(crate) const STRANGER: &str =
    "module 'm' ['main'/0,'c'/0] attributes [] 'main'/0 = fun () -> do call 'ets':'new'('t',['named_table']) call 'erlang':'spawn'('m','c',[]) 'c'/0 = fun () -> call 'ets':'insert'('t',{'a',1}) end";

/// One process that makes twenty references.
pub(crate) const LINE: &str =
    "module 'm' ['main'/0] attributes [] 'main'/0 = fun () -> apply 'f'/1(20) 'f'/1 = fun (N) -> case N of <0> when 'true' -> 'ok' <M> when 'true' -> do call 'erlang':'make_ref'() apply 'f'/1(call 'erlang':'-'(M,1)) end end";

/// Three processes that write one table.
pub(crate) const INSERTS: &str =
    "module 'm' ['main'/0,'c'/1] attributes [] 'main'/0 = fun () -> do call 'ets':'new'('t',['named_table','public']) do call 'erlang':'spawn'('m','c',['a']) do call 'erlang':'spawn'('m','c',['b']) do call 'erlang':'spawn'('m','c',['d']) receive <X> when 'true' -> X after 'infinity' -> 'x' 'c'/1 = fun (V) -> do call 'ets':'insert'('t',{1,V}) do call 'ets':'insert'('t',{1,V}) do call 'ets':'insert'('t',{2,V}) do call 'ets':'insert'('t',{2,V}) do call 'ets':'insert'('t',{1,V}) 'ok' end";

/// Three processes that send messages to one that selects among them.
pub(crate) const MESSAGES: &str =
    "module 'm' ['main'/0,'c'/2] attributes [] 'main'/0 = fun () -> let <Me> = call 'erlang':'self'() in do call 'erlang':'spawn'('m','c',[Me,'a']) do call 'erlang':'spawn'('m','c',[Me,'b']) do call 'erlang':'spawn'('m','c',[Me,'d']) do receive <{'a',X}> when call 'erlang':'>'(X,0) -> X <{Y,Z}> when 'true' -> Z after 'infinity' -> 'x' do receive <{'a',X}> when call 'erlang':'>'(X,0) -> X <{Y,Z}> when 'true' -> Z after 'infinity' -> 'x' do receive <{'a',X}> when call 'erlang':'>'(X,0) -> X <{Y,Z}> when 'true' -> Z after 'infinity' -> 'x' do receive <{'a',X}> when call 'erlang':'>'(X,0) -> X <{Y,Z}> when 'true' -> Z after 'infinity' -> 'x' do receive <{'a',X}> when call 'erlang':'>'(X,0) -> X <{Y,Z}> when 'true' -> Z after 'infinity' -> 'x' do receive <{'a',X}> when call 'erlang':'>'(X,0) -> X <{Y,Z}> when 'true' -> Z after 'infinity' -> 'x' 'ok' 'c'/2 = fun (To,V) -> do call 'erlang':'!'(To,{V,1}) do call 'erlang':'!'(To,{V,2}) do call 'erlang':'!'(To,{V,3}) 'ok' end";

/// The same, where the second message of one sender ends the process if it is taken second: levels of thousands of states.
pub(crate) const CROWD: &str =
    "module 'm' ['main'/0,'c'/2] attributes [] 'main'/0 = fun () -> let <Me> = call 'erlang':'self'() in do call 'erlang':'spawn'('m','c',[Me,'a']) do call 'erlang':'spawn'('m','c',[Me,'b']) do call 'erlang':'spawn'('m','c',[Me,'d']) do receive <{'a',X}> when call 'erlang':'>'(X,0) -> X <{Y,Z}> when 'true' -> Z after 'infinity' -> 'x' do receive <{Y,2}> when 'true' -> call 'erlang':'exit'(Y) <{Y,Z}> when 'true' -> Z after 'infinity' -> 'x' do receive <{'a',X}> when call 'erlang':'>'(X,0) -> X <{Y,Z}> when 'true' -> Z after 'infinity' -> 'x' do receive <{'a',X}> when call 'erlang':'>'(X,0) -> X <{Y,Z}> when 'true' -> Z after 'infinity' -> 'x' do receive <{'a',X}> when call 'erlang':'>'(X,0) -> X <{Y,Z}> when 'true' -> Z after 'infinity' -> 'x' do receive <{'a',X}> when call 'erlang':'>'(X,0) -> X <{Y,Z}> when 'true' -> Z after 'infinity' -> 'x' 'ok' 'c'/2 = fun (To,V) -> do call 'erlang':'!'(To,{V,1}) do call 'erlang':'!'(To,{V,2}) do call 'erlang':'!'(To,{V,3}) 'ok' end";

/// A table that is inherited, a watch, links and a name.
pub(crate) const MIXED: &str =
    "module 'm' ['main'/0,'c'/1,'d'/1] attributes [] 'main'/0 = fun () -> let <Me> = call 'erlang':'self'() in do call 'erlang':'process_flag'('trap_exit','true') do call 'ets':'new'('t',['named_table','public','ordered_set',{'heir',Me,'h'}]) let <C> = call 'erlang':'spawn_link'('m','c',[Me]) in let <M> = call 'erlang':'monitor'('process',C) in let <D> = call 'erlang':'spawn_link'('m','d',[C]) in do call 'ets':'give_away'('t',C,'g') do call 'ets':'lookup'('t',1) receive <{'EXIT',A,B}> when 'true' -> do catch call 'ets':'insert'('t',{1,2}) call 'ets':'tab2list'('t') <{'DOWN',F,G,H,I}> when 'true' -> call 'ets':'first'('t') after 10 -> catch call 'ets':'update_counter'('t',1,1) 'c'/1 = fun (P) -> do call 'erlang':'register'('n',call 'erlang':'self'()) do call 'ets':'insert_new'('t',[{1,1},{2,2}]) receive <{'ETS-TRANSFER',J,K,L}> when 'true' -> do call 'ets':'take'('t',1) call 'erlang':'exit'('bye') after 'infinity' -> 'x' 'd'/1 = fun (Q) -> do catch call 'ets':'update_counter'('t',1,{2,1}) do call 'erlang':'send'(Q,'hi') do call 'ets':'insert'('t',{2,'d'}) call 'erlang':'exit'(Q,'kill') end";

/// A term of 9,991 nodes, each within the one before: it is built, sent, received, a key in a table, and the reason of two
/// ends.
pub(crate) const DEEP: &str =
    "module 'm' ['main'/0,'c'/1] attributes [] 'main'/0 = fun () -> do call 'erlang':'spawn'('m','c',[call 'erlang':'self'()]) receive <X> when 'true' -> do call 'ets':'new'('t',['named_table']) do call 'ets':'insert'('t',{X,1}) do call 'ets':'lookup'('t',X) call 'erlang':'exit'(X) after 'infinity' -> 'x' 'c'/1 = fun (To) -> let <D> = apply 'd'/2(9990,'a') in do call 'erlang':'!'(To,D) call 'erlang':'exit'(D) 'd'/2 = fun (N,T) -> case N of <0> when 'true' -> T <M> when 'true' -> apply 'd'/2(call 'erlang':'-'(M,1),{T}) end end";

/// A process that ends with the first of two messages: one sender sends it, and has the other one send the second.
pub(crate) const TWO_SENDERS: &str =
    "module 'm' ['main'/0,'a'/2,'b'/1] attributes [] 'main'/0 = fun () -> let <Me> = call 'erlang':'self'() in let <B> = call 'erlang':'spawn'('m','b',[Me]) in do call 'erlang':'spawn'('m','a',[Me,B]) receive <X> when 'true' -> call 'erlang':'exit'(X) after 'infinity' -> 'x' 'a'/2 = fun (To,B) -> do call 'erlang':'!'(To,'first') call 'erlang':'!'(B,'go') 'b'/1 = fun (To) -> receive <'go'> when 'true' -> call 'erlang':'!'(To,'second') after 'infinity' -> 'x' end";

/// A process that sends a message to itself, and gets one from another, and ends with the first.
pub(crate) const ONESELF: &str =
    "module 'm' ['main'/0,'a'/1] attributes [] 'main'/0 = fun () -> let <Me> = call 'erlang':'self'() in do call 'erlang':'spawn'('m','a',[Me]) do call 'erlang':'!'(Me,'own') receive <X> when 'true' -> call 'erlang':'exit'(X) after 'infinity' -> 'x' 'a'/1 = fun (To) -> call 'erlang':'!'(To,'other') end";

/// A process that starts a timer for itself, and cancels it or takes its message.
pub(crate) const TIMED: &str =
    "module 'm' ['main'/0] attributes [] 'main'/0 = fun () -> let <T> = call 'erlang':'send_after'(5,call 'erlang':'self'(),'late') in case call 'erlang':'cancel_timer'(T) of <5> when 'true' -> call 'erlang':'exit'('cancelled') <N> when 'true' -> receive <X> when 'true' -> call 'erlang':'exit'(X) after 'infinity' -> 'x' end end";

/// A process that is killed, and is sent a message by one that is told of it.
pub(crate) const KILL: &str =
    "module 'm' ['main'/0,'w'/0,'k'/1] attributes [] 'main'/0 = fun () -> let <W> = call 'erlang':'spawn'('m','w',[]) in let <K> = call 'erlang':'spawn'('m','k',[W]) in do call 'erlang':'exit'(W,'kill') call 'erlang':'!'(K,'go') 'w'/0 = fun () -> receive <'x'> when 'true' -> call 'erlang':'exit'('taken') after 'infinity' -> 'x' 'k'/1 = fun (W) -> receive <'go'> when 'true' -> call 'erlang':'!'(W,'x') after 'infinity' -> 'x' end";

/// A process that is linked to one that ends, and is told of that by one that watches it.
pub(crate) const LINK: &str =
    "module 'm' ['main'/0,'w'/0,'s'/2] attributes [] 'main'/0 = fun () -> let <Me> = call 'erlang':'self'() in let <W> = call 'erlang':'spawn_link'('m','w',[]) in do call 'erlang':'spawn'('m','s',[Me,W]) receive <'told'> when 'true' -> call 'erlang':'exit'('survived') after 'infinity' -> 'x' 'w'/0 = fun () -> receive <'go'> when 'true' -> call 'erlang':'exit'('bad') after 'infinity' -> 'x' 's'/2 = fun (To,W) -> do call 'erlang':'monitor'('process',W) do call 'erlang':'!'(W,'go') receive <{'DOWN',A,B,C,D}> when 'true' -> call 'erlang':'!'(To,'told') after 'infinity' -> 'x' end";

/// The heir of a table, who is told of the end of its owner by one that watches it.
pub(crate) const HEIR: &str =
    "module 'm' ['main'/0,'w'/1,'s'/2] attributes [] 'main'/0 = fun () -> let <Me> = call 'erlang':'self'() in let <W> = call 'erlang':'spawn'('m','w',[Me]) in do call 'erlang':'spawn'('m','s',[Me,W]) receive <'gone'> when 'true' -> receive <{'ETS-TRANSFER',A,B,C}> when 'true' -> 'ok' after 0 -> call 'erlang':'exit'('no_table') after 'infinity' -> 'x' 'w'/1 = fun (H) -> do call 'ets':'new'('t',['named_table',{'heir',H,'left'}]) receive <'go'> when 'true' -> 'ok' after 'infinity' -> 'x' 's'/2 = fun (To,W) -> do call 'erlang':'monitor'('process',W) do call 'erlang':'!'(W,'go') receive <{'DOWN',A,B,C,D}> when 'true' -> call 'erlang':'!'(To,'gone') after 'infinity' -> 'x' end";
