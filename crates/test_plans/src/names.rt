// What turns and deliveries of watches by name, of messages to a name at a node, and of questions about processes would do.
use crate::guards::{come_then, comes};
use crate::plans::{Line, come_to};
use std::test::Fail;

const NOBODY: [Line; 9] = [
    (
        "call 'erlang':'monitor'('process','n')",
        "#P.1",
        "Machine Alive Holder",
        "WatchSet GuardSet SignalPut",
    ),
    (
        "call 'erlang':'monitor'('process',{'n','nonode@nohost'})",
        "#P.1",
        "Machine Alive Holder",
        "WatchSet GuardSet SignalPut",
    ),
    (
        "call 'erlang':'monitor'('process','n',[{'alias','demonitor'}])",
        "#P.1",
        "Machine Alive Holder",
        "WatchSet GuardSet SignalPut",
    ),
    (
        "call 'erlang':'monitor'('process','undefined')",
        "#P.1",
        "Machine Alive Holder",
        "WatchSet GuardSet SignalPut",
    ),
    (
        "call 'erlang':'!'({'n','nonode@nohost'},'x')",
        "'x'",
        "Machine Alive Holder",
        "",
    ),
    (
        "call 'erlang':'send'({'n','a@b'},'x')",
        "'x'",
        "Machine Alive",
        "",
    ),
    (
        "call 'erlang':'registered'()",
        "[]",
        "Machine Alive Holders",
        "",
    ),
    (
        "call 'erlang':'process_info'(call 'erlang':'self'(),'registered_name')",
        "[]",
        "Machine Alive NameOf",
        "",
    ),
    (
        "call 'erlang':'process_info'(call 'erlang':'self'(),'message_queue_len')",
        "{'message_queue_len',0}",
        "Machine Alive Taken Mailed",
        "",
    ),
];

const REFUSED: [Line; 11] = [
    (
        "call 'erlang':'monitor'('process',{'n','a@b'})",
        "badarg",
        "Machine Alive",
        "",
    ),
    (
        "call 'erlang':'monitor'('process',{1,'nonode@nohost'})",
        "badarg",
        "Machine Alive",
        "",
    ),
    (
        "call 'erlang':'monitor'('process',{'n','nonode@nohost','x'})",
        "badarg",
        "Machine Alive",
        "",
    ),
    (
        "call 'erlang':'monitor'('port','n')",
        "badarg",
        "Machine Alive",
        "",
    ),
    (
        "call 'erlang':'monitor'('process','n',[{'tag','x'}])",
        "badarg",
        "Machine Alive",
        "",
    ),
    (
        "call 'erlang':'!'({'n',1},'x')",
        "badarg",
        "Machine Alive",
        "",
    ),
    (
        "call 'erlang':'!'({call 'erlang':'self'(),'nonode@nohost'},'x')",
        "badarg",
        "Machine Alive",
        "",
    ),
    (
        "call 'erlang':'!'({'n','nonode@nohost','x'},'x')",
        "badarg",
        "Machine Alive",
        "",
    ),
    (
        "call 'erlang':'process_info'('n','registered_name')",
        "badarg",
        "Machine Alive",
        "",
    ),
    (
        "call 'erlang':'process_info'(call 'erlang':'self'(),'links')",
        "badarg",
        "Machine Alive",
        "",
    ),
    (
        "call 'erlang':'process_info'(call 'erlang':'self'(),['registered_name'])",
        "badarg",
        "Machine Alive",
        "",
    ),
];

const THEN: [Line; 9] = [
    (
        "do call 'erlang':'register'('n',call 'erlang':'self'()) call 'erlang':'monitor'('process','n')",
        "#P.2",
        "Machine Alive Holder Alive",
        "WatchSet GuardSet",
    ),
    (
        "do call 'erlang':'register'('n',call 'erlang':'self'()) call 'erlang':'!'({'n','nonode@nohost'},'x')",
        "'x'",
        "Machine Alive Holder Trap",
        "MessageAdded",
    ),
    (
        "do call 'erlang':'register'('n',call 'erlang':'self'()) call 'erlang':'registered'()",
        "['n']",
        "Machine Alive Holders",
        "",
    ),
    (
        "do call 'erlang':'register'('n',call 'erlang':'self'()) call 'erlang':'process_info'(call 'erlang':'self'(),'registered_name')",
        "{'registered_name','n'}",
        "Machine Alive NameOf",
        "",
    ),
    (
        "do call 'erlang':'!'(call 'erlang':'self'(),'x') call 'erlang':'process_info'(call 'erlang':'self'(),'message_queue_len')",
        "{'message_queue_len',1}",
        "Machine Alive Taken Mailed",
        "",
    ),
    (
        "call 'erlang':'process_info'(call 'erlang':'spawn'('m','main',[]),'registered_name')",
        "[]",
        "Machine Alive Alive Front Tail NameOf",
        "",
    ),
    (
        "call 'erlang':'process_info'(call 'erlang':'spawn'('m','main',[]),'message_queue_len')",
        "{'message_queue_len',0}",
        "Machine Alive Alive Front Tail Taken Mailed",
        "",
    ),
    (
        "call 'erlang':'unalias'(call 'erlang':'monitor'('process','n',[{'alias','demonitor'}]))",
        "'true'",
        "Machine Alive Guard",
        "GuardSet",
    ),
    (
        "call 'erlang':'demonitor'(call 'erlang':'monitor'('process','n'))",
        "'true'",
        "Machine Alive Watch Alive",
        "WatchCleared GuardUnwatched",
    ),
];

#[test]
fn names_that_nobody_has_are_looked_at(rt: HostRuntime) -> Result<(), Fail> {
    come_to(rt.alloc(), &NOBODY)
}

#[test]
fn other_names_and_items_are_refused(rt: HostRuntime) -> Result<(), Fail> {
    come_to(rt.alloc(), &REFUSED)
}

#[test]
fn names_and_mailboxes_are_asked_for(rt: HostRuntime) -> Result<(), Fail> {
    come_then(rt.alloc(), &THEN)
}

#[test]
fn nobody_is_reported(rt: HostRuntime) -> Result<(), Fail> {
    let told = (
        "call 'erlang':'monitor'('process','n')",
        "is delivered",
        "Alive Front Watch Watchers Guard",
        "WatchCleared GuardUnwatched MessageAdded",
    );
    comes(rt.alloc(), 1, 0, &told)
}
