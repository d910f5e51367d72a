// Calls of processes and of tables by their names and the numbers of their arguments.
use crate::module_texts::answers;
use core_reader::{ReadFault, read_module};
use core_tree::{CALLS, Call, CallKind, Callee, Expr, Module};
use std::alloc::Global;
use std::test::Fail;
use test_support::holds;

// Each of them once, in the order of their list.
const TEXTS: &str = "\
call 'erlang':'spawn'(1,2,3)
call 'erlang':'spawn_link'(1,2,3)
call 'erlang':'spawn_monitor'(1,2,3)
call 'erlang':'!'(1,2)
call 'erlang':'send'(1,2)
call 'erlang':'exit'(1,2)
call 'erlang':'link'(1)
call 'erlang':'unlink'(1)
call 'erlang':'monitor'(1,2)
call 'erlang':'demonitor'(1)
call 'erlang':'demonitor'(1,2)
call 'erlang':'process_flag'(1,2)
call 'erlang':'register'(1,2)
call 'erlang':'unregister'(1)
call 'erlang':'whereis'(1)
call 'erlang':'is_process_alive'(1)
call 'erlang':'make_ref'()
call 'erlang':'monitor'(1,2,3)
call 'erlang':'alias'()
call 'erlang':'alias'(1)
call 'erlang':'unalias'(1)
call 'erlang':'start_timer'(1,2,3)
call 'erlang':'send_after'(1,2,3)
call 'erlang':'cancel_timer'(1)
call 'erlang':'read_timer'(1)
call 'erlang':'registered'()
call 'erlang':'process_info'(1,2)
call 'ets':'new'(1,2)
call 'ets':'lookup'(1,2)
call 'ets':'member'(1,2)
call 'ets':'lookup_element'(1,2,3)
call 'ets':'first'(1)
call 'ets':'last'(1)
call 'ets':'next'(1,2)
call 'ets':'prev'(1,2)
call 'ets':'tab2list'(1)
call 'ets':'insert'(1,2)
call 'ets':'insert_new'(1,2)
call 'ets':'delete'(1)
call 'ets':'delete'(1,2)
call 'ets':'delete_object'(1,2)
call 'ets':'delete_all_objects'(1)
call 'ets':'take'(1,2)
call 'ets':'update_counter'(1,2,3)
call 'ets':'update_counter'(1,2,3,4)
call 'ets':'update_element'(1,2,3)
call 'ets':'give_away'(1,2,3)
call 'ets':'setopts'(1,2)
call 'ets':'info'(1,2)
call 'ets':'info'(1)
";

// Whether an expression is a call of this kind.
fn is_call_of(expression: &Expr, kind: CallKind) -> bool {
    let Expr::Call(call) = expression else {
        return false;
    };
    match &call.callee {
        Callee::World(called) => *called == kind,
        _ => false,
    }
}

// How many of the functions of a module have a call of this kind for a body.
fn calls_of(module: &Module, kind: CallKind) -> usize {
    let mut found: usize = 0;
    for definition in module.definitions.values() {
        if is_call_of(&definition.body, kind) {
            found = found.saturating_add(1);
        }
    }
    found
}

// The module with this body.
fn module_with(alloc: Global, body: &str) -> Result<Module, ReadFault> {
    let text = format!(in alloc; "module 'm' [] attributes [] 'main'/0 = fun () -> {body} end")?;
    read_module(alloc, text.as_bytes())
}

// Checks that a module has one call of this kind.
fn has_one(module: &Module, kind: CallKind) -> Result<(), Fail> {
    holds(calls_of(module, kind) == 1, "a module has one such call")
}

// Checks that a text is there, and is read as a call of this kind.
fn is_read(alloc: Global, kind: CallKind, text: Option<&str>) -> Result<(), Fail> {
    let body = text.ok_or("each call has a text")?;
    has_one(&module_with(alloc, body)?, kind)
}

#[test]
fn reads_every_call_of_the_world(rt: HostRuntime) -> Result<(), Fail> {
    let mut texts = TEXTS.lines();
    for kind in &CALLS {
        is_read(rt.alloc(), *kind, texts.next())?;
    }
    holds(texts.next().is_none(), "no text is of no call")
}

// A call of the world is one also where the module has its name.
#[test]
fn reads_a_call_of_the_world_in_a_module_of_that_name(rt: HostRuntime) -> Result<(), Fail> {
    let text =
        b"module 'erlang' ['link'/1] attributes [] 'main'/0 = fun () -> call 'erlang':'link'(1) 'link'/1 = fun (X) -> X end";
    let module = read_module(rt.alloc(), text)?;
    has_one(&module, CallKind::Link)
}

// Other numbers of arguments and other names, and in guards calls of the world and of the process dictionary.
const FAULTS: &str = "\
8 UnsupportedCall at 57
module 'm' ['main'/0] attributes [] 'main'/0 = fun () -> call 'erlang':'spawn'(1,2) end

8 UnsupportedCall at 57
module 'm' ['main'/0] attributes [] 'main'/0 = fun () -> call 'erlang':'spawn'(1,2,3,4) end

8 UnsupportedCall at 57
module 'm' ['main'/0] attributes [] 'main'/0 = fun () -> call 'erlang':'demonitor'() end

8 UnsupportedCall at 57
module 'm' ['main'/0] attributes [] 'main'/0 = fun () -> call 'erlang':'demonitor'(1,2,3) end

8 UnsupportedCall at 57
module 'm' ['main'/0] attributes [] 'main'/0 = fun () -> call 'erlang':'make_ref'(1) end

8 UnsupportedCall at 57
module 'm' ['main'/0] attributes [] 'main'/0 = fun () -> call 'erlang':'monitor'(1,2,3,4) end

8 UnsupportedCall at 57
module 'm' ['main'/0] attributes [] 'main'/0 = fun () -> call 'erlang':'start_timer'(1,2) end

8 UnsupportedCall at 57
module 'm' ['main'/0] attributes [] 'main'/0 = fun () -> call 'erlang':'cancel_timer'(1,2) end

8 UnsupportedCall at 57
module 'm' ['main'/0] attributes [] 'main'/0 = fun () -> call 'ets':'delete'() end

8 UnsupportedCall at 57
module 'm' ['main'/0] attributes [] 'main'/0 = fun () -> call 'ets':'delete'(1,2,3) end

8 UnsupportedCall at 57
module 'm' ['main'/0] attributes [] 'main'/0 = fun () -> call 'ets':'info'() end

8 UnsupportedCall at 57
module 'm' ['main'/0] attributes [] 'main'/0 = fun () -> call 'ets':'info'(1,2,3) end

8 UnsupportedCall at 57
module 'm' ['main'/0] attributes [] 'main'/0 = fun () -> call 'ets':'update_counter'(1,2) end

8 UnsupportedCall at 57
module 'm' ['main'/0] attributes [] 'main'/0 = fun () -> call 'ets':'update_counter'(1,2,3,4,5) end

8 UnsupportedCall at 57
module 'm' ['main'/0] attributes [] 'main'/0 = fun () -> call 'ets':'update_element'(1,2,3,4) end

8 UnsupportedCall at 57
module 'm' ['main'/0] attributes [] 'main'/0 = fun () -> call 'ets':'new'(1) end

8 UnsupportedCall at 57
module 'm' ['main'/0] attributes [] 'main'/0 = fun () -> call 'ets':'match'(1,2) end

8 UnsupportedCall at 57
module 'm' ['main'/0] attributes [] 'main'/0 = fun () -> call 'ets':'spawn'(1,2,3) end

8 UnsupportedCall at 57
module 'm' ['main'/0] attributes [] 'main'/0 = fun () -> call 'erlang':'lookup'(1,2) end

8 UnsupportedCall at 57
module 'm' ['main'/0] attributes [] 'main'/0 = fun () -> call 'm':'link'(1) end

9 EffectInGuard at 76
module 'm' ['main'/0] attributes [] 'main'/0 = fun () -> case 1 of <X> when call 'erlang':'make_ref'() -> 1 end end

9 EffectInGuard at 76
module 'm' ['main'/0] attributes [] 'main'/0 = fun () -> case 1 of <X> when call 'erlang':'unalias'(X) -> 1 end end

9 EffectInGuard at 76
module 'm' ['main'/0] attributes [] 'main'/0 = fun () -> case 1 of <X> when call 'erlang':'!'(X,1) -> 1 end end

9 EffectInGuard at 76
module 'm' ['main'/0] attributes [] 'main'/0 = fun () -> case 1 of <X> when call 'ets':'info'(X,1) -> 1 end end

9 EffectInGuard at 84
module 'm' ['main'/0] attributes [] 'main'/0 = fun () -> case 1 of <X> when let Y = call 'erlang':'whereis'(X) in 'true' -> 1 end end

8 UnsupportedCall at 57
module 'm' ['main'/0] attributes [] 'main'/0 = fun () -> call 'erlang':'put'(1) end

8 UnsupportedCall at 57
module 'm' ['main'/0] attributes [] 'main'/0 = fun () -> call 'erlang':'put'(1,2,3) end

8 UnsupportedCall at 57
module 'm' ['main'/0] attributes [] 'main'/0 = fun () -> call 'erlang':'get'(1,2) end

8 UnsupportedCall at 57
module 'm' ['main'/0] attributes [] 'main'/0 = fun () -> call 'erlang':'get_keys'(1,2) end

8 UnsupportedCall at 57
module 'm' ['main'/0] attributes [] 'main'/0 = fun () -> call 'erlang':'erase'(1,2) end

9 EffectInGuard at 76
module 'm' ['main'/0] attributes [] 'main'/0 = fun () -> case 1 of <X> when call 'erlang':'put'(X,1) -> 1 end end

9 EffectInGuard at 76
module 'm' ['main'/0] attributes [] 'main'/0 = fun () -> case 1 of <X> when call 'erlang':'get'(X) -> 1 end end

9 EffectInGuard at 76
module 'm' ['main'/0] attributes [] 'main'/0 = fun () -> case 1 of <X> when call 'erlang':'get'() -> 1 end end

9 EffectInGuard at 76
module 'm' ['main'/0] attributes [] 'main'/0 = fun () -> case 1 of <X> when call 'erlang':'get_keys'() -> 1 end end

9 EffectInGuard at 76
module 'm' ['main'/0] attributes [] 'main'/0 = fun () -> case 1 of <X> when call 'erlang':'get_keys'(X) -> 1 end end

9 EffectInGuard at 76
module 'm' ['main'/0] attributes [] 'main'/0 = fun () -> case 1 of <X> when call 'erlang':'erase'(X) -> 1 end end

9 EffectInGuard at 76
module 'm' ['main'/0] attributes [] 'main'/0 = fun () -> case 1 of <X> when call 'erlang':'erase'() -> 1 end end

9 EffectInGuard at 74
module 'm' ['main'/0] attributes [] 'main'/0 = fun () -> receive <X> when call 'erlang':'get'(X) -> 1 after 0 -> 2 end";

#[test]
fn names_faults_of_calls(rt: HostRuntime) -> Result<(), Fail> {
    answers(rt.alloc(), FAULTS)
}
