// Exceptions: how they end a process, and how they are caught and handled.
use super::runs::{MAIN, ask_all, asks, asks_long};
use std::test::Fail;
use test_support::nested;

// Exceptions that nothing catches, and below each what is asked.
const ENDS: &str = "\
primop 'raise'({'$trace','error'},5)
{5,[]}

primop 'raise'({'$trace','exit'},5)
5

primop 'raise'({'$trace','throw'},5)
{{'nocatch',5},[]}

primop 'raise'({'$trace','fault'},5)
{'badarg',[]}

primop 'raise'({'trace','exit'},5)
{'badarg',[]}

primop 'match_fail'({'function_clause',1})
{'function_clause',[]}

primop 'match_fail'({'badmatch',1})
{{'badmatch',1},[]}";

#[test]
fn ends_by_exceptions(rt: HostRuntime) -> Result<(), Fail> {
    ask_all(rt.alloc(), MAIN, ENDS)
}

// What is caught in a call, and below each what is asked.
const CATCHES: &str = "\
call 'ets':'lookup'('t',catch primop 'raise'({'$trace','error'},5))
lookup 't' {'EXIT',{5,[]}}
'normal'

call 'ets':'lookup'('t',catch primop 'raise'({'$trace','exit'},5))
lookup 't' {'EXIT',5}
'normal'

call 'ets':'lookup'('t',catch primop 'raise'({'$trace','throw'},5))
lookup 't' 5
'normal'

call 'ets':'lookup'('t',catch call 'ets':'lookup'('t',\"aa\"))
lookup 't' [97,97]
lookup 't' 1
'normal'

call 'ets':'lookup'('t',catch <1,2>)
{'value_count',[]}";

#[test]
fn catches_exceptions(rt: HostRuntime) -> Result<(), Fail> {
    ask_all(rt.alloc(), MAIN, CATCHES)
}

// The call that takes an error with a long tuple.
const CATCH_LONG: &str = "call 'ets':'lookup'('t',catch primop 'raise'({'$trace','error'},{";

// 9,996 nodes, which with what `catch` puts around are 10,000, and one more.
#[test]
fn what_is_caught_keeps_the_limit(rt: HostRuntime) -> Result<(), Fail> {
    let body = nested(rt.alloc(), CATCH_LONG, "1,", 9_994, "1}))", "")?;
    let front = "lookup 't' {'EXIT',{{";
    let want = nested(rt.alloc(), front, "1,", 9_994, "1},[]}}\n'normal'", "")?;
    asks(rt.alloc(), MAIN, body.as_str(), want.as_str())?;
    let limit = "{'system_limit',[]}";
    asks_long(rt.alloc(), CATCH_LONG, "1,", 9_995, "1}))", limit)
}

// What a `try` in a call protects, with a handler of two variables or of three, and below each what is asked.
const HANDLES: &str = "\
call 'ets':'lookup'('t',try primop 'raise'({'$trace','error'},5) of <X> -> X catch <X,Y> -> {X,Y})
lookup 't' {'error',5}
'normal'

call 'ets':'lookup'('t',try primop 'raise'({'$trace','exit'},5) of <X> -> X catch <X,Y> -> {X,Y})
lookup 't' {'exit',5}
'normal'

call 'ets':'lookup'('t',try primop 'raise'({'$trace','throw'},5) of <X> -> X catch <X,Y> -> {X,Y})
lookup 't' {'throw',5}
'normal'

call 'ets':'lookup'('t',try call 'ets':'lookup'('t',\"aa\") of <X> -> X catch <X,Y> -> {X,Y})
lookup 't' [97,97]
lookup 't' 1
'normal'

% outside of what is protected
call 'ets':'lookup'('t',try <1,2> of <X> -> X catch <X,Y> -> {X,Y})
{'value_count',[]}

call 'ets':'lookup'('t',try primop 'raise'({'$trace','error'},5) of <X> -> X catch <X,Y,Z> -> {X,Y,Z})
lookup 't' {'error',5,{'$trace','error'}}
'normal'

call 'ets':'lookup'('t',try primop 'raise'({'$trace','exit'},5) of <X> -> X catch <X,Y,Z> -> {X,Y,Z})
lookup 't' {'exit',5,{'$trace','exit'}}
'normal'

call 'ets':'lookup'('t',try primop 'raise'({'$trace','throw'},5) of <X> -> X catch <X,Y,Z> -> {X,Y,Z})
lookup 't' {'throw',5,{'$trace','throw'}}
'normal'";

#[test]
fn handles_exceptions(rt: HostRuntime) -> Result<(), Fail> {
    ask_all(rt.alloc(), MAIN, HANDLES)
}
