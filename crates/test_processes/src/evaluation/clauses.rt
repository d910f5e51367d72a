// Clauses, patterns and guards.
use super::runs::{MAIN, ask_all, asks, asks_long};
use std::test::Fail;
use test_support::nested;

// Clauses, and below each what is asked.
const CLAUSES: &str = "\
case 2 of <1> when 'true' -> call 'ets':'lookup'('t',1) <2> when 'true' -> call 'ets':'lookup'('t',2) <X> when 'true' -> call 'ets':'lookup'('t',3) end
lookup 't' 2
'normal'

% a guard that gives something else, one that raises, one that gives two values, and one that holds
case 1 of <X> when 'false' -> 1 <X> when call 'erlang':'error'(7) -> 2 <X> when <'true','true'> -> 3 <X> when 4 -> 4 <X> when 'true' -> call 'ets':'lookup'('t',X) end
lookup 't' 1
'normal'

% every part; `X` is the whole of the last, and `Y` its tail
case {1,'b',$a,\"aa\",[3,4|5]} of <{1,'c',$a,X,Y}> when 'true' -> 0 <{1,'b',$a,\"aa\",X = [3,4|Y]}> when 'true' -> call 'ets':'insert'(X,Y) <X> when 'true' -> 9 end
insert [3,4|5] 5
'normal'

% `X` is 1 outside; a clause that binds it to 2 does not match after all, and the next one reads it
call 'ets':'lookup'('t',let <X> = 1 in case {2,3} of <{X,4}> when 'true' -> 0 <Y> when 'true' -> call 'ets':'lookup'('t',X) end)
lookup 't' 1
lookup 't' 1
'normal'

% patterns of lists that do not match: one that is too short, one that is too long, other letters
call 'ets':'lookup'('t',case [1,2] of <[X]> when 'true' -> 1 <[X,Y,Z]> when 'true' -> 3 <\"aa\"> when 'true' -> 5 <[1,2]> when 'true' -> 2 end)
lookup 't' 2
'normal'

% two values: a clause with one pattern does not match
call 'ets':'lookup'('t',case <1,2> of <X> when 'true' -> 0 <X,Y> when 'true' -> Y end)
lookup 't' 2
'normal'

case 5 of <4> when 'true' -> 0 end
{{'case_clause',5},[]}

case <5,6> of <X> when 'true' -> 0 end
{{'case_clause',{5,6}},[]}";

#[test]
fn takes_the_first_clause(rt: HostRuntime) -> Result<(), Fail> {
    ask_all(rt.alloc(), MAIN, CLAUSES)
}

// A case of a long tuple that no clause takes, after its items.
const NO_CLAUSE: &str = "1} of <4> when 'true' -> 0 end";

// 9,997 items and the tuple, and the tuple with its atom around it: 10,000 nodes in all, and one more.
#[test]
fn a_case_without_a_clause_keeps_the_limit(rt: HostRuntime) -> Result<(), Fail> {
    let body = nested(rt.alloc(), "case {", "1,", 9_996, NO_CLAUSE, "")?;
    let want = nested(rt.alloc(), "{{'case_clause',{", "1,", 9_996, "1}},[]}", "")?;
    asks(rt.alloc(), MAIN, body.as_str(), want.as_str())?;
    let limit = "{'system_limit',[]}";
    asks_long(rt.alloc(), "case {", "1,", 9_997, NO_CLAUSE, limit)
}
