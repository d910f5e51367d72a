// Calls that a process answers by itself, within the evaluation.
use super::runs::{MAIN, ask_all, ask_long};
use std::test::Fail;

// Calls of the process itself, and below each what is asked.
const OWN_CALLS: &str = "\
call 'ets':'lookup'('t',call 'erlang':'self'())
lookup 't' P
'normal'

% the arguments go from left to right
call 'ets':'lookup'('t',call 'erlang':'-'(call 'ets':'lookup'('t',101),call 'ets':'lookup'('t',102)))
lookup 't' 101
lookup 't' 102
lookup 't' -1
'normal'

call 'erlang':'error'('a')
{'a',[]}

call 'erlang':'exit'('a')
'a'

call 'erlang':'throw'('a')
{{'nocatch','a'},[]}

call 'ets':'lookup'('t',catch call 'erlang':'hd'([]))
lookup 't' {'EXIT',{'badarg',[]}}
'normal'

call 'ets':'lookup'('t',call 'erlang':'+'(case 3 of <X> when call 'erlang':'hd'(X) -> 1 <X> when call 'erlang':'>'(X,3) -> 2 <X> when call 'erlang':'>'(X,2) -> X end))
lookup 't' 3
'normal'";

// A list of 4,999 integers has 9,999 nodes, one of 5,000 has 10,001; a handler reads the reason.
const LONG_RESULTS: &str = "\
call 'erlang':'tuple_to_list'({
4998 times 1,
1})
'normal'

call 'erlang':'tuple_to_list'({
4999 times 1,
1})
{'system_limit',[]}

call 'ets':'lookup'('t',try call 'erlang':'tuple_to_list'({
4999 times 1,
1}) of <X> -> 'true' catch <X,Y> -> Y)
lookup 't' 'system_limit'
'normal'";

#[test]
fn a_process_answers_its_own_calls(rt: HostRuntime) -> Result<(), Fail> {
    ask_all(rt.alloc(), MAIN, OWN_CALLS)?;
    ask_long(rt.alloc(), LONG_RESULTS)
}
