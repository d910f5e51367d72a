// Reports that are put together, from the words to the bytes and the status.
use crate::transcripts::blocks_hold;
use std::test::Fail;

// A transcript whose inputs are reports, one after another. In most of them a process spawns another, and each ends
// with a reason of its own. The jobs of that tree are below the nodes to one step, and of an error that two reports
// show, the shorter schedule stays.
const RUNS: &str =
    "# The nodes to one step, the job in which the first process ends first, and the one in which the second does.
depth 1, nodes 2, complete
errors 0, refusals 0
result: clean
depth 3, nodes 2, complete
error 1: P ends {'shutdown',1}
  P P
error 2: P.1 ends 'boom'
  P P P.1
errors 2, refusals 0
result: errors
depth 3, nodes 1, complete
error 1: P.1 ends 'boom'
  P P.1
errors 1, refusals 0
result: errors

$ merge --depth 3 --at 2
depth 3, nodes 5, complete
error 1: P ends {'shutdown',1}
  P P
error 2: P.1 ends 'boom'
  P P.1
errors 2, refusals 0
result: errors
status 1
----
# The jobs in another order.
depth 1, nodes 2, complete
errors 0, refusals 0
result: clean
depth 3, nodes 1, complete
error 1: P.1 ends 'boom'
  P P.1
errors 1, refusals 0
result: errors
depth 3, nodes 2, complete
error 1: P ends {'shutdown',1}
  P P
error 2: P.1 ends 'boom'
  P P P.1
errors 2, refusals 0
result: errors

$ merge --at 2 --depth 3
depth 3, nodes 5, complete
error 1: P ends {'shutdown',1}
  P P
error 2: P.1 ends 'boom'
  P P.1
errors 2, refusals 0
result: errors
status 1
----
# The report of the whole tree alone.
depth 3, nodes 5, complete
error 1: P ends {'shutdown',1}
  P P
error 2: P.1 ends 'boom'
  P P.1
errors 2, refusals 0
result: errors

$ merge --depth 3 --at 0
depth 3, nodes 5, complete
error 1: P ends {'shutdown',1}
  P P
error 2: P.1 ends 'boom'
  P P.1
errors 2, refusals 0
result: errors
status 1
----
# One node, where a deadlock is no error.
depth 3, nodes 1, complete
errors 0, refusals 0
result: clean

$ merge --depth 3 --at 0 --allow-deadlock
depth 3, nodes 1, complete
errors 0, refusals 0
result: clean
status 0
----
# The nodes to one step alone.
depth 1, nodes 2, complete
errors 0, refusals 0
result: clean

$ merge --depth 1 --at 0
depth 1, nodes 2, complete
errors 0, refusals 0
result: clean
status 0
----
# A job that reached its limit.
depth 1, nodes 2, complete
errors 0, refusals 0
result: clean
depth 3, incomplete: node limit
errors 0, refusals 0
result: incomplete
depth 3, nodes 2, complete
error 1: P ends {'shutdown',1}
  P P
error 2: P.1 ends 'boom'
  P P P.1
errors 2, refusals 0
result: errors

$ merge --depth 3 --at 2
depth 3, incomplete: node limit
error 1: P ends {'shutdown',1}
  P P
error 2: P.1 ends 'boom'
  P P P.1
errors 2, refusals 0
result: incomplete
status 3
----
# One reason is taken as normal.
depth 1, nodes 2, complete
errors 0, refusals 0, taken as normal 0
result: clean
depth 3, nodes 2, complete
error 1: P ends {'shutdown',1}
  P P.1 P
normal 1: P.1 ends 'boom'
  P P.1
errors 1, refusals 0, taken as normal 1
result: errors

$ merge --depth 3 --at 2 --normal 'boom'
depth 3, nodes 4, complete
error 1: P ends {'shutdown',1}
  P P.1 P
normal 1: P.1 ends 'boom'
  P P.1
errors 1, refusals 0, taken as normal 1
result: errors
status 1
----
# A call that is refused.
depth 3, nodes 4, complete
refusal 1: P.2 request 1 ets:insert('t',{'a',1}) -> badarg (2 NoTable)
  P P P.2
errors 0, refusals 1
result: clean

$ merge --depth 3 --at 0
depth 3, nodes 4, complete
refusal 1: P.2 request 1 ets:insert('t',{'a',1}) -> badarg (2 NoTable)
  P P P.2
errors 0, refusals 1
result: clean
status 0
----
# No report.

$ merge --depth 3 --at 0
status 2
report: 1 BadLine at line 1
----
# The nodes to two steps, a job in which a message stays unread, and one in which none does.
depth 2, nodes 3, complete
errors 0, refusals 0, taken as normal 0
result: clean
depth 5, nodes 2, complete
error 1: unread messages of P.1
  P P P P>P.1
normal 1: deadlock of P.1
  P P P P>P.1
errors 1, refusals 0, taken as normal 1
result: errors
depth 5, nodes 1, complete
errors 0, refusals 0, taken as normal 0
result: clean

$ merge --depth 5 --at 3 --idle-servers
depth 5, nodes 6, complete
error 1: unread messages of P.1
  P P P P>P.1
normal 1: deadlock of P.1
  P P P P>P.1
errors 1, refusals 0, taken as normal 1
result: errors
status 1
----
# What is unread is no error without the option.
depth 5, nodes 6, complete
error 1: unread messages of P.1
  P P P P>P.1
normal 1: deadlock of P.1
  P P P P>P.1
errors 1, refusals 0, taken as normal 1
result: errors

$ merge --depth 5 --at 0 --main-deadlock
status 2
report: 1 BadLine at line 2
----
# The report of the tree above comes first.
depth 3, nodes 2, complete
error 1: P ends {'shutdown',1}
  P P
error 2: P.1 ends 'boom'
  P P P.1
errors 2, refusals 0
result: errors
depth 1, nodes 2, complete
errors 0, refusals 0
result: clean

$ merge --depth 3 --at 2
status 2
report: 1 BadLine at line 1
----
# A report of another depth.
depth 1, nodes 2, complete
errors 0, refusals 0
result: clean
depth 3, nodes 2, complete
error 1: P ends {'shutdown',1}
  P P
error 2: P.1 ends 'boom'
  P P P.1
errors 2, refusals 0
result: errors
depth 2, nodes 1, complete
errors 0, refusals 0
result: clean

$ merge --depth 3 --at 2
status 2
report: 1 BadLine at line 11
----
# An explained report counts cuts, which are no part of a plain report.
depth 1, nodes 2, complete
errors 0, refusals 0
result: clean
depth 3, nodes 1, complete, cut 0
errors 0, refusals 0
result: clean, all schedules

$ merge --depth 3 --at 2
status 2
report: 1 BadLine at line 4
----
# What is taken as normal is counted where something is excused.
depth 1, nodes 2, complete
errors 0, refusals 0
result: clean
depth 3, nodes 1, complete
error 1: P.1 ends 'boom'
  P P.1
errors 1, refusals 0
result: errors

$ merge --depth 3 --at 2 --main-deadlock
status 2
report: 1 BadLine at line 2
----
# It is reported only there.
depth 1, nodes 2, complete
errors 0, refusals 0
result: clean
depth 3, nodes 2, complete
error 1: P ends {'shutdown',1}
  P P.1 P
normal 1: P.1 ends 'boom'
  P P.1
errors 1, refusals 0, taken as normal 1
result: errors

$ merge --depth 3 --at 2
status 2
report: 1 BadLine at line 7
----
# A report that ends early.
depth 3, nodes 1, complete
errors 0, refusals 0

$ merge --depth 3 --at 0
status 2
report: 1 BadLine at line 3
----
# More nodes than a number has room for.
depth 3, nodes 18446744073709551615, complete
errors 0, refusals 0
result: clean
depth 3, nodes 1, complete
errors 0, refusals 0
result: clean

$ merge --depth 3 --at 0
status 2
report: 4 TooManyNodes
----
# A line that is no report.
clean

$ merge --depth 3 --at 0
status 2
report: 1 BadLine at line 1
";

#[test]
fn puts_reports_together(rt: HostRuntime) -> Result<(), Fail> {
    blocks_hold(&rt, rt.alloc(), RUNS, "")
}
