// The jobs of a module: their lines, and the reports of single jobs, from the words to the bytes and the status.
use crate::transcripts::blocks_hold;
use std::test::Fail;

// A transcript of the runs. A line of a job that ends with a blank has `\x20` there.
const RUNS: &str = "# A process spawns another, and each ends with a reason of its own.
module 'm' ['main'/0,'c'/0] attributes [] 'main'/0 = fun () -> do call 'erlang':'spawn'('m','c',[]) call 'erlang':'exit'({'shutdown',1}) 'c'/0 = fun () -> call 'erlang':'exit'('boom') end

$ jobs --depth 3 --at 0
 |\x20
status 0
$ jobs --depth 3 --at 1
P |\x20
status 0
$ jobs --depth 3 --at 2
P P |\x20
P P.1 | P
status 0
$ jobs --at 2 --strict-access --depth 2
P P |\x20
P P.1 | P
status 0
$ jobs --depth 4 --at 3
P P P.1 |\x20
status 0
$ jobs --depth 400 --at 4
status 0
$ jobs --depth 400 --at 400
status 0
$ explore --depth 3 --job \"P P | \" # the first ends first, and then the second
depth 3, nodes 2, complete
error 1: P ends {'shutdown',1}
  P P
error 2: P.1 ends 'boom'
  P P P.1
errors 2, refusals 0
result: errors
status 1
$ explore --job \"P P.1 | P\" --depth 3 # the second ends first: the end of the first one sleeps, so nothing is below
depth 3, nodes 1, complete
error 1: P.1 ends 'boom'
  P P.1
errors 1, refusals 0
result: errors
status 1
$ explore --depth 3 --job \"P P.1 | \" --normal 'boom' # the end of the first one does not sleep, as it does where the search reaches it
depth 3, nodes 2, complete
error 1: P ends {'shutdown',1}
  P P.1 P
normal 1: P.1 ends 'boom'
  P P.1
errors 1, refusals 0, taken as normal 1
result: errors
status 1
$ explore --depth 3 --job \" | \" # the whole tree
depth 3, nodes 5, complete
error 1: P ends {'shutdown',1}
  P P
error 2: P.1 ends 'boom'
  P P.1
errors 2, refusals 0
result: errors
status 1
$ explore --depth 2 --job \"P P.1 | P\"
depth 2, nodes 1, complete
error 1: P.1 ends 'boom'
  P P.1
errors 1, refusals 0
result: errors
status 1
$ explore --depth 3 --job \"P P\"
status 2
job: 1 NoBar
$ explore --depth 3 --job \"P Q | P\"
status 2
job: 2 BadStep at 2
$ explore --depth 3 --job \"P P | P Q\"
status 2
job: 3 BadSleeper at 2
$ explore --depth 1 --job \"P P | \"
status 2
job: 4 TooLong
$ explore --depth 3 --job \"P P P | \"
status 2
job: 5 NotEnabled at step 3
$ explore --depth 3 --job \"P | P P.1 P.2\"
status 2
job: 6 NotAsleep at step 3
";

// The same over a module that is refused.
const REFUSED: &str = r#"# A module that does not end.
module
$ explore --depth 3 --job "no line"
status 2
input: 2 Expected at 6
$ jobs --depth 3 --at 1
status 2
input: 2 Expected at 6
"#;

#[test]
fn lists_jobs_and_explores_one(rt: HostRuntime) -> Result<(), Fail> {
    blocks_hold(&rt, rt.alloc(), RUNS, "")
}

// A module that is refused is reported before the line of a job.
#[test]
fn tells_a_module_before_a_job(rt: HostRuntime) -> Result<(), Fail> {
    blocks_hold(&rt, rt.alloc(), REFUSED, "")
}
