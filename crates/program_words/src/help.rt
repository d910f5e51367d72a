// What is at the end of the help of the program and of its commands: standard input and output, statuses, an example.

/// Of the program.
pub(crate) const OF_THE_PROGRAM: &str = "\
The program reads the text of one module, at most 1048576 bytes, from standard
input. `check` also reads a cover, after the module. `merge` reads reports, and
no module. A refusal is one line on standard error.
`schedule_explorer COMMAND --help` says more about each command.

Statuses:
  0   the schedule was replayed; or all nodes were visited and none shows an
      error; or the cover is good; or the jobs were listed
  1   all nodes were visited, and some show errors, or some random schedules do
  2   the module, the schedule, the cover, the job or a report was refused, or
      the input could not be read
  3   memory ran out, or not all nodes were visited, or random schedules show no
      error
  4   the output could not be written
  64  the words on the command line were refused, or ask for this help

Example:
  schedule_explorer explore --depth 20 --explain < m.core";

/// Of `replay`.
pub(crate) const OF_REPLAY: &str = "\
A step is a turn of a process, its pid (P, P.2.1), or a delivery (P>P.2).

Standard input: the text of one module, at most 1048576 bytes.
Standard output: the transcript, one line for each step.

Statuses:
  0   the whole schedule was replayed
  2   the module or the schedule was refused, or a step is not enabled, or the
      input could not be read
  3   memory ran out
  4   the output could not be written
  64  the words on the command line were refused, or ask for this help

Example:
  schedule_explorer replay \"P P P.2 P>P.2\" < m.core";

/// Of `explore`.
pub(crate) const OF_EXPLORE: &str = "\
Standard input: the text of one module, at most 1048576 bytes.
Standard output: the report, each finding with a schedule that `replay` takes.
A TERM is written as the report prints it: 'shutdown' or {'error',1}. In it the
atom '_' stands for any term: {'error','_'}. What --normal, --main-deadlock or
--idle-servers takes as normal is still listed, as normal, and does not count as
an error. With --idle-servers, messages in the mailboxes of processes that wait
are an error of their own, where P has ended and no step is enabled.
A LINE is one that `jobs` prints for this module and depth. With --job only the
nodes of that job are visited: its own node, and those below it.
With --states each state is expanded once, and --nodes limits the states. The
first line of the report then tells how many there are. --at-once searches so
too, through the schedules in which signals are delivered at once: no process
takes a turn while one is on its way to a process that lives, and the first such
delivery comes next. The message of a timer may come at any time after.
--states and --at-once are not for --cover or --job, which are of the tree.
With --format terms the report is Erlang terms, one a line, as `file:consult/1`
reads them. They hold what --explain shows, and are not for --cover or --job.

Statuses:
  0   all nodes were visited, and none shows an error
  1   all nodes were visited, and some show errors
  2   the module or the job was refused, or the input could not be read
  3   memory ran out, or not all nodes were visited
  4   the output could not be written
  64  the words on the command line were refused, or ask for this help

Example:
  schedule_explorer explore --depth 20 --explain < m.core";

/// Of `check`.
pub(crate) const OF_CHECK: &str = "\
Standard input: the text of one module, and after it, from the line %%cover on,
its cover: the tree that `explore --cover` prints. Anybody may have written it.
Standard output: one line, if the cover is good.

Statuses:
  0   the cover is good, so no schedule of at most N steps shows an error
  2   the module or the cover was refused, or the input could not be read
  3   memory ran out
  4   the output could not be written
  64  the words on the command line were refused, or ask for this help

Example:
  schedule_explorer explore --depth 12 --cover < m.core > m.report
  { cat m.core; echo; sed -n '/^%%cover$/,$p' m.report; } > m.cover
  schedule_explorer check --depth 12 < m.cover";

/// Of `jobs`.
pub(crate) const OF_JOBS: &str = "\
Standard input: the text of one module, at most 1048576 bytes.
Standard output: one line for each job, SCHEDULE | SLEEPING: the D steps that
lead to its node, and the steps that sleep there. `explore --job LINE` visits the
nodes of that job only. The nodes of all these jobs, and the nodes that fewer
than D steps lead to, are the whole tree.
The options that say what counts as an error change no job. They are taken here
so that one list of options serves all commands.

Statuses:
  0   all jobs at depth D were listed, or there are none
  2   the module was refused, or the input could not be read
  3   memory ran out
  4   the output could not be written
  64  the words on the command line were refused, or ask for this help

Example:
  schedule_explorer jobs --depth 20 --at 4 < m.core > m.jobs
  schedule_explorer explore --depth 20 --job \"$(head -n 1 m.jobs)\" < m.core";

/// Of `merge`.
pub(crate) const OF_MERGE: &str = "\
Standard input: reports of `explore`, one after another. The first is that of the
tree to depth D - 1, unless D is 0. Then come those of the jobs at depth D, in
any order, each explored with --job to depth N. All of them were made with the
options given here that say what counts as an error, and none with --explain,
--cover or --format terms.
Standard output: one report. It is that of the tree to depth N if no job is
missing; the reports do not tell how many jobs there are.

Statuses:
  0   all nodes were visited, and none shows an error
  1   all nodes were visited, and some show errors
  2   a report was refused, or the input could not be read
  3   memory ran out, or not all nodes were visited
  4   the output could not be written
  64  the words on the command line were refused, or ask for this help

Example:
  schedule_explorer explore --depth 3 < m.core > m.reports
  schedule_explorer jobs --depth 20 --at 4 < m.core > m.jobs
  while IFS= read -r JOB; do
    schedule_explorer explore --depth 20 --job \"$JOB\" < m.core >> m.reports
  done < m.jobs
  schedule_explorer merge --depth 20 --at 4 < m.reports";

/// Of `sample`.
pub(crate) const OF_SAMPLE: &str = "\
Standard input: the text of one module, at most 1048576 bytes.
Standard output: the report, each finding with a schedule that `replay` takes.
R schedules are followed, each until it has N steps or no step may be taken, and
what they show on the way is listed. At each place one of the steps that may be
taken there comes next, each as likely as the others. The same S gives the same
schedules. Others may show other errors, so no report of `sample` is clean.
A TERM is written as the report prints it: 'shutdown' or {'error',1}. In it the
atom '_' stands for any term: {'error','_'}. What --normal, --main-deadlock or
--idle-servers takes as normal is still listed, as normal, and does not count as
an error. With --idle-servers, messages in the mailboxes of processes that wait
are an error of their own, where P has ended and no step is enabled.
With --at-once no process takes a turn while a signal is on its way to a process
that lives, and the first such delivery comes next. The message of a timer may
come at any time after.
With --format terms the report is Erlang terms, one a line, as `file:consult/1`
reads them. They hold what --explain shows.

Statuses:
  1   some of the schedules show errors
  2   the module was refused, or the input could not be read
  3   memory ran out, or none of the schedules shows an error
  4   the output could not be written
  64  the words on the command line were refused, or ask for this help

Example:
  schedule_explorer sample --depth 200 --runs 5000 --explain < m.core";
