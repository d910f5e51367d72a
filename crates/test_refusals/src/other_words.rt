// The words that are refused.
use crate::asked::{rows_of, words_of};
use program_runs::{NAME, read_words, run};
use search_expansion::Unwatched;
use std::alloc::Global;
use std::sync::Wait;
use std::test::Fail;
use std::thread::Threads;
use test_support::{MemorySink, MemorySource, holds, nested, same};

// What is said of words. They are not those of a command.
fn refusal(alloc: Global, words: &[&str]) -> Result<String, Fail> {
    match read_words(alloc, words) {
        Ok(_) => Err(Fail::new(format_args!("{words:?} are those of a command"))),
        Err(error) => Ok(format!(in alloc; "{error}")?),
    }
}

// The first lines of what is said of words, each above words of which it is said: words of a command except for what they
// excuse, for their format, for what they ask for together, or where they look for jobs.
const UNREADABLE: &str = r#"
error: 'boom' is no term: see its byte 1
explore --depth 1 --normal boom
explore --depth 1 --job " | " --normal boom
explore --depth 3 --at-once --normal boom
explore --depth 3 --states --normal boom
jobs --depth 1 --at 0 --normal boom
sample --depth 1 --normal 'boom' --normal boom
sample --format xml --depth 1 --normal boom

error: '{'late'' is no term: see its byte 8
check --depth 1 --normal [] --normal {'late'
merge --depth 2 --at 1 --normal {'late'

error: '' is no term: see its byte 1
explore --depth 1 --normal ""

error: '9223372036854775808' is no term: see its byte 1
explore --depth 1 --normal 9223372036854775808

error: only one of the arguments '--allow-deadlock', '--main-deadlock' and '--idle-servers' can be used
explore --main-deadlock --depth 1 --allow-deadlock
explore --idle-servers --depth 1 --allow-deadlock
check --depth 1 --main-deadlock --idle-servers
explore --allow-deadlock --main-deadlock --idle-servers --depth 1
jobs --main-deadlock --depth 1 --allow-deadlock --at 1
jobs --idle-servers --depth 1 --main-deadlock --at 1
merge --allow-deadlock --at 1 --main-deadlock --depth 1
merge --allow-deadlock --at 1 --idle-servers --depth 1
sample --allow-deadlock --depth 1 --main-deadlock
sample --main-deadlock --depth 1 --idle-servers

error: the argument '--job' cannot be used with '--explain', '--cover' or '--format terms'
explore --depth 1 --job "P | " --explain
explore --cover --depth 1 --job ""
explore --depth 1 --job "P | " --format terms
explore --format terms --explain --depth 1 --job ""

error: the arguments '--states' and '--at-once' cannot be used with '--cover' or '--job'
explore --depth 3 --states --cover
explore --depth 3 --job "P | " --states
explore --states --explain --depth 3 --job ""
explore --depth 3 --at-once --cover
explore --at-once --depth 3 --job "P | "
explore --cover --states --depth 3 --at-once
explore --states --job "" --at-once --depth 3
explore --format terms --cover --depth 1 --states

error: invalid value '4' for '--at <D>': 4 is not in 0..=3
jobs --depth 3 --at 4

error: invalid value '400' for '--at <D>': 400 is not in 0..=399
merge --at 400 --depth 399

error: the argument '--format' takes 'text' or 'terms'
explore --depth 1 --format xml
explore --format "" --depth 1
explore --format Terms --depth 1 --explain
explore --states --depth 1 --format "terms "
explore --depth 1 --format texts --job "P | "
explore --cover --depth 1 --format term
sample --depth 1 --format xml
sample --format "" --explain --at-once --depth 1

error: the argument '--format terms' cannot be used with '--cover'
explore --depth 1 --cover --format terms
explore --format terms --explain --cover --depth 1
explore --format terms --cover --depth 1 --job "P | "
"#;

// Checks that the first line of what is said of words is this one.
fn is_told(alloc: Global, words: &str, wanted: &str) -> Result<(), Fail> {
    let text = refusal(alloc, words_of(alloc, words)?.as_slice())?;
    let Some((line, _)) = text.as_str().split_once('\n') else {
        return Err(Fail::from("what is said of words has a line"));
    };
    same(line.as_bytes(), wanted.as_bytes())
}

// Checks that the first line of a block is that of what is said of the words on each other line.
fn are_told(alloc: Global, block: &str) -> Result<(), Fail> {
    let Some((wanted, rows)) = block.split_once('\n') else {
        return Err(Fail::from("a block has words below its first line"));
    };
    for words in rows.lines() {
        is_told(alloc, words, wanted)?;
    }
    Ok(())
}

#[test]
fn tells_why_words_are_unreadable(rt: HostRuntime) -> Result<(), Fail> {
    for block in rows_of(UNREADABLE)?.split("\n\n") {
        are_told(rt.alloc(), block)?;
    }
    Ok(())
}

// Checks that seventeen reasons after these words are one too many.
fn are_too_many(alloc: Global, words: &str) -> Result<(), Fail> {
    let line = nested(alloc, words, " --normal []", 17, "", "")?;
    let wanted = "error: the argument '--normal' cannot be used more than 16 times";
    is_told(alloc, line.as_str(), wanted)
}

#[test]
fn tells_that_reasons_are_too_many(rt: HostRuntime) -> Result<(), Fail> {
    are_too_many(rt.alloc(), "check --depth 1")?;
    are_too_many(rt.alloc(), "merge --depth 1 --at 1")?;
    are_too_many(rt.alloc(), "sample --depth 1")
}

// Words of no command, after the name of the program.
const REFUSED: &str = r#"
replay
replay P P
explore
explore --depth 401
explore --depth -1
explore --depth 3 --nodes 0
explore --depth 3 --nodes 10000001
explore --depth 3 --workers 17
check
check --depth 401
check --depth 3 --cover
explore --depth 1 --normal
check --depth 1 --main-deadlock --main-deadlock
explore --depth 1 --idle-servers --idle-servers
sample --depth 1 --idle-servers true
explore --depth 3 --job
explore --depth 3 --job "-P | "
explore --depth 3 --job "P | " --job "P | "
explore --depth 3 --at 1
explore --depth 3 --states --states
explore --depth 3 --states 3
explore --depth 3 --at-once --at-once
explore --depth 3 --at-once --states --at-once
explore --depth 3 --states --states --at-once
explore --depth 3 --at-once 3
explore --depth 3 --at-once=true
check --depth 3 --states
check --depth 3 --at-once
check --depth 3 --job "P | "
check --depth 3 --at 1
jobs
jobs --depth 3
jobs --at 3
jobs --depth 401 --at 3
jobs --depth 400 --at 401
jobs --depth 3 --at -1
jobs --depth 3 --at 1 --at 1
jobs --depth 3 --at 1 --nodes 5
jobs --depth 3 --at 1 --cover
jobs --depth 3 --at 1 --states
jobs --depth 3 --at 1 --at-once
jobs --depth 3 --at 1 --job "P | "
jobs --help
merge
merge --depth 3
merge --at 3
merge --depth 401 --at 3
merge --depth 400 --at 401
merge --depth 3 --at 1 --depth 3
merge --depth 3 --at 1 --at 1
merge --depth 3 --at 1 --nodes 5
merge --depth 3 --at 1 --workers 2
merge --depth 3 --at 1 --explain
merge --depth 3 --at 1 --states
merge --depth 3 --at 1 --at-once
merge --depth 3 --at 1 --job "P | "
merge --depth 3 --at 1 m.reports
merge --help
sample
sample --runs 5 --seed 5
sample --depth 401
sample --depth 3 --depth 3
sample --depth 3 --runs
sample --depth 3 --runs 0
sample --depth 3 --runs 1000001
sample --depth 3 --runs 5 --runs 5
sample --depth 3 --seed 4294967296
sample --depth 3 --seed -1
sample --depth 3 --seed 5 --seed 6
sample --depth 3 --at-once --at-once
sample --depth 3 --explain --explain
sample --depth 3 --nodes 5
sample --depth 3 --workers 2
sample --depth 3 --cover
sample --depth 3 --states
sample --depth 3 --at 1
sample --depth 3 --job "P | "
sample --depth 3 m.core
sample --help
explore --depth 3 --runs 5
explore --depth 3 --seed 5
check --depth 3 --runs 5
check --depth 3 --seed 5
jobs --depth 3 --at 1 --runs 5
merge --depth 3 --at 1 --seed 5
explore --depth 3 --format
explore --depth 3 --format -terms
explore --depth 3 --format terms --format terms
explore --format text --depth 3 --format terms
sample --depth 3 --format
sample --format text --format text --depth 3
check --depth 3 --format text
jobs --depth 3 --at 1 --format text
merge --depth 3 --at 1 --format terms
replay P --format terms
replay P --normal []
help
--help
replay --help
"#;

// Checks that words are refused, and end the program with status 64: nothing is read, and the third stream alone gets the
// parser's text.
fn is_refused<T: Threads + Wait + Sync>(rt: &T, alloc: Global, words: &[&str]) -> Result<(), Fail> {
    let text = refusal(alloc, words)?;
    let mut input = MemorySource::in_pieces(b"", 1, 0);
    let mut output = MemorySink::with_room(alloc, 0)?;
    let mut errors = MemorySink::with_room(alloc, 4000)?;
    let status = run(
        rt,
        alloc,
        words,
        &mut input,
        &mut output,
        &mut errors,
        &Unwatched,
    );
    holds(status == 64, "they end with another status")?;
    holds(
        !input.has_failed && !output.has_failed,
        "something is read or written",
    )?;
    same(errors.bytes.as_slice(), text.as_bytes())
}

#[test]
fn refuses_and_reports_other_words(rt: HostRuntime) -> Result<(), Fail> {
    let alloc = rt.alloc();
    for words in rows_of(REFUSED)?.lines() {
        is_refused(&rt, alloc, words_of(alloc, words)?.as_slice())?;
    }
    is_refused(&rt, alloc, &[NAME])
}

// What `sample --help` says.
const HELP_OF_SAMPLE: &str = "\
Follows random schedules up to a depth, and reports their errors

Usage: schedule_explorer sample [OPTIONS] --depth <N>

Options:
      --depth <N>       How many steps a schedule may have, from 0 to 400
      --runs <R>        How many random schedules are followed,
                        from 1 to 1000000 [default: 1000]
      --seed <S>        From which number the schedules are drawn,
                        from 0 to 4294967295 [default: 1]
      --allow-deadlock  Counts no deadlock as an error, and lists none
      --main-deadlock   Counts a deadlock as an error only where P waits
      --idle-servers    Counts a deadlock as an error only where P waits; and
                        messages that stay unread, where P has ended
      --normal <TERM>   Takes an end with this reason as normal; may be given
                        16 times
      --strict-access   Counts a table call as an error if it is refused because
                        of who makes it
      --explain         Prints below each finding what its schedule does
      --at-once         Delivers signals at once
      --format <FORM>   How the report is written: `text`, or `terms` for one
                        Erlang term a line [default: text]
  -h, --help            Print help

Standard input: the text of one module, at most 1048576 bytes.
Standard output: the report, each finding with a schedule that `replay` takes.
R schedules are followed, each until it has N steps or no step may be taken, and
what they show on the way is listed. At each place one of the steps that may be
taken there comes next, each as likely as the others. The same S gives the same
schedules. Others may show other errors, so no report of `sample` is clean.
A TERM is written as the report prints it: 'shutdown' or {'error',1}. In it the
atom '_' stands for any term: {'error','_'}. What --normal, --main-deadlock or
--idle-servers takes as normal is still listed, as normal, and does not count as
an error. With --idle-servers, messages in the mailboxes of processes that wait
are an error of their own, where P has ended and no step is enabled.
With --at-once no process takes a turn while a signal is on its way to a process
that lives, and the first such delivery comes next. The message of a timer may
come at any time after.
With --format terms the report is Erlang terms, one a line, as `file:consult/1`
reads them. They hold what --explain shows.

Statuses:
  1   some of the schedules show errors
  2   the module was refused, or the input could not be read
  3   memory ran out, or none of the schedules shows an error
  4   the output could not be written
  64  the words on the command line were refused, or ask for this help

Example:
  schedule_explorer sample --depth 200 --runs 5000 --explain < m.core
";

#[test]
fn says_how_to_sample(rt: HostRuntime) -> Result<(), Fail> {
    let text = refusal(rt.alloc(), &[NAME, "sample", "--help"])?;
    same(text.as_bytes(), HELP_OF_SAMPLE.as_bytes())
}
