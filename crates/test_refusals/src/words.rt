// The words of the command line.
use crate::asked::{are_asked, words_of};
use program_runs::run_to_exit;
use search_expansion::Unwatched;
use std::alloc::Global;
use std::process::ExitCode;
use std::sync::Wait;
use std::test::Fail;
use std::thread::Threads;
use test_support::{MemorySink, MemorySource, holds, same};

// Words of a replay. Blanks stay as they are.
const REPLAYS: &str = r#"
replay "P P.2>P" -> replay "P P.2>P"
replay "" -> replay ""
replay " P" -> replay " P"
replay "P " -> replay "P "
"#;

#[test]
fn reads_the_words_of_a_replay(rt: HostRuntime) -> Result<(), Fail> {
    are_asked(rt.alloc(), REPLAYS)
}

// Words of an exploration, and its depth, its limit of nodes, its flags, and what it prints.
const EXPLORATIONS: &str = r#"
explore --depth 0 -> explore depth 0, nodes 1000000, workers 1, by tree, plain
explore --depth 400 --nodes 10000000 -> explore depth 400, nodes 10000000, workers 1, by tree, plain
explore --allow-deadlock --nodes 1 --depth 7 -> explore depth 7, nodes 1, workers 1, by tree, plain, allow-deadlock
explore --strict-access --depth 12 --allow-deadlock -> explore depth 12, nodes 1000000, workers 1, by tree, plain, allow-deadlock, strict-access
explore --depth 3 --cover -> explore depth 3, nodes 1000000, workers 1, by tree, covered
explore --explain --depth 3 -> explore depth 3, nodes 1000000, workers 1, by tree, explained
explore --depth 3 --format terms -> explore depth 3, nodes 1000000, workers 1, by tree, as terms
explore --format text --depth 3 -> explore depth 3, nodes 1000000, workers 1, by tree, plain
explore --explain --format terms --strict-access --depth 3 --nodes 5 -> explore depth 3, nodes 5, workers 1, by tree, explained as terms, strict-access
explore --format text --explain --allow-deadlock --depth 3 -> explore depth 3, nodes 1000000, workers 1, by tree, explained, allow-deadlock
explore --cover --depth 3 --format text -> explore depth 3, nodes 1000000, workers 1, by tree, covered
"#;

#[test]
fn reads_the_words_of_an_exploration(rt: HostRuntime) -> Result<(), Fail> {
    are_asked(rt.alloc(), EXPLORATIONS)
}

// Words of an exploration, and how it searches, its workers, and what it prints.
const SEARCHES: &str = r#"
explore --depth 3 -> explore depth 3, nodes 1000000, workers 1, by tree, plain
explore --depth 3 --states -> explore depth 3, nodes 1000000, workers 1, by states, plain
explore --states --explain --depth 3 -> explore depth 3, nodes 1000000, workers 1, by states, explained
explore --depth 3 --workers 4 --states -> explore depth 3, nodes 1000000, workers 4, by states, plain
explore --depth 3 --at-once -> explore depth 3, nodes 1000000, workers 1, by states at once, plain
explore --at-once --depth 3 --states -> explore depth 3, nodes 1000000, workers 1, by states at once, plain
explore --depth 3 --states --at-once -> explore depth 3, nodes 1000000, workers 1, by states at once, plain
explore --explain --at-once --workers 4 --depth 3 -> explore depth 3, nodes 1000000, workers 4, by states at once, explained
explore --cover --workers 4 --depth 3 -> explore depth 3, nodes 1000000, workers 4, by tree, covered
explore --format terms --workers 4 --depth 3 -> explore depth 3, nodes 1000000, workers 4, by tree, as terms
explore --states --depth 3 --format terms -> explore depth 3, nodes 1000000, workers 1, by states, as terms
explore --at-once --format terms --explain --depth 3 --states -> explore depth 3, nodes 1000000, workers 1, by states at once, explained as terms
"#;

#[test]
fn reads_how_an_exploration_searches(rt: HostRuntime) -> Result<(), Fail> {
    are_asked(rt.alloc(), SEARCHES)
}

// Words of a check, and its depth and flags.
const CHECKS: &str = r#"
check --depth 0 -> check depth 0
check --strict-access --depth 400 -> check depth 400, strict-access
check --depth 7 --allow-deadlock -> check depth 7, allow-deadlock
"#;

#[test]
fn reads_the_words_of_a_check(rt: HostRuntime) -> Result<(), Fail> {
    are_asked(rt.alloc(), CHECKS)
}

// Words of an exploration of one job, and the line of the job, its depth, and what it excuses. The line stays as it is.
const ONE_JOB: &str = r#"
explore --depth 4 --job "P P.1 | P" -> explore job "P P.1 | P", depth 4, nodes 1000000, workers 1, by tree
explore --job " | " --main-deadlock --depth 400 -> explore job " | ", depth 400, nodes 1000000, workers 1, by tree, main-deadlock
explore --depth 4 --job "P>P.1 |  | P " -> explore job "P>P.1 |  | P ", depth 4, nodes 1000000, workers 1, by tree
explore --depth 0 --job "no line" -> explore job "no line", depth 0, nodes 1000000, workers 1, by tree
explore --depth 0 --job "" -> explore job "", depth 0, nodes 1000000, workers 1, by tree
explore --format text --depth 4 --job "P | " -> explore job "P | ", depth 4, nodes 1000000, workers 1, by tree
"#;

#[test]
fn reads_the_words_of_one_job(rt: HostRuntime) -> Result<(), Fail> {
    are_asked(rt.alloc(), ONE_JOB)
}

// Words that ask for jobs, and their depth.
const JOBS: &str = r#"
jobs --depth 0 --at 0 -> jobs at 0
jobs --at 400 --depth 400 -> jobs at 400
jobs --depth 400 --at 0 -> jobs at 0
jobs --allow-deadlock --depth 12 --normal 'boom' --at 3 --strict-access --normal [] -> jobs at 3
jobs --main-deadlock --at 11 --depth 12 -> jobs at 11
"#;

#[test]
fn reads_the_words_of_jobs(rt: HostRuntime) -> Result<(), Fail> {
    are_asked(rt.alloc(), JOBS)
}

// Words of a merge, and the depth of its tree, that of its jobs, and its flags.
const MERGES: &str = r#"
merge --depth 0 --at 0 -> merge depth 0, at 0
merge --at 400 --depth 400 -> merge depth 400, at 400
merge --depth 400 --strict-access --at 0 -> merge depth 400, at 0, strict-access
merge --allow-deadlock --depth 12 --at 3 -> merge depth 12, at 3, allow-deadlock
merge --at 11 --strict-access --allow-deadlock --depth 12 -> merge depth 12, at 11, allow-deadlock, strict-access
"#;

#[test]
fn reads_the_words_of_a_merge(rt: HostRuntime) -> Result<(), Fail> {
    are_asked(rt.alloc(), MERGES)
}

// Words of random schedules, how these are taken, and what is printed of them.
const SAMPLES: &str = r#"
sample --depth 0 -> sample depth 0, runs 1000, seed 1, at any time, plain
sample --depth 400 --runs 1000000 --seed 4294967295 -> sample depth 400, runs 1000000, seed 4294967295, at any time, plain
sample --seed 0 --runs 1 --depth 7 -> sample depth 7, runs 1, seed 0, at any time, plain
sample --at-once --depth 60 -> sample depth 60, runs 1000, seed 1, at once, plain
sample --depth 60 --explain --seed 2 -> sample depth 60, runs 1000, seed 2, at any time, explained
sample --allow-deadlock --depth 60 --runs 50 -> sample depth 60, runs 50, seed 1, at any time, plain, allow-deadlock
sample --explain --strict-access --runs 50 --at-once --seed 3 --depth 60 -> sample depth 60, runs 50, seed 3, at once, explained, strict-access
sample --depth 60 --format terms -> sample depth 60, runs 1000, seed 1, at any time, as terms
sample --format terms --seed 2 --explain --at-once --depth 60 -> sample depth 60, runs 1000, seed 2, at once, explained as terms
sample --explain --depth 60 --format text --runs 50 -> sample depth 60, runs 50, seed 1, at any time, explained
"#;

#[test]
fn reads_the_words_of_random_schedules(rt: HostRuntime) -> Result<(), Fail> {
    are_asked(rt.alloc(), SAMPLES)
}

// A process that ends at once.
const ENDS: &[u8] = b"module 'm' ['main'/0] attributes [] 'main'/0 = fun () -> 'ok' end";

// Checks that a run with these words, if there was memory for them, has this status and this output, and what the third
// stream gets.
fn exits<T: Threads + Wait + Sync>(
    rt: &T,
    alloc: Global,
    words: Option<Vec<&str>>,
    status: u8,
    lines: &str,
    line: &str,
) -> Result<(), Fail> {
    let mut input = MemorySource::new(ENDS);
    let mut output = MemorySink::with_room(alloc, 100)?;
    let mut errors = MemorySink::with_room(alloc, 100)?;
    let exit = run_to_exit(
        rt,
        alloc,
        words,
        &mut input,
        &mut output,
        &mut errors,
        &Unwatched,
    );
    holds(exit == ExitCode::from(status), "it has another status")?;
    same(output.bytes.as_slice(), lines.as_bytes())?;
    same(errors.bytes.as_slice(), line.as_bytes())
}

#[test]
fn gives_the_status_as_an_exit_code(rt: HostRuntime) -> Result<(), Fail> {
    let alloc = rt.alloc();
    let ends = "1 P ends 'normal'\n";
    let one = words_of(alloc, "replay P")?;
    exits(&rt, alloc, Some(one), 0, ends, "")?;
    let two = words_of(alloc, "replay \"P P\"")?;
    let stopped = "replay: 1 NotEnabled at step 2\n";
    exits(&rt, alloc, Some(two), 2, ends, stopped)?;
    exits(&rt, alloc, None, 64, "", "error: out of memory\n")
}
