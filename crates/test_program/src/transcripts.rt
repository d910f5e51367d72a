// Transcripts of runs, which are tables of tests: inputs, and what comes of them.
//
// A transcript has blocks, with a line `----` between them. The first line of a block says what it is about. Below that
// is an input, up to the line break before the first `$ `. After each `$ ` are the words of a run over that input: a
// word that has blanks is in quotes, and after ` # ` is a remark. Below them is what the run tells: what it writes,
// then its status, and then the line of its refusal where there is one.
ghost use Rattle.std.specs.Prelude.{◌≡◌, false};

use program_runs::{NAME, run};
use search_expansion::Unwatched;
use std::alloc::{AllocError, Global};
use std::sync::Wait;
use std::test::Fail;
use std::thread::Threads;
use test_support::{MemorySink, MemorySource, holds, same};

/// The input of a block, and its runs, with `$ ` between them.
pub(crate) fn parts_of_block(block: &str) -> Result<(&str, &str), Fail> {
    let Some((front, runs)) = block.split_once("\n$ ") else {
        return Err(Fail::from("a block has runs"));
    };
    let Some((_, input)) = front.split_once('\n') else {
        return Err(Fail::from("a block has a first line and an input"));
    };
    Ok((input, runs))
}

/// The words of a run, and what it tells.
pub(crate) fn parts_of_run(run: &str) -> Result<(&str, &str), Fail> {
    let Some((line, told)) = run.split_once('\n') else {
        return Err(Fail::from("a run has a line of words"));
    };
    match line.split_once(" # ") {
        Some((words, _)) => Ok((words, told)),
        None => Ok((line, told)),
    }
}

/// The input of a block, the words of its first run, and what that tells.
pub(crate) fn first_run(block: &str) -> Result<(&str, &str, &str), Fail> {
    let (input, runs) = parts_of_block(block)?;
    let Some(run) = runs.split("$ ").next() else {
        return Err(Fail::from("a block has a first run"));
    };
    let (words, told) = parts_of_run(run)?;
    Ok((input, words, told))
}

/// What a run tells that wrote these bytes and ended with this status and this refusal.
pub(crate) fn told(
    alloc: Global,
    written: &[u8],
    status: u8,
    refusal: &[u8],
) -> Result<Vec<u8>, AllocError> {
    let mut all = Vec::new(alloc);
    all.extend_from_slice(written)?;
    all.extend_from_slice(format!(in alloc; "status {status}\n")?.as_bytes())?;
    all.extend_from_slice(refusal)?;
    Ok(all)
}

// Adds the words of a line, which have blanks between them.
fn push_words<'a>(words: &mut Vec<&'a str>, line: &'a str) -> Result<(), AllocError> {
    for word in line.split_ascii_whitespace() {
        words.push(word)?;
    }
    Ok(())
}

// The name of the program, the words of a line, and more words.
fn words_of<'a>(alloc: Global, line: &'a str, more: &'a str) -> Result<Vec<&'a str>, AllocError> {
    let mut words = Vec::new(alloc);
    words.push(NAME)?;
    let mut is_quoted = false;
    for part in line.split('"') {
        if is_quoted {
            words.push(part)?;
        } else {
            push_words(&mut words, part)?;
        }
        is_quoted = !is_quoted;
    }
    push_words(&mut words, more)?;
    Ok(words)
}

/// Runs the program with these words and more over these streams, and gives what it tells.
pub(crate) fn told_by_run<T: Threads + Wait + Sync>(
    rt: &T,
    alloc: Global,
    words: &str,
    more: &str,
    input: &mut MemorySource<'_>,
    output: &mut MemorySink,
) -> Result<Vec<u8>, Fail>
    requires readable { input.old.has_failed ≡ false }
    requires writable { output.old.has_failed ≡ false }
{
    let words = words_of(alloc, words, more)?;
    let mut errors = MemorySink::with_room(alloc, 1000)?;
    let status = run(
        rt,
        alloc,
        words.as_slice(),
        input,
        output,
        &mut errors,
        &Unwatched,
    );
    Ok(told(
        alloc,
        output.bytes.as_slice(),
        status,
        errors.bytes.as_slice(),
    )?)
}

// Checks what a run tells, and that its output is flushed where it is not refused, and only there.
fn run_holds<T: Threads + Wait + Sync>(
    rt: &T,
    alloc: Global,
    input: &str,
    run: &str,
    more: &str,
) -> Result<(), Fail> {
    let (words, wanted) = parts_of_run(run)?;
    let mut source = MemorySource::new(input.as_bytes());
    let mut output = MemorySink::with_room(alloc, 10_000)?;
    let got = told_by_run(rt, alloc, words, more, &mut source, &mut output)?;
    same(got.as_slice(), wanted.as_bytes())?;
    let is_refused = wanted.contains("status 2\n");
    holds(
        output.is_flushed != is_refused,
        "what was written is flushed",
    )
}

// Checks the runs over one input.
fn runs_hold<T: Threads + Wait + Sync>(
    rt: &T,
    alloc: Global,
    input: &str,
    runs: &str,
    more: &str,
) -> Result<(), Fail> {
    for run in runs.split("$ ") {
        run_holds(rt, alloc, input, run, more)?;
    }
    Ok(())
}

/// Checks each run of these blocks, with more words at the end of its own.
pub(crate) fn blocks_hold<T: Threads + Wait + Sync>(
    rt: &T,
    alloc: Global,
    blocks: &str,
    more: &str,
) -> Result<(), Fail> {
    for block in blocks.split("----\n") {
        let (input, runs) = parts_of_block(block)?;
        runs_hold(rt, alloc, input, runs, more)?;
    }
    Ok(())
}

/// Checks that the first run of a block, which shows errors, writes a beginning of its report where the output fails:
/// within each line, and between any two.
pub(crate) fn beginnings_hold<T: Threads + Wait + Sync>(
    rt: &T,
    alloc: Global,
    block: &str,
) -> Result<(), Fail> {
    let (input, words, wanted) = first_run(block)?;
    let Some(report) = wanted.strip_suffix("status 1\n") else {
        return Err(Fail::from("the run shows errors"));
    };
    let report = report.as_bytes();
    for room in 0..report.len() {
        let mut source = MemorySource::new(input.as_bytes());
        let mut output = MemorySink::with_room(alloc, room)?;
        let got = told_by_run(rt, alloc, words, "", &mut source, &mut output)?;
        let wanted = told(alloc, &report[..room], 4, b"output failed\n")?;
        same(got.as_slice(), wanted.as_slice())?;
    }
    Ok(())
}
