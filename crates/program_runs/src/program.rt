// The whole program over its three streams, from its words to its exit status.
ghost use Rattle.program_runs.specs.Ends.{WritesNothing, IsRefusedBefore, IsHandedOn};
ghost use Rattle.std.specs.Prelude.{◌≡◌, ◌≢◌, ◌==◌, ℕ, List, None, IfSome, false, codes, map, Err};
ghost use Rattle.std.specs.Process.{exit_status};
ghost use Rattle.clap.specs.Values.{kind_of};
ghost use Rattle.term_core.specs.Stream.{Writes};
ghost use Rattle.program_words.specs.Words.{IsInRange};
ghost use Rattle.program_runs.specs.Program.{IsDone, IsRun, IsReported, AreRefused, CannotBeRead, HaveNoMemory, written};
ghost use Rattle.program_runs.specs.Status.{status_of};

use crate::check::run_check;
use crate::explore::run_explore;
use crate::fault_text::write_fault;
use crate::job::run_job;
use crate::jobs::run_jobs;
use crate::merge::run_merge;
use crate::replay::run_replay;
use crate::sample::run_sample;
use crate::verdict::{RunFault, Verdict, status};
use clap::Error;
use clap::error::ErrorKind;
use program_words::{Words, read_words};
use search_crew::Observer;
use std::alloc::Global;
use std::convert::AsStr;
use std::process::ExitCode;
use std::sync::Wait;
use std::thread::Threads;
use term_core::{Sink, Source, WriteFault, write_all};

/// The exit status where the words are not those of a command, or there was no memory for them.
pub const WORDS_REFUSED: u8 = 64;

/// What is written where there was no memory for the words: the parser's own text.
pub const NO_MEMORY_FOR_WORDS: &[u8] = b"error: out of memory\n";

/// The whole program: does what its words ask for, as `run` does, and gives the exit code of that status. Where there
/// was no memory for the words, nothing is read, the third stream gets the parser's text for that, and the status is
/// 64.
pub fn run_to_exit<
    T: Threads + Wait + Sync,
    S: AsStr + Drop,
    R: Source,
    W: Sink,
    E: Sink,
    O: Observer + Sync,
>(
    rt: &T,
    alloc: Global,
    words: Option<Vec<S>>,
    input: &mut R,
    output: &mut W,
    errors: &mut E,
    observer: &O,
) -> ExitCode
    requires readable { R.has_failed input.old ≡ false }
    requires writable { W.has_failed output.old ≡ false }
    requires reportable { E.has_failed errors.old ≡ false }
    ensures run { exit_status result ≢ 64 → IfSome words (λ words. IsRun (map S.text words.items) (R.remaining input.old) (R.has_failed input.new)
        (written W.contents W.has_failed W.is_flushed output.old output.new)
        (written E.contents E.has_failed E.is_flushed errors.old errors.new) (exit_status result)) }
    ensures refused { exit_status result ≡ 64 → IfSome words (λ words. AreRefused (map S.text words.items)
        (written W.contents W.has_failed W.is_flushed output.old output.new)
        (written E.contents E.has_failed E.is_flushed errors.old errors.new)) }
    ensures no_words { words ≡ None → (exit_status result ≡ 64)
        × HaveNoMemory (written W.contents W.has_failed W.is_flushed output.old output.new) (written E.contents E.has_failed E.is_flushed errors.old errors.new) }
    // Nothing is read where the words were refused.
    ensures unread { exit_status result ≡ 64 → (R.remaining input.new ≡ R.remaining input.old) × (R.has_failed input.new ≡ false) }
    // Status 4 comes where the output has failed, at a write or at the flush, and only there.
    ensures failed { W.has_failed output.new ≡ (exit_status result == 4) }
{
    let status = match words {
        Some(words) => run(rt, alloc, words.as_slice(), input, output, errors, observer),
        None => {
            let _ = write_all(errors, NO_MEMORY_FOR_WORDS);
            WORDS_REFUSED
        }
    };
    ExitCode::from(status)
}

/// Does what the words of a command line ask for, the first of which is the program's name, and gives the exit status:
/// replays a schedule in the module that the input has, or explores its schedules or those of a job, or follows random
/// ones, or lists jobs, or puts together the reports that the input has instead, or checks the cover that follows the
/// module, writes the transcript, the report or the answer to the output and flushes that, and reports a refusal by its
/// line on the third stream, which it does not flush. The observer is informed of the work of an exploration or a check.
/// Where the words are refused, with status 64, the third stream gets the parser's text, and the output nothing.
pub fn run<T: Threads + Wait + Sync, S: AsStr, R: Source, W: Sink, E: Sink, O: Observer + Sync>(
    rt: &T,
    alloc: Global,
    words: &[S],
    input: &mut R,
    output: &mut W,
    errors: &mut E,
    observer: &O,
) -> u8
    requires readable { R.has_failed input.old ≡ false }
    requires writable { W.has_failed output.old ≡ false }
    requires reportable { E.has_failed errors.old ≡ false }
    ensures run { result ≢ 64 → IsRun (map S.text words.now) (R.remaining input.old) (R.has_failed input.new)
        (written W.contents W.has_failed W.is_flushed output.old output.new)
        (written E.contents E.has_failed E.is_flushed errors.old errors.new) result }
    ensures refused { result ≡ 64 → AreRefused (map S.text words.now)
        (written W.contents W.has_failed W.is_flushed output.old output.new)
        (written E.contents E.has_failed E.is_flushed errors.old errors.new) }
    // Nothing is read then.
    ensures unread { result ≡ 64 → (R.remaining input.new ≡ R.remaining input.old) × (R.has_failed input.new ≡ false) }
    // Status 4 comes where the output has failed, at a write or at the flush, and only there.
    ensures failed { W.has_failed output.new ≡ (result == 4) }
{
    match read_words(alloc, words) {
        Ok(asked) => {
            let outcome = run_asked(rt, alloc, &asked, input, observer, output);
            report(&outcome, errors)
        }
        Err(error) => {
            let _ = write_words_error(alloc, &error, errors);
            WORDS_REFUSED
        }
    }
}

// Does what was asked for.
fn run_asked<T: Threads + Wait + Sync, R: Source, O: Observer + Sync, W: Sink>(
    rt: &T,
    alloc: Global,
    asked: &Words,
    input: &mut R,
    observer: &O,
    output: &mut W,
) -> Result<Verdict, RunFault>
    requires readable { R.has_failed input.old ≡ false }
    requires writable { W.has_failed output.old ≡ false }
    requires range { IsInRange asked.now }
    ensures run { IfSome (R.remaining input.old) (λ bytes. IsDone asked.now bytes (W.contents output.old) (W.contents output.new) (W.has_failed output.new) result) }
    ensures read_failed { result ≡ Err RunFault.ReadFailed → CannotBeRead asked.now (R.remaining input.old) (R.has_failed input.new) }
    ensures sound { (result ≡ Err RunFault.ReadFailed → ⊥) → R.has_failed input.new ≡ false }
    ensures silent { IsRefusedBefore result → WritesNothing (W.contents output.old) (W.contents output.new) (W.has_failed output.new) }
    ensures failed { W.has_failed output.new ≡ (status_of result == 4) }
    ensures flushed { IsHandedOn result (W.is_flushed output.new) }
{
    match asked {
        Words::Replay(schedule) => run_replay(alloc, input, schedule.as_str(), output),
        Words::Explore(options, excuses, printed) => run_explore(
            rt, alloc, input, options, excuses, *printed, observer, output,
        ),
        Words::ExploreJob(options, excuses, line) => run_job(
            rt,
            alloc,
            input,
            options,
            excuses,
            line.as_str(),
            observer,
            output,
        ),
        Words::Jobs(depth) => run_jobs(alloc, input, *depth, output),
        Words::Merge(depth, at, flags, excuses) => {
            run_merge(alloc, input, *depth, *at, *flags, excuses, output)
        }
        Words::Check(depth, flags, excuses) => {
            run_check(alloc, input, *depth, *flags, excuses, observer, output)
        }
        Words::Sample(samples, excuses, printed) => {
            run_sample(alloc, input, samples, excuses, *printed, output)
        }
    }
}

// Reports how a run ended: a refusal by its line, and each end by its status.
fn report<E: Sink>(outcome: &Result<Verdict, RunFault>, errors: &mut E) -> u8
    requires { E.has_failed errors.old ≡ false }
    ensures line { IsReported (written E.contents E.has_failed E.is_flushed errors.old errors.new) outcome.now }
    ensures status { result ≡ status_of outcome.now }
{
    if let Err(fault) = outcome {
        let _ = write_fault(errors, fault);
    }
    status(outcome)
}

// Writes the parser's text of words that it refused.
fn write_words_error<E: Sink>(
    alloc: Global,
    error: &Error,
    errors: &mut E,
) -> Result<(), WriteFault>
    requires { E.has_failed errors.old ≡ false }
    ensures { (text : List ℕ) × (kind_of error.now ≡ ErrorKind.OutOfMemory → text ≡ codes "error: out of memory\n")
        × Writes (E.contents errors.old) (E.contents errors.new) (E.has_failed errors.new) result text }
{
    if matches!(error.kind(), ErrorKind::OutOfMemory) {
        return write_all(errors, NO_MEMORY_FOR_WORDS);
    }
    match format!(in alloc; "{error}") {
        Ok(text) => write_all(errors, text.as_bytes()),
        Err(_) => write_all(errors, NO_MEMORY_FOR_WORDS),
    }
}
