// The program: names the three streams and the words, shows how far it is, and does the rest in `program_runs`.
#![tactic(auto)]

mod progress;

use either::Either;
use program_runs::run_to_exit;
use progress::{Erasing, Progress};
use std::env;
use std::io::BufWriter;
use std::process::ExitCode;
use std::rt::Stdout;
use term_core::{Input, Output};

// The words, if there is memory for them.
fn words_of(rt: &HostRuntime) -> Option<Vec<String>> {
    let words = env::args(rt).ok()?;
    words.collect(rt.alloc()).ok()
}

// A writer in blocks, or, where there is no memory for a block, one that writes each piece as it comes.
type Blocks<W> = Either<BufWriter<W>, W>;

// Standard output in blocks, before which the line of progress is erased.
fn stdout_of<'p, 'r>(
    rt: &HostRuntime,
    progress: &'p Progress<'r, HostRuntime>,
) -> Blocks<Erasing<'p, 'r, HostRuntime, Stdout>> {
    match BufWriter::new(rt.alloc(), Erasing::new(progress, rt.stdout())) {
        Ok(writer) => Either::Left(writer),
        Err(_) => Either::Right(Erasing::new(progress, rt.stdout())),
    }
}

fn main(rt: HostRuntime) -> ExitCode {
    let progress = Progress::new(&rt, rt.stderr());
    run_to_exit(
        &rt,
        rt.alloc(),
        words_of(&rt),
        &mut Input::new(rt.stdin()),
        &mut Output::new(stdout_of(&rt, &progress)),
        &mut Output::new(Erasing::new(&progress, rt.stderr())),
        &progress,
    )
}
