// Checks whose streams behave badly.
use crate::checks::{TWO_END, joined};
use core_reader::ReadFault;
use program_runs::{InputFault, RunFault, read_whole, run_check};
use search_expansion::Unwatched;
use std::test::Fail;
use term_core::Source;
use test_support::{MemorySink, MemorySource, holds, same};
use tree_covers::CoverFault;
use tree_excuses::Excuses;
use world_identities::Flags;

const COVER: &str = "%%cover\nP\nP P.1\nP.1\n\n\n";

const ANSWER: &str = "cover good to depth 3\n";

const PLAIN: Flags = Flags {
    allow_deadlock: false,
    strict_access: false,
    idle_servers: false,
};

// At each of the first reads, and at the one that would find the end.
#[test]
fn a_read_that_fails_writes_nothing(rt: HostRuntime) -> Result<(), Fail> {
    let alloc = rt.alloc();
    let text = joined(alloc, TWO_END, COVER)?;
    for reads in [0, 1, 2, 100, text.len() as u64] {
        let mut source = MemorySource::in_pieces(text.as_bytes(), 1, reads);
        let mut sink = MemorySink::with_room(alloc, 1000)?;
        let outcome = run_check(
            alloc,
            &mut source,
            3,
            PLAIN,
            &Excuses::none(alloc),
            &Unwatched,
            &mut sink,
        );
        holds(outcome == Err(RunFault::ReadFailed), "a read has failed")?;
        same(sink.bytes.as_slice(), b"")?;
    }
    Ok(())
}

// After each byte, and at the flush.
#[test]
fn a_write_that_fails_leaves_what_was_written(rt: HostRuntime) -> Result<(), Fail> {
    let alloc = rt.alloc();
    let text = joined(alloc, TWO_END, COVER)?;
    for room in 0..ANSWER.len() {
        let mut source = MemorySource::new(text.as_bytes());
        let mut sink = MemorySink::with_room(alloc, room)?;
        let outcome = run_check(
            alloc,
            &mut source,
            3,
            PLAIN,
            &Excuses::none(alloc),
            &Unwatched,
            &mut sink,
        );
        holds(outcome == Err(RunFault::Output), "a write has failed")?;
        same(sink.bytes.as_slice(), &ANSWER.as_bytes()[..room])?;
    }
    let mut source = MemorySource::new(text.as_bytes());
    let mut sink = MemorySink::with_flushes(alloc, ANSWER.len(), 0)?;
    let outcome = run_check(
        alloc,
        &mut source,
        3,
        PLAIN,
        &Excuses::none(alloc),
        &Unwatched,
        &mut sink,
    );
    holds(outcome == Err(RunFault::Output), "the flush has failed")?;
    same(sink.bytes.as_slice(), ANSWER.as_bytes())
}

// Past the length of a module, in one read and in many.
#[test]
fn reads_whole_inputs(rt: HostRuntime) -> Result<(), Fail> {
    let alloc = rt.alloc();
    for length in [0, 1, 65_537, 1_048_577, 3_000_000] {
        let bytes = vec![in alloc; b'x'; length]?;
        let mut source = MemorySource::new(&bytes);
        let read = read_whole(alloc, &mut source)?;
        holds(read == bytes, "all bytes are read")?;
    }
    Ok(())
}

// The reads are used up, and the source has not failed.
#[test]
fn tells_that_the_reads_are_used_up(rt: HostRuntime) -> Result<(), Fail> {
    let alloc = rt.alloc();
    let bytes = vec![in alloc; b'x'; 2_097_152]?;
    let mut source = MemorySource::in_pieces(&bytes, 1, u64::MAX);
    let read = read_whole(alloc, &mut source);
    let is_used_up = matches!(read, Err(InputFault::ReadFailed));
    holds(is_used_up && !source.failed(), "the reads are used up")
}

// A module that is too long is refused as such.
#[test]
fn a_long_module_is_refused(rt: HostRuntime) -> Result<(), Fail> {
    let alloc = rt.alloc();
    let blanks = " ".repeat(alloc, 1_048_577)?;
    let mut source = MemorySource::new(blanks.as_bytes());
    let mut sink = MemorySink::with_room(alloc, 100)?;
    let outcome = run_check(
        alloc,
        &mut source,
        3,
        PLAIN,
        &Excuses::none(alloc),
        &Unwatched,
        &mut sink,
    );
    let wanted = Err(RunFault::Input(ReadFault::TooLong(1_048_576)));
    holds(outcome == wanted, "the module is too long")
}

// A cover may be longer.
#[test]
fn a_long_cover_is_read(rt: HostRuntime) -> Result<(), Fail> {
    let alloc = rt.alloc();
    let ends = "\n".repeat(alloc, 1_100_000)?;
    let front = joined(alloc, TWO_END, COVER)?;
    let text = joined(alloc, front.as_str(), ends.as_str())?;
    let mut source = MemorySource::new(text.as_bytes());
    let mut sink = MemorySink::with_room(alloc, 100)?;
    let outcome = run_check(
        alloc,
        &mut source,
        3,
        PLAIN,
        &Excuses::none(alloc),
        &Unwatched,
        &mut sink,
    );
    let wanted = Err(RunFault::Cover(CoverFault::Long(6)));
    holds(outcome == wanted, "the cover is too long")
}
