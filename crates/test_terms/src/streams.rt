// Sources that hand out few bytes a read, fail, or never end, and sinks that fail at a flush.
use std::io;
use std::io::{BufWriter, ErrorKind, Write};
use std::test::Fail;
use term_core::{Output, Sink, Source};
use test_support::{EndlessSource, MemorySink, MemorySource, holds, same};

// Checks that one read of 8 bytes at most hands out these.
fn reads(source: &mut impl Source, want: &[u8]) -> Result<(), Fail> {
    let mut buffer = [0u8; 8];
    let count = source.read(&mut buffer)?;
    let is_read = count == want.len() && buffer.starts_with(want);
    holds(is_read, "a read hands out these bytes")
}

#[test]
fn reads_in_pieces() -> Result<(), Fail> {
    let mut source = MemorySource::in_pieces(b"abc", 2, 2);
    reads(&mut source, b"ab")?;
    reads(&mut source, b"c")?;
    holds(!source.failed(), "two reads do not fail")?;
    let is_refused = source.read(&mut []).is_err();
    holds(is_refused && source.failed(), "the third read fails")
}

#[test]
fn reads_to_the_end_and_without_end() -> Result<(), Fail> {
    let mut endless = EndlessSource { byte: b' ' };
    reads(&mut endless, b"        ")?;
    let mut whole = MemorySource::new(b"xyz");
    reads(&mut whole, b"xyz")?;
    reads(&mut whole, b"")
}

// Checks that one write takes `ab`.
fn takes_ab(sink: &mut impl Sink) -> Result<(), Fail> {
    let count = sink.write(b"ab")?;
    holds(count == 2, "a write takes two bytes")
}

#[test]
fn flushes_as_often_as_it_may(rt: HostRuntime) -> Result<(), Fail> {
    let mut sink = MemorySink::with_flushes(rt.alloc(), 8, 1)?;
    takes_ab(&mut sink)?;
    holds(!sink.is_flushed, "a write is not flushed")?;
    let is_made = sink.flush().is_ok() && sink.is_flushed && !sink.failed();
    holds(is_made, "the first flush is made")?;
    let is_refused = sink.flush().is_err() && !sink.is_flushed && sink.failed();
    holds(is_refused, "the second flush fails")?;
    same(sink.bytes.as_slice(), b"ab")
}

// A writer that takes all bytes and cannot be flushed.
#[derive(Drop)]
struct Unflushed;

impl Write for Unflushed {
    fn write(&mut self, bytes: &[u8]) -> io::Result<usize> {
        Ok(bytes.len())
    }

    fn flush(&mut self) -> io::Result<()> {
        Err(io::Error::from(ErrorKind::Other))
    }
}

// A flush of an output is one of its writer, and of what that writes to.
#[test]
fn an_output_flushes_its_writer(rt: HostRuntime) -> Result<(), Fail> {
    let mut output = Output::new(BufWriter::new(rt.alloc(), Vec::new(rt.alloc()))?);
    takes_ab(&mut output)?;
    let is_held = output.writer.get_ref().is_empty();
    holds(is_held, "a short write is held")?;
    holds(output.flush().is_ok(), "a flush is made")?;
    same(output.writer.get_ref().as_slice(), b"ab")
}

#[test]
fn an_output_tells_that_its_writer_cannot_be_flushed(rt: HostRuntime) -> Result<(), Fail> {
    let mut stuck = Output::new(BufWriter::new(rt.alloc(), Unflushed)?);
    takes_ab(&mut stuck)?;
    let is_refused = stuck.flush().is_err();
    holds(is_refused && stuck.failed(), "the flush fails")
}
