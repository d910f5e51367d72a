// The streams that every layer reads and writes.
ghost use Rattle.std.specs.Prelude.{◌≡◌, ℕ, List, Bool, false, ◌||◌, Option, None, is_err, is_ok};
ghost use Rattle.std.specs.Io.{ReadsAtMost, WritesAtMost};
ghost use Rattle.std.specs.Io.KnownBytes.{Keeps, ReadConsumes, WriteAppends};
ghost use Rattle.term_core.specs.Stream.{took_nothing, Writes};

use std::io;
use std::io::{Read, Write};

/// Writing failed: a call on the sink gave an error, or took no byte of some. What was written before stays.
#[derive(Clone, Copy, Debug, PartialEq, Eq)]
pub struct WriteFault;

/// What bytes are read from, as `std::io::Read`, which also knows whether a read on it has failed.
pub trait Source {
    /// The bytes that reads will give from here on, where the source reports them.
    ghost remaining: { Self → Option (List ℕ) } = { λ _. None };

    /// Whether a read on it has failed.
    ghost has_failed: { Self → Bool };

    /// Reads into the front of the buffer, and says how many bytes: none at the end, or where the
    /// buffer has no room. After an error nothing was read.
    fn read(&mut self, buffer: &mut [u8]) -> io::Result<usize>
        ensures bound { ReadsAtMost result buffer.new }
        ensures bytes { ReadConsumes (remaining self.old) (remaining self.new) result buffer.new }
        ensures failed { has_failed self.new ≡ (has_failed self.old || is_err result) };

    /// Whether a read on it has failed.
    fn failed(&self) -> bool
        ensures { result ≡ has_failed self.now };
}

/// What bytes are written to, as `std::io::Write`, which also knows whether a call on it has failed.
pub trait Sink {
    /// The bytes that the sink holds, where it reports them.
    ghost contents: { Self → Option (List ℕ) } = { λ _. None };

    /// Whether a call on it has failed: gave an error, or took no byte of some.
    ghost has_failed: { Self → Bool };

    /// Whether the last write or flush was a flush that succeeded.
    ghost is_flushed: { Self → Bool };

    /// Takes bytes from the front, and says how many. After an error none was taken.
    fn write(&mut self, bytes: &[u8]) -> io::Result<usize>
        ensures bound { WritesAtMost result bytes.now }
        ensures bytes { WriteAppends (contents self.old) (contents self.new) result bytes.now }
        ensures failed { has_failed self.new ≡ (has_failed self.old || took_nothing result bytes.now) }
        ensures flushed { is_flushed self.new ≡ false };

    /// Hands on the bytes that it holds back, to where they are going. At an error some of them may not have arrived.
    /// The bytes that it holds, those held back among them, stay as they are.
    fn flush(&mut self) -> io::Result<()>
        ensures bytes { Keeps (contents self.old) (contents self.new) }
        ensures failed { has_failed self.new ≡ (has_failed self.old || is_err result) }
        ensures flushed { is_flushed self.new ≡ is_ok result };

    /// Whether a call on it has failed.
    fn failed(&self) -> bool
        ensures { result ≡ has_failed self.now };
}

/// A reader of std as a source. It reports its bytes where the reader does: a slice does, standard input
/// cannot.
#[derive(Drop)]
pub struct Input<R> {
    pub reader: R,
    pub has_failed: bool,
}

impl<R: Read> Input<R> {
    /// A source on which no read has failed yet.
    pub fn new(reader: R) -> Input<R>
        ensures reader { result.reader ≡ reader }
        ensures sound { result.has_failed ≡ false }
    {
        Input {
            reader,
            has_failed: false,
        }
    }
}

impl<R: Read> Source for Input<R> {
    ghost remaining = { λ s. R.remaining s.reader };

    ghost has_failed = { λ s. s.has_failed };

    fn read(&mut self, buffer: &mut [u8]) -> io::Result<usize> {
        let result = self.reader.read(buffer);
        if result.is_err() {
            self.has_failed = true;
        }
        result
    }

    fn failed(&self) -> bool {
        self.has_failed
    }
}

/// A writer of std as a sink. It reports its bytes where the writer does: a `Vec` does, standard output
/// cannot.
#[derive(Drop)]
pub struct Output<W> {
    pub writer: W,
    pub has_failed: bool,
    pub is_flushed: bool,
}

impl<W: Write> Output<W> {
    /// A sink on which no call has failed yet.
    pub fn new(writer: W) -> Output<W>
        ensures writer { result.writer ≡ writer }
        ensures sound { result.has_failed ≡ false }
        ensures flushed { result.is_flushed ≡ false }
    {
        Output {
            writer,
            has_failed: false,
            is_flushed: false,
        }
    }
}

impl<W: Write> Sink for Output<W> {
    ghost contents = { λ s. W.contents s.writer };

    ghost has_failed = { λ s. s.has_failed };

    ghost is_flushed = { λ s. s.is_flushed };

    fn write(&mut self, bytes: &[u8]) -> io::Result<usize> {
        self.is_flushed = false;
        let result = self.writer.write(bytes);
        if takes_nothing(&result, bytes) {
            self.has_failed = true;
        }
        result
    }

    fn flush(&mut self) -> io::Result<()> {
        let result = self.writer.flush();
        self.is_flushed = result.is_ok();
        if result.is_err() {
            self.has_failed = true;
        }
        result
    }

    fn failed(&self) -> bool {
        self.has_failed
    }
}

// Whether a write gave an error, or took no byte of some.
fn takes_nothing(outcome: &io::Result<usize>, bytes: &[u8]) -> bool
    ensures { result ≡ took_nothing outcome.now bytes.now }
{
    match outcome {
        Ok(count) => *count == 0 && !bytes.is_empty(),
        Err(_) => true,
    }
}

/// Writes all the bytes, in as many calls as the sink needs. At an error the sink has failed, and a beginning of the
/// bytes was written.
pub fn write_all<S: Sink>(sink: &mut S, bytes: &[u8]) -> Result<(), WriteFault>
    requires { S.has_failed sink.old ≡ false }
    ensures { Writes (S.contents sink.old) (S.contents sink.new) (S.has_failed sink.new) result bytes.now }
{
    let mut rest = bytes;
    while !rest.is_empty() {
        let Ok(count) = sink.write(rest) else {
            return Err(WriteFault);
        };
        if count == 0 {
            return Err(WriteFault);
        }
        (_, rest) = rest.split_at(count);
    }
    Ok(())
}
