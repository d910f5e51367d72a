// How far an exploration is, shown on standard error where that is a terminal.
ghost use Rattle.std.specs.Prelude.{◌≤◌, false};

use search_expansion::Observer;
use std::io;
use std::io::{IsTerminal, Write};
use std::rt::{Clock, Stderr};
use std::sync::atomic::{AtomicBool, AtomicU64, Ordering};
use std::time::Instant;
use term_core::{Output, WriteFault, write_all, write_number};

/// The clock is looked at once for so many nodes or states.
const NODES: u64 = 1_024;

/// What erases the line of a terminal that the cursor is on (ECMA-48, "Erase in line").
const ERASE: &[u8] = b"\r\x1b[K";

/// Shows how far an exploration is, at most once a second: how many nodes were visited, how many that is a second, and
/// how many jobs were done; of a search by states how many states were expanded, how many that is a second, and at which
/// level it is. It is one line, which is erased before anything else is written. Where standard error is no terminal, or
/// there is no clock, nothing is shown.
#[derive(Drop)]
pub struct Progress<'r, C: Clock> {
    clock: &'r C,
    stderr: Stderr,
    begun: Option<Instant>,
    nodes: AtomicU64,
    jobs: AtomicU64,
    level: AtomicU64,
    is_by_states: AtomicBool,
    second: AtomicU64,
    is_told: AtomicBool,
}

impl<'r, C: Clock> Progress<'r, C> {
    /// Nothing is done yet.
    pub fn new(clock: &'r C, stderr: Stderr) -> Progress<'r, C> {
        let begun = if stderr.is_terminal() {
            Instant::now(clock).ok()
        } else {
            None
        };
        Progress {
            clock,
            stderr,
            begun,
            nodes: AtomicU64::new(0),
            jobs: AtomicU64::new(0),
            level: AtomicU64::new(0),
            is_by_states: AtomicBool::new(false),
            second: AtomicU64::new(0),
            is_told: AtomicBool::new(false),
        }
    }

    /// Erases the line, where there is one.
    pub fn erase(&self) {
        if self.is_told.swap(false, Ordering::SeqCst) {
            let _ = write_all(&mut Output::new(self.stderr), ERASE);
        }
    }

    // Writes the line.
    fn tell(&self, nodes: u64, seconds: u64) -> Result<(), WriteFault>
        requires { 1 ≤ seconds }
    {
        let is_by_states = self.is_by_states.load(Ordering::SeqCst);
        let what: &[u8] = if is_by_states {
            b" states, "
        } else {
            b" nodes, "
        };
        let mut sink = Output::new(self.stderr);
        write_all(&mut sink, ERASE)?;
        write_number(nodes, &mut sink)?;
        write_all(&mut sink, what)?;
        write_number(nodes / seconds, &mut sink)?;
        write_all(&mut sink, b" a second, ")?;
        if is_by_states {
            write_all(&mut sink, b"level ")?;
            return write_number(self.level.load(Ordering::SeqCst), &mut sink);
        }
        write_number(self.jobs.load(Ordering::SeqCst), &mut sink)?;
        write_all(&mut sink, b" jobs done")
    }
}

impl<'r, C: Clock> Observer for Progress<'r, C> {
    fn turn(&self, _ticket: u64) {
        let Some(begun) = self.begun else {
            return;
        };
        let nodes = self.nodes.fetch_add(1, Ordering::SeqCst);
        if nodes % NODES != 0 {
            return;
        }
        let Ok(elapsed) = begun.elapsed(self.clock) else {
            return;
        };
        let seconds = elapsed.as_secs();
        if self.second.fetch_max(seconds, Ordering::SeqCst) >= seconds {
            return;
        }
        self.is_told.store(true, Ordering::SeqCst);
        let _ = self.tell(nodes, seconds);
    }

    fn level(&self, steps: u64) {
        self.level.store(steps, Ordering::SeqCst);
        self.is_by_states.store(true, Ordering::SeqCst);
    }

    fn given(&self, _ticket: u64) {
        self.jobs.fetch_add(1, Ordering::SeqCst);
    }
}

/// A writer before which the line of progress is erased.
#[derive(Drop)]
pub struct Erasing<'p, 'r, C: Clock, W> {
    progress: &'p Progress<'r, C>,
    writer: W,
}

impl<'p, 'r, C: Clock, W: Write> Erasing<'p, 'r, C, W> {
    /// A writer that erases the line first and then writes to this one.
    pub fn new(progress: &'p Progress<'r, C>, writer: W) -> Erasing<'p, 'r, C, W> {
        Erasing { progress, writer }
    }
}

impl<'p, 'r, C: Clock, W: Write> Write for Erasing<'p, 'r, C, W> {
    ghost contents = { λ s. W.contents s.writer };

    fn write(&mut self, bytes: &[u8]) -> io::Result<usize> {
        self.progress.erase();
        self.writer.write(bytes)
    }

    fn flush(&mut self) -> io::Result<()> {
        self.writer.flush()
    }
}
