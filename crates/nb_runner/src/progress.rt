//! Progress, which is told on standard error where that is a terminal: how many lines were read,
//! and then how many of them were run. What it says isn't among what a run says of a fault.
ghost use Rattle.std.specs.Prelude.{◌≡◌};
ghost use Rattle.std.specs.Io.{ReadsAtMost, WritesAtMost};
ghost use Rattle.std.specs.Io.KnownBytes.{Keeps, ReadConsumes, WriteAppends};
ghost use Rattle.nb_runner.specs.Named.{named};

use crate::gates::Gate;
use std::io;
use std::io::{Read, Write};
use std::sync::atomic::{AtomicBool, AtomicU64, Ordering};

/// How many lines or commands there are from one word on progress to the next.
const EACH: u64 = 1 << 14;

/// What takes away the line on which progress was told.
const BLANK: &str = "\r                                                                \r";

/// What was read and run, as far as it was told.
#[derive(Drop)]
pub struct Progress<'a, P> {
    process: &'a P,
    is_told: bool,
    /// How many lines were read.
    lines: AtomicU64,
    /// How many commands were run. Each worker counts the last ones of a phase only where they make
    /// up `EACH`.
    commands: AtomicU64,
    /// Whether there is a line on which progress was told.
    is_open: AtomicBool,
}

impl<'a, P: Eprint> Progress<'a, P> {
    pub fn new(process: &'a P, is_told: bool) -> Progress<'a, P> {
        Progress {
            process,
            is_told,
            lines: AtomicU64::new(0),
            commands: AtomicU64::new(0),
            is_open: AtomicBool::new(false),
        }
    }

    /// Counts the lines that end in these bytes.
    fn count_lines(&self, bytes: &[u8]) {
        if !self.is_told {
            return;
        }
        let more = bytes.iter().filter(|byte| **byte == b'\n').count() as u64;
        let before = self.lines.fetch_add(more, Ordering::SeqCst);
        let lines = before.wrapping_add(more);
        if before / EACH < lines / EACH {
            self.is_open.store(true, Ordering::SeqCst);
            let _ = eprint!(self.process; "\r{lines} lines read");
        }
    }

    /// Counts `EACH` more commands.
    fn count_commands(&self) {
        if !self.is_told {
            return;
        }
        let commands = self
            .commands
            .fetch_add(EACH, Ordering::SeqCst)
            .wrapping_add(EACH);
        let lines = self.lines.load(Ordering::SeqCst);
        self.is_open.store(true, Ordering::SeqCst);
        let _ = eprint!(self.process; "\r{commands} of {lines} lines run");
    }

    /// Takes away the line on which progress was told, if there is one.
    fn end(&self) {
        if self.is_open.swap(false, Ordering::SeqCst) {
            let _ = eprint!(self.process; "{BLANK}");
        }
    }
}

impl<P: Eprint> Gate for Progress<'_, P> {
    fn before(&self, _worker: usize, _number: usize) {}

    fn after(&self, _worker: usize, number: usize) {
        if number as u64 % EACH == EACH - 1 {
            self.count_commands();
        }
    }
}

/// A stream of the process. The lines that are read from it are counted, and before something is
/// written to it the line is taken away on which progress was told.
#[derive(Drop)]
pub struct Watched<'a, P, S> {
    progress: &'a Progress<'a, P>,
    stream: &'a mut S,
}

impl<'a, P: Eprint, S> Watched<'a, P, S> {
    pub fn new(progress: &'a Progress<'a, P>, stream: &'a mut S) -> Watched<'a, P, S>
        ensures same_reference { result.stream.ghost_name ≡ stream.entry.ghost_name }
        ensures same { result.stream.now ≡ stream.old }
    {
        Watched { progress, stream }
    }
}

impl<P: Eprint, R: Read> Read for Watched<'_, P, R> {
    ghost remaining = { λ watched. R.remaining watched.stream.now };

    fn read(&mut self, buf: &mut [u8]) -> io::Result<usize> {
        let count = self.stream.read(buf)?;
        self.progress.count_lines(&buf[..count]);
        Ok(count)
    }
}

impl<P: Eprint, W: Write> Write for Watched<'_, P, W> {
    // Behind the name of the borrow come the bytes of the stream. A writer only adds to what it
    // holds, so the name stays: who gets the writer back knows that it still writes to that stream.
    ghost contents = { λ watched. named watched.stream.ghost_name (W.contents watched.stream.now) };

    fn write(&mut self, buf: &[u8]) -> io::Result<usize> {
        self.progress.end();
        self.stream.write(buf)
    }

    fn flush(&mut self) -> io::Result<()> {
        self.stream.flush()
    }
}
