//! What the runner reads from and writes to.
ghost use Rattle.std.specs.Prelude.{
  ◌≡◌,
  ◌<◌,
  ◌≤◌,
  Option,
  List,
  ℕ,
  Bool,
  false,
  is_err,
  IfErr,
  IfOk,
  OnOk,
  length,
};
ghost use Rattle.std.specs.Io.KnownBytes.{Appends, ReadConsumes, WriteAppends};
ghost use Rattle.std.specs.Io.{ReadsAtMost, WritesAtMost};
ghost use Rattle.nb_script.specs.Streams.{AppendsSome};

use std::io::{Read, Write};
use thiserror::Error;

/// A read or a write failed.
#[derive(Clone, Copy, Debug, PartialEq, Eq, Error)]
#[error("read or write failed")]
pub struct Failed;

/// Where a script comes from. It tells what is left to read, where that is known, and whether a
/// read has failed: nothing is read after that.
pub trait Source {
    /// The bytes that reads will give from here on, where they are known.
    ghost remaining: { Self → Option (List ℕ) };

    /// Whether a read has failed.
    ghost failed: { Self → Bool };

    /// Reads some bytes into the front of `buffer`. No bytes are the end, unless the buffer has no
    /// room.
    fn read(&mut self, buffer: &mut [u8]) -> Result<usize, Failed>
        requires unfailed { failed self.old ≡ false }
        ensures bound { IfOk result (λ count. count ≤ length buffer.new) }
        ensures bytes { ReadConsumes (remaining self.old) (remaining self.new) result buffer.new }
        ensures marks { failed self.new ≡ is_err result };
}

/// Where output goes. It tells what it holds, where that is known, and whether a write has failed:
/// nothing is written after that.
pub trait Sink {
    /// The bytes that were written, where they are known.
    ghost contents: { Self → Option (List ℕ) };

    /// Whether a write has failed.
    ghost failed: { Self → Bool };

    /// Writes some bytes from the front of `bytes`: at least one, if there is one.
    fn write(&mut self, bytes: &[u8]) -> Result<usize, Failed>
        requires unfailed { failed self.old ≡ false }
        ensures bound { IfOk result (λ count. count ≤ length bytes.now) }
        ensures some { IfOk result (λ count. 0 < length bytes.now → 0 < count) }
        ensures bytes { WriteAppends (contents self.old) (contents self.new) result bytes.now }
        ensures marks { failed self.new ≡ is_err result };
}

/// A reader of std as a source. Each of its errors, an interruption too, is a failure.
#[derive(Drop)]
pub struct FromRead<R: Read> {
    reader: R,
    failed: bool,
}

impl<R: Read> FromRead<R> {
    /// Wraps a reader, of which no read has failed yet. Takes no memory.
    pub fn new(reader: R) -> FromRead<R>
        ensures wraps { result.reader ≡ reader }
        ensures same_bytes { ⟦<FromRead<R> as Source>⟧.remaining result ≡ R.remaining reader }
        ensures unfailed { ⟦<FromRead<R> as Source>⟧.failed result ≡ false }
    {
        FromRead {
            reader,
            failed: false,
        }
    }
}

impl<R: Read> Source for FromRead<R> {
    ghost remaining = { λ source. R.remaining source.reader };

    ghost failed = { λ source. source.failed };

    fn read(&mut self, buffer: &mut [u8]) -> Result<usize, Failed> {
        match self.reader.read(buffer) {
            Ok(count) => Ok(count),
            Err(_) => {
                self.failed = true;
                Err(Failed)
            }
        }
    }
}

/// A writer of std as a sink. Each of its errors, an interruption too, is a failure, and so is a
/// write that takes none of some bytes.
#[derive(Drop)]
pub struct FromWrite<W: Write> {
    writer: W,
    failed: bool,
}

impl<W: Write> FromWrite<W> {
    /// Wraps a writer, of which no write has failed yet. Takes no memory.
    pub fn new(writer: W) -> FromWrite<W>
        ensures wraps { result.writer ≡ writer }
        ensures same_bytes { ⟦<FromWrite<W> as Sink>⟧.contents result ≡ W.contents writer }
        ensures unfailed { ⟦<FromWrite<W> as Sink>⟧.failed result ≡ false }
    {
        FromWrite {
            writer,
            failed: false,
        }
    }
}

impl<W: Write> Sink for FromWrite<W> {
    ghost contents = { λ sink. W.contents sink.writer };

    ghost failed = { λ sink. sink.failed };

    fn write(&mut self, bytes: &[u8]) -> Result<usize, Failed> {
        match self.writer.write(bytes) {
            Ok(count) if count > 0 || bytes.is_empty() => Ok(count),
            _ => {
                self.failed = true;
                Err(Failed)
            }
        }
    }
}

/// Writes all of the bytes. It stops at the first failure: then a beginning of them went out, and
/// how long that is isn't told.
pub fn write_all<W: Sink>(writer: &mut W, bytes: &[u8]) -> Result<(), Failed>
    requires unfailed { W.failed writer.old ≡ false }
    ensures written { OnOk result (Appends (W.contents writer.old) (W.contents writer.new)
        bytes.now) }
    ensures begun { IfErr result (λ _. AppendsSome (W.contents writer.old) (W.contents writer.new)
        bytes.now) }
    ensures marks { W.failed writer.new ≡ is_err result }
{
    let mut rest = bytes;
    while !rest.is_empty() {
        let count = writer.write(rest)?;
        let (_, unwritten) = rest.split_at(count);
        rest = unwritten;
    }
    Ok(())
}
