//! A source that is read to its end, and no further.
ghost use Rattle.std.specs.Prelude.{◌≡◌, ◌≤◌, false, is_err, length, IfOk};
ghost use Rattle.std.specs.Io.KnownBytes.{ReadConsumes};
ghost use Rattle.nb_script.specs.Streams.{gave_end};

use crate::streams::{Failed, Source};

/// A source, and whether a read has found its end: nothing is read after that.
#[derive(Drop)]
pub(crate) struct UntilEnd<'a, R> {
    reader: &'a mut R,
    ended: bool,
}

impl<'a, R: Source> UntilEnd<'a, R> {
    /// A source whose end wasn't found yet.
    pub(crate) fn new(reader: &'a mut R) -> UntilEnd<'a, R>
        ensures same_reference { result.reader.ghost_name ≡ reader.entry.ghost_name }
        ensures same { result.reader.now ≡ reader.old }
        ensures more { result.ended ≡ false }
    {
        UntilEnd {
            reader,
            ended: false,
        }
    }

    /// Reads some bytes, as `Source::read` does.
    pub(crate) fn read(&mut self, buffer: &mut [u8]) -> Result<usize, Failed>
        requires unfailed { R.failed self.old.reader.now ≡ false }
        requires more { self.old.ended ≡ false }
        ensures same_reference { self.new.reader.ghost_name ≡ self.old.reader.ghost_name }
        ensures bound { IfOk result (λ count. count ≤ length buffer.new) }
        ensures bytes { ReadConsumes (R.remaining self.old.reader.now)
            (R.remaining self.new.reader.now) result buffer.new }
        ensures marks { R.failed self.new.reader.now ≡ is_err result }
        ensures ends { self.new.ended ≡ gave_end result buffer.new }
    {
        let read = self.reader.read(buffer);
        self.ended = matches!(read, Ok(0)) && !buffer.is_empty();
        read
    }
}
