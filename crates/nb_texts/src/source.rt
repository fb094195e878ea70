//! An input, read in blocks of whole lines.
ghost use Rattle.std.specs.Io.KnownBytes.{Consumes, IsAtEnd, Keeps};
ghost use Rattle.std.specs.Bool.{OnTrue};
ghost use Rattle.std.specs.Prelude.{◌≡◌, ◌+◌, ◌%◌, ◌^◌, ◌<◌, ◌≤◌, ◌==◌, [], IfErr, IfOk, IsOkUnless, MatchOption, OnOk, count_by, length, take};
ghost use Rattle.nb_lines.specs.declared.faults.ProgramFault.TheVariants as fault;
ghost use Rattle.nb_texts.specs.Lines.{lines_in};
ghost use Rattle.nb_texts.specs.Sources.{HasCut, HasTakenIn, IsBlock, IsInOneLine, IsReadFault};

use memchr::memrchr;
use nb_core::OutOfMemory;
use nb_lines::{Done, ProgramFault};
use std::alloc::Global;
use std::io::{ErrorKind, Read};
use std::sync::Wait;

/// What a read came to.
#[derive(Clone, Copy)]
pub(crate) enum Turn {
    /// The block ends with a newline.
    Cut,
    /// The input has ended.
    Ended,
    /// No newline came.
    More,
}

/// What was read of an input: a block of whole lines, and what came behind it.
#[derive(Drop)]
pub(crate) struct LineSource {
    block: Vec<u8>,
    rest: Vec<u8>,
    room: Vec<u8>,
}

impl LineSource {
    /// Nothing was read. So many bytes will be asked for at once.
    pub(crate) fn new(alloc: Global, ahead: usize) -> Result<LineSource, ProgramFault>
        ensures rest { IfOk result (λ source. source.rest.items ≡ []) }
        ensures room { IfOk result (λ source. length source.room.items ≡ ahead) }
        ensures errors { IsOkUnless result fault.OutOfMemory }
    {
        Ok(LineSource {
            block: Vec::new(alloc),
            rest: Vec::new(alloc),
            room: vec![in alloc; 0_u8; ahead]?,
        })
    }

    /// The lines of the block.
    pub(crate) fn block(&self) -> &[u8]
        ensures { result.now ≡ self.now.block.items }
    {
        self.block.as_slice()
    }

    /// How many lines the block has.
    pub(crate) fn lines(&self) -> usize
        ensures { result ≡ length (lines_in self.now.block.items) }
    {
        count_lines(self.block.as_slice())
    }

    /// What is done once the block is too, which has so many lines.
    pub(crate) fn done_with(&self, done: Done, lines: usize) -> Done
        ensures lines { result.lines ≡ (done.lines + lines) % 2 ^ 64 }
        ensures bytes { result.bytes ≡ (done.bytes + length self.now.block.items) % 2 ^ 64 }
    {
        Done {
            lines: done.lines.wrapping_add(lines as u64),
            bytes: done.bytes.wrapping_add(self.block.len() as u64),
        }
    }

    /// Reads the next block: whole lines that are there, one at least, for which it waits. It answers
    /// whether there was one.
    pub(crate) fn refill<R: Wait, I: Read>(
        &mut self,
        rt: &R,
        reader: &mut I,
    ) -> Result<bool, ProgramFault>
        requires rest { IsInOneLine self.old.rest.items }
        requires some { 1 ≤ length self.old.room.items }
        ensures rest { OnOk result (IsInOneLine self.new.rest.items) }
        ensures cut { IfOk result (λ some.
            HasCut some (I.remaining reader.old) (I.remaining reader.new) self.old.rest.items
            self.new.block.items self.new.rest.items) }
        ensures block { IfOk result (λ some.
            OnTrue some (IsBlock (length self.old.room.items) self.new.block.items)) }
        ensures room { length self.new.room.items ≡ length self.old.room.items }
        ensures errors { IfErr result IsReadFault }
    {
        self.begin_block()?;
        for _ in rt.forever() {
            match self.read_on(reader)? {
                Turn::Cut => return Ok(true),
                Turn::Ended => return Ok(!self.block.is_empty()),
                Turn::More => {}
            }
        }
        unreachable!()
    }

    /// The next block begins with what came behind the last one.
    fn begin_block(&mut self) -> Result<(), OutOfMemory>
        ensures block { OnOk result (self.new.block.items ≡ self.old.rest.items) }
        ensures rest { OnOk result (self.new.rest.items ≡ []) }
        ensures room { self.new.room ≡ self.old.room }
    {
        self.block.clear();
        self.block.extend_from_slice(self.rest.as_slice())?;
        self.rest.clear();
        Ok(())
    }

    /// Reads what is there behind the block: [`read_behind`].
    fn read_on<I: Read>(&mut self, reader: &mut I) -> Result<Turn, ProgramFault>
        requires none { self.old.rest.items ≡ [] }
        requires some { 1 ≤ length self.old.room.items }
        ensures taken { IfOk result (HasTakenIn (length self.old.room.items)
            (I.remaining reader.old) (I.remaining reader.new) self.old.block.items
            self.new.block.items self.new.rest.items) }
        ensures room { length self.new.room.items ≡ length self.old.room.items }
        ensures errors { IfErr result IsReadFault }
    {
        let room = self.room.as_mut_slice();
        read_behind(reader, room, &mut self.block, &mut self.rest)
    }
}

/// How many lines a text has.
fn count_lines(text: &[u8]) -> usize
    ensures { result ≡ length (lines_in text.now) }
{
    if text.is_empty() {
        return 0;
    }
    let newlines = newlines_in(text);
    if text[text.len() - 1] == b'\n' {
        newlines
    } else {
        newlines + 1
    }
}

/// How many newlines a text has.
fn newlines_in(text: &[u8]) -> usize
    ensures { result ≡ count_by (λ byte. byte == 10) text.now }
{
    let mut newlines = 0;
    for byte in text {
        if *byte == b'\n' {
            newlines += 1;
        }
    }
    newlines
}

/// Reads what is there behind a block, up to the last newline, and what comes behind that as the rest.
fn read_behind<I: Read>(
    reader: &mut I,
    room: &mut [u8],
    block: &mut Vec<u8>,
    rest: &mut Vec<u8>,
) -> Result<Turn, ProgramFault>
    requires none { rest.old.items ≡ [] }
    requires some { 1 ≤ length room.old }
    ensures taken { IfOk result (HasTakenIn (length room.old) (I.remaining reader.old)
        (I.remaining reader.new) block.old.items block.new.items rest.new.items) }
    ensures room { length room.new ≡ length room.old }
    ensures errors { IfErr result IsReadFault }
{
    let Some(count) = read_some(reader, room)? else {
        return Ok(Turn::More);
    };
    let read = &room[..count];
    if read.is_empty() {
        return Ok(Turn::Ended);
    }
    let Some(last) = memrchr(b'\n', read) else {
        block.extend_from_slice(read)?;
        return Ok(Turn::More);
    };
    block.extend_from_slice(&read[..last + 1])?;
    rest.extend_from_slice(&read[last + 1..])?;
    Ok(Turn::Cut)
}

/// Reads what is there, and answers how many bytes that is, or nothing where a signal came first.
fn read_some<I: Read>(reader: &mut I, room: &mut [u8]) -> Result<Option<usize>, ProgramFault>
    ensures room { length room.new ≡ length room.old }
    ensures read { IfOk result (λ some. MatchOption some
        (Keeps (I.remaining reader.old) (I.remaining reader.new))
        (λ count. (count ≤ length room.new)
        × Consumes (I.remaining reader.old) (I.remaining reader.new) (take count room.new)
        × (count ≡ 0 → 0 < length room.new → IsAtEnd (I.remaining reader.new)))) }
    ensures errors { IfErr result IsReadFault }
{
    match reader.read(room) {
        Ok(count) => Ok(Some(count)),
        Err(fault) => match fault.kind() {
            ErrorKind::Interrupted => Ok(None),
            ErrorKind::OutOfMemory => Err(ProgramFault::OutOfMemory),
            _ => Err(ProgramFault::Read),
        },
    }
}
