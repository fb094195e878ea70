//! An input that many workers read: each takes a block of whole lines, and then the next one.

use crate::faults::{Cause, ProgramFault, Stop};
use crate::lines::Lines;
use crate::progress::Done;
use nb_core::OutOfMemory;
use std::alloc::Global;
use std::io::Read;

/// How many bytes a block has at most. A line with its newline has no more either.
pub const BLOCK: usize = 1 << 18;

/// Where a line stands: in which block, and how many lines of the block come before it.
#[derive(Clone, Copy, Debug, PartialEq, Eq)]
pub struct LinePlace {
    block: usize,
    line: u64,
}

impl LinePlace {
    /// Whether this line comes before the other.
    fn is_before(self, other: LinePlace) -> bool {
        self.block < other.block || (self.block == other.block && self.line < other.line)
    }
}

/// Lines of an input, in the hands of one worker.
#[derive(Drop)]
pub struct Block {
    bytes: Vec<u8>,
    number: usize,
    /// How many lines it has, once its worker has read them and until the next refill.
    lines: Option<u64>,
    /// What was done when it was handed out.
    done: Done,
}

impl Block {
    /// A block without lines. It has room for all that will ever be in it.
    pub fn new(alloc: Global) -> Result<Block, OutOfMemory> {
        Ok(Block {
            bytes: Vec::with_capacity(alloc, BLOCK)?,
            number: 0,
            lines: None,
            done: Done::NOTHING,
        })
    }

    pub fn lines(&self) -> Lines<'_> {
        Lines::new(self.bytes.as_slice())
    }

    /// Which block of the input it is: how many were handed out before.
    pub fn number(&self) -> usize {
        self.number
    }

    /// How many lines workers had done when it was handed out, and how many bytes the blocks before
    /// it have.
    pub fn done(&self) -> Done {
        self.done
    }

    /// What is wrong with the line that so many lines of the block come before.
    pub fn stop_at(&self, line: u64, cause: Cause) -> Stop {
        let block = self.number;
        Stop::Line(LinePlace { block, line }, cause)
    }

    /// Keeps how many lines were read. The next lines' numbers are counted from it.
    pub fn set_line_count(&mut self, lines: u64) {
        self.lines = Some(lines);
    }
}

/// What is left of an input, and what is known of the blocks that were handed out.
#[derive(Drop)]
pub struct Input<R> {
    reader: R,
    /// What was read behind the last line that was handed out.
    rest: Vec<u8>,
    /// How many lines each block has, where its worker has read it.
    lines: Vec<u64>,
    /// How many lines these are, and how many bytes were handed out.
    done: Done,
    /// Whether no more blocks are handed out.
    has_ended: bool,
    /// The first line at fault, or why else a worker stopped.
    stopped: Option<Stop>,
}

impl<R: Read + Drop> Input<R> {
    pub fn new(alloc: Global, reader: R) -> Input<R> {
        Input {
            reader,
            rest: Vec::new(alloc),
            lines: Vec::new(alloc),
            done: Done::NOTHING,
            has_ended: false,
            stopped: None,
        }
    }

    /// Takes a block that was read, and fills it with the next lines. It answers whether there
    /// were any.
    pub fn refill(&mut self, block: &mut Block) -> Result<bool, Stop> {
        self.take_back(block);
        if self.has_ended {
            return Ok(false);
        }
        block.number = self.lines.len();
        block.done = self.done;
        self.lines.push(0)?;
        self.read_block(&mut block.bytes)?;
        self.cut(block)?;
        self.done.bytes = self.done.bytes.wrapping_add(block.bytes.len() as u64);
        Ok(!block.bytes.is_empty())
    }

    /// Keeps how many lines a block had that was read. One that is new had none of the input's.
    fn take_back(&mut self, block: &mut Block) {
        let Some(lines) = block.lines.take() else {
            return;
        };
        if let Some(count) = self.lines.get_mut(block.number) {
            *count = lines;
        }
        self.done.lines = self.done.lines.wrapping_add(lines);
    }

    /// Reads as much as a block has room for, behind what is left of the last one.
    fn read_block(&mut self, bytes: &mut Vec<u8>) -> Result<(), Stop> {
        bytes.clear();
        bytes.extend_from_slice(self.rest.as_slice())?;
        self.rest.clear();
        let room = BLOCK.saturating_sub(bytes.len());
        let count = self.reader.by_ref().take(room as u64).read_to_end(bytes)?;
        self.has_ended = count < room;
        Ok(())
    }

    /// Keeps what stands behind the last newline for the next block.
    fn cut(&mut self, block: &mut Block) -> Result<(), Stop> {
        if self.has_ended {
            return Ok(());
        }
        let Some(last) = block.bytes.iter().rposition(|byte| *byte == b'\n') else {
            return Err(block.stop_at(0, Cause::TooLong));
        };
        let end = last + 1;
        self.rest.extend_from_slice(&block.bytes.as_slice()[end..])?;
        block.bytes.truncate(end);
        Ok(())
    }

    /// Hands out no more blocks, since a worker stopped. Of two lines at fault the first counts.
    /// Any other fault counts before them: its block wasn't read to the end, so that the number of
    /// a line behind it isn't known.
    pub fn stop(&mut self, stop: Stop) {
        self.has_ended = true;
        let is_first = match (self.stopped, stop) {
            (None, _) => true,
            (Some(Stop::Line(before, _)), Stop::Line(place, _)) => place.is_before(before),
            (Some(Stop::Line(..)), _) => true,
            (Some(_), _) => false,
        };
        if is_first {
            self.stopped = Some(stop);
        }
    }

    /// How many lines there were, or the first fault. No worker has a block any more that it
    /// hasn't given back.
    pub fn finish(self) -> Result<u64, ProgramFault> {
        match self.stopped {
            None => Ok(self.lines_before(self.lines.len())),
            Some(Stop::Read) => Err(ProgramFault::Read),
            Some(Stop::Line(place, cause)) => {
                let before = self.lines_before(place.block).wrapping_add(place.line);
                Err(ProgramFault::Line(before.wrapping_add(1), cause))
            }
            Some(Stop::Full) => Err(ProgramFault::Full),
            Some(Stop::TooOften) => Err(ProgramFault::TooOften),
            Some(Stop::OutOfMemory) => Err(ProgramFault::OutOfMemory),
        }
    }

    /// How many lines the blocks before this one have.
    fn lines_before(&self, block: usize) -> u64 {
        let counts = self.lines.iter().take(block);
        counts.fold(0u64, |sum, lines| sum.wrapping_add(*lines))
    }
}
