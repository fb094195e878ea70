//! Progress, which is told on standard error where that is a terminal.

use crate::blocks::Block;
use std::time::Duration;

/// From how many blocks to the next progress is told.
const BLOCKS: usize = 16;

/// What takes away a line on which progress was told, and nothing where there is none.
const BLANK: &str = "\r                                                                \r";

/// How far an input was worked through.
#[derive(Clone, Copy)]
pub struct Done {
    pub lines: u64,
    pub bytes: u64,
}

impl Done {
    pub const NOTHING: Done = Done { lines: 0, bytes: 0 };
}

/// Tells progress, or nothing.
#[derive(Clone, Copy)]
pub struct ProgressMeter {
    is_told: bool,
    /// How many bytes the input has, where it tells.
    size: Option<u64>,
}

impl ProgressMeter {
    /// Nothing is told.
    pub const NONE: ProgressMeter = ProgressMeter {
        is_told: false,
        size: None,
    };

    /// Progress is told if standard error is a terminal. The input has so many bytes, if that is
    /// known.
    pub fn new(is_terminal: bool, size: Option<u64>) -> ProgressMeter {
        ProgressMeter {
            is_told: is_terminal,
            size,
        }
    }

    pub fn is_told(self) -> bool {
        self.is_told
    }

    /// Tells now and then how many lines were done when this block was handed out.
    pub fn tell_block(self, rt: &impl Eprint, block: &Block) {
        if self.is_told && block.number() % BLOCKS == 0 {
            self.tell_done(rt, block.done());
        }
    }

    /// Tells how many lines are done and, where the input tells its size, which part of it that is.
    pub fn tell_done(self, rt: &impl Eprint, done: Done) {
        if !self.is_told {
            return;
        }
        let Done { lines, bytes } = done;
        let _ = match self.size {
            Some(size) => {
                let percent = percentage(bytes, size);
                eprint!(rt; "\r{lines} lines done, {percent}% of the input")
            }
            None => eprint!(rt; "\r{lines} lines done"),
        };
    }

    /// Tells how many of so many lines, or the like, are done.
    pub fn tell_part(self, rt: &impl Eprint, done: u64, all: u64, things: &str) {
        if self.is_told {
            let _ = eprint!(rt; "\r{done} of {all} {things} done");
        }
    }

    /// Takes away the line on which progress was told.
    pub fn end(self, rt: &impl Eprint) {
        if self.is_told {
            let _ = eprint!(rt; "{BLANK}");
        }
    }
}

/// How many hundredths a part is of the whole.
fn percentage(part: u64, whole: u64) -> u64 {
    part.saturating_mul(100) / whole.max(1)
}

/// Progress of work that goes on for a time.
#[derive(Clone, Copy)]
pub struct Seconds {
    progress: ProgressMeter,
    time: Duration,
    /// How many seconds were told.
    told: u64,
}

impl Seconds {
    pub fn new(progress: ProgressMeter, time: Duration) -> Seconds {
        Seconds {
            progress,
            time,
            told: 0,
        }
    }

    /// Tells each whole second that was spent, once.
    pub fn tell(&mut self, rt: &impl Eprint, spent: Duration) {
        let seconds = spent.as_secs();
        if seconds > self.told {
            self.told = seconds;
            let all = self.time.as_secs();
            self.progress.tell_part(rt, seconds, all, "seconds");
        }
    }
}
