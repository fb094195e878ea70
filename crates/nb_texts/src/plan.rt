//! How a program takes the lines of an input.
ghost use Rattle.std.specs.Prelude.{◌≡◌, ◌≤◌, MatchOption, min};
ghost use Rattle.nb_texts.specs.Memory.{ahead_under, room_at_first};

use crate::hashing::Hashing;
use crate::memory::MemoryLimit;
use nb_lines::ProgressMeter;

/// How many bytes are asked for at once.
const AHEAD: usize = 1 << 20;

/// For so many bytes of a limit one is asked for at once.
const BYTES_OF_AHEAD: usize = 32;

/// For so many bytes of a limit there is room for a line at first. So the map takes a fifth of the
/// limit, or less.
const BYTES_OF_ROOM: usize = 256;

/// How lines are taken.
#[derive(Clone, Copy)]
pub struct LinePlan {
    pub hashing: Hashing,
    /// How many threads look lines up.
    pub workers: usize,
    /// For how many different lines there is room at first.
    pub room: usize,
    /// How much may be kept, if that is limited.
    pub limit: Option<MemoryLimit>,
    pub progress: ProgressMeter,
}

impl LinePlan {
    /// How many bytes are asked for at once.
    pub fn ahead(&self) -> usize
        ensures under { result ≡ ahead_under self.now.limit }
        ensures some { 1 ≤ result }
    {
        match self.limit {
            Some(limit) => AHEAD.min(limit.bytes / BYTES_OF_AHEAD).max(1),
            None => AHEAD,
        }
    }

    /// For how many different lines there is room at first under the limit.
    pub fn first_room(&self) -> usize
        ensures { MatchOption self.now.limit (result ≡ self.now.room)
            (λ limit. result ≡ min self.now.room (room_at_first limit)) }
    {
        match self.limit {
            Some(limit) => self.room.min(limit.bytes / BYTES_OF_ROOM),
            None => self.room,
        }
    }
}
