//! What a program of C was compiled with: the version of its header, and the sizes of its structs.
ghost use Rattle.std.specs.Prelude.{◌≡◌};
ghost use Rattle.nb_ffi.specs.Headers.{is_ours};

use crate::codes::WriteReply;
use crate::cursor::Cursor;
use crate::ended_handle::EndedHandle;
use crate::ended_map::MapEntry;
use crate::map_shape::MapShape;
use crate::occupancy::MapOccupancy;
use crate::seat_handle::SeatHandle;
use std::mem::size_of;

/// Version 0.9.0, as one number: that of the newest header that fits the library.
pub const VERSION: u32 = 0x000900;
/// The version of the oldest one: the first of the series.
pub const OLDEST: u32 = 0x000900;
/// The size of a `samvolip_shape`.
pub const SHAPE_SIZE: usize = size_of::<MapShape>();
/// The size of a `samvolip_reply`.
pub const REPLY_SIZE: usize = size_of::<WriteReply>();
/// The size of a `samvolip_entry`.
pub const ENTRY_SIZE: usize = size_of::<MapEntry>();
/// The size of a `samvolip_slots`.
pub const OCCUPANCY_SIZE: usize = size_of::<MapOccupancy>();
/// The size of what the library has of a handle.
pub const HANDLE_SIZE: usize = size_of::<SeatHandle>();
/// The size of what it has of a cursor.
pub const CURSOR_SIZE: usize = size_of::<Cursor>();

const _: () = prove!(size_of::<EndedHandle>() == HANDLE_SIZE);

/// The version of a header, and the sizes of its structs.
#[repr(C)]
#[derive(Drop)]
pub struct Header {
    pub version: u32,
    pub shape: u32,
    pub seat: u32,
    pub ended: u32,
    pub reply: u32,
    pub entry: u32,
    pub occupancy: u32,
    pub cursor: u32,
}

impl Header {
    /// Whether the library serves it: a header of its series that isn't newer, with structs of its
    /// sizes.
    pub(crate) fn is_ours(&self) -> bool
        ensures { result ≡ is_ours self.now }
    {
        OLDEST <= self.version
            && self.version <= VERSION
            && self.shape as usize == SHAPE_SIZE
            && self.reply as usize == REPLY_SIZE
            && self.entry as usize == ENTRY_SIZE
            && self.occupancy as usize == OCCUPANCY_SIZE
            && HANDLE_SIZE <= self.seat as usize
            && HANDLE_SIZE <= self.ended as usize
            && CURSOR_SIZE <= self.cursor as usize
    }
}
