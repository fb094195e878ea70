//! Walks by parts, which are written into an array of the caller's.
ghost use Rattle.nb_ffi.specs.Handles.{IsOpenHandle};
ghost use Rattle.nb_ffi.specs.Listing.{IsBegun, IsList};
ghost use Rattle.nb_ffi.specs.Telling.{HasWalkOfSeat};

use crate::codes::{ABSENT, PRESENT};
use crate::cursor::Cursor;
use crate::ended_map::MapEntry;
use crate::listing::list;
use crate::seat_handle::SeatHandle;

/// `Map::walk_from_slot`.
#[unsafe(no_mangle)]
pub extern "C" fn samvolip_walk_from(seat: &mut SeatHandle, slot: usize, cursor: &mut Cursor) -> i32
    requires open { IsOpenHandle seat.old.handle }
    ensures { IsBegun slot result cursor.old cursor.new seat.old.handle seat.new.handle }
{
    match seat.lend().walk_from_slot(slot) {
        Some(at) => {
            *cursor = Cursor::at(at);
            PRESENT
        }
        None => ABSENT,
    }
}

/// `Map::next_key_before`, of a walk that the seat has begun, as often as the array has room; and
/// how many entries it wrote.
#[unsafe(no_mangle)]
pub extern "C" fn samvolip_list(
    seat: &mut SeatHandle,
    cursor: &mut Cursor,
    end: usize,
    entries: &mut [MapEntry],
    count: &mut u64,
) -> i32
    requires open { IsOpenHandle seat.old.handle }
    requires walk { HasWalkOfSeat seat.old.handle cursor.old }
    ensures { IsList end result cursor.old cursor.new count.new entries.old entries.new
        seat.old.handle seat.new.handle }
{
    let mut at = cursor.place();
    let all = list(seat.lend(), &mut at, end, entries);
    *cursor = Cursor::at(at);
    match all {
        Some(listed) => {
            *count = listed as u64;
            ABSENT
        }
        None => {
            *count = entries.len() as u64;
            PRESENT
        }
    }
}
