//! Walks over the map's keys, each in a struct of the caller's.
ghost use Rattle.nb_ffi.specs.Handles.{IsOpenHandle, StaysOpen};
ghost use Rattle.nb_ffi.specs.Promises.{HasBegunWalk};
ghost use Rattle.nb_ffi.specs.Telling.{HasWalkOfSeat, IsNext};

use crate::codes::{ABSENT, PRESENT};
use crate::cursor::Cursor;
use crate::seat_handle::SeatHandle;

/// `Map::walk`.
#[unsafe(no_mangle)]
pub extern "C" fn samvolip_walk(seat: &mut SeatHandle, cursor: &mut Cursor)
    requires open { IsOpenHandle seat.old.handle }
    ensures { StaysOpen seat.old.handle seat.new.handle (HasBegunWalk cursor.new) }
{
    *cursor = Cursor::at(seat.lend().walk_from_top());
}

/// `Map::next_key`, of a walk that the seat has begun.
#[unsafe(no_mangle)]
pub extern "C" fn samvolip_next(
    seat: &mut SeatHandle,
    cursor: &mut Cursor,
    key: &mut u64,
    number: &mut u64,
) -> i32
    requires open { IsOpenHandle seat.old.handle }
    requires walk { HasWalkOfSeat seat.old.handle cursor.old }
    ensures { IsNext result cursor.old cursor.new key.old key.new number.old number.new
        seat.old.handle seat.new.handle }
{
    let mut at = cursor.place();
    let shown = seat.lend().next_key_from(&mut at);
    *cursor = Cursor::at(at);
    match shown {
        Some((next_key, next_number)) => {
            *key = next_key.get();
            *number = next_number.get();
            PRESENT
        }
        None => ABSENT,
    }
}
