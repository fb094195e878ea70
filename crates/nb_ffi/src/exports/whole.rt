//! What a handle with all seats does for the whole map: its exact size, its entries, a new map in its
//! place.
ghost use Rattle.nb_ffi.specs.Handles.{IsOpenHandle};
ghost use Rattle.nb_ffi.specs.Shapes.{checked_map_shape};
ghost use Rattle.nb_ffi.specs.Whole.{IsMapListing, IsRenewing, IsSettling};

use crate::codes::{E_FULL, E_NOT_ALL_SEATS, E_OUT_OF_MEMORY, E_ROOM, OK, settle_code};
use crate::ended_map::{MapEntry, write_entries};
use crate::map_shape::MapShape;
use crate::seat_handle::SeatHandle;
use nb_map::RenewFault;
use std::alloc::Global;

/// `Handle::settle`.
#[unsafe(no_mangle)]
pub extern "C" fn samvolip_settle(alloc: Global, seat: &mut SeatHandle, size: &mut u64) -> i32
    requires open { IsOpenHandle seat.old.handle }
    ensures { IsSettling result size.old size.new seat.old.handle seat.new.handle }
{
    match seat.lend().settle(alloc) {
        Ok(keys) => {
            *size = keys;
            OK
        }
        Err(fault) => settle_code(fault),
    }
}

/// `Handle::entries`, written into the room for them, and how many there are.
#[unsafe(no_mangle)]
pub extern "C" fn samvolip_entries(
    alloc: Global,
    seat: &mut SeatHandle,
    entries: &mut [MapEntry],
    count: &mut u64,
) -> i32
    requires open { IsOpenHandle seat.old.handle }
    ensures { IsMapListing result count.old count.new entries.old entries.new
        seat.old.handle seat.new.handle }
{
    match seat.lend().entries(alloc) {
        Ok(listed) => {
            *count = listed.len() as u64;
            if listed.len() > entries.len() {
                return E_ROOM;
            }
            write_entries(&listed, entries);
            OK
        }
        Err(fault) => settle_code(fault),
    }
}

/// `Handle::renew`.
#[unsafe(no_mangle)]
pub extern "C" fn samvolip_renew(alloc: Global, seat: &mut SeatHandle, shape: &MapShape) -> i32
    requires open { IsOpenHandle seat.old.handle }
    ensures { IsRenewing (checked_map_shape shape.now) result seat.old.handle seat.new.handle }
{
    let shape = match shape.checked() {
        Ok(shape) => shape,
        Err(code) => return code,
    };
    let handle = seat.lend();
    match handle.renew(alloc, shape) {
        Ok(()) => {
            handle.known();
            OK
        }
        Err(RenewFault::Full) => E_FULL,
        Err(RenewFault::NotAll) => E_NOT_ALL_SEATS,
        Err(RenewFault::OutOfMemory) => E_OUT_OF_MEMORY,
    }
}
