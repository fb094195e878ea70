//! How handles come and go.
ghost use Rattle.std.specs.Prelude.{◌≡◌, None};
ghost use Rattle.nb_ffi.specs.Handles.{IsOpenHandle};
ghost use Rattle.nb_ffi.specs.Headers.{checked_with_header};
ghost use Rattle.nb_ffi.specs.Telling.{AreOfOneMap, IsClose, IsJoin, IsOpening, IsSplit};

use crate::codes::{E_LOST, E_NO_SEAT, E_NOT_ALL_SEATS, E_OUT_OF_MEMORY, E_SEATS, E_VERSION, OK};
use crate::ended_handle::EndedHandle;
use crate::header::Header;
use crate::life::{CloseFault, can_join, closed, opened, split};
use crate::map_shape::MapShape;
use crate::seat_handle::SeatHandle;
use nb_map::SplitFault;
use std::alloc::Global;

/// `Map::new`, as one handle with all seats. Another header than the library's is refused before
/// the shape is read.
#[unsafe(no_mangle)]
pub extern "C" fn samvolip_open_with(
    alloc: Global,
    header: &Header,
    shape: &MapShape,
    seat: &mut SeatHandle,
) -> i32
    requires empty { seat.old.handle ≡ None }
    ensures { IsOpening (checked_with_header header.now shape.now) result seat.old.handle
        seat.new.handle }
{
    if !header.is_ours() {
        return E_VERSION;
    }
    let shape = match shape.checked() {
        Ok(shape) => shape,
        Err(code) => return code,
    };
    match opened(alloc, shape) {
        Ok(handle) => {
            seat.fill(handle);
            OK
        }
        Err(_) => E_OUT_OF_MEMORY,
    }
}

/// A handle of its own for the last seat in reserve.
#[unsafe(no_mangle)]
pub extern "C" fn samvolip_split(
    alloc: Global,
    seat: &mut SeatHandle,
    other: &mut SeatHandle,
) -> i32
    requires open { IsOpenHandle seat.old.handle }
    requires empty { other.old.handle ≡ None }
    ensures { IsSplit result seat.old.handle seat.new.handle other.old.handle other.new.handle }
{
    match split(seat.lend(), alloc) {
        Ok(part) => {
            other.fill(part);
            OK
        }
        Err(SplitFault::OutOfMemory) => E_OUT_OF_MEMORY,
        Err(SplitFault::NoSeat) => E_NO_SEAT,
    }
}

/// All seats of the other handle go into the reserve of the first. It takes no memory, and is refused
/// only where they can't be counted.
#[unsafe(no_mangle)]
pub extern "C" fn samvolip_join(alloc: Global, seat: &mut SeatHandle, other: &mut SeatHandle) -> i32
    requires open { IsOpenHandle seat.old.handle }
    requires other_open { IsOpenHandle other.old.handle }
    requires one { AreOfOneMap seat.old.handle other.old.handle }
    ensures { IsJoin result seat.old.handle seat.new.handle other.old.handle other.new.handle }
{
    if !can_join(seat.lend(), other.lend()) {
        return E_SEATS;
    }
    match seat.lend().join(Box::into_inner(other.take(alloc))) {
        Ok(()) => OK,
        Err(_) => unreachable!(),
    }
}

/// `Map::finish`, with a handle that has all seats.
#[unsafe(no_mangle)]
pub extern "C" fn samvolip_close(
    alloc: Global,
    seat: &mut SeatHandle,
    ended: &mut EndedHandle,
) -> i32
    requires open { IsOpenHandle seat.old.handle }
    requires empty { ended.old.left ≡ None }
    ensures { IsClose result seat.old.handle seat.new.handle ended.old.left ended.new.left }
{
    match closed(alloc, seat.take(alloc)) {
        Ok(left) => {
            ended.fill(left);
            OK
        }
        Err(CloseFault::OutOfMemory(back)) => {
            seat.fill(back);
            E_OUT_OF_MEMORY
        }
        Err(CloseFault::NotAllSeats(back)) => {
            seat.fill(back);
            E_NOT_ALL_SEATS
        }
        Err(CloseFault::Lost) => E_LOST,
    }
}

/// Frees what a handle stands for. The map goes with its last handle.
#[unsafe(no_mangle)]
pub extern "C" fn samvolip_free_open(alloc: Global, seat: &mut SeatHandle)
    requires open { IsOpenHandle seat.old.handle }
    ensures { seat.new.handle ≡ None }
{
    drop(seat.take(alloc));
}
