//! Calls at a key, and looks at the whole.
ghost use Rattle.std.specs.Prelude.{Ok};
ghost use Rattle.nb_ffi.specs.Codes.{checked_call, checked_key, write_of};
ghost use Rattle.nb_ffi.specs.Handles.{IsOpenHandle, StaysOpen};
ghost use Rattle.nb_ffi.specs.Many.{IsGetMany};
ghost use Rattle.nb_ffi.specs.Promises.{HasEstimated, HasSeenTop};
ghost use Rattle.nb_ffi.specs.Telling.{AreOfOneMap, HasMetHandle, IsGet, IsSample, IsWrite};

use crate::codes::{
    ABSENT, E_KEY_RANGE, E_ROOM, OK, PRESENT, WriteAsked, WriteReply, asked, fault_code, key_of,
    reply_in_c,
};
use crate::many::{are_keys, get_many};
use crate::occupancy::{MapOccupancy, occupancy_in_c};
use crate::seat_handle::SeatHandle;
use nb_core::Num;

/// `Map::get`.
#[unsafe(no_mangle)]
pub extern "C" fn samvolip_get(seat: &mut SeatHandle, key: u64, number: &mut u64) -> i32
    requires open { IsOpenHandle seat.old.handle }
    ensures { IsGet (checked_key key) result number.old number.new
        seat.old.handle seat.new.handle }
{
    let key = match key_of(key) {
        Ok(key) => key,
        Err(code) => return code,
    };
    let found = seat.lend().get(key);
    let code = if found.is_some() { PRESENT } else { ABSENT };
    // 0 where there is none: so a hit and a miss take the same way
    *number = found.map_or(0, Num::get);
    code
}

/// `Map::get_many`, of all these keys or of none: a key's number is `other` where it has none.
#[unsafe(no_mangle)]
pub extern "C" fn samvolip_get_many(
    seat: &mut SeatHandle,
    keys: &[u64],
    numbers: &mut [u64],
    other: u64,
) -> i32
    requires open { IsOpenHandle seat.old.handle }
    ensures { IsGetMany keys.now other result numbers.old numbers.new
        seat.old.handle seat.new.handle }
{
    if numbers.len() < keys.len() {
        return E_ROOM;
    }
    if !are_keys(keys) {
        return E_KEY_RANGE;
    }
    get_many(seat.lend(), keys, numbers, other);
    OK
}

/// What a write answers, and its code.
fn written(seat: &mut SeatHandle, asked: WriteAsked, tries: u32, reply: &mut WriteReply) -> i32
    requires open { IsOpenHandle seat.old.handle }
    ensures { IsWrite (Ok (write_of asked)) tries result reply.old reply.new
        seat.old.handle seat.new.handle }
{
    let WriteAsked { key, want, change } = asked;
    match seat.lend().put_if_match(key, want, change, tries) {
        Ok(made) => {
            *reply = reply_in_c(made);
            OK
        }
        Err(fault) => fault_code(fault),
    }
}

/// `Map::put_if_match`.
#[unsafe(no_mangle)]
pub extern "C" fn samvolip_put_if_match(
    seat: &mut SeatHandle,
    key: u64,
    want: u32,
    old: u64,
    change: u32,
    number: u64,
    tries: u32,
    reply: &mut WriteReply,
) -> i32
    requires open { IsOpenHandle seat.old.handle }
    ensures { IsWrite (checked_call key want old change number) tries result reply.old reply.new
        seat.old.handle seat.new.handle }
{
    match asked(key, want, old, change, number) {
        Ok(asked) => written(seat, asked, tries, reply),
        Err(code) => code,
    }
}

/// `Map::size_estimate`.
#[unsafe(no_mangle)]
pub extern "C" fn samvolip_size_estimate(seat: &mut SeatHandle) -> u64
    requires open { IsOpenHandle seat.old.handle }
    ensures { StaysOpen seat.old.handle seat.new.handle HasEstimated }
{
    seat.lend().size_estimate()
}

/// `Map::generation`.
#[unsafe(no_mangle)]
pub extern "C" fn samvolip_generation(seat: &mut SeatHandle) -> u32
    requires open { IsOpenHandle seat.old.handle }
    ensures { StaysOpen seat.old.handle seat.new.handle (HasSeenTop result) }
{
    seat.lend().generation()
}

/// `Map::meet`.
#[unsafe(no_mangle)]
pub extern "C" fn samvolip_meet(seat: &mut SeatHandle, other: &mut SeatHandle)
    requires open { IsOpenHandle seat.old.handle }
    requires other_open { IsOpenHandle other.old.handle }
    requires one { AreOfOneMap seat.old.handle other.old.handle }
    ensures here { StaysOpen seat.old.handle seat.new.handle (HasMetHandle other.old.handle) }
    ensures there { StaysOpen other.old.handle other.new.handle (HasMetHandle seat.old.handle) }
{
    seat.lend().meet(other.lend());
}

/// `Map::occupancy`.
#[unsafe(no_mangle)]
pub extern "C" fn samvolip_occupancy(seat: &mut SeatHandle, found: &mut MapOccupancy)
    requires open { IsOpenHandle seat.old.handle }
    ensures { IsSample found.new seat.old.handle seat.new.handle }
{
    *found = occupancy_in_c(seat.lend().occupancy());
}
