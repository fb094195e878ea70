//! Writes at a key by their names, each with so many tries.
ghost use Rattle.nb_map.specs.NamedCalls.{add_below_of, add_of, put_below_of, put_if_absent_of, put_of, remove_below_of, remove_of};
ghost use Rattle.nb_ffi.specs.Checking.{map_ok};
ghost use Rattle.nb_ffi.specs.Codes.{checked_key, checked_with, checked_with_limit};
ghost use Rattle.nb_ffi.specs.Handles.{IsOpenHandle};
ghost use Rattle.nb_ffi.specs.Telling.{IsNamedWrite, IsTold};

use crate::codes::{ABSENT, PRESENT, entry_below, entry_of, fault_code, key_of};
use crate::seat_handle::SeatHandle;
use nb_core::Num;
use nb_map::PutFault;

/// `Map::try_put`.
#[unsafe(no_mangle)]
pub extern "C" fn samvolip_try_put(
    seat: &mut SeatHandle,
    key: u64,
    number: u64,
    tries: u32,
    before: &mut u64,
) -> i32
    requires open { IsOpenHandle seat.old.handle }
    ensures { IsNamedWrite (checked_with put_of key number) tries result before.old before.new
        seat.old.handle seat.new.handle }
{
    match entry_of(key, number) {
        Ok((key, number)) => told(seat.lend().try_put(key, number, tries), before),
        Err(code) => code,
    }
}

/// `Map::try_put_if_absent`.
#[unsafe(no_mangle)]
pub extern "C" fn samvolip_try_put_if_absent(
    seat: &mut SeatHandle,
    key: u64,
    number: u64,
    tries: u32,
    before: &mut u64,
) -> i32
    requires open { IsOpenHandle seat.old.handle }
    ensures { IsNamedWrite (checked_with put_if_absent_of key number) tries result before.old before.new
        seat.old.handle seat.new.handle }
{
    match entry_of(key, number) {
        Ok((key, number)) => told(seat.lend().try_put_if_absent(key, number, tries), before),
        Err(code) => code,
    }
}

/// `Map::try_add`.
#[unsafe(no_mangle)]
pub extern "C" fn samvolip_try_add(
    seat: &mut SeatHandle,
    key: u64,
    number: u64,
    tries: u32,
    before: &mut u64,
) -> i32
    requires open { IsOpenHandle seat.old.handle }
    ensures { IsNamedWrite (checked_with add_of key number) tries result before.old before.new
        seat.old.handle seat.new.handle }
{
    match entry_of(key, number) {
        Ok((key, number)) => told(seat.lend().try_add(key, number, tries), before),
        Err(code) => code,
    }
}

/// `Map::try_remove`.
#[unsafe(no_mangle)]
pub extern "C" fn samvolip_try_remove(
    seat: &mut SeatHandle,
    key: u64,
    tries: u32,
    before: &mut u64,
) -> i32
    requires open { IsOpenHandle seat.old.handle }
    ensures { IsNamedWrite (map_ok remove_of (checked_key key)) tries result before.old before.new
        seat.old.handle seat.new.handle }
{
    match key_of(key) {
        Ok(key) => told(seat.lend().try_remove(key, tries), before),
        Err(code) => code,
    }
}

/// `Map::try_put_below`.
#[unsafe(no_mangle)]
pub extern "C" fn samvolip_try_put_below(
    seat: &mut SeatHandle,
    key: u64,
    number: u64,
    limit: u64,
    tries: u32,
    before: &mut u64,
) -> i32
    requires open { IsOpenHandle seat.old.handle }
    ensures { IsNamedWrite (checked_with_limit put_below_of key number limit) tries result
        before.old before.new seat.old.handle seat.new.handle }
{
    match entry_below(key, number, limit) {
        Ok(((key, number), limit)) => {
            told(seat.lend().try_put_below(key, number, limit, tries), before)
        }
        Err(code) => code,
    }
}

/// `Map::try_add_below`.
#[unsafe(no_mangle)]
pub extern "C" fn samvolip_try_add_below(
    seat: &mut SeatHandle,
    key: u64,
    number: u64,
    limit: u64,
    tries: u32,
    before: &mut u64,
) -> i32
    requires open { IsOpenHandle seat.old.handle }
    ensures { IsNamedWrite (checked_with_limit add_below_of key number limit) tries result
        before.old before.new seat.old.handle seat.new.handle }
{
    match entry_below(key, number, limit) {
        Ok(((key, number), limit)) => {
            told(seat.lend().try_add_below(key, number, limit, tries), before)
        }
        Err(code) => code,
    }
}

/// `Map::try_remove_below`.
#[unsafe(no_mangle)]
pub extern "C" fn samvolip_try_remove_below(
    seat: &mut SeatHandle,
    key: u64,
    limit: u64,
    tries: u32,
    before: &mut u64,
) -> i32
    requires open { IsOpenHandle seat.old.handle }
    ensures { IsNamedWrite (checked_with remove_below_of key limit) tries result
        before.old before.new seat.old.handle seat.new.handle }
{
    match entry_of(key, limit) {
        Ok((key, limit)) => told(seat.lend().try_remove_below(key, limit, tries), before),
        Err(code) => code,
    }
}

/// Writes what a write found, or 0 where there was none, and answers its code.
#[inline(always)]
fn told(answer: Result<Option<Num>, PutFault>, number: &mut u64) -> i32
    ensures { IsTold answer result number.old number.new }
{
    match answer {
        Ok(found) => {
            // a hit and a miss take the same way
            *number = found.map_or(0, Num::get);
            if found.is_some() { PRESENT } else { ABSENT }
        }
        Err(fault) => fault_code(fault),
    }
}
