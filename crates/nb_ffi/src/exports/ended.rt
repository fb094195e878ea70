//! Looks at an ended map.
ghost use Rattle.std.specs.Prelude.{◌≡◌, None, length};
ghost use Rattle.std.specs.FinMap as map;
ghost use Rattle.nb_map.specs.Ending.{EndedOf, map_left};
ghost use Rattle.nb_ffi.specs.Codes.{checked_key};
ghost use Rattle.nb_ffi.specs.Entries.{AreEntries};
ghost use Rattle.nb_ffi.specs.Telling.{HasEnd, HoldsEnd, IsEndGet};

use crate::codes::{ABSENT, PRESENT, key_of};
use crate::ended_handle::EndedHandle;
use crate::ended_map::MapEntry;
use nb_core::Num;
use std::alloc::Global;

/// `Ended::size`.
#[unsafe(no_mangle)]
pub extern "C" fn samvolip_ended_size(ended: &mut EndedHandle) -> u64
    requires has { HasEnd ended.old.left }
    ensures size { (end : EndedOf) → HoldsEnd end ended.old.left
        → result ≡ length (map.entries (map_left end)) }
    ensures same { ended.new ≡ ended.old }
{
    ended.lend().size()
}

/// `Ended::get`.
#[unsafe(no_mangle)]
pub extern "C" fn samvolip_ended_get(ended: &mut EndedHandle, key: u64, number: &mut u64) -> i32
    requires has { HasEnd ended.old.left }
    ensures told { (end : EndedOf) → HoldsEnd end ended.old.left
        → IsEndGet (checked_key key) result number.old number.new end }
    ensures same { ended.new ≡ ended.old }
{
    let key = match key_of(key) {
        Ok(key) => key,
        Err(code) => return code,
    };
    let found = ended.lend().get(key);
    let code = if found.is_some() { PRESENT } else { ABSENT };
    *number = found.map_or(0, Num::get);
    code
}

/// `Ended::entries`.
#[unsafe(no_mangle)]
pub extern "C" fn samvolip_ended_entries(
    alloc: Global,
    ended: &mut EndedHandle,
    entries: &mut [MapEntry],
) -> i32
    requires has { HasEnd ended.old.left }
    ensures told { (end : EndedOf) → HoldsEnd end ended.old.left
        → AreEntries result entries.old entries.new (map.entries (map_left end)) }
    ensures same { ended.new ≡ ended.old }
{
    ended.lend().entries(alloc, entries)
}

/// Frees what is left of a map.
#[unsafe(no_mangle)]
pub extern "C" fn samvolip_ended_free_open(alloc: Global, ended: &mut EndedHandle)
    requires has { HasEnd ended.old.left }
    ensures { ended.new.left ≡ None }
{
    drop(ended.take(alloc));
}
