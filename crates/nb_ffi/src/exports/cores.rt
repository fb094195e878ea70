//! Calls in cores: the looks, writes and steps of keys that move from map to map. The header of these
//! is `languages/c/src/cores.h`.
ghost use Rattle.std.specs.Prelude.{Ok, true, ◌&&◌, ◌≡◌};
ghost use Rattle.nb_map.specs.Compound.{greater_of, less_of};
ghost use Rattle.nb_map.specs.NamedCalls.{put_if_absent_of, remove_if_of};
ghost use Rattle.nb_migration.specs.Settling.{close_of, freeze_of, mark_of};
ghost use Rattle.nb_migration.specs.Writes.{replaced_by};
ghost use Rattle.nb_ffi.specs.Checking.{map_ok};
ghost use Rattle.nb_ffi.specs.Codes.{checked_key};
ghost use Rattle.nb_ffi.specs.Cores.{
  IsCopy,
  IsCopyOn,
  IsCoreUpdate,
  IsCoreWrite,
  IsLook,
  IsMarkedCopy,
  IsStep,
  checked_copy,
  checked_exchange,
  checked_replace_if,
  checked_user_entry,
  checked_user_with,
  is_core,
  open_add_of,
  open_put_of,
  open_remove_of,
};
ghost use Rattle.nb_ffi.specs.Handles.{IsOpenHandle};
ghost use Rattle.nb_ffi.specs.Stretches.{IsStretchMove};
ghost use Rattle.nb_ffi.specs.declared.stretch.CoreStretch.{CoreStretch};

use crate::codes::{E_TABLES, key_of};
use crate::cores::{
    copied_code, copied_on_code, copy_of, is_core, marked_code, seen_told, sides_of, tell,
    user_entry_of, user_pair_of, written_told,
};
use crate::ended_map::MapEntry;
use crate::seat_handle::SeatHandle;
use crate::stretch::{self, CoreStretch};
use nb_core::Key;
use nb_migration::{UserNumber, copying, looking, settling, updates, writes};

/// `looking::look`.
#[unsafe(no_mangle)]
pub extern "C" fn samvolip_core_look(seat: &mut SeatHandle, key: u64, found: &mut u64) -> i32
    requires open { IsOpenHandle seat.old.handle }
    ensures { IsLook (checked_key key) result found.old found.new
        seat.old.handle seat.new.handle }
{
    match key_of(key) {
        Ok(key) => tell(seen_told(Ok(looking::look(seat.lend(), key))), found),
        Err(code) => code,
    }
}

/// `writes::put`.
#[unsafe(no_mangle)]
pub extern "C" fn samvolip_core_put(
    seat: &mut SeatHandle,
    key: u64,
    number: u64,
    tries: u32,
    found: &mut u64,
) -> i32
    requires open { IsOpenHandle seat.old.handle }
    ensures { IsCoreWrite (checked_user_with open_put_of key number) tries result found.old found.new
        seat.old.handle seat.new.handle }
{
    match user_entry_of(key, number) {
        Ok((key, number)) => {
            tell(
                written_told(writes::put(seat.lend(), key, number, tries)),
                found,
            )
        }
        Err(code) => code,
    }
}

/// `writes::put_if_absent`.
#[unsafe(no_mangle)]
pub extern "C" fn samvolip_core_put_if_absent(
    seat: &mut SeatHandle,
    key: u64,
    number: u64,
    tries: u32,
    found: &mut u64,
) -> i32
    requires open { IsOpenHandle seat.old.handle }
    ensures { IsCoreWrite (checked_user_with put_if_absent_of key number) tries result found.old found.new
        seat.old.handle seat.new.handle }
{
    match user_entry_of(key, number) {
        Ok((key, number)) => {
            tell(
                written_told(writes::put_if_absent(seat.lend(), key, number, tries)),
                found,
            )
        }
        Err(code) => code,
    }
}

/// `writes::add`.
#[unsafe(no_mangle)]
pub extern "C" fn samvolip_core_add(
    seat: &mut SeatHandle,
    key: u64,
    number: u64,
    tries: u32,
    found: &mut u64,
) -> i32
    requires open { IsOpenHandle seat.old.handle }
    ensures { IsCoreWrite (checked_user_with open_add_of key number) tries result found.old found.new
        seat.old.handle seat.new.handle }
{
    match user_entry_of(key, number) {
        Ok((key, number)) => {
            tell(
                written_told(writes::add(seat.lend(), key, number, tries)),
                found,
            )
        }
        Err(code) => code,
    }
}

/// `writes::remove`.
#[unsafe(no_mangle)]
pub extern "C" fn samvolip_core_remove(
    seat: &mut SeatHandle,
    key: u64,
    tries: u32,
    found: &mut u64,
) -> i32
    requires open { IsOpenHandle seat.old.handle }
    ensures { IsCoreWrite (map_ok open_remove_of (checked_key key)) tries result found.old found.new
        seat.old.handle seat.new.handle }
{
    match key_of(key) {
        Ok(key) => tell(written_told(writes::remove(seat.lend(), key, tries)), found),
        Err(code) => code,
    }
}

/// `writes::replace_if`.
#[unsafe(no_mangle)]
pub extern "C" fn samvolip_core_replace_if(
    seat: &mut SeatHandle,
    key: u64,
    old: u64,
    new: u64,
    tries: u32,
    found: &mut u64,
) -> i32
    requires open { IsOpenHandle seat.old.handle }
    ensures { IsCoreWrite (checked_replace_if key old new) tries result found.old found.new
        seat.old.handle seat.new.handle }
{
    match user_pair_of(key, old, new) {
        Ok(((key, old), new)) => {
            tell(
                written_told(writes::replace_if(seat.lend(), key, old, new, tries)),
                found,
            )
        }
        Err(code) => code,
    }
}

/// `writes::remove_if`.
#[unsafe(no_mangle)]
pub extern "C" fn samvolip_core_remove_if(
    seat: &mut SeatHandle,
    key: u64,
    number: u64,
    tries: u32,
    found: &mut u64,
) -> i32
    requires open { IsOpenHandle seat.old.handle }
    ensures { IsCoreWrite (checked_user_with remove_if_of key number) tries result found.old found.new
        seat.old.handle seat.new.handle }
{
    match user_entry_of(key, number) {
        Ok((key, number)) => {
            tell(
                written_told(writes::remove_if(seat.lend(), key, number, tries)),
                found,
            )
        }
        Err(code) => code,
    }
}

/// `writes::compare_exchange`, which expects what the condition asks, and leaves what the change
/// does.
#[unsafe(no_mangle)]
pub extern "C" fn samvolip_core_compare_exchange(
    seat: &mut SeatHandle,
    key: u64,
    want: u32,
    old: u64,
    change: u32,
    number: u64,
    tries: u32,
    found: &mut u64,
) -> i32
    requires open { IsOpenHandle seat.old.handle }
    ensures { IsCoreWrite (checked_exchange key want old change number) tries result
        found.old found.new seat.old.handle seat.new.handle }
{
    match sides_of(key, want, old, change, number) {
        Ok(((key, old), new)) => {
            tell(
                written_told(writes::compare_exchange(seat.lend(), key, old, new, tries)),
                found,
            )
        }
        Err(code) => code,
    }
}

/// `updates::replace`.
#[unsafe(no_mangle)]
pub extern "C" fn samvolip_core_replace(
    seat: &mut SeatHandle,
    key: u64,
    number: u64,
    tries: u32,
    found: &mut u64,
) -> i32
    requires open { IsOpenHandle seat.old.handle }
    ensures { IsCoreUpdate replaced_by (checked_user_entry key number) tries result found.old found.new
        seat.old.handle seat.new.handle }
{
    match user_entry_of(key, number) {
        Ok((key, number)) => {
            tell(
                written_told(updates::replace(seat.lend(), key, number, tries)),
                found,
            )
        }
        Err(code) => code,
    }
}

/// `updates::fetch_max`.
#[unsafe(no_mangle)]
pub extern "C" fn samvolip_core_fetch_max(
    seat: &mut SeatHandle,
    key: u64,
    number: u64,
    tries: u32,
    found: &mut u64,
) -> i32
    requires open { IsOpenHandle seat.old.handle }
    ensures { IsCoreUpdate greater_of (checked_user_entry key number) tries result found.old found.new
        seat.old.handle seat.new.handle }
{
    match user_entry_of(key, number) {
        Ok((key, number)) => {
            tell(
                written_told(updates::fetch_max(seat.lend(), key, number, tries)),
                found,
            )
        }
        Err(code) => code,
    }
}

/// `updates::fetch_min`.
#[unsafe(no_mangle)]
pub extern "C" fn samvolip_core_fetch_min(
    seat: &mut SeatHandle,
    key: u64,
    number: u64,
    tries: u32,
    found: &mut u64,
) -> i32
    requires open { IsOpenHandle seat.old.handle }
    ensures { IsCoreUpdate less_of (checked_user_entry key number) tries result found.old found.new
        seat.old.handle seat.new.handle }
{
    match user_entry_of(key, number) {
        Ok((key, number)) => {
            tell(
                written_told(updates::fetch_min(seat.lend(), key, number, tries)),
                found,
            )
        }
        Err(code) => code,
    }
}

/// `settling::freeze`.
#[unsafe(no_mangle)]
pub extern "C" fn samvolip_core_freeze(
    seat: &mut SeatHandle,
    key: u64,
    number: u64,
    tries: u32,
    found: &mut u64,
) -> i32
    requires open { IsOpenHandle seat.old.handle }
    ensures { IsStep (checked_user_with freeze_of key number) tries result found.old found.new
        seat.old.handle seat.new.handle }
{
    match user_entry_of(key, number) {
        Ok((key, number)) => {
            tell(
                seen_told(settling::freeze(seat.lend(), key, number, tries)),
                found,
            )
        }
        Err(code) => code,
    }
}

/// `settling::mark`.
#[unsafe(no_mangle)]
pub extern "C" fn samvolip_core_mark(
    seat: &mut SeatHandle,
    key: u64,
    number: u64,
    tries: u32,
    found: &mut u64,
) -> i32
    requires open { IsOpenHandle seat.old.handle }
    ensures { IsStep (checked_user_with mark_of key number) tries result found.old found.new
        seat.old.handle seat.new.handle }
{
    match user_entry_of(key, number) {
        Ok((key, number)) => {
            tell(
                seen_told(settling::mark(seat.lend(), key, number, tries)),
                found,
            )
        }
        Err(code) => code,
    }
}

/// `settling::close_if_absent`.
#[unsafe(no_mangle)]
pub extern "C" fn samvolip_core_close_if_absent(
    seat: &mut SeatHandle,
    key: u64,
    tries: u32,
    found: &mut u64,
) -> i32
    requires open { IsOpenHandle seat.old.handle }
    ensures { IsStep (map_ok close_of (checked_key key)) tries result found.old found.new
        seat.old.handle seat.new.handle }
{
    match key_of(key) {
        Ok(key) => tell(
            seen_told(settling::close_if_absent(seat.lend(), key, tries)),
            found,
        ),
        Err(code) => code,
    }
}

/// `copying::copy`.
#[unsafe(no_mangle)]
pub extern "C" fn samvolip_core_copy(target: &mut SeatHandle, key: u64, number: u64) -> i32
    requires open { IsOpenHandle target.old.handle }
    ensures { IsCopy (checked_copy target.old.handle key number) result
        target.old.handle target.new.handle }
{
    match copy_of(target, key, number) {
        Ok((key, number)) => copied_code(copying::copy(target.lend(), key, number)),
        Err(code) => code,
    }
}

/// `copying::copy_on`.
#[unsafe(no_mangle)]
pub extern "C" fn samvolip_core_copy_on(
    source: &mut SeatHandle,
    target: &mut SeatHandle,
    key: u64,
    number: u64,
) -> i32
    requires open { IsOpenHandle source.old.handle }
    requires target_open { IsOpenHandle target.old.handle }
    ensures { IsCopyOn (checked_copy target.old.handle key number) result
        source.old.handle source.new.handle target.old.handle target.new.handle }
{
    match copy_of(target, key, number) {
        Ok((key, number)) => copy_on(source, target, key, number),
        Err(code) => code,
    }
}

/// `copying::copy_and_mark`.
#[unsafe(no_mangle)]
pub extern "C" fn samvolip_core_copy_and_mark(
    source: &mut SeatHandle,
    target: &mut SeatHandle,
    key: u64,
    number: u64,
    tries: u32,
) -> i32
    requires open { IsOpenHandle source.old.handle }
    requires target_open { IsOpenHandle target.old.handle }
    ensures { IsMarkedCopy (checked_copy target.old.handle key number) tries result
        source.old.handle source.new.handle target.old.handle target.new.handle }
{
    match copy_of(target, key, number) {
        Ok((key, number)) => copy_and_mark(source, target, key, number, tries),
        Err(code) => code,
    }
}

/// `copying::copy_on` to a map of one table.
fn copy_on(source: &mut SeatHandle, target: &mut SeatHandle, key: Key, number: UserNumber) -> i32
    requires open { IsOpenHandle source.old.handle }
    requires target_open { IsOpenHandle target.old.handle }
    requires one { is_core target.old.handle ≡ true }
    ensures { IsCopyOn (Ok (key, number)) result
        source.old.handle source.new.handle target.old.handle target.new.handle }
{
    copied_on_code(copying::copy_on(source.lend(), target.lend(), key, number))
}

/// `copying::copy_and_mark` to a map of one table.
fn copy_and_mark(
    source: &mut SeatHandle,
    target: &mut SeatHandle,
    key: Key,
    number: UserNumber,
    tries: u32,
) -> i32
    requires open { IsOpenHandle source.old.handle }
    requires target_open { IsOpenHandle target.old.handle }
    requires one { is_core target.old.handle ≡ true }
    ensures { IsMarkedCopy (Ok (key, number)) tries result
        source.old.handle source.new.handle target.old.handle target.new.handle }
{
    let (source, target) = (source.lend(), target.lend());
    marked_code(copying::copy_and_mark(source, target, key, number, tries))
}

/// `pieces::move_stretch`, of as many slots as the array has room for, but no more than 128. The
/// entries whose copies go on behind the target are written into the array, and how far the move has
/// come. Where a mark is refused the same stretch is to be moved again.
#[unsafe(no_mangle)]
pub extern "C" fn samvolip_core_move_stretch(
    source: &mut SeatHandle,
    target: &mut SeatHandle,
    first: usize,
    tries: u32,
    left: &mut [MapEntry],
    told: &mut CoreStretch,
) -> i32
    requires open { IsOpenHandle source.old.handle }
    requires target_open { IsOpenHandle target.old.handle }
    ensures { IsStretchMove (is_core source.old.handle && is_core target.old.handle) first tries
        result left.old left.new told.old told.new
        source.old.handle source.new.handle target.old.handle target.new.handle }
{
    if is_core(source) && is_core(target) {
        let (code, moved) = move_stretch(source, target, first, tries, left);
        *told = moved;
        code
    } else {
        E_TABLES
    }
}

/// `stretch::move_stretch` between two maps of one table.
fn move_stretch(
    source: &mut SeatHandle,
    target: &mut SeatHandle,
    first: usize,
    tries: u32,
    left: &mut [MapEntry],
) -> (i32, CoreStretch)
    requires open { IsOpenHandle source.old.handle }
    requires target_open { IsOpenHandle target.old.handle }
    requires one { is_core source.old.handle ≡ true }
    requires target_one { is_core target.old.handle ≡ true }
    ensures { (told : CoreStretch) → IsStretchMove true first tries result.0 left.old left.new told
        result.1 source.old.handle source.new.handle target.old.handle target.new.handle }
{
    let (source, target) = (source.lend(), target.lend());
    stretch::move_stretch(source, target, first, tries, left)
}
