//! Codes: what calls of C take for conditions and changes, and what they answer.
ghost use Rattle.std.specs.Prelude.{◌≡◌};
ghost use Rattle.nb_ffi.specs.Checking.{map_ok};
ghost use Rattle.nb_ffi.specs.Codes.{
  checked_below,
  checked_call,
  checked_change,
  checked_entry,
  checked_key,
  checked_number,
  checked_want,
  fault_code,
  reply_in_c,
  settle_code,
  shape_code,
  write_of,
};

use nb_core::{Change, Key, Num, Reply, ShapeFault, Want};
use nb_map::{PutFault, SettleFault};

/// A call came to what was asked for.
pub const OK: i32 = 0;
/// A look found a number.
pub const PRESENT: i32 = 1;
/// A look found none.
pub const ABSENT: i32 = 0;

/// The number of tables isn't from 1 to 16; or a core hasn't one alone.
pub const E_TABLES: i32 = -1;
/// An exponent isn't from 2 to 28.
pub const E_EXPONENTS: i32 = -2;
/// A table is smaller than the one before it.
pub const E_FALLING: i32 = -3;
/// The number of seats isn't from 1 to 256; or two handles have more seats than can be counted.
pub const E_SEATS: i32 = -4;
/// The number of stripes isn't from 1 to 256.
pub const E_STRIPES: i32 = -5;
/// The reprobe limit is 0.
pub const E_REPROBES: i32 = -6;
/// The chunk isn't a power of two from 4 to 1024.
pub const E_CHUNK: i32 = -7;
/// There is no memory.
pub const E_OUT_OF_MEMORY: i32 = -8;
/// The key is past the greatest one.
pub const E_KEY_RANGE: i32 = -9;
/// A number is past the greatest one.
pub const E_VALUE_RANGE: i32 = -10;
/// The code of a condition is none.
pub const E_WANT: i32 = -11;
/// The code of a change is none.
pub const E_CHANGE: i32 = -12;
/// Other keys have all slots of the last table.
pub const E_FULL: i32 = -13;
/// Other writes of the key came first, as often as there were tries.
pub const E_CONTENDED: i32 = -14;
/// The sum of an add is past the greatest number.
pub const E_SUM_RANGE: i32 = -15;
/// No seat is in reserve.
pub const E_NO_SEAT: i32 = -16;
/// The handle hasn't all seats of its map.
pub const E_NOT_ALL_SEATS: i32 = -17;
/// The caller's array has no room for all.
pub const E_ROOM: i32 = -18;
/// Somebody else held the map although the handle had all its seats, so the map was given up.
pub const E_LOST: i32 = -19;
/// The program was compiled with another header than the library's.
pub const E_VERSION: i32 = -20;
/// All tables together have more than `2^30` slots.
pub const E_SLOTS: i32 = -21;

/// In a core, the key has no number, and none was put.
pub const CORE_ABSENT: i32 = 0;
/// The key has this number, which writes may change.
pub const CORE_OPEN: i32 = 1;
/// The key has this number, frozen.
pub const CORE_FROZEN: i32 = 2;
/// The key is closed.
pub const CORE_CLOSED: i32 = 3;
/// The key had no number, and has one by this call.
pub const CORE_CAME: i32 = 4;
/// The key had this number, and the write has changed it, or taken it out.
pub const CORE_CHANGED: i32 = 5;
/// The key has this number, which is left.
pub const CORE_KEPT: i32 = 6;
/// The key's number is frozen, or the key is closed: the write goes on behind the core.
pub const CORE_MOVED: i32 = 7;
/// The key has or had a number where one was to be copied.
pub const CORE_HAD_NUMBER: i32 = 8;
/// Other keys have all slots where a number was to be copied.
pub const CORE_FULL: i32 = 9;
/// The number isn't frozen in its source any more.
pub const CORE_SETTLED: i32 = 10;

/// A condition that asks nothing.
pub const ANY: u32 = 0;
/// That there is no number at the key.
pub const WANT_ABSENT: u32 = 1;
/// That there is one.
pub const WANT_PRESENT: u32 = 2;
/// That it is this one.
pub const EQUAL: u32 = 3;
/// That there is none, or a smaller one than this.
pub const WANT_BELOW: u32 = 4;

/// A change that puts the number.
pub const PUT: u32 = 0;
/// One that takes the key out.
pub const REMOVE: u32 = 1;
/// One that adds the number.
pub const ADD: u32 = 2;

/// What a write answers in C: the number that was at the key, and 1 for `had`, or twice 0 where
/// there was none; and 1 or 0 for whether the condition held.
#[repr(C)]
#[derive(Drop)]
pub struct WriteReply {
    pub before: u64,
    pub had: u32,
    pub matched: u32,
}

pub(crate) fn shape_code(fault: ShapeFault) -> i32
    ensures { result ≡ shape_code fault }
{
    match fault {
        ShapeFault::Bits => E_EXPONENTS,
        ShapeFault::Generations => E_TABLES,
        ShapeFault::Seats => E_SEATS,
        ShapeFault::Stripes => E_STRIPES,
        ShapeFault::Plan => E_FALLING,
        ShapeFault::Reprobes => E_REPROBES,
        ShapeFault::Chunk => E_CHUNK,
        // no call of C asks by a number of keys
        ShapeFault::Keys => E_TABLES,
        ShapeFault::Slots => E_SLOTS,
    }
}

pub(crate) fn fault_code(fault: PutFault) -> i32
    ensures { result ≡ fault_code fault }
{
    match fault {
        PutFault::Full => E_FULL,
        PutFault::Contended => E_CONTENDED,
        PutFault::ValueRange => E_SUM_RANGE,
    }
}

pub(crate) fn settle_code(fault: SettleFault) -> i32
    ensures { result ≡ settle_code fault }
{
    match fault {
        SettleFault::NotAll => E_NOT_ALL_SEATS,
        SettleFault::OutOfMemory => E_OUT_OF_MEMORY,
    }
}

pub(crate) fn key_of(key: u64) -> Result<Key, i32>
    ensures { result ≡ checked_key key }
{
    match Key::new(key) {
        Ok(key) => Ok(key),
        Err(_) => Err(E_KEY_RANGE),
    }
}

fn number_of(number: u64) -> Result<Num, i32>
    ensures { result ≡ checked_number number }
{
    match Num::new(number) {
        Ok(number) => Ok(number),
        Err(_) => Err(E_VALUE_RANGE),
    }
}

fn want_of(code: u32, number: u64) -> Result<Want, i32>
    ensures { result ≡ checked_want code number }
{
    match code {
        ANY => Ok(Want::Any),
        WANT_ABSENT => Ok(Want::Absent),
        WANT_PRESENT => Ok(Want::Present),
        EQUAL => match number_of(number) {
            Ok(number) => Ok(Want::Equal(number)),
            Err(code) => Err(code),
        },
        WANT_BELOW => match number_of(number) {
            Ok(limit) => Ok(Want::Below(limit)),
            Err(code) => Err(code),
        },
        _ => Err(E_WANT),
    }
}

fn change_of(code: u32, number: u64) -> Result<Change, i32>
    ensures { result ≡ checked_change code number }
{
    match code {
        PUT => match number_of(number) {
            Ok(number) => Ok(Change::Put(number)),
            Err(code) => Err(code),
        },
        REMOVE => Ok(Change::Remove),
        ADD => match number_of(number) {
            Ok(number) => Ok(Change::Add(number)),
            Err(code) => Err(code),
        },
        _ => Err(E_CHANGE),
    }
}

/// The key and the number, or the first of them that is none.
#[inline]
pub(crate) fn entry_of(key: u64, number: u64) -> Result<(Key, Num), i32>
    ensures { result ≡ checked_entry key number }
{
    Ok((key_of(key)?, number_of(number)?))
}

/// The key, the number and the limit, or the first of them that is none.
#[inline]
pub(crate) fn entry_below(key: u64, number: u64, limit: u64) -> Result<((Key, Num), Num), i32>
    ensures { result ≡ checked_below key number limit }
{
    Ok((entry_of(key, number)?, number_of(limit)?))
}

/// A write that C asks for.
#[derive(Drop)]
pub(crate) struct WriteAsked {
    pub(crate) key: Key,
    pub(crate) want: Want,
    pub(crate) change: Change,
}

/// The write of these codes and numbers, or the first of them that is none.
pub(crate) fn asked(
    key: u64,
    want: u32,
    old: u64,
    change: u32,
    number: u64,
) -> Result<WriteAsked, i32>
    ensures { map_ok write_of result ≡ checked_call key want old change number }
{
    Ok(WriteAsked {
        key: key_of(key)?,
        want: want_of(want, old)?,
        change: change_of(change, number)?,
    })
}

/// The reply, for C.
pub(crate) fn reply_in_c(reply: Reply) -> WriteReply
    ensures { result ≡ reply_in_c reply }
{
    let (before, had) = match reply.before {
        Some(number) => (number.get(), 1),
        None => (0, 0),
    };
    WriteReply {
        before,
        had,
        matched: u32::from(reply.matched),
    }
}
