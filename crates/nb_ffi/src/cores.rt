//! Cores: what calls of C take for their numbers, and how they tell what they answer.
ghost use Rattle.std.specs.Prelude.{◌≡◌};
ghost use Rattle.nb_ffi.specs.Cores.{
  IsTelling,
  checked_copy,
  checked_expected,
  checked_left,
  checked_sides,
  checked_user,
  checked_user_entry,
  checked_user_pair,
  copied_code,
  copied_on_code,
  core_fault_code,
  is_core,
  marked_code,
  seen_in_c,
  seen_told,
  written_in_c,
  written_told,
};
ghost use Rattle.nb_ffi.specs.Handles.{IsOpenHandle};

use crate::codes::{
    CORE_ABSENT, CORE_CAME, CORE_CHANGED, CORE_CLOSED, CORE_FROZEN, CORE_FULL, CORE_HAD_NUMBER,
    CORE_KEPT, CORE_MOVED, CORE_OPEN, CORE_SETTLED, E_CHANGE, E_CONTENDED, E_FULL, E_SUM_RANGE,
    E_TABLES, E_VALUE_RANGE, E_WANT, EQUAL, PUT, REMOVE, WANT_ABSENT, key_of,
};
use crate::seat_handle::SeatHandle;
use nb_core::Key;
use nb_migration::copying::Copied;
use nb_migration::{CoreFault, Seen, UserNumber, Written};

pub(crate) fn user_of(number: u64) -> Result<UserNumber, i32>
    ensures { result ≡ checked_user number }
{
    match UserNumber::new(number) {
        Ok(number) => Ok(number),
        Err(_) => Err(E_VALUE_RANGE),
    }
}

/// The key and the number of the user, or the first of them that is none.
pub(crate) fn user_entry_of(key: u64, number: u64) -> Result<(Key, UserNumber), i32>
    ensures { result ≡ checked_user_entry key number }
{
    Ok((key_of(key)?, user_of(number)?))
}

/// The key and the two numbers of the user, or the first of them that is none.
pub(crate) fn user_pair_of(
    key: u64,
    old: u64,
    new: u64,
) -> Result<((Key, UserNumber), UserNumber), i32>
    ensures { result ≡ checked_user_pair key old new }
{
    Ok((user_entry_of(key, old)?, user_of(new)?))
}

/// What an exchange expects.
fn expected_of(code: u32, number: u64) -> Result<Option<UserNumber>, i32>
    ensures { result ≡ checked_expected code number }
{
    match code {
        WANT_ABSENT => Ok(None),
        EQUAL => match user_of(number) {
            Ok(number) => Ok(Some(number)),
            Err(code) => Err(code),
        },
        _ => Err(E_WANT),
    }
}

/// What an exchange leaves.
fn left_of(code: u32, number: u64) -> Result<Option<UserNumber>, i32>
    ensures { result ≡ checked_left code number }
{
    match code {
        PUT => match user_of(number) {
            Ok(number) => Ok(Some(number)),
            Err(code) => Err(code),
        },
        REMOVE => Ok(None),
        _ => Err(E_CHANGE),
    }
}

/// The key, what an exchange expects, and what it leaves, or the first of them that is none.
pub(crate) fn sides_of(
    key: u64,
    want: u32,
    old: u64,
    change: u32,
    number: u64,
) -> Result<((Key, Option<UserNumber>), Option<UserNumber>), i32>
    ensures { result ≡ checked_sides key want old change number }
{
    let key = key_of(key)?;
    let expected = expected_of(want, old)?;
    Ok(((key, expected), left_of(change, number)?))
}

/// Whether the handle's map has one table.
pub(crate) fn is_core(seat: &mut SeatHandle) -> bool
    requires open { IsOpenHandle seat.old.handle }
    ensures one { result ≡ is_core seat.old.handle }
    ensures same { seat.new.handle ≡ seat.old.handle }
{
    seat.lend().shape().generations() == 1
}

/// The key and the number of the user for a copy, or the first of them that is none, or that the map
/// that it goes to isn't of one table.
pub(crate) fn copy_of(
    target: &mut SeatHandle,
    key: u64,
    number: u64,
) -> Result<(Key, UserNumber), i32>
    requires open { IsOpenHandle target.old.handle }
    ensures checked { result ≡ checked_copy target.old.handle key number }
    ensures same { target.new.handle ≡ target.old.handle }
{
    let entry = user_entry_of(key, number)?;
    if is_core(target) {
        Ok(entry)
    } else {
        Err(E_TABLES)
    }
}

fn core_fault_code(fault: CoreFault) -> i32
    ensures { result ≡ core_fault_code fault }
{
    match fault {
        CoreFault::Full => E_FULL,
        CoreFault::Contended => E_CONTENDED,
        CoreFault::SumRange => E_SUM_RANGE,
    }
}

/// The code and the number that tell what a key has.
#[inline]
fn seen_in_c(seen: Seen) -> (i32, u64)
    ensures { result ≡ seen_in_c seen }
{
    match seen {
        Seen::Open(there) => (CORE_OPEN, there.get()),
        Seen::Frozen(there) => (CORE_FROZEN, there.get()),
        Seen::Closed => (CORE_CLOSED, 0),
        Seen::Absent => (CORE_ABSENT, 0),
    }
}

/// The same for what has become of a write.
#[inline]
fn written_in_c(written: Written) -> (i32, u64)
    ensures { result ≡ written_in_c written }
{
    match written {
        Written::Came => (CORE_CAME, 0),
        Written::Changed(there) => (CORE_CHANGED, there.get()),
        Written::Kept(there) => (CORE_KEPT, there.get()),
        Written::Absent => (CORE_ABSENT, 0),
        Written::Moved => (CORE_MOVED, 0),
    }
}

/// What tells the answer of a step, or the code of a refusal.
#[inline]
pub(crate) fn seen_told(answer: Result<Seen, CoreFault>) -> Result<(i32, u64), i32>
    ensures { result ≡ seen_told answer }
{
    match answer {
        Ok(seen) => Ok(seen_in_c(seen)),
        Err(fault) => Err(core_fault_code(fault)),
    }
}

/// The same for the answer of a write.
#[inline]
pub(crate) fn written_told(answer: Result<Written, CoreFault>) -> Result<(i32, u64), i32>
    ensures { result ≡ written_told answer }
{
    match answer {
        Ok(written) => Ok(written_in_c(written)),
        Err(fault) => Err(core_fault_code(fault)),
    }
}

/// Writes the number, and answers the code; or that of a refusal.
#[inline]
pub(crate) fn tell(told: Result<(i32, u64), i32>, number: &mut u64) -> i32
    ensures { IsTelling told result number.old number.new }
{
    match told {
        Ok((code, there)) => {
            *number = there;
            code
        }
        Err(code) => code,
    }
}

pub(crate) fn copied_code(copied: Copied) -> i32
    ensures { result ≡ copied_code copied }
{
    match copied {
        Copied::Came => CORE_CAME,
        Copied::HadNumber => CORE_HAD_NUMBER,
        Copied::Closed => CORE_CLOSED,
        Copied::Full => CORE_FULL,
    }
}

/// The code of a copy that goes on.
pub(crate) fn copied_on_code(copied: Option<Copied>) -> i32
    ensures { result ≡ copied_on_code copied }
{
    match copied {
        Some(copied) => copied_code(copied),
        None => CORE_SETTLED,
    }
}

/// The code of a copy and its mark.
pub(crate) fn marked_code(answer: Result<Copied, CoreFault>) -> i32
    ensures { result ≡ marked_code answer }
{
    match answer {
        Ok(copied) => copied_code(copied),
        Err(fault) => core_fault_code(fault),
    }
}
