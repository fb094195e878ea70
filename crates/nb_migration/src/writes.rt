//! Writes in a core that isn't being left, in one call each: they act only where there is no number
//! or one of the user's. So a key that is frozen or closed sends them on.
ghost use Rattle.std.specs.Prelude.{max, true, ℕ, ◌-◌, ◌≡◌};
ghost use Rattle.nb_core.specs.declared.calls.Call.TheVariants as call;
ghost use Rattle.nb_map.specs.Handles.{KeepsRest};
ghost use Rattle.nb_map.specs.NamedCalls.{add_below_of, change_to, exchange_of, put_below_of, put_if_absent_of, remove_below_of, remove_if_of, replace_if_of, want_of};
ghost use Rattle.nb_map.specs.Progress.{Tries};
ghost use Rattle.nb_map.specs.Promises.{HasWritten};
ghost use Rattle.nb_migration.specs.Numbers.{is_open};
ghost use Rattle.nb_migration.specs.Writes.{HasWrittenOpen, answer_at, answer_at_none, answer_or_fault, answer_to, fault_of, outcome_of};

use crate::numbers::{USER_END, UserNumber, in_range};
use nb_core::{Change, Key, Num, Want};
use nb_map::{Handle, PutFault};
use thiserror::Error;

/// What has become of a write in a core.
#[derive(Clone, Copy, Debug, PartialEq, Eq)]
pub enum Written {
    /// The key had no number, and the write has put one.
    Came,
    /// The key had this number, and the write has changed it, or taken it out.
    Changed(UserNumber),
    /// The key has this number, which is left.
    Kept(UserNumber),
    /// The key has no number, and none was put. So the caller looks at the core's link.
    Absent,
    /// The key's number is frozen, or the key is closed: the write goes on behind the core.
    Moved,
}

/// Why a write was refused. The core is unchanged by it.
#[derive(Clone, Copy, Debug, PartialEq, Eq, Error)]
pub enum CoreFault {
    /// Other keys have all slots.
    #[error("the core is full")]
    Full,
    /// Other writes of the key came first.
    #[error("other writes of the key came first")]
    Contended,
    /// The sum of an add is none of the user's numbers.
    #[error("sum too large")]
    SumRange,
}

/// A refusal of the map's, by its name here. A write in a core can't be past the map's range.
pub(crate) fn fault_of(refusal: PutFault) -> CoreFault
    ensures { result ≡ fault_of refusal }
{
    match refusal {
        PutFault::Full => CoreFault::Full,
        PutFault::Contended => CoreFault::Contended,
        PutFault::ValueRange => CoreFault::SumRange,
    }
}

/// The answer of a write that found no number.
#[inline(always)]
fn answer_at_none(want: &Want, change: &Change) -> Written
    ensures { (key : ℕ) → result ≡ answer_at_none (call.Write key want.now change.now) }
{
    match change {
        Change::Put(_) | Change::Add(_) if want.holds_of(None) => Written::Came,
        _ => Written::Absent,
    }
}

/// The answer of a write that found this number.
#[inline(always)]
fn answer_at(want: &Want, change: &Change, there: UserNumber) -> Result<Written, CoreFault>
    ensures { (key : ℕ) → result ≡ answer_at (call.Write key want.now change.now) there }
{
    if want.holds_of(Some(there.plain())) {
        return Ok(Written::Changed(there));
    }
    match change {
        Change::Add(_) => Err(CoreFault::SumRange),
        Change::Put(_) | Change::Remove => Ok(Written::Kept(there)),
    }
}

/// The answer of a write that found this number of a core, or none.
#[inline(always)]
fn answer_to(want: &Want, change: &Change, found: Option<Num>) -> Result<Written, CoreFault>
    ensures { (key : ℕ) → result ≡ answer_to (call.Write key want.now change.now) found }
{
    let Some(there) = found else {
        return Ok(answer_at_none(want, change));
    };
    match UserNumber::new(there.get()) {
        Ok(there) => answer_at(want, change, there),
        Err(_) => Ok(Written::Moved),
    }
}

/// The answer of a write that has found this, or is refused.
#[inline(always)]
fn answer_or_fault(
    want: &Want,
    change: &Change,
    found: Result<Option<Num>, PutFault>,
) -> Result<Written, CoreFault>
    ensures { (key : ℕ) → result ≡ answer_or_fault (call.Write key want.now change.now) found }
{
    match found {
        Ok(found) => answer_to(want, change, found),
        Err(refusal) => Err(fault_of(refusal)),
    }
}

/// The number that all numbers of the user are below.
#[inline(always)]
fn user_end() -> Num
    ensures { result ≡ USER_END }
{
    in_range(USER_END)
}

/// Puts a number at a key.
#[inline]
pub fn put(
    core: &mut Handle,
    key: Key,
    number: UserNumber,
    tries: u32,
) -> Result<Written, CoreFault>
    ensures wrote { HasWrittenOpen core.old.map (put_below_of key number USER_END)
        core.old.seat core.new.seat (max tries 1) result }
    ensures rest { KeepsRest core.old core.new }
{
    let number = number.plain();
    let found = core.try_put_below(key, number, user_end(), tries);
    answer_or_fault(&Want::Below(user_end()), &Change::Put(number), found)
}

/// Puts a number at a key that has none.
#[inline]
pub fn put_if_absent(
    core: &mut Handle,
    key: Key,
    number: UserNumber,
    tries: u32,
) -> Result<Written, CoreFault>
    ensures wrote { HasWrittenOpen core.old.map (put_if_absent_of key number)
        core.old.seat core.new.seat (max tries 1) result }
    ensures rest { KeepsRest core.old core.new }
{
    let number = number.plain();
    let found = core.try_put_if_absent(key, number, tries);
    answer_or_fault(&Want::Absent, &Change::Put(number), found)
}

/// Puts a number at a key that has none. The key's number is then this one, where it came, or the
/// one that is kept. It is one `put_if_absent`.
#[inline]
pub fn get_or_insert(
    core: &mut Handle,
    key: Key,
    number: UserNumber,
    tries: u32,
) -> Result<Written, CoreFault>
    ensures wrote { HasWrittenOpen core.old.map (put_if_absent_of key number)
        core.old.seat core.new.seat (max tries 1) result }
    ensures rest { KeepsRest core.old core.new }
{
    put_if_absent(core, key, number, tries)
}

/// Raises the number at a key, an absent one counting as 0. A sum that is none of the user's
/// numbers is refused.
#[inline]
pub fn add(
    core: &mut Handle,
    key: Key,
    number: UserNumber,
    tries: u32,
) -> Result<Written, CoreFault>
    ensures wrote { HasWrittenOpen core.old.map (add_below_of key number (USER_END - number))
        core.old.seat core.new.seat (max tries 1) result }
    ensures rest { KeepsRest core.old core.new }
{
    let limit = in_range(USER_END - number.get());
    let number = number.plain();
    let found = core.try_add_below(key, number, limit, tries);
    answer_or_fault(&Want::Below(limit), &Change::Add(number), found)
}

/// Takes out a key.
#[inline]
pub fn remove(core: &mut Handle, key: Key, tries: u32) -> Result<Written, CoreFault>
    ensures wrote { HasWrittenOpen core.old.map (remove_below_of key USER_END)
        core.old.seat core.new.seat (max tries 1) result }
    ensures rest { KeepsRest core.old core.new }
{
    let found = core.try_remove_below(key, user_end(), tries);
    answer_or_fault(&Want::Below(user_end()), &Change::Remove, found)
}

/// Puts a number in place of this one.
pub fn replace_if(
    core: &mut Handle,
    key: Key,
    old: UserNumber,
    new: UserNumber,
    tries: u32,
) -> Result<Written, CoreFault>
    ensures wrote { HasWrittenOpen core.old.map (replace_if_of key old new)
        core.old.seat core.new.seat (max tries 1) result }
    ensures rest { KeepsRest core.old core.new }
{
    compare_exchange(core, key, Some(old), Some(new), tries)
}

/// Takes out a key that has this number.
pub fn remove_if(
    core: &mut Handle,
    key: Key,
    number: UserNumber,
    tries: u32,
) -> Result<Written, CoreFault>
    ensures wrote { HasWrittenOpen core.old.map (remove_if_of key number)
        core.old.seat core.new.seat (max tries 1) result }
    ensures rest { KeepsRest core.old core.new }
{
    compare_exchange(core, key, Some(number), None, tries)
}

/// Sets a key to `new` where it is at `old`, none being absent.
pub fn compare_exchange(
    core: &mut Handle,
    key: Key,
    old: Option<UserNumber>,
    new: Option<UserNumber>,
    tries: u32,
) -> Result<Written, CoreFault>
    ensures wrote { HasWrittenOpen core.old.map (exchange_of key old new)
        core.old.seat core.new.seat (max tries 1) result }
    ensures rest { KeepsRest core.old core.new }
{
    let (old, new) = (plain(old), plain(new));
    exchange(core, key, &old, &new, tries)
}

/// A number of the user as it stands in a core, or none.
fn plain(number: Option<UserNumber>) -> Option<Num>
    ensures number { result ≡ number }
    ensures user { is_open result ≡ true }
{
    match number {
        Some(number) => Some(number.plain()),
        None => None,
    }
}

/// Sets a key to `new` where it is at `old`, both numbers of the user as they stand in a core.
pub(crate) fn exchange(
    core: &mut Handle,
    key: Key,
    old: &Option<Num>,
    new: &Option<Num>,
    tries: u32,
) -> Result<Written, CoreFault>
    requires old_user { is_open old.now ≡ true }
    requires new_user { is_open new.now ≡ true }
    ensures wrote { HasWrittenOpen core.old.map (exchange_of key old.now new.now)
        core.old.seat core.new.seat (max tries 1) result }
    ensures rest { KeepsRest core.old core.new }
{
    let found = find(core, key, old, new, tries);
    answer_or_fault(&want_of(old), &change_to(new), found)
}

/// Makes an exchange of the map, and tells what it found.
#[inline(always)]
fn find(
    core: &mut Handle,
    key: Key,
    old: &Option<Num>,
    new: &Option<Num>,
    tries: u32,
) -> Result<Option<Num>, PutFault>
    ensures wrote { let made = exchange_of key old.now new.now in
        HasWritten core.old.map made core.old.seat core.new.seat (Tries (max tries 1))
        (outcome_of made result) }
    ensures rest { KeepsRest core.old core.new }
{
    match core.compare_exchange(key, *old, *new, tries) {
        Ok(reply) => Ok(reply.before),
        Err(refusal) => Err(refusal),
    }
}

/// The condition that a key is at this number, or absent.
#[inline(always)]
fn want_of(number: &Option<Num>) -> Want
    ensures { result ≡ want_of number.now }
{
    match number {
        Some(number) => Want::Equal(*number),
        None => Want::Absent,
    }
}

/// The change that sets a key to this number, or takes it out.
#[inline(always)]
fn change_to(number: &Option<Num>) -> Change
    ensures { result ≡ change_to number.now }
{
    match number {
        Some(number) => Change::Put(*number),
        None => Change::Remove,
    }
}
