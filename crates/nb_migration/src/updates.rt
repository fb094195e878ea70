//! Writes in a core that isn't being left that read the key first: where it has no number or one of
//! the user's, they exchange that for what they make of it.
ghost use Rattle.std.specs.Prelude.{Ok, max, true, ℕ, ◌≡◌};
ghost use Rattle.nb_core.specs.declared.calls.Call.TheVariants as call;
ghost use Rattle.nb_map.specs.Compound.{greater_of, less_of};
ghost use Rattle.nb_map.specs.Handles.{KeepsRest};
ghost use Rattle.nb_migration.specs.Numbers.{is_open};
ghost use Rattle.nb_migration.specs.Writes.{HasFollowedUp, HasReadThenWritten, answer_to, is_to_do, replaced_by, unless_left};

use crate::numbers::{UserNumber, is_open};
use crate::writes::{CoreFault, Written, exchange};
use nb_core::{Key, Num};
use nb_map::Handle;

/// Puts a number in place of another.
pub fn replace(
    core: &mut Handle,
    key: Key,
    number: UserNumber,
    tries: u32,
) -> Result<Written, CoreFault>
    ensures wrote { HasReadThenWritten core.old.map (replaced_by number) key core.old.seat core.new.seat
        (max tries 1) result }
    ensures rest { KeepsRest core.old core.new }
{
    let read = core.get(key);
    let new = replaced(&read, number);
    follow_up(core, key, &read, &new, tries)
}

/// Raises the number at a key to this one where it is less; an absent key gets this one.
pub fn fetch_max(
    core: &mut Handle,
    key: Key,
    number: UserNumber,
    tries: u32,
) -> Result<Written, CoreFault>
    ensures wrote { HasReadThenWritten core.old.map (greater_of number) key core.old.seat core.new.seat
        (max tries 1) result }
    ensures rest { KeepsRest core.old core.new }
{
    let read = core.get(key);
    let new = greater(&read, number);
    follow_up(core, key, &read, &new, tries)
}

/// Lowers the number at a key to this one where it is greater; an absent key gets this one.
pub fn fetch_min(
    core: &mut Handle,
    key: Key,
    number: UserNumber,
    tries: u32,
) -> Result<Written, CoreFault>
    ensures wrote { HasReadThenWritten core.old.map (less_of number) key core.old.seat core.new.seat
        (max tries 1) result }
    ensures rest { KeepsRest core.old core.new }
{
    let read = core.get(key);
    let new = less(&read, number);
    follow_up(core, key, &read, &new, tries)
}

/// Goes on with a write that has read this number, or none, and is to put this there.
fn follow_up(
    core: &mut Handle,
    key: Key,
    read: &Option<Num>,
    new: &Option<Num>,
    tries: u32,
) -> Result<Written, CoreFault>
    requires user { is_open read.now ≡ true → is_open new.now ≡ true }
    ensures wrote { HasFollowedUp (is_to_do read.now new.now) core.old.map key read.now new.now
        core.old.seat core.new.seat (max tries 1) result }
    ensures rest { KeepsRest core.old core.new }
{
    if is_to_do(read, new) {
        unless_left(exchange(core, key, read, new, tries))
    } else {
        Ok(left(read))
    }
}

/// Whether a write that has read this is to do something.
fn is_to_do(read: &Option<Num>, new: &Option<Num>) -> bool
    ensures { result ≡ is_to_do read.now new.now }
{
    is_open(read) && *new != *read
}

/// The answer of a write that has read this, and leaves it.
fn left(read: &Option<Num>) -> Written
    ensures { (key : ℕ) → Ok result ≡ answer_to (call.Get key) read.now }
{
    let Some(there) = read else {
        return Written::Absent;
    };
    match UserNumber::new(there.get()) {
        Ok(number) => Written::Kept(number),
        Err(_) => Written::Moved,
    }
}

/// The answer of a write that read first, by that of its exchange.
fn unless_left(answer: Result<Written, CoreFault>) -> Result<Written, CoreFault>
    ensures { result ≡ unless_left answer }
{
    match answer {
        Ok(Written::Absent | Written::Kept(_)) => Err(CoreFault::Contended),
        answer => answer,
    }
}

/// This number where there was one, else none.
fn replaced(read: &Option<Num>, number: UserNumber) -> Option<Num>
    ensures new { result ≡ replaced_by number read.now }
    ensures user { is_open result ≡ true }
{
    match read {
        Some(_) => Some(number.plain()),
        None => None,
    }
}

/// The greater of what was there and a number; the number, where nothing was there.
fn greater(read: &Option<Num>, number: UserNumber) -> Option<Num>
    ensures new { result ≡ greater_of number read.now }
    ensures user { is_open read.now ≡ true → is_open result ≡ true }
{
    match read {
        Some(there) if there.get() > number.get() => Some(*there),
        _ => Some(number.plain()),
    }
}

/// The less of the two.
fn less(read: &Option<Num>, number: UserNumber) -> Option<Num>
    ensures new { result ≡ less_of number read.now }
    ensures user { is_open read.now ≡ true → is_open result ≡ true }
{
    match read {
        Some(there) if there.get() < number.get() => Some(*there),
        _ => Some(number.plain()),
    }
}
