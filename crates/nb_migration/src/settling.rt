//! The steps by which a key leaves a core for one behind it. Anybody makes them, however late: a
//! step that comes too late changes nothing, and its answer says what the key has.
//!
//! A number is frozen, copied to the core behind, and then marked, which closes the key; a key
//! without a number is closed at once.
ghost use Rattle.std.specs.Prelude.{Some, max, ℕ, ◌≡◌};
ghost use Rattle.nb_map.specs.Handles.{KeepsRest};
ghost use Rattle.nb_map.specs.NamedCalls.{exchange_of};
ghost use Rattle.nb_migration.specs.Numbers.{seen_of};
ghost use Rattle.nb_migration.specs.Settling.{HasStepped, close_of, freeze_of, left_by, mark_of};

use crate::numbers::{CLOSED, Seen, UserNumber, in_range, seen_of};
use crate::writes::{CoreFault, fault_of};
use nb_core::{Key, Num};
use nb_map::Handle;

/// Freezes the number that a look has shown, and answers what the key has then.
pub fn freeze(
    core: &mut Handle,
    key: Key,
    number: UserNumber,
    tries: u32,
) -> Result<Seen, CoreFault>
    ensures stepped { HasStepped core.old.map (freeze_of key number) core.old.seat core.new.seat
        (max tries 1) result }
    ensures rest { KeepsRest core.old core.new }
{
    exchange(core, key, number.plain(), number.frozen(), tries)
}

/// Closes a key whose number is frozen, and has come to the core behind, or is known to have been
/// there. It answers what the key has then.
pub fn mark(core: &mut Handle, key: Key, number: UserNumber, tries: u32) -> Result<Seen, CoreFault>
    ensures stepped { HasStepped core.old.map (mark_of key number) core.old.seat core.new.seat
        (max tries 1) result }
    ensures rest { KeepsRest core.old core.new }
{
    exchange(core, key, number.frozen(), in_range(CLOSED), tries)
}

/// Closes a key that has no number, and answers what it has then. A full core without a slot for
/// the key refuses it, and then the key needs no mark.
pub fn close_if_absent(core: &mut Handle, key: Key, tries: u32) -> Result<Seen, CoreFault>
    ensures stepped { HasStepped core.old.map (close_of key) core.old.seat core.new.seat
        (max tries 1) result }
    ensures rest { KeepsRest core.old core.new }
{
    match core.try_put_if_absent(key, in_range(CLOSED), tries) {
        Ok(found) => Ok(seen_closing(found)),
        Err(refusal) => Err(fault_of(refusal)),
    }
}

/// What a key has after a step that found this there, and closed it where that was none.
fn seen_closing(found: Option<Num>) -> Seen
    ensures { (key : ℕ) → result ≡ seen_of (left_by (close_of key) found) }
{
    match found {
        Some(there) => seen_of(Some(there)),
        None => Seen::Closed,
    }
}

/// Exchanges a number of the core for another one, and answers what the key has then.
fn exchange(core: &mut Handle, key: Key, old: Num, new: Num, tries: u32) -> Result<Seen, CoreFault>
    ensures stepped { HasStepped core.old.map (exchange_of key (Some old) (Some new))
        core.old.seat core.new.seat (max tries 1) result }
    ensures rest { KeepsRest core.old core.new }
{
    match core.compare_exchange(key, Some(old), Some(new), tries) {
        Ok(reply) if reply.matched => Ok(seen_of(Some(new))),
        Ok(reply) => Ok(seen_of(reply.before)),
        Err(refusal) => Err(fault_of(refusal)),
    }
}
