//! Reading a key.
ghost use Rattle.std.specs.Prelude.{IsTrue, None, Some, [], false, if◌then◌else◌, length, ℕ, ◌*◌, ◌+◌, ◌<◌, ◌≡◌, ◌≤◌};
ghost use Rattle.nb_core.specs.Paths.{IsOnPathAt, IsPathIn};
ghost use Rattle.nb_core.specs.Plans.{size_of};
ghost use Rattle.nb_core.specs.declared.calls.Call.TheVariants as call;
ghost use Rattle.nb_core.specs.declared.states.KeyState.TheVariants as key_is;
ghost use Rattle.nb_table.specs.Chains.{Grown, IsOwn, seen_by};
ghost use Rattle.nb_map.specs.Logs.{as_replied};
ghost use Rattle.nb_map.specs.Calling.{HasMade};
ghost use Rattle.nb_map.specs.Progress.{IsAtHome, IsSeenAtHome, IsShortRead};
ghost use Rattle.nb_map.specs.Steps.{climb_steps, get_steps, pass_steps};
ghost use Rattle.nb_map.specs.declared.steps.get.Glance.TheVariants as glance_is;
ghost use Rattle.nb_map.specs.inside.Climbing.{IsAt, IsAtSlot, rung_for_read};
ghost use Rattle.nb_map.specs.inside.Reading.{IsGlance, glanced_by};

use crate::steps::climb::climb;
use crate::steps::pause::NoPause;
use crate::steps::rung::{Below, Rung, Visit};
use crate::steps::slot::call_at;
use nb_core::{Call, Key, KeyState, KeyWord, Num, Path, Slot};
use nb_table::{Chain, ChainSeat};

/// What a glance at a slot of a key's path shows of it.
#[derive(Clone, Copy)]
pub(crate) enum Glance {
    /// The map has this number at the key, or none.
    Shows(Option<Num>),
    /// Nothing: the search goes on in this table, from a distance on the key's path.
    From(usize),
}

/// What the map has at a key, as a `Get` of this seat. In the common case, where the key has its
/// home slot in the table that the seat remembers, these are two loads: of the slot's key and of
/// its value. A number that is being copied is copied first.
#[inline]
pub fn get_in(chain: &Chain, seat: &mut ChainSeat, key: Key) -> Option<Num>
    requires own { IsOwn chain.now seat.old }
    ensures made { HasMade chain.now.shape (call.Get key) seat.old seat.new
        (as_replied (call.Get key) result)
        (get_steps chain.now.shape) }
    ensures short { IsShortRead chain.now.shape key seat.old seat.new }
{
    let known = seat.known_top();
    match glance_in(chain, seat, known, key) {
        Glance::Shows(number) => number,
        Glance::From(from) => get_on(chain, seat, key, known, from),
    }
}

/// The same, where a glance at the table that the seat remembered showed nothing. The seat loads
/// the top word, and remembers it. If the top hasn't risen, glances along the key's path show in the
/// common case what the map has. If it has, the read begins anew there.
#[inline(never)]
fn get_on(chain: &Chain, seat: &mut ChainSeat, key: Key, known: u32, from: usize) -> Option<Num>
    requires at { IsAt chain.now (call.Get key) seat.old (rung_for_read known from) }
    requires away { IsAtHome chain.now.shape (seen_by chain.now.shape seat.old) known key → ⊥ }
    ensures made { HasMade chain.now.shape (call.Get key) seat.old seat.new
        (as_replied (call.Get key) result)
        (3 + 2 * size_of chain.now.shape known + climb_steps chain.now.shape) }
    ensures three_steps { IsSeenAtHome chain.now.shape seat.old seat.new key
        → seat.new.steps ≤ seat.old.steps + 3 }
{
    let top = chain.load_top(seat);
    if top != known {
        return get_risen(chain, seat, key, top);
    }
    match glance_along(chain, seat, known, key, from) {
        Glance::Shows(number) => number,
        Glance::From(from) => get_from(chain, seat, key, known, from),
    }
}

/// The same from table `top` on, which the seat has just seen to be the top one.
#[cold]
#[inline(never)]
fn get_risen(chain: &Chain, seat: &mut ChainSeat, key: Key, top: u32) -> Option<Num>
    requires at { IsAt chain.now (call.Get key) seat.old (rung_for_read top 0) }
    ensures made { HasMade chain.now.shape (call.Get key) seat.old seat.new
        (as_replied (call.Get key) result) (2 + climb_steps chain.now.shape) }
    ensures two_steps { IsAtHome chain.now.shape (seen_by chain.now.shape seat.new) top key
        → seat.new.steps ≤ seat.old.steps + 2 }
{
    match glance_in(chain, seat, top, key) {
        Glance::Shows(number) => number,
        Glance::From(from) => get_from(chain, seat, key, top, from),
    }
}

/// What the key's home slot in table `g` shows of it. Whether the map has the key is no branch: it
/// looks at both words of the slot, and goes another way only where the slot is another key's, or
/// is being copied.
#[inline]
#[tactic(auto, using(nb_core::proofs::Theorems::linked))]
fn glance_in(chain: &Chain, seat: &mut ChainSeat, g: u32, key: Key) -> Glance
    requires at { IsAt chain.now (call.Get key) seat.old (rung_for_read g 0) }
    ensures made { HasMade chain.now.shape (call.Get key) seat.old seat.new
        (glanced_by (call.Get key) result) 2 }
    ensures glance { IsGlance chain.now.shape (seen_by chain.now.shape seat.new) g key 0 result }
{
    let home = chain.shape().path(g, key).slot(0);
    let word = chain.load_key_word_at(seat, home, Some(Call::Get { key }));
    if !word.is_or_empty(key) {
        return away(word);
    }
    glance_at(chain, seat, key, home, 0, !word.is_empty())
}

/// From where the search goes on, where a home slot has this key word of another key, or is closed
/// to keys.
#[inline]
fn away(word: KeyWord) -> Glance
    ensures dead { word ≡ key_is.Dead → result ≡ glance_is.From 0 }
    ensures other { (other : ℕ) → word ≡ key_is.Claimed other → result ≡ glance_is.From 1 }
{
    match word.state() {
        KeyState::Dead => Glance::From(0),
        KeyState::Empty | KeyState::Claimed(_) => Glance::From(1),
    }
}

/// What the key's path in table `g` shows of it, slot by slot from a distance on. The path's last
/// slot is left to the general way: in the last table another key there is an answer.
#[inline(always)]
fn glance_along(chain: &Chain, seat: &mut ChainSeat, g: u32, key: Key, from: usize) -> Glance
    requires at { IsAt chain.now (call.Get key) seat.old (rung_for_read g from) }
    ensures made { HasMade chain.now.shape (call.Get key) seat.old seat.new
        (glanced_by (call.Get key) result) (2 * size_of chain.now.shape g) }
    ensures glance { IsGlance chain.now.shape (seen_by chain.now.shape seat.new) g key from result }
{
    let path = chain.shape().path(g, key);
    let last = path.slots() - 1;
    for distance in from..last {
        match glance_on(chain, seat, key, path, distance) {
            Glance::Shows(number) => return Glance::Shows(number),
            Glance::From(next) => {
                if next == distance {
                    return Glance::From(distance);
                }
            }
        }
    }
    Glance::From(last)
}

/// What the slot at a distance on the key's path shows of it, behind slots of other keys. Here it
/// is mostly another key's, and branches tell what it is.
#[inline(always)]
#[tactic(auto, using(nb_core::proofs::Theorems::linked))]
fn glance_on(chain: &Chain, seat: &mut ChainSeat, key: Key, path: Path, distance: usize) -> Glance
    requires path { IsPathIn chain.now.shape path.g key path }
    requires at { IsAt chain.now (call.Get key) seat.old (rung_for_read path.g distance) }
    requires near { distance + 1 < size_of chain.now.shape path.g }
    ensures made { HasMade chain.now.shape (call.Get key) seat.old seat.new
        (glanced_by (call.Get key) result) 2 }
    ensures glance { IsGlance chain.now.shape (seen_by chain.now.shape seat.new) path.g key distance
        result }
{
    let at = path.slot(distance);
    let word = chain.load_key_word_at(seat, at, Some(Call::Get { key }));
    if word.is(key) {
        return glance_at(chain, seat, key, at, distance, true);
    }
    match word.state() {
        KeyState::Claimed(_) => Glance::From(distance + 1),
        KeyState::Empty => Glance::Shows(None),
        KeyState::Dead => Glance::From(distance),
    }
}

/// The read of a key, where a load is to decide it.
#[inline]
fn read_if(deciding: bool, key: Key) -> Option<Call>
    ensures { result ≡ (if deciding then Some (call.Get key) else None) }
{
    if deciding {
        Some(Call::Get { key })
    } else {
        None
    }
}

/// What the value in a slot shows of the key, on whose path it is at a distance: of a slot that was
/// seen empty nothing, and the map doesn't have the key.
#[inline]
fn glance_at(
    chain: &Chain,
    seat: &mut ChainSeat,
    key: Key,
    slot: Slot,
    distance: usize,
    is_own: bool,
) -> Glance
    requires at { IsAt chain.now (call.Get key) seat.old (rung_for_read slot.g distance) }
    requires slot { IsOnPathAt chain.now.shape slot.g key distance slot }
    requires claimed { IsTrue is_own → (seen_by chain.now.shape seat.old).key slot.g slot.i
        ≡ key_is.Claimed key }
    ensures made { HasMade chain.now.shape (call.Get key) seat.old seat.new
        (if is_own then glanced_by (call.Get key) result else []) 1 }
    ensures glance { IsTrue is_own → IsGlance chain.now.shape (seen_by chain.now.shape seat.new)
        slot.g key distance result }
    ensures empty { is_own ≡ false → result ≡ glance_is.Shows None }
{
    let word = chain.load_value_word_at(seat, slot, read_if(is_own, key));
    let Some(number) = word.shows() else {
        return if is_own {
            Glance::From(distance)
        } else {
            Glance::Shows(None)
        };
    };
    Glance::Shows(shown_if(is_own, number))
}

/// What a slot's value shows, where the slot is the key's; else that there is no number.
#[inline]
fn shown_if(is_own: bool, number: Option<Num>) -> Option<Num>
    ensures { result ≡ (if is_own then number else None) }
{
    if is_own { number } else { None }
}

/// What the map has at a key, from a distance of its path in table `g` on: the general way of a
/// read. It need know nothing of the table below.
#[inline(never)]
fn get_from(chain: &Chain, seat: &mut ChainSeat, key: Key, g: u32, from: usize) -> Option<Num>
    requires at { IsAt chain.now (call.Get key) seat.old (rung_for_read g from) }
    ensures made { HasMade chain.now.shape (call.Get key) seat.old seat.new
        (as_replied (call.Get key) result) (climb_steps chain.now.shape) }
{
    let call = Call::Get { key };
    let rung = Rung {
        g,
        from,
        below: Below::Passed,
    };
    let mut tries = 1;
    match climb(chain, seat, &call, rung, &mut tries, &mut NoPause) {
        Ok(reply) => reply.before,
        Err(_) => unreachable!(),
    }
}

/// What the map has at a key, from its slot on: in the common case by one load.
#[inline]
pub(crate) fn get_at(chain: &Chain, seat: &mut ChainSeat, key: Key, slot: Slot) -> Option<Num>
    requires at { IsAtSlot chain.now (call.Get key) seat.old slot }
    ensures made { HasMade chain.now.shape (call.Get key) seat.old seat.new
        (as_replied (call.Get key) result)
        (2 + pass_steps chain.now.shape slot.g + climb_steps chain.now.shape) }
{
    let call = Call::Get { key };
    let mut tries = 1;
    match call_at(chain, seat, &call, slot, &mut tries, &mut NoPause) {
        Visit::Told(reply) => reply.before,
        Visit::Refused(_) => unreachable!(),
        Visit::Above(_) => get_from(chain, seat, key, slot.g + 1, 0),
    }
}

/// Loads the key words of these keys' home slots in the table that the seat remembers, and ignores
/// what they hold. Afterwards these slots are near, so that the keys' reads needn't wait for the
/// memory. These loads are no reads of a key: they leave no event.
#[inline]
pub(crate) fn look_ahead(chain: &Chain, seat: &mut ChainSeat, keys: &[Key])
    requires own { IsOwn chain.now seat.old }
    ensures { Grown chain.now.shape seat.old seat.new [] (length keys.now) }
{
    let known = seat.known_top();
    for key in keys {
        let home = chain.shape().path(known, *key).slot(0);
        chain.load_key_word_at(seat, home, None);
    }
}
