//! A put of a number at a key that never had one, in a map of one table.
ghost use Rattle.std.specs.Prelude.{IfOk, IsTrue, [], ℕ, ◌+◌, ◌<◌, ◌≡◌};
ghost use Rattle.nb_core.specs.Paths.{IsOnPathAt};
ghost use Rattle.nb_core.specs.Plans.{generations_of};
ghost use Rattle.nb_core.specs.States.{shown_by_value};
ghost use Rattle.nb_core.specs.declared.states.KeyState.TheVariants as key_is;
ghost use Rattle.nb_table.specs.Chains.{IsOwn, seen_by};
ghost use Rattle.nb_map.specs.Calling.{HasMade};
ghost use Rattle.nb_map.specs.NamedCalls.{put_if_absent_of};
ghost use Rattle.nb_map.specs.Steps.{search_steps};
ghost use Rattle.nb_map.specs.inside.Climbing.{IsAtSlot};
ghost use Rattle.nb_map.specs.inside.Firsts.{IsFirst, first_found, first_made};

use crate::steps::claim::find;
use crate::steps::rung::{Below, Rung, Visit};
use nb_core::{Call, Change, Key, KeyState, Num, Slot, ValueState, ValueWord, Want};
use nb_table::{Chain, ChainSeat};

/// What a put comes to that is made only at a key that never had a number.
#[derive(Clone, Copy)]
pub(crate) enum First {
    /// It is made.
    Put,
    /// It found this number at the key, and left it there.
    Found(Num),
    /// The key has had a number.
    Had,
    /// Other keys have all slots.
    Full,
}

/// Puts a number at a key that never had one: its slot's value is null then. A value that isn't
/// null never is again, so a number that was removed doesn't come back. It looks at the key's home
/// slot first, and searches where that is another key's.
pub(crate) fn put_first_in(chain: &Chain, seat: &mut ChainSeat, key: Key, number: Num) -> First
    requires own { IsOwn chain.now seat.old }
    requires one { generations_of chain.now.shape ≡ 1 }
    ensures made { HasMade chain.now.shape (put_if_absent_of key number) seat.old seat.new
        (first_made key number result) (4 + search_steps chain.now.shape 0) }
    ensures first { IsFirst chain.now.shape key number seat.old seat.new result }
    ensures looked { seat.old.steps < seat.new.steps }
{
    let home = chain.shape().path(0, key).slot(0);
    if takes_home(chain, seat, key, home) {
        return first_at(chain, seat, key, number, home);
    }
    let call = Call::Write {
        key,
        want: Want::Absent,
        change: Change::Put(number),
    };
    let first = Rung {
        g: 0,
        from: 0,
        below: Below::Complete,
    };
    match find(chain, seat, &call, first) {
        Ok(i) => {
            let value = chain.shape().value_place(0, i);
            first_at(chain, seat, key, number, Slot { g: 0, i, value })
        }
        Err(Visit::Refused(_)) => First::Full,
        // it fills an absent key, and there is no table above
        Err(Visit::Told(_)) => unreachable!(),
        Err(Visit::Above(_)) => unreachable!(),
    }
}

/// Whether a key has its home slot, which is claimed for it where it is empty.
#[inline(always)]
fn takes_home(chain: &Chain, seat: &mut ChainSeat, key: Key, home: Slot) -> bool
    requires own { IsOwn chain.now seat.old }
    requires one { generations_of chain.now.shape ≡ 1 }
    requires home { IsOnPathAt chain.now.shape 0 key 0 home }
    ensures made { (number : ℕ) → HasMade chain.now.shape (put_if_absent_of key number) seat.old
        seat.new [] 2 }
    ensures claimed { IsTrue result → (seen_by chain.now.shape seat.new).key home.g home.i
        ≡ key_is.Claimed key }
    ensures looked { seat.old.steps < seat.new.steps }
{
    let word = chain.load_key_word_at(seat, home, None);
    if !word.is_empty() {
        return word.is(key);
    }
    match chain.claim_key_at(seat, home, key) {
        KeyState::Empty => true,
        KeyState::Claimed(other) => other == key,
        KeyState::Dead => false,
    }
}

/// The same at the key's slot, by a load of its value and, if that is null, an exchange.
#[inline(always)]
fn first_at(chain: &Chain, seat: &mut ChainSeat, key: Key, number: Num, slot: Slot) -> First
    requires at { IsAtSlot chain.now (put_if_absent_of key number) seat.old slot }
    requires one { generations_of chain.now.shape ≡ 1 }
    ensures made { HasMade chain.now.shape (put_if_absent_of key number) seat.old seat.new
        (first_made key number result) 2 }
    ensures first { IsFirst chain.now.shape key number seat.old seat.new result }
{
    let from = chain.load_value_word_at(seat, slot, None);
    let ValueState::Null = from.state() else {
        return First::Had;
    };
    let call = Call::Write {
        key,
        want: Want::Absent,
        change: Change::Put(number),
    };
    match chain.win_value_at(seat, slot, call, from, ValueState::Live(number)) {
        Ok(()) => First::Put,
        Err(found) => left_there(found),
    }
}

/// The same where it has lost its exchange, and found this value.
#[inline]
fn left_there(found: ValueWord) -> First
    ensures { result ≡ first_found (shown_by_value found) }
{
    match found.shows() {
        Some(Some(number)) => First::Found(number),
        Some(None) | None => First::Had,
    }
}
