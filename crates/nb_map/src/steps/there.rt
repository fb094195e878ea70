//! Calls at a slot that is known to be its key's, in a map of one table.
ghost use Rattle.std.specs.Prelude.{None, Some, ◌≡◌, ◌≤◌};
ghost use Rattle.nb_core.specs.History.{key_of_call};
ghost use Rattle.nb_core.specs.Plans.{generations_of};
ghost use Rattle.nb_core.specs.declared.calls.Call.TheVariants as call;
ghost use Rattle.nb_core.specs.declared.states.KeyState.TheVariants as key_is;
ghost use Rattle.nb_table.specs.Chains.{IsOwn, seen_by};
ghost use Rattle.nb_map.specs.Calling.{HasMade};
ghost use Rattle.nb_map.specs.Logs.{as_replied};
ghost use Rattle.nb_map.specs.inside.Climbing.{IsSlotOf};
ghost use Rattle.nb_map.specs.inside.There.{HasCalledThere, key_in};

use crate::faults::PutFault;
use crate::steps::pause::NoPause;
use crate::steps::slot::{Attempt, try_at};
use nb_core::{Call, Key, KeyState, Num, Reply, Slot};
use nb_table::{Chain, ChainSeat};

/// The key that a slot of this state has.
#[inline(always)]
pub(crate) fn key_of(state: KeyState) -> Option<Key>
    ensures { result ≡ key_in state }
{
    match state {
        KeyState::Claimed(key) => Some(key),
        KeyState::Empty | KeyState::Dead => None,
    }
}

/// What the map has at a key, by one load at its slot.
#[inline(always)]
pub(crate) fn get_there(chain: &Chain, seat: &mut ChainSeat, key: Key, slot: usize) -> Option<Num>
    requires own { IsOwn chain.now seat.old }
    requires one { generations_of chain.now.shape ≡ 1 }
    requires slot { IsSlotOf chain.now.shape (seen_by chain.now.shape seat.old) 0 slot key }
    ensures { HasMade chain.now.shape (call.Get key) seat.old seat.new
        (as_replied (call.Get key) result) 1 }
{
    let word = chain.load_value_word(seat, 0, slot, Some(Call::Get { key }));
    match word.shows() {
        Some(number) => number,
        None => unreachable!(),
    }
}

/// Makes a write at its key's slot, with so many tries.
#[inline(always)]
pub(crate) fn write_there(
    chain: &Chain,
    seat: &mut ChainSeat,
    call: &Call,
    slot: usize,
    tries: u32,
) -> Result<Reply, PutFault>
    requires own { IsOwn chain.now seat.old }
    requires one { generations_of chain.now.shape ≡ 1 }
    requires slot { IsSlotOf chain.now.shape (seen_by chain.now.shape seat.old) 0 slot
        (key_of_call call.now) }
    requires some { 1 ≤ tries }
    ensures { HasCalledThere chain.now.shape call.now seat.old seat.new tries result }
{
    let value = chain.shape().value_place(0, slot);
    let at = Slot {
        g: 0,
        i: slot,
        value,
    };
    let mut left = tries;
    match try_at(chain, seat, call, at, &mut left, &mut NoPause) {
        Attempt::Made(reply) | Attempt::Left(reply) => Ok(reply),
        Attempt::Overflow => Err(PutFault::ValueRange),
        Attempt::Lost => Err(PutFault::Contended),
        Attempt::Copied(_) => unreachable!(),
    }
}
