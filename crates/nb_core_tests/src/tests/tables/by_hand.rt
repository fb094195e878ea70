//! Steps of a copy from table 0 to table 1 that are made by hand, so that a copier may stop between
//! them. A helper first looks, by loads, at what its step asks for.
ghost use Rattle.std.specs.Prelude.{◌≡◌, ◌<◌, []};
ghost use Rattle.nb_core.specs.History.{HasValue};
ghost use Rattle.nb_core.specs.Plans.{generations_of, size_of};
ghost use Rattle.nb_core.specs.Tables.{AreOthers, IsInstalled, IsOther, IsSlot, path_slot};
ghost use Rattle.nb_core.specs.Tables.{IsPrimedOrFinished};
ghost use Rattle.nb_core.specs.declared.states.KeyState.TheVariants as key_is;
ghost use Rattle.nb_table.specs.Chains.{Grown, IsOwn, seen_by};

use super::on_chain::*;
use nb_core::{Key, KeyState, Num, ValueState};
use nb_table::{Chain, ChainSeat};
use std::process::Abort;

/// The slot at this distance on the path of a key.
fn slot_on_path<R: Abort>(rt: &R, chain: &Chain, g: u32, key: Key, distance: usize) -> usize
    ensures distance { distance < size_of chain.now.shape g }
    ensures slot { IsSlot chain.now.shape g result }
    ensures path { result ≡ path_slot chain.now.shape g key distance }
{
    is_slot(rt, chain, g, distance);
    chain.shape().path_slot(g, key, distance)
}

/// Looks at a slot of the key's path in table 0, which is another key's.
#[tactic(auto, using(nb_table::proofs::Theorems::steps_add_up))]
fn sees_other<R: Abort>(rt: &R, chain: &Chain, seat: &mut ChainSeat, key: Key, distance: usize)
    requires own { IsOwn chain.now seat.old }
    ensures grows { Grown chain.now.shape seat.old seat.new [] 1 }
    ensures table { 0 < generations_of chain.now.shape }
    ensures other { IsOther ((seen_by chain.now.shape seat.new).key 0
        (path_slot chain.now.shape 0 key distance)) key }
{
    let i = slot_on_path(rt, chain, 0, key, distance);
    let KeyState::Claimed(other) = chain.load_key(seat, 0, i, None) else {
        panic!(rt; "the slot has no key")
    };
    assert!(rt; other != key);
}

/// Looks at the first slots of the key's path in table 0, which are other keys'.
fn sees_others<R: Abort>(rt: &R, chain: &Chain, seat: &mut ChainSeat, key: Key, count: usize)
    requires own { IsOwn chain.now seat.old }
    ensures own { IsOwn chain.now seat.new }
    ensures others { AreOthers chain.now.shape (seen_by chain.now.shape seat.new) 0 key count }
{
    for distance in 0..count {
        sees_other(rt, chain, seat, key, distance);
    }
}

/// Sees that there is a table after table 0.
#[tactic(auto, using(nb_table::proofs::Theorems::steps_add_up))]
pub(super) fn sees_next<R: Abort>(rt: &R, chain: &Chain, seat: &mut ChainSeat)
    requires own { IsOwn chain.now seat.old }
    ensures own { IsOwn chain.now seat.new }
    ensures grows { Grown chain.now.shape seat.old seat.new [] 1 }
    ensures installed { IsInstalled (seen_by chain.now.shape seat.new) 1 }
{
    assert!(rt; 0 < chain.shape().generations());
    assert!(rt; chain.load_next(seat, 0, None));
}

/// Sees that the key has the first slot of the table.
#[tactic(auto, using(nb_table::proofs::Theorems::steps_add_up))]
fn sees_key<R: Abort>(rt: &R, chain: &Chain, seat: &mut ChainSeat, g: u32, key: Key)
    requires own { IsOwn chain.now seat.old }
    ensures own { IsOwn chain.now seat.new }
    ensures grows { Grown chain.now.shape seat.old seat.new [] 1 }
    ensures slot { IsSlot chain.now.shape g 0 }
    ensures claimed { (seen_by chain.now.shape seat.new).key g 0 ≡ key_is.Claimed key }
{
    is_slot(rt, chain, g, 0);
    assert_eq!(rt; chain.load_key(seat, g, 0, None), KeyState::Claimed(key));
}

/// Installs table 1 for a key whose path in table 0 is other keys' up to the limit, and answers
/// whether this step did it.
pub(super) fn installs<R: Abort>(rt: &R, chain: &Chain, seat: &mut ChainSeat, k: u64) -> bool
    requires own { IsOwn chain.now seat.old }
    ensures own { IsOwn chain.now seat.new }
    ensures installed { IsInstalled (seen_by chain.now.shape seat.new) 1 }
{
    let key = key(rt, k);
    assert!(rt; 1 < chain.shape().generations());
    sees_others(rt, chain, seat, key, chain.shape().limit_of(0));
    chain.install(seat, 0, key)
}

/// Primes the value in the first slot of table 0, which is the key's, and answers what it was.
pub(super) fn primes<R: Abort>(rt: &R, chain: &Chain, seat: &mut ChainSeat, key: Key) -> ValueState
    requires own { IsOwn chain.now seat.old }
    ensures own { IsOwn chain.now seat.new }
{
    sees_next(rt, chain, seat);
    sees_key(rt, chain, seat, 0, key);
    chain.prime(seat, 0, 0)
}

/// Sees that the first slot of table 0 is the key's, and has this number, primed or finished.
pub(super) fn sees_source<R: Abort>(
    rt: &R,
    chain: &Chain,
    seat: &mut ChainSeat,
    key: Key,
    number: Num,
)
    requires own { IsOwn chain.now seat.old }
    ensures own { IsOwn chain.now seat.new }
    ensures slot { IsSlot chain.now.shape 0 0 }
    ensures claimed { (seen_by chain.now.shape seat.new).key 0 0 ≡ key_is.Claimed key }
    ensures held { IsPrimedOrFinished (seen_by chain.now.shape seat.new) 0 0 number }
{
    sees_key(rt, chain, seat, 0, key);
    let value = chain.load_value(seat, 0, 0, None);
    assert!(rt; value == ValueState::Primed(number) || value == ValueState::Finished(number));
}

/// Copies the number of the key's slot to the key's slot in table 1, both the first ones, and
/// answers what the value there was.
pub(super) fn copies_in<R: Abort>(
    rt: &R,
    chain: &Chain,
    seat: &mut ChainSeat,
    key: Key,
    number: Num,
) -> ValueState
    requires own { IsOwn chain.now seat.old }
    requires slot { IsSlot chain.now.shape 0 0 }
    requires claimed { (seen_by chain.now.shape seat.old).key 0 0 ≡ key_is.Claimed key }
    requires held { IsPrimedOrFinished (seen_by chain.now.shape seat.old) 0 0 number }
    ensures own { IsOwn chain.now seat.new }
    ensures claimed { (seen_by chain.now.shape seat.new).key 0 0 ≡ key_is.Claimed key }
    ensures held { IsPrimedOrFinished (seen_by chain.now.shape seat.new) 0 0 number }
    ensures above { HasValue chain.now.shape (seen_by chain.now.shape seat.new) 1 key }
{
    sees_key(rt, chain, seat, 1, key);
    fills(chain, seat, key, number)
}

/// The same where the key is known to have the slot of table 1.
fn fills(chain: &Chain, seat: &mut ChainSeat, key: Key, number: Num) -> ValueState
    requires own { IsOwn chain.now seat.old }
    requires slot { IsSlot chain.now.shape 0 0 }
    requires claimed { (seen_by chain.now.shape seat.old).key 0 0 ≡ key_is.Claimed key }
    requires held { IsPrimedOrFinished (seen_by chain.now.shape seat.old) 0 0 number }
    requires above { IsSlot chain.now.shape 1 0 }
    requires copies { (seen_by chain.now.shape seat.old).key 1 0 ≡ key_is.Claimed key }
    ensures own { IsOwn chain.now seat.new }
    ensures claimed { (seen_by chain.now.shape seat.new).key 0 0 ≡ key_is.Claimed key }
    ensures held { IsPrimedOrFinished (seen_by chain.now.shape seat.new) 0 0 number }
    ensures above { HasValue chain.now.shape (seen_by chain.now.shape seat.new) 1 key }
{
    chain.copy_in(seat, 1, 0, key, number)
}

/// Marks the number in the key's slot, the first of table 0, as copied. Answers what the value was.
pub(super) fn finishes(chain: &Chain, seat: &mut ChainSeat, key: Key, number: Num) -> ValueState
    requires own { IsOwn chain.now seat.old }
    requires slot { IsSlot chain.now.shape 0 0 }
    requires claimed { (seen_by chain.now.shape seat.old).key 0 0 ≡ key_is.Claimed key }
    requires held { IsPrimedOrFinished (seen_by chain.now.shape seat.old) 0 0 number }
    requires above { HasValue chain.now.shape (seen_by chain.now.shape seat.old) 1 key }
    ensures own { IsOwn chain.now seat.new }
    ensures claimed { (seen_by chain.now.shape seat.new).key 0 0 ≡ key_is.Claimed key }
    ensures held { IsPrimedOrFinished (seen_by chain.now.shape seat.new) 0 0 number }
{
    chain.finish_slot(seat, 0, 0)
}

/// The eight steps, and no others, by which a seat copies the key's slot, the first of table 0, to
/// its home slot, the first of table 1, where nobody else copies it. It stops after so many.
pub(super) fn copies_until<R: Abort>(
    rt: &R,
    chain: &Chain,
    seat: &mut ChainSeat,
    key: Key,
    number: Num,
    steps: usize,
)
    requires own { IsOwn chain.now seat.old }
    requires installed { IsInstalled (seen_by chain.now.shape seat.old) 1 }
    ensures own { IsOwn chain.now seat.new }
{
    if steps == 0 {
        return;
    }
    sees_key(rt, chain, seat, 0, key);
    if steps == 1 {
        return;
    }
    assert_eq!(rt;
        chain.load_value(seat, 0, 0, None),
        ValueState::Live(number)
    );
    if steps == 2 {
        return;
    }
    assert_eq!(rt; chain.prime(seat, 0, 0), ValueState::Live(number));
    claims_until(rt, chain, seat, key, number, steps - 3);
}

/// The same once the number is primed.
fn claims_until<R: Abort>(
    rt: &R,
    chain: &Chain,
    seat: &mut ChainSeat,
    key: Key,
    number: Num,
    steps: usize,
)
    requires own { IsOwn chain.now seat.old }
    requires installed { IsInstalled (seen_by chain.now.shape seat.old) 1 }
    requires slot { IsSlot chain.now.shape 0 0 }
    requires claimed { (seen_by chain.now.shape seat.old).key 0 0 ≡ key_is.Claimed key }
    requires held { IsPrimedOrFinished (seen_by chain.now.shape seat.old) 0 0 number }
    ensures own { IsOwn chain.now seat.new }
{
    let home = slot_on_path(rt, chain, 1, key, 0);
    assert_eq!(rt; home, 0);
    if steps == 0 {
        return;
    }
    assert_eq!(rt; chain.load_key(seat, 1, home, None), KeyState::Empty);
    if steps == 1 {
        return;
    }
    assert_eq!(rt; chain.claim_key(seat, 1, home, key), KeyState::Empty);
    fills_until(rt, chain, seat, key, number, steps - 2);
}

/// The same once the slot of table 1 is claimed.
fn fills_until<R: Abort>(
    rt: &R,
    chain: &Chain,
    seat: &mut ChainSeat,
    key: Key,
    number: Num,
    steps: usize,
)
    requires own { IsOwn chain.now seat.old }
    requires slot { IsSlot chain.now.shape 0 0 }
    requires claimed { (seen_by chain.now.shape seat.old).key 0 0 ≡ key_is.Claimed key }
    requires held { IsPrimedOrFinished (seen_by chain.now.shape seat.old) 0 0 number }
    requires above { IsSlot chain.now.shape 1 0 }
    requires copies { (seen_by chain.now.shape seat.old).key 1 0 ≡ key_is.Claimed key }
    ensures own { IsOwn chain.now seat.new }
{
    if steps == 0 {
        return;
    }
    assert_eq!(rt; fills(chain, seat, key, number), ValueState::Null);
    if steps == 1 {
        return;
    }
    assert_eq!(rt;
        chain.load_value(seat, 1, 0, None),
        ValueState::Live(number)
    );
    if steps == 2 {
        return;
    }
    assert_eq!(rt;
        finishes(chain, seat, key, number),
        ValueState::Primed(number)
    );
}
