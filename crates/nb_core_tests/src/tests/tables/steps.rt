//! What a seat does and sees, step by step: tables of steps over one small interpreter.
ghost use Rattle.std.specs.Prelude.{All};
ghost use Rattle.nb_table.specs.Chains.{IsOwn};

use super::by_hand::*;
use super::on_chain::*;
use super::steps::Step::*;
use nb_copy::{complete, copy_and_count, copy_slot, help};
use nb_core::{Change, Num, Reply, Want, encode_value};
use nb_map::PutFault;
use nb_map::steps::get_in;
use nb_table::{Chain, ChainSeat};
use std::alloc::Global;
use std::process::Abort;

/// The key words of slots without a key.
pub(super) const EMPTY: u64 = 0;

pub(super) const DEAD: u64 = 1;

/// The value words of a key that was removed, and of one whose removal is primed.
pub(super) const TOMBSTONE: u64 = 4;

pub(super) const PRIMED_TOMBSTONE: u64 = 5;

/// The value words of a slot with the number 10, live and finished.
pub(super) const LIVE_10: u64 = 48;

pub(super) const FINISHED_10: u64 = 51;

/// A call or a step of a seat, and what it comes to; or what it sees. Slots are of a table and have
/// an index; words are plain numbers.
#[derive(Clone, Copy)]
pub(super) enum Step {
    /// This number is put at the key, which isn't there.
    Put(u64, u64),
    /// The first number is put at the key, which has the second one.
    Over(u64, u64, u64),
    /// There is no room for the key.
    Full(u64),
    /// A put that wants the key to be there finds that it isn't.
    Unmatched(u64),
    /// The key is removed, which has this number.
    Remove(u64, u64),
    /// The key has this number, or none.
    Get(u64, Option<u64>),
    /// The top word is this, which the seat reads, or knows already.
    Top(u32),
    KnownTop(u32),
    /// The slot has this key, and its number, live or finished.
    Live(u32, usize, u64, u64),
    Finished(u32, usize, u64, u64),
    /// The slot's key word, or its value word, is this.
    Key(u32, usize, u64),
    Value(u32, usize, u64),
    /// The slot of table 0 is finished, and that of table 1 has a key.
    Done(usize),
    Claimed(usize),
    /// Table 1 is installed, for a key whose path in table 0 is other keys' up to the limit.
    /// Whether this step did it.
    Installs(u64, bool),
    /// The slot of table 0 is copied, and counted. Whether a step of this call turned it finished.
    Copies(usize, bool),
    Counts(usize, bool),
    /// The next chunk of table 0 is copied, by which so many slots are turned finished.
    Helps(usize),
    /// All of table 0 is copied.
    Completes,
    /// The next chunk is taken, and begins here.
    Takes(u64),
    /// The value of the key 0, in the first slot of table 0, is primed, and its word was this.
    Primes(u64),
}

/// The answer of a write whose condition holds.
fn replied(before: Option<Num>) -> Result<Reply, PutFault> {
    Ok(Reply {
        before,
        matched: true,
    })
}

/// Makes a write with one try.
fn writes<R: Abort>(
    rt: &R,
    chain: &Chain,
    seat: &mut ChainSeat,
    k: u64,
    want: Want,
    change: Change,
) -> Result<Reply, PutFault>
    requires own { IsOwn chain.now seat.old }
    ensures own { IsOwn chain.now seat.new }
{
    makes_write(chain, seat, key(rt, k), want, change, 1)
}

/// Takes a step that is a call of the map, and answers whether it came to what it says.
fn takes<R: Abort>(rt: &R, chain: &Chain, seat: &mut ChainSeat, step: Step) -> bool
    requires own { IsOwn chain.now seat.old }
    ensures own { IsOwn chain.now seat.new }
{
    match step {
        Put(k, n) => {
            let change = Change::Put(number(rt, n));
            writes(rt, chain, seat, k, Want::Any, change) == replied(None)
        }
        Over(k, n, was) => {
            let (change, was) = (Change::Put(number(rt, n)), number(rt, was));
            writes(rt, chain, seat, k, Want::Any, change) == replied(Some(was))
        }
        Full(k) => {
            let change = Change::Put(number(rt, 1));
            writes(rt, chain, seat, k, Want::Any, change) == Err(PutFault::Full)
        }
        Unmatched(k) => {
            let change = Change::Put(number(rt, 1));
            let (before, matched) = (None, false);
            writes(rt, chain, seat, k, Want::Present, change) == Ok(Reply { before, matched })
        }
        Remove(k, was) => {
            let was = number(rt, was);
            writes(rt, chain, seat, k, Want::Any, Change::Remove) == replied(Some(was))
        }
        Get(k, found) => get_in(chain, seat, key(rt, k)).map(Num::get) == found,
        _ => sees(rt, chain, seat, step),
    }
}

/// The same of a look.
fn sees<R: Abort>(rt: &R, chain: &Chain, seat: &mut ChainSeat, step: Step) -> bool
    requires own { IsOwn chain.now seat.old }
    ensures own { IsOwn chain.now seat.new }
{
    match step {
        Top(top) => chain.load_top(seat) == top,
        KnownTop(top) => seat.known_top() == top,
        Live(g, i, k, n) => {
            let word = key_in(rt, chain, seat, g, i);
            let due = n.wrapping_mul(4).wrapping_add(8);
            word == k.wrapping_add(2) && value_in(rt, chain, seat, g, i) == due
        }
        Finished(g, i, k, n) => {
            let word = key_in(rt, chain, seat, g, i);
            let due = n.wrapping_mul(4).wrapping_add(11);
            word == k.wrapping_add(2) && value_in(rt, chain, seat, g, i) == due
        }
        Key(g, i, word) => key_in(rt, chain, seat, g, i) == word,
        Value(g, i, word) => value_in(rt, chain, seat, g, i) == word,
        Done(i) => {
            let is_dead = key_in(rt, chain, seat, 0, i) == DEAD;
            value_in(rt, chain, seat, 0, i) % 4 == 3 || is_dead
        }
        Claimed(i) => key_in(rt, chain, seat, 1, i) > DEAD,
        _ => copies(rt, chain, seat, step),
    }
}

/// The same of a step of a copy.
fn copies<R: Abort>(rt: &R, chain: &Chain, seat: &mut ChainSeat, step: Step) -> bool
    requires own { IsOwn chain.now seat.old }
    ensures own { IsOwn chain.now seat.new }
{
    match step {
        Installs(k, by_this) => installs(rt, chain, seat, k) == by_this,
        Primes(was) => encode_value(primes(rt, chain, seat, key(rt, 0))) == was,
        _ => copies_on(rt, chain, seat, step),
    }
}

/// The same of a call that copies.
fn copies_on<R: Abort>(rt: &R, chain: &Chain, seat: &mut ChainSeat, step: Step) -> bool
    requires own { IsOwn chain.now seat.old }
    ensures own { IsOwn chain.now seat.new }
{
    assert!(rt; 0 < chain.shape().generations());
    sees_next(rt, chain, seat);
    match step {
        Copies(i, by_this) => {
            assert!(rt; i < chain.shape().size_of(0));
            copy_slot(chain, seat, 0, i) == by_this
        }
        Counts(i, by_this) => {
            assert!(rt; i < chain.shape().size_of(0));
            copy_and_count(chain, seat, 0, i) == by_this
        }
        Helps(turned) => help(chain, seat, 0) == turned,
        Completes => {
            complete(chain, seat, 0);
            true
        }
        Takes(begin) => chain.take_work(seat, 0) == begin,
        _ => false,
    }
}

/// Takes these steps.
pub(super) fn goes<R: Abort>(rt: &R, chain: &Chain, seat: &mut ChainSeat, steps: &[Step])
    requires own { IsOwn chain.now seat.old }
    ensures own { IsOwn chain.now seat.new }
{
    for i in 0..steps.len() {
        assert!(rt; takes(rt, chain, seat, steps[i]), "step {i}");
    }
}

/// Seats by their numbers, each with the steps that it takes in its turn.
pub(super) type Turns<'a> = &'a [(usize, &'a [Step])];

/// The seats take their steps, one after another.
pub(super) fn by_turns<R: Abort>(rt: &R, chain: &Chain, seats: &mut [ChainSeat], turns: Turns<'_>)
    requires own { All (IsOwn chain.now) seats.old }
    ensures own { All (IsOwn chain.now) seats.new }
{
    for (who, steps) in turns {
        assert!(rt; *who < seats.len());
        goes(rt, chain, &mut seats[*who], steps);
    }
}

/// The exponents of a chain's tables, how many seats it has, their turns, and the keys that are left,
/// each with its number.
pub(super) type Story = (&'static [u32], usize, Turns<'static>, &'static [(u64, u64)]);

/// Each story in a new chain.
pub(super) fn play<R: Abort>(rt: &R, alloc: Global, stories: &[Story]) {
    for (exponents, count, turns, left) in stories {
        let (chain, mut seats) = chain_of(rt, alloc, exponents, *count);
        by_turns(rt, &chain, seats.as_mut_slice(), turns);
        leaves(rt, alloc, chain, seats, left);
    }
}
