//! The map's calls over a chain of tables alone, with small numbers, and looks at what they leave
//! in the slots.
ghost use Rattle.std.specs.Prelude.{All, ◌≡◌, ◌≤◌};
ghost use Rattle.nb_core.specs.Tables.{IsSlot};
ghost use Rattle.nb_table.specs.Chains.{AreOwn, IsOwn};

use nb_core::{Change, Key, NotAll, Num, Reply, Shape, Want, encode_key, encode_value};
use nb_map::PutFault;
use nb_map::steps::{NoPause, put_if_match_in};
use nb_table::{Chain, ChainSeat, Closed};
use std::alloc::Global;
use std::process::Abort;

/// A chain of tables with these exponents, with so many seats.
pub(super) fn chain_of<R: Abort>(
    rt: &R,
    alloc: Global,
    exponents: &[u32],
    seats: usize,
) -> (Chain, Vec<ChainSeat>)
    ensures { All (IsOwn result.0) result.1.items }
{
    let shape = Shape::with_plan(exponents, seats, 1).expect(rt, "a shape");
    Chain::new(alloc, shape).expect(rt, "memory")
}

/// One of the seats.
pub(super) fn taken<R: Abort>(rt: &R, chain: &Chain, seats: &mut Vec<ChainSeat>) -> ChainSeat
    requires own { All (IsOwn chain.now) seats.old.items }
    ensures taken { IsOwn chain.now result }
    ensures left { All (IsOwn chain.now) seats.new.items }
{
    seats.pop().expect(rt, "there is a seat")
}

/// The key, which is a small one.
pub(super) fn key<R: Abort>(rt: &R, key: u64) -> Key
    ensures { result ≡ key }
{
    Key::new(key).expect(rt, "a key")
}

/// The number, which is in range.
pub(super) fn number<R: Abort>(rt: &R, number: u64) -> Num
    ensures { result ≡ number }
{
    Num::new(number).expect(rt, "a number")
}

/// Makes a write with so many tries and no pause.
pub(super) fn makes_write(
    chain: &Chain,
    seat: &mut ChainSeat,
    key: Key,
    want: Want,
    change: Change,
    tries: u32,
) -> Result<Reply, PutFault>
    requires own { IsOwn chain.now seat.old }
    requires some { 1 ≤ tries }
    ensures own { IsOwn chain.now seat.new }
{
    let mut pause = NoPause;
    let answer = put_if_match_in(chain, seat, key, want, change, tries, &mut pause);
    let NoPause = pause;
    answer
}

/// Asks that the table has the slot.
pub(super) fn is_slot<R: Abort>(rt: &R, chain: &Chain, g: u32, i: usize)
    ensures { IsSlot chain.now.shape g i }
{
    assert!(rt; g < chain.shape().generations());
    assert!(rt; i < chain.shape().size_of(g));
}

/// The slot's key word.
pub(super) fn key_in<R: Abort>(rt: &R, chain: &Chain, seat: &mut ChainSeat, g: u32, i: usize) -> u64
    requires own { IsOwn chain.now seat.old }
    ensures own { IsOwn chain.now seat.new }
{
    is_slot(rt, chain, g, i);
    encode_key(chain.load_key(seat, g, i, None))
}

/// The slot's value word.
pub(super) fn value_in<R: Abort>(
    rt: &R,
    chain: &Chain,
    seat: &mut ChainSeat,
    g: u32,
    i: usize,
) -> u64
    requires own { IsOwn chain.now seat.old }
    ensures own { IsOwn chain.now seat.new }
{
    is_slot(rt, chain, g, i);
    encode_value(chain.load_value(seat, g, i, None))
}

/// Closes the chain with all its seats; without the last one it comes back, and what is in it.
/// These keys are left, each with its number, and key 1000 isn't.
pub(super) fn leaves<R: Abort>(
    rt: &R,
    alloc: Global,
    chain: Chain,
    seats: Vec<ChainSeat>,
    pairs: &[(u64, u64)],
)
    requires { AreOwn chain seats.items }
{
    let mut seats = seats;
    let Some(last) = seats.pop() else {
        panic!(rt; "there is a seat")
    };
    let Err(NotAll { whole, mut seats }) = chain.close(seats) else {
        panic!(rt; "a seat is missing")
    };
    seats.push(last).expect(rt, "memory");
    let Ok(closed) = whole.close(seats) else {
        panic!(rt; "all seats are there")
    };
    let entries = closed.entries(alloc).expect(rt, "memory");
    are_left(rt, &closed, entries.as_slice(), pairs);
}

/// Just these keys are left, each with its number, and key 1000 isn't.
fn are_left<R: Abort>(rt: &R, closed: &Closed, entries: &[(Key, Num)], pairs: &[(u64, u64)]) {
    assert!(rt; entries.len() == pairs.len() && closed.get(key(rt, 1000)).is_none());
    for i in 0..entries.len() {
        let (key, number) = entries[i];
        assert!(rt; (key.get(), number.get()) == pairs[i], "entry {i}");
        assert!(rt; closed.get(key) == Some(number), "entry {i}");
    }
}
