//! Copies by several seats in one thread, with calls between them and copiers that stop.
ghost use Rattle.nb_table.specs.Chains.{IsOwn};

use super::by_hand::*;
use super::on_chain::*;
use super::steps::Step::*;
use super::steps::*;
use nb_core::{ValueState, encode_value};
use nb_map::steps::get_in;
use nb_table::{Chain, ChainSeat};
use std::alloc::Global;
use std::process::Abort;

/// Keys that crowd a first table of four slots, and their numbers.
const THREE: [(u64, u64); 3] = [(0, 10), (4, 14), (8, 18)];

/// Keys that crowd a first table of sixteen slots, which are two chunks, and their numbers.
pub(super) const SIX: [(u64, u64); 6] = [(0, 10), (16, 26), (32, 42), (48, 58), (64, 74), (80, 90)];

/// Three keys are put into table 0, and table 1 is installed for a fourth.
const BEGINS: [Step; 4] = [Put(0, 10), Put(4, 14), Put(8, 18), Installs(12, true)];

/// A primes a slot. B reads its key, and so copies it, and A finds it copied, and table 1
/// installed. Another slot is copied by a call for it.
const COPY_OF_ONE_SLOT: [(usize, &[Step]); 5] = [
    (0, &BEGINS),
    (0, &[Primes(LIVE_10)]),
    (1, &[Get(0, Some(10))]),
    (
        0,
        &[Copies(0, false), Primes(FINISHED_10), Installs(12, false)],
    ),
    (1, &[Live(1, 0, 0, 10), Copies(1, true)]),
];

/// A seat copies the slots one after another, and counts each. The last one raises the top word.
const COUNTED_SLOTS_RAISE_THE_TOP: [Step; 8] = [
    Counts(0, true),
    Top(0),
    Counts(1, true),
    Top(0),
    Counts(2, true),
    Top(0),
    Counts(3, true),
    Top(1),
];

/// A seat copies table 0, and removes its first key from table 1.
const COPIES_TABLE: [Step; 12] = [
    Top(0),
    Completes,
    KnownTop(1),
    Top(1),
    Finished(0, 0, 0, 10),
    Finished(0, 1, 4, 14),
    Finished(0, 2, 8, 18),
    Key(0, 3, DEAD),
    Live(1, 0, 0, 10),
    Live(1, 1, 8, 18),
    Live(1, 4, 4, 14),
    Remove(0, 10),
];

/// A seat puts keys into table 1 until that is crowded, copies it, and puts one into table 2. The
/// key of the first slot is still in table 1.
const CROWDS_NEXT: [Step; 13] = [
    Put(16, 26),
    Put(24, 34),
    Live(1, 2, 16, 26),
    Live(1, 3, 24, 34),
    Top(1),
    Put(32, 42),
    Top(2),
    Live(2, 0, 16, 26),
    Live(2, 1, 32, 42),
    Live(2, 4, 4, 14),
    Live(2, 8, 8, 18),
    Live(2, 9, 24, 34),
    Key(1, 0, 2),
];

/// What a seat leaves that copies both tables so.
const LEFT: [(u64, u64); 5] = [(4, 14), (8, 18), (16, 26), (24, 34), (32, 42)];

/// A stops after it primed a slot and saw its key and number. B takes its steps. A then goes on,
/// resting on what it saw: it finds this in table 1, and the slot of table 0 finished, and changes
/// nothing any more. The key is gone. B takes its further steps.
fn stops_and_goes_on<R: Abort>(
    rt: &R,
    chain: &Chain,
    a: &mut ChainSeat,
    b: &mut ChainSeat,
    above: u64,
    before: (&[Step], &[Step]),
    after: &[Step],
)
    requires a { IsOwn chain.now a.old }
    requires b { IsOwn chain.now b.old }
    ensures a { IsOwn chain.now a.new }
    ensures b { IsOwn chain.now b.new }
{
    let (first, ten) = (key(rt, 0), number(rt, 10));
    goes(rt, chain, a, &BEGINS);
    goes(rt, chain, a, &[Primes(LIVE_10)]);
    sees_source(rt, chain, a, first, ten);
    goes(rt, chain, b, before.0);
    goes(rt, chain, b, before.1);
    assert!(rt; encode_value(copies_in(rt, chain, a, first, ten)) == above);
    assert!(rt; finishes(chain, a, first, ten) == ValueState::Finished(ten));
    assert!(rt; get_in(chain, a, first).is_none());
    goes(rt, chain, b, after);
}

/// Makes a chain, whose two seats do so.
fn stopped<R: Abort>(
    rt: &R,
    alloc: Global,
    above: u64,
    before: (&[Step], &[Step]),
    after: &[Step],
) {
    let (chain, mut seats) = chain_of(rt, alloc, &[2, 3, 4], 2);
    let mut b = taken(rt, &chain, &mut seats);
    let mut a = taken(rt, &chain, &mut seats);
    stops_and_goes_on(rt, &chain, &mut a, &mut b, above, before, after);
    seats.push(a).expect(rt, "memory");
    seats.push(b).expect(rt, "memory");
    leaves(rt, alloc, chain, seats, &LEFT);
}

/// The row stopped_copier: B has copied both tables when A goes on. Then B has copied just the first
/// one.
#[test]
fn stopped_copiers(rt: HostRuntime) {
    let both: (&[Step], &[Step]) = (&COPIES_TABLE, &CROWDS_NEXT);
    stopped(&rt, rt.alloc(), PRIMED_TOMBSTONE, both, &[]);
    let first: (&[Step], &[Step]) = (&COPIES_TABLE, &[]);
    stopped(&rt, rt.alloc(), TOMBSTONE, first, &CROWDS_NEXT);
}

/// A makes so many steps of a copy of the first slot, and stops. B copies both tables. A then finds
/// the slot copied.
fn stops_after<R: Abort>(rt: &R, chain: &Chain, a: &mut ChainSeat, b: &mut ChainSeat, steps: usize)
    requires a { IsOwn chain.now a.old }
    requires b { IsOwn chain.now b.old }
    ensures a { IsOwn chain.now a.new }
    ensures b { IsOwn chain.now b.new }
{
    goes(rt, chain, a, &[Put(0, 10), Put(4, 14), Put(8, 18)]);
    assert!(rt; installs(rt, chain, a, 12));
    copies_until(rt, chain, a, key(rt, 0), number(rt, 10), steps);
    goes(rt, chain, b, &COPIES_TABLE);
    goes(rt, chain, b, &CROWDS_NEXT);
    goes(rt, chain, a, &[Copies(0, false), Get(0, None)]);
}

/// A stops after each of the eight steps, and before the first.
#[test]
fn stopped_after_each_step(rt: HostRuntime) {
    for steps in 0..9 {
        let (chain, mut seats) = chain_of(&rt, rt.alloc(), &[2, 3, 4], 2);
        let mut b = taken(&rt, &chain, &mut seats);
        let mut a = taken(&rt, &chain, &mut seats);
        stops_after(&rt, &chain, &mut a, &mut b, steps);
        seats.push(a).expect(&rt, "memory");
        seats.push(b).expect(&rt, "memory");
        leaves(&rt, rt.alloc(), chain, seats, &LEFT);
    }
}

/// Six keys are put into a table 0 of two chunks, and table 1 is installed for a seventh.
pub(super) const FILLS_TWO_CHUNKS: [Step; 7] = [
    Put(0, 10),
    Put(16, 26),
    Put(32, 42),
    Put(48, 58),
    Put(64, 74),
    Put(80, 90),
    Installs(96, true),
];

/// The six keys are in their slots of table 1, and none in the others of table 0.
const HAS_SIX_COPIED: [Step; 16] = [
    Key(0, 6, DEAD),
    Key(0, 7, DEAD),
    Key(0, 8, DEAD),
    Key(0, 9, DEAD),
    Key(0, 10, DEAD),
    Key(0, 11, DEAD),
    Key(0, 12, DEAD),
    Key(0, 13, DEAD),
    Key(0, 14, DEAD),
    Key(0, 15, DEAD),
    Live(1, 0, 0, 10),
    Live(1, 1, 32, 42),
    Live(1, 2, 64, 74),
    Live(1, 16, 16, 26),
    Live(1, 17, 48, 58),
    Live(1, 18, 80, 90),
];

/// A, B and C ask for a chunk each of a table of two. What C is handed lies past the table's end.
const THREE_HELPERS: [(usize, &[Step]); 6] = [
    (0, &FILLS_TWO_CHUNKS),
    (0, &[Helps(8)]),
    (2, &[Top(0)]),
    (1, &[Helps(8)]),
    (2, &[Helps(0), Takes(24), Top(1)]),
    (2, &HAS_SIX_COPIED),
];

/// A takes a chunk and stops. B copies the other one. A then takes what lies past the table's end.
/// B copies what A left, which raises the top word, and A finds each slot of its chunk copied.
const FINISHED_BY_ANOTHER: [(usize, &[Step]); 6] = [
    (0, &FILLS_TWO_CHUNKS),
    (0, &[Takes(0)]),
    (1, &[Helps(8)]),
    (0, &[Takes(16)]),
    (1, &[Top(0), Completes, Top(1)]),
    (0, &FINDS_ITS_CHUNK_COPIED),
];

const FINDS_ITS_CHUNK_COPIED: [Step; 9] = [
    KnownTop(0),
    Copies(0, false),
    Copies(1, false),
    Copies(2, false),
    Copies(3, false),
    Copies(4, false),
    Copies(5, false),
    Copies(6, false),
    Copies(7, false),
];

const STORIES: [Story; 4] = [
    (&[2, 3], 2, &COPY_OF_ONE_SLOT, &THREE),
    (
        &[2, 3],
        1,
        &[(0, &BEGINS), (0, &COUNTED_SLOTS_RAISE_THE_TOP)],
        &THREE,
    ),
    (&[4, 5], 3, &THREE_HELPERS, &SIX),
    (&[4, 5], 2, &FINISHED_BY_ANOTHER, &SIX),
];

/// The rows that are named as their turns are.
#[test]
fn copies_by_turns(rt: HostRuntime) {
    play(&rt, rt.alloc(), &STORIES);
}
