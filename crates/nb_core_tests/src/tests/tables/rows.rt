//! Calls one after another, with the replies and the slots that they leave; and writes before whose
//! exchange another seat writes.

use super::on_chain::*;
use super::steps::Step::*;
use super::steps::*;
use nb_core::{Change, Key, Num, Reply, Want};
use nb_map::PutFault;
use nb_map::steps::{Pause, get_in, put_if_match_in};
use nb_table::{Chain, ChainSeat};
use std::alloc::Global;
use std::process::Abort;

/// A table of four slots is filled. There is no room for a fifth key.
const ONE_TABLE_BY_HAND: [Step; 8] = [
    Put(0, 10),
    Put(1, 11),
    Put(2, 12),
    Put(3, 13),
    Full(4),
    Unmatched(4),
    Over(0, 20, 10),
    Get(4, None),
];

/// Four keys have one home: the fourth doesn't fit, and they are copied to the second table.
const GROWS_WHEN_A_PATH_IS_CROWDED: [Step; 17] = [
    Put(0, 10),
    Put(4, 14),
    Put(8, 18),
    Put(12, 22),
    Top(1),
    Finished(0, 0, 0, 10),
    Finished(0, 1, 4, 14),
    Finished(0, 2, 8, 18),
    Key(0, 3, DEAD),
    Live(1, 0, 0, 10),
    Live(1, 1, 8, 18),
    Live(1, 4, 4, 14),
    Live(1, 5, 12, 22),
    Key(1, 2, EMPTY),
    Key(1, 3, EMPTY),
    Key(1, 6, EMPTY),
    Key(1, 7, EMPTY),
];

/// A key is removed before the table is copied.
const A_REMOVAL_IS_NOT_COPIED: [Step; 13] = [
    Put(0, 10),
    Put(4, 14),
    Put(8, 18),
    Remove(4, 14),
    Put(12, 22),
    Live(1, 0, 0, 10),
    Live(1, 1, 8, 18),
    Live(1, 4, 12, 22),
    Key(1, 2, EMPTY),
    Key(1, 3, EMPTY),
    Key(1, 5, EMPTY),
    Key(1, 6, EMPTY),
    Key(1, 7, EMPTY),
];

/// The second table is as crowded by four keys as the first, and the third takes them.
const PLAN_OF_THREE: [Step; 13] = [
    Put(0, 10),
    Put(4, 14),
    Put(8, 18),
    Put(12, 22),
    Top(2),
    Finished(1, 0, 0, 10),
    Finished(1, 1, 4, 14),
    Finished(1, 2, 8, 18),
    Key(1, 3, DEAD),
    Live(2, 0, 0, 10),
    Live(2, 1, 8, 18),
    Live(2, 4, 4, 14),
    Live(2, 5, 12, 22),
];

/// Keys crowd the first table and are removed, and others fill the next one, which is as large.
/// None of the first is copied there.
const SAME_SIZE_SUCCESSOR: [Step; 19] = [
    Put(0, 10),
    Put(4, 14),
    Put(8, 18),
    Remove(0, 10),
    Remove(4, 14),
    Remove(8, 18),
    Put(12, 22),
    Put(16, 26),
    Put(20, 30),
    Put(24, 34),
    Get(12, Some(22)),
    Get(16, Some(26)),
    Get(20, Some(30)),
    Get(24, Some(34)),
    Live(1, 0, 12, 22),
    Live(1, 1, 16, 26),
    Live(1, 2, 20, 30),
    Live(1, 3, 24, 34),
    Full(28),
];

/// One key more than the second table takes, which is no larger than the first.
const SAME_SIZE_FULL: [Step; 9] = [
    Put(0, 10),
    Put(4, 14),
    Put(8, 18),
    Put(12, 22),
    Live(1, 0, 0, 10),
    Live(1, 1, 4, 14),
    Live(1, 2, 8, 18),
    Live(1, 3, 12, 22),
    Full(16),
];

const FOUR: [(u64, u64); 4] = [(0, 10), (4, 14), (8, 18), (12, 22)];

/// A puts three keys, B grows the chain for a fourth and copies them, and A finds all four.
const FINDS_WHAT_ANOTHER_COPIED: [(usize, &[Step]); 3] = [
    (0, &[Put(0, 10), Put(4, 14), Put(8, 18)]),
    (1, &[Put(12, 22), Top(1)]),
    (0, &FINDS_FOUR),
];

const FINDS_FOUR: [Step; 4] = [
    Get(0, Some(10)),
    Get(4, Some(14)),
    Get(8, Some(18)),
    Get(12, Some(22)),
];

const STORIES: [Story; 7] = [
    (
        &[2],
        1,
        &[(0, &ONE_TABLE_BY_HAND)],
        &[(0, 20), (1, 11), (2, 12), (3, 13)],
    ),
    (&[2, 3, 4], 1, &[(0, &GROWS_WHEN_A_PATH_IS_CROWDED)], &FOUR),
    (
        &[2, 3, 4],
        1,
        &[(0, &A_REMOVAL_IS_NOT_COPIED)],
        &[(0, 10), (8, 18), (12, 22)],
    ),
    (&[2, 2, 3], 1, &[(0, &PLAN_OF_THREE)], &FOUR),
    (
        &[2, 2],
        1,
        &[(0, &SAME_SIZE_SUCCESSOR)],
        &[(12, 22), (16, 26), (20, 30), (24, 34)],
    ),
    (&[2, 2], 1, &[(0, &SAME_SIZE_FULL)], &FOUR),
    (&[2, 3, 4], 2, &FINDS_WHAT_ANOTHER_COPIED, &FOUR),
];

/// The rows that are named as their steps are.
#[test]
fn calls_and_the_slots_that_they_leave(rt: HostRuntime) {
    play(&rt, rt.alloc(), &STORIES);
}

/// A seat that puts a number at a key once, before the first exchange of another seat's write. It
/// counts the pauses.
#[derive(Drop)]
struct PutsOnce {
    seat: ChainSeat,
    key: Key,
    number: Num,
    answer: Option<Result<Reply, PutFault>>,
    pauses: u64,
}

impl Pause for PutsOnce {
    ghost use Rattle.nb_table.specs.Chains.{IsOwn};

    ghost serves = { λ pause chain. IsOwn chain pause.seat };

    fn before_exchange(&mut self, chain: &Chain) {
        self.pauses = self.pauses.wrapping_add(1);
        if self.answer.is_none() {
            let change = Change::Put(self.number);
            let answer = makes_write(chain, &mut self.seat, self.key, Want::Any, change, 1);
            self.answer = Some(answer);
        }
    }
}

/// The answer of a write of key 7 with so many tries, before whose first exchange another seat puts
/// 6 there, and what is there afterwards. It pauses once before each exchange, of which it makes as
/// many as it has tries.
fn contends<R: Abort>(
    rt: &R,
    alloc: Global,
    change: Change,
    tries: u32,
) -> (Result<Reply, PutFault>, Option<Num>) {
    let (chain, mut seats) = chain_of(rt, alloc, &[2], 2);
    let mut a = taken(rt, &chain, &mut seats);
    let seat = taken(rt, &chain, &mut seats);
    assert!(rt; tries > 0);
    let seven = key(rt, 7);
    let mut pause = PutsOnce {
        seat,
        key: seven,
        number: number(rt, 6),
        answer: None,
        pauses: 0,
    };
    let answer = put_if_match_in(&chain, &mut a, seven, Want::Any, change, tries, &mut pause);
    let by_other = pause.answer.expect(rt, "the other seat put its number");
    assert!(rt; pause.pauses == u64::from(tries) && by_other.is_ok());
    (answer, get_in(&chain, &mut pause.seat, seven))
}

/// The rows contended_once and add_contended_once: a put of 5, and an add of 5.
#[test]
fn contended_once(rt: HostRuntime) {
    let five = number(&rt, 5);
    let rows: [(Change, u32, Option<u64>, u64); 3] = [
        (Change::Put(five), 1, None, 6),
        (Change::Put(five), 2, Some(6), 5),
        (Change::Add(five), 2, Some(6), 11),
    ];
    for (change, tries, found, left) in rows {
        let (answer, is) = contends(&rt, rt.alloc(), change, tries);
        match answer {
            Ok(reply) => assert!(rt; reply.matched && reply.before.map(Num::get) == found),
            Err(fault) => assert!(rt; fault == PutFault::Contended && found.is_none()),
        }
        assert!(rt; is.map(Num::get) == Some(left));
    }
}
