//! Copies by several threads at once.
ghost use Rattle.nb_core.specs.Tables.{IsInstalled, IsSlot};
ghost use Rattle.nb_table.specs.Chains.{IsOwn, seen_by};

use super::copies::{FILLS_TWO_CHUNKS, SIX};
use super::on_chain::*;
use super::steps::Step::*;
use super::steps::*;
use nb_copy::{copy_and_count, copy_slot};
use nb_table::{Chain, ChainSeat};
use std::alloc::Global;
use std::process::Abort;
use std::sync::atomic::{AtomicUsize, Ordering};
use std::thread;
use std::thread::Threads;

/// Table 0 is complete, the top word says so, and table 1 has the six keys: the three of each home
/// side by side, in some order. Nobody is handed another chunk.
const IS_COPIED: [Step; 14] = [
    Get(0, Some(10)),
    Get(16, Some(26)),
    Get(32, Some(42)),
    Get(48, Some(58)),
    Get(64, Some(74)),
    Get(80, Some(90)),
    Claimed(0),
    Claimed(1),
    Claimed(2),
    Claimed(16),
    Claimed(17),
    Claimed(18),
    Helps(0),
    Top(1),
];

/// All slots of table 0, which are sixteen, are finished.
const IS_COMPLETE: [Step; 16] = [
    Done(0),
    Done(1),
    Done(2),
    Done(3),
    Done(4),
    Done(5),
    Done(6),
    Done(7),
    Done(8),
    Done(9),
    Done(10),
    Done(11),
    Done(12),
    Done(13),
    Done(14),
    Done(15),
];

/// So many threads copy one table of two chunks, each all of it.
fn complete_one_table<R: Threads + Sync + Abort>(rt: &R, alloc: Global, threads: usize) {
    let (chain, mut seats) = chain_of(rt, alloc, &[4, 5], threads);
    by_turns(rt, &chain, seats.as_mut_slice(), &[(0, &FILLS_TWO_CHUNKS)]);
    let on = &chain;
    thread::for_each_mut(
        rt,
        seats.as_mut_slice(),
        8,
        &|_, seat: &mut ChainSeat|
            requires { IsOwn on.now seat.now }
            ensures { IsOwn on.entry.now seat.exit.now }
        { goes(rt, on, seat, &[Completes]) },
    );
    let turns: [(usize, &[Step]); 2] = [(0, &IS_COMPLETE), (0, &IS_COPIED)];
    by_turns(rt, &chain, seats.as_mut_slice(), &turns);
    leaves(rt, alloc, chain, seats, &SIX);
}

#[test]
fn two_completers(rt: HostRuntime) {
    complete_one_table(&rt, rt.alloc(), 2);
}

#[test]
fn many_complete_one_table(rt: HostRuntime) {
    for _round in 0..1000 {
        complete_one_table(&rt, rt.alloc(), 4);
    }
}

/// Copies slot `i` of table 0, and counts it if it is to. Answers whether this turned it finished.
fn turns_slot(chain: &Chain, seat: &mut ChainSeat, i: usize, counted: bool) -> bool
    requires own { IsOwn chain.now seat.old }
    requires slot { IsSlot chain.now.shape 0 i }
    requires growing { IsInstalled (seen_by chain.now.shape seat.old) 1 }
    ensures own { IsOwn chain.now seat.new }
    ensures growing { IsInstalled (seen_by chain.now.shape seat.new) 1 }
{
    if counted {
        return copy_and_count(chain, seat, 0, i);
    }
    copy_slot(chain, seat, 0, i)
}

/// Copies the slots of table 0 one after another, if it has a next one, and adds how many of them
/// this turned finished.
fn turns_alone(chain: &Chain, seat: &mut ChainSeat, counted: bool, turned: &AtomicUsize)
    requires { IsOwn chain.now seat.old }
    ensures { IsOwn chain.now seat.new }
{
    if chain.load_next(seat, 0, None) {
        for i in 0..chain.shape().size_of(0) {
            let by_this = usize::from(turns_slot(chain, seat, i, counted));
            turned.fetch_add(by_this, Ordering::SeqCst);
        }
    }
}

/// Four threads copy all slots of one table, one after another. Each of its 16 slots was turned
/// finished by one of them. If they counted, the top word says that the table is complete; else
/// nothing says so until a seat completes it.
fn four_turn_one_table<R: Threads + Sync + Abort>(rt: &R, alloc: Global, counted: bool) {
    let (chain, mut seats) = chain_of(rt, alloc, &[4, 5], 4);
    by_turns(rt, &chain, seats.as_mut_slice(), &[(0, &FILLS_TWO_CHUNKS)]);
    let turned = AtomicUsize::new(0);
    let (on, all) = (&chain, &turned);
    thread::for_each_mut(
        rt,
        seats.as_mut_slice(),
        4,
        &|_, seat: &mut ChainSeat|
            requires { IsOwn on.now seat.now }
            ensures { IsOwn on.entry.now seat.exit.now }
        { turns_alone(on, seat, counted, all) },
    );
    assert_eq!(rt; turned.load(Ordering::SeqCst), 16);
    let turns: [(usize, &[Step]); 3] = [
        (0, &IS_COMPLETE),
        (0, &[Top(u32::from(counted)), Completes]),
        (0, &IS_COPIED),
    ];
    by_turns(rt, &chain, seats.as_mut_slice(), &turns);
    leaves(rt, alloc, chain, seats, &SIX);
}

/// The slots are copied, and then copied and counted.
#[test]
fn each_slot_is_turned_once(rt: HostRuntime) {
    for round in 0..2000 {
        four_turn_one_table(&rt, rt.alloc(), round % 2 == 1);
    }
}
