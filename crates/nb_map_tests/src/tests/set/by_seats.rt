//! Calls of a set by its seats. A call that takes memory is made again where its memory is refused,
//! and then has it.
ghost use Rattle.nb_set.specs.Sets.{AreMine, IsMine};

use super::super::plain::{Sizes, key, shape};
use super::by_handles::has_left;
use super::rows::Call::*;
use super::rows::{Call, OVER_MANY_KEYS, REFUSALS_WHEN_FULL, SET_OF_KEYS, are_just, keys, stays};
use nb_core::{Key, NotAll};
use nb_set::{LongSet, Seat, SetEnded, SettleFault};
use std::alloc::Global;
use std::process::Abort;
use std::sync::Wait;

/// Makes a call, and answers whether it comes to what the row says.
fn makes<R: Wait + Abort>(rt: &R, set: &LongSet, seat: &mut Seat, call: Call) -> bool
    requires own { IsMine set.now seat.old }
    ensures own { IsMine set.now seat.new }
{
    match call {
        Add(k, came) => set.add(rt, seat, key(rt, k)).ok() == came,
        Remove(k, went) => set.remove(rt, seat, key(rt, k)) == went,
        Contains(k, is) => set.contains(seat, key(rt, k)) == is,
        Extend(numbers, put) => {
            let keys = keys(rt, numbers);
            set.extend(rt, seat, &keys[..numbers.len().min(8)]) == put
        }
        Retain => {
            set.retain(rt, seat, stays);
            true
        }
        Clear => {
            set.clear(rt, seat);
            true
        }
        ForEach(sum, count) => shown(set, seat) == (sum, count),
        Size(size) => set.size_estimate(seat) == size,
        Generation(tables) => set.generation(seat) == tables,
        Occupancy(table, taken, looked) => {
            let seen = set.occupancy(seat);
            (seen.table, seen.taken, seen.looked) == (table, taken, looked)
        }
        Seats(seats) => set.shape().seats() == seats,
        _ => false,
    }
}

/// The sum of all keys, each of which is shown, and how many they are.
fn shown(set: &LongSet, seat: &mut Seat) -> (u64, u64)
    requires own { IsMine set.now seat.old }
    ensures own { IsMine set.now seat.new }
{
    let (mut sum, mut count) = (0u64, 0u64);
    set.for_each(seat, |key| {
        sum = sum.wrapping_add(key.get());
        count = count.wrapping_add(1);
    });
    (sum, count)
}

/// Makes these calls.
pub(super) fn sees<R: Wait + Abort>(rt: &R, set: &LongSet, seat: &mut Seat, calls: &[Call])
    requires own { IsMine set.now seat.old }
    ensures own { IsMine set.now seat.new }
{
    for i in 0..calls.len() {
        assert!(rt; makes(rt, set, seat, calls[i]), "call {i}");
    }
}

/// Takes a seat out of these.
pub(super) fn taken<R: Abort>(rt: &R, set: &LongSet, seats: &mut Vec<Seat>) -> Seat
    requires own { AreMine set.now seats.old.items }
    ensures taken { IsMine set.now result }
    ensures left { AreMine set.now seats.new.items }
{
    seats.pop().expect(rt, "there is a seat")
}

/// Gives a seat back to those that it was taken from.
pub(super) fn given_back<R: Abort>(rt: &R, set: &LongSet, seats: &mut Vec<Seat>, seat: Seat)
    requires own { AreMine set.now seats.old.items }
    requires given { IsMine set.now seat }
    ensures own { AreMine set.now seats.new.items }
{
    seats.push(seat).expect(rt, "memory");
}

/// Ends a set, all of whose seats these are.
pub(super) fn ended<R: Abort>(rt: &R, set: LongSet, seats: Vec<Seat>) -> SetEnded
    requires { AreMine set seats.items }
{
    match set.finish(seats) {
        Ok(ended) => ended,
        Err(_) => panic!(rt; "all seats are there"),
    }
}

/// An empty set with its seats.
pub(super) fn made<R: Abort>(rt: &R, alloc: Global, sizes: Sizes) -> (LongSet, Vec<Seat>)
    ensures { AreMine result.0 result.1.items }
{
    for _attempt in 0..2 {
        if let Ok(made) = LongSet::new(alloc, shape(rt, sizes)) {
            return made;
        }
    }
    panic!(rt; "there is memory")
}

/// A set with its seats, which has these keys from the start.
fn made_with<R: Abort>(rt: &R, alloc: Global, sizes: Sizes, keys: &[Key]) -> (LongSet, Vec<Seat>)
    ensures { AreMine result.0 result.1.items }
{
    for _attempt in 0..2 {
        if let Ok(made) = LongSet::with_keys(alloc, shape(rt, sizes), keys) {
            return made;
        }
    }
    panic!(rt; "there is memory, and room for the keys")
}

/// One seat makes these calls, and gives itself back. Just these keys are left.
fn story<R: Wait + Abort>(rt: &R, alloc: Global, calls: &[Call], left: &[u64]) {
    let (set, mut seats) = made(rt, alloc, (2, 1, 1, 1));
    let mut seat = taken(rt, &set, &mut seats);
    sees(rt, &set, &mut seat, calls);
    given_back(rt, &set, &mut seats, seat);
    has_left(rt, alloc, &ended(rt, set, seats), left);
}

#[test]
fn set_of_keys(rt: HostRuntime) {
    story(&rt, rt.alloc(), &SET_OF_KEYS, &[3]);
    story(&rt, rt.alloc(), &REFUSALS_WHEN_FULL, &[2, 3, 9]);
    story(&rt, rt.alloc(), &OVER_MANY_KEYS, &[1, 2, 5, 9]);
}

/// All keys of a set at rest.
fn listed<R: Abort>(rt: &R, alloc: Global, set: &LongSet, seats: &mut Vec<Seat>) -> Vec<Key>
    requires own { AreMine set.now seats.old.items }
    ensures own { AreMine set.now seats.new.items }
{
    for _attempt in 0..2 {
        if let Ok(keys) = set.keys(alloc, seats) {
            return keys;
        }
    }
    panic!(rt; "there is memory, and no seat is missing")
}

/// The set settles. How many keys it has, or why it doesn't.
fn settles(alloc: Global, set: &LongSet, seats: &mut Vec<Seat>) -> Result<u64, SettleFault>
    requires own { AreMine set.now seats.old.items }
    ensures own { AreMine set.now seats.new.items }
{
    match set.settle(alloc, seats) {
        Err(SettleFault::OutOfMemory) => set.settle(alloc, seats),
        settled => settled,
    }
}

/// The set settles, and these are all of its keys.
fn rests<R: Abort>(rt: &R, alloc: Global, set: &LongSet, seats: &mut Vec<Seat>, numbers: &[u64])
    requires own { AreMine set.now seats.old.items }
    ensures own { AreMine set.now seats.new.items }
{
    assert!(rt; settles(alloc, set, seats) == Ok(numbers.len() as u64));
    assert!(rt; are_just(listed(rt, alloc, set, seats).as_slice(), numbers));
}

/// A seat is taken out, without which the set neither settles nor ends, and works on: it comes
/// back, and the seat meets another one. Then both are given back.
fn works_on<R: Wait + Abort>(
    rt: &R,
    alloc: Global,
    set: LongSet,
    seats: Vec<Seat>,
) -> (LongSet, Vec<Seat>)
    requires { AreMine set seats.items }
    ensures { AreMine result.0 result.1.items }
{
    let mut seats = seats;
    let mut seat = taken(rt, &set, &mut seats);
    assert!(rt; settles(alloc, &set, &mut seats) == Err(SettleFault::NotAll));
    let Err(NotAll { whole, mut seats }) = set.finish(seats) else {
        panic!(rt; "a seat is missing")
    };
    let mut other = taken(rt, &whole, &mut seats);
    sees(
        rt,
        &whole,
        &mut seat,
        &[Contains(1, true), Add(3, Some(true))],
    );
    whole.meet(&mut seat, &mut other);
    sees(rt, &whole, &mut other, &[Contains(3, true)]);
    given_back(rt, &whole, &mut seats, other);
    given_back(rt, &whole, &mut seats, seat);
    (whole, seats)
}

#[test]
fn a_seat_is_missing(rt: HostRuntime) {
    let keys = keys(&rt, &[1, 2, 5, 9]);
    let (set, mut seats) = made_with(&rt, rt.alloc(), (2, 2, 3, 1), &keys[..4]);
    rests(&rt, rt.alloc(), &set, &mut seats, &[1, 2, 5, 9]);
    let (set, mut seats) = works_on(&rt, rt.alloc(), set, seats);
    rests(&rt, rt.alloc(), &set, &mut seats, &[1, 2, 3, 5, 9]);
    has_left(&rt, rt.alloc(), &ended(&rt, set, seats), &[1, 2, 3, 5, 9]);
}

/// An empty set, and one that has two keys from the start, also where one request for memory is
/// refused.
pub(super) fn refused_memory<R: Abort>(rt: &R, alloc: Global) {
    let (set, seats) = made(rt, alloc, (2, 2, 2, 1));
    has_left(rt, alloc, &ended(rt, set, seats), &[]);
    let keys = [key(rt, 1), key(rt, 2)];
    let (set, mut seats) = made_with(rt, alloc, (2, 2, 2, 1), &keys);
    rests(rt, alloc, &set, &mut seats, &[1, 2]);
    has_left(rt, alloc, &ended(rt, set, seats), &[1, 2]);
}
