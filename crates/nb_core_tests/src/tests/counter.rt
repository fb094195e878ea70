//! The counter, by seats and by threads.
ghost use Rattle.nb_count.specs.Counts.{AreOwn, IsOwn};

use nb_core::{MAX_SEATS, MAX_STRIPES, NotAll};
use nb_count::{CountSeat, Counter};
use std::alloc::Global;
use std::process::Abort;
use std::thread;

/// Each seat adds the amount at its index.
fn add_each(counter: &Counter, seats: &mut [CountSeat], amounts: &[i64])
    requires { AreOwn counter.now seats.old }
    ensures { AreOwn counter.now seats.new }
{
    for index in 0..seats.len().min(amounts.len()) {
        counter.add(&mut seats[index], amounts[index]);
    }
}

/// An estimate by the first seat, if there is one.
fn estimated(counter: &Counter, seats: &mut [CountSeat]) -> Option<u64>
    requires { AreOwn counter.now seats.old }
    ensures { AreOwn counter.now seats.new }
{
    if seats.is_empty() {
        return None;
    }
    Some(counter.estimate(&mut seats[0]))
}

/// The sum. Without its last seat the counter isn't closed, and comes back with the others.
fn closed<R: Abort>(rt: &R, counter: Counter, seats: Vec<CountSeat>) -> Option<u64>
    requires { AreOwn counter seats.items }
{
    let mut seats = seats;
    let Some(last) = seats.pop() else {
        panic!(rt; "there is a seat")
    };
    let Err(NotAll { whole, mut seats }) = counter.close(seats) else {
        panic!(rt; "a seat is missing")
    };
    seats.push(last).expect(rt, "memory");
    whole.close(seats).ok()
}

/// A counter with its seats, also where one request for memory is refused.
fn made<R: Abort>(rt: &R, alloc: Global, stripes: usize, seats: usize) -> (Counter, Vec<CountSeat>)
    ensures { AreOwn result.0 result.1.items }
{
    assert!(rt; 1 <= stripes && stripes <= MAX_STRIPES);
    assert!(rt; 1 <= seats && seats <= MAX_SEATS);
    for _attempt in 0..2 {
        if let Ok(made) = Counter::new(alloc, stripes, seats) {
            return made;
        }
    }
    panic!(rt; "there is memory")
}

/// What the last of eight seats takes off again.
const LATE: [i64; 8] = [0, 0, 0, 0, 0, 0, 0, -30];

/// Stripes, seats, and what each seat adds first and then. The sum is modulo 2^64.
type Row = (usize, usize, &'static [i64], &'static [i64], u64);

/// The rows counter_of_three, counter_below_zero and eight_stripes, extreme amounts, and an estimate.
const SUMS: [Row; 5] = [
    (2, 3, &[5, -2, 1], &[], 4),
    (1, 1, &[-1], &[], u64::MAX),
    (3, 8, &[0, 1, 2, 3, 4, 5, 6, 7], &LATE, u64::MAX - 1),
    (2, 2, &[i64::MAX, i64::MIN], &[], u64::MAX),
    (3, 4, &[7, -2, 10, 1], &[], 16),
];

/// Each seat adds the amount at its index, once or twice.
fn sums_to<R: Abort>(rt: &R, alloc: Global, row: &Row) {
    let (stripes, seats, first, second, sum) = *row;
    let (counter, mut seats) = made(rt, alloc, stripes, seats);
    add_each(&counter, &mut seats, first);
    add_each(&counter, &mut seats, second);
    assert!(rt; estimated(&counter, &mut seats) == Some(sum));
    assert!(rt; closed(rt, counter, seats) == Some(sum));
}

#[test]
fn sums(rt: HostRuntime) {
    for row in &SUMS {
        sums_to(&rt, rt.alloc(), row);
    }
}

/// Adds an amount many times.
fn add_often(counter: &Counter, seat: &mut CountSeat, amount: i64)
    requires { IsOwn counter.now seat.old }
    ensures { IsOwn counter.now seat.new }
{
    for _ in 0..10_000u64 {
        counter.add(seat, amount);
    }
}

/// All seats add at the same time, each from a thread of its own.
#[test]
fn eight_threads(rt: HostRuntime) {
    for stripes in 1..9 {
        let (counter, mut seats) = made(&rt, rt.alloc(), stripes, 8);
        let on = &counter;
        thread::for_each_mut(
            &rt,
            seats.as_mut_slice(),
            8,
            &|_, seat: &mut CountSeat|
                requires { IsOwn on.now seat.now }
                ensures { IsOwn on.entry.now seat.exit.now }
            { add_often(on, seat, 3) },
        );
        assert!(rt; counter.close(seats).ok() == Some(240_000));
    }
}

/// With each of the three requests for memory refused in turn (`rt try --test --fail-alloc N --
/// refused_memory`).
#[test]
fn refused_memory(rt: HostRuntime) {
    let (counter, seats) = made(&rt, rt.alloc(), 8, 8);
    assert!(rt; counter.close(seats).ok() == Some(0));
}
