//! Two threads that share a typed map by its seats, and the receipts of what they put.
ghost use Rattle.std.specs.Prelude.{◌≡◌};
ghost use Rattle.boxcar.specs.Table.{Shows};
ghost use Rattle.nb_map.specs.Maps.{IsMine};

use super::super::plain::key;
use super::values::{found, given_back, left_by, made, taken};
use nb_core::NotAll;
use nb_long::{LongMap, Receipt, Store, Stored};
use nb_map::Seat;
use std::alloc::Global;
use std::process::Abort;
use std::sync::Wait;
use std::thread;
use std::thread::Threads;

/// Puts the thread's number at key 1 if it is absent, and hands the seat back with what came of it.
fn puts_first<R: Wait + Abort>(
    rt: &R,
    map: &LongMap<u64>,
    seat: Seat,
    thread: u64,
) -> (Seat, Stored<u64>)
    requires { IsMine map.now.map seat }
    ensures own { IsMine map.now.map result.0 }
    ensures shown { Shows map.now.store result.1.receipt }
{
    let mut seat = seat;
    match map.put_if_absent(rt, &mut seat, key(rt, 1), thread) {
        Ok(stored) => (seat, stored),
        Err(_) => panic!(rt; "there is room"),
    }
}

/// Two threads at once put their numbers at key 1.
fn two_put<R: Threads + Sync + Wait + Abort>(
    rt: &R,
    map: &LongMap<u64>,
    a: Seat,
    b: Seat,
) -> ((Seat, Stored<u64>), (Seat, Stored<u64>))
    requires a { IsMine map.now.map a }
    requires b { IsMine map.now.map b }
    ensures own { IsMine map.now.map result.0.0 × IsMine map.now.map result.1.0 }
    ensures shown { Shows map.now.store result.0.1.receipt
        × Shows map.now.store result.1.1.receipt }
{
    thread::join(
        rt,
        move || -> (Seat, Stored<u64>)
            requires { IsMine map.now.map a }
            ensures { IsMine map.entry.now.map result.0
                × Shows map.entry.now.store result.1.receipt }
        { puts_first(rt, map, a, 10) },
        move || -> (Seat, Stored<u64>)
            requires { IsMine map.now.map b }
            ensures { IsMine map.entry.now.map result.0
                × Shows map.entry.now.store result.1.receipt }
        { puts_first(rt, map, b, 20) },
    )
}

/// What key 1 shows is the value of the thread that was first, by its receipt too, and not by the
/// other's.
fn shows_first<R: Abort>(
    rt: &R,
    map: &LongMap<u64>,
    seat: &mut Seat,
    first: &Receipt<u64>,
    second: &Receipt<u64>,
)
    requires own { IsMine map.now.map seat.old }
    requires first { Shows map.now.store first.now }
    requires second { Shows map.now.store second.now }
    ensures own { IsMine map.now.map seat.new }
{
    let Some(found) = found(rt, map, seat, 1) else {
        panic!(rt; "the key is there")
    };
    assert!(rt; *found.value() == *map.store().value(first));
    assert!(rt; map.store().agree(first, &found));
    assert!(rt; !map.store().agree(second, &found));
}

/// One of the threads was first. Both seats see what it put.
fn one_is_first<R: Abort>(
    rt: &R,
    map: &LongMap<u64>,
    a: &mut Seat,
    b: &mut Seat,
    told: &Stored<u64>,
    told_too: &Stored<u64>,
)
    requires a { IsMine map.now.map a.old }
    requires b { IsMine map.now.map b.old }
    requires told { Shows map.now.store told.now.receipt }
    requires told_too { Shows map.now.store told_too.now.receipt }
    ensures a { IsMine map.now.map a.new }
    ensures b { IsMine map.now.map b.new }
{
    assert!(rt; told.done != told_too.done);
    map.meet(a, b);
    let (first, second) = if told.done {
        (&told.receipt, &told_too.receipt)
    } else {
        (&told_too.receipt, &told.receipt)
    };
    shows_first(rt, map, a, first, second);
    shows_first(rt, map, b, first, second);
}

/// With one of its two seats a map doesn't end, but comes back with it. With both it does, and its
/// store is left.
fn ends<R: Abort>(rt: &R, alloc: Global, map: LongMap<u64>, a: Seat, b: Seat) -> Store<u64>
    requires a { IsMine map.map a }
    requires b { IsMine map.map b }
    ensures { result ≡ map.store }
{
    let mut seats = Vec::new(alloc);
    given_back(rt, &map, &mut seats, a);
    let Err(NotAll { whole, seats }) = map.finish(seats) else {
        panic!(rt; "a seat is missing")
    };
    let mut seats = seats;
    given_back(rt, &whole, &mut seats, b);
    left_by(rt, whole, seats, 1)
}

/// Two threads put their numbers at one key, and one of them is first. The store that is left has
/// both values.
fn one_round<R: Threads + Sync + Wait + Abort>(
    rt: &R,
    alloc: Global,
    map: LongMap<u64>,
    a: Seat,
    b: Seat,
)
    requires a { IsMine map.map a }
    requires b { IsMine map.map b }
{
    let ((mut a, told), (mut b, told_too)) = two_put(rt, &map, a, b);
    one_is_first(rt, &map, &mut a, &mut b, &told, &told_too);
    let store = ends(rt, alloc, map, a, b);
    assert!(rt; *store.value(&told.receipt) == 10);
    assert!(rt; *store.value(&told_too.receipt) == 20);
}

/// The rows two_receipts and typed_finish, again and again, each time with a map of its own.
#[test]
fn two_receipts_and_typed_finish(rt: HostRuntime) {
    for _round in 0..200 {
        let (map, mut seats) = made(&rt, rt.alloc(), (2, 1, 2, 1));
        let b = taken(&rt, &map, &mut seats);
        let a = taken(&rt, &map, &mut seats);
        one_round(&rt, rt.alloc(), map, a, b);
    }
}
