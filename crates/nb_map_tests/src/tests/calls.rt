//! The map's calls one after another, with their answers and with what they leave. More rows of
//! them are in `languages/c/tests/rows.c`.
use super::rows::Answer::{Is, Nothing, Replied, Was};
use super::rows::Call::*;
use super::rows::*;
use nb_core::VALUE_MAX;
use nb_map::{
    AddFault, Full, FullAfter, OpenFault, PutFault, RenewFault, SeatMissing, SettleFault,
    SplitFault,
};
use std::alloc::Global;
use std::fmt::Display;
use std::process::Abort;

/// Writes that try again while others come first, and looks, at keys that come and go.
const CALLS_THAT_WAIT: [Row; 28] = [
    (5, Replace(1), Nothing),
    (5, ReplaceIf(1, 2), Is(false)),
    (5, Has, Is(false)),
    (5, PutIfAbsent(1), Nothing),
    (5, PutIfAbsent(2), Was(1)),
    (5, Has, Is(true)),
    (0, Estimate, Was(1)),
    (5, Replace(3), Was(1)),
    (5, ReplaceIf(3, 4), Is(true)),
    (5, RemoveIf(3), Is(false)),
    (5, RemoveIf(4), Is(true)),
    (5, Remove, Nothing),
    (5, Get, Nothing),
    (0, Estimate, Was(0)),
    (1, Add(5), Nothing),
    (1, Add(VALUE_MAX - 5), Was(5)),
    (1, Add(1), PAST),
    (1, Add(0), Was(VALUE_MAX)),
    (2, Add(0), Nothing),
    (6, GetOrInsert(10), Was(10)),
    (6, GetOrInsert(20), Was(10)),
    (7, Put(1), Nothing),
    (7, Put(2), Was(1)),
    (7, Remove, Was(2)),
    (8, PutAndAdd(10), Was(10)),
    (8, PutAndAdd(VALUE_MAX), PAST),
    (8, Remove, Was(VALUE_MAX)),
    (0, Generation, Was(1)),
];

/// Writes of a number of tries, where no tries count as one: no other thread comes first here.
/// Updates put, replace and remove.
const CALLS_THAT_TRY: [Row; 31] = [
    (5, TryPutIfAbsent(1), Nothing),
    (5, TryPutIfAbsent(2), Was(1)),
    (5, TryPut(3), Was(1)),
    (5, TryAdd(4, 1), Was(3)),
    (5, TryAdd(1, 0), Was(7)),
    (5, GetOr(9), Was(8)),
    (5, TryRemove, Was(8)),
    (5, TryRemove, Nothing),
    (5, GetOr(9), Was(9)),
    (5, Exchange(None, None), Replied(None, true)),
    (5, Exchange(Some(1), Some(2)), Replied(None, false)),
    (5, Exchange(None, Some(1)), Replied(None, true)),
    (5, Exchange(Some(1), Some(2)), Replied(Some(1), true)),
    (5, Exchange(Some(2), None), Replied(Some(2), true)),
    (1, Max(5, 1), Nothing),
    (1, Max(7, 0), Was(5)),
    (1, Max(5, 1), Was(7)),
    (2, Min(7, 1), Nothing),
    (2, Min(5, 0), Was(7)),
    (2, Min(7, 1), Was(5)),
    (3, OneMore(1), Nothing),
    (3, OneMore(0), Was(1)),
    (3, Put(VALUE_MAX), Was(2)),
    (3, OneMore(2), Was(VALUE_MAX)),
    (4, PutAtAbsent(5), Replied(None, true)),
    (4, PutAtAbsent(6), Replied(Some(5), false)),
    (4, PutAtPresent(7), Replied(Some(5), true)),
    (4, AddAtAny(3), Replied(Some(7), true)),
    (4, AddAtAny(VALUE_MAX), PAST),
    (4, RemoveEqual(7), Replied(Some(10), false)),
    (4, RemoveEqual(10), Replied(Some(10), true)),
];

/// Writes below a limit: an absent key is below any, and a number below a greater one alone. What
/// isn't below stays as it is, also where the sum would be past the greatest number.
const BELOW_A_LIMIT: [Row; 19] = [
    (5, TryPutBelow(1, 0), Nothing),
    (5, TryPutBelow(6, 0), Was(1)),
    (5, TryPutBelow(6, 1), Was(1)),
    (5, TryPutBelow(7, 2), Was(1)),
    (5, TryAddBelow(2, 7), Was(7)),
    (5, TryAddBelow(2, 8), Was(7)),
    (5, TryAddBelow(VALUE_MAX, 9), Was(9)),
    (5, TryAddBelow(VALUE_MAX, 10), PAST),
    (5, TryRemoveBelow(9), Was(9)),
    (0, Estimate, Was(1)),
    (5, TryRemoveBelow(10), Was(9)),
    (5, TryRemoveBelow(10), Nothing),
    (0, Estimate, Was(0)),
    (5, TryAddBelow(3, 0), Nothing),
    (5, PutBelow(4, 3), Replied(Some(3), false)),
    (5, PutBelow(4, VALUE_MAX), Replied(Some(3), true)),
    (5, TryPutBelow(VALUE_MAX, VALUE_MAX), Was(4)),
    (5, TryPutBelow(0, VALUE_MAX), Was(VALUE_MAX)),
    (6, TryPutBelow(1, 1), Nothing),
];

/// A number is put only at a key that never had one: what was removed doesn't come back. A full table
/// has no slot for another key.
const NEW_KEYS: [Row; 14] = [
    (0, PutIfNew(1), Nothing),
    (0, PutIfNew(2), Was(1)),
    (0, Remove, Was(1)),
    (0, PutIfNew(3), Is(false)),
    (0, Get, Nothing),
    (0, Put(4), Nothing),
    (0, PutIfNew(5), Was(4)),
    (4, PutIfNew(6), Nothing),
    (0, Estimate, Was(2)),
    (1, Remove, Nothing),
    (1, PutIfNew(7), Nothing),
    (8, PutIfNew(8), Nothing),
    (3, PutIfNew(9), FULL),
    (8, PutIfNew(9), Was(8)),
];

/// A full table has no slot for another key, also where a key was removed, whose slot stays its
/// own. A write that has nothing to replace isn't refused.
const FULL_TABLE: [Row; 33] = [
    (0, Put(10), Nothing),
    (1, Put(11), Nothing),
    (2, Put(12), Nothing),
    (3, Put(13), Nothing),
    (4, Put(1), FULL),
    (4, PutIfAbsent(1), FULL),
    (4, Add(1), FULL),
    (4, PutAndAdd(1), FULL),
    (4, GetOrInsert(1), FULL),
    (4, TryPut(1), FULL),
    (4, TryPutIfAbsent(1), FULL),
    (4, TryAdd(1, 1), FULL),
    (4, TryPutBelow(1, 9), FULL),
    (4, TryAddBelow(1, 9), FULL),
    (4, Exchange(None, Some(1)), FULL),
    (4, OneMore(1), FULL),
    (4, Max(1, 1), FULL),
    (4, Min(1, 1), FULL),
    (4, PutAtAbsent(1), FULL),
    (4, PutAtPresent(1), Replied(None, false)),
    (4, Replace(1), Nothing),
    (4, Remove, Nothing),
    (4, TryRemove, Nothing),
    (4, TryRemoveBelow(9), Nothing),
    (0, TryPutBelow(9, 10), Was(10)),
    (1, TryAddBelow(9, 11), Was(11)),
    (3, TryRemoveBelow(13), Was(13)),
    (0, PutIfAbsent(9), Was(10)),
    (0, ReplaceIf(10, 9), Is(true)),
    (0, TryAdd(VALUE_MAX, 1), PAST),
    (2, Remove, Was(12)),
    (4, Put(1), FULL),
    (2, Put(30), Nothing),
];

/// Each entry is shown once. What the function refuses goes, and the rest stays. At last nothing is
/// left. The keys need both tables of a map of two.
const ALL_ENTRIES: [Row; 9] = [
    (0, Extend(&SPREAD, Ok(())), Is(true)),
    (0, Sums(17, 170), Is(true)),
    (0, Retain, Is(true)),
    (0, Sums(7, 70), Is(true)),
    (0, Estimate, Was(2)),
    (0, List(&[(2, 20), (5, 50)]), Is(true)),
    (0, Clear, Is(true)),
    (0, Clear, Is(true)),
    (0, List(&[]), Is(true)),
];

const SPREAD: [(u64, u64); 4] = [(1, 10), (2, 20), (5, 50), (9, 90)];

/// Entries are put in their order: the last one of a key stays. Where one is refused, those before
/// it are put, and none after it.
const EXTENDED: [Row; 5] = [
    (0, Extend(&[(1, 10), (2, 20), (1, 11)], Ok(())), Is(true)),
    (0, Extend(&[], Ok(())), Is(true)),
    (0, Put(0), Nothing),
    (1, Get, Was(11)),
    (0, Extend(&FIVE, Err(FullAfter { put: 3 })), Is(true)),
];

const FIVE: [(u64, u64); 5] = [(1, 10), (2, 21), (3, 30), (4, 40), (1, 11)];

/// Many keys have what each of them has alone: absent keys and repeated ones, in all tables.
const MANY: [Row; 2] = [
    (
        0,
        GetMany(
            &[9, 3, 2, 9, 13],
            &[Some(90), None, Some(20), Some(90), None],
        ),
        Is(true),
    ),
    (0, GetMany(&[], &[]), Is(true)),
];

/// Of two entries of a key the later one stays.
const KEY_TWICE: [(u64, u64); 5] = [(0, 1), (1, 2), (2, 3), (3, 4), (0, 5)];

/// Each call by a handle. `Percent` tells what part of the slots is taken; more looks at how full a
/// map is are in `languages/c/tests/rows.c`.
const STORIES: [Story; 10] = [
    (
        (2, 2, 1, 1),
        &[],
        &CALLS_THAT_WAIT,
        &[(1, VALUE_MAX), (2, 0), (6, 10)],
    ),
    ((2, 2, 1, 1), &[], &CALLS_THAT_TRY, &[(1, 7), (2, 5)]),
    ((2, 2, 1, 1), &[], &BELOW_A_LIMIT, &[(5, VALUE_MAX), (6, 1)]),
    (
        (2, 1, 1, 1),
        &[],
        &NEW_KEYS,
        &[(0, 4), (1, 7), (4, 6), (8, 8)],
    ),
    (
        (2, 1, 1, 1),
        &[],
        &FULL_TABLE,
        &[(0, 9), (1, 11), (2, 30), (3, 13)],
    ),
    ((2, 2, 1, 1), &[], &ALL_ENTRIES, &[]),
    (
        (2, 1, 1, 1),
        &[],
        &EXTENDED,
        &[(0, 0), (1, 10), (2, 21), (3, 30)],
    ),
    ((2, 2, 1, 1), &SPREAD, &MANY, &SPREAD),
    (
        (2, 1, 3, 1),
        &KEY_TWICE,
        &[(0, Get, Was(5))],
        &[(0, 5), (1, 2), (2, 3), (3, 4)],
    ),
    (
        (2, 1, 3, 1),
        &[],
        &[(1, Add(10), Nothing), (0, Percent(25), Is(true))],
        &[(1, 10)],
    ),
];

#[test]
fn calls_by_a_handle(rt: HostRuntime) {
    for story in &STORIES {
        plays(&rt, rt.alloc(), story);
    }
}

/// Each of these says its line of the text.
fn said<F: Display, R: Abort>(rt: &R, alloc: Global, faults: &[F], text: &str) {
    let mut said = String::new(alloc);
    for fault in faults {
        writeln!(said, "{fault}").expect(rt, "memory");
    }
    assert!(rt; said.as_str() == text, "{text}");
}

/// What the faults of calls, of a whole map, and of its seats say.
#[test]
fn fault_texts(rt: HostRuntime) {
    let (full, missing) = ("the map is full\n", "a seat is missing\nout of memory\n");
    said(&rt, rt.alloc(), &[Full], full);
    let after = [FullAfter { put: 7 }];
    said(
        &rt,
        rt.alloc(),
        &after,
        "the map is full after 7 of the entries\n",
    );
    let adds = [AddFault::Full, AddFault::ValueRange];
    said(&rt, rt.alloc(), &adds, "the map is full\nvalue too large\n");
    let puts = [PutFault::Full, PutFault::Contended, PutFault::ValueRange];
    let text = "the map is full\nother writes of the key came first\nvalue too large\n";
    said(&rt, rt.alloc(), &puts, text);
    let splits = [SplitFault::NoSeat, SplitFault::OutOfMemory];
    said(&rt, rt.alloc(), &splits, "no seat is left\nout of memory\n");
    let settles = [SettleFault::NotAll, SettleFault::OutOfMemory];
    said(&rt, rt.alloc(), &settles, missing);
    said(&rt, rt.alloc(), &[SeatMissing], "a seat is missing\n");
    let opens = [OpenFault::Full, OpenFault::OutOfMemory];
    said(&rt, rt.alloc(), &opens, "the map is full\nout of memory\n");
    let renews = [
        RenewFault::Full,
        RenewFault::NotAll,
        RenewFault::OutOfMemory,
    ];
    let text = "the new map is full\na seat is missing\nout of memory\n";
    said(&rt, rt.alloc(), &renews, text);
}
