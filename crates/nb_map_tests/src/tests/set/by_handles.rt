//! Rows of calls by a handle; and what a handle with all seats does for the whole set.
ghost use Rattle.std.specs.Prelude.{All, ◌≡◌};
ghost use Rattle.nb_set.specs.Sets.{SetOf};

use super::super::plain::{Sizes, key, shape};
use super::rows::Call::*;
use super::rows::{Call, OVER_MANY_KEYS, REFUSALS_WHEN_FULL, SET_OF_KEYS, are_just, keys, stays};
use nb_core::Shape;
use nb_set::{Handle, OpenFault, RenewFault, SetEnded, SettleFault};
use std::alloc::Global;
use std::process::Abort;
use std::sync::Wait;

/// Makes a call, and answers whether it comes to what the row says.
fn makes<R: Wait + Abort>(rt: &R, alloc: Global, handle: &mut Handle, call: Call) -> bool {
    match call {
        Add(k, came) => handle.add(rt, key(rt, k)).ok() == came,
        Remove(k, went) => handle.remove(rt, key(rt, k)) == went,
        Contains(k, is) => handle.contains(key(rt, k)) == is,
        Extend(numbers, put) => {
            let keys = keys(rt, numbers);
            handle.extend(rt, &keys[..numbers.len().min(8)]) == put
        }
        Retain => {
            handle.retain(rt, stays);
            true
        }
        Clear => {
            handle.clear(rt);
            true
        }
        _ => looks(rt, alloc, handle, call),
    }
}

/// The same of a call that looks at the whole set, or makes it anew.
fn looks<R: Abort>(rt: &R, alloc: Global, handle: &mut Handle, call: Call) -> bool {
    match call {
        ForEach(sum, count) => shown(handle) == (sum, count),
        Size(size) => handle.size_estimate() == size,
        Generation(tables) => handle.generation() == tables,
        Occupancy(table, taken, looked) => {
            let seen = handle.occupancy();
            (seen.table, seen.taken, seen.looked) == (table, taken, looked)
        }
        Seats(seats) => handle.shape().seats() == seats,
        Settle(size) => handle.settle(alloc) == size,
        List(numbers) => match (handle.keys(alloc), numbers) {
            (Ok(keys), Ok(numbers)) => are_just(keys.as_slice(), numbers),
            (Err(fault), Err(due)) => fault == due,
            _ => false,
        },
        Renew(sizes, end, count) => {
            handle.renew(alloc, shape(rt, sizes)) == end && handle.seats() == count
        }
        Without => handle.split().is_ok(),
        _ => false,
    }
}

/// The sum of all keys, each of which is shown, and how many they are.
fn shown(handle: &mut Handle) -> (u64, u64) {
    let (mut sum, mut count) = (0u64, 0u64);
    handle.for_each(|key| {
        sum = sum.wrapping_add(key.get());
        count = count.wrapping_add(1);
    });
    (sum, count)
}

/// Makes these calls, and each of them again where it came to something else, if it is to: memory
/// was refused then.
pub(super) fn sees<R: Wait + Abort>(
    rt: &R,
    alloc: Global,
    handle: &mut Handle,
    calls: &[Call],
    again: bool,
) {
    for i in 0..calls.len() {
        let is_made = makes(rt, alloc, handle, calls[i]);
        assert!(rt;
            is_made || (again && makes(rt, alloc, handle, calls[i])),
            "call {i}"
        );
    }
}

/// The handle of an empty set of this shape.
pub(super) fn opened<R: Abort>(rt: &R, alloc: Global, shape: Shape) -> Handle {
    for _attempt in 0..2 {
        if let Ok(handle) = Handle::open(alloc, shape) {
            return handle;
        }
    }
    panic!(rt; "there is memory")
}

/// The handle of a set of this shape that has these keys, of which eight may be.
fn opened_with<R: Abort>(rt: &R, alloc: Global, sizes: Sizes, numbers: &[u64]) -> Handle {
    let keys = keys(rt, numbers);
    for _attempt in 0..2 {
        let opened = Handle::open_with(alloc, shape(rt, sizes), &keys[..numbers.len().min(8)]);
        if let Ok(handle) = opened {
            return handle;
        }
    }
    panic!(rt; "there is memory, and room")
}

/// A handle for each seat. Where memory is refused, the handle comes back.
pub(super) fn apart<R: Abort>(rt: &R, alloc: Global, handle: Handle) -> Vec<Handle>
    ensures { (set : SetOf) × All (λ handle. handle.set ≡ set) result.items }
{
    match handle.split_all(alloc) {
        Ok(handles) => handles,
        Err(back) => match back.split_all(alloc) {
            Ok(handles) => handles,
            Err(_) => panic!(rt; "there is memory"),
        },
    }
}

/// All seats of these handles in one.
pub(super) fn together<R: Abort>(rt: &R, handles: Vec<Handle>) -> Handle
    requires { (set : SetOf) × All (λ handle. handle.set ≡ set) handles.items }
{
    let mut handles = handles;
    let mut whole = handles.pop().expect(rt, "a handle");
    assert!(rt; whole.join_all(handles).is_ok());
    whole
}

/// What is left of the set.
pub(super) fn closed<R: Wait + Abort>(rt: &R, handle: Handle) -> SetEnded {
    match handle.close(rt) {
        Ok(ended) => ended,
        Err(_) => panic!(rt; "all seats are here"),
    }
}

/// Sees that just these keys are left, in this order, and not the key 8.
pub(super) fn has_left<R: Abort>(rt: &R, alloc: Global, ended: &SetEnded, numbers: &[u64]) {
    let listed = match ended.entries(alloc) {
        Ok(entries) => Ok(entries),
        Err(_) => ended.entries(alloc),
    };
    let entries = listed.expect(rt, "there is memory");
    assert!(rt; ended.size() == numbers.len() as u64);
    assert!(rt; entries.len() == numbers.len());
    for (entry, k) in entries.iter().zip(numbers) {
        assert!(rt; entry.get() == *k && ended.contains(*entry), "key {k}");
    }
    assert!(rt; !ended.contains(key(rt, 8)));
}

/// A set of this shape that has keys from the start, calls, and the keys that are left.
type Story<'a> = (Sizes, &'a [u64], &'a [Call], bool, &'a [u64]);

fn plays<R: Wait + Abort>(rt: &R, alloc: Global, story: &Story<'_>) {
    let (sizes, numbers, calls, again, left) = *story;
    let mut handle = opened_with(rt, alloc, sizes, numbers);
    sees(rt, alloc, &mut handle, calls, again);
    has_left(rt, alloc, &closed(rt, handle), left);
}

/// A key that comes twice is there once, and each seat knows of all.
const OPENED_WITH_KEYS: [Call; 4] = [
    Contains(1, true),
    Add(2, Some(false)),
    Contains(3, false),
    Seats(3),
];

/// The set grows over a removed key, which has its slot in the first table still.
const GROWING_SET: [Call; 9] = [
    Generation(0),
    Extend(&[0, 4, 8], Ok(())),
    Remove(8, true),
    Occupancy(0, 3, 4),
    Extend(&[12, 16], Ok(())),
    Contains(8, false),
    Size(4),
    Occupancy(1, 4, 8),
    Generation(1),
];

/// All slots of the table are taken, one by a key that is removed again. A new set of another shape
/// has what the old one had, and no slot of a removed key.
const RENEWED_IN_ANOTHER_SHAPE: [Call; 11] = [
    Add(0, Some(true)),
    Add(1, Some(true)),
    Remove(0, true),
    Add(2, Some(true)),
    Add(3, Some(true)),
    Add(4, None),
    Renew((2, 1, 3, 2), Ok(()), 3),
    Contains(0, false),
    Contains(1, true),
    Add(4, Some(true)),
    Add(5, None),
];

/// Where the new shape has too few slots, the old set works on, and can be made anew in another.
const RENEWED_IN_TOO_SMALL_A_SHAPE: [Call; 5] = [
    Renew((2, 1, 3, 1), Err(RenewFault::Full), 2),
    Contains(4, true),
    Remove(4, true),
    Add(5, Some(true)),
    Renew((3, 1, 2, 1), Ok(()), 2),
];

/// A removed key isn't listed, and an empty set has no keys.
const LISTED_AS_THEY_ARE: [Call; 4] = [
    List(Ok(&[])),
    Extend(&[1, 5, 9], Ok(())),
    Remove(5, true),
    List(Ok(&[1, 9])),
];

const STORIES: [Story<'static>; 9] = [
    ((2, 1, 1, 1), &[], &SET_OF_KEYS, false, &[3]),
    ((2, 1, 1, 1), &[], &REFUSALS_WHEN_FULL, false, &[2, 3, 9]),
    ((2, 1, 1, 1), &[], &OVER_MANY_KEYS, false, &[1, 2, 5, 9]),
    ((2, 3, 2, 2), &[], &GROWING_SET, false, &[0, 4, 12, 16]),
    ((2, 2, 3, 1), &[1, 2, 1], &OPENED_WITH_KEYS, false, &[1, 2]),
    (
        (2, 1, 1, 1),
        &[0, 1, 2, 3, 0],
        &[Add(4, None)],
        false,
        &[0, 1, 2, 3],
    ),
    (
        (2, 1, 2, 1),
        &[],
        &RENEWED_IN_ANOTHER_SHAPE,
        false,
        &[1, 2, 3, 4],
    ),
    (
        (3, 1, 2, 1),
        &[0, 1, 2, 3, 4],
        &RENEWED_IN_TOO_SMALL_A_SHAPE,
        false,
        &[0, 1, 2, 3, 5],
    ),
    ((2, 2, 2, 1), &[], &LISTED_AS_THEY_ARE, false, &[1, 9]),
];

/// A handle makes each of its calls.
#[test]
fn calls_by_a_handle(rt: HostRuntime) {
    for story in &STORIES {
        plays(&rt, rt.alloc(), story);
    }
}

/// A table of four slots has no room for five keys. What is left of a set is listed, and another
/// set begins with it.
#[test]
fn opened_with_what_is_left(rt: HostRuntime) {
    let five = keys(&rt, &[0, 1, 2, 3, 4]);
    let refused = Handle::open_with(rt.alloc(), shape(&rt, (2, 1, 1, 1)), &five[..5]);
    assert!(rt; refused.err() == Some(OpenFault::Full));
    let left = closed(&rt, opened_with(&rt, rt.alloc(), (2, 2, 2, 1), &[5, 3]));
    let keys = left.entries(rt.alloc()).expect(&rt, "memory");
    let handle = Handle::open_with(rt.alloc(), shape(&rt, (2, 2, 2, 1)), keys.as_slice());
    let ended = closed(&rt, handle.expect(&rt, "room"));
    has_left(&rt, rt.alloc(), &ended, &[3, 5]);
}

/// A seat is missing: nothing is settled, listed or made anew, and the others work on.
const WITHOUT_A_SEAT: [Call; 7] = [
    Settle(Ok(0)),
    Without,
    Settle(Err(SettleFault::NotAll)),
    List(Err(SettleFault::NotAll)),
    Renew((2, 1, 3, 1), Err(RenewFault::NotAll), 2),
    Add(1, Some(true)),
    Settle(Err(SettleFault::NotAll)),
];

/// It can't close the set either: it comes back, and the set works on.
#[test]
fn without_a_handle(rt: HostRuntime) {
    let mut handle = opened(&rt, rt.alloc(), shape(&rt, (2, 1, 3, 1)));
    sees(&rt, rt.alloc(), &mut handle, &WITHOUT_A_SEAT, false);
    let Err(mut back) = handle.close(&rt) else {
        panic!(rt; "a seat is missing")
    };
    assert!(rt; back.seats() == 2 && !back.is_whole());
    let calls = [Contains(1, true), Add(7, Some(true))];
    sees(&rt, rt.alloc(), &mut back, &calls, false);
}

/// A set that has keys from the start settles, is listed and is made anew, also where one request
/// for memory is refused: then it has lost nothing.
const REFUSED_MEMORY: [Call; 5] = [
    Settle(Ok(2)),
    List(Ok(&[1, 2])),
    Renew((2, 2, 2, 1), Ok(()), 2),
    Contains(1, true),
    Contains(2, true),
];

/// What takes memory is called again where it was refused, and then it has it: so this passes
/// whichever one request is refused.
#[test]
fn refused_memory(rt: HostRuntime) {
    let handle = opened(&rt, rt.alloc(), shape(&rt, (2, 2, 3, 1)));
    let handle = together(&rt, apart(&rt, rt.alloc(), handle));
    has_left(&rt, rt.alloc(), &closed(&rt, handle), &[]);
    let story: Story<'_> = ((2, 2, 2, 1), &[1, 2], &REFUSED_MEMORY, true, &[1, 2]);
    plays(&rt, rt.alloc(), &story);
    super::by_seats::refused_memory(&rt, rt.alloc());
}
