//! What a typed map goes through, step by step, by the handle that has all its seats.

use super::super::plain::{Sizes, key, shape};
use super::by_handles::Call::*;
use super::by_handles::*;
use nb_long::{RenewFault, RenewStoreFault, SettleFault};
use std::alloc::Global;
use std::process::Abort;
use std::sync::Wait;

/// A map of this shape makes these calls, and so many keys are left.
fn plays<R: Wait + Abort>(
    rt: &R,
    alloc: Global,
    sizes: Sizes,
    calls: &[Call],
    again: bool,
    left: u64,
) {
    let mut handle = opened(rt, alloc, shape(rt, sizes));
    sees(rt, alloc, &mut handle, calls, again);
    closes(rt, handle, left);
}

/// All slots of the table are taken, one by a key that is removed again. A new map of another shape
/// has the values that the old one had, and no slot of a removed key.
const RENEWED_IN_ANOTHER_SHAPE: [Call; 14] = [
    Put(0, 10),
    Put(1, 11),
    Remove(0, true),
    Put(1, 12),
    Put(2, 20),
    Put(3, 30),
    Refuse(4),
    Renew((2, 1, 3, 2), Ok(()), 3),
    Value(0, None),
    Value(1, Some(12)),
    Put(4, 40),
    Refuse(5),
    Seats(3),
    List(Ok(&[(1, 12), (2, 20), (3, 30), (4, 40)])),
];

/// Where the new shape has too few slots, the old map works on, and can be made anew in another.
const RENEWED_IN_TOO_SMALL_A_SHAPE: [Call; 13] = [
    Put(0, 0),
    Put(1, 1),
    Put(2, 2),
    Put(3, 3),
    Put(4, 4),
    Renew((2, 1, 3, 1), Err(RenewFault::Full), 2),
    Value(4, Some(4)),
    Remove(4, true),
    Put(5, 5),
    Renew((3, 1, 2, 1), Ok(()), 2),
    Value(0, Some(0)),
    Value(4, None),
    Value(5, Some(5)),
];

/// Each key is listed once, with the number that shows its value.
const LISTED_WITH_THEIR_VALUES: [Call; 6] = [
    List(Ok(&[])),
    Put(1, 10),
    Put(2, 20),
    Put(3, 30),
    Remove(2, true),
    List(Ok(&[(1, 10), (3, 30)])),
];

/// With a new store the slot of a key that was taken out is free, and new values have new numbers.
/// A shape with fewer slots than there are keys is refused, and the map goes on.
const GOES_ON_WITH_A_NEW_STORE: [Call; 16] = [
    Put(1, 10),
    Put(2, 20),
    Put(3, 30),
    Put(1, 11),
    Remove(3, true),
    Put(4, 40),
    Refuse(5),
    RenewStore((2, 1, 1, 1), Ok(3)),
    Put(5, 50),
    Refuse(6),
    Value(5, Some(50)),
    RenewStore((3, 1, 1, 1), Ok(4)),
    Put(6, 60),
    RenewStore((2, 1, 1, 1), Err(RenewStoreFault::Full)),
    Value(5, Some(50)),
    Value(6, Some(60)),
];

#[test]
fn renewed(rt: HostRuntime) {
    let stories: [(Sizes, &[Call], u64); 4] = [
        ((2, 1, 2, 1), &RENEWED_IN_ANOTHER_SHAPE, 4),
        ((3, 1, 2, 1), &RENEWED_IN_TOO_SMALL_A_SHAPE, 5),
        ((2, 2, 2, 1), &LISTED_WITH_THEIR_VALUES, 2),
        ((2, 1, 1, 1), &GOES_ON_WITH_A_NEW_STORE, 5),
    ];
    for (sizes, calls, left) in stories {
        plays(&rt, rt.alloc(), sizes, calls, false, left);
    }
}

/// A seat is missing: nothing is settled, listed or made anew, and the others work on.
const WITHOUT_A_SEAT: [Call; 8] = [
    Settle(Ok(0)),
    Without,
    Settle(Err(SettleFault::NotAll)),
    List(Err(SettleFault::NotAll)),
    Renew((2, 1, 3, 1), Err(RenewFault::NotAll), 2),
    RenewStore((2, 1, 3, 1), Err(RenewStoreFault::NotAll)),
    Put(1, 1),
    Value(1, Some(1)),
];

/// It can't close the map either: it comes back.
#[test]
fn without_a_handle(rt: HostRuntime) {
    let mut handle = opened(&rt, rt.alloc(), shape(&rt, (2, 1, 3, 1)));
    sees(&rt, rt.alloc(), &mut handle, &WITHOUT_A_SEAT, false);
    match handle.close(&rt) {
        Err(back) => assert!(rt; back.seats() == 2 && !back.is_whole()),
        Ok(_) => panic!(&rt; "a seat is missing"),
    }
}

/// The number of a value that was written over shows it still, also where the map was made anew.
#[test]
fn numbers_stay_good(rt: HostRuntime) {
    let mut handle = opened(&rt, rt.alloc(), shape(&rt, (2, 1, 2, 1)));
    sees(&rt, rt.alloc(), &mut handle, &[Put(1, 10)], false);
    let number = handle
        .number_at(key(&rt, 1))
        .expect(&rt, "the key is there");
    let calls = [Put(1, 11), Remove(1, true), Renew((2, 1, 2, 1), Ok(()), 2)];
    sees(&rt, rt.alloc(), &mut handle, &calls, false);
    assert!(rt; shown(&rt, &handle, number) == 10);
}

/// The calls of one handle.
const COMES_FIRST: [Call; 3] = [Seats(2), Value(7, None), PutIfAbsent(7, 5, true)];

/// The calls of another one. A value that isn't the one to compare with stays, an equal one goes,
/// and then there is none to compare.
const COMPARES: [Call; 13] = [
    PutIfAbsent(7, 8, false),
    ReplaceIf(7, 8, 9, false),
    ReplaceIf(7, 5, 6, true),
    ReplaceIfTold(7, 5, 9, false),
    ReplaceIfTold(7, 6, 6, true),
    RemoveIf(7, 5, false),
    TakeIf(7, 5, false),
    Value(7, Some(6)),
    RemoveIf(7, 6, true),
    RemoveIf(7, 6, false),
    Value(7, None),
    Replace(7, 8, false),
    PutIfAbsent(7, 5, true),
];

/// What the first handle finds then. A value comes, is replaced, and goes; and an absent key may
/// stay absent.
const UPDATE_COMPUTES: [Call; 12] = [
    Replace(7, 3, true),
    Remove(7, true),
    Remove(7, false),
    Update(7, true, false),
    Value(7, Some(1)),
    Update(7, true, true),
    Value(7, Some(2)),
    Update(7, false, true),
    Value(7, None),
    Update(7, false, false),
    TakeIf(7, 5, false),
    Occupancy(1, 16),
];

#[test]
fn calls_by_handles(rt: HostRuntime) {
    let (mut mine, mut theirs) = two(&rt, opened(&rt, rt.alloc(), shape(&rt, (4, 4, 2, 1))));
    mine.meet(&mut theirs);
    sees(&rt, rt.alloc(), &mut mine, &COMES_FIRST, false);
    sees(&rt, rt.alloc(), &mut theirs, &COMPARES, false);
    sees(&rt, rt.alloc(), &mut mine, &UPDATE_COMPUTES, false);
}

/// Two keys come, the map settles, is made anew and listed, also where one request for memory is
/// refused: then the old map has lost nothing.
const RENEWED_AGAIN: [Call; 7] = [
    Put(1, 10),
    Put(2, 20),
    Settle(Ok(2)),
    Renew((2, 2, 2, 1), Ok(()), 2),
    List(Ok(&[(1, 10), (2, 20)])),
    Value(1, Some(10)),
    Value(2, Some(20)),
];

/// Each write that takes memory comes first in a map of its own, which has stored nothing yet. It
/// is called again where memory was refused, and then has it: so this passes whichever one request
/// is refused.
#[test]
fn refused_memory(rt: HostRuntime) {
    let handle = opened(&rt, rt.alloc(), shape(&rt, (2, 1, 3, 1)));
    closes(&rt, together(&rt, apart(&rt, rt.alloc(), handle)), 0);
    let stories: [(&[Call], u64); 5] = [
        (&RENEWED_AGAIN, 2),
        (&[PutIfAbsent(1, 77, true)], 1),
        (&[Replace(1, 77, false)], 0),
        (&[ReplaceIf(1, 77, 77, false)], 0),
        (&[Update(1, true, false), Value(1, Some(1))], 1),
    ];
    for (calls, left) in stories {
        plays(&rt, rt.alloc(), (2, 1, 2, 1), calls, true, left);
    }
    super::values::refused_memory(&rt, rt.alloc());
}
