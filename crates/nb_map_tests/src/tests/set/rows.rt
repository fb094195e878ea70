//! Rows of calls, with what they come to. One table serves a handle and a seat.
use super::super::plain::{Sizes, key};
use nb_core::Key;
use nb_set::{FullAfter, RenewFault, SettleFault};
use std::process::Abort;

/// A call, and what it comes to.
#[derive(Clone, Copy)]
pub(super) enum Call {
    /// This key is added. Whether it comes; none where the set is full.
    Add(u64, Option<bool>),
    /// This key is removed. Whether it goes.
    Remove(u64, bool),
    /// This key is looked for. Whether it is there.
    Contains(u64, bool),
    /// These keys are added, all or so many of them, since the set is full.
    Extend(&'static [u64], Result<(), FullAfter>),
    /// Of all keys those from 2 to 5 stay.
    Retain,
    /// No key stays.
    Clear,
    /// All keys are gone through, whose sum and number these are.
    ForEach(u64, u64),
    /// The set has about so many keys.
    Size(u64),
    /// It has grown so often.
    Generation(u32),
    /// In the top table, which has this number, so many slots are taken of so many that were looked
    /// at.
    Occupancy(u32, u32, u32),
    /// It has so many seats.
    Seats(usize),
    /// By a handle: its seats settle, and the set has so many keys.
    Settle(Result<u64, SettleFault>),
    /// By a handle: these keys are listed, in whatever order.
    List(Result<&'static [u64], SettleFault>),
    /// By a handle: the set is made anew in this shape, and the handle has so many seats then.
    Renew(Sizes, Result<(), RenewFault>, usize),
    /// By a handle: a seat is split off and lost.
    Without,
}

/// A key comes and goes.
pub(super) const SET_OF_KEYS: [Call; 7] = [
    Call::Add(3, Some(true)),
    Call::Add(3, Some(false)),
    Call::Contains(3, true),
    Call::Remove(3, true),
    Call::Remove(3, false),
    Call::Contains(3, false),
    Call::Add(3, Some(true)),
];

/// Other keys have all slots of the only table, also that of a key that was removed. A key that is
/// there, or was, isn't refused.
pub(super) const REFUSALS_WHEN_FULL: [Call; 12] = [
    Call::Add(9, Some(true)),
    Call::Add(1, Some(true)),
    Call::Add(2, Some(true)),
    Call::Add(3, Some(true)),
    Call::Add(5, None),
    Call::Add(9, Some(false)),
    Call::Remove(2, true),
    Call::Add(5, None),
    Call::Remove(5, false),
    Call::Contains(5, false),
    Call::Add(2, Some(true)),
    Call::Remove(1, true),
];

/// Calls over many keys at once, in a set that has one table of four slots. Where a key is refused,
/// those before it are added, and none after it.
pub(super) const OVER_MANY_KEYS: [Call; 20] = [
    Call::Extend(&[1, 2, 5, 9], Ok(())),
    Call::Extend(&[], Ok(())),
    Call::ForEach(17, 4),
    Call::Retain,
    Call::Size(2),
    Call::Contains(1, false),
    Call::Contains(2, true),
    Call::Contains(5, true),
    Call::Contains(9, false),
    Call::Clear,
    Call::Clear,
    Call::Size(0),
    Call::Contains(2, false),
    Call::Contains(5, false),
    Call::Extend(&[1, 2], Ok(())),
    Call::Extend(&[2, 5, 9, 7, 1], Err(FullAfter { put: 3 })),
    Call::Contains(7, false),
    Call::Size(4),
    Call::Occupancy(0, 4, 4),
    Call::Seats(1),
];

/// Whether `Call::Retain` lets a key stay.
pub(super) fn stays(key: Key) -> bool {
    key.get() > 1 && key.get() < 6
}

/// These keys, and behind them the key 0; eight at most.
pub(super) fn keys<R: Abort>(rt: &R, numbers: &[u64]) -> [Key; 8] {
    let mut keys = [Key::from(0_u32); 8];
    for (place, number) in keys.iter_mut().zip(numbers) {
        *place = key(rt, *number);
    }
    keys
}

/// Whether these are the keys, in whatever order.
pub(super) fn are_just(keys: &[Key], numbers: &[u64]) -> bool {
    for key in keys {
        if !numbers.contains(&key.get()) {
            return false;
        }
    }
    keys.len() == numbers.len()
}
