//! Rows of calls by a handle of a typed map; and what a handle with all seats does for the whole
//! map.
ghost use Rattle.std.specs.Prelude.{All, ◌≡◌};
ghost use Rattle.nb_long.specs.Handles.{IsSameMap};
ghost use Rattle.nb_long.specs.Typed.{LongMapOf};

use super::super::plain::{Sizes, key, shape};
use super::by_handles::Call::*;
use super::updating::{is_updated, nothing, one_more};
use nb_core::{Key, Num, Shape};
use nb_long::{Handle, LongFault, RenewFault, RenewStoreFault, SettleFault, Stored};
use std::alloc::Global;
use std::process::Abort;
use std::sync::Wait;

/// A call at a key, and what it comes to.
#[derive(Clone, Copy)]
pub(super) enum Call {
    /// This value is put.
    Put(u64, u64),
    /// No value can be put, since the map is full.
    Refuse(u64),
    /// This value is put if the key is absent. Whether it was.
    PutIfAbsent(u64, u64, bool),
    /// This value is put if the key is there. Whether it was.
    Replace(u64, u64, bool),
    /// The second value is put if the key has the first one. Whether it had.
    ReplaceIf(u64, u64, u64, bool),
    /// The same, by `replace_if_told`, of a key that is there.
    ReplaceIfTold(u64, u64, u64, bool),
    /// A function makes one more of the key's value, where it is to grow, and else none. Whether it
    /// had one.
    Update(u64, bool, bool),
    /// The key is taken out. Whether it was there.
    Remove(u64, bool),
    /// It is taken out if it has this value. Whether it had.
    RemoveIf(u64, u64, bool),
    /// The same, by `take_if`.
    TakeIf(u64, u64, bool),
    /// It has this value, or none.
    Value(u64, Option<u64>),
    /// In the first table so many slots are taken, of so many that were looked at.
    Occupancy(u32, u32),
    /// The map has so many seats.
    Seats(usize),
    /// Its seats settle, and it has so many keys.
    Settle(Result<u64, SettleFault>),
    /// These keys are listed, in whatever order, with the numbers of these values.
    List(Result<&'static [(u64, u64)], SettleFault>),
    /// It is made anew in this shape, and the handle has so many seats then.
    Renew(Sizes, Result<(), RenewFault>, usize),
    /// The same with a new store, to which so many values are carried.
    RenewStore(Sizes, Result<usize, RenewStoreFault>),
    /// A seat is split off and lost.
    Without,
}

/// Whether a write came to this; to none, where the map is full. Where memory was refused, the
/// value comes back.
fn is_written<R: Abort>(
    rt: &R,
    end: Result<Stored<u64>, LongFault<u64>>,
    new: u64,
    due: Option<bool>,
) -> bool {
    match end {
        Ok(stored) => due == Some(stored.done),
        Err(LongFault::Full(_)) => due.is_none(),
        Err(LongFault::OutOfMemory(value)) => {
            assert!(rt; value == new);
            false
        }
        Err(_) => false,
    }
}

/// Makes a write, and answers whether it comes to what the row says.
fn writes<R: Wait + Abort>(rt: &R, handle: &mut Handle<u64>, call: Call) -> bool {
    match call {
        Put(k, new) => is_written(rt, handle.put(rt, key(rt, k), new), new, Some(true)),
        Refuse(k) => is_written(rt, handle.put(rt, key(rt, k), 0), 0, None),
        PutIfAbsent(k, new, done) => {
            let end = handle.put_if_absent(rt, key(rt, k), new);
            is_written(rt, end, new, Some(done))
        }
        Replace(k, new, done) => {
            is_written(rt, handle.replace(rt, key(rt, k), new), new, Some(done))
        }
        ReplaceIf(k, old, new, done) => {
            let end = handle.replace_if(rt, key(rt, k), &old, new);
            is_written(rt, end, new, Some(done))
        }
        ReplaceIfTold(k, old, new, done) => {
            match handle.replace_if_told(rt, key(rt, k), &old, new) {
                Ok(replaced) => replaced.stored.done == done && replaced.found.is_some(),
                Err(_) => false,
            }
        }
        Update(k, true, was) => is_updated(rt, handle.update(rt, key(rt, k), one_more), was, true),
        Update(k, false, was) => is_updated(rt, handle.update(rt, key(rt, k), nothing), was, false),
        _ => false,
    }
}

/// The same of any call.
fn makes<R: Wait + Abort>(rt: &R, alloc: Global, handle: &mut Handle<u64>, call: Call) -> bool {
    match call {
        Remove(k, done) => handle.remove(rt, key(rt, k)).is_some() == done,
        RemoveIf(k, old, done) => handle.remove_if(rt, key(rt, k), &old) == Ok(done),
        TakeIf(k, old, done) => {
            match handle.take_if(rt, key(rt, k), &old) {
                Ok(compared) => compared.done == done,
                Err(_) => false,
            }
        }
        Value(k, value) => value_at(rt, handle, key(rt, k)) == value,
        Occupancy(taken, looked) => {
            let seen = handle.occupancy();
            seen.taken == taken && seen.looked == looked
        }
        Seats(seats) => handle.shape().seats() == seats,
        Settle(size) => handle.settle(alloc) == size,
        List(values) => match (handle.entries(alloc), values) {
            (Ok(entries), Ok(values)) => are_just(rt, handle, entries.as_slice(), values),
            (Err(fault), Err(due)) => fault == due,
            _ => false,
        },
        Renew(sizes, end, count) => {
            handle.renew(alloc, shape(rt, sizes)) == end && handle.seats() == count
        }
        RenewStore(sizes, carried) => {
            match handle.renew_store(rt, alloc, shape(rt, sizes)) {
                Ok(renewed) => carried == Ok(renewed.carried.len()),
                Err(fault) => carried == Err(fault),
            }
        }
        Without => handle.split().is_ok(),
        _ => writes(rt, handle, call),
    }
}

/// The value under a number.
pub(super) fn shown<R: Abort>(rt: &R, handle: &Handle<u64>, number: Num) -> u64 {
    *handle.show(number).expect(rt, "the value is shown").value()
}

/// Whether these are the keys, each with the number of its value.
pub(super) fn are_just<R: Abort>(
    rt: &R,
    handle: &Handle<u64>,
    entries: &[(Key, Num)],
    values: &[(u64, u64)],
) -> bool {
    for (key, number) in entries {
        if !values.contains(&(key.get(), shown(rt, handle, *number))) {
            return false;
        }
    }
    entries.len() == values.len()
}

/// The value at a key.
pub(super) fn value_at<R: Abort>(rt: &R, handle: &mut Handle<u64>, key: Key) -> Option<u64>
    ensures { IsSameMap handle.old handle.new }
{
    let number = handle.number_at(key)?;
    Some(shown(rt, handle, number))
}

/// Makes these calls, and each of them again where it came to something else, if it is to: memory
/// was refused then.
pub(super) fn sees<R: Wait + Abort>(
    rt: &R,
    alloc: Global,
    handle: &mut Handle<u64>,
    calls: &[Call],
    again: bool,
) {
    for i in 0..calls.len() {
        let is_made = makes(rt, alloc, handle, calls[i]);
        assert!(rt;
            is_made || (again && makes(rt, alloc, handle, calls[i])),
            "call {i}"
        );
    }
}

/// The handle of an empty map of this shape.
pub(super) fn opened<R: Abort>(rt: &R, alloc: Global, shape: Shape) -> Handle<u64> {
    for _attempt in 0..2 {
        if let Ok(handle) = Handle::open(alloc, shape) {
            return handle;
        }
    }
    panic!(rt; "there is memory")
}

/// Two handles of a map with two seats.
pub(super) fn two<R: Abort>(rt: &R, handle: Handle<u64>) -> (Handle<u64>, Handle<u64>)
    ensures { result.0.map ≡ result.1.map }
{
    let mut mine = handle;
    let theirs = mine.split().expect(rt, "there are two seats");
    (mine, theirs)
}

/// A handle for each seat. Where memory is refused, the handle comes back.
pub(super) fn apart<R: Abort>(rt: &R, alloc: Global, handle: Handle<u64>) -> Vec<Handle<u64>>
    ensures { (m : LongMapOf) × All (λ handle. handle.map ≡ m) result.items }
{
    match handle.split_all(alloc) {
        Ok(handles) => handles,
        Err(back) => match back.split_all(alloc) {
            Ok(handles) => handles,
            Err(_) => panic!(rt; "there is memory"),
        },
    }
}

/// All seats of these handles in one.
pub(super) fn together<R: Abort>(rt: &R, handles: Vec<Handle<u64>>) -> Handle<u64>
    requires { (m : LongMapOf) × All (λ handle. handle.map ≡ m) handles.items }
{
    let mut handles = handles;
    let mut whole = handles.pop().expect(rt, "a handle");
    assert!(rt; whole.join_all(handles).is_ok());
    whole
}

/// Closes a map, all of whose seats this handle has. So many keys are left.
pub(super) fn closes<R: Wait + Abort>(rt: &R, handle: Handle<u64>, size: u64) {
    match handle.close(rt) {
        Ok((ended, _store)) => assert!(rt; ended.size() == size),
        Err(_) => panic!(rt; "all seats are here"),
    }
}
