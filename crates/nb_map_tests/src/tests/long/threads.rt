//! Threads that share a typed map by handles.
ghost use Rattle.nb_long.specs.Handles.{IsSameMap};

use super::super::plain::{key, shape};
use super::by_handles::{apart, opened, shown, together, value_at};
use super::updating::one_more;
use nb_core::{Key, Num};
use nb_long::Handle;
use std::alloc::Global;
use std::process::Abort;
use std::sync::Wait;
use std::thread;
use std::thread::Threads;

/// A record of a key: the key, and three digits of a number behind it.
fn record(k: u64, choice: u64) -> u64 {
    k.wrapping_mul(1000).wrapping_add(choice % 1000)
}

/// Makes a write at a key that has a value, as `choice` says, and answers whether it was made.
fn writes_over<R: Wait + Abort>(
    rt: &R,
    handle: &mut Handle<u64>,
    at: Key,
    found: u64,
    new: u64,
    choice: u64,
) -> bool
    ensures { IsSameMap handle.old handle.new }
{
    match choice % 4 {
        0 => handle.put(rt, at, new).is_ok(),
        1 => handle.replace(rt, at, new).is_ok(),
        2 => handle.replace_if(rt, at, &found, new).is_ok(),
        _ => handle.remove_if(rt, at, &found).is_ok(),
    }
}

/// Writes a record of a key, as `choice` says. What is found there is a record of this key.
fn writes_one<R: Wait + Abort>(rt: &R, handle: &mut Handle<u64>, k: u64, choice: u64)
    ensures { IsSameMap handle.old handle.new }
{
    let (at, new) = (key(rt, k), record(k, choice));
    let Some(found) = value_at(rt, handle, at) else {
        assert!(rt; handle.put_if_absent(rt, at, new).is_ok());
        return;
    };
    assert!(rt; found / 1000 == k && writes_over(rt, handle, at, found, new, choice));
}

/// Writes records of four keys, as the thread's own row of numbers chooses them, and counts the
/// writes at another key by updates. Then it puts a record of this round's key, and takes out that
/// of the round before.
fn writes_often<R: Wait + Abort>(rt: &R, handle: &mut Handle<u64>, thread: u64, round: u64)
    ensures { IsSameMap handle.old handle.new }
{
    let mut row = thread;
    for _time in 0..200 {
        row = row
            .wrapping_mul(6_364_136_223_846_793_005)
            .wrapping_add(1_442_695_040_888_963_407);
        writes_one(rt, handle, row >> 62, row >> 20);
        assert!(rt; handle.update(rt, key(rt, 7), one_more).is_ok());
    }
    let own = round.wrapping_add(10);
    assert!(rt; handle.put(rt, key(rt, own), record(own, row)).is_ok());
    let _ = handle.remove(rt, key(rt, round.wrapping_add(9)));
}

/// Each seat does so in a thread of its own.
fn all_write<R: Threads + Sync + Wait + Abort>(
    rt: &R,
    alloc: Global,
    handle: Handle<u64>,
    round: u64,
) -> Handle<u64> {
    let mut handles = apart(rt, alloc, handle);
    thread::for_each_mut(
        rt,
        handles.as_mut_slice(),
        4,
        &|thread: usize, handle: &mut Handle<u64>|
            ensures { IsSameMap handle.entry.now handle.exit.now }
        { writes_often(rt, handle, thread as u64, round) },
    );
    together(rt, handles)
}

/// Each key has a record of its own, and the key 7 the number of all updates: none of them is lost.
fn are_whole<R: Abort>(rt: &R, handle: &Handle<u64>, entries: &[(Key, Num)], updates: u64) {
    let mut counted = 0;
    for (key, number) in entries {
        let value = shown(rt, handle, *number);
        if key.get() == 7 {
            counted = value;
        } else {
            assert!(rt; value / 1000 == key.get());
        }
    }
    assert!(rt; counted == updates);
}

/// Four threads write. Then all entries are listed, the map settles, and is made anew. So it goes
/// again and again, until the map has had ten times as many different keys as its last table has
/// slots.
#[test]
fn cache_of_four_threads(rt: HostRuntime) {
    let mut handle = opened(&rt, rt.alloc(), shape(&rt, (2, 2, 4, 1)));
    for round in 1..81 {
        handle = all_write(&rt, rt.alloc(), handle, round);
        let entries = handle.entries(rt.alloc()).expect(&rt, "all seats are here");
        are_whole(&rt, &handle, entries.as_slice(), 800 * round);
        assert!(rt; handle.settle(rt.alloc()) == Ok(entries.len() as u64));
        assert!(rt; handle.renew(rt.alloc(), shape(&rt, (2, 2, 4, 1))).is_ok());
    }
}
