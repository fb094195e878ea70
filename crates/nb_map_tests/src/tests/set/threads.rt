//! Threads that share a set by handles.
ghost use Rattle.nb_set.specs.Handles.{IsSameSet};

use super::super::plain::{key, shape};
use super::by_handles::{apart, closed, opened, together};
use nb_core::Key;
use nb_set::Handle;
use std::alloc::Global;
use std::process::Abort;
use std::sync::Wait;
use std::sync::atomic::{AtomicU64, Ordering};
use std::thread;
use std::thread::Threads;

/// How many keys all threads add and remove.
const KEYS: usize = 4;

/// How often each of these keys came, less how often it went, modulo 2^64.
type Told = [AtomicU64; KEYS];

/// Adds or removes the common key that this number chooses.
fn churns_one<R: Wait + Abort>(rt: &R, handle: &mut Handle, row: u64, told: &Told)
    ensures { IsSameSet handle.old handle.new }
{
    let i = (row >> 40) as usize % KEYS;
    let key = key(rt, i as u64);
    if row >> 63 == 0 {
        let came = handle.add(rt, key).expect(rt, "room");
        told[i].fetch_add(u64::from(came), Ordering::SeqCst);
    } else {
        let went = handle.remove(rt, key);
        told[i].fetch_sub(u64::from(went), Ordering::SeqCst);
    }
}

/// Sees the key 5, which stays. Adds and removes the common keys as the thread's own row of numbers
/// chooses. Then it adds the key of this round, and removes that of the round before, as all
/// threads do.
fn churns<R: Wait + Abort>(rt: &R, handle: &mut Handle, thread: u64, told: &Told, round: u64)
    ensures { IsSameSet handle.old handle.new }
{
    assert!(rt; handle.contains(key(rt, 5)));
    let mut row = thread;
    for _time in 0..1500 {
        row = row
            .wrapping_mul(6_364_136_223_846_793_005)
            .wrapping_add(1_442_695_040_888_963_407);
        churns_one(rt, handle, row, told);
    }
    let _ = handle.add(rt, key(rt, round.wrapping_add(10)));
    let _ = handle.remove(rt, key(rt, round.wrapping_add(9)));
}

/// Each seat does so in a thread of its own.
fn all_churn<R: Threads + Sync + Wait + Abort>(
    rt: &R,
    alloc: Global,
    handle: Handle,
    told: &Told,
    round: u64,
) -> Handle {
    let mut handles = apart(rt, alloc, handle);
    thread::for_each_mut(
        rt,
        handles.as_mut_slice(),
        4,
        &|thread: usize, handle: &mut Handle|
            ensures { IsSameSet handle.entry.now handle.exit.now }
        { churns(rt, handle, thread as u64, told, round) },
    );
    together(rt, handles)
}

/// Of each common key there were as many adds that were answered true as removals that were, and
/// one more where the key is listed. Beside these keys two others are listed. It answers how many
/// there are.
fn are_kept<R: Abort>(rt: &R, told: &Told, keys: &[Key]) -> u64 {
    let mut size = 2u64;
    for i in 0..KEYS {
        let is_kept = u64::from(keys.contains(&key(rt, i as u64)));
        assert!(rt; told[i].load(Ordering::SeqCst) == is_kept, "key {i}");
        size = size.wrapping_add(is_kept);
    }
    assert!(rt; keys.len() as u64 == size);
    size
}

/// Four threads add and remove the same keys. Then all keys are listed and the set settles. So it
/// goes again and again, until the set has had ten times as many different keys as its last table
/// has slots: after each four rounds it is made anew. It answers how many keys there are at last.
fn rounds<R: Threads + Sync + Wait + Abort>(
    rt: &R,
    alloc: Global,
    handle: Handle,
    told: &Told,
) -> (u64, Handle) {
    let (mut size, mut handle) = (0, handle);
    for round in 1..161 {
        handle = all_churn(rt, alloc, handle, told, round);
        let keys = handle.keys(alloc).expect(rt, "all seats are here");
        size = are_kept(rt, told, keys.as_slice());
        assert!(rt; handle.settle(alloc) == Ok(size));
        if round % 4 == 0 {
            assert!(rt; handle.renew(alloc, shape(rt, (2, 3, 4, 4))).is_ok());
        }
    }
    (size, handle)
}

#[test]
fn four_threads_the_same_keys(rt: HostRuntime) {
    let mut handle = opened(&rt, rt.alloc(), shape(&rt, (2, 3, 4, 4)));
    let told = [
        AtomicU64::new(0),
        AtomicU64::new(0),
        AtomicU64::new(0),
        AtomicU64::new(0),
    ];
    assert!(rt; handle.add(&rt, key(&rt, 5)) == Ok(true));
    let (size, handle) = rounds(&rt, rt.alloc(), handle, &told);
    let ended = closed(&rt, handle);
    assert!(rt; ended.contains(key(&rt, 170)) && ended.size() == size);
}
