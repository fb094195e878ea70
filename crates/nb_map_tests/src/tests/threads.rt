//! Threads that call one map by handles, and handles that wait for one another.
ghost use Rattle.nb_map.specs.Handles.{IsSameMap};

use super::rows::Answer::{Is, Nothing, Was};
use super::rows::Call::*;
use super::rows::*;
use nb_core::{Key, Num};
use nb_map::Handle;
use std::alloc::Global;
use std::process::Abort;
use std::sync::Wait;
use std::thread;
use std::thread::Threads;

/// Each seat of the handle adds 1 to a key in a thread of its own.
fn all_add<R: Threads + Sync + Wait + Abort>(
    rt: &R,
    alloc: Global,
    handle: Handle,
    key: Key,
    once: Num,
) -> Handle {
    let mut handles = parted(rt, alloc, handle);
    thread::for_each_mut(
        rt,
        handles.as_mut_slice(),
        4,
        &|_, handle: &mut Handle|
            ensures { IsSameMap handle.entry.now handle.exit.now }
        {
            let _ = handle.add(rt, key, once);
        },
    );
    joined(rt, handles)
}

/// Four threads add to a key, the map settles, all entries are listed, and the threads add again;
/// and the map is made anew, and they add once more.
#[test]
fn settled_listed_and_renewed_between_rounds(rt: HostRuntime) {
    let (key, once) = entry(&rt, 7, 1);
    let mut handle = opened(&rt, rt.alloc(), (4, 4, 4, 1));
    sees(&rt, &mut handle, &[(0, Settle(0), Is(true))]);
    for rows in &BETWEEN_ROUNDS {
        handle = all_add(&rt, rt.alloc(), handle, key, once);
        sees(&rt, &mut handle, rows);
    }
    leaves(&rt, rt.alloc(), handle, &[(7, 12), (9, 1)]);
}

/// What the whole handle sees after each round.
const BETWEEN_ROUNDS: [[Row; 3]; 3] = [
    [
        (0, Settle(1), Is(true)),
        (9, Put(1), Nothing),
        (7, Get, Was(4)),
    ],
    [
        (0, List(&[(7, 8), (9, 1)]), Is(true)),
        (0, Renew((4, 4, 4, 1), Ok(())), Is(true)),
        (7, Get, Was(8)),
    ],
    [
        (0, Settle(2), Is(true)),
        (7, Get, Was(12)),
        (0, Estimate, Was(2)),
    ],
];

/// Another thread, to which the handle is moved, asks for the key.
fn asks_elsewhere<R: Threads + Wait>(rt: &R, theirs: Handle, key: Key) {
    let mut theirs = theirs;
    let child = thread::spawn(rt, move || theirs.get(key).is_none());
    if let Ok(child) = child {
        child.join(rt);
    }
}

/// A handle goes to a thread by a move, with nothing borrowed.
#[test]
fn moved_to_a_thread(rt: HostRuntime) {
    let (mut mine, theirs) = two(&rt, rt.alloc());
    asks_elsewhere(&rt, theirs, key(&rt, 7));
    sees(&rt, &mut mine, &[(7, Add(1), Nothing), (7, Get, Was(1))]);
}

/// How many rounds each thread makes, and how many keys all insert at.
const ROUNDS: u64 = 2000;

const SHARED: u64 = 200;

/// The key to whose number threads add by updates, those whose numbers they raise and lower, and the
/// one that comes and goes.
const UPDATED: u64 = 1001;

const UP: u64 = 1002;

const DOWN: u64 = 1003;

const PASSING: u64 = 1004;

/// Adds 1 by an update, and raises one key's number and lowers another's by the thread's own. An update
/// is contended only where others won as many exchanges on the key as it has tries, and they win fewer in
/// all.
fn updates<R: Abort>(rt: &R, handle: &mut Handle, number: Num) {
    assert!(rt; handle.try_update(key(rt, UPDATED), 8000, one_more).is_ok());
    assert!(rt; handle.fetch_max(key(rt, UP), number, 1_000_000).is_ok());
    assert!(rt; handle.fetch_min(key(rt, DOWN), number, 1_000_000).is_ok());
}

/// What is inserted at a key that all share stays there.
fn inserts<R: Wait + Abort>(rt: &R, handle: &mut Handle, shared: Key, number: Num) {
    let now = handle.get_or_insert(rt, shared, number);
    assert!(rt; now.is_ok() && handle.get(shared) == now.ok());
}

/// Updates, inserts, and lets a key come and go.
fn round<R: Wait + Abort>(rt: &R, handle: &mut Handle, own: u64) {
    let number = number(rt, own % 16_000);
    updates(rt, handle, number);
    assert!(rt; handle.put(rt, key(rt, PASSING), number).is_ok());
    let _ = handle.remove(rt, key(rt, PASSING));
    inserts(rt, handle, key(rt, own % SHARED), number);
}

/// Makes all its rounds.
fn rounds<R: Wait + Abort>(rt: &R, handle: &mut Handle, thread: u64) {
    for n in 0..ROUNDS {
        round(rt, handle, 4 * n + thread % 4 + 2000);
    }
}

/// Four threads call while the map grows: none of their updates is lost, the greatest and
/// the least of all numbers are left, and one thread wins each key that all insert at.
#[test]
fn threads_call(rt: HostRuntime) {
    let mut handles = parted(&rt, rt.alloc(), opened(&rt, rt.alloc(), (2, 8, 4, 2)));
    thread::for_each_mut(
        &rt,
        handles.as_mut_slice(),
        4,
        &|thread: usize, handle: &mut Handle| { rounds(&rt, handle, thread as u64) },
    );
    let mut handle = handles.pop().expect(&rt, "a handle");
    let rows = [
        (UPDATED, Get, Was(8000)),
        (UP, Get, Was(9999)),
        (DOWN, Get, Was(2000)),
        (PASSING, Get, Nothing),
        (0, Estimate, Was(SHARED + 3)),
    ];
    sees(&rt, &mut handle, &rows);
}
