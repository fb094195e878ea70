//! Guests that share a map without an end, each in a thread of its own, through dozens of renewals.
ghost use Rattle.std.specs.Prelude.{All, ◌≡◌, ◌≤◌};

use super::super::rows::Answer::Is;
use super::super::rows::Call::*;
use super::super::rows::{Answer, Call, number, was};
use super::asks_for_much;
use super::named::{BY_NAME, added, grown};
use nb_core::{Key, Num};
use nb_lasting::{GrowFault, Guest, SharedLasting};
use nb_map::{Ended, SettleFault};
use std::alloc::Global;
use std::process::Abort;
use std::sync::Wait;
use std::thread;
use std::thread::Threads;

/// A map that is made anew soon, with so many guests, also where one request for memory is refused.
fn opened<R: Abort>(rt: &R, alloc: Global, guests: usize) -> (SharedLasting, Vec<Guest>)
    requires guests { (1 ≤ guests) × (guests ≤ 256) }
    ensures { All (λ guest. guest.of ≡ result.0) result.1.items }
{
    for _attempt in 0..2 {
        if let Ok(opened) = SharedLasting::open(alloc, guests, 0) {
            return opened;
        }
        asks_for_much(alloc);
    }
    panic!(rt; "memory")
}

/// What each guest of a map does, in threads.
#[derive(Clone, Copy)]
enum Job {
    /// All of them make their rounds.
    Rounds,
    /// The first one asks for the size, and the others put keys.
    Fill,
    /// The first one takes out a key.
    TakeOne,
    /// The second one makes each call by its name, and puts keys. The others make no call.
    SecondCalls,
    /// All of them ask for the size and put keys, and again where memory was refused.
    TryAgain,
}

/// The guest with this number, from 0 on, does its part.
fn works<R: Wait + Abort + AllocGlobal>(rt: &R, guest: &mut Guest, job: Job, number: usize)
    ensures { guest.new.of ≡ guest.old.of }
{
    let thread = (number % 4) as u32;
    match job {
        Job::Rounds => rounds(rt, guest, thread),
        Job::Fill => fills_or_asks(rt, guest, thread),
        Job::TakeOne => takes_one(rt, guest, thread == 0),
        Job::SecondCalls => calls_if_second(rt, guest, thread),
        Job::TryAgain => tries_again(rt, guest),
    }
}

/// All guests do so, in so many threads at most.
fn all_work<R: Threads + Sync + Wait + Abort + AllocGlobal>(
    rt: &R,
    shared: &SharedLasting,
    guests: &mut [Guest],
    most: usize,
    job: Job,
)
    requires some { 1 ≤ most }
    requires of { All (λ guest. guest.of ≡ shared.now) guests.old }
    ensures { All (λ guest. guest.of ≡ shared.now) guests.new }
{
    thread::for_each_mut(
        rt,
        guests,
        most,
        &|number: usize, guest: &mut Guest|
            ensures { guest.exit.now.of ≡ guest.entry.now.of }
        { works(rt, guest, job, number) },
    );
}

/// What is left, with all guests.
fn ended<R: Abort + Wait>(rt: &R, shared: SharedLasting, guests: Vec<Guest>) -> Ended
    requires of { All (λ guest. guest.of ≡ shared) guests.items }
{
    let Ok(ended) = shared.close(rt, guests) else {
        panic!(rt; "all guests are here")
    };
    ended
}

/// How many rounds each thread makes, and how many keys all add to.
const ROUNDS: u32 = 5000;

const SHARED: u32 = 7;

/// Adds 1 to a key that all share. A key of the thread's own comes and goes, and takes a slot: so
/// the map is made anew again and again.
fn round<R: Wait + Abort>(rt: &R, guest: &mut Guest, thread: u32, n: u32)
    ensures { guest.new.of ≡ guest.old.of }
{
    let (one, number) = (Num::from(1_u32), Num::from(n));
    let added = guest.add(rt, Key::from(n % SHARED), one);
    assert!(rt; added.is_ok());
    let own = Key::from(n.wrapping_mul(4).wrapping_add(thread).wrapping_add(1000));
    let found = guest.put(rt, own, number);
    assert!(rt; found == Ok(None));
    let now = guest.get(rt, own);
    assert!(rt; now == Some(number));
    let gone = guest.remove(rt, own);
    assert!(rt; gone == Some(number));
}

/// Makes all its rounds, and leaves a key of its own.
fn rounds<R: Wait + Abort>(rt: &R, guest: &mut Guest, thread: u32)
    ensures { guest.new.of ≡ guest.old.of }
{
    for n in 0..ROUNDS {
        round(rt, guest, thread, n);
    }
    let left = guest.put(rt, Key::from(thread.wrapping_add(100)), Num::from(thread));
    assert!(rt; left == Ok(None));
}

/// What is left of four threads' adds, and of the key that each has left.
fn has_added<R: Abort>(rt: &R, ended: &Ended) {
    assert!(rt; ended.size() == 11);
    for word in 0..SHARED {
        let due = 4 * ((ROUNDS - word).div_ceil(SHARED));
        assert!(rt; ended.get(Key::from(word)) == Some(Num::from(due)));
    }
    for word in 0..4_u32 {
        assert!(rt; ended.get(Key::from(word + 100)) == Some(Num::from(word)));
    }
}

/// Four threads add to the same keys, while keys come and go and the map is made anew dozens of
/// times: a small map isn't renewed for every few keys. No add is lost, and none is made twice.
#[test]
fn threads_add_through_renewals(rt: HostRuntime) {
    let (shared, mut guests) = opened(&rt, rt.alloc(), 4);
    all_work(&rt, &shared, guests.as_mut_slice(), 4, Job::Rounds);
    let renewals = guests.first().map_or(0, Guest::renewals);
    assert!(rt; renewals > 12 && renewals < 60);
    has_added(&rt, &ended(&rt, shared, guests));
}

/// Puts keys of its own, each of which stays.
fn fills<R: Wait + Abort>(rt: &R, guest: &mut Guest, thread: u32)
    ensures { guest.new.of ≡ guest.old.of }
{
    for n in 0..10_000_u32 {
        let own = Key::from(n.wrapping_mul(4).wrapping_add(thread));
        let found = guest.put_if_absent(rt, own, Num::from(n));
        assert!(rt; found == Ok(None));
    }
}

/// Asks for the size again and again: it never falls, and is never past what all have put at last.
fn asks<R: Wait + Abort>(rt: &R, guest: &mut Guest)
    ensures { guest.new.of ≡ guest.old.of }
{
    let mut known = 0;
    for _ in 0..300 {
        let Ok(size) = guest.size(rt) else {
            panic!(rt; "memory")
        };
        assert!(rt; known <= size && size <= 30_000);
        known = size;
    }
}

/// The first thread asks, and the others put.
fn fills_or_asks<R: Wait + Abort>(rt: &R, guest: &mut Guest, thread: u32)
    ensures { guest.new.of ≡ guest.old.of }
{
    if thread == 0 {
        asks(rt, guest);
    } else {
        fills(rt, guest, thread);
    }
}

/// What is left of three threads' keys and of one that was removed.
fn has_filled<R: Abort>(rt: &R, ended: &Ended) {
    assert!(rt; ended.size() == 29_999);
    for word in 5..40_000_u32 {
        let number = (word % 4 > 0).then_some(Num::from(word / 4));
        assert!(rt; ended.get(Key::from(word)) == number);
    }
}

/// Sees that the size is exact, or one less once a key is gone. The first guest takes that key out.
fn takes_one<R: Wait + Abort>(rt: &R, guest: &mut Guest, is_first: bool)
    ensures { guest.new.of ≡ guest.old.of }
{
    let size = guest.size(rt);
    assert!(rt; size == Ok(30_000) || size == Ok(29_999));
    let gone = guest.remove(rt, Key::from(1_u32));
    assert!(rt; gone.is_some() == is_first && guest.renewals() > 0);
}

/// A map that was made for few keys takes many, of three threads, while another one asks for its
/// size. Once all guests settle, the size is exact, and the map goes on.
#[test]
fn size_while_threads_put(rt: HostRuntime) {
    let (mut shared, mut guests) = opened(&rt, rt.alloc(), 4);
    assert!(rt; shared.settle(&rt, guests.as_mut_slice()) == Ok(0));
    all_work(&rt, &shared, guests.as_mut_slice(), 4, Job::Fill);
    assert!(rt; shared.settle(&rt, guests.as_mut_slice()) == Ok(30_000));
    all_work(&rt, &shared, guests.as_mut_slice(), 1, Job::TakeOne);
    assert!(rt; shared.settle(&rt, guests.as_mut_slice()) == Ok(29_999));
    has_filled(&rt, &ended(&rt, shared, guests));
}

/// A guest is missing: nothing is counted, and the map comes back.
#[test]
fn without_a_guest(rt: HostRuntime) {
    let (mut shared, mut guests) = opened(&rt, rt.alloc(), 1);
    assert!(rt; shared.settle(&rt, &mut []) == Err(SettleFault::NotAll));
    assert!(rt; shared.settle(&rt, guests.as_mut_slice()) == Ok(0));
    let Err((_, none)) = shared.close(&rt, Vec::new(rt.alloc())) else {
        panic!(rt; "one is missing")
    };
    assert!(rt; guests.len() == 1 && none.is_empty());
}

/// Each call by its name, beside two guests that make none: they hold up nobody, also where the map
/// is made anew.
#[test]
fn beside_guests_that_make_no_call(rt: HostRuntime) {
    let (shared, mut guests) = opened(&rt, rt.alloc(), 3);
    all_work(&rt, &shared, guests.as_mut_slice(), 1, Job::SecondCalls);
    assert!(rt; ended(&rt, shared, guests).size() == 10_000);
}

/// Makes a call of the key 7.
fn makes<R: Wait + Abort>(rt: &R, guest: &mut Guest, call: Call) -> Answer
    ensures { guest.new.of ≡ guest.old.of }
{
    let at = Key::from(7_u32);
    match call {
        Get => was(guest.get(rt, at)),
        Put(n) => grown(guest.put(rt, at, number(rt, n))),
        PutIfAbsent(n) => grown(guest.put_if_absent(rt, at, number(rt, n))),
        Replace(n) => was(guest.replace(rt, at, number(rt, n))),
        ReplaceIf(old, new) => Is(guest.replace_if(rt, at, number(rt, old), number(rt, new))),
        Add(n) => added(guest.add(rt, at, number(rt, n))),
        Remove => was(guest.remove(rt, at)),
        RemoveIf(n) => Is(guest.remove_if(rt, at, number(rt, n))),
        _ => panic!(rt; "this is another call"),
    }
}

/// The second thread makes each call by its name, and puts keys.
fn calls_if_second<R: Wait + Abort>(rt: &R, guest: &mut Guest, thread: u32)
    ensures { guest.new.of ≡ guest.old.of }
{
    if thread == 1 {
        calls_by_name(rt, guest);
        fills(rt, guest, 0);
    }
}

/// Each call by its name. In the end the map is as it was.
fn calls_by_name<R: Wait + Abort>(rt: &R, guest: &mut Guest)
    ensures { guest.new.of ≡ guest.old.of }
{
    for (call, answer) in &BY_NAME {
        assert!(rt; makes(rt, guest, *call) == *answer);
    }
}

/// Whichever one request for memory is refused, or all from that one on, each call ends, and the map
/// goes on: the call that was refused is made again (`rt try --test --fail-alloc N -- refused_memory`).
#[test]
fn guests_refused_memory(rt: HostRuntime) {
    let (mut shared, mut guests) = opened(&rt, rt.alloc(), 2);
    let size = shared.settle(&rt, guests.as_mut_slice());
    if size == Err(SettleFault::OutOfMemory) {
        asks_for_much(rt.alloc());
    }
    let again = shared.settle(&rt, guests.as_mut_slice());
    assert!(rt; size == Ok(0) || (size == Err(SettleFault::OutOfMemory) && again == Ok(0)));
    all_work(&rt, &shared, guests.as_mut_slice(), 1, Job::TryAgain);
    assert!(rt; ended(&rt, shared, guests).size() == 200);
}

/// Asks for the size and puts a hundred keys, and again where memory was refused.
fn tries_again<R: Wait + Abort + AllocGlobal>(rt: &R, guest: &mut Guest)
    ensures { guest.new.of ≡ guest.old.of }
{
    if guest.size(rt).is_err() {
        asks_for_much(rt.alloc());
        assert!(rt; guest.size(rt).is_ok());
    }
    let own = (guest.number() % 2) as u32;
    for word in 0..100_u32 {
        let key = Key::from(2 * word + own);
        let mut found = guest.put(rt, key, Num::from(word));
        if found == Err(GrowFault::OutOfMemory) {
            asks_for_much(rt.alloc());
            found = guest.put(rt, key, Num::from(word));
        }
        assert!(rt; found == Ok(None));
    }
}
