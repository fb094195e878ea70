//! The first example of the map's page, and guests whose keys come and go where memory or a thread is
//! refused.
ghost use Rattle.std.specs.Prelude.{All, ◌≡◌};

use super::asks_for_much;
use nb_core::{Key, Num, OutOfMemory};
use nb_lasting::{GrowFault, Guest, SharedLasting};
use std::alloc::Global;
use std::process::Abort;
use std::sync::Wait;
use std::thread;
use std::thread::Threads;

/// The example: four guests add to one key, each in a thread of its own.
#[test]
fn four_guests_add(rt: HostRuntime) -> Result<(), OutOfMemory> {
    let (key, once) = (Key::from(7_u32), Num::from(1_u32));
    let (shared, mut guests) = SharedLasting::open(rt.alloc(), 4, 0)?;
    thread::for_each_mut(
        &rt,
        guests.as_mut_slice(),
        4,
        &|_, guest: &mut Guest|
            ensures { guest.exit.now.of ≡ guest.entry.now.of }
        {
            let _ = guest.add(&rt, key, once);
        },
    );
    let Ok(ended) = shared.close(&rt, guests) else {
        panic!(rt; "all guests are here")
    };
    assert!(rt; ended.size() == 1 && ended.get(key) == Some(Num::from(4_u32)));
    Ok(())
}

/// A map that is made anew soon, with two guests, also where one request for memory is refused.
fn opened<R: Abort>(rt: &R, alloc: Global) -> (SharedLasting, Vec<Guest>)
    ensures { All (λ guest. guest.of ≡ result.0) result.1.items }
{
    if let Ok(opened) = SharedLasting::open(alloc, 2, 0) {
        return opened;
    }
    asks_for_much(alloc);
    let Ok(opened) = SharedLasting::open(alloc, 2, 0) else {
        panic!(rt; "memory")
    };
    opened
}

/// A key comes that isn't there. Where that is refused, it comes again.
fn come<R: Wait + Abort + AllocGlobal>(rt: &R, guest: &mut Guest, key: Key)
    ensures { guest.new.of ≡ guest.old.of }
{
    let one = Num::from(1_u32);
    let mut found = guest.put_if_absent(rt, key, one);
    if found == Err(GrowFault::OutOfMemory) {
        assert!(rt; guest.get(rt, key).is_none());
        asks_for_much(rt.alloc());
        found = guest.put_if_absent(rt, key, one);
    }
    assert!(rt; found == Ok(None));
}

/// A key of the guest's own comes, and the tenth before it goes, if there is one.
fn pass<R: Wait + Abort + AllocGlobal>(rt: &R, guest: &mut Guest, word: u32)
    ensures { guest.new.of ≡ guest.old.of }
{
    let own = (guest.number() % 2) as u32;
    come(rt, guest, Key::from(word.wrapping_mul(2) | own));
    let before = Key::from(word.wrapping_sub(10).wrapping_mul(2) | own);
    let gone = guest.remove(rt, before);
    assert!(rt; gone.is_some() == (word >= 10));
}

/// A thousand keys of the guest's own come and go.
fn come_and_go<R: Wait + Abort + AllocGlobal>(rt: &R, guest: &mut Guest, first: u32)
    ensures { guest.new.of ≡ guest.old.of }
{
    for n in 0..1000_u32 {
        pass(rt, guest, first.wrapping_add(n));
    }
}

/// Both guests work, each in a thread of its own. How many keys there are then: where that is refused, it
/// is asked again.
fn worked<R: Threads + Sync + Wait + Abort + AllocGlobal>(
    rt: &R,
    shared: &mut SharedLasting,
    guests: &mut [Guest],
    first: u32,
) -> u64
    requires { All (λ guest. guest.of ≡ shared.old) guests.old }
    ensures { (shared.new ≡ shared.old) × All (λ guest. guest.of ≡ shared.old) guests.new }
{
    thread::for_each_mut(
        rt,
        guests,
        2,
        &|_, guest: &mut Guest|
            ensures { guest.exit.now.of ≡ guest.entry.now.of }
        { come_and_go(rt, guest, first) },
    );
    if let Ok(size) = shared.settle(rt, guests) {
        return size;
    }
    asks_for_much(rt.alloc());
    shared.settle(rt, guests).expect(rt, "memory")
}

/// Keys come and go on two threads, and are counted, while the map is made anew. Whichever one request for
/// memory or a thread is refused, or all from that one on, no call is lost.
#[test]
fn passing_keys_refused_memory(rt: HostRuntime) {
    let (mut shared, mut guests) = opened(&rt, rt.alloc());
    assert!(rt; worked(&rt, &mut shared, guests.as_mut_slice(), 0) == 20);
    assert!(rt; worked(&rt, &mut shared, guests.as_mut_slice(), 1000) == 20);
    assert!(rt; guests.first().map_or(0, Guest::renewals) > 1);
    let Ok(ended) = shared.close(&rt, guests) else {
        panic!(rt; "all guests are here")
    };
    assert!(rt; ended.size() == 20 && ended.get(Key::from(3999_u32)).is_some());
}
