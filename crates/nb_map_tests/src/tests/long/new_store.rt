//! Which values a new store has, and what the old one still shows. What else comes of a renewal
//! with a new store is among the stories.

use super::super::plain::shape;
use super::by_handles::Call::*;
use super::by_handles::{opened, sees};
use nb_core::Num;
use nb_long::{RenewStoreFault, Store};
use std::process::Abort;

/// A store shows just so many values.
fn shows_just<R: Abort>(rt: &R, store: &Store<u64>, values: u64) {
    for number in 0..8 {
        let number: u64 = number;
        let shown = store.show(Num::new(number).expect(rt, "a number"));
        assert!(rt; shown.is_some() == (number < values), "value {number}");
    }
}

/// Of a map with two keys, of which one was written over, and one more was taken out, as many
/// values are kept as there are keys, and the old store has them all still. A renewal is made again
/// where its memory is refused, and the map is as it was then: this passes whichever one request is
/// refused.
#[test]
fn refused_memory(rt: HostRuntime) {
    let sizes = shape(&rt, (2, 1, 2, 1));
    let mut handle = opened(&rt, rt.alloc(), sizes);
    let calls = [
        Put(1, 10),
        Put(2, 20),
        Put(3, 30),
        Put(1, 11),
        Remove(3, true),
    ];
    let as_it_was = [Value(1, Some(11)), Value(2, Some(20)), Value(3, None)];
    sees(&rt, rt.alloc(), &mut handle, &calls, true);
    let renewed = match handle.renew_store(&rt, rt.alloc(), sizes) {
        Err(RenewStoreFault::OutOfMemory) => {
            sees(&rt, rt.alloc(), &mut handle, &as_it_was, false);
            handle.renew_store(&rt, rt.alloc(), sizes)
        }
        renewed => renewed,
    };
    let Ok(renewed) = renewed else {
        panic!(rt; "there is memory")
    };
    sees(&rt, rt.alloc(), &mut handle, &as_it_was, false);
    assert!(rt; renewed.carried.len() == 2 && handle.seats() == 2);
    shows_just(&rt, handle.store(), 2);
    shows_just(&rt, &renewed.store, 4);
}
