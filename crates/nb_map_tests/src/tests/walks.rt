//! Loops over handles. What walks show, one after another and beside threads that write, and parts of
//! them, are in `languages/c/tests`.
use super::rows::Answer::{Nothing, Was};
use super::rows::Call::{Put, Remove};
use super::rows::*;
use nb_map::Handle;

/// The sums of the keys and of the numbers of a handle's map. The loop takes the handle with it.
fn sums_of(handle: Handle) -> (u64, u64) {
    let (mut keys, mut numbers) = (0u64, 0u64);
    for (key, number) in handle.walk() {
        keys = keys.wrapping_add(key.get());
        numbers = numbers.wrapping_add(number.get());
    }
    (keys, numbers)
}

/// The same by a loop after which the handle is there again. The walk stays at its end.
fn sums_by(handle: Handle) -> (u64, u64, Handle) {
    let (mut keys, mut numbers) = (0u64, 0u64);
    let mut walk = handle.walk();
    while let Some((key, number)) = walk.next_key() {
        keys = keys.wrapping_add(key.get());
        numbers = numbers.wrapping_add(number.get());
    }
    (keys, numbers, walk.end())
}

/// Both loops go over all pairs of the map.
#[test]
fn loops_over_pairs(rt: HostRuntime) {
    let (mut a, b) = two(&rt, rt.alloc());
    sees(&rt, &mut a, &[(5, Put(15), Nothing), (6, Put(16), Nothing)]);
    let (keys, numbers, mut a) = sums_by(a);
    assert!(rt; keys == 11 && numbers == 31);
    sees(&rt, &mut a, &[(5, Remove, Was(15))]);
    assert!(rt; sums_of(b) == (6, 16));
}
