//! Updates of the value at a key by a function.

use super::super::plain::{key, shape};
use super::by_handles::Call::{Put, Update, Value};
use super::by_handles::{opened, sees, two};
use nb_core::Key;
use nb_long::{Handle, UpdateFault, Updated};
use std::process::Abort;
use std::sync::Wait;

/// One more than what is there; 1, where nothing is.
pub(super) fn one_more(was: Option<&u64>) -> Option<u64> {
    match was {
        Some(number) => Some(number.wrapping_add(1)),
        None => Some(1),
    }
}

/// None, whatever is there.
pub(super) fn nothing(_was: Option<&u64>) -> Option<u64> {
    None
}

/// Whether an update by `one_more` or `nothing` came to this: whether a value was there, and
/// whether one is there now. Where memory was refused, the value comes back.
pub(super) fn is_updated<R: Abort>(
    rt: &R,
    end: Result<Updated<u64>, UpdateFault<u64>>,
    was: bool,
    is: bool,
) -> bool {
    match end {
        Ok(updated) => updated.found.is_some() == was && updated.new.is_some() == is,
        Err(UpdateFault::OutOfMemory(value)) => {
            assert!(rt; value == 1);
            false
        }
        Err(_) => false,
    }
}

/// Updates the key by one handle, while another one puts values in the first two calls of the
/// function. It answers how often that was called.
fn calls_of_update<R: Wait + Abort>(
    rt: &R,
    mine: &mut Handle<u64>,
    theirs: &mut Handle<u64>,
    key: Key,
) -> u64 {
    let mut calls = 0u64;
    let end = mine.update(rt, key, |was| {
        calls = calls.wrapping_add(1);
        if calls < 3 {
            let _ = theirs.put(rt, key, calls.wrapping_mul(10));
        }
        one_more(was)
    });
    assert!(rt; end.is_ok());
    calls
}

/// Another handle's puts come between the read and the exchange, twice. Each is taken up, in one
/// more call of the function.
#[test]
fn update_takes_up_what_came(rt: HostRuntime) {
    let (mut mine, mut theirs) = two(&rt, opened(&rt, rt.alloc(), shape(&rt, (4, 2, 2, 1))));
    assert!(rt; calls_of_update(&rt, &mut mine, &mut theirs, key(&rt, 7)) == 3);
    sees(&rt, rt.alloc(), &mut mine, &[Value(7, Some(21))], false);
}

/// Four keys fill the table, and a fifth is refused: what the function made is read by the receipt
/// that comes back. A function that makes no value for an absent key isn't refused.
#[test]
fn update_of_a_full_map(rt: HostRuntime) {
    let mut handle = opened(&rt, rt.alloc(), shape(&rt, (2, 1, 2, 1)));
    let four = [Put(1, 5), Put(2, 5), Put(3, 5), Put(4, 5)];
    sees(&rt, rt.alloc(), &mut handle, &four, false);
    match &handle.update(&rt, key(&rt, 5), one_more) {
        Err(UpdateFault::Full(receipt)) => assert!(rt; *handle.store().value(receipt) == 1),
        _ => panic!(rt; "the map is full"),
    }
    let calls = [Update(5, false, false), Value(5, None)];
    sees(&rt, rt.alloc(), &mut handle, &calls, false);
}
