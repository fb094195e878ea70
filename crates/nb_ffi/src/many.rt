//! Reads of many keys, whose numbers are written into an array of the caller's.
ghost use Rattle.std.specs.Prelude.{IsTrue, List, Option, drop, length, unwrap_or, ℕ, ◌++◌, ◌≡◌, ◌≤◌, ◌↔◌};
ghost use Rattle.nb_ffi.specs.Many.{AreKeys, told_of};
ghost use Rattle.nb_ffi.specs.Promises.{HasGotMany};

use nb_core::{KEY_MAX, Key, Num};
use nb_map::Handle;

/// How many keys are read at a time.
const GROUP: usize = 64;

/// Whether all these numbers are keys.
pub(crate) fn are_keys(numbers: &[u64]) -> bool
    ensures { IsTrue result ↔ AreKeys numbers.now }
{
    numbers.iter().all(|number| *number <= KEY_MAX)
}

/// Has the group be these keys.
fn write_keys(group: &mut [Key], keys: &[u64])
    requires room { length keys.now ≡ length group.old }
    requires keys { AreKeys keys.now }
    ensures { group.new ≡ keys.now }
{
    for i in 0..keys.len() {
        let Ok(key) = Key::new(keys[i]) else {
            unreachable!()
        };
        group[i] = key;
    }
}

/// The number that was found, or the other one where none was.
#[inline]
fn told(found: Option<Num>, other: u64) -> u64
    ensures { result ≡ unwrap_or found other }
{
    match found {
        Some(number) => number.get(),
        None => other,
    }
}

/// Has the numbers be what was found, or this one where nothing was.
fn write_found(numbers: &mut [u64], found: &[Option<Num>], other: u64)
    requires room { length found.now ≡ length numbers.old }
    ensures { numbers.new ≡ told_of other found.now }
{
    for i in 0..found.len() {
        numbers[i] = told(found[i], other);
    }
}

/// Reads keys, no more than a group, and writes what each has, or `other` where it has nothing.
fn get_group(handle: &mut Handle, keys: &[u64], numbers: &mut [u64], other: u64)
    requires keys { AreKeys keys.now }
    requires few { length keys.now ≤ GROUP }
    requires room { length numbers.old ≡ length keys.now }
    ensures { (found : List (Option ℕ)) × (numbers.new ≡ told_of other found)
        × (length found ≡ length keys.now) × HasGotMany keys.now found handle.old handle.new }
{
    let mut group = [Key::from(0u32); GROUP];
    let mut found = [None; GROUP];
    write_keys(&mut group[..keys.len()], keys);
    handle.get_many(&group[..keys.len()], &mut found[..keys.len()]);
    write_found(numbers, &found[..keys.len()], other);
}

/// Reads keys in their order, and writes what each has, or `other` where it has nothing. What is
/// behind stays.
pub(crate) fn get_many(handle: &mut Handle, keys: &[u64], numbers: &mut [u64], other: u64)
    requires keys { AreKeys keys.now }
    requires room { length keys.now ≤ length numbers.old }
    ensures { (found : List (Option ℕ))
        × (numbers.new ≡ told_of other found ++ drop (length keys.now) numbers.old)
        × HasGotMany keys.now found handle.old handle.new }
{
    handle.known();
    let mut done = 0;
    while done < keys.len() {
        let end = done + GROUP.min(keys.len() - done);
        get_group(handle, &keys[done..end], &mut numbers[done..end], other);
        done = end;
    }
}
