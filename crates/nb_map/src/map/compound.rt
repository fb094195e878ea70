//! Calls that put together the number that they are given and the one that is at the key: the one
//! that is there, or the one that is put; and the greater or the less of the two.
ghost use Rattle.std.specs.Prelude.{◌≡◌, ◌≤◌};
ghost use Rattle.nb_map.specs.Compound.{HasGotOrPut, IsUpdateBy, greater_of, less_of};
ghost use Rattle.nb_map.specs.Maps.{IsMine};

use crate::faults::{Full, PutFault};
use crate::map::{Map, Seat};
use nb_core::{Key, Num};
use std::sync::Wait;

impl Map {
    /// The number that a key has, after this one was put there if it had none. It is one
    /// `put_if_absent`, with its bound, and answers what is at the key now: dashmap's
    /// `entry(key).or_insert(number)`, and nearly `ConcurrentMap.computeIfAbsent`.
    pub fn get_or_insert<R: Wait>(
        &self,
        rt: &R,
        seat: &mut Seat,
        key: Key,
        number: Num,
    ) -> Result<Num, Full>
        requires own { IsMine self.now seat.old }
        ensures { HasGotOrPut self.now key number seat.old seat.new result }
    {
        let found = self.put_if_absent(rt, seat, key, number)?;
        Ok(found.unwrap_or(number))
    }

    /// Raises the number at a key to this one where it is less, and answers what was there; an
    /// absent key gets this number. It is a `try_update`, and waits for nobody: it is refused as
    /// `try_update` is, with the same bound. Where the key has this number or a greater one
    /// already, the exchange puts what is there, so its step is a read. `fetch_max` of Rust's
    /// atomics, and `ConcurrentMap.merge` with `Math::max`.
    pub fn fetch_max(
        &self,
        seat: &mut Seat,
        key: Key,
        number: Num,
        tries: u32,
    ) -> Result<Option<Num>, PutFault>
        requires own { IsMine self.now seat.old }
        requires some { 1 ≤ tries }
        ensures updated { IsUpdateBy self.now (greater_of number) key seat.old seat.new tries
            result }
        ensures own { IsMine self.now seat.new }
    {
        self.try_update(seat, key, tries, move |was| greater(was, number))
    }

    /// Lowers the number at a key to this one where it is greater, and answers what was there; an
    /// absent key gets this number. As `fetch_max` else.
    pub fn fetch_min(
        &self,
        seat: &mut Seat,
        key: Key,
        number: Num,
        tries: u32,
    ) -> Result<Option<Num>, PutFault>
        requires own { IsMine self.now seat.old }
        requires some { 1 ≤ tries }
        ensures updated { IsUpdateBy self.now (less_of number) key seat.old seat.new tries result }
        ensures own { IsMine self.now seat.new }
    {
        self.try_update(seat, key, tries, move |was| less(was, number))
    }
}

/// The greater of what was there and a number; the number, where nothing was there.
fn greater(was: Option<Num>, number: Num) -> Option<Num>
    ensures { result ≡ greater_of number was }
{
    match was {
        Some(there) if there.get() > number.get() => Some(there),
        _ => Some(number),
    }
}

/// The less of the two.
fn less(was: Option<Num>, number: Num) -> Option<Num>
    ensures { result ≡ less_of number was }
{
    match was {
        Some(there) if there.get() < number.get() => Some(there),
        _ => Some(number),
    }
}
