//! A put of a number at a key that never had one.
ghost use Rattle.std.specs.Prelude.{◌≡◌};
ghost use Rattle.nb_core.specs.Plans.{generations_of};
ghost use Rattle.nb_map.specs.FirstPut.{HasPutIfNew};
ghost use Rattle.nb_map.specs.Maps.{IsMine};
ghost use Rattle.nb_map.specs.inside.Firsts.{number_now};

use crate::faults::Full;
use crate::map::{Map, Seat};
use crate::steps::first::{First, put_first_in};
use nb_core::{Key, Num};

/// What a put comes to that is made only at a key that never had a number in its map.
#[derive(Clone, Copy, Debug, PartialEq, Eq)]
pub enum FirstPut {
    /// It is made.
    Put,
    /// The key has had a number, and has this one now.
    Found(Num),
    /// The key has had a number, and has none now.
    Removed,
}

impl Map {
    /// Puts a number at a key that never had one in this map, which has one table. A number that
    /// was removed doesn't come back: where the key has had one, this answers what it has now. It
    /// waits for nobody. The key's slot is found or claimed, by a load of its home slot and a
    /// search if that isn't the key's; then it takes a load and an exchange, and a read where the
    /// key has had a number.
    pub fn put_if_new(&self, seat: &mut Seat, key: Key, number: Num) -> Result<FirstPut, Full>
        requires own { IsMine self.now seat.old }
        requires one { generations_of self.now.chain.shape ≡ 1 }
        ensures { HasPutIfNew self.now key number seat.old seat.new result }
    {
        match put_first_in(&self.chain, &mut seat.chain, key, number) {
            First::Put => {
                self.counter.add(&mut seat.count, 1);
                Ok(FirstPut::Put)
            }
            First::Found(found) => Ok(FirstPut::Found(found)),
            First::Had => Ok(now_of(self.get(seat, key))),
            First::Full => Err(Full),
        }
    }
}

/// What a key has now that has had a number.
fn now_of(found: Option<Num>) -> FirstPut
    ensures { result ≡ number_now found }
{
    match found {
        Some(number) => FirstPut::Found(number),
        None => FirstPut::Removed,
    }
}
