//! How full a map is, by a seat.
ghost use Rattle.nb_map.specs.Fullness.{HasSampled};
ghost use Rattle.nb_map.specs.Maps.{IsMine};

use crate::map::{Map, Seat};
use crate::occupancy::Occupancy;
use crate::steps::sample::{sample_size, taken_in};

impl Map {
    /// How full the top table is: how many of its slots are taken, by a key that is there or was,
    /// or closed to keys. Of a table with more than 1,024 slots so many are looked at, one in each
    /// of 1,024 blocks. It makes one load of the top word, and one for each slot.
    ///
    /// A sample of 1,024 slots is off by some 3 percent at most, nineteen times of twenty, where
    /// keys have slots independent of the sample's.
    pub fn occupancy(&self, seat: &mut Seat) -> Occupancy
        requires own { IsMine self.now seat.old }
        ensures { HasSampled self.now seat.old seat.new result }
    {
        let table = self.generation(seat);
        let taken = taken_in(&self.chain, &mut seat.chain, table);
        let shape = self.shape();
        Occupancy {
            table,
            is_last: table + 1 == shape.generations(),
            looked: sample_size(shape, table) as u32,
            taken,
        }
    }
}
