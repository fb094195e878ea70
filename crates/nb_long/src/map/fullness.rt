//! How full a typed map is, by a seat.
ghost use Rattle.nb_map.specs.Fullness.{HasSampled};
ghost use Rattle.nb_map.specs.Maps.{IsMine};

use crate::map::LongMap;
use nb_map::{Occupancy, Seat};

impl<V> LongMap<V> {
    /// How full the map's top table is: `Map::occupancy`. How many values the store has is another
    /// number, which no call answers: a value that was replaced stays.
    pub fn occupancy(&self, seat: &mut Seat) -> Occupancy
        requires own { IsMine self.now.map seat.old }
        ensures { HasSampled self.now.map seat.old seat.new result }
    {
        self.map.occupancy(seat)
    }
}
