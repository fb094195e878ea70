//! How full a set is, by a seat.
ghost use Rattle.nb_set.specs.Fullness.{HasSampled};
ghost use Rattle.nb_set.specs.Sets.{IsMine};

use crate::set::LongSet;
use nb_map::{Occupancy, Seat};

impl LongSet {
    /// How full the set's top table is: `Map::occupancy`. It makes one step, and one for each slot
    /// that it looks at: 1,024, or all of a smaller table.
    pub fn occupancy(&self, seat: &mut Seat) -> Occupancy
        requires own { IsMine self.now seat.old }
        ensures { HasSampled self.now seat.old seat.new result }
    {
        self.map.occupancy(seat)
    }
}
