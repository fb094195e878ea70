//! How full a map is, by a handle.
ghost use Rattle.nb_map.specs.Fullness.{HasSampled};
ghost use Rattle.nb_map.specs.Handles.{KeepsRest};

use crate::handle::Handle;
use crate::occupancy::Occupancy;

impl Handle {
    /// How full the top table is: `Map::occupancy`.
    pub fn occupancy(&mut self) -> Occupancy
        ensures looked { HasSampled self.old.map self.old.seat self.new.seat result }
        ensures rest { KeepsRest self.old self.new }
    {
        self.shared.map.occupancy(&mut self.seat)
    }
}
