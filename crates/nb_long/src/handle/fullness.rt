//! How full a typed map is, by a handle.
ghost use Rattle.nb_map.specs.Fullness.{HasSampled};
ghost use Rattle.nb_long.specs.Handles.{KeepsRest};

use crate::handle::Handle;
use nb_map::Occupancy;

impl<V: Drop> Handle<V> {
    /// How full the map's top table is: `LongMap::occupancy`.
    pub fn occupancy(&mut self) -> Occupancy
        ensures looked { HasSampled self.old.map.map self.old.seat self.new.seat result }
        ensures rest { KeepsRest self.old self.new }
    {
        self.map.occupancy()
    }
}
