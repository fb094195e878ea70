//! How full a set is, by a handle.
ghost use Rattle.nb_set.specs.Fullness.{HasSampled};
ghost use Rattle.nb_set.specs.Handles.{KeepsRest};

use crate::handle::Handle;
use nb_map::Occupancy;

impl Handle {
    /// How full the set's top table is: `LongSet::occupancy`.
    pub fn occupancy(&mut self) -> Occupancy
        ensures looked { HasSampled self.old.set self.old.seat self.new.seat result }
        ensures rest { KeepsRest self.old self.new }
    {
        self.map.occupancy()
    }
}
