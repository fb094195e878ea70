//! All entries of a typed map at rest, by all its seats.
ghost use Rattle.std.specs.Prelude.{Err, IfOk, length, ◌≡◌, ◌≢◌, ◌↔◌};
ghost use Rattle.nb_map.specs.Entries.{HaveListed, HaveOnlyRead};
ghost use Rattle.nb_map.specs.Maps.{AreMine};
ghost use Rattle.nb_map.specs.declared.faults.SettleFault.TheVariants as fault;

use crate::map::LongMap;
use nb_core::{Key, Num};
use nb_map::{Seat, SettleFault};
use std::alloc::Global;

impl<V> LongMap<V> {
    /// With all seats: all keys of the map at this moment, each once, in no order, with the numbers
    /// of their values, which `Store::show` reads: `Map::entries`. It takes memory for the entries,
    /// and what `settle` takes. Where that is refused, the seats have made reads alone; where a seat
    /// is missing, the seats are as they were.
    pub fn entries(
        &self,
        alloc: Global,
        seats: &mut Vec<Seat>,
    ) -> Result<Vec<(Key, Num)>, SettleFault>
        requires own { AreMine self.now.map seats.old.items }
        ensures all { (result ≡ Err fault.NotAll)
            ↔ (length seats.old.items ≢ self.now.map.chain.shape.seats) }
        ensures listed { IfOk result (λ entries. HaveListed seats.old.items seats.new.items
            entries.items) }
        ensures read { HaveOnlyRead self.now.map seats.old.items seats.new.items }
        ensures own { AreMine self.now.map seats.new.items }
        ensures back { result ≡ Err fault.NotAll → seats.new.items ≡ seats.old.items }
    {
        self.map.entries(alloc, seats)
    }
}
