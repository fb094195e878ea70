//! All seats of a typed map learn of all calls, and the map goes on.
ghost use Rattle.std.specs.Prelude.{Err, IfErr, IfOk, length, ◌≡◌, ◌≢◌, ◌↔◌};
ghost use Rattle.nb_map.specs.Maps.{AreMine};
ghost use Rattle.nb_map.specs.Settling.{HaveSettled};
ghost use Rattle.nb_map.specs.declared.faults.SettleFault.TheVariants as fault;

use crate::map::LongMap;
use nb_map::{Seat, SettleFault};
use std::alloc::Global;

impl<V> LongMap<V> {
    /// With all seats: how many keys the map has, exactly: `Map::settle`. Afterwards each seat's log
    /// is one and the same log of all calls that were made; and the map goes on, with its store. It
    /// takes memory for two vectors of seats. Where that is refused, or a seat is missing, the
    /// seats are as they were.
    pub fn settle(&self, alloc: Global, seats: &mut Vec<Seat>) -> Result<u64, SettleFault>
        requires own { AreMine self.now.map seats.old.items }
        ensures all { (result ≡ Err fault.NotAll)
            ↔ (length seats.old.items ≢ self.now.map.chain.shape.seats) }
        ensures settled { IfOk result (HaveSettled self.now.map seats.old.items seats.new.items) }
        ensures own { AreMine self.now.map seats.new.items }
        ensures back { IfErr result (λ _. seats.new.items ≡ seats.old.items) }
    {
        self.map.settle(alloc, seats)
    }
}
