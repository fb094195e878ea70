//! All seats of a set learn of all calls, and the set goes on.
ghost use Rattle.std.specs.Prelude.{Err, IfErr, IfOk, length, ◌≡◌, ◌≢◌, ◌↔◌};
ghost use Rattle.nb_map.specs.declared.faults.SettleFault.TheVariants as fault;
ghost use Rattle.nb_set.specs.Sets.{AreMine, shape_of};
ghost use Rattle.nb_set.specs.Settling.{HaveSettled};

use crate::set::LongSet;
use nb_map::{Seat, SettleFault};
use std::alloc::Global;

impl LongSet {
    /// With all seats: how many keys the set has, exactly. Afterwards each seat's log is one and the
    /// same log of all calls that were made, as if the set had been finished; and the set goes on.
    /// It takes memory for two vectors of seats. Where that is refused, or a seat is missing, the
    /// seats are as they were.
    pub fn settle(&self, alloc: Global, seats: &mut Vec<Seat>) -> Result<u64, SettleFault>
        requires own { AreMine self.now seats.old.items }
        ensures all { (result ≡ Err fault.NotAll)
            ↔ (length seats.old.items ≢ (shape_of self.now).seats) }
        ensures settled { IfOk result (HaveSettled self.now seats.old.items seats.new.items) }
        ensures own { AreMine self.now seats.new.items }
        ensures back { IfErr result (λ _. seats.new.items ≡ seats.old.items) }
    {
        self.map.settle(alloc, seats)
    }
}
