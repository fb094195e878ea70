//! All seats of a typed map learn of all calls, and work on.
ghost use Rattle.std.specs.Prelude.{Err, IfErr, IfOk, ◌↔◌, ◌≡◌};
ghost use Rattle.nb_map.specs.Settling.{HaveSettled};
ghost use Rattle.nb_map.specs.declared.faults.SettleFault.TheVariants as fault;
ghost use Rattle.nb_long.specs.Handles.{IsSameMap, IsWhole, seats_of};

use crate::handle::Handle;
use nb_map::SettleFault;
use std::alloc::Global;

impl<V: Drop> Handle<V> {
    /// With all seats: how many keys the map has, exactly. Afterwards the log of each seat is one and
    /// the same log of all calls that were made, as if the map had been closed; and the handle works
    /// on, with the map's store. It takes memory for three vectors of seats. Where that is refused, or
    /// a seat is missing, the handle is as it was.
    pub fn settle(&mut self, alloc: Global) -> Result<u64, SettleFault>
        ensures all { (result ≡ Err fault.NotAll) ↔ (IsWhole self.old → ⊥) }
        ensures settled { IfOk result (HaveSettled self.old.map.map (seats_of self.old)
            (seats_of self.new)) }
        ensures map { IsSameMap self.old self.new }
        ensures back { IfErr result (λ _. self.new ≡ self.old) }
    {
        self.map.settle(alloc)
    }
}
