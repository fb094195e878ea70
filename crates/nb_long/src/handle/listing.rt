//! All entries of a typed map at rest, by the handle that has all its seats.
ghost use Rattle.std.specs.Prelude.{Err, IfOk, ◌↔◌, ◌≡◌};
ghost use Rattle.nb_map.specs.Entries.{HaveListed};
ghost use Rattle.nb_map.specs.declared.faults.SettleFault.TheVariants as fault;
ghost use Rattle.nb_long.specs.Handles.{IsWhole, seats_of};
ghost use Rattle.nb_long.specs.Renewing.{IsKept};

use crate::handle::Handle;
use nb_core::{Key, Num};
use nb_map::SettleFault;
use std::alloc::Global;

impl<V: Drop> Handle<V> {
    /// With all seats: all keys of the map at this moment, each once, in no order, with the numbers
    /// of their values, which `show` reads: `Map::entries`. It takes memory for the entries, and what
    /// `settle` takes. Where that is refused, the seats have made reads alone; where a seat is
    /// missing, the handle is as it was. It waits for nobody.
    pub fn entries(&mut self, alloc: Global) -> Result<Vec<(Key, Num)>, SettleFault>
        ensures all { (result ≡ Err fault.NotAll) ↔ (IsWhole self.old → ⊥) }
        ensures listed { IfOk result (λ entries. HaveListed (seats_of self.old) (seats_of self.new)
            entries.items) }
        ensures kept { IsKept self.old self.new }
        ensures back { result ≡ Err fault.NotAll → self.new ≡ self.old }
    {
        self.map.entries(alloc)
    }
}
