//! All keys of a set at rest, by the handle that has all its seats.
ghost use Rattle.std.specs.Prelude.{Err, IfOk, ◌↔◌, ◌≡◌};
ghost use Rattle.nb_map.specs.declared.faults.SettleFault.TheVariants as fault;
ghost use Rattle.nb_set.specs.Handles.{IsWhole, seats_of};
ghost use Rattle.nb_set.specs.Listing.{HaveListed};
ghost use Rattle.nb_set.specs.Renewing.{IsKept};

use crate::handle::Handle;
use crate::set::listing::keys_listed;
use nb_core::Key;
use nb_map::SettleFault;
use std::alloc::Global;

impl Handle {
    /// With all seats: all keys of the set at this moment, each once, in no order: `LongSet::keys`.
    /// It takes memory for the keys twice, and what `settle` takes. Where that is refused, the seats
    /// have only asked for keys; where a seat is missing, the handle is as it was. It waits for
    /// nobody.
    pub fn keys(&mut self, alloc: Global) -> Result<Vec<Key>, SettleFault>
        ensures all { (result ≡ Err fault.NotAll) ↔ (IsWhole self.old → ⊥) }
        ensures listed { IfOk result (λ keys. HaveListed (seats_of self.old) (seats_of self.new)
            keys.items) }
        ensures kept { IsKept self.old self.new }
        ensures back { result ≡ Err fault.NotAll → self.new ≡ self.old }
    {
        let listed = self.map.entries(alloc);
        keys_listed(alloc, listed)
    }
}
