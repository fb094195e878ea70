//! All entries of a map at rest, by the handle that has all its seats.
ghost use Rattle.std.specs.Prelude.{Err, IfOk, ◌↔◌, ◌≡◌, ◌≢◌};
ghost use Rattle.nb_map.specs.Entries.{HaveListed};
ghost use Rattle.nb_map.specs.Handles.{IsWhole, seats_of};
ghost use Rattle.nb_map.specs.Renewing.{IsKept};
ghost use Rattle.nb_map.specs.declared.faults.SettleFault.TheVariants as fault;

use crate::faults::SettleFault;
use crate::handle::Handle;
use crate::handle::reserve::Reserve;
use core::mem;
use nb_core::{Key, Num};
use std::alloc::Global;

impl Handle {
    /// With all seats: all entries of the map at this moment, each key once, in no order:
    /// `Map::entries`. It takes memory for the entries, and what `settle` takes. Where that is
    /// refused, the seats have made reads alone; where a seat is missing, the handle is as it was.
    /// It waits for nobody.
    pub fn entries(&mut self, alloc: Global) -> Result<Vec<(Key, Num)>, SettleFault>
        ensures all { (result ≡ Err fault.NotAll) ↔ (IsWhole self.old → ⊥) }
        ensures listed { IfOk result (λ entries. HaveListed (seats_of self.old) (seats_of self.new)
            entries.items) }
        ensures kept { IsKept self.old self.new }
        ensures back { result ≡ Err fault.NotAll → self.new ≡ self.old }
    {
        if !self.is_whole() {
            return Err(SettleFault::NotAll);
        }
        mem::replace_with(self, alloc, Handle::listed)
    }

    /// The same, of a whole handle that nobody else has meanwhile.
    fn listed(self, alloc: Global) -> (Handle, Result<Vec<(Key, Num)>, SettleFault>)
        requires whole { IsWhole self }
        ensures all { result.1 ≢ Err fault.NotAll }
        ensures listed { IfOk result.1 (λ entries. HaveListed (seats_of self) (seats_of result.0)
            entries.items) }
        ensures kept { IsKept self result.0 }
    {
        let Ok(room) = Vec::with_capacity(alloc, self.seats()) else {
            return (self, Err(SettleFault::OutOfMemory));
        };
        let Handle {
            shared,
            seat,
            reserve,
        } = self;
        let (mut seats, nodes) = reserve.gathered(seat, room);
        let entries = shared.map.entries(alloc, &mut seats);
        let (seat, reserve) = Reserve::spread(seats, nodes);
        let handle = Handle {
            shared,
            seat,
            reserve,
        };
        (handle, entries)
    }
}
