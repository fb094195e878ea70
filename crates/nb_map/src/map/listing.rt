//! All entries of a map at rest, by a walk of one seat.
ghost use Rattle.std.specs.Prelude.{Err, IfOk, [], length, ◌↔◌, ◌≡◌, ◌≢◌};
ghost use Rattle.nb_map.specs.Bulk.{whole_walk_steps};
ghost use Rattle.nb_map.specs.Entries.{HasListed, HasOnlyRead, HaveListed, HaveOnlyRead};
ghost use Rattle.nb_map.specs.Maps.{AreMine, IsMine};
ghost use Rattle.nb_map.specs.declared.faults.SettleFault.TheVariants as fault;

use crate::faults::SettleFault;
use crate::map::{Map, Seat};
use nb_core::{Key, Num, OutOfMemory};
use std::alloc::Global;

impl Map {
    /// With all seats: all entries of the map at this moment, each key once, in no order. Afterwards
    /// each seat's log is one and the same, which leaves just these entries; and the map goes on.
    ///
    /// All seats settle, one of them walks, and all settle again: so the map was the same all the
    /// while. It takes memory for the entries, and what `settle` takes. Where that is refused, the
    /// seats have made reads alone; where a seat is missing, the seats are as they were.
    pub fn entries(
        &self,
        alloc: Global,
        seats: &mut Vec<Seat>,
    ) -> Result<Vec<(Key, Num)>, SettleFault>
        requires own { AreMine self.now seats.old.items }
        ensures all { (result ≡ Err fault.NotAll)
            ↔ (length seats.old.items ≢ self.now.chain.shape.seats) }
        ensures listed { IfOk result (λ entries. HaveListed seats.old.items seats.new.items
            entries.items) }
        ensures read { HaveOnlyRead self.now seats.old.items seats.new.items }
        ensures own { AreMine self.now seats.new.items }
        ensures back { result ≡ Err fault.NotAll → seats.new.items ≡ seats.old.items }
    {
        let size = self.settle(alloc, seats)?;
        let mut entries = Vec::with_capacity(alloc, size as usize)?;
        let Some(mut walker) = seats.pop() else {
            unreachable!();
        };
        let listed = self.list(&mut walker, &mut entries);
        seats.push_reserved(walker);
        listed?;
        let Ok(_) = self.settle(alloc, seats) else {
            return Err(SettleFault::OutOfMemory);
        };
        Ok(entries)
    }

    /// Pushes each entry that a walk shows.
    fn list(&self, seat: &mut Seat, entries: &mut Vec<(Key, Num)>) -> Result<(), OutOfMemory>
        requires own { IsMine self.now seat.old }
        requires empty { entries.old.items ≡ [] }
        ensures listed { IfOk result (λ done. HasListed seat.old seat.new entries.new.items) }
        ensures read { HasOnlyRead self.now seat.old seat.new
            (whole_walk_steps self.now.chain.shape) }
    {
        let mut walk = self.walk(seat);
        while let Some(entry) = self.next_key(seat, &mut walk) {
            entries.push(entry)?;
        }
        Ok(())
    }
}
