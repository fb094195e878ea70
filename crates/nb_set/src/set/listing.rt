//! All keys of a set at rest, by all its seats.
ghost use Rattle.std.specs.Prelude.{Err, IfOk, Ok, length, map, ◌≡◌, ◌≢◌, ◌↔◌, ◌⊎◌};
ghost use Rattle.nb_map.specs.declared.faults.SettleFault.TheVariants as fault;
ghost use Rattle.nb_set.specs.Listing.{HaveListed};
ghost use Rattle.nb_set.specs.Renewing.{HaveOnlyAsked};
ghost use Rattle.nb_set.specs.Sets.{AreMine, shape_of};

use crate::set::LongSet;
use nb_core::{Key, Num, OutOfMemory};
use nb_map::{Seat, SettleFault};
use std::alloc::Global;

impl LongSet {
    /// With all seats: all keys of the set at this moment, each once, in no order. Afterwards each
    /// seat's log is one and the same, which leaves just these keys; and the set goes on. It takes
    /// memory for the keys twice, and what `settle` takes. Where that is refused, the seats have
    /// only asked for keys; where a seat is missing, the seats are as they were.
    pub fn keys(&self, alloc: Global, seats: &mut Vec<Seat>) -> Result<Vec<Key>, SettleFault>
        requires own { AreMine self.now seats.old.items }
        ensures all { (result ≡ Err fault.NotAll)
            ↔ (length seats.old.items ≢ (shape_of self.now).seats) }
        ensures listed { IfOk result (λ keys. HaveListed seats.old.items seats.new.items
            keys.items) }
        ensures asked { (seats.new.items ≡ seats.old.items)
            ⊎ HaveOnlyAsked self.now seats.old.items seats.new.items }
        ensures own { AreMine self.now seats.new.items }
        ensures back { result ≡ Err fault.NotAll → seats.new.items ≡ seats.old.items }
    {
        let listed = self.map.entries(alloc, seats);
        keys_listed(alloc, listed)
    }
}

/// The keys of entries, if these are listed.
pub(crate) fn keys_listed(
    alloc: Global,
    listed: Result<Vec<(Key, Num)>, SettleFault>,
) -> Result<Vec<Key>, SettleFault>
    ensures all { (result ≡ Err fault.NotAll) ↔ (listed ≡ Err fault.NotAll) }
    ensures keys { IfOk result (λ keys. (entries : _) × (listed ≡ Ok entries)
        × (keys.items ≡ map (λ entry. entry.0) entries.items)) }
{
    match listed {
        Err(fault) => Err(fault),
        Ok(entries) => match keys_in(alloc, entries) {
            Ok(keys) => Ok(keys),
            Err(_) => Err(SettleFault::OutOfMemory),
        },
    }
}

/// The keys of these entries.
pub(crate) fn keys_in(alloc: Global, entries: Vec<(Key, Num)>) -> Result<Vec<Key>, OutOfMemory>
    ensures { IfOk result (λ keys. keys.items ≡ map (λ entry. entry.0) entries.items) }
{
    let mut keys = Vec::with_capacity(alloc, entries.len())?;
    for (key, _) in entries {
        keys.push_reserved(key);
    }
    Ok(keys)
}
