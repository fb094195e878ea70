//! A set that has keys from the start.
ghost use Rattle.std.specs.Prelude.{Err, IfOk, map, ◌≡◌};
ghost use Rattle.nb_map.specs.declared.faults.OpenFault.TheVariants as fault;
ghost use Rattle.nb_set.specs.OfMap.{pair_for};
ghost use Rattle.nb_set.specs.Opening.{HaveBegunWith, IsTooSmallFor, set_of_keys};
ghost use Rattle.nb_set.specs.Sets.{AreMine, IsMadeFor};

use crate::set::{LongSet, present};
use nb_core::{Key, Num, OutOfMemory, Shape};
use nb_map::{Map, OpenFault, Seat};
use std::alloc::Global;

impl LongSet {
    /// A set that has just these keys, and its seats, which know of them. A key may come twice. It
    /// takes the memory that `new` takes, and while it runs that for entries of the map and that of
    /// `settle`. It makes a write for each key, and settles the seats.
    pub fn with_keys(
        alloc: Global,
        shape: Shape,
        keys: &[Key],
    ) -> Result<(LongSet, Vec<Seat>), OpenFault>
        ensures made { IfOk result (λ made. IsMadeFor made.0 shape) }
        ensures begun { IfOk result (λ made. HaveBegunWith made.0 (set_of_keys keys.now)
            made.1.items) }
        ensures own { IfOk result (λ made. AreMine made.0 made.1.items) }
        ensures full { result ≡ Err fault.Full → IsTooSmallFor shape (set_of_keys keys.now) }
    {
        let entries = entries_of(alloc, keys)?;
        let (map, seats) = Map::with_entries(alloc, shape, entries.as_slice())?;
        Ok((LongSet { map }, seats))
    }
}

/// The map's entries for keys of a set.
pub(crate) fn entries_of(alloc: Global, keys: &[Key]) -> Result<Vec<(Key, Num)>, OutOfMemory>
    ensures { IfOk result (λ entries. entries.items ≡ map pair_for keys.now) }
{
    let mut entries = Vec::with_capacity(alloc, keys.len())?;
    for key in keys {
        entries.push_reserved((*key, present()));
    }
    Ok(entries)
}
