//! A map that has entries from the start.
ghost use Rattle.std.specs.Prelude.{Err, IfOk, ◌≡◌};
ghost use Rattle.nb_map.specs.Maps.{AreMine, IsMadeFor, IsMine};
ghost use Rattle.nb_map.specs.Opening.{HaveBegunWith, IsTooSmallFor, map_of_entries};
ghost use Rattle.nb_map.specs.inside.Filling.{HasFilled};
ghost use Rattle.nb_map.specs.declared.faults.OpenFault.TheVariants as fault;

use crate::faults::OpenFault;
use crate::map::{Map, Seat};
use nb_core::{Key, Num, Shape};
use std::alloc::Global;

impl Map {
    /// A map that has just these entries, and its seats, which know of them. Where a key comes
    /// twice, the later entry wins. It takes the memory that `new` takes, and that of `settle`
    /// while it runs. It makes a write for each entry, and settles the seats.
    pub fn with_entries(
        alloc: Global,
        shape: Shape,
        entries: &[(Key, Num)],
    ) -> Result<(Map, Vec<Seat>), OpenFault>
        ensures made { IfOk result (λ made. IsMadeFor made.0 shape) }
        ensures begun { IfOk result (λ made. HaveBegunWith made.0 (map_of_entries entries.now)
            made.1.items) }
        ensures own { IfOk result (λ made. AreMine made.0 made.1.items) }
        ensures full { result ≡ Err fault.Full → IsTooSmallFor shape (map_of_entries entries.now) }
    {
        let (map, mut seats) = Map::new(alloc, shape)?;
        let Some(mut last) = seats.pop() else {
            unreachable!();
        };
        let filled = map.fill(&mut last, entries);
        seats.push_reserved(last);
        let Ok(_) = map.settle(alloc, &mut seats) else {
            return Err(OpenFault::OutOfMemory);
        };
        if filled {
            Ok((map, seats))
        } else {
            Err(OpenFault::Full)
        }
    }

    /// Puts entries, in their order, as long as there is room, and answers whether all are put. It
    /// is for a map that nobody else writes, and tries each put once.
    fn fill(&self, seat: &mut Seat, entries: &[(Key, Num)]) -> bool
        requires own { IsMine self.now seat.old }
        ensures { HasFilled self.now entries.now seat.old seat.new result }
    {
        let mut rest = entries;
        while let Some(((key, number), tail)) = rest.split_first() {
            number.known();
            if self.try_put(seat, *key, *number, 1).is_err() {
                return false;
            }
            rest = tail;
        }
        true
    }
}
