//! Parts of a walk, which are written into a caller's array.
ghost use Rattle.std.specs.Prelude.{IfSome, List, None, length, ℕ, ◌<◌, ◌≡◌};
ghost use Rattle.nb_map.specs.Maps.{SeatOf};
ghost use Rattle.nb_map.specs.Walks.{IsWalkOf, walk_from};
ghost use Rattle.nb_ffi.specs.Entries.{written_over};
ghost use Rattle.nb_ffi.specs.Listing.{HasListedPart, HasListedWholePart};

use crate::ended_map::MapEntry;
use nb_map::{Handle, WalkPlace};

/// Takes a walk on, up to slot `end` of its first table, and writes what it shows into the array,
/// as long as there is room: how many entries it wrote, where it came to the slot or to the walk's
/// end; or `None`, where the array is full.
pub(crate) fn list(
    handle: &mut Handle,
    at: &mut WalkPlace,
    end: usize,
    room: &mut [MapEntry],
) -> Option<usize>
    requires walk { (begun : SeatOf)
        × IsWalkOf handle.old.map handle.old.seat (walk_from begun at.old) }
    ensures full { result ≡ None → (pairs : List (ℕ × ℕ)) × (length pairs ≡ length room.old)
        × (room.new ≡ written_over pairs room.old)
        × HasListedPart end at.old at.new pairs handle.old handle.new }
    ensures all { IfSome result (λ count. (pairs : List (ℕ × ℕ)) × (count ≡ length pairs)
        × (length pairs < length room.old) × (room.new ≡ written_over pairs room.old)
        × HasListedWholePart end at.old at.new pairs handle.old handle.new) }
{
    for i in 0..room.len() {
        let Some((key, number)) = handle.next_key_before(at, end) else {
            return Some(i);
        };
        room[i] = MapEntry {
            key: key.get(),
            number: number.get(),
        };
    }
    None
}
