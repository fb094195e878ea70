//! Walks over the keys of a map, by a seat.
ghost use Rattle.std.specs.Prelude.{◌≡◌};
ghost use Rattle.nb_map.specs.Maps.{IsMine, SeatOf};
ghost use Rattle.nb_map.specs.Promises.{HasBegunWalk, HasBegunWalkAt, HasWalkedOn, HasWalkedUpTo};
ghost use Rattle.nb_map.specs.Walks.{IsWalkOf, bound_at, walk_from};

use crate::map::{Map, Seat};
use crate::steps::walk::{Place, next_before, next_from};
use nb_core::{Key, Num};
use std::marker::Model;
use std::snapshot::Snapshot;

/// A walk over the keys of a map, which `Map::walk` begins and `Map::next_key` takes on. It goes
/// through the tables, from the one that was the top one on, each in the order of its slots; so the
/// order of the keys is none that a user knows. It is a few words, and borrows nothing: the map is
/// read and written meanwhile, also with the walk's own seat. Contracts see the seat as it was when
/// it began the walk.
#[derive(Drop)]
pub struct Walk {
    pub(crate) at: WalkPlace,
    /// Only clauses read it; it takes no memory.
    pub(crate) begun: Snapshot<Seat>,
}

/// How far a walk has come: its first table, and its place. Where a walk is kept as plain numbers, as
/// in a struct of C, contracts name the seat with which it began beside them.
#[derive(Clone, Copy)]
pub struct WalkPlace {
    pub first: u32,
    pub place: Place,
}

impl Model for Walk {
    ghost use Rattle.nb_map.specs.Walks.{WalkOf};

    ghost Value = { WalkOf };

    ghost use Rattle.nb_map.specs.inside.Models.{walk_of};

    ghost view = { walk_of };
}

impl Map {
    /// Begins a walk over the map's keys in the table that is the top one now, by one load of the
    /// top word.
    pub fn walk(&self, seat: &mut Seat) -> Walk
        requires own { IsMine self.now seat.old }
        ensures { HasBegunWalk self.now seat.old seat.new result }
    {
        let at = self.walk_from_top(seat);
        Walk {
            at,
            begun: Snapshot::of(seat),
        }
    }

    /// The same, as the place where the walk begins.
    pub fn walk_from_top(&self, seat: &mut Seat) -> WalkPlace
        requires own { IsMine self.now seat.old }
        ensures { HasBegunWalk self.now seat.old seat.new (walk_from seat.new result) }
    {
        let first = self.generation(seat);
        WalkPlace {
            first,
            place: Place::Slot(first, 0),
        }
    }

    /// Begins a walk with this slot of the table that is the top one now, by one load of the top
    /// word. There is none where that table has no such slot. Slot 0 makes it a walk over all keys,
    /// as `walk_from_top` begins it; any other one leaves out the keys whose first place comes
    /// before it.
    pub fn walk_from_slot(&self, seat: &mut Seat, slot: usize) -> Option<WalkPlace>
        requires own { IsMine self.now seat.old }
        ensures { HasBegunWalkAt self.now seat.old seat.new slot result }
    {
        let top = self.generation(seat);
        if slot < self.chain.shape().size_of(top) {
            Some(WalkPlace {
                first: top,
                place: Place::Slot(top, slot),
            })
        } else {
            None
        }
    }

    /// The next key of a walk that this seat has begun, with its number: `while let Some((key,
    /// number)) = map.next_key(&mut seat, &mut walk)` goes through the map while others write it.
    /// Each pair that is shown is a `get` of this seat with its place in the log; no key is shown
    /// twice; and from `walk` to the `None` that ends it, each key that the map has all the while
    /// is shown (`laws::whole_walk`). A key that comes or goes meanwhile may be shown or not. After
    /// `None` it answers `None` for ever.
    ///
    /// As long as the walk's first table has no next one, a slot costs one load and a key one more.
    /// All calls of a walk together make at most T (T + B + 4) steps on the chain, whose tables
    /// have T slots and a `get` at most B steps.
    pub fn next_key(&self, seat: &mut Seat, walk: &mut Walk) -> Option<(Key, Num)>
        requires own { IsMine self.now seat.old }
        requires walk { IsWalkOf self.now seat.old walk.old }
        ensures { HasWalkedOn self.now seat.old seat.new walk.old walk.new result }
    {
        self.next_key_from(seat, &mut walk.at)
    }

    /// The same of each walk of the seat's that is at this place.
    pub fn next_key_from(&self, seat: &mut Seat, at: &mut WalkPlace) -> Option<(Key, Num)>
        requires own { IsMine self.now seat.old }
        requires walk { (begun : SeatOf) × IsWalkOf self.now seat.old (walk_from begun at.old) }
        ensures walked { (begun : SeatOf) → IsWalkOf self.now seat.old (walk_from begun at.old)
            → HasWalkedOn self.now seat.old seat.new (walk_from begun at.old)
            (walk_from begun at.new) result }
        ensures own { IsMine self.now seat.new }
    {
        next_from(&self.chain, &mut seat.chain, at.first, &mut at.place)
    }

    /// The same up to slot `end` of the walk's first table: `None` says that it has come there, or
    /// is beyond. Where that table has no such slot, the walk goes on to its end.
    ///
    /// So several seats share a walk while the top table stays the same: one goes from slot 0 to
    /// slot `a`, the next one from there to slot `b`, and the last one goes on to the walk's end.
    /// Each shows every key that the map has all the while, from the beginning of its part to its
    /// end, and whose first place (`place_of`) lies in the part; and each key that it shows has its
    /// first place there. Where nobody writes meanwhile, they show together just the entries of the
    /// map, each once.
    pub fn next_key_before(
        &self,
        seat: &mut Seat,
        at: &mut WalkPlace,
        end: usize,
    ) -> Option<(Key, Num)>
        requires own { IsMine self.now seat.old }
        requires walk { (begun : SeatOf) × IsWalkOf self.now seat.old (walk_from begun at.old) }
        ensures walked { (begun : SeatOf) → IsWalkOf self.now seat.old (walk_from begun at.old)
            → HasWalkedUpTo self.now (bound_at self.now.chain.shape at.old.first end)
            seat.old seat.new (walk_from begun at.old) (walk_from begun at.new) result }
        ensures own { IsMine self.now seat.new }
    {
        if end < self.chain.shape().size_of(at.first) {
            next_before(&self.chain, &mut seat.chain, at.first, &mut at.place, end)
        } else {
            next_from(&self.chain, &mut seat.chain, at.first, &mut at.place)
        }
    }
}
