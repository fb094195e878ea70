//! A walk that C has in a struct of its own.
ghost use Rattle.std.specs.Prelude.{◌≡◌};
ghost use Rattle.nb_ffi.specs.Cursors.{place_in};

use nb_map::{Place, WalkPlace};

/// What C calls a `samvolip_cursor`: where a walk is that a seat has begun. That is a slot of a table,
/// or the end.
#[repr(C)]
#[derive(Drop)]
pub struct Cursor {
    pub first: u32,
    pub table: u32,
    pub slot: usize,
    pub is_over: u32,
}

impl Cursor {
    /// The place of the walk.
    pub(crate) fn place(&self) -> WalkPlace
        ensures { result ≡ place_in self.now }
    {
        let place = match self.is_over {
            0 => Place::Slot(self.table, self.slot),
            _ => Place::End,
        };
        WalkPlace {
            first: self.first,
            place,
        }
    }

    /// A cursor at this place.
    pub(crate) fn at(walk: WalkPlace) -> Cursor
        ensures { place_in result ≡ walk }
    {
        let (table, slot, is_over) = match walk.place {
            Place::Slot(table, slot) => (table, slot, 0),
            Place::End => (0, 0, 1),
        };
        Cursor {
            first: walk.first,
            table,
            slot,
            is_over,
        }
    }
}
