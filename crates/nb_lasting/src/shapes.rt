//! The shape of a map for so many keys.
ghost use Rattle.std.specs.Prelude.{◌≡◌, ◌≤◌, max};
ghost use Rattle.nb_core.specs.declared.shapes.TheConstants.{MAX_SEATS, MOST_KEYS};
ghost use Rattle.nb_lasting.specs.Lasting.{HasSlots, shape_made_for};

use nb_core::{MAX_EXPONENT, MOST_KEYS, Shape};

/// The fewest keys that a map is made for.
pub(crate) const LEAST: usize = 20;

/// The fewest keys that a map is made anew for: its last table has 2^10 slots.
pub(crate) const LEAST_ANEW: usize = 682;

/// How many slots the greatest table has.
pub(crate) const GREATEST: u64 = 1 << MAX_EXPONENT;

/// The shape for so many keys, or the greatest one, with so many seats.
pub(crate) fn shape_for(keys: usize, seats: usize) -> Shape
    requires seats { (1 ≤ seats) × (seats ≤ MAX_SEATS) }
    ensures seats { result.seats ≡ seats }
    ensures slots { HasSlots keys result }
    ensures shape { result ≡ shape_made_for keys seats }
{
    match Shape::for_keys(keys.max(LEAST).min(MOST_KEYS), seats) {
        Ok(shape) => shape,
        Err(_) => unreachable!(),
    }
}
