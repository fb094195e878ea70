//! Shapes for a number of keys.
ghost use Rattle.std.specs.Prelude.{◌≡◌, ◌≤◌, IfOk, Ok};
ghost use Rattle.nb_core.specs.declared.shapes.TheConstants.{
  MAX_EXPONENT,
  MAX_SEATS,
  MAX_STRIPES,
  MOST_KEYS,
};
ghost use Rattle.nb_core.specs.Plans.{
  HasRoomFor,
  checked_for_keys,
  exponent_for,
  plan,
  plan_for_keys,
  steps_down,
  tables_for,
};

use super::{MAX_GENERATIONS, MAX_SEATS, MOST_KEYS, SHARED_STRIPES, Shape, ShapeFault};

/// The fewest slots of the last table.
const SMALLEST_LAST: usize = 32;

/// The least exponent of the first table.
const FIRST_EXPONENT: u32 = 4;

/// By how much each exponent is above the one before it.
const STEP: u32 = 8;

/// The reprobe limit of a shape for so many keys.
const SHORT_PATH: u32 = 18;

/// The chunk of a shape for so many keys.
const KEYS_CHUNK: u32 = 32;

impl Shape {
    /// The shape for so many different keys, up to [`MOST_KEYS`], and 1 to [`MAX_SEATS`] seats;
    /// other numbers are [`ShapeFault::Keys`], and then [`ShapeFault::Seats`]. The last table has
    /// half as many slots again as there are keys, and more by the next power of two. A put is
    /// refused as full only where other keys have all slots of it.
    ///
    /// Each table has a 256th of the slots of the next one, down to 16 at least, so that a growth
    /// copies little, and a map with few keys stays small in the cache. There is a stripe for each
    /// seat, but no more than 16. The reprobe limit is 18, and a chunk has 32 slots, by which the
    /// longest put measured shortest.
    pub fn for_keys(most: usize, seats: usize) -> Result<Shape, ShapeFault>
        ensures shape { result ≡ checked_for_keys most seats }
        ensures room { IfOk result (λ p. HasRoomFor p most) }
    {
        if most > MOST_KEYS {
            return Err(ShapeFault::Keys);
        }
        if seats < 1 || seats > MAX_SEATS {
            return Err(ShapeFault::Seats);
        }
        Self::with_room(most, seats)
    }

    /// The shape for so many keys and seats, which are in range.
    fn with_room(most: usize, seats: usize) -> Result<Shape, ShapeFault>
        requires keys { most ≤ MOST_KEYS }
        requires seats { (1 ≤ seats) × (seats ≤ MAX_SEATS) }
        ensures { result ≡ Ok (plan_for_keys most seats) }
    {
        let stripes = seats.min(SHARED_STRIPES);
        Self::stepped(last_exponent(most), seats as u16, stripes as u16)
            .with_reprobe_limit(SHORT_PATH)?
            .with_chunk(KEYS_CHUNK)
    }

    /// The shape of tables of which the last has `2^last` slots, and each one before it `2^STEP`
    /// times fewer than the next, as many as there are.
    fn stepped(last: u32, seats: u16, stripes: u16) -> Shape
        requires last { (FIRST_EXPONENT ≤ last) × (last ≤ MAX_EXPONENT) }
        requires seats { (1 ≤ seats) × (seats ≤ MAX_SEATS) }
        requires stripes { (1 ≤ stripes) × (stripes ≤ MAX_STRIPES) }
        ensures { result ≡ plan (steps_down (tables_for last) last) seats stripes }
    {
        let tables = (last - FIRST_EXPONENT) / STEP + 1;
        let mut exponents = [0; MAX_GENERATIONS];
        for g in 0..tables {
            exponents[g as usize] = last - STEP * (tables - 1 - g);
        }
        Self::laid_out(&exponents[..tables as usize], seats, stripes)
    }
}

/// The exponent of the last table for so many keys.
fn last_exponent(most: usize) -> u32
    requires { most ≤ MOST_KEYS }
    ensures first { result ≡ exponent_for most }
    ensures least { 5 ≤ result }
    ensures greatest { result ≤ MAX_EXPONENT }
{
    let slots = (most + most / 2).max(SMALLEST_LAST);
    (slots - 1).ilog2() + 1
}
