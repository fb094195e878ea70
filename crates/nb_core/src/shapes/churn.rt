//! Shapes for keys that come and go.
ghost use Rattle.std.specs.Prelude.{◌≡◌, ◌*◌, ◌^◌, ◌<◌, ◌≤◌, IfOk, IfSome, SomeIff};
ghost use Rattle.nb_core.specs.Plans.{
  HasRoomForChurn,
  checked_for_churn,
  exponent_for_churn,
  room_for_churn,
  slots_for,
  tables_for_churn,
};

use super::{
    LARGE_CHUNK, MAX_GENERATIONS, MAX_SEATS, MAX_SLOTS, SHARED_STRIPES, Shape, ShapeFault,
};

/// The least exponent of a shape for keys that come and go. Smaller tables grow too early, now and
/// then, where keys are spread by chance.
const CHURN_LEAST: u32 = 9;

/// The greatest exponent of such a shape: as many of these tables as there may be have
/// [`MAX_SLOTS`] slots.
const CHURN_GREATEST: u32 = 26;

impl Shape {
    /// The shape for keys that come and go: at most `live` keys at a time, and `ever` of them in
    /// all. Each coming counts, also that of a key that was there before. There are 1 to
    /// [`MAX_SEATS`] seats. Where there are no tables for so many keys, that is
    /// [`ShapeFault::Keys`], and another number of seats is [`ShapeFault::Seats`], in this order.
    /// There may be 33,554,432 live keys, with 380,283,563 of them in all; or with few at a time,
    /// 715 million in all.
    ///
    /// All tables have one size, from 512 slots on, and at least two slots for each live key. Where
    /// a table fills, the map grows into the next one, and leaves the removed keys behind. So the
    /// first table has `size` slots for new keys, and each later one `size - live`. Together they
    /// have room for half as many keys again as `ever`, as one table alone has by
    /// [`for_keys`](Shape::for_keys). The size is the smallest for which 16 tables are enough, and
    /// there are no more tables than are needed.
    ///
    /// That the tables have so many slots is proved. How many keys come before a map of this shape
    /// refuses one as full is measured, not proved, and holds where the keys' low bits are spread,
    /// as those of ids from a counter or of mixed keys ([`mix`](crate::mix)) are. Tables that are
    /// filled by chance grow before they are quite full, so a part of the third in reserve is
    /// needed. When `ever` keys have come, a new map is due, by the rule of two thirds.
    ///
    /// There is no reprobe limit beside that of a table's size: a short one would have tables grow
    /// while they are half empty. So new keys come slowly to a table just before it grows, since
    /// they look for a free slot in up to a quarter of it. There is a stripe for each seat, but no
    /// more than 16. A map takes 16 bytes for each slot, all when it is made.
    pub fn for_churn(live: usize, ever: usize, seats: usize) -> Result<Shape, ShapeFault>
        ensures shape { result ≡ checked_for_churn live ever seats }
        ensures room { IfOk result (λ p. HasRoomForChurn p live ever) }
    {
        let Some(exponent) = smallest_exponent(live, ever) else {
            return Err(ShapeFault::Keys);
        };
        if seats < 1 || seats > MAX_SEATS {
            return Err(ShapeFault::Seats);
        }
        let tables = fewest_tables(live, ever, 1 << exponent);
        let exponents = [exponent; MAX_GENERATIONS];
        let stripes = seats.min(SHARED_STRIPES);
        Self::laid_out(&exponents[..tables], seats as u16, stripes as u16).with_chunk(LARGE_CHUNK)
    }
}

/// The exponent of the smallest tables that suit so many keys, if there are any.
fn smallest_exponent(live: usize, ever: usize) -> Option<u32>
    ensures first { SomeIff result (exponent_for_churn live ever ≤ CHURN_GREATEST) (exponent_for_churn live ever) }
    ensures least { IfSome result (λ e. CHURN_LEAST ≤ e) }
    ensures twice { IfSome result (λ e. 2 * live ≤ 2 ^ e) }
    ensures room { IfSome result (λ e. slots_for ever ≤ room_for_churn MAX_GENERATIONS (2 ^ e) live) }
{
    if live.max(ever) > MAX_SLOTS {
        return None;
    }
    let copied = live * (MAX_GENERATIONS - 1);
    let share = (ever + ever / 2 + copied).div_ceil(MAX_GENERATIONS);
    let slots = share.max(2 * live).max(1 << CHURN_LEAST);
    let exponent = (slots - 1).ilog2() + 1;
    if exponent > CHURN_GREATEST {
        return None;
    }
    Some(exponent)
}

/// The fewest tables of so many slots that have room for so many keys.
fn fewest_tables(live: usize, ever: usize, size: usize) -> usize
    requires few { size ≤ 2 ^ CHURN_GREATEST }
    requires more { live < size }
    requires room { slots_for ever ≤ room_for_churn MAX_GENERATIONS size live }
    ensures first { result ≡ tables_for_churn live ever size }
    ensures some { (1 ≤ result) × (result ≤ MAX_GENERATIONS) }
    ensures room { slots_for ever ≤ room_for_churn result size live }
{
    1 + (ever + ever / 2).saturating_sub(size).div_ceil(size - live)
}
