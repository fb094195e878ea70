//! Shapes of any tables, and of any number of seats and stripes.
ghost use Rattle.std.specs.Prelude.{◌≡◌, ◌≤◌, All, length};
ghost use Rattle.nb_core.specs.declared.shapes.TheConstants.{MAX_EXPONENT, MAX_GENERATIONS};
ghost use Rattle.nb_core.specs.Plans.{checked_seats, checked_stripes, checked_tables, slots_in};

use super::{MAX_EXPONENT, MAX_SEATS, MAX_SLOTS, MAX_STRIPES, Shape, ShapeFault, check_exponents};

impl Shape {
    /// A table of `2^e` slots for each exponent: 1 to 16 exponents from 2 to 28, none below the one
    /// before it, and at most [`MAX_SLOTS`] slots in all. The first of these that is wrong is the
    /// fault: [`ShapeFault::Generations`], `Bits`, `Plan` or `Slots`. A map takes 16 bytes for each
    /// slot, all when it is made, and twice as much while it is made.
    ///
    /// There is one seat and one stripe, until [`with_seats`](Shape::with_seats) and
    /// [`with_stripes`](Shape::with_stripes) ask for more;
    /// [`with_reprobe_limit`](Shape::with_reprobe_limit) and [`with_chunk`](Shape::with_chunk) tune
    /// how a map grows.
    pub fn of_tables(exponents: &[u32]) -> Result<Shape, ShapeFault>
        ensures { result ≡ checked_tables exponents.now }
    {
        check_exponents(exponents, MAX_EXPONENT)?;
        if slots_of(exponents) > MAX_SLOTS {
            return Err(ShapeFault::Slots);
        }
        Ok(Self::laid_out(exponents, 1, 1))
    }

    /// The same with so many seats, 1 to [`MAX_SEATS`]: that many may call at the same time. Any
    /// other number is [`ShapeFault::Seats`].
    pub fn with_seats(self, seats: usize) -> Result<Shape, ShapeFault>
        ensures { result ≡ checked_seats self seats }
    {
        if !(1..=MAX_SEATS).contains(&seats) {
            return Err(ShapeFault::Seats);
        }
        Ok(Shape {
            seats: seats as u16,
            ..self
        })
    }

    /// The same with so many stripes, 1 to [`MAX_STRIPES`]. Any other number is
    /// [`ShapeFault::Stripes`]. A stripe takes 64 bytes. Seats that put new keys or remove keys get
    /// in each other's way where they share one; an estimate of the size looks at each.
    pub fn with_stripes(self, stripes: usize) -> Result<Shape, ShapeFault>
        ensures { result ≡ checked_stripes self stripes }
    {
        if !(1..=MAX_STRIPES).contains(&stripes) {
            return Err(ShapeFault::Stripes);
        }
        Ok(Shape {
            stripes: stripes as u16,
            ..self
        })
    }
}

/// How many slots tables of these exponents have, all together.
fn slots_of(exponents: &[u32]) -> usize
    requires few_tables { length exponents.now ≤ MAX_GENERATIONS }
    requires sizes { All (λ e. (2 ≤ e) × (e ≤ MAX_EXPONENT)) exponents.now }
    ensures { result ≡ slots_in exponents.now }
{
    let mut slots = 0;
    for exponent in exponents {
        slots += 1 << *exponent;
    }
    slots
}
