//! The shape of a map, as C asks for it.
ghost use Rattle.std.specs.Prelude.{◌≡◌, take};
ghost use Rattle.nb_ffi.specs.Shapes.{checked_map_shape, checked_tuned};

use crate::codes::{E_TABLES, shape_code};
use nb_core::{MAX_GENERATIONS, Shape, ShapeFault};

/// So many tables with `2^e` slots for each exponent, seats, stripes, and what tunes growth.
#[repr(C)]
#[derive(Drop)]
pub struct MapShape {
    pub exponents: [u32; 16],
    pub tables: u32,
    pub seats: u32,
    pub stripes: u32,
    pub reprobes: u32,
    pub chunk: u32,
}

impl MapShape {
    /// The shape of the map, or the code of the first thing that is wrong with it.
    pub(crate) fn checked(&self) -> Result<Shape, i32>
        ensures { result ≡ checked_map_shape self.now }
    {
        let tables = self.tables as usize;
        if tables > MAX_GENERATIONS {
            return Err(E_TABLES);
        }
        match self.tuned(&self.exponents[..tables]) {
            Ok(shape) => Ok(shape),
            Err(fault) => Err(shape_code(fault)),
        }
    }

    /// The same with these exponents alone.
    fn tuned(&self, exponents: &[u32]) -> Result<Shape, ShapeFault>
        ensures { result ≡ checked_tuned exponents.now self.now }
    {
        Shape::of_tables(exponents)?
            .with_seats(self.seats as usize)?
            .with_stripes(self.stripes as usize)?
            .with_reprobe_limit(self.reprobes)?
            .with_chunk(self.chunk)
    }
}
