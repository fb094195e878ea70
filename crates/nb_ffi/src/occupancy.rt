//! How full a map is, for C.
ghost use Rattle.std.specs.Prelude.{◌≡◌};
ghost use Rattle.nb_ffi.specs.Codes.{occupancy_in_c};

use nb_map::Occupancy;

/// What C calls a `samvolip_slots`: how many slots were looked at in the top table, how many of
/// them were taken, and 1 or 0 for whether that table is the last one.
#[repr(C)]
#[derive(Drop)]
pub struct MapOccupancy {
    pub taken: u32,
    pub looked: u32,
    pub is_last: u32,
}

/// The occupancy, for C.
pub(crate) fn occupancy_in_c(found: Occupancy) -> MapOccupancy
    ensures { result ≡ occupancy_in_c found }
{
    MapOccupancy {
        taken: found.taken,
        looked: found.looked,
        is_last: u32::from(found.is_last),
    }
}
