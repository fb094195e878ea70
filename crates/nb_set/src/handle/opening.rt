//! A new set, as the one handle that has all its seats.
ghost use Rattle.std.specs.Prelude.{All, Err, IfOk, [], ◌≡◌};
ghost use Rattle.nb_map.specs.declared.faults.OpenFault.TheVariants as fault;
ghost use Rattle.nb_set.specs.Handles.{seats_of};
ghost use Rattle.nb_set.specs.Opening.{BeginsWith, IsTooSmallFor, set_of_keys};
ghost use Rattle.nb_set.specs.Sets.{IsMadeFor, log, new_seats};

use crate::handle::Handle;
use crate::set::opening::entries_of;
use nb_core::{Key, OutOfMemory, Shape};
use nb_map::OpenFault;
use std::alloc::Global;

impl Handle {
    /// A new set, as the one handle that has all its seats: one to call with, and the others in
    /// reserve.
    pub fn open(alloc: Global, shape: Shape) -> Result<Handle, OutOfMemory>
        ensures made { IfOk result (λ handle. IsMadeFor handle.set shape) }
        ensures seats { IfOk result (λ handle. seats_of handle ≡ new_seats handle.set shape.seats) }
        ensures empty { IfOk result (λ handle. All (λ seat. log seat ≡ []) (seats_of handle)) }
    {
        let map = nb_map::Handle::open(alloc, shape)?;
        Ok(Handle { map })
    }

    /// A new set that has just these keys, as the one handle that has all its seats:
    /// `LongSet::with_keys`. A key may come twice.
    pub fn open_with(alloc: Global, shape: Shape, keys: &[Key]) -> Result<Handle, OpenFault>
        ensures begun { IfOk result (BeginsWith shape (set_of_keys keys.now)) }
        ensures full { result ≡ Err fault.Full → IsTooSmallFor shape (set_of_keys keys.now) }
    {
        let entries = entries_of(alloc, keys)?;
        let map = nb_map::Handle::open_with(alloc, shape, entries.as_slice())?;
        Ok(Handle { map })
    }
}
