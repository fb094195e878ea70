//! A new map, as the one handle that has all its seats.
ghost use Rattle.std.specs.Prelude.{Err, IfOk, length, ◌≡◌};
ghost use Rattle.nb_core.specs.Plans.{IsPlan};
ghost use Rattle.nb_map.specs.Handles.{seats_of};
ghost use Rattle.nb_map.specs.Logs.{HaveEmptyLogs};
ghost use Rattle.nb_map.specs.Maps.{AreMine, IsMadeFor, new_seats};
ghost use Rattle.nb_map.specs.Opening.{BeginsWith, IsTooSmallFor, map_of_entries};
ghost use Rattle.nb_map.specs.declared.faults.OpenFault.TheVariants as fault;

use crate::faults::OpenFault;
use crate::handle::reserve::Reserve;
use crate::handle::{Handle, Shared};
use crate::map::{Map, Seat};
use nb_core::{Key, Num, OutOfMemory, SeatRoom, Shape};
use std::alloc::Global;
use std::sync::Arc;

impl Handle {
    /// A new map, as the one handle that has all its seats: one to call with, and the others in
    /// reserve.
    pub fn open(alloc: Global, shape: Shape) -> Result<Handle, OutOfMemory>
        ensures made { IfOk result (λ handle. IsMadeFor handle.map shape) }
        ensures seats { IfOk result (λ handle. seats_of handle ≡ new_seats handle.map shape.seats) }
        ensures empty { IfOk result (λ handle. HaveEmptyLogs (seats_of handle)) }
    {
        let (map, seats) = Map::new(alloc, shape)?;
        holding(alloc, map, seats)
    }

    /// A new map that has just these entries, as the one handle that has all its seats:
    /// `Map::with_entries`. Where a key comes twice, the later entry wins.
    pub fn open_with(
        alloc: Global,
        shape: Shape,
        entries: &[(Key, Num)],
    ) -> Result<Handle, OpenFault>
        ensures begun { IfOk result (BeginsWith shape (map_of_entries entries.now)) }
        ensures full { result ≡ Err fault.Full → IsTooSmallFor shape (map_of_entries entries.now) }
    {
        let (map, seats) = Map::with_entries(alloc, shape, entries)?;
        let handle = holding(alloc, map, seats)?;
        Ok(handle)
    }
}

/// The handle that holds all seats of a map.
fn holding(alloc: Global, map: Map, seats: Vec<Seat>) -> Result<Handle, OutOfMemory>
    requires plan { IsPlan map.chain.shape }
    requires all { length seats.items ≡ map.chain.shape.seats }
    requires own { AreMine map seats.items }
    ensures { IfOk result (λ handle. (handle.map ≡ map) × (seats_of handle ≡ seats.items)) }
{
    let room = SeatRoom::new(alloc, map.shape().seats())?;
    let (seat, reserve) = Reserve::new(alloc, seats)?;
    let Ok(shared) = Arc::new(alloc, Shared { map, room }) else {
        return Err(OutOfMemory);
    };
    Ok(Handle {
        shared,
        seat,
        reserve,
    })
}
