//! Seats, each beside its map.
ghost use Rattle.std.specs.Arc.{arc_value};
ghost use Rattle.nb_map.specs.Maps.{AreMine};

use crate::callers::Caller;
use crate::draws::{Pick, draw_by_seat, put_by_seat};
use crate::faults::WorkFault;
use crate::random::Random;
use crate::workloads::Mix;
use nb_core::{Key, Num, OutOfMemory, Shape};
use nb_map::{Map, Seat};
use std::alloc::Global;
use std::marker::Model;
use std::sync::{Arc, Wait};

/// A seat beside the map that it is of. Contracts see nothing of it, since it is so of each.
#[derive(Drop)]
pub(crate) struct MapSeat {
    pub(crate) map: Arc<Map, Global>,
    pub(crate) seat: Seat,
}

impl Model for MapSeat {
    ghost use Rattle.std.specs.Arc.{arc_value};
    ghost use Rattle.nb_map.specs.Maps.{IsMine};

    ghost Value = { Unit {0} };

    ghost view = { λ _. tt };

    ghost invariant = { λ it. IsMine (arc_value it.map) it.seat };
}

impl MapSeat {
    /// All seats of a new map, the last one first.
    pub(crate) fn open(alloc: Global, shape: Shape) -> Result<Vec<MapSeat>, OutOfMemory> {
        let (map, seats) = Map::new(alloc, shape)?;
        match Arc::new(alloc, map) {
            Ok(map) => MapSeat::all(alloc, &map, seats),
            Err(_) => Err(OutOfMemory),
        }
    }

    /// These seats, each beside its map, the last one first.
    fn all(
        alloc: Global,
        map: &Arc<Map, Global>,
        seats: Vec<Seat>,
    ) -> Result<Vec<MapSeat>, OutOfMemory>
        requires own { AreMine (arc_value map.now) seats.items }
    {
        let mut seats = seats;
        let mut all = Vec::new(alloc);
        while let Some(seat) = seats.pop() {
            let map = Arc::try_clone(map)?;
            all.push(MapSeat { map, seat })?;
        }
        Ok(all)
    }

    /// How many keys the map has, where nobody writes and the threads that did have ended.
    pub(crate) fn size(&mut self) -> u64 {
        self.map.size_estimate(&mut self.seat)
    }
}

impl Caller for MapSeat {
    #[inline(always)]
    fn get<R: Wait>(&mut self, _rt: &R, key: Key) -> Option<Num> {
        self.map.get(&mut self.seat, key)
    }

    #[inline(always)]
    fn put<R: Wait>(&mut self, rt: &R, key: Key, number: Num) -> Result<(), WorkFault> {
        match self.map.put(rt, &mut self.seat, key, number) {
            Ok(_) => Ok(()),
            Err(_) => Err(WorkFault::Full),
        }
    }

    #[inline(always)]
    fn remove<R: Wait>(&mut self, rt: &R, key: Key) {
        self.map.remove(rt, &mut self.seat, key);
    }

    fn draw_batch<R: Wait, P: Pick>(
        &mut self,
        rt: &R,
        random: &mut Random,
        mix: Mix,
        pick: &P,
    ) -> Result<u64, WorkFault> {
        draw_by_seat(rt, &self.map, &mut self.seat, random, mix, pick)
    }

    fn put_batch<R: Wait>(&mut self, rt: &R, key: Key) -> Result<u64, WorkFault> {
        put_by_seat(rt, &self.map, &mut self.seat, key)
    }
}
