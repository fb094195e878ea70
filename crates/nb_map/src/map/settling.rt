//! All seats of a map learn of all calls, and the map goes on.
ghost use Rattle.std.specs.Prelude.{Err, IfErr, IfOk, [], length, vec_capacity, ◌≡◌, ◌≢◌, ◌≤◌, ◌↔◌};
ghost use Rattle.nb_map.specs.Maps.{AreMine};
ghost use Rattle.nb_map.specs.Settling.{HaveSettled};
ghost use Rattle.nb_map.specs.declared.faults.SettleFault.TheVariants as fault;
ghost use Rattle.nb_map.specs.inside.Models.{IsParted};

use crate::faults::SettleFault;
use crate::map::ended::parted;
use crate::map::{Map, Seat};
use nb_core::OutOfMemory;
use nb_count::CountSeat;
use nb_table::ChainSeat;
use std::alloc::Global;
use std::marker::Model;

/// Room in which a handle's seats are settled, so that this takes no memory: three vectors.
/// Contracts see for how many seats it has room.
#[derive(Drop)]
pub struct SettlingRoom {
    seats: usize,
    pub(crate) gathered: Vec<Seat>,
    pub(crate) chain_room: Vec<ChainSeat>,
    pub(crate) count_room: Vec<CountSeat>,
}

impl Model for SettlingRoom {
    ghost use Rattle.std.specs.Prelude.{ℕ};

    ghost Value = { ℕ };

    ghost use Rattle.nb_map.specs.inside.Models.{IsSettlingRoom};

    ghost view = { λ room. room.seats };

    ghost invariant = { IsSettlingRoom };
}

impl SettlingRoom {
    /// Room for so many seats.
    pub fn for_seats(alloc: Global, seats: usize) -> Result<SettlingRoom, OutOfMemory>
        ensures { IfOk result (λ room. room ≡ seats) }
    {
        Ok(SettlingRoom {
            seats,
            gathered: Vec::with_capacity(alloc, seats)?,
            chain_room: Vec::with_capacity(alloc, seats)?,
            count_room: Vec::with_capacity(alloc, seats)?,
        })
    }

    /// For how many seats it has room.
    pub fn seats(&self) -> usize
        ensures { result ≡ self.now }
    {
        self.seats
    }
}

impl Map {
    /// With all seats: how many keys the map has, exactly. Afterwards each seat's log is one and the
    /// same log of all calls that were made, as if the map had been finished; and the map goes on.
    /// It takes memory for two vectors of seats. Where that is refused, or a seat is missing, the
    /// seats are as they were.
    pub fn settle(&self, alloc: Global, seats: &mut Vec<Seat>) -> Result<u64, SettleFault>
        requires own { AreMine self.now seats.old.items }
        ensures all { (result ≡ Err fault.NotAll)
            ↔ (length seats.old.items ≢ self.now.chain.shape.seats) }
        ensures settled { IfOk result (HaveSettled self.now seats.old.items seats.new.items) }
        ensures own { AreMine self.now seats.new.items }
        ensures back { IfErr result (λ _. seats.new.items ≡ seats.old.items) }
    {
        let count = seats.len();
        if count != self.chain.shape().seats() {
            return Err(SettleFault::NotAll);
        }
        let Ok(chain_room) = Vec::with_capacity(alloc, count) else {
            return Err(SettleFault::OutOfMemory);
        };
        let Ok(count_room) = Vec::with_capacity(alloc, count) else {
            return Err(SettleFault::OutOfMemory);
        };
        Ok(self.settle_in(seats, chain_room, count_room))
    }

    /// The same of all seats, in room for those of the chain and of the counter. It takes no memory.
    pub(crate) fn settle_in(
        &self,
        seats: &mut Vec<Seat>,
        chain_room: Vec<ChainSeat>,
        count_room: Vec<CountSeat>,
    ) -> u64
        requires own { AreMine self.now seats.old.items }
        requires all { length seats.old.items ≡ self.now.chain.shape.seats }
        requires empty { (chain_room.items ≡ []) × (count_room.items ≡ []) }
        requires room { (length seats.old.items ≤ vec_capacity chain_room)
            × (length seats.old.items ≤ vec_capacity count_room) }
        ensures settled { HaveSettled self.now seats.old.items seats.new.items result }
        ensures own { AreMine self.now seats.new.items }
    {
        let (mut chain_seats, mut count_seats) = parted(seats, chain_room, count_room);
        self.chain.settle(&mut chain_seats);
        let size = self.counter.settle(&mut count_seats);
        pair(chain_seats, count_seats, seats);
        size
    }
}

/// The seats of the chain and those of the counter, put together again.
fn pair(chain_seats: Vec<ChainSeat>, count_seats: Vec<CountSeat>, seats: &mut Vec<Seat>)
    requires same { length chain_seats.items ≡ length count_seats.items }
    requires empty { seats.old.items ≡ [] }
    requires room { length chain_seats.items ≤ vec_capacity seats.old }
    ensures { IsParted seats.new.items chain_seats.items count_seats.items }
{
    let mut chain_seats = chain_seats;
    let mut count_seats = count_seats;
    while let Some(chain) = chain_seats.pop() {
        if let Some(count) = count_seats.pop() {
            seats.push_reserved(Seat { chain, count });
        }
    }
    seats.reverse();
}
