//! What is left of a map when all its seats are gathered.
ghost use Rattle.std.specs.FinMap as map;
ghost use Rattle.std.specs.Prelude.{IfErr, IfOk, [], is_ok, is_some, length, true, vec_capacity, ◌==◌, ◌↔◌, ◌≡◌, ◌≤◌};
ghost use Rattle.nb_core.specs.Log.{IsReplayed};
ghost use Rattle.nb_table.specs.Left.{IsLeft};
ghost use Rattle.nb_map.specs.Ending.{EndedWith, HasTablesLeft, log_left, map_left};
ghost use Rattle.nb_map.specs.Maps.{AreMine};
ghost use Rattle.nb_map.specs.inside.Models.{IsParted};

use crate::map::{Map, Seat};
use nb_core::{Key, NotAll, Num, OutOfMemory};
use nb_count::CountSeat;
use nb_table::{ChainSeat, Closed};
use std::alloc::Global;
use std::marker::Model;

/// A map that no thread shares any more. Contracts see what is left of its tables, and with it the
/// log of all calls that were made, and what its seats counted.
#[derive(Drop)]
pub struct Ended {
    pub(crate) closed: Closed,
    pub(crate) size: u64,
}

impl Model for Ended {
    ghost use Rattle.nb_map.specs.Ending.{EndedOf};

    ghost Value = { EndedOf };

    ghost use Rattle.nb_map.specs.inside.Models.{IsEnded, ended_of};

    ghost view = { ended_of };

    ghost invariant = { IsEnded };
}

impl Ended {
    /// Reminds a proof that the log is replayed, and that a legal history left the tables, so that
    /// it may use an ended map without remembering `finish`. It does nothing.
    pub fn known(&self)
        ensures replayed { IsReplayed (log_left self.now) }
        ensures left { IsLeft self.now.tables }
    {
        let _ = &self.closed;
    }

    /// How many keys the map has. The seats have counted them: it is a stored number.
    pub fn size(&self) -> u64
        ensures counted { result ≡ self.now.size }
        ensures keys { result ≡ length (map.entries (map_left self.now)) }
    {
        self.size
    }

    /// Whether the map has no key: of the stored number.
    pub fn is_empty(&self) -> bool
        ensures { result ≡ (length (map.entries (map_left self.now)) == 0) }
    {
        self.size() == 0
    }

    /// The number that the map has at the key. It takes no memory.
    pub fn get(&self, key: Key) -> Option<Num>
        ensures { result ≡ map.get (map_left self.now) key }
    {
        self.closed.get(key)
    }

    /// Whether the map has the key. It is a `get`.
    pub fn contains_key(&self, key: Key) -> bool
        ensures { result ≡ is_some (map.get (map_left self.now) key) }
    {
        self.get(key).is_some()
    }

    /// The map's keys with their numbers, ascending by key. It takes memory for a plain map of them
    /// and for the vector.
    pub fn entries(&self, alloc: Global) -> Result<Vec<(Key, Num)>, OutOfMemory>
        ensures { IfOk result (λ entries. entries.items ≡ map.entries (map_left self.now)) }
    {
        self.closed.entries(alloc)
    }
}

impl Map {
    /// With all seats: what is left of the map. With another number of seats everything comes back,
    /// and the map works on. It takes no memory: `new` has reserved the room.
    pub fn finish(self, seats: Vec<Seat>) -> Result<Ended, NotAll<Map, Seat>>
        requires own { AreMine self seats.items }
        ensures all { (is_ok result ≡ true) ↔ (length seats.items ≡ self.chain.shape.seats) }
        ensures ended { IfOk result (EndedWith seats.items) }
        ensures tables { IfOk result (HasTablesLeft self.chain.shape seats.items) }
        ensures back { IfErr result (λ given. (given.whole ≡ self)
            × (given.seats.items ≡ seats.items)) }
    {
        if seats.len() != self.chain.shape().seats() {
            return Err(NotAll { whole: self, seats });
        }
        let Map {
            chain,
            counter,
            chain_room,
            count_room,
        } = self;
        let mut seats = seats;
        let (chain_seats, count_seats) = parted(
            &mut seats,
            chain_room.into_vec(),
            count_room.into_vec(),
        );
        match (chain.close(chain_seats), counter.close(count_seats)) {
            (Ok(closed), Ok(size)) => Ok(Ended { closed, size }),
            _ => unreachable!(),
        }
    }
}

/// The seats of the chain and those of the counter, in vectors that have room for them. The seats'
/// own vector is empty then, with room for as many as before.
pub(super) fn parted(
    seats: &mut Vec<Seat>,
    chain_seats: Vec<ChainSeat>,
    count_seats: Vec<CountSeat>,
) -> (Vec<ChainSeat>, Vec<CountSeat>)
    requires empty { (chain_seats.items ≡ []) × (count_seats.items ≡ []) }
    requires room { (length seats.old.items ≤ vec_capacity chain_seats)
        × (length seats.old.items ≤ vec_capacity count_seats) }
    ensures parted { IsParted seats.old.items result.0.items result.1.items }
    ensures empty { seats.new.items ≡ [] }
    ensures room { length seats.old.items ≤ vec_capacity seats.new }
{
    let mut chain_seats = chain_seats;
    let mut count_seats = count_seats;
    seats.reverse();
    while let Some(seat) = seats.pop() {
        let Seat { chain, count } = seat;
        chain_seats.push_reserved(chain);
        count_seats.push_reserved(count);
    }
    (chain_seats, count_seats)
}
