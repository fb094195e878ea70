//! The map and its seats.
ghost use Rattle.std.specs.Prelude.{IfOk, Option, is_some, ℕ, ◌≡◌};
ghost use Rattle.nb_core.specs.Plans.{IsPlan};
ghost use Rattle.nb_map.specs.Logs.{HaveEmptyLogs};
ghost use Rattle.nb_map.specs.Maps.{AreMine, IsMine, new_seats};
ghost use Rattle.nb_map.specs.Promises.{HasEstimated, HasGot, HasMet, HasSeenTop};

mod answers;
mod below;
mod bulk;
mod compound;
mod ended;
mod first;
mod fullness;
mod general;
mod listing;
mod opening;
mod settling;
mod slots;
mod straight;
mod trying;
mod updating;
mod waiting;
mod walks;

use crate::steps::get::get_in;
pub use ended::Ended;
pub use first::FirstPut;
use nb_core::{Key, Num, OutOfMemory, SeatRoom, Shape};
use nb_count::{CountSeat, Counter};
use nb_table::{Chain, ChainSeat};
pub use settling::SettlingRoom;
use std::alloc::Global;
use std::marker::Model;
pub use walks::{Walk, WalkPlace};

/// A map from whole numbers to whole numbers, which many threads share. Contracts see its chain of
/// tables and its counter.
#[derive(Drop)]
pub struct Map {
    pub(crate) chain: Chain,
    counter: Counter,
    /// Room in which `finish` gathers the seats, so that it takes no memory.
    chain_room: SeatRoom<ChainSeat>,
    count_room: SeatRoom<CountSeat>,
}

impl Model for Map {
    ghost use Rattle.nb_map.specs.Maps.{MapOf};

    ghost Value = { MapOf };

    ghost use Rattle.nb_map.specs.inside.Models.{IsMap, map_within};

    ghost view = { map_within };

    ghost invariant = { IsMap };
}

/// The right of one holder to make calls. Contracts see what it has seen of the map's history, in
/// which its own calls stand, and what it has counted.
#[derive(Drop)]
pub struct Seat {
    pub(crate) chain: ChainSeat,
    pub(crate) count: CountSeat,
}

impl Model for Seat {
    ghost use Rattle.nb_map.specs.Maps.{SeatOf};

    ghost Value = { SeatOf };

    ghost use Rattle.nb_map.specs.inside.Models.{seat_of};

    ghost view = { seat_of };
}

impl Map {
    /// An empty map, and its seats. It takes memory for the words of its tables and its counter,
    /// for the seats, and for room to gather them. Later only `settle`, `entries` and
    /// `Ended::entries` take any.
    pub fn new(alloc: Global, shape: Shape) -> Result<(Map, Vec<Seat>), OutOfMemory>
        ensures map { IfOk result (λ made. made.0.chain.shape ≡ shape) }
        ensures plan { IfOk result (λ made. IsPlan made.0.chain.shape) }
        ensures counter { IfOk result (λ made. (made.0.counter.stripes ≡ shape.stripes)
            × (made.0.counter.seats ≡ shape.seats)) }
        ensures seats { IfOk result (λ made. made.1.items ≡ new_seats made.0 shape.seats) }
        ensures empty { IfOk result (λ made. HaveEmptyLogs made.1.items) }
        ensures own { IfOk result (λ made. AreMine made.0 made.1.items) }
    {
        let mut seats = Vec::with_capacity(alloc, shape.seats())?;
        let (chain, mut chain_seats) = Chain::new(alloc, shape)?;
        let (counter, mut count_seats) = Counter::new(alloc, shape.stripes(), shape.seats())?;
        while let Some(chain) = chain_seats.pop() {
            if let Some(count) = count_seats.pop() {
                seats.push_reserved(Seat { chain, count });
            }
        }
        seats.reverse();
        let chain_room = SeatRoom::new(alloc, shape.seats())?;
        let count_room = SeatRoom::new(alloc, shape.seats())?;
        let map = Map {
            chain,
            counter,
            chain_room,
            count_room,
        };
        Ok((map, seats))
    }

    /// The shape that the map was made with. It makes no step.
    pub fn shape(&self) -> &Shape
        ensures { result.now ≡ self.now.chain.shape }
    {
        self.chain.shape()
    }

    /// What the map has at a key. In the common case, where the key has its home slot in the table
    /// that the seat remembers, these are two loads.
    #[inline]
    pub fn get(&self, seat: &mut Seat, key: Key) -> Option<Num>
        requires own { IsMine self.now seat.old }
        ensures { HasGot self.now key seat.old seat.new result }
    {
        get_in(&self.chain, &mut seat.chain, key)
    }

    /// Whether the map has a key. It is a `get`.
    pub fn contains_key(&self, seat: &mut Seat, key: Key) -> bool
        requires own { IsMine self.now seat.old }
        ensures { (number : Option ℕ) × (is_some number ≡ result)
            × HasGot self.now key seat.old seat.new number }
    {
        self.get(seat, key).is_some()
    }

    /// How many tables are known to be complete, from the first one on: the top word, by one load.
    pub fn generation(&self, seat: &mut Seat) -> u32
        requires own { IsMine self.now seat.old }
        ensures { HasSeenTop self.now seat.old seat.new result }
    {
        self.chain.load_top(&mut seat.chain)
    }

    /// About how many keys the map has, modulo 2^64: the sum of the counter's stripes, by one load
    /// of each. While others write it is no more than a guess.
    pub fn size_estimate(&self, seat: &mut Seat) -> u64
        requires own { IsMine self.now seat.old }
        ensures { HasEstimated self.now seat.old seat.new }
    {
        self.counter.estimate(&mut seat.count)
    }

    /// Lets each of two seats see all that the other has seen. Each makes one step, a load of the
    /// top word, and two loads beside it by which `atomic_table` passes on what is known.
    pub fn meet(&self, a: &mut Seat, b: &mut Seat)
        requires a_own { IsMine self.now a.old }
        requires b_own { IsMine self.now b.old }
        ensures a { HasMet self.now b.old a.old a.new }
        ensures b { HasMet self.now a.old b.old b.new }
    {
        self.chain.meet(&mut a.chain, &mut b.chain);
    }
}
