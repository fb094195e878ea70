//! Handles: the ways of threads to a map that they share.
ghost use Rattle.std.specs.Prelude.{Option, is_some, ℕ, ◌≡◌, ◌≤◌};
ghost use Rattle.nb_map.specs.Handles.{KeepsRest};
ghost use Rattle.nb_map.specs.Maps.{AreMine, IsMine};
ghost use Rattle.nb_map.specs.Promises.{HasEstimated, HasGot, HasMet, HasSeenTop};

mod bulk;
mod closing;
mod compound;
mod fullness;
mod listing;
mod opening;
mod renewing;
mod reserve;
mod settling;
mod slots;
mod splitting;
mod trying;
mod waiting;
mod walks;

use crate::map::{Map, Seat};
use nb_core::{Key, Num, SeatRoom, Shape};
use reserve::Reserve;
use std::alloc::Global;
use std::marker::Model;
use std::sync::Arc;
pub use walks::HandleWalk;

/// One thread's way to a map that others share: a seat, other seats of the map in reserve, and a
/// counted reference to the map. Its size is that of a few words, with one more node for each seat.
#[derive(Drop)]
pub struct Handle {
    pub(crate) shared: Arc<Shared, Global>,
    pub(crate) seat: Seat,
    pub(crate) reserve: Reserve,
}

/// What the handles of a map share.
#[derive(Drop)]
pub(crate) struct Shared {
    pub(crate) map: Map,
    /// Room in which `close` gathers the seats, so that it takes no memory.
    pub(crate) room: SeatRoom<Seat>,
    ghost fits: { map.chain.shape.seats ≤ room },
}

impl Model for Handle {
    ghost use Rattle.nb_map.specs.Handles.{HandleOf};

    ghost Value = { HandleOf };

    ghost use Rattle.nb_map.specs.inside.Models.{IsHandle, handle_of};

    ghost view = { handle_of };

    ghost invariant = { IsHandle };
}

impl Handle {
    /// What every handle is: its seats are seats of its map. Nothing runs. A proof over several
    /// calls of a handle, as one by the laws `logs_add_up` and `one_seat`, sets out from it.
    pub fn known(&self)
        ensures own { IsMine self.now.map self.now.seat }
        ensures reserve { AreMine self.now.map self.now.reserve }
    {
        let _ = &self.seat;
    }

    /// What the map has at a key.
    #[inline(always)]
    pub fn get(&mut self, key: Key) -> Option<Num>
        ensures got { HasGot self.old.map key self.old.seat self.new.seat result }
        ensures rest { KeepsRest self.old self.new }
    {
        self.shared.map.get(&mut self.seat, key)
    }

    /// Whether the map has a key. It is a `get`.
    pub fn contains_key(&mut self, key: Key) -> bool
        ensures got { (number : Option ℕ) × (is_some number ≡ result)
            × HasGot self.old.map key self.old.seat self.new.seat number }
        ensures rest { KeepsRest self.old self.new }
    {
        self.shared.map.contains_key(&mut self.seat, key)
    }

    /// How many tables are known to be complete, from the first one on.
    pub fn generation(&mut self) -> u32
        ensures looked { HasSeenTop self.old.map self.old.seat self.new.seat result }
        ensures rest { KeepsRest self.old self.new }
    {
        self.shared.map.generation(&mut self.seat)
    }

    /// About how many keys the map has, modulo 2^64. While others write it is no more than a guess.
    pub fn size_estimate(&mut self) -> u64
        ensures looked { HasEstimated self.old.map self.old.seat self.new.seat }
        ensures rest { KeepsRest self.old self.new }
    {
        self.shared.map.size_estimate(&mut self.seat)
    }

    /// Lets each of two handles of a map see all that the other has seen. Whether they are of one
    /// map can't be told when it runs, so it is asked for.
    pub fn meet(&mut self, other: &mut Handle)
        requires one { self.old.map ≡ other.old.map }
        ensures here { HasMet self.old.map other.old.seat self.old.seat self.new.seat }
        ensures there { HasMet self.old.map self.old.seat other.old.seat other.new.seat }
        ensures rest { KeepsRest self.old self.new × KeepsRest other.old other.new }
    {
        self.shared.map.meet(&mut self.seat, &mut other.seat);
    }

    /// The shape that the map was made with.
    pub fn shape(&self) -> &Shape
        ensures { result.now ≡ self.now.map.chain.shape }
    {
        self.shared.map.shape()
    }
}
