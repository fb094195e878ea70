//! Handles: the ways of threads to a set that they share.
ghost use Rattle.std.specs.Prelude.{Ok, ◌≡◌};
ghost use Rattle.nb_set.specs.Handles.{KeepsRest};
ghost use Rattle.nb_set.specs.Log as call;
ghost use Rattle.nb_set.specs.Promises.{HasEstimated, HasLookedUp, HasMet, HasSeenTop, HasWritten};
ghost use Rattle.nb_set.specs.Sets.{AreMine, IsMine, shape_of};

mod bulk;
mod closing;
mod fullness;
mod listing;
mod opening;
mod renewing;
mod settling;
mod splitting;

use crate::set::present;
use nb_core::{Key, Shape};
use nb_map::Full;
use std::marker::Model;
use std::sync::Wait;

/// One thread's way to a set that others share: a handle of the map that the set is kept in.
#[derive(Drop)]
pub struct Handle {
    pub(crate) map: nb_map::Handle,
}

impl Model for Handle {
    ghost use Rattle.nb_set.specs.Handles.{HandleOf};

    ghost Value = { HandleOf };

    ghost use Rattle.nb_set.specs.Inside.{handle_of};

    ghost view = { handle_of };
}

impl Handle {
    /// What every handle is: its seats are seats of its set. Nothing runs. A proof over several calls
    /// of a handle, as one by the law `logs_add_up`, sets out from it.
    pub fn known(&self)
        ensures own { IsMine self.now.set self.now.seat }
        ensures reserve { AreMine self.now.set self.now.reserve }
    {
        self.map.known();
    }

    /// Puts a key into the set, and answers whether it came: `LongSet::add`.
    pub fn add<R: Wait>(&mut self, rt: &R, key: Key) -> Result<bool, Full>
        ensures wrote { HasWritten self.old.set (call.Add key) self.old.seat self.new.seat
            result }
        ensures rest { KeepsRest self.old self.new }
    {
        let before = self.map.put_if_absent(rt, key, present())?;
        Ok(before.is_none())
    }

    /// Takes a key out of the set, and answers whether it went: `LongSet::remove`.
    pub fn remove<R: Wait>(&mut self, rt: &R, key: Key) -> bool
        ensures wrote { HasWritten self.old.set (call.Remove key) self.old.seat self.new.seat
            (Ok result) }
        ensures rest { KeepsRest self.old self.new }
    {
        self.map.remove(rt, key).is_some()
    }

    /// Whether the set has a key: `LongSet::contains`.
    #[inline]
    pub fn contains(&mut self, key: Key) -> bool
        ensures looked_up { HasLookedUp self.old.set key self.old.seat self.new.seat result }
        ensures rest { KeepsRest self.old self.new }
    {
        self.map.contains_key(key)
    }

    /// About how many keys the set has, modulo 2^64. While others write it is no more than a guess.
    pub fn size_estimate(&mut self) -> u64
        ensures looked { HasEstimated self.old.set self.old.seat self.new.seat }
        ensures rest { KeepsRest self.old self.new }
    {
        self.map.size_estimate()
    }

    /// How many tables are known to be complete, from the first one on: how often the set has
    /// grown.
    pub fn generation(&mut self) -> u32
        ensures looked { HasSeenTop self.old.set self.old.seat self.new.seat result }
        ensures rest { KeepsRest self.old self.new }
    {
        self.map.generation()
    }

    /// Lets each of two handles of a set see all that the other has seen. Whether they are of one
    /// set can't be told when it runs, so it is asked for.
    pub fn meet(&mut self, other: &mut Handle)
        requires one { self.old.set ≡ other.old.set }
        ensures here { HasMet self.old.set other.old.seat self.old.seat self.new.seat }
        ensures there { HasMet self.old.set self.old.seat other.old.seat other.new.seat }
        ensures rest { KeepsRest self.old self.new × KeepsRest other.old other.new }
    {
        self.map.meet(&mut other.map);
    }

    /// The shape that the set was made with.
    pub fn shape(&self) -> &Shape
        ensures { result.now ≡ shape_of self.now.set }
    {
        self.map.shape()
    }
}
