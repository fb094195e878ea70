//! Walks by handles.
ghost use Rattle.std.specs.Prelude.{◌≡◌};
ghost use Rattle.std.specs.Iterator.{at_most};
ghost use Rattle.nb_map.specs.Handles.{KeepsRest};
ghost use Rattle.nb_map.specs.Maps.{IsMine, SeatOf};
ghost use Rattle.nb_map.specs.Promises.{
  HandleHasWalkedOn,
  HasBegunWalk,
  HasBegunWalkAt,
  HasWalkedOn,
  HasWalkedUpTo,
  ahead_of,
};
ghost use Rattle.nb_map.specs.Walks.{IsWalkOf, bound_at, walk_from};

use crate::handle::Handle;
use crate::map::{Walk, WalkPlace};
use nb_core::{Key, Num};
use std::marker::Model;

/// A walk over the map that a handle makes, which is in it meanwhile and comes out by `end`. Other
/// handles call what they like.
#[derive(Drop)]
pub struct HandleWalk {
    handle: Handle,
    walk: Walk,
}

impl Model for HandleWalk {
    ghost use Rattle.nb_map.specs.Handles.{HandleWalkOf};

    ghost Value = { HandleWalkOf };

    ghost use Rattle.nb_map.specs.inside.Models.{IsHandleWalk, handle_walk_of};

    ghost view = { handle_walk_of };

    ghost invariant = { IsHandleWalk };
}

impl Handle {
    /// Begins a walk over the map's keys: `Map::walk`.
    pub fn walk(self) -> HandleWalk
        ensures begun { HasBegunWalk self.map self.seat result.handle.seat result.walk }
        ensures rest { KeepsRest self result.handle }
    {
        let mut handle = self;
        let walk = handle.begin_walk();
        HandleWalk { handle, walk }
    }

    /// Begins a walk over the map's keys that leaves the handle where it is: `Map::walk`. It is taken
    /// on by `next_key`, and the handle makes what calls it likes meanwhile.
    pub fn begin_walk(&mut self) -> Walk
        ensures begun { HasBegunWalk self.old.map self.old.seat self.new.seat result }
        ensures rest { KeepsRest self.old self.new }
    {
        self.shared.map.walk(&mut self.seat)
    }

    /// The next key of a walk that this handle has begun by `begin_walk`, with its number, until
    /// `None` ends it: `Map::next_key`.
    pub fn next_key(&mut self, walk: &mut Walk) -> Option<(Key, Num)>
        requires walk { IsWalkOf self.old.map self.old.seat walk.old }
        ensures walked { HasWalkedOn self.old.map self.old.seat self.new.seat walk.old walk.new
            result }
        ensures rest { KeepsRest self.old self.new }
    {
        self.shared.map.next_key(&mut self.seat, walk)
    }

    /// Begins a walk that is kept as plain numbers: `Map::walk_from_top`.
    pub fn walk_from_top(&mut self) -> WalkPlace
        ensures begun { HasBegunWalk self.old.map self.old.seat self.new.seat
            (walk_from self.new.seat result) }
        ensures rest { KeepsRest self.old self.new }
    {
        self.shared.map.walk_from_top(&mut self.seat)
    }

    /// Begins such a walk with a slot of the top table: `Map::walk_from_slot`.
    pub fn walk_from_slot(&mut self, slot: usize) -> Option<WalkPlace>
        ensures begun { HasBegunWalkAt self.old.map self.old.seat self.new.seat slot result }
        ensures rest { KeepsRest self.old self.new }
    {
        self.shared.map.walk_from_slot(&mut self.seat, slot)
    }

    /// The next key of such a walk, with its number, until `None` ends it: `Map::next_key_from`.
    pub fn next_key_from(&mut self, at: &mut WalkPlace) -> Option<(Key, Num)>
        requires walk { (begun : SeatOf) × IsWalkOf self.old.map self.old.seat (walk_from begun at.old) }
        ensures walked { (begun : SeatOf) → IsWalkOf self.old.map self.old.seat (walk_from begun at.old)
            → HasWalkedOn self.old.map self.old.seat self.new.seat (walk_from begun at.old)
            (walk_from begun at.new) result }
        ensures rest { KeepsRest self.old self.new }
    {
        self.shared.map.next_key_from(&mut self.seat, at)
    }

    /// The same up to slot `end` of the walk's first table: `Map::next_key_before`.
    pub fn next_key_before(&mut self, at: &mut WalkPlace, end: usize) -> Option<(Key, Num)>
        requires walk { (begun : SeatOf)
            × IsWalkOf self.old.map self.old.seat (walk_from begun at.old) }
        ensures walked { (begun : SeatOf)
            → IsWalkOf self.old.map self.old.seat (walk_from begun at.old)
            → HasWalkedUpTo self.old.map (bound_at self.old.map.chain.shape at.old.first end)
            self.old.seat self.new.seat (walk_from begun at.old) (walk_from begun at.new) result }
        ensures rest { KeepsRest self.old self.new }
    {
        self.shared.map.next_key_before(&mut self.seat, at, end)
    }
}

impl HandleWalk {
    /// What every walk by a handle is: its handle's seat is a seat of the map, and has begun the
    /// walk. Nothing runs.
    pub fn known(&self)
        ensures own { IsMine self.now.handle.map self.now.handle.seat }
        ensures walk { IsWalkOf self.now.handle.map self.now.handle.seat self.now.walk }
    {
        self.handle.known();
    }

    /// The next key of the walk, with its number, until `None` ends it: `Map::next_key`. What a
    /// whole walk is worth is the law `whole_walk`, of a walk that is underway.
    pub fn next_key(&mut self) -> Option<(Key, Num)>
        ensures { HandleHasWalkedOn self.old result self.new }
    {
        self.handle.next_key(&mut self.walk)
    }

    /// The handle, at the end of the walk or before it.
    pub fn end(self) -> Handle
        ensures { result ≡ self.handle }
    {
        self.handle
    }
}

/// A walk is an iterator over what `next_key` shows: `for (key, number) in handle.walk() { .. }`
/// goes through the map. Where the handle is needed again, `while let Some(..) = walk.next_key()`
/// and `walk.end()` serve.
impl Iterator for HandleWalk {
    type Item = (Key, Num);

    ghost next_gives = { HandleHasWalkedOn };

    ghost remaining = { λ walk. at_most (ahead_of walk) };

    fn next(&mut self) -> Option<(Key, Num)> {
        self.next_key()
    }
}
