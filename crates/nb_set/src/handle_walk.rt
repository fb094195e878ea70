//! Walks by handles.
ghost use Rattle.std.specs.Iterator.{at_most};
ghost use Rattle.std.specs.Prelude.{◌≡◌};
ghost use Rattle.nb_set.specs.Handles.{KeepsRest};
ghost use Rattle.nb_set.specs.Promises.{HandleHasWalkedOn, HasBegunWalk, HasWalkedOn, ahead_of};
ghost use Rattle.nb_set.specs.Sets.{IsMine};
ghost use Rattle.nb_set.specs.Walks.{IsWalkOf};

use crate::handle::Handle;
use crate::set::Walk;
use nb_core::Key;
use std::marker::Model;

/// A walk over the set that a handle makes, which is in it meanwhile and comes out by `end`. Other
/// handles call what they like.
#[derive(Drop)]
pub struct HandleWalk {
    map: nb_map::HandleWalk,
}

impl Model for HandleWalk {
    ghost use Rattle.nb_set.specs.Handles.{HandleWalkOf};

    ghost Value = { HandleWalkOf };

    ghost use Rattle.nb_set.specs.Inside.{handle_walk_of};

    ghost view = { handle_walk_of };
}

impl Handle {
    /// Begins a walk over the set's keys: `LongSet::walk`.
    pub fn walk(self) -> HandleWalk
        ensures begun { HasBegunWalk self.set self.seat result.handle.seat result.walk }
        ensures rest { KeepsRest self result.handle }
    {
        let Handle { map } = self;
        HandleWalk { map: map.walk() }
    }

    /// Begins a walk over the set's keys that leaves the handle where it is: `LongSet::walk`. It is
    /// taken on by `next_key`, and the handle makes what calls it likes meanwhile.
    pub fn begin_walk(&mut self) -> Walk
        ensures begun { HasBegunWalk self.old.set self.old.seat self.new.seat result }
        ensures rest { KeepsRest self.old self.new }
    {
        let map = self.map.begin_walk();
        Walk { map }
    }

    /// The next key of a walk that this handle has begun by `begin_walk`, until `None` ends it:
    /// `LongSet::next_key`.
    pub fn next_key(&mut self, walk: &mut Walk) -> Option<Key>
        requires walk { IsWalkOf self.old.set self.old.seat walk.old }
        ensures walked { HasWalkedOn self.old.set self.old.seat self.new.seat walk.old walk.new
            result }
        ensures rest { KeepsRest self.old self.new }
    {
        let (key, _) = self.map.next_key(&mut walk.map)?;
        Some(key)
    }
}

impl HandleWalk {
    /// What every walk by a handle is: its handle's seat is a seat of the set, and has begun the
    /// walk. Nothing runs.
    pub fn known(&self)
        ensures own { IsMine self.now.handle.set self.now.handle.seat }
        ensures walk { IsWalkOf self.now.handle.set self.now.handle.seat self.now.walk }
    {
        self.map.known();
    }

    /// The next key of the walk, until `None` ends it: `LongSet::next_key`. What a whole walk is
    /// worth is the law `whole_walk`.
    pub fn next_key(&mut self) -> Option<Key>
        ensures { HandleHasWalkedOn self.old result self.new }
    {
        let (key, _) = self.map.next_key()?;
        Some(key)
    }

    /// The handle, at the end of the walk or before it.
    pub fn end(self) -> Handle
        ensures { result ≡ self.handle }
    {
        let HandleWalk { map } = self;
        Handle { map: map.end() }
    }
}

/// A walk is an iterator over what `next_key` shows: `for key in handle.walk() { .. }` goes through
/// the set. Where the handle is needed again, `while let Some(key) = walk.next_key()` and
/// `walk.end()` serve.
impl Iterator for HandleWalk {
    type Item = Key;

    ghost next_gives = { HandleHasWalkedOn };

    ghost remaining = { λ walk. at_most (ahead_of walk) };

    fn next(&mut self) -> Option<Key> {
        self.next_key()
    }
}
