//! The calls of a handle that put together the number that they are given and the one that is at
//! the key. No tries count as one.
ghost use Rattle.std.specs.Prelude.{max};
ghost use Rattle.nb_map.specs.Compound.{HasGotOrPut, IsUpdateBy, greater_of, less_of};
ghost use Rattle.nb_map.specs.Handles.{KeepsRest};

use crate::faults::{Full, PutFault};
use crate::handle::Handle;
use nb_core::{Key, Num};
use std::sync::Wait;

impl Handle {
    /// The number that a key has, after this one was put there if it had none:
    /// `Map::get_or_insert`.
    pub fn get_or_insert<R: Wait>(&mut self, rt: &R, key: Key, number: Num) -> Result<Num, Full>
        ensures wrote { HasGotOrPut self.old.map key number self.old.seat self.new.seat result }
        ensures rest { KeepsRest self.old self.new }
    {
        self.shared
            .map
            .get_or_insert(rt, &mut self.seat, key, number)
    }

    /// Raises the number at a key to this one where it is less, and answers what was there:
    /// `Map::fetch_max`, which waits for nobody.
    pub fn fetch_max(&mut self, key: Key, number: Num, tries: u32) -> Result<Option<Num>, PutFault>
        ensures updated { IsUpdateBy self.old.map (greater_of number) key self.old.seat
            self.new.seat (max tries 1) result }
        ensures rest { KeepsRest self.old self.new }
    {
        self.shared
            .map
            .fetch_max(&mut self.seat, key, number, tries.max(1))
    }

    /// Lowers the number at a key to this one where it is greater, and answers what was there:
    /// `Map::fetch_min`, which waits for nobody.
    pub fn fetch_min(&mut self, key: Key, number: Num, tries: u32) -> Result<Option<Num>, PutFault>
        ensures updated { IsUpdateBy self.old.map (less_of number) key self.old.seat self.new.seat
            (max tries 1) result }
        ensures rest { KeepsRest self.old self.new }
    {
        self.shared
            .map
            .fetch_min(&mut self.seat, key, number, tries.max(1))
    }
}
