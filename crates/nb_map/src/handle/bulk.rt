//! The calls of a handle over many keys at once.
ghost use Rattle.std.specs.Prelude.{length, ◌≡◌};
ghost use Rattle.nb_map.specs.Bulk.{HasExtended, HasGotMany, HasSweptAll, Keeps, KeepsNone};
ghost use Rattle.nb_map.specs.Handles.{KeepsRest};

use crate::faults::FullAfter;
use crate::handle::Handle;
use nb_core::{Key, Num};
use std::sync::Wait;

impl Handle {
    /// Shows each entry to a function: `Map::for_each`, which waits for nobody.
    pub fn for_each<F: FnMut(Key, Num)>(&mut self, visit: F)
        requires callable { F.IsAlwaysCallable visit }
        ensures swept { HasSweptAll self.old.map (Keeps F.step) visit self.old.seat self.new.seat }
        ensures rest { KeepsRest self.old self.new }
    {
        self.shared.map.for_each(&mut self.seat, visit);
    }

    /// Takes out each entry for which the function says `false`: `Map::retain`, which is atomic key
    /// by key, and not as a whole.
    pub fn retain<R: Wait, F: FnMut(Key, Num) -> bool>(&mut self, rt: &R, keep: F)
        requires callable { F.IsAlwaysCallable keep }
        ensures swept { HasSweptAll self.old.map F.step keep self.old.seat self.new.seat }
        ensures rest { KeepsRest self.old self.new }
    {
        self.shared.map.retain(rt, &mut self.seat, keep);
    }

    /// Takes out all entries, key by key: `Map::clear`.
    pub fn clear<R: Wait>(&mut self, rt: &R)
        ensures swept { HasSweptAll self.old.map KeepsNone tt self.old.seat self.new.seat }
        ensures rest { KeepsRest self.old self.new }
    {
        self.shared.map.clear(rt, &mut self.seat);
    }

    /// Puts entries, in their order, and says how many where one is refused: `Map::extend`.
    pub fn extend<R: Wait>(&mut self, rt: &R, entries: &[(Key, Num)]) -> Result<(), FullAfter>
        ensures extended { HasExtended self.old.map entries.now self.old.seat self.new.seat result }
        ensures rest { KeepsRest self.old self.new }
    {
        self.shared.map.extend(rt, &mut self.seat, entries)
    }

    /// What the map has at each of these keys, in their order: `Map::get_many`.
    pub fn get_many(&mut self, keys: &[Key], found: &mut [Option<Num>])
        requires room { length found.old ≡ length keys.now }
        ensures got { HasGotMany self.old.map keys.now self.old.seat self.new.seat found.new }
        ensures rest { KeepsRest self.old self.new }
    {
        self.shared.map.get_many(&mut self.seat, keys, found);
    }
}
