//! The calls of a handle over many keys at once.
ghost use Rattle.std.specs.Prelude.{Bool, Ok, false, true, ◌≡◌, ◌⊎◌};
ghost use Rattle.nb_set.specs.Bulk.{HasExtended, HasSweptAll, Keeps, KeepsNone};
ghost use Rattle.nb_set.specs.Handles.{KeepsRest};
ghost use Rattle.nb_set.specs.Log as call;
ghost use Rattle.nb_set.specs.Promises.{HasWritten};

use crate::handle::Handle;
use crate::set::bulk::show;
use nb_core::Key;
use nb_map::FullAfter;
use std::sync::Wait;

impl Handle {
    /// Shows each key to a function: `LongSet::for_each`, which waits for nobody.
    pub fn for_each<F: FnMut(Key)>(&mut self, mut visit: F)
        requires callable { F.IsAlwaysCallable visit }
        ensures swept { HasSweptAll self.old.set (Keeps F.step) visit self.old.seat self.new.seat }
        ensures rest { KeepsRest self.old self.new }
    {
        let mut walk = self.begin_walk();
        while let Some(key) = self.next_key(&mut walk) {
            show(&mut visit, key);
        }
    }

    /// Takes out each key for which the function says `false`: `LongSet::retain`, which is atomic
    /// key by key, and not as a whole.
    pub fn retain<R: Wait, F: FnMut(Key) -> bool>(&mut self, rt: &R, mut keep: F)
        requires callable { F.IsAlwaysCallable keep }
        ensures swept { HasSweptAll self.old.set F.step keep self.old.seat self.new.seat }
        ensures rest { KeepsRest self.old self.new }
    {
        let mut walk = self.begin_walk();
        while let Some(key) = self.next_key(&mut walk) {
            self.keep_or_remove(rt, key, &mut keep);
        }
    }

    /// Takes out a key if the function says `false` of it.
    fn keep_or_remove<R: Wait, F: FnMut(Key) -> bool>(&mut self, rt: &R, key: Key, keep: &mut F)
        requires callable { F.IsAlwaysCallable keep.old }
        ensures swept { (F.step keep.old key true keep.new × (self.new.seat ≡ self.old.seat))
            ⊎ ((went : Bool) × F.step keep.old key false keep.new
            × HasWritten self.old.set (call.Remove key) self.old.seat self.new.seat (Ok went)) }
        ensures rest { KeepsRest self.old self.new }
        ensures callable { F.IsAlwaysCallable keep.new }
    {
        if !keep(key) {
            self.remove(rt, key);
        }
    }

    /// Takes out all keys, key by key: `LongSet::clear`.
    pub fn clear<R: Wait>(&mut self, rt: &R)
        ensures swept { HasSweptAll self.old.set KeepsNone tt self.old.seat self.new.seat }
        ensures rest { KeepsRest self.old self.new }
    {
        self.retain(rt, |_| false);
    }

    /// Adds keys, in their order, and says how many where one is refused: `LongSet::extend`.
    pub fn extend<R: Wait>(&mut self, rt: &R, keys: &[Key]) -> Result<(), FullAfter>
        ensures extended { HasExtended self.old.set keys.now self.old.seat self.new.seat result }
        ensures rest { KeepsRest self.old self.new }
    {
        let mut put = 0;
        let mut rest = keys;
        while let Some((key, tail)) = rest.split_first() {
            if self.add(rt, *key).is_err() {
                return Err(FullAfter { put });
            }
            put += 1;
            rest = tail;
        }
        Ok(())
    }
}
