//! Calls over many keys at once: walks that show each key to a function, those that take out what
//! the function refuses, and adds of many keys.
ghost use Rattle.std.specs.Prelude.{Bool, Ok, false, true, ◌≡◌, ◌⊎◌};
ghost use Rattle.nb_set.specs.Bulk.{HasExtended, HasSweptAll, Keeps, KeepsNone};
ghost use Rattle.nb_set.specs.Log as call;
ghost use Rattle.nb_set.specs.Promises.{HasWritten};
ghost use Rattle.nb_set.specs.Sets.{IsMine};

use crate::set::LongSet;
use nb_core::Key;
use nb_map::{FullAfter, Seat};
use std::sync::Wait;

impl LongSet {
    /// Shows each key to a function, by a walk: no key twice, and each key that the set has from the
    /// call's beginning to its end. A key that comes or goes meanwhile may be shown or not. So the
    /// keys aren't those of one moment. It makes the calls of a walk alone, and waits for nobody,
    /// unless the function does. `Set.forEach`.
    pub fn for_each<F: FnMut(Key)>(&self, seat: &mut Seat, mut visit: F)
        requires own { IsMine self.now seat.old }
        requires callable { F.IsAlwaysCallable visit }
        ensures { HasSweptAll self.now (Keeps F.step) visit seat.old seat.new }
    {
        let mut walk = self.walk(seat);
        while let Some(key) = self.next_key(seat, &mut walk) {
            show(&mut visit, key);
        }
    }

    /// Takes out each key for which the function says `false`. It shows the keys as `for_each` does.
    /// Each key that is to go is one `remove`, and so a call of its own in the log: the whole is
    /// atomic key by key, and not at once. A key that another thread has taken out meanwhile, and
    /// put back, goes too. It is lock-free: beside the steps of a walk it takes those of the
    /// removals. `Set.removeIf`, turned.
    pub fn retain<R: Wait, F: FnMut(Key) -> bool>(&self, rt: &R, seat: &mut Seat, mut keep: F)
        requires own { IsMine self.now seat.old }
        requires callable { F.IsAlwaysCallable keep }
        ensures { HasSweptAll self.now F.step keep seat.old seat.new }
    {
        let mut walk = self.walk(seat);
        while let Some(key) = self.next_key(seat, &mut walk) {
            self.keep_or_remove(rt, seat, key, &mut keep);
        }
    }

    /// Takes out a key if the function says `false` of it.
    fn keep_or_remove<R: Wait, F: FnMut(Key) -> bool>(
        &self,
        rt: &R,
        seat: &mut Seat,
        key: Key,
        keep: &mut F,
    )
        requires own { IsMine self.now seat.old }
        requires callable { F.IsAlwaysCallable keep.old }
        ensures swept { (F.step keep.old key true keep.new × (seat.new ≡ seat.old))
            ⊎ ((went : Bool) × F.step keep.old key false keep.new
            × HasWritten self.now (call.Remove key) seat.old seat.new (Ok went)) }
        ensures callable { F.IsAlwaysCallable keep.new }
    {
        if !keep(key) {
            self.remove(rt, seat, key);
        }
    }

    /// Takes out all keys: `retain` with a function that refuses each. It is atomic key by key:
    /// afterwards the set has what others have added meanwhile.
    pub fn clear<R: Wait>(&self, rt: &R, seat: &mut Seat)
        requires own { IsMine self.now seat.old }
        ensures { HasSweptAll self.now KeepsNone tt seat.old seat.new }
    {
        self.retain(rt, seat, |_| false);
    }

    /// Adds keys, in their order, each by an `add` of its own. Where one is refused as full, it adds
    /// no more, and says how many it has added; these stay.
    pub fn extend<R: Wait>(&self, rt: &R, seat: &mut Seat, keys: &[Key]) -> Result<(), FullAfter>
        requires own { IsMine self.now seat.old }
        ensures extended { HasExtended self.now keys.now seat.old seat.new result }
        ensures own { IsMine self.now seat.new }
    {
        let mut put = 0;
        let mut rest = keys;
        while let Some((key, tail)) = rest.split_first() {
            if self.add(rt, seat, *key).is_err() {
                return Err(FullAfter { put });
            }
            put += 1;
            rest = tail;
        }
        Ok(())
    }
}

/// Calls a function at a key.
pub(crate) fn show<F: FnMut(Key)>(visit: &mut F, key: Key)
    requires callable { F.IsAlwaysCallable visit.old }
    ensures stepped { F.step visit.old key tt visit.new }
    ensures callable { F.IsAlwaysCallable visit.new }
{
    visit(key);
}
