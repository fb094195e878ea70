//! Calls over many keys at once: walks that show each entry to a function, those that take out what
//! the function refuses, puts of many entries, and reads of many keys.
ghost use Rattle.std.specs.Prelude.{Bool, [], false, length, take, true, ℕ, ◌-◌, ◌≡◌, ◌≤◌, ◌⊎◌};
ghost use Rattle.nb_table.specs.Chains.{Grown};
ghost use Rattle.nb_map.specs.Bulk.{HasExtended, HasGotAll, HasGotMany, HasSweptAll, Keeps, KeepsNone};
ghost use Rattle.nb_map.specs.Maps.{IsMine, SeatOf};
ghost use Rattle.nb_map.specs.NamedCalls.{remove_if_of};
ghost use Rattle.nb_map.specs.Progress.{Unlimited};
ghost use Rattle.nb_map.specs.Promises.{HasWritten, Matched};

use crate::faults::FullAfter;
use crate::map::{Map, Seat};
use crate::steps::get::look_ahead;
use nb_core::{Key, Num};
use std::sync::Wait;

/// How many keys `get_many` looks ahead at, at a time.
const AHEAD: usize = 32;

impl Map {
    /// Shows each entry to a function, by a walk: no key twice, and each key that the map has from
    /// the call's beginning to its end. A key that comes or goes meanwhile may be shown or not. So
    /// the entries aren't those of one moment. It makes reads alone, and waits for nobody, unless
    /// the function does: at most 1 + T (T + B + 4) steps on the chain, whose tables have T slots
    /// and a `get` at most B steps. `ConcurrentMap.forEach`.
    pub fn for_each<F: FnMut(Key, Num)>(&self, seat: &mut Seat, mut visit: F)
        requires own { IsMine self.now seat.old }
        requires callable { F.IsAlwaysCallable visit }
        ensures { HasSweptAll self.now (Keeps F.step) visit seat.old seat.new }
    {
        let mut walk = self.walk(seat);
        while let Some(entry) = self.next_key(seat, &mut walk) {
            show(&mut visit, entry);
        }
    }

    /// Takes out each entry for which the function says `false`. It shows the entries as `for_each`
    /// does. Each entry that is to go is one `remove_if` of its key with the number that was shown,
    /// and so a call of its own in the log: a key that has got another number meanwhile stays. So
    /// this is atomic key by key, and not as a whole. It is lock-free: beside the steps of
    /// `for_each` it takes those of the removals. dashmap's `retain`, and `removeIf` of
    /// `ConcurrentMap.entrySet()`, turned.
    pub fn retain<R: Wait, F: FnMut(Key, Num) -> bool>(&self, rt: &R, seat: &mut Seat, mut keep: F)
        requires own { IsMine self.now seat.old }
        requires callable { F.IsAlwaysCallable keep }
        ensures { HasSweptAll self.now F.step keep seat.old seat.new }
    {
        let mut walk = self.walk(seat);
        while let Some(entry) = self.next_key(seat, &mut walk) {
            self.keep_or_remove(rt, seat, entry, &mut keep);
        }
    }

    /// Takes out an entry if the function says `false` of it.
    fn keep_or_remove<R: Wait, F: FnMut(Key, Num) -> bool>(
        &self,
        rt: &R,
        seat: &mut Seat,
        entry: (Key, Num),
        keep: &mut F,
    )
        requires own { IsMine self.now seat.old }
        requires callable { F.IsAlwaysCallable keep.old }
        ensures swept { (F.step keep.old entry.0 entry.1 true keep.new × (seat.new ≡ seat.old))
            ⊎ ((removed : Bool) × F.step keep.old entry.0 entry.1 false keep.new
            × HasWritten self.now (remove_if_of entry.0 entry.1) seat.old seat.new
            Unlimited (Matched removed)) }
        ensures callable { F.IsAlwaysCallable keep.new }
    {
        let (key, number) = entry;
        if !keep(key, number) {
            self.remove_if(rt, seat, key, number);
        }
    }

    /// Takes out all entries: `retain` with a function that refuses each. It is atomic key by key:
    /// afterwards the map has what others have put meanwhile.
    pub fn clear<R: Wait>(&self, rt: &R, seat: &mut Seat)
        requires own { IsMine self.now seat.old }
        ensures { HasSweptAll self.now KeepsNone tt seat.old seat.new }
    {
        self.retain(rt, seat, |_, _| false);
    }

    /// Puts entries, in their order, each by a `put` of its own. Where one is refused as full, it
    /// puts no more, and says how many it has put; these stay.
    pub fn extend<R: Wait>(
        &self,
        rt: &R,
        seat: &mut Seat,
        entries: &[(Key, Num)],
    ) -> Result<(), FullAfter>
        requires own { IsMine self.now seat.old }
        ensures extended { HasExtended self.now entries.now seat.old seat.new result }
        ensures own { IsMine self.now seat.new }
    {
        let mut put = 0;
        let mut rest = entries;
        while let Some(((key, number), tail)) = rest.split_first() {
            if self.put(rt, seat, *key, *number).is_err() {
                return Err(FullAfter { put });
            }
            put += 1;
            rest = tail;
        }
        Ok(())
    }

    /// What the map has at each of these keys, in their order: `found[i]` is of `keys[i]`. Each is
    /// a `get` of its own, with its place in the log.
    ///
    /// Before it gets some keys it makes a load at the home slot of each, and ignores what these
    /// find. No load waits for another's answer, so the memory answers many at a time. That pays
    /// where the map is larger than the processor's caches.
    pub fn get_many(&self, seat: &mut Seat, keys: &[Key], found: &mut [Option<Num>])
        requires own { IsMine self.now seat.old }
        requires room { length found.old ≡ length keys.now }
        ensures { HasGotMany self.now keys.now seat.old seat.new found.new }
    {
        let mut done = 0;
        while done < keys.len() {
            let end = done + AHEAD.min(keys.len() - done);
            self.look_at(seat, &keys[done..end]);
            self.get_some(seat, keys, found, done, end);
            done = end;
        }
    }

    /// Looks ahead at keys.
    #[inline(always)]
    pub(super) fn look_at(&self, seat: &mut Seat, keys: &[Key])
        requires own { IsMine self.now seat.old }
        ensures looked { Grown self.now.chain.shape seat.old.chain seat.new.chain []
            (length keys.now) }
        ensures count { seat.new.count ≡ seat.old.count }
    {
        look_ahead(&self.chain, &mut seat.chain, keys);
    }

    /// What the map has at the keys of some places.
    #[inline(always)]
    fn get_some(
        &self,
        seat: &mut Seat,
        keys: &[Key],
        found: &mut [Option<Num>],
        start: usize,
        end: usize,
    )
        requires own { IsMine self.now seat.old }
        requires room { length found.old ≡ length keys.now }
        requires order { start ≤ end }
        requires within { end ≤ length keys.now }
        ensures got { (before : SeatOf) (looks : ℕ)
            → HasGotAll self.now before (take start keys.now) (take start found.old) looks seat.old
            → HasGotAll self.now before (take end keys.now) (take end found.new) looks seat.new }
        ensures room { length found.new ≡ length keys.now }
        ensures own { IsMine self.now seat.new }
    {
        for i in start..end {
            found[i] = self.get(seat, keys[i]);
        }
    }
}

/// Calls a function at an entry.
fn show<F: FnMut(Key, Num)>(visit: &mut F, entry: (Key, Num))
    requires callable { F.IsAlwaysCallable visit.old }
    ensures stepped { F.step visit.old entry.0 entry.1 tt visit.new }
    ensures callable { F.IsAlwaysCallable visit.new }
{
    let (key, number) = entry;
    visit(key, number);
}
