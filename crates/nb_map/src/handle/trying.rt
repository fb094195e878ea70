//! The calls of a handle that wait for nobody: conditional writes, writes by name, and updates. No
//! tries count as one.
ghost use Rattle.std.specs.Prelude.{Option, max, unwrap_or, ℕ, ◌≡◌};
ghost use Rattle.nb_core.specs.declared.calls.Call.TheVariants as call;
ghost use Rattle.nb_core.specs.Plans.{generations_of};
ghost use Rattle.nb_map.specs.FirstPut.{HasPutIfNew};
ghost use Rattle.nb_map.specs.Handles.{KeepsRest};
ghost use Rattle.nb_map.specs.NamedCalls.{add_below_of, add_of, exchange_of, put_below_of, put_if_absent_of, put_of, remove_below_of, remove_of};
ghost use Rattle.nb_map.specs.Progress.{Tries};
ghost use Rattle.nb_map.specs.Promises.{HasGot, HasWritten, found_or_refused, replied_or_refused};
ghost use Rattle.nb_map.specs.Updating.{IsUpdate};

use crate::faults::{Full, PutFault};
use crate::handle::Handle;
use crate::map::FirstPut;
use nb_core::{Change, Key, Num, Reply, Want};

impl Handle {
    /// Changes what the map has at a key, where the condition holds of it, and replies what it had:
    /// `Map::put_if_match`, which waits for nobody. No tries count as one.
    #[inline(always)]
    pub fn put_if_match(
        &mut self,
        key: Key,
        want: Want,
        change: Change,
        tries: u32,
    ) -> Result<Reply, PutFault>
        ensures wrote { HasWritten self.old.map (call.Write key want change)
            self.old.seat self.new.seat (Tries (max tries 1)) (replied_or_refused result) }
        ensures rest { KeepsRest self.old self.new }
    {
        self.shared
            .map
            .put_if_match(&mut self.seat, key, want, change, tries.max(1))
    }

    /// `Map::try_put`.
    #[inline(always)]
    pub fn try_put(&mut self, key: Key, number: Num, tries: u32) -> Result<Option<Num>, PutFault>
        ensures wrote { HasWritten self.old.map (put_of key number) self.old.seat self.new.seat
            (Tries (max tries 1)) (found_or_refused result) }
        ensures rest { KeepsRest self.old self.new }
    {
        self.shared
            .map
            .try_put(&mut self.seat, key, number, tries.max(1))
    }

    /// `Map::try_put_if_absent`.
    #[inline(always)]
    pub fn try_put_if_absent(
        &mut self,
        key: Key,
        number: Num,
        tries: u32,
    ) -> Result<Option<Num>, PutFault>
        ensures wrote { HasWritten self.old.map (put_if_absent_of key number)
            self.old.seat self.new.seat (Tries (max tries 1)) (found_or_refused result) }
        ensures rest { KeepsRest self.old self.new }
    {
        self.shared
            .map
            .try_put_if_absent(&mut self.seat, key, number, tries.max(1))
    }

    /// `Map::try_add`.
    #[inline(always)]
    pub fn try_add(&mut self, key: Key, number: Num, tries: u32) -> Result<Option<Num>, PutFault>
        ensures wrote { HasWritten self.old.map (add_of key number) self.old.seat self.new.seat
            (Tries (max tries 1)) (found_or_refused result) }
        ensures rest { KeepsRest self.old self.new }
    {
        self.shared
            .map
            .try_add(&mut self.seat, key, number, tries.max(1))
    }

    /// `Map::try_remove`.
    #[inline(always)]
    pub fn try_remove(&mut self, key: Key, tries: u32) -> Result<Option<Num>, PutFault>
        ensures wrote { HasWritten self.old.map (remove_of key) self.old.seat self.new.seat
            (Tries (max tries 1)) (found_or_refused result) }
        ensures rest { KeepsRest self.old self.new }
    {
        self.shared
            .map
            .try_remove(&mut self.seat, key, tries.max(1))
    }

    /// `Map::try_put_below`.
    #[inline(always)]
    pub fn try_put_below(
        &mut self,
        key: Key,
        number: Num,
        limit: Num,
        tries: u32,
    ) -> Result<Option<Num>, PutFault>
        ensures wrote { HasWritten self.old.map (put_below_of key number limit)
            self.old.seat self.new.seat (Tries (max tries 1)) (found_or_refused result) }
        ensures rest { KeepsRest self.old self.new }
    {
        self.shared
            .map
            .try_put_below(&mut self.seat, key, number, limit, tries.max(1))
    }

    /// `Map::try_add_below`.
    #[inline(always)]
    pub fn try_add_below(
        &mut self,
        key: Key,
        number: Num,
        limit: Num,
        tries: u32,
    ) -> Result<Option<Num>, PutFault>
        ensures wrote { HasWritten self.old.map (add_below_of key number limit)
            self.old.seat self.new.seat (Tries (max tries 1)) (found_or_refused result) }
        ensures rest { KeepsRest self.old self.new }
    {
        self.shared
            .map
            .try_add_below(&mut self.seat, key, number, limit, tries.max(1))
    }

    /// `Map::try_remove_below`.
    #[inline(always)]
    pub fn try_remove_below(
        &mut self,
        key: Key,
        limit: Num,
        tries: u32,
    ) -> Result<Option<Num>, PutFault>
        ensures wrote { HasWritten self.old.map (remove_below_of key limit)
            self.old.seat self.new.seat (Tries (max tries 1)) (found_or_refused result) }
        ensures rest { KeepsRest self.old self.new }
    {
        self.shared
            .map
            .try_remove_below(&mut self.seat, key, limit, tries.max(1))
    }

    /// Puts a number at a key that never had one in this map, which has one table:
    /// `Map::put_if_new`, which waits for nobody.
    #[inline(always)]
    pub fn put_if_new(&mut self, key: Key, number: Num) -> Result<FirstPut, Full>
        requires one { generations_of self.old.map.chain.shape ≡ 1 }
        ensures wrote { HasPutIfNew self.old.map key number self.old.seat self.new.seat result }
        ensures rest { KeepsRest self.old self.new }
    {
        self.shared.map.put_if_new(&mut self.seat, key, number)
    }

    /// `Map::compare_exchange`.
    #[inline(always)]
    pub fn compare_exchange(
        &mut self,
        key: Key,
        old: Option<Num>,
        new: Option<Num>,
        tries: u32,
    ) -> Result<Reply, PutFault>
        ensures wrote { HasWritten self.old.map (exchange_of key old new)
            self.old.seat self.new.seat (Tries (max tries 1)) (replied_or_refused result) }
        ensures rest { KeepsRest self.old self.new }
    {
        self.shared
            .map
            .compare_exchange(&mut self.seat, key, old, new, tries.max(1))
    }

    /// `Map::get_or`.
    pub fn get_or(&mut self, key: Key, number: Num) -> Num
        ensures got { (found : Option ℕ) × (unwrap_or found number ≡ result)
            × HasGot self.old.map key self.old.seat self.new.seat found }
        ensures rest { KeepsRest self.old self.new }
    {
        self.shared.map.get_or(&mut self.seat, key, number)
    }

    /// `Map::try_update`.
    pub fn try_update<F: FnMut(Option<Num>) -> Option<Num>>(
        &mut self,
        key: Key,
        tries: u32,
        new_of: F,
    ) -> Result<Option<Num>, PutFault>
        requires callable { F.IsAlwaysCallable new_of }
        ensures updated { IsUpdate self.old.map F.step new_of key self.old.seat self.new.seat
            (max tries 1) result }
        ensures rest { KeepsRest self.old self.new }
    {
        self.shared
            .map
            .try_update(&mut self.seat, key, tries.max(1), new_of)
    }
}
