//! The calls of `ConcurrentMap` by a handle.
ghost use Rattle.nb_map.specs.Handles.{KeepsRest};
ghost use Rattle.nb_map.specs.NamedCalls.{add_of, put_if_absent_of, put_of, remove_if_of, remove_of, replace_if_of, replace_of};
ghost use Rattle.nb_map.specs.Progress.{Unlimited};
ghost use Rattle.nb_map.specs.Promises.{Found, HasWritten, Matched, found_or_full, found_or_refused};
ghost use Rattle.nb_map.specs.Refusals.{uncontended};

use crate::faults::{AddFault, Full};
use crate::handle::Handle;
use nb_core::{Key, Num};
use std::sync::Wait;

impl Handle {
    /// Puts a number at a key, and answers what was there.
    #[inline(always)]
    pub fn put<R: Wait>(&mut self, rt: &R, key: Key, number: Num) -> Result<Option<Num>, Full>
        ensures wrote { HasWritten self.old.map (put_of key number) self.old.seat self.new.seat
            Unlimited (found_or_full result) }
        ensures rest { KeepsRest self.old self.new }
    {
        self.shared.map.put(rt, &mut self.seat, key, number)
    }

    /// Puts a number at a key that has none, and answers what was there.
    #[inline(always)]
    pub fn put_if_absent<R: Wait>(
        &mut self,
        rt: &R,
        key: Key,
        number: Num,
    ) -> Result<Option<Num>, Full>
        ensures wrote { HasWritten self.old.map (put_if_absent_of key number)
            self.old.seat self.new.seat Unlimited (found_or_full result) }
        ensures rest { KeepsRest self.old self.new }
    {
        self.shared
            .map
            .put_if_absent(rt, &mut self.seat, key, number)
    }

    /// Puts a number in place of another, and answers what was there.
    pub fn replace<R: Wait>(&mut self, rt: &R, key: Key, number: Num) -> Option<Num>
        ensures wrote { HasWritten self.old.map (replace_of key number) self.old.seat self.new.seat
            Unlimited (Found result) }
        ensures rest { KeepsRest self.old self.new }
    {
        self.shared.map.replace(rt, &mut self.seat, key, number)
    }

    /// Puts a number in place of this one, and answers whether it did.
    pub fn replace_if<R: Wait>(&mut self, rt: &R, key: Key, old: Num, new: Num) -> bool
        ensures wrote { HasWritten self.old.map (replace_if_of key old new)
            self.old.seat self.new.seat Unlimited (Matched result) }
        ensures rest { KeepsRest self.old self.new }
    {
        self.shared
            .map
            .replace_if(rt, &mut self.seat, key, old, new)
    }

    /// Takes out a key, and answers what was there.
    #[inline(always)]
    pub fn remove<R: Wait>(&mut self, rt: &R, key: Key) -> Option<Num>
        ensures wrote { HasWritten self.old.map (remove_of key) self.old.seat self.new.seat
            Unlimited (Found result) }
        ensures rest { KeepsRest self.old self.new }
    {
        self.shared.map.remove(rt, &mut self.seat, key)
    }

    /// Takes out a key that has this number, and answers whether it did.
    pub fn remove_if<R: Wait>(&mut self, rt: &R, key: Key, number: Num) -> bool
        ensures wrote { HasWritten self.old.map (remove_if_of key number)
            self.old.seat self.new.seat Unlimited (Matched result) }
        ensures rest { KeepsRest self.old self.new }
    {
        self.shared.map.remove_if(rt, &mut self.seat, key, number)
    }

    /// Raises the number at a key, an absent one counting as 0, and answers what was there.
    #[inline(always)]
    pub fn add<R: Wait>(&mut self, rt: &R, key: Key, number: Num) -> Result<Option<Num>, AddFault>
        ensures wrote { HasWritten self.old.map (add_of key number) self.old.seat self.new.seat
            Unlimited (found_or_refused (uncontended result)) }
        ensures rest { KeepsRest self.old self.new }
    {
        self.shared.map.add(rt, &mut self.seat, key, number)
    }
}
