//! The calls of `ConcurrentMap`, each of which is one conditional write. They try again while other
//! seats' writes of the key come first, for as long as that may be, so they wait; but they are
//! lock-free: only the success of others costs them anything. Each tells in the end just one call,
//! or none if it is refused.
//!
//! Each goes a straight way first (`straight.rt`), which stands in its own code, with one try, and
//! needs no memory for a call and its reply. Where that didn't do, it goes on by a general way, up
//! the tables, for as long as other seats come first. Each call has its own copy of that, in which
//! its condition and its change are known.
ghost use Rattle.nb_map.specs.Maps.{IsMine};
ghost use Rattle.nb_map.specs.NamedCalls.{add_of, put_if_absent_of, put_of, remove_if_of, remove_of, replace_if_of, replace_of};
ghost use Rattle.nb_map.specs.Progress.{Unlimited};
ghost use Rattle.nb_map.specs.Promises.{Found, HasWritten, Matched, found_or_full, found_or_refused};
ghost use Rattle.nb_map.specs.Refusals.{uncontended};
ghost use Rattle.nb_map.specs.inside.Waiting.{HasGoneOn, answer_of_added, answer_of_put};

use crate::faults::{AddFault, Full};
use crate::map::answers::{Added, Gone};
use crate::map::straight::Straight;
use crate::map::{Map, Seat};
use crate::steps::pause::spin;
use nb_core::{Change, Key, Num, Want};
use std::sync::Wait;

impl Map {
    /// Puts a number at a key, and answers what was there. `ConcurrentMap.put`.
    ///
    /// It is lock-free, as all of these calls are: where other seats have won `w` exchanges on the
    /// key since this seat's last step, it takes at most 8 (T + w + 1 + G) (N + 8) steps on the
    /// chain, whose G tables have T slots and the last of them N. So only the success of others
    /// costs it anything, and no seat that stops, wherever that is, can hold it up. Where others
    /// have won none and the key is at home in the table that the seat remembers, these are at most
    /// three steps, or five where the seat didn't know the key's slot before, as of a new key, and
    /// knows of no table above (`IsShortAtHome`).
    #[inline(always)]
    pub fn put<R: Wait>(
        &self,
        rt: &R,
        seat: &mut Seat,
        key: Key,
        number: Num,
    ) -> Result<Option<Num>, Full>
        requires own { IsMine self.now seat.old }
        ensures { HasWritten self.now (put_of key number) seat.old seat.new Unlimited
            (found_or_full result) }
    {
        let mut left = 1;
        let told = self.write_straight(seat, key, Want::Any, Change::Put(number), &mut left);
        if let Straight::Made(reply) = told {
            return Ok(reply.before);
        }
        if left == 0 {
            spin();
        }
        self.put_general(rt, seat, key, number).answer()
    }

    /// Goes on with `put`.
    #[cold]
    #[inline(never)]
    fn put_general<R: Wait>(&self, rt: &R, seat: &mut Seat, key: Key, number: Num) -> Gone
        requires own { IsMine self.now seat.old }
        ensures { HasGoneOn self.now (put_of key number) seat.old seat.new Unlimited
            (found_or_full (answer_of_put result)) }
    {
        self.put_on(rt, seat, key, Want::Any, Change::Put(number))
    }

    /// Puts a number at a key that has none, and answers what was there.
    /// `ConcurrentMap.putIfAbsent`. Lock-free, with the bound of `put`.
    #[inline(always)]
    pub fn put_if_absent<R: Wait>(
        &self,
        rt: &R,
        seat: &mut Seat,
        key: Key,
        number: Num,
    ) -> Result<Option<Num>, Full>
        requires own { IsMine self.now seat.old }
        ensures { HasWritten self.now (put_if_absent_of key number) seat.old seat.new Unlimited
            (found_or_full result) }
    {
        let mut left = 1;
        let told = self.write_straight(seat, key, Want::Absent, Change::Put(number), &mut left);
        if let Straight::Made(reply) = told {
            return Ok(reply.before);
        }
        if left == 0 {
            spin();
        }
        self.put_if_absent_general(rt, seat, key, number).answer()
    }

    /// Goes on with `put_if_absent`.
    #[cold]
    #[inline(never)]
    fn put_if_absent_general<R: Wait>(&self, rt: &R, seat: &mut Seat, key: Key, number: Num) -> Gone
        requires own { IsMine self.now seat.old }
        ensures { HasGoneOn self.now (put_if_absent_of key number) seat.old seat.new Unlimited
            (found_or_full (answer_of_put result)) }
    {
        self.put_on(rt, seat, key, Want::Absent, Change::Put(number))
    }

    /// Puts a number in place of another, and answers what was there. `ConcurrentMap.replace` of
    /// two arguments. Lock-free, with the bound of `put`.
    pub fn replace<R: Wait>(&self, rt: &R, seat: &mut Seat, key: Key, number: Num) -> Option<Num>
        requires own { IsMine self.now seat.old }
        ensures { HasWritten self.now (replace_of key number) seat.old seat.new Unlimited
            (Found result) }
    {
        let mut left = 1;
        let told = self.write_straight(seat, key, Want::Present, Change::Put(number), &mut left);
        if let Straight::Made(reply) = told {
            return reply.before;
        }
        if left == 0 {
            spin();
        }
        self.replace_general(rt, seat, key, number)
    }

    /// Goes on with `replace`.
    #[cold]
    #[inline(never)]
    fn replace_general<R: Wait>(
        &self,
        rt: &R,
        seat: &mut Seat,
        key: Key,
        number: Num,
    ) -> Option<Num>
        requires own { IsMine self.now seat.old }
        ensures { HasGoneOn self.now (replace_of key number) seat.old seat.new Unlimited
            (Found result) }
    {
        self.set_on(rt, seat, key, Want::Present, Change::Put(number))
            .before
    }

    /// Puts a number in place of this one, and answers whether it did. `ConcurrentMap.replace` of
    /// three arguments. Lock-free, with the bound of `put`.
    pub fn replace_if<R: Wait>(&self, rt: &R, seat: &mut Seat, key: Key, old: Num, new: Num) -> bool
        requires own { IsMine self.now seat.old }
        ensures { HasWritten self.now (replace_if_of key old new) seat.old seat.new Unlimited
            (Matched result) }
    {
        let mut left = 1;
        let told = self.write_straight(seat, key, Want::Equal(old), Change::Put(new), &mut left);
        if let Straight::Made(reply) = told {
            return reply.matched;
        }
        if left == 0 {
            spin();
        }
        self.replace_if_general(rt, seat, key, old, new)
    }

    /// Goes on with `replace_if`.
    #[cold]
    #[inline(never)]
    fn replace_if_general<R: Wait>(
        &self,
        rt: &R,
        seat: &mut Seat,
        key: Key,
        old: Num,
        new: Num,
    ) -> bool
        requires own { IsMine self.now seat.old }
        ensures { HasGoneOn self.now (replace_if_of key old new) seat.old seat.new Unlimited
            (Matched result) }
    {
        self.set_on(rt, seat, key, Want::Equal(old), Change::Put(new))
            .matched
    }

    /// Takes out a key, and answers what was there. `ConcurrentMap.remove` of one argument.
    /// Lock-free, with the bound of `put`.
    pub fn remove<R: Wait>(&self, rt: &R, seat: &mut Seat, key: Key) -> Option<Num>
        requires own { IsMine self.now seat.old }
        ensures { HasWritten self.now (remove_of key) seat.old seat.new Unlimited
            (Found result) }
    {
        let mut left = 1;
        let told = self.write_straight(seat, key, Want::Any, Change::Remove, &mut left);
        if let Straight::Made(reply) = told {
            return reply.before;
        }
        if left == 0 {
            spin();
        }
        self.remove_general(rt, seat, key)
    }

    /// Goes on with `remove`.
    #[cold]
    #[inline(never)]
    fn remove_general<R: Wait>(&self, rt: &R, seat: &mut Seat, key: Key) -> Option<Num>
        requires own { IsMine self.now seat.old }
        ensures { HasGoneOn self.now (remove_of key) seat.old seat.new Unlimited
            (Found result) }
    {
        self.set_on(rt, seat, key, Want::Any, Change::Remove).before
    }

    /// Takes out a key that has this number, and answers whether it did. `ConcurrentMap.remove` of
    /// two arguments. Lock-free, with the bound of `put`.
    pub fn remove_if<R: Wait>(&self, rt: &R, seat: &mut Seat, key: Key, number: Num) -> bool
        requires own { IsMine self.now seat.old }
        ensures { HasWritten self.now (remove_if_of key number) seat.old seat.new Unlimited
            (Matched result) }
    {
        let mut left = 1;
        let told = self.write_straight(seat, key, Want::Equal(number), Change::Remove, &mut left);
        if let Straight::Made(reply) = told {
            return reply.matched;
        }
        if left == 0 {
            spin();
        }
        self.remove_if_general(rt, seat, key, number)
    }

    /// Goes on with `remove_if`.
    #[cold]
    #[inline(never)]
    fn remove_if_general<R: Wait>(&self, rt: &R, seat: &mut Seat, key: Key, number: Num) -> bool
        requires own { IsMine self.now seat.old }
        ensures { HasGoneOn self.now (remove_if_of key number) seat.old seat.new Unlimited
            (Matched result) }
    {
        self.set_on(rt, seat, key, Want::Equal(number), Change::Remove)
            .matched
    }

    /// Raises the number at a key, an absent one counting as 0, and answers what was there.
    /// Lock-free, with the bound of `put`.
    #[inline(always)]
    pub fn add<R: Wait>(
        &self,
        rt: &R,
        seat: &mut Seat,
        key: Key,
        number: Num,
    ) -> Result<Option<Num>, AddFault>
        requires own { IsMine self.now seat.old }
        ensures { HasWritten self.now (add_of key number) seat.old seat.new Unlimited
            (found_or_refused (uncontended result)) }
    {
        let mut left = 1;
        match self.write_straight(seat, key, Want::Any, Change::Add(number), &mut left) {
            Straight::Made(reply) => Ok(reply.before),
            Straight::Overflow => Err(AddFault::ValueRange),
            Straight::GoesOn => {
                if left == 0 {
                    spin();
                }
                self.add_general(rt, seat, key, number).answer()
            }
        }
    }

    /// Goes on with `add`.
    #[cold]
    #[inline(never)]
    fn add_general<R: Wait>(&self, rt: &R, seat: &mut Seat, key: Key, number: Num) -> Added
        requires own { IsMine self.now seat.old }
        ensures { HasGoneOn self.now (add_of key number) seat.old seat.new Unlimited
            (found_or_refused (uncontended (answer_of_added result))) }
    {
        match self.write_general(rt, seat, key, Want::Any, Change::Add(number)) {
            Ok(reply) => match reply.before {
                Some(found) => Added::Found(found),
                None => Added::Nothing,
            },
            Err(AddFault::Full) => Added::Full,
            Err(AddFault::ValueRange) => Added::ValueRange,
        }
    }
}
