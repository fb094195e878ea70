//! The writes of `ConcurrentMap` that wait for nobody. Each is one `put_if_match` with as many
//! tries as its caller gives it, and is refused as contended where other seats' writes of the key
//! came first so often. So its steps are bounded whatever other threads do, and it takes no memory.
//! Each goes a straight way first (`straight.rt`), with its first try, which stands in its own
//! code. Where that didn't do, it goes on by a general way, up the tables, with the tries that are
//! left. Each call has its own copy of that, in which its condition and its change are known.
ghost use Rattle.std.specs.Prelude.{◌≤◌};
ghost use Rattle.nb_core.specs.declared.calls.Call.TheVariants as call;
ghost use Rattle.nb_map.specs.Maps.{IsMine};
ghost use Rattle.nb_map.specs.NamedCalls.{add_of, exchange_of, put_if_absent_of, put_of, remove_of};
ghost use Rattle.nb_map.specs.Progress.{Tries};
ghost use Rattle.nb_map.specs.Promises.{HasWritten, found_or_refused, replied_or_refused};
ghost use Rattle.nb_map.specs.inside.Waiting.{HasGoneOn, answer_of_tried};

use crate::faults::PutFault;
use crate::map::answers::Tried;
use crate::map::straight::Straight;
use crate::map::{Map, Seat};
use crate::steps::pause::NoPause;
use crate::steps::write::write_above;
use nb_core::{Call, Change, Key, Num, Reply, Want};

impl Map {
    /// Changes what the map has at a key, where the condition holds of it, and replies what it had:
    /// a straight way, and a general one. An exchange that another seat came before is tried again,
    /// `tries` times in all, so this waits for nobody: it takes at most 8 (T + `tries`
    /// + G) (N + 8) steps on the chain, whose G tables have T slots and the last of them N; and
    /// however many tries it has, at most 8 (T + w + 1 + G) (N + 8) where other seats have won `w`
    /// exchanges on the key since this seat's last step. Where they have won none and the key is at
    /// home in the table that the seat remembers, these are at most three: loads of the key and of
    /// its value, and the exchange; or five, where it may have to claim its slot first
    /// (`IsShortAtHome` says all that is asked). A key that came is counted afterwards, and one
    /// that went, by one step on the counter. A refused write leaves the map as it is; but tables
    /// may have been installed and copied for it, and its key may keep a slot without a number.
    /// Where its first exchange is lost, and what that found decides the write, it rests for some
    /// microseconds before it answers, so that others go on at the key.
    #[inline(always)]
    pub fn put_if_match(
        &self,
        seat: &mut Seat,
        key: Key,
        want: Want,
        change: Change,
        tries: u32,
    ) -> Result<Reply, PutFault>
        requires own { IsMine self.now seat.old }
        requires some { 1 ≤ tries }
        ensures { HasWritten self.now (call.Write key want change) seat.old seat.new (Tries tries)
            (replied_or_refused result) }
    {
        // An arm for each change, in which it is known: so each is as short as a call by name.
        match change {
            Change::Put(number) => self.put_if_match_by(
                seat,
                key,
                want,
                Change::Put(number),
                tries,
            ),
            Change::Add(number) => self.put_if_match_by(
                seat,
                key,
                want,
                Change::Add(number),
                tries,
            ),
            Change::Remove => self.put_if_match_by(seat, key, want, Change::Remove, tries),
        }
    }

    /// The same by a change that is known where it is called.
    #[inline(always)]
    fn put_if_match_by(
        &self,
        seat: &mut Seat,
        key: Key,
        want: Want,
        change: Change,
        tries: u32,
    ) -> Result<Reply, PutFault>
        requires own { IsMine self.now seat.old }
        requires some { 1 ≤ tries }
        ensures { HasWritten self.now (call.Write key want change) seat.old seat.new (Tries tries)
            (replied_or_refused result) }
    {
        // By reference, since Rattle's borrow checker covers no second move of these two.
        let (asked, made) = (&want, &change);
        let mut left = tries;
        match self.write_straight(seat, key, *asked, *made, &mut left) {
            Straight::Made(reply) => Ok(reply),
            Straight::Overflow => Err(PutFault::ValueRange),
            Straight::GoesOn => self.put_if_match_general(seat, key, *asked, *made, left),
        }
    }

    /// Goes on with `put_if_match`.
    #[cold]
    #[inline(never)]
    fn put_if_match_general(
        &self,
        seat: &mut Seat,
        key: Key,
        want: Want,
        change: Change,
        tries: u32,
    ) -> Result<Reply, PutFault>
        requires own { IsMine self.now seat.old }
        ensures { HasGoneOn self.now (call.Write key want change) seat.old seat.new (Tries tries)
            (replied_or_refused result) }
    {
        self.write_above(seat, key, want, change, tries)
    }

    /// Puts a number at a key, and answers what was there: `put` without a wait. It costs what
    /// `put_if_match` costs.
    #[inline(always)]
    pub fn try_put(
        &self,
        seat: &mut Seat,
        key: Key,
        number: Num,
        tries: u32,
    ) -> Result<Option<Num>, PutFault>
        requires own { IsMine self.now seat.old }
        requires some { 1 ≤ tries }
        ensures { HasWritten self.now (put_of key number) seat.old seat.new (Tries tries)
            (found_or_refused result) }
    {
        let mut left = tries;
        let told = self.write_straight(seat, key, Want::Any, Change::Put(number), &mut left);
        if let Straight::Made(reply) = told {
            return Ok(reply.before);
        }
        self.try_put_general(seat, key, number, left).answer()
    }

    /// Goes on with `try_put`.
    #[cold]
    #[inline(never)]
    fn try_put_general(&self, seat: &mut Seat, key: Key, number: Num, tries: u32) -> Tried
        requires own { IsMine self.now seat.old }
        ensures { HasGoneOn self.now (put_of key number) seat.old seat.new (Tries tries)
            (found_or_refused (answer_of_tried result)) }
    {
        self.find_above(seat, key, Want::Any, Change::Put(number), tries)
    }

    /// Puts a number at a key that has none, and answers what was there: `put_if_absent` without a
    /// wait. It costs what `put_if_match` costs.
    #[inline(always)]
    pub fn try_put_if_absent(
        &self,
        seat: &mut Seat,
        key: Key,
        number: Num,
        tries: u32,
    ) -> Result<Option<Num>, PutFault>
        requires own { IsMine self.now seat.old }
        requires some { 1 ≤ tries }
        ensures { HasWritten self.now (put_if_absent_of key number) seat.old seat.new (Tries tries)
            (found_or_refused result) }
    {
        let mut left = tries;
        let told = self.write_straight(seat, key, Want::Absent, Change::Put(number), &mut left);
        if let Straight::Made(reply) = told {
            return Ok(reply.before);
        }
        self.try_put_if_absent_general(seat, key, number, left)
            .answer()
    }

    /// Goes on with `try_put_if_absent`.
    #[cold]
    #[inline(never)]
    fn try_put_if_absent_general(&self, seat: &mut Seat, key: Key, number: Num, tries: u32) -> Tried
        requires own { IsMine self.now seat.old }
        ensures { HasGoneOn self.now (put_if_absent_of key number) seat.old seat.new (Tries tries)
            (found_or_refused (answer_of_tried result)) }
    {
        self.find_above(seat, key, Want::Absent, Change::Put(number), tries)
    }

    /// Raises the number at a key, an absent one counting as 0, and answers what was there: `add`
    /// without a wait. It costs what `put_if_match` costs.
    #[inline(always)]
    pub fn try_add(
        &self,
        seat: &mut Seat,
        key: Key,
        number: Num,
        tries: u32,
    ) -> Result<Option<Num>, PutFault>
        requires own { IsMine self.now seat.old }
        requires some { 1 ≤ tries }
        ensures { HasWritten self.now (add_of key number) seat.old seat.new (Tries tries)
            (found_or_refused result) }
    {
        let mut left = tries;
        match self.write_straight(seat, key, Want::Any, Change::Add(number), &mut left) {
            Straight::Made(reply) => Ok(reply.before),
            Straight::Overflow => Err(PutFault::ValueRange),
            Straight::GoesOn => self.try_add_general(seat, key, number, left).answer(),
        }
    }

    /// Goes on with `try_add`.
    #[cold]
    #[inline(never)]
    fn try_add_general(&self, seat: &mut Seat, key: Key, number: Num, tries: u32) -> Tried
        requires own { IsMine self.now seat.old }
        ensures { HasGoneOn self.now (add_of key number) seat.old seat.new (Tries tries)
            (found_or_refused (answer_of_tried result)) }
    {
        self.find_above(seat, key, Want::Any, Change::Add(number), tries)
    }

    /// Takes out a key, and answers what was there: `remove` without a wait. It is refused only as
    /// contended. It costs what `put_if_match` costs.
    #[inline(always)]
    pub fn try_remove(&self, seat: &mut Seat, key: Key, tries: u32) -> Result<Option<Num>, PutFault>
        requires own { IsMine self.now seat.old }
        requires some { 1 ≤ tries }
        ensures { HasWritten self.now (remove_of key) seat.old seat.new (Tries tries)
            (found_or_refused result) }
    {
        let mut left = tries;
        let told = self.write_straight(seat, key, Want::Any, Change::Remove, &mut left);
        if let Straight::Made(reply) = told {
            return Ok(reply.before);
        }
        self.try_remove_general(seat, key, left).answer()
    }

    /// Goes on with `try_remove`.
    #[cold]
    #[inline(never)]
    fn try_remove_general(&self, seat: &mut Seat, key: Key, tries: u32) -> Tried
        requires own { IsMine self.now seat.old }
        ensures { HasGoneOn self.now (remove_of key) seat.old seat.new (Tries tries)
            (found_or_refused (answer_of_tried result)) }
    {
        self.find_above(seat, key, Want::Any, Change::Remove, tries)
    }

    /// Sets a key to `new` where it is at `old`, `None` being absent, and replies what was there
    /// and whether that was `old`. So this is `put_if_absent`, `replace_if` and `remove_if` in one
    /// call without a wait, as `compare_exchange` of Rust's atomics; from absent to absent it
    /// leaves the map as it is. It costs what `put_if_match` costs.
    pub fn compare_exchange(
        &self,
        seat: &mut Seat,
        key: Key,
        old: Option<Num>,
        new: Option<Num>,
        tries: u32,
    ) -> Result<Reply, PutFault>
        requires own { IsMine self.now seat.old }
        requires some { 1 ≤ tries }
        ensures { HasWritten self.now (exchange_of key old new) seat.old seat.new (Tries tries)
            (replied_or_refused result) }
    {
        let want = match old {
            Some(number) => Want::Equal(number),
            None => Want::Absent,
        };
        // An arm for each change, as in `put_if_match`.
        match new {
            Some(number) => self.put_if_match_by(seat, key, want, Change::Put(number), tries),
            None => self.put_if_match_by(seat, key, want, Change::Remove, tries),
        }
    }

    /// Goes on with a write, and tells what it found.
    #[inline(always)]
    pub(super) fn find_above(
        &self,
        seat: &mut Seat,
        key: Key,
        want: Want,
        change: Change,
        tries: u32,
    ) -> Tried
        requires own { IsMine self.now seat.old }
        ensures { HasGoneOn self.now (call.Write key want change) seat.old seat.new (Tries tries)
            (found_or_refused (answer_of_tried result)) }
    {
        match self.write_above(seat, key, want, change, tries) {
            Ok(reply) => match reply.before {
                Some(found) => Tried::Found(found),
                None => Tried::Nothing,
            },
            Err(PutFault::Full) => Tried::Full,
            Err(PutFault::Contended) => Tried::Contended,
            Err(PutFault::ValueRange) => Tried::ValueRange,
        }
    }

    /// Goes on with a write, and counts what it did to the number of keys.
    #[inline(always)]
    fn write_above(
        &self,
        seat: &mut Seat,
        key: Key,
        want: Want,
        change: Change,
        tries: u32,
    ) -> Result<Reply, PutFault>
        requires own { IsMine self.now seat.old }
        ensures { HasGoneOn self.now (call.Write key want change) seat.old seat.new (Tries tries)
            (replied_or_refused result) }
    {
        let call = Call::Write { key, want, change };
        let reply = write_above(&self.chain, &mut seat.chain, &call, tries, &mut NoPause)?;
        self.count(&mut seat.count, &change, &reply);
        Ok(reply)
    }
}
