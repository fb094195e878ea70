//! The writes that are made only below a limit: where the key has no number, or a smaller one. They
//! wait for nobody. Each is made as its namesake of `trying.rt` is; but what the key has is compared
//! with the limit, and where it isn't below, it is left as it is.
ghost use Rattle.std.specs.Prelude.{◌≤◌};
ghost use Rattle.nb_map.specs.Maps.{IsMine};
ghost use Rattle.nb_map.specs.NamedCalls.{add_below_of, put_below_of, remove_below_of};
ghost use Rattle.nb_map.specs.Progress.{Tries};
ghost use Rattle.nb_map.specs.Promises.{HasWritten, found_or_refused};
ghost use Rattle.nb_map.specs.inside.Waiting.{HasGoneOn, answer_of_tried};

use crate::faults::PutFault;
use crate::map::answers::Tried;
use crate::map::straight::Straight;
use crate::map::{Map, Seat};
use nb_core::{Change, Key, Num, Want};

impl Map {
    /// Puts a number at a key that has none, or a smaller one than the limit, and answers what was
    /// there: the put was made if that is below the limit. It costs what `put_if_match` costs.
    #[inline(always)]
    pub fn try_put_below(
        &self,
        seat: &mut Seat,
        key: Key,
        number: Num,
        limit: Num,
        tries: u32,
    ) -> Result<Option<Num>, PutFault>
        requires own { IsMine self.now seat.old }
        requires some { 1 ≤ tries }
        ensures { HasWritten self.now (put_below_of key number limit) seat.old seat.new
            (Tries tries) (found_or_refused result) }
    {
        let mut left = tries;
        let change = Change::Put(number);
        let told = self.write_straight(seat, key, Want::Below(limit), change, &mut left);
        if let Straight::Made(reply) = told {
            return Ok(reply.before);
        }
        self.try_put_below_general(seat, key, number, limit, left)
            .answer()
    }

    /// Goes on with `try_put_below`.
    #[cold]
    #[inline(never)]
    fn try_put_below_general(
        &self,
        seat: &mut Seat,
        key: Key,
        number: Num,
        limit: Num,
        tries: u32,
    ) -> Tried
        requires own { IsMine self.now seat.old }
        ensures { HasGoneOn self.now (put_below_of key number limit) seat.old seat.new
            (Tries tries) (found_or_refused (answer_of_tried result)) }
    {
        self.find_above(seat, key, Want::Below(limit), Change::Put(number), tries)
    }

    /// Raises the number at a key that has none, which counts as 0, or a smaller one than the
    /// limit, and answers what was there. The sum may pass the limit. It costs what `put_if_match`
    /// costs.
    #[inline(always)]
    pub fn try_add_below(
        &self,
        seat: &mut Seat,
        key: Key,
        number: Num,
        limit: Num,
        tries: u32,
    ) -> Result<Option<Num>, PutFault>
        requires own { IsMine self.now seat.old }
        requires some { 1 ≤ tries }
        ensures { HasWritten self.now (add_below_of key number limit) seat.old seat.new
            (Tries tries) (found_or_refused result) }
    {
        let mut left = tries;
        let change = Change::Add(number);
        match self.write_straight(seat, key, Want::Below(limit), change, &mut left) {
            Straight::Made(reply) => Ok(reply.before),
            Straight::Overflow => Err(PutFault::ValueRange),
            Straight::GoesOn => self
                .try_add_below_general(seat, key, number, limit, left)
                .answer(),
        }
    }

    /// Goes on with `try_add_below`.
    #[cold]
    #[inline(never)]
    fn try_add_below_general(
        &self,
        seat: &mut Seat,
        key: Key,
        number: Num,
        limit: Num,
        tries: u32,
    ) -> Tried
        requires own { IsMine self.now seat.old }
        ensures { HasGoneOn self.now (add_below_of key number limit) seat.old seat.new
            (Tries tries) (found_or_refused (answer_of_tried result)) }
    {
        self.find_above(seat, key, Want::Below(limit), Change::Add(number), tries)
    }

    /// Takes out a key that has a smaller number than the limit, and answers what was there. It is
    /// refused only as contended. It costs what `put_if_match` costs.
    #[inline(always)]
    pub fn try_remove_below(
        &self,
        seat: &mut Seat,
        key: Key,
        limit: Num,
        tries: u32,
    ) -> Result<Option<Num>, PutFault>
        requires own { IsMine self.now seat.old }
        requires some { 1 ≤ tries }
        ensures { HasWritten self.now (remove_below_of key limit) seat.old seat.new (Tries tries)
            (found_or_refused result) }
    {
        let mut left = tries;
        let told = self.write_straight(seat, key, Want::Below(limit), Change::Remove, &mut left);
        if let Straight::Made(reply) = told {
            return Ok(reply.before);
        }
        self.try_remove_below_general(seat, key, limit, left)
            .answer()
    }

    /// Goes on with `try_remove_below`.
    #[cold]
    #[inline(never)]
    fn try_remove_below_general(&self, seat: &mut Seat, key: Key, limit: Num, tries: u32) -> Tried
        requires own { IsMine self.now seat.old }
        ensures { HasGoneOn self.now (remove_below_of key limit) seat.old seat.new (Tries tries)
            (found_or_refused (answer_of_tried result)) }
    {
        self.find_above(seat, key, Want::Below(limit), Change::Remove, tries)
    }
}
