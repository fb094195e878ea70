//! The straight way of writes: one try at the key's home slot, and the count of what it did to the
//! number of keys. Its condition and its change are known in each call that uses it, and so what is
//! left of it there is short.
ghost use Rattle.std.specs.Prelude.{if◌then◌else◌, pos, ◌≡◌, ◌≤◌};
ghost use Rattle.nb_core.specs.Meaning.{net_of_change};
ghost use Rattle.nb_core.specs.declared.calls.Call.TheVariants as call;
ghost use Rattle.nb_map.specs.Maps.{IsMine, accounted};
ghost use Rattle.nb_map.specs.Progress.{Tries, Unlimited};
ghost use Rattle.nb_map.specs.inside.Waiting.{HasGoneStraight};

use crate::map::{Map, Seat};
use crate::steps::pause::{NoPause, spin};
use crate::steps::slot::{AtHome, write_home};
use nb_core::{Call, Change, Key, Reply, Want};
use nb_count::CountSeat;

/// What the straight way of a write comes to.
#[derive(Clone, Copy)]
pub(super) enum Straight {
    /// It is made, and this is its reply.
    Made(Reply),
    /// It would put a number past the greatest one, and is refused.
    Overflow,
    /// It has to go on by the general way.
    GoesOn,
}

impl Map {
    /// The straight way of a write, its first try, and the count of what it did to the number of
    /// keys. It rests where the loss of its try has shown that there is nothing left to do, as of a
    /// put of the number that the other write has put. Where it has to go on by the general way,
    /// its lost try is taken from the tries, of which maybe none is left. A write that waits has
    /// one here, and as many as it takes there.
    #[inline(always)]
    pub(super) fn write_straight(
        &self,
        seat: &mut Seat,
        key: Key,
        want: Want,
        change: Change,
        tries: &mut u32,
    ) -> Straight
        requires own { IsMine self.now seat.old }
        requires some { 1 ≤ tries.old }
        ensures tries { HasGoneStraight self.now (call.Write key want change) seat.old seat.new
            (Tries tries.old) (Tries tries.new) result }
        ensures waits { HasGoneStraight self.now (call.Write key want change) seat.old seat.new
            Unlimited Unlimited result }
    {
        let call = Call::Write { key, want, change };
        let mut left = 1;
        let home = write_home(&self.chain, &mut seat.chain, &call, &mut left, &mut NoPause);
        match home.joined_of(&change) {
            AtHome::Made(reply) => {
                // a put may have left what was there as it was
                if left == 0 {
                    spin();
                }
                self.count(&mut seat.count, &change, &reply);
                Straight::Made(reply)
            }
            AtHome::Left(reply) => {
                if left == 0 {
                    spin();
                }
                Straight::Made(reply)
            }
            AtHome::Overflow => Straight::Overflow,
            AtHome::GoesOn => {
                *tries -= 1 - left;
                Straight::GoesOn
            }
        }
    }

    /// Counts what a write with this change and reply did to the number of keys.
    pub(crate) fn count(&self, seat: &mut CountSeat, change: &Change, reply: &Reply)
        requires own { seat.old.counter ≡ self.now.counter.id }
        ensures { seat.new
            ≡ accounted (if reply.now.matched then net_of_change change.now reply.now.before
            else pos 0) seat.old }
    {
        if !reply.matched {
            return;
        }
        match *change {
            Change::Remove => {
                if reply.before.is_some() {
                    self.counter.add(seat, -1);
                }
            }
            Change::Put(_) | Change::Add(_) => {
                if reply.before.is_none() {
                    self.counter.add(seat, 1);
                }
            }
        }
    }
}
