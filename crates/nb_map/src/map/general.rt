//! What the general ways of the calls of `ConcurrentMap` have in common.
ghost use Rattle.nb_core.specs.Calls.{Fills};
ghost use Rattle.nb_core.specs.declared.calls.Call.TheVariants as call;
ghost use Rattle.nb_map.specs.Maps.{IsMine};
ghost use Rattle.nb_map.specs.Progress.{Unlimited};
ghost use Rattle.nb_map.specs.Promises.{Replied, found_or_full, replied_or_refused};
ghost use Rattle.nb_map.specs.Refusals.{uncontended};
ghost use Rattle.nb_map.specs.inside.Waiting.{CantOverflow, HasGoneOn, answer_of_put};

use crate::faults::AddFault;
use crate::map::answers::Gone;
use crate::map::{Map, Seat};
use crate::steps::write::write_rounds;
use nb_core::{Change, Key, Reply, Want};
use std::sync::Wait;

impl Map {
    /// Goes on with a write that puts no sum: it is refused only as full.
    #[inline(always)]
    pub(super) fn put_on<R: Wait>(
        &self,
        rt: &R,
        seat: &mut Seat,
        key: Key,
        want: Want,
        change: Change,
    ) -> Gone
        requires own { IsMine self.now seat.old }
        requires no_sum { CantOverflow (call.Write key want change) }
        ensures { HasGoneOn self.now (call.Write key want change) seat.old seat.new Unlimited
            (found_or_full (answer_of_put result)) }
    {
        match self.write_general(rt, seat, key, want, change) {
            Ok(reply) => match reply.before {
                Some(found) => Gone::Found(found),
                None => Gone::Nothing,
            },
            Err(AddFault::Full) => Gone::Full,
            Err(AddFault::ValueRange) => unreachable!(),
        }
    }

    /// Goes on with a write that puts no sum, and no number at an absent key: nothing refuses it.
    #[inline(always)]
    pub(super) fn set_on<R: Wait>(
        &self,
        rt: &R,
        seat: &mut Seat,
        key: Key,
        want: Want,
        change: Change,
    ) -> Reply
        requires own { IsMine self.now seat.old }
        requires no_sum { CantOverflow (call.Write key want change) }
        requires fills_none { Fills (call.Write key want change) → ⊥ }
        ensures { HasGoneOn self.now (call.Write key want change) seat.old seat.new Unlimited
            (Replied result) }
    {
        match self.write_general(rt, seat, key, want, change) {
            Ok(reply) => reply,
            Err(_) => unreachable!(),
        }
    }

    /// Goes on with a write, and counts what it did to the number of keys.
    #[inline(always)]
    pub(super) fn write_general<R: Wait>(
        &self,
        rt: &R,
        seat: &mut Seat,
        key: Key,
        want: Want,
        change: Change,
    ) -> Result<Reply, AddFault>
        requires own { IsMine self.now seat.old }
        ensures { HasGoneOn self.now (call.Write key want change) seat.old seat.new Unlimited
            (replied_or_refused (uncontended result)) }
    {
        let reply = write_rounds(rt, &self.chain, &mut seat.chain, key, want, change)?;
        self.count(&mut seat.count, &change, &reply);
        Ok(reply)
    }
}
