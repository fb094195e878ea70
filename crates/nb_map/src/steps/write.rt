//! A write on a chain of tables: the straight way, at its key's home slot, and the general one.
ghost use Rattle.std.specs.Prelude.{IfErr, min, ◌+◌, ◌<◌, ◌≤◌};
ghost use Rattle.nb_core.specs.declared.calls.Call.TheVariants as call;
ghost use Rattle.nb_table.specs.Chains.{IsOwn};
ghost use Rattle.nb_map.specs.Calling.{HasMade};
ghost use Rattle.nb_map.specs.Logs.{made_in};
ghost use Rattle.nb_map.specs.Progress.{IsShortAtHome, Tries, Unlimited, passed_since};
ghost use Rattle.nb_map.specs.Refusals.{IsJust, uncontended};
ghost use Rattle.nb_map.specs.Steps.{put_steps};
ghost use Rattle.nb_map.specs.inside.Waiting.{HasClimbed};

use crate::faults::{AddFault, PutFault};
use crate::steps::climb::climb;
use crate::steps::pause::{Pause, Rest};
use crate::steps::rung::Rung;
use crate::steps::slot::{AtHome, write_home};
use nb_core::{Call, Change, Key, Reply, Want};
use nb_table::{Chain, ChainSeat};
use std::sync::Wait;

/// Changes what the map has at a key, where the condition holds of it, and replies what it had. An
/// exchange that another seat came before is tried again, so many times in all: first at the key's
/// home slot, and then on the way up the tables. The pause is made before each. A write that leaves
/// the map as it is makes no exchange. One conditional write stands behind all writes of
/// `ConcurrentMap`, as `putIfMatch` of high-scale-lib.
#[inline(always)]
pub fn put_if_match_in<P: Pause>(
    chain: &Chain,
    seat: &mut ChainSeat,
    key: Key,
    want: Want,
    change: Change,
    tries: u32,
    pause: &mut P,
) -> Result<Reply, PutFault>
    requires own { IsOwn chain.now seat.old }
    requires some { 1 ≤ tries }
    requires serves { P.serves pause.old chain.now }
    ensures made { HasMade chain.now.shape (call.Write key want change) seat.old seat.new
        (made_in (call.Write key want change) result)
        (put_steps chain.now.shape (min tries
        (passed_since (call.Write key want change) seat.old seat.new + 1))) }
    ensures refused { IfErr result (IsJust chain.now.shape (call.Write key want change)
        seat.old seat.new (Tries tries)) }
    ensures looked { seat.old.steps < seat.new.steps }
    ensures short { IsShortAtHome chain.now.shape (call.Write key want change) seat.old seat.new }
    ensures serves { P.serves pause.new chain.now }
{
    let call = Call::Write { key, want, change };
    let mut left = 1;
    match write_home(chain, seat, &call, &mut left, pause) {
        AtHome::Made(reply) => Ok(reply),
        AtHome::Left(reply) => Ok(reply),
        AtHome::Overflow => Err(PutFault::ValueRange),
        AtHome::GoesOn => {
            if left == 0 && 1 < tries {
                pause.after_loss(chain);
            }
            write_above(chain, seat, &call, tries - (1 - left), pause)
        }
    }
}

/// The general way of a write with so many tries, in the top table or above it. Without a try it is
/// refused.
#[inline(always)]
pub(crate) fn write_above<P: Pause>(
    chain: &Chain,
    seat: &mut ChainSeat,
    call: &Call,
    tries: u32,
    pause: &mut P,
) -> Result<Reply, PutFault>
    requires own { IsOwn chain.now seat.old }
    requires serves { P.serves pause.old chain.now }
    ensures climbed { HasClimbed chain.now.shape call.now seat.old seat.new (Tries tries) result }
    ensures serves { P.serves pause.new chain.now }
{
    if tries == 0 {
        return Err(PutFault::Contended);
    }
    let top = chain.load_top(seat);
    let mut left = tries;
    climb(chain, seat, call, Rung::at(top), &mut left, pause)
}

/// The general way of a write that tries again for as long as other seats come first: in the top
/// table or above it, in rounds of as many tries as there can be.
#[inline(always)]
pub(crate) fn write_rounds<R: Wait>(
    rt: &R,
    chain: &Chain,
    seat: &mut ChainSeat,
    key: Key,
    want: Want,
    change: Change,
) -> Result<Reply, AddFault>
    requires own { IsOwn chain.now seat.old }
    ensures { HasClimbed chain.now.shape (call.Write key want change) seat.old seat.new Unlimited
        (uncontended result) }
{
    let call = Call::Write { key, want, change };
    let top = chain.load_top(seat);
    for _ in rt.forever() {
        let mut left = u32::MAX;
        match climb(
            chain,
            seat,
            &call,
            Rung::at(top),
            &mut left,
            &mut Rest::new(),
        ) {
            Ok(reply) => return Ok(reply),
            Err(PutFault::Contended) => {}
            Err(PutFault::Full) => return Err(AddFault::Full),
            Err(PutFault::ValueRange) => return Err(AddFault::ValueRange),
        }
    }
    unreachable!()
}
