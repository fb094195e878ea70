//! The search along a key's path in one table.
ghost use Rattle.std.specs.Prelude.{◌+◌, ◌-◌};
ghost use Rattle.nb_map.specs.Calling.{HasMade};
ghost use Rattle.nb_map.specs.Steps.{probe_steps};
ghost use Rattle.nb_map.specs.inside.Climbing.{IsAt, IsForAbsent, IsFound, made_if_not_found};
ghost use Rattle.nb_map.specs.inside.Reading.{EndsAt, read_at};
ghost use Rattle.nb_core.specs.History.{key_of_call};
ghost use Rattle.nb_core.specs.Plans.{size_of};
ghost use Rattle.nb_table.specs.Chains.{seen_by};

use crate::steps::rung::{Below, Rung, Visit};
use nb_core::{Call, KeyState, Reply};
use nb_table::{Chain, ChainSeat};

/// Where a probe of a key's path in a table ends.
#[derive(Clone, Copy)]
pub(crate) enum PathEnd {
    /// At the key's own slot.
    Slot(usize),
    /// At an empty slot, at this distance on the path.
    Empty(usize),
    /// At a closed slot: the key isn't in this table any more, and there is a next one.
    Closed,
    /// At the path's end: other keys have all of it.
    Whole,
}

/// Probes the path of a call's key in the table that the call has come to: one load for each slot.
/// What the probe comes upon may be the call's read.
#[inline]
#[tactic(auto, using(nb_core::proofs::Theorems::linked))]
pub(crate) fn probe(chain: &Chain, seat: &mut ChainSeat, call: &Call, rung: Rung) -> PathEnd
    requires at { IsAt chain.now call.now seat.old rung }
    ensures made { HasMade chain.now.shape call.now seat.old seat.new
        (read_at chain.now.shape rung.g call.now result)
        (probe_steps chain.now.shape rung.g rung.from result) }
    ensures ends { EndsAt chain.now.shape (seen_by chain.now.shape seat.new) rung.g
        (key_of_call call.now) result }
{
    let key = call.key();
    let path = chain.shape().path(rung.g, key);
    for distance in rung.from..path.slots() {
        let at = path.slot(distance);
        let word = chain.load_key_word_at(seat, at, Some(*call));
        if word.is(key) {
            return PathEnd::Slot(at.i);
        }
        match word.state() {
            KeyState::Claimed(_) => {}
            KeyState::Empty => return PathEnd::Empty(distance),
            KeyState::Dead => return PathEnd::Closed,
        }
    }
    PathEnd::Whole
}

/// The key's slot in the table that a call has come to; or what it comes to there without one, if it
/// leaves an absent key alone, with this reply. It claims nothing.
#[inline]
pub(crate) fn seek(
    chain: &Chain,
    seat: &mut ChainSeat,
    call: &Call,
    rung: Rung,
    absent: Reply,
) -> Result<usize, Visit>
    requires at { IsAt chain.now call.now seat.old rung }
    requires absent { IsForAbsent call.now absent }
    ensures made { HasMade chain.now.shape call.now seat.old seat.new
        (made_if_not_found call.now result) (size_of chain.now.shape rung.g - rung.from + 1) }
    ensures found { IsFound chain.now.shape call.now seat.new rung.g result }
{
    match probe(chain, seat, call, rung) {
        PathEnd::Slot(i) => Ok(i),
        PathEnd::Empty(_) => Err(Visit::Told(absent)),
        PathEnd::Closed => Err(Visit::Above(Below::Passed)),
        PathEnd::Whole => {
            if rung.g + 1 == chain.shape().generations() {
                return Err(Visit::Told(absent));
            }
            if chain.load_next(seat, rung.g, Some(*call)) {
                Err(Visit::Above(Below::Passed))
            } else {
                Err(Visit::Told(absent))
            }
        }
    }
}
