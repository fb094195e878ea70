//! The slot for a call's key in one table, claimed where it has none.
ghost use Rattle.std.specs.Prelude.{IfErr, IfOk, [], suc, ◌+◌, ◌<◌, ◌≡◌, ◌≢◌};
ghost use Rattle.nb_core.specs.Calls.{Fills};
ghost use Rattle.nb_core.specs.History.{key_of_call};
ghost use Rattle.nb_core.specs.Plans.{generations_of, limit_of, size_of};
ghost use Rattle.nb_core.specs.Tables.{AreOthers, IsComplete, IsInstalled, IsReady};
ghost use Rattle.nb_core.specs.declared.calls.Call.{Call};
ghost use Rattle.nb_table.specs.Chains.{IsOwn, seen_by};
ghost use Rattle.nb_map.specs.Calling.{HasMade};
ghost use Rattle.nb_map.specs.Steps.{grow_steps, owed_below, search_steps};
ghost use Rattle.nb_map.specs.declared.steps.rung.Below.TheVariants as below_is;
ghost use Rattle.nb_map.specs.inside.Climbing.{IsAt, IsClaimed, IsFound, IsVisitHere, made_by, made_if_not_found};

use crate::faults::PutFault;
use crate::steps::rung::{Below, Rung, Visit};
use crate::steps::search::{PathEnd, probe, seek};
use crate::steps::slot::{Decision, decide};
use nb_copy::complete;
use nb_core::{Call, KeyState};
use nb_table::{Chain, ChainSeat};

/// The key's slot in the table that a call has come to, by a search along the key's path; or what
/// the call comes to there without one. A call that puts a number at an absent key claims one within
/// the limit where its key has none. If its path is closed, the call goes on in the next table. If
/// the table has a next one, or other keys have the path up to the limit, the table is completed
/// first, and the next one installed where it isn't there. If other keys have the whole last table,
/// the call is refused.
#[inline(always)]
pub(crate) fn find(
    chain: &Chain,
    seat: &mut ChainSeat,
    call: &Call,
    rung: Rung,
) -> Result<usize, Visit>
    requires at { IsAt chain.now call.now seat.old rung }
    ensures made { HasMade chain.now.shape call.now seat.old seat.new
        (made_if_not_found call.now result) (search_steps chain.now.shape rung.g) }
    ensures found { IsFound chain.now.shape call.now seat.new rung.g result }
{
    if let Decision::Leave(reply) = decide(call, &None, &None) {
        return seek(chain, seat, call, rung, reply);
    }
    let mut rung = rung;
    loop {
        match probe(chain, seat, call, rung) {
            PathEnd::Slot(i) => return Ok(i),
            PathEnd::Closed => return Err(Visit::Above(Below::Passed)),
            PathEnd::Whole if rung.g + 1 == chain.shape().generations() => {
                return Err(Visit::Refused(PutFault::Full));
            }
            PathEnd::Whole => {
                grow(chain, seat, call, rung);
                return Err(Visit::Above(Below::Complete));
            }
            PathEnd::Empty(distance) => {
                rung.from = distance;
                if let Below::Passed = rung.below {
                    make_ready(chain, seat, rung.g, rung.below);
                    rung.below = Below::Complete;
                }
                match claim_at(chain, seat, call, rung) {
                    Ok(Some(i)) => return Ok(i),
                    Ok(None) => rung.from = distance + 1,
                    Err(visit) => return Err(visit),
                }
            }
        }
    }
}

/// Claims the slot that a call has come to, which was seen empty, for the call's key, if it is
/// within the limit and the table isn't being copied. `None` says that another key has got it.
#[tactic(auto, using(nb_core::proofs::Theorems::linked))]
fn claim_at(
    chain: &Chain,
    seat: &mut ChainSeat,
    call: &Call,
    rung: Rung,
) -> Result<Option<usize>, Visit>
    requires at { IsAt chain.now call.now seat.old rung }
    requires fills { Fills call.now }
    requires known { rung.below ≢ below_is.Passed }
    requires near { rung.from < size_of chain.now.shape rung.g }
    ensures claimed { IfOk result (λ slot. HasMade chain.now.shape call.now seat.old seat.new [] 2
        × IsClaimed chain.now.shape call.now seat.new rung slot) }
    ensures visit { IfErr result (λ visit. HasMade chain.now.shape call.now seat.old seat.new
        (made_by call.now visit) (2 + grow_steps chain.now.shape rung.g rung.below)
        × IsVisitHere chain.now.shape call.now seat.new rung.g visit) }
{
    if rung.from >= chain.shape().limit_of(rung.g) {
        grow(chain, seat, call, rung);
        return Err(Visit::Above(Below::Complete));
    }
    if rung.g + 1 < chain.shape().generations() && chain.load_next(seat, rung.g, None) {
        complete(chain, seat, rung.g);
        return Err(Visit::Above(Below::Complete));
    }
    let key = call.key();
    let i = chain.shape().path_slot(rung.g, key, rung.from);
    match chain.claim_key(seat, rung.g, i, key) {
        KeyState::Empty => Ok(Some(i)),
        KeyState::Dead => Err(Visit::Above(Below::Passed)),
        KeyState::Claimed(other) => { if other == key { Ok(Some(i)) } else { Ok(None) } }
    }
}

/// Installs the table above the one that a call has come to, if it isn't there, and completes this
/// one. Other keys have the call's key's path up to the limit.
fn grow(chain: &Chain, seat: &mut ChainSeat, call: &Call, rung: Rung)
    requires at { IsAt chain.now call.now seat.old rung }
    requires fills { Fills call.now }
    requires room { suc rung.g < generations_of chain.now.shape }
    requires crowded { AreOthers chain.now.shape (seen_by chain.now.shape seat.old) rung.g
        (key_of_call call.now) (limit_of chain.now.shape rung.g) }
    ensures made { HasMade chain.now.shape call.now seat.old seat.new []
        (grow_steps chain.now.shape rung.g rung.below) }
    ensures complete { IsComplete chain.now.shape (seen_by chain.now.shape seat.new) rung.g
        × IsInstalled (seen_by chain.now.shape seat.new) (suc rung.g) }
{
    if !chain.load_next(seat, rung.g, None) {
        make_ready(chain, seat, rung.g, rung.below);
        chain.install(seat, rung.g, call.key());
    }
    complete(chain, seat, rung.g);
}

/// Completes the table below `g`, if there is one that isn't known to be complete.
#[inline(never)]
fn make_ready(chain: &Chain, seat: &mut ChainSeat, g: u32, below: Below)
    requires own { IsOwn chain.now seat.old }
    requires installed { IsInstalled (seen_by chain.now.shape seat.old) g }
    requires below { (below ≡ below_is.Complete)
        → IsReady chain.now.shape (seen_by chain.now.shape seat.old) g }
    ensures made { (call : Call) → HasMade chain.now.shape call seat.old seat.new []
        (owed_below chain.now.shape g below) }
    ensures own { IsOwn chain.now seat.new }
    ensures ready { IsReady chain.now.shape (seen_by chain.now.shape seat.new) g }
{
    if let Below::Complete = below {
        return;
    }
    if g > 0 {
        complete(chain, seat, g - 1);
    }
}
