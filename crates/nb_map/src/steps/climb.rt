//! A call on its way up the tables, from the one in which it begins.
ghost use Rattle.std.specs.Prelude.{IfErr, IfOk, ◌+◌, ◌-◌, ◌≤◌};
ghost use Rattle.nb_map.specs.Calling.{HasMade};
ghost use Rattle.nb_map.specs.Logs.{made_in};
ghost use Rattle.nb_map.specs.Steps.{climb_steps, rung_steps};
ghost use Rattle.nb_map.specs.inside.Climbing.{IsAt, IsRefused, IsReplied, IsSpent, IsVisit, made_by};

use crate::faults::PutFault;
use crate::steps::claim::find;
use crate::steps::pause::Pause;
use crate::steps::rung::{Rung, Visit};
use crate::steps::slot::call_at;
use nb_core::{Call, Reply, Slot};
use nb_table::{Chain, ChainSeat};

/// Makes a call, from a rung on: in the table that it has come to, or else in the next one, and so
/// on. This is the general way of reads and writes alike. It takes from the tries that are left
/// what it loses.
#[inline(always)]
pub(crate) fn climb<P: Pause>(
    chain: &Chain,
    seat: &mut ChainSeat,
    call: &Call,
    first: Rung,
    tries: &mut u32,
    pause: &mut P,
) -> Result<Reply, PutFault>
    requires at { IsAt chain.now call.now seat.old first }
    requires some { 1 ≤ tries.old }
    requires serves { P.serves pause.old chain.now }
    ensures made { HasMade chain.now.shape call.now seat.old seat.new (made_in call.now result)
        (climb_steps chain.now.shape + (tries.old - tries.new)) }
    ensures replied { IfOk result (IsReplied call.now) }
    ensures refused { IfErr result (IsRefused chain.now.shape call.now seat.old seat.new
        tries.old) }
    ensures spent { IsSpent call.now seat.old seat.new tries.old tries.new }
    ensures serves { P.serves pause.new chain.now }
{
    let mut rung = first;
    loop {
        match visit(chain, seat, call, rung, tries, pause) {
            Visit::Told(reply) => return Ok(reply),
            Visit::Refused(fault) => return Err(fault),
            Visit::Above(below) => {
                rung = Rung {
                    g: rung.g + 1,
                    from: 0,
                    below,
                }
            }
        }
    }
}

/// Makes a call in the table that it has come to, or finds that it goes on in the next one.
#[inline(always)]
fn visit<P: Pause>(
    chain: &Chain,
    seat: &mut ChainSeat,
    call: &Call,
    rung: Rung,
    tries: &mut u32,
    pause: &mut P,
) -> Visit
    requires at { IsAt chain.now call.now seat.old rung }
    requires some { 1 ≤ tries.old }
    requires serves { P.serves pause.old chain.now }
    ensures made { HasMade chain.now.shape call.now seat.old seat.new (made_by call.now result)
        (rung_steps chain.now.shape rung.g + (tries.old - tries.new)) }
    ensures visit { IsVisit chain.now.shape call.now seat.old seat.new rung.g tries.old tries.new
        result }
    ensures spent { IsSpent call.now seat.old seat.new tries.old tries.new }
    ensures serves { P.serves pause.new chain.now }
{
    match find(chain, seat, call, rung) {
        Ok(i) => {
            let value = chain.shape().value_place(rung.g, i);
            let slot = Slot {
                g: rung.g,
                i,
                value,
            };
            call_at(chain, seat, call, slot, tries, pause)
        }
        Err(visit) => visit,
    }
}
