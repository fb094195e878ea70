//! Calls through a lane, and looks at the map: a guest takes its handle, calls, and gives it back.
ghost use Rattle.std.specs.Prelude.{[], ◌∷◌, ◌*◌, ◌≡◌, ◌<◌, ◌≤◌, ◌^◌, ◌-◌};
ghost use Rattle.nb_core.specs.Log.{reply_at};
ghost use Rattle.nb_core.specs.declared.calls.Call.TheVariants as call;
ghost use Rattle.nb_map.specs.Fullness.{HasSampled};
ghost use Rattle.nb_map.specs.Progress.{Tries};
ghost use Rattle.nb_map.specs.Promises.{HasGot, HasWritten, replied_or_refused};
ghost use Rattle.nb_lasting.specs.Holding.{HasCalledIn, HasWrittenIn, IsIdleGuest};
ghost use Rattle.nb_lasting.specs.Visits.{HasVisited};

use crate::hall::Hall;
use crate::shared::{Coming, Token, give_back, hold};
use nb_core::{Change, Key, Num, Reply, Want};
use nb_map::{Occupancy, PutFault};
use std::sync::Wait;

/// What the map has at a key.
pub(crate) fn get_through<R: Wait>(
    rt: &R,
    hall: &Hall,
    token: &mut Token,
    lane: usize,
    key: Key,
) -> Option<Num>
    requires table { token.old.table_id ≡ hall.now.table.shared.table_id }
    requires lane { lane < hall.now.table.shared.key.seats }
    requires idle { IsIdleGuest lane token.old.me }
    ensures table { token.new.table_id ≡ token.old.table_id }
    ensures idle { IsIdleGuest lane token.new.me }
    ensures called { HasCalledIn lane token.old.me.0 token.new.me.0
        ((call.Get key, reply_at (call.Get key) result) ∷ []) }
    ensures visited { HasVisited lane (λ there back. HasGot there.map
        key there.seat back.seat result) token.old.me.0.account token.new.me.0.account }
{
    hold(rt, hall, token, lane);
    let Some(handle) = token.slot_mut(&hall.table.shared, lane) else {
        unreachable!();
    };
    let found = handle.get(key);
    give_back::<Coming>(hall, token, lane);
    found
}

/// Changes what the map has at a key, where the condition holds of it, and replies what it had.
pub(crate) fn write_through<R: Wait>(
    rt: &R,
    hall: &Hall,
    token: &mut Token,
    lane: usize,
    key: Key,
    want: &Want,
    change: &Change,
) -> Result<Reply, PutFault>
    requires table { token.old.table_id ≡ hall.now.table.shared.table_id }
    requires lane { lane < hall.now.table.shared.key.seats }
    requires idle { IsIdleGuest lane token.old.me }
    ensures table { token.new.table_id ≡ token.old.table_id }
    ensures idle { IsIdleGuest lane token.new.me }
    ensures called { HasWrittenIn lane token.old.me.0 token.new.me.0
        (call.Write key want.now change.now) result }
    ensures visited { HasVisited lane (λ there back. HasWritten there.map
        (call.Write key want.now change.now) there.seat back.seat (Tries (2 ^ 32 - 1))
        (replied_or_refused result)) token.old.me.0.account token.new.me.0.account }
{
    hold(rt, hall, token, lane);
    let Some(handle) = token.slot_mut(&hall.table.shared, lane) else {
        unreachable!();
    };
    let reply = handle.put_if_match(key, *want, *change, u32::MAX);
    give_back::<Coming>(hall, token, lane);
    reply
}

/// How full the map is.
pub(crate) fn look_through<R: Wait>(
    rt: &R,
    hall: &Hall,
    token: &mut Token,
    lane: usize,
) -> Occupancy
    requires table { token.old.table_id ≡ hall.now.table.shared.table_id }
    requires lane { lane < hall.now.table.shared.key.seats }
    requires idle { IsIdleGuest lane token.old.me }
    ensures table { token.new.table_id ≡ token.old.table_id }
    ensures idle { IsIdleGuest lane token.new.me }
    ensures called { HasCalledIn lane token.old.me.0 token.new.me.0 [] }
    ensures visited { HasVisited lane (λ there back. HasSampled there.map there.seat back.seat
        result) token.old.me.0.account token.new.me.0.account }
{
    hold(rt, hall, token, lane);
    let Some(handle) = token.slot_mut(&hall.table.shared, lane) else {
        unreachable!();
    };
    let found = handle.occupancy();
    give_back::<Coming>(hall, token, lane);
    found
}
