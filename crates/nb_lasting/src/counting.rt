//! The map is counted while threads call: who does it takes all lanes' handles as they come home.
ghost use Rattle.std.specs.FinMap as numbers;
ghost use Rattle.std.specs.Prelude.{IfOk, [], length, ◌<◌, ◌≡◌};
ghost use Rattle.nb_core.specs.Log.{IsReplayed, log_of, map_of_log};
ghost use Rattle.nb_lasting.specs.Holding.{HasCalledIn, IsIdleGuest};
ghost use Rattle.nb_lasting.specs.Visits.{AreBackSeen, HasCountedByAll, HasGoneRound};
ghost use Rattle.nb_lasting.specs.inside.Guests.{hall_of};

use crate::gathered::counted;
use crate::hall::Hall;
use crate::renewing::{all_home, take_all_handles};
use crate::shared::Token;
use nb_core::OutOfMemory;
use std::sync::Wait;

/// How many keys the map has, while other threads call: waits for each lane, and gives all back.
/// The token's guest has called nothing by it, and has seen all calls until then.
pub(crate) fn count_through<R: Wait>(
    rt: &R,
    hall: &Hall,
    token: &mut Token,
    lane: usize,
) -> Result<u64, OutOfMemory>
    requires table { token.old.table_id ≡ hall.now.table.shared.table_id }
    requires lane { lane < hall.now.table.shared.key.seats }
    requires idle { IsIdleGuest lane token.old.me }
    requires replayed { IsReplayed (log_of token.old.me.0.seen) }
    ensures table { token.new.table_id ≡ token.old.table_id }
    ensures idle { IsIdleGuest lane token.new.me }
    ensures called { HasCalledIn lane token.old.me.0 token.new.me.0 [] }
    ensures round { HasGoneRound (hall_of hall.now) (AreBackSeen lane) token.old.me.0.account
        token.new.me.0.account }
    ensures counted { IfOk result (HasCountedByAll lane (hall_of hall.now) token.old.me.0.account
        token.new.me.0.account) }
    ensures size { IfOk result (λ size.
        size ≡ length (numbers.entries (map_of_log (log_of token.new.me.0.seen)))) }
{
    let handles = take_all_handles(rt, hall, token)?;
    let (handles, size) = counted(rt, hall.alloc, handles);
    all_home(hall, token, handles, lane);
    size
}
