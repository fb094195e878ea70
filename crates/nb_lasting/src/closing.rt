//! The end of a map that guests share: all lanes are gathered, and the map is closed.
ghost use Rattle.std.specs.Prelude.{All, [], length, vec_capacity, ◌*◌, ◌<◌, ◌≤◌, ◌≡◌};
ghost use Rattle.nb_lasting.specs.Closing.{AreAllOf, HasGathered, HaveGathered};
ghost use Rattle.nb_lasting.specs.Guests.{HaveEnded};
ghost use Rattle.nb_lasting.specs.Holding.{IsIdleGuest};
ghost use Rattle.nb_lasting.specs.Renewal.{HoldsBelow, IsIdleToken};
ghost use Rattle.nb_lasting.specs.Shared.{FitsLanes};

use crate::gathered::join_handles;
use crate::guest::Guest;
use crate::hall::Hall;
use crate::shared::{Token, become_guest, hold};
use nb_map::{Ended, Handle};
use std::sync::Wait;

/// The token becomes a lane's guest, and takes the lane's handle out of its slot.
pub(crate) fn take_handle_as_guest<R: Wait>(
    rt: &R,
    hall: &Hall,
    token: &mut Token,
    handles: &mut Vec<Handle>,
    guest: Token,
    lane: usize,
)
    requires table { (token.old.table_id ≡ hall.now.table.shared.table_id)
        × (guest.table_id ≡ hall.now.table.shared.table_id) }
    requires lane { lane < hall.now.table.shared.key.seats }
    requires room { length handles.old.items < vec_capacity handles.old }
    requires guest { IsIdleGuest lane guest.me }
    requires holds { HoldsBelow lane token.old.me handles.old.items }
    ensures table { token.new.table_id ≡ token.old.table_id }
    ensures room { vec_capacity handles.new ≡ vec_capacity handles.old }
    ensures seated { FitsLanes hall.now.table.shared.key.seats token.new.me.0 }
    ensures guest { (token.new.me.0.guest ≡ guest.me.0.guest)
        × (token.new.me.0.seen ≡ guest.me.0.seen) }
    ensures gathered { (holds : HoldsBelow lane token.old.me handles.old.items)
        → HasGathered lane guest.me.0.seen holds.knew token.new.me handles.new.items }
{
    become_guest(hall, token, guest);
    hold(rt, hall, token, lane);
    let Some(handle) = hall.table.shared.exchange(token, lane, None) else {
        unreachable!();
    };
    handles.push_reserved(handle);
}

/// Takes the handles of all guests' lanes.
fn take_all_as_guests<R: Wait>(
    rt: &R,
    hall: &Hall,
    token: &mut Token,
    room: Vec<Handle>,
    guests: Vec<Guest>,
) -> Vec<Handle>
    requires table { token.old.table_id ≡ hall.now.table.shared.table_id }
    requires room { (room.items ≡ []) × (hall.now.table.shared.key.seats ≤ vec_capacity room) }
    requires idle { IsIdleToken token.old.me }
    requires all { AreAllOf hall.now.table.shared.table_id hall.now.table.shared.key.seats
        guests.items }
    ensures seated { 1 ≤ length guests.items
        → FitsLanes hall.now.table.shared.key.seats token.new.me.0 }
    ensures gathered { HaveGathered (length guests.items) guests.items token.new.me result.items }
{
    let mut handles = room;
    for guest in guests {
        let lane = handles.len();
        take_handle_as_guest(rt, hall, token, &mut handles, guest.into_token(), lane);
    }
    handles
}

/// Takes all lanes, and closes the map.
pub(crate) fn close_row<R: Wait>(
    rt: &R,
    hall: &Hall,
    token: &mut Token,
    room: Vec<Handle>,
    guests: Vec<Guest>,
) -> Ended
    requires table { token.old.table_id ≡ hall.now.table.shared.table_id }
    requires room { (room.items ≡ []) × (hall.now.table.shared.key.seats ≤ vec_capacity room) }
    requires idle { IsIdleToken token.old.me }
    requires all { AreAllOf hall.now.table.shared.table_id hall.now.table.shared.key.seats
        guests.items }
    ensures { HaveEnded guests.items result }
{
    let handles = take_all_as_guests(rt, hall, token, room, guests);
    let (whole, _) = join_handles(handles);
    match whole.close(rt) {
        Ok(ended) => ended,
        Err(_) => unreachable!(),
    }
}
