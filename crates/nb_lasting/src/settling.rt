//! All guests settle, while nobody calls: one token takes all lanes, each in the place of its
//! guest, counts the map, and gives the lanes back so.
ghost use Rattle.std.specs.FinMap as numbers;
ghost use Rattle.std.specs.Prelude.{IfOk, List, OnErr, length, map, vec_capacity, ◌+◌, ◌*◌, ◌<◌, ◌≤◌, ◌≡◌};
ghost use Rattle.nb_core.specs.Log.{Entry, log_of};
ghost use Rattle.nb_lasting.specs.Closing.{AreAllOf, HaveGathered};
ghost use Rattle.nb_lasting.specs.Guests.{GuestsHaveSettled, with_log};
ghost use Rattle.nb_lasting.specs.Renewal.{HoldsBelow, IsIdleToken};
ghost use Rattle.nb_lasting.specs.Settling.{CanSettle, HasLent};
ghost use Rattle.nb_lasting.specs.Shared.{FitsLanes};

use crate::closing::take_handle_as_guest;
use crate::gathered::counted;
use crate::guest::Guest;
use crate::hall::Hall;
use crate::renewing::deal_all;
use crate::shared::{Coming, Token, become_guest, give_back, hand_on};
use nb_core::OutOfMemory;
use nb_map::Handle;
use std::sync::Wait;

impl Guest {
    /// A token takes its lane's handle in its place, to those of the lanes below.
    fn lend<R: Wait>(&mut self, rt: &R, hall: &Hall, token: &mut Token, handles: &mut Vec<Handle>)
        requires table { (self.old.of.id ≡ hall.now.table.shared.table_id)
            × (token.old.table_id ≡ hall.now.table.shared.table_id) }
        requires lane { self.old.number < hall.now.table.shared.key.seats }
        requires room { length handles.old.items < vec_capacity handles.old }
        requires holds { HoldsBelow self.old.number token.old.me handles.old.items }
        ensures same { self.new ≡ self.old }
        ensures table { token.new.table_id ≡ token.old.table_id }
        ensures room { vec_capacity handles.new ≡ vec_capacity handles.old }
        ensures seated { FitsLanes hall.now.table.shared.key.seats token.new.me.0 }
        ensures lent { HasLent self.old token.old.me handles.old.items token.new.me
            handles.new.items }
    {
        let own = hand_on(hall, &mut self.token);
        take_handle_as_guest(rt, hall, token, handles, own, self.lane);
        let own = hand_on(hall, token);
        become_guest(hall, &mut self.token, own);
    }

    /// A token gives its lane's handle back in its place: it has seen what all handles know.
    fn settle(&mut self, hall: &Hall, token: &mut Token, handles: &mut Vec<Handle>)
        requires table { (self.old.of.id ≡ hall.now.table.shared.table_id)
            × (token.old.table_id ≡ hall.now.table.shared.table_id) }
        requires lane { self.old.number < hall.now.table.shared.key.seats }
        requires can { (whole : List Entry)
            × CanSettle whole (self.old.number + 1) token.old.me handles.old.items }
        ensures table { token.new.table_id ≡ token.old.table_id }
        ensures settled { (whole : List Entry)
            → CanSettle whole (self.old.number + 1) token.old.me handles.old.items
            → CanSettle whole self.old.number token.new.me handles.new.items
            × (self.new ≡ with_log whole self.old) }
    {
        let own = hand_on(hall, &mut self.token);
        become_guest(hall, token, own);
        give_last(hall, token, handles, self.lane);
        let own = hand_on(hall, token);
        become_guest(hall, &mut self.token, own);
    }
}

/// Puts the last handle back into its slot, by its guest, who has seen what it knows.
fn give_last(hall: &Hall, token: &mut Token, handles: &mut Vec<Handle>, lane: usize)
    requires table { token.old.table_id ≡ hall.now.table.shared.table_id }
    requires lane { lane < hall.now.table.shared.key.seats }
    requires guest { token.old.me.0.guest ≡ Some lane }
    requires can { (whole : List Entry)
        × CanSettle whole (lane + 1) token.old.me handles.old.items }
    ensures table { token.new.table_id ≡ token.old.table_id }
    ensures guest { token.new.me.0.guest ≡ Some lane }
    ensures settled { (whole : List Entry)
        → CanSettle whole (lane + 1) token.old.me handles.old.items
        → CanSettle whole lane token.new.me handles.new.items
        × (log_of token.new.me.0.seen ≡ whole) }
{
    let Some(handle) = handles.pop() else {
        unreachable!();
    };
    hall.table.shared.exchange(token, lane, Some(handle));
    give_back::<Coming>(hall, token, lane);
}

/// Takes the handles of all guests' lanes.
fn lend_all<R: Wait>(
    rt: &R,
    hall: &Hall,
    token: &mut Token,
    guests: &mut [Guest],
) -> Result<Vec<Handle>, OutOfMemory>
    requires table { token.old.table_id ≡ hall.now.table.shared.table_id }
    requires idle { IsIdleToken token.old.me }
    requires all { AreAllOf hall.now.table.shared.table_id hall.now.table.shared.key.seats
        guests.old }
    ensures table { token.new.table_id ≡ token.old.table_id }
    ensures same { guests.new ≡ guests.old }
    ensures seated { IfOk result (λ handles.
        FitsLanes hall.now.table.shared.key.seats token.new.me.0) }
    ensures gathered { IfOk result (λ handles.
        HaveGathered (length guests.old) guests.old token.new.me handles.items) }
    ensures kept { OnErr result (token.new.me ≡ token.old.me) }
{
    let mut handles = Vec::with_capacity(hall.alloc, guests.len())?;
    for i in 0..guests.len() {
        guests[i].lend(rt, hall, token, &mut handles);
    }
    Ok(handles)
}

/// Puts the handles of all lanes back: each guest has seen what they know.
fn settle_all(hall: &Hall, token: &mut Token, handles: Vec<Handle>, guests: &mut [Guest])
    requires table { token.old.table_id ≡ hall.now.table.shared.table_id }
    requires all { AreAllOf hall.now.table.shared.table_id hall.now.table.shared.key.seats
        guests.old }
    requires can { (whole : List Entry)
        × CanSettle whole (length guests.old) token.old.me handles.items }
    ensures table { token.new.table_id ≡ token.old.table_id }
    ensures idle { IsIdleToken token.new.me }
    ensures settled { (whole : List Entry)
        → CanSettle whole (length guests.old) token.old.me handles.items
        → guests.new ≡ map (with_log whole) guests.old }
{
    let mut handles = handles;
    let count = guests.len();
    for done in 0..count {
        guests[count - 1 - done].settle(hall, token, &mut handles);
    }
}

/// Counts the map with all lanes, which it takes in the guests' places and gives back. Where memory
/// is refused, each guest has seen what it had seen.
pub(crate) fn settle_guests<R: Wait>(
    rt: &R,
    hall: &Hall,
    token: &mut Token,
    guests: &mut [Guest],
) -> Result<u64, OutOfMemory>
    requires table { token.old.table_id ≡ hall.now.table.shared.table_id }
    requires idle { IsIdleToken token.old.me }
    requires all { AreAllOf hall.now.table.shared.table_id hall.now.table.shared.key.seats
        guests.old }
    ensures table { token.new.table_id ≡ token.old.table_id }
    ensures idle { IsIdleToken token.new.me }
    ensures settled { IfOk result (GuestsHaveSettled guests.old guests.new) }
    ensures kept { OnErr result (guests.new ≡ guests.old) }
{
    let handles = lend_all(rt, hall, token, guests)?;
    let (handles, size) = counted(rt, hall.alloc, handles);
    match size {
        Ok(size) => {
            settle_all(hall, token, handles, guests);
            Ok(size)
        }
        Err(_) => {
            deal_all(hall, token, handles);
            Err(OutOfMemory)
        }
    }
}
