//! The map is made anew while threads call: who does it takes all lanes' handles as they come home.
ghost use Rattle.std.specs.Prelude.{Err, IfOk, List, OnErr, OnOk, Some, [], ◌+◌, ◌*◌, ◌<◌, ◌≤◌, ◌≡◌, ◌↔◌, length, true, vec_capacity};
ghost use Rattle.nb_core.specs.Log.{Entry, IsReplayed, log_of, map_of_log};
ghost use Rattle.nb_core.specs.declared.calls.Call.TheVariants as call;
ghost use Rattle.nb_map.specs.declared.faults.PutFault.TheVariants as put_fault;
ghost use Rattle.nb_map.specs.Handles.{HandleOf, IsWhole, seats_of};
ghost use Rattle.nb_map.specs.Renewing.{HasTooMany};
ghost use Rattle.nb_lasting.specs.Gathered.{parts_of};
ghost use Rattle.nb_lasting.specs.Holding.{HasCalledIn, HasTriedOnAs, HasTriedIn, IsIdleGuest, tried_of};
ghost use Rattle.nb_lasting.specs.Lasting.{HasSlots, IsNewKey};
ghost use Rattle.nb_lasting.specs.Renewal.{AreAllHome, AreHomeStill, CanComeHome, CanDealAnew, CanDealBelow, HasBegunAs, HasBegunBy, HasBegunIn, HasComeHome, HasRoomAnew, HasTakenOne, HoldsBelow, KnowOneLog, HoldsStill, IsFullAt, IsIdleToken, IsSameGuest};
ghost use Rattle.nb_lasting.specs.Shared.{FitsLanes};
ghost use Rattle.nb_lasting.specs.Visits.{AreBack, HasGoneRound, HasMadeMapAnew, took_all};
ghost use Rattle.nb_lasting.specs.declared.faults.GrowFault.TheVariants as fault;
ghost use Rattle.nb_lasting.specs.inside.Guests.{hall_of};

use crate::faults::{GrowFault, WriteFault};
use crate::gathered::{join_counted, renew_or_settle, split_handle, write_by};
use crate::hall::Hall;
use crate::shapes::{GREATEST, shape_for};
use crate::shared::{Anew, Coming, Dealing, Token, give_back, hold};
use nb_core::{Change, Key, OutOfMemory, Reply, Shape, Want};
use nb_map::{Handle, PutFault, SettlingRoom};
use std::sync::Wait;
use std::sync::atomic::Ordering;

/// Takes a lane's handle out of its slot, to those of the lanes below.
fn take_handle<R: Wait>(
    rt: &R,
    hall: &Hall,
    token: &mut Token,
    handles: &mut Vec<Handle>,
    lane: usize,
)
    requires table { token.old.table_id ≡ hall.now.table.shared.table_id }
    requires lane { lane < hall.now.table.shared.key.seats }
    requires room { length handles.old.items < vec_capacity handles.old }
    requires holds { HoldsBelow lane token.old.me handles.old.items }
    ensures table { token.new.table_id ≡ token.old.table_id }
    ensures guest { IsSameGuest token.old.me.0 token.new.me.0 }
    ensures room { vec_capacity handles.new ≡ vec_capacity handles.old }
    ensures taken { HasTakenOne token.old.me.0.account token.new.me.0.account handles.old.items
        handles.new.items }
    ensures seated { FitsLanes hall.now.table.shared.key.seats token.new.me.0 }
    ensures holds { HoldsBelow (lane + 1) token.new.me handles.new.items }
{
    hold(rt, hall, token, lane);
    let Some(handle) = hall.table.shared.exchange(token, lane, None) else {
        unreachable!();
    };
    handles.push_reserved(handle);
}

/// Puts the last handle back into its slot.
fn deal(hall: &Hall, token: &mut Token, handles: &mut Vec<Handle>, lane: usize)
    requires table { token.old.table_id ≡ hall.now.table.shared.table_id }
    requires lane { lane < hall.now.table.shared.key.seats }
    requires holds { CanDealBelow (lane + 1) token.old.me handles.old.items }
    ensures table { token.new.table_id ≡ token.old.table_id }
    ensures guest { IsSameGuest token.old.me.0 token.new.me.0 }
    ensures account { token.new.me.0.account ≡ token.old.me.0.account }
    ensures map { token.new.me.0.map ≡ token.old.me.0.map }
    ensures holds { CanDealBelow lane token.new.me handles.new.items }
{
    let Some(handle) = handles.pop() else {
        unreachable!();
    };
    hall.table.shared.exchange(token, lane, Some(handle));
    give_back::<Dealing>(hall, token, lane);
}

/// The same of the last lane of all, where the handles begin an epoch.
fn deal_anew(hall: &Hall, token: &mut Token, handles: &mut Vec<Handle>, lane: usize)
    requires table { token.old.table_id ≡ hall.now.table.shared.table_id }
    requires lane { lane + 1 ≡ hall.now.table.shared.key.seats }
    requires holds { CanDealAnew hall.now.table.shared.key.keys (lane + 1) token.old.me
        handles.old.items }
    ensures table { token.new.table_id ≡ token.old.table_id }
    ensures guest { IsSameGuest token.old.me.0 token.new.me.0 }
    ensures begun { HasBegunBy handles.old.items token.old.me.0.account token.new.me.0.account }
    ensures map { (can : CanDealAnew hall.now.table.shared.key.keys (lane + 1) token.old.me
        handles.old.items) → token.new.me.0.map ≡ can.anew.shared }
    ensures holds { CanDealBelow lane token.new.me handles.new.items }
{
    let Some(handle) = handles.pop() else {
        unreachable!();
    };
    hall.table.shared.exchange(token, lane, Some(handle));
    give_back::<Anew>(hall, token, lane);
}

/// Takes the handles of all lanes.
pub(crate) fn take_all_handles<R: Wait>(
    rt: &R,
    hall: &Hall,
    token: &mut Token,
) -> Result<Vec<Handle>, OutOfMemory>
    requires table { token.old.table_id ≡ hall.now.table.shared.table_id }
    requires idle { IsIdleToken token.old.me }
    ensures table { token.new.table_id ≡ token.old.table_id }
    ensures guest { IsSameGuest token.old.me.0 token.new.me.0 }
    ensures taken { IfOk result (λ handles.
        token.new.me.0.account ≡ took_all handles.items token.old.me.0.account) }
    ensures seated { IfOk result (λ handles.
        FitsLanes hall.now.table.shared.key.seats token.new.me.0) }
    ensures holds { IfOk result (λ handles.
        HoldsBelow hall.now.table.shared.key.seats token.new.me handles.items) }
    ensures kept { OnErr result (token.new.me ≡ token.old.me) }
{
    let seats = hall.table.slot_count();
    let mut handles = Vec::with_capacity(hall.alloc, seats)?;
    for lane in 0..seats {
        take_handle(rt, hall, token, &mut handles, lane);
    }
    Ok(handles)
}

/// Puts the handles of all lanes back.
pub(crate) fn deal_all(hall: &Hall, token: &mut Token, handles: Vec<Handle>)
    requires table { token.old.table_id ≡ hall.now.table.shared.table_id }
    requires lanes { length handles.items ≤ hall.now.table.shared.key.seats }
    requires holds { CanDealBelow (length handles.items) token.old.me handles.items }
    ensures table { token.new.table_id ≡ token.old.table_id }
    ensures guest { IsSameGuest token.old.me.0 token.new.me.0 }
    ensures account { token.new.me.0.account ≡ token.old.me.0.account }
    ensures map { token.new.me.0.map ≡ token.old.me.0.map }
    ensures idle { IsIdleToken token.new.me }
{
    let mut handles = handles;
    let count = handles.len();
    for done in 0..count {
        deal(hall, token, &mut handles, count - 1 - done);
    }
}

/// Puts the last handle back into its slot. By the guest's own one, that has seen what it knows.
fn come_home(hall: &Hall, token: &mut Token, handles: &mut Vec<Handle>, lane: usize, own: usize)
    requires table { token.old.table_id ≡ hall.now.table.shared.table_id }
    requires lane { lane < hall.now.table.shared.key.seats }
    requires holds { (whole : List Entry)
        × CanComeHome own whole (lane + 1) token.old.me handles.old.items }
    ensures table { token.new.table_id ≡ token.old.table_id }
    ensures home { HasComeHome lane own token.old.me.0.account token.new.me.0.account
        handles.old.items handles.new.items }
    ensures holds { (whole : List Entry)
        → CanComeHome own whole (lane + 1) token.old.me handles.old.items
        → CanComeHome own whole lane token.new.me handles.new.items }
{
    let Some(handle) = handles.pop() else {
        unreachable!();
    };
    hall.table.shared.exchange(token, lane, Some(handle));
    if lane == own {
        give_back::<Coming>(hall, token, lane);
    } else {
        give_back::<Dealing>(hall, token, lane);
    }
}

/// Puts the handles of all lanes back. By its own one, the guest has seen what that knows.
pub(crate) fn all_home(hall: &Hall, token: &mut Token, handles: Vec<Handle>, own: usize)
    requires table { token.old.table_id ≡ hall.now.table.shared.table_id }
    requires lanes { length handles.items ≤ hall.now.table.shared.key.seats }
    requires own { own < length handles.items }
    requires holds { (whole : List Entry)
        × CanComeHome own whole (length handles.items) token.old.me handles.items }
    ensures table { token.new.table_id ≡ token.old.table_id }
    ensures idle { IsIdleGuest own token.new.me }
    ensures home { AreAllHome own handles.items token.old.me.0.account token.new.me.0.account }
    ensures seen { (whole : List Entry)
        → CanComeHome own whole (length handles.items) token.old.me handles.items
        → log_of token.new.me.0.seen ≡ whole }
{
    let mut handles = handles;
    let count = handles.len();
    for done in 0..count {
        come_home(hall, token, &mut handles, count - 1 - done, own);
    }
}

/// Puts the handles of all lanes back, which begin an epoch.
fn deal_renewed(hall: &Hall, token: &mut Token, handles: Vec<Handle>)
    requires table { token.old.table_id ≡ hall.now.table.shared.table_id }
    requires lanes { length handles.items ≡ hall.now.table.shared.key.seats }
    requires anew { CanDealAnew hall.now.table.shared.key.keys (length handles.items)
        token.old.me handles.items }
    ensures table { token.new.table_id ≡ token.old.table_id }
    ensures guest { IsSameGuest token.old.me.0 token.new.me.0 }
    ensures begun { HasBegunBy handles.items token.old.me.0.account token.new.me.0.account }
    ensures map { (can : CanDealAnew hall.now.table.shared.key.keys (length handles.items)
        token.old.me handles.items) → token.new.me.0.map ≡ can.anew.shared }
    ensures idle { IsIdleToken token.new.me }
{
    let mut handles = handles;
    let lane = handles.len() - 1;
    deal_anew(hall, token, &mut handles, lane);
    deal_all(hall, token, handles);
}

/// Makes the map anew with all handles, and puts them back. Where that is refused, an epoch of the
/// same map begins: so what was read for it is nobody's call.
fn renew_all<R: Wait>(
    rt: &R,
    hall: &Hall,
    token: &mut Token,
    whole: Handle,
    room: Vec<Handle>,
    settling: SettlingRoom,
    shape: Shape,
) -> Result<(), OutOfMemory>
    requires table { token.old.table_id ≡ hall.now.table.shared.table_id }
    requires settling { shape.seats ≤ settling }
    requires shape { shape.seats ≡ hall.now.table.shared.key.seats }
    requires slots { HasSlots hall.now.table.shared.key.keys shape }
    requires seated { FitsLanes shape.seats token.old.me.0 }
    requires whole { IsWhole whole }
    requires holds { HoldsStill shape.seats token.old.me (parts_of whole) }
    requires settled { KnowOneLog (parts_of whole) }
    requires fits { HasTooMany shape whole → ⊥ }
    requires empty { room.items ≡ [] }
    requires room { length (seats_of whole) ≤ vec_capacity room }
    ensures table { token.new.table_id ≡ token.old.table_id }
    ensures guest { IsSameGuest token.old.me.0 token.new.me.0 }
    ensures again { OnErr result (HasBegunIn token.old.me.0.map token.old.me.0.account
        token.new.me.0.account) }
    ensures begun { OnOk result (HasBegunAs shape (parts_of whole) token.old.me.0.account
        token.new.me.0.account) }
    ensures idle { IsIdleToken token.new.me }
    ensures anew { OnOk result (token.new.me.0.map.chain.shape ≡ shape) }
{
    let mut whole = whole;
    let renewed = renew_or_settle(hall.alloc, &mut whole, settling, shape);
    hall.renewals
        .fetch_add(u64::from(renewed.is_ok()), Ordering::SeqCst);
    deal_renewed(hall, token, split_handle(rt, whole, room));
    renewed
}

/// Makes the map anew with all handles, with room for twice the keys that it has, and for the
/// fewest that the hall says, and puts them back. Where it has as many keys as the greatest table
/// has slots, the guest has seen all calls instead.
pub(crate) fn renew_counted<R: Wait>(
    rt: &R,
    hall: &Hall,
    token: &mut Token,
    handles: Vec<Handle>,
    settling: SettlingRoom,
    own: usize,
) -> Result<(), GrowFault>
    requires table { token.old.table_id ≡ hall.now.table.shared.table_id }
    requires own { own < hall.now.table.shared.key.seats }
    requires settling { hall.now.table.shared.key.seats ≤ settling }
    requires guest { token.old.me.0.guest ≡ Some own }
    requires replayed { IsReplayed (log_of token.old.me.0.seen) }
    requires seated { FitsLanes hall.now.table.shared.key.seats token.old.me.0 }
    requires holds { HoldsStill hall.now.table.shared.key.seats token.old.me handles.items }
    ensures table { token.new.table_id ≡ token.old.table_id }
    ensures idle { IsIdleGuest own token.new.me }
    ensures called { HasCalledIn own token.old.me.0 token.new.me.0 [] }
    ensures anew { OnOk result (HasRoomAnew hall.now.least own token.old.me.0 token.new.me.0) }
    ensures made { OnOk result (HasMadeMapAnew (hall_of hall.now) token.old.me.0.account
        token.new.me.0.account) }
    ensures still { OnErr result (AreHomeStill own token.old.me.0.map token.old.me.0.account
        token.new.me.0.account) }
    ensures kept { result ≡ Err fault.OutOfMemory → token.new.me.0.seen ≡ token.old.me.0.seen }
    ensures full { result ≡ Err fault.Full
        → IsFullAt own handles.items (map_of_log (log_of token.new.me.0.seen)) }
{
    let (whole, room, size) = join_counted(hall.alloc, handles);
    let Ok(size) = size else {
        deal_all(hall, token, split_handle(rt, whole, room));
        return Err(GrowFault::OutOfMemory);
    };
    if size >= GREATEST {
        all_home(hall, token, split_handle(rt, whole, room), own);
        return Err(GrowFault::Full);
    }
    let keys = (size as usize).saturating_mul(2).max(hall.least);
    let shape = shape_for(keys, hall.table.slot_count());
    match renew_all(rt, hall, token, whole, room, settling, shape) {
        Ok(()) => Ok(()),
        Err(_) => Err(GrowFault::OutOfMemory),
    }
}

/// Makes the map anew while other threads call, if there were no more renewals than these: waits
/// for each lane, and gives all back. The token's guest has called nothing by it.
pub(crate) fn renew_through<R: Wait>(
    rt: &R,
    hall: &Hall,
    token: &mut Token,
    own: usize,
    renewals: u64,
) -> Result<(), GrowFault>
    requires table { token.old.table_id ≡ hall.now.table.shared.table_id }
    requires own { own < hall.now.table.shared.key.seats }
    requires idle { IsIdleGuest own token.old.me }
    requires replayed { IsReplayed (log_of token.old.me.0.seen) }
    ensures table { token.new.table_id ≡ token.old.table_id }
    ensures idle { IsIdleGuest own token.new.me }
    ensures round { HasGoneRound (hall_of hall.now) (AreBack (hall_of hall.now) own)
        token.old.me.0.account token.new.me.0.account }
    ensures called { HasCalledIn own token.old.me.0 token.new.me.0 [] }
{
    let settling = SettlingRoom::for_seats(hall.alloc, hall.table.slot_count())?;
    let handles = take_all_handles(rt, hall, token)?;
    if hall.renewals.load(Ordering::SeqCst) != renewals {
        deal_all(hall, token, handles);
        return Ok(());
    }
    renew_counted(rt, hall, token, handles, settling, own)
}

/// Makes a write that found the map full, by the guest's own handle while all others are held; or
/// else makes the map anew.
pub(crate) fn write_or_renew<R: Wait>(
    rt: &R,
    hall: &Hall,
    token: &mut Token,
    own: usize,
    key: Key,
    want: &Want,
    change: &Change,
) -> Result<Option<Reply>, WriteFault>
    requires table { token.old.table_id ≡ hall.now.table.shared.table_id }
    requires own { own < hall.now.table.shared.key.seats }
    requires idle { IsIdleGuest own token.old.me }
    requires replayed { IsReplayed (log_of token.old.me.0.seen) }
    requires new_key { IsNewKey (call.Write key want.now change.now)
        (map_of_log (log_of token.old.me.0.seen)) }
    ensures table { token.new.table_id ≡ token.old.table_id }
    ensures idle { IsIdleGuest own token.new.me }
    ensures on { HasTriedOnAs (call.Write key want.now change.now) own
        (hall_of hall.now) token.old.me.0.account token.new.me.0.account result }
    ensures tried { HasTriedIn own token.old.me.0 token.new.me.0
        (call.Write key want.now change.now) result }
{
    let settling = SettlingRoom::for_seats(hall.alloc, hall.table.slot_count())?;
    let mut handles = take_all_handles(rt, hall, token)?;
    let reply = write_by(&mut handles, own, key, want, change);
    if found_full(&reply) {
        renew_counted(rt, hall, token, handles, settling, own)?;
        return Ok(None);
    }
    all_home(hall, token, handles, own);
    tried(reply)
}

/// Whether the write found no room.
fn found_full(reply: &Result<Reply, PutFault>) -> bool
    ensures { (result ≡ true) ↔ (reply.now ≡ Err put_fault.Full) }
{
    matches!(reply, Err(PutFault::Full))
}

/// What a write comes to that needs no new map.
fn tried(reply: Result<Reply, PutFault>) -> Result<Option<Reply>, WriteFault>
    ensures { result ≡ tried_of reply }
{
    match reply {
        Ok(reply) => Ok(Some(reply)),
        Err(PutFault::Full | PutFault::Contended) => Ok(None),
        Err(PutFault::ValueRange) => Err(WriteFault::ValueRange),
    }
}
