//! Lanes that threads share: what their tokens know, and the steps of the table.
//!
//! An `atomic_table` has a word and a slot for each lane. The slot holds the lane's handle, and the
//! word is 0 while that is at home, 1 while it is out, and 2 where somebody sleeps until it comes
//! home. A guest's token takes its handle by a compare-exchange of 0, calls, and swaps 0 in; where
//! that finds 2, it wakes one sleeper. Who renews takes all lanes in order, makes one whole handle
//! of them, renews it, parts it, and deals the handles; who asks for the size counts in its place.
//! A guest that makes no call holds up nobody. A token is private, and goes back into a guest only
//! when it has no lane: so no lane is lost.
//!
//! The rule (`IsOneLog` in `specs/Shared.antt`): there is one map, with its epoch, and each handle
//! at home is its lane's, of this map. In each lane a log is current: what the handle at home
//! knows, or what it knew when it was taken. What the lane's guest has seen goes on to that by no
//! call of the guest. A renewal that is refused makes reads by the seats: then an epoch of the same
//! map begins, which they have filled, and the one log lacks them. A lane is out exactly where one
//! view has it, once. Each lane has one guest at most. At the end one token takes the place of each
//! guest in turn (`become_guest`), and its lane: so it learns that what each has seen goes on to
//! the one log. Where all guests settle it does the same, and hands each place on (`hand_on`) to
//! the guest's own token.
//!
//! Each token keeps account of the handles that it takes, and of those that its guest gives back
//! (`specs/Visits.antt`): so a get is bound to one handle's get, a look to one handle's look, and a
//! write to one handle's write, unless that is for nothing.
//!
//! What is left: no clause says how long a token waits for a lane.
ghost use Rattle.std.specs.Prelude.{[], Some, ℕ, ◌≡◌, ◌≢◌, ◌*◌, ◌<◌, ◌≤◌, true, false};
ghost use Rattle.nb_lasting.specs.Shared.{HasTaken, FitsLanes, as_guest, dealer_left, guest_alone, guest_left, new_guest};
ghost use Rattle.nb_lasting.specs.Holding.{HasGivenBy, MayGive};

use crate::hall::Hall;
use atomic_table::{Join, Play, Seat, Split, TableRule};
use nb_core::Event;
use nb_map::{Handle, Map};
use std::collections::LinkedList;
use std::sync::Wait;

/// The words of two lanes lie so many words apart, so that no two are in one line of a cache.
pub(crate) const SPACING: usize = 8;

/// The word of a lane whose handle is out.
const OUT: u64 = 1;

/// The same, where somebody sleeps until it comes home.
const AWAITED: u64 = 2;

/// A lane whose handle a token has, and what that knew when it was taken. No value of it is made.
pub struct Out {
    pub lane: usize,
    pub knew: LinkedList<Event>,
}

/// For how many keys the map was opened that a token is of. The handles that it took, each as it was
/// then; its guest's own one each time that the guest gave it back after its calls; and the first
/// one that it gave back each time that it made the map anew, or was refused that. The newest is
/// first. No value of it is made.
pub struct Account {
    pub keys: usize,
    pub taken: LinkedList<Handle>,
    pub returned: LinkedList<Handle>,
    pub begun: LinkedList<Handle>,
}

/// What a token knows. A guest has its lane's number, and what it has seen. One token makes guests,
/// and knows how many there are. Who has handles knows the map that they are of, and what the map
/// went on from. It keeps account of the handles that it took. No value of it is made.
pub struct LaneView {
    pub guest: Option<usize>,
    pub dealer: Option<usize>,
    pub seen: LinkedList<Event>,
    pub map: Map,
    pub filled: LinkedList<Event>,
    pub past: LinkedList<Event>,
    pub outs: LinkedList<Out>,
    pub account: Account,
}

/// For how many guests and keys a map was opened.
#[derive(Clone, Copy)]
pub struct Opened {
    pub seats: usize,
    pub keys: usize,
}

pub(crate) struct Lanes;

impl TableRule<Option<Handle>, LaneView, Opened> for Lanes {
    ghost use Rattle.nb_lasting.specs.Shared.{IsOneLog, first_lane_view};

    ghost holds = { IsOneLog };

    ghost first = { first_lane_view };
}

/// A handle is taken out of its lane.
pub(crate) struct Leaving;

impl Play<Option<Handle>, LaneView> for Leaving {
    ghost use Rattle.nb_lasting.specs.Shared.{Takes};

    ghost then = { Takes };
}

/// A lane's word is marked by who waits for it.
pub(crate) struct Marking;

impl Play<Option<Handle>, LaneView> for Marking {
    ghost use Rattle.nb_lasting.specs.Shared.{Marks};

    ghost then = { Marks };
}

/// A guest gives its handle back.
pub(crate) struct Coming;

impl Play<Option<Handle>, LaneView> for Coming {
    ghost use Rattle.nb_lasting.specs.Shared.{Gives};

    ghost then = { Gives };
}

/// A handle is given back of the map that there was, or of the new one once the first one is back.
pub(crate) struct Dealing;

impl Play<Option<Handle>, LaneView> for Dealing {
    ghost use Rattle.nb_lasting.specs.Shared.{Deals};

    ghost then = { Deals };
}

/// The first handle of a new map is given back.
pub(crate) struct Anew;

impl Play<Option<Handle>, LaneView> for Anew {
    ghost use Rattle.nb_lasting.specs.Shared.{Renews};

    ghost then = { Renews };
}

/// A token makes a guest.
pub(crate) struct Fork;

impl Split<LaneView> for Fork {
    ghost use Rattle.nb_lasting.specs.Shared.{dealer_left, new_guest};

    ghost left = { dealer_left };

    ghost right = { new_guest };
}

/// A token hands its guest's place on.
pub(crate) struct HandOn;

impl Split<LaneView> for HandOn {
    ghost use Rattle.nb_lasting.specs.Shared.{guest_alone, guest_left};

    ghost left = { guest_left };

    ghost right = { guest_alone };
}

/// A token takes the place of another, which makes no call.
pub(crate) struct Merge;

impl Join<LaneView> for Merge {
    ghost use Rattle.nb_lasting.specs.Shared.{as_guest, nobody};

    ghost both = { as_guest };

    ghost spent = { nobody };
}

pub(crate) type Token = Seat<Option<Handle>, LaneView>;

/// Takes a lane's handle, if it is at home, and leaves this in its word.
pub(crate) fn take(hall: &Hall, token: &mut Token, lane: usize, out: u64) -> bool
    requires out { out ≢ 0 }
    requires table { token.old.table_id ≡ hall.now.table.shared.table_id }
    requires lane { lane < hall.now.table.shared.key.seats }
    ensures table { token.new.table_id ≡ token.old.table_id }
    ensures taken { result ≡ true → HasTaken lane token.old.me token.new.me }
    ensures seated { result ≡ true → FitsLanes hall.now.table.shared.key.seats token.new.me.0 }
    ensures kept { result ≡ false → token.new.me ≡ token.old.me }
{
    hall.table
        .shared
        .compare_exchange::<Leaving>(token, SPACING * lane, 0, out)
        == 0
}

/// Marks a lane that is out, so that who gives it back wakes a sleeper.
fn mark(hall: &Hall, token: &mut Token, lane: usize)
    requires table { token.old.table_id ≡ hall.now.table.shared.table_id }
    requires lane { lane < hall.now.table.shared.key.seats }
    ensures table { token.new.table_id ≡ token.old.table_id }
    ensures same { token.new.me ≡ token.old.me }
{
    hall.table
        .shared
        .compare_exchange::<Marking>(token, SPACING * lane, OUT, AWAITED);
}

/// Takes a lane's handle, and sleeps while it is out.
pub(crate) fn hold<R: Wait>(rt: &R, hall: &Hall, token: &mut Token, lane: usize)
    requires table { token.old.table_id ≡ hall.now.table.shared.table_id }
    requires lane { lane < hall.now.table.shared.key.seats }
    ensures table { token.new.table_id ≡ token.old.table_id }
    ensures taken { HasTaken lane token.old.me token.new.me }
    ensures seated { FitsLanes hall.now.table.shared.key.seats token.new.me.0 }
{
    if take(hall, token, lane, OUT) {
        return;
    }
    for _ in rt.forever() {
        // It may not be the only one that waits.
        if take(hall, token, lane, AWAITED) {
            return;
        }
        mark(hall, token, lane);
        hall.table.shared.park(rt, SPACING * lane, AWAITED as u32);
    }
    unreachable!()
}

/// Gives a lane's handle back, as the play says, and wakes one that sleeps until it comes home.
pub(crate) fn give_back<P: Play<Option<Handle>, LaneView>>(
    hall: &Hall,
    token: &mut Token,
    lane: usize,
)
    requires table { token.old.table_id ≡ hall.now.table.shared.table_id }
    requires lane { lane < hall.now.table.shared.key.seats }
    requires may { MayGive P.then hall.now.table.shared.key hall.now.table.shared.table_id.slots lane
        token.old.id token.old.me }
    ensures table { token.new.table_id ≡ token.old.table_id }
    ensures given { HasGivenBy P.then hall.now.table.shared.table_id.slots lane token.old.me
        token.new.me }
{
    if hall.table.shared.swap::<P>(token, SPACING * lane, 0) == AWAITED {
        hall.table.shared.wake_one(SPACING * lane);
    }
}

/// A token for another guest, which has the next lane.
pub(crate) fn another(hall: &Hall, token: &mut Token) -> Token
    requires table { token.old.table_id ≡ hall.now.table.shared.table_id }
    requires room { (d : ℕ) × (token.old.me.0.dealer ≡ Some d)
        × (d < hall.now.table.shared.key.seats) }
    ensures table { (token.new.table_id ≡ token.old.table_id)
        × (result.table_id ≡ hall.now.table.shared.table_id) }
    ensures left { token.new.me ≡ (dealer_left token.old.me.0, token.old.me.1) }
    ensures guest { result.me ≡ (new_guest token.old.me.0, []) }
{
    hall.table.shared.split_seat::<Fork>(token)
}

/// A token that is the guest that this one was, which is no guest any more.
pub(crate) fn hand_on(hall: &Hall, token: &mut Token) -> Token
    requires table { token.old.table_id ≡ hall.now.table.shared.table_id }
    ensures table { (token.new.table_id ≡ token.old.table_id)
        × (result.table_id ≡ hall.now.table.shared.table_id) }
    ensures left { token.new.me ≡ (guest_left token.old.me.0, token.old.me.1) }
    ensures guest { result.me ≡ (guest_alone token.old.me.0, []) }
{
    hall.table.shared.split_seat::<HandOn>(token)
}

/// A token becomes the guest that another was, which makes no call.
pub(crate) fn become_guest(hall: &Hall, token: &mut Token, other: Token)
    requires table { (token.old.table_id ≡ hall.now.table.shared.table_id)
        × (other.table_id ≡ hall.now.table.shared.table_id) }
    requires idle { (other.me.0.outs ≡ []) × (other.me.1 ≡ []) }
    ensures table { token.new.table_id ≡ token.old.table_id }
    ensures guest { token.new.me ≡ (as_guest token.old.me.0 other.me.0, token.old.me.1) }
{
    hall.table.shared.join_seat::<Merge>(token, other);
}
