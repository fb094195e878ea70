//! A map without an end that guests share, each in a thread of its own.
ghost use Rattle.std.specs.Arc.{arc_value};
ghost use Rattle.std.specs.Prelude.{All, Err, IfErr, IfOk, OnErr, [], is_ok, true, ◌≡◌, ◌≤◌, ◌↔◌};
ghost use Rattle.nb_core.specs.declared.shapes.TheConstants.{MAX_SEATS};
ghost use Rattle.nb_map.specs.declared.faults.SettleFault.TheVariants as fault;
ghost use Rattle.nb_lasting.specs.Closing.{AreNew};
ghost use Rattle.nb_lasting.specs.Guests.{AreAllGuests, GuestsHaveSettled, HaveCome, HaveEnded};
ghost use Rattle.nb_lasting.specs.Renewal.{IsIdleToken};
ghost use Rattle.nb_lasting.specs.Shared.{first_lane_view};
ghost use Rattle.nb_lasting.specs.inside.Guests.{hall_of};

use crate::closing::close_row;
use crate::guest::{Guest, LOOK_AFTER};
use crate::hall::Hall;
use crate::opening::open_row;
use crate::settling::settle_guests;
use crate::shapes::LEAST_ANEW;
use crate::shared::{Opened, Token, another};
use nb_core::OutOfMemory;
use nb_map::{Ended, Handle, SettleFault};
use std::alloc::Global;
use std::marker::Model;
use std::sync::atomic::AtomicU64;
use std::sync::{Arc, Wait};

/// A map without an end, which guests call. It is made anew, by whichever guest finds it full,
/// while the others call.
#[derive(Drop)]
pub struct SharedLasting {
    pub(crate) hall: Arc<Hall, Global>,
    pub(crate) token: Token,
    /// Room for the handles, so that `close` takes no memory.
    pub(crate) room: Vec<Handle>,
}

impl Model for SharedLasting {
    ghost use Rattle.nb_lasting.specs.Visits.{SharedOf};

    ghost Value = { SharedOf };

    ghost use Rattle.nb_lasting.specs.inside.Guests.{IsShared, shared_of};

    ghost view = { shared_of };

    ghost invariant = { IsShared };
}

/// So many guests, from the first on.
fn invited(
    hall: &Arc<Hall, Global>,
    token: &mut Token,
    guests: usize,
) -> Result<Vec<Guest>, OutOfMemory>
    requires table { token.old.table_id ≡ (arc_value hall.now).table.shared.table_id }
    requires guests { guests ≡ (arc_value hall.now).table.shared.key.seats }
    requires first { token.old.me ≡ (first_lane_view (arc_value hall.now).table.shared.key, []) }
    ensures table { token.new.table_id ≡ token.old.table_id }
    ensures idle { IfOk result (λ _. IsIdleToken token.new.me) }
    ensures of { IfOk result (λ made.
        All (λ guest. guest.of ≡ hall_of (arc_value hall.now)) made.items) }
    ensures come { IfOk result (λ made. AreNew guests (hall_of (arc_value hall.now)) made.items) }
{
    let mut made = Vec::with_capacity(hall.alloc, guests)?;
    for lane in 0..guests {
        let own = another(hall, token);
        made.push_reserved(Guest {
            hall: Arc::try_clone(hall)?,
            token: own,
            lane,
            left: LOOK_AFTER,
        });
    }
    Ok(made)
}

impl SharedLasting {
    /// An empty map, and so many guests. It has slots for so many keys, at first and whenever it is
    /// made anew.
    pub fn open(
        alloc: Global,
        guests: usize,
        keys: usize,
    ) -> Result<(SharedLasting, Vec<Guest>), OutOfMemory>
        requires guests { (1 ≤ guests) × (guests ≤ MAX_SEATS) }
        ensures come { IfOk result (λ made. HaveCome guests made.0 made.1.items) }
        ensures asked { IfOk result (λ made. made.0.keys ≡ keys) }
    {
        let room = Vec::with_capacity(alloc, guests)?;
        let opened = Opened {
            seats: guests,
            keys,
        };
        let (table, mut token) = open_row(alloc, opened)?;
        let hall = Hall {
            table,
            renewals: AtomicU64::new(0),
            least: keys.max(LEAST_ANEW),
            alloc,
        };
        let hall = Arc::new(alloc, hall)?;
        let made = invited(&hall, &mut token, guests)?;
        Ok((SharedLasting { hall, token, room }, made))
    }

    /// With all guests, in their order: how many keys the map has, exactly. Afterwards each guest
    /// knows the one log of all calls, as if the map had been closed, and the map goes on. It takes
    /// memory for some vectors of as many handles as there are guests. Where that is refused, or a
    /// guest is missing, all are as they were. Whether they are this map's is asked for, as `close`
    /// does.
    pub fn settle<R: Wait>(&mut self, rt: &R, guests: &mut [Guest]) -> Result<u64, SettleFault>
        requires of { All (λ guest. guest.of ≡ self.old) guests.old }
        ensures all { (result ≡ Err fault.NotAll) ↔ (AreAllGuests self.old guests.old → ⊥) }
        ensures settled { IfOk result (GuestsHaveSettled guests.old guests.new) }
        ensures of { All (λ guest. guest.of ≡ self.old) guests.new }
        ensures same { self.new ≡ self.old }
        ensures kept { OnErr result (guests.new ≡ guests.old) }
    {
        if !self.are_all(guests) {
            return Err(SettleFault::NotAll);
        }
        match settle_guests(rt, &self.hall, &mut self.token, guests) {
            Ok(size) => Ok(size),
            Err(_) => Err(SettleFault::OutOfMemory),
        }
    }

    /// With all guests, in their order: what is left of the map. It takes no memory. Any others
    /// come back. Whether they are this map's can't be told when it runs, so it is asked for.
    pub fn close<R: Wait>(
        self,
        rt: &R,
        guests: Vec<Guest>,
    ) -> Result<Ended, (SharedLasting, Vec<Guest>)>
        requires of { All (λ guest. guest.of ≡ self) guests.items }
        ensures all { (is_ok result ≡ true) ↔ AreAllGuests self guests.items }
        ensures ended { IfOk result (HaveEnded guests.items) }
        ensures back { IfErr result (λ back. (back.0 ≡ self) × (back.1.items ≡ guests.items)) }
    {
        if !self.are_all(guests.as_slice()) {
            return Err((self, guests));
        }
        let SharedLasting { hall, token, room } = self;
        let mut token = token;
        Ok(close_row(rt, &hall, &mut token, room, guests))
    }

    /// Whether these are all guests, in their order.
    fn are_all(&self, guests: &[Guest]) -> bool
        ensures { (result ≡ true) ↔ AreAllGuests self.now guests.now }
    {
        if guests.len() != self.hall.table.slot_count() {
            return false;
        }
        for i in 0..guests.len() {
            if guests[i].number() != i {
                return false;
            }
        }
        true
    }
}
