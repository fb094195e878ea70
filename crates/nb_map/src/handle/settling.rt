//! All seats of a map learn of all calls, and work on.
ghost use Rattle.std.specs.Prelude.{Err, IfErr, IfOk, is_ok, length, true, ◌↔◌, ◌≡◌, ◌≤◌};
ghost use Rattle.nb_map.specs.Handles.{IsSameMap, IsWhole, seats_of};
ghost use Rattle.nb_map.specs.Settling.{HaveSettled};
ghost use Rattle.nb_map.specs.declared.faults.SettleFault.TheVariants as fault;

use crate::faults::{SeatMissing, SettleFault};
use crate::handle::Handle;
use crate::handle::reserve::Reserve;
use crate::map::SettlingRoom;
use core::mem;
use std::alloc::Global;

impl Handle {
    /// With all seats: how many keys the map has, exactly. Afterwards the log of each seat is one
    /// and the same log of all calls that were made, as if the map had been closed; and the handle
    /// works on. It takes memory for three vectors of seats. Where that is refused, or a seat is
    /// missing, the handle is as it was.
    pub fn settle(&mut self, alloc: Global) -> Result<u64, SettleFault>
        ensures all { (result ≡ Err fault.NotAll) ↔ (IsWhole self.old → ⊥) }
        ensures settled { IfOk result (HaveSettled self.old.map (seats_of self.old)
            (seats_of self.new)) }
        ensures map { IsSameMap self.old self.new }
        ensures back { IfErr result (λ _. self.new ≡ self.old) }
    {
        if !self.is_whole() {
            return Err(SettleFault::NotAll);
        }
        let room = SettlingRoom::for_seats(alloc, self.seats())?;
        let Ok(size) = self.settle_in(room) else {
            unreachable!();
        };
        Ok(size)
    }

    /// The same in room that was reserved before. It takes no memory, so it is refused only where a
    /// seat is missing.
    pub fn settle_in(&mut self, room: SettlingRoom) -> Result<u64, SeatMissing>
        requires room { length (seats_of self.old) ≤ room }
        ensures all { (is_ok result ≡ true) ↔ IsWhole self.old }
        ensures settled { IfOk result (HaveSettled self.old.map (seats_of self.old)
            (seats_of self.new)) }
        ensures map { IsSameMap self.old self.new }
        ensures back { IfErr result (λ _. self.new ≡ self.old) }
    {
        if self.is_whole() {
            Ok(mem::replace_with(self, room, Handle::settled))
        } else {
            Err(SeatMissing)
        }
    }

    /// The same, of a whole handle that nobody else has meanwhile.
    fn settled(self, room: SettlingRoom) -> (Handle, u64)
        requires whole { IsWhole self }
        requires room { length (seats_of self) ≤ room }
        ensures settled { HaveSettled self.map (seats_of self) (seats_of result.0) result.1 }
        ensures map { IsSameMap self result.0 }
    {
        let SettlingRoom {
            gathered,
            chain_room,
            count_room,
            ..
        } = room;
        let Handle {
            shared,
            seat,
            reserve,
        } = self;
        let (mut seats, nodes) = reserve.gathered(seat, gathered);
        let size = shared.map.settle_in(&mut seats, chain_room, count_room);
        let (seat, reserve) = Reserve::spread(seats, nodes);
        let handle = Handle {
            shared,
            seat,
            reserve,
        };
        (handle, size)
    }
}
