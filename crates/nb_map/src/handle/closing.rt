//! The end of a map, by the handle that has all its seats.
ghost use Rattle.std.specs.Prelude.{IfErr, IfOk, is_ok, true, ◌↔◌, ◌≡◌};
ghost use Rattle.nb_map.specs.Ending.{EndedWith, HasTablesLeft};
ghost use Rattle.nb_map.specs.Handles.{IsWhole, seats_of};

use crate::handle::{Handle, Shared};
use crate::map::Ended;
use std::sync::{Arc, Wait};

impl Handle {
    /// With all seats: what is left of the map. It takes no memory. Where seats are missing, the
    /// handle comes back. It waits while another handle, whose seats were joined to this one, still
    /// lets go of the map.
    pub fn close<R: Wait>(self, rt: &R) -> Result<Ended, Handle>
        ensures all { (is_ok result ≡ true) ↔ IsWhole self }
        ensures ended { IfOk result (EndedWith (seats_of self)) }
        ensures tables { IfOk result (HasTablesLeft self.map.chain.shape (seats_of self)) }
        ensures back { IfErr result (λ back. back ≡ self) }
    {
        if !self.is_whole() {
            return Err(self);
        }
        let mut handle = self;
        for _ in rt.forever() {
            match handle.try_close() {
                Ok(ended) => return Ok(ended),
                Err(back) => handle = back,
            }
        }
        unreachable!()
    }

    /// The same without waiting: where seats are missing, or another handle still lets go of the
    /// map, the handle comes back.
    pub fn try_close(self) -> Result<Ended, Handle>
        ensures all { is_ok result ≡ true → IsWhole self }
        ensures ended { IfOk result (EndedWith (seats_of self)) }
        ensures tables { IfOk result (HasTablesLeft self.map.chain.shape (seats_of self)) }
        ensures back { IfErr result (λ back. back ≡ self) }
    {
        if !self.is_whole() {
            return Err(self);
        }
        let Handle {
            shared,
            seat,
            reserve,
        } = self;
        match Arc::try_unwrap(shared) {
            Ok(Shared { map, room }) => {
                let (seats, _) = reserve.gathered(seat, room.into_vec());
                match map.finish(seats) {
                    Ok(ended) => Ok(ended),
                    Err(_) => unreachable!(),
                }
            }
            Err(shared) => Err(Handle {
                shared,
                seat,
                reserve,
            }),
        }
    }
}
