//! The end of a set, by the handle that has all its seats.
ghost use Rattle.std.specs.Prelude.{IfErr, IfOk, is_ok, true, ◌↔◌, ◌≡◌};
ghost use Rattle.nb_set.specs.Ending.{EndedWith, HasTablesLeft};
ghost use Rattle.nb_set.specs.Handles.{IsWhole, seats_of};
ghost use Rattle.nb_set.specs.Sets.{shape_of};

use crate::ended::SetEnded;
use crate::handle::Handle;
use std::sync::Wait;

impl Handle {
    /// With all seats: what is left of the set. It takes no memory. Where seats are missing, the
    /// handle comes back.
    pub fn close<R: Wait>(self, rt: &R) -> Result<SetEnded, Handle>
        ensures all { (is_ok result ≡ true) ↔ IsWhole self }
        ensures ended { IfOk result (EndedWith (seats_of self)) }
        ensures tables { IfOk result (HasTablesLeft (shape_of self.set) (seats_of self)) }
        ensures back { IfErr result (λ back. back ≡ self) }
    {
        let Handle { map } = self;
        match map.close(rt) {
            Ok(map) => Ok(SetEnded { map }),
            Err(map) => Err(Handle { map }),
        }
    }
}
