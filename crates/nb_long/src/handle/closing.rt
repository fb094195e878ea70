//! The end of a typed map, by the handle that has all its seats.
ghost use Rattle.std.specs.Arc.{arc_value};
ghost use Rattle.std.specs.Prelude.{IfErr, IfOk, is_ok, true, ◌↔◌, ◌≡◌};
ghost use Rattle.nb_map.specs.Ending.{EndedWith, HasTablesLeft};
ghost use Rattle.nb_long.specs.Handles.{IsWhole, seats_of};

use crate::handle::Handle;
use crate::store::Store;
use nb_map::Ended;
use std::alloc::Global;
use std::sync::{Arc, Wait};

impl<V: Drop> Handle<V> {
    /// With all seats: what is left of the map of numbers, and the store. It takes no memory. Where
    /// seats are missing, the handle comes back.
    pub fn close<R: Wait>(self, rt: &R) -> Result<(Ended, Store<V>), Handle<V>>
        ensures all { (is_ok result ≡ true) ↔ IsWhole self }
        ensures ended { IfOk result (λ left. EndedWith (seats_of self) left.0) }
        ensures tables { IfOk result (λ left. HasTablesLeft self.map.map.chain.shape (seats_of self)
            left.0) }
        ensures store { IfOk result (λ left. left.1 ≡ self.map.store) }
        ensures back { IfErr result (λ back. back ≡ self) }
    {
        let Handle { map, store } = self;
        match map.close(rt) {
            Ok(ended) => Ok((ended, sole(rt, store))),
            Err(map) => Err(Handle { map, store }),
        }
    }
}

/// What is shared, once no other reference to it is left. Where that is so already, it doesn't wait.
pub(super) fn sole<T: Drop, R: Wait>(rt: &R, shared: Arc<T, Global>) -> T
    ensures { result ≡ arc_value shared }
{
    let mut shared = shared;
    for _ in rt.forever() {
        match Arc::try_unwrap(shared) {
            Ok(sole) => return sole,
            Err(others) => shared = others,
        }
    }
    unreachable!()
}
