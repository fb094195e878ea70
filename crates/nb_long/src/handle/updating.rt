//! An update of the value at a key by a function, by a handle.
ghost use Rattle.nb_long.specs.Handles.{KeepsRest};
ghost use Rattle.nb_long.specs.Updating.{HasUpdated};

use crate::handle::{Handle, by_handle};
use crate::map::{UpdateFault, Updated};
use nb_core::Key;
use std::sync::Wait;

impl<V: Drop> Handle<V> {
    /// Sets a key to what the function makes of the value that is there: `LongMap::update`.
    pub fn update<R: Wait, F: FnMut(Option<&V>) -> Option<V>>(
        &mut self,
        rt: &R,
        key: Key,
        new_of: F,
    ) -> Result<Updated<V>, UpdateFault<V>>
        requires callable { F.IsAlwaysCallable new_of }
        ensures updated { HasUpdated self.old.map F.step new_of key self.old.seat self.new.seat
            result }
        ensures rest { KeepsRest self.old self.new }
    {
        self.map.known();
        by_handle(&self.store).update(rt, &mut self.map, key, new_of)
    }
}
