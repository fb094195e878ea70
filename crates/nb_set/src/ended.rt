//! What is left of a set when all its seats are gathered.
ghost use Rattle.std.specs.Prelude.{◌≡◌, IfOk};
ghost use Rattle.std.specs.FinMap.{contains_key, keys, len};
ghost use Rattle.nb_set.specs.Ending.{log_left, set_left};
ghost use Rattle.nb_set.specs.Log.{IsReplayed};

use crate::set::listing::keys_in;
use nb_core::{Key, OutOfMemory};
use nb_map::Ended;
use std::alloc::Global;
use std::marker::Model;

/// A set that no thread shares any more. Contracts see the log of all calls that were made.
#[derive(Drop)]
pub struct SetEnded {
    pub(crate) map: Ended,
}

impl Model for SetEnded {
    ghost use Rattle.nb_set.specs.Ending.{EndedOf};

    ghost Value = { EndedOf };

    ghost use Rattle.nb_set.specs.Inside.{ended_of};

    ghost view = { ended_of };
}

impl SetEnded {
    /// Reminds a proof that the log is replayed, so that it may use an ended set without
    /// remembering `finish`. It does nothing.
    pub fn known(&self)
        ensures { IsReplayed (log_left self.now) }
    {
        self.map.known();
    }

    /// How many keys the set has. The seats have counted them: it is a stored number.
    pub fn size(&self) -> u64
        ensures { result ≡ len (set_left self.now) }
    {
        self.map.known();
        self.map.size()
    }

    /// Whether the set has the key. It takes no memory.
    pub fn contains(&self, key: Key) -> bool
        ensures { result ≡ contains_key (set_left self.now) key }
    {
        self.map.known();
        self.map.get(key).is_some()
    }

    /// The set's keys, ascending. It takes memory for a plain map of them, and for two vectors, of
    /// which one is handed out.
    pub fn entries(&self, alloc: Global) -> Result<Vec<Key>, OutOfMemory>
        ensures { IfOk result (λ found. found.items ≡ keys (set_left self.now)) }
    {
        self.map.known();
        keys_in(alloc, self.map.entries(alloc)?)
    }
}
