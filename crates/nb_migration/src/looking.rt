//! What a core has at a key.
ghost use Rattle.std.specs.Prelude.{Option, ℕ, ◌≡◌};
ghost use Rattle.nb_map.specs.Handles.{KeepsRest};
ghost use Rattle.nb_map.specs.Promises.{HasGot};
ghost use Rattle.nb_migration.specs.Numbers.{seen_of};

use crate::numbers::{Seen, seen_of};
use nb_core::Key;
use nb_map::Handle;

/// What a core has at a key: one `get`. A number, frozen or not, is the key's. Where the key is
/// closed, the caller goes on behind; where it is absent, he does so if the core has a link after
/// that.
#[inline]
pub fn look(core: &mut Handle, key: Key) -> Seen
    ensures got { (found : Option ℕ) × (result ≡ seen_of found)
        × HasGot core.old.map key core.old.seat core.new.seat found }
    ensures rest { KeepsRest core.old core.new }
{
    seen_of(core.get(key))
}
