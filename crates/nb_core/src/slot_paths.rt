//! A key's path in a table, and slots with the place of their words. Both are worked out once, and
//! serve for many steps.
ghost use Rattle.std.specs.Prelude.{ℕ, ◌≡◌};
ghost use Rattle.nb_core.specs.Paths.{IsOnPathAt, IsPathIn};
ghost use Rattle.nb_core.specs.Plans.{Plan, size_of};

use crate::numbers::Key;

/// A slot of a table: slot `i` of table `g`, and where its words lie.
#[derive(Clone, Copy)]
pub struct Slot {
    pub g: u32,
    pub i: usize,
    /// The index of its value word. The key word lies right before it.
    pub value: usize,
}

/// The path of a key in a table. It keeps what the table's shape says of it, so that a search need
/// not ask the shape at each slot.
#[derive(Clone, Copy)]
pub struct Path {
    pub(crate) g: u32,
    pub(crate) key: Key,
    /// The last slot of the table, whose digits mask the key.
    pub(crate) last: u32,
    /// Where the table begins.
    pub(crate) base: u32,
}

impl Path {
    /// The slot at a distance on the path, which begins at the key's home slot.
    #[inline]
    pub fn slot(&self, distance: usize) -> Slot
        ensures { (p : Plan) (g k : ℕ) → IsPathIn p g k self.now → IsOnPathAt p g k distance result }
    {
        let i = (self.key.get() as usize).wrapping_add(distance) & self.last as usize;
        Slot {
            g: self.g,
            i,
            value: self.base as usize + 4 + 2 * i,
        }
    }

    /// How many slots the path has: all those of the table.
    #[inline]
    pub fn slots(&self) -> usize
        ensures { (p : Plan) (g k : ℕ) → IsPathIn p g k self.now → result ≡ size_of p g }
    {
        self.last as usize + 1
    }
}
