//! What the two words of a slot stand for.
ghost use Rattle.std.specs.Prelude.{◌≡◌};
ghost use Rattle.nb_core.specs.Tables.{is_finished_value};

use crate::numbers::{Key, Num};

/// What the key word of a slot stands for.
#[derive(Clone, Copy, Debug, PartialEq, Eq, Hash)]
pub enum KeyState {
    Empty,
    /// No key may be claimed here any more: the table is being copied.
    Dead,
    Claimed(Key),
}

/// What the value word of a slot stands for. A primed number is about to be copied, and becomes a
/// finished one when the next table has a value of its key. A primed null or tombstone leaves
/// nothing to copy.
#[derive(Clone, Copy, Debug, PartialEq, Eq, Hash)]
pub enum ValueState {
    /// The key never had a value in this table.
    Null,
    /// The key was removed.
    Tombstone,
    Live(Num),
    PrimedNull,
    PrimedTombstone,
    Primed(Num),
    Finished(Num),
}

impl ValueState {
    /// Whether the value is final: it is primed, and nothing of it is left to copy.
    pub fn is_finished(self) -> bool
        ensures { result ≡ is_finished_value self }
    {
        matches!(
            self,
            ValueState::PrimedNull | ValueState::PrimedTombstone | ValueState::Finished(_)
        )
    }
}
