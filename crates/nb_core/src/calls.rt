//! The calls of a map, and their replies.
ghost use Rattle.std.specs.Prelude.{◌≡◌, if◌then◌else◌};
ghost use Rattle.nb_core.specs.Calls.{is_past_max};
ghost use Rattle.nb_core.specs.History.{key_of_call};
ghost use Rattle.nb_core.specs.Log.{changed, holds_of};

use crate::numbers::{Key, Num, RangeFault};

/// What a write asks of the value that it finds.
#[derive(Clone, Copy, Debug, PartialEq, Eq, Hash)]
pub enum Want {
    /// Nothing.
    Any,
    /// That there is no value.
    Absent,
    /// That there is a value.
    Present,
    /// That the value is this one.
    Equal(Num),
    /// That there is no value, or a smaller one than this.
    Below(Num),
}

impl Want {
    /// Whether the condition holds of what stands at the key.
    pub fn holds_of(self, before: Option<Num>) -> bool
        ensures { result ≡ holds_of self before }
    {
        match self {
            Want::Any => true,
            Want::Absent => before.is_none(),
            Want::Present => before.is_some(),
            Want::Equal(number) => before == Some(number),
            Want::Below(limit) => before.is_none_or(|number| number < limit),
        }
    }
}

/// What a write does where its condition holds.
#[derive(Clone, Copy, Debug, PartialEq, Eq, Hash)]
pub enum Change {
    /// Sets the value.
    Put(Num),
    /// Takes the key out.
    Remove,
    /// Raises the value, an absent one counting as 0.
    Add(Num),
}

impl Change {
    /// What the change puts in place of what stands at the key: a number, or nothing.
    pub fn changed(self, before: Option<Num>) -> Result<Option<Num>, RangeFault>
        ensures { result ≡ (if is_past_max (changed self before) then Err RangeFault.ValueRange
            else Ok (changed self before)) }
    {
        match self {
            Change::Put(number) => {
                number.known();
                Ok(Some(number))
            }
            Change::Remove => Ok(None),
            Change::Add(number) => {
                let sum = before.map_or(0, Num::get) + number.get();
                Num::new(sum).map(Some)
            }
        }
    }
}

/// What a call answers: the value that it found, and whether its condition held of it.
#[derive(Clone, Copy, Debug, PartialEq, Eq, Hash)]
pub struct Reply {
    pub before: Option<Num>,
    pub matched: bool,
}

/// A call of the map. One conditional write stands behind all writes of `ConcurrentMap`: `put(k,
/// v)` and `remove(k)` are writes under `Any`, `putIfAbsent(k, v)` under `Absent`, `replace(k, v)`
/// under `Present`, and `replace(k, old, new)` and `remove(k, v)` under `Equal`. An `Add` under
/// `Any` is `merge` by a sum.
#[derive(Clone, Copy, Debug, PartialEq, Eq, Hash)]
pub enum Call {
    Get {
        key: Key,
    },
    Write {
        key: Key,
        want: Want,
        change: Change,
    },
}

impl Call {
    /// The key that the call is about.
    #[inline]
    pub fn key(&self) -> Key
        ensures { result ≡ key_of_call self.now }
    {
        match *self {
            Call::Get { key } | Call::Write { key, .. } => key,
        }
    }
}
