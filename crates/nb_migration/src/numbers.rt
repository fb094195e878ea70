//! What the numbers of a core stand for: those of the user, the same frozen, and the mark of a
//! closed key.
ghost use Rattle.std.specs.Prelude.{Err, Ok, nat_le, ◌≡◌, ◌≤◌, if◌then◌else◌};
ghost use Rattle.nb_core.specs.declared.numbers.TheConstants.{VALUE_MAX};
ghost use Rattle.nb_migration.specs.Numbers.{frozen_of, is_open, seen_of};

use nb_core::{Num, RangeFault, VALUE_MAX};
use std::marker::Model;

/// From here on a number is frozen: `2^59`, which is 0 frozen.
pub const FROZEN: u64 = 1 << 59;

/// The greatest number of the user. The next one is never in a core: frozen, it would read as
/// closed.
pub const USER_MAX: u64 = FROZEN - 2;

/// How many numbers the user has: each of them is below this.
pub const USER_END: u64 = USER_MAX + 1;

/// What stands where a key has left a core.
pub const CLOSED: u64 = VALUE_MAX;

/// A number of the user, up to [`USER_MAX`]. A contract sees the number.
#[derive(Clone, Copy, Debug, PartialEq, Eq, PartialOrd, Ord, Hash)]
pub struct UserNumber {
    number: u64,
}

impl Model for UserNumber {
    ghost use Rattle.std.specs.Prelude.{ℕ, ◌≤◌};
    ghost use Rattle.nb_migration.specs.declared.numbers.TheConstants.{USER_MAX};

    ghost Value = { ℕ };

    ghost view = { λ n. n.number };

    ghost invariant = { λ n. n.number ≤ USER_MAX };

    ghost inverse = { λ n. record { number = n } };
}

impl UserNumber {
    /// The number, if it is at most [`USER_MAX`].
    pub const fn new(number: u64) -> Result<UserNumber, RangeFault>
        ensures { result ≡ (if nat_le number USER_MAX then Ok number
            else Err RangeFault.ValueRange) }
    {
        if number <= USER_MAX {
            Ok(UserNumber { number })
        } else {
            Err(RangeFault::ValueRange)
        }
    }

    pub const fn get(self) -> u64
        ensures number { result ≡ self }
        ensures in_range { result ≤ USER_MAX }
    {
        self.number
    }

    /// The number as it stands in a core.
    pub(crate) fn plain(self) -> Num
        ensures number { result ≡ self }
        ensures in_range { self ≤ USER_MAX }
    {
        in_range(self.number)
    }

    /// The number, frozen.
    pub(crate) fn frozen(self) -> Num
        ensures number { result ≡ frozen_of self }
        ensures in_range { self ≤ USER_MAX }
    {
        in_range(FROZEN + self.number)
    }
}

/// The number of a core that is known to be one.
pub(crate) fn in_range(number: u64) -> Num
    requires { number ≤ VALUE_MAX }
    ensures { result ≡ number }
{
    Num::new(number).unwrap()
}

/// What a core has at a key.
#[derive(Clone, Copy, Debug, PartialEq, Eq)]
pub enum Seen {
    /// This number, which writes may change.
    Open(UserNumber),
    /// This number, frozen: it stays until the key is closed.
    Frozen(UserNumber),
    /// The mark of a closed key: its number, if any, is in a core behind this one.
    Closed,
    /// No number.
    Absent,
}

/// What this number of a core shows, or none.
pub(crate) fn seen_of(found: Option<Num>) -> Seen
    ensures { result ≡ seen_of found }
{
    let Some(there) = found else {
        return Seen::Absent;
    };
    let number = there.get();
    if number <= USER_MAX {
        Seen::Open(UserNumber { number })
    } else if FROZEN <= number && number < CLOSED {
        let number = number - FROZEN;
        Seen::Frozen(UserNumber { number })
    } else {
        Seen::Closed
    }
}

/// Whether this is no number, or one of the user.
pub(crate) fn is_open(found: &Option<Num>) -> bool
    ensures { result ≡ is_open found.now }
{
    match found {
        Some(there) => there.get() <= USER_MAX,
        None => true,
    }
}
