//! Keys and value numbers.
ghost use Rattle.std.specs.Prelude.{◌≡◌, ◌≤◌, nat_le, if◌then◌else◌};

use std::marker::Model;
use thiserror::Error;

/// The greatest key, `2^64 - 3`: a key is stored two above itself, since two words mean an empty
/// and a dead slot.
pub const KEY_MAX: u64 = u64::MAX - 2;

/// The greatest value number, `2^60 - 1`: a value's word keeps two flags below the number, and has
/// room above it.
pub const VALUE_MAX: u64 = (1 << 60) - 1;

/// Why a number is no key or no value number.
#[derive(Clone, Copy, Debug, PartialEq, Eq, Hash, Error)]
pub enum RangeFault {
    #[error("key too large")]
    KeyRange,
    #[error("value too large")]
    ValueRange,
}

/// A key of the map, a whole number up to [`KEY_MAX`]. A contract sees the number.
#[derive(Clone, Copy, Debug, PartialEq, Eq, PartialOrd, Ord, Hash)]
pub struct Key {
    key: u64,
}

impl Model for Key {
    ghost use Rattle.std.specs.Prelude.{ℕ, ◌≤◌};
    ghost use Rattle.nb_core.specs.declared.numbers.TheConstants.{KEY_MAX};

    ghost Value = { ℕ };

    ghost view = { λ k. k.key };

    ghost invariant = { λ k. k.key ≤ KEY_MAX };

    ghost inverse = { λ n. record { key = n } };
}

impl Key {
    /// The key of a number, if it is at most [`KEY_MAX`].
    pub const fn new(key: u64) -> Result<Key, RangeFault>
        ensures { result ≡ (if nat_le key KEY_MAX then Ok key else Err RangeFault.KeyRange) }
    {
        if key <= KEY_MAX {
            Ok(Key { key })
        } else {
            Err(RangeFault::KeyRange)
        }
    }

    /// The key of a number that is known to be one. It makes no test of that.
    pub(crate) const fn in_range(key: u64) -> Key
        requires { key ≤ KEY_MAX }
        ensures { result ≡ key }
    {
        Key { key }
    }

    pub const fn get(self) -> u64
        ensures number { result ≡ self }
        ensures in_range { result ≤ KEY_MAX }
    {
        self.key
    }

    /// Reminds a proof of the range. It does nothing.
    pub const fn known(self)
        ensures { self ≤ KEY_MAX }
    {}
}

/// A value number, a whole number up to [`VALUE_MAX`]. A contract sees the number.
#[derive(Clone, Copy, Debug, PartialEq, Eq, PartialOrd, Ord, Hash)]
pub struct Num {
    number: u64,
}

impl Model for Num {
    ghost use Rattle.std.specs.Prelude.{ℕ, ◌≤◌};
    ghost use Rattle.nb_core.specs.declared.numbers.TheConstants.{VALUE_MAX};

    ghost Value = { ℕ };

    ghost view = { λ n. n.number };

    ghost invariant = { λ n. n.number ≤ VALUE_MAX };

    ghost inverse = { λ n. record { number = n } };
}

impl Num {
    /// The value number of a number, if it is at most [`VALUE_MAX`].
    pub const fn new(number: u64) -> Result<Num, RangeFault>
        ensures { result
            ≡ (if nat_le number VALUE_MAX then Ok number else Err RangeFault.ValueRange) }
    {
        if number <= VALUE_MAX {
            Ok(Num { number })
        } else {
            Err(RangeFault::ValueRange)
        }
    }

    /// The value number of a number that is known to be one. It makes no test of that.
    pub(crate) const fn in_range(number: u64) -> Num
        requires { number ≤ VALUE_MAX }
        ensures { result ≡ number }
    {
        Num { number }
    }

    pub const fn get(self) -> u64
        ensures number { result ≡ self }
        ensures in_range { result ≤ VALUE_MAX }
    {
        self.number
    }

    /// Reminds a proof of the range. It does nothing.
    pub const fn known(self)
        ensures { self ≤ VALUE_MAX }
    {}
}
