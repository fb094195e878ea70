//! Whole numbers as keys and as value numbers, and back.
ghost use Rattle.std.specs.Prelude.{◌≡◌, Err, Ok, Some, nat_le, if◌then◌else◌};
ghost use Rattle.std.specs.Fmt.{decimal, styled_decimal};

use crate::numbers::{Key, Num, RangeFault};
use std::fmt;

impl TryFrom<u64> for Key {
    ghost use Rattle.nb_core.specs.declared.numbers.RangeFault.TheVariants.{KeyRange};
    ghost use Rattle.nb_core.specs.declared.numbers.TheConstants.{KEY_MAX};

    type Error = RangeFault;

    ghost try_from_gives = { λ number result. result
        ≡ (if nat_le number KEY_MAX then Ok number else Err KeyRange) };

    fn try_from(number: u64) -> Result<Key, RangeFault> {
        Key::new(number)
    }
}

impl TryFrom<u64> for Num {
    ghost use Rattle.nb_core.specs.declared.numbers.RangeFault.TheVariants.{ValueRange};
    ghost use Rattle.nb_core.specs.declared.numbers.TheConstants.{VALUE_MAX};

    type Error = RangeFault;

    ghost try_from_gives = { λ number result. result
        ≡ (if nat_le number VALUE_MAX then Ok number else Err ValueRange) };

    fn try_from(number: u64) -> Result<Num, RangeFault> {
        Num::new(number)
    }
}

impl From<u32> for Key {
    ghost from_gives = { λ number key. key ≡ number };

    fn from(number: u32) -> Key {
        Key::in_range(u64::from(number))
    }
}

impl From<u32> for Num {
    ghost from_gives = { λ number value. value ≡ number };

    fn from(number: u32) -> Num {
        Num::in_range(u64::from(number))
    }
}

impl From<Key> for u64 {
    ghost from_gives = { λ key number. number ≡ key };

    fn from(key: Key) -> u64 {
        key.get()
    }
}

impl From<Num> for u64 {
    ghost from_gives = { λ value number. number ≡ value };

    fn from(value: Num) -> u64 {
        value.get()
    }
}

/// Writes the number in decimal digits.
impl fmt::Display for Key {
    ghost output = { λ key. Some (decimal key) };

    ghost styled_output = { λ key spec. Some (styled_decimal spec key) };

    fn fmt<W: fmt::Write>(&self, f: &mut fmt::Formatter<W>) -> fmt::Result {
        fmt::Display::fmt(&self.get(), f)
    }
}

/// Writes the number in decimal digits.
impl fmt::Display for Num {
    ghost output = { λ value. Some (decimal value) };

    ghost styled_output = { λ value spec. Some (styled_decimal spec value) };

    fn fmt<W: fmt::Write>(&self, f: &mut fmt::Formatter<W>) -> fmt::Result {
        fmt::Display::fmt(&self.get(), f)
    }
}
