//! Numbers as keys.
ghost use Rattle.std.specs.Prelude.{◌≡◌, ◌<◌, ◌≤◌, ℕ, Err, IfOk, IsOk, None, Some};
ghost use Rattle.nb_core.specs.Digits.{number_spelled};
ghost use Rattle.nb_core.specs.declared.numbers.TheConstants.{KEY_MAX};
ghost use Rattle.nb_lines.specs.Keys.{number_at};

use crate::faults::Cause;
use nb_core::{KEY_MAX, Key, RangeFault, mix, read_number, unmix};

/// The key of a number up to [`KEY_MAX`]. It is mixed, so that numbers that share their low bits
/// have home slots of their own. Where that is past the greatest key it is mixed again.
#[inline]
pub fn key_of(number: u64) -> Result<Key, RangeFault>
    ensures back { IfOk result (λ key. number_at key ≡ number) }
    ensures taken { number ≤ KEY_MAX → IsOk result }
    ensures refused { KEY_MAX < number → result ≡ Err RangeFault.KeyRange }
{
    if number > KEY_MAX {
        return Err(RangeFault::KeyRange);
    }
    let mixed = mix(number);
    if mixed > KEY_MAX {
        return Key::new(mix(mixed));
    }
    Key::new(mixed)
}

/// The number whose key this is.
pub fn number_of(key: Key) -> u64
    ensures { result ≡ number_at key }
{
    let number = unmix(key.get());
    if number > KEY_MAX {
        return unmix(number);
    }
    number
}

/// The key of the number that a line writes.
pub fn read_key(line: &[u8]) -> Result<Key, Cause>
    ensures read { IfOk result (λ key. number_spelled line.now ≡ Some (number_at key)) }
    ensures taken { (number : ℕ) → number_spelled line.now ≡ Some number → number ≤ KEY_MAX
        → IsOk result }
    ensures too_large { (number : ℕ) → number_spelled line.now ≡ Some number → KEY_MAX < number
        → result ≡ Err Cause.TooLarge }
    ensures no_number { number_spelled line.now ≡ None → result ≡ Err Cause.NotANumber }
{
    let number = read_number(line)?;
    Ok(key_of(number)?)
}
