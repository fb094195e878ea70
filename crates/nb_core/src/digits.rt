//! The number that a text writes in decimal digits.
ghost use Rattle.std.specs.Prelude.{◌≡◌};
ghost use Rattle.nb_core.specs.Digits.{are_digits, number_read};

use thiserror::Error;

/// Why a text writes no number of 64 bits.
#[derive(Clone, Copy, Debug, PartialEq, Eq, Hash, Error)]
pub enum DigitsFault {
    #[error("not a number")]
    NotANumber,
    #[error("number too large")]
    TooLarge,
}

/// Whether a text is one digit or more, and nothing else.
fn are_digits(text: &[u8]) -> bool
    ensures { result ≡ are_digits text.now }
{
    !text.is_empty() && text.iter().all(|byte| byte.is_ascii_digit())
}

/// The number that a text writes in base ten, in digits alone.
pub fn read_number(text: &[u8]) -> Result<u64, DigitsFault>
    ensures { result ≡ number_read text.now }
{
    if !are_digits(text) {
        return Err(DigitsFault::NotANumber);
    }
    let mut number = 0u64;
    for byte in text {
        let digit = u64::from(*byte - b'0');
        let tens = number.checked_mul(10).ok_or(DigitsFault::TooLarge)?;
        number = tens.checked_add(digit).ok_or(DigitsFault::TooLarge)?;
    }
    Ok(number)
}
