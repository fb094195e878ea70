//! A mixing of numbers, for keys that share their low bits.
ghost use Rattle.std.specs.Prelude.{◌≡◌};
ghost use Rattle.nb_core.specs.Mixing.{mixed, stirred, unmixed, unstirred};

/// An odd number near `2^64` over the golden ratio, as Fibonacci hashing takes it: its multiples
/// lie far apart.
const FACTOR: u64 = 0x9e37_79b9_7f4a_7c15;

/// The number that [`FACTOR`] times is 1, apart from multiples of `2^64`.
const INVERSE: u64 = 0xf1de_83e1_9937_733d;

/// Mixes a number: each low bit of the result depends on all bits of the number. Different numbers
/// have different results, and [`unmix`] turns them back.
///
/// A table takes a key's low bits as its home slot, so keys that share them all begin at one slot,
/// and to put many of them takes quadratic time. Mix such numbers before they become keys.
///
/// Two numbers have results past [`KEY_MAX`](crate::KEY_MAX), which are no keys:
/// 1,504,646,209,777,642,070 and 5,863,696,168,926,310,861.
pub const fn mix(number: u64) -> u64
    ensures value { result ≡ mixed number }
    ensures back { unmixed result ≡ number }
{
    stir(stir(number))
}

/// The number that [`mix`] made this one of.
pub const fn unmix(number: u64) -> u64
    ensures value { result ≡ unmixed number }
    ensures back { mixed result ≡ number }
{
    unstir(unstir(number))
}

/// One round of mixing. A product's high bits depend on all bits of its factors, and its low bits
/// on few, so the bytes change places.
const fn stir(number: u64) -> u64
    ensures value { result ≡ stirred number }
    ensures back { unstirred result ≡ number }
{
    number.wrapping_mul(FACTOR).swap_bytes()
}

/// One round back.
const fn unstir(number: u64) -> u64
    ensures value { result ≡ unstirred number }
    ensures back { stirred result ≡ number }
{
    number.swap_bytes().wrapping_mul(INVERSE)
}
