//! Keys and numbers, the numbers that digits write, and mixed numbers.
use nb_core::{DigitsFault, KEY_MAX, Key, Num, RangeFault, mix, read_number, unmix};
use std::collections::BTreeSet;

/// Why a number is no key, and no value.
fn faults_of(number: u64) -> (Option<RangeFault>, Option<RangeFault>) {
    (Key::try_from(number).err(), Num::try_from(number).err())
}

/// The ranges of keys and numbers.
#[test]
fn keys_and_numbers(rt: HostRuntime) {
    let (key, value) = (Some(RangeFault::KeyRange), Some(RangeFault::ValueRange));
    for (number, faults) in [
        (1_152_921_504_606_846_975, (None, None)),
        (1_152_921_504_606_846_976, (None, value)),
        (18_446_744_073_709_551_613, (None, value)),
        (18_446_744_073_709_551_614, (key, value)),
        (u64::MAX, (key, value)),
    ] {
        assert!(rt; faults_of(number) == faults);
    }
}

/// Keys and numbers to and from those of Rust, and as texts.
#[test]
fn keys_and_numbers_shown(rt: HostRuntime) {
    let (key, number) = (Key::from(4_294_967_295_u32), Num::from(5_u32));
    assert!(rt; u64::from(key) == 4_294_967_295 && u64::from(number) == 5);
    let shown = format!(in rt.alloc(); "{key} {key:>12} {number:03}").expect(&rt, "memory");
    assert!(rt; shown.as_str() == "4294967295   4294967295 005");
}

/// A text is no number either where the digits before another byte are too many.
#[test]
fn numbers_of_64_bits(rt: HostRuntime) {
    let (none, large) = (Err(DigitsFault::NotANumber), Err(DigitsFault::TooLarge));
    let rows: [(&[u8], Result<u64, DigitsFault>); 15] = [
        (b"0", Ok(0)),
        (b"007", Ok(7)),
        (b"18446744073709551615", Ok(u64::MAX)),
        (b"18446744073709551616", large),
        (b"99999999999999999999999", large),
        (b"99999999999999999999999x", none),
        (b"", none),
        (b"-1", none),
        (b"+1", none),
        (b" 1", none),
        (b"1 ", none),
        (b"1\r", none),
        (b"x", none),
        (b":", none),
        (b"/", none),
    ];
    for (text, due) in rows {
        assert!(rt; read_number(text) == due, "{text:?}");
    }
}

/// Whether a number is mixed to this one, and back, and whether that is a key.
fn is_mixed(number: u64, mixed: u64, is_key: bool) -> bool {
    mix(number) == mixed && unmix(mixed) == number && Key::new(mixed).is_ok() == is_key
}

/// The last but one and the one before it are mixed to what is no key:
/// `mixed_past_the_greatest_key`.
#[test]
fn mixed_numbers(rt: HostRuntime) {
    for (number, mixed, is_key) in [
        (0, 0, true),
        (1, 17732798614194424744, true),
        (2, 17013110623237245971, true),
        (131072, 17231277123929834607, true),
        (281474976710656, 3229997669068692271, true),
        (u64::MAX, 17684271367961033934, true),
        (1504646209777642070, u64::MAX, false),
        (5863696168926310861, u64::MAX - 1, false),
        (unmix(KEY_MAX), KEY_MAX, true),
    ] {
        assert!(rt; is_mixed(number, mixed, is_key));
    }
}

#[test]
fn homes_of_numbers_that_share_low_bits(rt: HostRuntime) {
    for distance in [1, 131072, 16777216, 281474976710656] {
        let mut homes = BTreeSet::new(rt.alloc());
        for i in 0..20_000u64 {
            let home = homes.insert(mix(i.wrapping_mul(distance)) % 65536);
            assert!(rt; home.is_ok());
        }
        assert!(rt; homes.len() > 14_000, "{distance} apart");
    }
}
