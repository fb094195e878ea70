//! The words of slots. A state and its word belong together, each by both ways.
use nb_core::{
    KEY_MAX, Key, KeyState, KeyWord, Num, VALUE_MAX, ValueState, ValueWord, decode_key,
    decode_value, encode_key, encode_value,
};
use std::process::Abort;

/// The word of a key's slot, `tests_of_key_words`: whether it is empty, and whether it is the key
/// 0's, by which it is one of both.
fn is_key_word<R: Abort>(rt: &R, state: KeyState, word: u64, is_empty: bool, is_zero: bool) {
    let (made, zero) = (KeyWord::of(state), Key::from(0_u32));
    assert!(rt;
        made.get() == word && KeyWord::new(word).state() == state,
        "{word}"
    );
    assert!(rt;
        encode_key(state) == word && decode_key(word) == state,
        "{word}"
    );
    assert!(rt;
        made.is_empty() == is_empty && made.is(zero) == is_zero,
        "{word}"
    );
    assert!(rt; made.is_or_empty(zero) == (is_empty || is_zero), "{word}");
}

#[test]
fn key_words(rt: HostRuntime) {
    let greatest = Key::new(KEY_MAX).expect(&rt, "a key");
    is_key_word(&rt, KeyState::Empty, 0, true, false);
    is_key_word(&rt, KeyState::Dead, 1, false, false);
    is_key_word(&rt, KeyState::Claimed(Key::from(0_u32)), 2, false, true);
    is_key_word(&rt, KeyState::Claimed(Key::from(1_u32)), 3, false, false);
    is_key_word(&rt, KeyState::Claimed(greatest), u64::MAX, false, false);
}

/// The word of a value, and what it shows.
fn is_value_word<R: Abort>(rt: &R, state: ValueState, word: u64, shown: Option<Option<Num>>) {
    let made = ValueWord::of(state);
    assert!(rt; made.get() == word && made.state() == state, "{word}");
    assert!(rt;
        encode_value(state) == word && decode_value(word) == Some(state),
        "{word}"
    );
    assert!(rt; made.shows() == shown, "{word}");
}

/// Words that are no value's.
const OF_NONE: [u64; 6] = [2, 3, 6, 7, 30, 4_611_686_018_427_387_912];

/// Words of values and what they show, and words of none.
#[test]
fn value_words(rt: HostRuntime) {
    let five = Num::from(5_u32);
    let greatest = Num::new(VALUE_MAX).expect(&rt, "a number");
    let live = ValueState::Live(greatest);
    is_value_word(&rt, ValueState::Null, 0, Some(None));
    is_value_word(&rt, ValueState::PrimedNull, 1, None);
    is_value_word(&rt, ValueState::Tombstone, 4, Some(None));
    is_value_word(&rt, ValueState::PrimedTombstone, 5, None);
    is_value_word(&rt, ValueState::Live(five), 28, Some(Some(five)));
    is_value_word(&rt, ValueState::Primed(five), 29, None);
    is_value_word(&rt, ValueState::Finished(five), 31, None);
    is_value_word(&rt, live, 4_611_686_018_427_387_908, Some(Some(greatest)));
    for word in &OF_NONE {
        assert!(rt; decode_value(*word).is_none(), "{word}");
    }
}
