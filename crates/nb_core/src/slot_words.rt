//! The two words of a slot. Contracts see each as what it stands for.
ghost use Rattle.std.specs.Prelude.{◌≡◌, ◌≢◌, ◌⊎◌, ℕ, IfNone, IfSome, IsTrue, Some, false};
ghost use Rattle.nb_core.specs.States.{
  IsKeyState,
  IsValueState,
  IsValueWord,
  key_state,
  key_word,
  shown_by_value,
  value_in_word,
  value_state,
  value_word,
};
ghost use Rattle.nb_core.specs.declared.states.KeyState.TheVariants as key_is;

use crate::numbers::{Key, Num};
use crate::states::{KeyState, ValueState};
use std::marker::Model;

/// The key word of an empty slot, as all words are at first.
pub const EMPTY_KEY: u64 = 0;

/// The key word of a slot that is closed to keys.
pub const DEAD_KEY: u64 = 1;

/// The value word of a null value, as all words are at first.
pub const NULL_VALUE: u64 = 0;

/// The bit of a value word that primes the value.
pub const PRIMED_BIT: u64 = 1;

/// The bit of a primed number's word that finishes the number.
pub const FINISHED_BIT: u64 = 2;

/// A slot's key word. A contract sees what it stands for.
#[derive(Clone, Copy, Debug, PartialEq, Eq, Hash)]
pub struct KeyWord {
    word: u64,
}

impl Model for KeyWord {
    ghost use Rattle.std.proofs.Common.{◌≡◌, ap};
    ghost use Rattle.nb_core.specs.States.{key_state, key_word};
    ghost use Rattle.nb_core.specs.declared.states.KeyState.{KeyState};

    ghost Value = { KeyState };

    ghost view = { λ w. key_state w.word };

    ghost invariant = { λ w. key_word (key_state w.word) ≡ w.word };

    ghost inverse = { λ state. record { word = key_word state } };

    ghost inverse_ok = { λ a h. ap (λ word. record { word = word }) h };
}

impl KeyWord {
    /// The word of a state.
    #[inline]
    pub fn of(state: KeyState) -> KeyWord
        ensures { result ≡ state }
    {
        let word = match state {
            KeyState::Empty => EMPTY_KEY,
            KeyState::Dead => DEAD_KEY,
            KeyState::Claimed(key) => key.get() + 2,
        };
        KeyWord { word }
    }

    /// A word as a load found it. Every word stands for a state.
    #[inline]
    pub fn new(word: u64) -> KeyWord
        ensures state { result ≡ key_state word }
        ensures back { key_word result ≡ word }
    {
        KeyWord { word }
    }

    /// The number in memory.
    #[inline]
    pub fn get(self) -> u64
        ensures word { result ≡ key_word self }
        ensures back { key_state result ≡ self }
        ensures in_range { IsKeyState self }
    {
        self.word
    }

    /// What the word stands for.
    #[inline]
    pub fn state(self) -> KeyState
        ensures { result ≡ self }
    {
        match self.word {
            EMPTY_KEY => KeyState::Empty,
            DEAD_KEY => KeyState::Dead,
            word => KeyState::Claimed(Key::in_range(word - 2)),
        }
    }

    /// Whether the slot is empty.
    #[inline]
    pub fn is_empty(self) -> bool
        ensures yes { IsTrue result → self ≡ key_is.Empty }
        ensures no { result ≡ false → self ≢ key_is.Empty }
    {
        self.word == EMPTY_KEY
    }

    /// Whether the slot is the key's.
    #[inline]
    pub fn is(self, key: Key) -> bool
        ensures yes { IsTrue result → self ≡ key_is.Claimed key }
        ensures no { result ≡ false → self ≢ key_is.Claimed key }
    {
        self.word == key.get() + 2
    }

    /// Whether the slot is the key's, or empty. Two tests would become two branches, of which one
    /// is a toss where half of the keys are there.
    #[inline]
    pub fn is_or_empty(self, key: Key) -> bool
        ensures yes { IsTrue result → (self ≡ key_is.Claimed key) ⊎ (self ≡ key_is.Empty) }
        ensures no { result ≡ false → (self ≡ key_is.Dead)
            ⊎ ((other : ℕ) × (self ≡ key_is.Claimed other) × (other ≢ key)) }
    {
        self.word.min(self.word.wrapping_sub(key.get() + 2)) == EMPTY_KEY
    }
}

/// A slot's value word. A contract sees the value that it stands for.
#[derive(Clone, Copy, Debug, PartialEq, Eq, Hash)]
pub struct ValueWord {
    word: u64,
}

impl Model for ValueWord {
    ghost use Rattle.std.proofs.Common.{◌≡◌, ap};
    ghost use Rattle.nb_core.specs.States.{value_in_word, value_word};
    ghost use Rattle.nb_core.specs.declared.states.ValueState.{ValueState};

    ghost Value = { ValueState };

    ghost view = { λ w. value_in_word w.word };

    ghost invariant = { λ w. value_word (value_in_word w.word) ≡ w.word };

    ghost inverse = { λ state. record { word = value_word state } };

    ghost inverse_ok = { λ a h. ap (λ word. record { word = word }) h };
}

impl ValueWord {
    /// The word of a value.
    #[inline]
    pub fn of(state: ValueState) -> ValueWord
        ensures { result ≡ state }
    {
        let word = match state {
            ValueState::Null => NULL_VALUE,
            ValueState::PrimedNull => 1,
            ValueState::Tombstone => 4,
            ValueState::PrimedTombstone => 5,
            ValueState::Live(number) => 4 * number.get() + 8,
            ValueState::Primed(number) => 4 * number.get() + 9,
            ValueState::Finished(number) => 4 * number.get() + 11,
        };
        ValueWord { word }
    }

    /// A word that is known to stand for a value. It makes no test of that.
    #[inline]
    pub fn lawful(word: u64) -> ValueWord
        requires { IsValueWord word }
        ensures value { result ≡ value_in_word word }
        ensures decodes { value_state word ≡ Some result }
        ensures back { value_word result ≡ word }
    {
        ValueWord { word }
    }

    /// The number in memory.
    #[inline]
    pub fn get(self) -> u64
        ensures word { result ≡ value_word self }
        ensures back { value_state result ≡ Some self }
    {
        self.word
    }

    /// The value that the word stands for.
    #[inline]
    pub fn state(self) -> ValueState
        ensures { result ≡ self }
    {
        if self.word < 8 {
            match self.word {
                0 => ValueState::Null,
                1 => ValueState::PrimedNull,
                4 => ValueState::Tombstone,
                _ => ValueState::PrimedTombstone,
            }
        } else {
            let number = Num::in_range(self.word / 4 - 2);
            match self.word % 4 {
                0 => ValueState::Live(number),
                1 => ValueState::Primed(number),
                _ => ValueState::Finished(number),
            }
        }
    }

    /// What the value shows of its slot's key: the number in it, or that there is none; once it is
    /// primed, nothing. Whether there is a number is no branch: the number is there before the
    /// tests, 0 where there is none.
    #[inline]
    pub fn shows(self) -> Option<Option<Num>>
        ensures { result ≡ shown_by_value self }
    {
        let number = Num::in_range((self.word / 4).saturating_sub(2));
        if self.word % 4 != 0 {
            return None;
        }
        Some(if self.word >= 8 { Some(number) } else { None })
    }
}

/// The number of a key state's word: `KeyWord::of`.
pub fn encode_key(state: KeyState) -> u64
    ensures word { result ≡ key_word state }
    ensures back { key_state result ≡ state }
    ensures in_range { IsKeyState state }
{
    KeyWord::of(state).get()
}

/// What the key word of this number stands for. Every number is one.
pub fn decode_key(word: u64) -> KeyState
    ensures state { result ≡ key_state word }
    ensures back { key_word result ≡ word }
{
    KeyWord::new(word).state()
}

/// The number of a value's word: `ValueWord::of`.
pub fn encode_value(state: ValueState) -> u64
    ensures word { result ≡ value_word state }
    ensures back { value_state result ≡ Some state }
{
    ValueWord::of(state).get()
}

/// What the value word of this number stands for, if there is one.
pub fn decode_value(word: u64) -> Option<ValueState>
    ensures state { result ≡ value_state word }
    ensures some { IfSome result (λ state. value_word state ≡ word) }
    ensures none { IfNone result ((state : ValueState) → IsValueState state
        → value_word state ≢ word) }
{
    match word {
        0 => Some(ValueState::Null),
        1 => Some(ValueState::PrimedNull),
        4 => Some(ValueState::Tombstone),
        5 => Some(ValueState::PrimedTombstone),
        0..8 => None,
        _ => {
            let number = Num::new(word / 4 - 2).ok()?;
            match word % 4 {
                0 => Some(ValueState::Live(number)),
                1 => Some(ValueState::Primed(number)),
                3 => Some(ValueState::Finished(number)),
                _ => None,
            }
        }
    }
}
