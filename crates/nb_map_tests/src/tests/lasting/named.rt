//! Calls by their names, one after another at one key, with what they answer. One table serves the owner
//! and a guest.
use super::super::rows::Answer::*;
use super::super::rows::Call::*;
use super::super::rows::{Answer, Call, FULL, PAST, was};
use nb_core::{Num, VALUE_MAX};
use nb_lasting::{GrowFault, WriteFault};

/// Each call, and the one refusal that needs no memory. In the end the key is absent, as it was.
pub(super) const BY_NAME: [(Call, Answer); 13] = [
    (Replace(1), Nothing),
    (Put(1), Nothing),
    (PutIfAbsent(2), Was(1)),
    (Replace(2), Was(1)),
    (ReplaceIf(1, VALUE_MAX), Is(false)),
    (ReplaceIf(2, VALUE_MAX), Is(true)),
    (Add(1), PAST),
    (Get, Was(VALUE_MAX)),
    (RemoveIf(1), Is(false)),
    (RemoveIf(VALUE_MAX), Is(true)),
    (Remove, Nothing),
    (Add(2), Nothing),
    (Remove, Was(2)),
];

/// What was there, or that the number wasn't put.
pub(super) fn grown(answer: Result<Option<Num>, GrowFault>) -> Answer {
    match answer {
        Ok(before) => was(before),
        Err(_) => FULL,
    }
}

/// What was there, or why the number wasn't added.
pub(super) fn added(answer: Result<Option<Num>, WriteFault>) -> Answer {
    match answer {
        Ok(before) => was(before),
        Err(WriteFault::ValueRange) => PAST,
        Err(_) => FULL,
    }
}
