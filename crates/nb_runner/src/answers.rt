//! What commands answer.
ghost use Rattle.std.specs.Prelude.{◌≡◌};
ghost use Rattle.nb_runner.specs.Text.{before, of_add, of_put};

use nb_core::Num;
use nb_map::{AddFault, Full};

/// What a command answers.
#[derive(Clone, Copy, Debug, PartialEq, Eq)]
pub enum Answer {
    /// There was no value before.
    Nothing,
    /// The earlier value.
    Value(Num),
    /// Whether the command acted.
    Matched(bool),
    /// There was no room for a new key.
    Full,
    /// The sum would be past the greatest value number.
    Range,
}

impl Answer {
    /// What a command answers that tells the earlier value.
    pub(crate) fn before(value: Option<Num>) -> Answer
        ensures { result ≡ before value }
    {
        match value {
            Some(number) => Answer::Value(number),
            None => Answer::Nothing,
        }
    }

    /// What a put answers.
    pub(crate) fn put(put: Result<Option<Num>, Full>) -> Answer
        ensures { result ≡ of_put put }
    {
        match put {
            Ok(value) => Answer::before(value),
            Err(Full) => Answer::Full,
        }
    }

    /// What an add answers.
    pub(crate) fn added(added: Result<Option<Num>, AddFault>) -> Answer
        ensures { result ≡ of_add added }
    {
        match added {
            Ok(value) => Answer::before(value),
            Err(AddFault::Full) => Answer::Full,
            Err(AddFault::ValueRange) => Answer::Range,
        }
    }
}
