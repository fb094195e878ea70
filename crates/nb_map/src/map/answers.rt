//! What the general way of a call answers that finds a number: so much as two registers hold. A
//! result of three words would have a place in memory, which is cleared where the call begins, on
//! the straight way, too. So each of these has its refusals beside what was found, and not within a
//! type of their own.
ghost use Rattle.std.specs.Prelude.{◌≡◌};
ghost use Rattle.nb_map.specs.inside.Waiting.{answer_of_added, answer_of_put, answer_of_tried};

use crate::faults::{AddFault, Full, PutFault};
use nb_core::Num;

/// What a put that waits found, or that it is refused.
#[derive(Clone, Copy)]
pub(crate) enum Gone {
    Found(Num),
    Nothing,
    Full,
}

impl Gone {
    /// The same as a result.
    #[inline(always)]
    pub(crate) fn answer(self) -> Result<Option<Num>, Full>
        ensures { result ≡ answer_of_put self }
    {
        match self {
            Gone::Found(number) => Ok(Some(number)),
            Gone::Nothing => Ok(None),
            Gone::Full => Err(Full),
        }
    }
}

/// What an add that waits found, or why it is refused.
#[derive(Clone, Copy)]
pub(crate) enum Added {
    Found(Num),
    Nothing,
    Full,
    ValueRange,
}

impl Added {
    /// The same as a result.
    #[inline(always)]
    pub(crate) fn answer(self) -> Result<Option<Num>, AddFault>
        ensures { result ≡ answer_of_added self }
    {
        match self {
            Added::Found(number) => Ok(Some(number)),
            Added::Nothing => Ok(None),
            Added::Full => Err(AddFault::Full),
            Added::ValueRange => Err(AddFault::ValueRange),
        }
    }
}

/// What a write with tries found, or why it is refused.
#[derive(Clone, Copy)]
pub(crate) enum Tried {
    Found(Num),
    Nothing,
    Full,
    Contended,
    ValueRange,
}

impl Tried {
    /// The same as a result.
    #[inline(always)]
    pub(crate) fn answer(self) -> Result<Option<Num>, PutFault>
        ensures { result ≡ answer_of_tried self }
    {
        match self {
            Tried::Found(number) => Ok(Some(number)),
            Tried::Nothing => Ok(None),
            Tried::Full => Err(PutFault::Full),
            Tried::Contended => Err(PutFault::Contended),
            Tried::ValueRange => Err(PutFault::ValueRange),
        }
    }
}
