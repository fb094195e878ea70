//! What is handed back where seats are missing.

use std::fmt;
use std::fmt::Debug;
use thiserror::Error;

/// Not all seats were there, or too many: the whole and the seats come back as they were.
#[derive(Drop, Error)]
#[error("not all seats were there, or too many")]
pub struct NotAll<W, S> {
    pub whole: W,
    pub seats: Vec<S>,
}

impl<W, S> Debug for NotAll<W, S> {
    fn fmt<F: fmt::Write>(&self, f: &mut fmt::Formatter<F>) -> fmt::Result {
        f.debug_struct("NotAll")
            .field("seats", &self.seats.len())
            .finish_non_exhaustive()
    }
}
