//! A striped counter, which many threads add to at the same time and read without waiting for one
//! another.
//!
//! One word that all threads add to would go from processor to processor. Here each seat adds to
//! one of a few words, the stripes, by one atomic step. The idea is that of `ConcurrentAutoTable`
//! in high-scale-lib and of `LongAdder`.
#![tactic(auto)]

mod counter;
pub mod laws;
mod tally;

pub use counter::{CountSeat, Counter};
