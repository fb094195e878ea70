//! Copying a table to the next one, by any number of threads at once, none of which waits for
//! another.
#![tactic(auto)]

mod slots;
mod tables;

pub use slots::copy_slot;
pub use tables::{complete, copy_and_count, help};
