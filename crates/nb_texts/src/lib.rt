//! Lines of text, each kept once: what programs share that count or filter the lines of a stream.
//!
//! A [`Catalog`] has the distinct lines of what was entered, in the order of their first coming. A
//! line is found by its keyed hash in a map, and is compared byte for byte, so lines of one hash are
//! kept apart. The map is made anew, larger, before a block of lines might not find room. A
//! [`MemoryLimit`] bounds what is kept. [`take_lines`] reads an input in blocks of whole lines, which one
//! [takes](TakesLines).
#![tactic(auto)]

mod catalog;
mod clues;
mod forgetting;
mod hashing;
mod lines;
mod memory;
mod plan;
mod source;
mod taking;
mod tally;
mod texts;

pub use catalog::{CATALOG_EACH, Catalog};
pub use forgetting::Forgotten;
pub use hashing::Hashing;
pub use lines::split_line;
pub use memory::{Load, MemoryLimit, Taken};
pub use plan::LinePlan;
pub use taking::{TakesLines, take_lines};
pub use tally::{LineTally, Row, TALLY_EACH};
pub use texts::Texts;
