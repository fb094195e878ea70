//! The map's calls over a chain of tables, step by step: from `write` and `get`, which make a call,
//! down to `decide`, which says what it does to what it found. Tests that make some steps by hand
//! use what is public here.

pub(crate) mod claim;
pub(crate) mod climb;
pub(crate) mod first;
pub(crate) mod get;
pub(crate) mod pause;
pub(crate) mod rung;
pub(crate) mod sample;
pub(crate) mod search;
pub(crate) mod slot;
pub(crate) mod there;
pub(crate) mod walk;
pub(crate) mod write;

pub use get::get_in;
pub use pause::{NoPause, Pause};
pub use write::put_if_match_in;
