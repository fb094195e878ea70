//! Keys that move from map to map while threads read and write them, and nobody waits: the steps of
//! the protocol, each a function over a handle or two.
//!
//! A *core* is a map of one table, which keys enter, and which they leave for a core behind it. A
//! number of the user is *frozen* in a core, copied to the core behind where the key never had a
//! number, and *closed* where it was. `numbers` tells what a core's number means, and `looking` reads
//! it. `writes` and `updates` write in a core that isn't being left. `settling` and `copying` have
//! the steps by which a key leaves a core, and comes to the next one.
#![tactic(auto)]

pub mod copying;
pub mod examples;
pub mod laws;
pub mod looking;
mod numbers;
pub mod pieces;
pub mod settling;
pub mod updates;
pub mod writes;

pub use numbers::{CLOSED, FROZEN, Seen, USER_END, USER_MAX, UserNumber};
pub use writes::{CoreFault, Written};
