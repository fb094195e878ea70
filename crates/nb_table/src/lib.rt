//! The chain of tables, step by step. A step takes no memory, waits for nobody and returns.
#![tactic(auto)]

mod calls;
mod chain;
mod claims;
mod closed;
mod copying;
mod growth;
pub mod laws;
mod loads;
mod view;

pub use chain::{Chain, ChainSeat};
pub use closed::Closed;
