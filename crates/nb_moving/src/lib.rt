//! The law of moving: where keys go from core to core, a core being a map of its own that gives way
//! to others, all cores together are one map, whatever was called in them, by whom, in which order,
//! and however late. Nothing here runs: the events are lists in contracts.
//!
//! What is in `specs/Moving.antt` has to be believed.
#![tactic(auto)]

mod events;
pub mod examples;
pub mod laws;
pub mod refusals;

pub use events::{Event, Link, State};
