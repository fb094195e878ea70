//! A set of whole numbers that many threads read and change at the same time. `contains` and walks
//! wait for nobody; `add` and `remove` try again while other seats' writes of the same key come
//! first.
//!
//! It is kept in a map of `nb_map`, which has number 0 at each key of the set, as the key set of a
//! `ConcurrentHashMap` is (`newKeySet`). Its contracts speak of sets: of one log of `add`, `remove`
//! and `contains`, each with its reply.
#![tactic(auto)]

mod ended;
mod handle;
mod handle_walk;
pub mod laws;
mod set;

pub use ended::SetEnded;
pub use handle::Handle;
pub use handle_walk::HandleWalk;
pub use nb_map::{
    Full, FullAfter, Occupancy, OpenFault, RenewFault, Seat, SettleFault, SplitFault,
};
pub use set::{LongSet, Walk};
