//! A map from whole numbers to whole numbers that many threads read and write at the same time.
//! Reads and conditional writes wait for nobody; the calls of `ConcurrentMap` try again while
//! others come first.
//!
//! The design is that of Cliff Click's JavaOne 2007 talk and of `NonBlockingHashMapLong` in
//! high-scale-lib.
#![tactic(auto)]

mod faults;
mod handle;
pub mod laws;
mod map;
mod occupancy;
pub mod steps;

pub use faults::{
    AddFault, Full, FullAfter, OpenFault, PutFault, RenewFault, SeatMissing, SettleFault,
    SplitFault,
};
pub use handle::{Handle, HandleWalk};
pub use map::{Ended, FirstPut, Map, Seat, SettlingRoom, Walk, WalkPlace};
pub use nb_core::NotAll;
pub use occupancy::{Occupancy, SAMPLE};
pub use steps::walk::Place;
