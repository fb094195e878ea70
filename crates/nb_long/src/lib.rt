//! A map from whole numbers to values of any type, which many threads share.
//!
//! Each write stores its value first, and a value stays until the store is dropped, also where its
//! key was written over or taken out, or the write was refused: memory grows with the writes, not
//! with the keys, until `Handle::renew_store` begins a new store with the values that keys have.
#![tactic(auto)]

mod handle;
mod map;
mod new_store;
mod store;

pub use handle::Handle;
pub use map::{Compared, LongFault, LongMap, Replaced, Stored, Unshown, UpdateFault, Updated};
pub use nb_map::{RenewFault, SettleFault, SplitFault};
pub use new_store::{Carried, RenewStoreFault, Renewed};
pub use store::{Found, Placed, Receipt, Store, StoreFault};
