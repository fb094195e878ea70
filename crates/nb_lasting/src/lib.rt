//! A map without an end, for one owner, or for guests that share it: it makes itself anew, larger
//! or of the same size, where its tables are full. So a put is refused only where there is no
//! memory, or where the greatest table is full; and its calls answer as those of a plain map, as if
//! there were no tables.
#![tactic(auto)]

mod closing;
mod counting;
mod faults;
mod gathered;
mod guest;
mod hall;
mod lasting;
pub mod laws;
mod opening;
mod present;
mod renewing;
mod settling;
mod shapes;
mod shared;
mod shared_lasting;
mod through;

pub use faults::{GrowFault, WriteFault};
pub use guest::Guest;
pub use lasting::Lasting;
pub use shared_lasting::SharedLasting;
