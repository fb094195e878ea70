//! Runs a script of commands on a map of whole numbers, each of whose seats is a worker's thread:
//! from the bytes in to the bytes out, and as a program with its words, its faults and its status.
#![tactic(auto)]

pub mod answers;
pub mod gates;
pub(crate) mod outcome;
pub(crate) mod output;
pub mod process;
pub mod progress;
pub mod running;
pub mod serving;
pub(crate) mod workers;

pub use gates::{Gate, Open};
pub use nb_script::faults::RunFault;
pub use nb_script::options::{OptionFault, Options, read_options};
pub use nb_script::script::Cause;
pub use nb_script::streams::{Failed, FromRead, FromWrite, Sink, Source};
pub use running::{run, run_gated};
pub use serving::serve;
