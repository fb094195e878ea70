//! What programs over lines share whose workers call one map: files as one input that they read in
//! blocks of whole lines, numbers of lines, keys of numbers, words of the command line, progress, and
//! what is said of faults.
#![tactic(auto)]

mod blocks;
mod command_line;
mod faults;
mod inputs;
mod keys;
mod lines;
mod numbers;
mod output;
mod progress;

pub use blocks::{BLOCK, Block, Input, LinePlace};
pub use command_line::{
    Argument, CommandLine, FILES, Form, Given, MANY_KEYS, MEMORY, VERSION, WORKERS, answer,
    complain, end_of, wrong_word,
};
pub use faults::{Cause, ProgramFault, Stop, WordsFault};
pub use inputs::Inputs;
pub use keys::{key_of, number_of, read_key};
pub use lines::Lines;
pub use nb_core::read_number;
pub use numbers::NumberWord;
pub use output::Output;
pub use progress::{Done, ProgressMeter, Seconds};
