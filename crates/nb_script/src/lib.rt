//! Scripts of commands on a map of whole numbers: what a script says, how it is read, the program's
//! options, and the faults of all of these, with what is said of them.
#![tactic(auto)]

pub mod faults;
mod help;
pub mod options;
pub mod reader;
pub mod script;
pub mod streams;
mod until_end;
