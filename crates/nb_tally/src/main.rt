//! `nb_tally` counts how often each line of files or of standard input comes, as `sort | uniq -c`
//! does. That each distinct line is counted once, and exactly, and that just these are printed, in
//! which order and form, is the contract of `print_exactly`.
//!
//! With `--numbers` it counts numbers. That shows how threads share a map by handles: each worker takes a block of lines from the input,
//! which a lock guards, and adds 1 at the key of each number, for which it takes no lock. When all
//! workers are done a walk by one of the handles shows the counts.
#![tactic(auto)]

pub(crate) mod counting;
pub(crate) mod fields;
pub(crate) mod lines_counted;
pub(crate) mod lines_forgotten;
pub(crate) mod options;
pub(crate) mod printing;
pub(crate) mod serve;
pub(crate) mod sorting;

use nb_lines::end_of;
use std::io::IsTerminal;
use std::process::ExitCode;

fn main(rt: HostRuntime) -> ExitCode {
    let served = serve::serve(&rt, &rt, rt.stdin(), rt.stderr().is_terminal());
    ExitCode::from(end_of(&rt, options::LINE.name, served))
}
