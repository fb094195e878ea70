//! `nb_dedup` prints each line of files or of standard input once, where it comes first, as
//! `awk '!n[$0]++'` does. What it writes for what it reads is the contract of `print_once`.
//!
//! With `--numbers` it prints each number once, as `sort -nu` does: the jobs that workers take from a
//! list in which jobs come again, each by the worker that comes first. That shows how threads share a
//! set. `LongSet::add` answers whether the key came by this call, and of all calls at the same time one
//! alone is told so: its worker takes the job. What a worker keeps is just that, by the contract of
//! `take`.
#![tactic(auto)]

pub(crate) mod lines_once;
pub(crate) mod options;
pub(crate) mod printing;
pub(crate) mod serve;
pub(crate) mod taking;

use nb_lines::end_of;
use std::io::IsTerminal;
use std::process::ExitCode;

fn main(rt: HostRuntime) -> ExitCode {
    let served = serve::serve(&rt, &rt, rt.stdin(), rt.stderr().is_terminal());
    ExitCode::from(end_of(&rt, options::LINE.name, served))
}
