//! `nb_bench` measures the map: how many calls it answers in a time, under workloads that its
//! peers are measured with too.
#![tactic(auto)]

pub(crate) mod callers;
pub(crate) mod churn;
pub(crate) mod crew;
pub(crate) mod draws;
pub(crate) mod faults;
pub(crate) mod fill;
pub(crate) mod growth;
pub(crate) mod keys;
pub(crate) mod kinds;
pub(crate) mod meeting;
pub(crate) mod memory;
pub(crate) mod options;
pub(crate) mod random;
pub(crate) mod runs;
pub(crate) mod seats;
pub(crate) mod serve;
pub(crate) mod timing;
pub(crate) mod workloads;

use nb_lines::ProgressMeter;
use std::io::IsTerminal;
use std::process::ExitCode;

fn main(rt: HostRuntime) -> ExitCode {
    let progress = ProgressMeter::new(rt.stderr().is_terminal(), None);
    ExitCode::from(serve::serve(&rt, progress))
}
