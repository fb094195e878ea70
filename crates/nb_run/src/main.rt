//! `nbrun` runs a script of commands on a map of whole numbers, and prints what they answer and
//! what the map contains at the end. All that it does is in `nb_runner`; this is the program.
#![tactic(auto)]

pub use nb_runner::{
    Cause, Failed, FromRead, FromWrite, Gate, Open, OptionFault, Options, RunFault, Sink, Source,
    answers, gates, process, progress, read_options, run, run_gated, running, serve, serving,
};
use std::io::IsTerminal;
use std::process::ExitCode;

fn main(rt: HostRuntime) -> ExitCode {
    let (mut input, mut output, mut errors) = (rt.stdin(), rt.stdout(), rt.stderr());
    let tells = errors.is_terminal();
    let words = process::arguments(&rt);
    let status = process::serve_process(&rt, words, &mut input, &mut output, &mut errors, tells);
    ExitCode::from(status)
}
