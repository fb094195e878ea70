//! The program: its words, what it prints, and its exit status.

use crate::crew::Tally;
use crate::faults::BenchFault;
use crate::keys::KEY_COUNT;
use crate::kinds::Kind;
use crate::options::{LINE, Options, read_options};
use crate::workloads::Workload;
use crate::{churn, fill, growth, kinds, memory, runs};
use nb_lines::{ProgressMeter, WordsFault, answer, complain};
use std::alloc::Global;
use std::io;
use std::rt::{Clock, Env, Files};
use std::sync::Wait;
use std::thread::Threads;

/// What a write comes to.
fn written(wrote: io::Result<()>) -> Result<(), BenchFault> {
    match wrote {
        Ok(()) => Ok(()),
        Err(_) => Err(BenchFault::Write),
    }
}

/// Times calls of each kind, and prints a line for each.
fn run_kinds<R: Wait + Clock + Print + Eprint>(
    rt: &R,
    alloc: Global,
    options: &Options,
) -> Result<(), BenchFault> {
    let times = kinds::measure(rt, alloc, options)?;
    for (kind, nanoseconds) in Kind::ALL.iter().zip(times.iter()) {
        let name = kind.name();
        written(println!(rt; "nb {name} 1 {KEY_COUNT} {nanoseconds}"))?;
    }
    Ok(())
}

/// Prints a line for each of these, which are a name, how many calls it is of, and a number.
fn print_lines<R: Print>(
    rt: &R,
    threads: usize,
    lines: &[(&'static str, u32, u64)],
) -> Result<(), BenchFault> {
    for (name, calls, number) in lines.iter() {
        written(println!(rt; "nb {name} {threads} {calls} {number}"))?;
    }
    Ok(())
}

/// Puts keys in maps that grow, and prints a line for each time.
fn run_growth<R: Threads + Sync + Wait + Clock + Print + Eprint>(
    rt: &R,
    alloc: Global,
    options: &Options,
) -> Result<(), BenchFault> {
    let lines = growth::lines_of(growth::measure(rt, alloc, options)?, options.keys);
    print_lines(rt, options.threads, lines.as_slice())
}

/// Fills and reads maps of many keys, and prints a line for each time, and one for the memory.
fn run_fill<R>(rt: &R, alloc: Global, options: &Options) -> Result<(), BenchFault>
where
    R: Threads + Sync + Wait + Clock + Print + Eprint + Files + AllocGlobal,
{
    let memory = memory::measure(rt, alloc, options)?;
    let lines = fill::measure(rt, alloc, options)?.lines(options.keys);
    print_lines(rt, options.threads, lines.as_slice())?;
    match memory {
        Some(bytes) => print_lines(rt, options.threads, &[("memory", options.keys, bytes)]),
        None => Ok(()),
    }
}

/// Runs a workload that prints one line, with `full` at its end if a map was full.
fn run_timed<R: Threads + Sync + Wait + Clock + Print + Eprint>(
    rt: &R,
    alloc: Global,
    options: &Options,
) -> Result<(), BenchFault> {
    let name = options.workload.name();
    let threads = options.threads;
    let tally = match options.workload {
        Workload::Churn => churn::measure(rt, alloc, options),
        _ => runs::measure(rt, alloc, options),
    };
    let Tally {
        calls,
        nanoseconds,
        is_full,
        ..
    } = tally?;
    let full = if is_full { " full" } else { "" };
    written(println!(rt; "nb {name} {threads} {calls} {nanoseconds}{full}"))
}

/// Runs what the options ask for.
fn run<R>(rt: &R, alloc: Global, options: &Options) -> Result<(), BenchFault>
where
    R: Threads + Sync + Wait + Clock + Print + Eprint + Files + AllocGlobal,
{
    match options.workload {
        Workload::Kinds => run_kinds(rt, alloc, options),
        Workload::Growth => run_growth(rt, alloc, options),
        Workload::Fill => run_fill(rt, alloc, options),
        _ => run_timed(rt, alloc, options),
    }
}

/// The options that the command line gives.
fn options_given<R: Env + AllocGlobal>(rt: &R) -> Result<Options, WordsFault> {
    let given = LINE.given(rt)?;
    read_options(rt.alloc(), &given)
}

/// Reads the options and runs what they ask for.
fn attend<R>(rt: &R, progress: ProgressMeter) -> Result<(), BenchFault>
where
    R: Env + Files + Threads + Sync + Wait + Clock + Print + Eprint + AllocGlobal,
{
    let mut options = options_given(rt)?;
    options.progress = progress;
    let ran = run(rt, rt.alloc(), &options);
    progress.end(rt);
    ran
}

/// Serves a process, and answers its exit status: 0 where it ran well or help or the version was
/// asked for, 1 where nothing could be written, 2 where a check found something wrong, 3 for wrong
/// words, 4 where a worker stopped early.
pub(crate) fn serve<R>(rt: &R, progress: ProgressMeter) -> u8
where
    R: Env + Files + Threads + Sync + Wait + Clock + Print + Eprint + AllocGlobal,
{
    match attend(rt, progress) {
        Ok(()) => 0,
        Err(BenchFault::Words(WordsFault::Answered(text))) => answer(rt, LINE.name, text.as_str()),
        Err(fault) => {
            let status = fault.status();
            complain(rt, LINE.name, &fault, status)
        }
    }
}
