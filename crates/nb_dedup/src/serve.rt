//! The program: its words, what it reads and what it prints.

use crate::lines_once::print_once;
use crate::options::{LINE, LineOptions, Options, Task, task_of};
use crate::printing::print;
use crate::taking::take_all;
use nb_lines::{FILES, Inputs, Output, ProgramFault, ProgressMeter};
use nb_texts::{Hashing, LinePlan};
use std::io;
use std::io::{Read, Write};
use std::random::RandomSource;
use std::rt::Env;
use std::sync::Wait;
use std::thread::Threads;

/// Serves a process: does what its words ask for. Progress is told if standard error is a terminal.
pub(crate) fn serve<R, I>(
    rt: &R,
    files: &HostRuntime,
    standard: I,
    is_terminal: bool,
) -> Result<(), ProgramFault>
where
    R: Env + Threads + Sync + Wait + Print + Eprint + AllocGlobal + RandomSource,
    I: Read + Send + Drop,
{
    let given = LINE.given(rt)?;
    let task = task_of(rt.alloc(), &given)?;
    let mut inputs = Inputs::new(files, standard, given.texts(FILES.name()));
    let mut output = Output::new(io::writer(rt));
    let progress = ProgressMeter::new(is_terminal, inputs.size());
    let ended = match task {
        Task::Lines(options) => once(rt, options, &mut inputs, progress, &mut output),
        Task::Numbers(options) => numbers(rt, options, &mut inputs, progress, &mut output),
    };
    ended.map_err(|fault| output.told(inputs.told(rt.alloc(), fault)))
}

/// Prints each line once.
fn once<R, I, W>(
    rt: &R,
    options: LineOptions,
    reader: &mut I,
    progress: ProgressMeter,
    writer: W,
) -> Result<(), ProgramFault>
where
    R: Threads + Sync + Wait + Eprint + AllocGlobal + RandomSource,
    I: Read,
    W: Write + Drop,
{
    let plan = LinePlan {
        hashing: Hashing::seeded(rt, options.seed, options.bits)?,
        workers: options.workers,
        room: options.room,
        limit: options.limit,
        progress,
    };
    let printed = print_once(rt, rt.alloc(), plan, reader, writer);
    progress.end(rt);
    let (_, taken) = printed?;
    taken.ended()
}

/// Prints each number once.
fn numbers<R, I, W>(
    rt: &R,
    options: Options,
    reader: I,
    progress: ProgressMeter,
    writer: W,
) -> Result<(), ProgramFault>
where
    R: Threads + Sync + Wait + Eprint + AllocGlobal,
    I: Read + Send + Drop,
    W: Write + Drop,
{
    let jobs = take_all(rt, rt.alloc(), &options, reader, progress)?;
    print(rt.alloc(), writer, jobs.as_slice(), options.tells_who)
}
