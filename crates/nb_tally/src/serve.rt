//! The program: its words, what it reads and what it prints.
ghost use Rattle.std.specs.Prelude.{◌≡◌, ◌<◌, ◌≤◌, ◌^◌, ◌⊎◌, ℕ, Err, IfErr, IfOk, IfSome, IsTrue, None, Ok, Some, false, length, take};
ghost use Rattle.nb_core.specs.declared.shapes.TheConstants.{MOST_KEYS};
ghost use Rattle.nb_lines.specs.declared.faults.ProgramFault.TheVariants as fault;
ghost use Rattle.nb_texts.specs.Catalogs.{IsNoRoom};
ghost use Rattle.nb_texts.specs.Forgetting.{AreBounds};
ghost use Rattle.nb_texts.specs.Lines.{distinct, lines_in};
ghost use Rattle.nb_texts.specs.Memory.{KeepsTo};
ghost use Rattle.nb_texts.specs.Sources.{IsReadFault};
ghost use Rattle.nb_texts.specs.Tallies.{IsTally};
ghost use Rattle.nb_tally.specs.Fields.{counted_of};
ghost use Rattle.nb_tally.specs.Forgotten.{FitsNever, HasTallied, TellsFirst, ahead_finer};
ghost use Rattle.nb_tally.specs.Limits.{IsTallyOfFirst, MayNotFit};
ghost use Rattle.nb_tally.specs.Printed.{HasPrinted};

use crate::counting::tally;
use crate::lines_counted::{Counted, count_lines};
use crate::lines_forgotten::Missed;
use crate::options::{LINE, LineOptions, Options, Task, task_of};
use crate::printing::{print_counts, print_rows, sort_rows};
use nb_lines::{FILES, Inputs, Output, ProgramFault, ProgressMeter};
use nb_texts::{Hashing, LinePlan, LineTally, Taken};
use std::alloc::Global;
use std::io;
use std::io::{Read, Write};
use std::random::RandomSource;
use std::rt::Env;
use std::sync::Wait;
use std::thread::Threads;

/// Serves a process: does what its words ask for. Progress is told if standard error is a terminal.
pub(crate) fn serve<R, I>(
    rt: &R,
    files: &HostRuntime,
    standard: I,
    is_terminal: bool,
) -> Result<(), ProgramFault>
where
    R: Env + Threads + Sync + Wait + Print + Eprint + AllocGlobal + RandomSource,
    I: Read + Send + Drop,
{
    let given = LINE.given(rt)?;
    let task = task_of(rt.alloc(), &given)?;
    let mut inputs = Inputs::new(files, standard, given.texts(FILES.name()));
    let mut output = Output::new(io::writer(rt));
    let progress = ProgressMeter::new(is_terminal, inputs.size());
    let ended = match task {
        Task::Lines(options) => lines(rt, options, &mut inputs, progress, &mut output),
        Task::Numbers(options) => numbers(rt, options, &mut inputs, progress, &mut output),
    };
    ended.map_err(|fault| output.told(inputs.told(rt.alloc(), fault)))
}

/// Counts lines, and prints what was counted, also where memory ended before the input did.
fn lines<R, I, W>(
    rt: &R,
    options: LineOptions,
    reader: &mut I,
    progress: ProgressMeter,
    writer: W,
) -> Result<(), ProgramFault>
where
    R: Threads + Sync + Wait + Eprint + AllocGlobal + RandomSource,
    I: Read,
    W: Write + Drop,
{
    let plan = LinePlan {
        hashing: Hashing::seeded(rt, options.seed, options.bits)?,
        workers: options.workers,
        room: options.room,
        limit: options.limit,
        progress,
    };
    if options.forgets {
        let (_, counted, taken) = print_roughly(rt, options, plan, reader, writer)?;
        tell_missed(rt, counted.rough.missed);
        return taken.ended();
    }
    let (_, _, taken) = print_exactly(rt, options, plan, reader, writer)?;
    taken.ended()
}

/// Counts the lines of a reader and prints them, also where memory ended before the input did. Answers
/// the writer, and what was counted.
fn print_exactly<R, I, W>(
    rt: &R,
    options: LineOptions,
    plan: LinePlan,
    reader: &mut I,
    writer: W,
) -> Result<(W, Counted, Taken), ProgramFault>
where
    R: Threads + Sync + Wait + Eprint + AllocGlobal,
    I: Read,
    W: Write + Drop,
    ensures printed { IfOk result (λ done. HasPrinted options None done.1.rough.tally.catalog.texts
        done.1.rough.tally.counts.items (W.contents writer) (W.contents done.0)) }
    ensures whole { IfOk result (λ done. IsTrue done.2.is_whole
        → IfSome (I.remaining reader.old) (λ input. IsTally (counted_of options.column (lines_in input))
        done.1.rough.tally.catalog.texts done.1.rough.tally.counts.items)) }
    ensures first { IfOk result (λ done. IfSome (I.remaining reader.old) (λ input.
        IsTallyOfFirst options.column input done.2.lines done.1.rough.tally.catalog.texts
        done.1.rough.tally.counts.items)) }
    ensures unlimited { plan.limit ≡ None → IfOk result (λ done. IsTrue done.2.is_whole) }
    ensures kept { IfOk result (λ done.
        KeepsTo plan.limit done.2.lines done.1.rough.tally.catalog) }
    ensures full { IfOk result (λ done. done.2.is_whole ≡ false
        → IfSome plan.limit (λ limit. IfSome (I.remaining reader.old) (λ input.
        MayNotFit options.column limit input done.2.lines done.1.rough.tally.catalog))) }
    ensures errors { IfErr result (λ told.
        IsReadFault told ⊎ IsNoRoom told ⊎ (told ≡ fault.TooOften) ⊎ (told ≡ fault.Write)) }
    ensures too_many { result ≡ Err fault.FullOfLines → IfSome (I.remaining reader.old) (λ input.
        MOST_KEYS < length (distinct (counted_of options.column (lines_in input)))) }
    ensures too_often { result ≡ Err fault.TooOften → IfSome (I.remaining reader.old) (λ input.
        2 ^ 64 ≤ length (lines_in input)) }
{
    let counted = count_lines(rt, rt.alloc(), plan, options.column, false, reader);
    plan.progress.end(rt);
    let (counted, taken) = counted?;
    let writer = print_tally(rt.alloc(), writer, &counted.rough.tally, None, options)?;
    Ok((writer, counted, taken))
}

/// Counts the lines of a reader but for the rarest, and prints them, each with how often it came at
/// least and at most. Answers the writer, and what was counted.
fn print_roughly<R, I, W>(
    rt: &R,
    options: LineOptions,
    plan: LinePlan,
    reader: &mut I,
    writer: W,
) -> Result<(W, Counted, Taken), ProgramFault>
where
    R: Threads + Sync + Wait + Eprint + AllocGlobal,
    I: Read,
    W: Write + Drop,
    ensures printed { IfOk result (λ done. HasPrinted options (Some done.1.rough.missed.times)
        done.1.rough.tally.catalog.texts done.1.rough.tally.counts.items
        (W.contents writer) (W.contents done.0)) }
    ensures bounds { IfOk result (λ done. IsTrue done.2.is_whole
        → IfSome (I.remaining reader.old) (λ input. AreBounds done.1.rough.missed.times
        (counted_of options.column (lines_in input)) done.1.rough.tally.catalog.texts
        done.1.rough.tally.counts.items)) }
    ensures first { IfOk result (λ done. IfSome (I.remaining reader.old) (λ input.
        TellsFirst options.column input done.2.lines done.1.rough)) }
    ensures made { IfOk result (λ done. IfSome (I.remaining reader.old) (λ input. (most : ℕ)
        × HasTallied (ahead_finer plan.limit) plan.limit options.column
        (take done.2.lines (lines_in input)) most done.1.rough)) }
    ensures unlimited { plan.limit ≡ None → IfOk result (λ done. IsTrue done.2.is_whole
        × (done.1.rough.missed.times ≡ 0)) }
    ensures kept { IfOk result (λ done.
        KeepsTo plan.limit done.2.lines done.1.rough.tally.catalog) }
    ensures never { IfOk result (λ done. done.2.is_whole ≡ false
        → IfSome plan.limit (λ limit. IfSome (I.remaining reader.old) (λ input.
        FitsNever options.column limit input done.2.lines done.1.rough.tally.catalog))) }
    ensures errors { IfErr result (λ told.
        IsReadFault told ⊎ IsNoRoom told ⊎ (told ≡ fault.TooOften) ⊎ (told ≡ fault.Write)) }
    ensures too_many { result ≡ Err fault.FullOfLines → IfSome (I.remaining reader.old) (λ input.
        MOST_KEYS < length (distinct (counted_of options.column (lines_in input)))) }
    ensures too_often { result ≡ Err fault.TooOften → IfSome (I.remaining reader.old) (λ input.
        2 ^ 64 ≤ length (lines_in input)) }
{
    let counted = count_lines(rt, rt.alloc(), plan, options.column, true, reader);
    plan.progress.end(rt);
    let (counted, taken) = counted?;
    let rough = &counted.rough;
    let missed = Some(rough.missed.times);
    let writer = print_tally(rt.alloc(), writer, &rough.tally, missed, options)?;
    Ok((writer, counted, taken))
}

/// Tells how often lines were forgotten, if they were, and what that means for the counts.
fn tell_missed<R: Eprint>(rt: &R, missed: Missed) {
    let Missed { times, cuts } = missed;
    if cuts > 0 {
        let name = LINE.name;
        let _ = eprintln!(rt;
            "{name}: forgot lines {cuts} times; each may have come {times} times more than told"
        );
    }
}

/// Prints the lines that are asked for, in the order that is asked for. Answers the writer.
fn print_tally<W: Write + Drop>(
    alloc: Global,
    writer: W,
    tally: &LineTally,
    missed: Option<u64>,
    options: LineOptions,
) -> Result<W, ProgramFault>
    requires { length tally.now.counts.items ≡ length tally.now.catalog.texts }
    ensures printed { IfOk result (λ after. HasPrinted options missed tally.now.catalog.texts
        tally.now.counts.items (W.contents writer) (W.contents after)) }
    ensures errors { IfErr result (λ told. (told ≡ fault.OutOfMemory) ⊎ (told ≡ fault.Write)) }
{
    let mut rows = tally.rows(alloc)?;
    sort_rows(alloc, &mut rows, &options);
    print_rows(alloc, writer, rows.as_slice(), missed)
}

/// Counts numbers.
fn numbers<R, I, W>(
    rt: &R,
    options: Options,
    reader: I,
    progress: ProgressMeter,
    writer: W,
) -> Result<(), ProgramFault>
where
    R: Threads + Sync + Wait + Eprint + AllocGlobal,
    I: Read + Send + Drop,
    W: Write + Drop,
{
    let counts = tally(rt, rt.alloc(), &options, reader, progress)?;
    print_counts(rt.alloc(), writer, counts, options.top)?;
    Ok(())
}
