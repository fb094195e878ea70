//! Runs a script, from the bytes in to the bytes out.
ghost use Rattle.std.specs.Prelude.{◌≡◌, ◌≢◌, false, IfErr};
ghost use Rattle.nb_runner.specs.Runs.{IsRunResult, ends};

use crate::gates::{Gate, Open};
use crate::outcome::perform;
use crate::output::tell;
use nb_script::faults::RunFault;
use nb_script::options::Options;
use nb_script::reader::read_script;
use nb_script::streams::{Sink, Source};
use std::sync::Wait;
use std::thread::Threads;

/// Reads a script to its end, runs its commands on a map, and writes what they were answered and
/// what the map contains at the end. No command runs until all of the script was read and found to
/// be without a fault, and the output is written at the end.
///
/// Each seat of the map is a worker's, in a thread of its own. In each phase all workers run their
/// commands at the same time; a phase begins when the one before it is over for all. A thread that
/// can't be started is want of memory.
pub fn run<H: Threads + Wait + AllocGlobal + Sync, R: Source, W: Sink>(
    rt: &H,
    options: &Options,
    reader: &mut R,
    writer: &mut W,
) -> Result<(), RunFault>
    requires reader { R.failed reader.old ≡ false }
    requires writer { W.failed writer.old ≡ false }

    ensures ended { IsRunResult options.now.shape
        (ends (R.remaining reader.old) (W.contents writer.old) (R.failed reader.old)
        (W.failed writer.old))
        (ends (R.remaining reader.new) (W.contents writer.new) (R.failed reader.new)
        (W.failed writer.new))
        result }

    // Nothing is written before another fault.
    ensures silent { IfErr result (λ fault. fault ≢ RunFault.Write → writer.new ≡ writer.old) }
{
    run_gated(rt, &Open, options, reader, writer)
}

/// The same, with a gate round each command.
pub fn run_gated<H: Threads + Wait + AllocGlobal + Sync, G: Gate + Sync, R: Source, W: Sink>(
    rt: &H,
    gate: &G,
    options: &Options,
    reader: &mut R,
    writer: &mut W,
) -> Result<(), RunFault>
    requires reader { R.failed reader.old ≡ false }
    requires writer { W.failed writer.old ≡ false }

    ensures ended { IsRunResult options.now.shape
        (ends (R.remaining reader.old) (W.contents writer.old) (R.failed reader.old)
        (W.failed writer.old))
        (ends (R.remaining reader.new) (W.contents writer.new) (R.failed reader.new)
        (W.failed writer.new))
        result }
    ensures silent { IfErr result (λ fault. fault ≢ RunFault.Write → writer.new ≡ writer.old) }
{
    let phases = read_script(rt.alloc(), options.shape.seats(), reader)?;
    let phases = phases.as_slice();
    let outcome = perform(rt, rt.alloc(), gate, options.shape, phases).map_err(
        |_| RunFault::OutOfMemory,
    )?;
    let answers = outcome.answers.as_slice();
    tell(
        writer,
        phases,
        answers,
        outcome.size,
        outcome.entries.as_slice(),
    )
    .map_err(|_| RunFault::Write)
}
