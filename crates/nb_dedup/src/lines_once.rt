//! Lines, each printed where it comes first.
ghost use Rattle.std.specs.Io.KnownBytes.{Appends};
ghost use Rattle.std.specs.Prelude.{◌≡◌, ◌<◌, ◌≤◌, ◌^◌, ◌⊎◌, IfErr, IfOk, IfSome, IsTrue, None, OnOk, drop, false, length};
ghost use Rattle.nb_core.specs.declared.shapes.TheConstants.{MOST_KEYS};
ghost use Rattle.nb_lines.specs.declared.faults.ProgramFault.TheVariants as fault;
ghost use Rattle.nb_texts.specs.Catalogs.{IsNoRoom};
ghost use Rattle.nb_texts.specs.Lines.{distinct, lines_in, text_of_lines};
ghost use Rattle.nb_texts.specs.Memory.{KeepsTo};
ghost use Rattle.nb_texts.specs.Sources.{IsReadFault};
ghost use Rattle.nb_dedup.specs.Limits.{HasPrintedFirst, LinesMayNotFit};

use nb_lines::ProgramFault;
use nb_texts::{Catalog, LinePlan, Load, Taken, TakesLines, take_lines};
use std::alloc::Global;
use std::io::{Read, Write};
use std::sync::Wait;
use std::thread::Threads;

/// The lines of an input that were printed, and where.
#[derive(Drop)]
pub(crate) struct Printed<W: Write + Drop> {
    pub(crate) plan: LinePlan,
    pub(crate) catalog: Catalog,
    pub(crate) writer: W,
}

impl<W: Write + Drop> TakesLines for Printed<W> {
    ghost use Rattle.nb_texts.specs.Taking.{IsTooMuch};
    ghost use Rattle.nb_dedup.specs.Limits.{HasPrintedLines, BlockMayNotFit};

    ghost has_taken = { λ _ first now lines. (now.plan ≡ first.plan)
        × HasPrintedLines first.plan.limit (W.contents first.writer) (W.contents now.writer) lines
        now.catalog };

    ghost leaves = { λ first now block. BlockMayNotFit first.plan.limit now.catalog block };

    ghost refuses = { λ _ told lines. IsTooMuch told lines ⊎ (told ≡ fault.Write) };

    fn take<R: Threads + Sync + Wait>(
        self,
        rt: &R,
        alloc: Global,
        block: &[u8],
        lines: usize,
    ) -> Result<(Self, bool), ProgramFault> {
        let bytes = block.len();
        let load = Load { lines, bytes };
        let mut printed = self;
        let limit = printed.plan.limit;
        if !printed.catalog.make_room_within(alloc, limit, load)? {
            return Ok((printed, false));
        }
        let known = printed.catalog.len();
        printed
            .catalog
            .enter(rt, alloc, block, printed.plan.workers)?;
        write_from(alloc, &printed.catalog, known, &mut printed.writer)?;
        Ok((printed, true))
    }
}

/// Writes each line of an input where it comes first, and no line twice. Under a limit it ends before a
/// block of lines that might not fit. It is refused for more distinct lines than any map has room for,
/// for 2^64 lines, where memory is, and where the reader or the writer fails.
pub(crate) fn print_once<R, I, W>(
    rt: &R,
    alloc: Global,
    plan: LinePlan,
    reader: &mut I,
    writer: W,
) -> Result<(Printed<W>, Taken), ProgramFault>
where
    R: Threads + Sync + Wait + Eprint,
    I: Read,
    W: Write + Drop,
    ensures whole { IfOk result (λ printed. IsTrue printed.1.is_whole
        → IfSome (I.remaining reader.old) (λ input.
        Appends (W.contents writer) (W.contents printed.0.writer)
        (text_of_lines (distinct (lines_in input))))) }
    ensures first { IfOk result (λ printed. IfSome (I.remaining reader.old) (λ input.
        HasPrintedFirst input printed.1.lines (W.contents writer) (W.contents printed.0.writer))) }
    ensures unlimited { plan.limit ≡ None → IfOk result (λ printed. IsTrue printed.1.is_whole) }
    ensures kept { IfOk result (λ printed.
        KeepsTo plan.limit printed.1.lines printed.0.catalog) }
    ensures full { IfOk result (λ printed. printed.1.is_whole ≡ false
        → IfSome plan.limit (λ limit. IfSome (I.remaining reader.old) (λ input.
        LinesMayNotFit limit input printed.1.lines printed.0.catalog))) }
    ensures errors { IfErr result (λ told. IsReadFault told ⊎ IsNoRoom told
        ⊎ (told ≡ fault.TooOften) ⊎ (told ≡ fault.Write)) }
    ensures too_many { result ≡ Err fault.FullOfLines → IfSome (I.remaining reader.old) (λ input.
        MOST_KEYS < length (distinct (lines_in input))) }
    ensures too_often { result ≡ Err fault.TooOften → IfSome (I.remaining reader.old) (λ input.
        2 ^ 64 ≤ length (lines_in input)) }
{
    let catalog = Catalog::open(alloc, plan.hashing, plan.first_room(), plan.limit)?;
    let printed = Printed {
        plan,
        catalog,
        writer,
    };
    take_lines(rt, alloc, plan.ahead(), plan.progress, reader, printed)
}

/// Writes the lines of a catalog from one on, each with a newline, at once.
fn write_from<W: Write>(
    alloc: Global,
    catalog: &Catalog,
    first: usize,
    writer: &mut W,
) -> Result<(), ProgramFault>
    ensures wrote { OnOk result (Appends (W.contents writer.old) (W.contents writer.new)
        (text_of_lines (drop first catalog.now.texts))) }
    ensures errors { IfErr result (λ told. (told ≡ fault.OutOfMemory) ⊎ (told ≡ fault.Write)) }
{
    let text = catalog.text_from(alloc, first)?;
    if writer.write_all(text.as_slice()).is_err() || writer.flush().is_err() {
        return Err(ProgramFault::Write);
    }
    Ok(())
}
