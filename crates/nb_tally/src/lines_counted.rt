//! Lines, counted block after block.
ghost use Rattle.std.specs.Prelude.{◌≡◌, IfErr, IfOk, false};
ghost use Rattle.nb_texts.specs.Taking.{HasLeft, HasTakenLines, IsEndedBy, IsTooMuch};
ghost use Rattle.nb_tally.specs.Counted.{HasCountedBlocks, IsLeftOut, ahead_for};
ghost use Rattle.nb_tally.specs.Fields.{counted_of};

use crate::fields::{Column, counted_in};
use crate::lines_forgotten::{Missed, Offer, RoughTally, ahead_of, make_room};
use nb_lines::ProgramFault;
use nb_texts::{Catalog, LinePlan, LineTally, Load, Taken, TakesLines, take_lines};
use std::alloc::Global;
use std::io::Read;
use std::sync::Wait;
use std::thread::Threads;

/// Lines that were counted or, of a column of them, fields.
#[derive(Drop)]
pub(crate) struct Counted {
    pub(crate) plan: LinePlan,
    pub(crate) column: Option<Column>,
    /// Whether the rarest may be forgotten.
    pub(crate) forgets: bool,
    pub(crate) rough: RoughTally,
}

impl TakesLines for Counted {
    ghost has_taken = { λ ahead first now lines. (now.plan ≡ first.plan)
        × (now.column ≡ first.column) × (now.forgets ≡ first.forgets)
        × HasCountedBlocks ahead first.column first.plan.limit first.forgets now.rough lines };

    ghost leaves = { λ first now block.
        IsLeftOut first.column first.plan.limit first.forgets now.rough.tally.catalog block };

    ghost refuses = { λ first told lines. IsTooMuch told (counted_of first.column lines) };

    fn take<R: Threads + Sync + Wait>(
        self,
        rt: &R,
        alloc: Global,
        block: &[u8],
        lines: usize,
    ) -> Result<(Self, bool), ProgramFault> {
        let mut counted = self;
        let mut fields = Vec::new(alloc);
        let text = counted_in(counted.column, block, &mut fields)?;
        let bytes = text.len();
        let load = Load { lines, bytes };
        let (plan, forgets) = (counted.plan, counted.forgets);
        let Offer { made, fits } = make_room(rt, alloc, plan, forgets, counted.rough, load)?;
        counted.rough = made;
        if !fits {
            return Ok((counted, false));
        }
        counted.rough.enter(rt, alloc, text, plan.workers)?;
        Ok((counted, true))
    }
}

/// Each distinct line of an input or, of a column of it, each distinct field, with how often it comes.
/// Under a limit it ends before a block of lines that might not fit; or the rarest ones are forgotten
/// then, and it ends before a block that wouldn't even fit alone. It is refused for more distinct ones
/// than any map has room for, for 2^64 lines, where memory is, and where the reader fails.
pub(crate) fn count_lines<R, I>(
    rt: &R,
    alloc: Global,
    plan: LinePlan,
    column: Option<Column>,
    forgets: bool,
    reader: &mut I,
) -> Result<(Counted, Taken), ProgramFault>
where
    R: Threads + Sync + Wait + Eprint,
    I: Read,
    ensures taken { IfOk result (λ done. HasTakenLines (I.remaining reader.old) done.1
        (HasCountedBlocks (ahead_for forgets plan.limit) column plan.limit forgets done.0.rough)) }
    ensures left { IfOk result (λ done. done.1.is_whole ≡ false
        → HasLeft (ahead_for forgets plan.limit) (I.remaining reader.old) done.1.lines
        (IsLeftOut column plan.limit forgets done.0.rough.tally.catalog)) }
    ensures refused { IfErr result (IsEndedBy (I.remaining reader.old)
        (λ told lines. IsTooMuch told (counted_of column lines))) }
{
    let catalog = Catalog::open(alloc, plan.hashing, plan.first_room(), plan.limit)?;
    let tally = LineTally::new(alloc, catalog);
    let counted = Counted {
        plan,
        column,
        forgets,
        rough: RoughTally {
            tally,
            missed: Missed::NOTHING,
        },
    };
    let ahead = ahead_of(plan, forgets);
    take_lines(rt, alloc, ahead, plan.progress, reader, counted)
}
