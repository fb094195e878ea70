//! Forgetting the rarest lines of a tally, so that there is memory for others.
ghost use Rattle.std.specs.List.{filter};
ghost use Rattle.std.specs.Prelude.{◌≡◌, ◌*◌, ◌<◌, ◌≤◌, ◌++◌, ◌∷◌, ◌↔◌, [], ℕ, IfErr, IfOk, IsTrue, List, OnOk, if◌then◌else◌, length, map, min, nat_lt};
ghost use Rattle.nb_core.specs.declared.shapes.TheConstants.{MOST_KEYS};
ghost use Rattle.nb_lines.specs.declared.faults.ProgramFault.TheVariants as fault;
ghost use Rattle.nb_texts.specs.Catalogs.{IsAtRest, IsNoRoom};
ghost use Rattle.nb_texts.specs.Forgetting.{IsMiddle, lines_above};
ghost use Rattle.nb_texts.specs.Lines.{lines_in, text_of_lines, with_new_lines};
ghost use Rattle.nb_texts.specs.Tallies.{IsTally};

use crate::catalog::Catalog;
use crate::memory::{Load, MemoryLimit, left_beside};
use crate::plan::LinePlan;
use crate::tally::LineTally;
use nb_core::OutOfMemory;
use nb_lines::ProgramFault;
use std::alloc::Global;
use std::sync::Wait;
use std::thread::Threads;

/// A tally whose rarest lines were forgotten.
#[derive(Drop)]
pub struct Forgotten {
    pub tally: LineTally,
    /// The lines that came no more often than this are forgotten.
    pub cut: u64,
}

/// Lines that are kept of a tally: each with a newline, and their counts.
#[derive(Drop)]
struct Kept {
    text: Vec<u8>,
    counts: Vec<u64>,
}

impl Kept {
    /// Keeps a line which came so often, if that is more than the cut.
    fn keep(&mut self, cut: u64, line: &[u8], times: u64) -> Result<(), OutOfMemory>
        ensures text { OnOk result (self.new.text.items ≡ self.old.text.items
            ++ (if nat_lt cut times then line.now ++ 10 ∷ [] else [])) }
        ensures counts { OnOk result (self.new.counts.items ≡ self.old.counts.items
            ++ (if nat_lt cut times then times ∷ [] else [])) }
    {
        if cut >= times {
            return Ok(());
        }
        self.text.extend_from_slice(line)?;
        self.text.push(b'\n')?;
        self.counts.push(times)?;
        Ok(())
    }
}

impl LineTally {
    ghost use Rattle.nb_texts.specs.Catalogs.{IsAtRest};
    ghost use Rattle.nb_texts.specs.Forgetting.{AreLines, FitsAlone, IsTallyOfSome};

    /// Whether a block of new lines fits within a limit beside the map, once all lines are forgotten.
    pub fn fits_alone(&self, limit: MemoryLimit, block: Load) -> bool
        ensures { IsTrue result ↔ FitsAlone limit self.now.catalog block }
    {
        if block.lines > self.catalog.room {
            return false;
        }
        let nothing = Load { lines: 0, bytes: 0 };
        let words = self.catalog.handle.shape().words();
        left_beside(limit, nothing, block, words).is_some()
    }

    /// Forgets the lines whose count is no more than the middle one, which are half of them or more.
    /// The others keep their order and their counts. The map keeps its size. For a while there is a
    /// copy of the lines that are kept.
    pub fn forget<R: Threads + Sync + Wait>(
        self,
        rt: &R,
        alloc: Global,
        plan: LinePlan,
    ) -> Result<Forgotten, ProgramFault>
        requires lines { AreLines self.catalog.texts }
        requires tally { IsTallyOfSome self.catalog.texts self.counts.items }
        ensures rest { IfOk result (λ forgotten. IsAtRest forgotten.tally.catalog) }
        ensures lines { IfOk result (λ forgotten. AreLines forgotten.tally.catalog.texts) }
        ensures room { IfOk result (λ forgotten.
            forgotten.tally.catalog.room ≡ min self.catalog.room MOST_KEYS) }
        ensures hashing { IfOk result (λ forgotten.
            forgotten.tally.catalog.hashing ≡ plan.hashing) }
        ensures half { IfOk result (λ forgotten.
            2 * length forgotten.tally.catalog.texts ≤ length self.catalog.texts) }
        ensures cut { IfOk result (λ forgotten. IsMiddle self.counts.items forgotten.cut) }
        ensures tally { IfOk result (λ forgotten. (lines : List (List ℕ))
            → IsTally lines self.catalog.texts self.counts.items
            → IsTally (lines_above forgotten.cut lines) forgotten.tally.catalog.texts
            forgotten.tally.counts.items) }
        ensures errors { IfErr result IsNoRoom }
        ensures full { result ≡ Err fault.FullOfLines
            → min self.catalog.room MOST_KEYS < length self.catalog.texts }
    {
        let (cut, kept) = kept_of(alloc, &self)?;
        let room = self.catalog.room;
        drop(self);
        let Kept { text, counts } = kept;
        let catalog = catalog_of(rt, alloc, plan, room, text.as_slice())?;
        let tally = LineTally { catalog, counts };
        Ok(Forgotten { tally, cut })
    }
}

/// The middle one of a tally's counts, and the lines whose counts are above it.
fn kept_of(alloc: Global, tally: &LineTally) -> Result<(u64, Kept), OutOfMemory>
    requires many { length tally.now.counts.items ≡ length tally.now.catalog.texts }
    ensures cut { IfOk result (λ of. IsMiddle tally.now.counts.items of.0) }
    ensures text { IfOk result (λ of. (times : List ℕ → ℕ)
        → tally.now.counts.items ≡ map times tally.now.catalog.texts
        → of.1.text.items
        ≡ text_of_lines (filter (λ line. nat_lt of.0 (times line)) tally.now.catalog.texts)) }
    ensures counts { IfOk result (λ of. (times : List ℕ → ℕ)
        → tally.now.counts.items ≡ map times tally.now.catalog.texts
        → of.1.counts.items
        ≡ map times (filter (λ line. nat_lt of.0 (times line)) tally.now.catalog.texts)) }
{
    let cut = middle_of(alloc, tally.counts.as_slice())?;
    let kept = kept_above(alloc, tally, cut)?;
    Ok((cut, kept))
}

/// A new catalog with room for so many lines at first, of the lines of a text.
fn catalog_of<R: Threads + Sync + Wait>(
    rt: &R,
    alloc: Global,
    plan: LinePlan,
    room: usize,
    text: &[u8],
) -> Result<Catalog, ProgramFault>
    ensures rest { IfOk result IsAtRest }
    ensures lines { IfOk result (λ catalog.
        catalog.texts ≡ with_new_lines [] (lines_in text.now)) }
    ensures room { IfOk result (λ catalog. catalog.room ≡ min room MOST_KEYS) }
    ensures hashing { IfOk result (λ catalog. catalog.hashing ≡ plan.hashing) }
    ensures errors { IfErr result IsNoRoom }
    ensures full { result ≡ Err fault.FullOfLines
        → min room MOST_KEYS < length (with_new_lines [] (lines_in text.now)) }
{
    let mut catalog = Catalog::open(alloc, plan.hashing, room, plan.limit)?;
    catalog.enter(rt, alloc, text, plan.workers)?;
    Ok(catalog)
}

/// The count in the middle, if they stand in their order; 0 where there is none.
fn middle_of(alloc: Global, counts: &[u64]) -> Result<u64, OutOfMemory>
    ensures { IfOk result (IsMiddle counts.now) }
{
    let mut sorted = Vec::from_slice(alloc, counts)?;
    sorted.sort_unstable();
    if sorted.is_empty() {
        return Ok(0);
    }
    Ok(sorted[sorted.len() / 2])
}

/// The lines of a tally whose counts are above a cut.
fn kept_above(alloc: Global, tally: &LineTally, cut: u64) -> Result<Kept, OutOfMemory>
    requires many { length tally.now.counts.items ≡ length tally.now.catalog.texts }
    ensures text { IfOk result (λ kept. (times : List ℕ → ℕ)
        → tally.now.counts.items ≡ map times tally.now.catalog.texts
        → kept.text.items
        ≡ text_of_lines (filter (λ line. nat_lt cut (times line)) tally.now.catalog.texts)) }
    ensures counts { IfOk result (λ kept. (times : List ℕ → ℕ)
        → tally.now.counts.items ≡ map times tally.now.catalog.texts
        → kept.counts.items
        ≡ map times (filter (λ line. nat_lt cut (times line)) tally.now.catalog.texts)) }
{
    let bytes = tally.catalog.texts.bytes();
    let many = tally.counts.len();
    let mut kept = Kept {
        text: Vec::with_capacity(alloc, bytes.saturating_add(many))?,
        counts: Vec::with_capacity(alloc, many)?,
    };
    for (place, times) in tally.counts.iter().enumerate() {
        let Some(line) = tally.catalog.get(place) else {
            unreachable!();
        };
        kept.keep(cut, line, *times)?;
    }
    Ok(kept)
}
