//! How often each line comes.
ghost use Rattle.std.specs.Bool.{OnFalse, OnTrue};
ghost use Rattle.std.specs.Prelude.{◌≡◌, ◌+◌, ◌*◌, ◌^◌, ◌<◌, ◌≤◌, ◌++◌, ◌==◌, ◌⊎◌, ℕ, Contains, List, [], IfErr, IfOk, IsOk, IsOkUnless, OnErr, OnOk, count_by, length, max, min, slice_index};
ghost use Rattle.nb_core.specs.declared.shapes.TheConstants.{MOST_KEYS};
ghost use Rattle.nb_lines.specs.declared.faults.ProgramFault.TheVariants as fault;
ghost use Rattle.nb_map.specs.Handles.{IsWhole};
ghost use Rattle.nb_texts.specs.Catalogs.{IsNoRoom};
ghost use Rattle.nb_texts.specs.Lines.{HaveGrownBy, lines_in, with_new_lines};
ghost use Rattle.nb_texts.specs.Memory.{lines_with, widened};
ghost use Rattle.nb_texts.specs.Tallies.{ComesTooOften, IsTally};

use crate::catalog::Catalog;
use crate::memory::{Load, MemoryLimit};
use nb_lines::ProgramFault;
use std::alloc::Global;
use std::sync::Wait;
use std::thread::Threads;

/// How many bytes a tally keeps for a line beside its own: its place, its count, and its row.
pub const TALLY_EACH: usize = 56;

/// A line, with how often it came, and how many others came first before it.
#[derive(Clone, Copy, PartialEq, Eq, PartialOrd, Ord)]
pub struct Row<'a> {
    pub line: &'a [u8],
    pub times: u64,
    pub place: usize,
}

/// The distinct lines of what was entered, in the order of their first coming, each with how often it
/// came.
#[derive(Drop)]
pub struct LineTally {
    pub(crate) catalog: Catalog,
    pub(crate) counts: Vec<u64>,
}

impl LineTally {
    ghost use Rattle.nb_texts.specs.Catalogs.{IsAtRest};
    ghost use Rattle.nb_texts.specs.Memory.{TellsWhetherFits};
    ghost use Rattle.nb_texts.specs.Rows.{AreRowsOf};

    /// Nothing was entered in a catalog that has no lines.
    pub fn new(alloc: Global, catalog: Catalog) -> LineTally
        ensures catalog { result.catalog ≡ catalog }
        ensures counts { result.counts.items ≡ [] }
    {
        LineTally {
            catalog,
            counts: Vec::new(alloc),
        }
    }

    /// Whether there are no lines.
    pub fn is_empty(&self) -> bool
        ensures { result ≡ (length self.now.catalog.texts == 0) }
    {
        self.catalog.len() == 0
    }

    /// The lines, in the order of their first coming.
    pub fn rows(&self, alloc: Global) -> Result<Vec<Row<'_>>, ProgramFault>
        requires { length self.now.counts.items ≡ length self.now.catalog.texts }
        ensures rows { IfOk result (λ rows.
            AreRowsOf self.now.catalog.texts self.now.counts.items rows.items) }
        ensures errors { IsOkUnless result fault.OutOfMemory }
    {
        let mut rows = Vec::with_capacity(alloc, self.counts.len())?;
        for (place, times) in self.counts.iter().enumerate() {
            let Some(line) = self.catalog.get(place) else {
                unreachable!();
            };
            let times = *times;
            rows.push(Row { line, times, place })?;
        }
        Ok(rows)
    }

    /// Makes room for a block of new lines, and answers whether they fit within a limit:
    /// [`Catalog::make_room_within`].
    pub fn make_room_within(
        &mut self,
        alloc: Global,
        limit: Option<MemoryLimit>,
        block: Load,
    ) -> Result<bool, ProgramFault>
        requires rest { IsAtRest self.old.catalog }
        ensures rest { OnOk result (IsAtRest self.new.catalog) }
        ensures room { IfOk result (λ fits. OnTrue fits
            (min (length self.new.catalog.texts + block.lines) MOST_KEYS ≤ self.new.catalog.room)) }
        ensures wide { OnOk result (self.new.catalog.room
            ≤ max self.old.catalog.room (2 * (length self.old.catalog.texts + block.lines))) }
        ensures wider { IfOk result (λ fits. OnTrue fits
            (self.old.catalog.room < lines_with self.old.catalog block
            → widened (lines_with self.old.catalog block) ≤ self.new.catalog.room)) }
        ensures enough { min (length self.old.catalog.texts + block.lines) MOST_KEYS
            ≤ self.old.catalog.room → IsOk result × (self.new.catalog ≡ self.old.catalog) }
        ensures texts { self.new.catalog.texts ≡ self.old.catalog.texts }
        ensures hashing { self.new.catalog.hashing ≡ self.old.catalog.hashing }
        ensures counts { self.new.counts ≡ self.old.counts }
        ensures fits { IfOk result (TellsWhetherFits limit self.new.catalog block) }
        ensures back { IfOk result (λ fits. OnFalse fits (self.new.catalog ≡ self.old.catalog)) }
        ensures errors { IfErr result IsNoRoom }
        ensures full { result ≡ Err fault.FullOfLines → MOST_KEYS < length self.old.catalog.texts }
    {
        self.catalog.make_room_within(alloc, limit, block)
    }

    /// Enters the lines of a block, counts them, and answers how many there are. Several workers hash
    /// them. For each line that isn't there yet the catalog needs room: [`Catalog::enter`].
    pub fn enter<R: Threads + Sync + Wait>(
        &mut self,
        rt: &R,
        alloc: Global,
        block: &[u8],
        workers: usize,
    ) -> Result<usize, ProgramFault>
        requires rest { IsAtRest self.old.catalog }
        ensures rest { OnOk result (IsAtRest self.new.catalog) }
        ensures lines { IfOk result (λ lines. lines ≡ length (lines_in block.now)) }
        ensures texts { OnOk result (self.new.catalog.texts
            ≡ with_new_lines self.old.catalog.texts (lines_in block.now)) }
        ensures map { self.new.catalog.handle.map ≡ self.old.catalog.handle.map }
        ensures whole { IsWhole self.new.catalog.handle }
        ensures room { self.new.catalog.room ≡ self.old.catalog.room }
        ensures hashing { self.new.catalog.hashing ≡ self.old.catalog.hashing }
        ensures tally { OnOk result ((lines : List (List ℕ))
            → IsTally lines self.old.catalog.texts self.old.counts.items
            → IsTally (lines ++ lines_in block.now) self.new.catalog.texts
            self.new.counts.items) }
        ensures grown { HaveGrownBy (lines_in block.now) self.old.catalog.texts
            self.new.catalog.texts }
        ensures errors { IfErr result (λ told. IsNoRoom told ⊎ (told ≡ fault.TooOften)) }
        ensures full { result ≡ Err fault.FullOfLines → self.old.catalog.room
            < length (with_new_lines self.old.catalog.texts (lines_in block.now)) }
        ensures often { result ≡ Err fault.TooOften → (lines : List (List ℕ))
            → IsTally lines self.old.catalog.texts self.old.counts.items
            → ComesTooOften lines (lines_in block.now) }
    {
        let places = self.catalog.enter(rt, alloc, block, workers)?;
        let many = self.catalog.len();
        pad(&mut self.counts, many)?;
        count(&mut self.counts, places.as_slice())?;
        Ok(places.len())
    }
}

/// Makes counts so many, of which those that are new are 0. There must not be more.
fn pad(counts: &mut Vec<u64>, many: usize) -> Result<(), ProgramFault>
    ensures many { OnOk result (length counts.new.items ≡ many) }
    ensures same { OnOk result ((q : ℕ)
        → slice_index counts.new.items q ≡ slice_index counts.old.items q) }
    ensures errors { IfErr result (λ told. (told ≡ fault.OutOfMemory) ⊎ (told ≡ fault.TooOften)) }
    ensures long { result ≡ Err fault.TooOften → many < length counts.old.items }
{
    if counts.len() > many {
        return Err(ProgramFault::TooOften);
    }
    while counts.len() < many {
        counts.push(0)?;
    }
    Ok(())
}

/// Counts each of these places once.
fn count(counts: &mut Vec<u64>, places: &[usize]) -> Result<(), ProgramFault>
    ensures many { length counts.new.items ≡ length counts.old.items }
    ensures counted { OnOk result ((q : ℕ) → q < length counts.new.items
        → slice_index counts.new.items q
        ≡ slice_index counts.old.items q + count_by (λ place. place == q) places.now) }
    ensures errors { IsOkUnless result fault.TooOften }
    ensures often { OnErr result ((q : ℕ) × Contains places.now q × (q < length counts.old.items
        → 2 ^ 64 ≤ slice_index counts.old.items q + count_by (λ place. place == q) places.now)) }
{
    for place in places {
        if *place >= counts.len() {
            return Err(ProgramFault::TooOften);
        }
        if counts[*place] == u64::MAX {
            return Err(ProgramFault::TooOften);
        }
        counts[*place] += 1;
    }
    Ok(())
}
