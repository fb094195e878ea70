//! The lines of an input, taken block after block.
ghost use Rattle.std.specs.Bool.{OnFalse, OnTrue};
ghost use Rattle.std.specs.Prelude.{◌≡◌, ◌≤◌, ◌++◌, ℕ, IfErr, IfOk, List, [], false, length};
ghost use Rattle.std.specs.Thread.{IsSync};
ghost use Rattle.nb_lines.specs.declared.faults.ProgramFault.{ProgramFault};
ghost use Rattle.nb_texts.specs.Lines.{lines_in};
ghost use Rattle.nb_texts.specs.Sources.{IsBlock};
ghost use Rattle.nb_texts.specs.Taking.{HasLeft, HasTakenLines, IsEndedBy};

use crate::memory::Taken;
use crate::source::LineSource;
use nb_lines::{Done, ProgramFault, ProgressMeter};
use std::alloc::Global;
use std::io::Read;
use std::sync::Wait;
use std::thread::Threads;

/// What takes the lines of an input.
pub trait TakesLines: Sized {
    /// Where so many bytes are asked for at once, the first has become the second by taking these
    /// lines.
    ghost has_taken: { ℕ → Self → Self → List (List ℕ) → Type 0 };

    /// What the first has become leaves this block.
    ghost leaves: { Self → Self → List ℕ → Type 0 };

    /// The first is refused these lines, for this.
    ghost refuses: { Self → ProgramFault → List (List ℕ) → Type 0 };

    /// Takes a block, which has so many lines, and answers whether it did. If not, it leaves it, and is
    /// as far as before.
    fn take<R: Threads + Sync + Wait>(
        self,
        rt: &R,
        alloc: Global,
        block: &[u8],
        lines: usize,
    ) -> Result<(Self, bool), ProgramFault>
        requires sync { IsSync R.row }
        requires ready { (ahead : ℕ) × (first : Self) × (taken : List (List ℕ))
            × has_taken ahead first self taken }
        requires lines { lines ≡ length (lines_in block.now) }
        ensures taken { IfOk result (λ done. OnTrue done.1 ((ahead : ℕ) (first : Self)
            (taken : List (List ℕ)) → IsBlock ahead block.now → has_taken ahead first self taken
            → has_taken ahead first done.0 (taken ++ lines_in block.now))) }
        ensures left { IfOk result (λ done. OnFalse done.1 ((ahead : ℕ) (first : Self)
            (taken : List (List ℕ)) → has_taken ahead first self taken
            → has_taken ahead first done.0 taken × leaves first done.0 block.now)) }
        ensures refused { IfErr result (λ told. (ahead : ℕ) (first : Self)
            (taken more : List (List ℕ)) → has_taken ahead first self taken
            → refuses first told (taken ++ (lines_in block.now ++ more))) };
}

/// Takes the lines of an input, block after block, as they come: until the input ends, or the taker
/// leaves a block. So many bytes are asked for at once.
pub fn take_lines<R, I, T>(
    rt: &R,
    alloc: Global,
    ahead: usize,
    progress: ProgressMeter,
    reader: &mut I,
    taker: T,
) -> Result<(T, Taken), ProgramFault>
where
    R: Threads + Sync + Wait + Eprint,
    I: Read,
    T: TakesLines + Drop,
    requires begun { T.has_taken ahead taker taker [] }
    requires some { 1 ≤ ahead }
    ensures taken { IfOk result (λ done.
        HasTakenLines (I.remaining reader.old) done.1 (T.has_taken ahead taker done.0)) }
    ensures left { IfOk result (λ done. done.1.is_whole ≡ false
        → HasLeft ahead (I.remaining reader.old) done.1.lines (T.leaves taker done.0)) }
    ensures refused { IfErr result (IsEndedBy (I.remaining reader.old) (T.refuses taker)) }
{
    let mut source = LineSource::new(alloc, ahead)?;
    take_from(rt, alloc, &mut source, progress, reader, taker)
}

/// Takes the lines of an input: [`take_lines`]. What is read is kept in a source that has nothing yet.
fn take_from<R, I, T>(
    rt: &R,
    alloc: Global,
    source: &mut LineSource,
    progress: ProgressMeter,
    reader: &mut I,
    taker: T,
) -> Result<(T, Taken), ProgramFault>
where
    R: Threads + Sync + Wait + Eprint,
    I: Read,
    T: TakesLines + Drop,
    requires begun { T.has_taken (length source.old.room.items) taker taker [] }
    requires some { 1 ≤ length source.old.room.items }
    requires rest { source.old.rest.items ≡ [] }
    ensures taken { IfOk result (λ done. HasTakenLines (I.remaining reader.old) done.1
        (T.has_taken (length source.old.room.items) taker done.0)) }
    ensures left { IfOk result (λ done. done.1.is_whole ≡ false
        → HasLeft (length source.old.room.items) (I.remaining reader.old) done.1.lines
        (T.leaves taker done.0)) }
    ensures refused { IfErr result (IsEndedBy (I.remaining reader.old) (T.refuses taker)) }
{
    let mut now = taker;
    let mut taken = Taken::NOTHING;
    let mut done = Done::NOTHING;
    for _ in rt.forever() {
        if !source.refill(rt, reader)? {
            taken.is_whole = true;
            return Ok((now, taken));
        }
        let lines = source.lines();
        let (next, is_taken) = now.take(rt, alloc, source.block(), lines)?;
        now = next;
        if !is_taken {
            return Ok((now, taken));
        }
        taken = taken.with(lines)?;
        done = source.done_with(done, lines);
        progress.tell_done(rt, done);
    }
    unreachable!()
}
