//! Lines, counted within a limit of memory: where some don't fit, the rarest ones are forgotten.
ghost use Rattle.std.specs.Bool.{OnFalse, OnTrue};
ghost use Rattle.std.specs.Prelude.{◌≡◌, ◌+◌, ◌*◌, ◌^◌, ◌<◌, ◌≤◌, ◌++◌, ◌⊎◌, ℕ, IfErr, IfOk, IfSome, IsOkUnless, List, OnErr, OnOk, false, length, max, min, true};
ghost use Rattle.nb_core.specs.declared.shapes.TheConstants.{MOST_KEYS};
ghost use Rattle.nb_lines.specs.declared.faults.ProgramFault.TheVariants as fault;
ghost use Rattle.nb_texts.specs.Catalogs.{IsNoRoom};
ghost use Rattle.nb_texts.specs.Forgetting.{FitsAlone};
ghost use Rattle.nb_texts.specs.Lines.{lines_in, with_new_lines};
ghost use Rattle.nb_texts.specs.Memory.{TellsWhetherFits};
ghost use Rattle.nb_tally.specs.Counted.{ahead_for};
ghost use Rattle.nb_tally.specs.Forgotten.{CanForget, HasTalliedMore, HasForgotten, HasCutFor, HasRoomForLines, IsAlike, IsNarrow, KeepsTold, Tells, with_cut};

use nb_lines::ProgramFault;
use nb_texts::{Forgotten, LinePlan, LineTally, Load};
use std::alloc::Global;
use std::sync::Wait;
use std::thread::Threads;

/// For so many bytes of a limit one is asked for at once, so that what comes fits beside the map.
const BYTES_OF_BLOCK: usize = 512;

/// What is missed of lines that were forgotten.
#[derive(Clone, Copy)]
pub(crate) struct Missed {
    /// How many times a line may have come beyond its count.
    pub(crate) times: u64,
    /// How often lines were forgotten.
    pub(crate) cuts: u64,
}

impl Missed {
    pub(crate) const NOTHING: Missed = Missed { times: 0, cuts: 0 };

    /// Lines that came no more often than this were forgotten.
    fn with(self, cut: u64) -> Result<Missed, ProgramFault>
        ensures more { IfOk result (λ missed. missed ≡ with_cut cut self) }
        ensures range { OnErr result (2 ^ 64 ≤ self.times + cut) }
        ensures errors { IsOkUnless result fault.TooOften }
    {
        match self.times.checked_add(cut) {
            Some(times) => Ok(Missed {
                times,
                cuts: self.cuts.saturating_add(1),
            }),
            None => Err(ProgramFault::TooOften),
        }
    }
}

/// A tally of which the rarest lines may have been forgotten.
#[derive(Drop)]
pub(crate) struct RoughTally {
    pub(crate) tally: LineTally,
    pub(crate) missed: Missed,
}

impl RoughTally {
    /// Enters the lines of a block.
    pub(crate) fn enter<R: Threads + Sync + Wait>(
        &mut self,
        rt: &R,
        alloc: Global,
        block: &[u8],
        workers: usize,
    ) -> Result<(), ProgramFault>
        requires ready { CanForget self.old }
        ensures ready { OnOk result (CanForget self.new) }
        ensures told { OnOk result ((lines : List (List ℕ)) → Tells self.old lines
            → Tells self.new (lines ++ lines_in block.now)) }
        ensures counted { OnOk result (HasTalliedMore (lines_in block.now) self.old self.new) }
        ensures texts { OnOk result (self.new.tally.catalog.texts
            ≡ with_new_lines self.old.tally.catalog.texts (lines_in block.now)) }
        ensures map { OnOk result (self.new.tally.catalog.handle.map
            ≡ self.old.tally.catalog.handle.map) }
        ensures room { self.new.tally.catalog.room ≡ self.old.tally.catalog.room }
        ensures missed { self.new.missed ≡ self.old.missed }
        ensures errors { IfErr result (λ told. IsNoRoom told ⊎ (told ≡ fault.TooOften)) }
        ensures full { result ≡ Err fault.FullOfLines → self.old.tally.catalog.room
            < length (with_new_lines self.old.tally.catalog.texts (lines_in block.now)) }
        ensures often { result ≡ Err fault.TooOften → (lines : List (List ℕ))
            → Tells self.old lines → 2 ^ 64 ≤ length (lines ++ lines_in block.now) }
    {
        self.tally.enter(rt, alloc, block, workers)?;
        Ok(())
    }

    /// Forgets the rarest lines: [`LineTally::forget`].
    fn forget<R: Threads + Sync + Wait>(
        self,
        rt: &R,
        alloc: Global,
        plan: LinePlan,
    ) -> Result<RoughTally, ProgramFault>
        requires ready { CanForget self }
        ensures ready { IfOk result CanForget }
        ensures told { IfOk result (KeepsTold self) }
        ensures cut { IfOk result (HasForgotten self) }
        ensures room { IfOk result (λ rough.
            rough.tally.catalog.room ≡ min self.tally.catalog.room MOST_KEYS) }
        ensures half { IfOk result (λ rough.
            2 * length rough.tally.catalog.texts ≤ length self.tally.catalog.texts) }
        ensures errors { IfErr result (λ told. IsNoRoom told ⊎ (told ≡ fault.TooOften)) }
        ensures full { result ≡ Err fault.FullOfLines
            → min self.tally.catalog.room MOST_KEYS < length self.tally.catalog.texts }
        ensures often { result ≡ Err fault.TooOften → (lines : List (List ℕ))
            → Tells self lines → 2 ^ 64 ≤ length lines }
    {
        let RoughTally { tally, missed } = self;
        let Forgotten { tally, cut } = tally.forget(rt, alloc, plan)?;
        let missed = missed.with(cut)?;
        Ok(RoughTally { tally, missed })
    }
}

/// A tally with or without room for a block.
#[derive(Drop)]
pub(crate) struct Offer {
    pub(crate) made: RoughTally,
    pub(crate) fits: bool,
}

/// Makes room for a block of new lines, and tells whether it fits within the limit. Where it doesn't,
/// the rarest lines are forgotten until it does, if they may be; but none are if it wouldn't even fit
/// alone.
pub(crate) fn make_room<R: Threads + Sync + Wait>(
    rt: &R,
    alloc: Global,
    plan: LinePlan,
    forgets: bool,
    rough: RoughTally,
    block: Load,
) -> Result<Offer, ProgramFault>
    requires ready { CanForget rough }
    ensures ready { IfOk result (λ offer. CanForget offer.made) }
    ensures told { IfOk result (λ offer. KeepsTold rough offer.made) }
    ensures fits { IfOk result (λ offer. OnTrue offer.fits
        (TellsWhetherFits plan.limit offer.made.tally.catalog block true)) }
    ensures back { IfOk result (λ offer. OnFalse offer.fits
        (offer.made.tally.catalog ≡ rough.tally.catalog)) }
    ensures alike { IfOk result (λ offer. OnFalse offer.fits (IsAlike rough offer.made)) }
    ensures exact { forgets ≡ false → IfOk result (λ offer. IsAlike rough offer.made) }
    ensures never { forgets ≡ true → IfOk result (λ offer. OnFalse offer.fits
        (IfSome plan.limit (λ limit. FitsAlone limit rough.tally.catalog block → ⊥))) }
    ensures needed { IfOk result (λ offer. (offer.fits ≡ true) × (offer.made.missed ≡ rough.missed)
        ⊎ TellsWhetherFits plan.limit rough.tally.catalog block false) }
    ensures made { IfOk result (λ offer. (most : ℕ) → IsNarrow plan.limit most rough.tally.catalog
        → HasCutFor plan.limit most block rough offer.made) }
    ensures wide { IfOk result (λ offer. offer.made.tally.catalog.room
        ≤ max rough.tally.catalog.room (2 * (length rough.tally.catalog.texts + block.lines))) }
    ensures room { IfOk result (λ offer. OnTrue offer.fits
        (HasRoomForLines (length offer.made.tally.catalog.texts + block.lines) offer.made.tally.catalog)) }
    ensures errors { IfErr result (λ told. IsNoRoom told ⊎ (told ≡ fault.TooOften)) }
    ensures full { result ≡ Err fault.FullOfLines
        → HasRoomForLines (length rough.tally.catalog.texts) rough.tally.catalog
        → MOST_KEYS < length rough.tally.catalog.texts }
    ensures often { result ≡ Err fault.TooOften → (lines : List (List ℕ)) → Tells rough lines
        → 2 ^ 64 ≤ length lines }
{
    let mut made = rough;
    if made.tally.make_room_within(alloc, plan.limit, block)? {
        return Ok(Offer { made, fits: true });
    }
    let Some(limit) = plan.limit else {
        unreachable!();
    };
    if !forgets || !made.tally.fits_alone(limit, block) {
        return Ok(Offer { made, fits: false });
    }
    let made = forget_for(rt, alloc, plan, made, block)?;
    Ok(Offer { made, fits: true })
}

/// Forgets the rarest lines until a block of new lines fits within the limit. Each time half of the
/// lines go, or more.
fn forget_for<R: Threads + Sync + Wait>(
    rt: &R,
    alloc: Global,
    plan: LinePlan,
    rough: RoughTally,
    block: Load,
) -> Result<RoughTally, ProgramFault>
    requires ready { CanForget rough }
    requires over { TellsWhetherFits plan.limit rough.tally.catalog block false }
    requires alone { IfSome plan.limit (λ limit. FitsAlone limit rough.tally.catalog block) }
    ensures ready { IfOk result CanForget }
    ensures told { IfOk result (KeepsTold rough) }
    ensures fits { IfOk result (λ left.
        TellsWhetherFits plan.limit left.tally.catalog block true) }
    ensures made { IfOk result (λ left. (most : ℕ) → IsNarrow plan.limit most rough.tally.catalog
        → HasCutFor plan.limit most block rough left) }
    ensures wide { IfOk result (λ left. left.tally.catalog.room
        ≤ max rough.tally.catalog.room (2 * (length rough.tally.catalog.texts + block.lines))) }
    ensures room { IfOk result (λ left.
        HasRoomForLines (length left.tally.catalog.texts + block.lines) left.tally.catalog) }
    ensures errors { IfErr result (λ told. IsNoRoom told ⊎ (told ≡ fault.TooOften)) }
    ensures full { result ≡ Err fault.FullOfLines
        → HasRoomForLines (length rough.tally.catalog.texts) rough.tally.catalog
        → MOST_KEYS < length rough.tally.catalog.texts }
    ensures often { result ≡ Err fault.TooOften → (lines : List (List ℕ)) → Tells rough lines
        → 2 ^ 64 ≤ length lines }
{
    let mut left = rough;
    while !left.tally.is_empty() {
        left = left.forget(rt, alloc, plan)?;
        if left.tally.make_room_within(alloc, plan.limit, block)? {
            return Ok(left);
        }
    }
    unreachable!()
}

/// How many bytes are asked for at once.
pub(crate) fn ahead_of(plan: LinePlan, forgets: bool) -> usize
    ensures asked { result ≡ ahead_for forgets plan.limit }
    ensures some { 1 ≤ result }
{
    match plan.limit {
        Some(limit) if forgets => plan.ahead().min(limit.bytes / BYTES_OF_BLOCK).max(1),
        _ => plan.ahead(),
    }
}
