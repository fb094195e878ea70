//! Copying chunks and whole tables, and counting what was copied.
ghost use Rattle.std.specs.Prelude.{
  ◌≡◌,
  ℕ,
  ◌+◌,
  ◌-◌,
  ◌*◌,
  ◌/◌,
  ◌%◌,
  ◌==◌,
  false,
  ◌<◌,
  ◌≤◌,
  suc,
  [],
  ◌∷◌,
  List,
  length,
  All,
  if◌then◌else◌,
  unwrap_or,
  IsTrue,
};
ghost use Rattle.nb_core.specs.History.{counted_by, turned_by};
ghost use Rattle.nb_core.specs.Plans.{generations_of, size_of};
ghost use Rattle.nb_core.specs.Tables.{IsComplete, IsFinished, IsInstalled, IsSlot, chunk_of};
ghost use Rattle.nb_table.specs.Chains.{IsOwn, seen_by};
ghost use Rattle.nb_copy.specs.Copying.{HasCopied};
ghost use Rattle.nb_copy.specs.Handing.{
  HasCompleted,
  HasHelped,
  IsRaised,
  adds_of,
  looks_of,
  slot_steps,
  walk_steps,
};

use crate::slots::copy_slot;
use nb_table::{Chain, ChainSeat};

/// Copies the next chunk of table `g` that nobody was handed: as many slots as the plan's chunk, or
/// the table if that is smaller. Answers how many slots its own steps turned finished, all of them
/// in the chunk. It counts just these, by one add, and raises the top word if that brings the count
/// to the size. It makes at most three steps beside those of `copy_slot` for each slot of the
/// chunk. Once all chunks are handed out it makes one step and answers 0. The idea is
/// `help_copy_impl` of high-scale-lib.
pub fn help(chain: &Chain, seat: &mut ChainSeat, g: u32) -> usize
    requires own { IsOwn chain.now seat.old }
    requires growing { IsInstalled (seen_by chain.now.shape seat.old) (suc g) }
    ensures helped { HasHelped chain.now.shape g seat.old seat.new result }
{
    copy_chunk(chain, seat, g).unwrap_or(0)
}

/// Copies the whole of table `g`, which has a next one, together with whoever copies it too. It
/// takes chunks while there are some. Unless the top word is past the table then, it goes through
/// the slots itself, so that it waits for no other thread, until it finds the top word past the
/// table, or else has gone through all of them and raises the top word. It costs at most a few steps
/// for each pair of a slot of this table and one of the next.
#[tactic(auto, using(nb_core::proofs::Theorems::linked))]
pub fn complete(chain: &Chain, seat: &mut ChainSeat, g: u32)
    requires own { IsOwn chain.now seat.old }
    requires growing { IsInstalled (seen_by chain.now.shape seat.old) (suc g) }
    ensures completed { HasCompleted chain.now.shape g seat.old seat.new }
{
    copy_chunks(chain, seat, g);
    if copy_all(chain, seat, g) {
        chain.promote(seat, g);
    }
}

/// Finishes slot `i` of table `g` as `copy_slot` does, and counts it if a step of this call turned
/// it finished: then it answers true, and has raised the top word if that brought the count to the
/// size. This takes at most two steps more.
pub fn copy_and_count(chain: &Chain, seat: &mut ChainSeat, g: u32, i: usize) -> bool
    requires own { IsOwn chain.now seat.old }
    requires slot { IsSlot chain.now.shape g i }
    requires growing { IsInstalled (seen_by chain.now.shape seat.old) (suc g) }
    ensures copied { HasCopied chain.now.shape g seat.old seat.new (if result then i ∷ [] else []) 0
        (if result then 1 else 0)
        (slot_steps chain.now.shape g + 2) }
    ensures finished { IsFinished (seen_by chain.now.shape seat.new) g i }
    ensures raised { IsTrue result → IsRaised chain.now.shape g seat.new }
{
    let turned = copy_slot(chain, seat, g, i);
    if turned {
        count(chain, seat, g, 1);
    }
    turned
}

/// Takes a chunk of table `g`, copies it and counts it, and answers how many slots its own steps
/// turned finished. `None` says that there is no chunk left.
#[tactic(auto, using(nb_core::proofs::Theorems::linked))]
fn copy_chunk(chain: &Chain, seat: &mut ChainSeat, g: u32) -> Option<usize>
    requires own { IsOwn chain.now seat.old }
    requires growing { IsInstalled (seen_by chain.now.shape seat.old) (suc g) }
    ensures helped { HasHelped chain.now.shape g seat.old seat.new (unwrap_or result 0) }
{
    let size = chain.shape().size_of(g);
    let start = chain.take_work(seat, g);
    if start >= size as u64 {
        return None;
    }
    let start = start as usize;
    let end = size.min(start + chain.shape().chunk_of(g));
    let turned = copy_slots(chain, seat, g, start, end);
    if turned > 0 {
        count(chain, seat, g, turned);
    }
    Some(turned)
}

/// Finishes the slots of table `g` from one on, up to another. Answers how many of them its own
/// steps turned. It turns no other slot, and counts nothing.
fn copy_slots(chain: &Chain, seat: &mut ChainSeat, g: u32, from: usize, to: usize) -> usize
    requires own { IsOwn chain.now seat.old }
    requires table { g < generations_of chain.now.shape }
    requires within { (from ≤ to) × (to ≤ size_of chain.now.shape g) }
    requires growing { IsInstalled (seen_by chain.now.shape seat.old) (suc g) }
    ensures copied { (slots : List ℕ) × (length slots ≡ result)
        × All (λ i. (from ≤ i) × (i < to)) slots
        × HasCopied chain.now.shape g seat.old seat.new slots 0 0
        ((to - from) * slot_steps chain.now.shape g) }
    ensures finished { (i : ℕ) → from ≤ i → i < to
        → IsFinished (seen_by chain.now.shape seat.new) g i }
{
    let mut turned = 0;
    for i in from..to {
        turned += usize::from(copy_slot(chain, seat, g, i));
    }
    turned
}

/// Counts slots of table `g` that the seat's own steps turned and that it hasn't counted yet, in
/// one add. If that brings the count to the size, it raises the top word.
fn count(chain: &Chain, seat: &mut ChainSeat, g: u32, slots: usize)
    requires own { IsOwn chain.now seat.old }
    requires table { g < generations_of chain.now.shape }
    requires some { 1 ≤ slots }
    requires turned { counted_by seat.old.seen seat.old.number g + slots
        ≤ turned_by chain.now.shape seat.old.seen seat.old.number g }
    ensures counted { HasCopied chain.now.shape g seat.old seat.new [] 0 slots 2 }
    ensures once { adds_of seat.new.seen seat.old.number g
        ≡ slots ∷ adds_of seat.old.seen seat.old.number g }
    ensures raised { IsRaised chain.now.shape g seat.new }
{
    let before = chain.count_done(seat, g, slots as u64);
    if before + slots as u64 == chain.shape().size_of(g) as u64 {
        chain.promote(seat, g);
    }
}

/// Takes and copies chunks of table `g` while there are some, at most as many as the table has.
#[tactic(auto, using(nb_core::proofs::Theorems::linked))]
fn copy_chunks(chain: &Chain, seat: &mut ChainSeat, g: u32)
    requires own { IsOwn chain.now seat.old }
    requires growing { IsInstalled (seen_by chain.now.shape seat.old) (suc g) }
    ensures copied { (slots : List ℕ) × (chunks : ℕ) × (most : ℕ)
        × (chunks ≤ size_of chain.now.shape g / chunk_of chain.now.shape g)
        × (most + looks_of (size_of chain.now.shape g)
        ≤ size_of chain.now.shape g * (slot_steps chain.now.shape g + 1))
        × HasCopied chain.now.shape g seat.old seat.new slots chunks (length slots) most }
{
    let chunks = chain.shape().chunks_of(g);
    for _taken in 0..chunks {
        if copy_chunk(chain, seat, g).is_none() {
            return;
        }
    }
}

/// How many slots a copier of a whole table goes through before it looks at the top word again.
const LOOK: usize = 64;

/// Finishes every slot of table `g`, and counts each one that its own steps turned, until it finds
/// the top word past the table: then all its slots are finished. It looks before it begins, and
/// again after each `LOOK` slots. Answers whether it has gone through every slot.
fn copy_all(chain: &Chain, seat: &mut ChainSeat, g: u32) -> bool
    requires own { IsOwn chain.now seat.old }
    requires table { g < generations_of chain.now.shape }
    requires growing { IsInstalled (seen_by chain.now.shape seat.old) (suc g) }
    ensures copied { (slots : List ℕ)
        × HasCopied chain.now.shape g seat.old seat.new slots 0 (length slots)
        (walk_steps chain.now.shape g (size_of chain.now.shape g)) }
    ensures complete { IsComplete chain.now.shape (seen_by chain.now.shape seat.new) g }
    ensures past { result ≡ false → g < (seen_by chain.now.shape seat.new).top }
{
    for i in 0..chain.shape().size_of(g) {
        if is_past(chain, seat, g, i) {
            return false;
        }
        copy_and_count(chain, seat, g, i);
    }
    true
}

/// Whether the top word was seen past table `g`, by a look before each `LOOK` slots.
#[inline]
fn is_past(chain: &Chain, seat: &mut ChainSeat, g: u32, i: usize) -> bool
    requires own { IsOwn chain.now seat.old }
    ensures copied { HasCopied chain.now.shape g seat.old seat.new [] 0 0
        (if i % LOOK == 0 then 1 else 0) }
    ensures past { IsTrue result → g < (seen_by chain.now.shape seat.new).top }
{
    i % LOOK == 0 && chain.load_top(seat) > g
}
