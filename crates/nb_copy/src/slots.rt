//! Copying one slot.
ghost use Rattle.std.specs.Prelude.{
  ◌≡◌,
  ◌≢◌,
  ◌+◌,
  ◌*◌,
  ◌<◌,
  suc,
  [],
  ◌∷◌,
  if◌then◌else◌,
  IfSome,
  IfNone,
};
ghost use Rattle.nb_core.specs.Tables.{IsPassed, IsPrimedOrFinished};
ghost use Rattle.nb_core.specs.Plans.{generations_of, size_of};
ghost use Rattle.nb_core.specs.Tables.{HasSlot, IsFinished, IsInstalled, IsOnPath, IsSlot};
ghost use Rattle.nb_core.specs.declared.states.KeyState.TheVariants as key_is;
ghost use Rattle.nb_table.specs.Chains.{IsOwn, seen_by};
ghost use Rattle.nb_copy.specs.Copying.{HasCopied};
ghost use Rattle.nb_copy.specs.Handing.{slot_steps};

use nb_core::{Key, KeyState, Num, ValueState};
use nb_table::{Chain, ChainSeat};

/// Finishes slot `i` of table `g`, which has a next one, whatever others do to it meanwhile: an
/// empty slot is closed, a value is primed, and a number is copied to the key's slot in the next
/// table first. Answers whether a step of this call turned the slot finished. It counts nothing. It
/// makes at most 2 n + 6 steps, where the next table has n slots. The idea is `copy_slot` of
/// high-scale-lib.
pub fn copy_slot(chain: &Chain, seat: &mut ChainSeat, g: u32, i: usize) -> bool
    requires own { IsOwn chain.now seat.old }
    requires slot { IsSlot chain.now.shape g i }
    requires growing { IsInstalled (seen_by chain.now.shape seat.old) (suc g) }
    ensures copied { HasCopied chain.now.shape g seat.old seat.new (if result then i ∷ [] else [])
        0 0
        (slot_steps chain.now.shape g) }
    ensures finished { IsFinished (seen_by chain.now.shape seat.new) g i }
{
    match key_or_close(chain, seat, g, i) {
        KeyState::Empty => true,
        KeyState::Dead => false,
        KeyState::Claimed(key) => copy_value(chain, seat, g, i, key),
    }
}

/// What the key word of a slot holds: an empty slot is closed to keys. `Empty` says that a step of
/// this call closed it.
fn key_or_close(chain: &Chain, seat: &mut ChainSeat, g: u32, i: usize) -> KeyState
    requires own { IsOwn chain.now seat.old }
    requires slot { IsSlot chain.now.shape g i }
    requires growing { IsInstalled (seen_by chain.now.shape seat.old) (suc g) }
    ensures closed { result ≡ key_is.Empty
        → HasCopied chain.now.shape g seat.old seat.new (i ∷ []) 0 0 2
        × ((seen_by chain.now.shape seat.new).key g i ≡ key_is.Dead) }
    ensures found { result ≢ key_is.Empty
        → HasCopied chain.now.shape g seat.old seat.new [] 0 0 2
        × ((seen_by chain.now.shape seat.new).key g i ≡ result) }
{
    match chain.load_key(seat, g, i, None) {
        KeyState::Empty => chain.kill_key(seat, g, i),
        other => other,
    }
}

/// Finishes a slot that the key has claimed. A value that is final already is only looked at.
fn copy_value(chain: &Chain, seat: &mut ChainSeat, g: u32, i: usize, key: Key) -> bool
    requires own { IsOwn chain.now seat.old }
    requires slot { IsSlot chain.now.shape g i }
    requires growing { IsInstalled (seen_by chain.now.shape seat.old) (suc g) }
    requires claimed { (seen_by chain.now.shape seat.old).key g i ≡ key_is.Claimed key }
    ensures copied { HasCopied chain.now.shape g seat.old seat.new (if result then i ∷ [] else [])
        0 0
        (2 * size_of chain.now.shape (suc g) + 4) }
    ensures finished { IsFinished (seen_by chain.now.shape seat.new) g i }
{
    if chain.load_value(seat, g, i, None).is_finished() {
        return false;
    }
    prime_value(chain, seat, g, i, key)
}

/// Finishes a slot that the key has claimed, whose value is primed first.
fn prime_value(chain: &Chain, seat: &mut ChainSeat, g: u32, i: usize, key: Key) -> bool
    requires own { IsOwn chain.now seat.old }
    requires slot { IsSlot chain.now.shape g i }
    requires growing { IsInstalled (seen_by chain.now.shape seat.old) (suc g) }
    requires claimed { (seen_by chain.now.shape seat.old).key g i ≡ key_is.Claimed key }
    ensures copied { HasCopied chain.now.shape g seat.old seat.new (if result then i ∷ [] else [])
        0 0
        (2 * size_of chain.now.shape (suc g) + 3) }
    ensures finished { IsFinished (seen_by chain.now.shape seat.new) g i }
{
    match chain.prime(seat, g, i) {
        ValueState::Null | ValueState::Tombstone => true,
        ValueState::PrimedNull | ValueState::PrimedTombstone | ValueState::Finished(_) => false,
        ValueState::Live(number) | ValueState::Primed(number) => {
            copy_number(chain, seat, g, i, key, number)
        }
    }
}

/// Finishes a slot that holds this number, primed or finished.
fn copy_number(chain: &Chain, seat: &mut ChainSeat, g: u32, i: usize, key: Key, number: Num) -> bool
    requires own { IsOwn chain.now seat.old }
    requires slot { IsSlot chain.now.shape g i }
    requires growing { IsInstalled (seen_by chain.now.shape seat.old) (suc g) }
    requires claimed { (seen_by chain.now.shape seat.old).key g i ≡ key_is.Claimed key }
    requires held { IsPrimedOrFinished (seen_by chain.now.shape seat.old) g i number }
    ensures copied { HasCopied chain.now.shape g seat.old seat.new (if result then i ∷ [] else [])
        0 0
        (2 * size_of chain.now.shape (suc g) + 2) }
    ensures finished { IsFinished (seen_by chain.now.shape seat.new) g i }
{
    let Some(j) = place_in_next(chain, seat, g, key) else {
        return false;
    };
    chain.copy_in(seat, g + 1, j, key, number);
    matches!(chain.finish_slot(seat, g, i), ValueState::Primed(_))
}

/// The slot of a key of table `g` in the next table, which is claimed where the key has none yet.
/// There is none where other keys have the key's path up to a closed slot, or whole: then the key's
/// slot in table `g` is finished already.
fn place_in_next(chain: &Chain, seat: &mut ChainSeat, g: u32, key: Key) -> Option<usize>
    requires own { IsOwn chain.now seat.old }
    requires table { suc g < generations_of chain.now.shape }
    requires growing { IsInstalled (seen_by chain.now.shape seat.old) (suc g) }
    requires below { HasSlot chain.now.shape (seen_by chain.now.shape seat.old) g key }
    ensures copied { HasCopied chain.now.shape g seat.old seat.new [] 0 0
        (2 * size_of chain.now.shape (suc g)) }
    ensures found { IfSome result (λ j. (j < size_of chain.now.shape (suc g))
        × ((seen_by chain.now.shape seat.new).key (suc g) j ≡ key_is.Claimed key)) }
    ensures passed { IfNone result (IsPassed chain.now.shape (seen_by chain.now.shape seat.new)
        (suc g) key) }
{
    for distance in 0..chain.shape().size_of(g + 1) {
        let j = chain.shape().path_slot(g + 1, key, distance);
        match key_or_claim(chain, seat, g, key, j) {
            KeyState::Claimed(other) => {
                if other == key {
                    return Some(j);
                }
            }
            KeyState::Empty | KeyState::Dead => return None,
        }
    }
    None
}

/// What the key word of slot `j` of the next table holds, on the path of a key of table `g`, behind
/// slots of other keys: an empty slot is claimed for the key first.
fn key_or_claim(chain: &Chain, seat: &mut ChainSeat, g: u32, key: Key, j: usize) -> KeyState
    requires own { IsOwn chain.now seat.old }
    requires slot { IsSlot chain.now.shape (suc g) j }
    requires growing { IsInstalled (seen_by chain.now.shape seat.old) (suc g) }
    requires below { HasSlot chain.now.shape (seen_by chain.now.shape seat.old) g key }
    requires on_path { IsOnPath chain.now.shape (seen_by chain.now.shape seat.old) (suc g) j key }
    ensures copied { HasCopied chain.now.shape g seat.old seat.new [] 0 0 2 }
    ensures found { (seen_by chain.now.shape seat.new).key (suc g) j ≡ result }
    ensures some { result ≢ key_is.Empty }
{
    match chain.load_key(seat, g + 1, j, None) {
        KeyState::Empty => match chain.claim_key(seat, g + 1, j, key) {
            KeyState::Empty => KeyState::Claimed(key),
            other => other,
        },
        other => other,
    }
}
