//! The steps on the keys of slots.
ghost use Rattle.std.specs.Prelude.{◌≡◌, ◌≢◌, suc, [], ◌∷◌};
ghost use Rattle.nb_core.specs.Paths.{IsPlaced};
ghost use Rattle.nb_core.specs.Tables.{IsInstalled, IsSlot};
ghost use Rattle.nb_core.specs.History.{HasWay};
ghost use Rattle.nb_core.specs.declared.events.Event.TheVariants as event;
ghost use Rattle.nb_core.specs.declared.states.KeyState.TheVariants as key_is;
ghost use Rattle.nb_table.specs.Chains.{Extended, IsOwn, seen_by};

use crate::chain::{Chain, ChainSeat, ForProof, NOTHING};
use nb_core::{DEAD_KEY, EMPTY_KEY, Key, KeyState, KeyWord, Slot};
use std::marker::Brand;

impl Chain {
    /// Claims the slot for a key if it is empty, by one compare-exchange, and answers what its key
    /// word held.
    pub fn claim_key_at(&self, seat: &mut ChainSeat, at: Slot, key: Key) -> KeyState
        requires own { IsOwn self.now seat.old }
        requires slot { IsPlaced self.now.shape at }
        requires installed { IsInstalled (seen_by self.now.shape seat.old) at.g }
        requires way { HasWay self.now.shape (seen_by self.now.shape seat.old) at.g at.i key }
        ensures won { result ≡ key_is.Empty → Extended self.now.shape seat.old seat.new
            (event.Claim seat.old.number at.g at.i key ∷ []) 1
            × ((seen_by self.now.shape seat.new).key at.g at.i ≡ key_is.Claimed key) }
        ensures lost { result ≢ key_is.Empty → Extended self.now.shape seat.old seat.new [] 1
            × ((seen_by self.now.shape seat.new).key at.g at.i ≡ result) }
    {
        let word = KeyWord::of(KeyState::Claimed(key)).get();
        let for_proof = ForProof {
            g: at.g,
            i: at.i,
            key: Some(key),
            ..NOTHING
        };
        let found = self.exchanges::<Brand>(seat, at.value - 1, EMPTY_KEY, word, for_proof);
        KeyWord::new(found).state()
    }

    /// The same at slot `i` of table `g`.
    pub fn claim_key(&self, seat: &mut ChainSeat, g: u32, i: usize, key: Key) -> KeyState
        requires own { IsOwn self.now seat.old }
        requires slot { IsSlot self.now.shape g i }
        requires installed { IsInstalled (seen_by self.now.shape seat.old) g }
        requires way { HasWay self.now.shape (seen_by self.now.shape seat.old) g i key }
        ensures won { result ≡ key_is.Empty
            → Extended self.now.shape seat.old seat.new (event.Claim seat.old.number g i key ∷ []) 1
            × ((seen_by self.now.shape seat.new).key g i ≡ key_is.Claimed key) }
        ensures lost { result ≢ key_is.Empty → Extended self.now.shape seat.old seat.new [] 1
            × ((seen_by self.now.shape seat.new).key g i ≡ result) }
    {
        let value = self.shape.value_place(g, i);
        self.claim_key_at(seat, Slot { g, i, value }, key)
    }

    /// Closes the slot to keys if it is empty, by one compare-exchange, and answers what its key
    /// word held.
    pub fn kill_key(&self, seat: &mut ChainSeat, g: u32, i: usize) -> KeyState
        requires own { IsOwn self.now seat.old }
        requires slot { IsSlot self.now.shape g i }
        requires growing { IsInstalled (seen_by self.now.shape seat.old) (suc g) }
        ensures won { result ≡ key_is.Empty
            → Extended self.now.shape seat.old seat.new (event.Kill seat.old.number g i ∷ []) 1
            × ((seen_by self.now.shape seat.new).key g i ≡ key_is.Dead) }
        ensures lost { result ≢ key_is.Empty → Extended self.now.shape seat.old seat.new [] 1
            × ((seen_by self.now.shape seat.new).key g i ≡ result) }
    {
        let index = self.shape.key_place(g, i);
        let for_proof = ForProof { g, i, ..NOTHING };
        let found = self.exchanges::<Brand>(seat, index, EMPTY_KEY, DEAD_KEY, for_proof);
        KeyWord::new(found).state()
    }
}
