//! The steps that copy the slots of a table.
ghost use Rattle.std.specs.Prelude.{◌≡◌, ◌≢◌, ◌⊎◌, ℕ, suc, [], ◌∷◌};
ghost use Rattle.nb_core.specs.Tables.{IsInstalled, IsPrimedOrFinished, IsSlot, IsUnprimed};
ghost use Rattle.nb_core.specs.States.{primed};
ghost use Rattle.nb_core.specs.declared.events.Event.TheVariants as event;
ghost use Rattle.nb_core.specs.declared.states.KeyState.TheVariants as key_is;
ghost use Rattle.nb_core.specs.declared.states.ValueState.TheVariants as value_is;
ghost use Rattle.nb_table.specs.Conditions.{HasSource, IsCopied};
ghost use Rattle.nb_table.specs.Chains.{Extended, IsOwn, seen_before, seen_by};

use crate::chain::{Chain, ChainSeat, ForProof, NOTHING};
use nb_core::{FINISHED_BIT, Key, NULL_VALUE, Num, PRIMED_BIT, ValueState, ValueWord};
use std::marker::Brand;

impl Chain {
    /// Primes the value of slot `i` of table `g`, by one fetch-or of 1 on its value word, and
    /// answers what it was. A value that is primed already stays as it is.
    pub fn prime(&self, seat: &mut ChainSeat, g: u32, i: usize) -> ValueState
        requires own { IsOwn self.now seat.old }
        requires slot { IsSlot self.now.shape g i }
        requires growing { IsInstalled (seen_by self.now.shape seat.old) (suc g) }
        requires claimed { (k : ℕ) × ((seen_by self.now.shape seat.old).key g i
            ≡ key_is.Claimed k) }
        ensures won { IsUnprimed result
            → Extended self.now.shape seat.old seat.new (event.Prime seat.old.number g i ∷ []) 1
            × ((seen_before self.now.shape seat.new).value g i ≡ result)
            × ((seen_by self.now.shape seat.new).value g i ≡ primed result) }
        ensures lost { (IsUnprimed result → ⊥) → Extended self.now.shape seat.old seat.new [] 1
            × ((seen_by self.now.shape seat.new).value g i ≡ result) }
    {
        let index = self.shape.value_place(g, i);
        let for_proof = ForProof { g, i, ..NOTHING };
        ValueWord::lawful(self.ors::<Brand>(seat, index, PRIMED_BIT, for_proof)).state()
    }

    /// Copies the number of a key in the table below `g` to the key's slot `i` of table `g`, by one
    /// compare-exchange of null for the number on its value word, and answers what it was. A value
    /// that is there already stays as it is. `key` is for proofs alone: the step doesn't read it.
    pub fn copy_in(
        &self,
        seat: &mut ChainSeat,
        g: u32,
        i: usize,
        key: Key,
        number: Num,
    ) -> ValueState
        requires own { IsOwn self.now seat.old }
        requires slot { IsSlot self.now.shape g i }
        requires claimed { (seen_by self.now.shape seat.old).key g i ≡ key_is.Claimed key }
        requires source { HasSource self.now.shape (seen_by self.now.shape seat.old) g key number }
        ensures won { result ≡ value_is.Null
            → Extended self.now.shape seat.old seat.new
            (event.CopyIn seat.old.number g i key number ∷ []) 1
            × ((seen_by self.now.shape seat.new).value g i ≡ value_is.Live number) }
        ensures lost { result ≢ value_is.Null → Extended self.now.shape seat.old seat.new [] 1
            × ((seen_by self.now.shape seat.new).value g i ≡ result) }
    {
        let index = self.shape.value_place(g, i);
        let word = ValueWord::of(ValueState::Live(number)).get();
        let for_proof = ForProof {
            g,
            i,
            key: Some(key),
            number: Some(number),
            ..NOTHING
        };
        let found = self.exchanges::<Brand>(seat, index, NULL_VALUE, word, for_proof);
        ValueWord::lawful(found).state()
    }

    /// Marks the primed number in slot `i` of table `g` as copied, by one fetch-or of 2 on its
    /// value word, and answers what the value was: that number, primed, or finished already.
    pub fn finish_slot(&self, seat: &mut ChainSeat, g: u32, i: usize) -> ValueState
        requires own { IsOwn self.now seat.old }
        requires slot { IsSlot self.now.shape g i }
        requires copied { IsCopied self.now.shape (seen_by self.now.shape seat.old) g i }
        ensures held { (n : ℕ) → IsPrimedOrFinished (seen_by self.now.shape seat.old) g i n
            → (result ≡ value_is.Primed n) ⊎ (result ≡ value_is.Finished n) }
        ensures won { (n : ℕ) → result ≡ value_is.Primed n
            → Extended self.now.shape seat.old seat.new (event.Finish seat.old.number g i ∷ []) 1
            × ((seen_by self.now.shape seat.new).value g i ≡ value_is.Finished n) }
        ensures lost { (n : ℕ) → result ≡ value_is.Finished n
            → Extended self.now.shape seat.old seat.new [] 1
            × ((seen_by self.now.shape seat.new).value g i ≡ value_is.Finished n) }
    {
        let index = self.shape.value_place(g, i);
        let for_proof = ForProof { g, i, ..NOTHING };
        ValueWord::lawful(self.ors::<Brand>(seat, index, FINISHED_BIT, for_proof)).state()
    }
}
