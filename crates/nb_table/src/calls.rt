//! The steps by which calls change the map.
ghost use Rattle.std.specs.Prelude.{◌≡◌, ◌≢◌, true, [], ◌∷◌, IfErr, OnOk};
ghost use Rattle.nb_core.specs.History.{IsCallInRange, IsExchange, number_in_value, key_of_call};
ghost use Rattle.nb_core.specs.Paths.{IsPlaced};
ghost use Rattle.nb_core.specs.States.{shown_by_value};
ghost use Rattle.nb_core.specs.Tables.{IsSlot, IsUnprimed};
ghost use Rattle.nb_core.specs.declared.events.Event.TheVariants as event;
ghost use Rattle.nb_core.specs.declared.states.KeyState.TheVariants as key_is;
ghost use Rattle.nb_table.specs.Chains.{Extended, IsOwn, seen_by};
ghost use Rattle.nb_table.specs.Conditions.{IsReached};
ghost use Rattle.nb_table.specs.Events.{read};

use crate::chain::{Chain, ChainSeat, ForProof, NOTHING};
use nb_core::{Call, Change, Slot, ValueState, ValueWord, Want};
use std::marker::Brand;

/// Reminds a proof of the ranges of a call's key and numbers. It does nothing.
pub(crate) fn known(call: &Call)
    ensures { IsCallInRange call.now }
{
    match *call {
        Call::Get { key } => key.known(),
        Call::Write { key, want, change } => {
            key.known();
            if let Want::Equal(number) | Want::Below(number) = want {
                number.known();
            }
            match change {
                Change::Put(number) | Change::Add(number) => number.known(),
                Change::Remove => {}
            }
        }
    }
}

impl Chain {
    /// Puts a value in place of another for a call, by one compare-exchange on the value word of
    /// the key's slot. Another word than `from` stays as it is, and is the answer; what it shows of
    /// the key may be the call's read then, as at `load_value_word_at`. `call` is for proofs alone:
    /// the step doesn't read it.
    #[inline]
    pub fn win_value_at(
        &self,
        seat: &mut ChainSeat,
        at: Slot,
        call: Call,
        from: ValueWord,
        to: ValueState,
    ) -> Result<(), ValueWord>
        requires own { IsOwn self.now seat.old }
        requires slot { IsPlaced self.now.shape at }
        requires reached { IsReached self.now.shape (seen_by self.now.shape seat.old) at.g
            (key_of_call call) }
        requires claimed { (seen_by self.now.shape seat.old).key at.g at.i
            ≡ key_is.Claimed (key_of_call call) }
        requires unprimed { IsUnprimed from }
        requires exchange { IsExchange call (key_of_call call) from to }
        ensures won { OnOk result (Extended self.now.shape seat.old seat.new
            (event.Won seat.old.number at.g at.i from to call
            (record { before = number_in_value from; matched = true }) ∷ []) 1
            × ((seen_by self.now.shape seat.new).value at.g at.i ≡ to)) }
        ensures lost { IfErr result (λ found. (found ≢ from)
            × Extended self.now.shape seat.old seat.new
            (read seat.old.number call (shown_by_value found)) 1
            × ((seen_by self.now.shape seat.new).value at.g at.i ≡ found)) }
    {
        known(&call);
        let old = from.get();
        let new = ValueWord::of(to).get();
        let for_proof = ForProof {
            g: at.g,
            i: at.i,
            call: Some(call),
            ..NOTHING
        };
        let found = self.exchanges::<Brand>(seat, at.value, old, new, for_proof);
        if found == old {
            Ok(())
        } else {
            Err(ValueWord::lawful(found))
        }
    }

    /// The same at slot `i` of table `g`. Answers what the value was: `from` where this step won.
    /// `call` is for proofs alone.
    #[inline]
    pub fn win_value(
        &self,
        seat: &mut ChainSeat,
        g: u32,
        i: usize,
        call: Call,
        from: ValueState,
        to: ValueState,
    ) -> ValueState
        requires own { IsOwn self.now seat.old }
        requires slot { IsSlot self.now.shape g i }
        requires reached { IsReached self.now.shape (seen_by self.now.shape seat.old) g
            (key_of_call call) }
        requires claimed { (seen_by self.now.shape seat.old).key g i
            ≡ key_is.Claimed (key_of_call call) }
        requires unprimed { IsUnprimed from }
        requires exchange { IsExchange call (key_of_call call) from to }
        ensures won { result ≡ from → Extended self.now.shape seat.old seat.new
            (event.Won seat.old.number g i from to call
            (record { before = number_in_value from; matched = true }) ∷ []) 1
            × ((seen_by self.now.shape seat.new).value g i ≡ to) }
        ensures lost { result ≢ from → Extended self.now.shape seat.old seat.new
            (read seat.old.number call (shown_by_value result)) 1
            × ((seen_by self.now.shape seat.new).value g i ≡ result) }
    {
        let value = self.shape.value_place(g, i);
        let from = ValueWord::of(from);
        match self.win_value_at(seat, Slot { g, i, value }, call, from, to) {
            Ok(()) => from.state(),
            Err(found) => found.state(),
        }
    }
}
