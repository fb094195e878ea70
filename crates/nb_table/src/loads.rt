//! The loads of slots and of next words, and the calls that they decide.
ghost use Rattle.std.specs.Prelude.{◌≡◌, ◌<◌, ◌↔◌, suc, [], true, IfSome};
ghost use Rattle.nb_core.specs.History.{IsCallInRange, key_of_call};
ghost use Rattle.nb_core.specs.Paths.{IsPlaced};
ghost use Rattle.nb_core.specs.Plans.{generations_of, size_of};
ghost use Rattle.nb_core.specs.Tables.{AreOthers, IsInstalled, IsOnPath, IsSlot};
ghost use Rattle.nb_core.specs.States.{shown_by_value};
ghost use Rattle.nb_core.specs.declared.states.KeyState.TheVariants as key_is;
ghost use Rattle.nb_table.specs.Chains.{Extended, IsOwn, KnowsTop, seen_by};
ghost use Rattle.nb_table.specs.Conditions.{IsReached};
ghost use Rattle.nb_table.specs.Events.{reads, shown_by_key, shown_by_next};

use crate::calls::known;
use crate::chain::{Chain, ChainSeat, ForProof, NOTHING};
use nb_core::{
    Call, HeaderWord, INSTALLED, KeyState, KeyWord, Slot, TOP_INDEX, ValueState, ValueWord,
};
use std::marker::Brand;

/// Reminds a proof of the ranges of a load's call, if it has one. It does nothing.
fn known_if_some(call: &Option<Call>)
    ensures { IfSome call.now IsCallInRange }
{
    if let Some(call) = call {
        known(call);
    }
}

impl Chain {
    /// The key word of a slot, by one load. With a call whose key's path leads to the slot, an empty
    /// slot shows that the map doesn't have the key, and so does another key in the path's last slot
    /// in the last table: where the call leaves that as it is, the load is its read. `call` is for
    /// proofs alone, here and in the other loads: no load reads it.
    #[inline]
    pub fn load_key_word_at(&self, seat: &mut ChainSeat, at: Slot, call: Option<Call>) -> KeyWord
        requires own { IsOwn self.now seat.old }
        requires slot { IsPlaced self.now.shape at }
        requires reached { IfSome call (λ c. IsReached self.now.shape
            (seen_by self.now.shape seat.old) at.g (key_of_call c)) }
        requires on_path { IfSome call (λ c. IsOnPath self.now.shape
            (seen_by self.now.shape seat.old) at.g at.i (key_of_call c)) }
        ensures grows { Extended self.now.shape seat.old seat.new
            (reads seat.old.number call (shown_by_key self.now.shape at.g at.i result)) 1 }
        ensures found { (seen_by self.now.shape seat.new).key at.g at.i ≡ result }
    {
        known_if_some(&call);
        let for_proof = ForProof {
            g: at.g,
            i: at.i,
            call,
            ..NOTHING
        };
        KeyWord::new(self.loads::<Brand>(seat, at.value - 1, for_proof))
    }

    /// The key word of slot `i` of table `g`, by the same load. `call` is for proofs alone.
    #[inline]
    pub fn load_key_word(
        &self,
        seat: &mut ChainSeat,
        g: u32,
        i: usize,
        call: Option<Call>,
    ) -> KeyWord
        requires own { IsOwn self.now seat.old }
        requires slot { IsSlot self.now.shape g i }
        requires reached { IfSome call (λ c. IsReached self.now.shape
            (seen_by self.now.shape seat.old) g (key_of_call c)) }
        requires on_path { IfSome call (λ c. IsOnPath self.now.shape
            (seen_by self.now.shape seat.old) g i (key_of_call c)) }
        ensures grows { Extended self.now.shape seat.old seat.new
            (reads seat.old.number call (shown_by_key self.now.shape g i result)) 1 }
        ensures found { (seen_by self.now.shape seat.new).key g i ≡ result }
    {
        let value = self.shape.value_place(g, i);
        self.load_key_word_at(seat, Slot { g, i, value }, call)
    }

    /// What the key word of slot `i` of table `g` holds, by the same load. `call` is for proofs
    /// alone.
    #[inline]
    pub fn load_key(&self, seat: &mut ChainSeat, g: u32, i: usize, call: Option<Call>) -> KeyState
        requires own { IsOwn self.now seat.old }
        requires slot { IsSlot self.now.shape g i }
        requires reached { IfSome call (λ c. IsReached self.now.shape
            (seen_by self.now.shape seat.old) g (key_of_call c)) }
        requires on_path { IfSome call (λ c. IsOnPath self.now.shape
            (seen_by self.now.shape seat.old) g i (key_of_call c)) }
        ensures grows { Extended self.now.shape seat.old seat.new
            (reads seat.old.number call (shown_by_key self.now.shape g i result)) 1 }
        ensures found { (seen_by self.now.shape seat.new).key g i ≡ result }
    {
        self.load_key_word(seat, g, i, call).state()
    }

    /// The value word of a slot, by one load. With a call whose key has the slot, a value that isn't
    /// primed is what the map has at the key: where the call leaves that as it is, the load is its
    /// read. `call` is for proofs alone.
    #[inline]
    pub fn load_value_word_at(
        &self,
        seat: &mut ChainSeat,
        at: Slot,
        call: Option<Call>,
    ) -> ValueWord
        requires own { IsOwn self.now seat.old }
        requires slot { IsPlaced self.now.shape at }
        requires reached { IfSome call (λ c. IsReached self.now.shape
            (seen_by self.now.shape seat.old) at.g (key_of_call c)) }
        requires claimed { IfSome call (λ c. (seen_by self.now.shape seat.old).key at.g at.i
            ≡ key_is.Claimed (key_of_call c)) }
        ensures grows { Extended self.now.shape seat.old seat.new
            (reads seat.old.number call (λ k. shown_by_value result)) 1 }
        ensures found { (seen_by self.now.shape seat.new).value at.g at.i ≡ result }
    {
        known_if_some(&call);
        let for_proof = ForProof {
            g: at.g,
            i: at.i,
            call,
            ..NOTHING
        };
        ValueWord::lawful(self.loads::<Brand>(seat, at.value, for_proof))
    }

    /// The value word of slot `i` of table `g`, by the same load. `call` is for proofs alone.
    #[inline]
    pub fn load_value_word(
        &self,
        seat: &mut ChainSeat,
        g: u32,
        i: usize,
        call: Option<Call>,
    ) -> ValueWord
        requires own { IsOwn self.now seat.old }
        requires slot { IsSlot self.now.shape g i }
        requires reached { IfSome call (λ c. IsReached self.now.shape
            (seen_by self.now.shape seat.old) g (key_of_call c)) }
        requires claimed { IfSome call (λ c. (seen_by self.now.shape seat.old).key g i
            ≡ key_is.Claimed (key_of_call c)) }
        ensures grows { Extended self.now.shape seat.old seat.new
            (reads seat.old.number call (λ k. shown_by_value result)) 1 }
        ensures found { (seen_by self.now.shape seat.new).value g i ≡ result }
    {
        let value = self.shape.value_place(g, i);
        self.load_value_word_at(seat, Slot { g, i, value }, call)
    }

    /// What the value word of slot `i` of table `g` holds, by the same load. `call` is for proofs
    /// alone.
    #[inline]
    pub fn load_value(
        &self,
        seat: &mut ChainSeat,
        g: u32,
        i: usize,
        call: Option<Call>,
    ) -> ValueState
        requires own { IsOwn self.now seat.old }
        requires slot { IsSlot self.now.shape g i }
        requires reached { IfSome call (λ c. IsReached self.now.shape
            (seen_by self.now.shape seat.old) g (key_of_call c)) }
        requires claimed { IfSome call (λ c. (seen_by self.now.shape seat.old).key g i
            ≡ key_is.Claimed (key_of_call c)) }
        ensures grows { Extended self.now.shape seat.old seat.new
            (reads seat.old.number call (λ k. shown_by_value result)) 1 }
        ensures found { (seen_by self.now.shape seat.new).value g i ≡ result }
    {
        self.load_value_word(seat, g, i, call).state()
    }

    /// Whether table `g` has a next one, by one load of its next word. With a call whose key's
    /// whole path is other keys', a missing next table shows that the map doesn't have the key:
    /// where the call leaves that as it is, the load is its read. `call` is for proofs alone.
    pub fn load_next(&self, seat: &mut ChainSeat, g: u32, call: Option<Call>) -> bool
        requires own { IsOwn self.now seat.old }
        requires table { g < generations_of self.now.shape }
        requires reached { IfSome call (λ c. IsReached self.now.shape
            (seen_by self.now.shape seat.old) g (key_of_call c)) }
        requires crowded { IfSome call (λ c. AreOthers self.now.shape
            (seen_by self.now.shape seat.old) g (key_of_call c) (size_of self.now.shape g)) }
        ensures grows { Extended self.now.shape seat.old seat.new
            (reads seat.old.number call (λ k. shown_by_next result)) 1 }
        ensures installed { (result ≡ true)
            ↔ IsInstalled (seen_by self.now.shape seat.new) (suc g) }
    {
        known_if_some(&call);
        let index = self.shape.header_word_place(g, HeaderWord::Next);
        let for_proof = ForProof { g, call, ..NOTHING };
        self.loads::<Brand>(seat, index, for_proof) == INSTALLED
    }

    /// The number of tables, from the first on, that are known to be complete, by one load of the
    /// top word. The seat remembers it.
    pub fn load_top(&self, seat: &mut ChainSeat) -> u32
        requires own { IsOwn self.now seat.old }
        ensures grows { Extended self.now.shape seat.old seat.new [] 1 }
        ensures found { (seen_by self.now.shape seat.new).top ≡ result }
        ensures known { KnowsTop self.now.shape seat.new }
    {
        let top = self.loads::<Brand>(seat, TOP_INDEX, NOTHING) as u32;
        // Seats of several threads may be in one cache line, so nothing is stored in vain.
        if top != seat.top {
            seat.top = top;
        }
        top
    }
}
