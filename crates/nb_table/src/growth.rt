//! The steps that grow a chain and copy its tables.
ghost use Rattle.std.specs.Prelude.{◌≡◌, ◌+◌, ◌<◌, ◌≤◌, suc, [], ◌∷◌, IsTrue, false};
ghost use Rattle.nb_core.specs.Plans.{generations_of, limit_of};
ghost use Rattle.nb_core.specs.Tables.{AreOthers, IsInstalled, IsReady};
ghost use Rattle.nb_core.specs.History.{counted_by, turned_by};
ghost use Rattle.nb_core.specs.declared.events.Event.TheVariants as event;
ghost use Rattle.nb_table.specs.Chains.{Extended, IsOwn, KnowsTop, seen_before, seen_by};
ghost use Rattle.nb_table.specs.Conditions.{IsKnownComplete};

use crate::chain::{Chain, ChainSeat, ForProof, NOTHING};
use nb_core::{HeaderWord, INSTALLED, Key, NOT_INSTALLED, TOP_INDEX};
use std::marker::Brand;

impl Chain {
    /// Asks for the next chunk of table `g` to copy, by one fetch-add on its take word, and answers
    /// where the chunk begins. At the size or past it there is none.
    pub fn take_work(&self, seat: &mut ChainSeat, g: u32) -> u64
        requires own { IsOwn self.now seat.old }
        requires table { g < generations_of self.now.shape }
        requires growing { IsInstalled (seen_by self.now.shape seat.old) (suc g) }
        ensures grows { Extended self.now.shape seat.old seat.new
            (event.Take seat.old.number g ∷ []) 1 }
        ensures found { (seen_before self.now.shape seat.new).taken g ≡ result }
    {
        let index = self.shape.header_word_place(g, HeaderWord::Take);
        let chunk = self.shape.chunk_of(g) as u64;
        let for_proof = ForProof { g, ..NOTHING };
        self.adds::<Brand>(seat, index, chunk, for_proof)
    }

    /// Counts finished slots of table `g` that the seat's own steps turned, by one fetch-add on its
    /// done word, and answers how many were counted before.
    pub fn count_done(&self, seat: &mut ChainSeat, g: u32, slots: u64) -> u64
        requires own { IsOwn self.now seat.old }
        requires table { g < generations_of self.now.shape }
        requires some { 1 ≤ slots }
        requires turned { counted_by seat.old.seen seat.old.number g + slots
            ≤ turned_by self.now.shape seat.old.seen seat.old.number g }
        ensures grows { Extended self.now.shape seat.old seat.new
            (event.Count seat.old.number g slots ∷ []) 1 }
        ensures found { (seen_by self.now.shape seat.new).counted g ≡ result + slots }
    {
        let index = self.shape.header_word_place(g, HeaderWord::Done);
        let for_proof = ForProof { g, ..NOTHING };
        self.adds::<Brand>(seat, index, slots, for_proof)
    }

    /// Raises the top word past table `g`, by one fetch-max, and answers what it was. The seat has
    /// seen that the table is complete, be it by its slots or by its count. The seat remembers what
    /// the top word is then.
    pub fn promote(&self, seat: &mut ChainSeat, g: u32) -> u32
        requires own { IsOwn self.now seat.old }
        requires table { g < generations_of self.now.shape }
        requires complete { IsKnownComplete self.now.shape (seen_by self.now.shape seat.old) g }
        ensures raised { result ≤ g
            → Extended self.now.shape seat.old seat.new (event.Promote seat.old.number g ∷ []) 1
            × ((seen_before self.now.shape seat.new).top ≡ result)
            × ((seen_by self.now.shape seat.new).top ≡ suc g) }
        ensures was_higher { g < result → Extended self.now.shape seat.old seat.new [] 1
            × ((seen_by self.now.shape seat.new).top ≡ result) }
        ensures known { KnowsTop self.now.shape seat.new }
    {
        let for_proof = ForProof { g, ..NOTHING };
        let found = self.raises::<Brand>(seat, TOP_INDEX, u64::from(g) + 1, for_proof) as u32;
        let top = found.max(g + 1);
        seat.top = top;
        found
    }

    /// Installs the table above `g`, for a key whose path in `g` is crowded, by one
    /// compare-exchange on its next word. Answers whether this step did it. `key` is for proofs
    /// alone: the step doesn't read it.
    pub fn install(&self, seat: &mut ChainSeat, g: u32, key: Key) -> bool
        requires own { IsOwn self.now seat.old }
        requires room { suc g < generations_of self.now.shape }
        requires ready { IsReady self.now.shape (seen_by self.now.shape seat.old) g }
        requires crowded { AreOthers self.now.shape (seen_by self.now.shape seat.old) g key
            (limit_of self.now.shape g) }
        ensures won { IsTrue result → Extended self.now.shape seat.old seat.new
            (event.Install seat.old.number g key ∷ []) 1 }
        ensures lost { result ≡ false → Extended self.now.shape seat.old seat.new [] 1 }
        ensures installed { IsInstalled (seen_by self.now.shape seat.new) (suc g) }
    {
        key.known();
        let index = self.shape.header_word_place(g, HeaderWord::Next);
        let for_proof = ForProof {
            g,
            key: Some(key),
            ..NOTHING
        };
        let found = self.exchanges::<Brand>(seat, index, NOT_INSTALLED, INSTALLED, for_proof);
        found == NOT_INSTALLED
    }
}
