//! The chain and its seats.
ghost use Rattle.std.specs.Prelude.{
  ◌≡◌,
  ◌+◌,
  ◌%◌,
  ◌^◌,
  ◌<◌,
  ◌==◌,
  ◌↔◌,
  if◌then◌else◌,
  [],
  ◌∷◌,
  bit_or,
  max,
  length,
  map,
  IsPermutation,
  IfOk,
  IfErr,
  true,
  is_ok,
};
ghost use Rattle.nb_core.specs.Plans.{word_count};
ghost use Rattle.nb_table.specs.Chains.{AreOwn, Extended, IsOwn, KnowsTop, new_seats};
ghost use Rattle.nb_table.specs.Gathered.{ClosedWith};
ghost use Rattle.nb_table.specs.Inside.{forgotten, part_of, seat_with};
ghost use Rattle.nb_table.specs.Steps.{Can, Stepped};
ghost use Rattle.nb_core.specs.Log.{IsBeginning};
ghost use Rattle.nb_table.specs.Views.{Moves};

mod settling;

use crate::closed::Closed;
use crate::view::{Chained, Deal, Learn, Move, Note, Told, View};
use atomic_table::{Seat, Table};
use nb_core::{Call, Key, NotAll, Num, OutOfMemory, Shape, TOP_INDEX};
use std::alloc::Global;
use std::marker::{Brand, Model};
use std::snapshot::Snapshot;

/// A chain of tables that many threads share. Contracts see which chain it is, and its shape.
#[derive(Drop)]
pub struct Chain {
    table: Table<(), View, Shape, Chained, Global>,
    pub(crate) shape: Shape,
}

impl Model for Chain {
    ghost use Rattle.nb_table.specs.Chains.{ChainOf};

    ghost Value = { ChainOf };

    ghost use Rattle.nb_table.specs.Inside.{IsChain, chain_of};

    ghost view = { chain_of };

    ghost invariant = { IsChain };
}

/// The right of one holder to make steps. Contracts see which chain's it is, its number, the
/// history that it has seen, the newest event first, how many steps it has made, and the top table
/// that it remembers.
#[derive(Drop)]
pub struct ChainSeat {
    seat: Seat<(), View>,
    /// The top word as the seat knew it last.
    pub(crate) top: u32,
}

impl Model for ChainSeat {
    ghost use Rattle.nb_table.specs.Chains.{SeenBy};

    ghost Value = { SeenBy };

    ghost use Rattle.nb_table.specs.Inside.{IsSeat, seat_of};

    ghost view = { seat_of };

    ghost invariant = { IsSeat };
}

impl ChainSeat {
    /// The top table that the seat remembers: what the top word was when a step of this seat found
    /// it last. It may have risen since. This makes no step.
    #[inline]
    pub fn known_top(&self) -> u32
        ensures { result ≡ self.now.top }
    {
        self.top
    }
}

/// What a step is about: the table, the slot, and the key, the number and the call, where it has
/// them. It is for proofs alone: the proof of a step names the step's event by it. No step reads it
/// when it runs, and it leaves nothing behind in the machine code.
#[derive(Clone, Copy)]
pub(crate) struct ForProof {
    pub(crate) g: u32,
    pub(crate) i: usize,
    pub(crate) key: Option<Key>,
    pub(crate) number: Option<Num>,
    pub(crate) call: Option<Call>,
}

/// For the proof of a step that needs nothing named.
pub(crate) const NOTHING: ForProof = ForProof {
    g: 0,
    i: 0,
    key: None,
    number: None,
    call: None,
};

impl Chain {
    /// A chain with all words 0, and its seats. It takes memory for the words and for the vector of
    /// seats; for a moment it takes twice as much for the words.
    pub fn new(alloc: Global, shape: Shape) -> Result<(Chain, Vec<ChainSeat>), OutOfMemory>
        ensures chain { IfOk result (λ made. made.0.shape ≡ shape) }
        ensures seats { IfOk result (λ made. made.1.items ≡ new_seats made.0.id shape.seats) }
        ensures own { IfOk result (λ made. AreOwn made.0 made.1.items) }
    {
        let mut dealt = Vec::with_capacity(alloc, shape.seats())?;
        let words = vec![in alloc; 0; shape.words()]?;
        let (table, mut rest) = Table::of_words(alloc, words.as_slice(), &shape)?;
        let chain = Chain { table, shape };
        for _number in 0..shape.seats() {
            let seat = chain.table.shared.split_seat::<Deal>(&mut rest);
            dealt.push_reserved(ChainSeat { seat, top: 0 });
        }
        Ok((chain, dealt))
    }

    /// The chain's shape. It makes no step.
    pub fn shape(&self) -> &Shape
        ensures { result.now ≡ self.now.shape }
    {
        &self.shape
    }

    /// One load, which returns the word.
    pub(crate) fn loads<B: Told>(
        &self,
        seat: &mut ChainSeat,
        index: usize,
        _for_proof: ForProof,
    ) -> u64
        requires own { seat.old.chain ≡ self.now.id }
        requires shape { B.shape ≡ self.now.shape }
        requires within { index < word_count self.now.shape }
        requires can { Can B.shape B.events seat.old.number seat.old.seen index (λ found. found) }
        ensures { Stepped B.shape B.events index seat.old result seat.new }
    {
        self.table.shared.load::<Move<B>>(&mut seat.seat, index)
    }

    /// One compare-and-exchange, which returns the word as it was. It has become `new` if it was
    /// `old`.
    pub(crate) fn exchanges<B: Told>(
        &self,
        seat: &mut ChainSeat,
        index: usize,
        old: u64,
        new: u64,
        _for_proof: ForProof,
    ) -> u64
        requires own { seat.old.chain ≡ self.now.id }
        requires shape { B.shape ≡ self.now.shape }
        requires within { index < word_count self.now.shape }
        requires can { Can B.shape B.events seat.old.number seat.old.seen index
            (λ found. if found == old then new else found) }
        ensures { Stepped B.shape B.events index seat.old result seat.new }
    {
        self.table
            .shared
            .compare_exchange::<Move<B>>(&mut seat.seat, index, old, new)
    }

    /// One fetch-or, which returns the word as it was.
    pub(crate) fn ors<B: Told>(
        &self,
        seat: &mut ChainSeat,
        index: usize,
        bits: u64,
        _for_proof: ForProof,
    ) -> u64
        requires own { seat.old.chain ≡ self.now.id }
        requires shape { B.shape ≡ self.now.shape }
        requires within { index < word_count self.now.shape }
        requires can { Can B.shape B.events seat.old.number seat.old.seen index
            (λ found. bit_or found bits) }
        ensures { Stepped B.shape B.events index seat.old result seat.new }
    {
        self.table
            .shared
            .fetch_or::<Move<B>>(&mut seat.seat, index, bits)
    }

    /// One fetch-add modulo 2^64, which returns the word as it was.
    pub(crate) fn adds<B: Told>(
        &self,
        seat: &mut ChainSeat,
        index: usize,
        amount: u64,
        _for_proof: ForProof,
    ) -> u64
        requires own { seat.old.chain ≡ self.now.id }
        requires shape { B.shape ≡ self.now.shape }
        requires within { index < word_count self.now.shape }
        requires can { Can B.shape B.events seat.old.number seat.old.seen index
            (λ found. (found + amount) % 2 ^ 64) }
        ensures { Stepped B.shape B.events index seat.old result seat.new }
    {
        self.table
            .shared
            .fetch_add::<Move<B>>(&mut seat.seat, index, amount)
    }

    /// One fetch-max, which returns the word as it was.
    pub(crate) fn raises<B: Told>(
        &self,
        seat: &mut ChainSeat,
        index: usize,
        least: u64,
        _for_proof: ForProof,
    ) -> u64
        requires own { seat.old.chain ≡ self.now.id }
        requires shape { B.shape ≡ self.now.shape }
        requires within { index < word_count self.now.shape }
        requires can { Can B.shape B.events seat.old.number seat.old.seen index
            (λ found. max found least) }
        ensures { Stepped B.shape B.events index seat.old result seat.new }
    {
        self.table
            .shared
            .fetch_max::<Move<B>>(&mut seat.seat, index, least)
    }

    /// Each of two seats sees what the other has seen. This makes six loads of the top word, three
    /// by each seat, of which the last counts as its step: what it finds the seat remembers. By the
    /// others `atomic_table` passes on what is known: what they find is ignored.
    pub fn meet(&self, a: &mut ChainSeat, b: &mut ChainSeat)
        requires a_own { IsOwn self.now a.old }
        requires b_own { IsOwn self.now b.old }
        ensures a { Extended self.now.shape a.old a.new [] 1 × IsBeginning b.old.seen a.new.seen }
        ensures b { Extended self.now.shape b.old b.new [] 1 × IsBeginning a.old.seen b.new.seen }
        ensures a_known { KnowsTop self.now.shape a.new }
        ensures b_known { KnowsTop self.now.shape b.new }
    {
        let words = &self.table.shared;
        let of_a = words.split_seat::<Note>(&mut a.seat);
        let of_b = words.split_seat::<Note>(&mut b.seat);
        words.join_seat::<Learn>(&mut a.seat, of_b);
        words.join_seat::<Learn>(&mut b.seat, of_a);
        let a_top = self.hears::<Brand>(&mut a.seat);
        let b_top = self.hears::<Brand>(&mut b.seat);
        a.top = a_top;
        b.top = b_top;
    }

    /// One load of the top word, by a token that was told of something.
    fn hears<B: Told>(&self, seat: &mut Seat<(), View>) -> u32
        requires own { seat.old.table_id ≡ self.now.id }
        requires shape { B.shape ≡ self.now.shape }
        requires one { seat.old.me.0.parts ≡ part_of seat.old.me.0.parts ∷ [] }
        requires none { B.events ≡ (λ found. []) }
        ensures own { seat.new.table_id ≡ seat.old.table_id }
        ensures heard { Moves B.shape B.events TOP_INDEX seat.old.me result seat.new.me }
    {
        self.table.shared.load::<Move<B>>(seat, TOP_INDEX) as u32
    }

    /// With all seats: what is left of the chain. With another number of seats everything comes
    /// back.
    pub fn close(self, seats: Vec<ChainSeat>) -> Result<Closed, NotAll<Chain, ChainSeat>>
        requires own { AreOwn self seats.items }
        ensures all { (is_ok result ≡ true) ↔ (length seats.items ≡ self.shape.seats) }
        ensures shape { IfOk result (λ closed. closed.shape ≡ self.shape) }
        ensures closed { IfOk result (λ closed. ClosedWith seats.items closed) }
        ensures back { IfErr result (λ given. (given.whole ≡ self)
            × (given.seats.items ≡ seats.items)) }
    {
        if seats.len() != self.shape.seats() {
            return Err(NotAll { whole: self, seats });
        }
        let seen = Snapshot::of(&seats);
        let all = self.gather(seats);
        let Chain { table, shape } = self;
        let table = table.close_with(all);
        Ok(Closed {
            table,
            shape,
            seats: seen,
        })
    }

    /// One token that knows what all these seats know, but for the top tables that they remember.
    fn gather(&self, seats: Vec<ChainSeat>) -> Seat<(), View>
        requires own { AreOwn self.now seats.items }
        requires some { 0 < length seats.items }
        ensures own { result.table_id ≡ self.now.id }
        ensures free { result.me.1 ≡ [] }
        ensures all { IsPermutation (map (seat_with self.now.id 0) result.me.0.parts)
            (map forgotten seats.items) }
    {
        let mut seats = seats;
        let last = seats.pop().unwrap();
        let ChainSeat { mut seat, top: _ } = last;
        while let Some(other) = seats.pop() {
            let ChainSeat {
                seat: other,
                top: _,
            } = other;
            self.table.shared.join_seat::<Learn>(&mut seat, other);
        }
        seat
    }
}
