//! All seats of a chain see one and the same history, and the chain goes on.
ghost use Rattle.std.specs.Prelude.{[], length, vec_capacity, ◌+◌, ◌≡◌};
ghost use Rattle.nb_table.specs.Chains.{AreOwn};
ghost use Rattle.nb_table.specs.Settling.{Settled};
ghost use Rattle.nb_table.specs.Together.{HaveSettled, Settles};

use crate::chain::{Chain, ChainSeat};
use crate::view::{Deal, Learn, Settle, Told, View};
use atomic_table::Seat;
use nb_core::TOP_INDEX;
use std::marker::Brand;

impl Chain {
    /// With all seats: afterwards each of them has seen one and the same history, all of it, and
    /// remembers its top table. It has its place in the vector, its number and its steps as before.
    /// This makes loads of the top word, one for all seats and two for each beside it, by which
    /// `atomic_table` passes on what is known. They count as nobody's steps. It takes no memory.
    pub fn settle(&self, seats: &mut Vec<ChainSeat>)
        requires own { AreOwn self.now seats.old.items }
        requires all { length seats.old.items ≡ self.now.shape.seats }
        ensures settled { Settled self.now.shape seats.old.items seats.new.items }
        ensures own { AreOwn self.now seats.new.items }
    {
        if let Some(last) = seats.pop() {
            let ChainSeat { seat, top: _ } = last;
            let (seat, top) = self.settle_with(seats, seat);
            seats.push_reserved(ChainSeat { seat, top });
        }
    }

    /// The same with a token that has the parts of the seats that aren't in the vector; and the top
    /// word. The last seat's part goes to the token, which gives it back afterwards.
    fn settle_with(
        &self,
        seats: &mut Vec<ChainSeat>,
        others: Seat<(), View>,
    ) -> (Seat<(), View>, u32)
        requires own { AreOwn self.now seats.old.items }
        requires token { (others.table_id ≡ self.now.id) × (others.me.1 ≡ []) }
        requires all { length seats.old.items + length others.me.0.parts ≡ self.now.shape.seats }
        ensures token { result.0.table_id ≡ self.now.id }
        ensures settled { HaveSettled self.now.shape seats.old.items seats.new.items
            others.me result.0.me result.1 }
        ensures room { vec_capacity seats.new ≡ vec_capacity seats.old }
    {
        let Some(last) = seats.pop() else {
            let mut all = others;
            let top = self.settle_token(&mut all);
            return (all, top);
        };
        let ChainSeat { mut seat, top: _ } = last;
        self.table.shared.join_seat::<Learn>(&mut seat, others);
        let (mut others, top) = self.settle_with(seats, seat);
        let seat = self.table.shared.split_seat::<Deal>(&mut others);
        seats.push_reserved(ChainSeat { seat, top });
        (others, top)
    }

    /// One load of the top word, by a token that has the parts of all seats.
    fn settle_token(&self, all: &mut Seat<(), View>) -> u32
        requires token { (all.old.table_id ≡ self.now.id) × (all.old.me.1 ≡ []) }
        requires all { length all.old.me.0.parts ≡ self.now.shape.seats }
        ensures token { all.new.table_id ≡ all.old.table_id }
        ensures settles { Settles self.now.shape all.old.me result all.new.me }
    {
        self.load_with_all::<Brand>(all)
    }

    /// The same, told to the proof by the shape.
    fn load_with_all<B: Told>(&self, all: &mut Seat<(), View>) -> u32
        requires shape { B.shape ≡ self.now.shape }
        requires token { (all.old.table_id ≡ self.now.id) × (all.old.me.1 ≡ []) }
        requires all { length all.old.me.0.parts ≡ self.now.shape.seats }
        ensures token { all.new.table_id ≡ all.old.table_id }
        ensures settles { Settles self.now.shape all.old.me result all.new.me }
    {
        self.table.shared.load::<Settle<B>>(all, TOP_INDEX) as u32
    }
}
