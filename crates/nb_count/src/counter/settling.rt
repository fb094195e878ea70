//! The sum of a counter whose seats are all at hand, which goes on afterwards.
ghost use Rattle.std.specs.Prelude.{[], length, vec_capacity, ◌*◌, ◌+ℤ◌, ◌+◌, ◌<◌, ◌≡◌};
ghost use Rattle.nb_count.specs.Counts.{AreOwn, total_of};
ghost use Rattle.nb_count.specs.Tallies.{added_by, served, total, wrapped};

use crate::counter::{CountSeat, Counter};
use crate::tally::{Deal, Gather, SPREAD, Striped, Sums, Tallies};
use atomic_table::Seat;
use std::marker::Brand;

impl Counter {
    /// With all seats: the sum of all that they have added, modulo 2^64. Each seat is as it was, and
    /// the counter goes on. Each stripe is loaded once, and a word twice for each seat but the
    /// last, by which `atomic_table` passes on what is known. These loads count as nobody's steps.
    /// It takes no memory.
    pub fn settle(&self, seats: &mut Vec<CountSeat>) -> u64
        requires own { AreOwn self.now seats.old.items }
        requires all { length seats.old.items ≡ self.now.seats }
        ensures sum { result ≡ wrapped (total_of seats.old.items) }
        ensures same { seats.new.items ≡ seats.old.items }
    {
        let Some(last) = seats.pop() else {
            return 0;
        };
        let CountSeat { index, seat } = last;
        let (seat, sum) = self.sum_with(seats, seat);
        seats.push_reserved(CountSeat { index, seat });
        sum
    }

    /// The same with a token that has the tallies of the seats that aren't in the vector. It comes
    /// back as it was. The last seat's tally goes to the token, which gives it back afterwards;
    /// where the seat's stripe is, this call keeps meanwhile.
    fn sum_with(
        &self,
        seats: &mut Vec<CountSeat>,
        others: Seat<(), Tallies>,
    ) -> (Seat<(), Tallies>, u64)
        requires own { AreOwn self.now seats.old.items }
        requires token { (others.table_id ≡ self.now.id) × (others.me.1 ≡ []) }
        requires all { length seats.old.items + length others.me.0 ≡ self.now.seats }
        ensures token { (result.0.table_id ≡ self.now.id) × (result.0.me ≡ others.me) }
        ensures sum { result.1 ≡ wrapped (total_of seats.old.items +ℤ added_by others.me.0) }
        ensures same { seats.new.items ≡ seats.old.items }
        ensures room { vec_capacity seats.new ≡ vec_capacity seats.old }
    {
        let Some(last) = seats.pop() else {
            let mut all = others;
            let sum = self.sum_all(&mut all);
            return (all, sum);
        };
        let CountSeat { index, mut seat } = last;
        self.table.shared.join_seat::<Gather>(&mut seat, others);
        let (mut others, sum) = self.sum_with(seats, seat);
        let seat = self.table.shared.split_seat::<Deal>(&mut others);
        seats.push_reserved(CountSeat { index, seat });
        (others, sum)
    }

    /// The sum of the stripes, modulo 2^64, by a token that has all tallies: so no seat adds
    /// meanwhile.
    fn sum_all(&self, all: &mut Seat<(), Tallies>) -> u64
        requires table { all.old.table_id ≡ self.now.id }
        requires all { length all.old.me.0 ≡ self.now.seats }
        ensures table { all.new.table_id ≡ all.old.table_id }
        ensures same { all.new.me ≡ all.old.me }
        ensures sum { result ≡ wrapped (added_by all.old.me.0) }
    {
        let mut sum = 0u64;
        for stripe in 0..self.size.stripes {
            sum = sum.wrapping_add(self.look_with_all::<Brand>(all, stripe));
        }
        sum
    }

    /// What the stripe holds, by such a token.
    fn look_with_all<B: Striped>(&self, all: &mut Seat<(), Tallies>, stripe: usize) -> u64
        requires stripes { B.stripes ≡ self.now.stripes }
        requires table { all.old.table_id ≡ self.now.id }
        requires all { length all.old.me.0 ≡ self.now.seats }
        requires stripe { stripe < self.now.stripes }
        ensures table { all.new.table_id ≡ all.old.table_id }
        ensures same { all.new.me ≡ all.old.me }
        ensures found { result
            ≡ wrapped (total (served self.now.stripes (SPREAD * stripe)) all.old.me.0) }
    {
        self.table.shared.load::<Sums<B>>(all, SPREAD * stripe)
    }
}
