//! The counter and its seats.
ghost use Rattle.std.specs.Prelude.{
  ◌≡◌,
  ◌*◌,
  ◌%◌,
  ◌^◌,
  ◌<◌,
  ◌≤◌,
  ◌↔◌,
  [],
  length,
  map,
  IsPermutation,
  IfOk,
  IfErr,
  true,
  is_ok,
};
ghost use Rattle.nb_core.specs.declared.shapes.TheConstants.{MAX_SEATS, MAX_STRIPES};
ghost use Rattle.nb_count.specs.Counts.{AreOwn, IsOwn, new_seats, total_of, with_added, with_looks};
ghost use Rattle.nb_count.specs.Inside.{seat_with};
ghost use Rattle.nb_count.specs.Tallies.{sum_of_stripes, wrapped};
ghost use Rattle.std.specs.Mem.Slots.{IsFull, slots_items, slots_len};

mod settling;

use crate::tally::{Adds, Deal, Gather, Looks, SPREAD, Size, Stripes, Tallies};
use atomic_table::{Closed, Seat, Table};
use nb_core::{NotAll, OutOfMemory};
use std::alloc::Global;
use std::marker::Model;

/// A sum that many threads add to. Contracts see which counter it is, and its numbers of stripes
/// and seats.
#[derive(Drop)]
pub struct Counter {
    table: Table<(), Tallies, Size, Stripes, Global>,
    size: Size,
}

impl Model for Counter {
    ghost use Rattle.nb_count.specs.Counts.{CounterOf};

    ghost Value = { CounterOf };

    ghost use Rattle.nb_count.specs.Inside.{IsCounter, counter_of};

    ghost view = { counter_of };

    ghost invariant = { IsCounter };
}

/// The right of one holder to add. Contracts see its counter, its number, what it has added in all,
/// and how many steps it has made: adding steps, which may change its stripe, and looks, which
/// change no word.
#[derive(Drop)]
pub struct CountSeat {
    index: usize,
    seat: Seat<(), Tallies>,
}

impl Model for CountSeat {
    ghost use Rattle.nb_count.specs.Counts.{CountSeatOf};

    ghost Value = { CountSeatOf };

    ghost use Rattle.nb_count.specs.Inside.{IsSeat, seat_of};

    ghost view = { seat_of };

    ghost invariant = { IsSeat };
}

impl Counter {
    /// A counter at 0 with so many stripes, and its seats. It takes memory for the stripes, 64 bytes
    /// each, and for the vector of seats; for a moment it takes twice as much for the stripes.
    pub fn new(
        alloc: Global,
        stripes: usize,
        seats: usize,
    ) -> Result<(Counter, Vec<CountSeat>), OutOfMemory>
        requires stripes { (1 ≤ stripes) × (stripes ≤ MAX_STRIPES) }
        requires seats { (1 ≤ seats) × (seats ≤ MAX_SEATS) }
        ensures counter { IfOk result (λ made. (made.0.stripes ≡ stripes)
            × (made.0.seats ≡ seats)) }
        ensures seats { IfOk result (λ made. made.1.items ≡ new_seats made.0.id seats) }
        ensures own { IfOk result (λ made. AreOwn made.0 made.1.items) }
    {
        let size = Size { stripes, seats };
        let mut dealt = Vec::with_capacity(alloc, seats)?;
        let words = vec![in alloc; 0; SPREAD * stripes]?;
        let (table, mut rest) = Table::of_words(alloc, words.as_slice(), &size)?;
        let counter = Counter { table, size };
        for number in 0..seats {
            let seat = counter.table.shared.split_seat::<Deal>(&mut rest);
            let index = SPREAD * (number % stripes);
            dealt.push_reserved(CountSeat { index, seat });
        }
        Ok((counter, dealt))
    }

    /// Adds to the seat's stripe, modulo 2^64, by one step.
    pub fn add(&self, seat: &mut CountSeat, amount: i64)
        requires own { IsOwn self.now seat.old }
        ensures own { IsOwn self.now seat.new }
        ensures added { seat.new ≡ with_added amount seat.old }
    {
        let words = &self.table.shared;
        words.fetch_add::<Adds>(&mut seat.seat, seat.index, amount.cast_unsigned());
    }

    /// The sum of the stripes, modulo 2^64, looked at one after another. It changes no word: each
    /// of its steps is a look. While others add it is no more than a guess.
    pub fn estimate(&self, seat: &mut CountSeat) -> u64
        requires own { IsOwn self.now seat.old }
        ensures own { IsOwn self.now seat.new }
        ensures looked { seat.new ≡ with_looks self.now.stripes seat.old }
    {
        let mut sum = 0u64;
        for stripe in 0..self.size.stripes {
            sum = sum.wrapping_add(self.look(seat, stripe));
        }
        sum
    }

    /// What the stripe holds, by one step, which changes no word.
    fn look(&self, seat: &mut CountSeat, stripe: usize) -> u64
        requires own { IsOwn self.now seat.old }
        requires stripe { stripe < self.now.stripes }
        ensures own { IsOwn self.now seat.new }
        ensures looked { seat.new ≡ with_looks 1 seat.old }
    {
        let words = &self.table.shared;
        words.load::<Looks>(&mut seat.seat, SPREAD * stripe)
    }

    /// With all seats: the sum of all that they added, modulo 2^64. With another number of seats
    /// everything comes back.
    pub fn close(self, seats: Vec<CountSeat>) -> Result<u64, NotAll<Counter, CountSeat>>
        requires own { AreOwn self seats.items }
        ensures all { (is_ok result ≡ true) ↔ (length seats.items ≡ self.seats) }
        ensures sum { IfOk result (λ sum. sum ≡ wrapped (total_of seats.items)) }
        ensures back { IfErr result (λ given. (given.whole ≡ self)
            × (given.seats.items ≡ seats.items)) }
    {
        if seats.len() != self.size.seats {
            return Err(NotAll { whole: self, seats });
        }
        let all = self.gather(seats);
        let Counter { table, size } = self;
        let closed = table.close_with(all);
        let sum = sum_of(&closed, size.stripes);
        closed.free();
        Ok(sum)
    }

    /// One token that knows what all these seats know.
    fn gather(&self, seats: Vec<CountSeat>) -> Seat<(), Tallies>
        requires own { AreOwn self.now seats.items }
        requires some { 0 < length seats.items }
        ensures own { result.table_id ≡ self.now.id }
        ensures free { result.me.1 ≡ [] }
        ensures all { IsPermutation (map (seat_with self.now.id) result.me.0) seats.items }
    {
        let mut seats = seats;
        let last = seats.pop().unwrap();
        let CountSeat { index: _, mut seat } = last;
        while let Some(other) = seats.pop() {
            let CountSeat {
                index: _,
                seat: other,
            } = other;
            self.table.shared.join_seat::<Gather>(&mut seat, other);
        }
        seat
    }
}

/// The sum of the stripes, modulo 2^64.
fn sum_of(closed: &Closed<(), Global>, count: usize) -> u64
    requires { (SPREAD * count ≤ slots_len closed.now.words) × IsFull closed.now.words }
    ensures { result ≡ sum_of_stripes (slots_items closed.now.words) count % 2 ^ 64 }
{
    let mut sum = 0u64;
    for i in 0..count {
        sum = sum.wrapping_add(closed.word(SPREAD * i));
    }
    sum
}
