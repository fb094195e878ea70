//! The set and its walks. A seat of the set is a seat of the map that it is kept in.
ghost use Rattle.std.specs.Prelude.{◌≡◌, ◌↔◌, All, IfErr, IfOk, Ok, [], is_ok, length, true};
ghost use Rattle.nb_set.specs.Ending.{EndedWith, HasTablesLeft};
ghost use Rattle.nb_set.specs.Log as call;
ghost use Rattle.nb_set.specs.Promises.{HasBegunWalk, HasEstimated, HasLookedUp, HasMet, HasSeenTop, HasWalkedOn, HasWritten};
ghost use Rattle.nb_set.specs.Sets.{AreMine, IsMadeFor, IsMine, log, new_seats, shape_of};
ghost use Rattle.nb_set.specs.Walks.{IsWalkOf};

pub(crate) mod bulk;
mod fullness;
pub(crate) mod listing;
pub(crate) mod opening;
mod settling;

use crate::ended::SetEnded;
use nb_core::{Key, NotAll, Num, OutOfMemory, Shape};
use nb_map::{Full, Map, Seat};
use std::alloc::Global;
use std::marker::Model;
use std::sync::Wait;

/// A set of keys, which many threads share.
#[derive(Drop)]
pub struct LongSet {
    map: Map,
}

impl Model for LongSet {
    ghost use Rattle.nb_set.specs.Sets.{SetOf};

    ghost Value = { SetOf };

    ghost use Rattle.nb_set.specs.Inside.{set_of};

    ghost view = { set_of };
}

/// A walk over the keys of a set, which `LongSet::walk` begins and `LongSet::next_key` takes on. It
/// is a few words, and borrows nothing: the set is read and changed meanwhile, also with the walk's
/// own seat.
#[derive(Drop)]
pub struct Walk {
    pub(crate) map: nb_map::Walk,
}

impl Model for Walk {
    ghost use Rattle.nb_set.specs.Walks.{WalkOf};

    ghost Value = { WalkOf };

    ghost use Rattle.nb_set.specs.Inside.{walk_of};

    ghost view = { walk_of };
}

impl LongSet {
    /// An empty set, and its seats. It takes memory for the words of its tables and its counter,
    /// for the seats, and for room to gather them. Later only `settle`, `keys` and
    /// `SetEnded::entries` take any.
    pub fn new(alloc: Global, shape: Shape) -> Result<(LongSet, Vec<Seat>), OutOfMemory>
        ensures made { IfOk result (λ made. IsMadeFor made.0 shape) }
        ensures seats { IfOk result (λ made. made.1.items ≡ new_seats made.0 shape.seats) }
        ensures empty { IfOk result (λ made. All (λ seat. log seat ≡ []) made.1.items) }
        ensures own { IfOk result (λ made. AreMine made.0 made.1.items) }
    {
        let (map, seats) = Map::new(alloc, shape)?;
        Ok((LongSet { map }, seats))
    }

    /// The shape that the set was made with. It makes no step.
    pub fn shape(&self) -> &Shape
        ensures { result.now ≡ shape_of self.now }
    {
        self.map.shape()
    }

    /// Puts a key into the set, and answers whether it came: it wasn't there before. `Set.add`.
    ///
    /// It is lock-free, as `remove` is: where other seats have won `w` exchanges on the key since
    /// this seat's last step, it takes at most 8 (T + w + 1 + G) (N + 8) steps on the tables, of
    /// which there are G with T slots, N of them in the last. It is refused only where other keys
    /// have all slots of the last table, and the set is then unchanged; a removed key keeps its
    /// slot.
    pub fn add<R: Wait>(&self, rt: &R, seat: &mut Seat, key: Key) -> Result<bool, Full>
        requires own { IsMine self.now seat.old }
        ensures { HasWritten self.now (call.Add key) seat.old seat.new result }
    {
        let before = self.map.put_if_absent(rt, seat, key, present())?;
        Ok(before.is_none())
    }

    /// Takes a key out of the set, and answers whether it went: it was there before. `Set.remove`.
    /// Lock-free, with the bound of `add`.
    pub fn remove<R: Wait>(&self, rt: &R, seat: &mut Seat, key: Key) -> bool
        requires own { IsMine self.now seat.old }
        ensures { HasWritten self.now (call.Remove key) seat.old seat.new (Ok result) }
    {
        self.map.remove(rt, seat, key).is_some()
    }

    /// Whether the set has a key. `Set.contains`. At most two steps where the key is at home in the
    /// table that the seat remembers, as mostly; and at most five where it is so in the top table,
    /// and the seat learns of no new one.
    #[inline]
    pub fn contains(&self, seat: &mut Seat, key: Key) -> bool
        requires own { IsMine self.now seat.old }
        ensures { HasLookedUp self.now key seat.old seat.new result }
    {
        self.map.contains_key(seat, key)
    }

    /// About how many keys the set has, modulo 2^64. While others write it is no more than a guess.
    /// It makes no step on the tables, and one on each stripe of the counter.
    pub fn size_estimate(&self, seat: &mut Seat) -> u64
        requires own { IsMine self.now seat.old }
        ensures { HasEstimated self.now seat.old seat.new }
    {
        self.map.size_estimate(seat)
    }

    /// How many tables are known to be complete, from the first one on: how often the set has
    /// grown. One step.
    pub fn generation(&self, seat: &mut Seat) -> u32
        requires own { IsMine self.now seat.old }
        ensures { HasSeenTop self.now seat.old seat.new result }
    {
        self.map.generation(seat)
    }

    /// Begins a walk over the set's keys, by one step. The seat may make what calls it likes
    /// meanwhile, and take on other walks.
    pub fn walk(&self, seat: &mut Seat) -> Walk
        requires own { IsMine self.now seat.old }
        ensures { HasBegunWalk self.now seat.old seat.new result }
    {
        let map = self.map.walk(seat);
        Walk { map }
    }

    /// The next key of a walk that this seat has begun: `while let Some(key) = set.next_key(&mut
    /// seat, &mut walk)` goes through the set while others change it. No key is shown twice, and
    /// from `walk` to the `None` that ends it each key that the set has all the while is shown
    /// (`laws::whole_walk`). A key that comes or goes meanwhile may be shown or not; each that is
    /// shown was seen in the set. After `None` it answers `None` for ever.
    ///
    /// As long as the walk's first table has no next one, a slot costs one step and a key one more.
    pub fn next_key(&self, seat: &mut Seat, walk: &mut Walk) -> Option<Key>
        requires own { IsMine self.now seat.old }
        requires walk { IsWalkOf self.now seat.old walk.old }
        ensures { HasWalkedOn self.now seat.old seat.new walk.old walk.new result }
    {
        let (key, _) = self.map.next_key(seat, &mut walk.map)?;
        Some(key)
    }

    /// Lets each of two seats see all that the other has seen. Each makes one step.
    pub fn meet(&self, a: &mut Seat, b: &mut Seat)
        requires a_own { IsMine self.now a.old }
        requires b_own { IsMine self.now b.old }
        ensures a { HasMet self.now b.old a.old a.new }
        ensures b { HasMet self.now a.old b.old b.new }
    {
        self.map.meet(a, b);
    }

    /// With all seats: what is left of the set. With another number of seats everything comes back,
    /// and the set works on. It takes no memory: `new` has reserved the room.
    pub fn finish(self, seats: Vec<Seat>) -> Result<SetEnded, NotAll<LongSet, Seat>>
        requires own { AreMine self seats.items }
        ensures all { (is_ok result ≡ true) ↔ (length seats.items ≡ (shape_of self).seats) }
        ensures ended { IfOk result (EndedWith seats.items) }
        ensures tables { IfOk result (HasTablesLeft (shape_of self) seats.items) }
        ensures back { IfErr result (λ given. (given.whole ≡ self)
            × (given.seats.items ≡ seats.items)) }
    {
        match self.map.finish(seats) {
            Ok(map) => Ok(SetEnded { map }),
            Err(NotAll { whole: map, seats }) => Err(NotAll {
                whole: LongSet { map },
                seats,
            }),
        }
    }
}

/// The number that the map has at each key of a set.
pub(crate) fn present() -> Num
    ensures { result ≡ 0 }
{
    match Num::new(0) {
        Ok(number) => number,
        Err(_) => unreachable!(),
    }
}
