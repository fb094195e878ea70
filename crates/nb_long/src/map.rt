//! The typed map, and its calls.
ghost use Rattle.std.specs.Prelude.{IfErr, IfOk, Option, is_ok, length, true, ◌↔◌, ◌≡◌};
ghost use Rattle.boxcar.specs.Table.{Where};
ghost use Rattle.nb_core.specs.declared.calls.Change.TheVariants as change;
ghost use Rattle.nb_core.specs.declared.calls.Want.TheVariants as want;
ghost use Rattle.nb_map.specs.Ending.{EndedWith, HasTablesLeft};
ghost use Rattle.nb_map.specs.Logs.{HaveEmptyLogs};
ghost use Rattle.nb_map.specs.Maps.{AreMine, IsMadeFor, IsMine, new_seats};
ghost use Rattle.nb_map.specs.NamedCalls.{remove_of};
ghost use Rattle.nb_map.specs.Progress.{Unlimited};
ghost use Rattle.nb_map.specs.Promises.{HasMet, HasWritten};
ghost use Rattle.nb_map.specs.Promises as outcome;
ghost use Rattle.nb_long.specs.Promises.{HasChangedIf, HasGotValue, HasPutValue, HasReplacedIf, found_in, stored_in, with_token};

mod fullness;
mod listing;
pub(crate) mod numbers;
pub(crate) mod parts;
mod settling;
mod updating;

use crate::store::{Found, Placed, Receipt, Store, StoreFault};
use nb_core::{Key, NotAll, Num, OutOfMemory, Shape};
use nb_map::{Ended, Map, Seat};
use parts::Parts;
use std::alloc::Global;
use std::marker::Model;
use std::sync::Wait;
use thiserror::Error;
pub use updating::{UpdateFault, Updated};

/// A map from keys to values of any type, which many threads share. Each value is stored once, and
/// the map has its number.
#[derive(Drop)]
pub struct LongMap<V> {
    map: Map,
    store: Store<V>,
}

impl<V> Model for LongMap<V> {
    ghost use Rattle.nb_long.specs.Typed.{LongMapOf};

    ghost Value = { LongMapOf };

    ghost view = { λ m. record { map = m.map; store = m.store } };
}

/// What a typed write came to.
#[derive(Drop)]
pub struct Stored<V> {
    /// The number that the key had before, or none.
    pub before: Option<Num>,
    /// Whether the write was made, so that the key got the value's number.
    pub done: bool,
    /// What reads the value, written or not, for as long as the store lasts.
    pub receipt: Receipt<V>,
}

/// What a write came to that is made where the key has an equal value.
#[derive(Drop)]
pub struct Replaced<V> {
    /// What `replace_if` answers.
    pub stored: Stored<V>,
    /// What reads the value that the key had at last, which was compared; none where it had none.
    pub found: Option<Receipt<V>>,
}

/// What a change came to that is made where the key has an equal value.
#[derive(Drop)]
pub struct Compared<V> {
    /// What reads the value that the key had at last, which was compared; none where it had none.
    pub found: Option<Receipt<V>>,
    /// Whether it was equal, so that the change was made.
    pub done: bool,
}

/// The store didn't show a number that the map gave. No test has seen this.
#[derive(Clone, Copy, Debug, PartialEq, Eq, Error)]
#[error("a value isn't shown")]
pub struct Unshown;

/// Why a value wasn't written. It is handed back, or what reads it.
#[derive(Debug, Drop, Error)]
pub enum LongFault<V> {
    /// There is no memory for the value: it comes back.
    #[error("out of memory")]
    OutOfMemory(V),
    /// It is stored, but past the greatest value number. `Store::placed_value` reads it.
    #[error("value number too large")]
    ValueRange(Placed<V>),
    /// It is stored, but other keys have all slots of the last table. `Store::value` reads it.
    #[error("the map is full")]
    Full(Receipt<V>),
    /// It is stored, but the store didn't show a number that the map gave.
    #[error("a value isn't shown")]
    Unshown(Receipt<V>),
}

impl<V: Drop> From<StoreFault<V>> for LongFault<V> {
    ghost use Rattle.std.specs.Prelude.{◌≡◌};
    ghost use Rattle.nb_long.specs.Typed.{as_fault};

    ghost from_gives = { λ fault given. given ≡ as_fault fault };

    fn from(fault: StoreFault<V>) -> LongFault<V> {
        match fault {
            StoreFault::OutOfMemory(value) => LongFault::OutOfMemory(value),
            StoreFault::ValueRange(placed) => LongFault::ValueRange(placed),
        }
    }
}

impl<V: Drop> LongMap<V> {
    /// An empty map with an empty store, and its seats.
    pub fn new(alloc: Global, shape: Shape) -> Result<(LongMap<V>, Vec<Seat>), OutOfMemory>
        ensures made { IfOk result (λ made. IsMadeFor made.0.map shape) }
        ensures seats { IfOk result (λ made. made.1.items ≡ new_seats made.0.map shape.seats) }
        ensures empty { IfOk result (λ made. HaveEmptyLogs made.1.items) }
        ensures own { IfOk result (λ made. AreMine made.0.map made.1.items) }
    {
        let store = Store::new(alloc)?;
        let (map, seats) = Map::new(alloc, shape)?;
        Ok((LongMap { map, store }, seats))
    }

    /// Stores a value and puts its number at a key. `ConcurrentMap.put`, but that it answers the
    /// number that was there.
    ///
    /// The value is stored first, whatever comes of the write, and stays until the store is
    /// dropped. Lock-free, with the bound of `Map::put`, once the value is stored.
    pub fn put<R: Wait>(
        &self,
        rt: &R,
        seat: &mut Seat,
        key: Key,
        value: V,
    ) -> Result<Stored<V>, LongFault<V>>
        requires own { IsMine self.now.map seat.old }
        ensures { HasPutValue self.now key want.Any value seat.old seat.new result }
    {
        self.parts().put(rt, seat, key, value)
    }

    /// Stores a value and puts its number at a key that has none. `ConcurrentMap.putIfAbsent`. As
    /// `put` else: the value is stored even where the key is there.
    pub fn put_if_absent<R: Wait>(
        &self,
        rt: &R,
        seat: &mut Seat,
        key: Key,
        value: V,
    ) -> Result<Stored<V>, LongFault<V>>
        requires own { IsMine self.now.map seat.old }
        ensures { HasPutValue self.now key want.Absent value seat.old seat.new result }
    {
        self.parts().put_if_absent(rt, seat, key, value)
    }

    /// Stores a value and puts its number in place of another. `ConcurrentMap.replace` of two
    /// arguments. As `put` else, but it is never full.
    pub fn replace<R: Wait>(
        &self,
        rt: &R,
        seat: &mut Seat,
        key: Key,
        value: V,
    ) -> Result<Stored<V>, LongFault<V>>
        requires own { IsMine self.now.map seat.old }
        ensures { HasPutValue self.now key want.Present value seat.old seat.new result }
    {
        self.parts().replace(rt, seat, key, value)
    }

    /// Stores a value and puts its number where the key has a value equal to `old`.
    /// `ConcurrentMap.replace` of three arguments, by `V`'s equality. As `put` else, but it is
    /// never full.
    ///
    /// It reads the key's number, compares, and writes if the number is still there; else it begins
    /// again, as it does, too, where another seat put an equal value meanwhile. It is lock-free:
    /// where other seats win `w` exchanges on the key meanwhile, it takes at most the steps of `w +
    /// 1` such rounds.
    pub fn replace_if<R: Wait>(
        &self,
        rt: &R,
        seat: &mut Seat,
        key: Key,
        old: &V,
        new: V,
    ) -> Result<Stored<V>, LongFault<V>>
    where
        V: PartialEq,
        requires own { IsMine self.now.map seat.old }
        ensures { (found : Option (Where _)) × HasReplacedIf V.eq self.now key old.now new
            seat.old seat.new found result }
    {
        let replaced = self.replace_if_told(rt, seat, key, old, new)?;
        Ok(replaced.stored)
    }

    /// The same, and answers what reads the value that was compared, too.
    pub fn replace_if_told<R: Wait>(
        &self,
        rt: &R,
        seat: &mut Seat,
        key: Key,
        old: &V,
        new: V,
    ) -> Result<Replaced<V>, LongFault<V>>
    where
        V: PartialEq,
        requires own { IsMine self.now.map seat.old }
        ensures { HasReplacedIf V.eq self.now key old.now new seat.old seat.new (found_in result)
            (stored_in result) }
    {
        self.parts().replace_if_told(rt, seat, key, old, new)
    }
}

impl<V> LongMap<V> {
    /// The store of the map's values.
    pub fn store(&self) -> &Store<V>
        ensures { result.now ≡ self.now.store }
    {
        &self.store
    }

    /// The shape that the map was made with.
    pub fn shape(&self) -> &Shape
        ensures { result.now ≡ self.now.map.chain.shape }
    {
        self.map.shape()
    }

    /// What the map has at a key. It is a `get` of the map of numbers, and a look at the store; it
    /// waits for nobody.
    pub fn get(&self, seat: &mut Seat, key: Key) -> Result<Option<Found<'_, V>>, Unshown>
        requires own { IsMine self.now.map seat.old }
        ensures { HasGotValue self.now key seat.old seat.new result }
    {
        self.parts().get(seat, key)
    }

    /// Takes out a key, and answers the number that was there. `ConcurrentMap.remove`. The value
    /// stays in the store.
    pub fn remove<R: Wait>(&self, rt: &R, seat: &mut Seat, key: Key) -> Option<Num>
        requires own { IsMine self.now.map seat.old }
        ensures { HasWritten self.now.map (remove_of key) seat.old seat.new
            Unlimited (outcome.Found result) }
    {
        self.map.remove(rt, seat, key)
    }

    /// Takes out a key that has a value equal to this one, by `V`'s equality, and answers whether
    /// it did. `ConcurrentMap.remove` of two arguments. The value stays in the store. It goes on as
    /// `replace_if` does.
    ///
    /// It is `take_if`. A truth value can't tell which value was compared, so no clause does.
    pub fn remove_if<R: Wait>(
        &self,
        rt: &R,
        seat: &mut Seat,
        key: Key,
        value: &V,
    ) -> Result<bool, Unshown>
    where
        V: PartialEq,
        requires own { IsMine self.now.map seat.old }
        ensures { (found : Option (Where _)) × HasChangedIf V.eq self.now key value.now
            change.Remove seat.old seat.new (with_token found result) }
    {
        let compared = self.take_if(rt, seat, key, value)?;
        Ok(compared.done)
    }

    /// The same, and answers what reads the value that was compared, too.
    pub fn take_if<R: Wait>(
        &self,
        rt: &R,
        seat: &mut Seat,
        key: Key,
        value: &V,
    ) -> Result<Compared<V>, Unshown>
    where
        V: PartialEq,
        requires own { IsMine self.now.map seat.old }
        ensures { HasChangedIf V.eq self.now key value.now change.Remove seat.old seat.new result }
    {
        self.parts().take_if(rt, seat, key, value)
    }

    /// The map of numbers and the store, borrowed.
    fn parts(&self) -> Parts<'_, Map, V>
        ensures map { result.map.now ≡ self.now.map }
        ensures store { result.store.now ≡ self.now.store }
    {
        Parts {
            map: &self.map,
            store: &self.store,
        }
    }

    /// Lets each of two seats see all that the other has seen. Each makes one step, as in
    /// `Map::meet`.
    pub fn meet(&self, a: &mut Seat, b: &mut Seat)
        requires a_own { IsMine self.now.map a.old }
        requires b_own { IsMine self.now.map b.old }
        ensures a { HasMet self.now.map b.old a.old a.new }
        ensures b { HasMet self.now.map a.old b.old b.new }
    {
        self.map.meet(a, b);
    }

    /// With all seats: what is left of the map of numbers, and the store. With another number of
    /// seats everything comes back.
    pub fn finish(self, seats: Vec<Seat>) -> Result<(Ended, Store<V>), NotAll<LongMap<V>, Seat>>
        requires own { AreMine self.map seats.items }
        ensures all { (is_ok result ≡ true) ↔ (length seats.items ≡ self.map.chain.shape.seats) }
        ensures ended { IfOk result (λ left. EndedWith seats.items left.0) }
        ensures tables { IfOk result (λ left. HasTablesLeft self.map.chain.shape seats.items
            left.0) }
        ensures store { IfOk result (λ left. left.1 ≡ self.store) }
        ensures back { IfErr result (λ given. (given.whole ≡ self)
            × (given.seats.items ≡ seats.items)) }
    {
        let LongMap { map, store } = self;
        match map.finish(seats) {
            Ok(ended) => Ok((ended, store)),
            Err(NotAll { whole: map, seats }) => Err(NotAll {
                whole: LongMap { map, store },
                seats,
            }),
        }
    }
}
