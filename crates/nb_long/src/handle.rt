//! Handles: the ways of threads to a typed map that they share.
ghost use Rattle.std.specs.Prelude.{IfErr, IfOk, IfSome, Option, is_ok, true, ◌↔◌, ◌≡◌};
ghost use Rattle.boxcar.specs.Table.{Shows, Where};
ghost use Rattle.nb_core.specs.declared.calls.Change.TheVariants as change;
ghost use Rattle.nb_core.specs.declared.calls.Want.TheVariants as want;
ghost use Rattle.nb_map.specs.Ending.{EndedWith, HasTablesLeft};
ghost use Rattle.nb_map.specs.Logs.{HaveEmptyLogs};
ghost use Rattle.nb_map.specs.Maps.{AreMine, IsMadeFor, IsMine, new_seats};
ghost use Rattle.nb_map.specs.NamedCalls.{remove_of};
ghost use Rattle.nb_map.specs.Progress.{Unlimited};
ghost use Rattle.nb_map.specs.Promises.{HasGot, HasMet, HasWritten};
ghost use Rattle.nb_map.specs.Promises as outcome;
ghost use Rattle.nb_long.specs.Handles.{IsWhole, KeepsRest, seats_of};
ghost use Rattle.nb_long.specs.Promises.{HasChangedIf, HasPutValue, HasReplacedIf, found_in, stored_in, with_token};

mod closing;
mod fullness;
mod listing;
mod new_store;
mod renewing;
mod settling;
mod splitting;
mod updating;

use crate::map::numbers::ByHandle;
use crate::map::parts::Parts;
use crate::map::{Compared, LongFault, Replaced, Stored, Unshown};
use crate::store::{Found, Store};
use nb_core::{Key, Num, OutOfMemory, Shape};
use std::alloc::Global;
use std::marker::Model;
use std::sync::{Arc, Wait};

/// One thread's way to a typed map that others share: a handle of the map of numbers, and a counted
/// reference to the store.
#[derive(Drop)]
pub struct Handle<V> {
    map: nb_map::Handle,
    store: Arc<Store<V>, Global>,
}

impl<V> Model for Handle<V> {
    ghost use Rattle.std.specs.Arc.{arc_value};
    ghost use Rattle.nb_long.specs.Handles.{HandleOf, with_store};

    ghost Value = { HandleOf };

    ghost view = { λ h. with_store (arc_value h.store) h.map };
}

impl<V: Drop> Handle<V> {
    /// A new map with an empty store, as the one handle that has all its seats: one to call with,
    /// and the others in reserve.
    pub fn open(alloc: Global, shape: Shape) -> Result<Handle<V>, OutOfMemory>
        ensures made { IfOk result (λ handle. IsMadeFor handle.map.map shape) }
        ensures seats { IfOk result (λ handle. seats_of handle
            ≡ new_seats handle.map.map shape.seats) }
        ensures empty { IfOk result (λ handle. HaveEmptyLogs (seats_of handle)) }
    {
        let store = Store::new(alloc)?;
        let Ok(store) = Arc::new(alloc, store) else {
            return Err(OutOfMemory);
        };
        let map = nb_map::Handle::open(alloc, shape)?;
        Ok(Handle { map, store })
    }

    /// What every handle is: its seats are seats of its map. Nothing runs. A proof over several
    /// calls of a handle sets out from it.
    pub fn known(&self)
        ensures own { IsMine self.now.map.map self.now.seat }
        ensures reserve { AreMine self.now.map.map self.now.reserve }
    {
        self.map.known();
    }

    /// The number of the value that the map has at a key, which `show` reads. It is `LongMap::get`
    /// in two calls: what is shown is borrowed from the handle, and a read changes the handle.
    pub fn number_at(&mut self, key: Key) -> Option<Num>
        ensures got { HasGot self.old.map.map key self.old.seat self.new.seat result }
        ensures rest { KeepsRest self.old self.new }
    {
        self.map.get(key)
    }

    /// What the store has under a number, if it shows anything: `Store::show`.
    pub fn show(&self, number: Num) -> Option<Found<'_, V>>
        ensures { IfSome result (λ shown. Shows self.now.map.store shown
            × (shown.index ≡ number)) }
    {
        self.store.show(number)
    }

    /// Stores a value and puts its number at a key: `LongMap::put`.
    pub fn put<R: Wait>(&mut self, rt: &R, key: Key, value: V) -> Result<Stored<V>, LongFault<V>>
        ensures wrote { HasPutValue self.old.map key want.Any value self.old.seat self.new.seat
            result }
        ensures rest { KeepsRest self.old self.new }
    {
        self.map.known();
        by_handle(&self.store).put(rt, &mut self.map, key, value)
    }

    /// The same at a key that has none: `LongMap::put_if_absent`.
    pub fn put_if_absent<R: Wait>(
        &mut self,
        rt: &R,
        key: Key,
        value: V,
    ) -> Result<Stored<V>, LongFault<V>>
        ensures wrote { HasPutValue self.old.map key want.Absent value self.old.seat self.new.seat
            result }
        ensures rest { KeepsRest self.old self.new }
    {
        self.map.known();
        by_handle(&self.store).put_if_absent(rt, &mut self.map, key, value)
    }

    /// The same in place of another number: `LongMap::replace`.
    pub fn replace<R: Wait>(
        &mut self,
        rt: &R,
        key: Key,
        value: V,
    ) -> Result<Stored<V>, LongFault<V>>
        ensures wrote { HasPutValue self.old.map key want.Present value self.old.seat self.new.seat
            result }
        ensures rest { KeepsRest self.old self.new }
    {
        self.map.known();
        by_handle(&self.store).replace(rt, &mut self.map, key, value)
    }

    /// The same where the key has a value equal to `old`: `LongMap::replace_if`.
    pub fn replace_if<R: Wait>(
        &mut self,
        rt: &R,
        key: Key,
        old: &V,
        new: V,
    ) -> Result<Stored<V>, LongFault<V>>
    where
        V: PartialEq,
        ensures wrote { (found : Option (Where _)) × HasReplacedIf V.eq self.old.map key old.now
            new self.old.seat self.new.seat found result }
        ensures rest { KeepsRest self.old self.new }
    {
        let replaced = self.replace_if_told(rt, key, old, new)?;
        Ok(replaced.stored)
    }

    /// The same, and answers what reads the value that was compared, too:
    /// `LongMap::replace_if_told`.
    pub fn replace_if_told<R: Wait>(
        &mut self,
        rt: &R,
        key: Key,
        old: &V,
        new: V,
    ) -> Result<Replaced<V>, LongFault<V>>
    where
        V: PartialEq,
        ensures wrote { HasReplacedIf V.eq self.old.map key old.now new self.old.seat self.new.seat
            (found_in result) (stored_in result) }
        ensures rest { KeepsRest self.old self.new }
    {
        self.map.known();
        by_handle(&self.store).replace_if_told(rt, &mut self.map, key, old, new)
    }

    /// Takes out a key, and answers the number that was there: `LongMap::remove`.
    pub fn remove<R: Wait>(&mut self, rt: &R, key: Key) -> Option<Num>
        ensures wrote { HasWritten self.old.map.map (remove_of key) self.old.seat self.new.seat
            Unlimited (outcome.Found result) }
        ensures rest { KeepsRest self.old self.new }
    {
        self.map.remove(rt, key)
    }

    /// Takes out a key that has a value equal to this one, and answers whether it did:
    /// `LongMap::remove_if`.
    pub fn remove_if<R: Wait>(&mut self, rt: &R, key: Key, value: &V) -> Result<bool, Unshown>
    where
        V: PartialEq,
        ensures wrote { (found : Option (Where _)) × HasChangedIf V.eq self.old.map key value.now
            change.Remove self.old.seat self.new.seat (with_token found result) }
        ensures rest { KeepsRest self.old self.new }
    {
        let compared = self.take_if(rt, key, value)?;
        Ok(compared.done)
    }

    /// The same, and answers what reads the value that was compared, too: `LongMap::take_if`.
    pub fn take_if<R: Wait>(&mut self, rt: &R, key: Key, value: &V) -> Result<Compared<V>, Unshown>
    where
        V: PartialEq,
        ensures wrote { HasChangedIf V.eq self.old.map key value.now change.Remove
            self.old.seat self.new.seat result }
        ensures rest { KeepsRest self.old self.new }
    {
        self.map.known();
        by_handle(&self.store).take_if(rt, &mut self.map, key, value)
    }

    /// Lets each of two handles of a map see all that the other has seen. Whether they are of one
    /// map can't be told when it runs, so it is asked for.
    pub fn meet(&mut self, other: &mut Handle<V>)
        requires one { self.old.map ≡ other.old.map }
        ensures here { HasMet self.old.map.map other.old.seat self.old.seat self.new.seat }
        ensures there { HasMet self.old.map.map self.old.seat other.old.seat other.new.seat }
        ensures rest { KeepsRest self.old self.new × KeepsRest other.old other.new }
    {
        self.map.meet(&mut other.map);
    }

    /// The store of the map's values.
    pub fn store(&self) -> &Store<V>
        ensures { result.now ≡ self.now.map.store }
    {
        &self.store
    }

    /// The shape that the map was made with.
    pub fn shape(&self) -> &Shape
        ensures { result.now ≡ self.now.map.map.chain.shape }
    {
        self.map.shape()
    }
}

/// The calls that take the store, too.
fn by_handle<V>(store: &Store<V>) -> Parts<'_, ByHandle, V>
    ensures { result.store.now ≡ store.now }
{
    Parts {
        map: &ByHandle,
        store,
    }
}
