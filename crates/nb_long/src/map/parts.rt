//! The two parts of a typed map, borrowed, and the calls that take both.
ghost use Rattle.std.specs.Prelude.{◌≡◌};
ghost use Rattle.nb_core.specs.declared.calls.Change.TheVariants as change;
ghost use Rattle.nb_core.specs.declared.calls.Want.TheVariants as want;
ghost use Rattle.nb_map.specs.NamedCalls.{change_to};
ghost use Rattle.nb_long.specs.Numbers.{HasCalledOver, IsSeated};
ghost use Rattle.nb_long.specs.Promises.{HasChangedIf, HasGotValue, HasMadeRound, HasPutValue, HasReplacedIf, found_in, stored_in};
ghost use Rattle.nb_long.specs.Typed.{number_of};

use crate::map::numbers::Numbers;
use crate::map::{Compared, LongFault, Replaced, Stored, Unshown};
use crate::store::{Found, Receipt, Store};
use nb_core::{Key, Num};
use nb_map::{Full, PutFault};
use std::sync::Wait;

/// A map of numbers, and the store that has a value under each of them. A `LongMap` owns both; a
/// handle of a typed map calls the map by its own handle, and shares the store.
#[derive(Drop)]
pub(crate) struct Parts<'a, M, V> {
    pub(crate) map: &'a M,
    pub(crate) store: &'a Store<V>,
}

impl<M: Numbers, V: Drop> Parts<'_, M, V> {
    /// `LongMap::put`.
    pub(crate) fn put<R: Wait>(
        &self,
        rt: &R,
        caller: &mut M::Caller,
        key: Key,
        value: V,
    ) -> Result<Stored<V>, LongFault<V>>
        requires own { IsSeated (M.handle self.now.map.now caller.old) }
        ensures { HasCalledOver self.now.store.now
            (λ m before after. HasPutValue m key want.Any value before after result)
            (M.handle self.now.map.now caller.old) (M.handle self.now.map.now caller.new) }
    {
        let receipt = self.store.push(rt, value)?;
        match self.map.put(rt, caller, key, receipt.number()) {
            Ok(before) => Ok(Stored {
                before,
                done: true,
                receipt,
            }),
            Err(Full) => Err(LongFault::Full(receipt)),
        }
    }

    /// `LongMap::put_if_absent`.
    pub(crate) fn put_if_absent<R: Wait>(
        &self,
        rt: &R,
        caller: &mut M::Caller,
        key: Key,
        value: V,
    ) -> Result<Stored<V>, LongFault<V>>
        requires own { IsSeated (M.handle self.now.map.now caller.old) }
        ensures { HasCalledOver self.now.store.now
            (λ m before after. HasPutValue m key want.Absent value before after result)
            (M.handle self.now.map.now caller.old) (M.handle self.now.map.now caller.new) }
    {
        let receipt = self.store.push(rt, value)?;
        match self.map.put_if_absent(rt, caller, key, receipt.number()) {
            Ok(before) => Ok(Stored {
                before,
                done: before.is_none(),
                receipt,
            }),
            Err(Full) => Err(LongFault::Full(receipt)),
        }
    }

    /// `LongMap::replace`.
    pub(crate) fn replace<R: Wait>(
        &self,
        rt: &R,
        caller: &mut M::Caller,
        key: Key,
        value: V,
    ) -> Result<Stored<V>, LongFault<V>>
        requires own { IsSeated (M.handle self.now.map.now caller.old) }
        ensures { HasCalledOver self.now.store.now
            (λ m before after. HasPutValue m key want.Present value before after result)
            (M.handle self.now.map.now caller.old) (M.handle self.now.map.now caller.new) }
    {
        let receipt = self.store.push(rt, value)?;
        let before = self.map.replace(rt, caller, key, receipt.number());
        Ok(Stored {
            before,
            done: before.is_some(),
            receipt,
        })
    }

    /// `LongMap::replace_if_told`.
    pub(crate) fn replace_if_told<R: Wait>(
        &self,
        rt: &R,
        caller: &mut M::Caller,
        key: Key,
        old: &V,
        new: V,
    ) -> Result<Replaced<V>, LongFault<V>>
    where
        V: PartialEq,
        requires own { IsSeated (M.handle self.now.map.now caller.old) }
        ensures { HasCalledOver self.now.store.now
            (λ m before after. HasReplacedIf V.eq m key old.now new before after (found_in result)
            (stored_in result))
            (M.handle self.now.map.now caller.old) (M.handle self.now.map.now caller.new) }
    {
        let receipt = self.store.push(rt, new)?;
        let number = Some(receipt.number());
        match self.change_if(rt, caller, key, old, &number) {
            Ok(Compared { found, done }) => {
                let before = number_in(&found);
                let stored = Stored {
                    before,
                    done,
                    receipt,
                };
                Ok(Replaced { stored, found })
            }
            Err(Unshown) => Err(LongFault::Unshown(receipt)),
        }
    }
}

/// The number of a receipt, if there is one.
pub(super) fn number_in<V>(found: &Option<Receipt<V>>) -> Option<Num>
    ensures { result ≡ number_of found.now }
{
    match found {
        Some(receipt) => Some(receipt.number()),
        None => None,
    }
}

impl<'a, M: Numbers, V> Parts<'a, M, V> {
    /// `LongMap::get`.
    pub(crate) fn get(
        &self,
        caller: &mut M::Caller,
        key: Key,
    ) -> Result<Option<Found<'a, V>>, Unshown>
        requires own { IsSeated (M.handle self.now.map.now caller.old) }
        ensures { HasCalledOver self.now.store.now
            (λ m before after. HasGotValue m key before after result)
            (M.handle self.now.map.now caller.old) (M.handle self.now.map.now caller.new) }
    {
        let Some(number) = self.map.get(caller, key) else {
            return Ok(None);
        };
        match self.store.show(number) {
            Some(shown) => Ok(Some(shown)),
            None => Err(Unshown),
        }
    }

    /// `LongMap::take_if`.
    pub(crate) fn take_if<R: Wait>(
        &self,
        rt: &R,
        caller: &mut M::Caller,
        key: Key,
        value: &V,
    ) -> Result<Compared<V>, Unshown>
    where
        V: PartialEq,
        requires own { IsSeated (M.handle self.now.map.now caller.old) }
        ensures { HasCalledOver self.now.store.now
            (λ m before after. HasChangedIf V.eq m key value.now change.Remove before after result)
            (M.handle self.now.map.now caller.old) (M.handle self.now.map.now caller.new) }
    {
        self.change_if(rt, caller, key, value, &None)
    }

    /// Sets a key to this number, or takes it out, where it has a value equal to this one.
    fn change_if<R: Wait>(
        &self,
        rt: &R,
        caller: &mut M::Caller,
        key: Key,
        value: &V,
        new: &Option<Num>,
    ) -> Result<Compared<V>, Unshown>
    where
        V: PartialEq,
        requires own { IsSeated (M.handle self.now.map.now caller.old) }
        ensures { HasCalledOver self.now.store.now
            (λ m before after. HasChangedIf V.eq m key value.now (change_to new.now) before after
            result)
            (M.handle self.now.map.now caller.old) (M.handle self.now.map.now caller.new) }
    {
        for _ in rt.forever() {
            if let Some(compared) = self.change_once(caller, key, value, *new)? {
                return Ok(compared);
            }
        }
        unreachable!()
    }

    /// The same, or none where another seat has written the key since it was read.
    fn change_once(
        &self,
        caller: &mut M::Caller,
        key: Key,
        value: &V,
        new: Option<Num>,
    ) -> Result<Option<Compared<V>>, Unshown>
    where
        V: PartialEq,
        requires own { IsSeated (M.handle self.now.map.now caller.old) }
        ensures { HasCalledOver self.now.store.now
            (λ m before after. HasMadeRound V.eq m key value.now new before after result)
            (M.handle self.now.map.now caller.old) (M.handle self.now.map.now caller.new) }
    {
        let Some(found) = self.get(caller, key)? else {
            return Ok(Some(Compared {
                found: None,
                done: false,
            }));
        };
        let number = found.number();
        let equal = found.value() == value;
        let found = Some(found.into_receipt());
        if !equal {
            return Ok(Some(Compared { found, done: false }));
        }
        match self.map.compare_exchange(caller, key, Some(number), new) {
            Ok(reply) if reply.matched => Ok(Some(Compared { found, done: true })),
            Ok(_) => Ok(None),
            Err(PutFault::Contended) => Ok(None),
            Err(PutFault::Full) => unreachable!(),
            Err(PutFault::ValueRange) => unreachable!(),
        }
    }
}
