//! An update of the value at a key by a function.
ghost use Rattle.std.specs.Borrow.{Bor};
ghost use Rattle.std.specs.Prelude.{IfErr, IfOk, Some, option_map, ◌≡◌};
ghost use Rattle.boxcar.specs.Table.{Where};
ghost use Rattle.nb_map.specs.Maps.{IsMine};
ghost use Rattle.nb_long.specs.Numbers.{HasCalledOver, IsSeated};
ghost use Rattle.nb_long.specs.Stores.{GivesBack};
ghost use Rattle.nb_long.specs.Updating.{HasEndedTry, HasExchanged, HasUpdated, IsStored};

use crate::map::numbers::Numbers;
use crate::map::parts::{Parts, number_in};
use crate::map::{LongMap, Unshown};
use crate::store::{Found, Placed, Receipt, StoreFault};
use nb_core::Key;
use nb_map::{PutFault, Seat};
use std::sync::Wait;
use thiserror::Error;

/// What an update came to.
#[derive(Drop)]
pub struct Updated<V> {
    /// What reads the value that the key had, which the function was called with at last; none
    /// where it had none.
    pub found: Option<Receipt<V>>,
    /// What reads the value that the function then answered, which the key got; none where it
    /// answered none, and the key was taken out.
    pub new: Option<Receipt<V>>,
}

/// Why a value wasn't updated. The map is unchanged by it then. What the function has answered at
/// last is handed back, or what reads it.
#[derive(Debug, Drop, Error)]
pub enum UpdateFault<V> {
    /// There is no memory for the value that the function has answered: it comes back.
    #[error("out of memory")]
    OutOfMemory(V),
    /// It is stored, but past the greatest value number. `Store::placed_value` reads it.
    #[error("value number too large")]
    ValueRange(Placed<V>),
    /// It is stored, but the key had none, and other keys have all slots of the last table.
    /// `Store::value` reads it.
    #[error("the map is full")]
    Full(Receipt<V>),
    /// The store didn't show a number that the map gave, and the function wasn't called with it.
    #[error("a value isn't shown")]
    Unshown,
}

impl<V: Drop> From<StoreFault<V>> for UpdateFault<V> {
    ghost use Rattle.std.specs.Prelude.{◌≡◌};
    ghost use Rattle.nb_long.specs.Updating.{as_update_fault};

    ghost from_gives = { λ fault given. given ≡ as_update_fault fault };

    fn from(fault: StoreFault<V>) -> UpdateFault<V> {
        match fault {
            StoreFault::OutOfMemory(value) => UpdateFault::OutOfMemory(value),
            StoreFault::ValueRange(placed) => UpdateFault::ValueRange(placed),
        }
    }
}

impl<V: Drop> From<Unshown> for UpdateFault<V> {
    ghost use Rattle.std.specs.Prelude.{◌≡◌};
    ghost use Rattle.nb_long.specs.declared.map.updating.UpdateFault.TheVariants as update_fault;

    ghost from_gives = { λ _ given. given ≡ update_fault.Unshown };

    fn from(_unshown: Unshown) -> UpdateFault<V> {
        UpdateFault::Unshown
    }
}

impl<V: Drop> LongMap<V> {
    /// Sets a key to what the function makes of the value that is there, `None` being absent, and
    /// answers what reads both. `ConcurrentMap.compute`.
    ///
    /// It reads the key, calls the function with what the store shows there, stores what the
    /// function answers, and puts its number if the key still has the number that was read; else it
    /// begins again. So the function is called once a try, and each value that it answers stays in
    /// the store, also those of tries that were lost. It is lock-free, once the values are stored:
    /// where other seats win `w` exchanges on the key meanwhile, it takes at most the steps of `w +
    /// 1` such rounds, and the function is called at most `w + 1` times. The function should be
    /// short, since others may write the key while it runs.
    pub fn update<R: Wait, F: FnMut(Option<&V>) -> Option<V>>(
        &self,
        rt: &R,
        seat: &mut Seat,
        key: Key,
        new_of: F,
    ) -> Result<Updated<V>, UpdateFault<V>>
        requires own { IsMine self.now.map seat.old }
        requires callable { F.IsAlwaysCallable new_of }
        ensures { HasUpdated self.now F.step new_of key seat.old seat.new result }
    {
        self.parts().update(rt, seat, key, new_of)
    }
}

impl<M: Numbers, V: Drop> Parts<'_, M, V> {
    /// `LongMap::update`.
    pub(crate) fn update<R: Wait, F: FnMut(Option<&V>) -> Option<V>>(
        &self,
        rt: &R,
        caller: &mut M::Caller,
        key: Key,
        mut new_of: F,
    ) -> Result<Updated<V>, UpdateFault<V>>
        requires own { IsSeated (M.handle self.now.map.now caller.old) }
        requires callable { F.IsAlwaysCallable new_of }
        ensures { HasCalledOver self.now.store.now
            (λ m before after. HasUpdated m F.step new_of key before after result)
            (M.handle self.now.map.now caller.old) (M.handle self.now.map.now caller.new) }
    {
        for _ in rt.forever() {
            if let Some(updated) = self.update_once(rt, caller, key, &mut new_of)? {
                return Ok(updated);
            }
        }
        unreachable!()
    }

    /// One try. It answers none where another seat came first.
    fn update_once<R: Wait, F: FnMut(Option<&V>) -> Option<V>>(
        &self,
        rt: &R,
        caller: &mut M::Caller,
        key: Key,
        new_of: &mut F,
    ) -> Result<Option<Updated<V>>, UpdateFault<V>>
        requires own { IsSeated (M.handle self.now.map.now caller.old) }
        requires callable { F.IsAlwaysCallable new_of.old }
        ensures ended { HasCalledOver self.now.store.now
            (λ m before after. HasEndedTry m F.step key before new_of.old after new_of.new result)
            (M.handle self.now.map.now caller.old) (M.handle self.now.map.now caller.new) }
        ensures own { IsSeated (M.handle self.now.map.now caller.new) }
        ensures callable { F.IsAlwaysCallable new_of.new }
    {
        let found = self.get(caller, key)?;
        let value = new_of(value_in(&found));
        let new = self.store_some(rt, value)?;
        self.exchange_once(caller, key, receipt_in(found), new)
    }

    /// Stores a value, if there is one.
    fn store_some<R: Wait>(
        &self,
        rt: &R,
        value: Option<V>,
    ) -> Result<Option<Receipt<V>>, StoreFault<V>>
        ensures stored { IfOk result (IsStored self.now.store.now value) }
        ensures refused { IfErr result (λ fault. (v : _) × (value ≡ Some v)
            × GivesBack self.now.store.now v fault) }
    {
        let Some(value) = value else {
            return Ok(None);
        };
        let receipt = self.store.push(rt, value)?;
        Ok(Some(receipt))
    }

    /// Exchanges the number that was found for the new one's, with one try. It answers none where
    /// another seat came first.
    fn exchange_once(
        &self,
        caller: &mut M::Caller,
        key: Key,
        found: Option<Receipt<V>>,
        new: Option<Receipt<V>>,
    ) -> Result<Option<Updated<V>>, UpdateFault<V>>
        requires own { IsSeated (M.handle self.now.map.now caller.old) }
        ensures { HasCalledOver self.now.store.now
            (λ m before after. HasExchanged m key found new before after result)
            (M.handle self.now.map.now caller.old) (M.handle self.now.map.now caller.new) }
    {
        match self
            .map
            .compare_exchange(caller, key, number_in(&found), number_in(&new))
        {
            Ok(reply) if reply.matched => Ok(Some(Updated { found, new })),
            Ok(_) => Ok(None),
            Err(PutFault::Contended) => Ok(None),
            Err(PutFault::Full) => match new {
                Some(receipt) => Err(UpdateFault::Full(receipt)),
                None => unreachable!(),
            },
            Err(PutFault::ValueRange) => unreachable!(),
        }
    }
}

/// The value that is shown, if there is one.
fn value_in<'a, V>(found: &Option<Found<'a, V>>) -> Option<&'a V>
    ensures { option_map (λ (value : Bor _). value.now) result
        ≡ option_map (λ (token : Where _). token.value) found.now }
{
    match found {
        Some(shown) => Some(shown.value()),
        None => None,
    }
}

/// A receipt of what is shown, if there is something.
fn receipt_in<V>(found: Option<Found<'_, V>>) -> Option<Receipt<V>>
    ensures { result ≡ found.entry }
{
    match found {
        Some(shown) => Some(shown.into_receipt()),
        None => None,
    }
}
