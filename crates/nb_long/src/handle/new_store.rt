//! A typed map is made anew with a new store, into which just the values of its keys go.
ghost use Rattle.std.specs.List.{range_with_len};
ghost use Rattle.std.specs.Prelude.{All, Err, IfErr, IfOk, length, map, ◌↔◌, ◌≡◌, ◌≢◌};
ghost use Rattle.nb_long.specs.Handles.{IsWhole};
ghost use Rattle.nb_long.specs.NewStore.{HasRenewedStore, IsCarried, new_entry, old_entry};
ghost use Rattle.nb_long.specs.Renewing.{HasTooMany, IsKept};
ghost use Rattle.nb_long.specs.Stores.{HasStored};
ghost use Rattle.nb_long.specs.declared.new_store.RenewStoreFault.TheVariants as fault;

use crate::handle::Handle;
use crate::handle::closing::sole;
use crate::new_store::{Carried, RenewStoreFault, Renewed};
use crate::store::{Receipt, Store, StoreFault};
use nb_core::{Key, Num, OutOfMemory, Shape};
use std::alloc::Global;
use std::mem;
use std::sync::{Arc, Wait};

impl<V: Drop> Handle<V> {
    /// With all seats: the handle goes on over a new map of this shape and a new store, as `renew`
    /// does over the old one. Of the old store's values just those that keys have are cloned into
    /// the new one. So what was written over or taken out is freed with the old store, which is
    /// handed out, with what reads each key's value in both stores. It makes a walk, and a clone and
    /// a write for each key. It takes memory for the entries three times, for the clones and for the
    /// new map, while the old one and its store are still there. Where memory is refused, or the
    /// shape has too few slots, or a seat is missing, the handle is of the old map and store still.
    /// No other handle has the stores then, so it waits for nobody.
    pub fn renew_store<R: Wait>(
        &mut self,
        rt: &R,
        alloc: Global,
        shape: Shape,
    ) -> Result<Renewed<V>, RenewStoreFault>
    where
        V: Clone,
        ensures all { (result ≡ Err fault.NotAll) ↔ (IsWhole self.old → ⊥) }
        ensures renewed { IfOk result (HasRenewedStore V.is_clone shape self.old self.new) }
        ensures full { result ≡ Err fault.Full → HasTooMany shape self.old }
        ensures kept { IfErr result (λ _. IsKept self.old self.new) }
        ensures back { result ≡ Err fault.NotAll → self.new ≡ self.old }
    {
        let entries = self.entries(alloc)?;
        let store = Store::new(alloc)?;
        let carried = carry_all(rt, alloc, &self.store, &store, entries)?;
        let entries = new_entries(alloc, &carried)?;
        let Ok(store) = Arc::new(alloc, store) else {
            return Err(RenewStoreFault::OutOfMemory);
        };
        self.map = nb_map::Handle::open_with(alloc, shape, entries.as_slice())?;
        let old = mem::replace(&mut self.store, store);
        Ok(Renewed {
            store: sole(rt, old),
            carried,
        })
    }
}

/// The values of these entries are cloned into an empty store.
fn carry_all<V: Clone, R: Wait>(
    rt: &R,
    alloc: Global,
    old: &Store<V>,
    new: &Store<V>,
    entries: Vec<(Key, Num)>,
) -> Result<Vec<Carried<V>>, RenewStoreFault>
    ensures all { IfOk result (λ all. map old_entry all.items ≡ entries.items) }
    ensures carried { IfOk result (λ all. All (IsCarried V.is_clone old.now new.now) all.items) }
    ensures numbered { IfOk result (λ all. map (λ carried. carried.new.index) all.items
        ≡ range_with_len 0 (length all.items)) }
    ensures refused { (result ≢ Err fault.NotAll) × (result ≢ Err fault.Full) }
{
    let mut all = Vec::with_capacity(alloc, entries.len())?;
    for (key, number) in entries {
        let carried = carry(rt, old, new, key, number)?;
        if carried.new.number().get() != all.len() as u64 {
            return Err(RenewStoreFault::Unshown);
        }
        all.push_reserved(carried);
    }
    Ok(all)
}

/// A key's value is cloned into another store.
fn carry<V: Clone, R: Wait>(
    rt: &R,
    old: &Store<V>,
    new: &Store<V>,
    key: Key,
    number: Num,
) -> Result<Carried<V>, RenewStoreFault>
    ensures entry { IfOk result (λ carried. old_entry carried ≡ (key, number)) }
    ensures carried { IfOk result (IsCarried V.is_clone old.now new.now) }
    ensures refused { (result ≢ Err fault.NotAll) × (result ≢ Err fault.Full) }
{
    let found = old.show(number).ok_or(RenewStoreFault::Unshown)?;
    let new = store_value(rt, new, found.value().clone()?)?;
    Ok(Carried {
        key,
        old: found.into_receipt(),
        new,
    })
}

/// Stores a value, with the faults of a renewal.
fn store_value<V: Drop, R: Wait>(
    rt: &R,
    store: &Store<V>,
    value: V,
) -> Result<Receipt<V>, RenewStoreFault>
    ensures stored { IfOk result (HasStored store.now value) }
    ensures refused { (result ≢ Err fault.NotAll) × (result ≢ Err fault.Full) }
{
    match store.push(rt, value) {
        Ok(receipt) => Ok(receipt),
        Err(StoreFault::OutOfMemory(_)) => Err(RenewStoreFault::OutOfMemory),
        Err(StoreFault::ValueRange(_)) => Err(RenewStoreFault::Unshown),
    }
}

/// The entries of the new map of numbers.
fn new_entries<V>(alloc: Global, carried: &Vec<Carried<V>>) -> Result<Vec<(Key, Num)>, OutOfMemory>
    ensures { IfOk result (λ entries. entries.items ≡ map new_entry carried.now.items) }
{
    let mut entries = Vec::with_capacity(alloc, carried.len())?;
    for one in carried.iter() {
        entries.push_reserved((one.key, one.new.number()));
    }
    Ok(entries)
}
