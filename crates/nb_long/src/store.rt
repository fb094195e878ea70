//! The store: values in a vector that only grows, each read by reference for as long as the store
//! lasts.
ghost use Rattle.std.specs.Prelude.{◌≡◌, ◌==◌, ◌≤◌, ◌<◌, true, IfOk, IfErr, IfSome};
ghost use Rattle.boxcar.specs.Table.{Shows};
ghost use Rattle.nb_core.specs.declared.numbers.TheConstants.{VALUE_MAX};
ghost use Rattle.nb_long.specs.Stores.{GivesBack, HasStored};

use boxcar::Pushed;
use nb_core::{Num, OutOfMemory};
use std::alloc::Global;
use std::fmt;
use std::fmt::{Debug, Formatter};
use std::marker::Model;
use std::ops::Deref;
use std::sync::Wait;
use thiserror::Error;

/// Values of which each is stored once, by any thread, and stays until the store is dropped.
#[derive(Drop)]
pub struct Store<V> {
    values: boxcar::Vec<V>,
}

impl<V> Model for Store<V> {
    ghost use Rattle.boxcar.specs.Table.{Shelves, shelves_coded};

    ghost Value = { Shelves };

    ghost coded = { shelves_coded };

    ghost view = { λ s. s.values };
}

/// What shows that a store holds a value, and where. Contracts see the value.
#[derive(Drop)]
pub struct Placed<V> {
    pushed: Pushed<V>,
}

impl<V> Model for Placed<V> {
    ghost use Rattle.boxcar.specs.Table.{Where, where_coded};

    ghost Value = { Where V };

    ghost coded = { where_coded V.code };

    ghost view = { λ p. p.pushed };
}

/// The same, of a value whose place is a value number: the number under which a map has the value.
#[derive(Drop)]
pub struct Receipt<V> {
    pushed: Pushed<V>,
}

impl<V> Model for Receipt<V> {
    ghost use Rattle.std.specs.Prelude.{◌≤◌};
    ghost use Rattle.nb_core.specs.declared.numbers.TheConstants.{VALUE_MAX};
    ghost use Rattle.boxcar.specs.Table.{Where, where_coded};

    ghost Value = { Where V };

    ghost coded = { where_coded V.code };

    ghost view = { λ r. r.pushed };

    ghost invariant = { λ r. r.pushed.index ≤ VALUE_MAX };
}

impl<V> Receipt<V> {
    /// The number under which the value is stored.
    pub fn number(&self) -> Num
        ensures { result ≡ self.now.index }
    {
        match Num::new(self.pushed.index() as u64) {
            Ok(number) => number,
            Err(_) => unreachable!(),
        }
    }
}

/// A value that a store shows under a number.
#[derive(Drop)]
pub struct Found<'a, V> {
    number: Num,
    pushed: Pushed<V>,
    value: &'a V,
}

impl<'a, V> Model for Found<'a, V> {
    ghost use Rattle.std.specs.Prelude.{◌≡◌};
    ghost use Rattle.boxcar.specs.Table.{Where, where_coded};

    ghost Value = { Where V };

    ghost coded = { where_coded V.code };

    ghost view = { λ s. s.pushed };

    ghost invariant = { λ s. (s.number ≡ s.pushed.index) × (s.value.now ≡ s.pushed.value) };
}

impl<V> Deref for Found<'_, V> {
    type Target = V;

    ghost deref_gives = { λ shown value. value ≡ shown.value };

    fn deref(&self) -> &V {
        self.value
    }
}

impl<'a, V> Found<'a, V> {
    /// The number under which the store holds the value, and which the map had.
    pub fn number(&self) -> Num
        ensures { result ≡ self.now.index }
    {
        self.number
    }

    /// The value, which lives as long as the store does.
    pub fn value(&self) -> &'a V
        ensures { result.now ≡ self.now.value }
    {
        self.value
    }

    /// A receipt of the same value, which borrows nothing.
    pub fn into_receipt(self) -> Receipt<V>
        ensures { result ≡ self.entry }
    {
        let Found { pushed, .. } = self;
        Receipt { pushed }
    }
}

impl<V> Debug for Placed<V> {
    fn fmt<W: fmt::Write>(&self, f: &mut Formatter<W>) -> fmt::Result {
        f.debug_tuple("Placed").field(&self.pushed.index()).finish()
    }
}

impl<V> Debug for Receipt<V> {
    fn fmt<W: fmt::Write>(&self, f: &mut Formatter<W>) -> fmt::Result {
        f.debug_tuple("Receipt")
            .field(&self.pushed.index())
            .finish()
    }
}

/// Why a value wasn't stored as asked.
#[derive(Debug, Drop, Error)]
pub enum StoreFault<V> {
    /// There is no memory for it: the value comes back.
    #[error("out of memory")]
    OutOfMemory(V),
    /// It is stored, but past the greatest value number. `Store::placed_value` reads it.
    #[error("value number too large")]
    ValueRange(Placed<V>),
}

impl<V: Drop> Store<V> {
    /// An empty store.
    pub fn new(alloc: Global) -> Result<Store<V>, OutOfMemory> {
        let values = boxcar::Vec::new(alloc)?;
        Ok(Store { values })
    }

    /// Stores a value, for as long as the store lasts. It may wait while another thread makes room
    /// for both.
    pub fn push<R: Wait>(&self, rt: &R, value: V) -> Result<Receipt<V>, StoreFault<V>>
        ensures stored { IfOk result (HasStored self.now value) }
        ensures refused { IfErr result (GivesBack self.now value) }
    {
        match self.values.push_shown(rt, value) {
            Err(value) => Err(StoreFault::OutOfMemory(value)),
            Ok(pushed) => {
                if Num::new(pushed.index() as u64).is_ok() {
                    Ok(Receipt { pushed })
                } else {
                    Err(StoreFault::ValueRange(Placed { pushed }))
                }
            }
        }
    }
}

impl<V> Store<V> {
    /// The value that was stored.
    pub fn value<'a>(&'a self, receipt: &Receipt<V>) -> &'a V
        requires { Shows self.now receipt.now }
        ensures { result.now ≡ receipt.now.value }
    {
        self.values.value(&receipt.pushed)
    }

    /// The value that was stored past the greatest value number.
    pub fn placed_value<'a>(&'a self, placed: &Placed<V>) -> &'a V
        requires { Shows self.now placed.now }
        ensures { result.now ≡ placed.now.value }
    {
        self.values.value(&placed.pushed)
    }

    /// What is stored under a number, if there is anything now.
    pub fn show(&self, number: Num) -> Option<Found<'_, V>>
        ensures { IfSome result (λ shown. Shows self.now shown × (shown.index ≡ number)) }
    {
        let pushed = self.values.witness(number.get() as usize)?;
        let value = self.values.value(&pushed);
        Some(Found {
            number,
            pushed,
            value,
        })
    }

    /// Whether both have one number; then they have one value.
    pub fn agree(&self, receipt: &Receipt<V>, shown: &Found<'_, V>) -> bool
        requires receipt { Shows self.now receipt.now }
        requires shown { Shows self.now shown.now }
        ensures agrees { result ≡ (receipt.now.index == shown.now.index) }
        ensures same { result ≡ true → receipt.now.value ≡ shown.now.value }
    {
        if receipt.pushed.index() != shown.pushed.index() {
            return false;
        }
        self.values.agrees(&receipt.pushed, &shown.pushed);
        true
    }
}
