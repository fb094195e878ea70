//! What comes of a typed map that is made anew with a new store.
ghost use Rattle.std.specs.Prelude.{◌≡◌};

use crate::store::{Receipt, Store};
use nb_core::{Key, OutOfMemory};
use nb_map::{OpenFault, SettleFault};
use thiserror::Error;

/// A key's value that was carried over into a new store.
#[derive(Drop)]
pub struct Carried<V> {
    pub key: Key,
    /// What reads the value in the old store.
    pub old: Receipt<V>,
    /// What reads its clone in the new one.
    pub new: Receipt<V>,
}

/// What a typed map that was made anew with a new store leaves behind.
#[derive(Drop)]
pub struct Renewed<V> {
    /// The old store. What reads its values still does, until it is dropped.
    pub store: Store<V>,
    /// For each key its value, in the old store and in the new one.
    pub carried: Vec<Carried<V>>,
}

/// Why a typed map wasn't made anew with a new store.
#[derive(Clone, Copy, Debug, PartialEq, Eq, Error)]
pub enum RenewStoreFault {
    /// The map has more keys than the last table of the new shape has slots.
    #[error("the new map is full")]
    Full,
    /// Some of the map's seats aren't there.
    #[error("a seat is missing")]
    NotAll,
    /// Memory was refused: for the new map, the new store, a clone, the entries, or to settle the
    /// seats.
    #[error("out of memory")]
    OutOfMemory,
    /// The store didn't show a number that the map gave, or the new one didn't number its values
    /// from 0 on. No test has seen this.
    #[error("a value isn't shown")]
    Unshown,
}

impl From<OutOfMemory> for RenewStoreFault {
    ghost use Rattle.nb_long.specs.declared.new_store.RenewStoreFault.TheVariants.{OutOfMemory};

    ghost from_gives = { λ _ fault. fault ≡ OutOfMemory };

    fn from(_refused: OutOfMemory) -> RenewStoreFault {
        RenewStoreFault::OutOfMemory
    }
}

impl From<SettleFault> for RenewStoreFault {
    ghost use Rattle.nb_long.specs.NewStore.{unlisted};

    ghost from_gives = { λ refusal fault. fault ≡ unlisted refusal };

    fn from(refusal: SettleFault) -> RenewStoreFault {
        match refusal {
            SettleFault::NotAll => RenewStoreFault::NotAll,
            SettleFault::OutOfMemory => RenewStoreFault::OutOfMemory,
        }
    }
}

impl From<OpenFault> for RenewStoreFault {
    ghost use Rattle.nb_long.specs.NewStore.{unopened};

    ghost from_gives = { λ refusal fault. fault ≡ unopened refusal };

    fn from(refusal: OpenFault) -> RenewStoreFault {
        match refusal {
            OpenFault::Full => RenewStoreFault::Full,
            OpenFault::OutOfMemory => RenewStoreFault::OutOfMemory,
        }
    }
}
