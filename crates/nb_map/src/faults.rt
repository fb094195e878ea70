//! Why writes are refused, and which refusals are part of others, so that `?` takes the one for the
//! other; why seats aren't settled; and why a map isn't opened with entries.
ghost use Rattle.std.specs.Prelude.{◌≡◌};

use nb_core::OutOfMemory;
use thiserror::Error;

/// Other keys have all slots of the last table, so there is none for this one. The map is
/// unchanged.
#[derive(Clone, Copy, Debug, PartialEq, Eq, Error)]
#[error("the map is full")]
pub struct Full;

/// Other keys have all slots of the last table, so there is none for an entry's key. The entries
/// before it were put.
#[derive(Clone, Copy, Debug, PartialEq, Eq, Error)]
#[error("the map is full after {put} of the entries")]
pub struct FullAfter {
    /// How many entries were put.
    pub put: usize,
}

/// Why an add was refused. The map is unchanged.
#[derive(Clone, Copy, Debug, PartialEq, Eq, Error)]
pub enum AddFault {
    /// Other keys have all slots of the last table.
    #[error("the map is full")]
    Full,
    /// The sum is past the greatest number.
    #[error("value too large")]
    ValueRange,
}

/// Why a write was refused. The map is unchanged by it then. A refused update has made its read and
/// its lost exchanges, and any other write no call.
#[derive(Clone, Copy, Debug, PartialEq, Eq, Error)]
pub enum PutFault {
    /// Other keys have all slots of the last table.
    #[error("the map is full")]
    Full,
    /// Other seats won as many exchanges on the key as the write had tries.
    #[error("other writes of the key came first")]
    Contended,
    /// The sum of an add is past the greatest number.
    #[error("value too large")]
    ValueRange,
}

/// Why a handle was not split.
#[derive(Clone, Copy, Debug, PartialEq, Eq, Error)]
pub enum SplitFault {
    /// The handle has no seat in reserve.
    #[error("no seat is left")]
    NoSeat,
    /// The map can't count one handle more.
    #[error("out of memory")]
    OutOfMemory,
}

/// Some of the map's seats aren't there. The map is as it was.
#[derive(Clone, Copy, Debug, PartialEq, Eq, Error)]
#[error("a seat is missing")]
pub struct SeatMissing;

/// Why seats weren't settled, or the entries of their map weren't listed. The map is as it was.
#[derive(Clone, Copy, Debug, PartialEq, Eq, Error)]
pub enum SettleFault {
    /// Some of the map's seats aren't there.
    #[error("a seat is missing")]
    NotAll,
    /// Memory to put the seats together, or for the entries, was refused.
    #[error("out of memory")]
    OutOfMemory,
}

impl From<OutOfMemory> for SettleFault {
    ghost use Rattle.nb_map.specs.declared.faults.SettleFault.TheVariants.{OutOfMemory};

    ghost from_gives = { λ _ fault. fault ≡ OutOfMemory };

    fn from(_refused: OutOfMemory) -> SettleFault {
        SettleFault::OutOfMemory
    }
}

/// Why a map wasn't opened with entries.
#[derive(Clone, Copy, Debug, PartialEq, Eq, Error)]
pub enum OpenFault {
    /// The entries have more keys than the last table of the shape has slots.
    #[error("the map is full")]
    Full,
    /// Memory for the map, or to settle its seats, was refused.
    #[error("out of memory")]
    OutOfMemory,
}

impl From<OutOfMemory> for OpenFault {
    ghost use Rattle.nb_map.specs.declared.faults.OpenFault.TheVariants.{OutOfMemory};

    ghost from_gives = { λ _ fault. fault ≡ OutOfMemory };

    fn from(_refused: OutOfMemory) -> OpenFault {
        OpenFault::OutOfMemory
    }
}

/// Why a map wasn't made anew.
#[derive(Clone, Copy, Debug, PartialEq, Eq, Error)]
pub enum RenewFault {
    /// The map has more keys than the last table of the new shape has slots.
    #[error("the new map is full")]
    Full,
    /// Some of the map's seats aren't there.
    #[error("a seat is missing")]
    NotAll,
    /// Memory for the new map, for the entries, or to settle the seats was refused.
    #[error("out of memory")]
    OutOfMemory,
}

impl From<OutOfMemory> for RenewFault {
    ghost use Rattle.nb_map.specs.declared.faults.RenewFault.TheVariants.{OutOfMemory};

    ghost from_gives = { λ _ fault. fault ≡ OutOfMemory };

    fn from(_refused: OutOfMemory) -> RenewFault {
        RenewFault::OutOfMemory
    }
}

impl From<SettleFault> for RenewFault {
    ghost use Rattle.nb_map.specs.Renewing.{unsettled};

    ghost from_gives = { λ refusal fault. fault ≡ unsettled refusal };

    fn from(refusal: SettleFault) -> RenewFault {
        match refusal {
            SettleFault::NotAll => RenewFault::NotAll,
            SettleFault::OutOfMemory => RenewFault::OutOfMemory,
        }
    }
}

impl From<OpenFault> for RenewFault {
    ghost use Rattle.nb_map.specs.Renewing.{unopened};

    ghost from_gives = { λ refusal fault. fault ≡ unopened refusal };

    fn from(refusal: OpenFault) -> RenewFault {
        match refusal {
            OpenFault::Full => RenewFault::Full,
            OpenFault::OutOfMemory => RenewFault::OutOfMemory,
        }
    }
}

impl From<Full> for AddFault {
    ghost use Rattle.nb_map.specs.declared.faults.AddFault.TheVariants.{Full};

    ghost from_gives = { λ _ fault. fault ≡ Full };

    fn from(_full: Full) -> AddFault {
        AddFault::Full
    }
}

impl From<Full> for PutFault {
    ghost use Rattle.nb_map.specs.declared.faults.PutFault.TheVariants.{Full};

    ghost from_gives = { λ _ fault. fault ≡ Full };

    fn from(_full: Full) -> PutFault {
        PutFault::Full
    }
}

impl From<AddFault> for PutFault {
    ghost use Rattle.nb_map.specs.Refusals.{as_put_fault};

    ghost from_gives = { λ refusal fault. fault ≡ as_put_fault refusal };

    fn from(refusal: AddFault) -> PutFault {
        match refusal {
            AddFault::Full => PutFault::Full,
            AddFault::ValueRange => PutFault::ValueRange,
        }
    }
}
