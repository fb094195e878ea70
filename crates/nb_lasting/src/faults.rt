//! Why a map without an end refuses a write.
ghost use Rattle.std.specs.Prelude.{◌≡◌};

use nb_core::OutOfMemory;
use thiserror::Error;

/// Why there is no room for a new key. The map is unchanged.
#[derive(Clone, Copy, Debug, PartialEq, Eq, Error)]
pub enum GrowFault {
    /// The map has as many keys as the greatest table has slots.
    #[error("the map is full")]
    Full,
    /// Memory to make the map anew was refused.
    #[error("out of memory")]
    OutOfMemory,
}

/// Why a write was refused. The map is unchanged.
#[derive(Clone, Copy, Debug, PartialEq, Eq, Error)]
pub enum WriteFault {
    /// The map has as many keys as the greatest table has slots.
    #[error("the map is full")]
    Full,
    /// Memory to make the map anew was refused.
    #[error("out of memory")]
    OutOfMemory,
    /// The sum of an add is past the greatest number.
    #[error("value too large")]
    ValueRange,
}

impl From<OutOfMemory> for GrowFault {
    ghost use Rattle.nb_lasting.specs.declared.faults.GrowFault.TheVariants.{OutOfMemory};

    ghost from_gives = { λ _ fault. fault ≡ OutOfMemory };

    fn from(_refused: OutOfMemory) -> GrowFault {
        GrowFault::OutOfMemory
    }
}

impl From<OutOfMemory> for WriteFault {
    ghost use Rattle.nb_lasting.specs.declared.faults.WriteFault.TheVariants.{OutOfMemory};

    ghost from_gives = { λ _ fault. fault ≡ OutOfMemory };

    fn from(_refused: OutOfMemory) -> WriteFault {
        WriteFault::OutOfMemory
    }
}

impl From<GrowFault> for WriteFault {
    ghost use Rattle.nb_lasting.specs.Lasting.{as_write_fault};

    ghost from_gives = { λ refusal fault. fault ≡ as_write_fault refusal };

    fn from(refusal: GrowFault) -> WriteFault {
        match refusal {
            GrowFault::Full => WriteFault::Full,
            GrowFault::OutOfMemory => WriteFault::OutOfMemory,
        }
    }
}
