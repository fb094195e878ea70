//! Why a program ends early, and what is said of it.
ghost use Rattle.std.specs.Prelude.{◌≡◌};

use crate::blocks::LinePlace;
use nb_core::{DigitsFault, OutOfMemory, RangeFault, ShapeFault};
use std::alloc::AllocFailed;
use std::io;
use std::io::ErrorKind;
use thiserror::Error;

/// What is wrong with a line.
#[derive(Clone, Copy, Debug, PartialEq, Eq, Error)]
pub enum Cause {
    #[error("not a number")]
    NotANumber,
    #[error("number too large")]
    TooLarge,
    #[error("line too long")]
    TooLong,
}

impl From<DigitsFault> for Cause {
    ghost use Rattle.nb_lines.specs.Lines.{cause_of};

    ghost from_gives = { λ fault cause. cause ≡ cause_of fault };

    fn from(fault: DigitsFault) -> Cause {
        match fault {
            DigitsFault::NotANumber => Cause::NotANumber,
            DigitsFault::TooLarge => Cause::TooLarge,
        }
    }
}

impl From<RangeFault> for Cause {
    ghost use Rattle.nb_lines.specs.declared.faults.Cause.TheVariants.{TooLarge};

    ghost from_gives = { λ _ cause. cause ≡ TooLarge };

    fn from(_fault: RangeFault) -> Cause {
        Cause::TooLarge
    }
}

/// Why a worker stopped.
#[derive(Clone, Copy, Debug, PartialEq, Eq)]
pub enum Stop {
    Read,
    /// A line is at fault.
    Line(LinePlace, Cause),
    /// There is no room for another number.
    Full,
    /// A number comes more often than can be counted.
    TooOften,
    OutOfMemory,
}

impl From<OutOfMemory> for Stop {
    fn from(_fault: OutOfMemory) -> Stop {
        Stop::OutOfMemory
    }
}

impl<T: Drop> From<AllocFailed<T>> for Stop {
    fn from(_refused: AllocFailed<T>) -> Stop {
        Stop::OutOfMemory
    }
}

impl From<io::Error> for Stop {
    fn from(fault: io::Error) -> Stop {
        match fault.kind() {
            ErrorKind::OutOfMemory => Stop::OutOfMemory,
            _ => Stop::Read,
        }
    }
}

/// Why the words of the command line ask for no run.
#[derive(Debug, Drop, Error)]
pub enum WordsFault {
    /// They ask for the help or the version, and this is its text.
    #[error("{0}")]
    Answered(String),
    /// They are wrong, and this is how.
    #[error("{0}; --help tells more")]
    Wrong(String),
    #[error("a word isn't text; --help tells more")]
    NoText,
    #[error("out of memory")]
    OutOfMemory,
}

impl WordsFault {
    /// The exit status.
    pub fn status(&self) -> u8 {
        match self {
            WordsFault::Answered(_) => 0,
            WordsFault::Wrong(_) | WordsFault::NoText => 3,
            WordsFault::OutOfMemory => 4,
        }
    }
}

impl From<OutOfMemory> for WordsFault {
    fn from(_fault: OutOfMemory) -> WordsFault {
        WordsFault::OutOfMemory
    }
}

impl<T: Drop> From<AllocFailed<T>> for WordsFault {
    fn from(_refused: AllocFailed<T>) -> WordsFault {
        WordsFault::OutOfMemory
    }
}

/// Why a program ends with another status than 0, or with its help or its version.
#[derive(Debug, Drop, Error)]
pub enum ProgramFault {
    #[error("{0}")]
    Words(WordsFault),
    /// No map is of the sizes that are asked for. The ranges of the options see that this never
    /// comes.
    #[error("bad usage; --help tells more")]
    Usage,
    #[error("read failed")]
    Read,
    /// What a file is called, and why it can't be opened or read.
    #[error("{0}: {1}")]
    File(String, io::Error),
    #[error("write failed")]
    Write,
    /// Whoever reads the output has gone. Nothing is said of that.
    #[error("nobody reads the output")]
    Unread,
    /// The number of a line, counted from 1, and what is wrong with it.
    #[error("line {0}: {1}")]
    Line(u64, Cause),
    #[error("more different numbers than there is room for")]
    Full,
    #[error("more different lines than there is room for")]
    FullOfLines,
    #[error("a number comes too often")]
    TooOften,
    /// What comes next may not fit within `--memory`. How many lines were done before.
    #[error("stopped behind line {0}: more may not fit within --memory")]
    MemoryLimit(u64),
    #[error("out of memory")]
    OutOfMemory,
}

impl ProgramFault {
    /// The exit status.
    pub fn status(&self) -> u8 {
        match self {
            ProgramFault::Words(fault) => fault.status(),
            ProgramFault::Read | ProgramFault::File(..) => 1,
            ProgramFault::Write | ProgramFault::Unread => 1,
            ProgramFault::Line(..) => 2,
            ProgramFault::Usage => 3,
            ProgramFault::OutOfMemory => 4,
            ProgramFault::Full | ProgramFault::FullOfLines | ProgramFault::TooOften => 5,
            ProgramFault::MemoryLimit(_) => 7,
        }
    }
}

impl From<WordsFault> for ProgramFault {
    fn from(fault: WordsFault) -> ProgramFault {
        ProgramFault::Words(fault)
    }
}

impl From<ShapeFault> for ProgramFault {
    fn from(_fault: ShapeFault) -> ProgramFault {
        ProgramFault::Usage
    }
}

impl From<OutOfMemory> for ProgramFault {
    ghost use Rattle.nb_lines.specs.declared.faults.ProgramFault.TheVariants as program;

    ghost from_gives = { λ _ told. told ≡ program.OutOfMemory };

    fn from(_fault: OutOfMemory) -> ProgramFault {
        ProgramFault::OutOfMemory
    }
}

impl<T: Drop> From<AllocFailed<T>> for ProgramFault {
    ghost use Rattle.nb_lines.specs.declared.faults.ProgramFault.TheVariants as program;

    ghost from_gives = { λ _ told. told ≡ program.OutOfMemory };

    fn from(_refused: AllocFailed<T>) -> ProgramFault {
        ProgramFault::OutOfMemory
    }
}
