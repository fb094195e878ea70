//! Why the program ends early, and what is said of it.

use nb_core::{OutOfMemory, ShapeFault};
use nb_lines::WordsFault;
use std::alloc::AllocFailed;
use std::{fmt, io};

/// Why nothing was measured, where the words were well.
#[derive(Clone, Copy)]
pub(crate) enum WorkFault {
    /// There is no such map. What words ask for one is seen before.
    Shape(ShapeFault),
    Full,
    Clock,
    OutOfMemory,
    Wrong(Wrong),
}

/// What was found to be wrong.
#[derive(Clone, Copy)]
pub(crate) enum Wrong {
    Sum,
    Size,
}

impl Wrong {
    fn text(self) -> &'static str {
        match self {
            Wrong::Sum => "the sum isn't what was added",
            Wrong::Size => "the size isn't the number of keys",
        }
    }
}

impl WorkFault {
    /// The exit status.
    fn status(self) -> u8 {
        match self {
            WorkFault::Wrong(_) => 2,
            WorkFault::Shape(_) => 3,
            WorkFault::Full | WorkFault::Clock | WorkFault::OutOfMemory => 4,
        }
    }
}

impl fmt::Display for WorkFault {
    fn fmt<W: fmt::Write>(&self, f: &mut fmt::Formatter<W>) -> fmt::Result {
        match self {
            WorkFault::Shape(fault) => fmt::Display::fmt(fault, f),
            WorkFault::Full => f.write_str("the map is full: the plan has too few slots"),
            WorkFault::Clock => f.write_str("the clock can't be read"),
            WorkFault::OutOfMemory => f.write_str("out of memory"),
            WorkFault::Wrong(wrong) => f.write_str(wrong.text()),
        }
    }
}

impl From<OutOfMemory> for WorkFault {
    fn from(_error: OutOfMemory) -> WorkFault {
        WorkFault::OutOfMemory
    }
}

impl<T: Drop> From<AllocFailed<T>> for WorkFault {
    fn from(_refused: AllocFailed<T>) -> WorkFault {
        WorkFault::OutOfMemory
    }
}

impl From<ShapeFault> for WorkFault {
    fn from(fault: ShapeFault) -> WorkFault {
        WorkFault::Shape(fault)
    }
}

impl From<io::Error> for WorkFault {
    fn from(_error: io::Error) -> WorkFault {
        WorkFault::Clock
    }
}

/// Why the program ends with another status than 0, or with its help or its version.
#[derive(Drop)]
pub(crate) enum BenchFault {
    Words(WordsFault),
    Work(WorkFault),
    Write,
}

impl BenchFault {
    /// The exit status.
    pub(crate) fn status(&self) -> u8 {
        match self {
            BenchFault::Words(fault) => fault.status(),
            BenchFault::Work(fault) => fault.status(),
            BenchFault::Write => 1,
        }
    }
}

impl fmt::Display for BenchFault {
    fn fmt<W: fmt::Write>(&self, f: &mut fmt::Formatter<W>) -> fmt::Result {
        match self {
            BenchFault::Words(fault) => fmt::Display::fmt(fault, f),
            BenchFault::Work(fault) => fmt::Display::fmt(fault, f),
            BenchFault::Write => f.write_str("write failed"),
        }
    }
}

impl From<WordsFault> for BenchFault {
    fn from(fault: WordsFault) -> BenchFault {
        BenchFault::Words(fault)
    }
}

impl From<WorkFault> for BenchFault {
    fn from(fault: WorkFault) -> BenchFault {
        BenchFault::Work(fault)
    }
}
