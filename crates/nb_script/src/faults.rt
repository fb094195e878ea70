//! Why a run or the program ends early, and what is said of it.
ghost use Rattle.std.specs.Prelude.{◌≡◌, false, is_err, IfErr, OnOk};
ghost use Rattle.std.specs.Io.KnownBytes.{Appends};
ghost use Rattle.nb_script.specs.Faults.{complaint_of, fault_text, status_of};
ghost use Rattle.nb_script.specs.Streams.{AppendsSome};

use crate::script::Cause;
use crate::streams::{Failed, Sink, write_all};
use itoa::Buffer;
use thiserror::Error;

/// Why a script was not run to its end.
#[derive(Clone, Copy, Debug, PartialEq, Eq, Error)]
pub enum RunFault {
    #[error("read failed")]
    Read,
    #[error("write failed")]
    Write,
    /// The first fault of the script: the number of its line, counted from 1, and its cause.
    #[error("line {0}: {1}")]
    Line(usize, Cause),
    #[error("out of memory")]
    OutOfMemory,
}

/// Why the program ends with another status than 0.
#[derive(Clone, Copy, Debug, PartialEq, Eq, Error)]
pub enum ServeFault {
    #[error("bad usage")]
    Usage,
    #[error("{0}")]
    Run(RunFault),
}

impl ServeFault {
    /// The exit status.
    pub fn status(self) -> u8
        ensures { result ≡ status_of self }
    {
        match self {
            ServeFault::Run(RunFault::Read | RunFault::Write) => 1,
            ServeFault::Run(RunFault::Line(..)) => 2,
            ServeFault::Usage => 3,
            ServeFault::Run(RunFault::OutOfMemory) => 4,
        }
    }

    /// Says what is wrong, on a line of its own. It takes no memory.
    pub fn complain<E: Sink>(self, errors: &mut E) -> Result<(), Failed>
        requires unfailed { E.failed errors.old ≡ false }
        ensures said { OnOk result (Appends (E.contents errors.old) (E.contents errors.new)
            (complaint_of self)) }
        ensures begun { IfErr result (λ _. AppendsSome (E.contents errors.old)
            (E.contents errors.new) (complaint_of self)) }
        ensures marks { E.failed errors.new ≡ is_err result }
    {
        write_all(errors, b"nbrun: ")?;
        self.say(errors)?;
        write_all(errors, b"\n")
    }

    fn say<E: Sink>(self, errors: &mut E) -> Result<(), Failed>
        requires unfailed { E.failed errors.old ≡ false }
        ensures said { OnOk result (Appends (E.contents errors.old) (E.contents errors.new)
            (fault_text self)) }
        ensures begun { IfErr result (λ _. AppendsSome (E.contents errors.old)
            (E.contents errors.new) (fault_text self)) }
        ensures marks { E.failed errors.new ≡ is_err result }
    {
        match self {
            ServeFault::Usage => write_all(errors, b"bad usage"),
            ServeFault::Run(RunFault::Read) => write_all(errors, b"read failed"),
            ServeFault::Run(RunFault::Write) => write_all(errors, b"write failed"),
            ServeFault::Run(RunFault::OutOfMemory) => write_all(errors, b"out of memory"),
            ServeFault::Run(RunFault::Line(number, cause)) => {
                write_all(errors, b"line ")?;
                write_all(errors, Buffer::new().format(number).as_bytes())?;
                write_all(errors, b": ")?;
                write_all(errors, cause.text().as_bytes())
            }
        }
    }
}
