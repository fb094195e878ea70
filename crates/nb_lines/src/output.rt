//! What a program prints to.
ghost use Rattle.std.specs.Prelude.{◌≡◌};

use crate::faults::ProgramFault;
use std::io;
use std::io::{ErrorKind, Write};

/// A writer that keeps whether whoever reads what is written has gone.
#[derive(Drop)]
pub struct Output<W> {
    writer: W,
    is_unread: bool,
}

impl<W: Write> Output<W> {
    pub fn new(writer: W) -> Output<W> {
        Output {
            writer,
            is_unread: false,
        }
    }

    /// What is said of a fault: nothing of a failed write where nobody reads any more.
    pub fn told(&self, fault: ProgramFault) -> ProgramFault {
        match fault {
            ProgramFault::Write if self.is_unread => ProgramFault::Unread,
            fault => fault,
        }
    }

    /// Keeps whether a write or a flush found nobody that reads.
    fn keep<T>(&mut self, ended: &io::Result<T>)
        ensures { self.new.writer ≡ self.old.writer }
    {
        if let Err(fault) = ended {
            self.is_unread = fault.kind() == ErrorKind::BrokenPipe;
        }
    }
}

impl<W: Write> Write for Output<W> {
    ghost contents = { λ output. W.contents output.writer };

    fn write(&mut self, buf: &[u8]) -> io::Result<usize> {
        let ended = self.writer.write(buf);
        self.keep(&ended);
        ended
    }

    fn flush(&mut self) -> io::Result<()> {
        let ended = self.writer.flush();
        self.keep(&ended);
        ended
    }
}
