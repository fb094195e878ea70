//! Printing: a line for each job.

use crate::taking::Job;
use nb_lines::ProgramFault;
use std::alloc::Global;
use std::io;
use std::io::{BufWriter, Write};

/// Prints the jobs, and who took each where that is asked for.
pub(crate) fn print<W: Write + Drop>(
    alloc: Global,
    writer: W,
    jobs: &[Job],
    tells_who: bool,
) -> Result<(), ProgramFault> {
    let Ok(mut writer) = BufWriter::new(alloc, writer) else {
        return Err(ProgramFault::OutOfMemory);
    };
    match print_to(&mut writer, jobs, tells_who) {
        Ok(()) => Ok(()),
        Err(_) => Err(ProgramFault::Write),
    }
}

/// The same, to a writer that may hold back what it is given.
fn print_to<W: Write>(writer: &mut W, jobs: &[Job], tells_who: bool) -> io::Result<()> {
    for Job { number, worker } in jobs {
        if tells_who {
            writeln!(writer, "{number} {worker}")?;
        } else {
            writeln!(writer, "{number}")?;
        }
    }
    writer.flush()
}
