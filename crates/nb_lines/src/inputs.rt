//! What a program reads: files, one after another, or standard input.
ghost use Rattle.std.specs.Prelude.{◌≡◌, ◌<◌, ◌≤◌, IfOk, length};

use crate::faults::ProgramFault;
use std::alloc::Global;
use std::fs::File;
use std::io::Read;
use std::{fs, io};

/// What stands for standard input among the names of files.
pub(crate) const STANDARD_INPUT: &str = "-";

/// Standard input, as a file.
const STANDARD_PATH: &str = "/dev/stdin";

/// Files as one input. Each is opened when the one before it has ended, and begins a line.
#[derive(Drop)]
pub struct Inputs<'f, 'n, I> {
    files: &'f HostRuntime,
    standard: I,
    names: &'n [String],
    /// How many files have ended.
    at: usize,
    /// The one that is read, if it was opened and isn't standard input.
    file: Option<File>,
    /// Whether a line was begun that has no newline yet.
    is_in_line: bool,
    /// Why the last read that failed did.
    failed: Option<io::Error>,
}

impl<'f, 'n, I: Read> Inputs<'f, 'n, I> {
    pub fn new(files: &'f HostRuntime, standard: I, names: &'n [String]) -> Inputs<'f, 'n, I> {
        Inputs {
            files,
            standard,
            names,
            at: 0,
            file: None,
            is_in_line: false,
            failed: None,
        }
    }

    /// How many bytes they have in all, where each is a file.
    pub fn size(&self) -> Option<u64> {
        let mut size = 0u64;
        for name in self.names {
            let path = match name.as_str() {
                STANDARD_INPUT => STANDARD_PATH,
                path => path,
            };
            let metadata = fs::metadata(self.files, path).ok()?;
            if !metadata.is_file() {
                return None;
            }
            size = size.saturating_add(metadata.len());
        }
        Some(size)
    }

    /// What is said of a fault: of a file that can't be opened or read, its name, and why.
    pub fn told(&self, alloc: Global, fault: ProgramFault) -> ProgramFault {
        let (ProgramFault::Read, Some(cause), Some(name)) = (&fault, self.failed, self.name())
        else {
            return fault;
        };
        if name == STANDARD_INPUT {
            return fault;
        }
        match String::from_str(alloc, name) {
            Ok(name) => ProgramFault::File(name, cause),
            Err(_) => ProgramFault::OutOfMemory,
        }
    }

    /// The name of the file that is read, or the next one.
    fn name(&self) -> Option<&str> {
        Some(self.names.get(self.at)?.as_str())
    }

    /// Leaves a file that has ended, and answers whether a newline has to come before the next one.
    fn leave_file(&mut self) -> bool {
        self.file = None;
        self.at = self.at.saturating_add(1);
        let is_cut = self.is_in_line && self.at < self.names.len();
        self.is_in_line = self.is_in_line && !is_cut;
        is_cut
    }

    /// Reads on in the file that is read. Nothing is left behind the last one.
    fn read_file(&mut self, buf: &mut [u8]) -> io::Result<usize>
        ensures room { length buf.new ≡ length buf.old }
        ensures count { IfOk result (λ count. count ≤ length buf.new) }
    {
        let Some(name) = self.names.get(self.at) else {
            return Ok(0);
        };
        if name.as_str() == STANDARD_INPUT {
            return self.standard.read(buf);
        }
        if self.file.is_none() {
            self.file = Some(fs::open(self.files, name.as_str())?);
        }
        match self.file.as_mut() {
            Some(file) => file.read(buf),
            None => Ok(0),
        }
    }
}

impl<I: Read> Read for Inputs<'_, '_, I> {
    fn read(&mut self, buf: &mut [u8]) -> io::Result<usize> {
        if buf.is_empty() {
            return Ok(0);
        }
        for _ in self.at..self.names.len() {
            let read = self.read_file(buf);
            self.failed = read.err();
            let count = read?;
            if let Some(last) = buf[..count].last() {
                self.is_in_line = *last != b'\n';
                return Ok(count);
            }
            if self.leave_file() {
                return Ok(put_newline(buf));
            }
        }
        Ok(0)
    }
}

/// Puts a newline where there is room, and answers how many bytes that is.
fn put_newline(buf: &mut [u8]) -> usize
    ensures room { length buf.new ≡ length buf.old }
    ensures count { result ≤ length buf.new }
{
    match buf.first_mut() {
        Some(first) => {
            *first = b'\n';
            1
        }
        None => 0,
    }
}
