//! Reads a script, in pieces.
ghost use Rattle.std.specs.Prelude.{
  ◌≡◌,
  ◌<◌,
  ◌≤◌,
  ◌+◌,
  ◌∷◌,
  ◌++◌,
  ◌↔◌,
  [],
  List,
  false,
  length,
  IsTrue,
  IfOk,
  IfErr,
  OnOk,
  IsErrOf,
  map,
};
ghost use Rattle.std.specs.List.{list_any};
ghost use Rattle.nb_script.specs.Script.{Bytes, is_newline, script_of};
ghost use Rattle.nb_script.specs.Inputs.{HasReadScript, IsFaultOf};
ghost use Rattle.nb_script.specs.declared.script.TheConstants.{LINE_MAX, LINES_MAX};

use crate::faults::RunFault;
use crate::script::{Cause, Command, LINE_MAX, LINES_MAX, Line, said_by};
use crate::streams::Source;
use crate::until_end::UntilEnd;
use arrayvec::ArrayVec;
use std::alloc::Global;
use std::mem;

/// How many bytes are read at once, at most.
pub const PIECE: usize = 4096;

/// A phase: commands, each with its worker's number.
pub type Phase = Vec<(usize, Command)>;

/// The lines of a script whose bytes come one after another: the phases that are over, the current
/// one, and what has come of the next line.
#[derive(Drop)]
pub(crate) struct Lines {
    seats: usize,
    number: usize,
    partial: ArrayVec<u8, LINE_MAX>,
    over: Vec<Phase>,
    current: Phase,
    ghost few_lines: { number ≤ LINES_MAX + 1 },
    ghost begun: { 0 < length partial.items → number ≤ LINES_MAX },
    ghost short: { length partial.items ≤ LINE_MAX },
    ghost one_line: { list_any is_newline partial.items ≡ false },
}

impl Lines {
    ghost use Rattle.nb_script.specs.Reading.{
      IsFirstFault,
      room,
      with_bytes,
      with_lines,
      with_texts,
    };

    fn new(alloc: Global, seats: usize) -> Lines
        ensures { (more : Bytes) → with_bytes result more ≡ script_of seats more }
    {
        Lines {
            seats,
            number: 1,
            partial: ArrayVec::new(),
            over: Vec::new(alloc),
            current: Vec::new(alloc),
        }
    }

    /// Ends the line that has begun.
    fn end_line(&mut self) -> Result<(), RunFault>
        requires { self.old.number ≤ LINES_MAX }
        ensures ok { OnOk result ((rest : List Bytes)
            → with_texts self.new rest ≡ with_texts self.old (self.old.partial.items ∷ rest)) }
        ensures ended { OnOk result ((self.new.partial.items ≡ [])
            × (self.new.number ≡ self.old.number + 1)) }
        ensures fault { IfErr result (λ fault. IsFirstFault
            (λ rest. with_texts self.old (self.old.partial.items ∷ rest)) fault) }
    {
        match said_by(self.seats, self.partial.as_slice()) {
            Ok(Some(line)) => self.keep(line)?,
            Ok(None) => {}
            Err(cause) => return Err(RunFault::Line(self.number, cause)),
        }
        self.partial.clear();
        self.number += 1;
        Ok(())
    }

    fn keep(&mut self, line: Line) -> Result<(), RunFault>
        ensures ok { OnOk result ((lines : List Line)
            → with_lines self.new lines ≡ with_lines self.old (line ∷ lines)) }
        ensures rest { OnOk result (self.new
            ≡ record self.old { over = self.new.over; current = self.new.current }) }
        ensures err { IfErr result (λ fault. fault ≡ RunFault.OutOfMemory) }
    {
        match line {
            Line::Command(worker, command) => {
                let pushed = self.current.push((worker, command));
                pushed.map_err(|_| RunFault::OutOfMemory)
            }
            Line::PhaseEnd => {
                let next = Vec::new(*self.current.allocator());
                let phase = mem::replace(&mut self.current, next);
                let pushed = self.over.push(phase);
                pushed.map_err(|_| RunFault::OutOfMemory)
            }
        }
    }

    /// Takes the next byte.
    fn take(&mut self, byte: u8) -> Result<(), RunFault>
        ensures ok { OnOk result ((more : Bytes)
            → with_bytes self.new more ≡ with_bytes self.old (byte ∷ more)) }
        ensures fault { IfErr result (λ fault. IsFirstFault
            (λ more. with_bytes self.old (byte ∷ more)) fault) }
        ensures room { OnOk result (room self.new + 1 ≤ room self.old) }
    {
        if self.number > LINES_MAX {
            return Err(RunFault::Line(self.number, Cause::TooMany));
        }
        if byte == b'\n' {
            return self.end_line();
        }
        if self.partial.is_full() {
            return Err(RunFault::Line(self.number, Cause::LongLine));
        }
        self.partial.push(byte);
        Ok(())
    }

    /// Takes the next bytes.
    fn take_all(&mut self, bytes: &[u8]) -> Result<(), RunFault>
        ensures ok { OnOk result ((more : Bytes)
            → with_bytes self.new more ≡ with_bytes self.old (bytes.now ++ more)) }
        ensures fault { IfErr result (λ fault. IsFirstFault
            (λ more. with_bytes self.old (bytes.now ++ more)) fault) }
        ensures room { OnOk result (room self.new + length bytes.now ≤ room self.old) }
    {
        for byte in bytes {
            self.take(*byte)?;
        }
        Ok(())
    }

    /// Ends the last line, if it has begun.
    fn end_text(&mut self) -> Result<(), RunFault>
        ensures ok { OnOk result (with_texts self.new [] ≡ with_bytes self.old []) }
        ensures fault { IfErr result (λ fault. IsFirstFault
            (λ (more : Bytes). with_bytes self.old []) fault) }
    {
        if self.partial.is_empty() {
            return Ok(());
        }
        self.end_line()
    }

    /// The phases, once the text has ended.
    fn into_phases(self) -> Result<Vec<Phase>, RunFault>
        ensures ok { IfOk result (λ phases. with_texts self []
            ≡ Ok (map (λ phase. phase.items) phases.items)) }
        ensures fault { IfErr result (λ fault. fault ≡ RunFault.OutOfMemory) }
    {
        let Lines {
            mut over,
            current,
            ..
        } = self;
        over.push(current).map_err(|_| RunFault::OutOfMemory)?;
        Ok(over)
    }
}

/// Reads a script to its end, or to the piece in which its first fault is settled, in time linear
/// in the bytes. A read of no bytes is the end; any error of the reader ends it.
pub fn read_script<R: Source>(
    alloc: Global,
    seats: usize,
    reader: &mut R,
) -> Result<Vec<Phase>, RunFault>
    requires unfailed { R.failed reader.old ≡ false }
    ensures ok { IfOk result (λ phases. HasReadScript seats (R.remaining reader.old)
        (R.remaining reader.new) (map (λ phase. phase.items) phases.items)) }
    ensures fault { IfErr result (IsFaultOf seats (R.remaining reader.old)
        (R.remaining reader.new)) }
    ensures failed { IsErrOf result RunFault.Read ↔ IsTrue (R.failed reader.new) }
{
    let mut reader = UntilEnd::new(reader);
    let mut lines = Lines::new(alloc, seats);
    let mut piece = [0u8; PIECE];
    loop {
        let Ok(count) = reader.read(&mut piece) else {
            return Err(RunFault::Read);
        };
        if count == 0 {
            lines.end_text()?;
            return lines.into_phases();
        }
        lines.take_all(&piece[..count])?;
    }
}
