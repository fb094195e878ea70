//! The program's output, written from the answers through a buffer of fixed size. It takes no
//! memory.
ghost use Rattle.std.specs.Prelude.{
  ◌≡◌,
  ◌<◌,
  ◌≤◌,
  ◌+◌,
  ◌++◌,
  ℕ,
  [],
  List,
  Some,
  false,
  is_err,
  length,
  map,
  IfErr,
  OnOk,
  slice_get,
  slice_index,
};
ghost use Rattle.std.specs.Io.KnownBytes.{Appends};
ghost use Rattle.std.specs.List.{flat_map};
ghost use Rattle.nb_script.specs.Streams.{AppendsSome};
ghost use Rattle.nb_runner.specs.Output.{AreAnswersOf, HasSaid, all_lines, left, phase_lines};
ghost use Rattle.nb_runner.specs.Text.{answer_line, answer_text, ending_of, entry_line};
ghost use Rattle.nb_runner.specs.Working.{commands_of};

use crate::answers::Answer;
use arrayvec::ArrayVec;
use itoa::Buffer;
use nb_core::{Key, MAX_SEATS, Num};
use nb_script::reader::Phase;
use nb_script::script::Command;
use nb_script::streams::{Failed, Sink, write_all};

/// How many bytes are written at once.
const ROOM: usize = 4096;

/// Bytes that wait to be written.
type Waiting = ArrayVec<u8, ROOM>;

/// Writes the bytes that wait.
fn flush<W: Sink>(writer: &mut W, waiting: &mut Waiting) -> Result<(), Failed>
    requires unfailed { W.failed writer.old ≡ false }
    ensures flushed { HasSaid W.contents W.failed writer.old writer.new waiting.old.items
        waiting.new.items [] result }
    ensures empty { OnOk result (waiting.new.items ≡ []) }
{
    write_all(writer, waiting.as_slice())?;
    waiting.clear();
    Ok(())
}

/// Puts the bytes behind those that wait. Where there is no room, it writes those first.
fn say<W: Sink>(writer: &mut W, waiting: &mut Waiting, bytes: &[u8]) -> Result<(), Failed>
    requires unfailed { W.failed writer.old ≡ false }
    ensures { HasSaid W.contents W.failed writer.old writer.new waiting.old.items
        waiting.new.items bytes.now result }
{
    if waiting.try_extend_from_slice(bytes).is_ok() {
        return Ok(());
    }
    flush(writer, waiting)?;
    match waiting.try_extend_from_slice(bytes) {
        Ok(()) => Ok(()),
        // They are more than the buffer takes.
        Err(_) => write_all(writer, bytes),
    }
}

/// Says the pieces of a line.
fn say_all<W: Sink>(writer: &mut W, waiting: &mut Waiting, pieces: &[&[u8]]) -> Result<(), Failed>
    requires unfailed { W.failed writer.old ≡ false }
    ensures { HasSaid W.contents W.failed writer.old writer.new waiting.old.items
        waiting.new.items (flat_map (λ piece. piece.now) pieces.now) result }
{
    for piece in pieces {
        say(writer, waiting, *piece)?;
    }
    Ok(())
}

/// The text of an answer, whose digits stand in `digits`, if it has any.
fn text_of<'a>(answer: &Answer, digits: &'a mut Buffer) -> &'a [u8]
    ensures { result.now ≡ answer_text answer.now }
{
    match answer {
        Answer::Nothing => b"-",
        Answer::Value(number) => digits.format(number.get()).as_bytes(),
        Answer::Matched(true) => b"true",
        Answer::Matched(false) => b"false",
        Answer::Full => b"full",
        Answer::Range => b"range",
    }
}

/// Says one answer, on a line of its own.
fn say_line<W: Sink>(
    writer: &mut W,
    waiting: &mut Waiting,
    worker: usize,
    answer: &Answer,
) -> Result<(), Failed>
    requires unfailed { W.failed writer.old ≡ false }
    ensures { HasSaid W.contents W.failed writer.old writer.new waiting.old.items
        waiting.new.items (answer_line worker answer.now) result }
{
    let (mut number, mut digits) = (Buffer::new(), Buffer::new());
    let number = number.format(worker as u64).as_bytes();
    let text = text_of(answer, &mut digits);
    say_all(writer, waiting, &[number, b" ", text, b"\n"])
}

/// Says one worker's answers.
fn say_lines<W: Sink>(
    writer: &mut W,
    waiting: &mut Waiting,
    worker: usize,
    answers: &[Answer],
) -> Result<(), Failed>
    requires unfailed { W.failed writer.old ≡ false }
    ensures { HasSaid W.contents W.failed writer.old writer.new waiting.old.items
        waiting.new.items (flat_map (answer_line worker) answers.now) result }
{
    for answer in answers {
        say_line(writer, waiting, worker, answer)?;
    }
    Ok(())
}

/// How many commands of a phase are the worker's.
pub(crate) fn count_of(worker: usize, phase: &[(usize, Command)]) -> usize
    ensures { result ≡ length (commands_of worker phase.now) }
{
    phase.iter().filter(|task| task.0 == worker).count()
}

/// Says the answers of a phase, worker by worker. `done` counts for each worker the answers that
/// were said.
fn say_phase<W: Sink>(
    writer: &mut W,
    waiting: &mut Waiting,
    phase: &[(usize, Command)],
    answers: &[Vec<Answer>],
    done: &mut [usize; MAX_SEATS],
) -> Result<(), Failed>
    requires unfailed { W.failed writer.old ≡ false }
    requires few { length answers.now ≤ MAX_SEATS }
    requires enough { (w : ℕ) (mine : List Answer)
        → slice_get (map (λ list. list.items) answers.now) w ≡ Some mine
        → slice_index done.old w + length (commands_of w phase.now) ≤ length mine }
    ensures said { HasSaid W.contents W.failed writer.old writer.new waiting.old.items
        waiting.new.items
        (phase_lines phase.now 0 (left done.old 0 (map (λ list. list.items) answers.now))) result }
    ensures done { OnOk result ((w : ℕ) → w < length answers.now
        → slice_index done.new w ≡ slice_index done.old w + length (commands_of w phase.now)) }
{
    for (worker, list) in answers.iter().enumerate() {
        let first = done[worker];
        let end = first + count_of(worker, phase);
        say_lines(writer, waiting, worker, &list.as_slice()[first..end])?;
        done[worker] = end;
    }
    Ok(())
}

/// Says the size and the entries.
fn say_ending<W: Sink>(
    writer: &mut W,
    waiting: &mut Waiting,
    size: u64,
    entries: &[(Key, Num)],
) -> Result<(), Failed>
    requires unfailed { W.failed writer.old ≡ false }
    ensures { HasSaid W.contents W.failed writer.old writer.new waiting.old.items
        waiting.new.items (ending_of size entries.now) result }
{
    let mut digits = Buffer::new();
    let size = digits.format(size).as_bytes();
    say_all(writer, waiting, &[b"size ", size, b"\n"])?;
    say_entries(writer, waiting, entries)
}

/// Says the entries, each on a line of its own.
fn say_entries<W: Sink>(
    writer: &mut W,
    waiting: &mut Waiting,
    entries: &[(Key, Num)],
) -> Result<(), Failed>
    requires unfailed { W.failed writer.old ≡ false }
    ensures { HasSaid W.contents W.failed writer.old writer.new waiting.old.items
        waiting.new.items (flat_map entry_line entries.now) result }
{
    let (mut key_digits, mut digits) = (Buffer::new(), Buffer::new());
    for (key, number) in entries {
        let key = key_digits.format(key.get()).as_bytes();
        let number = digits.format(number.get()).as_bytes();
        say_all(writer, waiting, &[key, b" ", number, b"\n"])?;
    }
    Ok(())
}

/// Writes what the commands were answered, phase by phase and in each phase worker by worker, then
/// the size and the entries. Each worker's answers stand in one list, for all phases one after
/// another.
pub(crate) fn tell<W: Sink>(
    writer: &mut W,
    phases: &[Phase],
    answers: &[Vec<Answer>],
    size: u64,
    entries: &[(Key, Num)],
) -> Result<(), Failed>
    requires unfailed { W.failed writer.old ≡ false }
    requires few { length answers.now ≤ MAX_SEATS }
    requires enough { AreAnswersOf (map (λ phase. phase.items) phases.now) 0
        (map (λ list. list.items) answers.now) }
    ensures told { OnOk result (Appends (W.contents writer.old) (W.contents writer.new)
        (all_lines (map (λ phase. phase.items) phases.now) (map (λ list. list.items) answers.now)
        ++ ending_of size entries.now)) }
    ensures begun { IfErr result (λ _. AppendsSome (W.contents writer.old) (W.contents writer.new)
        (all_lines (map (λ phase. phase.items) phases.now) (map (λ list. list.items) answers.now)
        ++ ending_of size entries.now)) }
    ensures marks { W.failed writer.new ≡ is_err result }
{
    let mut waiting = ArrayVec::new();
    let mut done = [0; MAX_SEATS];
    for phase in phases {
        say_phase(writer, &mut waiting, phase.as_slice(), answers, &mut done)?;
    }
    say_ending(writer, &mut waiting, size, entries)?;
    flush(writer, &mut waiting)
}
