//! The lines of a script: what each says, or what is wrong with it.
ghost use Rattle.std.specs.Prelude.{
  ◌≡◌,
  ◌∷◌,
  [],
  ◌^◌,
  length,
  ◌<◌,
  option_map,
  IfNone,
  IfSome,
  not,
  slice_get,
  take_while,
};
ghost use Rattle.nb_core.specs.Digits.{number_spelled};
ghost use Rattle.nb_script.specs.Script.{
  arity,
  below,
  command_of,
  command_on,
  is_space,
  key_at,
  key_of,
  op_of,
  said_by,
  task_of,
  value_at,
  value_of,
  words_in,
  worker_of,
};

use nb_core::{DigitsFault, Key, Num, read_number};
use thiserror::Error;

/// The most bytes of a line, without its newline.
pub const LINE_MAX: usize = 128;

/// The most lines of a script.
pub const LINES_MAX: usize = 1 << 20;

/// What is wrong with a line. `docs/script.md` has the order of the checks; the variants don't
/// stand in it.
#[derive(Clone, Copy, Debug, PartialEq, Eq, Error)]
#[error("{}", self.text())]
pub enum Cause {
    TooMany,
    LongLine,
    Worker,
    Missing,
    Op,
    Extra,
    Number,
    KeyRange,
    ValueRange,
}

impl Cause {
    ghost use Rattle.nb_script.specs.Faults.{cause_text};

    /// What the program says of it, after the line's number.
    pub fn text(self) -> &'static str
        ensures { result.now ≡ cause_text self }
    {
        match self {
            Cause::TooMany => "too many lines",
            Cause::LongLine => "line too long",
            Cause::Worker => "no such worker",
            Cause::Missing => "missing word",
            Cause::Op => "unknown op",
            Cause::Extra => "extra word",
            Cause::Number => "not a number",
            Cause::KeyRange => "key too large",
            Cause::ValueRange => "value too large",
        }
    }
}

/// The op of a command.
#[derive(Clone, Copy, Debug, PartialEq, Eq)]
pub enum Op {
    Get,
    Put,
    PutIfAbsent,
    Replace,
    ReplaceIf,
    Remove,
    RemoveIf,
    Add,
}

/// What a worker is to do: an op with its arguments.
#[derive(Clone, Copy, Debug, PartialEq, Eq)]
pub enum Command {
    Get(Key),
    Put(Key, Num),
    PutIfAbsent(Key, Num),
    Replace(Key, Num),
    ReplaceIf(Key, Num, Num),
    Remove(Key),
    RemoveIf(Key, Num),
    Add(Key, Num),
}

/// What a line with words says: a worker's number and its command, or the end of a phase.
#[derive(Clone, Copy, Debug, PartialEq, Eq)]
pub enum Line {
    Command(usize, Command),
    PhaseEnd,
}

impl Op {
    fn named(word: &[u8]) -> Option<Op>
        ensures { result ≡ op_of word.now }
    {
        match word {
            b"get" => Some(Op::Get),
            b"put" => Some(Op::Put),
            b"putifabsent" => Some(Op::PutIfAbsent),
            b"replace" => Some(Op::Replace),
            b"replaceif" => Some(Op::ReplaceIf),
            b"remove" => Some(Op::Remove),
            b"removeif" => Some(Op::RemoveIf),
            b"add" => Some(Op::Add),
            _ => None,
        }
    }

    /// How many arguments the op has, the key among them.
    fn arity(self) -> usize
        ensures { result ≡ arity self }
    {
        match self {
            Op::Get | Op::Remove => 1,
            Op::Put | Op::PutIfAbsent | Op::Replace | Op::RemoveIf | Op::Add => 2,
            Op::ReplaceIf => 3,
        }
    }
}

fn is_blank(byte: u8) -> bool
    ensures { result ≡ is_space byte }
{
    byte == b' ' || byte == b'\t' || byte == b'\r'
}

fn blanks_before_word(text: &[u8]) -> usize
    ensures { result ≡ length (take_while is_space text.now) }
{
    text.iter().take_while(|b| is_blank(**b)).count()
}

fn bytes_before_blank(text: &[u8]) -> usize
    ensures { result ≡ length (take_while (λ b. not (is_space b)) text.now) }
{
    text.iter().take_while(|b| !is_blank(**b)).count()
}

/// The first word of a text, and what follows it.
fn next_word(text: &[u8]) -> Option<(&[u8], &[u8])>
    ensures none { IfNone result (words_in text.now ≡ []) }
    ensures some { IfSome result (λ found. words_in text.now ≡ found.0.now ∷ words_in found.1.now) }
    ensures shorter { IfSome result (λ found. length found.1.now < length text.now) }
{
    let (_, from_word) = text.split_at(blanks_before_word(text));
    if from_word.is_empty() {
        return None;
    }
    Some(from_word.split_at(bytes_before_blank(from_word)))
}

fn word_count(text: &[u8]) -> usize
    ensures { result ≡ length (words_in text.now) }
{
    let mut count = 0;
    let mut rest = text;
    while let Some((_, after)) = next_word(rest) {
        count += 1;
        rest = after;
    }
    count
}

fn word_at(text: &[u8], place: usize) -> Option<&[u8]>
    ensures { option_map (λ word. word.now) result ≡ slice_get (words_in text.now) place }
{
    let mut rest = text;
    for _passed in 0..place {
        let (_, after) = next_word(rest)?;
        rest = after;
    }
    let (word, _) = next_word(rest)?;
    Some(word)
}

/// The number that a word spells. Where that has more than 64 bits, this is the cause.
fn number(word: &[u8], too_large: Cause) -> Result<u64, Cause>
    ensures { result ≡ below (2 ^ 64) too_large (number_spelled word.now) }
{
    match read_number(word) {
        Ok(number) => Ok(number),
        Err(DigitsFault::NotANumber) => Err(Cause::Number),
        Err(DigitsFault::TooLarge) => Err(too_large),
    }
}

fn worker(word: &[u8], seats: usize) -> Result<usize, Cause>
    ensures { result ≡ worker_of seats word.now }
{
    let worker = number(word, Cause::Worker)?;
    if worker < seats as u64 {
        Ok(worker as usize)
    } else {
        Err(Cause::Worker)
    }
}

fn key(word: &[u8]) -> Result<Key, Cause>
    ensures { result ≡ key_of word.now }
{
    let number = number(word, Cause::KeyRange)?;
    Key::new(number).map_err(|_| Cause::KeyRange)
}

fn value(word: &[u8]) -> Result<Num, Cause>
    ensures { result ≡ value_of word.now }
{
    let number = number(word, Cause::ValueRange)?;
    Num::new(number).map_err(|_| Cause::ValueRange)
}

fn key_at(text: &[u8], place: usize) -> Result<Key, Cause>
    ensures { result ≡ key_at (words_in text.now) place }
{
    let word = word_at(text, place).ok_or(Cause::Missing)?;
    key(word)
}

fn value_at(text: &[u8], place: usize) -> Result<Num, Cause>
    ensures { result ≡ value_at (words_in text.now) place }
{
    let word = word_at(text, place).ok_or(Cause::Missing)?;
    value(word)
}

#[tactic(auto, unfolding(crate::specs::Script::command_on))]
fn command_on(op: Op, key: Key, text: &[u8]) -> Result<Command, Cause>
    ensures { result ≡ command_on op key (words_in text.now) }
{
    Ok(match op {
        Op::Get => Command::Get(key),
        Op::Put => Command::Put(key, value_at(text, 1)?),
        Op::PutIfAbsent => Command::PutIfAbsent(key, value_at(text, 1)?),
        Op::Replace => Command::Replace(key, value_at(text, 1)?),
        Op::ReplaceIf => Command::ReplaceIf(key, value_at(text, 1)?, value_at(text, 2)?),
        Op::Remove => Command::Remove(key),
        Op::RemoveIf => Command::RemoveIf(key, value_at(text, 1)?),
        Op::Add => Command::Add(key, value_at(text, 1)?),
    })
}

/// The command of an op with its arguments.
#[tactic(auto, unfolding(crate::specs::Script::command_of))]
fn command_of(op: Op, text: &[u8]) -> Result<Command, Cause>
    ensures { result ≡ command_of op (words_in text.now) }
{
    let count = word_count(text);
    if count < op.arity() {
        return Err(Cause::Missing);
    }
    if count > op.arity() {
        return Err(Cause::Extra);
    }
    let key = key_at(text, 0)?;
    command_on(op, key, text)
}

/// A line with a command: a worker's number, an op and its arguments.
#[tactic(auto, unfolding(crate::specs::Script::task_of))]
fn task_of(seats: usize, first: &[u8], text: &[u8]) -> Result<(usize, Command), Cause>
    ensures { result ≡ task_of seats first.now (words_in text.now) }
{
    let worker = worker(first, seats)?;
    let (name, rest) = next_word(text).ok_or(Cause::Missing)?;
    let op = Op::named(name).ok_or(Cause::Op)?;
    let command = command_of(op, rest)?;
    Ok((worker, command))
}

/// What a line says, if it has words.
#[tactic(auto, unfolding(crate::specs::Script::said_by))]
pub(crate) fn said_by(seats: usize, line: &[u8]) -> Result<Option<Line>, Cause>
    ensures { result ≡ said_by seats (words_in line.now) }
{
    let Some((first, rest)) = next_word(line) else {
        return Ok(None);
    };
    if first == b"--".as_slice() && next_word(rest).is_none() {
        return Ok(Some(Line::PhaseEnd));
    }
    let (worker, command) = task_of(seats, first, rest)?;
    Ok(Some(Line::Command(worker, command)))
}
