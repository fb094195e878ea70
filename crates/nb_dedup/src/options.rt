//! The words of the command line.

use nb_core::Shape;
use nb_lines::{
    Argument, CommandLine, FILES, Form, Given, MANY_KEYS, MEMORY, NumberWord, ProgramFault,
    WORKERS, WordsFault, wrong_word,
};
use nb_texts::{CATALOG_EACH, MemoryLimit};
use std::alloc::Global;

/// What is asked for.
#[derive(Clone, Copy)]
pub(crate) enum Task {
    /// Each line once, where it comes first.
    Lines(LineOptions),
    /// Each number once, ascending.
    Numbers(Options),
}

/// How lines are to be taken.
#[derive(Clone, Copy)]
pub(crate) struct LineOptions {
    /// How many threads hash lines.
    pub(crate) workers: usize,
    /// For how many different lines there is room at first.
    pub(crate) room: usize,
    /// The key of the hash function, where it is given.
    pub(crate) seed: Option<u64>,
    /// How many bits of a hash count.
    pub(crate) bits: u32,
    /// How much may be kept for lines, if that is limited.
    pub(crate) limit: Option<MemoryLimit>,
}

/// How the jobs are to be taken and printed.
#[derive(Clone, Copy)]
pub(crate) struct Options {
    /// How many threads take jobs.
    pub(crate) workers: usize,
    /// Whether it is printed who took each job.
    pub(crate) tells_who: bool,
    /// For how many different numbers there has to be room.
    keys: usize,
}

impl Options {
    /// A set that begins small, and grows where a key isn't within a few slots of its home, up to
    /// a table with room for so many keys and more.
    pub(crate) fn shape(&self) -> Result<Shape, ProgramFault> {
        Ok(Shape::for_keys(self.keys, self.workers)?)
    }
}

/// `--seed N`: the key of the hash function.
const SEED: NumberWord = NumberWord {
    name: "--seed",
    low: 0,
    high: u64::MAX,
};

/// `--bits N`: how many bits of a hash count.
const BITS: NumberWord = NumberWord {
    name: "--bits",
    low: 0,
    high: 64,
};

/// What `--help` tells behind the options.
const MORE: &str = "\
A line is any bytes up to a newline. Each is printed where it comes first, as
soon as it was read, and never again: the output is the same in every run. There
is no end to what may come but that of memory.

With --memory it stops before lines that may not fit, and says after how many it
stopped. For each different line it keeps the bytes of the line and 16 more, and
the map has some 24 to 96; a block of input, 1 MiB or a line, comes on top.

With --numbers each line is one number from 0 to 18446744073709551613, in digits
only. It ends with a newline, or with a carriage return and a newline. The numbers
are printed at the end, in ascending order, like sort -nu. Only the workers that
--who prints can differ from run to run. With one worker, they are the same too.

Exit status: 0 done; 1 a read or a write failed; 2 a line is not such a number;
3 bad usage; 4 out of memory; 5 more different numbers than there is room for;
7 stopped by --memory.

Example: printf 'b\\na\\nb\\n' | nb_dedup
b
a";

/// The command line.
pub(crate) const LINE: CommandLine = CommandLine {
    name: "nb_dedup",
    about: "Prints each line of files or standard input once, like awk '!n[$0]++'",
    more: Some(MORE),
    arguments: &[
        FILES,
        Argument {
            form: Form::Number(WORKERS, "N"),
            default: Some("4"),
            help: "How many threads hash lines, or take numbers; 1 to 8",
        },
        Argument {
            form: Form::Flag("--numbers"),
            default: None,
            help: "Take numbers alone, and print them in ascending order",
        },
        Argument {
            form: Form::Flag("--who"),
            default: None,
            help: "With --numbers, also print which worker took each number; workers are numbered from 1",
        },
        Argument {
            form: Form::Number(MANY_KEYS, "N"),
            default: Some("349525"),
            help: "Make room for N different lines at first, or for at least N different numbers in all; 1 to 178956970",
        },
        Argument {
            form: Form::Number(MEMORY, "BYTES"),
            default: None,
            help: "Keep no more than so many bytes for lines, and stop before some that may not fit; 65536 to 1152921504606846975",
        },
        Argument {
            form: Form::Number(SEED, "N"),
            default: None,
            help: "Hash lines by the key N, and not by one from the machine's randomness; 0 to 18446744073709551615",
        },
        Argument {
            form: Form::Number(BITS, "N"),
            default: Some("64"),
            help: "Use N bits of a line's hash; with few of them many lines share one, for tests; 0 to 64",
        },
    ],
};

/// The task that the command line gives.
pub(crate) fn task_of(alloc: Global, given: &Given) -> Result<Task, WordsFault> {
    let workers = WORKERS.find(alloc, given)?.unwrap_or(1) as usize;
    let keys = MANY_KEYS.find(alloc, given)?.unwrap_or(1) as usize;
    let seed = SEED.find(alloc, given)?;
    let bits = BITS.find(alloc, given)?.unwrap_or(64) as u32;
    let tells_who = given.is_set("--who");
    if given.is_set("--numbers") {
        return numbers_of(
            alloc,
            given,
            Options {
                workers,
                tells_who,
                keys,
            },
        );
    }
    if tells_who {
        let complaint = "no line is one worker's";
        return Err(wrong_word(alloc, "--who", "without --numbers", complaint));
    }
    Ok(Task::Lines(LineOptions {
        workers,
        room: keys,
        seed,
        bits,
        limit: limit_of(alloc, given)?,
    }))
}

/// To take numbers, of which it isn't asked how much is kept.
fn numbers_of(alloc: Global, given: &Given, options: Options) -> Result<Task, WordsFault> {
    match given.text(MEMORY.name) {
        Some(word) => Err(wrong_word(alloc, MEMORY.name, word, "not with --numbers")),
        None => Ok(Task::Numbers(options)),
    }
}

/// How much may be kept for lines, if that is limited.
fn limit_of(alloc: Global, given: &Given) -> Result<Option<MemoryLimit>, WordsFault> {
    match MEMORY.find(alloc, given)? {
        Some(bytes) => Ok(Some(MemoryLimit {
            bytes: bytes as usize,
            each: CATALOG_EACH,
        })),
        None => Ok(None),
    }
}
