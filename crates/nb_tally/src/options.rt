//! The words of the command line.

use crate::fields::Column;
use nb_core::{MAX_EXPONENT, Shape};
use nb_lines::{
    Argument, CommandLine, FILES, Form, Given, MEMORY, NumberWord, ProgramFault, WORKERS,
    WordsFault, wrong_word,
};
use nb_texts::{MemoryLimit, TALLY_EACH};
use std::alloc::Global;

/// The most slots of a table, and so the most different numbers that any map has room for.
const SLOTS_MAX: usize = 1 << MAX_EXPONENT;

const TOP: NumberWord = NumberWord {
    name: "--top",
    low: 1,
    high: 4_294_967_295,
};

const KEYS: NumberWord = NumberWord {
    name: "--keys",
    low: 1,
    high: 268_435_456,
};

/// `--seed N`: the key of the hash function.
const SEED: NumberWord = NumberWord {
    name: "--seed",
    low: 0,
    high: u64::MAX,
};

/// `--bits N`: how many bits of a hash count.
const BITS: NumberWord = NumberWord {
    name: "--bits",
    low: 0,
    high: 64,
};

/// `--by ORDER`.
const BY: &str = "--by";

/// `--field N`: which field of each line is counted.
const FIELD: NumberWord = NumberWord {
    name: "--field",
    low: 1,
    high: 4_294_967_295,
};

/// `--delimiter C`: the byte between two fields.
const DELIMITER: &str = "--delimiter";

/// `--forget`.
const FORGET: &str = "--forget";

/// What is asked for.
#[derive(Clone, Copy)]
pub(crate) enum Task {
    Lines(LineOptions),
    Numbers(Options),
}

/// In which order lines are printed.
#[derive(Clone, Copy)]
pub(crate) enum Order {
    /// The most frequent first, and equally frequent ones by their first coming.
    Count,
    /// By their bytes.
    Line,
    /// By their first coming.
    First,
}

/// How lines are to be counted.
#[derive(Clone, Copy)]
pub(crate) struct LineOptions {
    /// How many threads hash lines.
    pub(crate) workers: usize,
    /// For how many different lines there is room at first.
    pub(crate) room: usize,
    /// The key of the hash function, where it is given.
    pub(crate) seed: Option<u64>,
    /// How many bits of a hash count.
    pub(crate) bits: u32,
    /// Which column is counted, if not whole lines are.
    pub(crate) column: Option<Column>,
    pub(crate) order: Order,
    /// How many lines are printed, if not all are.
    pub(crate) top: Option<u64>,
    /// How much may be kept for lines, if that is limited.
    pub(crate) limit: Option<MemoryLimit>,
    /// Whether the rarest lines are forgotten where some may not fit.
    pub(crate) forgets: bool,
}

/// What numbers are to be counted, and how.
#[derive(Clone, Copy)]
pub(crate) struct Options {
    /// How many threads count.
    pub(crate) workers: usize,
    /// How many of the most frequent numbers are printed, if not all are.
    pub(crate) top: Option<u64>,
    /// For how many different numbers there has to be room.
    keys: usize,
}

impl Options {
    /// One table, since it is known from the start how large it has to be: with twice as many
    /// slots as keys, where the map may have that many. So most keys stand at home.
    pub(crate) fn shape(&self) -> Result<Shape, ProgramFault> {
        let slots = self.keys.saturating_mul(2).clamp(4, SLOTS_MAX);
        let exponent = slots.next_power_of_two().trailing_zeros();
        let shape = Shape::of_tables(&[exponent])?;
        Ok(shape.with_seats(self.workers)?.with_stripes(self.workers)?)
    }
}

/// What `--help` tells behind the options.
const MORE: &str = "\
A line is any bytes up to a newline. There is no end to what may come but that of
memory. With --top lines are printed by count, else by line, unless --by says how;
equally frequent ones as they came first.

With --field N what is counted is the N-th field of each line, as cut -f N gives
it: each delimiter parts two fields, also where several stand side by side. Where
a line has fewer fields, an empty one is counted, also where it has no delimiter
at all; cut would give that line whole.

With --memory it stops before lines that may not fit, prints the counts of those
before them, which are exact, and says after how many lines it stopped. For each
different line it keeps the bytes of the line and 56 more, and the map has some 24
to 96; a block of input, 1 MiB or a line, comes on top.

With --forget it doesn't stop there, but forgets half of the lines that it keeps or
more, the rarest ones, and goes on. Two numbers are printed before a line: it came
so many times at least, and so many at most. They differ by the same number for
each line, and a line that isn't printed, even with all lines, came no more often
than that. While it forgets it takes the bytes of the lines that stay once more.

With --numbers each line is one number from 0 to 18446744073709551613, in digits
only. It ends with a newline, or with a carriage return and a newline. Numbers are
printed in ascending order, like sort -n | uniq -c, or by count with --top.

Exit status: 0 done; 1 a read or a write failed; 2 a line is not such a number;
3 bad usage; 4 out of memory; 5 more different numbers than there is room for;
7 stopped by --memory.

Example: printf 'b\\na\\nb\\n' | nb_tally --top 1
      2 b";

/// The command line.
pub(crate) const LINE: CommandLine = CommandLine {
    name: "nb_tally",
    about: "Counts how often each line occurs in files or standard input, like sort | uniq -c",
    more: Some(MORE),
    arguments: &[
        FILES,
        Argument {
            form: Form::Number(WORKERS, "N"),
            default: Some("4"),
            help: "How many threads hash lines, or count numbers; 1 to 8",
        },
        Argument {
            form: Form::Flag("--numbers"),
            default: None,
            help: "Count numbers alone, and print them in ascending order",
        },
        Argument {
            form: Form::Number(FIELD, "N"),
            default: None,
            help: "Count the N-th field of each line, and not the line; 1 to 4294967295",
        },
        Argument {
            form: Form::Text(DELIMITER, "C"),
            default: None,
            help: "With --field, the byte that parts fields, if it is no tab",
        },
        Argument {
            form: Form::Text(BY, "ORDER"),
            default: None,
            help: "Print lines in this order: count, line or first",
        },
        Argument {
            form: Form::Number(TOP, "K"),
            default: None,
            help: "Print only K, the most frequent first unless --by says how; 1 to 4294967295",
        },
        Argument {
            form: Form::Number(KEYS, "N"),
            default: Some("524288"),
            help: "Make room for N different lines at first, or for at least N different numbers in all; 1 to 268435456",
        },
        Argument {
            form: Form::Number(MEMORY, "BYTES"),
            default: None,
            help: "Keep no more than so many bytes for lines, and stop before some that may not fit; 65536 to 1152921504606846975",
        },
        Argument {
            form: Form::Flag(FORGET),
            default: None,
            help: "With --memory, forget the rarest lines and go on, and print how often each came at least and at most",
        },
        Argument {
            form: Form::Number(SEED, "N"),
            default: None,
            help: "Hash lines by the key N, and not by one from the machine's randomness; 0 to 18446744073709551615",
        },
        Argument {
            form: Form::Number(BITS, "N"),
            default: Some("64"),
            help: "Use N bits of a line's hash; with few of them many lines share one, for tests; 0 to 64",
        },
    ],
};

/// The task that the command line gives.
pub(crate) fn task_of(alloc: Global, given: &Given) -> Result<Task, WordsFault> {
    let workers = WORKERS.find(alloc, given)?.unwrap_or(1) as usize;
    let keys = KEYS.find(alloc, given)?.unwrap_or(1) as usize;
    let top = TOP.find(alloc, given)?;
    if given.is_set("--numbers") {
        return numbers_of(alloc, given, Options { workers, top, keys });
    }
    Ok(Task::Lines(LineOptions {
        workers,
        room: keys,
        seed: SEED.find(alloc, given)?,
        bits: BITS.find(alloc, given)?.unwrap_or(64) as u32,
        column: column_of(alloc, given)?,
        order: order_of(alloc, given, top)?,
        top,
        limit: limit_of(alloc, given)?,
        forgets: forgets(alloc, given)?,
    }))
}

/// How much a tally may keep for lines, if that is limited.
fn limit_of(alloc: Global, given: &Given) -> Result<Option<MemoryLimit>, WordsFault> {
    match MEMORY.find(alloc, given)? {
        Some(bytes) => Ok(Some(MemoryLimit {
            bytes: bytes as usize,
            each: TALLY_EACH,
        })),
        None => Ok(None),
    }
}

/// Whether lines are to be forgotten, for which there has to be a limit.
fn forgets(alloc: Global, given: &Given) -> Result<bool, WordsFault> {
    let is_asked = given.is_set(FORGET);
    if is_asked && given.text(MEMORY.name).is_none() {
        let complaint = "nothing has to be forgotten";
        return Err(wrong_word(alloc, FORGET, "without --memory", complaint));
    }
    Ok(is_asked)
}

/// To count numbers, whose order isn't asked for, nor a column of them, nor how much is kept, nor what
/// is forgotten.
fn numbers_of(alloc: Global, given: &Given, options: Options) -> Result<Task, WordsFault> {
    for name in [BY, FIELD.name, DELIMITER, MEMORY.name] {
        if let Some(word) = given.text(name) {
            return Err(wrong_word(alloc, name, word, "not with --numbers"));
        }
    }
    if given.is_set(FORGET) {
        let complaint = "no lines are counted";
        return Err(wrong_word(alloc, FORGET, "with --numbers", complaint));
    }
    Ok(Task::Numbers(options))
}

/// The column that is asked for. Its fields are parted by tabs, unless another byte is given.
fn column_of(alloc: Global, given: &Given) -> Result<Option<Column>, WordsFault> {
    let Some(number) = FIELD.find(alloc, given)? else {
        return no_delimiter(alloc, given);
    };
    let word = given.text(DELIMITER).unwrap_or("\t");
    match word.as_bytes() {
        [delimiter] => Ok(Some(Column {
            number: number as usize,
            delimiter: *delimiter,
        })),
        _ => Err(wrong_word(alloc, DELIMITER, word, "not one byte")),
    }
}

/// No column is asked for, and so no delimiter may be.
fn no_delimiter(alloc: Global, given: &Given) -> Result<Option<Column>, WordsFault> {
    match given.text(DELIMITER) {
        Some(_) => {
            let complaint = "no line has fields";
            Err(wrong_word(alloc, DELIMITER, "without --field", complaint))
        }
        None => Ok(None),
    }
}

/// The order that is asked for: by count where only the first ones are, and else by line.
fn order_of(alloc: Global, given: &Given, top: Option<u64>) -> Result<Order, WordsFault> {
    match given.text(BY) {
        Some("count") => Ok(Order::Count),
        Some("line") => Ok(Order::Line),
        Some("first") => Ok(Order::First),
        Some(order) => Err(wrong_word(alloc, BY, order, "neither count, line nor first")),
        None if top.is_some() => Ok(Order::Count),
        None => Ok(Order::Line),
    }
}
