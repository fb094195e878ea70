//! The words of the command line.
ghost use Rattle.std.specs.Prelude.{◌≡◌, ◌*◌, ◌-◌, ◌^◌, ◌<◌, ◌≤◌, IfOk};
ghost use Rattle.nb_core.specs.Plans.{HasRoomFor};
ghost use Rattle.nb_core.specs.declared.shapes.TheConstants.{MAX_EXPONENT};

use crate::callers::By;
use crate::churn::keys_ever;
use crate::keys::{Law, Spacing};
use crate::workloads::{Plan, Workload};
use nb_core::{MAX_EXPONENT, Shape, ShapeFault};
use nb_lines::{
    Argument, CommandLine, Form, Given, NumberWord, ProgressMeter, WordsFault, wrong_word,
};
use std::alloc::Global;
use std::time::Duration;

/// What is to be run.
#[derive(Drop)]
pub(crate) struct Options {
    pub(crate) workload: Workload,
    /// How many threads work, each with a seat of its own.
    pub(crate) threads: usize,
    /// How long it is measured.
    pub(crate) time: Duration,
    tables: Tables,
    /// How many keys there are.
    pub(crate) keys: u32,
    pub(crate) spacing: Spacing,
    /// How often each key is drawn, in `A`, `B` and `C`.
    pub(crate) law: Law,
    /// What makes the calls of `A`, `B`, `C` and `E`.
    pub(crate) by: By,
    /// In `A`, `B`, `C` and `E`, after how many calls a thread stops, rounded up to whole batches;
    /// in `D`, after how many puts of all threads no more rounds begin; in `G`, how many calls each
    /// thread makes in a round, if not `u64::MAX`.
    pub(crate) calls: u64,
    /// How progress is told.
    pub(crate) progress: ProgressMeter,
}

/// The tables that are asked for.
#[derive(Drop)]
struct Tables {
    /// The exponents of their sizes; none, where the number of keys decides.
    exponents: Vec<u32>,
    /// Over how many words the size is counted.
    stripes: usize,
    /// Past how many slots of its path no new key is put in a table that isn't the last.
    reprobes: u32,
    /// How many slots are handed out at once when a table is copied.
    chunk: u32,
}

impl Options {
    /// The shape of the map.
    pub(crate) fn shape(&self) -> Result<Shape, ShapeFault> {
        let tables = &self.tables;
        if tables.exponents.is_empty() {
            return self.shape_by_keys();
        }
        Shape::of_tables(tables.exponents.as_slice())?
            .with_seats(self.threads)?
            .with_stripes(tables.stripes)?
            .with_reprobe_limit(tables.reprobes)?
            .with_chunk(tables.chunk)
    }

    /// The shape for the workload's keys, in `G` for all that ever come.
    fn shape_by_keys(&self) -> Result<Shape, ShapeFault> {
        self.shape_for(match self.workload {
            Workload::Churn => keys_ever(self.keys, self.threads),
            _ => self.keys as usize,
        })
    }

    /// The shape for so many keys, with a seat for each thread.
    fn shape_for(&self, keys: usize) -> Result<Shape, ShapeFault>
        ensures room { IfOk result (λ shape. HasRoomFor shape keys) }
        ensures seats { IfOk result (λ shape. shape.seats ≡ self.now.threads) }
    {
        Shape::for_keys(keys, self.threads)
    }
}

const THREADS: NumberWord = NumberWord {
    name: "THREADS",
    low: 1,
    high: 256,
};

const STRIPES: NumberWord = NumberWord {
    name: "--stripes",
    low: 1,
    high: 256,
};

const REPROBES: NumberWord = NumberWord {
    name: "--reprobes",
    low: 1,
    high: 4_294_967_295,
};

const CHUNK: NumberWord = NumberWord {
    name: "--chunk",
    low: 4,
    high: 1024,
};

const CALLS: NumberWord = NumberWord {
    name: "--calls",
    low: 0,
    high: u64::MAX,
};

const LIVE: NumberWord = NumberWord {
    name: "--live",
    low: 1,
    high: 178_956_970,
};

const WORKLOADS: &str = "A: gets; B: 90% gets; C: 50% gets; D: puts that make the map grow; \
    E: puts at one key; F: many keys are put, and read; G: keys come and go; \
    kinds: one kind of call after another";

/// The command line.
pub(crate) const LINE: CommandLine = CommandLine {
    name: "nb_bench",
    about: "Measures a map of whole numbers and prints 'nb WORKLOAD THREADS OPS NANOSECONDS'",
    more: None,
    arguments: &[
        Argument {
            form: Form::Place("WORKLOAD"),
            default: None,
            help: WORKLOADS,
        },
        Argument {
            form: Form::Place("THREADS"),
            default: Some("1"),
            help: "How many threads run at once, each with its own seat; 1 to 256",
        },
        Argument {
            form: Form::Place("SECONDS"),
            default: Some("1"),
            help: "How many seconds to measure, such as 0.5",
        },
        Argument {
            form: Form::Text("--plan", "E,E,.."),
            default: None,
            help: "Tables of 2^E slots, one for each E; 1 to 16 numbers from 2 to 28; \
                without it D, F and G heed no --stripes, --reprobes or --chunk",
        },
        Argument {
            form: Form::Number(STRIPES, "P"),
            default: None,
            help: "How many words the count of keys is spread over; 1 to 256",
        },
        Argument {
            form: Form::Number(REPROBES, "N"),
            default: None,
            help: "How many slots a new key may try before a table grows; 1 to 4294967295",
        },
        Argument {
            form: Form::Number(CHUNK, "C"),
            default: Some("8"),
            help: "How many slots a thread copies at a time; a power of two from 4 to 1024",
        },
        Argument {
            form: Form::Text("--keys", "WHICH"),
            default: Some("dense"),
            help: "dense (0, 1, 2 and so on), spread (over the whole range) or \
                zipf (dense, and in A to C some much more often)",
        },
        Argument {
            form: Form::Text("--by", "WHAT"),
            default: Some("seat"),
            help: "In A to C and E: who calls, seat (of a map), handle (of a map) or guest \
                (of a map without an end)",
        },
        Argument {
            form: Form::Number(CALLS, "N"),
            default: None,
            help: "In A to C and E: how many calls each thread makes, rounded up to 1024s; \
                in D: after how many puts of all threads it ends; \
                in G: how many calls each thread makes in a round",
        },
        Argument {
            form: Form::Number(LIVE, "N"),
            default: None,
            help: "In A to G: how many keys there are; 1 to 178956970; by default 65536, in D 32768, \
                in F 1000000",
        },
    ],
};

/// What a plan has to be.
const NO_PLAN: &str = "not 1 to 16 numbers from 2 to 28, none below the one before, of 2^30 slots \
    in all at most";

/// The exponents that a plan's text writes.
fn read_plan(alloc: Global, text: &str) -> Result<Vec<u32>, WordsFault> {
    let mut exponents = Vec::new(alloc);
    for part in text.split(',') {
        let Ok(exponent) = part.parse::<u32>() else {
            return Err(wrong_word(alloc, "--plan", text, NO_PLAN));
        };
        exponents.push(exponent)?;
    }
    Ok(exponents)
}

/// The exponent of the smallest table that has two slots for each of so many keys, or that of the
/// largest table if none has.
fn exponent_for(keys: u32) -> u32
    ensures table { (2 ≤ result) × (result ≤ MAX_EXPONENT) }
    ensures room { result < MAX_EXPONENT → 2 * keys ≤ 2 ^ result }
    ensures smallest { 2 < result → 2 ^ (result - 1) < 2 * keys }
{
    let slots = (2 * u64::from(keys)).max(4);
    let below = (slots - 1).ilog2();
    if below >= MAX_EXPONENT {
        return MAX_EXPONENT;
    }
    below + 1
}

/// The exponents that are asked for, or those of the workload; none, where the keys decide.
fn plan_of(
    alloc: Global,
    workload: Workload,
    keys: u32,
    given: &Given,
) -> Result<Vec<u32>, WordsFault> {
    if let Some(text) = given.text("--plan") {
        return read_plan(alloc, text);
    }
    let mut exponents = Vec::new(alloc);
    match workload.plan() {
        Plan::OneTable => exponents.push(exponent_for(keys))?,
        Plan::ByKeys => {}
    }
    Ok(exponents)
}

const NO_WORKLOAD: &str = "none of A, B, C, D, E, F, G and kinds";

/// The workload that is asked for.
fn read_workload(alloc: Global, name: &str) -> Result<Workload, WordsFault> {
    match Workload::named(name) {
        Some(workload) => Ok(workload),
        None => Err(wrong_word(alloc, "WORKLOAD", name, NO_WORKLOAD)),
    }
}

const NO_KEYS: &str = "none of dense, spread and zipf";

/// The keys that are asked for, and how often each is drawn.
fn read_keys(alloc: Global, name: &str) -> Result<(Spacing, Law), WordsFault> {
    match name {
        "dense" => Ok((Spacing::Dense, Law::Even)),
        "spread" => Ok((Spacing::Spread, Law::Even)),
        "zipf" => Ok((Spacing::Dense, Law::Zipf)),
        _ => Err(wrong_word(alloc, "--keys", name, NO_KEYS)),
    }
}

const NO_CALLER: &str = "none of seat, handle and guest";

/// What is to call the map.
fn read_by(alloc: Global, name: &str) -> Result<By, WordsFault> {
    match By::named(name) {
        Some(by) => Ok(by),
        None => Err(wrong_word(alloc, "--by", name, NO_CALLER)),
    }
}

/// A time in seconds, which may have a fraction.
fn read_time(alloc: Global, text: &str) -> Result<Duration, WordsFault> {
    let time = match text.parse::<f64>() {
        Ok(seconds) => Duration::try_from_secs_f64(seconds).ok(),
        Err(_) => None,
    };
    match time {
        Some(time) => Ok(time),
        None => Err(wrong_word(alloc, "SECONDS", text, "not a time in seconds")),
    }
}

/// How many keys are asked for, if they are.
fn live_of(alloc: Global, given: &Given) -> Result<Option<u32>, WordsFault> {
    match LIVE.find(alloc, given)? {
        Some(live) => Ok(Some(live as u32)),
        None => Ok(None),
    }
}

/// The tables that are asked for, or those of the workload with so many keys and threads.
fn tables_of(
    alloc: Global,
    workload: Workload,
    keys: u32,
    threads: u64,
    given: &Given,
) -> Result<Tables, WordsFault> {
    let stripes = STRIPES.find(alloc, given)?.unwrap_or(threads);
    let reprobes = REPROBES.find(alloc, given)?.unwrap_or(REPROBES.high);
    let chunk = CHUNK.find(alloc, given)?.unwrap_or(8);
    Ok(Tables {
        exponents: plan_of(alloc, workload, keys, given)?,
        stripes: stripes as usize,
        reprobes: reprobes as u32,
        chunk: chunk as u32,
    })
}

/// The options that the command line gives.
fn options_of(alloc: Global, given: &Given) -> Result<Options, WordsFault> {
    let workload = read_workload(alloc, given.text("WORKLOAD").unwrap_or(""))?;
    let threads = THREADS.find(alloc, given)?.unwrap_or(1);
    let keys = workload.keys(live_of(alloc, given)?);
    let (spacing, law) = read_keys(alloc, given.text("--keys").unwrap_or("dense"))?;
    let time = read_time(alloc, given.text("SECONDS").unwrap_or("1"))?;
    let calls = CALLS.find(alloc, given)?.unwrap_or(u64::MAX);
    let by = read_by(alloc, given.text("--by").unwrap_or("seat"))?;
    Ok(Options {
        workload,
        threads: threads as usize,
        time,
        tables: tables_of(alloc, workload, keys, threads, given)?,
        keys,
        spacing,
        law,
        by,
        calls,
        progress: ProgressMeter::NONE,
    })
}

/// The word of the command line for which there is no shape.
fn fault_of_shape(alloc: Global, fault: ShapeFault, given: &Given) -> WordsFault {
    let (name, complaint) = match fault {
        ShapeFault::Chunk => ("--chunk", "not a power of two from 4 to 1024"),
        _ => ("--plan", NO_PLAN),
    };
    wrong_word(alloc, name, given.text(name).unwrap_or(""), complaint)
}

/// The options that the command line gives, for which there is a shape.
pub(crate) fn read_options(alloc: Global, given: &Given) -> Result<Options, WordsFault> {
    let options = options_of(alloc, given)?;
    match options.shape() {
        Ok(_) => Ok(options),
        Err(fault) => Err(fault_of_shape(alloc, fault, given)),
    }
}
