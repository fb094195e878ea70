//! The options of the runner.
ghost use Rattle.std.specs.Prelude.{
  ◌≡◌,
  ◌≤◌,
  ◌^◌,
  false,
  ℕ,
  [],
  IfErr,
  IfNone,
  IfOk,
  IfSome,
  OnOk,
  None,
  Some,
  codes,
  map,
  string_bytes,
};
ghost use Rattle.clap.specs.Words.{app_of, fault_of, first_of, found_of, kind_of, rows_of, rule_of};
ghost use Rattle.nb_core.specs.Digits.{number_spelled};
ghost use Rattle.nb_core.specs.Plans.{Plan};
ghost use Rattle.nb_script.specs.Options.{
  AreGiven,
  ComesTo,
  IsDue,
  AreOptionsOf,
  nbrun,
  number_rule,
  option_rule,
  plan_asked,
  plan_of_text,
  tuned_plan,
  with_growth,
  with_map,
};

use crate::help;
use clap::error::ErrorKind;
use clap::{Arg, ArgAction, ArgMatches, Command, value_parser};
use nb_core::{MAX_GENERATIONS, Shape};
use std::alloc::{AllocError, Global};
use thiserror::Error;

/// Why words give no options.
#[derive(Debug, Drop, Error)]
pub enum OptionFault {
    #[error("bad usage")]
    Usage,
    /// The words ask for help, and this is its text.
    #[error("{0}")]
    Help(String),
    #[error("out of memory")]
    OutOfMemory,
}

impl From<AllocError> for OptionFault {
    ghost use Rattle.nb_script.specs.declared.options.OptionFault.TheVariants.{OutOfMemory};

    ghost from_gives = { λ _ fault. fault ≡ OutOfMemory };

    fn from(_error: AllocError) -> OptionFault {
        OptionFault::OutOfMemory
    }
}

/// What a run is to be.
#[derive(Clone, Copy, Debug, PartialEq, Eq)]
pub struct Options {
    /// How the map is laid out. Its seats are the workers.
    pub shape: Shape,
}

/// `--NAME VALUE`, with one value.
fn option<'a>(alloc: Global, name: &'a str, value: &'a str, help: &'a str) -> Arg<'a>
    ensures rule { rule_of result ≡ option_rule name.entry.now }
    ensures local { result.global ≡ false }
{
    Arg::new(alloc, name)
        .long(name)
        .action(ArgAction::Set)
        .value_name(value)
        .help(help)
}

/// `--NAME NUMBER`, with a number from the first to the last of the range, which clap checks, and
/// with this one where the words have none.
fn number_option<'a>(
    alloc: Global,
    name: &'a str,
    value: &'a str,
    help: &'a str,
    range: (u32, u32),
    default: &'a str,
) -> Arg<'a>
    ensures rule { rule_of result ≡ number_rule name.entry.now range.0 range.1 default.entry.now }
    ensures local { result.global ≡ false }
{
    let (low, high) = range;
    option(alloc, name, value, help)
        .value_parser(value_parser!(u32).range(i64::from(low)..=i64::from(high)))
        .default_value(default)
}

/// The command line.
fn command<'a>(alloc: Global) -> Result<Command<'a>, AllocError>
    ensures { IfOk result (λ command. app_of command ≡ nbrun) }
{
    let command = Command::new(alloc, "nbrun").after_help(help::SCRIPTS).about(
        "Runs a script from standard input on a map that all workers share",
    );
    with_growth(alloc, with_map(alloc, command)?)
}

/// The command with the options for a map whose tables double.
fn with_map<'a>(alloc: Global, command: Command<'a>) -> Result<Command<'a>, AllocError>
    ensures { IfOk result (λ with. app_of with ≡ with_map (app_of command.entry)) }
{
    command
        .arg(number_option(alloc, "bits", "B", help::BITS, (2, 12), "4"))?
        .arg(number_option(alloc, "generations", "G", help::GENERATIONS, (1, 8), "4"))?
        .arg(number_option(alloc, "seats", "S", help::SEATS, (1, 8), "1"))?
        .arg(number_option(alloc, "stripes", "P", help::STRIPES, (1, 8), "1"))
}

/// The command with the options for how a map grows, and for its tables one by one.
fn with_growth<'a>(alloc: Global, command: Command<'a>) -> Result<Command<'a>, AllocError>
    ensures { IfOk result (λ with. app_of with ≡ with_growth (app_of command.entry)) }
{
    command
        .arg(number_option(
            alloc,
            "reprobes",
            "N",
            help::REPROBES,
            (1, u32::MAX),
            "4294967295",
        ))?
        .arg(number_option(alloc, "chunk", "C", help::CHUNK, (4, 1024), "8"))?
        .arg(option(alloc, "plan", "E,E,..", help::PLAN))
}

/// What clap's error comes to.
fn option_fault(alloc: Global, error: &clap::Error) -> OptionFault
    ensures { ComesTo (kind_of error.now) result }
{
    match error.kind() {
        ErrorKind::OutOfMemory => OptionFault::OutOfMemory,
        ErrorKind::DisplayHelp => match error.to_string(alloc) {
            Ok(text) => OptionFault::Help(text),
            Err(_) => OptionFault::OutOfMemory,
        },
        _ => OptionFault::Usage,
    }
}

/// The number that a plan's part writes, where it fits. A plus before it is refused.
fn read_exponent(part: &str) -> Option<u32>
    ensures some { IfSome result (λ n. number_spelled part.now ≡ Some n) }
    ensures none { IfNone result ((n : ℕ) → number_spelled part.now ≡ Some n → 2 ^ 32 ≤ n) }
{
    if part.starts_with('+') {
        None
    } else {
        part.parse().ok()
    }
}

/// The shape whose exponents a plan's text writes.
fn read_plan(text: &str, seats: usize, stripes: usize) -> Option<Shape>
    ensures some { IfSome result (λ shape. plan_of_text text.now seats stripes ≡ Some shape) }
    ensures none { IfNone result (plan_of_text text.now seats stripes ≡ None) }
{
    let mut exponents = [0; MAX_GENERATIONS];
    let mut count = 0;
    for part in text.split(',') {
        if count == MAX_GENERATIONS {
            return None;
        }
        exponents[count] = read_exponent(part)?;
        count += 1;
    }
    Shape::with_plan(&exponents[..count], seats, stripes).ok()
}

/// The tables, seats and stripes that clap's matches ask for.
fn read_tables(
    matches: &ArgMatches<'_>,
    bits: u32,
    generations: u32,
    seats: usize,
    stripes: usize,
) -> Option<Shape>
    ensures some { IfSome result (λ shape. plan_asked
        (first_of (codes "plan") (rows_of (found_of matches.now))) bits generations seats stripes
        ≡ Some shape) }
    ensures none { IfNone result (plan_asked
        (first_of (codes "plan") (rows_of (found_of matches.now))) bits generations seats stripes
        ≡ None) }
{
    match matches.get_str("plan") {
        Some(text) => read_plan(text, seats, stripes),
        None => Shape::new(bits, generations, seats, stripes).ok(),
    }
}

/// The shape with this reprobe limit and this chunk.
fn tuned(shape: Shape, reprobes: u32, chunk: u32) -> Option<Shape>
    ensures { result ≡ tuned_plan shape reprobes chunk }
{
    let limited = shape.with_reprobe_limit(reprobes).ok()?;
    limited.with_chunk(chunk).ok()
}

/// The shape that clap's matches ask for.
fn read_shape(matches: &ArgMatches<'_>) -> Option<Shape>
    ensures some { IfSome result (AreOptionsOf (rows_of (found_of matches.now))) }
    ensures none { IfNone result ((plan : Plan) →
        ¬ (AreOptionsOf (rows_of (found_of matches.now)) plan)) }
{
    let bits = matches.get_one::<u32>("bits")?;
    let generations = matches.get_one::<u32>("generations")?;
    let seats = matches.get_one::<u32>("seats")? as usize;
    let stripes = matches.get_one::<u32>("stripes")? as usize;
    let reprobes = matches.get_one::<u32>("reprobes")?;
    let chunk = matches.get_one::<u32>("chunk")?;
    let tables = read_tables(matches, bits, generations, seats, stripes)?;
    tuned(tables, reprobes, chunk)
}

/// The options that the words give, of which the first is the program's name.
pub fn read_options(alloc: Global, words: &[String]) -> Result<Options, OptionFault>
    ensures given { IfOk result (λ options. AreGiven (map string_bytes words.now) options.shape) }
    ensures fault { IfErr result (IsDue (map string_bytes words.now)) }
{
    let matches = match command(alloc)?.try_get_matches_from(words) {
        Ok(matches) => matches,
        Err(error) => return Err(option_fault(alloc, &error)),
    };
    let Some(shape) = read_shape(&matches) else {
        return Err(OptionFault::Usage);
    };
    Ok(Options { shape })
}
