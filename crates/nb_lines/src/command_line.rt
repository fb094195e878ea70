//! The words of the command line, and what a process tells at its end.

use crate::faults::{ProgramFault, WordsFault};
use crate::inputs::STANDARD_INPUT;
use crate::numbers::NumberWord;
use clap::error::ErrorKind as WordsErrorKind;
use clap::{Arg, ArgAction, ArgMatches, Command};
use nb_core::OutOfMemory;
use std::alloc::Global;
use std::env;
use std::fmt::Display;
use std::io::ErrorKind;
use std::rt::Env;

/// The version of the programs, as the file VERSION has it.
pub const VERSION: &str = "0.9.0";

/// The words of the command line. Words that aren't text are wrong ones.
fn words_of<R: Env + AllocGlobal>(rt: &R) -> Result<Vec<String>, WordsFault> {
    let given = match env::args(rt) {
        Ok(given) => given,
        Err(error) if error.kind() == ErrorKind::OutOfMemory => {
            return Err(WordsFault::OutOfMemory);
        }
        Err(_) => return Err(WordsFault::NoText),
    };
    let mut words = Vec::new(rt.alloc());
    for word in given {
        words.push(word)?;
    }
    Ok(words)
}

/// What an argument is called, with its dashes where it is an option, and what stands behind its
/// name.
#[derive(Clone, Copy)]
pub enum Form {
    /// `--NAME` alone.
    Flag(&'static str),
    /// `--NAME VALUE`, with what the help calls the number that is the value.
    Number(NumberWord, &'static str),
    /// `--NAME VALUE`, with what the help calls the text that is the value.
    Text(&'static str, &'static str),
    /// A word that stands alone in its place. It must be given unless it has a default.
    Place(&'static str),
    /// Words that stand alone, as many as come.
    Places(&'static str),
}

/// An argument that a command line may have, and what the help tells of it.
#[derive(Clone, Copy)]
pub struct Argument {
    pub form: Form,
    /// What holds where it isn't given.
    pub default: Option<&'static str>,
    pub help: &'static str,
}

impl Argument {
    pub fn name(&self) -> &'static str {
        match self.form {
            Form::Number(number, _) => number.name,
            Form::Flag(name) | Form::Text(name, _) | Form::Place(name) | Form::Places(name) => name,
        }
    }

    /// The name by which clap knows it.
    fn id(&self) -> &'static str {
        self.name().trim_start_matches('-')
    }

    /// The argument as clap has it.
    fn arg<'a>(&self, alloc: Global) -> Arg<'a> {
        let arg = Arg::new(alloc, self.id()).help(self.help);
        let arg = match self.form {
            Form::Flag(_) => arg.long(self.id()).action(ArgAction::SetTrue),
            Form::Number(_, value) | Form::Text(_, value) => arg
                .long(self.id())
                .action(ArgAction::Set)
                .value_name(value),
            Form::Place(_) => arg.action(ArgAction::Set).required(self.default.is_none()),
            Form::Places(_) => arg.num_args(1..).action(ArgAction::Append),
        };
        match self.default {
            Some(default) => arg.default_value(default),
            None => arg,
        }
    }

    /// The texts that clap's matches have of it. That of a flag is empty.
    fn texts_in(
        &self,
        alloc: Global,
        matches: &ArgMatches<'_>,
    ) -> Result<Vec<String>, OutOfMemory> {
        let mut texts = Vec::new(alloc);
        if let Form::Flag(_) = self.form {
            if matches.get_flag(self.id()) {
                texts.push(String::new(alloc))?;
            }
            return Ok(texts);
        }
        if let Some(given) = matches.get_strs(self.id()) {
            for text in given {
                texts.push(String::from_str(alloc, text)?)?;
            }
        }
        Ok(texts)
    }
}

/// The command line of a program, which also has `--help` and `--version`.
#[derive(Clone, Copy)]
pub struct CommandLine {
    pub name: &'static str,
    /// What the program is for.
    pub about: &'static str,
    /// What the help tells behind the options.
    pub more: Option<&'static str>,
    pub arguments: &'static [Argument],
}

impl CommandLine {
    /// What the words give that the process was started with.
    pub fn given<R: Env + AllocGlobal>(&self, rt: &R) -> Result<Given, WordsFault> {
        let alloc = rt.alloc();
        let words = words_of(rt)?;
        match self.command(alloc)?.try_get_matches_from(words.as_slice()) {
            Ok(matches) => self.found_in(alloc, &matches),
            Err(error) => Err(fault_of_words(alloc, &error)),
        }
    }

    /// The command line as clap has it.
    fn command<'a>(&self, alloc: Global) -> Result<Command<'a>, OutOfMemory> {
        let mut command = Command::new(alloc, self.name)
            .version(VERSION)
            .about(self.about);
        if let Some(more) = self.more {
            command = command.after_help(more);
        }
        for argument in self.arguments {
            command = command.arg(argument.arg(alloc))?;
        }
        Ok(command)
    }

    /// What clap's matches have of each argument.
    fn found_in(&self, alloc: Global, matches: &ArgMatches<'_>) -> Result<Given, WordsFault> {
        let mut found = Vec::new(alloc);
        for argument in self.arguments {
            found.push(Found {
                name: argument.name(),
                texts: argument.texts_in(alloc, matches)?,
            })?;
        }
        Ok(Given { found })
    }
}

/// What was given as an argument, or its default: nothing, one text, or many words that stand alone.
#[derive(Drop)]
struct Found {
    name: &'static str,
    texts: Vec<String>,
}

/// What a command line gives.
#[derive(Drop)]
pub struct Given {
    found: Vec<Found>,
}

impl Given {
    /// The texts that were given for an argument's name, or its default.
    pub fn texts(&self, name: &str) -> &[String] {
        for found in self.found.iter() {
            if found.name == name {
                return found.texts.as_slice();
            }
        }
        &[]
    }

    /// The text behind an argument's name, or its default. There is none where neither is.
    pub fn text(&self, name: &str) -> Option<&str> {
        Some(self.texts(name).first()?.as_str())
    }

    /// Whether a flag is set.
    pub fn is_set(&self, name: &str) -> bool {
        self.text(name).is_some()
    }
}

/// `--workers N`: how many threads work.
pub const WORKERS: NumberWord = NumberWord {
    name: "--workers",
    low: 1,
    high: 8,
};

/// `--keys N`: for how many different keys a map that grows has room at least, as many as
/// `Shape::for_keys` takes. Unless it is given, the last table has 2^19 slots.
pub const MANY_KEYS: NumberWord = NumberWord {
    name: "--keys",
    low: 1,
    high: 178_956_970,
};

/// `--memory BYTES`: how much may be kept for lines.
pub const MEMORY: NumberWord = NumberWord {
    name: "--memory",
    low: 65_536,
    high: 1_152_921_504_606_846_975,
};

/// `FILE..`: what is read, one after another.
pub const FILES: Argument = Argument {
    form: Form::Places("FILE"),
    default: Some(STANDARD_INPUT),
    help: "Read these files, one after another; - is standard input",
};

/// What is said of a word that isn't what its name asks for.
pub fn wrong_word(alloc: Global, name: &str, word: &str, complaint: &str) -> WordsFault {
    match format!(in alloc; "{name} {word}: {complaint}") {
        Ok(text) => WordsFault::Wrong(text),
        Err(_) => WordsFault::OutOfMemory,
    }
}

/// What clap's error comes to.
fn fault_of_words(alloc: Global, error: &clap::Error) -> WordsFault {
    match error.kind() {
        WordsErrorKind::OutOfMemory => WordsFault::OutOfMemory,
        WordsErrorKind::DisplayHelp | WordsErrorKind::DisplayVersion => match error.to_string(
            alloc,
        ) {
            Ok(text) => WordsFault::Answered(text),
            Err(_) => WordsFault::OutOfMemory,
        },
        _ => match complaint_of(alloc, error) {
            Ok(text) => WordsFault::Wrong(text),
            Err(_) => WordsFault::OutOfMemory,
        },
    }
}

/// What clap says of wrong words, on one line: what comes before its first empty line.
fn complaint_of(alloc: Global, error: &clap::Error) -> Result<String, OutOfMemory> {
    let text = error.to_string(alloc)?;
    let said = text.as_str();
    let said = said.strip_prefix("error: ").unwrap_or(said);
    let mut complaint = String::new(alloc);
    for line in said.split('\n') {
        if line.is_empty() {
            break;
        }
        if !complaint.is_empty() {
            complaint.push(' ')?;
        }
        complaint.push_str(line.trim())?;
    }
    Ok(complaint)
}

/// Writes what the words ask for, such as the help, and answers the exit status.
pub fn answer<R: Print + Eprint>(rt: &R, name: &str, text: &str) -> u8 {
    let status = ProgramFault::Write.status();
    match print!(rt; "{text}") {
        Ok(()) => 0,
        Err(fault) if fault.kind() == ErrorKind::BrokenPipe => status,
        Err(_) => complain(rt, name, &ProgramFault::Write, status),
    }
}

/// Says what went wrong, and answers the exit status.
pub fn complain<R: Eprint, F: Display>(rt: &R, name: &str, fault: &F, status: u8) -> u8 {
    let _ = eprintln!(rt; "{name}: {fault}");
    status
}

/// Writes what the words ask for, or says what went wrong, and answers the exit status.
pub fn end_of<R: Print + Eprint>(rt: &R, name: &str, ended: Result<(), ProgramFault>) -> u8 {
    match ended {
        Ok(()) => 0,
        Err(ProgramFault::Words(WordsFault::Answered(text))) => answer(rt, name, text.as_str()),
        Err(ProgramFault::Unread) => ProgramFault::Unread.status(),
        Err(fault) => {
            let status = fault.status();
            complain(rt, name, &fault, status)
        }
    }
}
