//! The program as a process: its words, its streams and its exit status.
ghost use Rattle.std.specs.Prelude.{◌≡◌, ◌≢◌, ◌⊎◌, false};
ghost use Rattle.std.specs.Io.{WritesAtMost};
ghost use Rattle.nb_runner.specs.Serving.{
  HasFailed,
  HasRunAsAsked,
  HasServed,
  HasShownHelp,
  HasStopped,
  streams,
  words_had,
};

use crate::gates::{Gate, Open};
use crate::progress::{Progress, Watched};
use crate::serving::{serve, serve_gated};
use nb_script::options::OptionFault;
use nb_script::streams::{FromRead, FromWrite, Sink, Source};
use std::env;
use std::env::FillError;
use std::io::{ErrorKind, Read, Write};
use std::rt::Env;
use std::sync::Wait;
use std::thread::Threads;

/// The program's name in its help.
const NAME: &[u8] = b"nbrun";

/// A process whose first word is the program's own name. What it was called by is no word for the
/// program: it may be no text.
#[derive(Drop)]
struct Named<'a, P> {
    process: &'a P,
}

impl<P: Env> Env for Named<'_, P> {
    fn arg(&self, i: usize, buf: &mut [u8]) -> Result<usize, FillError> {
        if i > 0 {
            return self.process.arg(i, buf);
        }
        if buf.len() < NAME.len() {
            return Err(FillError::TooLong);
        }
        buf[..NAME.len()].copy_from_slice(NAME);
        Ok(NAME.len())
    }

    fn var(&self, name: &str, buf: &mut [u8]) -> Result<usize, FillError> {
        self.process.var(name, buf)
    }

    fn var_at(&self, i: usize, buf: &mut [u8]) -> Result<usize, FillError> {
        self.process.var_at(i, buf)
    }
}

/// The words of the command line, behind the program's name. Words that aren't text are wrong ones.
pub fn arguments<P: Env + AllocGlobal>(process: &P) -> Result<Vec<String>, OptionFault> {
    let alloc = process.alloc();
    let given = match env::args(&(Named { process }, alloc)) {
        Ok(given) => given,
        Err(error) if error.kind() == ErrorKind::OutOfMemory => {
            return Err(OptionFault::OutOfMemory);
        }
        Err(_) => return Err(OptionFault::Usage),
    };
    // Not by `collect`, which goes on where the room that it asks for ahead is refused.
    let mut words = Vec::new(process.alloc());
    for word in given {
        words.push(word).map_err(|_| OptionFault::OutOfMemory)?;
    }
    Ok(words)
}

/// Serves a process that has these words, on these streams, and answers its exit status. Words that
/// are missing are a fault that is told, and then nothing is read. Progress is told on the process's
/// standard error, past `errors`, where that is asked for.
pub fn serve_process<P, R, W, E>(
    process: &P,
    words: Result<Vec<String>, OptionFault>,
    input: &mut R,
    output: &mut W,
    errors: &mut E,
    tells_progress: bool,
) -> u8
where
    P: Threads + Wait + AllocGlobal + Eprint + Sync,
    R: Read,
    W: Write,
    E: Write,
    ensures done { result ≡ 0 → HasServed (words_had words) R.remaining input.old input.new
        (W.contents output.old) (W.contents output.new) }
    ensures quiet { result ≡ 0 → errors.new ≡ errors.old }
    ensures failed { result ≢ 0 → HasStopped (words_had words) R.remaining input.old input.new
        W.contents output.old output.new (E.contents errors.old) (E.contents errors.new) result }
{
    let progress = Progress::new(process, tells_progress);
    let mut reader = FromRead::new(Watched::new(&progress, input));
    let mut writer = FromWrite::new(Watched::new(&progress, output));
    let mut errors = FromWrite::new(Watched::new(&progress, errors));
    let gate = if tells_progress {
        Some(&progress)
    } else {
        None
    };
    serve_words(process, gate, words, &mut reader, &mut writer, &mut errors)
}

/// Does what `serve` does, for words that it owns and may lack. Where there is a gate, commands go by
/// it.
fn serve_words<H: Threads + Wait + AllocGlobal + Sync, G: Gate + Sync, R: Source, W: Sink, E: Sink>(
    rt: &H,
    gate: Option<&G>,
    words: Result<Vec<String>, OptionFault>,
    reader: &mut R,
    writer: &mut W,
    errors: &mut E,
) -> u8
    requires reader { R.failed reader.old ≡ false }
    requires writer { W.failed writer.old ≡ false }
    requires errors { E.failed errors.old ≡ false }

    ensures done { result ≡ 0 → HasRunAsAsked (words_had words) (R.remaining reader.old)
        (R.remaining reader.new) (W.contents writer.old) (W.contents writer.new)
        ⊎ HasShownHelp (words_had words) (reader.new ≡ reader.old) (W.contents writer.old)
        (W.contents writer.new) }
    ensures quiet { result ≡ 0 → errors.new ≡ errors.old }

    ensures failed { result ≢ 0 → HasFailed (words_had words)
        (streams (R.remaining reader.old) (W.contents writer.old) (E.contents errors.old)
        (R.failed reader.old) (W.failed writer.old) (E.failed errors.old))
        (streams (R.remaining reader.new) (W.contents writer.new) (E.contents errors.new)
        (R.failed reader.new) (W.failed writer.new) (E.failed errors.new))
        (reader.new ≡ reader.old) result }

    ensures silent { result ≢ 0 → W.failed writer.new ≡ false → writer.new ≡ writer.old }
{
    match (words, gate) {
        (Ok(words), None) => serve(rt, words.as_slice(), reader, writer, errors),
        (Ok(words), Some(gate)) => {
            serve_gated(rt, gate, Ok(words.as_slice()), reader, writer, errors)
        }
        (Err(fault), _) => serve_gated(rt, &Open, Err(fault), reader, writer, errors),
    }
}
