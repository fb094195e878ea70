//! The program: options, a script, and what is said of a fault.
ghost use Rattle.std.specs.Prelude.{
  ◌≡◌,
  ◌≢◌,
  ◌⊎◌,
  ◌↔◌,
  false,
  IsTrue,
  IfOk,
  IfErr,
  IsErrOf,
  OnOk,
  map,
  string_bytes,
};
ghost use Rattle.nb_runner.specs.Serving.{
  GiveNone,
  GiveOptions,
  HasFailed,
  HasShownHelp,
  HasRunAsAsked,
  IsServeFaultOf,
  streams,
  words_passed,
};

use crate::gates::{Gate, Open};
use crate::running::run_gated;
use nb_script::faults::{RunFault, ServeFault};
use nb_script::options::{OptionFault, Options, read_options};
use nb_script::streams::{Sink, Source, write_all};
use std::alloc::Global;
use std::sync::Wait;
use std::thread::Threads;

/// The options that the words give, if there are words.
fn options_of(alloc: Global, words: Result<&[String], OptionFault>) -> Result<Options, OptionFault>
    ensures given { IfOk result (λ options. GiveOptions (words_passed words.entry) options.shape) }
    ensures fault { IfErr result (GiveNone (words_passed words.entry)) }
{
    read_options(alloc, words?)
}

/// Reads the options and runs the script, or writes the help that the words ask for.
fn attend<H: Threads + Wait + AllocGlobal + Sync, G: Gate + Sync, R: Source, W: Sink>(
    rt: &H,
    gate: &G,
    words: Result<&[String], OptionFault>,
    reader: &mut R,
    writer: &mut W,
) -> Result<(), ServeFault>
    requires reader { R.failed reader.old ≡ false }
    requires writer { W.failed writer.old ≡ false }

    ensures ok { let given = words_passed words.entry in
        OnOk result (HasRunAsAsked given (R.remaining reader.old) (R.remaining reader.new)
        (W.contents writer.old) (W.contents writer.new)
        ⊎ HasShownHelp given (reader.new ≡ reader.old) (W.contents writer.old)
        (W.contents writer.new)) }
    ensures fault { IfErr result (IsServeFaultOf (words_passed words.entry)
        (R.remaining reader.old) (R.remaining reader.new) (reader.new ≡ reader.old)
        (W.contents writer.old) (W.contents writer.new)) }
    ensures read { IsErrOf result (ServeFault.Run RunFault.Read) ↔ IsTrue (R.failed reader.new) }
    ensures write { IsErrOf result (ServeFault.Run RunFault.Write) ↔ IsTrue (W.failed writer.new) }
    ensures silent { IfErr result (λ fault. fault ≢ ServeFault.Run RunFault.Write
        → writer.new ≡ writer.old) }
{
    match options_of(rt.alloc(), words) {
        Ok(options) => run_gated(rt, gate, &options, reader, writer).map_err(ServeFault::Run),
        Err(OptionFault::Usage) => Err(ServeFault::Usage),
        Err(OptionFault::OutOfMemory) => Err(ServeFault::Run(RunFault::OutOfMemory)),
        Err(OptionFault::Help(text)) => match write_all(writer, text.as_bytes()) {
            Ok(()) => Ok(()),
            Err(_) => Err(ServeFault::Run(RunFault::Write)),
        },
    }
}

/// Runs the program on the words of its command line, and answers its exit status: 0 where the
/// script was run or help was asked for, 1 where the reader or the writer failed, 2 for a fault of
/// the script, 3 for words that give no options, 4 where memory ran out or a thread couldn't be
/// started. A fault is told on `errors`; that `errors` fails changes no status.
pub fn serve<H: Threads + Wait + AllocGlobal + Sync, R: Source, W: Sink, E: Sink>(
    rt: &H,
    words: &[String],
    reader: &mut R,
    writer: &mut W,
    errors: &mut E,
) -> u8
    requires reader { R.failed reader.old ≡ false }
    requires writer { W.failed writer.old ≡ false }
    requires errors { E.failed errors.old ≡ false }

    ensures done { let given = Ok (map string_bytes words.now) in
        result ≡ 0 → HasRunAsAsked given (R.remaining reader.old) (R.remaining reader.new)
        (W.contents writer.old) (W.contents writer.new)
        ⊎ HasShownHelp given (reader.new ≡ reader.old) (W.contents writer.old)
        (W.contents writer.new) }
    ensures whole { result ≡ 0 → (R.failed reader.new ≡ false) × (W.failed writer.new ≡ false) }
    ensures quiet { result ≡ 0 → errors.new ≡ errors.old }

    ensures failed { result ≢ 0 → HasFailed (Ok (map string_bytes words.now))
        (streams (R.remaining reader.old) (W.contents writer.old) (E.contents errors.old)
        (R.failed reader.old) (W.failed writer.old) (E.failed errors.old))
        (streams (R.remaining reader.new) (W.contents writer.new) (E.contents errors.new)
        (R.failed reader.new) (W.failed writer.new) (E.failed errors.new))
        (reader.new ≡ reader.old) result }

    // Another fault than a failed write leaves the writer as it was.
    ensures silent { result ≢ 0 → W.failed writer.new ≡ false → writer.new ≡ writer.old }
{
    serve_gated(rt, &Open, Ok(words), reader, writer, errors)
}

/// The same, with a gate round each command.
pub fn serve_gated<
    H: Threads + Wait + AllocGlobal + Sync,
    G: Gate + Sync,
    R: Source,
    W: Sink,
    E: Sink,
>(
    rt: &H,
    gate: &G,
    words: Result<&[String], OptionFault>,
    reader: &mut R,
    writer: &mut W,
    errors: &mut E,
) -> u8
    requires reader { R.failed reader.old ≡ false }
    requires writer { W.failed writer.old ≡ false }
    requires errors { E.failed errors.old ≡ false }

    ensures done { let given = words_passed words.entry in
        result ≡ 0 → HasRunAsAsked given (R.remaining reader.old) (R.remaining reader.new)
        (W.contents writer.old) (W.contents writer.new)
        ⊎ HasShownHelp given (reader.new ≡ reader.old) (W.contents writer.old)
        (W.contents writer.new) }
    ensures whole { result ≡ 0 → (R.failed reader.new ≡ false) × (W.failed writer.new ≡ false) }
    ensures quiet { result ≡ 0 → errors.new ≡ errors.old }

    ensures failed { result ≢ 0 → HasFailed (words_passed words.entry)
        (streams (R.remaining reader.old) (W.contents writer.old) (E.contents errors.old)
        (R.failed reader.old) (W.failed writer.old) (E.failed errors.old))
        (streams (R.remaining reader.new) (W.contents writer.new) (E.contents errors.new)
        (R.failed reader.new) (W.failed writer.new) (E.failed errors.new))
        (reader.new ≡ reader.old) result }

    ensures silent { result ≢ 0 → W.failed writer.new ≡ false → writer.new ≡ writer.old }
{
    match attend(rt, gate, words, reader, writer) {
        Ok(()) => 0,
        Err(fault) => {
            let _ = fault.complain(errors);
            fault.status()
        }
    }
}
