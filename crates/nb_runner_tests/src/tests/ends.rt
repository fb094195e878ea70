//! Words that are missing, and a writer that takes nothing.
ghost use Rattle.std.specs.Prelude.{◌≡◌, false};

use nb_runner::process::serve_process;
use nb_runner::{Failed, FromWrite, OptionFault, Sink};
use std::io;
use std::io::Write;
use std::process::Abort;
use std::sync::Wait;
use std::thread::Threads;

/// Asserts the status of a process that has no words, and all that it writes and says. It reads
/// nothing.
fn assert_wordless<H: Abort + AllocGlobal + Eprint + Threads + Wait + Sync>(
    rt: &H,
    fault: OptionFault,
    due: u8,
    text: &str,
    complaint: &str,
) {
    let mut input = b"0 put 7 5\n".as_slice();
    let mut output = Vec::new(rt.alloc());
    let mut said = Vec::new(rt.alloc());
    let status = serve_process(rt, Err(fault), &mut input, &mut output, &mut said, false);
    assert_eq!(rt; status, due);
    assert_eq!(rt; input, b"0 put 7 5\n".as_slice());
    assert_eq!(rt; output.as_slice(), text.as_bytes());
    assert_eq!(rt; said.as_slice(), complaint.as_bytes());
}

/// Where there are no words, the reason is told.
#[test]
fn processes_are_served(rt: HostRuntime) {
    assert_wordless(&rt, OptionFault::Usage, 3, "", "nbrun: bad usage\n");
    assert_wordless(
        &rt,
        OptionFault::OutOfMemory,
        4,
        "",
        "nbrun: out of memory\n",
    );
    let help = OptionFault::Help(String::from_str(rt.alloc(), "ask").expect(&rt, "memory"));
    assert_wordless(&rt, help, 0, "ask", "");
}

/// A writer of std that takes nothing.
#[derive(Drop)]
struct Stuck;

impl Write for Stuck {
    fn write(&mut self, _bytes: &[u8]) -> io::Result<usize> {
        Ok(0)
    }

    fn flush(&mut self) -> io::Result<()> {
        Ok(())
    }
}

#[test]
fn a_write_of_nothing_is_a_failure(rt: HostRuntime) {
    let mut stuck = FromWrite::new(Stuck);
    assert_eq!(rt; stuck.write(b""), Ok(0));
    assert_eq!(rt; stuck.write(b"-"), Err(Failed));
}
