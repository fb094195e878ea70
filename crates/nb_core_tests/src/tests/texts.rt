//! What the faults of `nb_core` and of `nb_lines` say.
use nb_core::{DigitsFault, NotAll, PlainFault, RangeFault, ShapeFault};
use nb_lines::{Cause, ProgramFault, WordsFault};
use std::alloc::Global;
use std::error::Error;
use std::fmt::Display;
use std::io;
use std::process::Abort;

/// Each of these says its line of the text.
fn assert_said<T: Display>(rt: &impl Abort, alloc: Global, faults: &[T], text: &str) {
    let mut said = String::new(alloc);
    for fault in faults {
        writeln!(said, "{fault}").expect(rt, "memory");
    }
    assert!(rt; said.as_str() == text, "{text}");
}

#[test]
fn fault_texts(rt: HostRuntime) {
    let ranges = [RangeFault::KeyRange, RangeFault::ValueRange];
    assert_said(&rt, rt.alloc(), &ranges, "key too large\nvalue too large\n");
    let plain = [PlainFault::OutOfMemory, PlainFault::ValueRange];
    assert_said(&rt, rt.alloc(), &plain, "out of memory\nvalue too large\n");
    let digits = [DigitsFault::NotANumber, DigitsFault::TooLarge];
    assert_said(&rt, rt.alloc(), &digits, "not a number\nnumber too large\n");
    let shapes = [
        ShapeFault::Bits,
        ShapeFault::Generations,
        ShapeFault::Seats,
        ShapeFault::Stripes,
        ShapeFault::Plan,
        ShapeFault::Reprobes,
        ShapeFault::Chunk,
        ShapeFault::Keys,
        ShapeFault::Slots,
    ];
    let text = "bits out of range\nnumber of tables out of range\nnumber of seats out of range\n\
        number of stripes out of range\na table smaller than the one before it\n\
        reprobe limit out of range\nchunk out of range\nnumber of keys out of range\n\
        too many slots\n";
    assert_said(&rt, rt.alloc(), &shapes, text);
}

/// Only an error gets through.
fn error<E: Error>(error: &E) -> &E {
    error
}

#[test]
fn not_all_is_an_error(rt: HostRuntime) {
    let seats = vec![in rt.alloc(); 3_u8].expect(&rt, "memory");
    let missing = NotAll { whole: 7_u8, seats };
    let told = error(&missing);
    let shown = format!(in rt.alloc(); "{told}: {told:?}").expect(&rt, "memory");
    assert!(rt; shown.as_str() == "not all seats were there, or too many: NotAll { seats: 1, .. }");
}

#[test]
fn fault_texts_of_programs(rt: HostRuntime) {
    let causes = [Cause::NotANumber, Cause::TooLarge, Cause::TooLong];
    let text = "not a number\nnumber too large\nline too long\n";
    assert_said(&rt, rt.alloc(), &causes, text);
    let help = String::from_str(rt.alloc(), "a help\n").expect(&rt, "memory");
    let wrong = String::from_str(rt.alloc(), "--top 0: not from 1 to 9").expect(&rt, "memory");
    let file = String::from_str(rt.alloc(), "a.log").expect(&rt, "memory");
    let faults = [
        ProgramFault::Words(WordsFault::NoText),
        ProgramFault::Words(WordsFault::OutOfMemory),
        ProgramFault::Usage,
        ProgramFault::Read,
        ProgramFault::File(file, io::Error::from_raw_os_error(2)),
        ProgramFault::Write,
        ProgramFault::Unread,
        ProgramFault::Line(12, Cause::TooLong),
        ProgramFault::Full,
        ProgramFault::TooOften,
        ProgramFault::MemoryLimit(12),
        ProgramFault::OutOfMemory,
        ProgramFault::Words(WordsFault::Answered(help)),
        ProgramFault::Words(WordsFault::Wrong(wrong)),
    ];
    let text = "a word isn't text; --help tells more\nout of memory\nbad usage; --help tells more\n\
        read failed\na.log: No such file or directory (os error 2)\n\
        write failed\nnobody reads the output\nline 12: line too long\n\
        more different numbers than there is room for\na number comes too often\n\
        stopped behind line 12: more may not fit within --memory\n\
        out of memory\n\
        a help\n\n--top 0: not from 1 to 9; --help tells more\n";
    assert_said(&rt, rt.alloc(), &faults, text);
}
