//! The texts of errors.

use nb_runner::{Failed, OptionFault, RunFault};
use nb_script::faults::ServeFault;
use nb_script::script::Cause;
use std::fmt::Display;
use std::process::Abort;

fn assert_says<H: Abort + AllocGlobal, E: Display>(rt: &H, error: &E, text: &str) {
    let said = format!(in rt.alloc(); "{error}").expect(rt, "memory");
    assert_eq!(rt; said.as_str(), text);
}

#[test]
fn errors_have_texts(rt: HostRuntime) {
    let causes = [
        (Cause::TooMany, "too many lines"),
        (Cause::LongLine, "line too long"),
        (Cause::Worker, "no such worker"),
        (Cause::Missing, "missing word"),
        (Cause::Op, "unknown op"),
        (Cause::Extra, "extra word"),
        (Cause::Number, "not a number"),
        (Cause::KeyRange, "key too large"),
        (Cause::ValueRange, "value too large"),
    ];
    for (cause, text) in causes {
        assert_says(&rt, &cause, text);
    }
    let faults = [
        (RunFault::Read, "read failed"),
        (RunFault::Write, "write failed"),
        (RunFault::Line(12, Cause::Op), "line 12: unknown op"),
        (RunFault::OutOfMemory, "out of memory"),
    ];
    for (fault, text) in faults {
        assert_says(&rt, &fault, text);
        assert_says(&rt, &ServeFault::Run(fault), text);
    }
    assert_says(&rt, &ServeFault::Usage, "bad usage");
    assert_says(&rt, &OptionFault::Usage, "bad usage");
    assert_says(&rt, &OptionFault::OutOfMemory, "out of memory");
    let help = OptionFault::Help(String::from_str(rt.alloc(), "ask").expect(&rt, "memory"));
    assert_says(&rt, &help, "ask");
    assert_says(&rt, &Failed, "read or write failed");
}
