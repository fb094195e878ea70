//! A script without a fault is run, with ample memory: by `run`, by `serve` and by `serve_process`.

use nb_core::Shape;
use nb_runner::process::serve_process;
use nb_runner::{FromRead, FromWrite, Options, run, serve};
use std::alloc::Global;
use std::process::Abort;

/// Two puts of a key, and a get between them.
const PUT_GET_PUT: &[u8] = b"0 put 7 5\n0 get 7\n0 put 7 6\n";

/// What they answer, and what the map has at the end.
const TEXT: &str = "0 -\n0 5\n0 5\nsize 1\n7 6\n";

/// The program's name alone.
fn name<H: Abort>(rt: &H, alloc: Global) -> Vec<String> {
    let mut words = Vec::new(alloc);
    let word = String::from_str(alloc, "nbrun").expect(rt, "memory");
    words.push(word).expect(rt, "memory");
    words
}

#[test]
fn a_script_is_run(rt: HostRuntime) {
    let shape = Shape::new(4, 4, 1, 1).expect(&rt, "a shape");
    let mut output = Vec::new(rt.alloc());
    let mut reader = FromRead::new(PUT_GET_PUT);
    let mut writer = FromWrite::new(&mut output);
    let result = run(&rt, &Options { shape }, &mut reader, &mut writer);
    assert_eq!(rt; result, Ok(()));
    assert_eq!(rt; output.as_slice(), TEXT.as_bytes());
}

#[test]
fn words_are_served(rt: HostRuntime) {
    let words = name(&rt, rt.alloc());
    let mut output = Vec::new(rt.alloc());
    let mut said = Vec::new(rt.alloc());
    let mut reader = FromRead::new(PUT_GET_PUT);
    let mut writer = FromWrite::new(&mut output);
    let mut errors = FromWrite::new(&mut said);
    let status = serve(&rt, words.as_slice(), &mut reader, &mut writer, &mut errors);
    assert_eq!(rt; status, 0);
    assert_eq!(rt; output.as_slice(), TEXT.as_bytes());
    assert_eq!(rt; said.as_slice(), b"".as_slice());
}

/// Also where progress is told: this script is too short for it.
#[test]
fn a_process_with_words_is_served(rt: HostRuntime) {
    for tells_progress in [false, true] {
        let words = name(&rt, rt.alloc());
        let mut input = PUT_GET_PUT;
        let mut output = Vec::new(rt.alloc());
        let mut said = Vec::new(rt.alloc());
        let status = serve_process(
            &rt,
            Ok(words),
            &mut input,
            &mut output,
            &mut said,
            tells_progress,
        );
        assert_eq!(rt; status, 0);
        assert_eq!(rt; output.as_slice(), TEXT.as_bytes());
        assert_eq!(rt; said.as_slice(), b"".as_slice());
    }
}
