//! The shape that words give. The program shows of it when the map is full.

use nb_core::{Shape, ShapeFault};
use nb_script::options::read_options;
use std::alloc::Global;
use std::process::Abort;

/// The shape of these words, behind the program's name.
fn read<H: Abort>(rt: &H, alloc: Global, words: &[&str]) -> Shape {
    let mut texts = Vec::new(alloc);
    texts.push(String::new(alloc)).expect(rt, "memory");
    for word in words {
        let text = String::from_str(alloc, *word).expect(rt, "memory");
        texts.push(text).expect(rt, "memory");
    }
    match read_options(alloc, texts.as_slice()) {
        Ok(options) => options.shape,
        Err(_) => panic!(rt; "the words give options"),
    }
}

/// The shape of one seat with these numbers. Without a plan the tables double, no path is limited,
/// and a chunk has eight slots.
fn shape(
    exponents: &[u32],
    stripes: usize,
    reprobes: u32,
    chunk: u32,
) -> Result<Shape, ShapeFault> {
    let plain = Shape::with_plan(exponents, 1, stripes)?;
    plain.with_reprobe_limit(reprobes)?.with_chunk(chunk)
}

#[test]
fn words_give_shapes(rt: HostRuntime) {
    let cases: [(&[&str], &[u32], usize, u32, u32); 6] = [
        // defaults_stand_for_options
        (&[], &[4, 5, 6, 7], 1, u32::MAX, 8),
        // numbers_make_a_shape
        (
            &["--bits", "2", "--generations", "3"],
            &[2, 3, 4],
            1,
            u32::MAX,
            8,
        ),
        (
            &["--stripes=8", "--bits=+012"],
            &[12, 13, 14, 15],
            8,
            u32::MAX,
            8,
        ),
        // a_plan_outweighs_bits
        (&["--plan", "02,3", "--bits", "5"], &[2, 3], 1, u32::MAX, 8),
        // a_plan_is_tuned
        (
            &["--reprobes", "18", "--chunk", "64"],
            &[4, 5, 6, 7],
            1,
            18,
            64,
        ),
        (&["--plan=2,3", "--reprobes=1"], &[2, 3], 1, 1, 8),
    ];
    for (words, exponents, stripes, reprobes, chunk) in cases {
        let due = shape(exponents, stripes, reprobes, chunk);
        assert_eq!(rt; Ok(read(&rt, rt.alloc(), words)), due, "{words:?}");
    }
}
