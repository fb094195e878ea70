//! Keys and shapes of plain numbers.
use nb_core::{Key, Shape};
use std::process::Abort;

/// How many slots the first table has, as a power of two; and how many tables, seats and stripes
/// there are.
pub(super) type Sizes = (u32, u32, usize, usize);

pub(super) fn shape<R: Abort>(rt: &R, sizes: Sizes) -> Shape {
    let (bits, tables, seats, stripes) = sizes;
    Shape::new(bits, tables, seats, stripes).expect(rt, "a shape")
}

pub(super) fn key<R: Abort>(rt: &R, k: u64) -> Key {
    Key::new(k).expect(rt, "a key")
}
