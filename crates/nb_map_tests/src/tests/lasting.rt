//! Tests of the map without an end.
mod example;
mod guests;
mod named;
mod owner;

use std::alloc::Global;

/// Asks for a MiB. Where all memory is refused from some request on, there is memory again from this
/// one on (`.ci/refuse.c`).
fn asks_for_much(alloc: Global) {
    let _ = Vec::<u64>::with_capacity(alloc, 1 << 17);
}
