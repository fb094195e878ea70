//! A chain with refused memory. Its steps, and how it closes, are in `tables`.
ghost use Rattle.nb_table.specs.Chains.{AreOwn};

use nb_core::Shape;
use nb_table::{Chain, ChainSeat};
use std::alloc::Global;
use std::process::Abort;

/// A chain of this shape with its seats, also where one request for memory is refused.
fn made<R: Abort>(rt: &R, alloc: Global, shape: Shape) -> (Chain, Vec<ChainSeat>)
    ensures { AreOwn result.0 result.1.items }
{
    for _attempt in 0..2 {
        if let Ok(made) = Chain::new(alloc, shape) {
            return made;
        }
    }
    panic!(rt; "there is memory")
}

/// With each request for memory refused in turn (`rt try --test --fail-alloc N -- refused_memory`).
#[test]
fn refused_memory(rt: HostRuntime) {
    let shape = Shape::new(2, 2, 8, 1).expect(&rt, "a shape");
    let (chain, seats) = made(&rt, rt.alloc(), shape);
    let Ok(closed) = chain.close(seats) else {
        panic!(rt; "all seats are there")
    };
    let listed = match closed.entries(rt.alloc()) {
        Ok(entries) => Ok(entries),
        Err(_) => closed.entries(rt.alloc()),
    };
    assert!(rt; listed.expect(&rt, "memory").is_empty());
}
