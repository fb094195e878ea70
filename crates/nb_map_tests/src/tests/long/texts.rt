//! The texts of faults, except that of a number too large: only a store that is full of numbers
//! makes that fault, and no test stores so many values.
use nb_long::{LongFault, Receipt, Store, StoreFault, Unshown, UpdateFault};
use std::fmt::Display;
use std::process::Abort;
use std::sync::Wait;

/// The receipt of a value that was stored.
fn receipt<R: Wait + Abort + AllocGlobal>(rt: &R) -> Receipt<u64> {
    let store = Store::new(rt.alloc()).expect(rt, "memory");
    store.push(rt, 7).expect(rt, "memory")
}

/// What the fault's text is.
fn says<R: Abort + AllocGlobal, E: Display>(rt: &R, fault: &E, text: &str) {
    let said = format!(in rt.alloc(); "{fault}").expect(rt, "memory");
    assert!(rt; said.as_str() == text);
}

/// A store's refusal, and what a write and an update of the map make of it; those that found no
/// slot, and those that found a number that shows nothing.
#[test]
fn fault_texts(rt: HostRuntime) {
    let refused: StoreFault<u64> = StoreFault::OutOfMemory(7);
    says(&rt, &refused, "out of memory");
    says(&rt, &LongFault::from(refused), "out of memory");
    let refused: StoreFault<u64> = StoreFault::OutOfMemory(7);
    says(&rt, &UpdateFault::from(refused), "out of memory");
    says(&rt, &LongFault::Full(receipt(&rt)), "the map is full");
    says(&rt, &UpdateFault::Full(receipt(&rt)), "the map is full");
    let fault = LongFault::Unshown(receipt(&rt));
    says(&rt, &fault, "a value isn't shown");
    let fault: UpdateFault<u64> = UpdateFault::from(Unshown);
    says(&rt, &fault, "a value isn't shown");
    says(&rt, &Unshown, "a value isn't shown");
}
