//! Calls over many keys beside another handle.
use super::rows::Answer::{Nothing, Was};
use super::rows::Call::{Get, Put};
use super::rows::*;
use nb_core::{Key, Num};
use nb_map::Handle;
use std::sync::Wait;

/// Takes out all, but another handle adds to the number of key 2 before each removal.
fn retains_none<R: Wait>(rt: &R, a: &mut Handle, b: &mut Handle, changed: Key, once: Num) {
    a.retain(rt, |_, _| {
        let _ = b.add(rt, changed, once);
        false
    });
}

/// An entry that got another number before its removal stays.
#[test]
fn retain_leaves_what_has_changed(rt: HostRuntime) {
    let (mut a, mut b) = two(&rt, rt.alloc());
    sees(&rt, &mut a, &[(1, Put(10), Nothing), (2, Put(20), Nothing)]);
    retains_none(&rt, &mut a, &mut b, key(&rt, 2), number(&rt, 1));
    sees(&rt, &mut a, &[(2, Get, Was(22)), (1, Get, Nothing)]);
}
