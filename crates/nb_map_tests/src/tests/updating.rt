//! Updates beside other handles that write their key, and functions that work with a handle.
ghost use Rattle.std.specs.Prelude.{◌≡◌, List, length};
ghost use Rattle.nb_core.specs.declared.calls.Call.{Call};
ghost use Rattle.nb_core.specs.declared.calls.Reply.{Reply};
ghost use Rattle.nb_map.specs.Handles.{KeepsRest};
ghost use Rattle.nb_map.specs.Logs.{HasLogged};

use super::rows::Answer::{Refused, Was};
use super::rows::Call::Get;
use super::rows::{Answer, found, key, leaves, number, one_more, opened, put_together, sees, two};
use nb_core::{Key, Num};
use nb_map::{Handle, PutFault};
use std::sync::Wait;

/// Adds 1 to the number of a key. Another handle does so too before each of the first exchanges, so
/// many of them. Answers what was there, and how often the function was called.
fn update_beside(
    a: &mut Handle,
    b: &mut Handle,
    at: Key,
    tries: u32,
    others: u64,
) -> (Answer, u64) {
    let mut calls = 0u64;
    let before = a.try_update(at, tries, |was| {
        calls = calls.wrapping_add(1);
        if calls <= others {
            let _ = b.try_update(at, 1, one_more);
        }
        one_more(was)
    });
    (found(before), calls)
}

/// Another handle's updates come between the read and the exchange, and after the first exchange.
/// Each is taken up, in one more call of the function. Where as many come as there are tries, the
/// update comes too late, and no exchange is made after them.
#[test]
fn update_takes_up_what_came(rt: HostRuntime) {
    let (mut a, mut b) = two(&rt, rt.alloc());
    assert!(rt; update_beside(&mut a, &mut b, key(&rt, 5), 3, 2) == (Was(2), 3));
    sees(&rt, &mut a, &[(5, Get, Was(3))]);
    let (before, _) = update_beside(&mut a, &mut b, key(&rt, 6), 2, u64::MAX);
    assert!(rt; before == Refused(PutFault::Contended));
    sees(&rt, &mut a, &[(6, Get, Was(2))]);
}

/// Adds to the numbers of two keys.
fn add_to_both<R: Wait>(rt: &R, handle: &mut Handle, one: Key, other: Key, number: Num)
    ensures { KeepsRest handle.old handle.new }
{
    let _ = handle.add(rt, one, number);
    let _ = handle.add(rt, other, number);
}

/// Handles that a function has worked with meet, and end their map.
#[test]
fn functions_work_with_handles(rt: HostRuntime) {
    let (mut a, mut b) = two(&rt, rt.alloc());
    let shared = key(&rt, 2);
    add_to_both(&rt, &mut a, key(&rt, 1), shared, number(&rt, 10));
    add_to_both(&rt, &mut b, shared, key(&rt, 3), number(&rt, 20));
    a.meet(&mut b);
    let left = [(1, 10), (2, 30), (3, 20)];
    leaves(&rt, rt.alloc(), put_together(&rt, a, b), &left);
}

/// Reads the key so often, and calls nothing else.
fn read_often(handle: &mut Handle, at: Key, times: u64)
    ensures made { (made : List (Call × Reply)) × (length made ≡ times)
        × HasLogged handle.old.seat handle.new.seat made }
    ensures rest { KeepsRest handle.old handle.new }
{
    handle.known();
    for _round in 0..times {
        let _ = handle.get(at);
    }
}

/// A function tells in its contract how many calls it has made in a loop.
#[test]
fn reads_that_a_contract_counts(rt: HostRuntime) {
    let mut handle = opened(&rt, rt.alloc(), (2, 1, 1, 1));
    read_often(&mut handle, key(&rt, 1), 3);
    leaves(&rt, rt.alloc(), handle, &[]);
}
