//! Maps that have entries from the start, and calls that take memory, where it is refused.
ghost use Rattle.std.specs.Prelude.{◌≡◌};

use super::rows::Answer::{Is, Nothing, Was};
use super::rows::Call::{Get, List, Renew, Settle};
use super::rows::*;
use nb_map::{Handle, OpenFault, SettlingRoom};
use std::alloc::Global;
use std::process::Abort;

/// A table of four slots refuses a fifth key.
#[test]
fn opened_with_too_many(rt: HostRuntime) {
    let five = entries(&rt, &[(0, 5), (1, 5), (2, 5), (3, 5), (4, 5)]);
    let refused = Handle::open_with(rt.alloc(), shape(&rt, (2, 1, 3, 1)), &five[..5]);
    assert!(rt; refused.err() == Some(OpenFault::Full));
}

/// Each seat knows of all entries.
#[test]
fn each_seat_knows_of_all(rt: HostRuntime) {
    let handle = opened_with(&rt, rt.alloc(), (2, 2, 3, 1), &[(1, 10), (2, 20)]);
    for mut handle in parted(&rt, rt.alloc(), handle) {
        sees(&rt, &mut handle, &[(1, Get, Was(10)), (3, Get, Nothing)]);
    }
}

const TWO: [(u64, u64); 2] = [(1, 10), (2, 20)];

const REFUSED_MEMORY: Story = (
    (2, 2, 2, 1),
    &TWO,
    &[
        (0, Renew((2, 2, 2, 1), Ok(())), Is(true)),
        (0, Settle(2), Is(true)),
        (0, List(&TWO), Is(true)),
    ],
    &TWO,
);

/// Room for so many seats, also where one request for memory is refused.
fn reserved<R: Abort>(rt: &R, alloc: Global, seats: usize) -> SettlingRoom
    ensures { result ≡ seats }
{
    for _attempt in 0..2 {
        if let Ok(room) = SettlingRoom::for_seats(alloc, seats) {
            return room;
        }
    }
    panic!(rt; "memory")
}

/// What takes memory is called again where it was refused, and then it has it: so this passes
/// whichever one request is refused. A map that is made anew has lost nothing then.
#[test]
fn refused_memory(rt: HostRuntime) {
    leaves(&rt, rt.alloc(), opened(&rt, rt.alloc(), (2, 2, 3, 1)), &[]);
    plays(&rt, rt.alloc(), &REFUSED_MEMORY);
    let mut handle = opened_with(&rt, rt.alloc(), (2, 2, 2, 1), &TWO);
    let room = reserved(&rt, rt.alloc(), handle.seats());
    assert!(rt; handle.settle_in(room) == Ok(2));
}
