//! Walks over a set, and functions over handles.
ghost use Rattle.std.specs.Prelude.{◌≡◌, ◌==◌, ℕ, List};
ghost use Rattle.std.specs.List.{list_any};
ghost use Rattle.nb_set.specs.Handles.{IsSameSet};
ghost use Rattle.nb_set.specs.Sets.{IsMine};
ghost use Rattle.nb_set.specs.Walks.{HasShownAll};

use super::super::plain::{key, shape};
use super::by_handles::{has_left, opened, sees};
use super::by_seats::{ended, given_back, made, taken};
use super::rows::Call;
use super::rows::Call::*;
use nb_core::Key;
use nb_set::{Handle, LongSet, Seat};
use std::process::Abort;
use std::sync::Wait;

/// Whether a walk shows the key. The same seat makes other calls meanwhile, and takes on walks
/// beside this one. What the whole walk has shown is told from the seat's log as it was before to
/// that as it is after.
fn walk_shows(set: &LongSet, seat: &mut Seat, sought: Key) -> bool
    requires own { IsMine set.now seat.old }
    ensures shown { (shown : List ℕ) × HasShownAll seat.old seat.new shown
        × (result ≡ list_any (λ k. k == sought) shown) }
    ensures own { IsMine set.now seat.new }
{
    let mut walk = set.walk(seat);
    let mut found = false;
    while let Some(key) = set.next_key(seat, &mut walk) {
        found |= key == sought;
        let _ = set.contains(seat, sought);
        let _ = set.size_estimate(seat);
        let _ = set.generation(seat);
        let mut beside = set.walk(seat);
        let _ = set.next_key(seat, &mut beside);
    }
    found
}

/// Four keys come. Of two keys one is shown.
fn shows_its_own<R: Wait + Abort>(rt: &R, set: &LongSet, seat: &mut Seat)
    requires own { IsMine set.now seat.old }
    ensures own { IsMine set.now seat.new }
{
    for k in [3, 7, 2, 9] {
        assert!(rt; set.add(rt, seat, key(rt, k)) == Ok(true));
    }
    let is_shown = walk_shows(set, seat, key(rt, 7));
    assert!(rt; is_shown && !walk_shows(set, seat, key(rt, 5)));
}

#[test]
fn walk_among_other_calls(rt: HostRuntime) {
    let (set, mut seats) = made(&rt, rt.alloc(), (2, 2, 1, 1));
    let mut seat = taken(&rt, &set, &mut seats);
    shows_its_own(&rt, &set, &mut seat);
    given_back(&rt, &set, &mut seats, seat);
    has_left(&rt, rt.alloc(), &ended(&rt, set, seats), &[2, 3, 7, 9]);
}

/// The keys of a handle's set, of one digit each, as the digits of a number. The loop takes the
/// handle with it.
fn digits_of(handle: Handle) -> u64 {
    let mut digits = 0u64;
    for key in handle.walk() {
        digits = digits.wrapping_mul(10).wrapping_add(key.get());
    }
    digits
}

/// The same by a loop after which the handle is there again. The walk stays at its end.
fn digits_by(handle: Handle) -> (u64, Handle) {
    let mut digits = 0u64;
    let mut walk = handle.walk();
    while let Some(key) = walk.next_key() {
        digits = digits.wrapping_mul(10).wrapping_add(key.get());
    }
    (digits, walk.end())
}

/// The same keys by a walk that leaves its handle where it is, is taken on by it, and stays at its
/// end.
fn two_digits_beside<R: Abort>(rt: &R, handle: &mut Handle) {
    let mut walk = handle.begin_walk();
    assert!(rt; handle.next_key(&mut walk) == Some(key(rt, 7)));
    assert!(rt; handle.next_key(&mut walk) == Some(key(rt, 3)));
    assert!(rt; handle.next_key(&mut walk).is_none());
    assert!(rt; handle.next_key(&mut walk).is_none());
}

/// In a table of four slots the path of the key 7 goes on from the last slot to the first, where
/// each walk meets it. A key that was removed isn't shown.
#[test]
fn loops_over_keys(rt: HostRuntime) {
    let (mut mine, _theirs) = two(&rt, opened(&rt, rt.alloc(), shape(&rt, (2, 1, 2, 1))));
    let calls = [Extend(&[3, 7, 2], Ok(())), Remove(2, true)];
    sees(&rt, rt.alloc(), &mut mine, &calls, false);
    two_digits_beside(&rt, &mut mine);
    let (digits, mut mine) = digits_by(mine);
    assert!(rt; mine.remove(&rt, key(&rt, 7)));
    assert!(rt; (digits, digits_of(mine)) == (73, 3));
}

/// Two handles of a set with two seats.
fn two<R: Abort>(rt: &R, handle: Handle) -> (Handle, Handle)
    ensures { result.0.set ≡ result.1.set }
{
    let mut mine = handle;
    let theirs = mine.split().expect(rt, "there are two seats");
    (mine, theirs)
}

/// A handle adds a key and looks for it. Its caller knows by `same` that the handle is of the set
/// that it was of.
fn adds_and_looks<R: Wait>(rt: &R, handle: &mut Handle, key: Key) -> bool
    ensures same { IsSameSet handle.old handle.new }
{
    handle.add(rt, key).is_ok() && handle.contains(key)
}

/// Two handles work, and meet.
fn both_add<R: Wait + Abort>(rt: &R, mine: &mut Handle, theirs: &mut Handle)
    requires { mine.old.set ≡ theirs.old.set }
{
    assert!(rt; adds_and_looks(rt, mine, key(rt, 5)));
    mine.meet(theirs);
    assert!(rt; adds_and_looks(rt, theirs, key(rt, 6)));
    theirs.meet(mine);
}

/// Another handle's keys are there, and a key comes and goes. Three slots of the first table are
/// taken, one by the key that was removed.
const SEES_BOTH: [Call; 8] = [
    Contains(5, true),
    Add(5, Some(false)),
    Add(9, Some(true)),
    Remove(9, true),
    Size(2),
    Generation(0),
    Occupancy(0, 3, 16),
    Seats(2),
];

/// Handles meet after functions that work with them, and see what the other one did.
#[test]
fn functions_over_handles(rt: HostRuntime) {
    let handle = opened(&rt, rt.alloc(), shape(&rt, (4, 4, 2, 1)));
    let (mut mine, mut theirs) = two(&rt, handle);
    both_add(&rt, &mut mine, &mut theirs);
    sees(&rt, rt.alloc(), &mut theirs, &SEES_BOTH, false);
    assert!(rt; mine.contains(key(&rt, 6)));
}
