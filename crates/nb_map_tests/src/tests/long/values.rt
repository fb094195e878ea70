//! What the calls of one seat leave at the keys of a typed map, and what its receipts read.
ghost use Rattle.std.specs.Prelude.{IfSome, ◌≡◌};
ghost use Rattle.boxcar.specs.Table.{Shows};
ghost use Rattle.nb_map.specs.Maps.{AreMine, IsMine};
ghost use Rattle.nb_long.specs.Promises.{IsStoredOrReturned};

use super::super::plain::{Sizes, key, shape};
use super::values::Call::*;
use super::values::Want::{Absent, Any, Is, Present};
use nb_long::{Found, LongFault, LongMap, Receipt, Store, Stored};
use nb_map::Seat;
use std::alloc::Global;
use std::process::Abort;
use std::sync::Wait;

type Bytes = Vec<u8>;

/// Where a value is written: whatever the key has, or where it is absent, or there, or has this
/// value.
#[derive(Clone, Copy)]
enum Want {
    Any,
    Absent,
    Present,
    Is(&'static [u8]),
}

/// A call at a key.
#[derive(Clone, Copy)]
enum Call {
    /// This value is put, or put if absent, or replaces another.
    Write(Want, &'static [u8]),
    /// This value is put, for which there is no room.
    Refuse(&'static [u8]),
    /// The second value is put if the key has the first one, by `replace_if_told`.
    ReplaceIfTold(&'static [u8], &'static [u8]),
    Remove,
    RemoveIf(&'static [u8]),
    TakeIf(&'static [u8]),
    /// A function makes nothing of what is there.
    Update,
}

/// A key, the call at it, whether it changes the key, and what the key has then.
type Row = (u64, Call, bool, Option<&'static [u8]>);

/// One key's values come and go. Then four keys fill the table, a fifth one finds no room, and two
/// are taken out.
const TYPED_VALUES: [Row; 16] = [
    (1, Write(Present, b"cd"), true, Some(b"cd")),
    (1, Write(Is(b"ab"), b"x"), false, Some(b"cd")),
    (1, Write(Is(b"cd"), b"ef"), true, Some(b"ef")),
    (1, ReplaceIfTold(b"cd", b"x"), false, Some(b"ef")),
    (1, ReplaceIfTold(b"ef", b"ef"), true, Some(b"ef")),
    (1, TakeIf(b"cd"), false, Some(b"ef")),
    (1, RemoveIf(b"cd"), false, Some(b"ef")),
    (1, RemoveIf(b"ef"), true, None),
    (1, RemoveIf(b"ef"), false, None),
    (1, Write(Any, b"kept"), true, Some(b"kept")),
    (2, Write(Any, b"kept"), true, Some(b"kept")),
    (3, Write(Any, b"kept"), true, Some(b"kept")),
    (4, Write(Any, b"kept"), true, Some(b"kept")),
    (5, Refuse(b"gh"), false, None),
    (4, Remove, true, None),
    (3, Update, true, None),
];

fn bytes<R: Abort>(rt: &R, alloc: Global, text: &[u8]) -> Bytes {
    text.to_vec(alloc).expect(rt, "memory")
}

/// Whether this value is read by a receipt.
fn reads(map: &LongMap<Bytes>, receipt: &Receipt<Bytes>, text: &[u8]) -> bool
    requires { Shows map.now.store receipt.now }
{
    map.store().value(receipt).as_slice() == text
}

/// What a key has.
pub(super) fn found<'a, R: Abort, V>(
    rt: &R,
    map: &'a LongMap<V>,
    seat: &mut Seat,
    k: u64,
) -> Option<Found<'a, V>>
    requires own { IsMine map.now.map seat.old }
    ensures found { IfSome result (λ found. Shows map.now.store found) }
    ensures own { IsMine map.now.map seat.new }
{
    let Ok(found) = map.get(seat, key(rt, k)) else {
        panic!(rt; "each number is shown")
    };
    found
}

/// Whether a key has this value, which is read where it was found, and by a receipt of it, too.
fn has<R: Abort>(rt: &R, map: &LongMap<Bytes>, seat: &mut Seat, k: u64, text: Option<&[u8]>) -> bool
    requires own { IsMine map.now.map seat.old }
    ensures own { IsMine map.now.map seat.new }
{
    let Some(found) = found(rt, map, seat, k) else {
        return text.is_none();
    };
    let Some(text) = text else {
        return false;
    };
    let is_found = found.as_slice() == text;
    is_found && reads(map, &found.into_receipt(), text)
}

/// Makes a write, and answers what it came to.
fn ends_write<R: Wait + Abort>(
    rt: &R,
    alloc: Global,
    map: &LongMap<Bytes>,
    seat: &mut Seat,
    k: u64,
    want: Want,
    new: Bytes,
) -> Result<Stored<Bytes>, LongFault<Bytes>>
    requires own { IsMine map.now.map seat.old }
    ensures own { IsMine map.now.map seat.new }
    ensures kept { IsStoredOrReturned map.now.store new result }
{
    match want {
        Any => map.put(rt, seat, key(rt, k), new),
        Absent => map.put_if_absent(rt, seat, key(rt, k), new),
        Present => map.replace(rt, seat, key(rt, k), new),
        Is(old) => map.replace_if(rt, seat, key(rt, k), &bytes(rt, alloc, old), new),
    }
}

/// Makes a write for which there is room.
fn writes<R: Wait + Abort>(
    rt: &R,
    alloc: Global,
    map: &LongMap<Bytes>,
    seat: &mut Seat,
    k: u64,
    want: Want,
    new: &[u8],
) -> Stored<Bytes>
    requires own { IsMine map.now.map seat.old }
    ensures own { IsMine map.now.map seat.new }
    ensures shown { Shows map.now.store result.receipt }
{
    match ends_write(rt, alloc, map, seat, k, want, bytes(rt, alloc, new)) {
        Ok(stored) => stored,
        Err(_) => panic!(rt; "there is room"),
    }
}

/// Makes a write, and sees what it came to. Its receipt reads the value, written or not; and its
/// number is the key's where it was written.
fn sees_write<R: Wait + Abort>(
    rt: &R,
    alloc: Global,
    map: &LongMap<Bytes>,
    seat: &mut Seat,
    k: u64,
    want: Want,
    new: &[u8],
) -> bool
    requires own { IsMine map.now.map seat.old }
    ensures own { IsMine map.now.map seat.new }
{
    let before = match found(rt, map, seat, k) {
        Some(found) => Some(found.number()),
        None => None,
    };
    let stored = writes(rt, alloc, map, seat, k, want, new);
    let Some(found) = found(rt, map, seat, k) else {
        panic!(rt; "the key is there")
    };
    assert!(rt; stored.before == before);
    assert!(rt; reads(map, &stored.receipt, new));
    assert!(rt; map.store().agree(&stored.receipt, &found) == stored.done);
    stored.done
}

/// A key is refused, and its value is read by the receipt that comes back.
fn is_refused<R: Wait + Abort>(
    rt: &R,
    alloc: Global,
    map: &LongMap<Bytes>,
    seat: &mut Seat,
    k: u64,
    new: &[u8],
)
    requires own { IsMine map.now.map seat.old }
    ensures own { IsMine map.now.map seat.new }
{
    match &map.put(rt, seat, key(rt, k), bytes(rt, alloc, new)) {
        Err(LongFault::Full(receipt)) => assert!(rt; reads(map, receipt, new)),
        _ => panic!(rt; "the map is full"),
    }
}

/// Asks for the removal of a key where it has a value. What it has is read by the token of what was
/// compared.
fn takes_if<R: Wait + Abort>(
    rt: &R,
    map: &LongMap<Bytes>,
    seat: &mut Seat,
    k: u64,
    old: &Bytes,
) -> bool
    requires own { IsMine map.now.map seat.old }
    ensures own { IsMine map.now.map seat.new }
{
    let Ok(compared) = map.take_if(rt, seat, key(rt, k), old) else {
        panic!(rt; "each number is shown")
    };
    let Some(found) = &compared.found else {
        panic!(rt; "the key is there")
    };
    assert!(rt; compared.done == reads(map, found, old.as_slice()));
    compared.done
}

/// Asks for a value in place of an equal one. What the key has is read by the token of what was
/// compared, and the value that was to come by its receipt.
fn replaces_if<R: Wait + Abort>(
    rt: &R,
    map: &LongMap<Bytes>,
    seat: &mut Seat,
    k: u64,
    old: &Bytes,
    new: Bytes,
) -> bool
    requires own { IsMine map.now.map seat.old }
    ensures own { IsMine map.now.map seat.new }
{
    let Ok(replaced) = map.replace_if_told(rt, seat, key(rt, k), old, new) else {
        panic!(rt; "there is room")
    };
    let Some(found) = &replaced.found else {
        panic!(rt; "the key is there")
    };
    let Stored { before, done, .. } = &replaced.stored;
    assert!(rt; *before == Some(found.number()));
    assert!(rt; *done == reads(map, found, old.as_slice()));
    *done
}

/// What a function makes of a value that is to go.
fn nothing(_was: Option<&Bytes>) -> Option<Bytes> {
    None
}

/// Lets a function make nothing of what a key has, which is read by its receipt, and taken out.
fn updates<R: Wait + Abort>(rt: &R, map: &LongMap<Bytes>, seat: &mut Seat, k: u64) -> bool
    requires own { IsMine map.now.map seat.old }
    ensures own { IsMine map.now.map seat.new }
{
    let Ok(updated) = &map.update(rt, seat, key(rt, k), nothing) else {
        panic!(rt; "no value is to be stored")
    };
    let Some(found) = &updated.found else {
        panic!(rt; "the key is there")
    };
    updated.new.is_none() && reads(map, found, b"kept")
}

/// Makes a call, and answers whether it changed the key.
fn makes<R: Wait + Abort>(
    rt: &R,
    alloc: Global,
    map: &LongMap<Bytes>,
    seat: &mut Seat,
    k: u64,
    call: Call,
) -> bool
    requires own { IsMine map.now.map seat.old }
    ensures own { IsMine map.now.map seat.new }
{
    match call {
        Write(want, new) => sees_write(rt, alloc, map, seat, k, want, new),
        Refuse(new) => {
            is_refused(rt, alloc, map, seat, k, new);
            false
        }
        Remove => map.remove(rt, seat, key(rt, k)).is_some(),
        ReplaceIfTold(old, new) => {
            let (old, new) = (bytes(rt, alloc, old), bytes(rt, alloc, new));
            replaces_if(rt, map, seat, k, &old, new)
        }
        RemoveIf(old) => {
            let removed = map.remove_if(rt, seat, key(rt, k), &bytes(rt, alloc, old));
            removed.expect(rt, "each number is shown")
        }
        TakeIf(old) => takes_if(rt, map, seat, k, &bytes(rt, alloc, old)),
        Update => updates(rt, map, seat, k),
    }
}

/// Makes these calls, and sees what they leave. What was put before them is read by its receipt
/// after them.
fn sees<R: Wait + Abort>(rt: &R, alloc: Global, map: &LongMap<Bytes>, seat: &mut Seat, rows: &[Row])
    requires own { IsMine map.now.map seat.old }
    ensures own { IsMine map.now.map seat.new }
{
    for (k, call, done, is) in rows {
        assert!(rt; makes(rt, alloc, map, seat, *k, *call) == *done, "key {k}");
        assert!(rt; has(rt, map, seat, *k, *is), "key {k}");
    }
}

/// Whether key 1 shows what a receipt reads.
fn is_shown<R: Abort>(
    rt: &R,
    map: &LongMap<Bytes>,
    seat: &mut Seat,
    receipt: &Receipt<Bytes>,
) -> bool
    requires own { IsMine map.now.map seat.old }
    requires shown { Shows map.now.store receipt.now }
    ensures own { IsMine map.now.map seat.new }
{
    match found(rt, map, seat, 1) {
        Some(found) => map.store().agree(receipt, &found),
        None => false,
    }
}

/// The value `ab` is put first, where there is none, and is what the key shows. Another one finds
/// its number there, and isn't put. It is read by its receipt after all other calls.
fn shows_first<R: Wait + Abort>(rt: &R, alloc: Global, map: &LongMap<Bytes>, seat: &mut Seat)
    requires own { IsMine map.now.map seat.old }
    ensures own { IsMine map.now.map seat.new }
{
    let first = writes(rt, alloc, map, seat, 1, Any, b"ab");
    assert!(rt; first.before.is_none() && first.done);
    assert!(rt; is_shown(rt, map, seat, &first.receipt));
    let second = writes(rt, alloc, map, seat, 1, Absent, b"zz");
    assert!(rt; second.before == Some(first.receipt.number()) && !second.done);
    assert!(rt; has(rt, map, seat, 1, Some(b"ab")));
    sees(rt, alloc, map, seat, &TYPED_VALUES);
    assert!(rt; reads(map, &first.receipt, b"ab"));
    assert!(rt; map.occupancy(seat).taken == 4 && map.shape().seats() == 1);
}

/// A map with its seats.
pub(super) fn made<R: Abort, V: Drop>(
    rt: &R,
    alloc: Global,
    sizes: Sizes,
) -> (LongMap<V>, Vec<Seat>)
    ensures { AreMine result.0.map result.1.items }
{
    for _attempt in 0..2 {
        if let Ok(made) = LongMap::new(alloc, shape(rt, sizes)) {
            return made;
        }
    }
    panic!(rt; "there is memory")
}

/// Takes a seat out of these.
pub(super) fn taken<R: Abort, V>(rt: &R, map: &LongMap<V>, seats: &mut Vec<Seat>) -> Seat
    requires own { AreMine map.now.map seats.old.items }
    ensures taken { IsMine map.now.map result }
    ensures left { AreMine map.now.map seats.new.items }
{
    seats.pop().expect(rt, "there is a seat")
}

/// Gives a seat back to those that it was taken from.
pub(super) fn given_back<R: Abort, V>(rt: &R, map: &LongMap<V>, seats: &mut Vec<Seat>, seat: Seat)
    requires own { AreMine map.now.map seats.old.items }
    requires given { IsMine map.now.map seat }
    ensures own { AreMine map.now.map seats.new.items }
{
    seats.push(seat).expect(rt, "memory");
}

/// The store that is left of a map of so many keys, all of whose seats these are.
pub(super) fn left_by<R: Abort, V: Drop>(
    rt: &R,
    map: LongMap<V>,
    seats: Vec<Seat>,
    size: u64,
) -> Store<V>
    requires { AreMine map.map seats.items }
    ensures { result ≡ map.store }
{
    match map.finish(seats) {
        Ok((ended, store)) => {
            assert!(rt; ended.size() == size);
            store
        }
        Err(_) => panic!(rt; "all seats are there"),
    }
}

/// The map settles, is listed, and ends. So many keys are left.
fn ends<R: Abort>(rt: &R, alloc: Global, map: LongMap<Bytes>, seats: Vec<Seat>, size: u64)
    requires { AreMine map.map seats.items }
{
    let mut seats = seats;
    assert!(rt; map.settle(alloc, &mut seats) == Ok(size));
    let entries = map.entries(alloc, &mut seats).expect(rt, "memory");
    assert!(rt; entries.len() as u64 == size);
    left_by(rt, map, seats, size);
}

#[test]
fn typed_values(rt: HostRuntime) {
    let (map, mut seats) = made(&rt, rt.alloc(), (2, 1, 1, 1));
    let mut seat = taken(&rt, &map, &mut seats);
    shows_first(&rt, rt.alloc(), &map, &mut seat);
    given_back(&rt, &map, &mut seats, seat);
    ends(&rt, rt.alloc(), map, seats, 2);
}

/// A map is made, also where one request for memory is refused.
pub(super) fn refused_memory<R: Abort>(rt: &R, alloc: Global) {
    let (map, seats): (LongMap<u64>, Vec<Seat>) = made(rt, alloc, (2, 1, 2, 1));
    left_by(rt, map, seats, 0);
}
