//! Rows of calls with plain numbers and with what they answer, and looks at what they leave.
ghost use Rattle.std.specs.Prelude.{◌≡◌};
ghost use Rattle.nb_map.specs.Handles.{AreOfOneMap};

use super::rows::Answer::*;
use super::rows::Call::*;
use nb_core::{Change, Key, Num, Reply, Shape, Want};
use nb_map::{Ended, FirstPut, Full, FullAfter, Handle, PutFault, RenewFault};
use std::alloc::Global;
use std::process::Abort;
use std::sync::Wait;

/// A call at a key, with plain numbers. Those from `TryPut` on wait for nobody. They have one try,
/// or as many as their last number says. Those from `Estimate` on are of the whole map; from `Sums`
/// on they are answered by whether they came to what they say.
#[derive(Clone, Copy)]
pub(super) enum Call {
    Get,
    GetOr(u64),
    Has,
    Put(u64),
    PutIfAbsent(u64),
    Replace(u64),
    ReplaceIf(u64, u64),
    Remove,
    RemoveIf(u64),
    Add(u64),
    GetOrInsert(u64),
    TryPut(u64),
    TryPutIfAbsent(u64),
    TryAdd(u64, u32),
    TryRemove,
    /// Those from here on to `PutBelow` are made below the limit that is their last number.
    TryPutBelow(u64, u64),
    TryAddBelow(u64, u64),
    TryRemoveBelow(u64),
    PutBelow(u64, u64),
    /// A put at a key that never had a number, in a map of one table.
    PutIfNew(u64),
    Exchange(Option<u32>, Option<u32>),
    OneMore(u32),
    Max(u64, u32),
    Min(u64, u32),
    PutAtAbsent(u64),
    PutAtPresent(u64),
    AddAtAny(u64),
    RemoveEqual(u64),
    PutAndAdd(u64),
    Estimate,
    Generation,
    /// All entries are shown. The sums of their keys and of their numbers.
    Sums(u64, u64),
    /// Entries stay whose key is past 1 and whose number is below 60.
    Retain,
    Clear,
    /// These entries are put in their order, all of them, or so many, since the map is full.
    Extend(&'static [(u64, u64)], Result<(), FullAfter>),
    /// Many keys, and what each has.
    GetMany(&'static [u64], &'static [Option<u64>]),
    /// How many hundredths of the slots of the only table are taken.
    Percent(u64),
    /// All seats settle, and there are so many keys. Where memory is refused, it is called again.
    Settle(u64),
    /// All entries are listed, in whatever order. The same.
    List(&'static [(u64, u64)]),
    /// The map is made anew. The same.
    Renew(Sizes, Result<(), RenewFault>),
}

/// What a call answers: what was there, whether it matched, or both; or why it is refused.
#[derive(Clone, Copy, PartialEq, Eq)]
pub(super) enum Answer {
    Nothing,
    Was(u64),
    Is(bool),
    Replied(Option<u64>, bool),
    Refused(PutFault),
}

/// A key, the call at it, and its answer.
pub(super) type Row = (u64, Call, Answer);

/// The answer of a write that finds no room for its key.
pub(super) const FULL: Answer = Refused(PutFault::Full);

/// The answer of an add whose sum is past the greatest number.
pub(super) const PAST: Answer = Refused(PutFault::ValueRange);

/// The key, which is a small one.
pub(super) fn key<R: Abort>(rt: &R, key: u64) -> Key {
    Key::new(key).expect(rt, "a key")
}

/// The number, which is in range.
pub(super) fn number<R: Abort>(rt: &R, number: u64) -> Num {
    Num::new(number).expect(rt, "a number")
}

/// A key and its number.
pub(super) fn entry<R: Abort>(rt: &R, k: u64, n: u64) -> (Key, Num) {
    (key(rt, k), number(rt, n))
}

/// What was there.
pub(super) fn was(before: Option<Num>) -> Answer {
    match before {
        Some(number) => Was(number.get()),
        None => Nothing,
    }
}

/// What was there, or why a call is refused.
pub(super) fn found<F>(answer: Result<Option<Num>, F>) -> Answer
where
    PutFault: From<F>,
{
    match answer {
        Ok(before) => was(before),
        Err(fault) => Refused(PutFault::from(fault)),
    }
}

/// A reply, or why a call is refused.
fn replied(answer: Result<Reply, PutFault>) -> Answer {
    match answer {
        Ok(reply) => Replied(reply.before.map(Num::get), reply.matched),
        Err(fault) => Refused(fault),
    }
}

/// A number plus one, or 1 where there is none. After the greatest number there is none.
pub(super) fn one_more(number: Option<Num>) -> Option<Num> {
    let before = number.map_or(0, Num::get);
    Num::new(before.saturating_add(1)).ok()
}

/// The condition of a write, and what it changes.
fn write_of<R: Abort>(rt: &R, call: Call) -> (Want, Change) {
    match call {
        PutBelow(n, limit) => (Want::Below(number(rt, limit)), Change::Put(number(rt, n))),
        PutAtAbsent(n) => (Want::Absent, Change::Put(number(rt, n))),
        PutAtPresent(n) => (Want::Present, Change::Put(number(rt, n))),
        AddAtAny(n) => (Want::Any, Change::Add(number(rt, n))),
        RemoveEqual(n) => (Want::Equal(number(rt, n)), Change::Remove),
        _ => panic!(rt; "this is another call"),
    }
}

/// Makes a call that waits for nobody and is made under a condition, or one of the whole map.
fn tries_if<R: Wait + Abort + AllocGlobal>(
    rt: &R,
    handle: &mut Handle,
    at: Key,
    call: Call,
) -> Answer {
    match call {
        TryPutBelow(n, limit) => {
            found(handle.try_put_below(at, number(rt, n), number(rt, limit), 1))
        }
        TryAddBelow(n, limit) => {
            found(handle.try_add_below(at, number(rt, n), number(rt, limit), 1))
        }
        TryRemoveBelow(limit) => found(handle.try_remove_below(at, number(rt, limit), 1)),
        PutBelow(_, _) | PutAtAbsent(_) | PutAtPresent(_) | AddAtAny(_) | RemoveEqual(_) => {
            let (want, change) = write_of(rt, call);
            replied(handle.put_if_match(at, want, change, 1))
        }
        PutIfNew(n) => first(rt, handle, at, number(rt, n)),
        _ => Is(comes(rt, handle, call)),
    }
}

/// Puts the number if the key never had one, in a map of one table. One that had one, and has none
/// now, is answered by `Is(false)`.
fn first<R: Abort>(rt: &R, handle: &mut Handle, at: Key, number: Num) -> Answer {
    assert!(rt; handle.shape().generations() == 1);
    match handle.put_if_new(at, number) {
        Ok(put) => first_told(put),
        Err(Full) => FULL,
    }
}

/// What a put at a key that never had a number has come to.
fn first_told(put: FirstPut) -> Answer {
    match put {
        FirstPut::Put => Nothing,
        FirstPut::Found(found) => Was(found.get()),
        FirstPut::Removed => Is(false),
    }
}

/// Makes a call that waits for nobody, or one of the whole map.
fn tries<R: Wait + Abort + AllocGlobal>(
    rt: &R,
    handle: &mut Handle,
    at: Key,
    call: Call,
) -> Answer {
    match call {
        TryPut(n) => found(handle.try_put(at, number(rt, n), 1)),
        TryPutIfAbsent(n) => found(handle.try_put_if_absent(at, number(rt, n), 1)),
        TryAdd(n, tries) => found(handle.try_add(at, number(rt, n), tries)),
        TryRemove => found(handle.try_remove(at, 1)),
        OneMore(tries) => found(handle.try_update(at, tries, one_more)),
        Exchange(old, new) => {
            let (old, new) = (old.map(Num::from), new.map(Num::from));
            replied(handle.compare_exchange(at, old, new, 1))
        }
        Max(n, tries) => found(handle.fetch_max(at, number(rt, n), tries)),
        Min(n, tries) => found(handle.fetch_min(at, number(rt, n), tries)),
        _ => tries_if(rt, handle, at, call),
    }
}

/// These entries, and behind them (0, 0); eight at most.
pub(super) fn entries<R: Abort>(rt: &R, pairs: &[(u64, u64)]) -> [(Key, Num); 8] {
    let mut entries = [(Key::from(0_u32), Num::from(0_u32)); 8];
    for (place, (k, n)) in entries.iter_mut().zip(pairs) {
        *place = entry(rt, *k, *n);
    }
    entries
}

/// The sums of all keys and of all numbers that are shown.
fn sums(handle: &mut Handle) -> (u64, u64) {
    let (mut keys, mut numbers) = (0u64, 0u64);
    handle.for_each(|key, number| {
        keys = keys.wrapping_add(key.get());
        numbers = numbers.wrapping_add(number.get());
    });
    (keys, numbers)
}

/// Whether `Retain` lets an entry stay.
fn stays(key: Key, number: Num) -> bool {
    key.get() > 1 && number.get() < 60
}

/// Whether many keys have what each of them is to have; eight at most.
fn have<R: Abort>(rt: &R, handle: &mut Handle, numbers: &[u64], due: &[Option<u64>]) -> bool {
    let (mut keys, mut found) = ([Key::from(0_u32); 8], [None; 8]);
    for (place, k) in keys.iter_mut().zip(numbers) {
        *place = key(rt, *k);
    }
    let count = numbers.len().min(8);
    handle.get_many(&keys[..count], &mut found[..count]);
    for (number, due) in found.iter().zip(due) {
        if number.map(Num::get) != *due {
            return false;
        }
    }
    due.len() == count
}

/// Whether these entries are listed.
fn lists<R: Abort + AllocGlobal>(rt: &R, handle: &mut Handle, pairs: &[(u64, u64)]) -> bool {
    for _attempt in 0..2 {
        if let Ok(listed) = handle.entries(rt.alloc()) {
            return are_just(listed.as_slice(), pairs);
        }
    }
    false
}

/// Whether all seats settle, and there are so many keys.
fn settles<R: AllocGlobal>(rt: &R, handle: &mut Handle, size: u64) -> bool {
    for _attempt in 0..2 {
        if handle.settle(rt.alloc()) == Ok(size) {
            return true;
        }
    }
    false
}

/// Whether the map is made anew with this end.
fn renews<R: Abort + AllocGlobal>(
    rt: &R,
    handle: &mut Handle,
    sizes: Sizes,
    end: Result<(), RenewFault>,
) -> bool {
    let shape = shape(rt, sizes);
    for _attempt in 0..2 {
        if handle.renew(rt.alloc(), shape) == end {
            return true;
        }
    }
    false
}

/// Whether a call of the whole map comes to what it says.
fn comes<R: Wait + Abort + AllocGlobal>(rt: &R, handle: &mut Handle, call: Call) -> bool {
    match call {
        Sums(keys, numbers) => sums(handle) == (keys, numbers),
        Retain => {
            handle.retain(rt, stays);
            true
        }
        Clear => {
            handle.clear(rt);
            true
        }
        Extend(pairs, end) => {
            handle.extend(rt, &entries(rt, pairs)[..pairs.len().min(8)]) == end
        }
        GetMany(keys, due) => have(rt, handle, keys, due),
        Percent(percent) => {
            let seen = handle.occupancy();
            seen.percent() == percent && seen.is_last && !seen.should_renew()
        }
        Settle(size) => settles(rt, handle, size),
        List(pairs) => lists(rt, handle, pairs),
        Renew(sizes, end) => renews(rt, handle, sizes, end),
        _ => panic!(rt; "this is another call"),
    }
}

/// A write, and then an add of as much; each passes its refusal on.
fn put_and_add<R: Wait>(
    rt: &R,
    handle: &mut Handle,
    at: Key,
    number: Num,
) -> Result<Option<Num>, PutFault> {
    handle.put(rt, at, number)?;
    Ok(handle.add(rt, at, number)?)
}

/// Makes the call at the key.
fn makes<R: Wait + Abort + AllocGlobal>(rt: &R, handle: &mut Handle, k: u64, call: Call) -> Answer {
    let at = key(rt, k);
    match call {
        Get => was(handle.get(at)),
        GetOr(n) => Was(handle.get_or(at, number(rt, n)).get()),
        Has => Is(handle.contains_key(at)),
        Estimate => Was(handle.size_estimate()),
        Generation => Was(u64::from(handle.generation())),
        Put(n) => found(handle.put(rt, at, number(rt, n))),
        PutIfAbsent(n) => found(handle.put_if_absent(rt, at, number(rt, n))),
        Replace(n) => was(handle.replace(rt, at, number(rt, n))),
        ReplaceIf(old, new) => Is(handle.replace_if(rt, at, number(rt, old), number(rt, new))),
        Remove => was(handle.remove(rt, at)),
        RemoveIf(n) => Is(handle.remove_if(rt, at, number(rt, n))),
        Add(n) => found(handle.add(rt, at, number(rt, n))),
        GetOrInsert(n) => match handle.get_or_insert(rt, at, number(rt, n)) {
            Ok(now) => Was(now.get()),
            Err(_) => FULL,
        },
        PutAndAdd(n) => found(put_and_add(rt, handle, at, number(rt, n))),
        _ => tries(rt, handle, at, call),
    }
}

/// Makes these calls, which answer so.
pub(super) fn sees<R: Wait + Abort + AllocGlobal>(rt: &R, handle: &mut Handle, rows: &[Row]) {
    for (k, call, answer) in rows {
        assert!(rt; makes(rt, handle, *k, *call) == *answer, "key {k}");
    }
}

/// A handle for each seat of this one, also where one request for memory is refused.
pub(super) fn parted<R: Abort>(rt: &R, alloc: Global, handle: Handle) -> Vec<Handle>
    ensures { AreOfOneMap result.items }
{
    match handle.split_all(alloc) {
        Ok(handles) => handles,
        Err(back) => match back.split_all(alloc) {
            Ok(handles) => handles,
            Err(_) => panic!(rt; "memory"),
        },
    }
}

/// One handle that has all seats of these.
pub(super) fn joined<R: Abort>(rt: &R, handles: Vec<Handle>) -> Handle
    requires { AreOfOneMap handles.items }
{
    let mut handles = handles;
    match handles.pop() {
        Some(mut handle) => {
            assert!(rt; handle.join_all(handles).is_ok());
            handle
        }
        None => panic!(rt; "there is a handle"),
    }
}

/// How many slots the first table has, as a power of two; and how many tables, seats and stripes
/// there are.
pub(super) type Sizes = (u32, u32, usize, usize);

/// The shape, which is a good one.
pub(super) fn shape<R: Abort>(rt: &R, sizes: Sizes) -> Shape {
    let (bits, tables, seats, stripes) = sizes;
    Shape::new(bits, tables, seats, stripes).expect(rt, "a good shape")
}

/// The whole handle of a new map of this shape, also where one request for memory is refused.
pub(super) fn opened<R: Abort>(rt: &R, alloc: Global, sizes: Sizes) -> Handle {
    for _attempt in 0..2 {
        if let Ok(handle) = Handle::open(alloc, shape(rt, sizes)) {
            return handle;
        }
    }
    panic!(rt; "memory")
}

/// The whole handle of a map that has these entries, eight at most, also where one request for memory
/// is refused.
pub(super) fn opened_with<R: Abort>(
    rt: &R,
    alloc: Global,
    sizes: Sizes,
    pairs: &[(u64, u64)],
) -> Handle {
    let entries = entries(rt, pairs);
    for _attempt in 0..2 {
        let opened = Handle::open_with(alloc, shape(rt, sizes), &entries[..pairs.len().min(8)]);
        if let Ok(handle) = opened {
            return handle;
        }
    }
    panic!(rt; "room and memory")
}

/// A map of this shape that has entries from the start, calls with their answers, and what is left.
pub(super) type Story = (
    Sizes,
    &'static [(u64, u64)],
    &'static [Row],
    &'static [(u64, u64)],
);

/// Makes the calls of a story. Then there is a handle for each seat, and they are joined again: that
/// is the whole handle, and ends the map.
pub(super) fn plays<R: Wait + Abort + AllocGlobal>(rt: &R, alloc: Global, story: &Story) {
    let (sizes, pairs, rows, left) = *story;
    let mut handle = opened_with(rt, alloc, sizes, pairs);
    sees(rt, &mut handle, rows);
    let seats = handle.seats();
    let handle = joined(rt, parted(rt, alloc, handle));
    assert!(rt; handle.is_whole() && handle.seats() == seats);
    leaves(rt, alloc, handle, left);
}

/// The two handles of a map with two seats. Its first table has four slots, and its second eight.
pub(super) fn two<R: Abort>(rt: &R, alloc: Global) -> (Handle, Handle)
    ensures { result.0.map ≡ result.1.map }
{
    let mut handle = opened(rt, alloc, (2, 2, 2, 2));
    match handle.split() {
        Ok(other) => (handle, other),
        Err(_) => panic!(rt; "there is a seat"),
    }
}

/// Two handles of one map as one.
pub(super) fn put_together<R: Abort>(rt: &R, a: Handle, b: Handle) -> Handle
    requires { b.map ≡ a.map }
    ensures { result.map ≡ a.map }
{
    let mut a = a;
    assert!(rt; a.join(b).is_ok());
    a
}

/// Ends the map of this whole handle.
fn ended<R: Wait + Abort>(rt: &R, handle: Handle) -> Ended {
    match handle.close(rt) {
        Ok(ended) => ended,
        Err(_) => panic!(rt; "all seats are here"),
    }
}

/// Whether these are the entries, in whatever order.
fn are_just(entries: &[(Key, Num)], pairs: &[(u64, u64)]) -> bool {
    for (k, n) in entries {
        if !pairs.contains(&(k.get(), n.get())) {
            return false;
        }
    }
    entries.len() == pairs.len()
}

/// Whether what is left has just these keys, each with its number, and not the key 1000.
fn has_left<R: Abort>(rt: &R, ended: &Ended, entries: &[(Key, Num)], pairs: &[(u64, u64)]) -> bool {
    for (key, number) in entries {
        if ended.get(*key) != Some(*number) || !ended.contains_key(*key) {
            return false;
        }
    }
    let absent = key(rt, 1000);
    let has_none = ended.get(absent).is_none() && !ended.contains_key(absent);
    has_none && ended.is_empty() == pairs.is_empty() && ended.size() == pairs.len() as u64
}

/// Ends the map of this whole handle. These keys are left, each with its number.
pub(super) fn leaves<R: Wait + Abort>(rt: &R, alloc: Global, handle: Handle, pairs: &[(u64, u64)]) {
    let ended = ended(rt, handle);
    let entries = match ended.entries(alloc) {
        Ok(entries) => Ok(entries),
        Err(_) => ended.entries(alloc),
    };
    let entries = entries.expect(rt, "memory");
    assert!(rt; has_left(rt, &ended, entries.as_slice(), pairs));
    assert!(rt; are_just(entries.as_slice(), pairs));
}
