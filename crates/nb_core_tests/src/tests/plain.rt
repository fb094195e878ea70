//! The plain map.
use super::plain::Ask::{Absent, Any, Below, Equal, Present};
use super::plain::Make::{Add, Put, Remove};
use nb_core::{Change, KEY_MAX, Key, Num, PlainFault, PlainMap, Reply, VALUE_MAX, Want};
use std::alloc::Global;
use std::process::Abort;

/// What a write asks of the number that it finds.
#[derive(Clone, Copy)]
enum Ask {
    Any,
    Absent,
    Present,
    Equal(u32),
    Below(u32),
}

/// What a write makes of the number.
#[derive(Clone, Copy)]
enum Make {
    Put(u32),
    Remove,
    Add(u64),
}

/// A key, a write at it, and what was there, and whether it is what was asked for; or a refusal.
type Row = (u64, Ask, Make, Result<(Option<u64>, bool), PlainFault>);

/// Makes a write, and answers whether the reply is the row's.
fn is_made<R: Abort>(rt: &R, map: &mut PlainMap, row: &Row) -> bool {
    let (k, ask, make, due) = *row;
    let want = match ask {
        Any => Want::Any,
        Absent => Want::Absent,
        Present => Want::Present,
        Equal(n) => Want::Equal(Num::from(n)),
        Below(n) => Want::Below(Num::from(n)),
    };
    let change = match make {
        Put(n) => Change::Put(Num::from(n)),
        Remove => Change::Remove,
        Add(n) => Change::Add(Num::new(n).expect(rt, "a number")),
    };
    match map.apply(Key::new(k).expect(rt, "a key"), want, change) {
        Ok(reply) => due == Ok((reply.before.map(Num::get), reply.matched)),
        Err(fault) => due == Err(fault),
    }
}

/// A new map makes these writes, and has these entries then, which ascend.
fn plays<R: Abort>(rt: &R, alloc: Global, rows: &[Row], left: &[(u64, u64)]) {
    let mut map = PlainMap::new(alloc);
    for i in 0..rows.len() {
        assert!(rt; is_made(rt, &mut map, &rows[i]), "row {i}");
    }
    let entries = map.entries(alloc).expect(rt, "memory");
    assert!(rt; map.len() == left.len());
    are(rt, &map, entries.as_slice(), left);
}

/// These are the entries, and the map has each of them.
fn are<R: Abort>(rt: &R, map: &PlainMap, entries: &[(Key, Num)], left: &[(u64, u64)]) {
    assert!(rt; entries.len() == left.len());
    for i in 0..left.len() {
        let (key, number) = entries[i];
        assert!(rt; (key.get(), number.get()) == left[i] && map.get(key) == Some(number));
    }
}

/// Keys come in no order.
const PLAIN_MAP: [Row; 4] = [
    (1, Any, Put(5), Ok((None, true))),
    (1, Equal(6), Remove, Ok((Some(5), false))),
    (KEY_MAX, Any, Put(6), Ok((None, true))),
    (0, Any, Put(5), Ok((None, true))),
];

const CONDITIONAL_CALLS: [Row; 16] = [
    (5, Present, Put(1), Ok((None, false))),
    (5, Equal(1), Put(2), Ok((None, false))),
    (5, Absent, Put(1), Ok((None, true))),
    (5, Absent, Put(2), Ok((Some(1), false))),
    (5, Present, Put(3), Ok((Some(1), true))),
    (5, Equal(1), Put(4), Ok((Some(3), false))),
    (5, Equal(3), Put(4), Ok((Some(3), true))),
    (5, Equal(3), Remove, Ok((Some(4), false))),
    (5, Equal(4), Remove, Ok((Some(4), true))),
    (5, Equal(4), Remove, Ok((None, false))),
    (5, Any, Remove, Ok((None, true))),
    (5, Below(1), Put(2), Ok((None, true))),
    (5, Below(2), Put(4), Ok((Some(2), false))),
    (5, Below(3), Add(1), Ok((Some(2), true))),
    (5, Below(2), Remove, Ok((Some(3), false))),
    (5, Below(4), Remove, Ok((Some(3), true))),
];

/// The fourth add would pass the greatest number. It is refused, and changes nothing.
const ADDS: [Row; 6] = [
    (1, Any, Add(5), Ok((None, true))),
    (1, Any, Add(6), Ok((Some(5), true))),
    (1, Any, Add(VALUE_MAX - 11), Ok((Some(11), true))),
    (1, Any, Add(1), Err(PlainFault::ValueRange)),
    (1, Any, Add(0), Ok((Some(VALUE_MAX), true))),
    (2, Any, Add(0), Ok((None, true))),
];

/// The rows plain_map, conditional_calls and adds.
#[test]
fn writes(rt: HostRuntime) {
    plays(&rt, rt.alloc(), &PLAIN_MAP, &[(0, 5), (1, 5), (KEY_MAX, 6)]);
    plays(&rt, rt.alloc(), &CONDITIONAL_CALLS, &[]);
    plays(&rt, rt.alloc(), &ADDS, &[(1, VALUE_MAX), (2, 0)]);
}

// The map has just the keys below `count`, each with itself as its number.
fn assert_counts_to(rt: &impl Abort, map: &PlainMap, count: u32) {
    assert!(rt; map.len() == count as usize);
    for word in 0..150_u32 {
        let found = (word < count).then_some(Num::from(word));
        assert!(rt; map.get(Key::from(word)) == found, "of {word}");
    }
}

// A plain run refuses nothing. `rt try --test --fail-alloc N -- refused_memory` refuses the Nth
// allocation: up to 21 a write is refused, at 22 the entries are, and past that nothing is.
#[test]
fn refused_memory(rt: HostRuntime) {
    let mut map = PlainMap::new(rt.alloc());
    for count in 0..150_u32 {
        let (key, number) = (Key::from(count), Num::from(count));
        let mut reply = map.apply(key, Want::Any, Change::Put(number));
        if reply == Err(PlainFault::OutOfMemory) {
            assert_counts_to(&rt, &map, count);
            reply = map.apply(key, Want::Any, Change::Put(number));
        }
        let (before, matched) = (None, true);
        assert!(rt; reply == Ok(Reply { before, matched }));
    }
    let listed = match map.entries(rt.alloc()) {
        Ok(entries) => Ok(entries),
        Err(_) => map.entries(rt.alloc()),
    };
    assert!(rt; listed.expect(&rt, "memory").len() == 150);
    assert_counts_to(&rt, &map, 150);
}
