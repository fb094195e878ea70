//! The map without an end beside a plain map, through dozens of renewals, and where memory is
//! refused.
use super::super::rows::Answer::Is;
use super::super::rows::Call::*;
use super::super::rows::{Answer, Call, number, was};
use super::named::{BY_NAME, added, grown};
use nb_core::{Change, Key, Num, PlainFault, PlainMap, Want};
use nb_lasting::{GrowFault, Lasting, WriteFault};
use std::alloc::Global;
use std::process::Abort;
use std::sync::Wait;

/// An empty map that is made anew soon, also where one request for memory is refused.
fn opened<R: Abort>(rt: &R, alloc: Global) -> Lasting {
    for _attempt in 0..2 {
        if let Ok(lasting) = Lasting::open(alloc, 0) {
            return lasting;
        }
    }
    panic!(rt; "memory")
}

/// Both maps reply the same, and have the same at the key then.
fn both<R: Abort>(rt: &R, lasting: &mut Lasting, plain: &mut PlainMap, key: Key, chance: u64) {
    let (want, change) = write_of(chance);
    let due = plain.apply(key, want, change);
    match lasting.put_if_match(key, want, change) {
        Ok(reply) => assert!(rt; due == Ok(reply)),
        Err(fault) => {
            assert!(rt; fault == WriteFault::ValueRange && due == Err(PlainFault::ValueRange))
        }
    }
    let found = lasting.get(key);
    assert!(rt; found == plain.get(key));
}

/// A write that comes with a number by chance.
fn write_of(chance: u64) -> (Want, Change) {
    let number = Num::from((chance >> 20 & 3) as u32);
    match chance >> 60 {
        0..=4 => (Want::Any, Change::Put(number)),
        5 => (Want::Absent, Change::Put(number)),
        6 => (Want::Present, Change::Put(number)),
        7 => (Want::Equal(number), Change::Put(Num::from(9_u32))),
        8..=12 => (Want::Any, Change::Remove),
        13 => (Want::Equal(number), Change::Remove),
        _ => (Want::Any, Change::Add(number)),
    }
}

/// In the end both have the same entries.
fn same_end<R: Abort + Wait>(rt: &R, alloc: Global, lasting: Lasting, plain: &PlainMap) {
    let ended = lasting.close(rt);
    assert!(rt; ended.size() == plain.len() as u64);
    let (Ok(entries), Ok(due)) = (ended.entries(alloc), plain.entries(alloc)) else {
        panic!(rt; "memory");
    };
    assert!(rt; entries.as_slice() == due.as_slice());
}

/// Whatever is called, the map replies as a plain one.
#[test]
fn replies_as_a_plain_map(rt: HostRuntime) {
    let mut lasting = opened(&rt, rt.alloc());
    let mut plain = PlainMap::new(rt.alloc());
    let mut chance = 1_u64;
    for _ in 0..30_000_u32 {
        chance = chance
            .wrapping_mul(6364136223846793005)
            .wrapping_add(1442695040888963407);
        let key = Key::from((chance >> 33) as u32 % 3000);
        both(&rt, &mut lasting, &mut plain, key, chance);
    }
    same_end(&rt, rt.alloc(), lasting, &plain);
}

/// Ten keys at a time, and 40,000 in all, come and go in tables of 2^10 slots: the map is made anew
/// dozens of times.
#[test]
fn renewed_dozens_of_times(rt: HostRuntime) {
    let mut lasting = opened(&rt, rt.alloc());
    for word in 10..40_010_u32 {
        assert!(rt; lasting.put(Key::from(word), Num::from(word)) == Ok(None));
        let gone = lasting.remove(Key::from(word - 10));
        assert!(rt; gone.is_some() == (word >= 20));
    }
    assert!(rt; lasting.size() == Ok(10));
}

/// A map that was made for few keys takes many.
#[test]
fn grows(rt: HostRuntime) {
    let mut lasting = opened(&rt, rt.alloc());
    for word in 0..100_000_u32 {
        assert!(rt; lasting.put(Key::from(word), Num::from(word)) == Ok(None));
    }
    for word in 0..100_000_u32 {
        assert!(rt; lasting.get(Key::from(word)) == Some(Num::from(word)));
    }
    match lasting.entries() {
        Ok(entries) => assert!(rt; entries.len() == 100_000),
        Err(_) => panic!(rt; "memory"),
    }
}

/// Makes a call of the key 7.
fn makes<R: Abort>(rt: &R, lasting: &mut Lasting, call: Call) -> Answer {
    let at = Key::from(7_u32);
    match call {
        Get => was(lasting.get(at)),
        Put(n) => grown(lasting.put(at, number(rt, n))),
        PutIfAbsent(n) => grown(lasting.put_if_absent(at, number(rt, n))),
        Replace(n) => was(lasting.replace(at, number(rt, n))),
        ReplaceIf(old, new) => Is(lasting.replace_if(at, number(rt, old), number(rt, new))),
        Add(n) => added(lasting.add(at, number(rt, n))),
        Remove => was(lasting.remove(at)),
        RemoveIf(n) => Is(lasting.remove_if(at, number(rt, n))),
        _ => panic!(rt; "this is another call"),
    }
}

/// Each call by its name. In the end the map is empty.
#[test]
fn calls_by_name(rt: HostRuntime) {
    let mut lasting = opened(&rt, rt.alloc());
    for (call, answer) in &BY_NAME {
        assert!(rt; makes(&rt, &mut lasting, *call) == *answer);
    }
    assert!(rt; lasting.close(&rt).is_empty());
}

/// Puts a key that is absent, again where memory was refused: then it is absent still.
fn put_again<R: Abort>(rt: &R, lasting: &mut Lasting, word: u32) {
    let (key, number) = (Key::from(word), Num::from(word));
    let found = lasting.put(key, number);
    if found == Err(GrowFault::OutOfMemory) {
        assert!(rt; lasting.get(key).is_none());
        assert!(rt; lasting.put(key, number) == Ok(None));
        return;
    }
    assert!(rt; found == Ok(None));
}

/// Whichever one request for memory is refused, the map goes on: the write that was refused is made
/// again (`rt try --test --fail-alloc N -- refused_memory`).
#[test]
fn refused_memory(rt: HostRuntime) {
    let mut lasting = opened(&rt, rt.alloc());
    for word in 0..300_u32 {
        put_again(&rt, &mut lasting, word);
    }
    for word in 0..300_u32 {
        assert!(rt; lasting.get(Key::from(word)) == Some(Num::from(word)));
    }
    assert!(rt; lasting.size() == Ok(300) || lasting.size() == Ok(300));
    assert!(rt; lasting.close(&rt).size() == 300);
}

/// Maps may go to other threads.
#[test]
fn maps_of_threads(rt: HostRuntime) {
    let Ok(mut maps) = vec![in rt.alloc(); opened(&rt, rt.alloc()), opened(&rt, rt.alloc())] else {
        panic!(rt; "memory");
    };
    std::thread::for_each_mut(
        &rt,
        maps.as_mut_slice(),
        2,
        &|_, map: &mut Lasting| {
            let _ = map.put(Key::from(1_u32), Num::from(2_u32));
        },
    );
    for map in maps {
        assert!(rt; map.close(&rt).size() == 1);
    }
}
