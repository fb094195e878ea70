//! Writes in a core, and the steps by which a key leaves it for another one: each answer of each
//! call.
use crate::tests::Answer::*;
use crate::tests::Call::*;
use nb_core::{Key, Num, RangeFault, Shape};
use nb_map::Handle;
use nb_migration::copying::{Copied, copy, copy_and_mark, copy_on};
use nb_migration::looking::look;
use nb_migration::pieces::{
    FrozenEntry, MovedStretch, Stretch, copy_all, freeze_stretch, mark_all, move_stretch,
};
use nb_migration::settling::{close_if_absent, freeze, mark};
use nb_migration::updates::{fetch_max, fetch_min, replace};
use nb_migration::writes::{
    add, compare_exchange, get_or_insert, put, put_if_absent, remove, remove_if, replace_if,
};
use nb_migration::{CLOSED, CoreFault, FROZEN, Seen, USER_MAX, UserNumber, Written};
use std::alloc::Global;
use std::process::Abort;

/// The key, which is a small one.
fn key<R: Abort>(rt: &R, key: u64) -> Key {
    Key::new(key).expect(rt, "a key")
}

/// The number, which is in range.
fn number<R: Abort>(rt: &R, number: u64) -> Num {
    Num::new(number).expect(rt, "a number")
}

/// How many slots the first table has, as a power of two; and how many tables, seats and stripes
/// there are.
type Sizes = (u32, u32, usize, usize);

/// The whole handle of a new map of this shape.
fn opened<R: Abort>(rt: &R, alloc: Global, sizes: Sizes) -> Handle {
    let (bits, tables, seats, stripes) = sizes;
    let shape = Shape::new(bits, tables, seats, stripes).expect(rt, "a good shape");
    Handle::open(alloc, shape).expect(rt, "memory")
}

/// A call of a core at a key, with plain numbers and one try.
#[derive(Clone, Copy)]
enum Call {
    Look,
    Put(u64),
    PutIfAbsent(u64),
    GetOrInsert(u64),
    Add(u64),
    Remove,
    Replace(u64),
    ReplaceIf(u64, u64),
    RemoveIf(u64),
    Exchange(Option<u64>, Option<u64>),
    Max(u64),
    Min(u64),
    Freeze(u64),
    Mark(u64),
    Close,
    /// A put of any number of the map, as by nobody who keeps to the protocol.
    PutPlain(u64),
}

/// What a call answers.
#[derive(Clone, Copy, PartialEq, Eq)]
enum Answer {
    Came,
    Changed(u64),
    Kept(u64),
    Missing,
    Moved,
    Open(u64),
    Frozen(u64),
    Closed,
    Absent,
    Refused(CoreFault),
}

/// A key, the call at it, and its answer.
type Row = (u64, Call, Answer);

/// The number, which is one of the user's.
fn user<R: Abort>(rt: &R, number: u64) -> UserNumber {
    UserNumber::new(number).expect(rt, "a number of the user")
}

fn users<R: Abort>(rt: &R, number: Option<u64>) -> Option<UserNumber> {
    match number {
        Some(number) => Some(user(rt, number)),
        None => None,
    }
}

fn written(answer: Result<Written, CoreFault>) -> Answer {
    match answer {
        Ok(done) => told(done),
        Err(fault) => Refused(fault),
    }
}

fn told(done: Written) -> Answer {
    match done {
        Written::Came => Came,
        Written::Changed(number) => Changed(number.get()),
        Written::Kept(number) => Kept(number.get()),
        Written::Absent => Missing,
        Written::Moved => Moved,
    }
}

fn seen(seen: Seen) -> Answer {
    match seen {
        Seen::Open(number) => Open(number.get()),
        Seen::Frozen(number) => Frozen(number.get()),
        Seen::Closed => Closed,
        Seen::Absent => Absent,
    }
}

fn stepped(answer: Result<Seen, CoreFault>) -> Answer {
    match answer {
        Ok(now) => seen(now),
        Err(fault) => Refused(fault),
    }
}

/// Makes a step of settling a key, or a plain put.
fn steps<R: Abort>(rt: &R, core: &mut Handle, at: Key, call: Call) -> Answer {
    match call {
        Freeze(n) => stepped(freeze(core, at, user(rt, n), 1)),
        Mark(n) => stepped(mark(core, at, user(rt, n), 1)),
        Close => stepped(close_if_absent(core, at, 1)),
        PutPlain(n) => match core.try_put(at, number(rt, n), 1) {
            Ok(_) => Came,
            Err(_) => Missing,
        },
        _ => seen(look(core, at)),
    }
}

/// Makes the call at the key.
fn makes<R: Abort>(rt: &R, core: &mut Handle, k: u64, call: Call) -> Answer {
    let at = key(rt, k);
    match call {
        Put(n) => written(put(core, at, user(rt, n), 1)),
        PutIfAbsent(n) => written(put_if_absent(core, at, user(rt, n), 1)),
        GetOrInsert(n) => written(get_or_insert(core, at, user(rt, n), 1)),
        Add(n) => written(add(core, at, user(rt, n), 1)),
        Remove => written(remove(core, at, 1)),
        Replace(n) => written(replace(core, at, user(rt, n), 1)),
        ReplaceIf(old, new) => written(replace_if(core, at, user(rt, old), user(rt, new), 1)),
        RemoveIf(n) => written(remove_if(core, at, user(rt, n), 1)),
        Exchange(old, new) => {
            written(compare_exchange(core, at, users(rt, old), users(rt, new), 1))
        }
        Max(n) => written(fetch_max(core, at, user(rt, n), 1)),
        Min(n) => written(fetch_min(core, at, user(rt, n), 1)),
        _ => steps(rt, core, at, call),
    }
}

/// A new core of four slots, in which these calls have answered so.
fn played<R: Abort + AllocGlobal>(rt: &R, rows: &[Row]) -> Handle {
    let mut core = opened(rt, rt.alloc(), (2, 1, 1, 1));
    sees(rt, &mut core, rows);
    core
}

/// Makes these calls, which answer so.
fn sees<R: Abort>(rt: &R, core: &mut Handle, rows: &[Row]) {
    for (k, call, answer) in rows {
        assert!(rt; makes(rt, core, *k, *call) == *answer, "key {k}");
    }
}

/// Copies a number to a core.
fn copied<R: Abort>(rt: &R, core: &mut Handle, k: u64, n: u64) -> Copied {
    assert!(rt; core.shape().generations() == 1);
    copy(core, key(rt, k), user(rt, n))
}

/// Goes on with a copy, to this core.
fn copied_on<R: Abort>(
    rt: &R,
    source: &mut Handle,
    core: &mut Handle,
    k: u64,
    n: u64,
) -> Option<Copied> {
    assert!(rt; core.shape().generations() == 1);
    copy_on(source, core, key(rt, k), user(rt, n))
}

/// Where a number of the user is, or none.
const OPEN: [Row; 45] = [
    (1, Look, Absent),
    (1, Remove, Missing),
    (1, Replace(1), Missing),
    (1, ReplaceIf(1, 2), Missing),
    (1, RemoveIf(1), Missing),
    (1, Exchange(Some(1), Some(2)), Missing),
    (1, Exchange(None, None), Missing),
    (1, Put(1), Came),
    (1, Look, Open(1)),
    (1, Put(2), Changed(1)),
    (1, PutIfAbsent(3), Kept(2)),
    (1, GetOrInsert(3), Kept(2)),
    (1, Exchange(None, Some(3)), Kept(2)),
    (1, Exchange(None, None), Kept(2)),
    (1, Replace(3), Changed(2)),
    (1, Replace(3), Kept(3)),
    (1, ReplaceIf(2, 4), Kept(3)),
    (1, ReplaceIf(3, 4), Changed(3)),
    (1, RemoveIf(3), Kept(4)),
    (1, Max(3), Kept(4)),
    (1, Max(5), Changed(4)),
    (1, Min(6), Kept(5)),
    (1, Min(4), Changed(5)),
    (1, RemoveIf(4), Changed(4)),
    (1, Look, Absent),
    (1, Max(5), Came),
    (1, Remove, Changed(5)),
    (1, Min(5), Came),
    (1, Exchange(Some(5), None), Changed(5)),
    (1, Exchange(None, Some(6)), Came),
    (1, Exchange(Some(6), Some(7)), Changed(6)),
    (1, Exchange(Some(6), Some(8)), Kept(7)),
    (2, PutIfAbsent(1), Came),
    (3, GetOrInsert(1), Came),
    (2, Add(USER_MAX - 1), Changed(1)),
    (2, Look, Open(USER_MAX)),
    (2, Add(0), Changed(USER_MAX)),
    (2, Add(1), Refused(CoreFault::SumRange)),
    (2, Add(USER_MAX), Refused(CoreFault::SumRange)),
    (2, Put(USER_MAX), Changed(USER_MAX)),
    (2, Max(USER_MAX), Kept(USER_MAX)),
    (2, Remove, Changed(USER_MAX)),
    (2, Add(USER_MAX), Came),
    (2, ReplaceIf(USER_MAX, 0), Changed(USER_MAX)),
    (2, Look, Open(0)),
];

/// Where the number is frozen, or the key is closed, each write goes on.
const MOVED: [Row; 48] = [
    (1, Put(5), Came),
    (1, Freeze(4), Open(5)),
    (1, Mark(5), Open(5)),
    (1, Close, Open(5)),
    (1, Freeze(5), Frozen(5)),
    (1, Look, Frozen(5)),
    (1, Put(1), Moved),
    (1, PutIfAbsent(1), Moved),
    (1, GetOrInsert(1), Moved),
    (1, Add(1), Moved),
    (1, Add(0), Moved),
    (1, Remove, Moved),
    (1, Replace(1), Moved),
    (1, ReplaceIf(5, 1), Moved),
    (1, RemoveIf(5), Moved),
    (1, Exchange(Some(5), None), Moved),
    (1, Exchange(None, Some(5)), Moved),
    (1, Max(USER_MAX), Moved),
    (1, Min(0), Moved),
    (1, Freeze(5), Frozen(5)),
    (1, Mark(4), Frozen(5)),
    (1, Close, Frozen(5)),
    (1, Mark(5), Closed),
    (1, Look, Closed),
    (1, Put(1), Moved),
    (1, PutIfAbsent(1), Moved),
    (1, GetOrInsert(1), Moved),
    (1, Add(1), Moved),
    (1, Remove, Moved),
    (1, Replace(1), Moved),
    (1, ReplaceIf(5, 1), Moved),
    (1, RemoveIf(5), Moved),
    (1, Exchange(Some(5), None), Moved),
    (1, Exchange(None, None), Moved),
    (1, Max(1), Moved),
    (1, Min(1), Moved),
    (1, Freeze(5), Closed),
    (1, Mark(5), Closed),
    (1, Close, Closed),
    (2, Freeze(5), Absent),
    (2, Mark(5), Absent),
    (2, Close, Closed),
    (3, Put(USER_MAX), Came),
    (3, Freeze(USER_MAX), Frozen(USER_MAX)),
    (3, Mark(USER_MAX), Closed),
    (0, PutPlain(FROZEN - 1), Came),
    (0, Look, Closed),
    (0, Put(1), Moved),
];

/// A full core refuses what puts a number at a key without a slot, and nothing else.
const FULL: [Row; 19] = [
    (0, Put(10), Came),
    (1, Put(11), Came),
    (2, PutPlain(CLOSED), Came),
    (3, PutPlain(FROZEN), Came),
    (2, Look, Closed),
    (3, Look, Frozen(0)),
    (4, Put(1), Refused(CoreFault::Full)),
    (4, PutIfAbsent(1), Refused(CoreFault::Full)),
    (4, GetOrInsert(1), Refused(CoreFault::Full)),
    (4, Add(1), Refused(CoreFault::Full)),
    (4, Exchange(None, Some(1)), Refused(CoreFault::Full)),
    (4, Max(1), Refused(CoreFault::Full)),
    (4, Min(1), Refused(CoreFault::Full)),
    (4, Close, Refused(CoreFault::Full)),
    (4, Remove, Missing),
    (4, Replace(1), Missing),
    (4, RemoveIf(1), Missing),
    (4, Freeze(1), Absent),
    (1, Put(12), Changed(11)),
];

#[test]
fn writes_in_a_core(rt: HostRuntime) {
    let _ = played(&rt, &OPEN);
}

#[test]
fn keys_leave_a_core(rt: HostRuntime) {
    let _ = played(&rt, &MOVED);
}

#[test]
fn full_core(rt: HostRuntime) {
    let _ = played(&rt, &FULL);
}

/// What is in the core that copies come to.
const BEHIND: [Row; 4] = [
    (1, Close, Closed),
    (2, Put(7), Came),
    (3, Put(8), Came),
    (3, Remove, Changed(8)),
];

/// A copy comes where the key never had a number, and nowhere else.
#[test]
fn copies(rt: HostRuntime) {
    let mut core = played(&rt, &BEHIND);
    assert!(rt; copied(&rt, &mut core, 1, 5) == Copied::Closed);
    assert!(rt; copied(&rt, &mut core, 2, 5) == Copied::HadNumber);
    assert!(rt; copied(&rt, &mut core, 3, 5) == Copied::HadNumber);
    assert!(rt; copied(&rt, &mut core, 4, 5) == Copied::Came);
    assert!(rt; copied(&rt, &mut core, 4, 6) == Copied::HadNumber);
    assert!(rt; copied(&rt, &mut core, 5, 5) == Copied::Full);
    let left = [
        (1, Look, Closed),
        (2, Look, Open(7)),
        (3, Look, Absent),
        (4, Look, Open(5)),
        (4, Freeze(5), Frozen(5)),
    ];
    sees(&rt, &mut core, &left);
    assert!(rt; copied(&rt, &mut core, 4, 5) == Copied::HadNumber);
}

/// A copy goes on only where its number is frozen in its source.
#[test]
fn copies_that_go_on(rt: HostRuntime) {
    let mut source = played(&rt, &[(1, Put(5), Came)]);
    let mut core = played(&rt, &[]);
    assert!(rt; copied_on(&rt, &mut source, &mut core, 1, 5).is_none());
    sees(&rt, &mut source, &[(1, Freeze(5), Frozen(5))]);
    assert!(rt; copied_on(&rt, &mut source, &mut core, 1, 4).is_none());
    sees(&rt, &mut core, &[(1, Look, Absent)]);
    assert!(rt; copied_on(&rt, &mut source, &mut core, 1, 5) == Some(Copied::Came));
    sees(&rt, &mut source, &[(1, Mark(5), Closed)]);
    assert!(rt; copied_on(&rt, &mut source, &mut core, 1, 5).is_none());
    sees(&rt, &mut core, &[(1, Look, Open(5))]);
}

/// Copies a number to a core, and marks its source.
fn moved<R: Abort>(
    rt: &R,
    source: &mut Handle,
    core: &mut Handle,
    k: u64,
    n: u64,
) -> Result<Copied, CoreFault> {
    assert!(rt; core.shape().generations() == 1);
    copy_and_mark(source, core, key(rt, k), user(rt, n), 1)
}

/// The numbers of four keys, frozen.
const ALL_FROZEN: [Row; 8] = [
    (1, Put(5), Came),
    (2, Put(5), Came),
    (3, Put(5), Came),
    (4, Put(5), Came),
    (1, Freeze(5), Frozen(5)),
    (2, Freeze(5), Frozen(5)),
    (3, Freeze(5), Frozen(5)),
    (4, Freeze(5), Frozen(5)),
];

/// A source is marked where its number has come, or had come before, and nowhere else.
#[test]
fn copies_and_marks(rt: HostRuntime) {
    let mut source = played(&rt, &ALL_FROZEN);
    let mut core = played(&rt, &BEHIND);
    assert!(rt; moved(&rt, &mut source, &mut core, 1, 5) == Ok(Copied::Closed));
    assert!(rt; moved(&rt, &mut source, &mut core, 2, 5) == Ok(Copied::HadNumber));
    assert!(rt; moved(&rt, &mut source, &mut core, 3, 5) == Ok(Copied::HadNumber));
    sees(&rt, &mut core, &[(5, Put(1), Came)]);
    assert!(rt; moved(&rt, &mut source, &mut core, 4, 5) == Ok(Copied::Full));
    let left = [
        (1, Look, Frozen(5)),
        (2, Look, Closed),
        (3, Look, Closed),
        (4, Look, Frozen(5)),
    ];
    sees(&rt, &mut source, &left);
    let mut core = played(&rt, &[]);
    assert!(rt; moved(&rt, &mut source, &mut core, 4, 5) == Ok(Copied::Came));
    assert!(rt; moved(&rt, &mut source, &mut core, 4, 5) == Ok(Copied::HadNumber));
    sees(&rt, &mut source, &[(4, Look, Closed)]);
}

/// What refusals say.
#[test]
fn core_faults(rt: HostRuntime) {
    let mut said = String::new(rt.alloc());
    for fault in [CoreFault::Full, CoreFault::Contended, CoreFault::SumRange] {
        writeln!(said, "{fault}").expect(&rt, "memory");
    }
    let text = "the core is full\nother writes of the key came first\nsum too large\n";
    assert!(rt; said.as_str() == text);
}

/// Other numbers than the user's are refused.
#[test]
fn numbers_of_the_user(rt: HostRuntime) {
    assert!(rt; UserNumber::new(USER_MAX).is_ok());
    assert!(rt; UserNumber::new(USER_MAX + 1) == Err(RangeFault::ValueRange));
    assert!(rt; UserNumber::new(FROZEN) == Err(RangeFault::ValueRange));
    assert!(rt; UserNumber::new(CLOSED) == Err(RangeFault::ValueRange));
}

/// An entry of a list as plain numbers: its key, its number and its slot.
type Listed = (u64, u64, usize);

/// Whether these entries are listed first.
fn lists(list: &[FrozenEntry; 4], entries: &[Listed]) -> bool {
    list.iter().zip(entries.iter()).all(|(found, entry)| (
        found.key.get(),
        found.number.get(),
        found.slot,
    ) == *entry)
}

/// The entry of these numbers.
fn entry<R: Abort>(rt: &R, plain: Listed) -> FrozenEntry {
    FrozenEntry {
        key: key(rt, plain.0),
        number: user(rt, plain.1),
        slot: plain.2,
    }
}

/// Freezes four slots at most, from this one on: so many are done, and these entries are listed.
fn freezes<R: Abort>(rt: &R, core: &mut Handle, first: usize, passed: usize, entries: &[Listed]) {
    assert!(rt; core.shape().generations() == 1);
    let mut list = [entry(rt, (9, 9, 9)); 4];
    let listed = entries.len();
    assert!(rt; freeze_stretch(core, first, &mut list, 1) == Stretch { passed, listed });
    assert!(rt; lists(&list, entries));
}

/// A number of the user, one that is frozen, a removed one, and another number, each at its home slot.
const STRETCH: [Row; 7] = [
    (0, Put(10), Came),
    (1, Put(11), Came),
    (1, Freeze(11), Frozen(11)),
    (2, Put(12), Came),
    (2, Remove, Changed(12)),
    (3, Put(13), Came),
    (3, Close, Open(13)),
];

/// A stretch ends at the table's end. What is frozen is listed, also what was before.
#[test]
fn stretches(rt: HostRuntime) {
    let mut core = played(&rt, &STRETCH);
    freezes(&rt, &mut core, 4, 0, &[]);
    freezes(&rt, &mut core, 2, 2, &[(3, 13, 3)]);
    sees(
        &rt,
        &mut core,
        &[(3, Mark(13), Closed), (0, Look, Open(10))],
    );
    let entries = [(0, 10, 0), (1, 11, 1)];
    freezes(&rt, &mut core, 0, 4, &entries);
    freezes(&rt, &mut core, 0, 4, &entries);
    sees(
        &rt,
        &mut core,
        &[(0, Look, Frozen(10)), (2, Look, Absent), (3, Look, Closed)],
    );
    let mut empty = played(&rt, &[(1, Put(1), Came)]);
    freezes(&rt, &mut empty, 0, 4, &[(1, 1, 1)]);
}

/// Entries of a list are copied in their order, and those are marked that have come, or had come.
/// An entry with another key's slot, or with none of the core's, is marked as well.
#[test]
fn lists_move(rt: HostRuntime) {
    let mut source = played(&rt, &ALL_FROZEN);
    let mut core = played(&rt, &BEHIND);
    assert!(rt; source.shape().generations() == 1 && core.shape().generations() == 1);
    let list = [(1, 5, 1), (2, 5, 3), (3, 5, 4), (4, 5, 0)];
    let entries = [
        entry(&rt, list[0]),
        entry(&rt, list[1]),
        entry(&rt, list[2]),
        entry(&rt, list[3]),
    ];
    let mut answers = [Copied::Full; 4];
    copy_all(&mut core, &entries, &mut answers);
    let told = [
        Copied::Closed,
        Copied::HadNumber,
        Copied::HadNumber,
        Copied::Came,
    ];
    assert!(rt; answers == told);
    assert!(rt; mark_all(&mut source, &entries, &[Copied::Full; 4], 1) == 4);
    sees(
        &rt,
        &mut source,
        &[(2, Look, Frozen(5)), (4, Look, Frozen(5))],
    );
    assert!(rt; source.shape().generations() == 1);
    assert!(rt; mark_all(&mut source, &entries, &answers, 1) == 4);
    let left = [
        (1, Look, Frozen(5)),
        (2, Look, Closed),
        (3, Look, Closed),
        (4, Look, Closed),
    ];
    sees(&rt, &mut source, &left);
}

/// A stretch is frozen, copied and marked by one call.
#[test]
fn stretches_move(rt: HostRuntime) {
    let mut source = played(&rt, &STRETCH);
    let mut core = played(&rt, &[(1, Close, Closed)]);
    assert!(rt; source.shape().generations() == 1 && core.shape().generations() == 1);
    let mut list = [entry(&rt, (9, 9, 9)); 4];
    let mut answers = [Copied::Full; 4];
    let moved = move_stretch(&mut source, &mut core, 0, &mut list, &mut answers, 1);
    let stretch = Stretch {
        passed: 4,
        listed: 3,
    };
    assert!(rt; moved == MovedStretch { stretch, marked: 3 });
    assert!(rt; lists(&list, &[(0, 10, 0), (1, 11, 1), (3, 13, 3)]));
    assert!(rt; answers == [Copied::Came, Copied::Closed, Copied::Came, Copied::Full]);
    let left = [
        (0, Look, Closed),
        (1, Look, Frozen(11)),
        (2, Look, Absent),
        (3, Look, Closed),
    ];
    sees(&rt, &mut source, &left);
    sees(
        &rt,
        &mut core,
        &[(0, Look, Open(10)), (1, Look, Closed), (3, Look, Open(13))],
    );
}
