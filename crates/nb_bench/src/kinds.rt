//! Calls of one kind, one after another, each at its key's home slot: what a call of each kind
//! takes. The loops have the map and its seat apart, so that a call loads nothing more than it needs.
ghost use Rattle.nb_map.specs.Maps.{IsMine};

use crate::faults::{WorkFault, Wrong};
use crate::keys::{KEY_COUNT, Spacing, number, shuffled};
use crate::options::Options;
use crate::seats::MapSeat;
use crate::timing::{Watch, nanoseconds_since, now};
use nb_core::Num;
use nb_map::{Map, Seat};
use std::alloc::Global;
use std::rt::Clock;
use std::sync::Wait;

/// The sum of the places of all keys, and so of the numbers that are put at them.
const PLACES_SUM: u64 = 2_147_450_880;

/// A kind of call, at a key in a state.
#[derive(Clone, Copy)]
pub(crate) enum Kind {
    /// A put at a key that has no slot yet.
    PutNew,
    /// A put at a key that has a number.
    Put,
    /// A get of a key that has a number.
    Get,
    /// An add at a key that has a number.
    Add,
    /// A removal of a key that has a number.
    Remove,
    /// A get of a key that was removed.
    GetNone,
}

impl Kind {
    /// All kinds, in an order in which each leaves the keys as the next one wants them.
    pub(crate) const ALL: [Kind; 6] = [
        Kind::PutNew,
        Kind::Put,
        Kind::Get,
        Kind::Add,
        Kind::Remove,
        Kind::GetNone,
    ];

    /// Its name in what is printed.
    pub(crate) fn name(self) -> &'static str {
        match self {
            Kind::PutNew => "put-new",
            Kind::Put => "put",
            Kind::Get => "get",
            Kind::Add => "add",
            Kind::Remove => "remove",
            Kind::GetNone => "get-none",
        }
    }
}

/// Puts a number at each of the keys.
#[inline(never)]
fn put_all<R: Wait>(
    rt: &R,
    map: &Map,
    seat: &mut Seat,
    spacing: Spacing,
    places: &[u32],
) -> Result<(), WorkFault>
    requires own { IsMine map.now seat.old }
    ensures own { IsMine map.now seat.new }
{
    for place in places {
        let before = map.put(rt, seat, spacing.key(*place), number(*place));
        if before.is_err() {
            return Err(WorkFault::Full);
        }
    }
    Ok(())
}

/// Puts at each of the keys the number of its neighbour. A put of the number that is there would
/// change nothing.
#[inline(never)]
fn put_other<R: Wait>(
    rt: &R,
    map: &Map,
    seat: &mut Seat,
    spacing: Spacing,
    places: &[u32],
) -> Result<(), WorkFault>
    requires own { IsMine map.now seat.old }
    ensures own { IsMine map.now seat.new }
{
    for place in places {
        let before = map.put(rt, seat, spacing.key(*place), number(*place ^ 1));
        if before.is_err() {
            return Err(WorkFault::Full);
        }
    }
    Ok(())
}

/// Gets each of the keys, and answers the sum of what they have.
#[inline(never)]
fn get_all(map: &Map, seat: &mut Seat, spacing: Spacing, places: &[u32]) -> u64
    requires own { IsMine map.now seat.old }
    ensures own { IsMine map.now seat.new }
{
    let mut sum = 0u64;
    for place in places {
        let found = map.get(seat, spacing.key(*place));
        sum = sum.wrapping_add(found.map_or(0, Num::get));
    }
    sum
}

/// Adds at each of the keys.
#[inline(never)]
fn add_all<R: Wait>(
    rt: &R,
    map: &Map,
    seat: &mut Seat,
    spacing: Spacing,
    places: &[u32],
) -> Result<(), WorkFault>
    requires own { IsMine map.now seat.old }
    ensures own { IsMine map.now seat.new }
{
    for place in places {
        if map.add(rt, seat, spacing.key(*place), number(1)).is_err() {
            return Err(WorkFault::Full);
        }
    }
    Ok(())
}

/// Takes out each of the keys.
#[inline(never)]
fn remove_all<R: Wait>(rt: &R, map: &Map, seat: &mut Seat, spacing: Spacing, places: &[u32])
    requires own { IsMine map.now seat.old }
    ensures own { IsMine map.now seat.new }
{
    for place in places {
        map.remove(rt, seat, spacing.key(*place));
    }
}

/// Makes a call of the kind at each of the keys, and answers the sum of what they read.
fn call_all<R: Wait>(
    rt: &R,
    map: &Map,
    seat: &mut Seat,
    spacing: Spacing,
    places: &[u32],
    kind: Kind,
) -> Result<u64, WorkFault>
    requires own { IsMine map.now seat.old }
    ensures own { IsMine map.now seat.new }
{
    match kind {
        Kind::PutNew => put_all(rt, map, seat, spacing, places)?,
        Kind::Put => put_other(rt, map, seat, spacing, places)?,
        Kind::Get | Kind::GetNone => return Ok(get_all(map, seat, spacing, places)),
        Kind::Add => add_all(rt, map, seat, spacing, places)?,
        Kind::Remove => remove_all(rt, map, seat, spacing, places),
    }
    Ok(0)
}

/// Makes a call of the kind at each of the keys, and answers how long they took together, and the
/// sum of what they read.
fn time_all<R: Wait + Clock>(
    rt: &R,
    own: &mut MapSeat,
    spacing: Spacing,
    places: &[u32],
    kind: Kind,
) -> Result<(u64, u64), WorkFault> {
    let start = now(rt)?;
    let sum = call_all(rt, &own.map, &mut own.seat, spacing, places, kind)?;
    Ok((nanoseconds_since(rt, start)?, sum))
}

/// Makes calls of all kinds, and answers how long those of each kind took.
fn time_kinds<R: Wait + Clock>(
    rt: &R,
    seat: &mut MapSeat,
    spacing: Spacing,
    places: &[u32],
) -> Result<[u64; 6], WorkFault> {
    let mut times = [0; 6];
    for (kind, time) in Kind::ALL.iter().zip(times.iter_mut()) {
        let (taken, sum) = time_all(rt, seat, spacing, places, *kind)?;
        let wanted = match kind {
            Kind::Get => PLACES_SUM,
            _ => 0,
        };
        if sum != wanted {
            return Err(WorkFault::Wrong(Wrong::Sum));
        }
        *time = taken;
    }
    Ok(times)
}

/// Makes calls of all kinds on a new map, by the first of its seats.
fn time_once<R: Wait + Clock>(
    rt: &R,
    alloc: Global,
    options: &Options,
    places: &[u32],
) -> Result<[u64; 6], WorkFault> {
    let mut seats = MapSeat::open(alloc, options.shape()?)?;
    match seats.first_mut() {
        Some(seat) => time_kinds(rt, seat, options.spacing, places),
        None => Ok([u64::MAX; 6]),
    }
}

/// Keeps the shorter of each two times.
fn keep_shorter(times: &mut [u64; 6], taken: &[u64; 6]) {
    for (time, taken) in times.iter_mut().zip(taken.iter()) {
        *time = (*taken).min(*time);
    }
}

/// Makes calls of all kinds on new maps, again and again until the time is up. Where a kind took
/// less time than before, that is its time.
fn time_rounds<R: Wait + Clock + Eprint>(
    rt: &R,
    alloc: Global,
    options: &Options,
    places: &[u32],
    times: &mut [u64; 6],
) -> Result<(), WorkFault> {
    let mut watch = Watch::start(rt, options.time, options.progress)?;
    for _round in 0..u64::MAX {
        let taken = time_once(rt, alloc, options, places)?;
        keep_shorter(times, &taken);
        if watch.is_over(rt)? {
            break;
        }
    }
    Ok(())
}

/// Makes calls of all kinds at all keys in new maps, again and again until the time is up. It
/// answers the shortest time of each kind.
pub(crate) fn measure<R: Wait + Clock + Eprint>(
    rt: &R,
    alloc: Global,
    options: &Options,
) -> Result<[u64; 6], WorkFault> {
    let places = shuffled(alloc, KEY_COUNT)?;
    let mut times = [u64::MAX; 6];
    time_rounds(rt, alloc, options, places.as_slice(), &mut times)?;
    Ok(times)
}
