//! What memory a map takes that has all keys.

use crate::crew::put_at;
use crate::faults::WorkFault;
use crate::keys::{Spacing, shuffled};
use crate::options::Options;
use crate::seats::MapSeat;
use nb_core::read_number;
use std::alloc::Global;
use std::fs;
use std::rt::Files;
use std::sync::Wait;

/// The bytes of a page of memory.
const PAGE: u64 = 4096;

/// The bytes that Linux tells by this text, whose second number is how many pages are in memory.
fn bytes_of(text: &str) -> Option<u64> {
    let word = text.split(' ').nth(1)?;
    match read_number(word.as_bytes()) {
        Ok(pages) => pages.checked_mul(PAGE),
        Err(_) => None,
    }
}

/// The bytes of this process that are in memory, if Linux tells.
fn resident<R: Files + AllocGlobal>(rt: &R) -> Option<u64> {
    match fs::read_to_string(rt, "/proc/self/statm") {
        Ok(text) => bytes_of(text.as_str()),
        Err(_) => None,
    }
}

/// Puts numbers at the keys with these places by the first of the seats, and answers the bytes of
/// this process that are in memory then, if Linux tells.
fn resident_filled<R: Wait + Files + AllocGlobal>(
    rt: &R,
    seats: &mut [MapSeat],
    spacing: Spacing,
    places: &[u32],
) -> Result<Option<u64>, WorkFault> {
    if let Some(seat) = seats.first_mut() {
        put_at(rt, seat, spacing, places)?;
    }
    Ok(resident(rt))
}

/// By how many bytes this process grows in memory while a new map is made and gets numbers at the
/// keys with these places, if Linux tells.
fn growth_of<R: Wait + Files + AllocGlobal>(
    rt: &R,
    alloc: Global,
    options: &Options,
    places: &[u32],
) -> Result<Option<u64>, WorkFault> {
    let before = resident(rt);
    let mut seats = MapSeat::open(alloc, options.shape()?)?;
    let after = resident_filled(rt, seats.as_mut_slice(), options.spacing, places)?;
    match (before, after) {
        (Some(before), Some(after)) => Ok(Some(after.saturating_sub(before))),
        _ => Ok(None),
    }
}

/// Makes a map that has all keys, and answers how many bytes more of this process are in memory
/// then, if Linux tells. It measures something only before other maps were made: their memory may
/// be taken again.
pub(crate) fn measure<R: Wait + Files + AllocGlobal>(
    rt: &R,
    alloc: Global,
    options: &Options,
) -> Result<Option<u64>, WorkFault> {
    let places = shuffled(alloc, options.keys)?;
    growth_of(rt, alloc, options, places.as_slice())
}
