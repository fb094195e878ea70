//! The keys that workloads call at.

use crate::random::{Random, scattered};
use nb_core::{Key, Num, OutOfMemory};
use std::alloc::Global;

/// How many keys most workloads have, if the options don't say.
pub(crate) const KEY_COUNT: u32 = 65_536;

/// How many draws by zipf's law are made before the clock starts.
pub(crate) const SAMPLE_COUNT: u64 = 1 << 20;

/// Which numbers the keys are.
#[derive(Clone, Copy)]
pub(crate) enum Spacing {
    /// The numbers from 0 on. In a table with as many slots each of them is at home.
    Dense,
    /// Numbers from all over the range, no two the same.
    Spread,
}

impl Spacing {
    /// The key with this place among all keys.
    #[inline]
    pub(crate) fn key(self, place: u32) -> Key {
        let place = u64::from(place);
        let number = match self {
            Spacing::Dense => place,
            // Without its lowest bit the scattered place is still no other's: `.ci/programs`
            // sees that.
            Spacing::Spread => scattered(place) >> 1,
        };
        Key::new(number).unwrap()
    }
}

/// How often each key is drawn.
#[derive(Clone, Copy)]
pub(crate) enum Law {
    /// Each as often as any other.
    Even,
    /// By zipf's law with exponent 1: the key of rank r, from 1 on, in proportion to 1 / r.
    Zipf,
}

/// A value number.
#[inline]
pub(crate) fn number(value: u32) -> Num {
    Num::new(u64::from(value)).unwrap()
}

/// The places below `count`, from 0 on.
pub(crate) fn in_order(alloc: Global, count: u32) -> Result<Vec<u32>, OutOfMemory> {
    let mut places = Vec::with_capacity(alloc, count as usize)?;
    for place in 0..count {
        places.push(place)?;
    }
    Ok(places)
}

/// The same places in an order that looks random and is the same in each run.
fn mixed_up(places: Vec<u32>) -> Vec<u32> {
    let mut places = places;
    let mut random = Random::new(999);
    for settled in (1..places.len()).rev() {
        let other = (random.draw() % (settled as u64 + 1)) as usize;
        places.swap(settled, other);
    }
    places
}

/// The places below `count`, in an order that looks random and is the same in each run.
pub(crate) fn shuffled(alloc: Global, count: u32) -> Result<Vec<u32>, OutOfMemory> {
    Ok(mixed_up(in_order(alloc, count)?))
}

/// The place of the key of a rank, from 0 on: by turns the next one from the front and the next one
/// from the end. So of the keys that are often drawn, half are in the first half.
fn ranked(places: &[u32], rank: usize) -> u32 {
    let at = if rank % 2 == 0 {
        rank / 2
    } else {
        places.len().wrapping_sub(1).wrapping_sub(rank / 2)
    };
    places.get(at).copied().unwrap_or(0)
}

/// How often the key of a rank, from 0 on, is drawn, in proportion to the others.
fn share_of(rank: usize) -> u64 {
    (1 << 36) / (rank as u64).wrapping_add(1).max(1)
}

/// The shares of the first `count` ranks in all. For 2^32 ranks they are below 2^41.
fn shares_of(count: usize) -> u64 {
    let mut all = 0u64;
    for rank in 0..count {
        all = all.wrapping_add(share_of(rank));
    }
    all
}

/// Draws by zipf's law from these places, in an order that looks random and is the same in each
/// run: each place as often as its share asks for, rounded so that all together are
/// [`SAMPLE_COUNT`]. It takes a step for each place and for each draw.
pub(crate) fn samples_of(alloc: Global, places: &[u32]) -> Result<Vec<u32>, OutOfMemory> {
    let all = shares_of(places.len()).max(1);
    let mut samples = Vec::with_capacity(alloc, SAMPLE_COUNT as usize)?;
    let mut sum = 0u64;
    let mut count = 0;
    for rank in 0..places.len() {
        sum = sum.wrapping_add(share_of(rank));
        let end = SAMPLE_COUNT.wrapping_mul(sum) / all;
        for _draw in count..end {
            samples.push(ranked(places, rank))?;
        }
        count = end;
    }
    Ok(mixed_up(samples))
}
