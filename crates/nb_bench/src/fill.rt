//! Many keys: maps with room for so many are made, filled and read.

use crate::faults::WorkFault;
use crate::growth::{Pass, time_pass};
use crate::keys::shuffled;
use crate::options::Options;
use crate::seats::MapSeat;
use crate::timing::{Watch, nanoseconds_since, now};
use std::alloc::Global;
use std::rt::Clock;
use std::sync::Wait;
use std::thread::Threads;

/// What is measured, in nanoseconds.
#[derive(Clone, Copy)]
pub(crate) struct Times {
    /// How long it takes to make the map.
    make: u64,
    /// How long the puts of all keys take.
    fill: u64,
    /// How long the gets of all keys take.
    read: u64,
    /// How long the longest put takes.
    longest: u64,
}

impl Times {
    /// No time was measured.
    const NONE: Times = Times {
        make: u64::MAX,
        fill: u64::MAX,
        read: u64::MAX,
        longest: u64::MAX,
    };

    /// The shorter of each two times.
    fn min(self, other: Times) -> Times {
        Times {
            make: self.make.min(other.make),
            fill: self.fill.min(other.fill),
            read: self.read.min(other.read),
            longest: self.longest.min(other.longest),
        }
    }

    /// The times by name, each with the calls that it is of.
    pub(crate) fn lines(self, keys: u32) -> [(&'static str, u32, u64); 4] {
        [
            ("make", 1, self.make),
            ("fill", keys, self.fill),
            ("read", keys, self.read),
            ("longest", 1, self.longest),
        ]
    }
}

/// How long it takes to make a map.
fn time_make<R: Clock>(rt: &R, alloc: Global, options: &Options) -> Result<u64, WorkFault> {
    let shape = options.shape()?;
    let start = now(rt)?;
    let seats = MapSeat::open(alloc, shape)?;
    let spent = nanoseconds_since(rt, start);
    drop(seats);
    spent
}

/// Measures each once.
fn time_once<R: Threads + Sync + Wait + Clock + Eprint>(
    rt: &R,
    alloc: Global,
    options: &Options,
    places: &[u32],
) -> Result<Times, WorkFault> {
    Ok(Times {
        make: time_make(rt, alloc, options)?,
        fill: time_pass(rt, alloc, options, Pass::Puts, places)?,
        read: time_pass(rt, alloc, options, Pass::Gets, places)?,
        longest: time_pass(rt, alloc, options, Pass::LongestPut, places)?,
    })
}

/// Measures each on maps made anew, again and again until the time is up, and answers the shortest
/// of its times.
fn time_rounds<R: Threads + Sync + Wait + Clock + Eprint>(
    rt: &R,
    alloc: Global,
    options: &Options,
    places: &[u32],
) -> Result<Times, WorkFault> {
    let mut times = Times::NONE;
    let mut watch = Watch::start(rt, options.time, options.progress)?;
    for _round in 0..u64::MAX {
        times = times.min(time_once(rt, alloc, options, places)?);
        if watch.is_over(rt)? {
            break;
        }
    }
    Ok(times)
}

/// Measures each on maps for all keys.
pub(crate) fn measure<R: Threads + Sync + Wait + Clock + Eprint>(
    rt: &R,
    alloc: Global,
    options: &Options,
) -> Result<Times, WorkFault> {
    let places = shuffled(alloc, options.keys)?;
    time_rounds(rt, alloc, options, places.as_slice())
}
