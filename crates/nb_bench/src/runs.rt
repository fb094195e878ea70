//! Runs of the workloads whose calls are drawn.

use crate::callers::{By, Caller};
use crate::crew::{Tally, hired, worked};
use crate::draws::{BATCH, Calls, Draws};
use crate::faults::WorkFault;
use crate::keys::{Law, samples_of, shuffled};
use crate::options::Options;
use crate::seats::MapSeat;
use crate::workloads::{Mix, Workload};
use nb_core::{MAX_SEATS, OutOfMemory};
use nb_lasting::SharedLasting;
use nb_map::Handle;
use std::alloc::Global;
use std::rt::Clock;
use std::sync::Wait;
use std::thread::Threads;

/// Of a hundred calls of a workload, how many are gets and puts.
fn mix_of(workload: Workload) -> Mix {
    match workload {
        Workload::Reads => Mix { gets: 90, puts: 9 },
        Workload::Changes => Mix { gets: 50, puts: 25 },
        _ => Mix { gets: 100, puts: 0 },
    }
}

/// The calls that the options ask for; by zipf's law at the keys with these places.
fn calls_of<'a>(options: &Options, samples: &'a [u32]) -> Calls<'a> {
    match (options.workload, options.law) {
        (Workload::OneKey, _) => Calls::OneKey,
        (_, Law::Even) => Calls::Mixed,
        (_, Law::Zipf) => Calls::Sampled(samples),
    }
}

/// The draws from these places by zipf's law, where the options ask for them.
fn draws_of(alloc: Global, options: &Options, places: &[u32]) -> Result<Vec<u32>, OutOfMemory> {
    match options.law {
        Law::Even => Ok(Vec::new(alloc)),
        Law::Zipf => samples_of(alloc, places),
    }
}

/// Makes the calls of a job by these callers, each in a thread of its own, once there are numbers at
/// the keys with these places.
fn called<R: Threads + Sync + Wait + Clock + Eprint, C: Caller + Drop + Send>(
    rt: &R,
    alloc: Global,
    callers: Vec<C>,
    places: &[u32],
    job: &Draws<'_>,
) -> Result<Tally, WorkFault> {
    let mut workers = hired(alloc, callers)?;
    worked(rt, workers.as_mut_slice(), job.spacing, places, job)
}

/// The same by the handles of a new map.
fn called_by_handles<R: Threads + Sync + Wait + Clock + Eprint>(
    rt: &R,
    alloc: Global,
    options: &Options,
    places: &[u32],
    job: &Draws<'_>,
) -> Result<Tally, WorkFault> {
    match Handle::open(alloc, options.shape()?)?.split_all(alloc) {
        Ok(handles) => called(rt, alloc, handles, places, job),
        Err(_) => Err(WorkFault::OutOfMemory),
    }
}

/// The same by the guests of a new map without an end.
fn called_by_guests<R: Threads + Sync + Wait + Clock + Eprint>(
    rt: &R,
    alloc: Global,
    options: &Options,
    places: &[u32],
    job: &Draws<'_>,
) -> Result<Tally, WorkFault> {
    let threads = options.threads.clamp(1, MAX_SEATS);
    let (_shared, guests) = SharedLasting::open(alloc, threads, options.keys as usize)?;
    called(rt, alloc, guests, places, job)
}

/// The same on a new map, by what the options ask for.
fn called_by<R: Threads + Sync + Wait + Clock + Eprint>(
    rt: &R,
    alloc: Global,
    options: &Options,
    places: &[u32],
    job: &Draws<'_>,
) -> Result<Tally, WorkFault> {
    match options.by {
        By::Seat => called(
            rt,
            alloc,
            MapSeat::open(alloc, options.shape()?)?,
            places,
            job,
        ),
        By::Handle => called_by_handles(rt, alloc, options, places, job),
        By::Guest => called_by_guests(rt, alloc, options, places, job),
    }
}

/// Makes the calls of `A`, `B`, `C` or `E` on a map where half of the keys have a number.
pub(crate) fn measure<R: Threads + Sync + Wait + Clock + Eprint>(
    rt: &R,
    alloc: Global,
    options: &Options,
) -> Result<Tally, WorkFault> {
    let places = shuffled(alloc, options.keys)?;
    let (half, _) = places.as_slice().split_at(places.len() / 2);
    let samples = draws_of(alloc, options, places.as_slice())?;
    let job = Draws {
        calls: calls_of(options, samples.as_slice()),
        mix: mix_of(options.workload),
        keys: options.keys,
        spacing: options.spacing,
        threads: options.threads,
        time: options.time,
        batches: options.calls.div_ceil(BATCH),
        progress: options.progress,
    };
    called_by(rt, alloc, options, half, &job)
}
