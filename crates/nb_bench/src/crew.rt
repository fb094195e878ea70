//! Workers: threads that call one map, each by a caller of its own.

use crate::callers::Caller;
use crate::faults::{WorkFault, Wrong};
use crate::keys::{Spacing, number};
use crate::options::Options;
use crate::seats::MapSeat;
use nb_core::{MAX_SEATS, OutOfMemory};
use std::alloc::Global;
use std::rt::Clock;
use std::sync::Wait;
use std::thread;
use std::thread::Threads;

/// What a worker counted.
#[derive(Clone, Copy)]
pub(crate) struct Tally {
    /// The calls that were measured.
    pub(crate) calls: u64,
    /// How long they took.
    pub(crate) nanoseconds: u64,
    /// The sum of what was read, modulo 2^64.
    pub(crate) sum: u64,
    /// A new key was refused, since the map is full: the worker's job ended there, without a fault.
    pub(crate) is_full: bool,
}

impl Tally {
    /// Nothing is counted.
    pub(crate) const NOTHING: Tally = Tally {
        calls: 0,
        nanoseconds: 0,
        sum: 0,
        is_full: false,
    };

    /// What two workers counted who worked at the same time.
    fn beside(self, other: Tally) -> Tally {
        Tally {
            calls: self.calls.wrapping_add(other.calls),
            nanoseconds: self.nanoseconds.max(other.nanoseconds),
            sum: self.sum.wrapping_add(other.sum),
            is_full: self.is_full || other.is_full,
        }
    }
}

/// A worker: what it calls by, and what came of its work.
#[derive(Drop)]
pub(crate) struct Worker<C: Drop> {
    pub(crate) caller: C,
    pub(crate) tally: Tally,
    /// The times of its calls, where its job is to keep them.
    pub(crate) times: Vec<u64>,
    /// Why it stopped early.
    fault: Option<WorkFault>,
}

/// What each worker of a crew does, in a thread of its own.
pub(crate) trait Job {
    /// Does the part of the worker with this number, from 0 on.
    fn work<R: Wait + Clock + Eprint, C: Caller + Drop>(
        &self,
        rt: &R,
        worker: &mut Worker<C>,
        number: usize,
    ) -> Result<(), WorkFault>;
}

/// Puts numbers at the keys with these places.
pub(crate) fn put_at<R: Wait, C: Caller>(
    rt: &R,
    caller: &mut C,
    spacing: Spacing,
    places: &[u32],
) -> Result<(), WorkFault> {
    for place in places {
        caller.put(rt, spacing.key(*place), number(*place))?;
    }
    Ok(())
}

/// A worker for each caller.
pub(crate) fn hired<C: Drop>(
    alloc: Global,
    callers: Vec<C>,
) -> Result<Vec<Worker<C>>, OutOfMemory> {
    let mut workers = Vec::new(alloc);
    for caller in callers {
        workers.push(Worker {
            caller,
            tally: Tally::NOTHING,
            times: Vec::new(alloc),
            fault: None,
        })?;
    }
    Ok(workers)
}

/// Does a worker's part of a job, and keeps why it stopped early.
fn works<R: Wait + Clock + Eprint, C: Caller + Drop, J: Job>(
    rt: &R,
    job: &J,
    worker: &mut Worker<C>,
    number: usize,
) {
    if let Err(fault) = job.work(rt, worker, number) {
        worker.fault = Some(fault);
    }
}

/// All workers work at the same time, each in a thread of its own.
fn all_work<R, C, J>(rt: &R, workers: &mut [Worker<C>], job: &J)
where
    R: Threads + Sync + Wait + Clock + Eprint,
    C: Caller + Drop + Send,
    J: Job + Sync,
{
    thread::for_each_mut(
        rt,
        workers,
        MAX_SEATS,
        &|number: usize, worker: &mut Worker<C>| works(rt, job, worker, number),
    );
}

/// What the workers counted in all, or why one of them stopped early.
fn counted<C: Drop>(workers: &[Worker<C>]) -> Result<Tally, WorkFault> {
    let mut all = Tally::NOTHING;
    for worker in workers {
        if let Some(fault) = worker.fault {
            return Err(fault);
        }
        all = all.beside(worker.tally);
    }
    Ok(all)
}

/// The workers do a job, once there are numbers at the keys with these places. It answers what they
/// counted in all.
pub(crate) fn worked<R, C, J>(
    rt: &R,
    workers: &mut [Worker<C>],
    spacing: Spacing,
    places: &[u32],
    job: &J,
) -> Result<Tally, WorkFault>
where
    R: Threads + Sync + Wait + Clock + Eprint,
    C: Caller + Drop + Send,
    J: Job + Sync,
{
    if let Some(first) = workers.first_mut() {
        put_at(rt, &mut first.caller, spacing, places)?;
    }
    all_work(rt, workers, job);
    counted(workers)
}

/// Sees that the map of these workers, who have ended, has so many keys.
fn are_there(workers: &mut [Worker<MapSeat>], keys: usize) -> Result<(), WorkFault> {
    if let Some(first) = workers.first_mut() {
        if first.caller.size() != keys as u64 {
            return Err(WorkFault::Wrong(Wrong::Size));
        }
    }
    Ok(())
}

/// What came of a job.
#[derive(Drop)]
pub(crate) struct Done {
    pub(crate) tally: Tally,
    /// The times that the workers kept, one's behind another's.
    pub(crate) times: Vec<u64>,
}

/// Puts the times that the workers kept behind others.
fn gather<C: Drop>(workers: &[Worker<C>], times: &mut Vec<u64>) -> Result<(), OutOfMemory> {
    for worker in workers {
        for time in worker.times.iter() {
            times.push(*time)?;
        }
    }
    Ok(())
}

/// The times that the workers kept.
fn times_of<C: Drop>(alloc: Global, workers: &[Worker<C>]) -> Result<Vec<u64>, OutOfMemory> {
    let mut times = Vec::new(alloc);
    gather(workers, &mut times)?;
    Ok(times)
}

/// The workers do a job, once there are numbers at the keys with these places. It sees that their
/// map has so many keys in the end.
fn done_by<R: Threads + Sync + Wait + Clock + Eprint, J: Job + Sync>(
    rt: &R,
    alloc: Global,
    workers: &mut [Worker<MapSeat>],
    spacing: Spacing,
    places: &[u32],
    job: &J,
    keys: usize,
) -> Result<Done, WorkFault> {
    let tally = worked(rt, workers, spacing, places, job)?;
    are_there(workers, keys)?;
    let times = times_of(alloc, workers)?;
    Ok(Done { tally, times })
}

/// Does a job by the seats of a new map, which has numbers at the keys with these places from the
/// start, and sees that it has so many keys in the end.
pub(crate) fn do_job<R: Threads + Sync + Wait + Clock + Eprint, J: Job + Sync>(
    rt: &R,
    alloc: Global,
    options: &Options,
    places: &[u32],
    job: &J,
    keys: usize,
) -> Result<Done, WorkFault> {
    let mut workers = hired(alloc, MapSeat::open(alloc, options.shape()?)?)?;
    done_by(
        rt,
        alloc,
        workers.as_mut_slice(),
        options.spacing,
        places,
        job,
        keys,
    )
}
