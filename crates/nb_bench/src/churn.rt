//! Keys that come and go: each worker puts new keys, and takes out its oldest ones.

use crate::callers::Caller;
use crate::crew::{Job, Tally, Worker, do_job};
use crate::faults::WorkFault;
use crate::growth::middle_of;
use crate::keys::{Spacing, in_order, number};
use crate::meeting::Meeting;
use crate::options::Options;
use crate::timing::{Watch, nanoseconds_since, now};
use nb_core::{Key, MOST_KEYS};
use std::alloc::Global;
use std::rt::Clock;
use std::sync::Wait;
use std::thread::Threads;

/// How often each key's place in the map is taken by a new key in a round, if the options don't say
/// how many calls there are.
const TURNS: u64 = 8;

/// How many keys ever come to a map that has so many at any time, one for each thread at least, in
/// a round of that length; no more than a shape can be asked for.
pub(crate) fn keys_ever(keys: u32, threads: usize) -> usize {
    let live = u64::from(keys).max(threads as u64);
    (live.wrapping_mul(TURNS + 1) as usize).min(MOST_KEYS)
}

/// The job to make steps. The keys with numbers from the start are the first ones; of `threads`
/// workers each has every `threads`-th key, from that of its own number on. In a step it puts the
/// next one of its keys, and takes out the oldest.
#[derive(Drop)]
struct Churn {
    spacing: Spacing,
    threads: u64,
    /// How many keys each worker has at any time.
    part: u64,
    /// How many steps each worker makes.
    steps: u64,
    meeting: Meeting,
}

impl Churn {
    fn new(options: &Options) -> Churn {
        let threads = (options.threads as u64).max(1);
        let part = (u64::from(options.keys) / threads).max(1);
        let steps = if options.calls == u64::MAX {
            part.wrapping_mul(TURNS)
        } else {
            options.calls.div_ceil(2)
        };
        Churn {
            spacing: options.spacing,
            threads,
            part,
            steps,
            meeting: Meeting::new(options.threads),
        }
    }

    /// How many keys have a number from the start.
    fn start_count(&self) -> u32 {
        (self.part.wrapping_mul(self.threads) % (1 << 32)) as u32
    }

    /// The place of a worker's key of a turn. After 2^32 keys the first ones come again.
    fn place(&self, turn: u64, worker: usize) -> u32 {
        let place = turn.wrapping_mul(self.threads).wrapping_add(worker as u64);
        (place % (1 << 32)) as u32
    }

    /// The key that comes in a step of a worker.
    fn newest(&self, step: u64, worker: usize) -> u32 {
        self.place(self.part.wrapping_add(step), worker)
    }

    /// The key that goes in a step of a worker.
    fn oldest(&self, step: u64, worker: usize) -> Key {
        self.spacing.key(self.place(step, worker))
    }
}

impl Job for Churn {
    fn work<R: Wait + Clock + Eprint, C: Caller + Drop>(
        &self,
        rt: &R,
        worker: &mut Worker<C>,
        number: usize,
    ) -> Result<(), WorkFault> {
        self.meeting.meet();
        let start = now(rt)?;
        let made = make_steps(rt, &mut worker.caller, self, number);
        worker.tally.nanoseconds = nanoseconds_since(rt, start)?;
        worker.tally.calls = made.wrapping_mul(2);
        worker.tally.is_full = made < self.steps;
        Ok(())
    }
}

/// Makes the steps of the worker with this number, until a new key is refused. It answers how many
/// it made.
fn make_steps<R: Wait, C: Caller>(rt: &R, caller: &mut C, job: &Churn, owner: usize) -> u64 {
    for step in 0..job.steps {
        let place = job.newest(step, owner);
        let key = job.spacing.key(place);
        if caller.put(rt, key, number(place)).is_err() {
            return step;
        }
        caller.remove(rt, job.oldest(step, owner));
    }
    job.steps
}

/// Makes a round on a new map, whose keys with these places have numbers from the start: each step
/// is two calls.
fn churn_once<R: Threads + Sync + Wait + Clock + Eprint>(
    rt: &R,
    alloc: Global,
    options: &Options,
    places: &[u32],
) -> Result<Tally, WorkFault> {
    let job = Churn::new(options);
    Ok(do_job(rt, alloc, options, places, &job, places.len())?.tally)
}

/// Makes rounds until the time is up, or until a map is full, and keeps how long each of them took whose
/// map wasn't. It answers the last one.
fn make_rounds<R: Threads + Sync + Wait + Clock + Eprint>(
    rt: &R,
    alloc: Global,
    options: &Options,
    places: &[u32],
    times: &mut Vec<u64>,
) -> Result<Tally, WorkFault> {
    let mut last = Tally::NOTHING;
    let mut watch = Watch::start(rt, options.time, options.progress)?;
    for _round in 0..u64::MAX {
        last = churn_once(rt, alloc, options, places)?;
        if last.is_full {
            break;
        }
        times.push(last.nanoseconds)?;
        if watch.is_over(rt)? {
            break;
        }
    }
    Ok(last)
}

/// Makes rounds until the time is up, and answers the one with the middle time; or until a map is
/// full, and answers that round.
pub(crate) fn measure<R: Threads + Sync + Wait + Clock + Eprint>(
    rt: &R,
    alloc: Global,
    options: &Options,
) -> Result<Tally, WorkFault> {
    let places = in_order(alloc, Churn::new(options).start_count())?;
    let mut times = Vec::new(alloc);
    let last = make_rounds(rt, alloc, options, places.as_slice(), &mut times)?;
    if last.is_full {
        return Ok(last);
    }
    Ok(Tally {
        calls: last.calls,
        nanoseconds: middle_of(times)?,
        ..Tally::NOTHING
    })
}
