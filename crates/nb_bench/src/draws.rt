//! Calls at keys that are drawn, for a while. Seats call in loops that have the map and its seat apart,
//! so that a call loads nothing more than it needs.
ghost use Rattle.nb_map.specs.Maps.{IsMine};

use crate::callers::Caller;
use crate::crew::{Job, Worker};
use crate::faults::WorkFault;
use crate::keys::{SAMPLE_COUNT, Spacing, number};
use crate::random::Random;
use crate::timing::Watch;
use crate::workloads::Mix;
use nb_core::{Key, Num};
use nb_lines::ProgressMeter;
use nb_map::{Map, Seat};
use std::rt::Clock;
use std::sync::Wait;
use std::time::Duration;

/// How many calls are made between two looks at the clock.
pub(crate) const BATCH: u64 = 1024;

/// Where the one key is that all put at.
const ONE_PLACE: u32 = 4242;

/// Which calls are made.
#[derive(Clone, Copy)]
pub(crate) enum Calls<'a> {
    /// A mix of calls at any of the keys, each as often as the others.
    Mixed,
    /// A mix of calls at the dense keys with these places, one after another, and again from the
    /// start.
    Sampled(&'a [u32]),
    /// Puts at one key.
    OneKey,
}

/// The job to make calls until the time is up, or for so many batches.
#[derive(Clone, Copy)]
pub(crate) struct Draws<'a> {
    pub(crate) calls: Calls<'a>,
    pub(crate) mix: Mix,
    /// How many keys there are.
    pub(crate) keys: u32,
    pub(crate) spacing: Spacing,
    pub(crate) threads: usize,
    pub(crate) time: Duration,
    pub(crate) batches: u64,
    pub(crate) progress: ProgressMeter,
}

impl<'a> Draws<'a> {
    /// A tenth of this job, by which workers warm up.
    fn tenth(&self) -> Draws<'a> {
        Draws {
            time: self.time.checked_div(10).unwrap_or(self.time),
            batches: self.batches / 10,
            ..self.quiet()
        }
    }

    /// The same job, of which no progress is told.
    fn quiet(&self) -> Draws<'a> {
        Draws {
            progress: ProgressMeter::NONE,
            ..*self
        }
    }

    /// The job of the worker with this number: the first one tells progress.
    fn part(&self, number: usize) -> Draws<'a> {
        if number == 0 { *self } else { self.quiet() }
    }
}

/// What a worker draws with.
#[derive(Clone, Copy)]
struct Source {
    random: Random,
    /// From which of the samples on the next batch is.
    sample: u64,
}

impl Source {
    /// That of the worker with this number, of so many. They begin at samples far from each other.
    fn new(number: usize, workers: usize) -> Source {
        let batches = (SAMPLE_COUNT / BATCH).wrapping_mul(number as u64);
        Source {
            random: Random::new(number as u64),
            sample: (batches / (workers as u64).max(1)).wrapping_mul(BATCH) % SAMPLE_COUNT,
        }
    }

    /// The next batch of the samples.
    fn next_batch<'s>(&mut self, samples: &'s [u32]) -> &'s [u32] {
        let first = self.sample as usize;
        self.sample = self.sample.wrapping_add(BATCH) % SAMPLE_COUNT;
        let (_, rest) = samples.split_at(first.min(samples.len()));
        let (batch, _) = rest.split_at(rest.len().min(BATCH as usize));
        batch
    }
}

impl Job for Draws<'_> {
    fn work<R: Wait + Clock + Eprint, C: Caller + Drop>(
        &self,
        rt: &R,
        worker: &mut Worker<C>,
        number: usize,
    ) -> Result<(), WorkFault> {
        let mut source = Source::new(number, self.threads);
        call_on(rt, worker, &mut source, &self.tenth())?;
        call_on(rt, worker, &mut source, &self.part(number))
    }
}

/// Makes calls until the job's time is up, or its batches are made, and counts them in place of
/// what was counted before.
fn call_on<R: Wait + Clock + Eprint, C: Caller + Drop>(
    rt: &R,
    worker: &mut Worker<C>,
    source: &mut Source,
    job: &Draws<'_>,
) -> Result<(), WorkFault> {
    let mut watch = Watch::start(rt, job.time, job.progress)?;
    let mut calls = 0u64;
    let mut sum = 0u64;
    for _round in 0..job.batches {
        sum = sum.wrapping_add(call_batch(rt, &mut worker.caller, source, job)?);
        calls = calls.wrapping_add(BATCH);
        if watch.is_over(rt)? {
            break;
        }
    }
    worker.tally.calls = calls;
    worker.tally.sum = sum;
    worker.tally.nanoseconds = watch.nanoseconds();
    Ok(())
}

/// Makes a batch of a job's calls, and answers the sum of what the gets read.
fn call_batch<R: Wait, C: Caller>(
    rt: &R,
    caller: &mut C,
    source: &mut Source,
    job: &Draws<'_>,
) -> Result<u64, WorkFault> {
    let count = u64::from(job.keys);
    let random = &mut source.random;
    match (job.calls, job.spacing) {
        (Calls::Mixed, Spacing::Dense) => {
            caller.draw_batch(rt, random, job.mix, &Dense { count })
        }
        (Calls::Mixed, Spacing::Spread) => {
            caller.draw_batch(rt, random, job.mix, &Spread { count })
        }
        (Calls::Sampled(samples), _) => {
            let places = source.next_batch(samples);
            caller.draw_batch(rt, &mut source.random, job.mix, &Listed { places })
        }
        (Calls::OneKey, _) => caller.put_batch(rt, job.spacing.key(ONE_PLACE)),
    }
}

/// Which keys a batch calls at.
pub(crate) trait Pick {
    /// The key of the call of a turn, from 0 on, for which this number was drawn.
    fn key(&self, turn: u64, drawn: u64) -> Key;
}

/// One of so many places, each as likely, by the lower half of a drawn number: a product is cheaper
/// than the rest of a division.
fn place_of(drawn: u64, count: u64) -> u32 {
    ((drawn & 0xffff_ffff).wrapping_mul(count) >> 32) as u32
}

/// From 0 to 99, each as likely, by the upper half of a drawn number.
#[inline(always)]
pub(crate) fn percent_of(drawn: u64) -> u64 {
    (drawn >> 32).wrapping_mul(100) >> 32
}

/// What is put where this number was drawn.
#[inline(always)]
pub(crate) fn number_of(drawn: u64) -> Num {
    number((drawn >> 32) as u32)
}

/// The two numbers that are put at one key, by turns.
#[inline(always)]
pub(crate) fn by_turns(round: u64) -> Num {
    number((round % 2) as u32)
}

/// So many dense keys, each as likely.
#[derive(Clone, Copy)]
struct Dense {
    count: u64,
}

impl Pick for Dense {
    fn key(&self, _turn: u64, drawn: u64) -> Key {
        Spacing::Dense.key(place_of(drawn, self.count))
    }
}

/// So many spread keys, each as likely.
#[derive(Clone, Copy)]
struct Spread {
    count: u64,
}

impl Pick for Spread {
    fn key(&self, _turn: u64, drawn: u64) -> Key {
        Spacing::Spread.key(place_of(drawn, self.count))
    }
}

/// The dense keys with these places, one after another.
#[derive(Clone, Copy)]
struct Listed<'a> {
    places: &'a [u32],
}

impl Pick for Listed<'_> {
    fn key(&self, turn: u64, _drawn: u64) -> Key {
        let place = self.places.get(turn as usize).copied().unwrap_or(0);
        Spacing::Dense.key(place)
    }
}

/// Makes a batch of calls by a seat of this map: [`Caller::draw_batch`].
pub(crate) fn draw_by_seat<R: Wait, P: Pick>(
    rt: &R,
    map: &Map,
    seat: &mut Seat,
    random: &mut Random,
    mix: Mix,
    pick: &P,
) -> Result<u64, WorkFault>
    requires own { IsMine map.now seat.old }
    ensures own { IsMine map.now seat.new }
{
    let removals_from = mix.gets.wrapping_add(mix.puts);
    let mut row = *random;
    let mut sum = 0u64;
    for turn in 0..BATCH {
        let drawn = row.draw();
        let key = pick.key(turn, drawn);
        let percent = percent_of(drawn);
        if percent < mix.gets {
            sum = sum.wrapping_add(map.get(seat, key).map_or(0, Num::get));
        } else if percent < removals_from {
            if map.put(rt, seat, key, number_of(drawn)).is_err() {
                return Err(WorkFault::Full);
            }
        } else {
            map.remove(rt, seat, key);
        }
    }
    *random = row;
    Ok(sum)
}

/// Makes a batch of puts by a seat of this map: [`Caller::put_batch`].
pub(crate) fn put_by_seat<R: Wait>(
    rt: &R,
    map: &Map,
    seat: &mut Seat,
    key: Key,
) -> Result<u64, WorkFault>
    requires own { IsMine map.now seat.old }
    ensures own { IsMine map.now seat.new }
{
    for round in 0..BATCH {
        if map.put(rt, seat, key, by_turns(round)).is_err() {
            return Err(WorkFault::Full);
        }
    }
    Ok(0)
}
