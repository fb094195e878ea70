//! Calls of distinct keys by several threads, above all puts while the map grows.
ghost use Rattle.std.specs.Prelude.{◌≡◌, ◌*◌, ◌/◌, ◌-◌, ◌<◌, length, min, slice_index};

use crate::callers::Caller;
use crate::crew::{Done, Job, Worker, do_job, put_at};
use crate::faults::WorkFault;
use crate::keys::{Spacing, number, shuffled};
use crate::meeting::Meeting;
use crate::options::Options;
use crate::timing::{Watch, nanoseconds_since, now};
use nb_core::{Num, OutOfMemory};
use std::alloc::Global;
use std::rt::Clock;
use std::sync::Wait;
use std::thread::Threads;

/// What each worker does at its keys, and what is measured of it.
#[derive(Clone, Copy)]
pub(crate) enum Pass {
    /// Puts: how long they take together.
    Puts,
    /// Gets: how long they take together.
    Gets,
    /// Puts: how long the longest of them takes.
    LongestPut,
    /// Puts: how long each of them takes.
    TimedPuts,
}

/// The job of a pass at the keys with these places, each worker at a part of them.
#[derive(Drop)]
pub(crate) struct Growth<'a> {
    pass: Pass,
    places: &'a [u32],
    spacing: Spacing,
    threads: usize,
    meeting: Meeting,
}

impl<'a> Growth<'a> {
    pub(crate) fn new(pass: Pass, options: &Options, places: &'a [u32]) -> Growth<'a> {
        Growth {
            pass,
            places,
            spacing: options.spacing,
            threads: options.threads,
            meeting: Meeting::new(options.threads),
        }
    }

    /// The part of the worker with this number.
    fn part(&self, number: usize) -> &'a [u32] {
        let size = self.places.len().div_ceil(self.threads.max(1));
        let before = size.saturating_mul(number).min(self.places.len());
        let (_, rest) = self.places.split_at(before);
        let (part, _) = rest.split_at(size.min(rest.len()));
        part
    }

    /// Makes the pass at the keys with these places, and answers how long the longest put took where
    /// that is asked for, or else 0.
    fn pass_at<R: Wait + Clock, C: Caller + Drop>(
        &self,
        rt: &R,
        worker: &mut Worker<C>,
        places: &[u32],
    ) -> Result<u64, WorkFault> {
        let spacing = self.spacing;
        match self.pass {
            Pass::LongestPut => return longest_put(rt, &mut worker.caller, spacing, places),
            Pass::Puts => put_at(rt, &mut worker.caller, spacing, places)?,
            Pass::Gets => worker.tally.sum = get_at(rt, &mut worker.caller, spacing, places),
            Pass::TimedPuts => time_puts(rt, worker, spacing, places)?,
        }
        Ok(0)
    }
}

impl Job for Growth<'_> {
    fn work<R: Wait + Clock + Eprint, C: Caller + Drop>(
        &self,
        rt: &R,
        worker: &mut Worker<C>,
        number: usize,
    ) -> Result<(), WorkFault> {
        let part = self.part(number);
        self.meeting.meet();
        let start = now(rt)?;
        let longest = self.pass_at(rt, worker, part)?;
        let spent = nanoseconds_since(rt, start)?;
        worker.tally.calls = part.len() as u64;
        worker.tally.nanoseconds = match self.pass {
            Pass::LongestPut => longest,
            _ => spent,
        };
        Ok(())
    }
}

/// Gets the keys with these places, and answers the sum of what they have.
fn get_at<R: Wait, C: Caller>(rt: &R, caller: &mut C, spacing: Spacing, places: &[u32]) -> u64 {
    let mut sum = 0u64;
    for place in places {
        let found = caller.get(rt, spacing.key(*place));
        sum = sum.wrapping_add(found.map_or(0, Num::get));
    }
    sum
}

/// Puts numbers at the keys with these places, and answers how long the longest put took.
fn longest_put<R: Wait + Clock, C: Caller>(
    rt: &R,
    caller: &mut C,
    spacing: Spacing,
    places: &[u32],
) -> Result<u64, WorkFault> {
    let mut longest = 0;
    for place in places {
        longest = timed_put(rt, caller, spacing, *place)?.max(longest);
    }
    Ok(longest)
}

/// Puts numbers at the keys with these places, and keeps how long each put took.
fn time_puts<R: Wait + Clock, C: Caller + Drop>(
    rt: &R,
    worker: &mut Worker<C>,
    spacing: Spacing,
    places: &[u32],
) -> Result<(), WorkFault> {
    for place in places {
        let spent = timed_put(rt, &mut worker.caller, spacing, *place)?;
        worker.times.push(spent)?;
    }
    Ok(())
}

/// Puts a number at the key with this place, and answers how long that took.
fn timed_put<R: Wait + Clock, C: Caller>(
    rt: &R,
    caller: &mut C,
    spacing: Spacing,
    place: u32,
) -> Result<u64, WorkFault> {
    let start = now(rt)?;
    caller.put(rt, spacing.key(place), number(place))?;
    nanoseconds_since(rt, start)
}

/// Makes a pass on a new map. One of gets finds numbers at the keys with these places.
fn pass_once<R: Threads + Sync + Wait + Clock + Eprint>(
    rt: &R,
    alloc: Global,
    options: &Options,
    pass: Pass,
    places: &[u32],
) -> Result<Done, WorkFault> {
    let job = Growth::new(pass, options, places);
    let before = match pass {
        Pass::Gets => places,
        _ => &[],
    };
    do_job(rt, alloc, options, before, &job, places.len())
}

/// What a round measures, in nanoseconds: how long all puts take; within which times half of the puts
/// are, 99 of a hundred, and 999 of a thousand; and how long the longest put takes.
pub(crate) type Times = [u64; 5];

/// The times by name, each with the calls that it is of.
pub(crate) fn lines_of(times: Times, keys: u32) -> [(&'static str, u32, u64); 5] {
    let [whole, p50, p99, p999, max] = times;
    [
        ("D", keys, whole),
        ("p50", 1, p50),
        ("p99", 1, p99),
        ("p99.9", 1, p999),
        ("max", 1, max),
    ]
}

/// The time that so many thousandths of these sorted times are within: that at their part of the
/// way, or the last one. If there are none, it is 0.
fn within(times: &[u64], thousandths: usize) -> u64
    ensures none { length times.now ≡ 0 → result ≡ 0 }
    ensures within { 0 < length times.now → result ≡ slice_index times.now
        (min (length times.now * thousandths / 1000) (length times.now - 1)) }
{
    let Some(last) = times.len().checked_sub(1) else {
        return 0;
    };
    let at = times.len() as u128 * thousandths as u128 / 1000;
    times[at.min(last as u128) as usize]
}

/// The middle one of these times.
pub(crate) fn middle_of(times: Vec<u64>) -> Result<u64, WorkFault> {
    let mut times = times;
    times.sort()?;
    Ok(within(times.as_slice(), 500))
}

/// Makes a pass on a new map, and answers its time.
pub(crate) fn time_pass<R: Threads + Sync + Wait + Clock + Eprint>(
    rt: &R,
    alloc: Global,
    options: &Options,
    pass: Pass,
    places: &[u32],
) -> Result<u64, WorkFault> {
    let done = pass_once(rt, alloc, options, pass, places)?;
    Ok(done.tally.nanoseconds)
}

/// How long each put takes in a new map, the shortest times first.
fn time_each<R: Threads + Sync + Wait + Clock + Eprint>(
    rt: &R,
    alloc: Global,
    options: &Options,
    places: &[u32],
) -> Result<Vec<u64>, WorkFault> {
    let Done { times, .. } = pass_once(rt, alloc, options, Pass::TimedPuts, places)?;
    let mut times = times;
    times.sort()?;
    Ok(times)
}

/// A round: how long all puts take in a new map, and in another one how long a put takes.
fn time_round<R: Threads + Sync + Wait + Clock + Eprint>(
    rt: &R,
    alloc: Global,
    options: &Options,
    places: &[u32],
) -> Result<Times, WorkFault> {
    let whole = time_pass(rt, alloc, options, Pass::Puts, places)?;
    let times = time_each(rt, alloc, options, places)?;
    let times = times.as_slice();
    Ok([
        whole,
        within(times, 500),
        within(times, 990),
        within(times, 999),
        within(times, 1000),
    ])
}

/// The middle one of each of the rounds' times.
fn middle_of_each(alloc: Global, rounds: &[Times]) -> Result<Times, WorkFault> {
    let mut middle = [0; 5];
    for (place, time) in middle.iter_mut().enumerate() {
        *time = middle_of(times_at(alloc, rounds, place)?)?;
    }
    Ok(middle)
}

/// The times of all rounds that have this place.
fn times_at(alloc: Global, rounds: &[Times], place: usize) -> Result<Vec<u64>, OutOfMemory> {
    let mut times = Vec::new(alloc);
    for round in rounds {
        if let Some(time) = round.get(place) {
            times.push(*time)?;
        }
    }
    Ok(times)
}

/// Makes rounds until the time is up or all threads together have made so many puts, without those
/// that are timed one by one, and keeps their times.
fn make_rounds<R: Threads + Sync + Wait + Clock + Eprint>(
    rt: &R,
    alloc: Global,
    options: &Options,
    places: &[u32],
    times: &mut Vec<Times>,
) -> Result<(), WorkFault> {
    let mut watch = Watch::start(rt, options.time, options.progress)?;
    let rounds = options.calls.div_ceil(u64::from(options.keys.max(1)));
    for _round in 0..rounds.max(1) {
        times.push(time_round(rt, alloc, options, places)?)?;
        if watch.is_over(rt)? {
            break;
        }
    }
    Ok(())
}

/// Makes rounds, and answers the middle one of each of their times.
pub(crate) fn measure<R: Threads + Sync + Wait + Clock + Eprint>(
    rt: &R,
    alloc: Global,
    options: &Options,
) -> Result<Times, WorkFault> {
    let places = shuffled(alloc, options.keys)?;
    let mut times = Vec::new(alloc);
    make_rounds(rt, alloc, options, places.as_slice(), &mut times)?;
    middle_of_each(alloc, times.as_slice())
}
