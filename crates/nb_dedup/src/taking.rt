//! Taking jobs: workers that share an input and a set.
ghost use Rattle.std.specs.Prelude.{◌≡◌, ◌++◌, ◌∷◌, [], Bool, OnOk, if◌then◌else◌};
ghost use Rattle.nb_lines.specs.Keys.{number_at};
ghost use Rattle.nb_set.specs.Log as call;
ghost use Rattle.nb_set.specs.Sets.{HasReplied};

use crate::options::Options;
use nb_core::{Key, MAX_SEATS, OutOfMemory, Shape};
use nb_lines::{Block, Input, ProgramFault, ProgressMeter, Stop, number_of, read_key};
use nb_set::{Full, Handle};
use std::alloc::Global;
use std::io::Read;
use std::sync::{Mutex, Wait};
use std::thread;
use std::thread::Threads;

/// A job that was taken, and by whom.
#[derive(Clone, Copy, PartialEq, Eq, PartialOrd, Ord)]
pub(crate) struct Job {
    pub(crate) number: u64,
    /// The worker's number, counted from 1.
    pub(crate) worker: usize,
}

/// A thread's own: its handle of the set, and the jobs that it took.
#[derive(Drop)]
struct Worker {
    handle: Handle,
    taken: Vec<u64>,
}

/// The jobs of an input, ascending.
pub(crate) fn take_all<R, I>(
    rt: &R,
    alloc: Global,
    options: &Options,
    reader: I,
    progress: ProgressMeter,
) -> Result<Vec<Job>, ProgramFault>
where
    R: Threads + Sync + Wait + Eprint,
    I: Read + Send + Drop,
{
    let mut workers = hired(alloc, options.shape()?)?;
    let input = Mutex::new(Input::new(alloc, reader));
    all_work(rt, alloc, &input, progress, workers.as_mut_slice());
    progress.end(rt);
    let _lines = input.into_inner().finish()?;
    jobs_of(alloc, workers.as_slice())
}

/// A worker for each seat of a new set.
fn hired(alloc: Global, shape: Shape) -> Result<Vec<Worker>, OutOfMemory> {
    let mut workers = Vec::with_capacity(alloc, shape.seats())?;
    let Ok(handles) = Handle::open(alloc, shape)?.split_all(alloc) else {
        return Err(OutOfMemory);
    };
    for handle in handles {
        let taken = Vec::new(alloc);
        workers.push(Worker { handle, taken })?;
    }
    Ok(workers)
}

/// All workers take jobs at the same time, each in a thread of its own.
fn all_work<R: Threads + Sync + Wait + Eprint, I: Read + Send + Drop>(
    rt: &R,
    alloc: Global,
    input: &Mutex<Input<I>>,
    progress: ProgressMeter,
    workers: &mut [Worker],
) {
    thread::for_each_mut(
        rt,
        workers,
        MAX_SEATS,
        &|_number: usize, worker: &mut Worker| { work(rt, alloc, input, progress, worker) },
    );
}

/// A worker's part.
fn work<R: Wait + Eprint, I: Read + Drop>(
    rt: &R,
    alloc: Global,
    input: &Mutex<Input<I>>,
    progress: ProgressMeter,
    worker: &mut Worker,
) {
    if let Err(stop) = take_blocks(rt, alloc, input, progress, worker) {
        input.lock(rt).stop(stop);
    }
}

/// Takes jobs of block after block, until no more come.
fn take_blocks<R: Wait + Eprint, I: Read + Drop>(
    rt: &R,
    alloc: Global,
    input: &Mutex<Input<I>>,
    progress: ProgressMeter,
    worker: &mut Worker,
) -> Result<(), Stop> {
    let mut block = Block::new(alloc)?;
    for _ in 0..u64::MAX {
        let has_lines = input.lock(rt).refill(&mut block)?;
        if !has_lines {
            break;
        }
        progress.tell_block(rt, &block);
        let lines = take_lines(rt, worker, &block)?;
        block.set_line_count(lines);
    }
    Ok(())
}

/// Takes jobs of a block, and answers how many lines it has.
fn take_lines<R: Wait>(rt: &R, worker: &mut Worker, block: &Block) -> Result<u64, Stop> {
    let mut lines = 0u64;
    for line in block.lines() {
        match read_key(line) {
            Ok(key) => take(rt, worker, key)?,
            Err(cause) => return Err(block.stop_at(lines, cause)),
        }
        lines = lines.wrapping_add(1);
    }
    Ok(lines)
}

/// Takes a job, unless another call has taken it: the worker keeps its number just where its `add`
/// was replied that the key came.
fn take<R: Wait>(rt: &R, worker: &mut Worker, key: Key) -> Result<(), Stop>
    ensures taken { OnOk result ((came : Bool)
        × HasReplied (call.Add key) worker.old.handle.seat worker.new.handle.seat came
        × (worker.new.taken.items ≡ (if came then worker.old.taken.items ++ number_at key ∷ []
        else worker.old.taken.items))) }
{
    match worker.handle.add(rt, key) {
        Ok(true) => {
            worker.taken.push(number_of(key))?;
            Ok(())
        }
        Ok(false) => Ok(()),
        Err(Full) => Err(Stop::Full),
    }
}

/// The jobs that the workers took, ascending.
fn jobs_of(alloc: Global, workers: &[Worker]) -> Result<Vec<Job>, ProgramFault> {
    let mut jobs = Vec::new(alloc);
    for (place, worker) in workers.iter().enumerate() {
        for number in worker.taken.iter() {
            jobs.push(Job {
                number: *number,
                worker: place + 1,
            })?;
        }
    }
    jobs.sort_unstable();
    Ok(jobs)
}
