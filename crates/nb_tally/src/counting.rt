//! Counting: workers that share an input and a map.
ghost use Rattle.std.specs.Prelude.{◌≡◌, ℕ, IfErr, IfOk, OnOk, Option};
ghost use Rattle.nb_core.specs.declared.calls.Call.TheVariants as call;
ghost use Rattle.nb_core.specs.declared.calls.Change.TheVariants as change;
ghost use Rattle.nb_core.specs.declared.calls.Want.TheVariants as want;
ghost use Rattle.nb_lines.specs.declared.faults.ProgramFault.TheVariants as fault;
ghost use Rattle.nb_map.specs.Logs.{HasFound};
ghost use Rattle.nb_tally.specs.Numbers.{HasCountedAll, HasNotCounted};

use crate::options::Options;
use nb_core::{Key, MAX_SEATS, Num};
use nb_lines::{Block, Input, ProgramFault, ProgressMeter, Stop, number_of, read_key};
use nb_map::{AddFault, Handle};
use std::alloc::Global;
use std::io::Read;
use std::sync::{Mutex, Wait};
use std::thread;
use std::thread::Threads;

/// How often a number came.
#[derive(Clone, Copy, PartialEq, Eq, PartialOrd, Ord)]
pub(crate) struct Count {
    pub(crate) number: u64,
    pub(crate) times: u64,
}

/// How often each number of an input comes, in no order that means anything.
pub(crate) fn tally<R, I>(
    rt: &R,
    alloc: Global,
    options: &Options,
    reader: I,
    progress: ProgressMeter,
) -> Result<Vec<Count>, ProgramFault>
where
    R: Threads + Sync + Wait + Eprint,
    I: Read + Send + Drop,
{
    let Ok(mut handles) = Handle::open(alloc, options.shape()?)?.split_all(alloc) else {
        return Err(ProgramFault::OutOfMemory);
    };
    let input = Mutex::new(Input::new(alloc, reader));
    thread::for_each_mut(
        rt,
        handles.as_mut_slice(),
        MAX_SEATS,
        &|_, handle: &mut Handle| work(rt, alloc, &input, handle, progress),
    );
    progress.end(rt);
    let _lines = input.into_inner().finish()?;
    match handles.pop() {
        Some(handle) => Ok(counts_of(alloc, handle)?.0),
        None => Ok(Vec::new(alloc)),
    }
}

/// A worker's part, done with its handle.
fn work<R: Wait + Eprint, I: Read + Drop>(
    rt: &R,
    alloc: Global,
    input: &Mutex<Input<I>>,
    handle: &mut Handle,
    progress: ProgressMeter,
) {
    if let Err(stop) = count_blocks(rt, alloc, input, handle, progress) {
        input.lock(rt).stop(stop);
    }
}

/// Counts block after block, until no more come.
fn count_blocks<R: Wait + Eprint, I: Read + Drop>(
    rt: &R,
    alloc: Global,
    input: &Mutex<Input<I>>,
    handle: &mut Handle,
    progress: ProgressMeter,
) -> Result<(), Stop> {
    let mut block = Block::new(alloc)?;
    for _ in 0..u64::MAX {
        let has_lines = input.lock(rt).refill(&mut block)?;
        if !has_lines {
            break;
        }
        progress.tell_block(rt, &block);
        let lines = count_lines(rt, handle, &block)?;
        block.set_line_count(lines);
    }
    Ok(())
}

/// Counts the lines of a block, and answers how many there are.
fn count_lines<R: Wait>(rt: &R, handle: &mut Handle, block: &Block) -> Result<u64, Stop> {
    let mut lines = 0u64;
    for line in block.lines() {
        match read_key(line) {
            Ok(key) => count_one(rt, handle, key)?,
            Err(cause) => return Err(block.stop_at(lines, cause)),
        }
        lines = lines.wrapping_add(1);
    }
    Ok(lines)
}

/// Counts a key once: one add of 1, whatever the key has, in the log of all handles' calls.
fn count_one<R: Wait>(rt: &R, handle: &mut Handle, key: Key) -> Result<(), Stop>
    ensures counted { OnOk result ((before : Option ℕ)
        × HasFound (call.Write key want.Any (change.Add 1)) handle.old.seat handle.new.seat
        before) }
    ensures refused { IfErr result (HasNotCounted handle.old.map key handle.old.seat
        handle.new.seat) }
{
    match handle.add(rt, key, Num::from(1_u32)) {
        Ok(_) => Ok(()),
        Err(AddFault::Full) => Err(Stop::Full),
        Err(AddFault::ValueRange) => Err(Stop::TooOften),
    }
}

/// All counts, by a walk over the map, and the handle. No other handle writes any more, so it shows all
/// of it.
fn counts_of(alloc: Global, handle: Handle) -> Result<(Vec<Count>, Handle), ProgramFault>
    ensures counted { IfOk result (λ done. HasCountedAll handle done.1 done.0.items) }
    ensures error { IfErr result (λ told. told ≡ fault.OutOfMemory) }
{
    let mut counts = Vec::new(alloc);
    let mut walk = handle.walk();
    while let Some((key, times)) = walk.next_key() {
        counts.push(Count {
            number: number_of(key),
            times: times.get(),
        })?;
    }
    Ok((counts, walk.end()))
}
