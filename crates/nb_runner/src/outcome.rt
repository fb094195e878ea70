//! A script's run, from its phases to what came of it.
ghost use Rattle.std.specs.Prelude.{◌≡◌, ◌≤◌, [], length, All, IfOk, vec_capacity};
ghost use Rattle.std.specs.FinMap as map;
ghost use Rattle.std.specs.List.{flat_map};
ghost use Rattle.nb_map.specs.Ending.{map_left};
ghost use Rattle.nb_map.specs.Maps.{AreMine};
ghost use Rattle.nb_runner.specs.Outcomes.{IsOutcome, lists_in};
ghost use Rattle.nb_runner.specs.Working.{
  AreNumbered,
  HasRoomForAnswers,
  HaveWorked,
  answers_of,
  commands_of,
  phases_in,
  worker_seats,
};

use crate::answers::Answer;
use crate::gates::Gate;
use crate::output::count_of;
use crate::workers::{Worker, run_phases};
use nb_core::{Key, Num, OutOfMemory, Shape};
use nb_map::{Ended, Map, Seat};
use nb_script::reader::Phase;
use std::alloc::Global;
use std::sync::Wait;
use std::thread::Threads;

/// What came of a script: what each worker's commands were answered, those of all phases one after
/// another, and what the map contains at the end.
#[derive(Drop)]
pub(crate) struct Outcome {
    pub(crate) answers: Vec<Vec<Answer>>,
    pub(crate) size: u64,
    pub(crate) entries: Vec<(Key, Num)>,
}

/// How many answers the worker will have. More than can be counted wouldn't fit in memory.
fn room_for(worker: usize, phases: &[Phase]) -> Result<usize, OutOfMemory>
    ensures { IfOk result (λ room. room ≡ length
        (flat_map (commands_of worker) (phases_in phases.now))) }
{
    let mut room: usize = 0;
    for phase in phases {
        let more = count_of(worker, phase.as_slice());
        room = room.checked_add(more).ok_or(OutOfMemory)?;
    }
    Ok(room)
}

/// An empty list with room for all answers of the worker.
fn list_for(alloc: Global, worker: usize, phases: &[Phase]) -> Result<Vec<Answer>, OutOfMemory>
    ensures empty { IfOk result (λ answers. answers.items ≡ []) }
    ensures room { IfOk result (λ answers. length
        (flat_map (commands_of worker) (phases_in phases.now)) ≤ vec_capacity answers) }
{
    let room = room_for(worker, phases)?;
    Vec::with_capacity(alloc, room)
}

/// The workers, one for each seat, numbered from 0. Each has room for all its answers.
fn ready(alloc: Global, phases: &[Phase], seats: Vec<Seat>) -> Result<Vec<Worker>, OutOfMemory>
    ensures seats { IfOk result (λ workers. worker_seats workers.items ≡ seats.items) }
    ensures numbered { IfOk result (λ workers. AreNumbered 0 workers.items) }
    ensures room { IfOk result
        (λ workers. All (HasRoomForAnswers (phases_in phases.now)) workers.items) }
    ensures fresh { IfOk result (λ workers. All (λ worker. worker.answers.items ≡ [])
        workers.items) }
{
    let mut workers = Vec::with_capacity(alloc, seats.len())?;
    for seat in seats {
        let number = workers.len();
        let answers = list_for(alloc, number, phases)?;
        workers.push_reserved(Worker {
            number,
            seat,
            answers,
        });
    }
    Ok(workers)
}

/// The workers' seats, and their answers.
fn retire(alloc: Global, workers: Vec<Worker>) -> Result<(Vec<Seat>, Vec<Vec<Answer>>), OutOfMemory>
    ensures seats { IfOk result (λ parts. parts.0.items ≡ worker_seats workers.items) }
    ensures answers { IfOk result (λ parts. lists_in parts.1.items ≡ answers_of workers.items) }
{
    let mut seats = Vec::with_capacity(alloc, workers.len())?;
    let mut answers = Vec::with_capacity(alloc, workers.len())?;
    for worker in workers {
        let Worker {
            seat,
            answers: mine,
            ..
        } = worker;
        seats.push_reserved(seat);
        answers.push_reserved(mine);
    }
    Ok((seats, answers))
}

/// Workers at the seats run the phases: the seats, and the workers' answers.
fn worked<R: Threads + Wait + Sync, G: Gate + Sync>(
    rt: &R,
    alloc: Global,
    gate: &G,
    map: &Map,
    phases: &[Phase],
    seats: Vec<Seat>,
) -> Result<(Vec<Seat>, Vec<Vec<Answer>>), OutOfMemory>
    requires own { AreMine map.now seats.items }
    ensures { IfOk result (λ parts. HaveWorked map.now (phases_in phases.now) seats.items
        parts.0.items (lists_in parts.1.items)) }
{
    let workers = ready(alloc, phases, seats)?;
    let ran = run_phases(rt, gate, map, phases, workers)?;
    retire(alloc, ran)
}

/// What came of a script whose map has ended, and whose workers have these answers.
fn outcome_of(
    alloc: Global,
    ended: &Ended,
    answers: Vec<Vec<Answer>>,
) -> Result<Outcome, OutOfMemory>
    ensures answers { IfOk result (λ outcome. outcome.answers.items ≡ answers.items) }
    ensures size { IfOk result
        (λ outcome. outcome.size ≡ length (map.entries (map_left ended.now))) }
    ensures entries { IfOk result
        (λ outcome. outcome.entries.items ≡ map.entries (map_left ended.now)) }
{
    let size = ended.size();
    let entries = ended.entries(alloc)?;
    Ok(Outcome {
        answers,
        size,
        entries,
    })
}

/// Runs the phases on a new map of the shape, and ends it.
pub(crate) fn perform<R: Threads + Wait + Sync, G: Gate + Sync>(
    rt: &R,
    alloc: Global,
    gate: &G,
    shape: Shape,
    phases: &[Phase],
) -> Result<Outcome, OutOfMemory>
    ensures { IfOk result (IsOutcome shape (phases_in phases.now)) }
{
    let (map, seats) = Map::new(alloc, shape)?;
    let (seats, answers) = worked(rt, alloc, gate, &map, phases, seats)?;
    match map.finish(seats) {
        Ok(ended) => outcome_of(alloc, &ended, answers),
        Err(_) => unreachable!(),
    }
}
