//! Workers, who run a script's commands on one map, at the same time.
ghost use Rattle.std.specs.Prelude.{◌≡◌, ◌<◌, ◌∷◌, ◌++◌, [], length, All, IfOk, vec_capacity};
ghost use Rattle.std.specs.Thread.{IsSync};
ghost use Rattle.nb_map.specs.Maps.{IsMine};
ghost use Rattle.std.specs.List.{AllZip};
ghost use Rattle.nb_runner.specs.Working.{
  AreNumbered,
  HasMetAll,
  HasMetAs,
  HasRoomForAnswers,
  HasRunPhase,
  HasWorkedFor,
  HaveRunAll,
  IsAnswered,
  IsReadyFor,
  IsRun,
  phases_in,
  worker_seats,
};

use crate::answers::Answer;
use crate::gates::Gate;
use nb_core::OutOfMemory;
use nb_map::{Map, Seat};
use nb_script::reader::Phase;
use nb_script::script::Command;
use std::snapshot::Snapshot;
use std::sync::Wait;
use std::thread;
use std::thread::{Promise, Threads};

/// A worker: its number, its seat of the map, and what its commands were answered so far.
#[derive(Drop)]
pub(crate) struct Worker {
    pub(crate) number: usize,
    pub(crate) seat: Seat,
    pub(crate) answers: Vec<Answer>,
}

impl Worker {
    /// Whether a command of the phase is the worker's.
    fn is_busy(&self, phase: &[(usize, Command)]) -> bool {
        phase.iter().any(|task| task.0 == self.number)
    }

    /// Runs the worker's commands of a phase.
    fn run<R: Wait, G: Gate>(
        self,
        rt: &R,
        gate: &G,
        map: &Map,
        phase: &[(usize, Command)],
    ) -> Worker
        requires ready { IsReadyFor map.now phase.now self }
        ensures own { IsMine map.now result.seat }
        ensures ran { HasRunPhase map.now phase.now self result }
    {
        let Worker {
            number,
            mut seat,
            mut answers,
        } = self;
        let mut done = 0;
        for (worker, command) in phase {
            if *worker == number {
                gate.before(number, done);
                let answer = answer_to(rt, map, &mut seat, command);
                gate.after(number, done);
                answers.push_reserved(answer);
                done += 1;
            }
        }
        Worker {
            number,
            seat,
            answers,
        }
    }
}

/// A thread runs this worker's commands of a phase.
#[derive(Drop)]
struct Runs<'a> {
    map: &'a Map,
    phase: &'a [(usize, Command)],
    worker: Snapshot<Worker>,
}

impl<'a> Promise<Worker> for Runs<'a> {
    ghost kept_by = { λ p worker. IsRun p.map.now p.phase.now p.worker.value worker };
}

/// Runs the commands of a phase, those of all workers at the same time: a thread of its own runs
/// those of the last worker, while this one goes on with the others in the same way. Of the workers
/// so many have commands in the phase; no thread is started for one that has none, nor for the last
/// one that has some.
fn run_together<R: Threads + Wait + Sync, G: Gate + Sync>(
    rt: &R,
    gate: &G,
    map: &Map,
    phase: &[(usize, Command)],
    busy: usize,
    workers: Vec<Worker>,
) -> Result<Vec<Worker>, OutOfMemory>
    requires ready { All (IsReadyFor map.now phase.now) workers.items }
    ensures room { IfOk result (λ ran. vec_capacity ran ≡ vec_capacity workers) }
    ensures ran { IfOk result (λ ran. AllZip (IsRun map.now phase.now) workers.items ran.items) }
{
    let mut workers = workers;
    let Some(last) = workers.pop() else {
        return Ok(workers);
    };
    if busy < 2 || !last.is_busy(phase) {
        let ran = last.run(rt, gate, map, phase);
        let mut workers = run_together(rt, gate, map, phase, busy, workers)?;
        workers.push_reserved(ran);
        return Ok(workers);
    }
    let busy = busy - 1;
    thread::scope(
        thread::scope_env(),
        rt,
        move |scope| -> Result<Vec<Worker>, OutOfMemory>
            requires rt { IsSync R.row }
            requires gate { IsSync G.row }
            requires last { IsReadyFor map.now phase.now last }
            requires others { All (IsReadyFor map.now phase.now) workers.items }
            requires room { length workers.items < vec_capacity workers }
            ensures room { IfOk result (λ ran. vec_capacity ran ≡ vec_capacity workers) }
            ensures ran { IfOk result (λ ran. AllZip (IsRun map.entry.now phase.entry.now)
                (workers.items ++ last ∷ []) ran.items) }
        {
            let runs = Runs {
                map,
                phase,
                worker: Snapshot::of(&last),
            };
            let spawned = scope.spawn_with(
                runs,
                move || -> Worker
                    requires ready { IsReadyFor map.now phase.now last }
                    ensures { IsRun map.entry.now phase.entry.now last result }
                { last.run(rt, gate, map, phase) },
            );
            let child = spawned.map_err(|_| OutOfMemory)?;
            let others = run_together(rt, gate, map, phase, busy, workers);
            // The thread ends before anything else, and what it gives back isn't lost where the
            // others ran out of memory.
            let ran = child.join(rt);
            let mut workers = others?;
            workers.push_reserved(ran);
            Ok(workers)
        },
    )
}

/// Runs the commands of a phase.
fn run_phase<R: Threads + Wait + Sync, G: Gate + Sync>(
    rt: &R,
    gate: &G,
    map: &Map,
    phase: &[(usize, Command)],
    workers: Vec<Worker>,
) -> Result<Vec<Worker>, OutOfMemory>
    requires ready { All (IsReadyFor map.now phase.now) workers.items }
    ensures ran { IfOk result (λ ran. AllZip (IsRun map.now phase.now) workers.items ran.items) }
{
    let busy = workers
        .iter()
        .filter(|worker| worker.is_busy(phase))
        .count();
    run_together(rt, gate, map, phase, busy, workers)
}

/// Lets a seat and each of these workers meet.
fn meet_each(map: &Map, seat: &mut Seat, others: &mut [Worker])
    requires own { IsMine map.now seat.old }
    requires others { All (λ worker. IsMine map.now worker.seat) others.old }
    ensures own { IsMine map.now seat.new }
    ensures met { HasMetAll map.now (worker_seats others.old) seat.old seat.new }
    ensures others { AllZip (HasMetAs map.now (seat.old ∷ [])) others.old others.new }
{
    for other in others.iter_mut() {
        map.meet(seat, &mut other.seat);
    }
}

/// Lets every two of the workers meet.
fn meet_all(map: &Map, workers: Vec<Worker>) -> Vec<Worker>
    requires own { All (λ worker. IsMine map.now worker.seat) workers.items }
    ensures room { vec_capacity result ≡ vec_capacity workers }
    ensures met { AllZip (HasMetAs map.now (worker_seats workers.items))
        workers.items result.items }
{
    let mut workers = workers;
    let Some(mut last) = workers.pop() else {
        return workers;
    };
    meet_each(map, &mut last.seat, workers.as_mut_slice());
    let mut workers = meet_all(map, workers);
    workers.push_reserved(last);
    workers
}

/// Runs the phases, one after another. All workers meet after each.
pub(crate) fn run_phases<R: Threads + Wait + Sync, G: Gate + Sync>(
    rt: &R,
    gate: &G,
    map: &Map,
    phases: &[Phase],
    workers: Vec<Worker>,
) -> Result<Vec<Worker>, OutOfMemory>
    requires own { All (λ worker. IsMine map.now worker.seat) workers.items }
    requires numbered { AreNumbered 0 workers.items }
    requires room { All (HasRoomForAnswers (phases_in phases.now)) workers.items }
    ensures ran { IfOk result (λ ran. HaveRunAll map.now (phases_in phases.now)
        workers.items ran.items) }
{
    let mut workers = workers;
    for phase in phases {
        let apart = run_phase(rt, gate, map, phase.as_slice(), workers)?;
        workers = meet_all(map, apart);
    }
    Ok(workers)
}

/// Makes the command's call.
fn answer_to<R: Wait>(rt: &R, map: &Map, seat: &mut Seat, command: &Command) -> Answer
    requires own { IsMine map.now seat.old }
    ensures own { IsMine map.now seat.new }
    ensures answered { IsAnswered map.now command.now result seat.old seat.new }
    ensures worked { HasWorkedFor map.now command.now seat.old seat.new }
{
    match *command {
        Command::Get(key) => Answer::before(map.get(seat, key)),
        Command::Put(key, number) => Answer::put(map.put(rt, seat, key, number)),
        Command::PutIfAbsent(key, number) => {
            Answer::put(map.put_if_absent(rt, seat, key, number))
        }
        Command::Replace(key, number) => Answer::before(map.replace(rt, seat, key, number)),
        Command::ReplaceIf(key, old, new) => {
            Answer::Matched(map.replace_if(rt, seat, key, old, new))
        }
        Command::Remove(key) => Answer::before(map.remove(rt, seat, key)),
        Command::RemoveIf(key, number) => { Answer::Matched(map.remove_if(rt, seat, key, number)) }
        Command::Add(key, number) => Answer::added(map.add(rt, seat, key, number)),
    }
}
