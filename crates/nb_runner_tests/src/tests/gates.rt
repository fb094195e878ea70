//! A gate is called round each command, in the worker's thread.

use nb_core::Shape;
use nb_runner::{FromRead, FromWrite, Gate, Options, RunFault, run_gated};
use nb_script::script::Cause;
use std::alloc::Global;
use std::process::Abort;
use std::sync::Wait;
use std::sync::atomic::{AtomicBool, AtomicU64, Ordering};
use std::thread::Threads;

/// Two workers run a script on sixteen slots: what comes of it, and all that is written.
fn assert_gated<H: Abort + AllocGlobal + Threads + Wait + Sync, G: Gate + Sync>(
    rt: &H,
    gate: &G,
    script: &[u8],
    answer: Result<(), RunFault>,
    text: &str,
) {
    let shape = Shape::new(4, 4, 2, 1).expect(rt, "a shape");
    let mut output = Vec::new(rt.alloc());
    let mut reader = FromRead::new(script);
    let mut writer = FromWrite::new(&mut output);
    let result = run_gated(rt, gate, &Options { shape }, &mut reader, &mut writer);
    assert_eq!(rt; result, answer);
    assert_eq!(rt; output.as_slice(), text.as_bytes());
}

/// Where two workers with a command each come by: before it, and behind it.
const PLACES: usize = 4;

/// Each worker shows at a place that it has come there, and waits until another has come to the
/// place that is named.
#[derive(Drop)]
struct Waits {
    come: [AtomicBool; PLACES],
    waits_for: [usize; PLACES],
    is_late: AtomicBool,
}

impl Waits {
    /// A gate that wasn't called yet.
    fn new(waits_for: [usize; PLACES]) -> Waits {
        Waits {
            come: [
                AtomicBool::new(false),
                AtomicBool::new(false),
                AtomicBool::new(false),
                AtomicBool::new(false),
            ],
            waits_for,
            is_late: AtomicBool::new(false),
        }
    }

    fn comes(&self, place: usize) {
        if place >= PLACES {
            return;
        }
        self.come[place].store(true, Ordering::SeqCst);
        let other = self.waits_for[place];
        for _turn in 0..(1 << 28) {
            if other >= PLACES || self.come[other].load(Ordering::SeqCst) {
                return;
            }
        }
        self.is_late.store(true, Ordering::SeqCst);
    }
}

impl Gate for Waits {
    fn before(&self, worker: usize, _number: usize) {
        self.comes(worker);
    }

    fn after(&self, worker: usize, _number: usize) {
        self.comes(worker.saturating_add(2));
    }
}

#[test]
fn workers_wait_for_each_other(rt: HostRuntime) {
    let cases: [([usize; PLACES], &[u8], &str); 2] = [
        // two_workers_at_once: each waits before its command until the other has come to its own.
        (
            [1, 0, PLACES, PLACES],
            b"0 put 1 11\n1 put 2 12\n",
            "0 -\n1 -\nsize 2\n1 11\n2 12\n",
        ),
        // command_between_its_gates: worker 1 waits before its command until worker 0's is over,
        // and worker 0 behind its own until worker 1's is over. So worker 1 finds what 0 puts.
        (
            [PLACES, 2, 3, PLACES],
            b"0 put 1 5\n1 get 1\n",
            "0 -\n1 5\nsize 1\n1 5\n",
        ),
    ];
    for (waits_for, script, text) in cases {
        let gate = Waits::new(waits_for);
        assert_gated(&rt, &gate, script, Ok(()), text);
        assert!(rt; !gate.is_late.load(Ordering::SeqCst), "at {text:?}");
    }
}

/// Sees that it is called before and after each command of two workers, by turns, and that the
/// commands' numbers count from 0 in each phase.
#[derive(Drop)]
struct Turns {
    /// What each worker's next call is, if it isn't the first of a phase: twice the command's
    /// number before it, one more after it.
    next: [AtomicU64; 2],
    calls: AtomicU64,
    is_wrong: AtomicBool,
}

impl Turns {
    /// A gate that wasn't called yet.
    fn new() -> Turns {
        Turns {
            next: [AtomicU64::new(0), AtomicU64::new(0)],
            calls: AtomicU64::new(0),
            is_wrong: AtomicBool::new(false),
        }
    }

    fn called(&self, worker: usize, number: usize, is_after: u64) {
        let turn = (number as u64).wrapping_mul(2).wrapping_add(is_after);
        self.calls.fetch_add(1, Ordering::SeqCst);
        if worker > 1 {
            self.is_wrong.store(true, Ordering::SeqCst);
            return;
        }
        let due = self.next[worker].swap(turn.wrapping_add(1), Ordering::SeqCst);
        let begins = turn == 0 && due % 2 == 0;
        if turn != due && !begins {
            self.is_wrong.store(true, Ordering::SeqCst);
        }
    }
}

impl Gate for Turns {
    fn before(&self, worker: usize, number: usize) {
        self.called(worker, number, 0);
    }

    fn after(&self, worker: usize, number: usize) {
        self.called(worker, number, 1);
    }
}

/// A thousand lines without a fault, and one with a fault.
fn broken_at_last<H: Abort>(rt: &H, alloc: Global) -> Vec<u8> {
    let mut script = Vec::new(alloc);
    for line in 0..1001 {
        let text = if line < 1000 {
            b"0 put 1 1\n"
        } else {
            b"0 put 1 x\n"
        };
        script.extend_from_slice(text).expect(rt, "memory");
    }
    script
}

#[test]
fn gate_round_each_command(rt: HostRuntime) {
    let broken = broken_at_last(&rt, rt.alloc());
    let fault = RunFault::Line(1001, Cause::Number);
    let script = b"0 put 1 1\n1 put 2 2\n0 get 1\n--\n0 get 1\n1 get 2\n1 get 1\n".as_slice();
    let text = "0 -\n0 1\n1 -\n0 1\n1 2\n1 1\nsize 2\n1 1\n2 2\n";
    let cases = [
        (script, Ok(()), text, 12),
        // no_gate_before_a_fault: no command comes before all of the script was read, and found to
        // be without a fault.
        (broken.as_slice(), Err(fault), "", 0),
    ];
    for (script, answer, text, calls) in cases {
        let gate = Turns::new();
        assert_gated(&rt, &gate, script, answer, text);
        assert!(rt; !gate.is_wrong.load(Ordering::SeqCst), "at {text:?}");
        assert_eq!(rt; gate.calls.load(Ordering::SeqCst), calls, "at {text:?}");
    }
}
