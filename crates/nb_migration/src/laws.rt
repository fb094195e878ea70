//! What a crate above may rest on, as laws. Nobody calls the functions that carry them; all but the
//! last are theorems in `proofs/Theorems.antt`.
ghost use Rattle.nb_migration.specs.CoreCalls.{CallsAreEntries, CallsAreMadeSo};
ghost use Rattle.nb_migration.specs.Laws.{AnswersTell};
ghost use Rattle.nb_migration.specs.Runs.{CallsAreEvents, CoresHaveLogs, RunsAreOneMap};
ghost use Rattle.nb_migration.specs.Shown.{StatesAreTold};

use nb_moving::laws::cores_are_one_map;

/// The answer of a write tells what the key had, and what it has then.
pub fn answers_tell()
    ensures { AnswersTell }
{}

/// A call that a function promises is one entry of its core's log, which is new, with its reply.
pub fn calls_are_entries()
    ensures { CallsAreEntries }
{}

/// The users' calls are made in a core by the calls that `writes` and `copying` promise.
pub fn calls_are_made_so()
    ensures { CallsAreMadeSo }
{}

/// A call of the protocol is an event of moving keys: where its core's log shows what its key is
/// there, the event may follow, as far as that core is concerned; and the log with the call's entry
/// shows what the key is there then. What its author knows of other cores is a premise.
pub fn calls_are_events()
    ensures { CallsAreEvents }
{}

/// What a look shows of a key, and whether its core's log ever had a number of it, tells what the
/// key is there.
pub fn states_are_told()
    ensures { StatesAreTold }
{}

/// The logs of all cores and the history of moving keys go together: where each call is made so,
/// each log is replayed, the history is legal, and each log shows what each key is in its core.
pub fn cores_have_logs()
    ensures { CoresHaveLogs }
{}

/// So the users' calls in all cores are one map.
pub fn runs_are_one_map()
    ensures { RunsAreOneMap }
{
    cores_are_one_map();
}
