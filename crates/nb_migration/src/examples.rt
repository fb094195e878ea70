//! Examples of runs and of events. Each function carries what it tells of as its contract; it does
//! nothing when it runs. The lists are written out in this crate's `specs/Examples.antt`.
ghost use Rattle.std.specs.Prelude.{◌≡◌};
ghost use Rattle.nb_migration.specs.Examples.{a_key_moves, events_of, idle_calls, idle_events, moves_of_a_key};
ghost use Rattle.nb_migration.specs.Runs.{AreTurns, history_of};

/// A key moves to the next core, where a put meets it that began in the first one.
pub fn a_key_moves()
    ensures turns { AreTurns a_key_moves }
    ensures history { history_of a_key_moves ≡ moves_of_a_key }
{}

/// Calls that change nothing are looks, or reads where they answer the user.
pub fn idle_calls()
    ensures { events_of idle_calls ≡ idle_events }
{}
