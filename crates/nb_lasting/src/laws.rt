//! What a crate above may rest on while calls are made one after another. Each function carries a
//! law as its contract, so that the gate guards it; nobody calls it.
ghost use Rattle.nb_lasting.specs.Epochs.{OneLogForAll};
ghost use Rattle.nb_lasting.specs.Guests.{CallsAddUp, OneLogOfGuests, OneLogSoFar};
ghost use Rattle.nb_lasting.specs.Laws.{OneLog};

/// There is one log of all calls on a map without an end, over all renewals: each call stands in it
/// once, in the order of the calls, with the reply of a plain map.
pub fn one_log()
    ensures { OneLog }
{}

/// The same of the handles of `nb_map`, whose seats threads share: where a whole handle is made
/// anew, again and again, there is one log of the calls of all seats, over all its maps.
pub fn one_log_for_all()
    ensures { OneLogForAll }
{}

/// The calls of guests that share a map without an end are one log, from its beginning to its end:
/// each call stands in it once, in the order of its guest's calls, with the reply of a plain map.
pub fn one_log_of_guests()
    ensures { OneLogOfGuests }
{}

/// What a guest has called adds up, call by call.
pub fn guest_calls_add_up()
    ensures { CallsAddUp }
{}

/// The same whenever all guests settle, while the map goes on: the size is that of the map which
/// this log leaves, and the guests have called nothing by settling.
pub fn one_log_so_far()
    ensures { OneLogSoFar }
{}
