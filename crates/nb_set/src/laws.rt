//! What a user of a set may rest on while its seats make one call after another. Each function
//! carries a law as its contract, so that the gate guards it; nobody calls it. A crate above takes
//! the laws as theorems, from `proofs/Theorems.antt`.
ghost use Rattle.nb_set.specs.Laws.{KeysAddUp, LogsAddUp};
ghost use Rattle.nb_set.specs.Walks.{WalkLasts, WholeWalk};

/// Calls add up: what a seat's log was, and which calls it made.
pub fn logs_add_up()
    ensures { LogsAddUp }
{}

/// A key came by as many calls as it went, and by one more where it is there.
pub fn keys_add_up()
    ensures { KeysAddUp }
{}

/// A seat that has worked has forgotten nothing; and a walk is its seat's also after other calls of
/// the seat, and has shown what it had.
pub fn walk_lasts()
    ensures { WalkLasts }
{}

/// A whole walk shows no key twice, keys that its seat has seen meanwhile, and each key that the
/// set has all the while.
pub fn whole_walk()
    ensures { WholeWalk }
{}
