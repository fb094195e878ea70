//! What a crate above may rest on while its seats make one call after another. Each function
//! carries a law as its contract, so that the gate guards it; nobody calls it. A crate above takes
//! the laws as theorems, from `proofs/Theorems.antt`.
ghost use Rattle.nb_map.specs.Bulk.{ReadsAddUp};
ghost use Rattle.nb_map.specs.Crowding.{AsksAddUp, CrowdedByCalls};
ghost use Rattle.nb_map.specs.Entries.{EntriesAtRest};
ghost use Rattle.nb_map.specs.Fullness.{SampleIsSpread};
ghost use Rattle.nb_map.specs.Laws.{LogsAddUp, RepliesFit};
ghost use Rattle.nb_map.specs.OneSeat.{OneSeat};
ghost use Rattle.nb_map.specs.Settling.{SettledIsEnded, SettledTwice};
ghost use Rattle.nb_map.specs.Walks.{WalkLasts, WholeWalk};

/// The slots that a look at how full a map is looks at are slots of the table, each in a block of
/// its own.
pub fn sample_is_spread()
    ensures { SampleIsSpread }
{}

/// Calls add up: what a seat's log was, and which calls it made.
pub fn logs_add_up()
    ensures { LogsAddUp }
{}

/// Reads of many keys add up: those of some keys after those of others are reads of all of them.
pub fn reads_add_up()
    ensures { ReadsAddUp }
{}

/// The reply of a call that a seat made is the call's for what was at its key.
pub fn replies_fit()
    ensures { RepliesFit }
{}

/// A map with one seat replies as a plain map does, call by call.
pub fn one_seat()
    ensures { OneSeat }
{}

/// What seats are asked adds up: a seat claims a key that is new to the tables only for a call that
/// puts a number at it.
pub fn asks_add_up()
    ensures { AsksAddUp }
{}

/// Only calls on as many other keys as the last table has slots can fill a map for a key.
pub fn crowded_by_calls()
    ensures { CrowdedByCalls }
{}

/// A walk is its seat's also after other calls of the seat.
pub fn walk_lasts()
    ensures { WalkLasts }
{}

/// A whole walk shows no key twice, pairs that its seat has read meanwhile, and each key that the
/// map has all the while.
pub fn whole_walk()
    ensures { WholeWalk }
{}

/// Where all seats settle twice, and no call was made between, the second time changes nothing.
pub fn settled_twice()
    ensures { SettledTwice }
{}

/// Where all seats settle and then finish the map, what is left is what they knew.
pub fn settled_is_ended()
    ensures { SettledIsEnded }
{}

/// Where all seats settle, one of them walks, and all settle again, the walk has shown all entries
/// of the map.
pub fn entries_at_rest()
    ensures { EntriesAtRest }
{}
