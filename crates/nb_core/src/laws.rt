//! The laws of every shape and of every legal history, which say what holds at each moment,
//! whatever atomic steps were made by whom. Each function carries a law as its contract, so that
//! the gate guards it; nobody calls it. The crates above take the laws as theorems, from
//! `proofs/Theorems.antt`, under the same names.
ghost use Rattle.nb_core.specs.Laws.{
  BeginningsAreLegal,
  CallsAppend,
  ClaimedOnPath,
  Codings,
  CompletePassed,
  ContentOnce,
  CountedOnce,
  CrowdedAbsent,
  Decided,
  FewKeys,
  HasOneSlot,
  HeldHasPlace,
  InstalledAfter,
  LawfulChanges,
  LawfulWords,
  LogIsReplayed,
  LostExchange,
  MapInRange,
  Moved,
  NothingIsMissing,
  OnePlace,
  OwnLasts,
  PassedAbove,
  PassedOverAdds,
  PassedSettled,
  PathsAreDistinct,
  PlaceIs,
  ReadReplies,
  Room,
  SeenLasts,
  SizeIsNet,
  SlotsStay,
  TablesAreLinked,
  TablesStand,
  TopComplete,
  WholeCrowded,
  WinNumber,
  WinReplies,
};
ghost use Rattle.nb_core.specs.Plans.{LimitsFit, IndicesAreDistinct, SizesNeverFall};

/// No two words of a chain have one index, and each lies in the chain.
pub fn indices_are_distinct()
    ensures { IndicesAreDistinct }
{}

/// No table is smaller than the one before it.
pub fn sizes_never_fall()
    ensures { SizesNeverFall }
{}

/// The limit of a table is a slot at least, and no more slots than the table has.
pub fn limits_fit()
    ensures { LimitsFit }
{}

/// A value word and its state tell each other. To set a word's lowest bit primes its state, to set
/// the bit above in a primed number's word finishes the number, and the words of the states that
/// aren't primed are the even ones.
pub fn codings()
    ensures { Codings }
{}

/// There are as many words as the plan says. Each key word and value word stands for a state, a
/// slot without a key has the value null, and the last table's header words are 0.
pub fn lawful_words()
    ensures { LawfulWords }
{}

/// One more event changes one word at most, and of keys and values only those of its own slot: a
/// key from empty to claimed or closed, a value from null or a tombstone to a number, from a number
/// to another one or a tombstone, from unprimed to primed, from a primed number to a finished one.
pub fn lawful_changes()
    ensures { LawfulChanges }
{}

/// At every moment the tables stand for the map of the won exchanges.
pub fn stands()
    ensures { TablesStand }
{}

/// A key has at most one slot in a table.
pub fn one_slot()
    ensures { HasOneSlot }
{}

/// A claimed or closed key never changes, nor does anything in a finished slot.
pub fn stays()
    ensures { SlotsStay }
{}

/// A value that was ever a number or a tombstone is never null again, primed or not.
pub fn content_once()
    ensures { ContentOnce }
{}

/// A table is installed only where the one two below it is complete.
pub fn installed_after()
    ensures { InstalledAfter }
{}

/// What an installed table shows of a key that is passed in all tables below it is what the map
/// has.
pub fn decided()
    ensures { Decided }
{}

/// Each finished slot was turned finished by just one event, and is counted once at most.
pub fn counted()
    ensures { CountedOnce }
{}

/// While a table isn't complete, the next one has an empty slot for each key that is still to be
/// copied.
pub fn room()
    ensures { Room }
{}

/// A key for which the last table has no slot left is absent from the map.
pub fn crowded_absent()
    ensures { CrowdedAbsent }
{}

/// The first place of a key from a table on never changes.
pub fn one_place()
    ensures { OnePlace }
{}

/// What the calls of all seats added, less what they took out, is the number of the map's keys.
pub fn size_is_net()
    ensures { SizeIsNet }
{}

/// The log of a history is replayed: each call replies as the map does that the calls before it
/// leave. It leaves the history's map, and each of its entries is of one of the seats.
pub fn log_is_replayed()
    ensures { LogIsReplayed }
{}

/// The calls of a log that goes on from another are those that are new, and those of the other.
pub fn calls_append()
    ensures { CallsAppend }
{}

/// Each event is of one of the seats, so nothing is missing from a history that has the events of
/// all seats.
pub fn nothing_is_missing()
    ensures { NothingIsMissing }
{}

/// Each beginning of a legal history is legal.
pub fn beginnings_are_legal()
    ensures { BeginningsAreLegal }
{}

/// What a seat has once seen installed, claimed, passed, finished and the like is so ever after.
pub fn seen_lasts()
    ensures { SeenLasts }
{}

/// The key of a finished number has a value in the next table.
pub fn moved()
    ensures { Moved }
{}

/// Each key is passed in a complete table.
pub fn complete_passed()
    ensures { CompletePassed }
{}

/// A passed key has no unfinished slot in the table, so it may be written in the next one.
pub fn passed_settled()
    ensures { PassedSettled }
{}

/// Where a call may win an exchange, the map has at its key the number that the call replaces.
pub fn win_number()
    ensures { WinNumber }
{}

/// All tables below the top word are complete.
pub fn top_complete()
    ensures { TopComplete }
{}

/// Tables come one after another: only one that is there has keys, and only one that has a next one
/// is copied.
pub fn linked()
    ensures { TablesAreLinked }
{}

/// A key's slot lies on its path, behind slots of other keys.
pub fn on_path()
    ensures { ClaimedOnPath }
{}

/// The slots of a key's path are distinct.
pub fn paths_are_distinct()
    ensures { PathsAreDistinct }
{}

/// Where other keys have a key's whole path in the last table, they have all of its slots.
pub fn whole_crowded()
    ensures { WholeCrowded }
{}

/// Where a key with a slot in a table is passed in the next one, the table is complete.
pub fn passed_above()
    ensures { PassedAbove }
{}

/// Where a key had no unfinished slot in the table below at a moment, a seat has made no call
/// since, and another unprimed value stands in the key's slot than then, another seat has won an
/// exchange on the key since.
pub fn lost_exchange()
    ensures { LostExchange }
{}

/// The exchanges that others won since a moment are those up to a later moment, and those since
/// then.
pub fn passed_over_adds()
    ensures { PassedOverAdds }
{}

/// Events of other seats leave a seat's calls, and what it counted and turned finished, as they
/// are.
pub fn own_lasts()
    ensures { OwnLasts }
{}

/// A call that may win an exchange may reply the number that it replaces, and that its condition
/// held.
pub fn win_replies()
    ensures { WinReplies }
{}

/// A call that leaves alone what the map has at its key may reply it.
pub fn read_replies()
    ensures { ReadReplies }
{}

/// The map has keys and numbers of their ranges alone.
pub fn map_in_range()
    ensures { MapInRange }
{}

/// The map has no more keys than there are.
pub fn few_keys()
    ensures { FewKeys }
{}

/// Where all tables below one are complete, each key of the map has a place from that table on.
pub fn held_has_place()
    ensures { HeldHasPlace }
{}

/// The place of a key from a table on is its slot in the first table there that has one.
pub fn place_is()
    ensures { PlaceIs }
{}
