//! The laws of legal histories of moving keys. Each function carries a law as its contract, so that
//! the gate guards it; nobody calls it.
ghost use Rattle.nb_moving.specs.Laws.{
  ClosedHasNone,
  ClosedStays,
  CoresAreDistinct,
  CoresAreOneMap,
  HadStays,
  LinksStay,
  MovedOnce,
  NoneIntoSealed,
  ReachedStays,
  RowsAreLinked,
  SealedBehindClosed,
  StepsLeaveNumbers,
};

/// All cores together are one map. Each user's call was decided at one of its own events, in its
/// thread's order, and replied as a plain map does; and what this map has at a key stands at the
/// key's home.
pub fn cores_are_one_map()
    ensures { CoresAreOneMap }
{}

/// Whatever decides no user's call leaves each key's number, however late it comes.
pub fn steps_leave_numbers()
    ensures { StepsLeaveNumbers }
{}

/// A core comes once in a row.
pub fn cores_are_distinct()
    ensures { CoresAreDistinct }
{}

/// Behind a core of a row comes the one to which its link leads the key, and none if it has no
/// link.
pub fn rows_are_linked()
    ensures { RowsAreLinked }
{}

/// What is closed to a key stays closed to it.
pub fn closed_stays()
    ensures { ClosedStays }
{}

/// Where all cores before one are closed to a key, they are so ever after.
pub fn reached_stays()
    ensures { ReachedStays }
{}

/// A link never changes. So where a core is found without one, it had none before.
pub fn links_stay()
    ensures { LinksStay }
{}

/// A core that is closed to a key has no number of it.
pub fn closed_has_none()
    ensures { ClosedHasNone }
{}

/// The cores before a sealed one are closed to each key.
pub fn sealed_behind_closed()
    ensures { SealedBehindClosed }
{}

/// No copy comes into a sealed core, however late.
pub fn none_into_sealed()
    ensures { NoneIntoSealed }
{}

/// Where a key had a number, it had one ever after.
pub fn had_stays()
    ensures { HadStays }
{}

/// A key's number is frozen in a core at most once, and copied into one at most once.
pub fn moved_once()
    ensures { MovedOnce }
{}
