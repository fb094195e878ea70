//! Examples of histories. Each function carries what it tells of as its contract; it does nothing
//! when it runs.
//!
//! The histories are written out in this crate's `specs/Histories.antt`, and what wrong code would
//! do in `specs/Refusals.antt`.
ghost use Rattle.std.specs.Prelude.{◌≡◌, pos, List, [], ◌∷◌, Some, None, map, replicate};
ghost use Rattle.nb_core.specs.Plans.{
  IsPlan,
  base_of,
  key_place,
  limit_of,
  plan,
  value_place,
  word_count,
};
ghost use Rattle.nb_core.specs.States.{key_word, value_state, value_word};
ghost use Rattle.nb_core.specs.Tables.{chunk_of, tables_at};
ghost use Rattle.nb_histories.specs.Histories.{
  HasNumbers,
  headers_at,
  slots_at,
  top_at,
  grows_when_a_path_is_crowded,
  a_removal_is_not_copied,
  copy_of_one_slot,
  stopped_copier,
  three_helpers,
  contended_once,
  contended_once_with_two_tries,
  filled_removed_refilled,
  plan_of_three,
  same_size_successor,
  add_contended_once,
  adds,
  full_in_the_middle,
  half_copied,
};
ghost use Rattle.nb_core.specs.History.{IsLegal};
ghost use Rattle.nb_core.specs.Log.{log_of};
ghost use Rattle.nb_core.specs.Tables.{finished_among};
ghost use Rattle.nb_core.specs.Meaning.{IsCrowded, net_of_seats, place_of};
ghost use Rattle.nb_core.specs.declared.numbers.TheConstants.{KEY_MAX, VALUE_MAX};
ghost use Rattle.nb_core.specs.declared.states.KeyState.TheVariants.{Claimed, Dead, Empty};
ghost use Rattle.nb_core.specs.declared.states.ValueState.TheVariants.{
  Null,
  Tombstone,
  Live,
  PrimedNull,
  PrimedTombstone,
  Primed,
  Finished,
};

/// Three keys fill the path of key 12 up to the limit of the first table: a larger one is linked,
/// the three are copied, the last slot is closed, and key 12 gets a slot in the new table.
pub fn grows_when_a_path_is_crowded()
    ensures legal { IsLegal grows_when_a_path_is_crowded.plan grows_when_a_path_is_crowded.events }
    ensures slots_of_0 { slots_at grows_when_a_path_is_crowded 0 ≡ (0, Claimed 0, Finished 10)
        ∷ (1, Claimed 4, Finished 14)
        ∷ (2, Claimed 8, Finished 18) ∷ (3, Dead, Null) ∷ [] }
    ensures slots_of_1 { slots_at grows_when_a_path_is_crowded 1 ≡ (0, Claimed 0, Live 10)
        ∷ (1, Claimed 8, Live 18)
        ∷ (4, Claimed 4, Live 14) ∷ (5, Claimed 12, Live 22) ∷ [] }
    ensures slots_of_2 { slots_at grows_when_a_path_is_crowded 2 ≡ [] }
    ensures headers_of_0 { headers_at grows_when_a_path_is_crowded 0 ≡ (1, 4, 4) }
    ensures top { top_at grows_when_a_path_is_crowded ≡ 1 }
    ensures numbers { HasNumbers grows_when_a_path_is_crowded
        ((0, Some 10) ∷ (4, Some 14) ∷ (8, Some 18) ∷ (12, Some 22)
        ∷ []) }
{}

/// The same, with key 4 removed before the table grows: its slot is primed and nothing is copied
/// for it.
pub fn a_removal_is_not_copied()
    ensures legal { IsLegal a_removal_is_not_copied.plan a_removal_is_not_copied.events }
    ensures slots_of_0 { slots_at a_removal_is_not_copied 0 ≡ (0, Claimed 0, Finished 10)
        ∷ (1, Claimed 4, PrimedTombstone)
        ∷ (2, Claimed 8, Finished 18) ∷ (3, Dead, Null) ∷ [] }
    ensures slots_of_1 { slots_at a_removal_is_not_copied 1 ≡ (0, Claimed 0, Live 10)
        ∷ (1, Claimed 8, Live 18)
        ∷ (4, Claimed 12, Live 22) ∷ [] }
    ensures slots_of_2 { slots_at a_removal_is_not_copied 2 ≡ [] }
    ensures headers_of_0 { headers_at a_removal_is_not_copied 0 ≡ (1, 4, 4) }
    ensures top { top_at a_removal_is_not_copied ≡ 1 }
    ensures numbers { HasNumbers a_removal_is_not_copied
        ((0, Some 10) ∷ (4, None) ∷ (8, Some 18) ∷ (12, Some 22) ∷ []) }
{}

/// Seat 0 primed a slot and stopped; seat 1, which reads its key, copies this one slot and counts
/// it.
pub fn copy_of_one_slot()
    ensures legal { IsLegal copy_of_one_slot.plan copy_of_one_slot.events }
    ensures slots_of_0 { slots_at copy_of_one_slot 0 ≡ (0, Claimed 0, Finished 10)
        ∷ (1, Claimed 4, Live 14)
        ∷ (2, Claimed 8, Live 18) ∷ [] }
    ensures slots_of_1 { slots_at copy_of_one_slot 1 ≡ (0, Claimed 0, Live 10) ∷ [] }
    ensures headers_of_0 { headers_at copy_of_one_slot 0 ≡ (1, 0, 1) }
    ensures top { top_at copy_of_one_slot ≡ 0 }
    ensures numbers { HasNumbers copy_of_one_slot
        ((0, Some 10) ∷ (4, Some 14) ∷ (8, Some 18) ∷ []) }
{}

/// Seat 0 stopped after it had primed a slot. Seat 1 removes the key and completes two tables. When
/// seat 0 goes on, it meets a primed tombstone where it would store, and stores nothing.
pub fn stopped_copier()
    ensures legal { IsLegal stopped_copier.plan stopped_copier.events }
    ensures slots_of_0 { slots_at stopped_copier 0 ≡ (0, Claimed 0, Finished 10)
        ∷ (1, Claimed 4, Finished 14)
        ∷ (2, Claimed 8, Finished 18) ∷ (3, Dead, Null) ∷ [] }
    ensures slots_of_1 { slots_at stopped_copier 1 ≡ (0, Claimed 0, PrimedTombstone)
        ∷ (1, Claimed 8, Finished 18)
        ∷ (2, Claimed 16, Finished 26) ∷ (3, Claimed 24, Finished 34) ∷ (4, Claimed 4, Finished 14)
        ∷ (5, Dead, Null) ∷ (6, Dead, Null) ∷ (7, Dead, Null) ∷ [] }
    ensures slots_of_2 { slots_at stopped_copier 2 ≡ (0, Claimed 16, Live 26)
        ∷ (1, Claimed 32, Live 42)
        ∷ (4, Claimed 4, Live 14) ∷ (8, Claimed 8, Live 18) ∷ (9, Claimed 24, Live 34) ∷ [] }
    ensures headers_of_0 { headers_at stopped_copier 0 ≡ (1, 4, 4) }
    ensures headers_of_1 { headers_at stopped_copier 1 ≡ (1, 8, 8) }
    ensures top { top_at stopped_copier ≡ 2 }
    ensures numbers { HasNumbers stopped_copier
        ((0, None) ∷ (4, Some 14) ∷ (8, Some 18) ∷ (16, Some 26) ∷ (24, Some 34)
        ∷ (32, Some 42) ∷ []) }
{}

/// Three seats copy one table: two take a chunk of eight slots each, the third finds none left, and
/// one promotes.
pub fn three_helpers()
    ensures legal { IsLegal three_helpers.plan three_helpers.events }
    ensures slots_of_0 { slots_at three_helpers 0 ≡ (0, Claimed 0, Finished 10)
        ∷ (1, Claimed 16, Finished 26)
        ∷ (2, Claimed 32, Finished 42) ∷ (3, Claimed 48, Finished 58) ∷ (4, Claimed 64, Finished 74)
        ∷ (5, Claimed 80, Finished 90) ∷ (6, Dead, Null) ∷ (7, Dead, Null) ∷ (8, Dead, Null)
        ∷ (9, Dead, Null) ∷ (10, Dead, Null) ∷ (11, Dead, Null) ∷ (12, Dead, Null) ∷ (13, Dead, Null)
        ∷ (14, Dead, Null) ∷ (15, Dead, Null) ∷ [] }
    ensures slots_of_1 { slots_at three_helpers 1 ≡ (0, Claimed 0, Live 10)
        ∷ (1, Claimed 32, Live 42) ∷ (2, Claimed 64, Live 74)
        ∷ (16, Claimed 16, Live 26) ∷ (17, Claimed 48, Live 58) ∷ (18, Claimed 80, Live 90) ∷ [] }
    ensures headers_of_0 { headers_at three_helpers 0 ≡ (1, 24, 16) }
    ensures top { top_at three_helpers ≡ 1 }
    ensures numbers { HasNumbers three_helpers
        ((0, Some 10) ∷ (16, Some 26) ∷ (32, Some 42) ∷ (48, Some 58) ∷ (64, Some 74)
        ∷ (80, Some 90) ∷ []) }
{}

/// Seat 1 wins the exchange that seat 0 was about to make: its call, which may try once, ends with
/// no `Won` and no `Read`.
pub fn contended_once()
    ensures legal { IsLegal contended_once.plan contended_once.events }
    ensures slots_of_0 { slots_at contended_once 0 ≡ (3, Claimed 7, Live 6) ∷ [] }
    ensures top { top_at contended_once ≡ 0 }
    ensures numbers { HasNumbers contended_once ((7, Some 6) ∷ []) }
{}

/// The same, where the call may try twice.
pub fn contended_once_with_two_tries()
    ensures legal { IsLegal contended_once_with_two_tries.plan
        contended_once_with_two_tries.events }
    ensures slots_of_0 { slots_at contended_once_with_two_tries 0 ≡ (3, Claimed 7, Live 5) ∷ [] }
    ensures top { top_at contended_once_with_two_tries ≡ 0 }
    ensures numbers { HasNumbers contended_once_with_two_tries ((7, Some 5) ∷ []) }
{}

/// A table that was filled and emptied by removals grows by tombstones alone: nothing is copied.
pub fn filled_removed_refilled()
    ensures legal { IsLegal filled_removed_refilled.plan filled_removed_refilled.events }
    ensures slots_of_0 { slots_at filled_removed_refilled 0 ≡ (0, Claimed 0, PrimedTombstone)
        ∷ (1, Claimed 1, PrimedTombstone)
        ∷ (2, Claimed 2, PrimedTombstone) ∷ (3, Claimed 3, PrimedTombstone) ∷ [] }
    ensures slots_of_1 { slots_at filled_removed_refilled 1 ≡ (0, Claimed 0, Live 20)
        ∷ (1, Claimed 1, Live 21)
        ∷ (2, Claimed 2, Live 22) ∷ (3, Claimed 3, Live 23) ∷ (4, Claimed 4, Live 14)
        ∷ (5, Claimed 5, Live 15) ∷ (6, Claimed 6, Live 16) ∷ (7, Claimed 7, Live 17) ∷ [] }
    ensures headers_of_0 { headers_at filled_removed_refilled 0 ≡ (1, 4, 4) }
    ensures top { top_at filled_removed_refilled ≡ 1 }
    ensures numbers { HasNumbers filled_removed_refilled
        ((0, Some 20) ∷ (1, Some 21) ∷ (2, Some 22) ∷ (3, Some 23)
        ∷ (4, Some 14) ∷ (5, Some 15) ∷ (6, Some 16) ∷ (7, Some 17) ∷ []) }
    ensures full { IsCrowded filled_removed_refilled.plan filled_removed_refilled.events 8 }
{}

/// Three tables, the first two of one size.
pub fn plan_of_three()
    ensures legal { IsLegal plan_of_three.plan plan_of_three.events }
    ensures slots_of_0 { slots_at plan_of_three 0 ≡ (0, Claimed 0, Finished 10)
        ∷ (1, Claimed 4, Finished 14)
        ∷ (2, Claimed 8, Finished 18) ∷ (3, Dead, Null) ∷ [] }
    ensures slots_of_1 { slots_at plan_of_three 1 ≡ (0, Claimed 0, Finished 10)
        ∷ (1, Claimed 4, Finished 14)
        ∷ (2, Claimed 8, Finished 18) ∷ (3, Dead, Null) ∷ [] }
    ensures slots_of_2 { slots_at plan_of_three 2 ≡ (0, Claimed 0, Live 10)
        ∷ (1, Claimed 8, Live 18) ∷ (4, Claimed 4, Live 14)
        ∷ (5, Claimed 12, Live 22) ∷ [] }
    ensures headers_of_0 { headers_at plan_of_three 0 ≡ (1, 4, 4) }
    ensures headers_of_1 { headers_at plan_of_three 1 ≡ (1, 4, 4) }
    ensures top { top_at plan_of_three ≡ 2 }
    ensures numbers { HasNumbers plan_of_three
        ((0, Some 10) ∷ (4, Some 14) ∷ (8, Some 18) ∷ (12, Some 22) ∷ []) }
{}

/// A table whose removed keys hold its slots is followed by one of the same size.
pub fn same_size_successor()
    ensures legal { IsLegal same_size_successor.plan same_size_successor.events }
    ensures slots_of_0 { slots_at same_size_successor 0 ≡ (0, Claimed 0, PrimedTombstone)
        ∷ (1, Claimed 4, PrimedTombstone)
        ∷ (2, Claimed 8, PrimedTombstone) ∷ (3, Dead, Null) ∷ [] }
    ensures slots_of_1 { slots_at same_size_successor 1 ≡ (0, Claimed 12, Live 22)
        ∷ (1, Claimed 16, Live 26)
        ∷ (2, Claimed 20, Live 30) ∷ (3, Claimed 24, Live 34) ∷ [] }
    ensures headers_of_0 { headers_at same_size_successor 0 ≡ (1, 4, 4) }
    ensures top { top_at same_size_successor ≡ 1 }
    ensures numbers { HasNumbers same_size_successor
        ((0, None) ∷ (4, None) ∷ (8, None) ∷ (12, Some 22) ∷ (16, Some 26)
        ∷ (20, Some 30) ∷ (24, Some 34) ∷ []) }
    ensures full { IsCrowded same_size_successor.plan same_size_successor.events 28 }
{}

/// An add that lost its exchange to a put is made again, on the number that was put.
pub fn add_contended_once()
    ensures legal { IsLegal add_contended_once.plan add_contended_once.events }
    ensures slots_of_0 { slots_at add_contended_once 0 ≡ (3, Claimed 7, Live 11) ∷ [] }
    ensures top { top_at add_contended_once ≡ 0 }
    ensures numbers { HasNumbers add_contended_once ((7, Some 11) ∷ []) }
{}

/// Adds to keys that are absent and present, up to the greatest number.
pub fn adds()
    ensures legal { IsLegal adds.plan adds.events }
    ensures slots_of_0 { slots_at adds 0 ≡ (1, Claimed 1, Live 1152921504606846975)
        ∷ (2, Claimed 2, Live 0) ∷ [] }
    ensures top { top_at adds ≡ 0 }
    ensures numbers { HasNumbers adds ((1, Some 1152921504606846975) ∷ (2, Some 0) ∷ []) }
{}

/// The keys 0 to 3 have all four slots of a table in the middle of the chain, without a number. The
/// table has no next one: a read of key 5, which has no slot there, finds it absent.
pub fn full_in_the_middle()
    ensures legal { IsLegal full_in_the_middle.plan full_in_the_middle.events }
    ensures slots_of_0 { slots_at full_in_the_middle 0 ≡ (0, Claimed 0, PrimedNull)
        ∷ (1, Claimed 4, PrimedNull)
        ∷ (2, Claimed 8, PrimedNull) ∷ (3, Dead, Null) ∷ [] }
    ensures slots_of_1 { slots_at full_in_the_middle 1 ≡ (0, Claimed 0, Null) ∷ (1, Claimed 1, Null)
        ∷ (2, Claimed 2, Null)
        ∷ (3, Claimed 3, Null) ∷ [] }
    ensures slots_of_2 { slots_at full_in_the_middle 2 ≡ [] }
    ensures headers_of_1 { headers_at full_in_the_middle 1 ≡ (0, 0, 0) }
    ensures finished { finished_among (tables_at full_in_the_middle.plan full_in_the_middle.events)
        0 4 ≡ 4 }
    ensures top { top_at full_in_the_middle ≡ 0 }
    ensures numbers { HasNumbers full_in_the_middle ((1, None) ∷ (5, None) ∷ []) }
{}

/// A table is copied into one of the same size, and one of its slots is finished so far.
pub fn half_copied()
    ensures legal { IsLegal half_copied.plan half_copied.events }
    ensures slots_of_0 { slots_at half_copied 0 ≡ (0, Claimed 0, Finished 10)
        ∷ (1, Claimed 4, Live 14) ∷ (2, Claimed 8, Live 18)
        ∷ [] }
    ensures slots_of_1 { slots_at half_copied 1 ≡ (0, Claimed 0, Live 10) ∷ [] }
    ensures finished { finished_among (tables_at half_copied.plan half_copied.events) 0 4 ≡ 1 }
    ensures top { top_at half_copied ≡ 0 }
    ensures numbers { HasNumbers half_copied ((0, Some 10) ∷ (4, Some 14) ∷ (8, Some 18) ∷ []) }
{}

/// Where keys have their first place from a table on, after the history of `stopped_copier`, and
/// how many keys the calls of its two seats added, less how many they took out.
pub fn places_of_keys()
    ensures first { place_of stopped_copier.plan stopped_copier.events 0 16 ≡ Some (1, 2) }
    ensures later { place_of stopped_copier.plan stopped_copier.events 2 16 ≡ Some (2, 0) }
    ensures none { place_of stopped_copier.plan stopped_copier.events 0 5 ≡ None }
    ensures net { net_of_seats (log_of stopped_copier.events) 2 ≡ pos 5 }
{}

/// A shape may be of each plan of these histories.
pub fn plans()
    ensures grows_when_a_path_is_crowded { IsPlan grows_when_a_path_is_crowded.plan }
    ensures a_removal_is_not_copied { IsPlan a_removal_is_not_copied.plan }
    ensures copy_of_one_slot { IsPlan copy_of_one_slot.plan }
    ensures stopped_copier { IsPlan stopped_copier.plan }
    ensures three_helpers { IsPlan three_helpers.plan }
    ensures contended_once { IsPlan contended_once.plan }
    ensures contended_once_with_two_tries { IsPlan contended_once_with_two_tries.plan }
    ensures filled_removed_refilled { IsPlan filled_removed_refilled.plan }
    ensures plan_of_three { IsPlan plan_of_three.plan }
    ensures same_size_successor { IsPlan same_size_successor.plan }
    ensures add_contended_once { IsPlan add_contended_once.plan }
    ensures adds { IsPlan adds.plan }
    ensures full_in_the_middle { IsPlan full_in_the_middle.plan }
    ensures half_copied { IsPlan half_copied.plan }
{}

/// The words of states, and words that hold none.
pub fn words_of_states()
    ensures keys { map key_word (Empty ∷ Dead ∷ Claimed 0 ∷ Claimed KEY_MAX ∷ [])
        ≡ 0 ∷ 1 ∷ 2 ∷ 18446744073709551615 ∷ [] }
    ensures values { map value_word (Null ∷ PrimedNull ∷ Tombstone ∷ PrimedTombstone ∷ Live 5
        ∷ Primed 5 ∷ Finished 5
        ∷ Live VALUE_MAX ∷ []) ≡ 0 ∷ 1 ∷ 4 ∷ 5 ∷ 28 ∷ 29 ∷ 31 ∷ 4611686018427387908 ∷ [] }
    ensures none { map value_state (2 ∷ 3 ∷ 6 ∷ 7 ∷ 30 ∷ 4611686018427387912 ∷ [])
        ≡ replicate 6 None }
{}

/// Where the words of chains lie, and how many there are.
pub fn places()
    ensures words { map word_count (plan (2 ∷ []) 1 1
        ∷ plan (2 ∷ 3 ∷ 4 ∷ []) 1 1
        ∷ plan (2 ∷ 2 ∷ 3 ∷ []) 1 1
        ∷ plan (12 ∷ 13 ∷ 14 ∷ 15 ∷ 16 ∷ 17 ∷ 18 ∷ 19 ∷ []) 8 8
        ∷ []) ≡ 12 ∷ 66 ∷ 42 ∷ 2088985 ∷ [] }
    ensures tables { map (base_of (plan (2 ∷ 3 ∷ 4 ∷ []) 1 1)) (0 ∷ 1 ∷ 2 ∷ []) ≡ 1 ∷ 12 ∷ 31 ∷ [] }
    ensures two_of_one_size { map (base_of (plan (2 ∷ 2 ∷ 3 ∷ []) 1 1)) (0 ∷ 1 ∷ 2 ∷ [])
        ≡ 1 ∷ 12 ∷ 23 ∷ [] }
    ensures key { key_place (plan (2 ∷ 3 ∷ 4 ∷ []) 1 1) 1 5 ≡ 25 }
    ensures value { value_place (plan (2 ∷ 3 ∷ 4 ∷ []) 1 1) 1 5 ≡ 26 }
{}

/// How many slots of its path a fresh writer may claim, in a table with a next and in the last one,
/// and how many slots are handed out at once.
pub fn limits_and_chunks()
    ensures limits { map (limit_of (plan (2 ∷ 3 ∷ 4 ∷ 5 ∷ 5 ∷ []) 1 1)) (0 ∷ 1 ∷ 2 ∷ 3 ∷ 4 ∷ [])
        ≡ 3 ∷ 4 ∷ 6 ∷ 10 ∷ 32 ∷ [] }
    ensures last { map (λ bits. limit_of (plan (bits ∷ []) 1 1) 0) (2 ∷ 3 ∷ 4 ∷ 5 ∷ [])
        ≡ 4 ∷ 8 ∷ 16 ∷ 32 ∷ [] }
    ensures chunks { map (chunk_of (plan (2 ∷ 3 ∷ 4 ∷ 5 ∷ []) 1 1)) (0 ∷ 1 ∷ 2 ∷ 3 ∷ [])
        ≡ 4 ∷ 8 ∷ 8 ∷ 8 ∷ [] }
{}
