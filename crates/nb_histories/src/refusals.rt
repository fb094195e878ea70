//! Examples of what wrong code would do: a legal history, and an event that may not follow it. Each
//! function carries this as its contract; it does nothing when it runs. The histories are written
//! out in this crate's `specs/Refusals.antt`.
ghost use Rattle.nb_core.specs.History.{IsLegal};
ghost use Rattle.nb_histories.specs.Refusals.{
  MayNotFollow,
  MayNotReply,
  overwriting_copy,
  overwriting_copy_of_a_newer_number,
  early_finish,
  early_finish_at_a_null,
  hasty_writer,
  double_count,
  double_count_by_one_seat,
  early_promotion,
  late_copier,
  late_copier_past_a_primed_tombstone,
  reused_key,
  stale_sum,
  stale_sum_replacing_what_stands,
  silent_overflow,
};

/// A second copier stores the number of a key over the same number, which a first one stored.
pub fn overwriting_copy()
    ensures legal { IsLegal overwriting_copy.plan overwriting_copy.before }
    ensures refused { MayNotFollow overwriting_copy }
{}

/// A second copier stores an old number over a newer one.
pub fn overwriting_copy_of_a_newer_number()
    ensures legal { IsLegal overwriting_copy_of_a_newer_number.plan
        overwriting_copy_of_a_newer_number.before }
    ensures refused { MayNotFollow overwriting_copy_of_a_newer_number }
{}

/// A slot is marked as copied before its key has a slot in the next table.
pub fn early_finish()
    ensures legal { IsLegal early_finish.plan early_finish.before }
    ensures refused { MayNotFollow early_finish }
{}

/// A slot is marked as copied when its key has a slot in the next table, and no value yet.
pub fn early_finish_at_a_null()
    ensures legal { IsLegal early_finish_at_a_null.plan early_finish_at_a_null.before }
    ensures refused { MayNotFollow early_finish_at_a_null }
{}

/// A writer exchanges a value in the next table while its key's slot in the table below is not
/// finished.
pub fn hasty_writer()
    ensures legal { IsLegal hasty_writer.plan hasty_writer.before }
    ensures refused { MayNotFollow hasty_writer }
{}

/// A slot is counted by a second seat, which met it finished.
pub fn double_count()
    ensures legal { IsLegal double_count.plan double_count.before }
    ensures refused { MayNotFollow double_count }
{}

/// A slot is counted twice by the seat that finished it.
pub fn double_count_by_one_seat()
    ensures legal { IsLegal double_count_by_one_seat.plan double_count_by_one_seat.before }
    ensures refused { MayNotFollow double_count_by_one_seat }
{}

/// A table is passed when all its slots were handed out and none is finished.
pub fn early_promotion()
    ensures legal { IsLegal early_promotion.plan early_promotion.before }
    ensures refused { MayNotFollow early_promotion }
{}

/// A copier that was stopped goes on one table too far, and brings back a number that was removed.
pub fn late_copier()
    ensures legal { IsLegal late_copier.plan late_copier.before }
    ensures refused { MayNotFollow late_copier }
{}

/// The same, past a primed tombstone: the removed key would be shown again at once.
pub fn late_copier_past_a_primed_tombstone()
    ensures legal { IsLegal late_copier_past_a_primed_tombstone.plan
        late_copier_past_a_primed_tombstone.before }
    ensures refused { MayNotFollow late_copier_past_a_primed_tombstone }
{}

/// The key word of a removed key is given to another key.
pub fn reused_key()
    ensures legal { IsLegal reused_key.plan reused_key.before }
    ensures refused { MayNotFollow reused_key }
{}

/// An add exchanges a number that no longer stands there for its sum.
pub fn stale_sum()
    ensures legal { IsLegal stale_sum.plan stale_sum.before }
    ensures refused { MayNotFollow stale_sum }
{}

/// An add exchanges the number that stands there for a sum made from an older one.
pub fn stale_sum_replacing_what_stands()
    ensures legal { IsLegal stale_sum_replacing_what_stands.plan
        stale_sum_replacing_what_stands.before }
    ensures refused { MayNotFollow stale_sum_replacing_what_stands }
{}

/// An add whose sum is past the greatest number answers as if it were a read.
pub fn silent_overflow()
    ensures legal { IsLegal silent_overflow.plan silent_overflow.before }
    ensures refused { MayNotReply silent_overflow }
{}
