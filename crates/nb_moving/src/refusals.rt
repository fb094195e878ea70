//! Examples of what wrong code would do: a legal history, and an event that may not follow it, or
//! that breaks the premise on seals. Each function carries this as its contract; it does nothing
//! when it runs. The histories are written out in this crate's `specs/Examples.antt`.
ghost use Rattle.nb_moving.specs.Moving.{IsLegal, SealsHold};
ghost use Rattle.nb_moving.specs.Examples.{
  BreaksSeals,
  MayNotFollow,
  copy_over_gone,
  copy_twice,
  no_second_look,
  copy_of_another,
  copy_too_far,
  mark_before_copy,
  put_over_frozen,
  hasty_write,
  put_without_close,
  stale_reply,
  none_at_closed,
  none_at_frozen,
  miss_in_full,
  read_too_far,
  close_over_number,
  full_before_begin,
  seal_before_begin,
  seal_over_frozen,
  seal_out_of_order,
  second_link,
  link_back,
  link_from_nowhere,
  write_in_sealed,
};

/// A late copier brings back a key that was removed.
pub fn copy_over_gone()
    ensures legal { IsLegal copy_over_gone.before }
    ensures seals { SealsHold copy_over_gone.before }
    ensures refused { MayNotFollow copy_over_gone }
{}

/// A second copier puts its number over the first one's.
pub fn copy_twice()
    ensures legal { IsLegal copy_twice.before }
    ensures seals { SealsHold copy_twice.before }
    ensures refused { MayNotFollow copy_twice }
{}

/// A late copier goes past a closed core without a second look at its source, from which the
/// key went on.
pub fn no_second_look()
    ensures legal { IsLegal no_second_look.before }
    ensures seals { SealsHold no_second_look.before }
    ensures refused { MayNotFollow no_second_look }
{}

/// A copier puts another number than the one that is frozen.
pub fn copy_of_another()
    ensures legal { IsLegal copy_of_another.before }
    ensures seals { SealsHold copy_of_another.before }
    ensures refused { MayNotFollow copy_of_another }
{}

/// A copier goes past a core that isn't closed to the key.
pub fn copy_too_far()
    ensures legal { IsLegal copy_too_far.before }
    ensures seals { SealsHold copy_too_far.before }
    ensures refused { MayNotFollow copy_too_far }
{}

/// A number is marked as closed before it was copied.
pub fn mark_before_copy()
    ensures legal { IsLegal mark_before_copy.before }
    ensures seals { SealsHold mark_before_copy.before }
    ensures refused { MayNotFollow mark_before_copy }
{}

/// A put acts on a frozen number.
pub fn put_over_frozen()
    ensures legal { IsLegal put_over_frozen.before }
    ensures seals { SealsHold put_over_frozen.before }
    ensures refused { MayNotFollow put_over_frozen }
{}

/// A put acts in the next core, while the key's number is frozen in the first one.
pub fn hasty_write()
    ensures legal { IsLegal hasty_write.before }
    ensures seals { SealsHold hasty_write.before }
    ensures refused { MayNotFollow hasty_write }
{}

/// A put goes on to the next core, and leaves the key, which has no number, unclosed behind it.
pub fn put_without_close()
    ensures legal { IsLegal put_without_close.before }
    ensures seals { SealsHold put_without_close.before }
    ensures refused { MayNotFollow put_without_close }
{}

/// A put replies another number than the one that it replaces.
pub fn stale_reply()
    ensures legal { IsLegal stale_reply.before }
    ensures seals { SealsHold stale_reply.before }
    ensures refused { MayNotFollow stale_reply }
{}

/// A read answers that there is no number, where it finds the mark.
pub fn none_at_closed()
    ensures legal { IsLegal none_at_closed.before }
    ensures seals { SealsHold none_at_closed.before }
    ensures refused { MayNotFollow none_at_closed }
{}

/// A read answers that there is no number, where it finds a frozen one.
pub fn none_at_frozen()
    ensures legal { IsLegal none_at_frozen.before }
    ensures seals { SealsHold none_at_frozen.before }
    ensures refused { MayNotFollow none_at_frozen }
{}

/// A read answers that there is no number, where the core has no slot for the key, and doesn't
/// look at the link.
pub fn miss_in_full()
    ensures legal { IsLegal miss_in_full.before }
    ensures seals { SealsHold miss_in_full.before }
    ensures refused { MayNotFollow miss_in_full }
{}

/// A read begins behind a core that isn't closed to the key.
pub fn read_too_far()
    ensures legal { IsLegal read_too_far.before }
    ensures seals { SealsHold read_too_far.before }
    ensures refused { MayNotFollow read_too_far }
{}

/// A key is closed where it has a number.
pub fn close_over_number()
    ensures legal { IsLegal close_over_number.before }
    ensures seals { SealsHold close_over_number.before }
    ensures refused { MayNotFollow close_over_number }
{}

/// Want of a slot closes a key in a core that has no link.
pub fn full_before_begin()
    ensures legal { IsLegal full_before_begin.before }
    ensures seals { SealsHold full_before_begin.before }
    ensures refused { MayNotFollow full_before_begin }
{}

/// A core that has no link is sealed.
pub fn seal_before_begin()
    ensures legal { IsLegal seal_before_begin.before }
    ensures seals { SealsHold seal_before_begin.before }
    ensures refused { MayNotFollow seal_before_begin }
{}

/// A core is sealed in which a frozen number stands.
pub fn seal_over_frozen()
    ensures legal { IsLegal seal_over_frozen.before }
    ensures seals { SealsHold seal_over_frozen.before }
    ensures refused { MayNotFollow seal_over_frozen }
{}

/// A core is sealed before the one that leads to it, from which a copy is still to come.
pub fn seal_out_of_order()
    ensures legal { IsLegal seal_out_of_order.before }
    ensures seals { SealsHold seal_out_of_order.before }
    ensures refused { MayNotFollow seal_out_of_order }
{}

/// A core's link is set twice.
pub fn second_link()
    ensures legal { IsLegal second_link.before }
    ensures seals { SealsHold second_link.before }
    ensures refused { MayNotFollow second_link }
{}

/// A link leads to a core that another one leads to already.
pub fn link_back()
    ensures legal { IsLegal link_back.before }
    ensures seals { SealsHold link_back.before }
    ensures refused { MayNotFollow link_back }
{}

/// A core is left to which no link leads.
pub fn link_from_nowhere()
    ensures legal { IsLegal link_from_nowhere.before }
    ensures seals { SealsHold link_from_nowhere.before }
    ensures refused { MayNotFollow link_from_nowhere }
{}

/// A late writer puts a number into a core that is sealed.
pub fn write_in_sealed()
    ensures legal { IsLegal write_in_sealed.before }
    ensures seals { SealsHold write_in_sealed.before }
    ensures breaks { BreaksSeals write_in_sealed }
{}
