//! What the stripes of a counter stand for. Each function carries a law as its contract, so that
//! the gate guards it; nobody calls it. A crate above takes them as theorems, from
//! `proofs/Theorems.antt`.
ghost use Rattle.nb_count.specs.Tallies.{LooksChangeNoWord, StripesAreFree, StripesAreTheSum};

/// The sum of the stripes is what all seats have added, modulo 2^64.
pub fn stripes_are_the_sum()
    ensures { StripesAreTheSum }
{}

/// Two counters whose seats have added the same have the same sum, modulo 2^64, however many
/// stripes each has.
pub fn stripes_are_free()
    ensures { StripesAreFree }
{}

/// A step that its seat takes for a look has changed no word.
pub fn looks_change_no_word()
    ensures { LooksChangeNoWord }
{}
