//! Examples of histories. Each function carries what it tells of as its contract; it does nothing
//! when it runs. The histories are written out in this crate's `specs/Examples.antt`.
ghost use Rattle.std.specs.Prelude.{◌≡◌, List, [], ◌∷◌, Some, None, map, true, false};
ghost use Rattle.nb_core.specs.Log.{map_of_log};
ghost use Rattle.nb_moving.specs.Examples.{
  late_copy,
  left_for_two,
  over_three_cores,
  sealed_in_order,
  seals_of,
  states_of,
};
ghost use Rattle.nb_moving.specs.Moving.{IsLegal, SealsHold, number_at_home, row_of};
ghost use Rattle.nb_moving.specs.declared.events.State.TheVariants.{Never, Number, Gone, Closed, Full};

/// A key moves over three cores, while two threads write it.
pub fn over_three_cores()
    ensures legal { IsLegal over_three_cores }
    ensures seals { SealsHold over_three_cores }
    ensures states { states_of over_three_cores 5 ≡ (0, Closed true) ∷ (1, Closed true) ∷ (2, Gone)
        ∷ [] }
    ensures number { number_at_home (row_of over_three_cores 5) ≡ None }
{}

/// A late copier finds its source closed, and goes on without a copy.
pub fn late_copy()
    ensures legal { IsLegal late_copy }
    ensures seals { SealsHold late_copy }
    ensures states { states_of late_copy 5 ≡ (0, Closed true) ∷ (1, Closed true) ∷ (2, Number 11)
        ∷ [] }
    ensures number { number_at_home (row_of late_copy 5) ≡ Some 11 }
{}

/// A core is left for two, by a bit of the key, and sealed.
pub fn left_for_two()
    ensures legal { IsLegal left_for_two }
    ensures seals { SealsHold left_for_two }
    ensures even { states_of left_for_two 4 ≡ (0, Closed true) ∷ (1, Number 14) ∷ [] }
    ensures odd { states_of left_for_two 5 ≡ (0, Closed true) ∷ (2, Number 15) ∷ [] }
    ensures full { states_of left_for_two 7 ≡ (0, Full) ∷ (2, Number 17) ∷ [] }
    ensures other { states_of left_for_two 6 ≡ (0, Never) ∷ (1, Never) ∷ [] }
{}

/// Two cores are sealed, one after the other.
pub fn sealed_in_order()
    ensures legal { IsLegal sealed_in_order }
    ensures seals { SealsHold sealed_in_order }
    ensures cores { seals_of sealed_in_order 5 ≡ (0, true) ∷ (1, true) ∷ (2, false) ∷ [] }
{}
