//! What holds at each moment of a chain, and what a crate above may rest on while it makes one step
//! after another. Each function carries a law as its contract, so that the gate guards it; nobody
//! calls it. The crates above take the laws as theorems, from `proofs/Theorems.antt`.
ghost use Rattle.nb_table.specs.Laws.{
  GoesOn,
  StepperHasSeen,
  StepsAddUp,
  WordsAreLawful,
  WordsChangeLawfully,
  WordsStand,
};
ghost use Rattle.nb_table.specs.Settling.{
  SettledAsClosed,
  SettledIsAll,
  SettledIsLeft,
  SettledTwice,
};

/// At each moment, whatever steps were made by whom, the words of a chain stand for the map of its
/// history.
pub fn words_stand()
    ensures { WordsStand }
{}

/// At each moment there are as many words as the shape has, and each key word and value word stands
/// for a state.
pub fn words_are_lawful()
    ensures { WordsAreLawful }
{}

/// From one moment to a later one the words change by the events of the history alone, one word at
/// each event; a key or a value only as the event's kind may change it.
pub fn words_change_lawfully()
    ensures { WordsChangeLawfully }
{}

/// The history of a later moment goes on from that of an earlier one, where each seat has seen at
/// least what it had seen.
pub fn goes_on()
    ensures { GoesOn }
{}

/// Who makes a step has then seen all of the history, be the step an event or none.
pub fn stepper_has_seen()
    ensures { StepperHasSeen }
{}

/// Steps add up: what a seat saw, the events that it made and the number of its steps. And what it
/// has seen of a claimed key, a finished slot, a complete table and the like stays so.
pub fn steps_add_up()
    ensures { StepsAddUp }
{}

/// At a moment at which all seats have seen the same, as after `settle`, this is the whole history,
/// and the words are what it left.
pub fn settled_is_all()
    ensures { SettledIsAll }
{}

/// Where seats are settled twice and made no step between, the second time changes nothing.
pub fn settled_twice()
    ensures { SettledTwice }
{}

/// Settled seats know what they would know if they had closed the chain.
pub fn settled_as_closed()
    ensures { SettledAsClosed }
{}

/// What is left of a chain that is closed by settled seats is what they had all seen.
pub fn settled_is_left()
    ensures { SettledIsLeft }
{}
