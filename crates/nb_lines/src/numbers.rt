//! Numbers among the words of the command line.
ghost use Rattle.std.specs.Prelude.{◌≡◌, ◌<◌, ◌≤◌, ℕ, IfOk, IfSome, IsOk, Some, None};
ghost use Rattle.nb_core.specs.Digits.{number_spelled};

use crate::command_line::Given;
use crate::faults::WordsFault;
use nb_core::read_number;
use std::alloc::Global;

/// A number that the command line may give: its name, with its dashes where it is an option, and
/// its range.
#[derive(Clone, Copy)]
pub struct NumberWord {
    pub name: &'static str,
    pub low: u64,
    pub high: u64,
}

impl NumberWord {
    /// The number that was given, or its default. There is none where neither is.
    pub fn find(self, alloc: Global, given: &Given) -> Result<Option<u64>, WordsFault>
        ensures range { IfOk result (λ found. IfSome found
            (λ number. (self.low ≤ number) × (number ≤ self.high))) }
    {
        match given.text(self.name) {
            Some(word) => Ok(Some(self.read(alloc, word)?)),
            None => Ok(None),
        }
    }

    /// The number that a word writes in digits alone, within the range.
    pub fn read(self, alloc: Global, word: &str) -> Result<u64, WordsFault>
        ensures read { IfOk result (λ number. (number_spelled word.now ≡ Some number)
            × (self.low ≤ number) × (number ≤ self.high)) }
        ensures taken { (number : ℕ) → number_spelled word.now ≡ Some number
            → self.low ≤ number → number ≤ self.high → IsOk result }
    {
        match read_number(word.as_bytes()) {
            Ok(number) if self.low <= number && number <= self.high => Ok(number),
            _ => Err(self.refused(alloc, word)),
        }
    }

    /// What is said of a word that gives no number of the range.
    fn refused(self, alloc: Global, word: &str) -> WordsFault {
        let NumberWord { name, low, high } = self;
        match format!(in alloc; "{name} {word}: not from {low} to {high}") {
            Ok(text) => WordsFault::Wrong(text),
            Err(_) => WordsFault::OutOfMemory,
        }
    }
}
