//! What happens in a chain of tables.
use crate::calls::{Call, Reply};
use crate::numbers::{Key, Num};
use crate::states::ValueState;

/// One atomic change of a chain's words, or one step that changed none and decided a call, with the
/// number of the seat that made it. A history is a list of events, the newest first. No value of
/// this type is made when a program runs: contracts speak of it.
pub enum Event {
    /// The empty slot `i` of table `g` got a key.
    Claim {
        seat: usize,
        g: u32,
        i: usize,
        key: Key,
    },
    /// The empty slot was closed to keys.
    Kill {
        seat: usize,
        g: u32,
        i: usize,
    },
    /// A call exchanged the value of its key.
    Won {
        seat: usize,
        g: u32,
        i: usize,
        from: ValueState,
        to: ValueState,
        call: Call,
        reply: Reply,
    },
    /// The number of a key in table `g - 1` was stored in table `g`.
    CopyIn {
        seat: usize,
        g: u32,
        i: usize,
        key: Key,
        number: Num,
    },
    /// A value was primed, to be copied.
    Prime {
        seat: usize,
        g: u32,
        i: usize,
    },
    /// A primed number was marked as copied.
    Finish {
        seat: usize,
        g: u32,
        i: usize,
    },
    /// Table `g + 1` was linked, for a key whose path in `g` is crowded.
    Install {
        seat: usize,
        g: u32,
        key: Key,
    },
    /// A chunk of table `g` was handed out for copying.
    Take {
        seat: usize,
        g: u32,
    },
    /// Finished slots of table `g` were counted.
    Count {
        seat: usize,
        g: u32,
        slots: u64,
    },
    /// Table `g` was found to be complete: the top word rises to `g + 1`.
    Promote {
        seat: usize,
        g: u32,
    },
    /// A step that found a word, and left it as it is, decided a call that changes nothing: a load,
    /// or an exchange that was lost.
    Read {
        seat: usize,
        call: Call,
        reply: Reply,
    },
}
