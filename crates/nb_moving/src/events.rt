//! What happens in cores while keys move.
use nb_core::{Call, Key, Num, Reply};

/// Where the keys of a core go.
pub enum Link {
    /// All of them go to one core.
    One { core: usize },
    /// They go to one of two cores, by a bit of the key.
    Two { bit: u32, zero: usize, one: usize },
}

/// What a key is in a core.
pub enum State {
    /// It never had a number there.
    Never,
    Number(Num),
    /// It had a number, and was removed.
    Gone,
    /// The number is to be copied: no call of a user changes it any more.
    Frozen(Num),
    /// It is closed by a mark.
    Closed {
        /// Whether it had a number there before.
        had: bool,
    },
    /// It is closed for want of a slot, which a read doesn't show: it finds no number.
    Full,
}

/// One step of one thread, in the log of a core or at its link. A history is a list of events, the
/// newest first. No value of this type is made when a program runs: contracts speak of it.
pub enum Event {
    /// The core's link was set.
    Begin {
        thread: usize,
        core: usize,
        link: Link,
    },
    /// The core was sealed: it is closed to all keys.
    Seal {
        thread: usize,
        core: usize,
    },
    /// A call of the core found the key there, changed nothing, and decided no call of a user.
    Look {
        thread: usize,
        core: usize,
        key: Key,
    },
    /// A call of the core found the key there, changed nothing, and decided a user's call.
    Read {
        thread: usize,
        core: usize,
        call: Call,
        reply: Reply,
    },
    /// A user's call put a number into the core, or took one out.
    Write {
        thread: usize,
        core: usize,
        call: Call,
        reply: Reply,
    },
    /// The key's number was frozen.
    Freeze {
        thread: usize,
        core: usize,
        key: Key,
        number: Num,
    },
    /// The key's frozen number in `from` was put into `core`.
    Copy {
        thread: usize,
        from: usize,
        core: usize,
        key: Key,
        number: Num,
    },
    /// The key's frozen number was marked as closed, since core `to` had got it.
    Mark {
        thread: usize,
        core: usize,
        to: usize,
        key: Key,
        number: Num,
    },
    /// The key, which has no number there, was marked as closed.
    Close {
        thread: usize,
        core: usize,
        key: Key,
        had: bool,
    },
    /// The core, whose link is set, was found to have no slot left for the key.
    Fill {
        thread: usize,
        core: usize,
        key: Key,
    },
}
