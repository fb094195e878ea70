//! The words of a non-blocking hash map from whole numbers to whole numbers: keys and value
//! numbers, the shape of a chain of tables, calls and what they mean, a plain map that answers them
//! one after another, and the laws of every legal history of atomic steps. What is in `specs/` has
//! to be believed; examples of histories are in the crate `nb_histories`.
//!
//! The design is that of Cliff Click's JavaOne 2007 talk and of `NonBlockingHashMapLong` in
//! high-scale-lib; the replies are those of `java.util.concurrent.ConcurrentMap`.
#![tactic(auto)]

mod calls;
mod conversions;
mod digits;
mod events;
pub mod laws;
mod mixing;
mod numbers;
mod plain;
mod seat_room;
mod seats;
mod shapes;
mod slot_paths;
mod slot_words;
mod states;

pub use calls::{Call, Change, Reply, Want};
pub use digits::{DigitsFault, read_number};
pub use events::Event;
pub use mixing::{mix, unmix};
pub use numbers::{KEY_MAX, Key, Num, RangeFault, VALUE_MAX};
pub use plain::{PlainFault, PlainMap};
pub use seat_room::SeatRoom;
pub use seats::NotAll;
pub use shapes::{
    FEW_SEATS, FEW_STRIPES, HeaderWord, INSTALLED, MAX_EXPONENT, MAX_GENERATIONS, MAX_SEATS,
    MAX_SLOTS, MAX_STRIPES, MOST_KEYS, NOT_INSTALLED, SMALL_EXPONENT, Shape, ShapeFault, TOP_INDEX,
};
pub use slot_paths::{Path, Slot};
pub use slot_words::{
    DEAD_KEY, EMPTY_KEY, FINISHED_BIT, KeyWord, NULL_VALUE, PRIMED_BIT, ValueWord, decode_key,
    decode_value, encode_key, encode_value,
};
pub use states::{KeyState, ValueState};
pub use std::alloc::AllocError as OutOfMemory;
