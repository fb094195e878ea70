//! The set, by its handles and by its seats.
mod by_handles;
mod by_seats;
mod rows;
mod threads;
mod walks;
