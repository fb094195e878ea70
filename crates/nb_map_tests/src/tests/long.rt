//! Typed maps: values by their receipts, by keys, and between threads.
mod by_handles;
mod new_store;
mod receipts;
mod stories;
mod texts;
mod threads;
mod updating;
mod values;
