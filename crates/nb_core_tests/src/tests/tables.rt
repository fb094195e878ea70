//! Calls over a chain of tables, one after another and by several threads, and steps of copiers
//! that are made by hand.
mod by_hand;
mod copiers;
mod copies;
mod on_chain;
mod rows;
mod steps;
