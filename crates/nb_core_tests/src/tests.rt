//! Tests of the lowest libraries: numbers and shapes, words of slots, the plain map, the counter,
//! the chain and its tables, and what the faults of programs say.
mod chain;
mod counter;
mod numbers;
mod plain;
mod shapes;
mod slot_words;
mod tables;
mod texts;
