//! Runs without a fault, gates, shapes, texts of errors, and words that never come from a process.

mod ends;
mod gates;
mod runs;
mod shapes;
mod texts;
