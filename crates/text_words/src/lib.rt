//! Texts that are read line by line: their lines, the words of a line, and the numbers that words are.
#![tactic(auto)]

mod lines;
mod numbers;

pub use lines::{is_skipped, split, without_return, words};
pub use numbers::{number, unsigned};
