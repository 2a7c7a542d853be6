//! Sets of numbers as rows of bits, 64 to a word.
#![tactic(auto)]

mod rows;

pub use rows::{clear, has, put, row_for, words_for};
