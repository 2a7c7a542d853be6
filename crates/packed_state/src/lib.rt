//! States packed into words: the value of each variable lies in a field of bits, and no field
//! crosses a word.
//!
//! `specs/` says what the words of a state are, and what it means that a layout is for a task:
//! among others that two states have equal words only where they are equal.
#![tactic(auto)]

mod fields;
mod layout;

pub use layout::Layout;
