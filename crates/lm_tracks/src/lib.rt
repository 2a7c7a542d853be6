//! Which landmarks are accepted along the paths to the states of a search, by rows of bits.
//!
//! `specs/Tracks` says what is kept for the number of a state.
#![tactic(auto)]

mod rows;
mod tracks;

pub use tracks::Tracks;
