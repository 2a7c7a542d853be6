//! Reasonable orders between landmarks: which of two to reach first, where the other would have to
//! be given up on the way to it.
#![tactic(auto)]

mod adding;
mod facts;
mod givers;
mod sources;
mod tables;

pub use adding::add_reasonable;
