//! The additive estimate of a state, and whether a state is dead.
//!
//! `specs/Values` has what callers need: what contracts see of an evaluator, and what it means that
//! a state was evaluated; `specs/Orders` says what the order of supporters is.
#![tactic(auto)]

mod add;
mod evaluating;
mod network;
mod settling;
mod sums;

pub use add::Add;
