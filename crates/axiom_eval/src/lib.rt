//! Derived variables: what the rules of a task give in a state.
//!
//! `specs/` has what else callers need: what it means that `Axioms` are for a task, and the laws of
//! facts within a state and of effects written one after the other.
#![tactic(auto)]

mod axioms;
mod building;
mod layers;
mod settling;
mod tables;

pub use axioms::Axioms;
